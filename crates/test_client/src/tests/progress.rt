//! What a terminal shows of a log that is read.
use json_lines::{Progress, Reports, Tally, Watched, progress_text};
use std::alloc::Global;
use std::cell::Cell;
use std::fmt::Display;
use std::io;
use std::io::{Read, Write};
use std::rt::Clock;
use std::test::*;
use std::time::Duration;

#[test]
fn progress_is_one_line(rt: HostRuntime) -> Result<(), Fail> {
    let most = 999_999_999_999_999;
    let rows = [
        ([0, 0, 0, 0], None, "0 B, 0 lines, 0 errors, 0 B/s"),
        ([7, 1, 0, 0], Some(0), "7 B, 1 lines, 0 errors, 7.0 GB/s"),
        (
            [12_345_678, 51000, 3, 100],
            Some(27_434_840),
            "12.3 MB (45%), 51000 lines, 3 errors, 123.4 MB/s",
        ),
        (
            [999, 2, 1, 1000],
            Some(1000),
            "999 B (99%), 2 lines, 1 errors, 999 B/s",
        ),
        (
            [1000, 2, 1, 3000],
            Some(1000),
            "1.0 KB (100%), 2 lines, 1 errors, 333 B/s",
        ),
        (
            [1_999_999, 20, 0, 1500],
            Some(1_000_000),
            "1.9 MB (100%), 20 lines, 0 errors, 1.3 MB/s",
        ),
        (
            [5_000_000_000, 20, 0, 2_000_000],
            None,
            "5.0 GB, 20 lines, 0 errors, 2.5 MB/s",
        ),
        (
            [most, most, most, 1000],
            Some(most + 1),
            "999.9 TB (99%), 999999999999999 lines, 999999999999999 errors, 999.9 TB/s",
        ),
    ];
    for (numbers, size, wanted) in rows {
        let [bytes, lines, errors, milliseconds] = numbers;
        let tally = Tally {
            bytes,
            lines,
            errors,
        };
        let elapsed = Duration::from_millis(milliseconds);
        let text = progress_text(rt.alloc(), tally, size, elapsed)?;
        assert_eq!(rt; text.as_str(), wanted);
        assert!(rt; text.len() < 79);
    }
    Ok(())
}

// A clock that stands still until a test moves it, and what is printed.
#[derive(Drop)]
struct Fake {
    alloc: Global,
    milliseconds: Cell<u64>,
    printed: Cell<Vec<u8>>,
}

impl Clock for Fake {
    fn monotonic(&self) -> io::Result<Duration> {
        Ok(Duration::from_millis(self.milliseconds.get()))
    }

    fn since_1970(&self) -> io::Result<Duration> {
        self.monotonic()
    }
}

impl Alloc for Fake {
    type A = Global;

    fn alloc(&self) -> Global {
        self.alloc
    }
}

impl Eprint for Fake {
    fn eprint<D: Display + Drop>(&self, value: D) -> io::Result<()> {
        let mut printed = self.printed.replace(Vec::new(self.alloc));
        let result = printed.write_fmt(value);
        self.printed.set(printed);
        result
    }

    fn eprintln<D: Display + Drop>(&self, value: D) -> io::Result<()> {
        self.eprint(value)
    }
}

impl Fake {
    // Whether this was printed since the last call. Moves the clock.
    fn printed(&self, wanted: &[u8], milliseconds: u64) -> bool {
        self.milliseconds.set(milliseconds);
        self.printed.replace(Vec::new(self.alloc)).as_slice() == wanted
    }
}

#[test]
fn progress_is_shown_each_second(rt: HostRuntime) -> Result<(), Fail> {
    let fake = Fake {
        alloc: rt.alloc(),
        milliseconds: Cell::new(5000),
        printed: Cell::new(Vec::new(rt.alloc())),
    };
    let progress = Progress::start(&fake, Some(16))?;
    let mut reader = Watched {
        reader: b"1\n\n2\n345678\n90".as_slice(),
        progress: Some(&progress),
    };
    let mut err = Reports {
        err: Vec::new(rt.alloc()),
        progress: Some(&progress),
    };
    let mut buf = [0u8; 4];
    assert_eq!(rt; reader.read(&mut buf)?, 4);
    assert!(rt; fake.printed(b"", 5999));
    assert_eq!(rt; reader.read(&mut buf[..1])?, 1);
    err.write_all(b"<stdin>:1:1: cause\n")?;
    assert!(rt; fake.printed(b"", 6000));
    assert_eq!(rt; reader.read(&mut buf)?, 4);
    let shown = b"\r\x1b[?7l9 B (56%), 3 lines, 1 errors, 9 B/s\x1b[K\x1b[?7h".as_slice();
    assert!(rt; fake.printed(shown, 6999));
    assert_eq!(rt; reader.read(&mut buf)?, 4);
    err.write_all(b"<stdin>:2:1: cause\n")?;
    err.write_all(b"<stdin>:3:1: cause\n")?;
    assert!(rt; fake.printed(b"\r\x1b[K", 9000));
    assert_eq!(rt; reader.read(&mut buf)?, 1);
    let shown = b"\r\x1b[?7l14 B (87%), 4 lines, 3 errors, 3 B/s\x1b[K\x1b[?7h".as_slice();
    assert!(rt; fake.printed(shown, 20000));
    assert_eq!(rt; reader.read(&mut buf)?, 0);
    progress.clear();
    progress.clear();
    assert!(rt; fake.printed(b"\r\x1b[K", 0));
    let reported = b"<stdin>:1:1: cause\n<stdin>:2:1: cause\n<stdin>:3:1: cause\n".as_slice();
    assert_eq!(rt; err.err.as_slice(), reported);
    Ok(())
}
