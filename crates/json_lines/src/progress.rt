//! How far a log is read, shown on a terminal.
ghost use Rattle.std.specs.Prelude.{◌≡◌, ◌≤◌, ◌+◌, ◌==◌, ◌<◌, ◌↔◌, IfOk, IsTrue, count_by, length, string_bytes};
ghost use Rattle.std.specs.Duration.{as_nanos};
ghost use Rattle.std.specs.Time.{instant_nanos};
ghost use Rattle.json_lines.specs.Progress.{IsUsual, percent_text, progress_text, rate, size_text, with_error, with_read};

use std::alloc::{AllocError, Global};
use std::cell::Cell;
use std::io;
use std::io::{Read, Write};
use std::rt::Clock;
use std::time::{Duration, Instant};

// Returns how many line feeds there are. A sum in a loop is compiled to vector instructions.
fn line_feeds(bytes: &[u8]) -> usize
    ensures { result ≡ count_by (λ byte. byte == 10) bytes.now }
{
    let mut feeds = 0;
    for byte in bytes {
        feeds += usize::from(*byte == b'\n');
    }
    feeds
}

/// What was read so far.
#[derive(Debug, Clone, Copy, PartialEq, Eq)]
pub struct Tally {
    /// The bytes.
    pub bytes: u64,
    /// The line feeds.
    pub lines: u64,
    /// The lines with an error.
    pub errors: u64,
}

impl Tally {
    /// Nothing was read.
    pub const NONE: Tally = Tally {
        bytes: 0,
        lines: 0,
        errors: 0,
    };

    // Returns the tally after these bytes.
    fn with_read(self, read: &[u8]) -> Tally
        ensures { result ≡ with_read self read.now }
    {
        Tally {
            bytes: self.bytes.saturating_add(read.len() as u64),
            lines: self.lines.saturating_add(line_feeds(read) as u64),
            errors: self.errors,
        }
    }

    // Returns the tally after one more line with an error.
    fn with_error(self) -> Tally
        ensures { result ≡ with_error self }
    {
        Tally {
            bytes: self.bytes,
            lines: self.lines,
            errors: self.errors.saturating_add(1),
        }
    }
}

// Returns a number of bytes, in the largest unit that it reaches.
fn size_text(alloc: Global, bytes: u128) -> Result<String, AllocError>
    ensures { IfOk result (λ text. string_bytes text ≡ size_text bytes) }
{
    let (unit, name) = match bytes {
        0..1_000 => return format!(in alloc; "{bytes} B"),
        1_000..1_000_000 => (1_000, " KB"),
        1_000_000..1_000_000_000 => (1_000_000, " MB"),
        1_000_000_000..1_000_000_000_000 => (1_000_000_000, " GB"),
        _ => (1_000_000_000_000, " TB"),
    };
    let (whole, tenth) = (bytes / unit, bytes % unit * 10 / unit);
    format!(in alloc; "{whole}.{tenth}{name}")
}

// Returns how much of an input is read, if its size is known.
fn percent_text(alloc: Global, bytes: u64, size: Option<u64>) -> Result<String, AllocError>
    ensures { IfOk result (λ text. string_bytes text ≡ percent_text bytes size) }
{
    match size {
        None | Some(0) => Ok(String::new(alloc)),
        Some(size) => {
            let percent = (u128::from(bytes) * 100 / u128::from(size)).min(100);
            format!(in alloc; " ({percent}%)")
        }
    }
}

// Returns whether a second has passed since the line was drawn.
fn is_due(drawn: Instant, now: Instant) -> bool
    ensures { IsTrue result ↔ (instant_nanos drawn + 1000000000 ≤ instant_nanos now) }
{
    now.duration_since(drawn) >= Duration::from_secs(1)
}

// Returns the bytes a second.
fn rate(bytes: u64, elapsed: Duration) -> u128
    ensures { result ≡ rate bytes (as_nanos elapsed) }
{
    u128::from(bytes) * 1_000_000_000 / elapsed.as_nanos().max(1)
}

/// Returns how far an input is read, in one line: `12.3 MB (45%), 51000 lines, 3 errors, 120.5 MB/s`. There is no percent
/// if the size isn't known, or is 0. The units are powers of 1000, and the speed is the mean of the time that has elapsed.
///
/// The text has fewer than 79 bytes if all numbers are below 10^15.
///
/// # Errors
///
/// - `AllocError` if an allocation fails
#[tactic(auto, using(crate::proofs::Width::progress_width))]
pub fn progress_text(
    alloc: Global,
    tally: Tally,
    size: Option<u64>,
    elapsed: Duration,
) -> Result<String, AllocError>
    ensures text { IfOk result (λ text. string_bytes text ≡ progress_text tally size (as_nanos elapsed)) }
    ensures width { IsUsual tally (as_nanos elapsed) → IfOk result (λ text. length (string_bytes text) < 79) }
{
    let Tally {
        bytes,
        lines,
        errors,
    } = tally;
    let read = size_text(alloc, u128::from(bytes))?;
    let percent = percent_text(alloc, bytes, size)?;
    let speed = size_text(alloc, rate(bytes, elapsed))?;
    format!(in alloc; "{read}{percent}, {lines} lines, {errors} errors, {speed}/s")
}

/// How far a log is read, and whether a terminal's last line shows it. [`Watched`] counts what is read and shows it once a
/// second; [`Reports`] takes it away before a line with an error is reported.
///
/// It is written to standard error, in one line that is overwritten. What can't be shown is no error of the program.
#[derive(Drop)]
pub struct Progress<'r, H> {
    rt: &'r H,
    size: Option<u64>,
    start: Instant,
    tally: Cell<Tally>,
    // When the line was last drawn; at first, the start.
    drawn: Cell<Instant>,
    is_shown: Cell<bool>,
}

impl<'r, H: Clock + Eprint + AllocGlobal> Progress<'r, H> {
    /// Returns the progress of an input of which nothing is read, with the input's size if it is known.
    ///
    /// # Errors
    ///
    /// - the error of the clock
    pub fn start(rt: &'r H, size: Option<u64>) -> io::Result<Progress<'r, H>> {
        let start = Instant::now(rt)?;
        Ok(Progress {
            rt,
            size,
            start,
            tally: Cell::new(Tally::NONE),
            drawn: Cell::new(start),
            is_shown: Cell::new(false),
        })
    }

    // Counts what was read, and draws the line if a second has passed since it was drawn.
    fn read(&self, read: &[u8]) {
        self.tally.set(self.tally.get().with_read(read));
        let _ = self.draw();
    }

    fn draw(&self) -> io::Result<()> {
        let now = Instant::now(self.rt)?;
        if !is_due(self.drawn.get(), now) {
            return Ok(());
        }
        let alloc = self.rt.alloc();
        let elapsed = now.duration_since(self.start);
        let text = progress_text(alloc, self.tally.get(), self.size, elapsed)?;
        self.drawn.set(now);
        self.is_shown.set(true);
        // The line isn't wrapped: a terminal that is too narrow cuts it.
        eprint!(self.rt; "\r\x1b[?7l{text}\x1b[K\x1b[?7h")
    }

    /// Takes away what is shown.
    pub fn clear(&self) {
        if self.is_shown.replace(false) {
            let _ = eprint!(self.rt; "\r\x1b[K");
        }
    }

    fn count_error(&self) {
        self.tally.set(self.tally.get().with_error());
    }
}

/// A reader whose bytes are counted and shown, if there is a progress.
#[derive(Drop)]
pub struct Watched<'p, R, H> {
    /// The reader.
    pub reader: R,
    /// The progress; without it, nothing is counted.
    pub progress: Option<&'p Progress<'p, H>>,
}

impl<R: Read, H: Clock + Eprint + AllocGlobal> Read for Watched<'_, R, H> {
    ghost remaining = { λ watched. R.remaining watched.reader };

    fn read(&mut self, buf: &mut [u8]) -> io::Result<usize> {
        let count = self.reader.read(buf)?;
        if let Some(progress) = self.progress {
            if count > 0 {
                progress.read(&buf[..count]);
            }
        }
        Ok(count)
    }
}

/// A writer of the lines that report errors: what is shown of the progress is taken away before each.
#[derive(Drop)]
pub struct Reports<'p, E, H> {
    /// The writer.
    pub err: E,
    /// The progress, if there is one.
    pub progress: Option<&'p Progress<'p, H>>,
}

impl<E: Write, H: Clock + Eprint + AllocGlobal> Write for Reports<'_, E, H> {
    ghost contents = { λ reports. E.contents reports.err };

    fn write(&mut self, buf: &[u8]) -> io::Result<usize> {
        let Some(progress) = self.progress else {
            return self.err.write(buf);
        };
        progress.clear();
        let count = self.err.write(buf)?;
        // The line is complete once its last bytes are written.
        if count == buf.len() {
            progress.count_error();
        }
        Ok(count)
    }

    fn flush(&mut self) -> io::Result<()> {
        self.err.flush()
    }
}
