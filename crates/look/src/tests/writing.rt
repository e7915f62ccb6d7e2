//! Writers that take one byte a call, and whose calls fail.
use super::counted::{Calls, CountedReader, CountedWriter, ENDING_KINDS};
use super::{Row, written};
use crate::running::run;
use jiter::PartialMode;
use jiter_print::write_line;
use std::alloc::Global;
use std::io::ErrorKind;
use std::test::*;

// A row for each status with a line.
const ROWS: [Row<'static>; 3] = [
    Row {
        given: &["off"],
        text: b"null",
        status: 0,
        line: b"null\n",
    },
    Row {
        given: &["off"],
        text: b"?",
        status: 1,
        line: b"expected value at line 1 column 1\n",
    },
    Row {
        given: &["maybe"],
        text: b"[1]",
        status: 2,
        line: b"usage: look off|on|trailing-strings [inf-nan] [unique]\n",
    },
];

// Whether a line of this length is written byte by byte and flushed once.
fn is_whole(alloc: Global, length: usize) -> bool {
    let Ok(line) = Vec::from_elem(alloc, b'x', length) else {
        return false;
    };
    let mut writer = CountedWriter::new(alloc, Calls::working());
    write_line(&mut writer, line.as_slice()).is_ok() && writer.took_whole(line.as_slice())
}

#[test]
fn lines_of_each_length_are_written_whole(rt: HostRuntime) {
    for length in 0..=300 {
        assert!(rt; is_whole(rt.alloc(), length), "{length}");
    }
    for length in [2_000, 70_000, 1_100_000] {
        assert!(rt; is_whole(rt.alloc(), length), "{length}");
    }
}

#[test]
fn a_line_is_added_after_what_stands(rt: HostRuntime) {
    let alloc = rt.alloc();
    let mut out = Vec::new(alloc);
    let mut err = Vec::new(alloc);
    for text in ["[1 ]", "[", "2"] {
        let mut reader = text.as_bytes();
        run(
            alloc,
            &mut reader,
            &mut out,
            &mut err,
            PartialMode::Off,
            false,
            false,
        );
    }
    assert_eq!(rt; out.as_slice(), b"[1]\n2\n".as_slice());
    assert_eq!(rt;
        err.as_slice(),
        b"EOF while parsing a list at line 1 column 1\n".as_slice()
    );
}

// Whether a run ends with this status after `made` calls of its line's writer, which took the bytes `got`.
fn ends(alloc: Global, row: Row<'_>, calls: Calls, status: u8, made: usize, got: &[u8]) -> bool {
    let mut reader = CountedReader::new(row.text, 1, Calls::working());
    match written(alloc, row, &mut reader, calls) {
        Some((ended, writer)) => {
            ended == status && writer.calls.made == made && writer.got.as_slice() == got
        }
        None => false,
    }
}

// Whether the run fails at this call, makes no other, and has written a prefix of the line.
fn ends_at(alloc: Global, row: Row<'_>, call: usize, calls: Calls) -> bool {
    let prefix = row.line.get(..call).unwrap_or(row.line);
    ends(alloc, row, calls, 3, call.saturating_add(1), prefix)
}

// The same for each call in turn. The last one is the flush.
fn ends_at_each(alloc: Global, row: Row<'_>, kind: ErrorKind) -> bool {
    for call in 0..=row.line.len() {
        if !ends_at(alloc, row, call, Calls::failing(call, 1, kind)) {
            return false;
        }
    }
    true
}

#[test]
fn a_call_that_failed_is_the_last(rt: HostRuntime) {
    for row in ROWS {
        for kind in ENDING_KINDS {
            assert!(rt; ends_at_each(rt.alloc(), row, kind), "{kind}");
        }
    }
}

// Whether the line is written completely although `count` calls from this one on are interrupted.
fn is_tried_again(alloc: Global, row: Row<'_>, call: usize, count: usize) -> bool {
    let calls = Calls::failing(call, count, ErrorKind::Interrupted);
    let made = count.saturating_add(row.line.len() + 1);
    ends(alloc, row, calls, row.status, made, row.line)
}

#[test]
fn an_interrupted_write_is_tried_again(rt: HostRuntime) {
    for row in ROWS {
        for call in 0..row.line.len() {
            for count in [1, 2, 100] {
                assert!(rt; is_tried_again(rt.alloc(), row, call, count));
            }
        }
        assert!(rt; is_tried_again(rt.alloc(), row, 0, 100_000));
    }
}

#[test]
fn a_write_that_takes_nothing_and_an_interrupted_flush_are_the_last(rt: HostRuntime) {
    for row in ROWS {
        for call in 0..row.line.len() {
            assert!(rt; ends_at(rt.alloc(), row, call, Calls::idle(call, 1)));
        }
        let flush = row.line.len();
        let calls = Calls::failing(flush, 1, ErrorKind::Interrupted);
        assert!(rt; ends_at(rt.alloc(), row, flush, calls));
    }
}
