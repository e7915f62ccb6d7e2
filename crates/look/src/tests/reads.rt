//! Readers that return their input in chunks, and whose calls fail.
use super::counted::{Calls, CountedReader, ENDING_KINDS};
use super::{Row, does, repeated, written};
use std::alloc::Global;
use std::io::ErrorKind;
use std::test::*;

// Whether a run ends at the reader's failed call, and writes nothing.
fn ends_at(alloc: Global, text: &[u8], call: usize, kind: ErrorKind) -> bool {
    let row = Row {
        given: &["off"],
        text,
        status: 3,
        line: b"",
    };
    let mut reader = CountedReader::new(text, 1, Calls::failing(call, 1, kind));
    match written(alloc, row, &mut reader, Calls::working()) {
        Some((status, writer)) => {
            status == 3 && reader.calls.made == call.saturating_add(1) && writer.calls.made == 0
        }
        None => false,
    }
}

#[test]
fn nothing_is_read_or_written_after_a_failed_read(rt: HostRuntime) {
    for kind in ENDING_KINDS {
        // Four calls return a byte each, and the fifth is the end.
        for call in 0..5 {
            assert!(rt; ends_at(rt.alloc(), b"null", call, kind), "{kind}");
            assert!(rt; ends_at(rt.alloc(), b"nul!", call, kind), "{kind}");
        }
    }
}

// Whether the program makes this number of reads and writes this line.
fn shows_over<'a>(alloc: Global, text: &'a str, calls: Calls, reads: usize, line: &'a str) -> bool {
    let row = Row {
        given: &["off"],
        text: text.as_bytes(),
        status: 0,
        line: line.as_bytes(),
    };
    let mut reader = CountedReader::new(row.text, 1, calls);
    match written(alloc, row, &mut reader, Calls::working()) {
        Some((status, writer)) => {
            status == 0 && reader.calls.made == reads && writer.took_whole(row.line)
        }
        None => false,
    }
}

#[test]
fn an_interrupted_read_is_tried_again(rt: HostRuntime) {
    for call in 0..5 {
        for count in [1, 2, 100] {
            let calls = Calls::failing(call, count, ErrorKind::Interrupted);
            assert!(rt; shows_over(rt.alloc(), "null", calls, 5 + count, "null\n"));
        }
    }
}

#[test]
fn nothing_is_read_after_the_end(rt: HostRuntime) {
    // The reader would return more after the call that returned nothing.
    for (call, line) in [(1, "1\n"), (2, "12\n"), (3, "123\n")] {
        assert!(rt; shows_over(rt.alloc(), "1234", Calls::idle(call, 1), call + 1, line));
    }
}

// Text and line have their middle part `count` times.
fn reads_long(
    alloc: Global,
    count: usize,
    text: (&str, &str, &str),
    status: u8,
    line: (&str, &str, &str),
) -> bool {
    let Ok(text) = repeated(alloc, text.0.as_bytes(), text.1, count, text.2) else {
        return false;
    };
    let Ok(line) = repeated(alloc, line.0.as_bytes(), line.1, count, line.2) else {
        return false;
    };
    let row = Row {
        given: &["off"],
        text: text.as_slice(),
        status,
        line: line.as_slice(),
    };
    does(alloc, row, 4_099)
}

#[test]
fn a_million_blanks_and_a_long_string_are_read(rt: HostRuntime) {
    for (text, line) in [
        (("", " ", "1"), ("", "", "1\n")),
        (("\"", "a", "\""), ("\"", "a", "\"\n")),
    ] {
        assert!(rt; reads_long(rt.alloc(), 1_100_000, text, 0, line));
    }
}

#[test]
fn fifty_thousand_items_are_read(rt: HostRuntime) {
    let items = "{\"key\": [-12, \"a\\tb\"]}, ";
    let shown = "{\"key\":[-12,\"a\\u0009b\"]},";
    let fault = "EOF while parsing a value at line 1 column 1200001\n";
    for (last, status, line) in [("0]", 0, ("[", shown, "0]\n")), ("", 1, (fault, "", ""))] {
        assert!(rt; reads_long(rt.alloc(), 50_000, ("[", items, last), status, line));
    }
}
