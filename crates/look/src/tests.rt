//! Tests of the program over a reader and writers that count their calls, some of which fail.
//!
//! The contracts would allow a run that always fails, that reads past the end of its input, or that repeats a failed
//! call. The tests show that it does none of these.
use crate::looking::look;
use counted::{Calls, CountedReader, CountedWriter};
use std::alloc::{AllocError, Global};

mod counted;
mod reads;
mod words;
mod writing;

fn list_of(alloc: Global, given: &[&str]) -> Result<Vec<String>, AllocError> {
    let mut list = Vec::new(alloc);
    for word in given {
        list.push(String::from_str(alloc, word)?)?;
    }
    Ok(list)
}

// `first`, then `more` as often as `count` says, then `last`.
fn repeated(
    alloc: Global,
    first: &[u8],
    more: &str,
    count: usize,
    last: &str,
) -> Result<Vec<u8>, AllocError> {
    let mut bytes = Vec::from_slice(alloc, first)?;
    for _ in 0..count {
        bytes.extend_from_slice(more.as_bytes())?;
    }
    bytes.extend_from_slice(last.as_bytes())?;
    Ok(bytes)
}

// Arguments, an input, and the status and the line that are expected.
#[derive(Clone, Copy)]
struct Row<'a> {
    given: &'a [&'a str],
    text: &'a [u8],
    status: u8,
    line: &'a [u8],
}

// Returns the status of a run, and the writer that should get the row's line. Returns `None` if the other writer was
// called.
fn written(
    alloc: Global,
    row: Row<'_>,
    reader: &mut CountedReader<'_>,
    calls: Calls,
) -> Option<(u8, CountedWriter)> {
    let list = list_of(alloc, row.given).ok()?;
    let mut writer = CountedWriter::new(alloc, calls);
    let mut other = CountedWriter::new(alloc, Calls::working());
    let status = if row.status == 0 {
        look(alloc, list.as_slice(), reader, &mut writer, &mut other)
    } else {
        look(alloc, list.as_slice(), reader, &mut other, &mut writer)
    };
    if other.calls.made == 0 {
        Some((status, writer))
    } else {
        None
    }
}

// Whether a run gives the row's status and line. It must read its input to the end once, or not at all for the usage
// line. It must write the line byte by byte, and flush once.
fn does(alloc: Global, row: Row<'_>, piece: usize) -> bool {
    let mut reader = CountedReader::new(row.text, piece, Calls::working());
    let Some((status, writer)) = written(alloc, row, &mut reader, Calls::working()) else {
        return false;
    };
    let is_read = if row.status == 2 {
        reader.calls.made == 0
    } else {
        reader.ends == 1 && reader.rest.is_empty()
    };
    status == row.status && is_read && writer.took_whole(row.line)
}
