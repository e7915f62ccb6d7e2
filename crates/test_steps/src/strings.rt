//! Strings, decoded and raw, and those that are plain.
ghost use Rattle.std.specs.Prelude.{◌<◌, length};

use jiter_scan::bytes::short_scan::look_at;
use jiter_scan::bytes::simd::scan_string;
use jiter_steps::raw_string::{raw_string_at, string_end};
use jiter_steps::read_error::ReadError;
use jiter_steps::string_decoder::{checked_text, string_at};
use std::alloc::{AllocError, Global};
use std::borrow::CowStr;
use std::io;

fn told_text(alloc: Global, text: &CowStr<'_>, end: usize) -> Result<String, AllocError> {
    let form = if matches!(text, CowStr::Borrowed(_)) {
        "borrowed"
    } else {
        "owned"
    };
    let text = text.as_str();
    format!(in alloc; "{form} {text:?} to {end}")
}

// The text of a string and the index after it, or its error.
fn told_string(
    alloc: Global,
    tape: &mut Vec<u8>,
    bytes: &[u8],
    at: usize,
    keep: bool,
) -> Result<String, AllocError>
    requires { at < length bytes.now }
{
    match string_at(alloc, tape, bytes, at, keep) {
        Ok((text, end)) => told_text(alloc, &text, end),
        Err(ReadError::Fault(fault)) => { format!(in alloc; "{:?} at {}", fault.kind, fault.index) }
        Err(ReadError::Memory(_)) => format!(in alloc; "out of memory"),
    }
}

/// The string at the mark: the same with a tape that has no room and with one that has.
pub fn answer_string(
    rt: &HostRuntime,
    alloc: Global,
    bytes: &[u8],
    at: usize,
    keep: bool,
) -> io::Result<()>
    requires { at < length bytes.now }
{
    let mut tape = Vec::new(alloc);
    let told = told_string(alloc, &mut tape, bytes, at, keep)?;
    let mut roomy = vec![in alloc; b'x'; 64]?;
    if told_string(alloc, &mut roomy, bytes, at, keep)? != told {
        return println!(rt; "otherwise with a tape of 64 bytes");
    }
    println!(rt; "{told}")
}

// Where a raw string ends, closed or open, or its error.
fn told_raw(alloc: Global, bytes: &[u8], at: usize, keep: bool) -> Result<String, AllocError>
    requires { at < length bytes.now }
{
    match raw_string_at(bytes, at, keep) {
        Ok((content, end)) => {
            if bytes.get(at + 1..end.saturating_sub(1)) == Some(content) {
                format!(in alloc; "to {end}")
            } else if bytes.get(at + 1..end) == Some(content) {
                format!(in alloc; "open to {end}")
            } else {
                format!(in alloc; "other bytes")
            }
        }
        Err(fault) => format!(in alloc; "{:?} at {}", fault.kind, fault.index),
    }
}

/// The raw string at the mark, as all three readings say; and where it is kept open, if that differs.
pub fn answer_raw(rt: &HostRuntime, alloc: Global, bytes: &[u8], at: usize) -> io::Result<()>
    requires { at < length bytes.now }
{
    let told = told_raw(alloc, bytes, at, false)?;
    let kept = told_raw(alloc, bytes, at, true)?;
    let end = match string_end(bytes, at) {
        Ok(end) => format!(in alloc; "to {end}")?,
        Err(fault) => format!(in alloc; "{:?} at {}", fault.kind, fault.index)?,
    };
    if end != told {
        return println!(rt; "string_end answers otherwise");
    }
    if kept == told {
        return println!(rt; "{told}");
    }
    println!(rt; "{told}, kept {kept}")
}

/// What one look at the string finds, and its index.
pub fn answer_look(rt: &HostRuntime, bytes: &[u8], at: usize) -> io::Result<()>
    requires { at < length bytes.now }
{
    let (to, look) = look_at(bytes, at + 1);
    println!(rt; "{look:?} at {to}")
}

/// The text from the mark to the first byte that is not plain, or the index of its error.
pub fn answer_checked_text(rt: &HostRuntime, bytes: &[u8], at: usize, keep: bool) -> io::Result<()>
    requires { at < length bytes.now }
{
    let (to, _) = scan_string(bytes, at + 1);
    let text = checked_text(bytes, at + 1, to, keep);
    println!(rt; "{text:?}")
}
