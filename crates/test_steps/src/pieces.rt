//! Escapes, texts and strings that come in pieces.
ghost use Rattle.std.specs.Prelude.{◌<◌};

use jiter_scan::memory::AllocFailed;
use jiter_steps::partial_escape::{EscapeStep, PartialEscape};
use jiter_steps::partial_string::{PartialString, StringStep};
use jiter_steps::partial_text::PartialText;
use std::alloc::{AllocError, Global};
use std::io;
use test_rows::bytes_of;

/// How many bytes after a backslash are taken before one is the last, or shows an error, and what is said then.
pub fn answer_escape(rt: &HostRuntime, bytes: &[u8]) -> io::Result<()> {
    let mut escape = PartialEscape::new();
    for (count, byte) in bytes.iter().enumerate() {
        match escape.next(*byte) {
            EscapeStep::Part => {}
            told => return println!(rt; "{told:?} after {count}"),
        }
    }
    println!(rt; "Part")
}

// The text of the bytes, in parts of this size at most.
fn in_parts(alloc: Global, bytes: &[u8], size: usize) -> Result<PartialText, AllocFailed>
    requires { 0 < size }
{
    let mut text = PartialText::new(alloc);
    for part in bytes.chunks(size) {
        let count = text.add(part)?;
        text.add(&part[count..])?;
    }
    Ok(text)
}

// What a text holds, and whether it is one where the input may cut it and where it must be complete.
fn told_text(alloc: Global, text: &PartialText) -> Result<String, AllocError> {
    let cut = text.is_text(true);
    let complete = text.is_text(false);
    format!(in alloc; "{:?}, cut {cut}, complete {complete}", text.text())
}

/// The text of the bytes: the same in parts of each size up to eight.
pub fn answer_text(rt: &HostRuntime, alloc: Global, bytes: &[u8]) -> io::Result<()> {
    let mut told = String::new(alloc);
    for size in 1..9usize {
        let Ok(text) = in_parts(alloc, bytes, size) else {
            return println!(rt; "out of memory");
        };
        let other = told_text(alloc, &text)?;
        if size > 1 && other != told {
            return println!(rt; "otherwise in parts of {size}");
        }
        told = other;
    }
    println!(rt; "{told}")
}

/// How many bytes of each piece a text takes, and what it holds then.
pub fn answer_text_pieces(rt: &HostRuntime, alloc: Global, input: &str) -> io::Result<()> {
    let mut text = PartialText::new(alloc);
    for piece in input.split('|') {
        match text.add(bytes_of(alloc, piece)?.as_slice()) {
            Ok(count) => print!(rt; "{count} ")?,
            Err(_) => print!(rt; "out of memory ")?,
        }
    }
    println!(rt; "{:?}", text.text())
}

// How many bytes of a piece a string takes, up to its quote or an error.
fn take_piece(string: &mut PartialString, piece: &[u8]) -> Result<usize, AllocFailed> {
    let mut at = 0usize;
    // Each turn takes a byte at least.
    for _ in 0..piece.len() {
        if piece.len() <= at {
            break;
        }
        match string.next(piece, at)? {
            StringStep::Taken(count) => at = at.saturating_add(count),
            _ => break,
        }
    }
    Ok(at)
}

/// How many bytes of each piece a string takes, up to its quote or an error, and what its text is then.
pub fn answer_string_pieces(rt: &HostRuntime, alloc: Global, input: &str) -> io::Result<()> {
    let mut string = PartialString::new(alloc);
    for piece in input.split('|') {
        let piece = bytes_of(alloc, piece)?;
        match take_piece(&mut string, piece.as_slice()) {
            Ok(count) => print!(rt; "[{count} {:?}]", string.text())?,
            Err(_) => print!(rt; "out of memory ")?,
        }
    }
    println!(rt; "")
}
