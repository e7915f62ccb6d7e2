//! Strings that arrive in pieces, cut at every byte, beside the decoder of whole ones.
ghost use Rattle.std.specs.Prelude.{◌<◌};

use jiter_scan::errors::FaultKind;
use jiter_scan::memory::AllocFailed;
use jiter_steps::partial_string::{PartialString, StringStep};
use jiter_steps::read_error::ReadError;
use jiter_steps::string_decoder::string_at;
use std::alloc::Global;
use std::borrow::CowStr;
use std::test::*;

// How far a string was read: to its closing quote at an index, to an error, or to the end of the input.
#[derive(Clone, Copy, Debug, PartialEq, Eq)]
enum Reached {
    Quote(usize),
    Wrong(FaultKind, usize),
    End,
}

// Reads a piece that begins at this index of the whole. Each turn takes a byte at least.
fn read_piece(
    string: &mut PartialString,
    piece: &[u8],
    begin: usize,
) -> Result<Reached, AllocFailed> {
    let mut at = 0;
    for _ in 0..piece.len() {
        if piece.len() <= at {
            break;
        }
        let here = begin.wrapping_add(at);
        match string.next(piece, at)? {
            StringStep::Taken(count) => at += count,
            StringStep::Quote => return Ok(Reached::Quote(here)),
            StringStep::Wrong(kind, back) => return Ok(Reached::Wrong(
                kind,
                here.wrapping_sub(back),
            )),
        }
    }
    Ok(Reached::End)
}

// Reads the bytes after the opening quote in pieces of this size, which begin at this index.
fn read_pieces(
    string: &mut PartialString,
    content: &[u8],
    begin: usize,
    size: usize,
) -> Result<Reached, AllocFailed>
    requires { 0 < size }
{
    let mut from = begin;
    for piece in content.chunks(size) {
        let reached = read_piece(string, piece, from)?;
        if reached != Reached::End {
            return Ok(reached);
        }
        from = from.wrapping_add(piece.len());
    }
    Ok(Reached::End)
}

// The same, cut in two first.
fn read_cut(
    string: &mut PartialString,
    content: &[u8],
    cut: usize,
    size: usize,
) -> Result<Reached, AllocFailed>
    requires { 0 < size }
{
    let cut = cut.min(content.len());
    let reached = read_piece(string, &content[..cut], 1)?;
    if reached != Reached::End {
        return Ok(reached);
    }
    read_pieces(string, &content[cut..], cut.wrapping_add(1), size)
}

// The index after the string's text, or the error that it has.
fn ended(string: &PartialString, keep: bool, end: usize) -> Result<usize, (FaultKind, usize)> {
    if string.is_text(keep) {
        Ok(end)
    } else {
        let index = string.text().len().wrapping_add(1);
        Err((FaultKind::InvalidUnicodeCodePoint, index))
    }
}

// What was read, of a whole of this length.
fn told(
    string: &PartialString,
    reached: Reached,
    keep: bool,
    length: usize,
) -> Result<usize, (FaultKind, usize)> {
    match reached {
        Reached::Quote(at) => ended(string, keep, at.wrapping_add(1)),
        Reached::Wrong(kind, index) => Err((kind, index)),
        Reached::End if keep => ended(string, keep, length),
        Reached::End => Err((FaultKind::EofWhileParsingString, length)),
    }
}

// Whether the string, which is cut there, is told as the whole one is.
fn agrees(alloc: Global, bytes: &[u8], cut: usize, size: usize, keep: bool) -> bool
    requires { 0 < size }
{
    if bytes.is_empty() {
        return false;
    }
    let mut string = PartialString::new(alloc);
    let Ok(reached) = read_cut(&mut string, &bytes[1..], cut, size) else {
        return false;
    };
    let answer = told(&string, reached, keep, bytes.len());
    let mut tape = Vec::new(alloc);
    match string_at(alloc, &mut tape, bytes, 0, keep) {
        Ok((text, end)) => answer == Ok(end) && string.text() == as_str(&text),
        Err(ReadError::Fault(fault)) => answer == Err((fault.kind, fault.index)),
        Err(ReadError::Memory(_)) => false,
    }
}

fn as_str<'a>(text: &'a CowStr<'a>) -> &'a str {
    match text {
        CowStr::Borrowed(s) => s,
        CowStr::Owned(s) => s.as_str(),
    }
}

#[test]
fn hostile_strings_cut_at_every_byte(rt: HostRuntime) {
    for bytes in [
        b"\"\"".as_slice(),
        b"\"",
        b"\"abc\" tail",
        b"\"abc",
        b"\"ab\x00\"",
        b"\"ab\x1f",
        b"\"\\",
        b"\"\\n\"",
        b"\"a\\/b\\\\c\\\"d\"",
        b"\"\\b\\f\\n\\r\\t\"",
        b"\"\\x\"",
        b"\"\\u0\"]",
        b"\"\\u0\"] ",
        b"\"\\u00e9\"",
        b"\"\\ud83d\\ude00\" ",
        b"\"\\ud83d\\ude0",
        b"\"\\ud83d\\u0041\"",
        b"\"\\ud83d\\n\"",
        b"\"\\ud83dx\"",
        b"\"\\udc00\"",
        b"\"\xff\x1f\"",
        b"\"\xff\"",
        b"\"\xff\\x\"",
        b"\"\xff",
        b"\"\xffa\xe2\x82\"",
        b"\"a\xe2\x82\"",
        b"\"a\xe2\x82",
        b"\"a\xe2\x82\\n\"",
        b"\"a\xe2\x82\\n",
        b"\"a\xe2\x82\\u20ac\xac\"",
        b"\"a\xe2\x82\\ud83d\\ude00\"",
        b"\"\\u00e9\xff\"",
        b"\"\\n\\n\\n\xf0\x9f\x98\"",
        b"\"\\n\\u20ac\xf0\x9f\x98\x80\xff",
        b"\"\xf0\x9f\x98\x80\xf0\x9f\x98\x80\xf0\x9f\x98\x80\xf0\x9f\x98\x80\"",
        b"\"\xc3\xa9\xc3\xa9\xc3\xa9\xc3\xa9\xc3\xa9\xc3\xa9\xc3\xa9\xc3\xa9\"",
        b"\"\xe2\x82\xac\xe2\x82\xac\xe2\x82\xac\xe2\x82\xac\xe2\x82\"",
        b"\"\xc3\"\xa9",
        b"\"\xed\xa0\x80\"",
        b"\"\xf4\x90\x80\x80\"",
        b"\"\xc0\xaf\"",
        b"\"ab\x80\"",
        b"\"0123456789abcdefghijklmnop\\nqrstuvwxyz\xc3\xa9 0123456789abcdef\" tail",
    ] {
        for cut in 0..bytes.len() {
            for size in [1, 3, 64usize] {
                assert!(rt; agrees(rt.alloc(), bytes, cut, size, false));
                assert!(rt; agrees(rt.alloc(), bytes, cut, size, true));
            }
        }
    }
}

#[test]
fn a_text_is_taken_out_and_given_back(rt: HostRuntime) {
    let mut string = PartialString::new(rt.alloc());
    assert_eq!(rt; string.next(b"ab\xc3", 0), Ok(StringStep::Taken(3)));
    let text = string.take_text();
    assert_eq!(rt; text.as_str(), "ab");
    assert_eq!(rt; string.text(), "");
    string.give_back(text);
    assert_eq!(rt; string.next(b"\xa9\"", 0), Ok(StringStep::Taken(1)));
    assert_eq!(rt; string.next(b"\xa9\"", 1), Ok(StringStep::Quote));
    assert_eq!(rt; string.text(), "ab\u{e9}");
}

#[test]
fn an_escape_is_taken_at_once_as_far_as_a_piece_has_it(rt: HostRuntime) {
    let mut string = PartialString::new(rt.alloc());
    assert_eq!(rt;
        string.next(b"a\\ud83d\\ude00b", 0),
        Ok(StringStep::Taken(14))
    );
    assert_eq!(rt; string.next(b"\\u20", 0), Ok(StringStep::Taken(4)));
    assert_eq!(rt; string.text(), "a\u{1f600}b");
    assert_eq!(rt; string.next(b"ac", 0), Ok(StringStep::Taken(1)));
    assert_eq!(rt; string.next(b"ac", 1), Ok(StringStep::Taken(1)));
    assert_eq!(rt; string.text(), "a\u{1f600}b\u{20ac}");
    assert_eq!(rt; string.next(b"\\q", 0), Ok(StringStep::Taken(1)));
}
