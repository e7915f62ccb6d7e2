//! Raw strings with stops and damage at each place.
ghost use Rattle.std.specs.Prelude.{◌≤◌};

use jiter_scan::errors::{Fault, FaultKind as Kind};
use jiter_steps::raw_string::{raw_string_at, string_end};
use std::test::*;

// Whether a raw reading took these bytes and ended there.
fn took<'a>(answer: Result<(&'a [u8], usize), Fault>, content: &'a [u8], end: usize) -> bool {
    match answer {
        Ok((bytes, after)) => bytes == content && after == end,
        Err(_) => false,
    }
}

// Whether the string at the index is closed: all three readings take these bytes and end there.
fn closes<'a>(bytes: &'a [u8], at: usize, content: &'a [u8], end: usize) -> bool {
    if bytes.len() <= at {
        return false;
    }
    took(raw_string_at(bytes, at, false), content, end)
        && took(raw_string_at(bytes, at, true), content, end)
        && string_end(bytes, at) == Ok(end)
}

fn is_refusal(answer: Result<(&[u8], usize), Fault>, fault: Fault) -> bool {
    match answer {
        Ok(_) => false,
        Err(other) => other == fault,
    }
}

// Whether a reading that wants a closing quote refuses the string at the index so.
fn refuses_open(bytes: &[u8], at: usize, kind: Kind, index: usize) -> bool {
    let fault = Fault { kind, index };
    if bytes.len() <= at {
        return false;
    }
    is_refusal(raw_string_at(bytes, at, false), fault) && string_end(bytes, at) == Err(fault)
}

// Whether each of the three readings refuses the string at the index so.
fn refuses(bytes: &[u8], at: usize, kind: Kind, index: usize) -> bool {
    if bytes.len() <= at {
        return false;
    }
    refuses_open(bytes, at, kind, index)
        && is_refusal(raw_string_at(bytes, at, true), Fault { kind, index })
}

// Whether the string at index 0 is open: kept raw to the end of input, and else refused there.
fn is_open(bytes: &[u8]) -> bool {
    if bytes.is_empty() {
        return false;
    }
    refuses_open(bytes, 0, Kind::EofWhileParsingString, bytes.len())
        && took(raw_string_at(bytes, 0, true), &bytes[1..], bytes.len())
}

// So many times the byte `a`.
const PLAIN: [u8; 64] = [b'a'; 64];

// A quote, so many times `a`, the damage and a quote, with what follows it.
fn damaged(count: usize, damage: &[u8]) -> [u8; 64]
    requires { count ≤ 40 }
{
    let mut text = PLAIN;
    text[0] = b'"';
    for (i, byte) in damage.iter().enumerate() {
        if i < 16 {
            text[count + 1 + i] = *byte;
        }
    }
    if damage.len() < 16 {
        text[count + 1 + damage.len()] = b'"';
    }
    text
}

#[test]
fn damage_is_found_after_each_count_of_bytes(rt: HostRuntime) {
    for count in 0..41 {
        let text = damaged(count, b"\xff");
        assert!(rt; closes(&text, 0, &text[1..count + 2], count + 3));
        for (damage, kind, index) in [
            (
                b"\x1f".as_slice(),
                Kind::ControlCharacterWhileParsingString,
                1,
            ),
            (b"\\q", Kind::InvalidEscape, 2),
            (b"\\udc00", Kind::LoneLeadingSurrogateInHexEscape, 6),
            (b"\\ud83dx", Kind::UnexpectedEndOfHexEscape, 7),
        ] {
            let text = damaged(count, damage);
            assert!(rt; index < 8);
            assert!(rt;
                refuses(&text, 0, kind, count + index),
                "of {damage:?} after {count}"
            );
        }
    }
}

#[test]
fn each_stop_is_found_at_each_place_of_each_length(rt: HostRuntime) {
    for length in 1..42 {
        for place in 1..length {
            let mut text = PLAIN;
            text[0] = b'"';
            text[place] = b'"';
            assert!(rt; closes(&text[..length], 0, &text[1..place], place + 1));
            for byte in [0, b'\n', 0x1f] {
                text[place] = byte;
                let control = Kind::ControlCharacterWhileParsingString;
                assert!(rt; refuses(&text[..length], 0, control, place));
            }
            text[place] = b'\\';
            let end = place + 1 == length;
            let kind = if end {
                Kind::EofWhileParsingString
            } else {
                Kind::InvalidEscape
            };
            assert!(rt; refuses(&text[..length], 0, kind, place + 1));
        }
        let mut text = PLAIN;
        text[0] = b'"';
        assert!(rt; is_open(&text[..length]));
    }
}
