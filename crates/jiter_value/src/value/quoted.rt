//! A key as its error prints it: between quotes, with escapes.
ghost use Rattle.std.specs.Prelude.{◌≡◌, ◌++◌, ◌∷◌, [], ◌<◌, MatchOption, OnOk, length, slice_index};
ghost use Rattle.std.specs.Prelude.{slice_range, string_bytes, IsCharBoundary};
ghost use Rattle.jiter_value.specs.Words.{WritesOnOk, quoted, quoted_byte, quoted_from, EndsAtAscii};

use jiter_scan::memory::{AllocFailed, push_text};
use std::fmt;

fn control_escape(byte: u8) -> &'static str
    requires { byte < 32 }
    ensures { result.now ≡ quoted_byte byte }
{
    match byte {
        0 => "\\0",
        1 => "\\u{1}",
        2 => "\\u{2}",
        3 => "\\u{3}",
        4 => "\\u{4}",
        5 => "\\u{5}",
        6 => "\\u{6}",
        7 => "\\u{7}",
        8 => "\\u{8}",
        9 => "\\t",
        10 => "\\n",
        11 => "\\u{b}",
        12 => "\\u{c}",
        13 => "\\r",
        14 => "\\u{e}",
        15 => "\\u{f}",
        16 => "\\u{10}",
        17 => "\\u{11}",
        18 => "\\u{12}",
        19 => "\\u{13}",
        20 => "\\u{14}",
        21 => "\\u{15}",
        22 => "\\u{16}",
        23 => "\\u{17}",
        24 => "\\u{18}",
        25 => "\\u{19}",
        26 => "\\u{1a}",
        27 => "\\u{1b}",
        28 => "\\u{1c}",
        29 => "\\u{1d}",
        30 => "\\u{1e}",
        _ => "\\u{1f}",
    }
}

fn escape_of(byte: u8) -> Option<&'static str>
    ensures { MatchOption result (quoted_byte byte ≡ byte ∷ [])
        (λ text. (text.now ≡ quoted_byte byte) × (byte < 128)) }
{
    match byte {
        0..=31 => Some(control_escape(byte)),
        b'"' => Some("\\\""),
        b'\\' => Some("\\\\"),
        127 => Some("\\u{7f}"),
        _ => None,
    }
}

// The end of the run of bytes from `begin` on that print as they are.
fn run_end(bytes: &[u8], begin: usize) -> usize
    requires within { begin < length bytes.now }
    requires plain { quoted_byte (slice_index bytes.now begin) ≡ slice_index bytes.now begin ∷ [] }
    ensures ahead { begin < result }
    ensures run { slice_range bytes.now begin result ++ quoted_from bytes.now result ≡ quoted_from bytes.now begin }
    ensures stop { EndsAtAscii bytes.now result }
{
    for i in begin + 1..bytes.len() {
        match escape_of(bytes[i]) {
            Some(_) => return i,
            None => {}
        }
    }
    bytes.len()
}

// What is printed next, an escape or a run of bytes as they are, and the index after its source.
fn next_piece(key: &str, at: usize) -> (&str, usize)
    requires within { at < length key.now }
    requires boundary { IsCharBoundary key.now at }
    ensures text { result.0.now ++ quoted_from key.now result.1 ≡ quoted_from key.now at }
    ensures ahead { at < result.1 }
    ensures boundary { IsCharBoundary key.now result.1 }
{
    let bytes = key.as_bytes();
    match escape_of(bytes[at]) {
        Some(escape) => (escape, at + 1),
        None => {
            let end = run_end(bytes, at);
            (&key[at..end], end)
        }
    }
}

/// Appends a key between quotes, with escapes.
pub fn push_quoted(text: &mut String, key: &str) -> Result<(), AllocFailed>
    ensures { OnOk result (string_bytes text.new ≡ string_bytes text.old ++ quoted key.now) }
{
    push_text(text, "\"")?;
    let mut at = 0;
    while at < key.len() {
        let (piece, next) = next_piece(key, at);
        push_text(text, piece)?;
        at = next;
    }
    push_text(text, "\"")
}

/// Writes a key between quotes, with escapes.
pub fn write_quoted<W: fmt::Write>(f: &mut fmt::Formatter<W>, key: &str) -> fmt::Result
    ensures { WritesOnOk W.write_str_gives f.old result (quoted key.now) f.new }
{
    f.write_str("\"")?;
    let mut at = 0;
    while at < key.len() {
        let (piece, next) = next_piece(key, at);
        f.write_str(piece)?;
        at = next;
    }
    f.write_str("\"")
}
