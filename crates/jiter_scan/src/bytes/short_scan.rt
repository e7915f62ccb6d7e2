//! One look at a whole string, which most likely ends within sixteen bytes.
ghost use Rattle.std.specs.Prelude.{◌≡◌, ◌≤◌, ℕ, IsTrue, length};
ghost use Rattle.jiter_scan.specs.Scan.{IsAsciiTo, IsLook, scan_stop};

use crate::bytes::simd::{ascii_stops, scan_string, string_stop};
use crate::errors::FaultKind;
use crate::word::byte_at;
use std::simd::prelude::*;

/// What one look at a whole string found.
#[derive(Clone, Copy, Debug, PartialEq, Eq)]
pub enum Look {
    /// The closing quote. All bytes of the string are plain and below 80 hex.
    Plain,
    /// The closing quote. All bytes of the string are plain. Whether they are UTF-8 is not tested.
    Utf8,
    /// The first backslash, and whether all bytes before it are below 80 hex. All of them are plain.
    Escaped(bool),
    /// An error, or the end of the input.
    Fault(FaultKind),
}

/// Returns what is at `to`, the first byte of a string that isn't plain, or the length.
///
/// `ascii` is true only if all bytes of the string before it are below 80 hex.
#[inline(always)]
fn look_there(bytes: &[u8], to: usize, ascii: bool) -> Look
    ensures { (from : ℕ) → to ≡ scan_stop bytes.now from → (IsTrue ascii → IsAsciiTo bytes.now from to)
        → IsLook bytes.now from to result }
{
    match byte_at(bytes, to) {
        None => Look::Fault(FaultKind::EofWhileParsingString),
        Some(b'"') if ascii => Look::Plain,
        Some(b'"') => Look::Utf8,
        Some(b'\\') => Look::Escaped(ascii),
        Some(_) => Look::Fault(FaultKind::ControlCharacterWhileParsingString),
    }
}

/// Looks at the string whose first byte after the opening quote is at `from` (RFC 8259, 7).
///
/// Returns the index of the first byte that is not plain, or the length, and what is there. Fastest if that is a quote
/// among the first sixteen bytes, and all bytes before it are below 80 hex.
///
/// # Requires
///
/// - `from` is at most the length.
#[inline(always)]
pub fn look_at(bytes: &[u8], from: usize) -> (usize, Look)
    requires { from ≤ length bytes.now }
    ensures stop { result.0 ≡ scan_stop bytes.now from }
    ensures within { (from ≤ result.0) × (result.0 ≤ length bytes.now) }
    ensures means { IsLook bytes.now from result.0 result.1 }
{
    let (to, ascii) = if from + 16 > bytes.len() {
        scan_string(bytes, from)
    } else {
        let found = ascii_stops(u8x16::from_slice(&bytes[from..]));
        if found == 0 {
            scan_string(bytes, from + 16)
        } else {
            let to = from + found.trailing_zeros() as usize;
            let byte = bytes[to];
            if byte == b'"' {
                return (to, Look::Plain);
            }
            if byte >= 0x80 {
                (string_stop(bytes, to), false)
            } else {
                (to, true)
            }
        }
    };
    (to, look_there(bytes, to, ascii))
}
