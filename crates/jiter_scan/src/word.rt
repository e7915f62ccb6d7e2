//! Words such as `true`, read from the left.
ghost use Rattle.std.specs.Prelude.{◌≡◌, ◌+◌, ◌<◌, ◌≤◌, IfOk, IfErr, IfSome, length, slice_get};
ghost use Rattle.jiter_scan.specs.Words.{Scans, taken, word_at};

use crate::errors::{Fault, FaultKind, fault_at};

/// Returns the byte at an index, or `None` at or past the length.
pub fn byte_at(bytes: &[u8], index: usize) -> Option<u8>
    ensures value { result ≡ slice_get bytes.now index }
    ensures inside { IfSome result (λ _. index < length bytes.now) }
{
    bytes.get(index).copied()
}

/// Returns the index after the word at `from` (RFC 8259, 3).
///
/// Fails with `ExpectedSomeIdent` at the first byte that differs. If the input ends first, fails with
/// `EofWhileParsingValue` at the length.
pub fn word_end(bytes: &[u8], from: usize, word: &[u8]) -> Result<usize, Fault>
    requires { from ≤ length bytes.now }
    ensures value { Scans (taken tt) result (word_at bytes.now word.now from) }
    ensures end { IfOk result (λ e. (e ≡ from + length word.now) × (e ≤ length bytes.now)) }
{
    let mut index = from;
    for expected in word {
        match byte_at(bytes, index) {
            None => return Err(fault_at(FaultKind::EofWhileParsingValue, index)),
            Some(byte) if byte != *expected => {
                return Err(fault_at(FaultKind::ExpectedSomeIdent, index));
            }
            Some(_) => {}
        }
        index += 1;
    }
    Ok(index)
}
