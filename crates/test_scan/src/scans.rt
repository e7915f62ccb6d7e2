//! Words, scans and digits.
ghost use Rattle.std.specs.Prelude.{◌≤◌, length};

use crate::tell;
use jiter_scan::bytes::simd::{digit_count, digit_word, scan_string};
use jiter_scan::word::word_end;
use std::io;

// The word that all of the bytes are, from the mark on.
pub fn answer_word(rt: &HostRuntime, bytes: &[u8], at: usize) -> io::Result<()>
    requires { at ≤ length bytes.now }
{
    tell(rt, word_end(bytes, at, bytes))
}

// The index of the first stop from the mark on, and whether only ASCII stands before it.
pub fn answer_scan(rt: &HostRuntime, bytes: &[u8], at: usize) -> io::Result<()>
    requires { at ≤ length bytes.now }
{
    println!(rt; "{:?}", scan_string(bytes, at))
}

// The count of digits that sixteen bytes begin with, and their value.
pub fn answer_digits(rt: &HostRuntime, bytes: &[u8]) -> io::Result<()> {
    let Some(chunk) = bytes.first_chunk::<16>() else {
        return println!(rt; "fewer than sixteen bytes");
    };
    let count = digit_count(*chunk);
    if count < 1 || 16 < count {
        return println!(rt; "no digits");
    }
    println!(rt; "{count} digits, {}", digit_word(*chunk, count))
}
