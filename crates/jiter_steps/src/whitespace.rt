//! Finds the end of whitespace (RFC 8259, 2).
ghost use Rattle.std.specs.Prelude.{◌≡◌, ◌≤◌, length};
ghost use Rattle.jiter_steps.specs.Words.{failing, is_blank, past_blanks};

use std::simd::prelude::*;

/// Returns whether the byte is whitespace (RFC 8259, 2).
#[inline(always)]
pub fn is_blank(byte: u8) -> bool
    ensures { result ≡ is_blank byte }
{
    matches!(byte, b' ' | b'\t' | b'\n' | b'\r')
}

#[inline(always)]
fn no_blanks(v: u8x16) -> u64
    ensures { result ≡ failing is_blank v }
{
    (v.simd_ne(u8x16::splat(b' '))
        & v.simd_ne(u8x16::splat(b'\t'))
        & v.simd_ne(u8x16::splat(b'\n'))
        & v.simd_ne(u8x16::splat(b'\r'))).to_bitmask()
}

// In the common case at most one byte is whitespace, and two bytes are enough. Otherwise sixteen are read at a time.
#[inline(never)]
pub(crate) fn blanks_end(bytes: &[u8], from: usize) -> usize
    requires { from ≤ length bytes.now }
    ensures value { result ≡ past_blanks bytes.now from }
    ensures bound { result ≤ length bytes.now }
    ensures after { from ≤ result }
{
    if bytes.len() - from > 1 && bytes[from + 1] > b' ' {
        return if is_blank(bytes[from]) {
            from + 1
        } else {
            from
        };
    }
    let mut at = from;
    'chunks: while bytes.len() - at >= 16 {
        let others = no_blanks(u8x16::from_slice(&bytes[at..]));
        if others != 0 {
            return at + others.trailing_zeros() as usize;
        }
        at += 16;
    }
    'bytes: while at < bytes.len() && is_blank(bytes[at]) {
        at += 1;
    }
    at
}

/// Returns the index of the first byte from `from` on that is not whitespace, or the length (RFC 8259, 2).
#[inline(always)]
pub fn past_blanks(bytes: &[u8], from: usize) -> usize
    requires { from ≤ length bytes.now }
    ensures value { result ≡ past_blanks bytes.now from }
    ensures bound { result ≤ length bytes.now }
    ensures after { from ≤ result }
{
    if from == bytes.len() {
        return from;
    }
    if bytes[from] > b' ' {
        return from;
    }
    blanks_end(bytes, from)
}
