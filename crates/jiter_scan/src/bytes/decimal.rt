//! Decimal digits, sixteen bytes at a time.
ghost use Rattle.std.specs.Prelude.{◌≡◌, ℕ, List, ◌+◌, ◌*◌, ◌^◌, ◌<◌, ◌≤◌, length, take, drop, map, IfSome, IfNone};
ghost use Rattle.std.specs.Prelude.{slice_range};
ghost use Rattle.jiter_scan.specs.Words.{number_from_digits, AllBelowBase, number_l, is_digit, digit_run_end};
ghost use Rattle.jiter_scan.specs.Words.{decimal_of, digits_end, failing, less_zero, IsEightBytes};

use std::simd::prelude::*;

#[inline(always)]
fn no_digits(v: u8x16) -> u64
    ensures { result ≡ failing is_digit v }
{
    (v - u8x16::splat(b'0'))
        .simd_ge(u8x16::splat(10))
        .to_bitmask()
}

#[inline(always)]
pub(crate) fn is_digit(byte: u8) -> bool
    ensures { result ≡ is_digit byte }
{
    byte.is_ascii_digit()
}

#[inline(always)]
pub(crate) fn full_block_at(bytes: &[u8], at: usize) -> [u8; 16]
    requires { at + 16 ≤ length bytes.now }
    ensures { (n : ℕ) → n ≤ 16 → at + n ≤ length bytes.now
        → take n result ≡ slice_range bytes.now at (at + n) }
{
    u8x16::from_slice(&bytes[at..]).to_array()
}

// Bytes past the end of the input are 0.
#[inline(always)]
pub(crate) fn block_at(bytes: &[u8], at: usize) -> [u8; 16]
    requires { at ≤ length bytes.now }
    ensures { (n : ℕ) → n ≤ 16 → at + n ≤ length bytes.now
        → take n result ≡ slice_range bytes.now at (at + n) }
{
    if bytes.len() - at >= 16 {
        full_block_at(bytes, at)
    } else {
        let rest = &bytes[at..];
        let mut block = [0; 16];
        block[..rest.len()].copy_from_slice(rest);
        block
    }
}

// Returns how many digits the sixteen bytes begin with, or `None` if all of them are digits. An integer is read with it,
// since the test for sixteen digits is then the only one.
#[inline(always)]
pub(crate) fn few_digits(block: [u8; 16]) -> Option<usize>
    ensures some { IfSome result (λ n. (n ≡ digit_run_end block 0) × (n < 16)) }
    ensures none { IfNone result (digit_run_end block 0 ≡ 16) }
{
    let others = no_digits(u8x16::from_array(block));
    if others == 0 {
        None
    } else {
        Some(others.trailing_zeros() as usize)
    }
}

/// Returns how many digits the sixteen bytes begin with.
#[inline(always)]
pub fn digit_count(block: [u8; 16]) -> usize
    ensures { result ≡ digit_run_end block 0 }
{
    let others = no_digits(u8x16::from_array(block));
    if others == 0 {
        16
    } else {
        others.trailing_zeros() as usize
    }
}

#[inline(always)]
pub(crate) fn digit_run_end(bytes: &[u8], from: usize) -> usize
    requires { from ≤ length bytes.now }
    ensures value { result ≡ digit_run_end bytes.now from }
    ensures place { (from ≤ result) × (result ≤ length bytes.now) }
{
    let mut i = from;
    'chunks: while bytes.len() - i >= 16 {
        let others = no_digits(u8x16::from_slice(&bytes[i..]));
        if others != 0 {
            return i + others.trailing_zeros() as usize;
        }
        i += 16;
    }
    if bytes.len() >= 16 {
        // The last sixteen bytes, without those before `i`.
        let start = bytes.len() - 16;
        let others = no_digits(u8x16::from_slice(&bytes[start..])) >> (i - start) as u32;
        if others == 0 {
            return bytes.len();
        }
        return i + others.trailing_zeros() as usize;
    }
    'bytes: while i < bytes.len() && is_digit(bytes[i]) {
        i += 1;
    }
    i
}

/// Returns the index after the digits at `from`, or `None` if there are more than `limit`.
///
/// # Requires
///
/// - `from` is at most the length.
#[inline(always)]
pub fn digits_end(bytes: &[u8], from: usize, limit: usize) -> Option<usize>
    requires { from ≤ length bytes.now }
    ensures { result ≡ digits_end bytes.now from limit }
{
    let end = digit_run_end(bytes, from);
    if end - from <= limit { Some(end) } else { None }
}

// The bytes 0 and 4 of a word.
const PAIRS: u64 = 0x0000_00ff_0000_00ff;

// The first digit is in the lowest byte. One multiplication joins digits to pairs; two more join the four pairs.
#[inline(always)]
fn eight_digits(word: u64) -> u64
    ensures { (ds : List ℕ) → length ds ≡ 8 → AllBelowBase 10 ds → word ≡ number_l 256 ds
        → result ≡ number_from_digits 10 ds }
{
    let pairs = word.wrapping_mul(2561) >> 8;
    let first = (pairs & PAIRS).wrapping_mul(0x000F_4240_0000_0064);
    let second = ((pairs >> 16) & PAIRS).wrapping_mul(0x0000_2710_0000_0001);
    first.wrapping_add(second) >> 32
}

// The shift puts zeros before the digits, so that there are eight.
#[inline(always)]
fn first_digits(word: u64, count: usize) -> u64
    requires some { 1 ≤ count }
    requires most { count ≤ 8 }
    ensures value { (w : List ℕ) → IsEightBytes w → AllBelowBase 10 (take count w) → word ≡ number_l 256 w
        → result ≡ number_from_digits 10 (take count w) }
    ensures bound { (w : List ℕ) → IsEightBytes w → AllBelowBase 10 (take count w) → word ≡ number_l 256 w
        → result < 100000000 }
{
    eight_digits(word << (64 - 8 * count))
}

// The powers of ten up to the eighth.
static TENS: [u64; 9] = [
    1,
    10,
    100,
    1_000,
    10_000,
    100_000,
    1_000_000,
    10_000_000,
    100_000_000,
];

#[inline(always)]
pub(crate) fn joined(prefix: u64, back: u64, count: usize) -> u64
    requires most { count ≤ 8 }
    requires fits { prefix * 10 ^ count + back < 2 ^ 64 }
    ensures { result ≡ prefix * 10 ^ count + back }
{
    prefix * TENS[count] + back
}

/// Returns the number that the first `count` bytes are in decimal.
///
/// # Requires
///
/// - `count` is from 1 to 16.
/// - The first `count` bytes are digits. `rt try` does not test that, and for other bytes the result is a wrong number.
#[inline(always)]
pub fn digit_word(block: [u8; 16], count: usize) -> u64
    requires some { 1 ≤ count }
    requires most { count ≤ 16 }
    requires digits { count ≤ digit_run_end block 0 }
    ensures { result ≡ decimal_of (take count block) }
{
    // A digit less 30 hex is its value.
    let digits = u8x16::from_array(block) - u8x16::splat(b'0');
    let [low, high] = u64x2::from_le_bytes(digits).to_array();
    if count <= 8 {
        first_digits(low, count)
    } else {
        joined(eight_digits(low), first_digits(high, count - 8), count - 8)
    }
}
