//! The fast path for numbers: short ones are read sixteen bytes at a time, and the results are returned in registers.
ghost use Rattle.std.specs.Prelude.{◌≡◌, ◌≢◌, ◌⊎◌, ◌==◌, ◌||◌, ◌<◌, ◌≤◌, ◌+◌, ◌^◌, IfSome, length, pos};
ghost use Rattle.std.specs.Prelude.{slice_get, slice_range, slice_index, true, false, if◌then◌else◌};
ghost use Rattle.jiter_scan.specs.Words.{decimal_of, digit_run_end, is_digit, minus_of, magnitude_of};
ghost use Rattle.jiter_scan.specs.Words.{span_then, digits_from, fraction_at, power_from, exponent_at};
ghost use Rattle.jiter_scan.specs.Words.{is_float_sign, taken, IsPlainInteger, IsFastNumber};
ghost use Rattle.jiter_scan.specs.Ascii as ascii;

use crate::bytes::decimal::{digit_count, digit_word, few_digits, full_block_at, is_digit};
use crate::number::number_decoder::{digits_magnitude, is_float_sign};

// How many bytes, from a number's first digit on, the fast path reads first.
pub(crate) const BLOCK_SIZE: usize = 16;

/// What the fast path finds at a number's first digit.
#[derive(Debug, Clone, Copy, PartialEq, Eq)]
pub enum FastNumber {
    /// An integer: its magnitude, and the index after it.
    Int(u64, usize),
    /// A number with a point or an exponent: the index after it.
    Float(usize),
    /// Anything else, for the slow path: a long number, a float near the end of the input, or an error.
    Other,
}

// Up to fifteen digits.
#[inline(always)]
fn few_digits_end(bytes: &[u8], at: usize) -> Option<usize>
    requires { at + 16 ≤ length bytes.now }
    ensures { IfSome result (λ e. (digit_run_end bytes.now at ≡ e) × (at < e)) }
{
    let block = full_block_at(bytes, at);
    let count = digit_count(block);
    if count == 0 || count > 15 {
        return None;
    }
    Some(at + count)
}

// 16 to 31 digits, of which the first 16 are known.
#[inline(always)]
fn more_digits_end(bytes: &[u8], at: usize) -> Option<usize>
    requires reach { at + 32 ≤ length bytes.now }
    requires digits { at + 16 ≤ digit_run_end bytes.now at }
    ensures { IfSome result
        (λ e. (digit_run_end bytes.now at ≡ e) × (at < e) × (e < at + 32)) }
{
    let back = full_block_at(bytes, at + 16);
    let more = digit_count(back);
    if more > 15 {
        return None;
    }
    Some(at + 16 + more)
}

// Up to 31 digits, or no fraction.
#[inline(always)]
fn fast_fraction_end(bytes: &[u8], at: usize) -> Option<usize>
    requires { at + 33 ≤ length bytes.now }
    ensures end { IfSome result (λ e. fraction_at bytes.now at ≡ taken tt e) }
    ensures place { IfSome result (λ e. (at ≤ e) × (e < length bytes.now)) }
{
    if bytes[at] != b'.' {
        return Some(at);
    }
    let block = full_block_at(bytes, at + 1);
    let count = digit_count(block);
    if count == 0 {
        return None;
    }
    if count > 15 {
        return more_digits_end(bytes, at + 1);
    }
    Some(at + 1 + count)
}

#[inline(always)]
fn is_exponent_letter(byte: u8) -> bool
    ensures { result ≡ ((byte == ascii.small_e) || (byte == ascii.capital_e)) }
{
    byte == b'e' || byte == b'E'
}

// A comma is less than a point. So one comparison with the point is enough for both.
#[inline(always)]
fn goes_on(byte: u8) -> bool
    ensures { result ≡ is_float_sign byte }
{
    byte == b'.' || byte > b'.' && is_float_sign(byte)
}

#[inline(always)]
fn sign_end(bytes: &[u8], at: usize) -> usize
    requires { at < length bytes.now }
    ensures end { power_from bytes.now at (slice_get bytes.now at)
        ≡ digits_from bytes.now result (slice_get bytes.now result) }
    ensures place { (at ≤ result) × (result ≤ at + 1) }
{
    let byte = bytes[at];
    if byte == b'+' || byte == b'-' {
        at + 1
    } else {
        at
    }
}

// Up to fifteen digits, or no exponent.
#[inline(always)]
fn fast_exponent_end(bytes: &[u8], at: usize) -> Option<usize>
    requires { at < length bytes.now }
    ensures { IfSome result (λ e. exponent_at bytes.now at ≡ taken tt e) }
{
    if !is_exponent_letter(bytes[at]) {
        return Some(at);
    }
    if at + 18 > bytes.len() {
        return None;
    }
    few_digits_end(bytes, sign_end(bytes, at + 1))
}

#[inline(always)]
fn fast_float_end(bytes: &[u8], at: usize, is_padded: bool) -> Option<usize>
    requires within { at ≤ length bytes.now }
    requires padded { is_padded ≡ true → at + 33 ≤ length bytes.now }
    ensures { IfSome result
        (λ e. span_then (fraction_at bytes.now at) (exponent_at bytes.now) ≡ taken tt e) }
{
    if !is_padded && at + 33 > bytes.len() {
        return None;
    }
    match fast_fraction_end(bytes, at) {
        Some(end) => fast_exponent_end(bytes, end),
        None => None,
    }
}

// Sixteen to eighteen digits: a number of nineteen may be greater than any `i64`.
#[inline(always)]
fn two_blocks_at(bytes: &[u8], at: usize) -> FastNumber
    requires within { at + 16 ≤ length bytes.now }
    requires digits { at + 16 ≤ digit_run_end bytes.now at }
    ensures { IsFastNumber bytes.now at result }
{
    if at + 32 > bytes.len() {
        return FastNumber::Other;
    }
    let back = full_block_at(bytes, at + 16);
    let more = digit_count(back);
    if more > 2 || bytes[at] <= b'0' {
        return FastNumber::Other;
    }
    let end = at + 16 + more;
    if goes_on(bytes[end]) {
        return FastNumber::Other;
    }
    let magnitude = digits_magnitude(bytes, at, end);
    FastNumber::Int(magnitude, end)
}

// Returns whether an integer part of `count` digits may begin with this byte: no digit may follow a leading zero.
#[inline(always)]
fn may_lead(first: u8, count: usize) -> bool
    ensures digit { result ≡ true → is_digit first ≡ true }
    ensures zero { result ≡ true
        → ((first ≡ ascii.digit_zero) × (count ≡ 1)) ⊎ (first ≢ ascii.digit_zero) }
    ensures other { result ≡ false → (is_digit first ≡ false) ⊎ (first ≡ ascii.digit_zero) }
{
    if b'1' <= first && first <= b'9' {
        return true;
    }
    first == b'0' && count == 1
}

// The minus, if there is one, is before `at`. `is_padded` says that the fast path can't reach the end of the input.
#[inline(always)]
pub(crate) fn padded_number_at(bytes: &[u8], at: usize, is_padded: bool) -> FastNumber
    requires within { at + 16 ≤ length bytes.now }
    requires padded { is_padded ≡ true → at + 65 ≤ length bytes.now }
    ensures { IsFastNumber bytes.now at result }
{
    let block = full_block_at(bytes, at);
    let Some(count) = few_digits(block) else {
        return two_blocks_at(bytes, at);
    };
    if !may_lead(bytes[at], count) {
        return FastNumber::Other;
    }
    let end = at + count;
    if !goes_on(bytes[end]) {
        return FastNumber::Int(digit_word(block, count), end);
    }
    match fast_float_end(bytes, end, is_padded) {
        Some(after) => FastNumber::Float(after),
        None => FastNumber::Other,
    }
}

// Reads the last bytes of the input one by one. Returns an integer's magnitude and the index after it, or the index 0 if
// the slow path must read the number. Two numbers are returned in registers, but not an `Option` of two.
#[cold]
#[inline(never)]
pub(crate) fn last_integer_at(bytes: &[u8], at: usize) -> (u64, usize)
    requires within { at ≤ length bytes.now }
    requires last { length bytes.now < at + 16 }
    ensures { 0 < result.1 → IsPlainInteger bytes.now at result.0 result.1 }
{
    let mut end = at;
    let mut magnitude = 0u64;
    'digits: while end < bytes.len() && is_digit(bytes[end]) {
        magnitude = magnitude * 10 + (bytes[end] - b'0') as u64;
        end += 1;
    }
    if end == at || !may_lead(bytes[at], end - at) {
        return (0, 0);
    }
    if end < bytes.len() && goes_on(bytes[end]) {
        return (0, 0);
    }
    (magnitude, end)
}

/// Returns the number whose first digit is at `at`, if it is short. A minus is before `at`. Requires `at` ≤ the length.
#[inline(always)]
pub fn fast_number_at(bytes: &[u8], at: usize) -> FastNumber
    requires { at ≤ length bytes.now }
    ensures { IsFastNumber bytes.now at result }
{
    if at + BLOCK_SIZE > bytes.len() {
        return match last_integer_at(bytes, at) {
            (_, 0) => FastNumber::Other,
            (magnitude, end) => FastNumber::Int(magnitude, end),
        };
    }
    padded_number_at(bytes, at, false)
}

/// Returns the integer with this magnitude and this sign.
#[inline(always)]
pub fn signed(magnitude: u64, negative: bool) -> i64
    requires { magnitude < 2 ^ 63 }
    ensures { result ≡ (if negative then minus_of magnitude else pos magnitude) }
{
    let number = magnitude as i64;
    if negative { 0 - number } else { number }
}
