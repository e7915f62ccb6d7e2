//! Strings, sixteen bytes at a time. A plain byte is one that is not a quote, a backslash or a control byte.
ghost use Rattle.std.specs.Prelude.{◌≡◌, ◌↔◌, ℕ, ◌+◌, ◌-◌, ◌^◌, ◌<◌, ◌≤◌, ◌++◌, ◌&&◌, IsTrue, length, take, map, IfOk};
ghost use Rattle.std.specs.Prelude.{nat_le, slice_range, true, false, vec_len};
ghost use Rattle.jiter_scan.specs.Words.{w64, trailing_zeros, list_all, chunk, is_plain, is_ascii, scan_stop, plain_to};
ghost use Rattle.jiter_scan.specs.Words.{is_plain_ascii, IsAsciiTo, ascii_from, failing, is_no_mark, flipped, flips};

pub use crate::bytes::decimal::{digit_count, digit_word, digits_end};
use crate::bytes::decode_buffer::{put_block, put_slice};
use crate::memory::AllocFailed;
use std::simd::prelude::*;

// With bits 2, the control bytes and the quote are then those below 33; with 82 hex, also all from 80 hex, below A1 hex.
#[inline(always)]
fn flip(v: u8x16, bits: u8) -> u8x16
    ensures { result ≡ map (flipped bits) v }
{
    v ^ u8x16::splat(bits)
}

/// Returns a mask with a bit for each byte that is not plain. In each mask the lowest bit is for the first byte.
#[inline(always)]
pub fn stops(v: u8x16) -> u64
    ensures { result ≡ failing is_plain v }
{
    (flip(v, 2).simd_lt(u8x16::splat(33)) | v.simd_eq(u8x16::splat(b'\\'))).to_bitmask()
}

#[inline(always)]
pub(crate) fn ascii_stops(v: u8x16) -> u64
    ensures { result ≡ failing is_plain_ascii v }
{
    (flip(v, 0x82).simd_lt(u8x16::splat(0xa1)) | v.simd_eq(u8x16::splat(b'\\'))).to_bitmask()
}

#[inline(always)]
pub(crate) fn highs(v: u8x16) -> u64
    ensures { result ≡ failing is_ascii v }
{
    v.simd_ge(u8x16::splat(0x80)).to_bitmask()
}

// The scan ends at the first bit of `found`. `clean`: the bytes before `i` are ASCII. `&` on `bool`s saves a branch.
#[inline(always)]
fn first_stop(i: usize, found: u64, high: u64, clean: bool) -> (usize, bool)
    requires { i + trailing_zeros w64 found < 2 ^ 64 }
    ensures stop { result.0 ≡ i + trailing_zeros w64 found }
    ensures ascii { result.1
        ≡ (clean && nat_le (trailing_zeros w64 found) (trailing_zeros w64 high)) }
{
    let count = found.trailing_zeros();
    if high == 0 {
        return (i + count as usize, clean);
    }
    (i + count as usize, clean & (high.trailing_zeros() >= count))
}

// One byte at a time, if the input has fewer than sixteen. `ascii` says whether the bytes before `from` are ASCII.
#[inline(always)]
fn scan_bytes(bytes: &[u8], from: usize, ascii: bool) -> (usize, bool)
    requires { from ≤ length bytes.now }
    ensures stop { result.0 ≡ scan_stop bytes.now from }
    ensures ascii { result.1 ≡ (ascii && ascii_from bytes.now from) }
{
    let mut i = from;
    let mut clean = ascii;
    while i < bytes.len() {
        let byte = bytes[i];
        if byte == b'"' || byte == b'\\' || byte < b' ' {
            return (i, clean);
        }
        clean &= byte < 0x80;
        i += 1;
    }
    (i, clean)
}

// Reads the last sixteen bytes of the input, and shifts out those before `from`.
#[inline(always)]
fn scan_last(bytes: &[u8], from: usize, ascii: bool) -> (usize, bool)
    requires within { from ≤ length bytes.now }
    requires enough { 16 ≤ length bytes.now }
    requires few { length bytes.now < from + 16 }
    ensures stop { result.0 ≡ scan_stop bytes.now from }
    ensures ascii { result.1 ≡ (ascii && ascii_from bytes.now from) }
{
    let start = bytes.len() - 16;
    let before = (from - start) as u32;
    let v = u8x16::from_slice(&bytes[start..]);
    let found = stops(v) >> before;
    let high = highs(v) >> before;
    if found == 0 {
        return (bytes.len(), ascii & (high == 0));
    }
    first_stop(from, found, high, ascii)
}

// Each lane is FF hex for a backslash, otherwise 0.
#[inline(always)]
fn marks(v: u8x16) -> u8x16
    ensures { list_all is_ascii result ≡ list_all is_no_mark v }
{
    let found = v.simd_eq(u8x16::splat(b'\\'));
    found.select(u8x16::splat(0xff), u8x16::splat(0))
}

// Each lane is FF hex for a byte below `least`, otherwise 0.
#[inline(always)]
fn below(v: u8x16, least: u8) -> u8x16
    ensures { list_all is_ascii result ≡ list_all (nat_le least) v }
{
    let found = v.simd_lt(u8x16::splat(least));
    found.select(u8x16::splat(0xff), u8x16::splat(0))
}

#[inline(always)]
fn lesser(a: u8x16, b: u8x16) -> u8x16
    ensures { (n : ℕ) → list_all (nat_le n) result ≡ (list_all (nat_le n) a && list_all (nat_le n) b) }
{
    a.simd_min(b)
}

#[inline(always)]
fn greater(a: u8x16, b: u8x16) -> u8x16
    ensures { list_all is_ascii result ≡ (list_all is_ascii a && list_all is_ascii b) }
{
    a.simd_max(b)
}

// Which bits are flipped to find what is not plain or, with `ascii`, not plain ASCII.
#[inline(always)]
fn flips(ascii: bool) -> u8
    ensures { result ≡ flips ascii }
{
    if ascii { 0x82 } else { 2 }
}

// Merges four vectors, then tests whether all bytes are plain and, with `ascii`, below 80 hex. The second result is a hint,
// of which no contract speaks: with `ascii`, whether all are below 80 hex.
#[inline(always)]
fn is_plain_blocks(bytes: &[u8], i: usize, ascii: bool) -> (bool, bool)
    requires { i + 64 ≤ length bytes.now }
    ensures { result.0 ≡ list_all (plain_to ascii) (chunk i 64 bytes.now) }
{
    let bits = flips(ascii);
    let a = u8x16::from_slice(&bytes[i..]);
    let b = u8x16::from_slice(&bytes[i + 16..]);
    let c = u8x16::from_slice(&bytes[i + 32..]);
    let d = u8x16::from_slice(&bytes[i + 48..]);
    let marked = greater(greater(marks(a), marks(b)), greater(marks(c), marks(d)));
    let first = lesser(flip(a, bits), flip(b, bits));
    let least = lesser(first, lesser(flip(c, bits), flip(d, bits)));
    let found = highs(greater(marked, below(least, bits + 31)));
    (found == 0, highs(least) == 0xffff)
}

// 64 bytes at a time, as long as all pass the test. Returns where they end, and the hint there.
#[inline(always)]
fn wide_end(bytes: &[u8], from: usize, ascii: bool) -> (usize, bool)
    requires { from ≤ length bytes.now }
    ensures stop { scan_stop bytes.now from ≡ scan_stop bytes.now result.0 }
    ensures within { (from ≤ result.0) × (result.0 ≤ length bytes.now) }
    ensures ascii { ascii ≡ true → ascii_from bytes.now from ≡ ascii_from bytes.now result.0 }
    ensures first { from < result.0 → (from + 64 ≤ length bytes.now)
        × (list_all (plain_to ascii) (chunk from 64 bytes.now) ≡ true) }
    ensures next { result.0 + 64 ≤ length bytes.now
        → list_all (plain_to ascii) (chunk result.0 64 bytes.now) ≡ false }
{
    let mut i = from;
    while bytes.len() - i >= 64 {
        let (plain, near) = is_plain_blocks(bytes, i, ascii);
        if !plain {
            return (i, near);
        }
        i += 64;
    }
    (i, true)
}

// As long as all bytes are ASCII, one test of each 64 asks for both. After others, it asks for plain bytes alone.
#[inline(always)]
fn scan_wide(bytes: &[u8], from: usize, ascii: bool) -> (usize, bool)
    requires { from ≤ length bytes.now }
    ensures stop { scan_stop bytes.now from ≡ scan_stop bytes.now result.0 }
    ensures within { (from ≤ result.0) × (result.0 ≤ length bytes.now) }
    ensures ascii { (ascii && ascii_from bytes.now from)
        ≡ (result.1 && ascii_from bytes.now result.0) }
{
    if !ascii {
        return (wide_end(bytes, from, false).0, false);
    }
    let (near, is_near) = wide_end(bytes, from, true);
    if is_near {
        return (near, true);
    }
    let (end, _) = wide_end(bytes, near, false);
    (end, end == near)
}

// Sixteen bytes at a time. Most strings are short. So 64 bytes at a time only after the first 48.
#[inline(always)]
fn scan_blocks(bytes: &[u8], from: usize, ascii: bool) -> (usize, bool)
    requires { from ≤ length bytes.now }
    ensures stop { result.0 ≡ scan_stop bytes.now from }
    ensures ascii { result.1 ≡ (ascii && ascii_from bytes.now from) }
{
    if bytes.len() < 16 {
        return scan_bytes(bytes, from, ascii);
    }
    let last = bytes.len() - 16;
    let far = from + 48;
    let mut i = from;
    let mut clean = ascii;
    while i <= last {
        let v = u8x16::from_slice(&bytes[i..]);
        let found = stops(v);
        let high = highs(v);
        if found != 0 {
            return first_stop(i, found, high, clean);
        }
        clean &= high == 0;
        i += 16;
        if i == far {
            let (end, low) = scan_wide(bytes, i, clean);
            i = end;
            clean = low;
        }
    }
    scan_last(bytes, i, clean)
}

// Not inlined: all callers share this copy.
#[inline(never)]
fn scan_far(bytes: &[u8], from: usize, ascii: bool) -> (usize, bool)
    requires { from ≤ length bytes.now }
    ensures stop { result.0 ≡ scan_stop bytes.now from }
    ensures ascii { result.1 ≡ (ascii && ascii_from bytes.now from) }
{
    scan_blocks(bytes, from, ascii)
}

// The caller doesn't ask whether the bytes are ASCII.
#[inline(never)]
fn stop_far(bytes: &[u8], from: usize) -> usize
    requires { from ≤ length bytes.now }
    ensures { result ≡ scan_stop bytes.now from }
{
    let (stop, _) = scan_blocks(bytes, from, false);
    stop
}

/// Finds the first byte from `from` on that is not plain: a quote, a backslash or a control byte (RFC 8259, 7).
///
/// Returns its index, or the length if there is none; and whether all bytes from `from` to before it are ASCII.
///
/// # Requires
///
/// - `from` is at most the length.
///
/// # Examples
///
/// ```
/// assert_eq!(rt; scan_string(br#""name": 1"#, 1), (5, true));
/// ```
#[inline(always)]
pub fn scan_string(bytes: &[u8], from: usize) -> (usize, bool)
    requires { from ≤ length bytes.now }
    ensures stop { result.0 ≡ scan_stop bytes.now from }
    ensures within { (from ≤ result.0) × (result.0 ≤ length bytes.now) }
    ensures ascii { IsTrue result.1 ↔ IsAsciiTo bytes.now from result.0 }
{
    if from + 16 > bytes.len() {
        return scan_far(bytes, from, true);
    }
    let v = u8x16::from_slice(&bytes[from..]);
    let found = stops(v);
    let high = highs(v);
    if found != 0 {
        return first_stop(from, found, high, true);
    }
    if from + 16 == bytes.len() {
        return (from + 16, high == 0);
    }
    scan_far(bytes, from + 16, high == 0)
}

/// Returns the index of the first byte from `from` on that is not plain, or the length (RFC 8259, 7).
///
/// # Requires
///
/// - `from` is at most the length.
#[inline(always)]
pub fn string_stop(bytes: &[u8], from: usize) -> usize
    requires { from ≤ length bytes.now }
    ensures stop { result ≡ scan_stop bytes.now from }
    ensures within { (from ≤ result) × (result ≤ length bytes.now) }
{
    if from + 16 > bytes.len() {
        return stop_far(bytes, from);
    }
    let found = stops(u8x16::from_slice(&bytes[from..]));
    if found != 0 {
        return from + found.trailing_zeros() as usize;
    }
    stop_far(bytes, from + 16)
}

/// Copies the plain bytes from `from` on to the buffer, after its first `count` bytes (RFC 8259, 7). The bytes are
/// copied up to the first quote, backslash or control byte, or the length.
///
/// Returns the index where it stops, how many bytes of the buffer count then, and whether the copied bytes are ASCII.
/// The buffer grows if it must; at least sixteen bytes follow those that count.
///
/// # Errors
///
/// - `AllocFailed`, only if the buffer has to grow and the allocation fails
///
/// # Requires
///
/// - `from` is at most the length.
/// - `count` is at most the length of the buffer.
#[inline(always)]
pub fn copy_plain(
    buffer: &mut Vec<u8>,
    count: usize,
    bytes: &[u8],
    from: usize,
) -> Result<(usize, usize, bool), AllocFailed>
    requires within { from ≤ length bytes.now }
    requires prefix { count ≤ vec_len buffer.old }
    ensures stop { IfOk result (λ r. r.0 ≡ scan_stop bytes.now from) }
    ensures text { IfOk result (λ r. take r.1 buffer.new.items
        ≡ take count buffer.old.items ++ slice_range bytes.now from (scan_stop bytes.now from)) }
    ensures room { IfOk result (λ r. r.1 + 16 ≤ vec_len buffer.new) }
    ensures ascii { IfOk result (λ r. IsTrue r.2 ↔ IsAsciiTo bytes.now from (scan_stop bytes.now from)) }
{
    let mut i = from;
    let mut end = count;
    let mut clean = true;
    let mut left = (bytes.len() - i).min(buffer.len() - end);
    while left >= 32 {
        let (found, high) = put_block(buffer, end, bytes, i);
        if found != 0 {
            let (stop, low) = first_stop(i, found, high, clean);
            return Ok((stop, end + (stop - i), low));
        }
        clean &= high == 0;
        i += 16;
        end += 16;
        left -= 16;
    }
    let (stop, low) = scan_far(bytes, i, clean);
    let after = put_slice(buffer, end, &bytes[i..stop])?;
    Ok((stop, after, low))
}
