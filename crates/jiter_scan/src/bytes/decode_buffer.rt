//! The buffer of decoded strings. Only its first bytes count: after them are free ones, so we write sixteen at once.
ghost use Rattle.std.specs.Prelude.{◌≡◌, ◌+◌, ◌^◌, ◌<◌, ◌≤◌, ◌++◌, IfOk, OnOk, length, take, slice_range};
ghost use Rattle.std.specs.Prelude.{vec_len, encode_utf8};
ghost use Rattle.jiter_scan.specs.Words.{chunk, is_plain, is_ascii, failing};

use crate::bytes::simd::{highs, stops};
use crate::memory::{AllocFailed, lengthen};
use std::simd::prelude::*;

/// Writes bytes after the first `count`. Grows if it must. Returns how many count then, with 32 free ones after them.
#[inline(always)]
pub(crate) fn put_slice(
    buffer: &mut Vec<u8>,
    count: usize,
    bytes: &[u8],
) -> Result<usize, AllocFailed>
    requires prefix { count ≤ vec_len buffer.old }
    ensures text { IfOk result (λ n. take n buffer.new.items ≡ take count buffer.old.items ++ bytes.now) }
    ensures room { IfOk result (λ n. n + 32 ≤ vec_len buffer.new) }
{
    while buffer.len() - count < bytes.len() + 32 {
        let more = buffer.len().max(256);
        lengthen(buffer, more)?;
    }
    let end = count + bytes.len();
    buffer.as_mut_slice()[count..end].copy_from_slice(bytes);
    Ok(end)
}

#[inline(always)]
fn store(room: &mut [u8], v: u8x16)
    requires { length room.old ≡ 16 }
    ensures { room.new ≡ v }
{
    v.copy_to_slice(room);
}

#[inline(always)]
fn put_sixteen(buffer: &mut Vec<u8>, count: usize, v: u8x16)
    requires { count + 16 ≤ vec_len buffer.old }
    ensures text { take (count + 16) buffer.new.items ≡ take count buffer.old.items ++ v }
    ensures len { vec_len buffer.new ≡ vec_len buffer.old }
{
    store(&mut buffer.as_mut_slice()[count..count + 16], v);
}

/// Writes the sixteen bytes at `from` after the first `count` of the buffer. Returns two masks: a bit for each byte that
/// is not plain, and for each above 7F hex.
#[inline(always)]
pub(crate) fn put_block(buffer: &mut Vec<u8>, count: usize, bytes: &[u8], from: usize) -> (u64, u64)
    requires room { count + 16 ≤ vec_len buffer.old }
    requires within { from + 16 ≤ length bytes.now }
    ensures stops { result.0 ≡ failing is_plain (chunk from 16 bytes.now) }
    ensures highs { result.1 ≡ failing is_ascii (chunk from 16 bytes.now) }
    ensures text { take (count + 16) buffer.new.items
        ≡ take count buffer.old.items ++ chunk from 16 bytes.now }
    ensures len { vec_len buffer.new ≡ vec_len buffer.old }
{
    let v = u8x16::from_slice(&bytes[from..]);
    put_sixteen(buffer, count, v);
    (stops(v), highs(v))
}

/// Writes a character after the first `count` bytes of the buffer. Returns how many bytes count then.
#[inline(always)]
pub fn put_char(buffer: &mut Vec<u8>, count: usize, c: char) -> usize
    requires { count + 4 ≤ vec_len buffer.old }
    ensures text { take result buffer.new.items ≡ take count buffer.old.items ++ encode_utf8 c }
    ensures place { result ≤ vec_len buffer.new }
{
    let code = c as u32;
    if code < 0x80 {
        buffer[count] = code as u8;
        return count + 1;
    }
    if code < 0x800 {
        buffer[count] = (0xc0 + code / 64) as u8;
        buffer[count + 1] = (0x80 + code % 64) as u8;
        return count + 2;
    }
    if code < 0x1_0000 {
        buffer[count] = (0xe0 + code / 4096) as u8;
        buffer[count + 1] = (0x80 + code / 64 % 64) as u8;
        buffer[count + 2] = (0x80 + code % 64) as u8;
        return count + 3;
    }
    buffer[count] = (0xf0 + code / 262144) as u8;
    buffer[count + 1] = (0x80 + code / 4096 % 64) as u8;
    buffer[count + 2] = (0x80 + code / 64 % 64) as u8;
    buffer[count + 3] = (0x80 + code % 64) as u8;
    count + 4
}

/// Writes the bytes from `from` up to before `stop` at the beginning of the buffer, which grows if it must. Returns their
/// count; at least sixteen free bytes follow.
#[inline(always)]
pub fn put_first(
    buffer: &mut Vec<u8>,
    bytes: &[u8],
    from: usize,
    stop: usize,
) -> Result<usize, AllocFailed>
    requires within { (from ≤ stop) × (stop ≤ length bytes.now) }
    ensures text { IfOk result (λ n. take n buffer.new.items ≡ slice_range bytes.now from stop) }
    ensures room { IfOk result (λ n. n + 16 ≤ vec_len buffer.new) }
{
    if stop - from <= 16 && bytes.len() - from >= 16 && buffer.len() >= 32 {
        put_sixteen(buffer, 0, u8x16::from_slice(&bytes[from..]));
        return Ok(stop - from);
    }
    put_slice(buffer, 0, &bytes[from..stop])
}
