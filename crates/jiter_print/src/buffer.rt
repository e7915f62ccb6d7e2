//! Writes strings to a buffer, and tests whether bytes are plain. A short string is written by two copies of a fixed
//! size, which may overlap. The test reads sixteen bytes at a time, and may read past the string's end.
ghost use Rattle.std.specs.Prelude.{◌≡◌, ◌+◌, ◌≤◌, ◌++◌, OnOk, length, nat_le, take, vec_len};
ghost use Rattle.jiter_scan.specs.Scan.{scan_stop};

use jiter_scan::bytes::simd::stops;
use jiter_scan::memory::{AllocFailed, lengthen};
use std::simd::Simd;
use std::simd::prelude::*;

// The 1024 extra bytes keep this call rare.
#[cold]
#[inline(never)]
fn enlarge(buffer: &mut Vec<u8>, text: &[u8]) -> Result<(), AllocFailed>
    ensures room { OnOk result (vec_len buffer.old + length text.now + 32 ≤ vec_len buffer.new) }
    ensures kept { take (vec_len buffer.old) buffer.new.items ≡ buffer.old.items }
{
    lengthen(buffer, 1024)?;
    lengthen(buffer, text.len())
}

/// Makes the tape long enough for a string after the first `count` bytes, and 32 free ones after it.
#[inline(always)]
pub fn make_room_for(buffer: &mut Vec<u8>, count: usize, text: &[u8]) -> Result<(), AllocFailed>
    requires { count ≤ vec_len buffer.old }
    ensures room { OnOk result (count + length text.now + 32 ≤ vec_len buffer.new) }
    ensures kept { take count buffer.new.items ≡ take count buffer.old.items }
{
    if buffer.len() - count < text.len() + 32 {
        return enlarge(buffer, text);
    }
    Ok(())
}

// The copy is one load and one store.
#[inline(always)]
fn place_prefix<const N: usize>(room: &mut [u8], at: usize, text: &[u8])
    requires some { N ≤ length text.now }
    requires room { at + N ≤ length room.old }
    ensures text { take (at + N) room.new ≡ take at room.old ++ take N text.now }
    ensures len { length room.new ≡ length room.old }
{
    Simd::<u8, N>::from_slice(text).copy_to_slice(&mut room[at..]);
}

// The two copies overlap if the string is shorter than 2 N bytes.
#[inline(always)]
fn place_ends<const N: usize>(room: &mut [u8], at: usize, text: &[u8])
    requires covers { (N ≤ length text.now) × (length text.now ≤ N + N) }
    requires room { at + length text.now ≤ length room.old }
    ensures text { take (at + length text.now) room.new ≡ take at room.old ++ text.now }
    ensures len { length room.new ≡ length room.old }
{
    let last = text.len() - N;
    place_prefix::<N>(room, at, text);
    place_prefix::<N>(room, at + last, &text[last..]);
}

#[inline(never)]
fn place_long(room: &mut [u8], at: usize, text: &[u8])
    requires { at + length text.now ≤ length room.old }
    ensures text { take (at + length text.now) room.new ≡ take at room.old ++ text.now }
    ensures len { length room.new ≡ length room.old }
{
    room[at..at + text.len()].copy_from_slice(text);
}

/// Writes a string after the first `at` bytes.
#[inline(always)]
pub fn place_text(room: &mut [u8], at: usize, text: &[u8])
    requires { at + length text.now ≤ length room.old }
    ensures text { take (at + length text.now) room.new ≡ take at room.old ++ text.now }
    ensures len { length room.new ≡ length room.old }
{
    let len = text.len();
    if len >= 8 {
        if len > 32 {
            place_long(room, at, text);
        } else if len >= 16 {
            place_ends::<16>(room, at, text);
        } else {
            place_ends::<8>(room, at, text);
        }
    } else if len >= 4 {
        place_ends::<4>(room, at, text);
    } else if len >= 2 {
        place_ends::<2>(room, at, text);
    } else if len == 1 {
        room[at] = text[0];
    }
}

/// Returns whether the bytes from `from` to before `to` are plain: none is a quote, a backslash or a control byte.
#[inline(always)]
pub fn is_plain_to(bytes: &[u8], from: usize, to: usize) -> bool
    requires { (from ≤ to) × (to + 16 ≤ length bytes.now) }
    ensures { result ≡ nat_le to (scan_stop bytes.now from) }
{
    let mut i = from;
    loop {
        let found = stops(u8x16::from_slice(&bytes[i..]));
        if found != 0 {
            return found.trailing_zeros() as usize >= to - i;
        }
        if to - i <= 16 {
            return true;
        }
        i += 16;
    }
}
