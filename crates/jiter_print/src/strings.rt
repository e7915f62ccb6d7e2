//! The text of a string, with its quotes and escapes.
ghost use Rattle.std.specs.Prelude.{◌≡◌, true, Bool, [], ◌∷◌, ◌++◌, ◌+◌, ◌<◌, ◌≤◌, IfOk, OnOk, OnErr, flat_map, length};
ghost use Rattle.std.specs.Prelude.{take, vec_len};
ghost use Rattle.jiter_print.specs.Print.{print_of, print_text, print_byte, escape_of, needs_escape, hex_digit};
ghost use Rattle.jiter_print.specs.Print.{with_line_feed, Appends};
ghost use Rattle.jiter_print.specs.Printed.{IsLineOf, string_from};

use crate::buffer::{is_plain_to, make_room_for, place_text};
use jiter_scan::bytes::simd::string_stop;
use jiter_scan::memory::AllocFailed;
use std::alloc::AllocError;

/// Appends the JSON text of a string, with its quotes and escapes, as [`print`](crate::print) writes it.
///
/// That text and a line feed are a document with this string.
///
/// # Errors
///
/// - `AllocError` if an allocation fails; `line` is unchanged
///
/// # Examples
///
/// ```rust
/// let mut line = Vec::new(alloc);
/// print_str(&mut line, "a\"b")?;
/// assert_eq!(rt; line.as_slice(), b"\"a\\\"b\"".as_slice());
/// ```
pub fn print_str(line: &mut Vec<u8>, text: &str) -> Result<(), AllocError>
    ensures text { OnOk result (line.new.items ≡ line.old.items ++ print_of (string_from text.now)) }
    ensures kept { OnErr result (line.new.items ≡ line.old.items) }
    ensures again { (names : Bool)
        → IsLineOf names (string_from text.now) (with_line_feed (print_of (string_from text.now))) }
{
    let count = line.len();
    match append_text(text, line, count) {
        Ok(end) => {
            line.truncate(end);
            Ok(())
        }
        Err(refused) => {
            line.truncate(count);
            Err(AllocError::from(refused))
        }
    }
}

// The functions below write after the first `count` bytes of `line`, and those that append return the new count. The
// line is always longer than that, so that one more byte fits. After an error its first `count` bytes are the same.
#[inline(always)]
fn put(line: &mut Vec<u8>, count: usize, bytes: &[u8])
    requires { count + length bytes.now ≤ vec_len line.old }
    ensures text { take (count + length bytes.now) line.new.items ≡ take count line.old.items ++ bytes.now }
    ensures len { vec_len line.new ≡ vec_len line.old }
{
    place_text(line.as_mut_slice(), count, bytes);
}

#[inline(always)]
pub(crate) fn append_bytes(
    bytes: &[u8],
    line: &mut Vec<u8>,
    count: usize,
) -> Result<usize, AllocFailed>
    requires { count ≤ vec_len line.old }
    ensures text { IfOk result (λ end. Appends line.old.items line.new.items count bytes.now end) }
    ensures kept { OnErr result (take count line.new.items ≡ take count line.old.items) }
{
    make_room_for(line, count, bytes)?;
    put(line, count, bytes);
    Ok(count + bytes.len())
}

// The string is copied first and then searched for bytes that need an escape. If there is one, it is written again.
#[inline(always)]
pub(crate) fn append_text(
    text: &str,
    line: &mut Vec<u8>,
    count: usize,
) -> Result<usize, AllocFailed>
    requires { count ≤ vec_len line.old }
    ensures text { IfOk result (λ end. Appends line.old.items line.new.items count (print_text text.now) end) }
    ensures kept { OnErr result (take count line.new.items ≡ take count line.old.items) }
{
    let bytes = text.as_bytes();
    make_room_for(line, count, bytes)?;
    line[count] = b'"';
    put(line, count + 1, bytes);
    let end = count + 1 + bytes.len();
    if is_plain_to(line.as_slice(), count + 1, end) {
        line[end] = b'"';
        return Ok(end + 1);
    }
    append_escaped(bytes, line, count + 1)
}

// Runs of bytes that stay as they are, with escapes between them (RFC 8259, 7).
#[inline(never)]
fn append_escaped(bytes: &[u8], line: &mut Vec<u8>, count: usize) -> Result<usize, AllocFailed>
    requires { count ≤ vec_len line.old }
    ensures text { IfOk result (λ end. Appends line.old.items line.new.items count
        (flat_map print_byte bytes.now ++ 34 ∷ []) end) }
    ensures kept { OnErr result (take count line.new.items ≡ take count line.old.items) }
{
    let mut begin = 0;
    let mut end = count;
    loop {
        let stop = string_stop(bytes, begin);
        end = append_bytes(&bytes[begin..stop], line, end)?;
        if stop == bytes.len() {
            return append_bytes(b"\"", line, end);
        }
        end = append_escape(bytes[stop], line, end)?;
        begin = stop + 1;
    }
}

fn append_escape(byte: u8, line: &mut Vec<u8>, count: usize) -> Result<usize, AllocFailed>
    requires needs { needs_escape byte ≡ true }
    requires place { count ≤ vec_len line.old }
    ensures text { IfOk result (λ end. Appends line.old.items line.new.items count (escape_of byte) end) }
    ensures kept { OnErr result (take count line.new.items ≡ take count line.old.items) }
{
    if byte == b'"' {
        append_bytes(b"\\\"", line, count)
    } else if byte == b'\\' {
        append_bytes(b"\\\\", line, count)
    } else {
        let code = [b'\\', b'u', b'0', b'0', digit(byte / 16), digit(byte % 16)];
        append_bytes(&code, line, count)
    }
}

fn digit(n: u8) -> u8
    requires { n < 16 }
    ensures { result ≡ hex_digit n }
{
    if n < 10 { b'0' + n } else { b'a' + (n - 10) }
}
