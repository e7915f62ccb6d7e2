//! Numbers on their own, and the kernels.
ghost use Rattle.std.specs.Prelude.{◌≤◌, length};

use jiter::simd::{digit_count, digit_word, digits_end, scan_string};
use jiter::{JsonResult, NumberAny, NumberInt};

/// Reads a number and builds each kind.
pub fn number<'j>(bytes: &'j [u8]) -> JsonResult<NumberAny<'j>> {
    let number: NumberAny<'j> = NumberAny::from_bytes(bytes, true)?;
    match number {
        NumberAny::Int(NumberInt::Int(value)) => Ok(NumberAny::Int(NumberInt::Int(value))),
        NumberAny::Int(NumberInt::BigInt(text)) => Ok(NumberAny::Int(NumberInt::BigInt(text))),
        NumberAny::Float(text) => Ok(NumberAny::Float(text)),
    }
}

/// Reads an integer by both calls.
pub fn integer<'j>(bytes: &'j [u8]) -> JsonResult<NumberInt<'j>> {
    let _: NumberInt<'j> = NumberInt::from_bytes(bytes)?;
    NumberInt::try_from(bytes)
}

/// Calls the kernels that scan strings and digits.
pub fn kernels(bytes: &[u8], from: usize, chunk: [u8; 16]) -> ((usize, bool), Option<usize>, u64)
    requires { from ≤ length bytes.now }
{
    let stop: (usize, bool) = scan_string(bytes, from);
    let end: Option<usize> = digits_end(bytes, from, 4300);
    let count: usize = digit_count(chunk);
    let word: u64 = if count == 0 || count > 16 {
        0
    } else {
        digit_word(chunk, count)
    };
    (stop, end, word)
}
