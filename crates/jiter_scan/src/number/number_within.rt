//! Numbers that are complete in a chunk (RFC 8259, 6): the chunk also has the byte that ends them.
ghost use Rattle.std.specs.Prelude.{◌≡◌, ◌<◌, IfSome, length, true};
ghost use Rattle.jiter_scan.specs.NumberDecoder.{number_view};
ghost use Rattle.jiter_scan.specs.NumberWithin.{EndsNumber, EndsWithin, continues_number};

use crate::bytes::decimal::digit_run_end;
use crate::number::fast_number::{BLOCK_SIZE, last_integer_at, signed};
use crate::number::number_decoder::{NumberAny, NumberInt, number_at};
use crate::number::number_span::skip_minus;

// A complete number ends with a digit, so a sign doesn't continue it.
#[inline(always)]
fn ends_number(chunk: &[u8], end: usize) -> bool
    ensures { result ≡ true → EndsNumber chunk.now end }
{
    end < chunk.len() && !matches!(chunk[end], b'0'..=b'9' | b'.' | b'e' | b'E')
}

/// Returns the number at `at` and the index after it, if the chunk also has the byte that ends it.
///
/// Returns `None` if the number may go on in the next chunk, has an error, or if no number begins at `at`. Also for a
/// float if fewer than 16 bytes are left after its minus.
pub fn number_within(chunk: &[u8], at: usize) -> Option<(NumberAny<'_>, usize)>
    requires { at < length chunk.now }
    ensures { IfSome result (λ found. EndsWithin chunk.now at (number_view found.0) found.1) }
{
    let digits = skip_minus(chunk, at);
    if chunk.len() - digits < BLOCK_SIZE {
        // The chunk truncates most numbers here, so only an integer that it ends is read.
        let end = digit_run_end(chunk, digits);
        if !ends_number(chunk, end) {
            return None;
        }
        let (magnitude, after) = last_integer_at(chunk, digits);
        if after == 0 || after != end {
            return None;
        }
        let number = signed(magnitude, at < digits);
        return Some((NumberAny::Int(NumberInt::Int(number)), after));
    }
    match number_at(chunk, at, false) {
        Ok((number, end)) if ends_number(chunk, end) => Some((number, end)),
        _ => None,
    }
}
