//! Finds how many of the first bytes are complete characters in UTF-8 (RFC 3629, 3 and 4).
ghost use Rattle.std.specs.Prelude.{◌≡◌, ◌+◌, ◌≤◌, drop, false, length, take, true};
ghost use Rattle.jiter_steps.specs.Words.{IsUtf8, IsBroken, IsUnfinished};

use std::str::from_utf8;

// From this length on, `simdutf8` tests the bytes; fewer bytes are left to the standard library.
const MANY: usize = 64;

// For long runs.
#[inline(never)]
fn valid_utf8_end_far(bytes: &[u8]) -> (usize, bool)
    ensures within { result.0 ≤ length bytes.now }
    ensures prefix { IsUtf8 (take result.0 bytes.now) }
    ensures open { result.1 ≡ false → IsUnfinished (drop result.0 bytes.now) }
    ensures wrong { result.1 ≡ true → IsBroken (drop result.0 bytes.now) }
    ensures few { result.1 ≡ false → length bytes.now ≤ result.0 + 3 }
{
    match simdutf8::compat::from_utf8(bytes) {
        Ok(_) => (bytes.len(), false),
        Err(e) => (e.valid_up_to(), e.error_len().is_some()),
    }
}

// Returns how many first bytes are complete characters, and whether those after them are wrong, not only incomplete.
pub(crate) fn valid_utf8_end(bytes: &[u8]) -> (usize, bool)
    ensures within { result.0 ≤ length bytes.now }
    ensures prefix { IsUtf8 (take result.0 bytes.now) }
    ensures open { result.1 ≡ false → IsUnfinished (drop result.0 bytes.now) }
    ensures wrong { result.1 ≡ true → IsBroken (drop result.0 bytes.now) }
    ensures few { result.1 ≡ false → length bytes.now ≤ result.0 + 3 }
{
    if bytes.len() >= MANY {
        return valid_utf8_end_far(bytes);
    }
    match from_utf8(bytes) {
        Ok(_) => (bytes.len(), false),
        Err(error) => (error.valid_up_to(), error.error_len().is_some()),
    }
}
