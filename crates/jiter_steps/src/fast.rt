//! The fast path of literals. Its results are returned in registers. Only the slow path says which error there is.
ghost use Rattle.std.specs.Prelude.{◌≡◌, ◌+◌, ◌≤◌, ◌<◌, IfSome, IsTrue, length, slice_get, Some};
ghost use Rattle.jiter_steps.specs.Words.{taken, literal_at};

use crate::parse::Literal;

#[inline(always)]
fn has_four(bytes: &[u8], at: usize, a: u8, b: u8, c: u8, d: u8) -> bool
    requires { at + 4 ≤ length bytes.now }
    ensures first { IsTrue result → slice_get bytes.now at ≡ Some a }
    ensures second { IsTrue result → slice_get bytes.now (at + 1) ≡ Some b }
    ensures third { IsTrue result → slice_get bytes.now (at + 2) ≡ Some c }
    ensures fourth { IsTrue result → slice_get bytes.now (at + 3) ≡ Some d }
{
    let found = [bytes[at], bytes[at + 1], bytes[at + 2], bytes[at + 3]];
    u32::from_le_bytes(found) == u32::from_le_bytes([a, b, c, d])
}

/// Returns the index after the literal at `at`, if it is there and at least five bytes are left (RFC 8259, 3).
#[inline(always)]
pub fn fast_literal_end(bytes: &[u8], at: usize, literal: Literal) -> Option<usize>
    requires { at < length bytes.now }
    ensures value { IfSome result (λ e. literal_at bytes.now literal at ≡ taken tt e) }
    ensures within { IfSome result (λ e. (at < e) × (e ≤ length bytes.now)) }
{
    if bytes.len() - at < 5 {
        return None;
    }
    match literal {
        Literal::Null if has_four(bytes, at, b'n', b'u', b'l', b'l') => Some(at + 4),
        Literal::True if has_four(bytes, at, b't', b'r', b'u', b'e') => Some(at + 4),
        Literal::False if has_four(bytes, at + 1, b'a', b'l', b's', b'e') && bytes[at] == b'f' => {
            Some(at + 5)
        }
        _ => None,
    }
}
