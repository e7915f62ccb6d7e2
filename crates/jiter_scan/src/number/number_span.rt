//! Finds where numbers end, without their values (RFC 8259, 6).
ghost use Rattle.std.specs.Prelude.{◌≡◌, ◌+◌, ◌<◌, ◌≤◌, Bool, IfOk, IfSome, IfNone, length, slice_get};
ghost use Rattle.jiter_scan.specs.Words.{digit_run_end, after_zero, within_limit, int_part_at, number_span};
ghost use Rattle.jiter_scan.specs.Words.{IsMinusTo, IsDecimalFrom, IsSpan, IsNameFrom, span_end};
ghost use Rattle.jiter_scan.specs.Words.{skip_minus, non_finite_span, Scans, taken};

use crate::errors::{Fault, FaultKind, fault_at};
use crate::number::fast_number::{FastNumber, padded_number_at};
use crate::number::partial_number::{Stage, is_int_stage, stages_end};
use crate::word::{byte_at, word_end};

/// How many bytes the fast path may read for a short number: a minus, and 65 from its first digit on.
pub const NUMBER_REACH: usize = 66;

// What a number is, and where it ends.
#[derive(Clone, Copy)]
pub(crate) enum Span {
    // An integer: the index of its first digit, and the index after it.
    Int(usize, usize),
    // A number with a point or an exponent, or a name: the index after it.
    Float(usize),
}

// The name that the number at `at` begins with, if any. `from` is the index after its minus.
pub(crate) fn non_finite_from(bytes: &[u8], at: usize, from: usize) -> Option<&'static [u8]>
    requires within { at < length bytes.now }
    requires minus { from ≡ skip_minus bytes.now at }
    ensures name { IfSome result (λ name. IsNameFrom bytes.now name.now at from) }
    ensures decimal { IfNone result (IsDecimalFrom bytes.now at from) }
{
    match byte_at(bytes, from) {
        None => None,
        Some(byte) => {
            if byte == b'I' {
                Some(b"Infinity")
            } else if byte == b'N' && from == at {
                Some(b"NaN")
            } else {
                None
            }
        }
    }
}

// If they are not allowed, `NaN` and `Infinity` are `ExpectedSomeValue` here. After a minus it is `InvalidNumber`.
fn non_finite_end(
    bytes: &[u8],
    at: usize,
    from: usize,
    name: &[u8],
    allow_inf_nan: bool,
) -> Result<usize, Fault>
    requires within { from ≤ length bytes.now }
    ensures value { Scans (taken tt) result (non_finite_span allow_inf_nan bytes.now name.now at from) }
    ensures end { IfOk result (λ e. (e ≡ from + length name.now) × (e ≤ length bytes.now)) }
{
    if allow_inf_nan {
        word_end(bytes, from, name)
    } else if from == at {
        Err(fault_at(FaultKind::ExpectedSomeValue, from))
    } else {
        Err(fault_at(FaultKind::InvalidNumber, from))
    }
}

// The slow path goes through the stages of the number.
#[inline(never)]
#[tactic(auto, using(crate::proofs::NumberStarts::found_span, crate::proofs::NumberStarts::found_int))]
pub(crate) fn number_span(bytes: &[u8], at: usize, allow_inf_nan: bool) -> Result<Span, Fault>
    requires { at < length bytes.now }
    ensures value { Scans span_end result (number_span allow_inf_nan bytes.now at) }
    ensures parts { IfOk result (λ span. IsSpan bytes.now at span) }
{
    let from = skip_minus(bytes, at);
    if let Some(name) = non_finite_from(bytes, at, from) {
        let end = non_finite_end(bytes, at, from, name, allow_inf_nan)?;
        return Ok(Span::Float(end));
    }
    let (stage, end, ended) = stages_end(Stage::Minus, bytes, from);
    match ended {
        Ok(()) if is_int_stage(stage) => Ok(Span::Int(from, end)),
        Ok(()) => Ok(Span::Float(end)),
        Err(fault) => Err(fault),
    }
}

/// Returns the index after the minus at `at`, or `at` if there is none: that of the number's first digit.
#[inline(always)]
pub fn skip_minus(bytes: &[u8], at: usize) -> usize
    requires { at < length bytes.now }
    ensures minus { IsMinusTo bytes.now at result }
    ensures end { result ≡ skip_minus bytes.now at }
    ensures place { (at ≤ result) × (result ≤ length bytes.now) }
    ensures near { result ≤ at + 1 }
{
    if bytes[at] == b'-' { at + 1 } else { at }
}

/// Returns the index after the number at `at`, if it is short. At least 66 bytes must be left.
#[inline(always)]
pub fn padded_number_end(bytes: &[u8], at: usize) -> Option<usize>
    requires { at + 66 ≤ length bytes.now }
    ensures end { IfSome result
        (λ e. (names : Bool) → number_span names bytes.now at ≡ taken tt e) }
    ensures place { IfSome result (λ e. (at < e) × (e ≤ length bytes.now)) }
{
    match padded_number_at(bytes, skip_minus(bytes, at), true) {
        FastNumber::Int(_, end) => Some(end),
        FastNumber::Float(end) => Some(end),
        FastNumber::Other => None,
    }
}

/// Returns the index after the number at `at`, if it is short and at least 66 bytes are left.
#[inline(always)]
pub fn fast_number_end(bytes: &[u8], at: usize) -> Option<usize>
    requires { at < length bytes.now }
    ensures end { IfSome result
        (λ e. (names : Bool) → number_span names bytes.now at ≡ taken tt e) }
    ensures place { IfSome result (λ e. (at < e) × (e ≤ length bytes.now)) }
{
    if at + NUMBER_REACH > bytes.len() {
        return None;
    }
    padded_number_end(bytes, at)
}

/// Returns the index after the number at `at`, without its value (RFC 8259, 6). Fails as
/// [`number_at`](crate::number::number_decoder::number_at) does.
#[inline(always)]
pub fn number_end(bytes: &[u8], at: usize, allow_inf_nan: bool) -> Result<usize, Fault>
    requires { at < length bytes.now }
    ensures value { Scans (taken tt) result (number_span allow_inf_nan bytes.now at) }
    ensures advances { IfOk result (λ e. (at < e) × (e ≤ length bytes.now)) }
{
    if let Some(end) = fast_number_end(bytes, at) {
        return Ok(end);
    }
    match number_span(bytes, at, allow_inf_nan)? {
        Span::Int(_, end) | Span::Float(end) => Ok(end),
    }
}
