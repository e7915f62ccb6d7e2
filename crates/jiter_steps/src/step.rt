//! The steps between a document's parts (RFC 8259, 4 and 5). Each returns in registers what it found, and where.
ghost use Rattle.std.specs.Prelude.{◌≡◌, ◌+◌, ◌≤◌, ◌<◌, IfSome, None, Some, length, slice_get, true};
ghost use Rattle.jiter_steps.specs.Words.{past_blanks, step, container_first, container_comma};
ghost use Rattle.jiter_steps.specs.Words.{container_step, colon, value_first, object_colon, Finds, span_of};

use crate::parse::ContainerKind;
use crate::whitespace::blanks_end;
use jiter_scan::errors::FaultKind;
use jiter_scan::word::byte_at;

/// What a step between the parts of a container found.
#[derive(Clone, Copy, Debug, PartialEq, Eq)]
pub enum Step {
    /// A part, which begins at the index.
    Part,
    /// The end of the container, before the index.
    End,
    /// An error at the index.
    Fault(FaultKind),
}

/// Returns the index of the first byte from `from` on that is not whitespace, or the length; and the byte there.
#[inline(always)]
pub fn peek(bytes: &[u8], from: usize) -> (usize, Option<u8>)
    requires { from ≤ length bytes.now }
    ensures place { result.0 ≡ past_blanks bytes.now from }
    ensures byte { result.1 ≡ slice_get bytes.now result.0 }
    ensures within { (from ≤ result.0) × (result.0 ≤ length bytes.now) }
    ensures inside { IfSome result.1 (λ _. result.0 < length bytes.now) }
{
    if from < bytes.len() {
        let byte = bytes[from];
        if byte > b' ' {
            return (from, Some(byte));
        }
    }
    let at = blanks_end(bytes, from);
    (at, byte_at(bytes, at))
}

/// Returns what [`peek`] does. Fastest also if one space is at `from`, as after the colon of a document that is laid out.
#[inline(always)]
pub fn peek_spaced(bytes: &[u8], from: usize) -> (usize, Option<u8>)
    requires { from ≤ length bytes.now }
    ensures place { result.0 ≡ past_blanks bytes.now from }
    ensures byte { result.1 ≡ slice_get bytes.now result.0 }
    ensures within { (from ≤ result.0) × (result.0 ≤ length bytes.now) }
    ensures inside { IfSome result.1 (λ _. result.0 < length bytes.now) }
{
    if from < bytes.len() && bytes[from] == b' ' {
        return peek(bytes, from + 1);
    }
    peek(bytes, from)
}

/// Returns what [`peek`] does. Fastest if `wanted`, which is not whitespace, is the byte at `from`.
#[inline(always)]
pub fn peek_for(bytes: &[u8], from: usize, wanted: u8) -> (usize, Option<u8>)
    requires within { from ≤ length bytes.now }
    requires wanted { 32 < wanted }
    ensures place { result.0 ≡ past_blanks bytes.now from }
    ensures byte { result.1 ≡ slice_get bytes.now result.0 }
    ensures within { (from ≤ result.0) × (result.0 ≤ length bytes.now) }
    ensures inside { IfSome result.1 (λ _. result.0 < length bytes.now) }
{
    if from < bytes.len() && bytes[from] == wanted {
        return (from, Some(wanted));
    }
    peek(bytes, from)
}

// Out of line, so that the path without an error sets no register for one.
#[cold]
#[inline(never)]
fn fault(kind: FaultKind) -> Step
    ensures { result ≡ Step.Fault kind }
{
    Step::Fault(kind)
}

/// Finds the first part of a container, or its end (RFC 8259, 4 and 5). `from` is after the opening bracket.
#[inline(always)]
pub fn first(bytes: &[u8], from: usize, shape: ContainerKind) -> (usize, Step)
    requires { from ≤ length bytes.now }
    ensures { Finds bytes.now from result (step bytes.now (container_first shape) from) }
{
    let (at, byte) = peek(bytes, from);
    match byte {
        None => (at, fault(shape.end_kind())),
        Some(byte) => {
            if shape.begins_part(byte) {
                (at, Step::Part)
            } else if byte == shape.closer() {
                (at + 1, Step::End)
            } else {
                (at, fault(FaultKind::KeyMustBeAString))
            }
        }
    }
}

// `from` is after a comma.
#[inline(always)]
fn after_comma(bytes: &[u8], from: usize, shape: ContainerKind) -> (usize, Step)
    requires { from ≤ length bytes.now }
    ensures { Finds bytes.now from result (step bytes.now (container_comma shape) from) }
{
    let (at, byte) = match shape {
        ContainerKind::Array => peek(bytes, from),
        ContainerKind::Object => peek_for(bytes, from, b'"'),
    };
    match byte {
        None => (at, fault(FaultKind::EofWhileParsingValue)),
        Some(byte) => {
            if shape.begins_part(byte) {
                (at, Step::Part)
            } else if byte == shape.closer() {
                (at, fault(FaultKind::TrailingComma))
            } else {
                (at, fault(FaultKind::KeyMustBeAString))
            }
        }
    }
}

/// Returns what [`next`] does. Call it if `shape` is a constant at the call.
#[inline(always)]
pub fn known_next(bytes: &[u8], from: usize, shape: ContainerKind) -> (usize, Step)
    requires { from ≤ length bytes.now }
    ensures { Finds bytes.now from result (step bytes.now (container_step shape bytes.now) from) }
{
    // In the common case a comma comes next, and a byte after it: then the length is not tested again there.
    if from + 1 < bytes.len() && bytes[from] == b',' {
        return after_comma(bytes, from + 1, shape);
    }
    let (at, byte) = peek(bytes, from);
    match byte {
        None => (at, fault(shape.end_kind())),
        Some(byte) => {
            if byte == b',' {
                after_comma(bytes, at + 1, shape)
            } else if byte == shape.closer() {
                (at + 1, Step::End)
            } else {
                (at, fault(shape.comma_kind()))
            }
        }
    }
}

/// Finds the next part of a container, or its end (RFC 8259, 4 and 5). `from` is after a part.
#[inline(always)]
pub fn next(bytes: &[u8], from: usize, shape: ContainerKind) -> (usize, Step)
    requires { from ≤ length bytes.now }
    ensures { Finds bytes.now from result (step bytes.now (container_step shape bytes.now) from) }
{
    match shape {
        ContainerKind::Array => known_next(bytes, from, ContainerKind::Array),
        ContainerKind::Object => known_next(bytes, from, ContainerKind::Object),
    }
}

/// Returns the index after the colon, or of an error, and that error's kind (RFC 8259, 4). `from` is after the key.
#[inline(always)]
pub fn colon(bytes: &[u8], from: usize) -> (usize, Option<FaultKind>)
    requires { from ≤ length bytes.now }
    ensures value { step bytes.now colon from ≡ span_of result.0 result.1 }
    ensures within { (from ≤ result.0) × (result.0 ≤ length bytes.now) }
{
    let (at, byte) = peek_for(bytes, from, b':');
    match byte {
        None => (at, Some(FaultKind::EofWhileParsingObject)),
        Some(b':') => (at + 1, None),
        Some(_) => (at, Some(FaultKind::ExpectedColon)),
    }
}

/// Returns the index of the value's first byte, or of the end, and the error's kind if nothing follows (RFC 8259, 3).
#[inline(always)]
pub fn value_first(bytes: &[u8], from: usize) -> (usize, Option<FaultKind>)
    requires { from ≤ length bytes.now }
    ensures value { step bytes.now value_first from ≡ span_of result.0 result.1 }
    ensures within { (from ≤ result.0) × (result.0 ≤ length bytes.now) }
    ensures inside { result.1 ≡ None → result.0 < length bytes.now }
{
    let (at, byte) = peek_spaced(bytes, from);
    match byte {
        None => (at, Some(FaultKind::EofWhileParsingValue)),
        Some(_) => (at, None),
    }
}

/// Returns the index of a member's value, or of an error, and that error's kind (RFC 8259, 4). `from` is after the key.
#[inline(always)]
pub fn member_value(bytes: &[u8], from: usize) -> (usize, Option<FaultKind>)
    requires { from ≤ length bytes.now }
    ensures value { object_colon bytes.now from ≡ span_of result.0 result.1 }
    ensures within { (from ≤ result.0) × (result.0 ≤ length bytes.now) }
    ensures inside { result.1 ≡ None → result.0 < length bytes.now }
{
    match colon(bytes, from) {
        (at, None) => value_first(bytes, at),
        (at, Some(kind)) => (at, Some(kind)),
    }
}
