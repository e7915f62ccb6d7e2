//! Numbers (RFC 8259, 6): integers that an `i64` holds, and the source text of all others.
ghost use Rattle.std.specs.Prelude.{◌≡◌, ◌+◌, ◌<◌, ◌≤◌, ◌==◌, ◌||◌, IfOk, min, length, slice_get, slice_index, Some};
ghost use Rattle.std.specs.Prelude.{slice_range, true};
ghost use Rattle.jiter_scan.specs.Words.{Scans, with_end, whole_text, AnswersAlone, taken, word_at, digit_run_end};
ghost use Rattle.jiter_scan.specs.Words.{decimal_of, is_float_byte, number_value, is_float_sign, after_minus, name_at};
ghost use Rattle.jiter_scan.specs.Words.{with_value, number_at, int_at, integer_after, integer_after_minus, int_alone};
ghost use Rattle.jiter_scan.specs.Words.{begins_number, number_alone, int_view, number_view, integer_view, EndsWithin};
ghost use Rattle.jiter_scan.specs.Words.{magnitude_of, IsMinusTo, int_part_at, decimal_at};
ghost use Rattle.jiter_scan.specs.Ascii as ascii;

use crate::bytes::decimal::{block_at, digit_run_end, digit_word, joined};
use crate::errors::{Fault, FaultKind, JsonError, JsonResult, fault_at};
use crate::number::fast_number::{FastNumber, fast_number_at};
use crate::number::number_span::{Span, non_finite_from, number_span, skip_minus};
use crate::number::partial_number::{Stage, is_int_stage, stages_end};
use crate::text::ascii_text;
use crate::word::byte_at;

/// An integer: its value, or its source text if an `i64` does not hold it.
#[derive(Debug, Clone, PartialEq, Drop)]
pub enum NumberInt<'j> {
    /// An integer that an `i64` holds.
    Int(i64),
    /// The source text of any other integer.
    BigInt(&'j str),
}

/// A number: an integer, or the source text of a float.
#[derive(Debug, Clone, PartialEq, Drop)]
pub enum NumberAny<'j> {
    /// A number with neither a point nor an exponent.
    Int(NumberInt<'j>),
    /// The source text of a number with a point or an exponent, or of `NaN`, `Infinity` or `-Infinity`.
    Float(&'j str),
}

impl<'j> NumberInt<'j> {
    /// Returns the integer that the bytes are, from the first to the last (RFC 8259, 6). Whitespace is not skipped.
    ///
    /// # Errors
    ///
    /// - `InvalidNumber` at 0 if the bytes are empty, or the first one begins no number
    /// - `InvalidNumber` at the first byte that does not fit, such as a point, an exponent's letter or a trailing byte
    /// - `EofWhileParsingValue` at the length if a minus is the only byte
    /// - `NumberOutOfRange` after the 4301st digit if there are more than 4300
    ///
    /// # Examples
    ///
    /// ```
    /// assert_eq!(rt; NumberInt::from_bytes(b"-43")?, NumberInt::Int(-43));
    /// let big = NumberInt::from_bytes(b"9223372036854775808")?;
    /// assert_eq!(rt; big, NumberInt::BigInt("9223372036854775808"));
    /// ```
    pub fn from_bytes(bytes: &'j [u8]) -> JsonResult<Self>
        ensures value { AnswersAlone int_view bytes.now result (int_alone bytes.now) }
    {
        match int_alone(bytes) {
            Ok(number) => Ok(number),
            Err(fault) => Err(JsonError::from(fault)),
        }
    }
}

impl<'j> TryFrom<&'j [u8]> for NumberInt<'j> {
    type Error = JsonError;

    ghost try_from_gives = { λ bytes result.
        AnswersAlone int_view bytes.now result (int_alone bytes.now) };

    fn try_from(bytes: &'j [u8]) -> JsonResult<Self> {
        Self::from_bytes(bytes)
    }
}

impl<'j> NumberAny<'j> {
    /// Returns the number that the bytes are, from the first to the last (RFC 8259, 6). Whitespace is not skipped. With
    /// `allow_inf_nan`, `NaN`, `Infinity` and `-Infinity` are numbers too.
    ///
    /// # Errors
    ///
    /// - `InvalidNumber` at 0 if the bytes are empty, or the first one begins no number
    /// - `InvalidNumber` at the first byte that does not fit, such as a trailing byte, or the `I` of `-Infinity`
    ///   without `allow_inf_nan`
    /// - `EofWhileParsingValue` at the length if the bytes end inside the number
    /// - `NumberOutOfRange` after the 4301st digit if the integer part has more than 4300
    /// - `ExpectedSomeValue` at 0 if the bytes begin with `N` or `I`, without `allow_inf_nan`
    /// - `ExpectedSomeIdent` at the first wrong byte of an allowed `NaN` or `Infinity`
    ///
    /// # Examples
    ///
    /// ```
    /// assert_eq!(rt; NumberAny::from_bytes(b"43", false)?, NumberAny::Int(NumberInt::Int(43)));
    /// assert_eq!(rt; NumberAny::from_bytes(b"1.50", false)?, NumberAny::Float("1.50"));
    /// ```
    pub fn from_bytes(bytes: &'j [u8], allow_inf_nan: bool) -> JsonResult<Self>
        ensures value { AnswersAlone number_view bytes.now result
            (number_alone allow_inf_nan bytes.now) }
    {
        match number_alone(bytes, allow_inf_nan) {
            Ok(number) => Ok(number),
            Err(fault) => Err(JsonError::from(fault)),
        }
    }
}

fn int_alone<'j>(bytes: &'j [u8]) -> Result<NumberInt<'j>, Fault>
    ensures { Scans (whole_text int_view bytes.now) result (int_alone bytes.now) }
{
    if !byte_at(bytes, 0).is_some_and(begins_number) {
        return Err(fault_at(FaultKind::InvalidNumber, 0));
    }
    match int_at(bytes, 0) {
        Ok((Integer::Whole(number), end)) if end == bytes.len() => Ok(number),
        Ok((Integer::Whole(_), end)) => Err(fault_at(FaultKind::InvalidNumber, end)),
        Ok((Integer::FloatSeen, index)) => Err(fault_at(FaultKind::InvalidNumber, index)),
        Err(fault) => Err(fault),
    }
}

fn number_alone<'j>(bytes: &'j [u8], allow_inf_nan: bool) -> Result<NumberAny<'j>, Fault>
    ensures { Scans (whole_text number_view bytes.now) result
        (number_alone allow_inf_nan bytes.now) }
{
    if !byte_at(bytes, 0).is_some_and(begins_number) {
        return Err(fault_at(FaultKind::InvalidNumber, 0));
    }
    let (number, end) = number_at(bytes, 0, allow_inf_nan)?;
    if end == bytes.len() {
        Ok(number)
    } else {
        Err(fault_at(FaultKind::InvalidNumber, end))
    }
}

/// What is found where an integer is expected.
#[derive(Debug, Clone, PartialEq, Drop)]
pub enum Integer<'j> {
    /// An integer.
    Whole(NumberInt<'j>),
    /// A byte that only a float has.
    FloatSeen,
}

// One more than the greatest `i64`.
const INT_LIMIT: u64 = 1 << 63;

// The least number of twenty digits.
const MAGNITUDE_LIMIT: u64 = 10_000_000_000_000_000_000;

// No `i64` has twenty digits, so the exact value of a longer integer doesn't matter: the result is `MAGNITUDE_LIMIT`.
#[inline(always)]
pub(crate) fn digits_magnitude(bytes: &[u8], at: usize, end: usize) -> u64
    requires some { at < end }
    requires digits { (end ≤ digit_run_end bytes.now at) × (end ≤ length bytes.now) }
    requires first { ascii.digit_zero < slice_index bytes.now at }
    ensures { result ≡ magnitude_of (slice_range bytes.now at end) }
{
    let count = end - at;
    if count > 19 {
        return MAGNITUDE_LIMIT;
    }
    let first = digit_word(block_at(bytes, at), count.min(16));
    if count <= 16 {
        return first;
    }
    let back = digit_word(block_at(bytes, at + 16), count - 16);
    joined(first, back, count - 16)
}

// Here and below, a number begins at `from`, and its digits at `at`: after its minus, if it has one.
fn integer_of<'j>(
    bytes: &'j [u8],
    from: usize,
    at: usize,
    end: usize,
    magnitude: u64,
) -> NumberInt<'j>
    requires minus { IsMinusTo bytes.now from at }
    requires int_part { int_part_at bytes.now at ≡ taken tt end }
    requires place { (at < end) × (end ≤ length bytes.now) }
    requires magnitude { magnitude ≡ magnitude_of (slice_range bytes.now at end) }
    ensures { int_view result ≡ number_value (slice_range bytes.now from end) }
{
    if from == at {
        if magnitude < INT_LIMIT {
            return NumberInt::Int(magnitude as i64);
        }
    } else if magnitude == 0 {
        return NumberInt::Int(0);
    } else if magnitude <= INT_LIMIT {
        // 2^63 is no `i64`, but its negative is one. So 1 is subtracted before the conversion.
        return NumberInt::Int(-1 - (magnitude - 1) as i64);
    }
    NumberInt::BigInt(ascii_text(&bytes[from..end]))
}

// The magnitude of a leading zero is 0: no digit follows it.
pub(crate) fn long_integer<'j>(bytes: &'j [u8], from: usize, at: usize, end: usize) -> NumberInt<'j>
    requires minus { IsMinusTo bytes.now from at }
    requires int_part { int_part_at bytes.now at ≡ taken tt end }
    requires place { (at < end) × (end ≤ length bytes.now) }
    ensures { int_view result ≡ number_value (slice_range bytes.now from end) }
{
    let magnitude = if bytes[at] == b'0' {
        0
    } else {
        digits_magnitude(bytes, at, end)
    };
    integer_of(bytes, from, at, end, magnitude)
}

/// Does what [`number_at`] does. Call it if the fast path found nothing: it finds where the number ends, then its value.
#[cold]
#[inline(never)]
pub fn slow_number_at<'j>(
    bytes: &'j [u8],
    at: usize,
    allow_inf_nan: bool,
) -> Result<(NumberAny<'j>, usize), Fault>
    requires { at < length bytes.now }
    ensures value { Scans (with_end number_view) result (number_at allow_inf_nan bytes.now at) }
    ensures place { IfOk result (λ x. (at < x.1) × (x.1 ≤ length bytes.now)) }
{
    match number_span(bytes, at, allow_inf_nan) {
        Ok(Span::Int(digits, end)) => {
            let number = long_integer(bytes, at, digits, end);
            Ok((NumberAny::Int(number), end))
        }
        Ok(Span::Float(end)) => {
            let text = ascii_text(&bytes[at..end]);
            Ok((NumberAny::Float(text), end))
        }
        Err(fault) => Err(fault),
    }
}

/// Returns the number at `at` and the index after it (RFC 8259, 6). With `allow_inf_nan` it may be a non-finite number.
///
/// Fails as [`NumberAny::from_bytes`] does, but any byte may follow the number. Indices count from the first byte.
#[inline(always)]
pub fn number_at<'j>(
    bytes: &'j [u8],
    at: usize,
    allow_inf_nan: bool,
) -> Result<(NumberAny<'j>, usize), Fault>
    requires { at < length bytes.now }
    ensures value { Scans (with_end number_view) result (number_at allow_inf_nan bytes.now at) }
    ensures advances { IfOk result (λ x. (at < x.1) × (x.1 ≤ length bytes.now)) }
{
    let digits = skip_minus(bytes, at);
    match fast_number_at(bytes, digits) {
        FastNumber::Int(magnitude, end) => {
            let number = integer_of(bytes, at, digits, end, magnitude);
            Ok((NumberAny::Int(number), end))
        }
        FastNumber::Float(end) => {
            let text = ascii_text(&bytes[at..end]);
            Ok((NumberAny::Float(text), end))
        }
        FastNumber::Other => slow_number_at(bytes, at, allow_inf_nan),
    }
}

pub(crate) fn is_float_sign(byte: u8) -> bool
    ensures { result ≡ is_float_sign byte }
{
    matches!(byte, b'.' | b'e' | b'E')
}

// An error after the first digits is one of a float.
#[cold]
#[inline(never)]
fn slow_int_at<'j>(bytes: &'j [u8], at: usize) -> Result<(Integer<'j>, usize), Fault>
    requires { at < length bytes.now }
    ensures value { Scans (with_end integer_view) result (int_at bytes.now at) }
    ensures advances { IfOk result (EndsWithin at (length bytes.now)) }
{
    let digits = skip_minus(bytes, at);
    if non_finite_from(bytes, at, digits).is_some() {
        return Ok((Integer::FloatSeen, digits));
    }
    let (stage, end, ended) = stages_end(Stage::Minus, bytes, digits);
    match ended {
        Ok(()) if is_int_stage(stage) => {
            let number = long_integer(bytes, at, digits, end);
            Ok((Integer::Whole(number), end))
        }
        Ok(()) => Ok((Integer::FloatSeen, digit_run_end(bytes, digits))),
        Err(fault) => {
            let float = digit_run_end(bytes, digits);
            if fault.index <= float {
                return Err(fault);
            }
            Ok((Integer::FloatSeen, float))
        }
    }
}

/// Returns the integer at `at` and the index after it (RFC 8259, 6). For a float, returns the index of the first byte
/// that only a float has. That is the point, the exponent's letter, or the first letter of `NaN` or `Infinity`.
///
/// Fails as [`NumberInt::from_bytes`] does, except that a float is no error and any byte may follow the integer.
#[inline(always)]
pub fn int_at<'j>(bytes: &'j [u8], at: usize) -> Result<(Integer<'j>, usize), Fault>
    requires { at < length bytes.now }
    ensures value { Scans (with_end integer_view) result (int_at bytes.now at) }
    ensures advances { IfOk result (EndsWithin at (length bytes.now)) }
{
    let digits = skip_minus(bytes, at);
    match fast_number_at(bytes, digits) {
        FastNumber::Int(magnitude, end) => {
            let number = integer_of(bytes, at, digits, end, magnitude);
            Ok((Integer::Whole(number), end))
        }
        _ => slow_int_at(bytes, at),
    }
}

fn begins_number(byte: u8) -> bool
    ensures { result ≡ begins_number byte }
{
    byte.is_ascii_digit() || matches!(byte, b'-' | b'N' | b'I')
}
