//! The text of an error: its cause, and its line and column. Nothing here allocates, so C gets it also out of memory.
ghost use Rattle.std.specs.Prelude.{◌≡◌, ◌++◌, ◌≤◌, IfSome, List, MatchOption, codes, false, is_some, length, true, ℕ};
ghost use Rattle.jiter.specs.Cause.{Cause, ValueType, cause_text, type_text};
ghost use Rattle.jiter_scan.specs.Kind.{kind_of};
ghost use Rattle.jiter_c.specs.Descriptions.{IsTypeText, WritesCause};
ghost use Rattle.jiter_c.specs.Faults.{Describes, HasCause, has_cause, is_kind_number, is_type_number};
ghost use Rattle.jiter_c.specs.Faults.{kind_number, type_number};
ghost use Rattle.jiter_c.specs.Reports.{written};

use crate::faults::{JiterFault, WRONG_TYPE};
use crate::texts::{append, append_number};
use jiter::{JsonErrorType, LinePosition};
use jiter_scan::errors::kind_text;

fn kind_numbered(number: u32) -> Option<JsonErrorType>
    ensures known { is_some result ≡ is_kind_number number }
    ensures kind { IfSome result (λ kind. number ≡ kind_number (kind_of kind)) }
{
    match number {
        1 => Some(JsonErrorType::FloatExpectingInt),
        2 => Some(JsonErrorType::EofWhileParsingList),
        3 => Some(JsonErrorType::EofWhileParsingObject),
        4 => Some(JsonErrorType::EofWhileParsingString),
        5 => Some(JsonErrorType::EofWhileParsingValue),
        6 => Some(JsonErrorType::ExpectedColon),
        7 => Some(JsonErrorType::ExpectedListCommaOrEnd),
        8 => Some(JsonErrorType::ExpectedObjectCommaOrEnd),
        9 => Some(JsonErrorType::ExpectedSomeIdent),
        10 => Some(JsonErrorType::ExpectedSomeValue),
        11 => Some(JsonErrorType::InvalidEscape),
        12 => Some(JsonErrorType::InvalidNumber),
        13 => Some(JsonErrorType::NumberOutOfRange),
        14 => Some(JsonErrorType::InvalidUnicodeCodePoint),
        15 => Some(JsonErrorType::ControlCharacterWhileParsingString),
        16 => Some(JsonErrorType::KeyMustBeAString),
        17 => Some(JsonErrorType::LoneLeadingSurrogateInHexEscape),
        18 => Some(JsonErrorType::TrailingComma),
        19 => Some(JsonErrorType::TrailingCharacters),
        20 => Some(JsonErrorType::UnexpectedEndOfHexEscape),
        21 => Some(JsonErrorType::RecursionLimitExceeded),
        22 => Some(JsonErrorType::OutOfMemory),
        _ => None,
    }
}

fn type_text(number: u32) -> Option<&'static str>
    ensures { MatchOption result (is_type_number number ≡ false)
        (λ text. (is_type_number number ≡ true) × IsTypeText number text.now) }
{
    match number {
        1 => Some("null"),
        2 => Some("bool"),
        3 => Some("int"),
        4 => Some("float"),
        5 => Some("string"),
        6 => Some("array"),
        7 => Some("object"),
        _ => None,
    }
}

fn write_cause(fault: &JiterFault, out: &mut [u8]) -> Option<usize>
    ensures { MatchOption result ((has_cause fault.now ≡ false) × (out.new ≡ out.old))
        (λ count. (has_cause fault.now ≡ true) × WritesCause fault.now out.old out.new count) }
{
    if fault.kind == WRONG_TYPE {
        let expected = type_text(fault.expected)?;
        let actual = type_text(fault.actual)?;
        let mut count = append(out, 0, b"expected ");
        count = append(out, count, expected.as_bytes());
        count = append(out, count, b" but found ");
        Some(append(out, count, actual.as_bytes()))
    } else {
        let kind = kind_numbered(fault.kind)?;
        Some(append(out, 0, kind_text(&kind).as_bytes()))
    }
}

/// Writes an error as `CAUSE at line L column C` to `out`. Does not allocate.
///
/// `out` gets as much of the text as fits, `whole` its complete length. Pass the bytes that the error is about.
///
/// # Errors
///
/// Returns `false` and writes nothing:
///
/// - if `fault` has no kind of `jiter_c.h` from 1 to 22, or the kind [`WRONG_TYPE`] and not two types of `jiter_c.h`
#[unsafe(no_mangle)]
pub extern "C" fn jiter_describe(
    bytes: &[u8],
    fault: &JiterFault,
    out: &mut [u8],
    whole: &mut usize,
) -> bool
    ensures known { result ≡ has_cause fault.now }
    ensures text { result ≡ true → (text : List ℕ) × Describes bytes.now fault.now text
        × (out.new ≡ written text out.old) × (whole.new ≡ length text) }
    ensures kept { result ≡ false → (out.new ≡ out.old) × (whole.new ≡ whole.old) }
{
    let Some(cause) = write_cause(fault, out) else {
        return false;
    };
    let LinePosition { line, column } = LinePosition::find(bytes, fault.index);
    let mut count = append(out, cause, b" at line ");
    count = append_number(out, count, line);
    count = append(out, count, b" column ");
    *whole = append_number(out, count, column);
    true
}

/// Writes the cause of an error, without its position, to `out`: what [`jiter_describe`] writes before ` at line`. Does
/// not allocate.
///
/// `out` gets as much of the text as fits, `whole` its complete length.
///
/// # Errors
///
/// Returns `false` and writes nothing:
///
/// - if `fault` has no kind of `jiter_c.h` from 1 to 22, or the kind [`WRONG_TYPE`] and not two types of `jiter_c.h`
#[unsafe(no_mangle)]
pub extern "C" fn jiter_cause(fault: &JiterFault, out: &mut [u8], whole: &mut usize) -> bool
    ensures known { result ≡ has_cause fault.now }
    ensures text { result ≡ true → (c : Cause) × HasCause fault.now c
        × (out.new ≡ written (cause_text c) out.old) × (whole.new ≡ length (cause_text c)) }
    ensures kept { result ≡ false → (out.new ≡ out.old) × (whole.new ≡ whole.old) }
{
    let Some(count) = write_cause(fault, out) else {
        return false;
    };
    *whole = count;
    true
}
