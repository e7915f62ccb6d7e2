//! Errors of the pull reader, types, peeks, numbers and modes: each is described, cloned, and like itself alone.
use jiter::{
    Jiter, JiterError, JiterErrorType, JsonErrorType as Kind, JsonType, NumberAny, PartialMode,
    Peek,
};
use std::alloc::{AllocError, Global};
use std::test::*;

const TYPES: [JsonType; 7] = [
    JsonType::Null,
    JsonType::Bool,
    JsonType::Int,
    JsonType::Float,
    JsonType::String,
    JsonType::Array,
    JsonType::Object,
];

// Every kind of error.
const KINDS: [Kind; 22] = [
    Kind::FloatExpectingInt,
    Kind::EofWhileParsingList,
    Kind::EofWhileParsingObject,
    Kind::EofWhileParsingString,
    Kind::EofWhileParsingValue,
    Kind::ExpectedColon,
    Kind::ExpectedListCommaOrEnd,
    Kind::ExpectedObjectCommaOrEnd,
    Kind::ExpectedSomeIdent,
    Kind::ExpectedSomeValue,
    Kind::InvalidEscape,
    Kind::InvalidNumber,
    Kind::NumberOutOfRange,
    Kind::InvalidUnicodeCodePoint,
    Kind::ControlCharacterWhileParsingString,
    Kind::KeyMustBeAString,
    Kind::LoneLeadingSurrogateInHexEscape,
    Kind::TrailingComma,
    Kind::TrailingCharacters,
    Kind::UnexpectedEndOfHexEscape,
    Kind::RecursionLimitExceeded,
    Kind::OutOfMemory,
];

// The errors of the pull reader: each pair of types, and then each kind of error.
fn causes(alloc: Global) -> Result<Vec<JiterErrorType>, AllocError> {
    let mut causes = Vec::new(alloc);
    for pair in 0..49usize {
        causes.push(JiterErrorType::WrongType {
            expected: TYPES[pair / 7].clone()?,
            actual: TYPES[pair % 7].clone()?,
        })?;
    }
    for kind in &KINDS {
        causes.push(JiterErrorType::JsonError(kind.clone()?))?;
    }
    Ok(causes)
}

// What such an error prints before its place.
fn cause_text(alloc: Global, cause: &JiterErrorType) -> Result<String, AllocError> {
    match cause {
        JiterErrorType::WrongType { expected, actual } => {
            format!(in alloc; "expected {expected} but found {actual}")
        }
        JiterErrorType::JsonError(kind) => kind.to_string(alloc),
    }
}

// How many causes are equal to a clone of this one, and how many errors of some cause, at this index and at one near
// by, to a clone of its error at this index.
fn count_equals(
    causes: &[JiterErrorType],
    cause: &JiterErrorType,
    index: usize,
) -> Result<(usize, usize, usize), AllocError> {
    let error_type = cause.clone()?;
    let error = JiterError { error_type, index }.clone()?;
    let mut counts = (0usize, 0usize, 0usize);
    for other in causes {
        let here = JiterError {
            error_type: other.clone()?,
            index,
        };
        let near = JiterError {
            error_type: other.clone()?,
            index: index ^ 1,
        };
        counts.0 = counts
            .0
            .saturating_add(usize::from(*other == error.error_type));
        counts.1 = counts.1.saturating_add(usize::from(here == error));
        counts.2 = counts.2.saturating_add(usize::from(!(near != error)));
    }
    Ok(counts)
}

// The place of the first cause whose error at this index is not described, in spaces and in lines, or prints otherwise.
fn first_missed(
    alloc: Global,
    causes: &[JiterErrorType],
    blanks: &[u8],
    lines: &[u8],
    index: usize,
) -> Result<Option<usize>, Fail> {
    let next = index.saturating_add(1);
    for at in 0..causes.len() {
        let error = JiterError {
            error_type: causes[at].clone()?,
            index,
        };
        let cause = cause_text(alloc, &causes[at])?;
        let in_blanks = format!(in alloc; "{cause} at line 1 column {next}")?;
        let in_lines = format!(in alloc; "{cause} at line {} column 0", next.saturating_add(1))?;
        let printed = format!(in alloc; "{cause} at index {index}")?;
        if error.description(alloc, &Jiter::new(blanks))?.as_str() != in_blanks.as_str()
            || error.description(alloc, &Jiter::new(lines))?.as_str() != in_lines.as_str()
            || error.to_string(alloc)?.as_str() != printed.as_str()
        {
            return Ok(Some(at));
        }
    }
    Ok(None)
}

#[test]
fn every_refusal_at_every_index_is_described_and_like_itself_alone(
    rt: HostRuntime,
) -> Result<(), Fail> {
    let alloc = rt.alloc();
    let causes = causes(alloc)?;
    let blanks = " ".repeat(alloc, 100_001)?;
    let lines = "\n".repeat(alloc, 100_001)?;
    let far = [499, 500, 777, 998, 999, 1000, 1001, 9999, 65_536, 100_000];
    for step in 0..311usize {
        let index = if step <= 300 {
            step
        } else {
            far[(step - 301) % 10]
        };
        let missed = first_missed(alloc, &causes, blanks.as_bytes(), lines.as_bytes(), index)?;
        assert_eq!(rt; missed, None, "the cause's number, at {index}");
        let cause = causes.get(step % 71).ok_or("fewer causes")?;
        let counts = count_equals(&causes, cause, index)?;
        assert!(rt; counts == (1, 1, 0), "{} at {index}", step % 71);
    }
    Ok(())
}

// Texts of numbers, no two of them the same number.
const NUMBERS: [&[u8]; 16] = [
    b"0",
    b"1",
    b"-1",
    b"7",
    b"777",
    b"9223372036854775807",
    b"-9223372036854775808",
    b"9223372036854775808",
    b"-9223372036854775809",
    b"9223372036854775809",
    b"1.0",
    b"1.00",
    b"1e5",
    b"NaN",
    b"Infinity",
    b"-Infinity",
];

// How many numbers are equal to a clone of this one, and how many are not.
fn count_numbers(number: &NumberAny<'static>) -> Result<(usize, usize), Fail> {
    let copy = number.clone()?;
    let mut counts = (0usize, 0usize);
    for text in NUMBERS {
        let other: NumberAny<'static> = NumberAny::from_bytes(text, true)?;
        counts.0 = counts.0.saturating_add(usize::from(other == copy));
        counts.1 = counts.1.saturating_add(usize::from(other != copy));
    }
    Ok(counts)
}

// How many peeks are equal to a clone of this one, and how many are not.
fn count_peeks(byte: u8) -> Result<(usize, usize), AllocError> {
    let copy = Peek::new(byte).clone()?;
    let mut counts = (0usize, 0usize);
    for other in 0..=255u8 {
        counts.0 = counts
            .0
            .saturating_add(usize::from(Peek::new(other) == copy));
        counts.1 = counts
            .1
            .saturating_add(usize::from(Peek::new(other) != copy));
    }
    Ok(counts)
}

const MODES: [PartialMode; 3] = [
    PartialMode::Off,
    PartialMode::On,
    PartialMode::TrailingStrings,
];

// How many types are equal to a clone of this one, and how many modes to one of this.
fn count_types_and_modes(name: &JsonType, mode: PartialMode) -> Result<(usize, usize), AllocError> {
    let copies = (name.clone()?, mode.clone()?);
    let mut counts = (0usize, 0usize);
    for other in &TYPES {
        counts.0 = counts.0.saturating_add(usize::from(*other == copies.0));
    }
    for other in MODES {
        counts.1 = counts.1.saturating_add(usize::from(other == copies.1));
    }
    Ok(counts)
}

#[test]
fn peeks_numbers_types_and_modes_are_like_themselves_alone(rt: HostRuntime) -> Result<(), Fail> {
    for byte in 0..=255u8 {
        assert!(rt; count_peeks(byte)? == (1, 255), "{byte}");
        let number = NumberAny::from_bytes(NUMBERS[byte as usize % 16], true)?;
        assert!(rt; count_numbers(&number)? == (1, 15), "{number:?}");
        let name = &TYPES[byte as usize % 7];
        let mode = MODES[byte as usize % 3];
        assert!(rt;
            count_types_and_modes(name, mode)? == (1, 1),
            "{name:?} {mode:?}"
        );
    }
    Ok(())
}
