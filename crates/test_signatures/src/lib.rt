//! Each public call of the port, with the types of its arguments and of its result written out. Nothing here is run: it
//! compiles as long as the signatures are these.
#![tactic(auto)]

ghost use Rattle.std.specs.Prelude.{◌≡◌, false};

pub mod numbers;
pub mod readers;
pub mod values;

use jiter::{
    Jiter, JiterError, JiterErrorType, JiterResult, JsonError, JsonErrorType, JsonResult, JsonType,
    JsonValue, LinePosition, PartialMode, Peek,
};
use std::alloc::{AllocError, Global};

/// Returns every kind of `JsonErrorType`.
pub fn kinds() -> [JsonErrorType; 22] {
    [
        JsonErrorType::FloatExpectingInt,
        JsonErrorType::EofWhileParsingList,
        JsonErrorType::EofWhileParsingObject,
        JsonErrorType::EofWhileParsingString,
        JsonErrorType::EofWhileParsingValue,
        JsonErrorType::ExpectedColon,
        JsonErrorType::ExpectedListCommaOrEnd,
        JsonErrorType::ExpectedObjectCommaOrEnd,
        JsonErrorType::ExpectedSomeIdent,
        JsonErrorType::ExpectedSomeValue,
        JsonErrorType::InvalidEscape,
        JsonErrorType::InvalidNumber,
        JsonErrorType::NumberOutOfRange,
        JsonErrorType::InvalidUnicodeCodePoint,
        JsonErrorType::ControlCharacterWhileParsingString,
        JsonErrorType::KeyMustBeAString,
        JsonErrorType::LoneLeadingSurrogateInHexEscape,
        JsonErrorType::TrailingComma,
        JsonErrorType::TrailingCharacters,
        JsonErrorType::UnexpectedEndOfHexEscape,
        JsonErrorType::RecursionLimitExceeded,
        JsonErrorType::OutOfMemory,
    ]
}

/// Builds a `JsonError` from its fields, and a `JiterError` from that.
pub fn errors(error_type: JsonErrorType, index: usize) -> JiterError {
    let error: JsonError = JsonError { error_type, index };
    JiterError::from(error)
}

/// Builds a `JiterError` from its fields.
pub fn wrong_type(expected: JsonType, actual: JsonType, index: usize) -> JiterError {
    let error_type: JiterErrorType = JiterErrorType::WrongType { expected, actual };
    JiterError { error_type, index }
}

/// Returns every `JsonType`.
pub fn types() -> [JsonType; 7] {
    [
        JsonType::Null,
        JsonType::Bool,
        JsonType::Int,
        JsonType::Float,
        JsonType::String,
        JsonType::Array,
        JsonType::Object,
    ]
}

/// Returns the description of a `JsonError`.
pub fn told(alloc: Global, error: &JsonError, bytes: &[u8]) -> Result<String, AllocError> {
    let _: LinePosition = error.get_position(bytes);
    error.description(alloc, bytes)
}

/// Returns the description of a `JiterError`.
pub fn told_by(alloc: Global, error: &JiterError, jiter: &Jiter<'_>) -> Result<String, AllocError> {
    let _: LinePosition = error.get_position(jiter);
    error.description(alloc, jiter)
}

/// Builds a `LinePosition` from its fields, by its constructor and from an index.
pub fn places(alloc: Global, bytes: &[u8], index: usize) -> Result<String, AllocError> {
    let place: LinePosition = LinePosition { line: 1, column: 0 };
    let other: LinePosition = LinePosition::new(place.line, place.column);
    let _: String = other.short(alloc)?;
    LinePosition::find(bytes, index).short(alloc)
}

/// Uses the two result types.
pub fn results(read: JsonResult<u8>, stepped: JiterResult<u8>) -> (bool, bool) {
    (read.is_ok(), stepped.is_ok())
}

/// Uses every `PartialMode` and its methods.
pub fn modes(partial: bool) -> (PartialMode, bool, bool) {
    let mode: PartialMode = PartialMode::from(partial);
    match mode {
        PartialMode::Off => (PartialMode::default(), false, false),
        PartialMode::On => (mode, mode.is_active(), mode.allow_trailing_str()),
        PartialMode::TrailingStrings => (mode, mode.is_active(), mode.allow_trailing_str()),
    }
}

/// Builds a `Peek` from a byte and uses its methods.
pub fn peeks(byte: u8) -> (Peek, u8, bool) {
    let peek: Peek = Peek::new(byte);
    (peek, peek.into_inner(), peek.is_num())
}

/// Returns every named `Peek`.
pub fn first_bytes() -> [Peek; 9] {
    [
        Peek::Null,
        Peek::True,
        Peek::False,
        Peek::Minus,
        Peek::Infinity,
        Peek::NaN,
        Peek::String,
        Peek::Array,
        Peek::Object,
    ]
}

/// Calls the functions of `jiter::client`; requires a reader without partial strings.
pub fn clients<'j>(
    alloc: Global,
    jiter: &mut Jiter<'_>,
    bytes: &'j [u8],
) -> Result<(JsonValue<'static>, (JsonValue<'j>, JsonValue<'j>)), bool>
    requires { jiter.old.partial_strings ≡ false }
{
    let built: JiterResult<JsonValue<'static>> = jiter::client::value_by_steps(alloc, jiter);
    let prefixes: Result<(JsonValue<'j>, JsonValue<'j>), JsonError> = jiter::client::two_prefixes(
        alloc,
        bytes,
        0,
        bytes.len(),
        false,
        PartialMode::On,
    );
    match (built, prefixes) {
        (Ok(value), Ok(pair)) => Ok((value, pair)),
        _ => Err(false),
    }
}
