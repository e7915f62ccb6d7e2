//! Errors, positions and modes.
use jiter_scan::errors::{JsonError, JsonErrorType, LinePosition};
use jiter_scan::partial_mode::PartialMode;
use std::alloc::{AllocError, Global};
use std::io;
use test_rows::{Partial, Row, bytes_of};

const KINDS: [JsonErrorType; 22] = [
    JsonErrorType::FloatExpectingInt,
    JsonErrorType::EofWhileParsingList,
    JsonErrorType::EofWhileParsingObject,
    JsonErrorType::EofWhileParsingString,
    JsonErrorType::EofWhileParsingValue,
    JsonErrorType::ExpectedColon,
    JsonErrorType::ExpectedListCommaOrEnd,
    JsonErrorType::ExpectedObjectCommaOrEnd,
    JsonErrorType::ExpectedSomeIdent,
    JsonErrorType::ExpectedSomeValue,
    JsonErrorType::InvalidEscape,
    JsonErrorType::InvalidNumber,
    JsonErrorType::NumberOutOfRange,
    JsonErrorType::InvalidUnicodeCodePoint,
    JsonErrorType::ControlCharacterWhileParsingString,
    JsonErrorType::KeyMustBeAString,
    JsonErrorType::LoneLeadingSurrogateInHexEscape,
    JsonErrorType::TrailingComma,
    JsonErrorType::TrailingCharacters,
    JsonErrorType::UnexpectedEndOfHexEscape,
    JsonErrorType::RecursionLimitExceeded,
    JsonErrorType::OutOfMemory,
];

// The kind that shows this name.
fn kind_named(alloc: Global, name: &str) -> Result<Option<JsonErrorType>, AllocError> {
    for kind in &KINDS {
        if format!(in alloc; "{kind:?}")?.as_str() == name {
            return Ok(Some(kind.clone()?));
        }
    }
    Ok(None)
}

// The words of an input up to the bytes: `KIND`, `KIND INDEX BYTES`, and `INDEX BYTES` of a position.
pub fn answer(rt: &HostRuntime, alloc: Global, row: &Row<'_>) -> io::Result<()> {
    if row.call == "position" {
        return answer_position(rt, alloc, row.input);
    }
    let (name, rest) = row.input.split_once(' ').unwrap_or((row.input, "0"));
    let (index, text) = rest.split_once(' ').unwrap_or((rest, ""));
    let (Some(error_type), Ok(index)) = (kind_named(alloc, name)?, index.parse()) else {
        return println!(rt; "no kind of this name, or no index");
    };
    let error = JsonError { error_type, index };
    match row.call {
        "kind" => println!(rt; "{:>80}", error.error_type),
        "error" => println!(rt;
            "{error:>40}, memory {}, shown {error:?}",
            error.is_memory()
        ),
        _ => {
            let bytes = bytes_of(alloc, text)?;
            println!(rt; "{}", error.description(alloc, bytes.as_slice())?)
        }
    }
}

// Line and column, as text of any width, as a short text, and shown.
fn answer_position(rt: &HostRuntime, alloc: Global, input: &str) -> io::Result<()> {
    let (index, text) = input.split_once(' ').unwrap_or((input, ""));
    let Ok(index) = index.parse() else {
        return println!(rt; "no index");
    };
    let position = LinePosition::find(bytes_of(alloc, text)?.as_slice(), index);
    let short = position.short(alloc)?;
    println!(rt; "{position:>40}, short {short}, shown {position:?}")
}

// The mode that no word and each truth value stand for.
pub fn answer_modes(rt: &HostRuntime) -> io::Result<()> {
    let default = PartialMode::default();
    let off = PartialMode::from(false);
    let on = PartialMode::from(true);
    println!(rt; "default {default:?}, of false {off:?}, of true {on:?}")
}

// What a mode says.
pub fn answer_mode(rt: &HostRuntime, partial: Partial) -> io::Result<()> {
    let mode = match partial {
        Partial::Off => PartialMode::Off,
        Partial::On => PartialMode::On,
        Partial::TrailingStrings => PartialMode::TrailingStrings,
    };
    let active = mode.is_active();
    println!(rt;
        "{mode:?}, active {active}, trailing strings {}",
        mode.allow_trailing_str()
    )
}
