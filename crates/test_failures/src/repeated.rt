//! Calls in a row, whose allocations must not grow with their number: lines by one scratch, and chunks.
use crate::asking::Repeated;
use crate::mark::mark;
use crate::outcome::Outcome;
use jiter::{JsonError, JsonErrorType as Kind, JsonValue, JsonValueScratch, PartialMode};
use jiter_incremental::{IncrementalParser, LineIndex, parse_chunks};
use std::alloc::{AllocError, Global};

// The bytes of each chunk but the last, where the call does not say them.
const CHUNK: usize = 5;

/// Returns what the calls come to. Sections begin and end with the marks.
pub fn outcome(
    alloc: Global,
    bytes: &[u8],
    mode: PartialMode,
    call: Repeated,
) -> Result<Outcome, AllocError> {
    match call {
        Repeated::Lines => lines(alloc, bytes, mode),
        Repeated::OwnedLines => owned_lines(alloc, bytes, mode),
        Repeated::Chunks(size) => chunks(alloc, bytes, mode, size),
        Repeated::ParseChunks => all_chunks(alloc, bytes),
        Repeated::LineIndex => line_index(alloc, bytes),
    }
}

// Two sections: the first line, and the others. Each value is dropped before the next line. Returns the last outcome.
fn lines(alloc: Global, bytes: &[u8], mode: PartialMode) -> Result<Outcome, AllocError> {
    let mut scratch = JsonValueScratch::new(alloc);
    let mut last = Err(JsonError {
        error_type: Kind::TrailingCharacters,
        index: 0,
    });
    let _ = mark(alloc);
    for (number, line) in bytes.split(|byte| *byte == b'\n').enumerate() {
        last = scratch.parse(line, true, mode);
        if number == 0 {
            let _ = mark(alloc);
            let _ = mark(alloc);
        }
        if is_short(&last) {
            break;
        }
    }
    let _ = mark(alloc);
    told(alloc, &last)
}

// The same for values that own their strings.
fn owned_lines(alloc: Global, bytes: &[u8], mode: PartialMode) -> Result<Outcome, AllocError> {
    let mut scratch: JsonValueScratch<'static> = JsonValueScratch::new(alloc);
    let mut last = Err(JsonError {
        error_type: Kind::TrailingCharacters,
        index: 0,
    });
    let _ = mark(alloc);
    for (number, line) in bytes.split(|byte| *byte == b'\n').enumerate() {
        last = scratch.parse_owned(line, true, mode);
        if number == 0 {
            let _ = mark(alloc);
            let _ = mark(alloc);
        }
        if is_short(&last) {
            break;
        }
    }
    let _ = mark(alloc);
    told(alloc, &last)
}

// Four sections: `new`; each push; `value` and `error` after the last; `finish`.
fn chunks(
    alloc: Global,
    bytes: &[u8],
    mode: PartialMode,
    size: usize,
) -> Result<Outcome, AllocError> {
    let _ = mark(alloc);
    let mut parser = IncrementalParser::new(alloc, true, mode);
    let _ = mark(alloc);
    let _ = mark(alloc);
    let mut is_taken = true;
    for chunk in bytes.chunks(size.max(1)) {
        is_taken = is_taken && parser.push(chunk).is_ok();
    }
    let _ = mark(alloc);
    let _ = mark(alloc);
    let is_value = parser.value().is_ok();
    let has_error = parser.error().is_some();
    let _ = mark(alloc);
    if !is_taken {
        return Outcome::refused(alloc);
    }
    if mode == PartialMode::Off && is_value == has_error {
        return Outcome::broken(alloc, "a value and an error, or neither");
    }
    let _ = mark(alloc);
    let answer = parser.finish();
    let _ = mark(alloc);
    told(alloc, &answer)
}

// One section.
fn all_chunks(alloc: Global, bytes: &[u8]) -> Result<Outcome, AllocError> {
    let mut list = Vec::new(alloc);
    for chunk in bytes.chunks(CHUNK) {
        list.push(chunk)?;
    }
    let _ = mark(alloc);
    let answer = parse_chunks(alloc, list.as_slice(), true);
    let _ = mark(alloc);
    told(alloc, &answer)
}

// Three sections: `new`; each push; `position`. Returns the position of the last byte.
fn line_index(alloc: Global, bytes: &[u8]) -> Result<Outcome, AllocError> {
    let _ = mark(alloc);
    let mut index = LineIndex::new(alloc);
    let _ = mark(alloc);
    let _ = mark(alloc);
    let mut is_taken = true;
    for chunk in bytes.chunks(CHUNK) {
        is_taken = is_taken && index.push(chunk).is_ok();
    }
    let _ = mark(alloc);
    if !is_taken {
        return Outcome::refused(alloc);
    }
    let _ = mark(alloc);
    let position = index.position(bytes.len());
    let _ = mark(alloc);
    Ok(Outcome::Answered(format!(in alloc; "{position}")?))
}

// Whether an allocation failed.
fn is_short(answer: &Result<JsonValue<'_>, JsonError>) -> bool {
    match answer {
        Ok(_) => false,
        Err(error) => error.is_memory(),
    }
}

fn told(alloc: Global, answer: &Result<JsonValue<'_>, JsonError>) -> Result<Outcome, AllocError> {
    match answer {
        Ok(value) => Outcome::value(alloc, value),
        Err(error) if error.is_memory() => Outcome::refused(alloc),
        Err(error) => Ok(Outcome::Answered(format!(in alloc;
            "{} at {}",
            error.error_type, error.index
        )?)),
    }
}
