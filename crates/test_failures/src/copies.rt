//! Copies of a value, and descriptions of an error and of a position.
use crate::asking::Copying;
use crate::mark::mark;
use crate::outcome::Outcome;
use jiter::{Jiter, JsonError, JsonErrorType as Kind, JsonValue, PartialMode, UniqueError};
use std::alloc::{AllocError, Global};
use test_support::told::text_of;

/// What a copy of the text's value comes to, or a pointer into it, or a description of its error or of its position.
pub fn outcome(
    alloc: Global,
    bytes: &[u8],
    mode: PartialMode,
    call: Copying,
) -> Result<Outcome, AllocError> {
    match call {
        Copying::DescribeRefusal => refusal_told(alloc, bytes),
        Copying::CloneUnique | Copying::DescribeUnique => of_unique(alloc, bytes, mode, call),
        _ => of_answer(alloc, bytes, mode, call),
    }
}

fn of_answer(
    alloc: Global,
    bytes: &[u8],
    mode: PartialMode,
    call: Copying,
) -> Result<Outcome, AllocError> {
    match JsonValue::parse_with_config(alloc, bytes, true, mode) {
        Ok(value) => match call {
            Copying::Describe | Copying::Short => told(alloc, bytes, &end_of(bytes), call),
            _ => copied(alloc, value, call),
        },
        Err(error) if error.error_type == Kind::OutOfMemory => Outcome::refused(alloc),
        Err(error) => told(alloc, bytes, &error, call),
    }
}

// An error at the end of a text, for one that has none.
fn end_of(bytes: &[u8]) -> JsonError {
    JsonError {
        error_type: Kind::TrailingCharacters,
        index: bytes.len(),
    }
}

// A copy, which leaves the value as it was, made or refused.
fn copied(alloc: Global, value: JsonValue<'_>, call: Copying) -> Result<Outcome, AllocError> {
    let before = text_of(alloc, &value)?;
    let copy = match call {
        Copying::Clone => cloned(alloc, &value)?,
        Copying::ToStatic => owned(alloc, &value)?,
        Copying::Pointer => return pointed(alloc, &value),
        _ => return moved(alloc, value),
    };
    let after = text_of(alloc, &value)?;
    if before.as_str() == after.as_str() {
        Ok(copy)
    } else {
        Ok(Outcome::Broken(after))
    }
}

fn cloned(alloc: Global, value: &JsonValue<'_>) -> Result<Outcome, AllocError> {
    let _ = mark(alloc);
    let copy = value.clone(alloc);
    let _ = mark(alloc);
    copy_told(alloc, copy)
}

fn owned(alloc: Global, value: &JsonValue<'_>) -> Result<Outcome, AllocError> {
    let _ = mark(alloc);
    let copy = value.to_static(alloc);
    let _ = mark(alloc);
    copy_told(alloc, copy)
}

// Returns in how many items a pointer of 190 steps leads somewhere.
fn pointed(alloc: Global, value: &JsonValue<'_>) -> Result<Outcome, AllocError> {
    let path = "/k".repeat(alloc, 190)?;
    let _ = mark(alloc);
    let mut count: usize = 0;
    if let Some(items) = value.as_array() {
        for item in items.iter() {
            if item.pointer(path.as_str()).is_some() {
                count = count.saturating_add(1);
            }
        }
    }
    let _ = mark(alloc);
    Ok(Outcome::Answered(count.to_string(alloc)?))
}

fn moved(alloc: Global, value: JsonValue<'_>) -> Result<Outcome, AllocError> {
    let _ = mark(alloc);
    let own = value.into_static(alloc);
    let _ = mark(alloc);
    copy_told(alloc, own)
}

fn copy_told(
    alloc: Global,
    copy: Result<JsonValue<'_>, AllocError>,
) -> Result<Outcome, AllocError> {
    match copy {
        Ok(copy) => Outcome::value(alloc, &copy),
        Err(_) => Outcome::refused(alloc),
    }
}

// What is said of an error.
fn told(
    alloc: Global,
    bytes: &[u8],
    error: &JsonError,
    call: Copying,
) -> Result<Outcome, AllocError> {
    let line = match call {
        Copying::Short => error.get_position(bytes).short(alloc),
        _ => error.description(alloc, bytes),
    };
    told_line(alloc, line)
}

// The same of the error of a duplicate key.
fn of_unique(
    alloc: Global,
    bytes: &[u8],
    mode: PartialMode,
    call: Copying,
) -> Result<Outcome, AllocError> {
    match JsonValue::parse_unique(alloc, bytes, true, mode) {
        Ok(value) => Outcome::value(alloc, &value),
        Err(error) if error.is_memory() => Outcome::refused(alloc),
        Err(error) => match call {
            Copying::CloneUnique => error_copied(alloc, &error),
            _ => told_line(alloc, error.description(alloc, bytes)),
        },
    }
}

// A copy of an error, which equals it, or out of memory.
fn error_copied(alloc: Global, error: &UniqueError) -> Result<Outcome, AllocError> {
    let _ = mark(alloc);
    let copy = error.clone(alloc);
    let _ = mark(alloc);
    match copy {
        Ok(copy) if &copy == error => Ok(Outcome::Answered(format!(in alloc; "{copy}")?)),
        Ok(_) => Outcome::broken(alloc, "a copy is not like the fault"),
        Err(_) => Outcome::refused(alloc),
    }
}

// What is said of an error of the pull reader.
fn refusal_told(alloc: Global, bytes: &[u8]) -> Result<Outcome, AllocError> {
    let mut jiter = Jiter::new(bytes).with_allow_inf_nan();
    match jiter.next_null() {
        Ok(()) => Outcome::value(alloc, &JsonValue::Null),
        Err(error) => told_line(alloc, error.description(alloc, &jiter)),
    }
}

fn told_line(alloc: Global, line: Result<String, AllocError>) -> Result<Outcome, AllocError> {
    match line {
        Ok(line) => Ok(Outcome::Answered(line)),
        Err(_) => Outcome::refused(alloc),
    }
}
