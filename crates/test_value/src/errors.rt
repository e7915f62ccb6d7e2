//! What is told of the error of a document.
use crate::readings::mode_of;
use jiter_scan::LinePosition;
use jiter_value::JsonValue;
use std::alloc::{AllocError, Global};
use test_rows::Row;

/// What the row's call tells of the error, if it is one of these calls.
pub fn answer(alloc: Global, row: &Row<'_>, bytes: &[u8]) -> Result<Option<String>, AllocError> {
    let text = match row.call {
        "description" => description(alloc, bytes),
        "unique_description" => unique_description(alloc, row, bytes),
        "unique_error" => unique_error(alloc, row, bytes),
        _ => return Ok(None),
    };
    Ok(Some(text?))
}

// The error's description, and the position of its index.
fn description(alloc: Global, bytes: &[u8]) -> Result<String, AllocError> {
    match &JsonValue::parse(alloc, bytes, false) {
        Ok(_) => String::from_str(alloc, "a value"),
        Err(error) => told(
            alloc,
            error.description(alloc, bytes)?.as_str(),
            error.get_position(bytes),
        ),
    }
}

// The same where a repeated key is an error.
fn unique_description(alloc: Global, row: &Row<'_>, bytes: &[u8]) -> Result<String, AllocError> {
    match &JsonValue::parse_unique(alloc, bytes, row.allow_inf_nan, mode_of(row)) {
        Ok(_) => String::from_str(alloc, "a value"),
        Err(error) => told(
            alloc,
            error.description(alloc, bytes)?.as_str(),
            error.get_position(bytes),
        ),
    }
}

// The cause and the error with a width, as `Debug` prints it, and whether its clone prints the same.
fn unique_error(alloc: Global, row: &Row<'_>, bytes: &[u8]) -> Result<String, AllocError> {
    match &JsonValue::parse_unique(alloc, bytes, row.allow_inf_nan, mode_of(row)) {
        Ok(_) => String::from_str(alloc, "a value"),
        Err(error) => {
            let cause = &error.error_type;
            let copy = error.clone(alloc)?;
            format!(in alloc; "{cause:>40} / {error:>400} / {error:?} / {copy:>400}")
        }
    }
}

fn told(alloc: Global, text: &str, position: LinePosition) -> Result<String, AllocError> {
    format!(in alloc; "{text} ({}:{})", position.line, position.column)
}
