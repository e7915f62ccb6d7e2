//! What calls answer, as text on one line.
use jiter_scan::{JsonError, JsonErrorType as Kind, PartialMode};
use jiter_value::JsonValue;
use std::alloc::{AllocError, Global};
use std::borrow::CowStr;

// A text in quotes, after the word `owned` where it is not borrowed.
fn append_quoted(text: &str, borrowed: bool, out: &mut String) -> Result<(), AllocError> {
    out.push_str(if borrowed { "'" } else { "owned '" })?;
    out.push_str(text)?;
    out.push_str("'")
}

fn append_text(text: &CowStr<'_>, out: &mut String) -> Result<(), AllocError> {
    append_quoted(text.as_str(), matches!(text, CowStr::Borrowed(_)), out)
}

// The value on one line; a number that is kept as its text stands after a word.
#[cycle(append)]
fn append(value: &JsonValue<'_>, out: &mut String) -> Result<(), AllocError> {
    match value {
        JsonValue::Null => out.push_str("null"),
        JsonValue::Bool(true) => out.push_str("true"),
        JsonValue::Bool(false) => out.push_str("false"),
        JsonValue::Int(number) => {
            let digits = number.to_string(*out.allocator())?;
            out.push_str(digits.as_str())
        }
        JsonValue::BigInt(text) => {
            out.push_str("big ")?;
            append_text(text, out)
        }
        JsonValue::Float(text) => {
            out.push_str("float ")?;
            append_text(text, out)
        }
        JsonValue::Str(text) => append_text(text, out),
        JsonValue::Array(items) => append_items(items.as_slice(), out),
        JsonValue::Object(members) => append_members(members.as_slice(), out),
    }
}

#[cycle(append)]
fn append_items(items: &[JsonValue<'_>], out: &mut String) -> Result<(), AllocError> {
    out.push_str("[")?;
    for i in 0..items.len() {
        if i > 0 {
            out.push_str(",")?;
        }
        append(&items[i], out)?;
    }
    out.push_str("]")
}

#[cycle(append)]
fn append_members(
    members: &[(CowStr<'_>, JsonValue<'_>)],
    out: &mut String,
) -> Result<(), AllocError> {
    out.push_str("{")?;
    for i in 0..members.len() {
        if i > 0 {
            out.push_str(",")?;
        }
        let member = &members[i];
        append_text(&member.0, out)?;
        out.push_str(":")?;
        append(&member.1, out)?;
    }
    out.push_str("}")
}

/// The value on one line; a text that it owns stands after the word `owned`.
pub fn text_of(alloc: Global, value: &JsonValue<'_>) -> Result<String, AllocError> {
    let mut out = String::new(alloc);
    append(value, &mut out)?;
    Ok(out)
}

/// The kind and the index of the error that a parse returns, if it returns one.
pub fn fault_of(alloc: Global, bytes: &[u8], allow_inf_nan: bool) -> Option<(Kind, usize)> {
    match JsonValue::parse(alloc, bytes, allow_inf_nan) {
        Ok(_) => None,
        Err(error) => Some((error.error_type, error.index)),
    }
}

/// The value on one line, or the kind and the index of the error.
pub fn outcome_text(
    alloc: Global,
    outcome: &Result<JsonValue<'_>, JsonError>,
) -> Result<String, AllocError> {
    match outcome {
        Ok(value) => text_of(alloc, value),
        Err(error) => format!(in alloc; "{} at {}", error.error_type, error.index),
    }
}

/// What a parse answers in this mode, on one line.
pub fn answer_text(
    alloc: Global,
    bytes: &[u8],
    allow_inf_nan: bool,
    mode: PartialMode,
) -> Result<String, AllocError> {
    outcome_text(
        alloc,
        &JsonValue::parse_with_config(alloc, bytes, allow_inf_nan, mode),
    )
}
