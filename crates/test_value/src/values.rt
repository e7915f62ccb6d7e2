//! What is found in a value, and what is made of it.
use jiter_value::JsonValue;
use std::alloc::{AllocError, Global};
use test_rows::Row;
use test_support::told::text_of;

/// What the row's call answers of a document's value.
pub fn answer(alloc: Global, row: &Row<'_>, bytes: &[u8]) -> Result<String, AllocError> {
    let Ok(value) = JsonValue::parse(alloc, bytes, row.allow_inf_nan) else {
        return String::from_str(alloc, "no value");
    };
    match row.call {
        "get" | "pointer" => found(alloc, row.call, &value),
        "equal" => format!(in alloc; "{}", value.at(0) == value.at(1)),
        "debug" => format!(in alloc; "{value:?}"),
        "copies" => copies(alloc, value),
        "into_array" => as_array(alloc, value),
        "into_object" => as_object(alloc, value),
        "into_str" => as_str(alloc, value),
        _ => String::from_str(alloc, "no such call"),
    }
}

// What a name or a pointer leads to, the first of two items, in the second.
fn found(alloc: Global, call: &str, pair: &JsonValue<'_>) -> Result<String, AllocError> {
    match target(call, pair) {
        Some(value) => text_of(alloc, value),
        None => String::from_str(alloc, "none"),
    }
}

fn target<'v, 'j>(call: &str, pair: &'v JsonValue<'j>) -> Option<&'v JsonValue<'j>> {
    let name = pair.at(0)?.as_str()?;
    let document = pair.at(1)?;
    if call == "get" {
        document.get(name)
    } else {
        document.pointer(name)
    }
}

// A clone, a copy that owns its texts, and the value once it owns them.
fn copies(alloc: Global, value: JsonValue<'_>) -> Result<String, AllocError> {
    let copy = text_of(alloc, &value.clone(alloc)?)?;
    let owned = text_of(alloc, &value.to_static(alloc)?)?;
    let moved = text_of(alloc, &value.into_static(alloc)?)?;
    format!(in alloc; "{copy} {owned} {moved}")
}

fn as_array(alloc: Global, value: JsonValue<'_>) -> Result<String, AllocError> {
    match value.into_array() {
        Ok(items) => text_of(alloc, &JsonValue::Array(items)),
        Err(other) => given_back(alloc, &other),
    }
}

fn as_object(alloc: Global, value: JsonValue<'_>) -> Result<String, AllocError> {
    match value.into_object() {
        Ok(members) => text_of(alloc, &JsonValue::Object(members)),
        Err(other) => given_back(alloc, &other),
    }
}

fn as_str(alloc: Global, value: JsonValue<'_>) -> Result<String, AllocError> {
    match value.into_str() {
        Ok(text) => text_of(alloc, &JsonValue::Str(text)),
        Err(other) => given_back(alloc, &other),
    }
}

fn given_back(alloc: Global, value: &JsonValue<'_>) -> Result<String, AllocError> {
    let text = text_of(alloc, value)?;
    format!(in alloc; "given back: {text}")
}
