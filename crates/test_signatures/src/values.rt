//! Values, and the calls that read them.
use jiter::{
    JsonArray, JsonError, JsonObject, JsonValue, JsonValueScratch, Machine, PartialMode, Turn,
    UniqueError,
};
use std::alloc::{AllocError, Global};
use std::borrow::CowStr;

/// Builds a value of each kind.
pub fn kinds<'s>(
    text: &'s str,
    items: JsonArray<'s>,
    members: JsonObject<'s>,
) -> [JsonValue<'s>; 8] {
    let _: &Vec<JsonValue<'s>> = &items;
    let _: &Vec<(CowStr<'s>, JsonValue<'s>)> = &members;
    [
        JsonValue::Null,
        JsonValue::Bool(true),
        JsonValue::Int(-1),
        JsonValue::BigInt(CowStr::Borrowed(text)),
        JsonValue::Float(CowStr::Borrowed(text)),
        JsonValue::Str(CowStr::Borrowed(text)),
        JsonValue::Array(items),
        JsonValue::Object(members),
    ]
}

/// Parses a document into a value that borrows from it.
pub fn parse<'j>(alloc: Global, bytes: &'j [u8]) -> Result<JsonValue<'j>, JsonError> {
    let _: JsonValue<'j> = JsonValue::parse(alloc, bytes, true)?;
    JsonValue::parse_with_config(alloc, bytes, false, PartialMode::On)
}

/// Parses a document into an owned value.
pub fn parse_owned(alloc: Global, bytes: &[u8]) -> Result<JsonValue<'static>, JsonError> {
    JsonValue::parse_owned(alloc, bytes, false, PartialMode::TrailingStrings)
}

/// Parses a document whose keys must be unique.
pub fn parse_unique<'j>(alloc: Global, bytes: &'j [u8]) -> Result<JsonValue<'j>, UniqueError> {
    JsonValue::parse_unique(alloc, bytes, false, PartialMode::Off)
}

/// Copies a value by each call.
pub fn copies<'s>(alloc: Global, value: JsonValue<'s>) -> Result<JsonValue<'static>, AllocError> {
    let _: JsonValue<'s> = value.clone(alloc)?;
    let _: JsonValue<'static> = value.to_static(alloc)?;
    value.into_static(alloc)
}

/// Parses a document with a scratch.
pub fn scratch<'j>(alloc: Global, bytes: &'j [u8]) -> Result<JsonValue<'j>, JsonError> {
    let mut scratch: JsonValueScratch<'j> = JsonValueScratch::new(alloc);
    scratch.parse(bytes, false, PartialMode::Off)
}

/// Parses a document with a scratch into an owned value.
pub fn scratch_owned(alloc: Global, bytes: &[u8]) -> Result<JsonValue<'static>, JsonError> {
    let mut scratch: JsonValueScratch<'static> = JsonValueScratch::new(alloc);
    scratch.parse_owned(bytes, false, PartialMode::Off)
}

/// Makes a machine and takes one turn.
pub fn turn<'j>(alloc: Global, bytes: &'j [u8]) -> Option<Result<JsonValue<'j>, JsonError>> {
    let machine: Machine<'j> = Machine::new(alloc, bytes, false, PartialMode::Off);
    let turn: Turn<'j> = machine.turn();
    match turn {
        Turn::More(_) => None,
        Turn::Done(answer) => Some(answer),
    }
}
