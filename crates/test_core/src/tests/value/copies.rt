//! Deep values, and what a copy takes. `rt try` builds with larger frames, and runs out of stack here.
use jiter_value::JsonValue;
use std::alloc::{AllocError, Global};
use std::borrow::CowStr;
use std::test::*;

// How deep a value may be for a stack of 8 MB.
const LEVELS: usize = 20_000;

// Arrays, one in another, around null.
fn nested_arrays(alloc: Global) -> Result<JsonValue<'static>, AllocError> {
    let mut value = JsonValue::Null;
    for _ in 0..LEVELS {
        let mut items = Vec::with_capacity(alloc, 1)?;
        items.push(value)?;
        value = JsonValue::Array(items);
    }
    Ok(value)
}

// Objects, one in another, around null.
fn nested_objects(alloc: Global) -> Result<JsonValue<'static>, AllocError> {
    let mut value = JsonValue::Null;
    for _ in 0..LEVELS {
        let mut members = Vec::with_capacity(alloc, 1)?;
        members.push((CowStr::Borrowed("k"), value))?;
        value = JsonValue::Object(members);
    }
    Ok(value)
}

// Whether the copies of a value are equal to it, and to one another.
fn copies_are_equal(alloc: Global, value: JsonValue<'static>) -> Result<bool, AllocError> {
    let copy = value.clone(alloc)?;
    let owned = value.to_static(alloc)?;
    let same = copy == value && owned == value;
    Ok(same && value.into_static(alloc)? == copy)
}

#[test]
fn deep_values_are_copied_compared_and_dropped(rt: HostRuntime) -> Result<(), Fail> {
    let alloc = rt.alloc();
    let arrays = nested_arrays(alloc)?;
    assert!(rt; copies_are_equal(alloc, arrays)?);
    let objects = nested_objects(alloc)?;
    assert!(rt; copies_are_equal(alloc, objects)?);
    Ok(())
}

// Whether a text that is owned has no room to spare.
fn is_exact_text(text: &CowStr<'_>) -> bool {
    match text {
        CowStr::Borrowed(_) => true,
        CowStr::Owned(owned) => owned.capacity() == owned.len(),
    }
}

// Whether each vector and each owned text has no room to spare, as one request for the exact length gives.
#[cycle(exact)]
fn is_exact(value: &JsonValue<'_>) -> bool {
    match value {
        JsonValue::BigInt(text) => is_exact_text(text),
        JsonValue::Float(text) => is_exact_text(text),
        JsonValue::Str(text) => is_exact_text(text),
        JsonValue::Array(items) => are_exact_items(items),
        JsonValue::Object(members) => are_exact_members(members),
        _ => true,
    }
}

#[cycle(exact)]
fn are_exact_items(items: &Vec<JsonValue<'_>>) -> bool {
    for i in 0..items.len() {
        if !is_exact(&items[i]) {
            return false;
        }
    }
    items.capacity() == items.len()
}

#[cycle(exact)]
fn are_exact_members(members: &Vec<(CowStr<'_>, JsonValue<'_>)>) -> bool {
    for i in 0..members.len() {
        let member = &members[i];
        if !is_exact_text(&member.0) || !is_exact(&member.1) {
            return false;
        }
    }
    members.capacity() == members.len()
}

#[test]
fn copies_have_no_room_to_spare(rt: HostRuntime) -> Result<(), Fail> {
    let alloc = rt.alloc();
    let bytes = br#"[1,2.50,"abc","a\nb",[],{},["",[null]],{"k":1,"l\n":[true]},9223372036854775808,
        0.12345678901234567890123]"#;
    let value = JsonValue::parse(alloc, bytes, false)?;
    assert!(rt; is_exact(&value.clone(alloc)?));
    assert!(rt; is_exact(&value.to_static(alloc)?));
    assert!(rt; is_exact(&value.into_static(alloc)?));
    Ok(())
}
