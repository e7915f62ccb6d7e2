//! Documents that C holds by a handle: parsing one, and looking into it.
ghost use Rattle.std.specs.Prelude.{◌≡◌, pos, MatchOption, None, Some, false};
ghost use Rattle.std.specs.Prelude.{option_map, true};
ghost use Rattle.jiter.specs.Cause.{json_error};
ghost use Rattle.jiter_scan.specs.Kind.{out_of_memory};
ghost use Rattle.jiter_scan.specs.declared.partial_mode.PartialMode.{PartialMode};
ghost use Rattle.jiter_steps.specs.Answer.{answer_in};
ghost use Rattle.jiter_steps.specs.StringDecoder.{text_view};
ghost use Rattle.jiter_steps.specs.Unique.{unique_answer_in};
ghost use Rattle.jiter_value.specs.UniqueErrors.{unique_kind};
ghost use Rattle.jiter_value.specs.Value.{member_views, view};
ghost use Rattle.jiter_c.specs.Documents.{mode_numbered};
ghost use Rattle.jiter_c.specs.Faults.{fault_of, misuse};
ghost use Rattle.jiter_c.specs.Holding.{MatchDocument};
ghost use Rattle.jiter_c.specs.Values.{Reads, Refuses, ReportsDocument, absent, document_reading};
ghost use Rattle.jiter_c.specs.Values.{member_at, part_at, placed, stepped, value_report};
ghost use Rattle.jiter_c.specs.declared.handles.Contents.{Contents};

use crate::documents::{document_fault, mode_numbered};
use crate::faults::{JiterFault, kind_number, misuse};
use crate::handles::{Contents, JiterHandle, close, fill, open};
use core::mem::replace_with;
use jiter::{JsonErrorType, JsonObject, JsonValue, PartialMode, UniqueError, UniqueErrorType};
use std::alloc::{AllocError, Global};
use std::borrow::CowStr;
use std::str;

/// The kind of an error if an object repeats a key.
pub const DUPLICATE_KEY: u32 = 23;

/// The kind of an error if a place in a document leads to no value, or to one of another type.
pub const ABSENT: u32 = 102;

/// What a document has at a place.
#[repr(C)]
#[derive(Clone, Copy)]
pub struct JiterValue {
    /// The type, by the numbers of `jiter_c.h`.
    pub kind: u32,
    /// Whether it is `true`.
    pub truth: bool,
    /// The integer, if it fits in 64 signed bits; otherwise 0.
    pub integer: i64,
    /// The number of items, members, or bytes of the string or number text; otherwise 0.
    pub length: usize,
}

/// Returns the error of a place that leads to nothing.
pub fn absent() -> JiterFault
    ensures { result ≡ absent }
{
    JiterFault {
        kind: ABSENT,
        expected: 0,
        actual: 0,
        index: 0,
    }
}

/// Returns out of memory at this index, for an allocation that failed.
pub fn memory_fault(_failed: AllocError, index: usize) -> JiterFault
    ensures { result ≡ fault_of (json_error out_of_memory) index }
{
    JiterFault {
        kind: kind_number(&JsonErrorType::OutOfMemory),
        expected: 0,
        actual: 0,
        index,
    }
}

#[tactic(auto, using(crate::proofs::DocumentReports::parsed_owned, crate::proofs::DocumentReports::parse_refused))]
fn read_any(
    alloc: Global,
    bytes: &[u8],
    allow_inf_nan: bool,
    mode: PartialMode,
) -> (Contents, Option<JiterFault>)
    ensures read { Reads bytes.now (answer_in allow_inf_nan mode bytes.now) result.0 result.1 }
{
    match JsonValue::parse_owned(alloc, bytes, allow_inf_nan, mode) {
        Ok(value) => (Contents::Document(value), None),
        Err(error) => (Contents::Nothing, Some(document_fault(&error))),
    }
}

fn refused(error: UniqueError) -> (Contents, Option<JiterFault>)
    ensures { Refuses (unique_kind error.error_type) error.index result.0 result.1 }
{
    let UniqueError { error_type, index } = error;
    match error_type {
        UniqueErrorType::JsonError(kind) => (
            Contents::Nothing,
            Some(JiterFault {
                kind: kind_number(&kind),
                expected: 0,
                actual: 0,
                index,
            }),
        ),
        UniqueErrorType::DuplicateKey(key) => (
            Contents::Document(JsonValue::Str(CowStr::Owned(key))),
            Some(JiterFault {
                kind: DUPLICATE_KEY,
                expected: 0,
                actual: 0,
                index,
            }),
        ),
    }
}

#[tactic(auto, using(crate::proofs::DocumentReports::unique_owned, crate::proofs::DocumentReports::unique_no_memory, crate::proofs::DocumentReports::unique_refused))]
fn read_unique(
    alloc: Global,
    bytes: &[u8],
    allow_inf_nan: bool,
    mode: PartialMode,
) -> (Contents, Option<JiterFault>)
    ensures read { Reads bytes.now (unique_answer_in allow_inf_nan mode bytes.now) result.0 result.1 }
{
    match JsonValue::parse_unique(alloc, bytes, allow_inf_nan, mode) {
        Ok(value) => match value.into_static(alloc) {
            Ok(value) => (Contents::Document(value), None),
            Err(failed) => (Contents::Nothing, Some(memory_fault(failed, bytes.len()))),
        },
        Err(error) => refused(error),
    }
}

/// Parses the bytes and gives the handle the value, which borrows nothing of the bytes.
///
/// The mode is as in [`crate::documents::jiter_parse`]. With `unique`, a repeated key is an error. What the handle held
/// before is freed.
///
/// # Errors
///
/// Returns `false` and writes to `fault`:
///
/// - the error that the parse returns; the handle then holds nothing
/// - kind 23, if an object repeats a key; the handle then holds that key, a string
/// - out of memory, only where the value may grow, or has a part or a text; the handle then holds nothing
/// - misuse, if no mode has this number; nothing changes then
#[unsafe(no_mangle)]
pub extern "C" fn jiter_document_read(
    alloc: Global,
    handle: &mut JiterHandle,
    bytes: &[u8],
    allow_inf_nan: bool,
    mode: u32,
    unique: bool,
    fault: &mut JiterFault,
) -> bool
    ensures read { (m : PartialMode) → mode_numbered mode ≡ Some m → ReportsDocument bytes.now
        (document_reading unique allow_inf_nan m bytes.now) handle.new.value result fault.old fault.new }
    ensures misuse { mode_numbered mode ≡ None
        → (result ≡ false) × (fault.new ≡ misuse) × (handle.new ≡ handle.old) }
{
    let Some(mode) = mode_numbered(mode) else {
        *fault = misuse();
        return false;
    };
    let (contents, error) = if unique {
        read_unique(alloc, bytes, allow_inf_nan, mode)
    } else {
        read_any(alloc, bytes, allow_inf_nan, mode)
    };
    fill(handle, contents);
    match error {
        Some(error) => {
            *fault = error;
            false
        }
        None => true,
    }
}

/// Returns the member with this index.
#[tactic(auto, using(crate::proofs::Members::member_found, crate::proofs::Members::member_missing))]
pub fn member<'v>(
    members: &'v JsonObject<'static>,
    index: usize,
) -> Option<&'v (CowStr<'static>, JsonValue<'static>)>
    ensures { option_map (λ m. (text_view m.now.0, view m.now.1)) result
        ≡ member_at index (member_views members.now.items) }
{
    if index < members.len() {
        Some(&members[index])
    } else {
        None
    }
}

fn part_at<'v>(value: &'v JsonValue<'static>, step: usize) -> Option<&'v JsonValue<'static>>
    ensures { option_map (λ v. view v.now) result ≡ part_at step (view value.now) }
{
    match value {
        JsonValue::Array(_) => value.at(step),
        JsonValue::Object(members) => match member(members, step) {
            Some(found) => Some(&found.1),
            None => None,
        },
        _ => None,
    }
}

#[tactic(auto, using(crate::proofs::Members::stepped_here, crate::proofs::Members::stepped_none, crate::proofs::Members::stepped_some))]
fn stepped<'v>(steps: &[usize], value: &'v JsonValue<'static>) -> Option<&'v JsonValue<'static>>
    ensures { option_map (λ v. view v.now) result ≡ stepped steps.now (view value.now) }
{
    match steps.split_first() {
        Some((step, rest)) => stepped(rest, part_at(value, *step)?),
        None => Some(value),
    }
}

/// Returns what a JSON Pointer and the steps after it lead to. A pointer that is not UTF-8 leads nowhere.
#[tactic(auto, using(crate::proofs::Members::no_text, crate::proofs::Members::pointed))]
pub fn placed<'v>(
    value: &'v JsonValue<'static>,
    pointer: &[u8],
    steps: &[usize],
) -> Option<&'v JsonValue<'static>>
    ensures { option_map (λ v. view v.now) result ≡ placed pointer.now steps.now (view value.now) }
{
    match str::from_utf8(pointer) {
        Ok(text) => match value.pointer(text) {
            Some(value) => stepped(steps, value),
            None => None,
        },
        Err(_) => None,
    }
}

#[inline(always)]
fn typed_value(kind: u32, length: usize) -> JiterValue
    ensures { result ≡ record { kind = kind; truth = false; integer = pos 0; length = length } }
{
    JiterValue {
        kind,
        truth: false,
        integer: 0,
        length,
    }
}

/// Returns what is reported of a value.
#[inline(always)]
pub fn describe(value: &JsonValue<'static>) -> JiterValue
    ensures { result ≡ value_report (view value.now) }
{
    match value {
        JsonValue::Null => typed_value(1, 0),
        JsonValue::Bool(truth) => JiterValue {
            kind: 2,
            truth: *truth,
            integer: 0,
            length: 0,
        },
        JsonValue::Int(integer) => JiterValue {
            kind: 3,
            truth: false,
            integer: *integer,
            length: 0,
        },
        JsonValue::BigInt(text) => typed_value(9, text.as_str().len()),
        JsonValue::Float(text) => typed_value(4, text.as_str().len()),
        JsonValue::Str(text) => typed_value(5, text.as_str().len()),
        JsonValue::Array(items) => typed_value(6, items.len()),
        JsonValue::Object(members) => typed_value(7, members.len()),
    }
}

fn value_at(
    handle: JiterHandle,
    pointer: &[u8],
    steps: &[usize],
) -> (JiterHandle, Option<JiterValue>)
    ensures same { result.0.value ≡ handle.value }
    ensures value { MatchDocument handle.value (result.1 ≡ None)
        (λ v. result.1 ≡ option_map value_report (placed pointer.now steps.now v)) }
{
    let contents = open(handle);
    let value = match &*contents {
        Contents::Document(value) => match placed(value, pointer, steps) {
            Some(value) => Some(describe(value)),
            None => None,
        },
        _ => None,
    };
    (close(contents), value)
}

/// Writes what the document has at a place to `value`.
///
/// The place is what the JSON Pointer leads to (RFC 6901), and from there one item or member for each step, by its
/// index. An empty pointer and no steps lead to the document's value.
///
/// # Errors
///
/// Returns `false` and writes nothing:
///
/// - if the place leads nowhere
/// - if the handle holds no document
#[tactic(auto, using(crate::proofs::DocumentReports::value_found, crate::proofs::DocumentReports::value_missing))]
#[unsafe(no_mangle)]
pub extern "C" fn jiter_document_at(
    handle: &mut JiterHandle,
    pointer: &[u8],
    steps: &[usize],
    value: &mut JiterValue,
) -> bool
    ensures same { handle.new.value ≡ handle.old.value }
    ensures found { MatchDocument handle.old.value ((result ≡ false) × (value.new ≡ value.old))
        (λ v. MatchOption (placed pointer.now steps.now v) ((result ≡ false) × (value.new ≡ value.old))
        (λ w. (result ≡ true) × (value.new ≡ value_report w))) }
{
    let found = replace_with(
        handle,
        pointer,
        |handle, pointer| value_at(handle, pointer, steps),
    );
    let Some(found) = found else {
        return false;
    };
    *value = found;
    true
}
