//! Texts of a document that C holds by a handle: a string, a key, the compact text of a value.
ghost use Rattle.std.specs.Prelude.{◌≡◌, Err, option_and_then, option_map};
ghost use Rattle.jiter_print.specs.Print.{print_of};
ghost use Rattle.jiter_value.specs.Value.{view};
ghost use Rattle.jiter_c.specs.Faults.{misuse};
ghost use Rattle.jiter_c.specs.Holding.{MatchDocument};
ghost use Rattle.jiter_c.specs.Printing.{WritesText};
ghost use Rattle.jiter_c.specs.Values.{Copies, ReportsCopy, key_of, placed, text_in, wanted_text};
ghost use Rattle.jiter_c.specs.declared.handles.Contents.{Contents};

use crate::documents::{print_text, report_text};
use crate::faults::{JiterFault, misuse};
use crate::handles::{Contents, JiterHandle, close, open};
use crate::values::{absent, member, memory_fault, placed};
use core::mem::replace_with;
use jiter::JsonValue;
use std::alloc::Global;

/// Which text of a value a call copies.
#[derive(Clone, Copy)]
pub enum Wanted {
    /// The string, decoded, or the source text of a number that is kept as it is.
    String,
    /// The key of the member with this index.
    Key(usize),
    /// The compact JSON text.
    Json,
}

fn copied(alloc: Global, text: Option<&str>) -> Result<Vec<u8>, JiterFault>
    ensures { Copies (option_map (λ text. text.now) text.entry) result }
{
    match text {
        Some(text) => match Vec::from_slice(alloc, text.as_bytes()) {
            Ok(copy) => Ok(copy),
            Err(failed) => Err(memory_fault(failed, 0)),
        },
        None => Err(absent()),
    }
}

fn text_of<'v>(value: &'v JsonValue<'static>) -> Option<&'v str>
    ensures { option_map (λ text. text.now) result ≡ text_in (view value.now) }
{
    match value {
        JsonValue::BigInt(text) => Some(text.as_str()),
        JsonValue::Float(text) => Some(text.as_str()),
        JsonValue::Str(text) => Some(text.as_str()),
        _ => None,
    }
}

fn key_of<'v>(value: &'v JsonValue<'static>, index: usize) -> Option<&'v str>
    ensures { option_map (λ text. text.now) result ≡ key_of index (view value.now) }
{
    match value {
        JsonValue::Object(members) => match member(members, index) {
            Some(found) => Some(found.0.as_str()),
            None => None,
        },
        _ => None,
    }
}

#[tactic(auto, using(crate::proofs::DocumentReports::copies_json))]
fn wanted_text(
    alloc: Global,
    value: &JsonValue<'static>,
    wanted: Wanted,
) -> Result<Vec<u8>, JiterFault>
    ensures { Copies (wanted_text wanted (view value.now)) result }
{
    match wanted {
        Wanted::String => copied(alloc, text_of(value)),
        Wanted::Key(index) => copied(alloc, key_of(value, index)),
        Wanted::Json => print_text(alloc, value, 0),
    }
}

fn text_at(
    alloc: Global,
    handle: JiterHandle,
    pointer: &[u8],
    steps: &[usize],
    wanted: Wanted,
) -> (JiterHandle, Result<Vec<u8>, JiterFault>)
    ensures same { result.0.value ≡ handle.value }
    ensures text { MatchDocument handle.value (result.1 ≡ Err misuse)
        (λ v. Copies (option_and_then (wanted_text wanted) (placed pointer.now steps.now v)) result.1) }
{
    let contents = open(handle);
    let text = match &*contents {
        Contents::Document(value) => match placed(value, pointer, steps) {
            Some(value) => wanted_text(alloc, value, wanted),
            None => Err(absent()),
        },
        _ => Err(misuse()),
    };
    (close(contents), text)
}

/// Writes the string at a place, decoded, or the source text of a number that is kept as it is, to `out`.
///
/// `out` gets as much of the text as fits, `whole` its complete length. The place is as in [`crate::values::jiter_document_at`].
///
/// # Errors
///
/// Returns `false` and writes to `fault`:
///
/// - kind 102, if the place leads nowhere, or to a value without a text
/// - out of memory
/// - misuse, if the handle holds no document
#[tactic(auto, using(crate::proofs::DocumentReports::reports_copy))]
#[unsafe(no_mangle)]
pub extern "C" fn jiter_document_text(
    alloc: Global,
    handle: &mut JiterHandle,
    pointer: &[u8],
    steps: &[usize],
    out: &mut [u8],
    whole: &mut usize,
    fault: &mut JiterFault,
) -> bool
    ensures same { handle.new.value ≡ handle.old.value }
    ensures reports { MatchDocument handle.old.value
        (WritesText (Err misuse) result out.old out.new whole.old whole.new fault.old fault.new)
        (λ v. ReportsCopy (option_and_then text_in (placed pointer.now steps.now v))
        result out.old out.new whole.old whole.new fault.old fault.new) }
{
    let text = replace_with(
        handle,
        pointer,
        |handle, pointer| text_at(alloc, handle, pointer, steps, Wanted::String),
    );
    report_text(text, out, whole, fault)
}

/// Writes the key of the member with this index, decoded, to `out`. The object is at the place.
///
/// `out` gets as much of the key as fits, `whole` its complete length. The place is as in [`crate::values::jiter_document_at`].
///
/// # Errors
///
/// - the errors of [`jiter_document_text`]; kind 102 also if the object has no such member
#[tactic(auto, using(crate::proofs::DocumentReports::reports_copy))]
#[unsafe(no_mangle)]
pub extern "C" fn jiter_document_key(
    alloc: Global,
    handle: &mut JiterHandle,
    pointer: &[u8],
    steps: &[usize],
    index: usize,
    out: &mut [u8],
    whole: &mut usize,
    fault: &mut JiterFault,
) -> bool
    ensures same { handle.new.value ≡ handle.old.value }
    ensures reports { MatchDocument handle.old.value
        (WritesText (Err misuse) result out.old out.new whole.old whole.new fault.old fault.new)
        (λ v. ReportsCopy (option_and_then (key_of index) (placed pointer.now steps.now v))
        result out.old out.new whole.old whole.new fault.old fault.new) }
{
    let text = replace_with(
        handle,
        pointer,
        |handle, pointer| text_at(alloc, handle, pointer, steps, Wanted::Key(index)),
    );
    report_text(text, out, whole, fault)
}

/// Writes the compact JSON text of the value at a place to `out`.
///
/// `out` gets as much of the text as fits, `whole` its complete length. The place is as in [`crate::values::jiter_document_at`].
///
/// # Errors
///
/// - the errors of [`jiter_document_text`]; kind 102 only if the place leads nowhere
#[tactic(auto, using(crate::proofs::DocumentReports::reports_json))]
#[unsafe(no_mangle)]
pub extern "C" fn jiter_document_print(
    alloc: Global,
    handle: &mut JiterHandle,
    pointer: &[u8],
    steps: &[usize],
    out: &mut [u8],
    whole: &mut usize,
    fault: &mut JiterFault,
) -> bool
    ensures same { handle.new.value ≡ handle.old.value }
    ensures reports { MatchDocument handle.old.value
        (WritesText (Err misuse) result out.old out.new whole.old whole.new fault.old fault.new)
        (λ v. ReportsCopy (option_map print_of (placed pointer.now steps.now v))
        result out.old out.new whole.old whole.new fault.old fault.new) }
{
    let text = replace_with(
        handle,
        pointer,
        |handle, pointer| text_at(alloc, handle, pointer, steps, Wanted::Json),
    );
    report_text(text, out, whole, fault)
}
