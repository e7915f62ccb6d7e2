//! Complete documents: whether the bytes are one, and the compact text of its value.
ghost use Rattle.std.specs.Prelude.{◌≡◌, Err, false, IfErr, IfOk, MatchResult, None, Some, true};
ghost use Rattle.jiter.specs.Cause.{json_error};
ghost use Rattle.jiter_scan.specs.Kind.{kind_of, out_of_memory};
ghost use Rattle.jiter_scan.specs.declared.partial_mode.PartialMode.{PartialMode};
ghost use Rattle.jiter_steps.specs.Answer.{answer_in};
ghost use Rattle.jiter_steps.specs.Node.{IsDocument, Node, value_of};
ghost use Rattle.jiter_value.specs.Value.{MayGrow, view};
ghost use Rattle.jiter_print.specs.Print.{print_of};
ghost use Rattle.jiter_c.specs.Documents.{PrintsBytes, ReportsBytes, RunsOut, is_read, mode_numbered, read_fault};
ghost use Rattle.jiter_c.specs.Faults.{fault_of, memory_number, misuse};
ghost use Rattle.jiter_c.specs.Printing.{WritesText};
ghost use Rattle.jiter_c.specs.Reports.{UnlessMemory, WhereMemory, written};

use crate::faults::{JiterFault, kind_number, misuse};
use crate::texts::write_prefix;
use jiter::{JsonError, JsonErrorType, JsonValue, PartialMode};
use jiter_print::print;
use std::alloc::Global;

/// Returns the mode with a number of `jiter_c.h`.
pub fn mode_numbered(number: u32) -> Option<PartialMode>
    ensures { result ≡ mode_numbered number }
{
    match number {
        0 => Some(PartialMode::Off),
        1 => Some(PartialMode::On),
        2 => Some(PartialMode::TrailingStrings),
        _ => None,
    }
}

/// Returns an error of the bytes of a document as C sees it.
pub fn document_fault(error: &JsonError) -> JiterFault
    ensures { result ≡ fault_of (json_error (kind_of error.now.error_type)) error.now.index }
{
    JiterFault {
        kind: kind_number(&error.error_type),
        expected: 0,
        actual: 0,
        index: error.index,
    }
}

/// Returns whether [`JsonValue::parse_with_config`] succeeds for the bytes: with mode 0, whether they are a document.
///
/// The mode is 0 for `PartialMode::Off`, 1 for `PartialMode::On`, 2 for `PartialMode::TrailingStrings`.
/// The value itself is not returned.
///
/// # Errors
///
/// Returns `false` and writes to `fault`:
///
/// - the error that [`JsonValue::parse_with_config`] returns
/// - out of memory, only for a non-empty container or a string with a backslash
/// - misuse, if no mode has this number
#[tactic(auto, using(crate::proofs::DocumentReports::runs_out))]
#[unsafe(no_mangle)]
pub extern "C" fn jiter_parse(
    alloc: Global,
    bytes: &[u8],
    allow_inf_nan: bool,
    mode: u32,
    fault: &mut JiterFault,
) -> bool
    ensures found { mode ≡ 0 → result ≡ true → (n : Node) × IsDocument allow_inf_nan bytes.now n }
    ensures accepts { (m : PartialMode) → mode_numbered mode ≡ Some m → UnlessMemory result fault.new
        ((n : Node) → IsDocument allow_inf_nan bytes.now n → result ≡ true) }
    ensures answer { (m : PartialMode) → mode_numbered mode ≡ Some m → UnlessMemory result fault.new
        (result ≡ is_read (answer_in allow_inf_nan m bytes.now)) }
    ensures fault { (m : PartialMode) → mode_numbered mode ≡ Some m → UnlessMemory result fault.new
        (fault.new ≡ read_fault fault.old (answer_in allow_inf_nan m bytes.now)) }
    ensures memory { WhereMemory result fault.new (RunsOut (MayGrow bytes.now) bytes.now fault.new) }
    ensures misuse { mode_numbered mode ≡ None → (result ≡ false) × (fault.new ≡ misuse) }
{
    let Some(mode) = mode_numbered(mode) else {
        *fault = misuse();
        return false;
    };
    match &JsonValue::parse_with_config(alloc, bytes, allow_inf_nan, mode) {
        Ok(_) => true,
        Err(error) => {
            *fault = document_fault(error);
            false
        }
    }
}

/// Returns the compact text of a value.
///
/// # Errors
///
/// - out of memory, at `index`, if an allocation fails
pub fn print_text(alloc: Global, value: &JsonValue<'_>, index: usize) -> Result<Vec<u8>, JiterFault>
    ensures text { IfOk result (λ text. text.items ≡ print_of (view value.now)) }
    ensures memory { IfErr result (λ f. f ≡ fault_of (json_error out_of_memory) index) }
{
    match print(alloc, value) {
        Ok(text) => Ok(text),
        Err(_) => Err(JiterFault {
            kind: kind_number(&JsonErrorType::OutOfMemory),
            expected: 0,
            actual: 0,
            index,
        }),
    }
}

/// Writes a text as far as it fits and its length, or the error.
pub fn report_text(
    text: Result<Vec<u8>, JiterFault>,
    out: &mut [u8],
    whole: &mut usize,
    fault: &mut JiterFault,
) -> bool
    ensures { WritesText text result out.old out.new whole.old whole.new fault.old fault.new }
{
    match text {
        Ok(text) => {
            *whole = write_prefix(out, text.as_slice());
            true
        }
        Err(error) => {
            *fault = error;
            false
        }
    }
}

#[tactic(auto, using(crate::proofs::DocumentReports::prints_value, crate::proofs::DocumentReports::prints_error))]
fn parsed_text(
    alloc: Global,
    bytes: &[u8],
    allow_inf_nan: bool,
    mode: PartialMode,
) -> Result<Vec<u8>, JiterFault>
    ensures prints { PrintsBytes bytes.now (answer_in allow_inf_nan mode bytes.now) result }
    ensures accepts { (n : Node) → IsDocument allow_inf_nan bytes.now n → MatchResult result
        (λ text. text.items ≡ print_of (value_of bytes.now n)) (λ f. f.kind ≡ memory_number) }
{
    match JsonValue::parse_with_config(alloc, bytes, allow_inf_nan, mode) {
        Ok(value) => print_text(alloc, &value, bytes.len()),
        Err(error) => Err(document_fault(&error)),
    }
}

/// Parses the bytes and writes the compact text of the value to `out`.
///
/// `out` gets as much of the text as fits, `whole` its complete length. The mode is as in [`jiter_parse`].
///
/// # Errors
///
/// Returns `false` and writes to `fault`:
///
/// - the error that [`JsonValue::parse_with_config`] returns
/// - out of memory; the index is the length of the bytes if an allocation for the text failed
/// - misuse, if no mode has this number
#[tactic(auto, using(crate::proofs::DocumentReports::reports_document))]
#[unsafe(no_mangle)]
pub extern "C" fn jiter_print(
    alloc: Global,
    bytes: &[u8],
    allow_inf_nan: bool,
    mode: u32,
    out: &mut [u8],
    whole: &mut usize,
    fault: &mut JiterFault,
) -> bool
    ensures accepts { (m : PartialMode) → mode_numbered mode ≡ Some m
        → (n : Node) → IsDocument allow_inf_nan bytes.now n → UnlessMemory result fault.new
        (out.new ≡ written (print_of (value_of bytes.now n)) out.old) }
    ensures reports { (m : PartialMode) → mode_numbered mode ≡ Some m
        → ReportsBytes bytes.now (answer_in allow_inf_nan m bytes.now)
        result out.old out.new whole.old whole.new fault.old fault.new }
    ensures misuse { mode_numbered mode ≡ None
        → WritesText (Err misuse) result out.old out.new whole.old whole.new fault.old fault.new }
{
    let text = match mode_numbered(mode) {
        Some(mode) => parsed_text(alloc, bytes, allow_inf_nan, mode),
        None => Err(misuse()),
    };
    report_text(text, out, whole, fault)
}
