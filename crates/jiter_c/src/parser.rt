//! Documents in chunks: a parser that C holds by a handle.
ghost use Rattle.std.specs.Prelude.{◌≡◌, Err, Some, false, List, true, ℕ};
ghost use Rattle.jiter_incremental.specs.IncrementalParser.{HasReceived};
ghost use Rattle.jiter_c.specs.Documents.{mode_numbered};
ghost use Rattle.jiter_c.specs.Handles.{contents_coded};
ghost use Rattle.jiter_c.specs.Faults.{misuse};
ghost use Rattle.jiter_c.specs.Holding.{MatchParser};
ghost use Rattle.jiter_c.specs.Parsers.{Begins, Errs, Finishes, Prints, Pushed, Pushes, ReportsError, ReportsFinish, ReportsPrint};
ghost use Rattle.jiter_c.specs.Parsers.{reading_so_far, reading_whole};
ghost use Rattle.jiter_c.specs.Printing.{WritesText};
ghost use Rattle.jiter_c.specs.declared.handles.Contents.{Contents};

use crate::documents::{document_fault, mode_numbered, print_text, report_text};
use crate::faults::{JiterFault, misuse};
use crate::handles::{Contents, JiterHandle, close, fill, open};
use core::mem::{replace, replace_with};
use jiter_incremental::IncrementalParser;
use std::alloc::Global;

/// Gives the handle a new parser. What it held before is freed.
///
/// `mode` is the mode in which [`jiter_parser_value`] reads the bytes so far, as in [`crate::documents::jiter_parse`].
///
/// # Errors
///
/// Returns `false` and changes nothing if no mode has this number.
#[unsafe(no_mangle)]
pub extern "C" fn jiter_parser_begin(
    alloc: Global,
    handle: &mut JiterHandle,
    allow_inf_nan: bool,
    mode: u32,
) -> bool
    ensures { Begins (mode_numbered mode) allow_inf_nan handle.old.value handle.new.value result }
{
    let Some(mode) = mode_numbered(mode) else {
        return false;
    };
    let parser = Contents::Parser(IncrementalParser::new(alloc, allow_inf_nan, mode));
    fill(handle, parser);
    true
}

#[tactic(auto, using(crate::proofs::ParserReports::push_failed))]
fn push_parser(parser: &mut IncrementalParser, chunk: &[u8]) -> bool
    ensures { Pushed parser.old parser.new chunk.now result }
{
    match parser.push(chunk) {
        Ok(()) => true,
        Err(_) => false,
    }
}

fn push_contents(contents: &mut Contents, chunk: &[u8]) -> bool
    ensures { Pushes contents.old contents.new chunk.now result }
{
    match contents {
        Contents::Parser(parser) => push_parser(parser, chunk),
        _ => false,
    }
}

fn push_handle(handle: JiterHandle, chunk: &[u8]) -> (JiterHandle, bool)
    ensures { Pushes handle.value result.0.value chunk.now result.1 }
{
    let mut contents = open(handle);
    let done = push_contents(&mut *contents, chunk);
    (close(contents), done)
}

/// Takes a chunk: the bytes that follow those so far.
///
/// # Errors
///
/// Returns `false`:
///
/// - if an allocation fails; the bytes before the parser's new position are taken, so push the rest again
/// - if the position would exceed the largest `size_t`, or the handle holds no parser; no byte is taken
#[unsafe(no_mangle)]
pub extern "C" fn jiter_parser_push(handle: &mut JiterHandle, chunk: &[u8]) -> bool
    ensures { Pushes handle.old.value handle.new.value chunk.now result }
{
    replace_with(handle, chunk, |handle, chunk| push_handle(handle, chunk))
}

fn position(handle: JiterHandle) -> (JiterHandle, usize)
    ensures same { result.0.value ≡ handle.value }
    ensures position { MatchParser handle.value (result.1 ≡ 0) (λ p. result.1 ≡ p.position) }
{
    let contents = open(handle);
    let count = match &*contents {
        Contents::Parser(parser) => parser.position(),
        _ => 0,
    };
    (close(contents), count)
}

/// Returns how many bytes the parser has taken, of all chunks; 0 if the handle holds no parser.
#[unsafe(no_mangle)]
pub extern "C" fn jiter_parser_position(handle: &mut JiterHandle) -> usize
    ensures same { handle.new.value ≡ handle.old.value }
    ensures position { MatchParser handle.old.value (result ≡ 0) (λ p. result ≡ p.position) }
{
    replace_with(handle, (), |handle, _| position(handle))
}

#[tactic(auto, using(crate::proofs::ParserReports::prints_value, crate::proofs::ParserReports::prints_error))]
fn parser_text(alloc: Global, parser: &IncrementalParser) -> Result<Vec<u8>, JiterFault>
    ensures { (t : List ℕ) → HasReceived parser.now t
        → Prints parser.now.position (reading_so_far parser.now t) result }
{
    match parser.value() {
        Ok(value) => print_text(alloc, value, parser.position()),
        Err(error) => Err(document_fault(&error)),
    }
}

fn value_text(alloc: Global, handle: JiterHandle) -> (JiterHandle, Result<Vec<u8>, JiterFault>)
    ensures same { result.0.value ≡ handle.value }
    ensures text { MatchParser handle.value (result.1 ≡ Err misuse) (λ p. (t : List ℕ) → HasReceived p t
        → Prints p.position (reading_so_far p t) result.1) }
{
    let contents = open(handle);
    let text = match &*contents {
        Contents::Parser(parser) => parser_text(alloc, parser),
        _ => Err(misuse()),
    };
    (close(contents), text)
}

/// Writes the compact text of the value so far to `out`: the value of all bytes so far in the parser's mode.
///
/// `out` gets as much of the text as fits, `whole` its complete length.
///
/// # Errors
///
/// Returns `false` and writes to `fault`:
///
/// - the error of the bytes so far, in the parser's mode
/// - out of memory for the text; the index is the parser's position
/// - misuse, if the handle holds no parser
#[tactic(auto, using(crate::proofs::ParserReports::reports_print))]
#[unsafe(no_mangle)]
pub extern "C" fn jiter_parser_value(
    alloc: Global,
    handle: &mut JiterHandle,
    out: &mut [u8],
    whole: &mut usize,
    fault: &mut JiterFault,
) -> bool
    ensures same { handle.new.value ≡ handle.old.value }
    ensures reports { MatchParser handle.old.value
        (WritesText (Err misuse) result out.old out.new whole.old whole.new fault.old fault.new)
        (λ p. (t : List ℕ) → HasReceived p t → ReportsPrint p.position (reading_so_far p t)
        result out.old out.new whole.old whole.new fault.old fault.new) }
{
    let text = replace_with(handle, alloc, |handle, alloc| value_text(alloc, handle));
    report_text(text, out, whole, fault)
}

fn parser_error(handle: JiterHandle) -> (JiterHandle, Option<JiterFault>)
    ensures same { result.0.value ≡ handle.value }
    ensures error { MatchParser handle.value (result.1 ≡ Some misuse) (λ p. (t : List ℕ) → HasReceived p t
        → Errs (reading_whole p t) result.1) }
{
    let contents = open(handle);
    let error = match &*contents {
        Contents::Parser(parser) => error_of(parser),
        _ => Some(misuse()),
    };
    (close(contents), error)
}

#[tactic(auto, using(crate::proofs::ParserReports::errs_some, crate::proofs::ParserReports::errs_none))]
fn error_of(parser: &IncrementalParser) -> Option<JiterFault>
    ensures { (t : List ℕ) → HasReceived parser.now t → Errs (reading_whole parser.now t) result }
{
    match parser.error() {
        Some(error) => Some(document_fault(&error)),
        None => None,
    }
}

/// Returns whether [`jiter_parser_finish`] would fail now, and if so writes its error to `fault`.
///
/// If the handle holds no parser, the error is misuse.
#[tactic(auto, using(crate::proofs::ParserReports::reports_error, crate::proofs::ParserReports::reports_no_error))]
#[unsafe(no_mangle)]
pub extern "C" fn jiter_parser_error(handle: &mut JiterHandle, fault: &mut JiterFault) -> bool
    ensures same { handle.new.value ≡ handle.old.value }
    ensures reports { MatchParser handle.old.value ((result ≡ true) × (fault.new ≡ misuse))
        (λ p. (t : List ℕ) → HasReceived p t
        → ReportsError (reading_whole p t) result fault.old fault.new) }
{
    match replace_with(handle, (), |handle, _| parser_error(handle)) {
        Some(error) => {
            *fault = error;
            true
        }
        None => false,
    }
}

#[tactic(auto, using(crate::proofs::ParserReports::finishes_done, crate::proofs::ParserReports::finishes_fault))]
fn finish_contents(contents: &mut Contents) -> Option<JiterFault>
    ensures { MatchParser contents.old ((result ≡ Some misuse) × (contents.new ≡ contents.old))
        (λ p. (t : List ℕ) → HasReceived p t → Finishes (reading_whole p t) contents.new result) }
{
    match replace(contents, Contents::Nothing) {
        Contents::Parser(parser) => match parser.finish() {
            Ok(value) => {
                *contents = Contents::Document(value);
                None
            }
            Err(error) => Some(document_fault(&error)),
        },
        other => {
            *contents = other;
            Some(misuse())
        }
    }
}

fn finish_handle(handle: JiterHandle) -> (JiterHandle, Option<JiterFault>)
    ensures { MatchParser handle.value ((result.1 ≡ Some misuse) × (result.0.value ≡ handle.value))
        (λ p. (t : List ℕ) → HasReceived p t → Finishes (reading_whole p t) result.0.value result.1) }
{
    let mut contents = open(handle);
    let error = finish_contents(&mut *contents);
    (close(contents), error)
}

/// Ends the document: the handle then holds its value, read with partial reading off.
///
/// # Errors
///
/// Returns `false` and writes to `fault`:
///
/// - the error of all bytes so far, with partial reading off; the handle then holds nothing
/// - misuse, if the handle holds no parser; nothing changes then
#[tactic(auto, using(crate::proofs::ParserReports::reports_failed, crate::proofs::ParserReports::reports_finished))]
#[unsafe(no_mangle)]
pub extern "C" fn jiter_parser_finish(handle: &mut JiterHandle, fault: &mut JiterFault) -> bool
    ensures { MatchParser handle.old.value
        ((result ≡ false) × (fault.new ≡ misuse) × (handle.new.value ≡ handle.old.value))
        (λ p. (t : List ℕ) → HasReceived p t
        → ReportsFinish (reading_whole p t) handle.new.value result fault.old fault.new) }
{
    match replace_with(handle, (), |handle, _| finish_handle(handle)) {
        Some(error) => {
            *fault = error;
            false
        }
        None => true,
    }
}
