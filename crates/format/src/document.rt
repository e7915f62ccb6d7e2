//! What is written of a document, or of its error.
ghost use Rattle.std.specs.Prelude.{◌≡◌, IfOk, IfSome, false, option_map, string_bytes};
ghost use Rattle.jiter.specs.Caller.{IsDocument, Node, answer, pointed_by, value_of, view};
ghost use Rattle.format.specs.Document.{IsTextAgain, Wrote, outcome_of, part_outcome, refused, report_in, seen, text_in};

use jiter::JsonValue;
use jiter_print::{print, print_pretty, write_line};
use json_screen::parse_report;
use std::alloc::{AllocError, Global};
use std::io;
use std::io::{Read, Write};

/// How a value is written.
#[derive(Debug, Clone, Copy, PartialEq, Eq)]
pub enum Style {
    /// Each item and member is on a line of its own, two spaces a level.
    Pretty,
    /// There is no whitespace between its parts.
    Compact,
    /// Nothing is written, and no error either.
    Silent,
}

/// What is written of a document, and how.
#[derive(Clone, Copy)]
pub struct Format<'a> {
    /// How a value is written.
    pub style: Style,
    /// The JSON Pointer to the part that is written. The empty pointer leads to the complete value.
    pub pointer: &'a str,
}

/// What is written of an input.
#[derive(Debug, Drop)]
pub enum Outcome {
    /// The text of the value, to standard output.
    Text(Vec<u8>),
    /// The error, to standard error.
    Refused(String),
}

fn text_in(alloc: Global, style: Style, value: &JsonValue<'_>) -> Result<Vec<u8>, AllocError>
    ensures { IfOk result (λ text. text.items ≡ text_in style (view value.now)) }
{
    let mut text = match style {
        Style::Pretty => print_pretty(alloc, value, 2)?,
        Style::Compact => print(alloc, value)?,
        Style::Silent => return Ok(Vec::new(alloc)),
    };
    text.push(b'\n')?;
    Ok(text)
}

// An error is reported, unless nothing is written.
fn refused(alloc: Global, style: Style, report: String) -> Outcome
    ensures { seen result ≡ refused (report_in style (string_bytes report)) }
{
    Outcome::Refused(match style {
        Style::Pretty | Style::Compact => report,
        Style::Silent => String::new(alloc),
    })
}

fn part_outcome(
    alloc: Global,
    format: Format<'_>,
    name: &str,
    part: Option<&JsonValue<'_>>,
) -> Result<Outcome, AllocError>
    ensures { IfOk result (λ outcome. seen outcome
        ≡ part_outcome format.entry name.now (option_map (λ v. view v.now) part.entry)) }
{
    let Format { style, pointer } = format;
    match part {
        Some(value) => Ok(Outcome::Text(text_in(alloc, style, value)?)),
        None => {
            let report = format!(in alloc; "{name}: no value at {pointer}\n")?;
            Ok(refused(alloc, style, report))
        }
    }
}

/// Returns what is written of an input.
///
/// - For a document it is the text of the value that the pointer leads to, and a line feed; or that it leads nowhere.
/// - For any other bytes it is the first error, as [`parse_report`] has it.
///
/// All members of a repeated key are written. The pointer leads to the last one.
///
/// # Errors
///
/// - `AllocError` if an allocation fails
#[tactic(auto, using(crate::proofs::Again::part_again))]
pub fn formatted(
    alloc: Global,
    format: Format<'_>,
    name: &str,
    bytes: &[u8],
) -> Result<Outcome, AllocError>
    // A document becomes the text of its value, or of the part.
    ensures document { (n : Node) → IsDocument false bytes.now n → IfOk result (λ outcome. seen outcome
        ≡ part_outcome format.entry name.now (pointed_by format.entry.pointer.now (value_of bytes.now n))) }
    // This text is a document with the same value again.
    ensures again { (n : Node) → IsDocument false bytes.now n
        → IfSome (pointed_by format.entry.pointer.now (value_of bytes.now n)) (IsTextAgain format.entry.style) }
    // Any other bytes become their first error.
    ensures first { IfOk result (λ outcome. seen outcome
        ≡ outcome_of format.entry name.now bytes.now (answer false bytes.now)) }
{
    match &JsonValue::parse(alloc, bytes, false) {
        Ok(value) => part_outcome(alloc, format, name, value.pointer(format.pointer)),
        Err(error) if error.is_memory() => Err(AllocError),
        Err(error) => {
            let report = parse_report(alloc, name, bytes, error)?;
            Ok(refused(alloc, format.style, report))
        }
    }
}

/// Reads an input to its end, and writes what [`formatted`] returns for it. Returns whether that isn't an error.
///
/// # Errors
///
/// - the error of a failed read or write; an interrupted read or write is repeated
/// - `OutOfMemory` if an allocation fails
///
/// A prefix of the output has then been written.
pub fn run<R: Read, O: Write, E: Write>(
    alloc: Global,
    format: Format<'_>,
    name: &str,
    reader: &mut R,
    out: &mut O,
    err: &mut E,
) -> io::Result<bool>
    ensures { IfSome (R.remaining reader.old) (λ t. Wrote (outcome_of format.entry name.now t (answer false t)) result
        (O.contents out.old) (O.contents out.new) (E.contents err.old) (E.contents err.new)) }
{
    let mut bytes = Vec::new(alloc);
    reader.read_to_end(&mut bytes)?;
    match formatted(alloc, format, name, bytes.as_slice())? {
        Outcome::Text(text) => {
            write_line(out, text.as_slice())?;
            Ok(true)
        }
        Outcome::Refused(report) => {
            write_line(err, report.as_bytes())?;
            Ok(false)
        }
    }
}
