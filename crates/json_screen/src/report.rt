//! Why an input is no document, as its reader is told.
ghost use Rattle.std.specs.Prelude.{◌≡◌, ◌-◌, ◌<◌, ◌≤◌, List, ℕ, IfOk, IfSome, length, not, option_map, string_bytes};
ghost use Rattle.std.specs.List.{prefix_len};
ghost use Rattle.jiter_scan.specs.Kind.{kind_of};
ghost use Rattle.jiter_scan.specs.Position.{column_of, is_newline, line_of};
ghost use Rattle.json_screen.specs.Arrived.{HasArrived};
ghost use Rattle.json_screen.specs.Report.{cause_seen, error_of, error_text, excerpt, excerpt_after, excerpt_before};
ghost use Rattle.json_screen.specs.Report.{is_continuation, IsReport, next_document, parse_cause, parse_text};
ghost use Rattle.json_screen.specs.Report.{trailing_error};
ghost use Rattle.json_screen.specs.declared.input.Options.{Options};

use crate::input::Input;
use crate::screen::Rows;
use jiter::{JsonError, JsonErrorType, LinePosition};
use std::alloc::{AllocError, Global};

const BYTE_ORDER_MARK: [u8; 3] = [0xef, 0xbb, 0xbf];

// Why the input is no document, and where.
#[derive(Drop)]
struct Cause {
    index: usize,
    text: String,
}

// Where a text begins with another document, after whitespace.
fn next_document(text: &[u8]) -> Option<usize>
    ensures value { result ≡ next_document 0 text.now }
    ensures within { IfSome result (λ i. i < length text.now) }
{
    for i in 0..text.len() {
        match text[i] {
            b'[' | b'{' => return Some(i),
            b' ' | b'\t' | b'\n' | b'\r' => {}
            _ => return None,
        }
    }
    None
}

// Of an input of so many bytes, of which these follow the document.
fn trailing_cause(alloc: Global, len: usize, after: &[u8]) -> Result<Option<Cause>, AllocError>
    ensures { length after.now ≤ len → IfOk result (λ cause. option_map cause_seen cause
        ≡ trailing_error (len - length after.now) (next_document 0 after.now)) }
{
    let Some(next) = next_document(after) else {
        return Ok(None);
    };
    let index = len.saturating_sub(after.len() - next);
    let text = format!(in alloc; "{}", JsonErrorType::TrailingCharacters)?;
    Ok(Some(Cause { index, text }))
}

// A byte order mark isn't JSON, and invisible in an editor: it is named.
fn cause_of(alloc: Global, input: Input, bytes: &[u8]) -> Result<Option<Cause>, AllocError>
    ensures { (options : Options) → (t : List ℕ) → HasArrived options input t → bytes.now ≡ t
        → IfOk result (λ cause. option_map cause_seen cause ≡ error_of options.inf_nan t) }
{
    if bytes.starts_with(&BYTE_ORDER_MARK) {
        let text = format!(in alloc; "byte order mark")?;
        return Ok(Some(Cause { index: 0, text }));
    }
    let begin = input.before.len();
    let after = input.after;
    match input.document.finish() {
        Ok(_) => trailing_cause(alloc, bytes.len(), after.as_slice()),
        Err(error) => {
            let index = begin.saturating_add(error.index);
            let text = format!(in alloc; "{}", error.error_type)?;
            Ok(Some(Cause { index, text }))
        }
    }
}

// How many bytes that continue a character a text begins with.
fn continuation_len(bytes: &[u8]) -> usize
    ensures len { result ≡ prefix_len is_continuation bytes.now }
    ensures within { result ≤ length bytes.now }
{
    for i in 0..bytes.len() {
        if bytes[i] < 0x80 || bytes[i] >= 0xc0 {
            return i;
        }
    }
    bytes.len()
}

fn line_len(bytes: &[u8]) -> usize
    ensures len { result ≡ prefix_len (λ b. not (is_newline b)) bytes.now }
    ensures within { result ≤ length bytes.now }
{
    for i in 0..bytes.len() {
        if bytes[i] == b'\n' {
            return i;
        }
    }
    bytes.len()
}

// Of the line's bytes before the error, the last ones, from a character's first byte on.
fn excerpt_before(bytes: &[u8], column: usize) -> &[u8]
    ensures { result.now ≡ excerpt_before bytes.now column }
{
    let last = &bytes[bytes.len().saturating_sub(column.min(59))..];
    &last[continuation_len(last)..]
}

// Of the line's bytes from the error on, the first ones, with all bytes of the last character.
fn excerpt_after(bytes: &[u8]) -> &[u8]
    ensures { result.now ≡ excerpt_after bytes.now }
{
    let line = &bytes[..line_len(bytes)];
    let end = line.len().min(20);
    let rest = &line[end..];
    &line[..end + continuation_len(&rest[..rest.len().min(3)])]
}

// The line, and a caret below where its second part begins.
fn excerpt(alloc: Global, first: &[u8], second: &[u8]) -> Result<String, AllocError>
    ensures { IfOk result (λ text. string_bytes text ≡ excerpt first.now second.now) }
{
    let mut rows = Rows::new(alloc, usize::MAX);
    rows.append(alloc, first)?;
    let indent = " ".repeat(alloc, usize::MAX.saturating_sub(rows.left))?;
    rows.append(alloc, second)?;
    let shown = rows.text;
    format!(in alloc; "{shown}\n{indent}^\n")
}

// The lines up to the end of some bytes, and the bytes of the last one.
fn end_position(bytes: &[u8]) -> LinePosition
    ensures line { result.line ≡ line_of bytes.now }
    ensures column { result.column ≡ column_of bytes.now }
    ensures within { result.column ≤ length bytes.now }
{
    LinePosition::find(bytes, bytes.len())
}

// `NAME:LINE:COLUMN: CAUSE`, the line, and a caret under the byte. Of a long line, what is around the byte.
fn error_text(alloc: Global, name: &str, bytes: &[u8], cause: Cause) -> Result<String, AllocError>
    ensures { IfOk result
        (λ text. string_bytes text ≡ error_text name.now bytes.now cause.index (string_bytes cause.text)) }
{
    let at = cause.index.min(bytes.len().saturating_sub(1));
    let (before, rest) = bytes.split_at(at);
    let LinePosition { line, column } = end_position(before);
    let excerpt = excerpt(alloc, excerpt_before(before, column), excerpt_after(rest))?;
    let (cause, column) = (cause.text, column.saturating_add(1));
    format!(in alloc; "{name}:{line}:{column}: {cause}\n{excerpt}")
}

fn parse_cause(alloc: Global, bytes: &[u8], error: &JsonError) -> Result<String, AllocError>
    ensures { IfOk result (λ text. string_bytes text ≡ parse_cause bytes.now (kind_of error.now.error_type)) }
{
    match bytes.starts_with(&BYTE_ORDER_MARK) {
        true => format!(in alloc; "byte order mark"),
        false => format!(in alloc; "{}", error.error_type),
    }
}

/// Returns why bytes that are read as one document are none: the error of their parse, as [`error_report`] reports one.
///
/// # Errors
///
/// - `AllocError` if an allocation fails
pub fn parse_report(
    alloc: Global,
    name: &str,
    bytes: &[u8],
    error: &JsonError,
) -> Result<String, AllocError>
    ensures { IfOk result (λ text. string_bytes text
        ≡ parse_text name.now bytes.now error.now.index (kind_of error.now.error_type)) }
{
    let text = parse_cause(alloc, bytes, error)?;
    let index = error.index;
    error_text(alloc, name, bytes, Cause { index, text })
}

/// Returns why an input that has ended is no document, as `NAME:LINE:COLUMN: CAUSE`, the line, and a caret under the
/// column. `None` if it is one.
///
/// The text around the document is no error, except for another document after it, with only whitespace between them.
/// Lines and columns count from 1, columns in bytes; an error at the end of the input is at its last byte. Of a long line,
/// at most 59 bytes before the error are shown and 23 from it on.
///
/// # Errors
///
/// - `AllocError` if an allocation fails
pub fn error_report(alloc: Global, name: &str, input: Input) -> Result<Option<String>, AllocError>
    ensures { (options : Options) → (t : List ℕ) → HasArrived options input t
        → IfOk result (λ report. IsReport name.now t (error_of options.inf_nan t) (option_map string_bytes report)) }
{
    let bytes = input.bytes(alloc)?;
    match cause_of(alloc, input, bytes.as_slice())? {
        Some(cause) => Ok(Some(error_text(alloc, name, bytes.as_slice(), cause)?)),
        None => Ok(None),
    }
}
