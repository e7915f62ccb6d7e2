//! A complete run, over one reader and two writers.
ghost use Rattle.std.specs.Prelude.{◌≡◌, IfOk, IfErr, OnOk, IfSome, false, string_bytes, true};
ghost use Rattle.std.specs.Option.{option_map};
ghost use Rattle.std.specs.Io.KnownBytes.{IsAtEnd};
ghost use Rattle.jiter_print.specs.Print.{print_of, with_line_feed};
ghost use Rattle.jiter_print.specs.Printed.{PrintsAgain};
ghost use Rattle.jiter_value.specs.Value.{view};
ghost use Rattle.look.specs.Run.{IsOfMemory, IsOfReadOrMemory, IsUnread, fault_line, line_of, line_view, reading_of};
ghost use Rattle.look.specs.Run.{status_of, value_line, Wrote, WroteIfAny, WroteNothing};

use jiter::{JsonError, JsonErrorType, JsonValue, PartialMode, UniqueError, UniqueErrorType};
use jiter_print::{print, write_line};
use jiter_scan::memory::push;
use std::alloc::{AllocError, Global};
use std::io;
use std::io::{Read, Write};

/// How a run ended.
#[derive(Debug, Clone, Copy, PartialEq, Eq)]
pub enum End {
    /// The value was written.
    Shown,
    /// The description of the error was written.
    Refused,
    /// A read, a write or an allocation failed.
    Failed,
}

impl End {
    /// Returns the exit status of the program.
    pub fn status(&self) -> u8
        ensures { result ≡ status_of self.now }
    {
        match self {
            End::Shown => 0,
            End::Refused => 1,
            End::Failed => 3,
        }
    }
}

/// The line that a run writes.
#[derive(Drop)]
pub enum Line {
    /// The value's compact text and a line feed.
    Value(Vec<u8>),
    /// The error's description and a line feed.
    Fault(Vec<u8>),
}

// Why there is no line: a read failed, or an allocation.
#[derive(Debug, Drop)]
enum NoLine {
    Read(io::Error),
    Make(NoMemory),
}

// The call that ran out of memory, with its error.
#[derive(Debug, Drop)]
enum NoMemory {
    Parse(JsonError),
    ParseUnique(UniqueError),
    Line(AllocError),
}

impl From<io::Error> for NoLine {
    ghost use Rattle.look.specs.declared.running.NoLine.{NoLine};

    ghost from_gives = { λ error r. r ≡ NoLine.Read error };

    fn from(error: io::Error) -> Self {
        NoLine::Read(error)
    }
}

impl From<AllocError> for NoMemory {
    ghost use Rattle.look.specs.declared.running.NoMemory.{NoMemory};

    ghost from_gives = { λ error r. r ≡ NoMemory.Line error };

    fn from(error: AllocError) -> Self {
        NoMemory::Line(error)
    }
}

/// Reads all input, parses it, and writes one line. A value's compact text goes to `out`, an error's description to
/// `err`.
///
/// The line is complete before any of it is written. After a failed read or allocation nothing is written; a failed
/// write leaves a prefix of the line. With `unique`, a duplicate key is an error. A value's line is a document with
/// that value, for the same `inf_nan`.
#[tactic(auto, using(crate::proofs::PrintedAgain::prints_again_if_known))]
pub fn run<R: Read, O: Write, E: Write>(
    alloc: Global,
    reader: &mut R,
    out: &mut O,
    err: &mut E,
    mode: PartialMode,
    inf_nan: bool,
    unique: bool,
) -> End
    ensures wrote { IfSome (R.remaining reader.old) (λ text. Wrote (line_of inf_nan unique mode text) result
        (O.contents out.old) (O.contents out.new) (E.contents err.old) (E.contents err.new)) }
    ensures unread { IsUnread (R.remaining reader.new) → WroteNothing result
        (O.contents out.old) (O.contents out.new) (E.contents err.old) (E.contents err.new) }
    ensures again { IfSome (R.remaining reader.old)
        (λ text. PrintsAgain inf_nan (reading_of inf_nan unique mode text)) }
{
    match read_line(alloc, reader, mode, inf_nan, unique) {
        Ok(line) => show(Some(line), out, err),
        Err(_) => show(None, out, err),
    }
}

fn read_line<R: Read>(
    alloc: Global,
    reader: &mut R,
    mode: PartialMode,
    inf_nan: bool,
    unique: bool,
) -> Result<Line, NoLine>
    ensures line { IfOk result (λ line. IfSome (R.remaining reader.old)
        (λ text. line_view line ≡ line_of inf_nan unique mode text)) }
    ensures whole { OnOk result (IsAtEnd (R.remaining reader.new)) }
    ensures refused { IfErr result IsOfReadOrMemory }
{
    let mut text = Vec::new(alloc);
    reader.read_to_end(&mut text)?;
    make_line(alloc, text.as_slice(), mode, inf_nan, unique).map_err(NoLine::Make)
}

fn make_line(
    alloc: Global,
    text: &[u8],
    mode: PartialMode,
    inf_nan: bool,
    unique: bool,
) -> Result<Line, NoMemory>
    ensures line { IfOk result (λ line. line_view line ≡ line_of inf_nan unique mode text.now) }
    ensures memory { IfErr result IsOfMemory }
{
    if unique {
        unique_line(alloc, text, mode, inf_nan)
    } else {
        plain_line(alloc, text, mode, inf_nan)
    }
}

// Duplicate keys are kept.
fn plain_line(
    alloc: Global,
    text: &[u8],
    mode: PartialMode,
    inf_nan: bool,
) -> Result<Line, NoMemory>
    ensures line { IfOk result (λ line. line_view line ≡ line_of inf_nan false mode text.now) }
    ensures memory { IfErr result IsOfMemory }
{
    match JsonValue::parse_with_config(alloc, text, inf_nan, mode) {
        Ok(value) => line_of_value(alloc, &value),
        Err(error) => match error.error_type {
            JsonErrorType::OutOfMemory => Err(NoMemory::Parse(error)),
            _ => line_of_fault(error.description(alloc, text)?),
        },
    }
}

// Duplicate keys are errors.
fn unique_line(
    alloc: Global,
    text: &[u8],
    mode: PartialMode,
    inf_nan: bool,
) -> Result<Line, NoMemory>
    ensures line { IfOk result (λ line. line_view line ≡ line_of inf_nan true mode text.now) }
    ensures memory { IfErr result IsOfMemory }
{
    match JsonValue::parse_unique(alloc, text, inf_nan, mode) {
        Ok(value) => line_of_value(alloc, &value),
        Err(error) => match &error.error_type {
            UniqueErrorType::JsonError(JsonErrorType::OutOfMemory) => {
                Err(NoMemory::ParseUnique(error))
            }
            _ => line_of_fault(error.description(alloc, text)?),
        },
    }
}

fn line_of_value(alloc: Global, value: &JsonValue<'_>) -> Result<Line, NoMemory>
    ensures line { IfOk result (λ line. line_view line ≡ value_line (with_line_feed (print_of (view value.now)))) }
    ensures memory { IfErr result IsOfMemory }
{
    let mut bytes = print(alloc, value)?;
    push(&mut bytes, b'\n').map_err(AllocError::from)?;
    Ok(Line::Value(bytes))
}

fn line_of_fault(description: String) -> Result<Line, NoMemory>
    ensures line { IfOk result (λ line. line_view line ≡ fault_line (with_line_feed (string_bytes description))) }
    ensures memory { IfErr result IsOfMemory }
{
    let mut bytes = description.into_bytes();
    push(&mut bytes, b'\n').map_err(AllocError::from)?;
    Ok(Line::Fault(bytes))
}

/// Writes the line, if there is one: a value's to `out`, an error's to `err`. Returns how the run ended, which is
/// `Failed` without a line.
pub fn show<O: Write, E: Write>(line: Option<Line>, out: &mut O, err: &mut E) -> End
    ensures { WroteIfAny (option_map line_view line) result
        (O.contents out.old) (O.contents out.new) (E.contents err.old) (E.contents err.new) }
{
    match line {
        Some(Line::Value(bytes)) => match write_line(out, bytes.as_slice()) {
            Ok(()) => End::Shown,
            Err(_) => End::Failed,
        },
        Some(Line::Fault(bytes)) => match write_line(err, bytes.as_slice()) {
            Ok(()) => End::Refused,
            Err(_) => End::Failed,
        },
        None => End::Failed,
    }
}
