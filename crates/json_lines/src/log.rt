//! Logs, read line by line.
ghost use Rattle.std.specs.Prelude.{◌≡◌, ◌↔◌, [], IfOk, IfSome, IsTrue, OnErr, OnOk};
ghost use Rattle.std.specs.Io.Buffered.{reader_remaining};
ghost use Rattle.std.specs.Io.KnownBytes.{Appends, Keeps, append_known};
ghost use Rattle.jiter_print.specs.Written.{AppendsPrefix};
ghost use Rattle.json_lines.specs.Log.{Grows, IsBlankLine, WritesAll, WritesPart, chomp, ended};

use crate::line::{Convert, Outcome};
use crate::reading::read_line;
use crate::report::write_report;
use jiter_print::write_line;
use jiter_scan::LinePosition;
use memchr::memchr;
use std::alloc::{AllocError, Global};
use std::io;
use std::io::{BufRead, BufReader, ErrorKind, Read, Write};

/// How many lines have a text, and how many an error. Lines of whitespace only have neither.
#[derive(Debug, Clone, Copy, PartialEq, Eq)]
pub struct Counts {
    /// The lines with a text.
    pub texts: usize,
    /// The lines with an error.
    pub refused: usize,
}

// The counts before the first line.
pub(crate) const NONE: Counts = Counts {
    texts: 0,
    refused: 0,
};

// A batch is written once it has this many bytes. With a line's text it fits into twice as many, unless the text is long.
const BATCH: usize = 1 << 14;

// The first capacity of the buffer for a line. Buffers that stay are allocated before anything that is freed: a hole below
// them makes each allocation of a line's value slower.
const LINE: usize = 1 << 12;

/// What the reports of a log name: where it comes from, and the number of its first line.
#[derive(Debug, Clone, Copy)]
pub struct Origin<'n> {
    /// The name of the log.
    pub name: &'n str,
    /// The number of its first line: 1 for a complete log. For the rest of a log that was cut between two lines, it is 1 and
    /// the number of lines before the cut.
    pub first_line: usize,
}

// Returns the line without its `\n` or `\r\n`.
fn without_end(line: &[u8]) -> &[u8]
    ensures { result.now ≡ chomp line.now }
{
    let line = line.strip_suffix(b"\n").unwrap_or(line);
    line.strip_suffix(b"\r").unwrap_or(line)
}

// Returns whether a line has only whitespace.
fn is_blank(line: &[u8]) -> bool
    ensures { IsTrue result ↔ IsBlankLine line.now }
{
    line.iter().all(|byte| *byte == b' ' || *byte == b'\t' || *byte == b'\n' || *byte == b'\r')
}

// Returns the line with a line feed at its end.
fn ended(alloc: Global, line: &[u8]) -> Result<Vec<u8>, AllocError>
    ensures { IfOk result (λ text. text.items ≡ ended line.now) }
{
    let mut text = Vec::from_slice(alloc, line.strip_suffix(b"\n").unwrap_or(line))?;
    text.push(b'\n')?;
    Ok(text)
}

// Writes the texts of the batch, and clears it.
fn write_batch<O: Write>(out: &mut O, batch: &mut Vec<u8>) -> io::Result<()>
    ensures whole { OnOk result (Appends (O.contents out.old) (O.contents out.new) batch.old.items) }
    ensures part { AppendsPrefix (O.contents out.old) (O.contents out.new) batch.old.items }
    ensures none { batch.new.items ≡ [] }
{
    if batch.is_empty() {
        return Ok(());
    }
    let written = write_line(out, batch.as_slice());
    batch.clear();
    written
}

// Writes the batch if it is long, or if the next read may wait for more of the log.
fn write_due<R: Read, O: Write>(
    reader: &BufReader<R>,
    out: &mut O,
    batch: &mut Vec<u8>,
) -> io::Result<()>
    ensures kept { OnOk result (Keeps (append_known (O.contents out.old) batch.old.items)
        (append_known (O.contents out.new) batch.new.items)) }
    ensures part { OnErr result (AppendsPrefix (O.contents out.old) (O.contents out.new) batch.old.items
        × (batch.new.items ≡ [])) }
    ensures grows { Grows (O.contents out.old) (O.contents out.new) }
{
    if batch.len() < BATCH && memchr(b'\n', reader.buffer()).is_some() {
        return Ok(());
    }
    write_batch(out, batch)
}

// Converts the lines of a log as `convert_log` does. The batch then holds the texts that aren't written yet.
fn convert_lines<C: Convert, R: Read, O: Write, E: Write, B: Write>(
    alloc: Global,
    converter: &C,
    origin: &Origin<'_>,
    reader: &mut BufReader<R>,
    batch: &mut Vec<u8>,
    out: &mut O,
    err: &mut E,
    bad: &mut B,
) -> io::Result<Counts>
    requires { batch.old.items ≡ [] }
    ensures all { IfOk result (λ counts. IfSome (reader_remaining R.remaining reader.old)
        (λ t. WritesAll (C.becomes converter.now) origin.now.name.now origin.now.first_line t counts
        (O.contents out.old) (append_known (O.contents out.new) batch.new.items) (E.contents err.old)
        (E.contents err.new) (B.contents bad.old) (B.contents bad.new))) }
    ensures part { OnErr result (IfSome (reader_remaining R.remaining reader.old)
        (λ t. WritesPart (C.becomes converter.now) origin.now.name.now origin.now.first_line t
        (O.contents out.old) (append_known (O.contents out.new) batch.new.items) (E.contents err.old)
        (E.contents err.new) (B.contents bad.old) (B.contents bad.new))) }
    ensures grows { Grows (O.contents out.old) (O.contents out.new) }
{
    let mut counts = NONE;
    let mut buffer = Vec::with_capacity(alloc, LINE)?;
    for line in origin.first_line..usize::MAX {
        write_due(reader, out, batch)?;
        buffer.clear();
        if read_line(reader, &mut buffer)? == 0 {
            return Ok(counts);
        }
        let bytes = without_end(buffer.as_slice());
        if is_blank(bytes) {
            continue;
        }
        match converter.convert(alloc, bytes)? {
            Outcome::Text(text) => {
                batch.extend_from_slice(text.as_slice())?;
                counts.texts += 1;
            }
            Outcome::Refused(column, cause) => {
                write_batch(out, batch)?;
                let position = LinePosition { line, column };
                let line = ended(alloc, buffer.as_slice())?;
                let kept = line.as_slice();
                let cause = cause.as_str();
                write_report(alloc, origin.name, &position, bytes, cause, kept, err, bad)?;
                counts.refused += 1;
            }
        }
    }
    Err(io::Error::from(ErrorKind::Other))
}

/// Reads a log to its end. Writes what each line becomes: its text to `out`, and for an error `NAME:LINE:COLUMN: CAUSE` to
/// `err` and the line itself to `bad`, in the order of the lines. Returns how many texts and errors there are.
///
/// A line ends at `\n` or `\r\n`; the last one may have no end. A line of whitespace only is passed over, and counted as a
/// line. Lines count from the origin's first line, and columns from 1, in bytes. What is written to `bad` has the line's own
/// end; a last line without one gets `\n`.
///
/// Texts are written together: before a read that may wait, before an error line, and at the end. So each line of a log that
/// still grows is written at once, and the memory in use doesn't grow with the number of lines.
///
/// # Errors
///
/// - the error of a failed read or write; an interrupted read or write is repeated
/// - `Other` before a line with the number `usize::MAX`
/// - `OutOfMemory` if an allocation fails
///
/// After an error, prefixes of these outputs are written.
pub fn convert_log<C: Convert, R: Read, O: Write, E: Write, B: Write>(
    alloc: Global,
    converter: &C,
    origin: &Origin<'_>,
    reader: &mut BufReader<R>,
    out: &mut O,
    err: &mut E,
    bad: &mut B,
) -> io::Result<Counts>
    ensures all { IfOk result (λ counts. IfSome (reader_remaining R.remaining reader.old)
        (λ t. WritesAll (C.becomes converter.now) origin.now.name.now origin.now.first_line t counts
        (O.contents out.old) (O.contents out.new) (E.contents err.old) (E.contents err.new)
        (B.contents bad.old) (B.contents bad.new))) }
    ensures part { OnErr result (IfSome (reader_remaining R.remaining reader.old)
        (λ t. WritesPart (C.becomes converter.now) origin.now.name.now origin.now.first_line t
        (O.contents out.old) (O.contents out.new) (E.contents err.old) (E.contents err.new)
        (B.contents bad.old) (B.contents bad.new))) }
{
    let mut batch = Vec::with_capacity(alloc, 2 * BATCH)?;
    let counts = convert_lines(alloc, converter, origin, reader, &mut batch, out, err, bad);
    let written = write_batch(out, &mut batch);
    let counts = counts?;
    written?;
    Ok(counts)
}
