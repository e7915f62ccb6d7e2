//! The items of an array, converted as the lines of a log are.
ghost use Rattle.std.specs.Prelude.{◌≡◌, ℕ, ◌+◌, ◌≤◌, ◌∷◌, [], IfOk, IfSome, OnErr, option_map, take, true};
ghost use Rattle.std.specs.Io.Buffered.{reader_remaining};
ghost use Rattle.std.specs.Io.KnownBytes.{Appends};
ghost use Rattle.jiter_print.specs.Written.{AppendsPrefix};
ghost use Rattle.jiter_scan.specs.declared.errors.LinePosition.{LinePosition};
ghost use Rattle.json_lines.specs.Items.{after_blanks, blanks, item, outside, parts_of, pieces};
ghost use Rattle.json_lines.specs.ItemsRead.{StartsAt, past, piece_error, piece_parts, tail_count, tail_report};
ghost use Rattle.json_lines.specs.ItemsWritten.{WritesItems, WritesItemsPart, WritesParts, WritesPartly, kept_line};

use crate::array::{Ended, blanks, next_visible, not_an_array, past, read_piece, trim_end};
use crate::line::{Convert, Outcome};
use crate::log::{Counts, NONE, Origin};
use crate::report::{write_error, write_report};
use jiter_print::write_line;
use jiter_scan::LinePosition;
use std::alloc::{AllocError, Global};
use std::io;
use std::io::{BufReader, ErrorKind, Read, Write};

const ONE_TEXT: Counts = Counts {
    texts: 1,
    refused: 0,
};

const ONE_ERROR: Counts = Counts {
    texts: 0,
    refused: 1,
};

// Returns the bytes with a line feed, or nothing if there are none.
fn kept_line(alloc: Global, bytes: &[u8]) -> Result<Vec<u8>, AllocError>
    ensures { IfOk result (λ line. line.items ≡ kept_line bytes.now) }
{
    let mut line = Vec::from_slice(alloc, bytes)?;
    if !bytes.is_empty() {
        line.push(b'\n')?;
    }
    Ok(line)
}

// Converts an item, and writes its text or its error.
fn convert_item<C: Convert, O: Write, E: Write, B: Write>(
    alloc: Global,
    converter: &C,
    name: &str,
    position: &LinePosition,
    bytes: &[u8],
    out: &mut O,
    err: &mut E,
    bad: &mut B,
) -> io::Result<Counts>
    ensures all { IfOk result (λ counts. (i : ℕ) (at : ℕ → LinePosition) → StartsAt at i position.now bytes.now
        → WritesParts (C.becomes converter.now) name.now at (item i bytes.now ∷ []) counts
        (O.contents out.old) (O.contents out.new) (E.contents err.old) (E.contents err.new)
        (B.contents bad.old) (B.contents bad.new)) }
    ensures part { OnErr result ((i : ℕ) (at : ℕ → LinePosition) → StartsAt at i position.now bytes.now
        → WritesPartly (C.becomes converter.now) name.now at (item i bytes.now ∷ [])
        (O.contents out.old) (O.contents out.new) (E.contents err.old) (E.contents err.new)
        (B.contents bad.old) (B.contents bad.new)) }
    ensures one { IfOk result (λ counts. counts.texts + counts.refused ≤ 1) }
{
    match converter.convert(alloc, bytes)? {
        Outcome::Text(text) => {
            write_line(out, text.as_slice())?;
            Ok(ONE_TEXT)
        }
        Outcome::Refused(column, cause) => {
            let before = column.saturating_sub(1).min(bytes.len());
            let position = past(position, &bytes[..before])?;
            let kept = kept_line(alloc, bytes)?;
            write_report(
                alloc,
                name,
                &position,
                bytes,
                cause.as_str(),
                kept.as_slice(),
                err,
                bad,
            )?;
            Ok(ONE_ERROR)
        }
    }
}

// Returns why a piece isn't an item. The whitespace in `[]` isn't one either, but has no error.
fn error_of(ended: Ended, is_first: bool, is_blank: bool) -> Option<&'static str>
    ensures { option_map (λ c. c.now) result ≡ piece_error ended is_first is_blank }
{
    match ended {
        Ended::Input => Some("EOF while parsing a list"),
        Ended::Comma if is_blank => Some("expected value"),
        Ended::Bracket if is_blank && !is_first => Some("trailing comma"),
        _ => None,
    }
}

// Converts a piece of the array's text that begins at this position.
fn convert_piece<C: Convert, O: Write, E: Write, B: Write>(
    alloc: Global,
    converter: &C,
    name: &str,
    position: &LinePosition,
    piece: &[u8],
    ended: Ended,
    is_first: bool,
    out: &mut O,
    err: &mut E,
    bad: &mut B,
) -> io::Result<Counts>
    ensures all { IfOk result (λ counts. (i : ℕ) (at : ℕ → LinePosition) → StartsAt at i position.now piece.now
        → WritesParts (C.becomes converter.now) name.now at (piece_parts ended is_first i piece.now) counts
        (O.contents out.old) (O.contents out.new) (E.contents err.old) (E.contents err.new)
        (B.contents bad.old) (B.contents bad.new)) }
    ensures part { OnErr result ((i : ℕ) (at : ℕ → LinePosition) → StartsAt at i position.now piece.now
        → WritesPartly (C.becomes converter.now) name.now at (piece_parts ended is_first i piece.now)
        (O.contents out.old) (O.contents out.new) (E.contents err.old) (E.contents err.new)
        (B.contents bad.old) (B.contents bad.new)) }
    ensures one { IfOk result (λ counts. counts.texts + counts.refused ≤ 1) }
{
    let start = blanks(piece);
    let is_blank = start == piece.len();
    let item = trim_end(&piece[start..]);
    if let Some(cause) = error_of(ended, is_first, is_blank) {
        let end = past(position, piece)?;
        let kept = kept_line(alloc, item)?;
        write_report(alloc, name, &end, b"", cause, kept.as_slice(), err, bad)?;
        return Ok(ONE_ERROR);
    }
    if is_blank {
        return Ok(NONE);
    }
    let position = past(position, &piece[..start])?;
    convert_item(alloc, converter, name, &position, item, out, err, bad)
}

// Reads what follows the array. Returns how many errors that has: 0 or 1.
fn end_input<R: Read, E: Write>(
    alloc: Global,
    name: &str,
    position: &LinePosition,
    reader: &mut BufReader<R>,
    err: &mut E,
) -> io::Result<usize>
    ensures all { IfOk result (λ count. IfSome (reader_remaining R.remaining reader.old) (λ xs.
        (count ≡ tail_count (after_blanks xs)) × Appends (E.contents err.old) (E.contents err.new)
        (tail_report name.now (past position.now (take (blanks xs) xs)) (after_blanks xs)))) }
    ensures part { OnErr result (IfSome (reader_remaining R.remaining reader.old) (λ xs.
        AppendsPrefix (E.contents err.old) (E.contents err.new)
        (tail_report name.now (past position.now (take (blanks xs) xs)) (after_blanks xs)))) }
    ensures one { IfOk result (λ count. count ≤ 1) }
{
    let mut position = past(position, b"")?;
    let Some(_) = next_visible(reader, &mut position)? else {
        return Ok(0);
    };
    write_error(alloc, name, &position, b"", "trailing characters", err)?;
    Ok(1)
}

// Converts the pieces of an array's text after its `[`, and reads what follows the array.
fn convert_pieces<C: Convert, R: Read, O: Write, E: Write, B: Write>(
    alloc: Global,
    converter: &C,
    name: &str,
    begin: &LinePosition,
    reader: &mut BufReader<R>,
    out: &mut O,
    err: &mut E,
    bad: &mut B,
) -> io::Result<Counts>
    ensures all { IfOk result (λ counts. IfSome (reader_remaining R.remaining reader.old) (λ xs.
        (i : ℕ) (at : ℕ → LinePosition) → StartsAt at i begin.now xs
        → WritesParts (C.becomes converter.now) name.now at (parts_of i true (pieces (outside 0) xs)) counts
        (O.contents out.old) (O.contents out.new) (E.contents err.old) (E.contents err.new)
        (B.contents bad.old) (B.contents bad.new))) }
    ensures part { OnErr result (IfSome (reader_remaining R.remaining reader.old) (λ xs.
        (i : ℕ) (at : ℕ → LinePosition) → StartsAt at i begin.now xs
        → WritesPartly (C.becomes converter.now) name.now at (parts_of i true (pieces (outside 0) xs))
        (O.contents out.old) (O.contents out.new) (E.contents err.old) (E.contents err.new)
        (B.contents bad.old) (B.contents bad.new))) }
{
    let mut position = past(begin, b"")?;
    let mut counts = NONE;
    let mut piece = Vec::new(alloc);
    for index in 0..usize::MAX - 1 {
        let ended = read_piece(reader, &mut piece)?;
        let bytes = piece.as_slice();
        let is_first = index == 0;
        let one = convert_piece(
            alloc, converter, name, &position, bytes, ended, is_first, out, err, bad,
        )?;
        counts.texts += one.texts;
        counts.refused += one.refused;
        position = past(&past(&position, bytes)?, b",")?;
        match ended {
            Ended::Comma => {}
            Ended::Bracket => {
                counts.refused += end_input(alloc, name, &position, reader, err)?;
                return Ok(counts);
            }
            Ended::Input => return Ok(counts),
        }
    }
    Err(io::Error::from(ErrorKind::Other))
}

/// Reads an input that is one array. Converts each of its items as [`crate::convert_log`] does a line, and writes what the
/// items become: a text to `out`; for an error `NAME:LINE:COLUMN: CAUSE` to `err`, and the item itself with a line feed to
/// `bad`, in the order of the items. Returns how many texts and errors there are.
///
/// The line and the column are those in the whole input: lines count from the origin's first line, and columns from 1, in
/// bytes. The memory in use is that of the longest item and the whitespace around it: what an item becomes is written
/// before the next one is read.
///
/// Errors of the array itself are reported and counted too, at their position: `not an array`, `expected value` before a
/// comma without an item, `trailing comma`, `trailing characters`, and `EOF while parsing a list`. If the input ends before
/// the array does, the last item may be cut: it isn't converted, but written to `bad`.
///
/// # Errors
///
/// - the error of a failed read or write; an interrupted read or write is repeated
/// - `Other` if the number of a line or column, or of the items, would be too large for a `usize`
/// - `OutOfMemory` if an allocation fails
///
/// After an error, prefixes of these outputs are written.
pub fn convert_items<C: Convert, R: Read, O: Write, E: Write, B: Write>(
    alloc: Global,
    converter: &C,
    origin: &Origin<'_>,
    reader: &mut BufReader<R>,
    out: &mut O,
    err: &mut E,
    bad: &mut B,
) -> io::Result<Counts>
    ensures all { IfOk result (λ counts. IfSome (reader_remaining R.remaining reader.old)
        (λ t. WritesItems (C.becomes converter.now) origin.now.name.now origin.now.first_line t counts
        (O.contents out.old) (O.contents out.new) (E.contents err.old) (E.contents err.new)
        (B.contents bad.old) (B.contents bad.new))) }
    ensures part { OnErr result (IfSome (reader_remaining R.remaining reader.old)
        (λ t. WritesItemsPart (C.becomes converter.now) origin.now.name.now origin.now.first_line t
        (O.contents out.old) (O.contents out.new) (E.contents err.old) (E.contents err.new)
        (B.contents bad.old) (B.contents bad.new))) }
{
    let name = origin.name;
    let mut position = LinePosition {
        line: origin.first_line,
        column: 1,
    };
    let first = next_visible(reader, &mut position)?;
    if let Some(cause) = not_an_array(reader, first)? {
        write_error(alloc, name, &position, b"", cause, err)?;
        return Ok(ONE_ERROR);
    }
    let position = past(&position, b"[")?;
    convert_pieces(alloc, converter, name, &position, reader, out, err, bad)
}
