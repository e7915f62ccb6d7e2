//! How an error is reported, and what is kept of the input that has it.
ghost use Rattle.std.specs.Prelude.{OnErr, OnOk};
ghost use Rattle.std.specs.Io.KnownBytes.{Appends};
ghost use Rattle.jiter_print.specs.Written.{AppendsPrefix};
ghost use Rattle.json_lines.specs.Line.{cause_in, refusal_text};

use crate::line::refusal_line;
use jiter_print::write_line;
use jiter_scan::LinePosition;
use std::alloc::Global;
use std::io;
use std::io::Write;

// Writes the report of an error to `err`.
pub(crate) fn write_error<E: Write>(
    alloc: Global,
    name: &str,
    position: &LinePosition,
    text: &[u8],
    cause: &str,
    err: &mut E,
) -> io::Result<()>
    ensures whole { OnOk result (Appends (E.contents err.old) (E.contents err.new)
        (refusal_text name.now position.now.line position.now.column (cause_in text.now cause.now))) }
    ensures part { OnErr result (AppendsPrefix (E.contents err.old) (E.contents err.new)
        (refusal_text name.now position.now.line position.now.column (cause_in text.now cause.now))) }
{
    let report = refusal_line(alloc, name, position, text, cause)?;
    write_line(err, report.as_bytes())
}

// Writes the report of an error to `err`, and what is kept to `bad`.
pub(crate) fn write_report<E: Write, B: Write>(
    alloc: Global,
    name: &str,
    position: &LinePosition,
    text: &[u8],
    cause: &str,
    kept: &[u8],
    err: &mut E,
    bad: &mut B,
) -> io::Result<()>
    ensures whole { OnOk result (Appends (E.contents err.old) (E.contents err.new)
        (refusal_text name.now position.now.line position.now.column (cause_in text.now cause.now))
        × Appends (B.contents bad.old) (B.contents bad.new) kept.now) }
    ensures part { OnErr result (AppendsPrefix (E.contents err.old) (E.contents err.new)
        (refusal_text name.now position.now.line position.now.column (cause_in text.now cause.now))
        × AppendsPrefix (B.contents bad.old) (B.contents bad.new) kept.now) }
{
    write_error(alloc, name, position, text, cause, err)?;
    write_line(bad, kept)
}
