//! A complete run, over one reader and two writers.
ghost use Rattle.std.specs.Prelude.{◌≡◌, [], List, ℕ, true, IfOk, IfSome, OnErr, OnOk};
ghost use Rattle.std.specs.Io.KnownBytes.{Appends};
ghost use Rattle.jiter.specs.Caller.{answer_in, is_active, IsBegunContainer};
ghost use Rattle.jiter_print.specs.Written.{AppendsPrefix};
ghost use Rattle.json_screen.specs.Arrived.{HasArrived, ReadsAs};
ghost use Rattle.json_screen.specs.declared.input.Options.{Options};
ghost use Rattle.viewer.specs.Shown.{BreaksOff, EndsAs, Finishes, IsLineOfCut, last_line, look, new_line, Ran, ShowsPrefix, ShowsRead};
ghost use Rattle.viewer.specs.Shown.{shown_at_end, value_line, WritesChange};
ghost use Rattle.viewer.specs.declared.view.Output.TheVariants.{Rows};

use jiter_incremental::IncrementalParser;
use jiter_print::{print, write_line};
use json_screen::{Input, Options, Shown, error_report, redraw, rows_of};
use std::alloc::{AllocError, Global};
use std::io;
use std::io::{ErrorKind, Read, Write};

/// What is written of a document.
#[derive(Clone, Copy)]
pub enum Output {
    /// The value's line, once, at the end of the input.
    Value,
    /// A line for each change, at once.
    Lines,
    /// Rows on a terminal, of so many columns, in place.
    Rows(usize),
}

/// How a document is read and shown.
#[derive(Clone, Copy)]
pub struct Settings<'a> {
    /// The input's name in its error.
    pub name: &'a str,
    /// How the document is read.
    pub options: Options,
    /// What is written.
    pub output: Output,
}

/// Reads the input to its end, and shows the document.
///
/// - `Rows`: it is shown in place, indented, with the text around it. After each read the screen ends with the rows of the
///   input so far; the closing brackets that haven't come are dim. An input whose document has an error is shown as it is.
/// - `Lines`: after each read, the compact text of the value so far is written if its line differs from the last one.
/// - `Value`: the compact text of the value is written once, at the end of the input. For a document that ends early it is
///   the value so far.
///
/// Returns whether the input has a document, and no other one right after it. If not, the error is written to `err`, with
/// the line and a caret under the column.
///
/// # Errors
///
/// - the error of a failed read or write; an interrupted read or write is repeated
/// - `OutOfMemory` if an allocation fails
///
/// After an error, a prefix of this output is written.
pub fn run<R: Read, O: Write, E: Write>(
    alloc: Global,
    settings: Settings<'_>,
    reader: &mut R,
    out: &mut O,
    err: &mut E,
) -> io::Result<bool>
    ensures wrote { IfSome (R.remaining reader.old) (λ t. Ran settings.entry t result
        (O.contents out.old) (O.contents out.new) (E.contents err.old) (E.contents err.new)) }
    ensures document { IfSome (R.remaining reader.old) (λ t. EndsAs settings.entry.options.inf_nan t result) }
    ensures cut { is_active settings.entry.options.mode ≡ true → (prefix : List ℕ)
        → (f : IsBegunContainer settings.entry.options.inf_nan prefix)
        → IsLineOfCut settings.entry.options f
        (value_line (answer_in settings.entry.options.inf_nan settings.entry.options.mode prefix)) }
{
    let mut input = Input::new(alloc, settings.options);
    follow(alloc, settings.output, &mut input, reader, out)?;
    write_value(alloc, settings.output, &input, out)?;
    finish(alloc, settings, input, err)
}

// The number of reads is bounded, so that the loop provably ends.
#[tactic(auto, using(crate::proofs::Following::begins))]
fn follow<R: Read, O: Write>(
    alloc: Global,
    output: Output,
    input: &mut Input,
    reader: &mut R,
    out: &mut O,
) -> io::Result<()>
    ensures all { (options : Options) → HasArrived options input.old []
        → OnOk result (IfSome (R.remaining reader.old) (λ t. HasArrived options input.new t)) }
    ensures shown { (options : Options) → HasArrived options input.old []
        → OnOk result (IfSome (R.remaining reader.old) (λ t. ShowsRead output options t
        (O.contents out.old) (O.contents out.new))) }
    ensures prefix { (options : Options) → HasArrived options input.old []
        → OnErr result (IfSome (R.remaining reader.old) (λ t. ShowsPrefix output options t
        (O.contents out.old) (O.contents out.new))) }
{
    let mut last = Shown::new(alloc);
    let mut piece = [0; 4096];
    for _ in 0..u64::MAX {
        match reader.read(&mut piece) {
            Ok(0) => return Ok(()),
            Ok(count) => {
                input.take(&piece[..count])?;
                last = show(alloc, output, input, last, out)?;
            }
            Err(error) if error.kind() == ErrorKind::Interrupted => {}
            Err(error) => return Err(error),
        }
    }
    Err(io::Error::from(ErrorKind::Other))
}

// Returns what is shown now.
fn show<O: Write>(
    alloc: Global,
    output: Output,
    input: &Input,
    last: Shown,
    out: &mut O,
) -> io::Result<Shown>
    ensures whole { (options : Options) → (t : List ℕ) → HasArrived options input.now t → IfOk result (λ shown.
        WritesChange output options t (look last) (look shown) (O.contents out.old) (O.contents out.new)) }
    ensures prefix { (options : Options) → (t : List ℕ) → HasArrived options input.now t → OnErr result
        (BreaksOff output options t (look last) (O.contents out.old) (O.contents out.new)) }
{
    match output {
        Output::Value => Ok(last),
        Output::Lines => show_line(alloc, &input.document, last, out),
        Output::Rows(width) => show_rows(alloc, width, input, last, out),
    }
}

// Returns the line that was written last.
fn show_line<O: Write>(
    alloc: Global,
    document: &IncrementalParser,
    last: Shown,
    out: &mut O,
) -> io::Result<Shown>
    ensures last { (options : Options) → (t : List ℕ) → ReadsAs options document.now t → IfOk result (λ line. line.text.items
        ≡ last_line last.text.items (value_line (answer_in options.inf_nan options.mode t))) }
    ensures whole { (options : Options) → (t : List ℕ) → ReadsAs options document.now t
        → OnOk result (Appends (O.contents out.old) (O.contents out.new)
        (new_line last.text.items (value_line (answer_in options.inf_nan options.mode t)))) }
    ensures prefix { (options : Options) → (t : List ℕ) → ReadsAs options document.now t
        → OnErr result (AppendsPrefix (O.contents out.old) (O.contents out.new)
        (new_line last.text.items (value_line (answer_in options.inf_nan options.mode t)))) }
{
    let mut line = match document.value() {
        Ok(value) => print(alloc, value)?,
        Err(_) => return Ok(last),
    };
    line.push(b'\n')?;
    if line != last.text {
        write_line(out, line.as_slice())?;
    }
    Ok(Shown { text: line, ..last })
}

fn show_rows<O: Write>(
    alloc: Global,
    width: usize,
    input: &Input,
    last: Shown,
    out: &mut O,
) -> io::Result<Shown>
    ensures whole { (options : Options) → (t : List ℕ) → HasArrived options input.now t → IfOk result (λ shown.
        WritesChange (Rows width) options t (look last) (look shown) (O.contents out.old) (O.contents out.new)) }
    ensures prefix { (options : Options) → (t : List ℕ) → HasArrived options input.now t → OnErr result
        (BreaksOff (Rows width) options t (look last) (O.contents out.old) (O.contents out.new)) }
{
    let shown = rows_of(alloc, width, input)?;
    let drawn = redraw(alloc, &last, &shown)?;
    write_line(out, drawn.as_slice())?;
    Ok(shown)
}

fn write_value<O: Write>(
    alloc: Global,
    output: Output,
    input: &Input,
    out: &mut O,
) -> io::Result<()>
    ensures whole { (options : Options) → (t : List ℕ) → HasArrived options input.now t → OnOk result
        (Appends (O.contents out.old) (O.contents out.new) (shown_at_end output options t)) }
    ensures prefix { (options : Options) → (t : List ℕ) → HasArrived options input.now t → OnErr result
        (AppendsPrefix (O.contents out.old) (O.contents out.new) (shown_at_end output options t)) }
{
    if let Output::Value = output {
        show_line(alloc, &input.document, Shown::new(alloc), out)?;
    }
    Ok(())
}

fn finish<E: Write>(
    alloc: Global,
    settings: Settings<'_>,
    input: Input,
    err: &mut E,
) -> io::Result<bool>
    ensures { (t : List ℕ) → HasArrived settings.entry.options input t
        → Finishes settings.entry t result (E.contents err.old) (E.contents err.new) }
{
    let Some(report) = error_report(alloc, settings.name, input)? else {
        return Ok(true);
    };
    write_line(err, report.as_bytes())?;
    Ok(false)
}
