//! The rows of an input so far.
ghost use Rattle.std.specs.Prelude.{◌≡◌, List, ℕ, IfOk, OnOk};
ghost use Rattle.jiter.specs.Caller.{answer_in};
ghost use Rattle.json_screen.specs.Arrived.{HasArrived, ReadsAs};
ghost use Rattle.json_screen.specs.Rows.{filled, put_reading, rows_of};
ghost use Rattle.json_screen.specs.declared.input.Options.{Options};

use crate::input::Input;
use crate::screen::{Rows, Shown};
use jiter_print::print_pretty;
use std::alloc::{AllocError, Global};

/// Returns the rows of the input so far: the text before the document, the value so far, indented, with `…` at its open
/// place, and the text after it. The text from that `…` on is dim. A document with an error is shown as it is.
///
/// # Errors
///
/// - `AllocError` if an allocation fails
pub fn rows_of(alloc: Global, width: usize, input: &Input) -> Result<Shown, AllocError>
    ensures text { (options : Options) → (t : List ℕ) → HasArrived options input.now t
        → IfOk result (λ shown. shown.text.items ≡ (rows_of options width t).text) }
    ensures dim { (options : Options) → (t : List ℕ) → HasArrived options input.now t
        → IfOk result (λ shown. shown.mark ≡ (rows_of options width t).mark) }
{
    let mut rows = Rows::new(alloc, width);
    rows.append(alloc, input.before.as_slice())?;
    append_document(alloc, input, &mut rows)?;
    rows.append(alloc, input.after.as_slice())?;
    rows.end()?;
    let mark = rows.mark;
    Ok(Shown {
        text: rows.text.into_bytes(),
        mark,
    })
}

fn append_document(alloc: Global, input: &Input, rows: &mut Rows) -> Result<(), AllocError>
    ensures rows { (options : Options) → (t : List ℕ) → ReadsAs options input.now.document t → t ≡ input.now.inside.items
        → OnOk result (filled rows.new ≡ put_reading rows.old.width input.now.span.depth (filled rows.old) t
        (answer_in options.inf_nan options.mode t)) }
    ensures width { rows.new.width ≡ rows.old.width }
{
    let Ok(value) = input.document.value() else {
        return rows.append(alloc, input.inside.as_slice());
    };
    let text = print_pretty(alloc, value, 2)?;
    if input.span.depth == 0 {
        return rows.append(alloc, text.as_slice());
    }
    rows.append_marked(alloc, text.as_slice(), input.span.depth)
}
