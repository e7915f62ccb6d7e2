//! What becomes of a line.
ghost use Rattle.std.specs.Prelude.{◌≡◌, ℕ, List, IfOk, IfSome, string_bytes};
ghost use Rattle.jiter.specs.Caller.{position_of};
ghost use Rattle.jiter_walk.specs.Walk.{index_of, reason, reason_output};
ghost use Rattle.json_lines.specs.Line.{Seen, cause_in, refusal_text, seen};

use jiter_scan::LinePosition;
use jiter_walk::WalkError;
use std::alloc::{AllocError, Global};
use std::fmt;

const BYTE_ORDER_MARK: [u8; 3] = [0xef, 0xbb, 0xbf];

/// What a line becomes.
#[derive(Debug, Drop)]
pub enum Outcome {
    /// These bytes are written.
    Text(Vec<u8>),
    /// The line has an error: its column, in bytes from 1, and its cause.
    Refused(usize, String),
}

/// A program that makes something of each line of a log.
///
/// # Examples
///
/// Each line becomes the number of its bytes, and the prover checks that it does:
///
/// ```rust
/// ghost use Rattle.std.specs.Prelude.{◌≡◌, decimal, length};
/// ghost use Rattle.jiter_print.specs.Print.{with_line_feed};
/// ghost use Rattle.json_lines.specs.Line.{written};
///
/// struct Lengths;
///
/// impl Convert for Lengths {
///     ghost becomes = { λ _ line o. o ≡ written (with_line_feed (decimal (length line))) };
///
///     fn convert(&self, alloc: Global, line: &[u8]) -> Result<Outcome, AllocError> {
///         let text = format!(in alloc; "{}\n", line.len())?;
///         Ok(Outcome::Text(text.into_bytes()))
///     }
/// }
/// ```
///
/// [`crate::convert_logs`] reads the logs that the command line names and writes what their lines become.
pub trait Convert {
    // What a line may become.
    ghost becomes: { Self → List ℕ → Seen → Type 0 };

    /// Converts a line, without the `\n` or `\r\n` at its end.
    ///
    /// # Errors
    ///
    /// - `AllocError` if an allocation fails
    fn convert(&self, alloc: Global, line: &[u8]) -> Result<Outcome, AllocError>
        ensures { IfOk result (λ outcome. becomes self.now line.now (seen outcome)) };
}

/// Returns `NAME:LINE:COLUMN: CAUSE` and a line feed. If the text begins with a byte order mark, the line names it as the
/// cause: a byte order mark isn't JSON, and an editor doesn't show it.
///
/// # Errors
///
/// - `AllocError` if an allocation fails
pub fn refusal_line(
    alloc: Global,
    name: &str,
    position: &LinePosition,
    text: &[u8],
    cause: &str,
) -> Result<String, AllocError>
    ensures { IfOk result (λ line. string_bytes line
        ≡ refusal_text name.now position.now.line position.now.column (cause_in text.now cause.now)) }
{
    let LinePosition { line, column } = position;
    if text.starts_with(&BYTE_ORDER_MARK) {
        return format!(in alloc; "{name}:{line}:{column}: byte order mark\n");
    }
    format!(in alloc; "{name}:{line}:{column}: {cause}\n")
}

/// Returns the line of [`refusal_line`] for an error of a walk: its line and column in the text, and what it prints.
///
/// # Errors
///
/// - `AllocError` if an allocation fails
pub fn refusal_of<C: fmt::Display>(
    alloc: Global,
    name: &str,
    text: &[u8],
    error: &WalkError<C>,
) -> Result<String, AllocError>
    ensures { IfSome (reason_output C.output (reason error.now)) (λ cause. IfOk result (λ line. string_bytes line
        ≡ refusal_text name.now (position_of text.now (index_of error.now)).line
        (position_of text.now (index_of error.now)).column (cause_in text.now cause))) }
{
    let cause = format!(in alloc; "{error}")?;
    refusal_line(alloc, name, &error.position(text), text, cause.as_str())
}
