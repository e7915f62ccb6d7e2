//! Lines and columns of a document in chunks, for C.
ghost use Rattle.std.specs.Prelude.{◌≡◌, [], List, None, Some, false, true, ℕ};
ghost use Rattle.jiter_incremental.specs.LineIndex.{HasPassed};
ghost use Rattle.jiter_scan.specs.Position.{position_of};
ghost use Rattle.jiter_c.specs.Faults.{position_view};
ghost use Rattle.jiter_c.specs.Holding.{HoldsLines, MatchLines};
ghost use Rattle.jiter_c.specs.Lines.{Passes};

use crate::faults::JiterPosition;
use crate::handles::{Contents, JiterHandle, close, fill, open};
use core::mem::replace_with;
use jiter::LinePosition;
use jiter_incremental::LineIndex;
use std::alloc::Global;

/// Gives the handle a new line index, of no bytes. What it held before is freed.
#[unsafe(no_mangle)]
pub extern "C" fn jiter_lines_begin(alloc: Global, handle: &mut JiterHandle)
    ensures { HoldsLines handle.new.value (λ l. HasPassed l []) }
{
    fill(handle, Contents::Lines(LineIndex::new(alloc)));
}

fn push_handle(handle: JiterHandle, chunk: &[u8]) -> (JiterHandle, bool)
    ensures { Passes handle.value result.0.value chunk.now result.1 }
{
    let mut contents = open(handle);
    let done = match &mut *contents {
        Contents::Lines(lines) => lines.push(chunk).is_ok(),
        _ => false,
    };
    (close(contents), done)
}

/// Takes a chunk: the bytes that follow those so far.
///
/// # Errors
///
/// Returns `false` and takes no byte:
///
/// - if an allocation fails, only for a chunk with a line feed
/// - if the number of bytes would exceed the largest `size_t`, or the handle holds no line index
#[unsafe(no_mangle)]
pub extern "C" fn jiter_lines_push(handle: &mut JiterHandle, chunk: &[u8]) -> bool
    ensures { Passes handle.old.value handle.new.value chunk.now result }
{
    replace_with(handle, chunk, |handle, chunk| push_handle(handle, chunk))
}

fn position_in(handle: JiterHandle, index: usize) -> (JiterHandle, Option<JiterPosition>)
    ensures same { result.0.value ≡ handle.value }
    ensures position { MatchLines handle.value (result.1 ≡ None) (λ l. (t : List ℕ) → HasPassed l t
        → result.1 ≡ Some (position_view (position_of t index))) }
{
    let contents = open(handle);
    let position = match &*contents {
        Contents::Lines(lines) => {
            let LinePosition { line, column } = lines.position(index);
            Some(JiterPosition { line, column })
        }
        _ => None,
    };
    (close(contents), position)
}

/// Writes the line and column of a byte index in all bytes so far to `position`, as [`crate::faults::jiter_position`]
/// does.
///
/// # Errors
///
/// Returns `false` and writes nothing if the handle holds no line index.
#[unsafe(no_mangle)]
pub extern "C" fn jiter_lines_position(
    handle: &mut JiterHandle,
    index: usize,
    position: &mut JiterPosition,
) -> bool
    ensures same { handle.new.value ≡ handle.old.value }
    ensures position { MatchLines handle.old.value ((result ≡ false) × (position.new ≡ position.old))
        (λ l. (t : List ℕ) → HasPassed l t
        → (result ≡ true) × (position.new ≡ position_view (position_of t index))) }
{
    let Some(found) = replace_with(handle, index, |handle, index| position_in(handle, index)) else {
        return false;
    };
    *position = found;
    true
}
