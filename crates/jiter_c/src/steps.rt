//! The reader's steps through arrays.
ghost use Rattle.std.specs.Prelude.{◌≡◌};
ghost use Rattle.jiter_c.specs.Replies.{array_reply, item_reply};
ghost use Rattle.jiter_c.specs.Reports.{Reports, given_or};

use crate::faults::JiterFault;
use crate::reader::{JiterReader, answer, jiter_at};

/// Steps into the next array.
///
/// `more` is whether it has an item, which comes next. Otherwise the reader is after the array.
///
/// # Errors
///
/// Returns `false` and writes to `fault`:
///
/// - the error that [`jiter::Jiter::next_array`] returns; the reader is then where that call leaves it
#[unsafe(no_mangle)]
pub extern "C" fn jiter_next_array(
    reader: &mut JiterReader<'_>,
    more: &mut bool,
    fault: &mut JiterFault,
) -> bool
    ensures reports { Reports (array_reply reader.old) result reader.old reader.new fault.old fault.new }
    ensures more { more.new ≡ given_or more.old (array_reply reader.old) }
{
    let mut jiter = jiter_at(reader);
    let read = jiter.next_array();
    let Some(item) = answer(reader, &jiter, read, fault) else {
        return false;
    };
    *more = item.is_some();
    true
}

/// Moves past the comma after an item.
///
/// `more` is whether another item comes next. Otherwise the reader is after the array.
///
/// # Errors
///
/// Returns `false` and writes to `fault`:
///
/// - the error that [`jiter::Jiter::array_step`] returns; the reader is then where that call leaves it
#[unsafe(no_mangle)]
pub extern "C" fn jiter_array_step(
    reader: &mut JiterReader<'_>,
    more: &mut bool,
    fault: &mut JiterFault,
) -> bool
    ensures reports { Reports (item_reply reader.old) result reader.old reader.new fault.old fault.new }
    ensures more { more.new ≡ given_or more.old (item_reply reader.old) }
{
    let mut jiter = jiter_at(reader);
    let read = jiter.array_step();
    let Some(item) = answer(reader, &jiter, read, fault) else {
        return false;
    };
    *more = item.is_some();
    true
}
