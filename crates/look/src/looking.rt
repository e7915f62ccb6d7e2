//! The complete program, over its arguments, one reader and two writers.
ghost use Rattle.std.specs.Prelude.{◌≡◌, map, string_bytes};
ghost use Rattle.look.specs.Looking.{Looks, usage_line};
ghost use Rattle.look.specs.Words.{words_of};

use crate::asking::words;
use crate::running::run;
use jiter_print::write_line;
use std::alloc::Global;
use std::io::{Read, Write};

const USAGE: &str = "usage: look off|on|trailing-strings [inf-nan] [unique]\n";

/// Runs as the arguments ask, or writes the usage line to `err` if they are wrong. Returns the exit status.
///
/// - 0 if the value was written to `out`
/// - 1 if the description of the error was written to `err`
/// - 2 if the usage line was written
/// - 3 if a read, a write or an allocation failed
pub fn look<R: Read, O: Write, E: Write>(
    alloc: Global,
    list: &[String],
    reader: &mut R,
    out: &mut O,
    err: &mut E,
) -> u8
    ensures { Looks (words_of (map string_bytes list.now)) (R.remaining reader.old) result
        (O.contents out.old) (O.contents out.new) (E.contents err.old) (E.contents err.new) }
{
    match words(list) {
        Some(asked) => run(
            alloc,
            reader,
            out,
            err,
            asked.mode,
            asked.inf_nan,
            asked.unique,
        )
        .status(),
        None => match write_line(err, USAGE.as_bytes()) {
            Ok(()) => 2,
            Err(_) => 3,
        },
    }
}
