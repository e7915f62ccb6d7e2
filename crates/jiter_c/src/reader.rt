//! The reader that C holds: its peek, its skip and its end.
ghost use Rattle.std.specs.Prelude.{◌≡◌};
ghost use Rattle.std.specs.Result.{result_ok};
ghost use Rattle.jiter.specs.Jiter.{byte_of};
ghost use Rattle.jiter.specs.Reader.{finish, skip_read};
ghost use Rattle.jiter_steps.specs.Literal.{start_of};
ghost use Rattle.jiter_c.specs.Replies.{next_reply, peek_reply, start_number, state_of};
ghost use Rattle.jiter_c.specs.Reports.{Reports, error_or, given_or};

use crate::faults::{JiterFault, fault_of};
use jiter::{Jiter, JiterResult, Peek};

/// A reader: bytes, a position in them and two settings. The caller owns it, and a copy of it is another reader.
#[repr(C)]
#[derive(Clone, Copy)]
pub struct JiterReader<'j> {
    /// The bytes to read.
    pub bytes: &'j [u8],
    /// The reader's position: a byte index from 0. An index past the length counts as the length.
    pub index: usize,
    /// Whether `NaN`, `Infinity` and `-Infinity` are numbers.
    pub allow_inf_nan: bool,
    /// Whether a string may be unterminated, as [`jiter::Jiter::with_allow_partial_strings`] says.
    pub allow_partial_strings: bool,
}

// C's struct owns no memory: each call makes a reader of the library from it.
pub fn jiter_at<'j>(reader: &JiterReader<'j>) -> Jiter<'j>
    ensures { result ≡ state_of reader.now }
{
    let mut jiter = Jiter::new_at(reader.bytes, reader.index.min(reader.bytes.len()));
    if reader.allow_inf_nan {
        jiter = jiter.with_allow_inf_nan();
    }
    if reader.allow_partial_strings {
        jiter = jiter.with_allow_partial_strings();
    }
    jiter
}

/// Moves past whitespace and writes to `start` what the next byte begins, by the numbers of `jiter_c.h`.
///
/// # Errors
///
/// Returns `false` and writes to `fault`:
///
/// - the error that [`jiter::Jiter::peek`] returns; the reader is then at the end
#[unsafe(no_mangle)]
pub extern "C" fn jiter_peek(
    reader: &mut JiterReader<'_>,
    start: &mut u32,
    fault: &mut JiterFault,
) -> bool
    ensures reports { Reports (peek_reply reader.old) result reader.old reader.new fault.old fault.new }
    ensures value { start.new ≡ given_or start.old (peek_reply reader.old) }
    ensures again { peek_reply reader.new ≡ peek_reply reader.old }
{
    let mut jiter = jiter_at(reader);
    let read = jiter.peek();
    let Some(peek) = answer(reader, &jiter, read, fault) else {
        return false;
    };
    *start = start_number(peek);
    true
}

// The first byte does not show whether a number is an integer: all numbers are 8.
fn start_number(peek: Peek) -> u32
    ensures { result ≡ start_number (start_of (byte_of peek)) }
{
    match peek.into_inner() {
        b'n' => 1,
        b't' | b'f' => 2,
        b'"' => 5,
        b'[' => 6,
        b'{' => 7,
        b'0'..=b'9' | b'-' | b'N' | b'I' => 8,
        _ => 0,
    }
}

/// Skips the next value, whatever its type. UTF-8 is not checked.
///
/// # Errors
///
/// Returns `false` and writes to `fault`:
///
/// - the error that [`jiter::Jiter::next_skip`] returns; the reader is then where that call leaves it
#[unsafe(no_mangle)]
pub extern "C" fn jiter_next_skip(reader: &mut JiterReader<'_>, fault: &mut JiterFault) -> bool
    ensures { Reports (next_reply reader.old skip_read) result reader.old reader.new fault.old fault.new }
{
    let mut jiter = jiter_at(reader);
    let read = jiter.next_skip();
    answer(reader, &jiter, read, fault).is_some()
}

/// Checks that only whitespace is left, and moves to the end.
///
/// # Errors
///
/// Returns `false` and writes to `fault`:
///
/// - the error that [`jiter::Jiter::finish`] returns; the reader is then at the byte that is left
#[unsafe(no_mangle)]
pub extern "C" fn jiter_finish(reader: &mut JiterReader<'_>, fault: &mut JiterFault) -> bool
    ensures { Reports (finish (state_of reader.old)) result reader.old reader.new fault.old fault.new }
{
    let mut jiter = jiter_at(reader);
    let read = jiter.finish();
    answer(reader, &jiter, read, fault).is_some()
}

/// Moves the reader to where a call left the library's, and returns what the call returned, or writes its error.
pub fn answer<T: Drop>(
    reader: &mut JiterReader<'_>,
    jiter: &Jiter<'_>,
    read: JiterResult<T>,
    fault: &mut JiterFault,
) -> Option<T>
    ensures place { reader.new ≡ record reader.old { index = jiter.now.position } }
    ensures given { result ≡ result_ok read }
    ensures fault { fault.new ≡ error_or fault.old read }
{
    reader.index = jiter.current_index();
    report(read, fault)
}

/// Returns what a call returned, or writes its error.
pub fn report<T: Drop>(read: JiterResult<T>, fault: &mut JiterFault) -> Option<T>
    ensures given { result ≡ result_ok read }
    ensures fault { fault.new ≡ error_or fault.old read }
{
    match read {
        Ok(given) => Some(given),
        Err(error) => {
            *fault = fault_of(&error);
            None
        }
    }
}
