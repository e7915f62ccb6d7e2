//! The reader's steps through objects.
ghost use Rattle.std.specs.Prelude.{◌≡◌, false, length};
ghost use Rattle.jiter.specs.Jiter.{reply_seen};
ghost use Rattle.jiter.specs.Reader.{value_place};
ghost use Rattle.jiter.specs.Reads.{first_key_memory, next_key_memory};
ghost use Rattle.jiter_steps.specs.StringReading.{raw, whole};
ghost use Rattle.jiter_c.specs.Replies.{has_part, key_reply, object_reply, or_empty, state_of};
ghost use Rattle.jiter_c.specs.Reports.{Reports, RunsOutAt, UnlessMemory, WhereMemory, given_or, written};

use crate::faults::{JiterFault, fault_of};
use crate::reader::{JiterReader, answer, jiter_at};
use crate::texts::{JiterText, write_prefix};
use std::alloc::Global;

/// Steps into the next object and writes its first key, decoded, to `out`.
///
/// `out` gets as much of the key as fits, `count` its complete length. `more` is whether the object has a member. Its
/// colon is consumed, so its value comes next. Otherwise the length is 0, and the reader is after the object.
///
/// # Errors
///
/// Returns `false` and writes to `fault`:
///
/// - the error that [`jiter::Jiter::next_object`] returns; the reader is then where that call leaves it
/// - out of memory, only for a key with a backslash; the reader is then at that key
#[unsafe(no_mangle)]
pub extern "C" fn jiter_next_object(
    alloc: Global,
    reader: &mut JiterReader<'_>,
    more: &mut bool,
    out: &mut [u8],
    count: &mut usize,
    fault: &mut JiterFault,
) -> bool
    ensures reports { UnlessMemory result fault.new
        (Reports (object_reply whole reader.old) result reader.old reader.new fault.old fault.new) }
    ensures more { UnlessMemory result fault.new
        (more.new ≡ given_or more.old (reply_seen has_part (object_reply whole reader.old))) }
    ensures key { UnlessMemory result fault.new (out.new ≡ given_or out.old
        (reply_seen (λ key. written (or_empty key) out.old) (object_reply whole reader.old))) }
    ensures count { UnlessMemory result fault.new (count.new ≡ given_or count.old
        (reply_seen (λ key. length (or_empty key)) (object_reply whole reader.old))) }
    ensures memory { WhereMemory result fault.new (RunsOutAt
        (first_key_memory reader.old.bytes.now (value_place (state_of reader.old))) reader.old reader.new fault.new) }
    ensures kept { result ≡ false → (more.new ≡ more.old) × (out.new ≡ out.old) × (count.new ≡ count.old) }
{
    let mut jiter = jiter_at(reader);
    let given = match jiter.next_object(alloc) {
        Ok(key) => {
            *more = key.is_some();
            *count = write_prefix(out, key.unwrap_or("").as_bytes());
            true
        }
        Err(error) => {
            *fault = fault_of(&error);
            false
        }
    };
    reader.index = jiter.current_index();
    given
}

/// Moves past the comma after a member and writes the next key, decoded, to `out`.
///
/// `out` gets as much of the key as fits, `count` its complete length. `more` is whether the object has another member.
/// Its colon is consumed, so its value comes next. Otherwise the length is 0, and the reader is after the object.
///
/// # Errors
///
/// Returns `false` and writes to `fault`:
///
/// - the error that [`jiter::Jiter::next_key`] returns; the reader is then where that call leaves it
/// - out of memory, only for a key with a backslash; the reader is then at that key
#[unsafe(no_mangle)]
pub extern "C" fn jiter_next_key(
    alloc: Global,
    reader: &mut JiterReader<'_>,
    more: &mut bool,
    out: &mut [u8],
    count: &mut usize,
    fault: &mut JiterFault,
) -> bool
    ensures reports { UnlessMemory result fault.new
        (Reports (key_reply whole reader.old) result reader.old reader.new fault.old fault.new) }
    ensures more { UnlessMemory result fault.new
        (more.new ≡ given_or more.old (reply_seen has_part (key_reply whole reader.old))) }
    ensures key { UnlessMemory result fault.new (out.new ≡ given_or out.old
        (reply_seen (λ key. written (or_empty key) out.old) (key_reply whole reader.old))) }
    ensures count { UnlessMemory result fault.new (count.new ≡ given_or count.old
        (reply_seen (λ key. length (or_empty key)) (key_reply whole reader.old))) }
    ensures memory { WhereMemory result fault.new
        (RunsOutAt (next_key_memory (state_of reader.old)) reader.old reader.new fault.new) }
    ensures kept { result ≡ false → (more.new ≡ more.old) × (out.new ≡ out.old) × (count.new ≡ count.old) }
{
    let mut jiter = jiter_at(reader);
    let given = match jiter.next_key(alloc) {
        Ok(key) => {
            *more = key.is_some();
            *count = write_prefix(out, key.unwrap_or("").as_bytes());
            true
        }
        Err(error) => {
            *fault = fault_of(&error);
            false
        }
    };
    reader.index = jiter.current_index();
    given
}

/// Steps into the next object as [`jiter_next_object`] does, and sets `key` to the bytes between the key's quotes.
///
/// Escapes are checked and not decoded, and UTF-8 is not checked. Does not allocate.
///
/// # Errors
///
/// Returns `false` and writes to `fault`:
///
/// - the error that [`jiter::Jiter::next_object_bytes`] returns; the reader is then where that call leaves it
#[unsafe(no_mangle)]
pub extern "C" fn jiter_next_object_bytes<'j>(
    reader: &mut JiterReader<'j>,
    more: &mut bool,
    key: &mut JiterText<'j>,
    fault: &mut JiterFault,
) -> bool
    ensures reports { Reports (object_reply raw reader.old) result reader.old reader.new
        fault.old fault.new }
    ensures more { more.new
        ≡ given_or more.old (reply_seen has_part (object_reply raw reader.old)) }
    ensures key { key.new.bytes.now
        ≡ given_or key.old.bytes.now (reply_seen or_empty (object_reply raw reader.old)) }
{
    let mut jiter = jiter_at(reader);
    let read = jiter.next_object_bytes();
    let Some(name) = answer(reader, &jiter, read, fault) else {
        return false;
    };
    *more = name.is_some();
    *key = JiterText {
        bytes: name.unwrap_or(b""),
    };
    true
}

/// Moves to the next key as [`jiter_next_key`] does, and sets `key` to the bytes between its quotes.
///
/// Escapes are checked and not decoded, and UTF-8 is not checked. Does not allocate.
///
/// # Errors
///
/// Returns `false` and writes to `fault`:
///
/// - the error that [`jiter::Jiter::next_key_bytes`] returns; the reader is then where that call leaves it
#[unsafe(no_mangle)]
pub extern "C" fn jiter_next_key_bytes<'j>(
    reader: &mut JiterReader<'j>,
    more: &mut bool,
    key: &mut JiterText<'j>,
    fault: &mut JiterFault,
) -> bool
    ensures reports { Reports (key_reply raw reader.old) result reader.old reader.new
        fault.old fault.new }
    ensures more { more.new ≡ given_or more.old (reply_seen has_part (key_reply raw reader.old)) }
    ensures key { key.new.bytes.now
        ≡ given_or key.old.bytes.now (reply_seen or_empty (key_reply raw reader.old)) }
{
    let mut jiter = jiter_at(reader);
    let read = jiter.next_key_bytes();
    let Some(name) = answer(reader, &jiter, read, fault) else {
        return false;
    };
    *more = name.is_some();
    *key = JiterText {
        bytes: name.unwrap_or(b""),
    };
    true
}
