//! Values that are read at once.
ghost use Rattle.std.specs.Prelude.{◌≡◌, ◌≤◌, IfErr, IfOk, IsOkAnd, length, string_bytes};
ghost use Rattle.jiter.specs.Caller.{IsMemory, MovesOn, Node, Reads, anywhere, begin, int_view, next, number_view, reply_seen, str_read};
ghost use Rattle.jiter.specs.Caller.{text_bytes, value_place, view};
ghost use Rattle.jiter_walk.specs.Walk.{Comes, NeverOutOfMemory, Walks};
ghost use Rattle.jiter_walk.specs.Values.{bounded, flag_in, integer_between, integer_in, null_in};
ghost use Rattle.jiter_walk.specs.Values.{number_in, number_source_in, passed_in, source_in, text_in, tree_in};

use crate::walk_error::WalkError;
use jiter::{Jiter, JiterResult, JsonValue, NumberAny, NumberInt};
use std::alloc::Global;

fn read_text(alloc: Global, jiter: &mut Jiter<'_>) -> JiterResult<String>
    ensures reads { Reads anywhere string_bytes (reply_seen text_bytes (next jiter.old (str_read jiter.old)))
        result jiter.old jiter.new }
{
    let text = jiter.next_str(alloc)?;
    match String::from_str(alloc, text) {
        Ok(copy) => Ok(copy),
        Err(_) => Err(jiter.out_of_memory()),
    }
}

/// Returns a copy of the string that comes next.
///
/// # Errors
///
/// - `Reader` for an error in the bytes, for a value of another type at its first byte, and if memory runs out
pub fn next_text<C>(alloc: Global, jiter: &mut Jiter<'_>) -> Result<String, WalkError<C>>
    ensures { Walks string_bytes text_in result jiter.old jiter.new }
{
    Ok(read_text(alloc, jiter)?)
}

/// Returns whether `true` or `false` comes next.
///
/// # Errors
///
/// - `Reader` for an error in the bytes, and for a value of another type at its first byte
pub fn next_flag<C>(jiter: &mut Jiter<'_>) -> Result<bool, WalkError<C>>
    ensures walks { Walks (λ b. b) flag_in result jiter.old jiter.new }
    ensures never { NeverOutOfMemory result }
{
    Ok(jiter.next_bool()?)
}

/// Returns the integer that comes next.
///
/// # Errors
///
/// - `Reader` for an error in the bytes, and for a value of another type at its first byte
pub fn next_integer<'j, C>(jiter: &mut Jiter<'j>) -> Result<NumberInt<'j>, WalkError<C>>
    ensures walks { Walks int_view integer_in result jiter.old jiter.new }
    ensures never { NeverOutOfMemory result }
{
    Ok(jiter.next_int()?)
}

/// Returns the number that comes next.
///
/// # Errors
///
/// - `Reader` for an error in the bytes, and for a value of another type at its first byte
pub fn next_number<'j, C>(jiter: &mut Jiter<'j>) -> Result<NumberAny<'j>, WalkError<C>>
    ensures walks { Walks number_view number_in result jiter.old jiter.new }
    ensures never { NeverOutOfMemory result }
{
    Ok(jiter.next_number()?)
}

/// Returns the source of the number that comes next.
///
/// # Errors
///
/// - `Reader` for an error in the bytes, and for a value of another type at its first byte
pub fn next_number_source<'j, C>(jiter: &mut Jiter<'j>) -> Result<&'j [u8], WalkError<C>>
    ensures walks { Walks (λ x. x.now) number_source_in result jiter.old jiter.new }
    ensures never { NeverOutOfMemory result }
{
    Ok(jiter.next_number_bytes()?)
}

/// Returns the source of the value that comes next, whatever its type, without the whitespace around it. UTF-8 isn't
/// checked in it.
///
/// # Errors
///
/// - `Reader` for an error in the bytes
pub fn next_source<'j, C>(jiter: &mut Jiter<'j>) -> Result<&'j [u8], WalkError<C>>
    ensures walks { Walks (λ x. x.now) source_in result jiter.old jiter.new }
    ensures never { NeverOutOfMemory result }
{
    let at = next_place(jiter)?;
    skip(jiter)?;
    Ok(jiter.slice_to_current(at))
}

/// Returns the value that comes next, as a tree.
///
/// # Errors
///
/// - `Reader` for an error in the bytes, and if memory runs out
pub fn next_tree<'j, C>(alloc: Global, jiter: &mut Jiter<'j>) -> Result<JsonValue<'j>, WalkError<C>>
    ensures { Walks view tree_in result jiter.old jiter.new }
{
    Ok(jiter.next_value(alloc)?)
}

/// Moves past the `null` that comes next.
///
/// # Errors
///
/// - `Reader` for an error in the bytes, and for a value of another type at its first byte
pub fn next_null<C>(jiter: &mut Jiter<'_>) -> Result<(), WalkError<C>>
    ensures walks { Walks (λ u. u) null_in result jiter.old jiter.new }
    ensures never { NeverOutOfMemory result }
{
    Ok(jiter.next_null()?)
}

/// Skips the value that comes next, whatever its type. UTF-8 isn't checked in it.
///
/// # Errors
///
/// - `Reader` for an error in the bytes
pub fn skip<C>(jiter: &mut Jiter<'_>) -> Result<(), WalkError<C>>
    ensures walks { Walks (λ u. u) passed_in result jiter.old jiter.new }
    ensures never { NeverOutOfMemory result }
{
    Ok(jiter.next_skip()?)
}

pub fn bounded(number: NumberInt<'_>, low: u64, high: u64) -> Option<u64>
    ensures { result ≡ bounded low high (int_view number.entry) }
{
    match number {
        NumberInt::Int(number) if 0 <= number => {
            let number = number as u64;
            if low <= number && number <= high {
                Some(number)
            } else {
                None
            }
        }
        _ => None,
    }
}

/// Moves past whitespace and returns the index of the value that comes next, which is not read.
///
/// # Errors
///
/// - `EofWhileParsingValue` if only whitespace is left
pub fn next_place(jiter: &mut Jiter<'_>) -> JiterResult<usize>
    ensures moves { MovesOn jiter.old jiter.new }
    ensures comes { (n : Node) → Comes jiter.old n → Comes jiter.new n }
    ensures begins { (n : Node) → Comes jiter.old n → IsOkAnd result (λ at. at ≡ begin n) }
    ensures place { IfOk result (λ at. (at ≡ value_place jiter.old) × (jiter.new.position ≡ at)) }
    ensures index { IfErr result (λ e. e.index ≤ length jiter.old.text) }
    ensures memory { IfErr result (λ e. IsMemory e → ⊥) }
{
    let _peek = jiter.peek()?;
    Ok(jiter.current_index())
}

/// Returns the integer that comes next, from `low` to `high`.
///
/// An integer above `i64::MAX` counts as above `high`. To read all of a `u64`, call [`crate::next_integer_as`].
///
/// # Errors
///
/// - `Reader` for an error in the bytes, and for a value of another type at its first byte
/// - `Custom` with `cause` for another integer, at its first byte
pub fn next_integer_in<C: Drop>(
    jiter: &mut Jiter<'_>,
    low: u64,
    high: u64,
    cause: C,
) -> Result<u64, WalkError<C>>
    ensures walks { Walks (λ x. x) (integer_between low high cause) result jiter.old jiter.new }
    ensures range { IfOk result (λ x. (low ≤ x) × (x ≤ high)) }
    ensures never { NeverOutOfMemory result }
{
    let at = next_place(jiter)?;
    match bounded(next_integer(jiter)?, low, high) {
        Some(number) => Ok(number),
        None => Err(WalkError::Custom(cause, at)),
    }
}
