//! The pull reader.
ghost use Rattle.std.specs.Prelude.{◌≤◌};
ghost use Rattle.jiter.specs.Caller.{StandsAt, byte_of};
ghost use Rattle.jiter_scan.specs.Ascii as ascii;

use jiter::{Jiter, JiterResult, JsonValue, LinePosition, NumberAny, NumberInt, Peek};
use std::alloc::{AllocError, Global};

/// Makes readers with their settings, a copy and a buffer.
pub fn made<'j>(alloc: Global, bytes: &'j [u8], tape: Vec<u8>) -> Result<Vec<u8>, AllocError> {
    let first: Jiter<'j> = Jiter::new(bytes);
    let second: Jiter<'j> = Jiter::with_tape(bytes, tape);
    let third: Jiter<'j> = first.with_allow_inf_nan().with_allow_partial_strings();
    let _: Jiter<'j> = third.clone()?;
    Ok(second.into_tape(alloc))
}

/// Returns a reader's position in each form; requires `start` at or before it.
pub fn places<'j>(jiter: &Jiter<'j>, start: usize) -> (usize, LinePosition, LinePosition, &'j [u8])
    requires { start ≤ jiter.now.position }
{
    let bytes: &'j [u8] = jiter.slice_to_current(start);
    (
        jiter.current_index(),
        jiter.current_position(),
        jiter.error_position(start),
        bytes,
    )
}

/// Reads literals.
pub fn literals(jiter: &mut Jiter<'_>) -> JiterResult<bool> {
    let _: () = jiter.next_null()?;
    jiter.next_bool()
}

/// Reads numbers.
pub fn numbers<'j>(jiter: &mut Jiter<'j>) -> JiterResult<(NumberAny<'j>, NumberInt<'j>)> {
    let number: NumberAny<'j> = jiter.next_number()?;
    let integer: NumberInt<'j> = jiter.next_int()?;
    Ok((number, integer))
}

/// Reads the bytes of a number and of a string.
pub fn bytes<'j>(jiter: &mut Jiter<'j>) -> JiterResult<(&'j [u8], &'j [u8])> {
    let number: &'j [u8] = jiter.next_number_bytes()?;
    let text: &'j [u8] = jiter.next_bytes()?;
    Ok((number, text))
}

/// Reads a string.
pub fn text(alloc: Global, jiter: &mut Jiter<'_>) -> JiterResult<usize> {
    let text: &str = jiter.next_str(alloc)?;
    Ok(text.len())
}

/// Skips a value, and reads two.
pub fn values<'j>(
    alloc: Global,
    jiter: &mut Jiter<'j>,
) -> JiterResult<(JsonValue<'j>, JsonValue<'static>)> {
    let _: () = jiter.next_skip()?;
    let value: JsonValue<'j> = jiter.next_value(alloc)?;
    let owned: JsonValue<'static> = jiter.next_value_owned(alloc)?;
    Ok((value, owned))
}

/// Steps through an array, and finishes.
pub fn array(jiter: &mut Jiter<'_>) -> JiterResult<()> {
    let _: Option<Peek> = jiter.next_array()?;
    let _: Option<Peek> = jiter.array_step()?;
    jiter.finish()
}

/// Reads the first key of an object.
pub fn object(alloc: Global, jiter: &mut Jiter<'_>) -> JiterResult<bool> {
    let first: Option<&str> = jiter.next_object(alloc)?;
    Ok(first.is_some())
}

/// Reads the next key.
pub fn key(alloc: Global, jiter: &mut Jiter<'_>) -> JiterResult<bool> {
    let next: Option<&str> = jiter.next_key(alloc)?;
    Ok(next.is_some())
}

/// Reads the bytes of the first and the next key.
pub fn object_bytes<'j>(
    jiter: &mut Jiter<'j>,
) -> JiterResult<(Option<&'j [u8]>, Option<&'j [u8]>)> {
    let first: Option<&'j [u8]> = jiter.next_object_bytes()?;
    let next: Option<&'j [u8]> = jiter.next_key_bytes()?;
    Ok((first, next))
}

/// Reads scalars after a peek.
pub fn known_scalars<'j>(jiter: &mut Jiter<'j>) -> JiterResult<(bool, NumberAny<'j>)> {
    let peek: Peek = jiter.peek()?;
    let truth: bool = jiter.known_bool(peek)?;
    let peek: Peek = jiter.peek()?;
    let number: NumberAny<'j> = jiter.known_number(peek)?;
    Ok((truth, number))
}

/// Reads an integer and the bytes of a number after a peek.
pub fn known_numbers<'j>(jiter: &mut Jiter<'j>) -> JiterResult<(NumberInt<'j>, &'j [u8])> {
    let peek: Peek = jiter.peek()?;
    let integer: NumberInt<'j> = jiter.known_int(peek)?;
    let peek: Peek = jiter.peek()?;
    let bytes: &'j [u8] = jiter.known_number_bytes(peek)?;
    Ok((integer, bytes))
}

/// Reads values after a peek.
pub fn known_values<'j>(
    alloc: Global,
    jiter: &mut Jiter<'j>,
) -> JiterResult<(JsonValue<'j>, JsonValue<'static>)> {
    let peek: Peek = jiter.peek()?;
    let value: JsonValue<'j> = jiter.known_value(alloc, peek)?;
    let peek: Peek = jiter.peek()?;
    let owned: JsonValue<'static> = jiter.known_value_owned(alloc, peek)?;
    Ok((value, owned))
}

/// Skips a value after a peek.
pub fn known_skip(jiter: &mut Jiter<'_>) -> JiterResult<()> {
    let peek: Peek = jiter.peek()?;
    jiter.known_skip(peek)
}

/// Reads `null`; requires `n` as the next byte.
pub fn known_null(jiter: &mut Jiter<'_>) -> JiterResult<()>
    requires { StandsAt jiter.old ascii.small_n }
{
    jiter.known_null()
}

/// Reads a string; requires a quote as the next byte.
pub fn known_text(alloc: Global, jiter: &mut Jiter<'_>) -> JiterResult<usize>
    requires { StandsAt jiter.old ascii.quote }
{
    let text: &str = jiter.known_str(alloc)?;
    Ok(text.len())
}

/// Reads the bytes of a string; requires a quote as the next byte.
pub fn known_bytes<'j>(jiter: &mut Jiter<'j>) -> JiterResult<&'j [u8]>
    requires { StandsAt jiter.old ascii.quote }
{
    jiter.known_bytes()
}

/// Begins an array; requires `[` as the next byte.
pub fn known_array(jiter: &mut Jiter<'_>) -> JiterResult<Option<Peek>>
    requires { StandsAt jiter.old ascii.left_bracket }
{
    jiter.known_array()
}

/// Begins an object; requires `{` as the next byte.
pub fn known_object(alloc: Global, jiter: &mut Jiter<'_>) -> JiterResult<bool>
    requires { StandsAt jiter.old ascii.left_brace }
{
    let first: Option<&str> = jiter.known_object(alloc)?;
    Ok(first.is_some())
}
