//! Integers of a type.
ghost use Rattle.std.specs.Prelude.{◌≡◌, neg_ℤ, ℕ, ℤ, Option, pos};
ghost use Rattle.jiter.specs.Caller.{Number, int_view};
ghost use Rattle.jiter_walk.specs.Integers.{signed, signed_bounded, unsigned};
ghost use Rattle.jiter_walk.specs.Meanings.{integer_by};
ghost use Rattle.jiter_walk.specs.Values.{bounded, fitting};
ghost use Rattle.jiter_walk.specs.Walk.{NeverOutOfMemory, Walks};

use crate::scalars::{bounded, next_integer, next_place};
use crate::value::Value;
use crate::walk_error::WalkError;
use jiter::{Jiter, NumberInt};
use std::alloc::Global;

/// A type of integers.
pub trait Integer: Drop {
    // The integers that fit.
    ghost fit: { Number → Option Self };

    /// Returns the integer, or `None` if it doesn't fit.
    fn of_number(number: NumberInt<'_>) -> Option<Self>
        ensures { result ≡ fit (int_view number.entry) };
}

/// Returns the integer that comes next, if it fits in the type.
///
/// # Errors
///
/// - `Reader` for an error in the bytes, and for a value of another type at its first byte
/// - `Custom` with `cause` for another integer, at its first byte
///
/// # Examples
///
/// ```rust
/// "port" => self.port = Some(next_integer_as(jiter, Unfit::Port)?),
/// ```
pub fn next_integer_as<T: Integer, C: Drop>(
    jiter: &mut Jiter<'_>,
    cause: C,
) -> Result<T, WalkError<C>>
    ensures walks { Walks (λ x. x) (fitting T.fit cause) result jiter.old jiter.new }
    ensures never { NeverOutOfMemory result }
{
    let at = next_place(jiter)?;
    match T::of_number(next_integer(jiter)?) {
        Some(number) => Ok(number),
        None => Err(WalkError::Custom(cause, at)),
    }
}

/// A cause that an integer doesn't fit in its type. With one, integers are a [`Value`].
pub trait OutOfRange: Drop {
    ghost out_of_range: { Self };

    /// Returns the cause.
    fn out_of_range() -> Self
        ensures { result ≡ out_of_range };
}

fn signed_bounded(number: NumberInt<'_>, low: i64, high: i64) -> Option<i64>
    ensures { result ≡ signed_bounded low high (int_view number.entry) }
{
    match number {
        NumberInt::Int(number) if low <= number && number <= high => Some(number),
        _ => None,
    }
}

impl Integer for u8 {
    ghost fit = { bounded 0 255 };

    fn of_number(number: NumberInt<'_>) -> Option<u8> {
        Some(bounded(number, 0, 255)? as u8)
    }
}

impl Integer for u16 {
    ghost fit = { bounded 0 65535 };

    fn of_number(number: NumberInt<'_>) -> Option<u16> {
        Some(bounded(number, 0, 65535)? as u16)
    }
}

impl Integer for u32 {
    ghost fit = { bounded 0 4294967295 };

    fn of_number(number: NumberInt<'_>) -> Option<u32> {
        Some(bounded(number, 0, 4294967295)? as u32)
    }
}

impl Integer for u64 {
    ghost fit = { unsigned };

    fn of_number(number: NumberInt<'_>) -> Option<u64> {
        match number {
            NumberInt::Int(number) => {
                if number < 0 {
                    None
                } else {
                    Some(number as u64)
                }
            }
            NumberInt::BigInt(text) => text.parse::<u64>().ok(),
        }
    }
}

impl Integer for i8 {
    ghost fit = { signed_bounded (neg_ℤ (pos 128)) (pos 127) };

    fn of_number(number: NumberInt<'_>) -> Option<i8> {
        Some(signed_bounded(number, -128, 127)? as i8)
    }
}

impl Integer for i16 {
    ghost fit = { signed_bounded (neg_ℤ (pos 32768)) (pos 32767) };

    fn of_number(number: NumberInt<'_>) -> Option<i16> {
        Some(signed_bounded(number, -32768, 32767)? as i16)
    }
}

impl Integer for i32 {
    ghost fit = { signed_bounded (neg_ℤ (pos 2147483648)) (pos 2147483647) };

    fn of_number(number: NumberInt<'_>) -> Option<i32> {
        Some(signed_bounded(number, -2147483648, 2147483647)? as i32)
    }
}

impl Integer for i64 {
    ghost fit = { signed };

    fn of_number(number: NumberInt<'_>) -> Option<i64> {
        match number {
            NumberInt::Int(number) => Some(number),
            NumberInt::BigInt(_) => None,
        }
    }
}

impl<'j, C: OutOfRange> Value<'j, C> for u8 {
    ghost View = { ℕ };

    ghost view = { λ x. x };

    ghost meaning = { integer_by (bounded 0 255) C.out_of_range };

    fn read(alloc: Global, jiter: &mut Jiter<'j>) -> Result<u8, WalkError<C>> {
        let _ = alloc;
        next_integer_as(jiter, C::out_of_range())
    }
}

impl<'j, C: OutOfRange> Value<'j, C> for u16 {
    ghost View = { ℕ };

    ghost view = { λ x. x };

    ghost meaning = { integer_by (bounded 0 65535) C.out_of_range };

    fn read(alloc: Global, jiter: &mut Jiter<'j>) -> Result<u16, WalkError<C>> {
        let _ = alloc;
        next_integer_as(jiter, C::out_of_range())
    }
}

impl<'j, C: OutOfRange> Value<'j, C> for u32 {
    ghost View = { ℕ };

    ghost view = { λ x. x };

    ghost meaning = { integer_by (bounded 0 4294967295) C.out_of_range };

    fn read(alloc: Global, jiter: &mut Jiter<'j>) -> Result<u32, WalkError<C>> {
        let _ = alloc;
        next_integer_as(jiter, C::out_of_range())
    }
}

impl<'j, C: OutOfRange> Value<'j, C> for u64 {
    ghost View = { ℕ };

    ghost view = { λ x. x };

    ghost meaning = { integer_by (unsigned) C.out_of_range };

    fn read(alloc: Global, jiter: &mut Jiter<'j>) -> Result<u64, WalkError<C>> {
        let _ = alloc;
        next_integer_as(jiter, C::out_of_range())
    }
}

impl<'j, C: OutOfRange> Value<'j, C> for i8 {
    ghost View = { ℤ };

    ghost view = { λ x. x };

    ghost meaning = { integer_by (signed_bounded (neg_ℤ (pos 128)) (pos 127)) C.out_of_range };

    fn read(alloc: Global, jiter: &mut Jiter<'j>) -> Result<i8, WalkError<C>> {
        let _ = alloc;
        next_integer_as(jiter, C::out_of_range())
    }
}

impl<'j, C: OutOfRange> Value<'j, C> for i16 {
    ghost View = { ℤ };

    ghost view = { λ x. x };

    ghost meaning = { integer_by (signed_bounded (neg_ℤ (pos 32768)) (pos 32767)) C.out_of_range };

    fn read(alloc: Global, jiter: &mut Jiter<'j>) -> Result<i16, WalkError<C>> {
        let _ = alloc;
        next_integer_as(jiter, C::out_of_range())
    }
}

impl<'j, C: OutOfRange> Value<'j, C> for i32 {
    ghost View = { ℤ };

    ghost view = { λ x. x };

    ghost meaning = { integer_by (signed_bounded (neg_ℤ (pos 2147483648)) (pos 2147483647)) C.out_of_range };

    fn read(alloc: Global, jiter: &mut Jiter<'j>) -> Result<i32, WalkError<C>> {
        let _ = alloc;
        next_integer_as(jiter, C::out_of_range())
    }
}

impl<'j, C: OutOfRange> Value<'j, C> for i64 {
    ghost View = { ℤ };

    ghost view = { λ x. x };

    ghost meaning = { integer_by (signed) C.out_of_range };

    fn read(alloc: Global, jiter: &mut Jiter<'j>) -> Result<i64, WalkError<C>> {
        let _ = alloc;
        next_integer_as(jiter, C::out_of_range())
    }
}
