//! The nearest double of a number.
ghost use Rattle.std.specs.Prelude.{◌≡◌};
ghost use Rattle.std.specs.Float.{Float, binary64};
ghost use Rattle.std.specs.Float.Parse.{parse_float};
ghost use Rattle.jiter.specs.Caller.{number_view};
ghost use Rattle.jiter_walk.specs.Floats.{double, double_in, finite};
ghost use Rattle.jiter_walk.specs.Meanings.{nearest_double};
ghost use Rattle.jiter_walk.specs.Walk.{NeverOutOfMemory, Walks};

use crate::integer::OutOfRange;
use crate::scalars::{next_number, next_place};
use crate::value::Value;
use crate::walk_error::WalkError;
use jiter::{Jiter, NumberAny, NumberInt};
use std::alloc::Global;
use std::num::nearest_i64_to_f64;

fn finite(text: &str) -> Option<f64>
    ensures { result ≡ finite (parse_float binary64 text.now) }
{
    let nearest = text.parse::<f64>().ok()?;
    if nearest.is_finite() {
        Some(nearest)
    } else {
        None
    }
}

fn double(number: NumberAny<'_>) -> Option<f64>
    ensures { result ≡ double (number_view number.entry) }
{
    match number {
        NumberAny::Int(NumberInt::Int(number)) => Some(nearest_i64_to_f64(number)),
        NumberAny::Int(NumberInt::BigInt(text)) => finite(text),
        NumberAny::Float(text) => finite(text),
    }
}

/// Returns the double that is nearest to the number that comes next.
///
/// # Errors
///
/// - `Reader` for an error in the bytes, and for a value of another type at its first byte
/// - `Custom` with `cause` if there is no finite double, as for `1e999`, at the number's first byte
pub fn next_f64<C: Drop>(jiter: &mut Jiter<'_>, cause: C) -> Result<f64, WalkError<C>>
    ensures walks { Walks (λ x. x) (double_in cause) result jiter.old jiter.new }
    ensures never { NeverOutOfMemory result }
{
    let at = next_place(jiter)?;
    match double(next_number(jiter)?) {
        Some(number) => Ok(number),
        None => Err(WalkError::Custom(cause, at)),
    }
}

impl<'j, C: OutOfRange> Value<'j, C> for f64 {
    ghost View = { Float };

    ghost view = { λ x. x };

    ghost meaning = { nearest_double C.out_of_range };

    fn read(alloc: Global, jiter: &mut Jiter<'j>) -> Result<f64, WalkError<C>> {
        let _ = alloc;
        next_f64(jiter, C::out_of_range())
    }
}
