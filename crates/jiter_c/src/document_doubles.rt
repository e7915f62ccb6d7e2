//! Numbers of a document that C holds by a handle, as doubles.
ghost use Rattle.std.specs.Prelude.{◌≡◌, MatchOption, Err, false, ok_or, option_and_then, true};
ghost use Rattle.std.specs.Float.{float_is_finite};
ghost use Rattle.jiter_value.specs.Value.{view};
ghost use Rattle.jiter_c.specs.Faults.{misuse};
ghost use Rattle.jiter_c.specs.Holding.{MatchDocument};
ghost use Rattle.jiter_c.specs.Values.{absent, double_in, placed};

use crate::faults::{JiterFault, misuse};
use crate::handles::{Contents, JiterHandle, close, open};
use crate::scalars::double_of;
use crate::values::{absent, placed};
use core::mem::replace_with;
use jiter::JsonValue;
use std::num::nearest_i64_to_f64;

fn double_in(value: &JsonValue<'static>) -> Option<f64>
    ensures { result ≡ double_in (view value.now) }
{
    match value {
        JsonValue::Int(integer) => Some(nearest_i64_to_f64(*integer)),
        JsonValue::BigInt(text) => double_of(text.as_str().as_bytes()),
        JsonValue::Float(text) => double_of(text.as_str().as_bytes()),
        _ => None,
    }
}

fn double_at(
    handle: JiterHandle,
    pointer: &[u8],
    steps: &[usize],
) -> (JiterHandle, Result<f64, JiterFault>)
    ensures same { result.0.value ≡ handle.value }
    ensures double { MatchDocument handle.value (result.1 ≡ Err misuse)
        (λ v. result.1 ≡ ok_or (option_and_then double_in (placed pointer.now steps.now v)) absent) }
{
    let contents = open(handle);
    let double = match &*contents {
        Contents::Document(value) => match placed(value, pointer, steps) {
            Some(value) => double_in(value).ok_or(absent()),
            None => Err(absent()),
        },
        _ => Err(misuse()),
    };
    (close(contents), double)
}

/// Writes the double nearest to the number at a place to `value`, whichever number it is.
///
/// `finite` is whether that is a finite number. It is not for a number whose magnitude is too large, and for `NaN`,
/// `Infinity` and `-Infinity`. The place is as in [`crate::values::jiter_document_at`].
///
/// # Errors
///
/// Returns `false` and writes to `fault`:
///
/// - kind 102, if the place leads nowhere, or to a value that is no number
/// - misuse, if the handle holds no document
#[unsafe(no_mangle)]
pub extern "C" fn jiter_document_double(
    handle: &mut JiterHandle,
    pointer: &[u8],
    steps: &[usize],
    value: &mut f64,
    finite: &mut bool,
    fault: &mut JiterFault,
) -> bool
    ensures same { handle.new.value ≡ handle.old.value }
    ensures double { MatchDocument handle.old.value ((result ≡ false) × (fault.new ≡ misuse)) (λ v.
        MatchOption (option_and_then double_in (placed pointer.now steps.now v))
        ((result ≡ false) × (fault.new ≡ absent))
        (λ x. (result ≡ true) × (value.new ≡ x) × (finite.new ≡ float_is_finite x) × (fault.new ≡ fault.old))) }
    ensures kept { result ≡ false → (value.new ≡ value.old) × (finite.new ≡ finite.old) }
{
    let double = replace_with(
        handle,
        pointer,
        |handle, pointer| double_at(handle, pointer, steps),
    );
    match double {
        Ok(nearest) => {
            *value = nearest;
            *finite = nearest.is_finite();
            true
        }
        Err(error) => {
            *fault = error;
            false
        }
    }
}
