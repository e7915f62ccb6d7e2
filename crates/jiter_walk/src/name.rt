//! Strings that are names of something.
ghost use Rattle.std.specs.Prelude.{◌≡◌, ℕ, List, Option};
ghost use Rattle.jiter_walk.specs.Names.{named_in};
ghost use Rattle.jiter_walk.specs.Walk.{Walks};

use crate::scalars::{next_place, next_text};
use crate::walk_error::WalkError;
use jiter::Jiter;
use std::alloc::Global;

/// A type whose values have names, as the variants of an enum do.
///
/// # Examples
///
/// ```rust
/// impl Named for State {
///     ghost names = { named (("open", state.Open) ∷ ("closed", state.Closed) ∷ []) };
///
///     fn of_name(name: &str) -> Option<State> {
///         match name {
///             "open" => Some(State::Open),
///             "closed" => Some(State::Closed),
///             _ => None,
///         }
///     }
/// }
/// ```
pub trait Named: Drop {
    // What has this name.
    ghost names: { List ℕ → Option Self };

    /// Returns what has this name.
    fn of_name(name: &str) -> Option<Self>
        ensures { result ≡ names name.now };
}

/// Returns what the string that comes next names.
///
/// # Errors
///
/// - `Reader` for an error in the bytes, for a value of another type at its first byte, and if memory runs out
/// - `Custom` with `cause` for a string that names nothing, at its opening quote
pub fn next_named<T: Named, C: Drop>(
    alloc: Global,
    jiter: &mut Jiter<'_>,
    cause: C,
) -> Result<T, WalkError<C>>
    ensures { Walks (λ x. x) (named_in T.names cause) result jiter.old jiter.new }
{
    let at = next_place(jiter)?;
    let text = next_text(alloc, jiter)?;
    match T::of_name(text.as_str()) {
        Some(named) => Ok(named),
        None => Err(WalkError::Custom(cause, at)),
    }
}
