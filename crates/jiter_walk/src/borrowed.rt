//! Strings that are borrowed from the bytes where they can be.
ghost use Rattle.std.specs.Prelude.{◌≡◌, ℕ, IfErr, IfOk, List};
ghost use Rattle.std.specs.Cow.{cow_str_bytes};
ghost use Rattle.jiter.specs.Caller.{Node, Tree, WantsMemory, text_view, value_of};
ghost use Rattle.jiter_walk.specs.Meanings.{text};
ghost use Rattle.jiter_walk.specs.Values.{text_in};
ghost use Rattle.jiter_walk.specs.Walk.{Comes, IsOutOfMemory, Walks, index_of};

use crate::value::Value;
use crate::walk_error::WalkError;
use jiter::Jiter;
use std::alloc::Global;
use std::borrow::CowStr;

/// Returns the string that comes next, borrowed from the bytes if it has no escape.
///
/// Only a string with an escape is copied, and only its copy allocates.
///
/// # Errors
///
/// - `Reader` for an error in the bytes, for a value of another type at its first byte, and if memory runs out
///
/// # Examples
///
/// ```rust
/// "host" => self.host = Some(next_text_cow(alloc, jiter)?),
/// ```
pub fn next_text_cow<'j, C>(
    alloc: Global,
    jiter: &mut Jiter<'j>,
) -> Result<CowStr<'j>, WalkError<C>>
    ensures walks { Walks cow_str_bytes text_in result jiter.old jiter.new }
    ensures string { (n : Node) → Comes jiter.old n
        → IfOk result (λ s. value_of jiter.old.text n ≡ Tree.string (text_view s)) }
    ensures memory { IfErr result (λ e. IsOutOfMemory e → WantsMemory jiter.old.text (index_of e)) }
{
    Ok(jiter.next_str_cow(alloc)?)
}

impl<'j, C> Value<'j, C> for CowStr<'j> {
    ghost View = { List ℕ };

    ghost view = { cow_str_bytes };

    ghost meaning = { text };

    fn read(alloc: Global, jiter: &mut Jiter<'j>) -> Result<CowStr<'j>, WalkError<C>> {
        next_text_cow(alloc, jiter)
    }
}
