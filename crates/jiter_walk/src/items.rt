//! A walk over the items of an array.
ghost use Rattle.std.specs.Prelude.{ℕ, List};
ghost use Rattle.jiter.specs.Caller.{Node};
ghost use Rattle.jiter_walk.specs.Walk.{Outcome, Walks, array_walked};

use crate::walk_error::WalkError;
use jiter::Jiter;
use std::alloc::Global;

/// What becomes of the items of an array, one after the other.
pub trait Items<'j, C> {
    // What contracts see of `self`.
    ghost State: { Type 0 };

    ghost state: { Self → State };

    // What it is after this item, in these bytes.
    ghost after: { List ℕ → Node → State → Outcome C State };

    /// Reads an item.
    fn item(&mut self, alloc: Global, jiter: &mut Jiter<'j>) -> Result<(), WalkError<C>>
        ensures { Walks (λ _. state self.new) (λ t n. after t n (state self.old)) result jiter.old jiter.new };
}

/// Reads the array that comes next, each of its items by `items`, in their order (RFC 8259, 5).
///
/// # Errors
///
/// - `Reader` for an error in the bytes, and for a value of another type at its first byte
/// - the first error of an item
pub fn each_item<'j, C, I: Items<'j, C>>(
    alloc: Global,
    jiter: &mut Jiter<'j>,
    items: &mut I,
) -> Result<(), WalkError<C>>
    ensures { Walks (λ _. I.state items.new) (array_walked I.after (I.state items.old)) result jiter.old jiter.new }
{
    let mut next = jiter.next_array()?;
    while let Some(_peek) = next {
        items.item(alloc, jiter)?;
        next = jiter.array_step()?;
    }
    Ok(())
}
