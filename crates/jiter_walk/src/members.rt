//! A walk over the members of an object.
ghost use Rattle.std.specs.Prelude.{ℕ, ◌≤◌, List, length};
ghost use Rattle.jiter.specs.Caller.{Node};
ghost use Rattle.jiter_walk.specs.Walk.{Outcome, Walks, object_walked};

use crate::walk_error::WalkError;
use jiter::Jiter;
use std::alloc::Global;

/// What becomes of the members of an object, one after the other.
pub trait Members<'j, C> {
    // What contracts see of `self`.
    ghost State: { Type 0 };

    ghost state: { Self → State };

    // What it is after a member with this key, whose quote is at this index, and this value, in these bytes.
    ghost after: { List ℕ → List ℕ → ℕ → Node → State → Outcome C State };

    /// Reads the value of a member. `key` is decoded, and its opening quote is at the byte index `at`.
    fn member(
        &mut self,
        alloc: Global,
        key: &str,
        at: usize,
        jiter: &mut Jiter<'j>,
    ) -> Result<(), WalkError<C>>
        requires { at ≤ length jiter.old.text }
        ensures { Walks (λ _. state self.new) (λ t n. after t key.now at n (state self.old)) result jiter.old jiter.new };
}

/// Reads the object that comes next, each of its members by `members`, in their order (RFC 8259, 4).
///
/// # Errors
///
/// - `Reader` for an error in the bytes, for a value of another type at its first byte, and if memory runs out
/// - the first error of a member
pub fn each_member<'j, C, M: Members<'j, C>>(
    alloc: Global,
    jiter: &mut Jiter<'j>,
    members: &mut M,
) -> Result<(), WalkError<C>>
    ensures { Walks (λ _. M.state members.new) (object_walked M.after (M.state members.old)) result jiter.old jiter.new }
{
    let mut next = jiter.next_object_cow(alloc)?;
    while let Some((key, at)) = next {
        members.member(alloc, key.as_str(), at, jiter)?;
        next = jiter.next_key_cow(alloc)?;
    }
    Ok(())
}
