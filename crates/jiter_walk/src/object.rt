//! An object that becomes a struct: defaults, and members that must be there.
ghost use Rattle.std.specs.Prelude.{◌≡◌, ◌≤◌, ℕ, IfErr, IfOk, List, false, length, option_map, true};
ghost use Rattle.jiter.specs.Caller.{IsDocument, Node, value_of};
ghost use Rattle.jiter_walk.specs.Table.{Finals, Holds, IsNameIn, Slots, Table, all_empty, all_final, distinct, object_in};
ghost use Rattle.jiter_walk.specs.Table.{set, set_named};
ghost use Rattle.jiter_walk.specs.Walk.{Completes, IsReadable, Returns, Walks, index_of, object_meaning};

use crate::members::{Members, each_member};
use crate::walk_error::WalkError;
use jiter::Jiter;
use std::alloc::Global;
use std::marker::PhantomData;

/// An object that is being read: what becomes of each member, and what all of them come to.
///
/// # Examples
///
/// ```rust
/// fn key(&self, text: &str) -> Option<Key> {
///     match text {
///         "host" => Some(Key::Host),
///         "port" => Some(Key::Port),
///         _ => None,
///     }
/// }
///
/// fn member(
///     &mut self,
///     alloc: Global,
///     key: &Option<Key>,
///     _at: usize,
///     jiter: &mut Jiter<'j>,
/// ) -> Result<(), WalkError<Unfit>> {
///     match key {
///         Some(Key::Host) => self.host = Some(next_text(alloc, jiter)?),
///         Some(Key::Port) => self.port = Some(next_integer_in(jiter, 1, 65535, Unfit::Port)?),
///         None => skip(jiter)?,
///     }
///     Ok(())
/// }
/// ```
pub trait Object<'j, C>: Drop {
    /// The keys of the fields.
    type Key: Drop;

    /// What all members come to.
    type Whole: Drop;

    // The fields.
    ghost table: { Table C };

    // The name of each key.
    ghost name: { Self.Key → List ℕ };

    // What contracts see of `self`: a slot for each field.
    ghost state: { Self → Slots table.fields };

    // What contracts see of the whole: a value for each field.
    ghost view: { Self.Whole → Finals table.fields };

    /// Returns the key that has this name, or `None` if no field has it. The name is decoded.
    fn key(&self, text: &str) -> Option<Self::Key>
        ensures { IsNameIn table.fields text.now (option_map name result) };

    /// Reads the value of a member. `key` is `None` if no field has the member's name. The name's opening quote is at the
    /// byte index `at`.
    fn member(
        &mut self,
        alloc: Global,
        key: &Option<Self::Key>,
        at: usize,
        jiter: &mut Jiter<'j>,
    ) -> Result<(), WalkError<C>>
        requires { at ≤ length jiter.old.text }
        ensures { Walks (λ _. state self.new) (λ t n. set_named table t (option_map name key.now) at n (state self.old))
            result jiter.old jiter.new };

    /// Returns what all members come to, or the cause of the first field that is missing.
    fn finish(self, alloc: Global) -> Result<Self::Whole, C>
        ensures { Completes view result (all_final table.fields (state self)) };
}

#[derive(Drop)]
struct MembersOf<O, W, K> {
    object: O,
    of: PhantomData<(W, K)>,
}

impl<'j, C, O: Object<'j, C>> Members<'j, C> for MembersOf<O, O::Whole, O::Key> {
    ghost State = { Slots O.table.fields };

    ghost state = { λ m. O.state m.object };

    ghost after = { set O.table };

    fn member(
        &mut self,
        alloc: Global,
        key: &str,
        at: usize,
        jiter: &mut Jiter<'j>,
    ) -> Result<(), WalkError<C>> {
        let found = self.object.key(key);
        self.object.member(alloc, &found, at, jiter)
    }
}

fn read_members<'j, C: Drop, O: Object<'j, C>>(
    alloc: Global,
    jiter: &mut Jiter<'j>,
    start: O,
) -> Result<O::Whole, WalkError<C>>
    ensures { Walks O.view (object_meaning (set O.table) (all_final O.table.fields) (O.state start)) result
        jiter.old jiter.new }
{
    let mut members: MembersOf<O, O::Whole, O::Key> = MembersOf {
        object: start,
        of: PhantomData,
    };
    each_member(alloc, jiter, &mut members)?;
    let at = jiter.current_index().saturating_sub(1);
    let MembersOf { object, of: _ } = members;
    match object.finish(alloc) {
        Ok(whole) => Ok(whole),
        Err(cause) => Err(WalkError::Custom(cause, at)),
    }
}

/// Reads the object that comes next: its members by `start`, which has read none yet, and then what they come to.
///
/// # Errors
///
/// - `Reader` for an error in the bytes, for a value of another type at its first byte, and if memory runs out
/// - the first error of a member
/// - `Custom` with the cause of the first field that is missing, at the object's closing brace
///
/// # Requires
///
/// No slot of `start` is filled.
pub fn read_object<'j, C: Drop, O: Object<'j, C>>(
    alloc: Global,
    jiter: &mut Jiter<'j>,
    start: O,
) -> Result<O::Whole, WalkError<C>>
    requires { O.state start ≡ all_empty O.table.fields }
    ensures { Walks O.view (object_in O.table) result jiter.old jiter.new }
{
    read_members(alloc, jiter, start)
}

/// Reads a document that is an object: its members by `start`, which has read none yet, and then what they come to.
///
/// # Errors
///
/// - those of [`read_object`]
/// - `Reader` if something other than whitespace is around the object
///
/// # Requires
///
/// No slot of `start` is filled, and no two fields have one name.
pub fn read_object_document<'j, C: Drop, O: Object<'j, C>>(
    alloc: Global,
    bytes: &'j [u8],
    start: O,
) -> Result<O::Whole, WalkError<C>>
    requires empty { O.state start ≡ all_empty O.table.fields }
    requires apart { distinct O.table.fields ≡ true }
    ensures document { (n : Node) → IsDocument false bytes.now n → Returns O.view result (object_in O.table bytes.now n) }
    ensures held { (n : Node) → IsDocument false bytes.now n
        → IfOk result (λ x. Holds O.table.fields (value_of bytes.now n) (O.view x)) }
    ensures readable { IfOk result (λ _. IsReadable bytes.now) }
    ensures index { IfErr result (λ e. index_of e ≤ length bytes.now) }
{
    let mut jiter = Jiter::new(bytes);
    let whole = read_object(alloc, &mut jiter, start)?;
    jiter.finish()?;
    Ok(whole)
}
