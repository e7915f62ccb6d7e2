//! The stacks of items and of members that all open containers share.
ghost use Rattle.std.specs.Prelude.{◌≡◌, ◌⊎◌, ℕ, ℤ, List, ◌+◌, ◌≤◌, ◌<◌, ◌∷◌, ◌++◌, [], IfOk, IsTrue, OnOk, length, take};
ghost use Rattle.std.specs.Prelude.{drop, false, map, true, vec_len};
ghost use Rattle.jiter_value.specs.Words.{Global, CowStrView, done, object, members_of, view, size, value_size, Member};
ghost use Rattle.jiter_value.specs.Words.{inside_size, after_size, TextPolicy, HoldsNothing, IsCleared, member_view};
ghost use Rattle.jiter_value.specs.Words.{resume_with, after, container_ends, Stands, StandsInside, HasRoom, HasRoomIn};
ghost use Rattle.jiter_value.specs.Words.{HoldsSame, LeavesKeys, without_root, SettingsView, JsonValueView};
ghost use Rattle.jiter_value.specs.declared.value.JsonValue.TheVariants.{Int, Null};
ghost use Rattle.jiter_steps.specs.declared.read_error.ReadError.TheVariants as error;

use crate::value::{JsonObject, JsonValue};
use jiter_scan::errors::{Fault, FaultKind};
use jiter_scan::memory::{AllocFailed, make_room, split_off};
use jiter_steps::parse::ContainerKind;
use jiter_steps::read_error::ReadError;
use smallvec::SmallVec;
use std::alloc::Global;
use std::borrow::CowStr;
use std::mem;

/// Where a value goes once it is read.
#[derive(Clone, Copy, Debug, Default)]
pub enum Slot {
    /// It is the document's value.
    #[default]
    Root,
    /// It is an item of the innermost container, an array.
    Item,
    /// It is the value of the last member of the innermost container, an object.
    Member,
}

/// What is expected at the reader's position: a value, a key, or nothing. It has no fields, so it fits in a register.
#[derive(Clone, Copy, Debug, Default)]
pub enum State {
    /// The value of the document.
    #[default]
    Root,
    /// An item of an array.
    Item,
    /// The value of a member whose key was read.
    Member,
    /// A key of an object.
    Key,
    /// Nothing: the value is complete.
    Done,
    /// Nothing: an error stopped the reading.
    GivenUp,
}

/// An open container: the slot of its value, and its base in its stack.
#[derive(Clone, Copy, Debug, Default)]
pub struct OpenContainer {
    /// Where its value goes once it is closed.
    pub outer: Slot,
    /// How many items or members of outer containers are below its own.
    pub base: usize,
}

/// What a reading holds: the parts of all open containers, and the value once it is complete. While a key's value is
/// expected, the last member holds the key with a placeholder.
#[derive(Drop)]
pub struct Stacks<'j> {
    /// The items of all open arrays.
    pub items: Vec<JsonValue<'j>>,
    /// The members of all open objects.
    pub members: Vec<(CowStr<'j>, JsonValue<'j>)>,
    /// The open containers, the innermost last.
    pub nest: SmallVec<OpenContainer, 8>,
    /// The value of the document, once it is complete.
    pub root: JsonValue<'j>,
    /// The error that stopped the reading, once one did.
    pub error: ReadError,
    /// Whether the stacks are reused for further documents. The root's parts are then split off, to keep the capacity.
    pub reused: bool,
}

// Replaces a value that has nothing to free, without dropping it.
#[inline(always)]
fn replace_plain<'j>(place: &mut JsonValue<'j>, value: JsonValue<'j>)
    requires { (place.old ≡ Null) ⊎ ((number : ℤ) × (place.old ≡ Int number)) }
    ensures { place.new ≡ value.entry }
{
    mem::forget(mem::replace(place, value));
}

// Out of line: the drop would take the registers of all turns.
#[cold]
#[inline(never)]
fn replace_any<'j>(place: &mut JsonValue<'j>, value: JsonValue<'j>)
    ensures { place.new ≡ value.entry }
{
    *place = value;
}

// The placeholder of a key is an integer.
#[inline(always)]
fn replace_placeholder<'j>(place: &mut JsonValue<'j>, value: JsonValue<'j>)
    ensures { place.new ≡ value.entry }
{
    if let JsonValue::Int(_) = place {
        replace_plain(place, value);
    } else {
        replace_any(place, value);
    }
}

// Between turns the root is `Null`.
#[inline(always)]
fn replace_root<'j>(root: &mut JsonValue<'j>, value: JsonValue<'j>)
    ensures { root.new ≡ value.entry }
{
    if let JsonValue::Null = root {
        replace_plain(root, value);
    } else {
        replace_any(root, value);
    }
}

// Replaces the placeholder of the last key.
#[inline(always)]
fn set_last<'j>(members: &mut Vec<(CowStr<'j>, JsonValue<'j>)>, value: JsonValue<'j>)
    requires { 0 < vec_len members.old }
    ensures value { (before : List Member) → (key : CowStrView Global) → (old : JsonValueView)
        → members.old.items ≡ before ++ (key, old) ∷ []
        → members.new.items ≡ before ++ (key, value.entry) ∷ [] }
    ensures keys { LeavesKeys members.old.items members.new.items }
{
    let last = members.len() - 1;
    replace_placeholder(&mut members[last].1, value);
}

// Takes the parts of a container that ends. The root takes over the stack itself, unless the stack is reused.
fn take_parts<T: Drop>(
    alloc: Global,
    parts: &mut Vec<T>,
    container: OpenContainer,
    reused: bool,
) -> Result<Vec<T>, AllocFailed>
    requires { container.base ≤ vec_len parts.old }
    ensures rest { OnOk result (parts.new.items ≡ take container.base parts.old.items) }
    ensures value { IfOk result (λ v. v.items ≡ drop container.base parts.old.items) }
{
    if !reused && container.base == 0 && matches!(container.outer, Slot::Root) {
        let empty = Vec::new(alloc);
        return Ok(mem::replace(parts, empty));
    }
    split_off(parts, container.base)
}

/// Returns whether the stack of this kind has the capacity for one more part.
#[inline(always)]
pub fn has_room(stacks: &Stacks<'_>, shape: ContainerKind) -> bool
    ensures { result ≡ true → HasRoomIn shape stacks.now }
{
    match shape {
        ContainerKind::Array => stacks.items.len() < stacks.items.capacity(),
        ContainerKind::Object => stacks.members.len() < stacks.members.capacity(),
    }
}

/// Reserves capacity for one more part in the stack of this kind.
///
/// # Errors
///
/// - a failed allocation, only if the stack has to grow
pub fn reserve_part(stacks: &mut Stacks<'_>, shape: ContainerKind) -> Result<(), AllocFailed>
    ensures same { HoldsSame stacks.old stacks.new }
    ensures room { OnOk result (HasRoomIn shape stacks.new) }
{
    match shape {
        ContainerKind::Array => make_room(&mut stacks.items),
        ContainerKind::Object => make_room(&mut stacks.members),
    }
}

/// Puts the expected value into its slot, which has the capacity for it.
///
/// # Requires
///
/// The stacks await a value for this slot. An item's stack has the capacity for it.
#[inline(always)]
pub fn put_reserved<'j>(stacks: &mut Stacks<'j>, slot: Slot, value: JsonValue<'j>)
    requires stands { Stands stacks.old slot }
    requires room { HasRoom stacks.old slot }
    ensures value { (policy : TextPolicy) → (p : SettingsView) → (t : List ℕ) → (e : ℕ)
        → resume_with policy p t stacks.old slot (done (view value.entry) e) ≡ after policy p t stacks.new slot e }
    ensures stands { Stands stacks.new slot }
    ensures nest { stacks.new.nest ≡ stacks.old.nest }
    ensures held { after_size stacks.new slot
        ≡ value_size stacks.old slot + size (view value.entry) }
    ensures keys { LeavesKeys stacks.old.members.items stacks.new.members.items }
{
    match slot {
        Slot::Item => stacks.items.push_reserved(value),
        Slot::Member => set_last(&mut stacks.members, value),
        Slot::Root => replace_root(&mut stacks.root, value),
    }
}

/// Puts the expected value into its slot. Only an item may need an allocation.
///
/// # Errors
///
/// - a failed allocation, only if the stack of items has to grow
///
/// # Requires
///
/// The stacks await a value for this slot.
#[inline(always)]
pub fn put<'j>(stacks: &mut Stacks<'j>, slot: Slot, value: JsonValue<'j>) -> Result<(), AllocFailed>
    requires { Stands stacks.old slot }
    ensures value { OnOk result ((policy : TextPolicy) → (p : SettingsView) → (t : List ℕ) → (e : ℕ)
        → resume_with policy p t stacks.old slot (done (view value.entry) e) ≡ after policy p t stacks.new slot e) }
    ensures stands { OnOk result (Stands stacks.new slot) }
    ensures nest { stacks.new.nest ≡ stacks.old.nest }
    ensures held { OnOk result (after_size stacks.new slot
        ≡ value_size stacks.old slot + size (view value.entry)) }
    ensures keys { OnOk result (LeavesKeys stacks.old.members.items stacks.new.members.items) }
{
    let full = stacks.items.len() == stacks.items.capacity();
    match slot {
        Slot::Item if full => make_room(&mut stacks.items)?,
        _ => {}
    }
    put_reserved(stacks, slot, value);
    Ok(())
}

/// Returns the object of these members.
#[inline(always)]
pub fn object_of<'j>(members: JsonObject<'j>) -> JsonValue<'j>
    ensures { view result ≡ object (members_of (map member_view members.entry.items)) }
{
    JsonValue::Object(members)
}

/// Closes the innermost container, puts it into its slot and returns that slot.
///
/// # Errors
///
/// - a failed allocation, of the parts that are split off or of the stack of items
///
/// # Requires
///
/// The innermost container is of this kind, and awaits no value.
#[inline(never)]
pub fn close<'j>(
    alloc: Global,
    stacks: &mut Stacks<'j>,
    shape: ContainerKind,
) -> Result<Slot, AllocFailed>
    requires { StandsInside shape stacks.old }
    ensures value { IfOk result (λ a. (policy : TextPolicy) → (p : SettingsView) → (t : List ℕ) → (e : ℕ)
        → container_ends policy p t shape stacks.old e ≡ after policy p t stacks.new a e) }
    ensures stands { IfOk result (λ a. Stands stacks.new a) }
    ensures nest { length stacks.new.nest.items + 1 ≡ length stacks.old.nest.items }
    ensures held { IfOk result (λ a. after_size stacks.new a ≡ inside_size shape stacks.old) }
    ensures keys { OnOk result (LeavesKeys stacks.old.members.items stacks.new.members.items) }
{
    match stacks.nest.pop() {
        None => unreachable!(),
        Some(container) => {
            match shape {
                ContainerKind::Array => {
                    let items = take_parts(alloc, &mut stacks.items, container, stacks.reused)?;
                    put(stacks, container.outer, JsonValue::Array(items))?;
                }
                ContainerKind::Object => {
                    let members = take_parts(alloc, &mut stacks.members, container, stacks.reused)?;
                    put(stacks, container.outer, object_of(members))?;
                }
            }
            Ok(container.outer)
        }
    }
}

/// Stops the reading at `at` with an error of the bytes.
#[cold]
#[inline(never)]
pub fn give_up<'j>(stacks: &mut Stacks<'j>, fault: Fault, at: usize) -> (usize, State)
    ensures place { result ≡ (at, State.GivenUp) }
    ensures error { stacks.new.error ≡ error.Fault fault }
{
    stacks.error = ReadError::Fault(fault);
    (at, State::GivenUp)
}

/// Stops the reading at `at` because an allocation failed.
#[cold]
#[inline(never)]
pub fn no_memory<'j>(stacks: &mut Stacks<'j>, refused: AllocFailed, at: usize) -> (usize, State)
    ensures place { result ≡ (at, State.GivenUp) }
    ensures error { stacks.new.error ≡ error.Memory refused }
{
    stacks.error = ReadError::Memory(refused);
    (at, State::GivenUp)
}

/// Stops the reading at `at`, where a value begins inside too many containers.
#[cold]
#[inline(never)]
pub fn too_deep<'j>(stacks: &mut Stacks<'j>, at: usize) -> (usize, State)
    ensures place { result ≡ (at, State.GivenUp) }
    ensures error { stacks.new.error
        ≡ error.Fault (record { kind = FaultKind.RecursionLimitExceeded; index = at }) }
{
    let fault = Fault {
        kind: FaultKind::RecursionLimitExceeded,
        index: at,
    };
    give_up(stacks, fault, at)
}

/// Moves the value of the document out of the stacks.
#[inline(always)]
pub fn take_root<'j>(stacks: &mut Stacks<'j>) -> JsonValue<'j>
    ensures value { result ≡ stacks.old.root }
    ensures cleared { HoldsNothing stacks.old → IsCleared stacks.new }
{
    mem::replace(&mut stacks.root, JsonValue::Null)
}

/// Drops the value of the document, if there is one. Between turns there is none, and a test costs less than a drop.
#[inline(always)]
pub fn drop_root<'j>(stacks: &mut Stacks<'j>)
    ensures { stacks.new ≡ without_root stacks.old }
{
    if let JsonValue::Null = stacks.root {
        return;
    }
    stacks.root = JsonValue::Null;
}

/// Moves the error that stopped the reading out of the stacks.
pub fn take_error<'j>(stacks: &mut Stacks<'j>) -> ReadError
    ensures { result ≡ stacks.old.error }
{
    mem::replace(&mut stacks.error, no_error())
}

/// Returns a placeholder: it is replaced when an error stops the reading.
pub fn no_error() -> ReadError {
    ReadError::Fault(Fault {
        kind: FaultKind::ExpectedSomeValue,
        index: 0,
    })
}
