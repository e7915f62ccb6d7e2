//! The open containers of the value so far: the first is the root, and each other the last item or member of one.
//! A slot is an open container, or the root if none is open. Its level counts the open containers down to it.
ghost use Rattle.std.specs.Prelude.{◌≡◌, ◌+◌, ◌<◌, ◌∷◌, [], List, OnOk, length, ℕ};
ghost use Rattle.jiter_incremental.specs.Words.{HasPart, HasRoomAt, IsContainer, IsOfKey, IsPut, IsRoomy};
ghost use Rattle.jiter_incremental.specs.Words.{IsTaken, OpenFrame, around, begun, filled, text_view, Tree};
ghost use Rattle.jiter_incremental.specs.Words.{PartTree, built, empty_tree, view, out-JsonValue};

use jiter_scan::memory::{AllocFailed, make_room};
use jiter_steps::parse::ContainerKind;
use jiter_value::value::JsonValue;
use std::alloc::Global;
use std::borrow::CowStr;
use std::mem;

/// Returns an empty container. Does not allocate.
#[inline(always)]
pub fn empty(alloc: Global, kind: ContainerKind) -> JsonValue<'static>
    ensures { view result ≡ empty_tree kind }
{
    match kind {
        ContainerKind::Array => JsonValue::Array(Vec::new(alloc)),
        ContainerKind::Object => JsonValue::Object(Vec::new(alloc)),
    }
}

/// Returns the kind of a container.
#[inline(always)]
pub fn kind_of(slot: &JsonValue<'static>) -> ContainerKind
    ensures { (h : ContainerKind) → (xs : List (PartTree h)) → view slot.now ≡ built h xs → result ≡ h }
{
    match slot {
        JsonValue::Array(_) => ContainerKind::Array,
        _ => ContainerKind::Object,
    }
}

/// Reserves capacity for one more item or member of a container.
#[inline(always)]
pub fn reserve_in(slot: &mut JsonValue<'static>) -> Result<(), AllocFailed>
    ensures same { view slot.new ≡ view slot.old }
    ensures room { OnOk result (IsContainer (view slot.old) → IsRoomy (out-JsonValue slot.new)) }
{
    match slot {
        JsonValue::Array(items) => make_room(items),
        JsonValue::Object(members) => make_room(members),
        _ => Ok(()),
    }
}

// A member takes its key from `key`.
#[inline(always)]
fn append<'j>(slot: &mut JsonValue<'j>, key: &mut CowStr<'j>, value: JsonValue<'j>)
    requires { IsRoomy (out-JsonValue slot.old) }
    ensures part { (f : OpenFrame) → view slot.old ≡ begun f → IsOfKey (text_view key.old) (f ∷ [])
        → view slot.new ≡ around f (view value.entry) }
{
    match slot {
        JsonValue::Array(items) => items.push_reserved(value),
        JsonValue::Object(members) => {
            let name = mem::replace(key, CowStr::Borrowed(""));
            members.push_reserved((name, value));
        }
        _ => unreachable!(),
    }
}

/// Stores a value as the last item or member, or as the root. A member takes its key from `key`. Does not allocate.
#[inline(always)]
pub fn put_in<'j>(
    slot: &mut JsonValue<'j>,
    level: usize,
    key: &mut CowStr<'j>,
    value: JsonValue<'j>,
)
    requires { HasRoomAt level slot.old }
    ensures { IsPut level (view slot.old) (text_view key.old) (view value.entry) (view slot.new) }
{
    if level == 0 {
        *slot = value;
        return;
    }
    append(slot, key, value);
}

// The key of a member goes back to `key`.
fn remove<'j>(slot: &mut JsonValue<'j>, key: &mut CowStr<'j>) -> JsonValue<'j>
    requires { HasPart (view slot.old) }
    ensures rest { (f : OpenFrame) → (x : Tree) → view slot.old ≡ around f x
        → (view result ≡ x) × (view slot.new ≡ begun f) × IsOfKey (text_view key.new) (f ∷ []) }
    ensures room { IsRoomy (out-JsonValue slot.new) }
{
    match slot {
        JsonValue::Array(items) => match items.pop() {
            Some(value) => value,
            None => unreachable!(),
        },
        JsonValue::Object(members) => match members.pop() {
            Some((name, value)) => {
                *key = name;
                value
            }
            None => unreachable!(),
        },
        _ => unreachable!(),
    }
}

/// Takes out what [`put_in`] stored. Its capacity stays.
pub fn take_from<'j>(slot: &mut JsonValue<'j>, level: usize, key: &mut CowStr<'j>) -> JsonValue<'j>
    requires { 0 < level → HasPart (view slot.old) }
    ensures taken { IsTaken level (view slot.old) (view result) (view slot.new) (text_view key.new) }
    ensures room { HasRoomAt level slot.new }
{
    if level == 0 {
        return mem::replace(slot, JsonValue::Null);
    }
    remove(slot, key)
}

/// Returns the kind of the innermost of `depth` open containers.
pub fn innermost_kind(slot: &JsonValue<'static>, depth: usize) -> ContainerKind
    requires { (h : ContainerKind) × (xs : List (PartTree h)) × (fs : List OpenFrame)
        × (depth ≡ length fs + 1) × (view slot.now ≡ filled fs (built h xs)) }
    ensures { (h : ContainerKind) → (xs : List (PartTree h)) → (fs : List OpenFrame) → depth ≡ length fs + 1
        → view slot.now ≡ filled fs (built h xs) → result ≡ h }
{
    if depth == 1 {
        return kind_of(slot);
    }
    match slot {
        JsonValue::Array(items) => innermost_kind(&items[items.len() - 1], depth - 1),
        JsonValue::Object(members) => innermost_kind(&members[members.len() - 1].1, depth - 1),
        _ => unreachable!(),
    }
}
