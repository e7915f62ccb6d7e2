//! Containers on the stacks: how one begins, goes on after a part and ends, and which errors are forgiven there.
ghost use Rattle.std.specs.Prelude.{◌≡◌, ◌≢◌, ℕ, ◌+◌, ◌≤◌, ◌<◌, List, IfOk, IfSome, None, OnOk, length, slice_index};
ghost use Rattle.std.specs.Prelude.{true, false};
ghost use Rattle.jiter_value.specs.Words.{fault_kind, start_of, nesting_limit, step_of, done, WhereRefused, step, more};
ghost use Rattle.jiter_value.specs.Words.{container_first, opening, TextPolicy, forgives, value_size, inside_size};
ghost use Rattle.jiter_value.specs.Words.{after_size, resume_with, from_value, after, container_ends, container_fault};
ghost use Rattle.jiter_value.specs.Words.{Stands, StandsInside, slot_in, base_of, part_of, empty_tree, HasRoom, Turned};
ghost use Rattle.jiter_value.specs.Words.{LeavesKeys, Follows, IsAtValue, IsReady, Proceeds, IsResolved, work_left};
ghost use Rattle.jiter_value.specs.Words.{outcome, MayGrowAt, SettingsView};
ghost use Rattle.jiter_steps.specs.declared.read_error.ReadError.TheVariants as error;

use crate::parse::settings::{Settings, forgives};
use crate::parse::stacks::{
    OpenContainer, Slot, Stacks, State, close, has_room, no_memory, object_of, put_reserved,
    reserve_part, too_deep,
};
use crate::parse::string_storage::StringStorage;
use crate::parse::turns::Reading;
use crate::value::JsonValue;
use jiter_scan::errors::{FaultKind, fault_at};
use jiter_scan::memory::push_small;
use jiter_steps::parse::{ContainerKind, NESTING_LIMIT};
use jiter_steps::read_error::ReadError;
use jiter_steps::step::{Step, first, next};
use std::alloc::Global;

#[inline(always)]
fn part_of(shape: ContainerKind) -> State
    ensures { result ≡ part_of shape }
{
    match shape {
        ContainerKind::Array => State::Item,
        ContainerKind::Object => State::Key,
    }
}

#[inline(always)]
fn kind_of_container(slot: Slot) -> Option<ContainerKind>
    ensures some { IfSome result (λ shape. slot ≡ slot_in shape) }
    ensures none { result ≡ None → slot ≡ Slot.Root }
{
    match slot {
        Slot::Root => None,
        Slot::Item => Some(ContainerKind::Array),
        Slot::Member => Some(ContainerKind::Object),
    }
}

// Makes room for the part at `at`, whose stack is full, and goes to it.
#[cold]
#[inline(never)]
fn to_crowded_part(stacks: &mut Stacks<'_>, at: usize, shape: ContainerKind) -> (usize, State)
    ensures { IsReady shape stacks.old stacks.new at result }
{
    match reserve_part(stacks, shape) {
        Ok(()) => (at, part_of(shape)),
        Err(refused) => no_memory(stacks, refused, at),
    }
}

// Goes to the part at `at`, so that its stack has room there.
#[inline(always)]
fn to_part(stacks: &mut Stacks<'_>, at: usize, shape: ContainerKind) -> (usize, State)
    ensures { IsReady shape stacks.old stacks.new at result }
{
    if has_room(stacks, shape) {
        return (at, part_of(shape));
    }
    to_crowded_part(stacks, at, shape)
}

// Whether the error at `at` is forgiven. If not, stores it as the reading's.
#[cold]
#[inline(never)]
fn is_forgiven(stacks: &mut Stacks<'_>, settings: Settings, kind: FaultKind, at: usize) -> bool
    ensures value { result ≡ forgives settings.mode (fault_kind kind) }
    ensures error { result ≡ false → stacks.new.error ≡ error.Fault (record { kind = kind; index = at }) }
    ensures same { result ≡ true → stacks.new ≡ stacks.old }
{
    if forgives(settings.mode, kind) {
        return true;
    }
    stacks.error = ReadError::Fault(fault_at(kind, at));
    false
}

// Whether a container that has no further part ends: by its closing bracket, or by an error that is forgiven.
#[inline(always)]
fn ends(stacks: &mut Stacks<'_>, settings: Settings, at: usize, step: Step) -> bool
    requires { step ≢ Step.Part }
    ensures resolved { IsResolved settings result stacks.new.error at (step_of at step) }
    ensures same { result ≡ true → stacks.new ≡ stacks.old }
{
    match step {
        Step::Part => unreachable!(),
        Step::End => true,
        Step::Fault(kind) => is_forgiven(stacks, settings, kind, at),
    }
}

// Goes on after a value, up to the next value or key, and closes each container that ends.
#[inline(always)]
fn after_last<'s, T: StringStorage<'s>>(
    reading: &mut Reading<'s>,
    bytes: &[u8],
    from: usize,
    slot: Slot,
) -> (usize, State)
    requires stands { Stands reading.old.stacks slot }
    requires levels { length reading.old.stacks.nest.items ≤ nesting_limit }
    requires within { from ≤ length bytes.now }
    ensures { Follows T.policy bytes.now from (work_left bytes.now reading.old.stacks from + 1)
        (after_size reading.old.stacks slot) (after T.policy reading.old.settings bytes.now reading.old.stacks slot from)
        slot reading.old reading.new result }
{
    let mut at = from;
    let mut inside = slot;
    'closing: loop {
        match kind_of_container(inside) {
            None => return (at, State::Done),
            Some(shape) => {
                let (end, step) = next(bytes, at, shape);
                match step {
                    Step::Part => return to_part(&mut reading.stacks, end, shape),
                    _ => {}
                }
                if !ends(&mut reading.stacks, reading.settings, end, step) {
                    return (end, State::GivenUp);
                }
                match close(reading.alloc, &mut reading.stacks, shape) {
                    Ok(outer) => inside = outer,
                    Err(refused) => return no_memory(&mut reading.stacks, refused, end),
                }
                at = end;
            }
        }
    }
}

/// Goes on after a value, up to the next value or key. The containers that end are closed out of line, so that their
/// loop costs nothing where a part follows.
#[inline(always)]
pub fn after_value<'s, T: StringStorage<'s>>(
    reading: &mut Reading<'s>,
    bytes: &[u8],
    from: usize,
    slot: Slot,
) -> (usize, State)
    requires stands { Stands reading.old.stacks slot }
    requires levels { length reading.old.stacks.nest.items ≤ nesting_limit }
    requires within { from ≤ length bytes.now }
    ensures { Follows T.policy bytes.now from (work_left bytes.now reading.old.stacks from + 1)
        (after_size reading.old.stacks slot) (after T.policy reading.old.settings bytes.now reading.old.stacks slot from)
        slot reading.old reading.new result }
{
    match kind_of_container(slot) {
        None => (from, State::Done),
        Some(shape) => {
            let (end, step) = next(bytes, from, shape);
            match step {
                Step::Part => to_part(&mut reading.stacks, end, shape),
                Step::End => close_and_go_on::<T>(reading, bytes, end, shape),
                Step::Fault(kind) => fault_inside::<T>(reading, bytes, end, end, kind, shape),
            }
        }
    }
}

/// Closes the innermost container, which ends at `at`, and goes on after it.
#[inline(never)]
pub fn close_and_go_on<'s, T: StringStorage<'s>>(
    reading: &mut Reading<'s>,
    bytes: &[u8],
    at: usize,
    shape: ContainerKind,
) -> (usize, State)
    requires stands { StandsInside shape reading.old.stacks }
    requires levels { length reading.old.stacks.nest.items ≤ nesting_limit + 1 }
    requires within { at ≤ length bytes.now }
    ensures leads { Proceeds T.policy reading.old.settings bytes.now at (work_left bytes.now reading.old.stacks at)
        (inside_size shape reading.old.stacks) (container_ends T.policy reading.old.settings bytes.now shape reading.old.stacks at)
        reading.new.stacks result }
    ensures keys { OnOk (outcome reading.new.stacks result.1)
        (LeavesKeys reading.old.stacks.members.items reading.new.stacks.members.items) }
    ensures settings { reading.new.settings ≡ reading.old.settings }
{
    match close(reading.alloc, &mut reading.stacks, shape) {
        Ok(outer) => after_last::<T>(reading, bytes, at, outer),
        Err(refused) => no_memory(&mut reading.stacks, refused, at),
    }
}

/// Handles an error at `index` in the innermost container, which has all its parts on the stacks. If the error is
/// forgiven, the container ends at `at`.
#[cold]
#[inline(never)]
pub fn fault_inside<'s, T: StringStorage<'s>>(
    reading: &mut Reading<'s>,
    bytes: &[u8],
    at: usize,
    index: usize,
    kind: FaultKind,
    shape: ContainerKind,
) -> (usize, State)
    requires stands { StandsInside shape reading.old.stacks }
    requires levels { length reading.old.stacks.nest.items ≤ nesting_limit + 1 }
    requires within { at ≤ length bytes.now }
    ensures leads { Proceeds T.policy reading.old.settings bytes.now at (work_left bytes.now reading.old.stacks at)
        (inside_size shape reading.old.stacks) (container_fault T.policy reading.old.settings bytes.now shape
        reading.old.stacks (fault_kind kind) index at)
        reading.new.stacks result }
    ensures keys { OnOk (outcome reading.new.stacks result.1)
        (LeavesKeys reading.old.stacks.members.items reading.new.stacks.members.items) }
    ensures settings { reading.new.settings ≡ reading.old.settings }
{
    if !is_forgiven(&mut reading.stacks, reading.settings, kind, index) {
        return (at, State::GivenUp);
    }
    close_and_go_on::<T>(reading, bytes, at, shape)
}

#[inline(always)]
fn put_empty(alloc: Global, stacks: &mut Stacks<'_>, slot: Slot, shape: ContainerKind)
    requires stands { Stands stacks.old slot }
    requires room { HasRoom stacks.old slot }
    ensures value { (policy : TextPolicy) → (p : SettingsView) → (t : List ℕ) → (e : ℕ)
        → resume_with policy p t stacks.old slot (done (empty_tree shape) e) ≡ after policy p t stacks.new slot e }
    ensures stands { Stands stacks.new slot }
    ensures nest { stacks.new.nest ≡ stacks.old.nest }
    ensures held { after_size stacks.new slot ≡ value_size stacks.old slot + 1 }
    ensures keys { LeavesKeys stacks.old.members.items stacks.new.members.items }
{
    match shape {
        ContainerKind::Array => put_reserved(stacks, slot, JsonValue::Array(Vec::new(alloc))),
        ContainerKind::Object => put_reserved(stacks, slot, object_of(Vec::new(alloc))),
    }
}

// Puts an empty container, which ends at `end`, into its slot, and goes on after it.
#[inline(always)]
fn empty<'s, T: StringStorage<'s>>(
    reading: &mut Reading<'s>,
    bytes: &[u8],
    end: usize,
    slot: Slot,
    shape: ContainerKind,
) -> (usize, State)
    requires stands { Stands reading.old.stacks slot }
    requires room { HasRoom reading.old.stacks slot }
    requires levels { length reading.old.stacks.nest.items ≤ nesting_limit }
    requires within { end ≤ length bytes.now }
    ensures { Follows T.policy bytes.now end (work_left bytes.now reading.old.stacks end + 1)
        (value_size reading.old.stacks slot + 1) (resume_with T.policy reading.old.settings bytes.now reading.old.stacks slot
        (done (empty_tree shape) end))
        slot reading.old reading.new result }
{
    put_empty(reading.alloc, &mut reading.stacks, slot, shape);
    after_value::<T>(reading, bytes, end, slot)
}

// Opens the container whose bracket is at `at` and whose first part begins at `next`.
#[inline(always)]
fn open<'s, T: StringStorage<'s>>(
    reading: &mut Reading<'s>,
    bytes: &[u8],
    at: usize,
    next: usize,
    slot: Slot,
    shape: ContainerKind,
) -> (usize, State)
    requires stands { Stands reading.old.stacks slot }
    requires levels { length reading.old.stacks.nest.items ≤ nesting_limit }
    requires within { (at < next) × (next < length bytes.now) }
    requires bracket { start_of (slice_index bytes.now at) ≡ opening shape }
    requires part { step bytes.now (container_first shape) (at + 1) ≡ more next }
    ensures { Turned T.policy T.wants bytes.now at slot reading.old reading.new result }
{
    let base = match shape {
        // An object's limit is tested after its first key and colon.
        ContainerKind::Array if reading.stacks.nest.len() == NESTING_LIMIT => {
            return too_deep(&mut reading.stacks, next);
        }
        ContainerKind::Array => reading.stacks.items.len(),
        ContainerKind::Object => reading.stacks.members.len(),
    };
    let container = OpenContainer { outer: slot, base };
    match push_small(&mut reading.stacks.nest, container) {
        Ok(()) => to_part(&mut reading.stacks, next, shape),
        Err(refused) => no_memory(&mut reading.stacks, refused, next),
    }
}

/// Reads the bracket at `at`: opens the container, or puts it into its slot if it is empty.
#[inline(always)]
pub fn begin<'s, T: StringStorage<'s>>(
    reading: &mut Reading<'s>,
    bytes: &[u8],
    at: usize,
    slot: Slot,
    shape: ContainerKind,
) -> (usize, State)
    requires at_value { IsAtValue bytes.now reading.old.stacks slot at }
    requires bracket { start_of (slice_index bytes.now at) ≡ opening shape }
    ensures { Turned T.policy T.wants bytes.now at slot reading.old reading.new result }
{
    let (end, step) = first(bytes, at + 1, shape);
    match step {
        Step::Part => return open::<T>(reading, bytes, at, end, slot, shape),
        _ => {}
    }
    if !ends(&mut reading.stacks, reading.settings, end, step) {
        return (end, State::GivenUp);
    }
    empty::<T>(reading, bytes, end, slot, shape)
}
