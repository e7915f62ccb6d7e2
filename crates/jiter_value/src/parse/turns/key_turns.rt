//! Turns at keys. A plain key is read in place. Any other outcome is a call that takes over the turn.
ghost use Rattle.std.specs.Prelude.{◌≡◌, ◌+◌, ◌≤◌, ◌<◌, ◌++◌, ◌∷◌, ℕ, List, [], false, length, pos, true};
ghost use Rattle.std.specs.Prelude.{vec_capacity, vec_len};
ghost use Rattle.jiter_value.specs.Words.{taken, nesting_limit, fault, text_view, string_at, whole};
ghost use Rattle.jiter_value.specs.Words.{StandsAtKey, HasRoomIn, HaveKeys, IsBorrowedAt, HasTakenKey, IsAtKey};
ghost use Rattle.jiter_value.specs.Words.{IsKeyRead, Int, IsLook, scan_stop, turns_at_key};

use crate::parse::stacks::{Slot, Stacks, State, no_memory, too_deep};
use crate::parse::string_storage::StringStorage;
use crate::parse::turns::containers::fault_inside;
use crate::parse::turns::scalars::turn_into;
use crate::parse::turns::{KeyPolicy, Reading};
use crate::value::JsonValue;
use jiter_scan::bytes::short_scan::{Look, look_at};
use jiter_scan::text::utf8_text;
use jiter_steps::parse::{ContainerKind, NESTING_LIMIT};
use jiter_steps::read_error::ReadError;
use jiter_steps::step::{colon, value_first};
use jiter_steps::string_decoder::string_from;
use std::borrow::CowStr;

// Pushes a key on a stack with capacity. Its value is the placeholder 0, of which all bytes are written at once.
#[inline(always)]
fn put_key<'s>(members: &mut Vec<(CowStr<'s>, JsonValue<'s>)>, key: CowStr<'s>)
    requires { vec_len members.old < vec_capacity members.old }
    ensures { members.new.items ≡ members.old.items ++ (key.entry, Int (pos 0)) ∷ [] }
{
    members.push_reserved((key, JsonValue::Int(0)));
}

// Whether a member's value would be too deep, where the list of open containers is on the heap.
#[cold]
#[inline(never)]
fn long_nest_is_full(stacks: &Stacks<'_>) -> bool
    ensures full { result ≡ true → nesting_limit < length stacks.now.nest.items }
    ensures few { result ≡ false → length stacks.now.nest.items ≤ nesting_limit }
{
    stacks.nest.len() > NESTING_LIMIT
}

// Whether a member's value would be too deep. A list in place has eight open containers at most.
#[inline(always)]
fn is_too_deep(stacks: &Stacks<'_>) -> bool
    ensures full { result ≡ true → nesting_limit < length stacks.now.nest.items }
    ensures few { result ≡ false → length stacks.now.nest.items ≤ nesting_limit }
{
    // The length is at most the capacity, which is eight in place.
    let _count = stacks.nest.len();
    stacks.nest.spilled() && long_nest_is_full(stacks)
}

// Goes on with the key at `at`, which ends before `end` and whose colon ends before `after`, if `keys` allows it.
#[inline(always)]
fn kept_key<'s, T: StringStorage<'s>, K: KeyPolicy<'s>>(
    reading: &mut Reading<'s>,
    keys: &mut K,
    bytes: &[u8],
    at: usize,
    end: usize,
    after: usize,
    key: CowStr<'s>,
) -> (usize, State)
    requires serves { K.serves keys.old T.policy }
    requires going { K.stopped keys.old ≡ false }
    requires known { (ks : List (List ℕ)) × K.knows keys.old ks × HaveKeys ks reading.old.stacks.members.items }
    requires stands { StandsAtKey reading.old.stacks }
    requires room { HasRoomIn ContainerKind.Object reading.old.stacks }
    requires levels { length reading.old.stacks.nest.items ≤ nesting_limit + 1 }
    requires read { IsKeyRead T.policy bytes.now at end after (text_view key) }
    requires within { (end ≤ after) × (after ≤ length bytes.now) }
    ensures turned { HasTakenKey T.policy reading.old.settings bytes.now 1 at reading.old.stacks reading.new.stacks
        result (K.stopped keys.new) (K.knows keys.new) (K.refuses keys.new bytes.now reading.old.stacks at) }
    ensures serves { K.serves keys.new T.policy }
    ensures settings { reading.new.settings ≡ reading.old.settings }
{
    if !keys.admits(reading.alloc, &reading.stacks, bytes, at, end, &key) {
        return (at, State::GivenUp);
    }
    let (next, problem) = value_first(bytes, after);
    if let Some(kind) = problem {
        return fault_inside::<T>(reading, bytes, next, next, kind, ContainerKind::Object);
    }
    if is_too_deep(&reading.stacks) {
        return too_deep(&mut reading.stacks, next);
    }
    put_key(&mut reading.stacks.members, key);
    (next, State::Member)
}

// Goes on with the key at `at`, which ends before `end`, after its colon.
#[inline(always)]
fn read_key<'s, T: StringStorage<'s>, K: KeyPolicy<'s>>(
    reading: &mut Reading<'s>,
    texts: T,
    keys: &mut K,
    bytes: &[u8],
    at: usize,
    end: usize,
    key: CowStr<'_>,
) -> (usize, State)
    requires texts { T.of texts bytes.now }
    requires serves { K.serves keys.old T.policy }
    requires going { K.stopped keys.old ≡ false }
    requires known { (ks : List (List ℕ)) × K.knows keys.old ks × HaveKeys ks reading.old.stacks.members.items }
    requires at_key { IsAtKey bytes.now reading.old.stacks at }
    requires read { string_at whole bytes.now at ≡ taken (text_view key) end }
    requires borrowed { IsBorrowedAt bytes.now (at + 1) (text_view key) }
    requires within { (at < end) × (end ≤ length bytes.now) }
    ensures turned { HasTakenKey T.policy reading.old.settings bytes.now 1 at reading.old.stacks reading.new.stacks
        result (K.stopped keys.new) (K.knows keys.new) (K.refuses keys.new bytes.now reading.old.stacks at) }
    ensures serves { K.serves keys.new T.policy }
    ensures settings { reading.new.settings ≡ reading.old.settings }
{
    let (after, problem) = colon(bytes, end);
    if let Some(kind) = problem {
        return fault_inside::<T>(reading, bytes, after, after, kind, ContainerKind::Object);
    }
    match texts.store(bytes, at + 1, key) {
        Ok(kept) => kept_key::<T, K>(reading, keys, bytes, at, end, after, kept),
        Err(refused) => no_memory(&mut reading.stacks, refused, after),
    }
}

// Any key, and its errors. `found` is what a look at the key found.
#[inline(never)]
fn slow_key_turn<'s, T: StringStorage<'s>, K: KeyPolicy<'s>>(
    reading: &mut Reading<'s>,
    texts: T,
    keys: &mut K,
    bytes: &[u8],
    at: usize,
    found: (usize, Look),
) -> (usize, State)
    requires texts { T.of texts bytes.now }
    requires serves { K.serves keys.old T.policy }
    requires going { K.stopped keys.old ≡ false }
    requires known { (ks : List (List ℕ)) × K.knows keys.old ks × HaveKeys ks reading.old.stacks.members.items }
    requires at_key { IsAtKey bytes.now reading.old.stacks at }
    requires stop { found.0 ≡ scan_stop bytes.now (at + 1) }
    requires found { IsLook bytes.now (at + 1) found.0 found.1 }
    ensures turned { HasTakenKey T.policy reading.old.settings bytes.now 1 at reading.old.stacks reading.new.stacks
        result (K.stopped keys.new) (K.knows keys.new) (K.refuses keys.new bytes.now reading.old.stacks at) }
    ensures serves { K.serves keys.new T.policy }
    ensures settings { reading.new.settings ≡ reading.old.settings }
{
    match string_from(reading.alloc, &mut reading.buffer, bytes, at, found, false) {
        Ok((key, end)) => read_key(reading, texts, keys, bytes, at, end, key),
        Err(ReadError::Fault(fault)) => {
            fault_inside::<T>(
                reading,
                bytes,
                at,
                fault.index,
                fault.kind,
                ContainerKind::Object,
            )
        }
        Err(ReadError::Memory(refused)) => no_memory(&mut reading.stacks, refused, at),
    }
}

/// Takes a turn at a key and, unless `ONCE`, one at its value. If `keys` doesn't allow the key, nothing changes.
///
/// # Requires
///
/// A key begins at `at`, and the stack of members has the capacity for it. `keys` knows the keys before it.
#[inline(always)]
pub fn key_turn<'s, T: StringStorage<'s>, K: KeyPolicy<'s>, const ONCE: bool>(
    reading: &mut Reading<'s>,
    texts: T,
    keys: &mut K,
    bytes: &[u8],
    at: usize,
) -> (usize, State)
    requires texts { T.of texts bytes.now }
    requires serves { K.serves keys.old T.policy }
    requires going { K.stopped keys.old ≡ false }
    requires known { (ks : List (List ℕ)) × K.knows keys.old ks × HaveKeys ks reading.old.stacks.members.items }
    requires at_key { IsAtKey bytes.now reading.old.stacks at }
    ensures turned { HasTakenKey T.policy reading.old.settings bytes.now (turns_at_key ONCE) at reading.old.stacks
        reading.new.stacks result (K.stopped keys.new) (K.knows keys.new)
        (K.refuses keys.new bytes.now reading.old.stacks at) }
    ensures serves { K.serves keys.new T.policy }
    ensures settings { reading.new.settings ≡ reading.old.settings }
{
    let (to, look) = look_at(bytes, at + 1);
    match look {
        Look::Plain => {
            let key = CowStr::Borrowed(utf8_text(&bytes[at + 1..to]));
            match read_key(reading, texts, keys, bytes, at, to + 1, key) {
                (next, State::Member) if !ONCE => {
                    turn_into::<T, ONCE, 3>(reading, texts, bytes, next, Slot::Member)
                }
                turned => turned,
            }
        }
        _ => slow_key_turn(reading, texts, keys, bytes, at, (to, look)),
    }
}
