//! Sets of the keys of open objects with many members, to see in few steps that a key is new. A set has buckets; a key
//! whose bucket is full goes into an ordered set, so no choice of keys makes this slow.
ghost use Rattle.std.specs.Prelude.{◌≡◌, ◌+◌, ◌-◌, ◌/◌, ◌^◌, ◌≤◌, ◌<◌, ◌∷◌, ◌++◌, ◌⊎◌, [], All, IfOk, OnOk, drop, true};
ghost use Rattle.std.specs.Prelude.{false, length, vec_len};
ghost use Rattle.jiter_value.specs.Words.{text_view, Adds, HasKeys, IsKeyOf, IsNoKeyOf, IsNowhere, IsPlaceOf, has_text};
ghost use Rattle.jiter_value.specs.Words.{IsSomewhere, IsUpToDate, bucket_of, hash_of, keys_of, has_key};

use crate::value::JsonValue;
use crate::value::copies::copy_cow;
use jiter_scan::memory::{AllocFailed, insert, push, with_capacity};
use std::alloc::Global;
use std::borrow::CowStr;
use std::collections::BTreeSet;

/// The keys of an open object.
#[derive(Drop)]
pub struct DuplicateKeyIndex<'s> {
    /// The index of the object's first member on the stack.
    pub base: usize,
    /// The index of the object's first member whose key isn't in the set yet.
    pub end: usize,
    /// Buckets of eight slots, filled from the left. A slot holds the index of a member plus 1, or 0 if it is free.
    pub slots: Vec<usize>,
    /// The keys whose bucket was full.
    pub rest: BTreeSet<CowStr<'s>>,
}

/// The position of a key among the slots.
#[derive(Clone, Copy)]
pub struct BucketSlot {
    /// The first slot of its bucket.
    pub bucket: usize,
    /// The first free slot of the bucket, or the bucket's end.
    pub at: usize,
}

// The number of slots of a bucket.
const BUCKET_SLOTS: usize = 8;

// The number of slots of a new set.
const NEW_SET_SLOTS: usize = 128;

// A key's hash is made of at most this many of its last bytes.
const HASHED_BYTES: usize = 32;

// An odd number whose bits look random.
const HASH_MULTIPLIER: u64 = 0x9e37_79b9_7f4a_7c15;

/// Drops the sets of closed objects: these end after the last member that is left.
#[inline(always)]
pub fn drop_closed(
    sets: &mut Vec<DuplicateKeyIndex<'_>>,
    members: &Vec<(CowStr<'_>, JsonValue<'_>)>,
)
    requires { All (HasKeys (keys_of members.now.items)) sets.old.items }
    ensures { All (IsUpToDate (keys_of members.now.items)) sets.new.items }
{
    for i in 0..sets.len() {
        if sets[i].end > members.len() {
            sets.truncate(i);
            return;
        }
    }
}

fn no_members(alloc: Global, count: usize) -> Result<Vec<usize>, AllocFailed>
    ensures { IfOk result (λ slots. vec_len slots ≡ count) }
{
    let mut slots = with_capacity(alloc, count)?;
    match slots.resize(count, 0) {
        Ok(()) => Ok(slots),
        Err(_) => unreachable!(),
    }
}

// A hash of the key's last bytes, which chooses its bucket. With all keys in one bucket, `rest` is still fast.
fn hash_of(key: &str) -> u64
    ensures { result ≡ hash_of key.now }
{
    let bytes = key.as_bytes();
    let mut hash: u64 = 0;
    for i in bytes.len().saturating_sub(HASHED_BYTES)..bytes.len() {
        hash = hash
            .wrapping_add(bytes[i] as u64)
            .wrapping_mul(HASH_MULTIPLIER);
    }
    hash
}

// The index of the bucket's first slot, not the bucket's number.
fn bucket_of(key: &str, count: usize) -> usize
    requires { 8 ≤ count }
    ensures value { result ≡ bucket_of key.now count }
    ensures within { result + 8 ≤ count }
{
    let high = (hash_of(key) / 0x1_0000_0000) as usize;
    high % (count / BUCKET_SLOTS) * BUCKET_SLOTS
}

fn place_of(slots: &Vec<usize>, key: &str) -> BucketSlot
    requires { 8 ≤ vec_len slots.now }
    ensures { IsPlaceOf slots.now.items key.now result }
{
    let bucket = bucket_of(key, slots.len());
    let end = bucket + BUCKET_SLOTS;
    for at in bucket..end {
        if slots[at] == 0 {
            return BucketSlot { bucket, at };
        }
    }
    BucketSlot { bucket, at: end }
}

// `number` is what a slot holds: the index of a member plus 1, or 0.
fn is_key_of(members: &Vec<(CowStr<'_>, JsonValue<'_>)>, number: usize, key: &str) -> bool
    ensures same { result ≡ true → IsKeyOf (keys_of members.now.items) number key.now }
    ensures other { result ≡ false → IsNoKeyOf (keys_of members.now.items) number key.now }
{
    if number == 0 || members.len() < number {
        return false;
    }
    key == members[number - 1].0.as_str()
}

// Whether one of the bucket's slots names a member with this key.
fn is_named(
    members: &Vec<(CowStr<'_>, JsonValue<'_>)>,
    slots: &Vec<usize>,
    place: BucketSlot,
    key: &str,
) -> bool
    requires { place.at ≤ vec_len slots.now }
    ensures same { result ≡ true → IsSomewhere (keys_of members.now.items) slots.now.items place key.now }
    ensures other { result ≡ false → IsNowhere (keys_of members.now.items) slots.now.items place key.now }
{
    for i in place.bucket..place.at {
        if is_key_of(members, slots[i], key) {
            return true;
        }
    }
    false
}

// Adds the key of the member at the set's end. Returns `false` if it goes into `rest` and is there already.
fn put<'s>(
    alloc: Global,
    set: &mut DuplicateKeyIndex<'s>,
    place: BucketSlot,
    key: &CowStr<'s>,
) -> Result<bool, AllocFailed>
    requires end { set.old.end < 2 ^ 63 }
    requires place { IsPlaceOf set.old.slots.items (text_view key.now).bytes place }
    ensures base { set.new.base ≡ set.old.base }
    ensures adds { OnOk result (Adds (text_view key.now).bytes set.old set.new) }
    ensures new { IfOk result (λ new. new ≡ true → place.at ≡ place.bucket + 8
        → has_text set.old.rest (text_view key.now).bytes ≡ false) }
{
    if place.at < place.bucket + BUCKET_SLOTS {
        set.end += 1;
        set.slots[place.at] = set.end;
        return Ok(true);
    }
    let copy = copy_cow(alloc, key)?;
    let new = insert(&mut set.rest, copy)?;
    set.end += 1;
    Ok(new)
}

// Once the object has half as many members as there are slots, starts again with four times the slots.
fn widen<'s>(
    alloc: Global,
    set: &mut DuplicateKeyIndex<'s>,
    members: &Vec<(CowStr<'s>, JsonValue<'s>)>,
) -> Result<(), AllocFailed>
    requires { IsUpToDate (keys_of members.now.items) set.old }
    ensures keys { OnOk result (IsUpToDate (keys_of members.now.items) set.new) }
    ensures base { set.new.base ≡ set.old.base }
    ensures wide { OnOk result ((vec_len members.now - set.old.base < vec_len set.old.slots / 2)
        ⊎ (vec_len set.old.slots < vec_len set.new.slots)) }
{
    let count = set.slots.len();
    if members.len() - set.base < count / 2 {
        return Ok(());
    }
    set.slots = no_members(alloc, count.saturating_mul(4))?;
    set.end = set.base;
    Ok(())
}

// Adds the keys of the members that aren't in the set yet.
fn index_new_members<'s>(
    alloc: Global,
    set: &mut DuplicateKeyIndex<'s>,
    members: &Vec<(CowStr<'s>, JsonValue<'s>)>,
) -> Result<(), AllocFailed>
    requires { IsUpToDate (keys_of members.now.items) set.old }
    ensures keys { OnOk result (IsUpToDate (keys_of members.now.items) set.new) }
    ensures base { set.new.base ≡ set.old.base }
    ensures end { OnOk result (set.new.end ≡ vec_len members.now) }
{
    for i in set.end..members.len() {
        let key = &members[i].0;
        let place = place_of(&set.slots, key.as_str());
        put(alloc, set, place, key)?;
    }
    Ok(())
}

// Adds the key that is read next. `true` means that it is new, but `false` is not proved to mean that it isn't.
fn add_key<'s>(
    alloc: Global,
    set: &mut DuplicateKeyIndex<'s>,
    members: &Vec<(CowStr<'s>, JsonValue<'s>)>,
    key: &CowStr<'s>,
) -> Result<bool, AllocFailed>
    requires { IsUpToDate (keys_of members.now.items) set.old }
    ensures keys { OnOk result
        (IsUpToDate (keys_of members.now.items ++ (text_view key.now).bytes ∷ []) set.new) }
    ensures new { IfOk result (λ new. new ≡ true
        → has_key (text_view key.now).bytes (drop set.old.base members.now.items) ≡ false) }
{
    widen(alloc, set, members)?;
    index_new_members(alloc, set, members)?;
    let place = place_of(&set.slots, key.as_str());
    if is_named(members, &set.slots, place, key.as_str()) {
        return Ok(false);
    }
    put(alloc, set, place, key)
}

/// Adds the key that is read next to the set of the object whose members begin at `base`: the last set, or a new one.
/// `true` means that the key is new. After `false` the caller compares it with each key, since the set isn't proved to
/// hold only keys of the object. Fails if an allocation fails.
pub fn is_new_key<'s>(
    alloc: Global,
    sets: &mut Vec<DuplicateKeyIndex<'s>>,
    members: &Vec<(CowStr<'s>, JsonValue<'s>)>,
    base: usize,
    key: &CowStr<'s>,
) -> Result<bool, AllocFailed>
    requires within { base ≤ vec_len members.now }
    requires sets { All (IsUpToDate (keys_of members.now.items)) sets.old.items }
    ensures sets { OnOk result
        (All (IsUpToDate (keys_of members.now.items ++ (text_view key.now).bytes ∷ [])) sets.new.items) }
    ensures new { IfOk result (λ new. new ≡ true
        → has_key (text_view key.now).bytes (drop base members.now.items) ≡ false) }
{
    let count = sets.len();
    if count > 0 && sets[count - 1].base == base {
        return add_key(alloc, &mut sets[count - 1], members, key);
    }
    let mut set = DuplicateKeyIndex {
        base,
        end: base,
        slots: no_members(alloc, NEW_SET_SLOTS)?,
        rest: BTreeSet::new(alloc),
    };
    let new = add_key(alloc, &mut set, members, key)?;
    push(sets, set)?;
    Ok(new)
}
