//! The allocations that the parser makes. One that fails returns [`AllocFailed`], which only this module can make.
ghost use Rattle.std.specs.Prelude.{◌≡◌, ◌+◌, ◌^◌, ◌<◌, ◌≤◌, ◌∷◌, ◌++◌, [], take, drop, IfOk, OnOk, OnErr};
ghost use Rattle.std.specs.Prelude.{decimal, length, replicate, string_bytes, string_capacity, string_len};
ghost use Rattle.std.specs.Prelude.{vec_capacity, false, not, true, vec_len, encode_utf8, IsAscii};
ghost use Rattle.jiter_scan.specs.Words.{contains, insert_key, HasRoomFor};

use crate::text::ascii_text;
use smallvec::SmallVec;
use std::alloc::{AllocError, Global};
use std::collections::BTreeSet;

// The least capacity, in bytes, that `push_ascii` reserves for a string that has none yet.
const SHORT_TEXT: usize = 32;

/// An allocation failed. It converts to [`AllocError`].
///
/// Only this module makes one, after a request that failed.
#[derive(Debug, PartialEq, Eq, Drop)]
pub struct AllocFailed {
    error: AllocError,
}

impl From<AllocFailed> for AllocError {
    ghost from_gives = { λ _ _. Unit {0} };

    fn from(refused: AllocFailed) -> AllocError {
        refused.error
    }
}

/// Returns an empty vector with exactly this capacity. Capacity 0 never fails.
pub fn with_capacity<T: Drop>(alloc: Global, capacity: usize) -> Result<Vec<T>, AllocFailed>
    ensures items { IfOk result (λ v. v.items ≡ []) }
    ensures capacity { IfOk result (λ v. vec_capacity v ≡ capacity) }
    ensures none { OnErr result (0 < capacity) }
{
    match Vec::with_capacity(alloc, capacity) {
        Ok(items) => Ok(items),
        Err(error) => Err(AllocFailed { error }),
    }
}

/// Appends an item. Fails only if the vector is full.
pub fn push<T: Drop>(items: &mut Vec<T>, item: T) -> Result<(), AllocFailed>
    ensures ok { OnOk result (items.new.items ≡ items.old.items ++ item ∷ []) }
    ensures err { OnErr result (items.new.items ≡ items.old.items) }
    ensures full { OnErr result (vec_capacity items.old ≤ vec_len items.old) }
{
    match items.push(item) {
        Ok(()) => Ok(()),
        Err(_) => Err(AllocFailed { error: AllocError }),
    }
}

/// Reserves capacity for one more item.
pub fn make_room<T: Drop>(items: &mut Vec<T>) -> Result<(), AllocFailed>
    ensures same { items.new.items ≡ items.old.items }
    ensures ok { OnOk result (vec_len items.new < vec_capacity items.new) }
    ensures full { OnErr result (vec_capacity items.old ≤ vec_len items.old) }
{
    match items.reserve(1) {
        Ok(()) => Ok(()),
        Err(error) => Err(AllocFailed { error }),
    }
}

/// Appends an item to a vector that stores its first `N` items inline. Fails only if the vector is full.
pub fn push_small<T: Drop + Default, const N: usize>(
    items: &mut SmallVec<T, N>,
    item: T,
) -> Result<(), AllocFailed>
    ensures ok { OnOk result (items.new.items ≡ items.old.items ++ item ∷ []) }
    ensures err { OnErr result (items.new.items ≡ items.old.items) }
    ensures full { OnErr result (¬ HasRoomFor items.old 1) }
{
    match items.push(item) {
        Ok(()) => Ok(()),
        Err(_) => Err(AllocFailed { error: AllocError }),
    }
}

/// Moves the items from the index `at` on to a new vector. Fails only if there is such an item.
pub fn split_off<T: Drop>(items: &mut Vec<T>, at: usize) -> Result<Vec<T>, AllocFailed>
    requires { at ≤ vec_len items.old }
    ensures rest { OnOk result (items.new.items ≡ take at items.old.items) }
    ensures part { IfOk result (λ part. part.items ≡ drop at items.old.items) }
    ensures some { OnErr result (at < vec_len items.old) }
{
    match items.split_off(at) {
        Ok(part) => Ok(part),
        Err(error) => Err(AllocFailed { error }),
    }
}

/// Appends `more` zeros.
pub fn lengthen(bytes: &mut Vec<u8>, more: usize) -> Result<(), AllocFailed>
    requires { vec_len bytes.old + more < 2 ^ 64 }
    ensures ok { OnOk result (bytes.new.items ≡ bytes.old.items ++ replicate more 0) }
    ensures err { OnErr result (bytes.new.items ≡ bytes.old.items) }
    ensures full { OnErr result (vec_capacity bytes.old < vec_len bytes.old + more) }
{
    match bytes.resize(bytes.len() + more, 0) {
        Ok(()) => Ok(()),
        Err(error) => Err(AllocFailed { error }),
    }
}

/// Inserts a key into a set, and returns whether it is new. Fails only for a new key.
pub fn insert<K: Ord + Drop>(set: &mut BTreeSet<K>, key: K) -> Result<bool, AllocFailed>
    ensures new { IfOk result (λ new. new ≡ not (contains K.cmp set.old key)) }
    ensures keys { OnOk result (set.new.keys ≡ insert_key K.cmp set.old.keys key) }
    ensures has { OnOk result (contains K.cmp set.new key ≡ true) }
    ensures same { OnErr result (set.new.keys ≡ set.old.keys) }
    ensures absent { OnErr result (contains K.cmp set.old key ≡ false) }
{
    match set.insert(key) {
        Ok(new) => Ok(new),
        Err(_) => Err(AllocFailed { error: AllocError }),
    }
}

/// Returns a copy of a string.
pub fn copy_text(alloc: Global, text: &str) -> Result<String, AllocFailed>
    ensures { IfOk result (λ copy. string_bytes copy ≡ text.now) }
{
    match String::from_str(alloc, text) {
        Ok(copy) => Ok(copy),
        Err(error) => Err(AllocFailed { error }),
    }
}

/// Appends a string.
pub fn push_text(text: &mut String, more: &str) -> Result<(), AllocFailed>
    ensures ok { OnOk result (string_bytes text.new ≡ string_bytes text.old ++ more.now) }
    ensures err { OnErr result (string_bytes text.new ≡ string_bytes text.old) }
    ensures full { OnErr result (string_capacity text.old < string_len text.old + length more.now) }
{
    match text.push_str(more) {
        Ok(()) => Ok(()),
        Err(error) => Err(AllocFailed { error }),
    }
}

/// Appends a character.
#[inline(always)]
pub fn push_char(text: &mut String, c: char) -> Result<(), AllocFailed>
    ensures ok { OnOk result (string_bytes text.new ≡ string_bytes text.old ++ encode_utf8 c) }
    ensures err { OnErr result (string_bytes text.new ≡ string_bytes text.old) }
    ensures full { OnErr result (string_capacity text.old < string_len text.old + length (encode_utf8 c)) }
{
    match text.push(c) {
        Ok(()) => Ok(()),
        Err(error) => Err(AllocFailed { error }),
    }
}

#[inline(never)]
fn begin_text(text: &mut String, count: usize) -> Result<(), AllocFailed>
    ensures { string_bytes text.new ≡ string_bytes text.old }
{
    match text.reserve(count.max(SHORT_TEXT)) {
        Ok(()) => Ok(()),
        Err(error) => Err(AllocFailed { error }),
    }
}

/// Appends bytes below 80 hex.
///
/// For two or more bytes, a string without capacity gets 32 bytes at least: one that grows in chunks then seldom moves.
#[inline(always)]
pub fn push_ascii(text: &mut String, bytes: &[u8]) -> Result<(), AllocFailed>
    requires { IsAscii bytes.now }
    ensures ok { OnOk result (string_bytes text.new ≡ string_bytes text.old ++ bytes.now) }
    ensures err { OnErr result (string_bytes text.new ≡ string_bytes text.old) }
    ensures some { OnErr result (0 < length bytes.now) }
    ensures full { OnErr result (string_capacity text.old < string_len text.old + length bytes.now) }
{
    if let [byte] = bytes {
        return push_char(text, *byte as char);
    }
    if text.capacity() == 0 && !bytes.is_empty() {
        begin_text(text, bytes.len())?;
    }
    push_text(text, ascii_text(bytes))
}

/// Appends a number in decimal digits.
pub fn push_number(text: &mut String, number: usize) -> Result<(), AllocFailed>
    ensures { OnOk result (string_bytes text.new ≡ string_bytes text.old ++ decimal number) }
{
    match number.to_string(*text.allocator()) {
        Ok(digits) => push_text(text, digits.as_str()),
        Err(error) => Err(AllocFailed { error }),
    }
}
