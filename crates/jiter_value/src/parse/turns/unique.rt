//! Turns that stop at a duplicate key.
ghost use Rattle.std.specs.Prelude.{◌≡◌, ◌+◌, ◌≤◌, ◌<◌, ◌∷◌, ◌++◌, ℕ, [], All, IfOk, IfSome, OnOk, drop, false, ◌⊎◌};
ghost use Rattle.std.specs.Prelude.{is_some, length, not, reverse, slice_index, true, option_map, bytes_eq};
ghost use Rattle.jiter_value.specs.Words.{taken, nesting_limit, NeverMovesBack, value_at, step, colon, text_view};
ghost use Rattle.jiter_value.specs.Words.{borrowed_unique, rules_as, HasKeys, IsUpToDate, StandsAtKey, IsFree, keys_of};
ghost use Rattle.jiter_value.specs.Words.{HoldsNothing, IsKeyRead, has_key, innermost_base, object_has_key, fault_of};
ghost use Rattle.jiter_value.specs.Words.{fault_at_key, HasStopped, GivesUnique, WhereUniqueRefused, MayGrowBy};

use crate::parse::stacks::{OpenContainer, Stacks, State, take_error, take_root};
use crate::parse::string_storage::BorrowingUnique;
use crate::parse::turns::duplicate_keys::{DuplicateKeyIndex, drop_closed, is_new_key};
use crate::parse::turns::{KeyPolicy, Reading};
use crate::value::JsonValue;
use jiter_scan::memory::{AllocFailed, copy_text};
use jiter_steps::parse::Parser;
use jiter_steps::read_error::ReadError;
use jiter_steps::whitespace::past_blanks;
use smallvec::SmallVec;
use std::alloc::Global;
use std::borrow::CowStr;

/// A duplicate key.
#[derive(Drop)]
pub struct Repeated {
    /// The key, decoded.
    pub key: String,
    /// The index after its colon.
    pub index: usize,
}

/// Why a reading that rejects duplicate keys stopped.
#[derive(Drop)]
pub enum Interrupted {
    /// An error of the bytes, or a failed allocation.
    Read(ReadError),
    /// A duplicate key.
    Repeated(Repeated),
}

#[inline(always)]
fn innermost_base(nest: &SmallVec<OpenContainer, 8>) -> usize
    requires { 0 < length nest.now.items }
    ensures { result ≡ innermost_base (reverse nest.now.items) }
{
    let opens = nest.as_slice();
    opens[opens.len() - 1].base
}

#[inline(always)]
fn begin_alike(one: &str, other: &str) -> bool
    ensures alike { result ≡ true → (one.now ≡ []) ⊎ ((other.now ≡ [])
        ⊎ (slice_index one.now 0 ≡ slice_index other.now 0)) }
    ensures unlike { result ≡ false → bytes_eq one.now other.now ≡ false }
{
    let one = one.as_bytes();
    let other = other.as_bytes();
    one.is_empty() || other.is_empty() || one[0] == other[0]
}

// Whether a member from `from` on has the key.
#[cold]
#[inline(never)]
fn is_among(members: &Vec<(CowStr<'_>, JsonValue<'_>)>, from: usize, key: &str) -> bool
    ensures { result ≡ has_key key.now (drop from members.now.items) }
{
    for i in from..members.len() {
        let other = members[i].0.as_str();
        if begin_alike(key, other) && key == other {
            return true;
        }
    }
    false
}

// Out of line: its loop would take the registers of all turns. It saves none of them, since its one call is its last. Few
// keys of the same length begin with the same byte.
#[inline(never)]
fn has_key(members: &Vec<(CowStr<'_>, JsonValue<'_>)>, base: usize, key: &str) -> bool
    ensures { result ≡ has_key key.now (drop base members.now.items) }
{
    for i in base..members.len() {
        let other = members[i].0.as_str();
        if key.len() == other.len() && begin_alike(key, other) {
            return is_among(members, base, key);
        }
    }
    false
}

// An object with at most this many members has no set: a key is compared with all of its keys.
const LINEAR_SEARCH_MAX: usize = 32;

// Whether the innermost object doesn't have the key yet. If it has more than `LINEAR_SEARCH_MAX` members, adds the key to its set.
fn is_new<'s>(
    alloc: Global,
    sets: &mut Vec<DuplicateKeyIndex<'s>>,
    stacks: &Stacks<'s>,
    key: &CowStr<'s>,
) -> Result<bool, AllocFailed>
    requires stands { StandsAtKey stacks.now }
    requires sets { All (IsUpToDate (keys_of stacks.now.members.items)) sets.old.items }
    ensures sets { OnOk result
        (All (IsUpToDate (keys_of stacks.now.members.items ++ (text_view key.now).bytes ∷ [])) sets.new.items) }
    ensures new { IfOk result (λ new. new ≡ not (object_has_key (text_view key.now).bytes stacks.now)) }
{
    let base = innermost_base(&stacks.nest);
    if stacks.members.len() - base > LINEAR_SEARCH_MAX
        && is_new_key(alloc, sets, &stacks.members, base, key)?
    {
        return Ok(true);
    }
    Ok(!has_key(&stacks.members, base, key.as_str()))
}

// The key, if the innermost object has it already. It ends before `end`, and its colon follows.
fn find_repeat<'s>(
    alloc: Global,
    sets: &mut Vec<DuplicateKeyIndex<'s>>,
    stacks: &Stacks<'s>,
    bytes: &[u8],
    end: usize,
    key: &CowStr<'s>,
) -> Result<Option<Repeated>, AllocFailed>
    requires stands { StandsAtKey stacks.now }
    requires within { end ≤ length bytes.now }
    requires colon { (after : ℕ) × (step bytes.now colon end ≡ taken tt after) }
    requires sets { All (HasKeys (keys_of stacks.now.members.items)) sets.old.items }
    ensures sets { OnOk result
        (All (IsUpToDate (keys_of stacks.now.members.items ++ (text_view key.now).bytes ∷ [])) sets.new.items) }
    ensures found { IfOk result (λ found. option_map fault_of found
        ≡ fault_at_key (text_view key.now).bytes stacks.now bytes.now end) }
    ensures place { IfOk result (λ found. IfSome found (λ r. (end ≤ r.index) × (r.index ≤ length bytes.now))) }
{
    drop_closed(sets, &stacks.members);
    if is_new(alloc, sets, stacks, key)? {
        return Ok(None);
    }
    let text = copy_text(alloc, key.as_str())?;
    Ok(Some(Repeated {
        key: text,
        index: past_blanks(bytes, end) + 1,
    }))
}

/// Allows a key only if its object doesn't have it yet.
#[derive(Drop)]
pub struct DistinctKeys<'s> {
    sets: Vec<DuplicateKeyIndex<'s>>,
    stopped: Option<(Interrupted, usize)>,
}

impl<'s> DistinctKeys<'s> {
    // The slow path of `admits`: also looks into the sets. Stores why the reading stops.
    #[cold]
    #[inline(never)]
    fn admits_slowly(
        &mut self,
        alloc: Global,
        stacks: &Stacks<'s>,
        bytes: &[u8],
        at: usize,
        end: usize,
        key: &CowStr<'s>,
    ) -> bool
        requires read { (after : ℕ) × IsKeyRead borrowed_unique bytes.now at end after (text_view key.now) }
        requires going { is_some self.old.stopped ≡ false }
        requires stands { StandsAtKey stacks.now }
        requires sets { All (HasKeys (keys_of stacks.now.members.items)) self.old.sets.items }
        ensures sets { result ≡ true
            → All (HasKeys (keys_of stacks.now.members.items ++ (text_view key.now).bytes ∷ [])) self.new.sets.items }
        ensures free { result ≡ true → IsFree borrowed_unique bytes.now stacks.now at }
        ensures refused { result ≡ false → HasStopped self.new.stopped bytes.now stacks.now at }
        ensures stopped { is_some self.new.stopped ≡ not result }
    {
        match find_repeat(alloc, &mut self.sets, stacks, bytes, end, key) {
            Ok(None) => return true,
            Ok(Some(repeated)) => {
                let place = repeated.index;
                self.stopped = Some((Interrupted::Repeated(repeated), place));
            }
            Err(refused) => self.stopped = Some((
                Interrupted::Read(ReadError::Memory(refused)),
                at,
            )),
        }
        false
    }
}

impl<'s> KeyPolicy<'s> for DistinctKeys<'s> {
    ghost serves = { λ k policy. policy ≡ borrowed_unique };

    ghost knows = { λ k ks. All (HasKeys ks) k.sets.items };

    ghost stopped = { λ k. is_some k.stopped };

    ghost refuses = { λ k t s j. HasStopped k.stopped t s j };

    // The fast path: an object with few members, while there are no sets.
    #[inline(always)]
    fn admits(
        &mut self,
        alloc: Global,
        stacks: &Stacks<'s>,
        bytes: &[u8],
        at: usize,
        end: usize,
        key: &CowStr<'s>,
    ) -> bool {
        let base = innermost_base(&stacks.nest);
        if self.sets.is_empty()
            && stacks.members.len() - base <= LINEAR_SEARCH_MAX
            && !has_key(&stacks.members, base, key.as_str())
        {
            return true;
        }
        self.admits_slowly(alloc, stacks, bytes, at, end, key)
    }

    #[inline(always)]
    fn has_stopped(&self) -> bool {
        self.stopped.is_some()
    }
}

/// Reads the value at the reader's position, its texts borrowed. Stops at a duplicate key.
///
/// # Errors
///
/// - any error of the value, or a duplicate key
///
/// # Requires
///
/// The reader's position is before the length, and the stacks are empty.
pub fn run_unique<'s>(
    reading: &mut Reading<'s>,
    texts: BorrowingUnique<'s>,
    parser: &mut Parser<'_>,
) -> Result<JsonValue<'s>, Interrupted>
    requires texts { texts.bytes.now ≡ parser.old.bytes.now }
    requires within { parser.old.index < length parser.old.bytes.now }
    requires holds { HoldsNothing reading.old.stacks }
    ensures moves { NeverMovesBack parser.old parser.new }
    ensures value { GivesUnique result parser.new.index
        (value_at (rules_as borrowed_unique reading.old.settings) parser.old.bytes.now nesting_limit parser.old.index) }
    ensures memory { WhereUniqueRefused result (MayGrowBy ⊥ parser.old.bytes.now parser.old.index) }
    ensures settings { reading.new.settings ≡ reading.old.settings }
{
    let mut keys = DistinctKeys {
        sets: Vec::new(reading.alloc),
        stopped: None,
    };
    reading.state = State::Root;
    reading.at = parser.index;
    let bytes = parser.bytes;
    let state = reading.go::<BorrowingUnique<'s>, DistinctKeys<'s>, false>(texts, &mut keys, bytes);
    parser.index = reading.at;
    match state {
        State::Done => Ok(take_root(&mut reading.stacks)),
        State::GivenUp => Err(Interrupted::Read(take_error(&mut reading.stacks))),
        _ => {
            let DistinctKeys { sets: _, stopped } = keys;
            match stopped {
                Some((why, place)) => {
                    parser.index = place;
                    Err(why)
                }
                None => unreachable!(),
            }
        }
    }
}
