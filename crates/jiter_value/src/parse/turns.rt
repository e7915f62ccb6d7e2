//! The turns of a reading. Each turn reads one scalar, opening bracket or key, and the steps after it. The position,
//! the state and all results of the fast path are passed in registers.
ghost use Rattle.std.specs.Prelude.{◌≡◌, ◌⊎◌, ◌+◌, ◌≤◌, ◌<◌, ◌++◌, ◌∷◌, ℕ, [], Bool, List, IfOk, OnOk, length, not};
ghost use Rattle.std.specs.Prelude.{true, false};
ghost use Rattle.jiter_value.specs.Words.{nesting_limit, NeverMovesBack, Returns, value_at, WhereRefused, text_view};
ghost use Rattle.jiter_value.specs.Words.{HoldsNothing, IsCleared, TextPolicy, rules_as, value_size, slot_of, IsFree};
ghost use Rattle.jiter_value.specs.Words.{from_value, StandsAtKey, HaveKeys, LeavesKeys, keys_of, GoesOn, HasGone};
ghost use Rattle.jiter_value.specs.Words.{HasTurned, IsAtValue, Turned, IsKeyRead, Proceeds, MayGrowFor, work_left};
ghost use Rattle.jiter_value.specs.Words.{outcome, view, MayGrowBy};
ghost use Rattle.jiter_value.specs.declared.parse.stacks.Stacks.{Stacks as StacksView};

use crate::parse::settings::Settings;
use crate::parse::stacks::{Slot, Stacks, State, no_error, take_error, take_root};
use crate::parse::string_storage::StringStorage;
use crate::parse::turns::key_turns::key_turn;
use crate::parse::turns::scalars::turn_into;
use crate::value::JsonValue;
use jiter_steps::parse::Parser;
use jiter_steps::read_error::ReadError;
use smallvec::SmallVec;
use std::alloc::Global;
use std::borrow::CowStr;

pub(crate) mod containers;
pub(crate) mod duplicate_keys;
pub(crate) mod key_turns;
pub(crate) mod scalars;
pub(crate) mod unique;

// One turn at a value. `ONCE` and the number of the slot make three copies of the code for one turn and three for all;
// [`key_turn`] has another, for the value after a key.
#[inline(always)]
fn value_turn<'s, T: StringStorage<'s>, const ONCE: bool>(
    reading: &mut Reading<'s>,
    texts: T,
    bytes: &[u8],
    at: usize,
    state: State,
) -> (usize, State)
    requires texts { T.of texts bytes.now }
    requires at_value { IsAtValue bytes.now reading.old.stacks (slot_of state) at }
    ensures { Turned T.policy T.wants bytes.now at (slot_of state) reading.old reading.new result }
{
    match state {
        State::Item => turn_into::<T, ONCE, 0>(reading, texts, bytes, at, Slot::Item),
        State::Member => turn_into::<T, ONCE, 1>(reading, texts, bytes, at, Slot::Member),
        _ => turn_into::<T, ONCE, 2>(reading, texts, bytes, at, Slot::Root),
    }
}

/// Decides after each key whether the reading may go on with it.
pub trait KeyPolicy<'s> {
    // It serves readings with this `TextPolicy`.
    ghost serves: { Self → TextPolicy → Type 0 };

    // It knows these keys of the members on the stack.
    ghost knows: { Self → List (List ℕ) → Type 0 };

    // It didn't allow a key.
    ghost stopped: { Self → Bool };

    // It doesn't allow the key at this index.
    ghost refuses: { Self → List ℕ → StacksView → ℕ → Type 0 };

    /// Returns whether the reading may go on with the key at `at`. The key ends before `end`, and its colon follows.
    fn admits(
        &mut self,
        alloc: Global,
        stacks: &Stacks<'s>,
        bytes: &[u8],
        at: usize,
        end: usize,
        key: &CowStr<'s>,
    ) -> bool
        requires read { (policy : TextPolicy) × (after : ℕ) × serves self.old policy
            × IsKeyRead policy bytes.now at end after (text_view key.now) }
        requires going { stopped self.old ≡ false }
        requires stands { StandsAtKey stacks.now }
        requires known { (ks : List (List ℕ)) × knows self.old ks × HaveKeys ks stacks.now.members.items }
        ensures free { (policy : TextPolicy) → serves self.old policy → result ≡ true
            → IsFree policy bytes.now stacks.now at }
        ensures known { result ≡ true
            → knows self.new (keys_of stacks.now.members.items ++ (text_view key.now).bytes ∷ []) }
        ensures refused { result ≡ false → refuses self.new bytes.now stacks.now at }
        ensures stopped { stopped self.new ≡ not result }
        ensures serves { (policy : TextPolicy) → serves self.old policy → serves self.new policy };

    /// Returns whether it didn't allow a key.
    fn has_stopped(&self) -> bool
        ensures { result ≡ stopped self.now };
}

/// Allows every key.
#[derive(Clone, Copy, Debug)]
pub struct AnyKey;

impl<'s> KeyPolicy<'s> for AnyKey {
    ghost serves = { λ k policy. policy.unique ≡ false };

    ghost knows = { λ k ks. Unit {0} };

    ghost stopped = { λ k. false };

    ghost refuses = { λ k t s j. ⊥ };

    #[inline(always)]
    fn admits(
        &mut self,
        _alloc: Global,
        _stacks: &Stacks<'s>,
        _bytes: &[u8],
        _at: usize,
        _end: usize,
        _key: &CowStr<'s>,
    ) -> bool {
        true
    }

    #[inline(always)]
    fn has_stopped(&self) -> bool {
        false
    }
}

/// A document that is being read: its settings, state and position, the stacks, and the buffer of decoded strings.
///
/// The bytes are passed to each call, because a scratch reads bytes of one lifetime after another.
#[derive(Drop)]
pub struct Reading<'s> {
    /// The allocator.
    pub alloc: Global,
    /// How the document is read.
    pub settings: Settings,
    /// What is expected at the position.
    pub state: State,
    /// The position: a byte index, from 0.
    pub at: usize,
    /// The buffer of decoded strings.
    pub buffer: Vec<u8>,
    /// The values and open containers so far.
    pub stacks: Stacks<'s>,
}

impl<'s> Reading<'s> {
    /// Creates a reading at index 0, for one document. Does not allocate.
    pub fn new(alloc: Global, settings: Settings) -> Reading<'s>
        ensures holds { IsCleared result.stacks }
        ensures settings { result.settings ≡ settings }
        ensures at { result.at ≡ 0 }
        ensures state { result.state ≡ State.Root }
    {
        Reading {
            alloc,
            settings,
            state: State::Root,
            at: 0,
            buffer: Vec::new(alloc),
            stacks: Stacks {
                items: Vec::new(alloc),
                members: Vec::new(alloc),
                nest: SmallVec::new(alloc),
                root: JsonValue::Null,
                error: no_error(),
                reused: false,
            },
        }
    }

    /// Takes one turn if `ONCE`, otherwise all turns. Stops before a key that `keys` doesn't allow.
    ///
    /// # Requires
    ///
    /// `texts` and `keys` are for these bytes, and `keys` stopped at none. Turns led here, and more is expected.
    #[inline(never)]
    pub fn go<T: StringStorage<'s>, K: KeyPolicy<'s>, const ONCE: bool>(
        &mut self,
        texts: T,
        keys: &mut K,
        bytes: &[u8],
    ) -> State
        requires texts { T.of texts bytes.now }
        requires serves { K.serves keys.old T.policy }
        requires going { K.stopped keys.old ≡ false }
        requires begun { (i : ℕ) × HasGone T.policy T.wants bytes.now i self.old }
        requires goes_on { GoesOn self.old.state }
        requires known { (ks : List (List ℕ)) × K.knows keys.old ks × HaveKeys ks self.old.stacks.members.items }
        ensures gone { (i : ℕ) → HasGone T.policy T.wants bytes.now i self.old
            → HasGone T.policy T.wants bytes.now i self.new }
        ensures turned { ONCE ≡ true
            → K.refuses keys.new bytes.now self.new.stacks self.new.at ⊎ HasTurned bytes.now self.old self.new }
        ensures ended { ONCE ≡ false → GoesOn self.new.state
            → (self.new.state ≡ State.Key) × K.refuses keys.new bytes.now self.new.stacks self.new.at }
        ensures state { result ≡ self.new.state }
        ensures settings { self.new.settings ≡ self.old.settings }
    {
        let mut at = self.at;
        let mut state = self.state;
        'turning: loop {
            let (next, what) = match state {
                State::Done => break 'turning,
                State::GivenUp => break 'turning,
                State::Key => {
                    let turned = key_turn::<T, K, ONCE>(self, texts, keys, bytes, at);
                    if keys.has_stopped() {
                        break 'turning;
                    }
                    turned
                }
                _ => value_turn::<T, ONCE>(self, texts, bytes, at, state),
            };
            at = next;
            state = what;
            if ONCE {
                break 'turning;
            }
        }
        self.at = at;
        self.state = state;
        state
    }

    /// Reads the value at the reader's position. `texts` decides how its texts are stored; duplicate keys are kept.
    ///
    /// # Errors
    ///
    /// - any error of the value; `Memory` only if it may grow, or `texts` allocates
    ///
    /// # Requires
    ///
    /// `texts` is for the reader's bytes and keeps duplicate keys. The reader's position is before the length, and the
    /// stacks are empty.
    pub fn run<T: StringStorage<'s>>(
        &mut self,
        texts: T,
        parser: &mut Parser<'_>,
    ) -> Result<JsonValue<'s>, ReadError>
        requires texts { T.of texts parser.old.bytes.now }
        requires repeats { T.policy.unique ≡ false }
        requires within { parser.old.index < length parser.old.bytes.now }
        requires holds { HoldsNothing self.old.stacks }
        ensures moves { NeverMovesBack parser.old parser.new }
        ensures value { Returns view result parser.new.index
            (value_at (rules_as T.policy self.old.settings) parser.old.bytes.now nesting_limit
            parser.old.index) }
        ensures memory { WhereRefused result
            (MayGrowBy T.wants parser.old.bytes.now parser.old.index) }
        ensures cleared { IfOk result (λ v. IsCleared self.new.stacks) }
        ensures settings { self.new.settings ≡ self.old.settings }
    {
        self.state = State::Root;
        self.at = parser.index;
        let bytes = parser.bytes;
        let state = self.go::<T, AnyKey, false>(texts, &mut AnyKey, bytes);
        parser.index = self.at;
        match state {
            State::Done => Ok(take_root(&mut self.stacks)),
            _ => Err(take_error(&mut self.stacks)),
        }
    }
}
