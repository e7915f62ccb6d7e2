//! Turns at scalars. What is short and right is read in place. Any other outcome is a call that takes over the turn.
ghost use Rattle.std.specs.Prelude.{◌≡◌, ◌≢◌, ◌+◌, ◌≤◌, ◌<◌, ℕ, IfOk, OnErr, false, length, slice_index, true};
ghost use Rattle.jiter_value.specs.Words.{fault_kind, number_view, IsLook, scan_stop, literal_tree, start_of, done};
ghost use Rattle.jiter_value.specs.Words.{number_tree, fault, value_at, string_at, Start, tree_as, rules_as, size, Int};
ghost use Rattle.jiter_value.specs.Words.{LeavesKeys, IsNumberAt, IsAtValue, IsPutAt, IsRefusedAt, Turned, view};
ghost use Rattle.jiter_steps.specs.declared.read_error.ReadError.TheVariants as error;

use crate::parse::stacks::{Slot, Stacks, State, give_up, no_memory, put_reserved};
use crate::parse::string_storage::{StringStorage, store_borrowed};
use crate::parse::turns::Reading;
use crate::parse::turns::containers::{after_value, begin, fault_inside};
use crate::value::JsonValue;
use jiter_scan::bytes::short_scan::{Look, look_at};
use jiter_scan::errors::{FaultKind, fault_at};
use jiter_scan::memory::{AllocFailed, copy_text};
use jiter_scan::number::fast_number::{FastNumber, fast_number_at, signed};
use jiter_scan::number::number_decoder::slow_number_at;
use jiter_scan::number::number_span::skip_minus;
use jiter_scan::text::{ascii_text, utf8_text};
use jiter_scan::{NumberAny, NumberInt};
use jiter_steps::fast::fast_literal_end;
use jiter_steps::parse::{ContainerKind, Literal, Start, literal_end, start_of};
use jiter_steps::read_error::ReadError;
use jiter_steps::string_decoder::{decode_inline, string_from};
use std::borrow::CowStr;

#[inline(always)]
fn literal_value<'s>(literal: Literal) -> JsonValue<'s>
    ensures value { view result ≡ literal_tree literal }
    ensures one { size (view result) ≡ 1 }
{
    match literal {
        Literal::Null => JsonValue::Null,
        Literal::True => JsonValue::Bool(true),
        Literal::False => JsonValue::Bool(false),
    }
}

// An error at `index` where a value is expected. If forgiven, the container ends. A key without a value is dropped.
#[cold]
#[inline(never)]
fn fault_in_value<'s, T: StringStorage<'s>>(
    reading: &mut Reading<'s>,
    bytes: &[u8],
    at: usize,
    index: usize,
    kind: FaultKind,
    slot: Slot,
) -> (usize, State)
    requires at_value { IsAtValue bytes.now reading.old.stacks slot at }
    requires value { (levels : ℕ) → value_at (rules_as T.policy reading.old.settings) bytes.now levels at
        ≡ fault (fault_kind kind) index at }
    ensures { Turned T.policy T.wants bytes.now at slot reading.old reading.new result }
{
    match slot {
        Slot::Item => fault_inside::<T>(reading, bytes, at, index, kind, ContainerKind::Array),
        Slot::Member => {
            let _ = reading.stacks.members.pop();
            fault_inside::<T>(reading, bytes, at, index, kind, ContainerKind::Object)
        }
        Slot::Root => give_up(&mut reading.stacks, fault_at(kind, index), at),
    }
}

// Puts the scalar at `at`, which ends at `end`, into its slot, and goes on after it.
#[inline(always)]
fn put_and_go_on<'s, T: StringStorage<'s>>(
    reading: &mut Reading<'s>,
    bytes: &[u8],
    at: usize,
    end: usize,
    slot: Slot,
    value: JsonValue<'s>,
) -> (usize, State)
    requires at_value { IsAtValue bytes.now reading.old.stacks slot at }
    requires value { (levels : ℕ) → value_at (rules_as T.policy reading.old.settings) bytes.now levels at
        ≡ done (view value) end }
    requires one { size (view value) ≡ 1 }
    requires within { (at < end) × (end ≤ length bytes.now) }
    ensures { Turned T.policy T.wants bytes.now at slot reading.old reading.new result }
{
    put_reserved(&mut reading.stacks, slot, value);
    after_value::<T>(reading, bytes, end, slot)
}

// The string at `at`, whose first backslash is at `stop`. `ascii` says whether all bytes before it are below 80 hex.
#[cold]
#[inline(never)]
fn escaped_turn<'s, T: StringStorage<'s>>(
    reading: &mut Reading<'s>,
    texts: T,
    bytes: &[u8],
    at: usize,
    stop: usize,
    ascii: bool,
    slot: Slot,
) -> (usize, State)
    requires texts { T.of texts bytes.now }
    requires at_value { IsAtValue bytes.now reading.old.stacks slot at }
    requires begins { start_of (slice_index bytes.now at) ≡ Start.String }
    requires stop { stop ≡ scan_stop bytes.now (at + 1) }
    requires escaped { IsLook bytes.now (at + 1) stop (Look.Escaped ascii) }
    ensures { Turned T.policy T.wants bytes.now at slot reading.old reading.new result }
{
    let keep = reading.settings.mode.allow_trailing_str();
    match decode_inline(&mut reading.buffer, bytes, at, stop, ascii, keep) {
        Ok((count, end)) => {
            // An owned copy, made by one allocation of its exact length.
            let decoded = utf8_text(&reading.buffer.as_slice()[..count]);
            match copy_text(reading.alloc, decoded) {
                Ok(own) => match texts.store(bytes, at + 1, CowStr::Owned(own)) {
                    Ok(text) => {
                        put_and_go_on::<T>(reading, bytes, at, end, slot, JsonValue::Str(text))
                    }
                    Err(refused) => no_memory(&mut reading.stacks, refused, at),
                },
                Err(refused) => no_memory(&mut reading.stacks, refused, at),
            }
        }
        Err(ReadError::Fault(fault)) => {
            fault_in_value::<T>(reading, bytes, at, fault.index, fault.kind, slot)
        }
        Err(ReadError::Memory(refused)) => no_memory(&mut reading.stacks, refused, at),
    }
}

// The string at `at`, if it isn't plain ASCII up to its quote, or has an error. A look at it found `look` at `to`.
#[cold]
#[inline(never)]
fn slow_text_turn<'s, T: StringStorage<'s>>(
    reading: &mut Reading<'s>,
    texts: T,
    bytes: &[u8],
    at: usize,
    to: usize,
    look: Look,
    slot: Slot,
) -> (usize, State)
    requires texts { T.of texts bytes.now }
    requires at_value { IsAtValue bytes.now reading.old.stacks slot at }
    requires begins { start_of (slice_index bytes.now at) ≡ Start.String }
    requires stop { to ≡ scan_stop bytes.now (at + 1) }
    requires found { IsLook bytes.now (at + 1) to look }
    ensures { Turned T.policy T.wants bytes.now at slot reading.old reading.new result }
{
    let keep = reading.settings.mode.allow_trailing_str();
    let found = (to, look);
    match string_from(reading.alloc, &mut reading.buffer, bytes, at, found, keep) {
        Ok((text, end)) => match texts.store(bytes, at + 1, text) {
            Ok(kept) => { put_and_go_on::<T>(reading, bytes, at, end, slot, JsonValue::Str(kept)) }
            Err(refused) => no_memory(&mut reading.stacks, refused, end),
        },
        Err(ReadError::Fault(fault)) => {
            fault_in_value::<T>(reading, bytes, at, fault.index, fault.kind, slot)
        }
        Err(ReadError::Memory(refused)) => no_memory(&mut reading.stacks, refused, at),
    }
}

#[inline(always)]
fn text_turn<'s, T: StringStorage<'s>>(
    reading: &mut Reading<'s>,
    texts: T,
    bytes: &[u8],
    at: usize,
    slot: Slot,
) -> (usize, State)
    requires texts { T.of texts bytes.now }
    requires at_value { IsAtValue bytes.now reading.old.stacks slot at }
    requires begins { start_of (slice_index bytes.now at) ≡ Start.String }
    ensures { Turned T.policy T.wants bytes.now at slot reading.old reading.new result }
{
    let (to, look) = look_at(bytes, at + 1);
    match look {
        Look::Plain => match store_borrowed(texts, bytes, at + 1, utf8_text(&bytes[at + 1..to])) {
            Ok(text) => put_and_go_on::<T>(reading, bytes, at, to + 1, slot, JsonValue::Str(text)),
            Err(refused) => no_memory(&mut reading.stacks, refused, to + 1),
        },
        Look::Escaped(ascii) => escaped_turn(reading, texts, bytes, at, to, ascii, slot),
        _ => slow_text_turn(reading, texts, bytes, at, to, look, slot),
    }
}

#[inline(always)]
fn number_value<'s, T: StringStorage<'s>>(
    texts: T,
    bytes: &[u8],
    at: usize,
    number: NumberAny<'_>,
) -> Result<JsonValue<'s>, AllocFailed>
    requires texts { T.of texts bytes.now }
    requires borrowed { IsNumberAt bytes.now at (number_view number) }
    ensures value { IfOk result (λ v.
        view v ≡ tree_as T.policy.text (number_tree (number_view number.entry))) }
    ensures one { IfOk result (λ v. size (view v) ≡ 1) }
    ensures memory { OnErr result T.wants }
{
    match number {
        NumberAny::Int(NumberInt::Int(integer)) => Ok(JsonValue::Int(integer)),
        NumberAny::Int(NumberInt::BigInt(text)) => {
            let kept = store_borrowed(texts, bytes, at, text)?;
            Ok(JsonValue::BigInt(kept))
        }
        NumberAny::Float(text) => {
            let kept = store_borrowed(texts, bytes, at, text)?;
            Ok(JsonValue::Float(kept))
        }
    }
}

// Any number, and its errors.
#[cold]
#[inline(never)]
fn slow_number_turn<'s, T: StringStorage<'s>>(
    reading: &mut Reading<'s>,
    texts: T,
    bytes: &[u8],
    at: usize,
    slot: Slot,
) -> (usize, State)
    requires texts { T.of texts bytes.now }
    requires at_value { IsAtValue bytes.now reading.old.stacks slot at }
    requires begins { start_of (slice_index bytes.now at) ≡ Start.Number }
    ensures { Turned T.policy T.wants bytes.now at slot reading.old reading.new result }
{
    match slow_number_at(bytes, at, reading.settings.allow_inf_nan) {
        Ok((number, end)) => match number_value(texts, bytes, at, number) {
            Ok(value) => put_and_go_on::<T>(reading, bytes, at, end, slot, value),
            Err(refused) => no_memory(&mut reading.stacks, refused, end),
        },
        Err(fault) => fault_in_value::<T>(reading, bytes, at, fault.index, fault.kind, slot),
    }
}

// What became of a number on the fast path.
#[derive(Clone, Copy, Debug)]
enum Put {
    // It was put into its slot.
    Done,
    // It is not short. Nothing has changed.
    Long,
    // An allocation for its text failed.
    NoMemory,
}

#[cold]
#[inline(never)]
fn refused_at(stacks: &mut Stacks<'_>, refused: AllocFailed, at: usize) -> (usize, Put)
    ensures place { result ≡ (at, Put.NoMemory) }
    ensures error { stacks.new.error ≡ error.Memory refused }
{
    stacks.error = ReadError::Memory(refused);
    (at, Put::NoMemory)
}

// Puts a short number, and returns the index after it. The steps after it would make this too large to be inlined.
#[inline(always)]
fn put_number<'s, T: StringStorage<'s>>(
    texts: T,
    stacks: &mut Stacks<'s>,
    bytes: &[u8],
    at: usize,
    slot: Slot,
) -> (usize, Put)
    requires texts { T.of texts bytes.now }
    requires at_value { IsAtValue bytes.now stacks.old slot at }
    requires begins { start_of (slice_index bytes.now at) ≡ Start.Number }
    ensures put { result.1 ≡ Put.Done → IsPutAt T.policy bytes.now stacks.old at slot stacks.new result.0 }
    ensures other { result.1 ≡ Put.Long → stacks.new ≡ stacks.old }
    ensures refused { result.1 ≡ Put.NoMemory → IsRefusedAt bytes.now at stacks.new result.0 }
    ensures memory { result.1 ≡ Put.NoMemory → T.wants }
    ensures keys { result.1 ≡ Put.Done → LeavesKeys stacks.old.members.items stacks.new.members.items }
{
    let from = skip_minus(bytes, at);
    match fast_number_at(bytes, from) {
        FastNumber::Int(magnitude, end) => {
            put_reserved(stacks, slot, JsonValue::Int(signed(magnitude, from > at)));
            (end, Put::Done)
        }
        FastNumber::Float(end) => {
            match store_borrowed(texts, bytes, at, ascii_text(&bytes[at..end])) {
                Ok(text) => {
                    put_reserved(stacks, slot, JsonValue::Float(text));
                    (end, Put::Done)
                }
                Err(refused) => refused_at(stacks, refused, end),
            }
        }
        FastNumber::Other => (at, Put::Long),
    }
}

// With the constants of [`turn_into`], each copy has one caller. So it is inlined, although it is large.
#[inline(always)]
fn number_turn<'s, T: StringStorage<'s>, const ONCE: bool, const SLOT: u8>(
    reading: &mut Reading<'s>,
    texts: T,
    bytes: &[u8],
    at: usize,
    slot: Slot,
) -> (usize, State)
    requires texts { T.of texts bytes.now }
    requires at_value { IsAtValue bytes.now reading.old.stacks slot at }
    requires begins { start_of (slice_index bytes.now at) ≡ Start.Number }
    ensures { Turned T.policy T.wants bytes.now at slot reading.old reading.new result }
{
    let (end, put) = put_number(texts, &mut reading.stacks, bytes, at, slot);
    match put {
        Put::Done => after_value::<T>(reading, bytes, end, slot),
        Put::Long => slow_number_turn(reading, texts, bytes, at, slot),
        Put::NoMemory => (end, State::GivenUp),
    }
}

// A literal near the end of the input, or an error in it.
#[cold]
#[inline(never)]
fn slow_literal_turn<'s, T: StringStorage<'s>>(
    reading: &mut Reading<'s>,
    bytes: &[u8],
    at: usize,
    slot: Slot,
    literal: Literal,
) -> (usize, State)
    requires at_value { IsAtValue bytes.now reading.old.stacks slot at }
    requires begins { start_of (slice_index bytes.now at) ≡ Start.Literal literal }
    ensures { Turned T.policy T.wants bytes.now at slot reading.old reading.new result }
{
    match literal_end(bytes, at, literal) {
        Ok(end) => {
            let value: JsonValue<'s> = literal_value(literal);
            put_and_go_on::<T>(reading, bytes, at, end, slot, value)
        }
        Err(fault) => fault_in_value::<T>(reading, bytes, at, fault.index, fault.kind, slot),
    }
}

#[inline(always)]
fn literal_turn<'s, T: StringStorage<'s>>(
    reading: &mut Reading<'s>,
    bytes: &[u8],
    at: usize,
    slot: Slot,
    literal: Literal,
) -> (usize, State)
    requires at_value { IsAtValue bytes.now reading.old.stacks slot at }
    requires begins { start_of (slice_index bytes.now at) ≡ Start.Literal literal }
    ensures { Turned T.policy T.wants bytes.now at slot reading.old reading.new result }
{
    let Some(end) = fast_literal_end(bytes, at, literal) else {
        return slow_literal_turn::<T>(reading, bytes, at, slot, literal);
    };
    let value: JsonValue<'s> = literal_value(literal);
    put_and_go_on::<T>(reading, bytes, at, end, slot, value)
}

// Any scalar but a string, as `NaN` and `Infinity`, or none.
#[cold]
#[inline(never)]
fn other_turn<'s, T: StringStorage<'s>>(
    reading: &mut Reading<'s>,
    texts: T,
    bytes: &[u8],
    at: usize,
    slot: Slot,
) -> (usize, State)
    requires texts { T.of texts bytes.now }
    requires at_value { IsAtValue bytes.now reading.old.stacks slot at }
    requires array { start_of (slice_index bytes.now at) ≢ Start.Array }
    requires object { start_of (slice_index bytes.now at) ≢ Start.Object }
    requires string { start_of (slice_index bytes.now at) ≢ Start.String }
    ensures { Turned T.policy T.wants bytes.now at slot reading.old reading.new result }
{
    match start_of(bytes[at]) {
        Start::Literal(literal) => slow_literal_turn::<T>(reading, bytes, at, slot, literal),
        Start::Number => slow_number_turn(reading, texts, bytes, at, slot),
        Start::Nothing => {
            fault_in_value::<T>(reading, bytes, at, at, FaultKind::ExpectedSomeValue, slot)
        }
        Start::Array => unreachable!(),
        Start::Object => unreachable!(),
        Start::String => unreachable!(),
    }
}

/// Takes one turn at a value for this slot.
///
/// The compiler inlines a large function only if it has one caller. So each caller passes its own `ONCE` and `SLOT`,
/// which no line reads, and gets a copy of its own.
///
/// # Requires
///
/// A value for this slot begins at `at`, and its stack has the capacity for it.
#[inline(always)]
pub fn turn_into<'s, T: StringStorage<'s>, const ONCE: bool, const SLOT: u8>(
    reading: &mut Reading<'s>,
    texts: T,
    bytes: &[u8],
    at: usize,
    slot: Slot,
) -> (usize, State)
    requires texts { T.of texts bytes.now }
    requires at_value { IsAtValue bytes.now reading.old.stacks slot at }
    ensures { Turned T.policy T.wants bytes.now at slot reading.old reading.new result }
{
    match bytes[at] {
        b'[' => begin::<T>(reading, bytes, at, slot, ContainerKind::Array),
        b'{' => begin::<T>(reading, bytes, at, slot, ContainerKind::Object),
        b'"' => text_turn(reading, texts, bytes, at, slot),
        b'0'..=b'9' | b'-' => number_turn::<T, ONCE, SLOT>(reading, texts, bytes, at, slot),
        b'n' => literal_turn::<T>(reading, bytes, at, slot, Literal::Null),
        b't' => literal_turn::<T>(reading, bytes, at, slot, Literal::True),
        b'f' => literal_turn::<T>(reading, bytes, at, slot, Literal::False),
        _ => other_turn(reading, texts, bytes, at, slot),
    }
}
