//! Readings of a whole text.
use crate::asking::Whole;
use crate::mark::mark;
use crate::outcome::Outcome;
use crate::scratch;
use jiter::client::two_prefixes;
use jiter::{JsonError, JsonValue, Machine, PartialMode, Turn};
use std::alloc::{AllocError, Global};
use test_support::told::text_of;

/// What a reading of a whole text comes to.
pub fn outcome(
    alloc: Global,
    bytes: &[u8],
    mode: PartialMode,
    call: Whole,
) -> Result<Outcome, AllocError> {
    match call {
        Whole::Parse | Whole::Config => read(alloc, bytes, mode, call),
        Whole::Owned => owned(alloc, bytes, mode),
        Whole::Unique => unique(alloc, bytes, mode),
        Whole::Turns => by_turns(alloc, bytes, mode),
        Whole::Scratch => scratch::borrowed(alloc, bytes, mode),
        Whole::OwnedByScratch => scratch::owned(alloc, bytes, mode),
        Whole::TwoPrefixes => prefixes(alloc, bytes, bytes.len(), mode),
        Whole::HalfPrefix => prefixes(alloc, bytes, bytes.len() / 2, mode),
    }
}

fn read(
    alloc: Global,
    bytes: &[u8],
    mode: PartialMode,
    call: Whole,
) -> Result<Outcome, AllocError> {
    let _ = mark(alloc);
    let answer = match call {
        Whole::Parse => JsonValue::parse(alloc, bytes, true),
        _ => JsonValue::parse_with_config(alloc, bytes, true, mode),
    };
    let _ = mark(alloc);
    Outcome::of_text(alloc, bytes, &answer)
}

fn owned(alloc: Global, bytes: &[u8], mode: PartialMode) -> Result<Outcome, AllocError> {
    let _ = mark(alloc);
    let answer = JsonValue::parse_owned(alloc, bytes, true, mode);
    let _ = mark(alloc);
    Outcome::of_text(alloc, bytes, &answer)
}

fn unique(alloc: Global, bytes: &[u8], mode: PartialMode) -> Result<Outcome, AllocError> {
    let _ = mark(alloc);
    let answer = JsonValue::parse_unique(alloc, bytes, true, mode);
    let _ = mark(alloc);
    Outcome::of_unique(alloc, bytes, &answer)
}

// Returns the values of the first bytes and of all, or one of them if they are the same.
fn prefixes(
    alloc: Global,
    bytes: &[u8],
    shorter: usize,
    mode: PartialMode,
) -> Result<Outcome, AllocError> {
    let shorter = shorter.min(bytes.len());
    let _ = mark(alloc);
    let answer = two_prefixes(alloc, bytes, shorter, bytes.len(), true, mode);
    let _ = mark(alloc);
    let (first, second) = match answer {
        Ok(values) => values,
        Err(error) => return Outcome::of_text(alloc, bytes, &Err(error)),
    };
    let line = text_of(alloc, &first)?;
    let other = text_of(alloc, &second)?;
    if line.as_str() == other.as_str() {
        Ok(Outcome::Answered(line))
    } else {
        Ok(Outcome::Answered(format!(in alloc; "{line} and {other}")?))
    }
}

fn by_turns(alloc: Global, bytes: &[u8], mode: PartialMode) -> Result<Outcome, AllocError> {
    let _ = mark(alloc);
    let answer = turned(alloc, bytes, mode);
    let _ = mark(alloc);
    match answer {
        Some(answer) => Outcome::of_text(alloc, bytes, &answer),
        None => Outcome::broken(alloc, "more turns than three a byte and three"),
    }
}

// Returns the answer of a machine, if it gives one in time.
fn turned<'b>(
    alloc: Global,
    bytes: &'b [u8],
    mode: PartialMode,
) -> Option<Result<JsonValue<'b>, JsonError>> {
    let most = bytes.len().saturating_mul(3).saturating_add(3);
    let mut machine = Machine::new(alloc, bytes, true, mode);
    for _ in 0..most {
        match machine.turn() {
            Turn::More(next) => machine = next,
            Turn::Done(answer) => return Some(answer),
        }
    }
    None
}
