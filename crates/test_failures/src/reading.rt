//! Readings of a whole value by a reader.
use crate::asking::Reading;
use crate::mark::mark;
use crate::outcome::Outcome;
use jiter::client::value_by_steps;
use jiter::{Jiter, JiterResult, JsonValue};
use std::alloc::{AllocError, Global};

/// What a reading of a whole value comes to.
pub fn outcome(alloc: Global, bytes: &[u8], call: Reading) -> Result<Outcome, AllocError> {
    match call {
        Reading::Next | Reading::Known | Reading::Skip => borrowed(alloc, bytes, call),
        Reading::NextOwned | Reading::KnownOwned | Reading::BySteps => owned(alloc, bytes, call),
    }
}

fn borrowed(alloc: Global, bytes: &[u8], call: Reading) -> Result<Outcome, AllocError> {
    let _ = mark(alloc);
    let mut jiter = Jiter::new(bytes).with_allow_inf_nan();
    let reply = read(alloc, &mut jiter, call);
    let _ = mark(alloc);
    Outcome::of_value(alloc, bytes, &reply, jiter.current_index())
}

fn owned(alloc: Global, bytes: &[u8], call: Reading) -> Result<Outcome, AllocError> {
    let _ = mark(alloc);
    let mut jiter = Jiter::new(bytes).with_allow_inf_nan();
    let reply = match call {
        Reading::BySteps => value_by_steps(alloc, &mut jiter),
        _ => read_owned(alloc, &mut jiter, call),
    };
    let _ = mark(alloc);
    Outcome::of_value(alloc, bytes, &reply, jiter.current_index())
}

// Returns what the call does, and a null for a skip.
fn read<'j>(alloc: Global, jiter: &mut Jiter<'j>, call: Reading) -> JiterResult<JsonValue<'j>> {
    match call {
        Reading::Known => {
            let peek = jiter.peek()?;
            jiter.known_value(alloc, peek)
        }
        Reading::Skip => {
            jiter.next_skip()?;
            Ok(JsonValue::Null)
        }
        _ => jiter.next_value(alloc),
    }
}

fn read_owned(
    alloc: Global,
    jiter: &mut Jiter<'_>,
    call: Reading,
) -> JiterResult<JsonValue<'static>> {
    match call {
        Reading::KnownOwned => {
            let peek = jiter.peek()?;
            jiter.known_value_owned(alloc, peek)
        }
        _ => jiter.next_value_owned(alloc),
    }
}
