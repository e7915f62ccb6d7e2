//! The calls of a caller that has peeked: each peeks, and then reads what is there.
use crate::told::{Told, bytes, int, item, key, number, passed, string, truth, value, word};
use jiter::Jiter;
use std::alloc::Global;

/// What a peek answers, and whether a number begins so.
pub fn peek(alloc: Global, jiter: &mut Jiter<'_>) -> Told {
    match jiter.peek() {
        Ok(peek) if peek.is_num() => Ok(Ok(format!(in alloc; "{peek:?}, a number")?)),
        Ok(peek) => item(alloc, Ok(Some(peek))),
        Err(error) => Ok(Err(error)),
    }
}

/// What the call of this name answers, if it takes the peek.
pub fn with_peek(alloc: Global, jiter: &mut Jiter<'_>, call: &str) -> Option<Told> {
    let peek = match jiter.peek() {
        Ok(peek) => peek,
        Err(error) => return Some(Ok(Err(error))),
    };
    Some(match call {
        "known_bool" => truth(alloc, jiter.known_bool(peek)),
        "known_number" => number(alloc, jiter.known_number(peek)),
        "known_int" => int(alloc, jiter.known_int(peek)),
        "known_number_bytes" => bytes(alloc, jiter.known_number_bytes(peek)),
        "known_value" => value(alloc, jiter.known_value(alloc, peek)),
        "known_value_owned" => value(alloc, jiter.known_value_owned(alloc, peek)),
        "known_skip" => passed(alloc, jiter.known_skip(peek)),
        _ => return None,
    })
}

/// What the call of this name answers, if the byte is there with which its type begins.
pub fn by_type(alloc: Global, jiter: &mut Jiter<'_>, call: &str) -> Told {
    let peek = match jiter.peek() {
        Ok(peek) => peek,
        Err(error) => return Ok(Err(error)),
    };
    match peek.into_inner() {
        b'n' if call == "known_null" => passed(alloc, jiter.known_null()),
        b'"' if call == "known_str" => string(alloc, jiter.known_str(alloc)),
        b'"' if call == "known_bytes" => bytes(alloc, jiter.known_bytes()),
        b'[' if call == "known_array" => item(alloc, jiter.known_array()),
        b'{' if call == "known_object" => key(alloc, jiter.known_object(alloc)),
        _ => word(alloc, "another type"),
    }
}
