//! The calls that look at what comes next themselves.
use crate::told::{Told, bytes, int, item, key, number, passed, raw_key, string, truth, value};
use jiter::Jiter;
use std::alloc::Global;

/// What the call of this name answers, if it is one that reads a scalar, skips or ends.
pub fn scalar(alloc: Global, jiter: &mut Jiter<'_>, call: &str) -> Option<Told> {
    Some(match call {
        "next_null" => passed(alloc, jiter.next_null()),
        "next_bool" => truth(alloc, jiter.next_bool()),
        "next_number" => number(alloc, jiter.next_number()),
        "next_int" => int(alloc, jiter.next_int()),
        "next_number_bytes" => bytes(alloc, jiter.next_number_bytes()),
        "next_str" => string(alloc, jiter.next_str(alloc)),
        "next_bytes" => bytes(alloc, jiter.next_bytes()),
        "next_skip" => passed(alloc, jiter.next_skip()),
        "finish" => passed(alloc, jiter.finish()),
        _ => return None,
    })
}

/// What the call of this name answers, if it is one that reads a value, or steps through a container.
pub fn container(alloc: Global, jiter: &mut Jiter<'_>, call: &str) -> Option<Told> {
    Some(match call {
        "next_value" => value(alloc, jiter.next_value(alloc)),
        "next_value_owned" => value(alloc, jiter.next_value_owned(alloc)),
        "next_array" => item(alloc, jiter.next_array()),
        "array_step" => item(alloc, jiter.array_step()),
        "next_object" => key(alloc, jiter.next_object(alloc)),
        "next_key" => key(alloc, jiter.next_key(alloc)),
        "next_object_bytes" => raw_key(alloc, jiter.next_object_bytes()),
        "next_key_bytes" => raw_key(alloc, jiter.next_key_bytes()),
        _ => return None,
    })
}
