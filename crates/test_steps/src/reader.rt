//! Whitespace, the steps between the parts of arrays and objects, literals, and what the reader passes.
ghost use Rattle.std.specs.Prelude.{◌<◌, ◌≤◌, length};

use jiter_scan::errors::Fault;
use jiter_steps::fast::fast_literal_end;
use jiter_steps::parse::{ContainerKind, Literal, Parser, Start, start_of};
use jiter_steps::read_error::ReadError;
use jiter_steps::skip::skip;
use jiter_steps::step::{Step, colon, first, member_value, next, value_first};
use jiter_steps::whitespace::past_blanks;
use std::alloc::Global;
use std::borrow::CowStr;
use std::fmt::Debug;
use std::io;

// Prints the kind and the index of an error, and where the reader is if not there.
fn tell_fault(rt: &HostRuntime, fault: Fault, index: usize) -> io::Result<()> {
    if fault.index == index {
        return println!(rt; "{:?} at {index}", fault.kind);
    }
    println!(rt; "{:?} at {}, reader at {index}", fault.kind, fault.index)
}

// Prints what a call answers, and where it leaves the reader.
fn tell<T: Debug + Drop>(
    rt: &HostRuntime,
    answer: Result<T, Fault>,
    index: usize,
) -> io::Result<()> {
    match answer {
        Ok(value) => println!(rt; "{value:?}, reader at {index}"),
        Err(fault) => tell_fault(rt, fault, index),
    }
}

// Prints what a step found, and where.
fn tell_step(rt: &HostRuntime, found: (usize, Step)) -> io::Result<()> {
    match found {
        (at, Step::Part) => println!(rt; "true, reader at {at}"),
        (at, Step::End) => println!(rt; "false, reader at {at}"),
        (at, Step::Fault(kind)) => println!(rt; "{kind:?} at {at}"),
    }
}

// The same of a call that only leads on.
fn tell_passed(rt: &HostRuntime, answer: Result<(), Fault>, index: usize) -> io::Result<()> {
    match answer {
        Ok(()) => println!(rt; "reader at {index}"),
        Err(fault) => tell_fault(rt, fault, index),
    }
}

/// What every one of the bytes begins.
pub fn answer_start(rt: &HostRuntime, bytes: &[u8]) -> io::Result<()> {
    let first = match bytes.first() {
        Some(byte) => start_of(*byte),
        None => Start::Nothing,
    };
    for byte in bytes {
        if start_of(*byte) != first {
            return println!(rt; "another start of the byte {byte}");
        }
    }
    println!(rt; "{first:?}")
}

/// The index after the whitespace.
pub fn answer_blanks(rt: &HostRuntime, bytes: &[u8], at: usize) -> io::Result<()>
    requires { at ≤ length bytes.now }
{
    println!(rt; "{}", past_blanks(bytes, at))
}

pub fn answer_plain_literal(
    rt: &HostRuntime,
    bytes: &[u8],
    at: usize,
    literal: Literal,
) -> io::Result<()>
    requires { at < length bytes.now }
{
    println!(rt; "{:?}", fast_literal_end(bytes, at, literal))
}

pub fn answer_literal(rt: &HostRuntime, bytes: &[u8], at: usize, literal: Literal) -> io::Result<()>
    requires { at ≤ length bytes.now }
{
    let mut parser = Parser { bytes, index: at };
    let answer = parser.literal(literal);
    tell_passed(rt, answer, parser.index)
}

/// The step into an array or an object: whether a part follows.
pub fn answer_first(rt: &HostRuntime, call: &str, bytes: &[u8], at: usize) -> io::Result<()>
    requires { at < length bytes.now }
{
    let shape = if call == "array_first" {
        ContainerKind::Array
    } else {
        ContainerKind::Object
    };
    tell_step(rt, first(bytes, at + 1, shape))
}

/// A step between parts: whether another part follows, or nothing where the step only leads on.
pub fn answer_step(rt: &HostRuntime, call: &str, bytes: &[u8], at: usize) -> io::Result<()>
    requires { at ≤ length bytes.now }
{
    let mut parser = Parser { bytes, index: at };
    if call == "array_step" {
        return tell_step(rt, next(bytes, at, ContainerKind::Array));
    }
    if call == "object_step" {
        return tell_step(rt, next(bytes, at, ContainerKind::Object));
    }
    let answer = match call {
        "colon" => parser.go(colon(bytes, at)),
        "member_value" => parser.go(member_value(bytes, at)),
        "value_first" => parser.go(value_first(bytes, at)),
        "finish" => parser.finish(),
        _ => return println!(rt; "no such call"),
    };
    tell_passed(rt, answer, parser.index)
}

pub fn answer_skip(rt: &HostRuntime, bytes: &[u8], at: usize, names: bool) -> io::Result<()>
    requires { at < length bytes.now }
{
    let mut parser = Parser { bytes, index: at };
    let answer = skip(&mut parser, names);
    tell_passed(rt, answer, parser.index)
}

pub fn answer_number(rt: &HostRuntime, bytes: &[u8], at: usize) -> io::Result<()>
    requires { at < length bytes.now }
{
    let mut parser = Parser { bytes, index: at };
    let answer = parser.number(false);
    tell(rt, answer, parser.index)
}

pub fn answer_string(rt: &HostRuntime, alloc: Global, bytes: &[u8], at: usize) -> io::Result<()>
    requires { at < length bytes.now }
{
    let mut tape = Vec::new(alloc);
    let mut parser = Parser { bytes, index: at };
    let answer = parser.string(alloc, &mut tape, false);
    let index = parser.index;
    match answer {
        Ok(CowStr::Borrowed(text)) => println!(rt; "borrowed {text:?}, reader at {index}"),
        Ok(CowStr::Owned(text)) => println!(rt; "owned {text:?}, reader at {index}"),
        Err(ReadError::Fault(fault)) => tell_fault(rt, fault, index),
        Err(ReadError::Memory(_)) => println!(rt; "out of memory"),
    }
}

/// How many bytes stand between the quotes.
pub fn answer_raw(rt: &HostRuntime, bytes: &[u8], at: usize, keep: bool) -> io::Result<()>
    requires { at < length bytes.now }
{
    let mut parser = Parser { bytes, index: at };
    let answer = match parser.raw_string(keep) {
        Ok(content) => Ok(content.len()),
        Err(fault) => Err(fault),
    };
    tell(rt, answer, parser.index)
}
