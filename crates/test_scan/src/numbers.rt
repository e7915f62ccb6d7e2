//! Numbers: alone, at a place, and before each of several texts.
ghost use Rattle.std.specs.Prelude.{◌<◌, ◌≤◌, length};

use crate::tell;
use jiter_scan::errors::JsonResult;
use jiter_scan::number::fast_number::fast_number_at;
use jiter_scan::number::number_decoder::{NumberAny, NumberInt, int_at, number_at};
use jiter_scan::number::number_span::number_end;
use std::alloc::{AllocError, Global};
use std::fmt::Debug;
use std::io;

// Prints a number, or the kind and the index of the error.
fn tell_alone<T: Debug + Drop>(rt: &HostRuntime, answer: JsonResult<T>) -> io::Result<()> {
    match answer {
        Ok(number) => println!(rt; "{number:?}"),
        Err(error) => println!(rt; "{:?} at {}", error.error_type, error.index),
    }
}

// The number that the bytes are, with nothing before or after it.
pub fn answer_alone(rt: &HostRuntime, call: &str, bytes: &[u8], names: bool) -> io::Result<()> {
    match call {
        "number" => tell_alone(rt, NumberAny::from_bytes(bytes, names)),
        "integer" => tell_alone(rt, NumberInt::from_bytes(bytes)),
        _ => tell_alone(rt, NumberAny::from_bytes(bytes, names).map(form)),
    }
}

// What the text of a number is, and how long: for texts of thousands of bytes.
fn form(number: NumberAny<'_>) -> (&'static str, usize) {
    match number {
        NumberAny::Int(NumberInt::Int(_)) => ("int", 0),
        NumberAny::Int(NumberInt::BigInt(text)) => ("big", text.len()),
        NumberAny::Float(text) => ("float", text.len()),
    }
}

// The number at a place and the index after it, where `number_end` finds the same end or error.
fn told_at(alloc: Global, bytes: &[u8], at: usize, names: bool) -> Result<String, AllocError>
    requires { at < length bytes.now }
{
    let end = number_end(bytes, at, names);
    match number_at(bytes, at, names) {
        Ok((number, after)) if end == Ok(after) => format!(in alloc; "{number:?} to {after}"),
        Err(fault) if end == Err(fault) => {
            format!(in alloc; "{:?} at {}", fault.kind, fault.index)
        }
        _ => format!(in alloc; "number_end answers otherwise"),
    }
}

pub fn answer_at(
    rt: &HostRuntime,
    alloc: Global,
    bytes: &[u8],
    at: usize,
    names: bool,
) -> io::Result<()>
    requires { at < length bytes.now }
{
    println!(rt; "{}", told_at(alloc, bytes, at, names)?)
}

// The index after the number at a place, where `number_at` finds the same.
pub fn answer_end_at(rt: &HostRuntime, bytes: &[u8], at: usize, names: bool) -> io::Result<()>
    requires { at < length bytes.now }
{
    let end = number_end(bytes, at, names);
    if number_at(bytes, at, names).map(|read| read.1) != end {
        return println!(rt; "number_at answers otherwise");
    }
    tell(rt, end)
}

// How many spaces are after the number, and after the comma after it.
const FOLLOWERS: [(usize, bool); 10] = [
    (1, false),
    (15, false),
    (16, false),
    (31, false),
    (32, false),
    (40, false),
    (0, true),
    (1, true),
    (40, true),
    (64, true),
];

// The text, perhaps a comma, and so many spaces.
fn followed(alloc: Global, text: &[u8], comma: bool, blanks: usize) -> Result<Vec<u8>, AllocError> {
    let mut bytes = Vec::new(alloc);
    bytes.extend_from_slice(text)?;
    if comma {
        bytes.push(b',')?;
    }
    bytes.extend_from_slice(" ".repeat(alloc, blanks)?.as_bytes())?;
    Ok(bytes)
}

// The number that the bytes begin with: the same answer near the end of the input and far from it.
pub fn answer_before(rt: &HostRuntime, alloc: Global, text: &[u8], names: bool) -> io::Result<()> {
    if text.is_empty() {
        return println!(rt; "no bytes");
    }
    let wanted = told_at(alloc, text, 0, names)?;
    for (blanks, comma) in FOLLOWERS {
        let bytes = followed(alloc, text, comma, blanks)?;
        if bytes.is_empty() || told_at(alloc, bytes.as_slice(), 0, names)? != wanted {
            return println!(rt; "otherwise before {blanks} blanks");
        }
    }
    println!(rt; "{wanted}")
}

pub fn answer_integer_at(rt: &HostRuntime, bytes: &[u8], at: usize) -> io::Result<()>
    requires { at < length bytes.now }
{
    tell(rt, int_at(bytes, at))
}

pub fn answer_fast(rt: &HostRuntime, bytes: &[u8], at: usize) -> io::Result<()>
    requires { at ≤ length bytes.now }
{
    println!(rt; "{:?}", fast_number_at(bytes, at))
}

// The short number that the bytes begin with, before each byte that may end it, far from the end of the input.
pub fn answer_fast_before(rt: &HostRuntime, alloc: Global, text: &[u8]) -> io::Result<()> {
    let far = followed(alloc, text, true, 64)?;
    let wanted = fast_number_at(far.as_slice(), 0);
    for end in [b',', b']', b'}', b' ', b'\n', 0x7f] {
        let mut bytes = Vec::new(alloc);
        bytes.extend_from_slice(text)?;
        bytes.push(end)?;
        let bytes = followed(alloc, bytes.as_slice(), true, 64)?;
        if fast_number_at(bytes.as_slice(), 0) != wanted {
            return println!(rt; "otherwise before the byte {end}");
        }
    }
    println!(rt; "{wanted:?}")
}
