//! Walks of a reader, each through a document of one form: three that do not allocate, and two that reuse a tape.
use crate::asking::Steps;
use crate::mark::mark;
use crate::outcome::Outcome;
use crate::stop::Stop;
use jiter::{Jiter, JiterResult};
use std::alloc::{AllocError, Global};

// The capacity of a tape that is given: more than a string of 20,000 bytes needs.
const CAPACITY: usize = 50_000;

/// Returns the length of the strings that a walk reads, or its error.
pub fn outcome(alloc: Global, bytes: &[u8], call: Steps) -> Result<Outcome, AllocError> {
    let walked = match call {
        Steps::Plain | Steps::Raw | Steps::Known => plain(alloc, bytes, call),
        Steps::KeptTape => kept_tape(alloc, bytes),
        Steps::Tapes => tapes(alloc, bytes),
    };
    match walked {
        Ok(length) => Ok(Outcome::Answered(length.to_string(alloc)?)),
        Err(stop) => stop.outcome(alloc),
    }
}

// One section: a walk that does not allocate. The tape has no capacity after it.
fn plain(alloc: Global, bytes: &[u8], call: Steps) -> Result<usize, Stop> {
    let _ = mark(alloc);
    let mut jiter = Jiter::new(bytes);
    let reply = match call {
        Steps::Raw => walk_raw(&mut jiter),
        Steps::Known => walk_known(alloc, &mut jiter),
        _ => walk_plainly(alloc, &mut jiter),
    };
    let _ = mark(alloc);
    let length = reply?;
    if jiter.into_tape(alloc).capacity() > 0 {
        return Err(Stop::Broken("a plain walk has allocated a tape"));
    }
    Ok(length)
}

// Reads an object of a string, a number, and an array: a null, anything, and two empty containers.
fn walk_plainly(alloc: Global, jiter: &mut Jiter<'_>) -> JiterResult<usize> {
    let key = jiter.next_object(alloc)?.map_or(0, |key| key.len());
    let text = jiter.next_str(alloc)?.len();
    let second = jiter.next_key(alloc)?.map_or(0, |key| key.len());
    let _ = jiter.next_number()?;
    let _ = jiter.next_key_bytes()?;
    let _ = jiter.next_array()?;
    jiter.next_null()?;
    let _ = jiter.array_step()?;
    jiter.next_skip()?;
    let _ = jiter.array_step()?;
    let _ = jiter.next_value(alloc)?;
    let _ = jiter.array_step()?;
    let _ = jiter.next_value_owned(alloc)?;
    let _ = jiter.array_step()?;
    let _ = jiter.next_key(alloc)?;
    jiter.finish()?;
    Ok(key.saturating_add(text).saturating_add(second))
}

// Reads an object of a bool, an integer, a number and a string, with its keys and its string as they are spelled.
fn walk_raw(jiter: &mut Jiter<'_>) -> JiterResult<usize> {
    let key = jiter.next_object_bytes()?.map_or(0, |key| key.len());
    let _ = jiter.next_bool()?;
    let _ = jiter.next_key_bytes()?;
    let _ = jiter.next_int()?;
    let _ = jiter.next_key_bytes()?;
    let number = jiter.next_number_bytes()?.len();
    let _ = jiter.next_key_bytes()?;
    let text = jiter.next_bytes()?.len();
    let _ = jiter.next_key_bytes()?;
    jiter.finish()?;
    Ok(key.saturating_add(number).saturating_add(text))
}

// Reads the items of an array, by calls of a caller that has looked. Returns how many there are.
fn walk_known(alloc: Global, jiter: &mut Jiter<'_>) -> JiterResult<usize> {
    let mut next = jiter.next_array()?;
    for count in 0..20 {
        if next.is_none() {
            jiter.finish()?;
            return Ok(count);
        }
        read_known(alloc, jiter)?;
        next = jiter.array_step()?;
    }
    Ok(0)
}

// Reads what begins with the next byte, which says by which call. Containers are empty.
fn read_known(alloc: Global, jiter: &mut Jiter<'_>) -> JiterResult<()> {
    let peek = jiter.peek()?;
    match peek.into_inner() {
        b'n' => jiter.known_null()?,
        b't' => drop(jiter.known_bool(peek)?),
        b'1' => drop(jiter.known_int(peek)?),
        b'2' => drop(jiter.known_number(peek)?),
        b'3' => drop(jiter.known_number_bytes(peek)?),
        b'"' => drop(jiter.known_bytes()?),
        b'[' => drop(jiter.known_array()?),
        b'{' => drop(jiter.known_object(alloc)?),
        _ => jiter.known_skip(peek)?,
    }
    Ok(())
}

// One section: the last string of an array, read with the tape that the first one has allocated.
fn kept_tape(alloc: Global, bytes: &[u8]) -> Result<usize, Stop> {
    let mut jiter = Jiter::new(bytes);
    if !pass_others(alloc, &mut jiter)? {
        return Err(Stop::Broken("a number or a broken string is read as a string"));
    }
    let _ = mark(alloc);
    let length = length_read(alloc, &mut jiter);
    let _ = mark(alloc);
    Ok(length?)
}

// Reads a string that has an escape, and whatever else decodes a string or fails to, up to the last item. Returns
// whether the number and the string that is not UTF-8 failed.
fn pass_others(alloc: Global, jiter: &mut Jiter<'_>) -> JiterResult<bool> {
    let _ = jiter.next_array()?;
    let _ = jiter.next_str(alloc)?;
    let _ = jiter.array_step()?;
    let number = jiter.next_str(alloc).is_err();
    let _ = jiter.next_int()?;
    let _ = jiter.array_step()?;
    let broken = jiter.next_str(alloc).is_err();
    jiter.next_skip()?;
    let _ = jiter.array_step()?;
    let _ = jiter.next_str(alloc)?;
    let _ = jiter.array_step()?;
    let _ = jiter.next_object(alloc)?;
    let _ = jiter.next_value(alloc)?;
    let _ = jiter.next_key(alloc)?;
    let _ = jiter.next_number()?;
    let _ = jiter.next_key(alloc)?;
    let _ = jiter.array_step()?;
    Ok(number && broken)
}

// Two sections for each of three tapes: the string is read with the tape, and again with the one that comes back. Only
// the first tape, which is empty, has to grow.
fn tapes(alloc: Global, bytes: &[u8]) -> Result<usize, Stop> {
    let mut length = 0;
    for tape in [
        Vec::new(alloc),
        Vec::with_capacity(alloc, CAPACITY)?,
        Vec::from_elem(alloc, b'x', CAPACITY)?,
    ] {
        let is_empty = tape.capacity() == 0;
        let (_, tape) = read_with(alloc, bytes, tape, is_empty)?;
        let (read, _) = read_with(alloc, bytes, tape, false)?;
        length = read;
    }
    Ok(length)
}

// Returns how long the string is, read with this tape, and the tape that comes back. Its capacity stays unless it has
// to grow.
fn read_with(
    alloc: Global,
    bytes: &[u8],
    tape: Vec<u8>,
    grows: bool,
) -> Result<(usize, Vec<u8>), Stop> {
    let capacity = tape.capacity();
    let _ = mark(alloc);
    let mut jiter = Jiter::with_tape(bytes, tape)
        .with_allow_inf_nan()
        .with_allow_partial_strings();
    let reply = length_read(alloc, &mut jiter);
    let tape = jiter.into_tape(alloc);
    let _ = mark(alloc);
    if !grows && tape.capacity() != capacity {
        return Err(Stop::Broken("the tape has another capacity"));
    }
    Ok((reply?, tape))
}

fn length_read(alloc: Global, jiter: &mut Jiter<'_>) -> JiterResult<usize> {
    Ok(jiter.next_str(alloc)?.len())
}
