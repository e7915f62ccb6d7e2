//! Documents that are read into structs, by walks.
use crate::answers::first_of;
use crate::asking::Walked;
use crate::config::Config;
use crate::event::Event;
use crate::mark::mark;
use crate::message::Message;
use crate::outcome::Outcome;
use crate::readings::Readings;
use crate::sample::Sample;
use crate::stop::Stop;
use crate::tell::Tell;
use crate::unfit::Unfit;
use jiter::Jiter;
use jiter_walk::{Value, WalkError, read_document};
use std::alloc::{AllocError, Global};

// A value that a walk reads, or its error.
type Reply<V> = Result<V, WalkError<Unfit>>;

/// Returns what three readings of the document come to, which is the same each time: by a reader that is seen, by
/// `read_document`, and by a reader again. Each is a section. If one runs out of memory, the others do not.
pub fn outcome(alloc: Global, bytes: &[u8], call: Walked) -> Result<Outcome, AllocError> {
    match call {
        Walked::Config => read::<Config>(alloc, bytes),
        Walked::Message => read::<Message<'_>>(alloc, bytes),
        Walked::Lists => read::<Vec<Vec<String>>>(alloc, bytes),
        Walked::Event => read::<Event<'_>>(alloc, bytes),
        Walked::Sample => read::<Sample<'_>>(alloc, bytes),
    }
}

fn read<'j, V: Value<'j, Unfit> + Tell>(
    alloc: Global,
    bytes: &'j [u8],
) -> Result<Outcome, AllocError> {
    let first = by_reader::<V>(alloc, bytes)?;
    let second = by_document::<V>(alloc, bytes)?;
    let third = by_reader::<V>(alloc, bytes)?;
    match together(first, second, third) {
        Ok(readings) => readings.end(alloc),
        Err(stop) => stop.outcome(alloc),
    }
}

fn together(first: Outcome, second: Outcome, third: Outcome) -> Result<Readings, Stop> {
    let mut readings = Readings::default();
    readings.add(first)?;
    readings.add(second)?;
    readings.add(third)?;
    Ok(readings)
}

fn by_document<'j, V: Value<'j, Unfit> + Tell>(
    alloc: Global,
    bytes: &'j [u8],
) -> Result<Outcome, AllocError> {
    let _ = mark(alloc);
    let reply: Reply<V> = read_document(alloc, bytes);
    let _ = mark(alloc);
    told(alloc, bytes, &reply)
}

// Where memory runs out, the index of the error is the reader's position.
fn by_reader<'j, V: Value<'j, Unfit> + Tell>(
    alloc: Global,
    bytes: &'j [u8],
) -> Result<Outcome, AllocError> {
    let _ = mark(alloc);
    let (reply, position) = read_seen::<V>(alloc, bytes);
    let _ = mark(alloc);
    match &reply {
        Err(error) if error.is_memory() && index_of(error) != position => {
            Outcome::broken(alloc, "the index is not the reader's position")
        }
        _ => told(alloc, bytes, &reply),
    }
}

// Reads the document, and returns the reader's position too. The reader is dropped.
fn read_seen<'j, V: Value<'j, Unfit>>(alloc: Global, bytes: &'j [u8]) -> (Reply<V>, usize) {
    let mut jiter = Jiter::new(bytes);
    let reply = read_all(alloc, &mut jiter);
    (reply, jiter.current_index())
}

fn read_all<'j, V: Value<'j, Unfit>>(alloc: Global, jiter: &mut Jiter<'j>) -> Reply<V> {
    let value = V::read(alloc, jiter)?;
    jiter.finish()?;
    Ok(value)
}

fn index_of(error: &WalkError<Unfit>) -> usize {
    match error {
        WalkError::Reader(error) => error.index,
        WalkError::Custom(_, index) => *index,
    }
}

fn told<V: Tell>(alloc: Global, bytes: &[u8], reply: &Reply<V>) -> Result<Outcome, AllocError> {
    match reply {
        Ok(value) => {
            let mut line = String::new(alloc);
            value.tell(&mut line)?;
            Ok(Outcome::Answered(line))
        }
        Err(error) if error.is_memory() => {
            Outcome::refused_at(alloc, index_of(error), first_of(bytes), bytes.len())
        }
        Err(error) => {
            let index = index_of(error);
            Ok(Outcome::Answered(format!(in alloc; "{error} at {index}")?))
        }
    }
}
