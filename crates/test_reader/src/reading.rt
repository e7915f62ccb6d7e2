//! A reader through the calls of a row.
ghost use Rattle.std.specs.Prelude.{◌≡◌, ◌≤◌, false, length};

use crate::told::{Told, bytes, value, word};
use crate::{known, next};
use jiter::client::value_by_steps;
use jiter::{Jiter, JiterError};
use std::alloc::{AllocError, Global};
use test_rows::{Partial, Row, bytes_of};

// A reader, and the last error of its calls.
#[derive(Drop)]
struct Reading<'j> {
    jiter: Jiter<'j>,
    bytes: &'j [u8],
    allow_inf_nan: bool,
    last_error: Option<JiterError>,
}

/// What the calls of the row answer, one after another, each with the index where it leaves the reader.
pub fn answer(alloc: Global, row: Row<'_>) -> Result<String, AllocError> {
    let bytes = bytes_of(alloc, row.input)?;
    let mut reading = Reading::new(bytes.as_slice(), row);
    let mut out = String::new(alloc);
    for (number, call) in row.call.split(',').enumerate() {
        let line = reading.line(alloc, call)?;
        if number > 0 {
            out.push_str("; ")?;
        }
        out.push_str(line.as_str())?;
    }
    Ok(out)
}

impl<'j> Reading<'j> {
    fn new(bytes: &'j [u8], row: Row<'_>) -> Reading<'j> {
        let jiter = Jiter::new(bytes);
        let jiter = if row.allow_inf_nan {
            jiter.with_allow_inf_nan()
        } else {
            jiter
        };
        let jiter = match row.partial {
            Partial::TrailingStrings => jiter.with_allow_partial_strings(),
            _ => jiter,
        };
        Reading {
            jiter,
            bytes,
            allow_inf_nan: row.allow_inf_nan,
            last_error: None,
        }
    }

    // What the call answers, and the index where it leaves the reader.
    fn line(&mut self, alloc: Global, call: &str) -> Result<String, AllocError> {
        let told = match self.call(alloc, call)? {
            Ok(told) => told,
            Err(error) => {
                let told = error.to_string(alloc)?;
                self.last_error = Some(error);
                told
            }
        };
        format!(in alloc; "{told} @{}", self.jiter.current_index())
    }

    fn call(&mut self, alloc: Global, call: &str) -> Told {
        if let Some(told) = next::scalar(alloc, &mut self.jiter, call) {
            return told;
        }
        if let Some(told) = next::container(alloc, &mut self.jiter, call) {
            return told;
        }
        let (name, argument) = call.split_once('=').unwrap_or((call, "0"));
        match name {
            "peek" => known::peek(alloc, &mut self.jiter),
            "known_null" | "known_str" | "known_bytes" | "known_array" | "known_object" => {
                known::by_type(alloc, &mut self.jiter, name)
            }
            "value_by_steps" => self.by_steps(alloc),
            "clone" => self.cloned(alloc),
            "with_tape" => self.with_tape(alloc),
            "error" => self.error(alloc),
            "out_of_memory" => Ok(Err(self.jiter.out_of_memory())),
            "debug" => Ok(Ok(format!(in alloc; "{:?}", self.jiter)?)),
            "current_position" | "error_position" | "slice_to_current" => {
                self.place(alloc, name, argument.parse().unwrap_or(0))
            }
            _ => match known::with_peek(alloc, &mut self.jiter, call) {
                Some(told) => told,
                None => word(alloc, "no such call"),
            },
        }
    }

    // Builds the next value by steps, with a reader made for that place.
    fn by_steps(&mut self, alloc: Global) -> Told {
        let index = self.jiter.current_index();
        if index > self.bytes.len() {
            return word(alloc, "past the end");
        }
        let mut jiter = reader_at(self.bytes, index, self.allow_inf_nan);
        let told = value(alloc, value_by_steps(alloc, &mut jiter));
        self.jiter = jiter;
        told
    }

    // Lets a clone skip a value, and tells where that leaves the clone.
    fn cloned(&mut self, alloc: Global) -> Told {
        let mut other = self.jiter.clone()?;
        match other.next_skip() {
            Ok(()) => Ok(Ok(format!(in alloc; "at {}", other.current_index())?)),
            Err(error) => Ok(Err(error)),
        }
    }

    // Begins again, with the buffer that the reader has by now. Tells whether there is one.
    fn with_tape(&mut self, alloc: Global) -> Told {
        let jiter = std::mem::replace(&mut self.jiter, Jiter::new(self.bytes));
        let tape = jiter.into_tape(alloc);
        let told = if tape.capacity() > 0 {
            "a tape"
        } else {
            "none"
        };
        self.jiter = Jiter::with_tape(self.bytes, tape);
        word(alloc, told)
    }

    // The last error: its cause and itself with a width, as `Debug` prints it, described, and its line and column.
    fn error(&self, alloc: Global) -> Told {
        let Some(error) = &self.last_error else {
            return word(alloc, "none");
        };
        let cause = &error.error_type;
        let described = error.description(alloc, &self.jiter)?;
        let place = error.get_position(&self.jiter).short(alloc)?;
        Ok(Ok(format!(in alloc; "{cause:>40} / {error:>40} / {error:?} / {described} / {place}")?))
    }

    // The line and the column where the reader is, or of an index, or the bytes from an index up to the reader.
    fn place(&self, alloc: Global, call: &str, index: usize) -> Told {
        if call == "slice_to_current" {
            return self.slice(alloc, index);
        }
        let position = if call == "current_position" {
            self.jiter.current_position()
        } else {
            self.jiter.error_position(index)
        };
        Ok(Ok(format!(in alloc; "{position}")?))
    }

    fn slice(&self, alloc: Global, start: usize) -> Told {
        let index = self.jiter.current_index();
        if start <= index {
            bytes(alloc, Ok(self.jiter.slice_to_current(start)))
        } else {
            word(alloc, "past the reader")
        }
    }
}

// A reader at an index, in which each string ends with its quote.
fn reader_at(bytes: &[u8], index: usize, allow_inf_nan: bool) -> Jiter<'_>
    requires { index ≤ length bytes.now }
    ensures { result.partial_strings ≡ false }
{
    let jiter = Jiter::new_at(bytes, index);
    if allow_inf_nan {
        jiter.with_allow_inf_nan()
    } else {
        jiter
    }
}
