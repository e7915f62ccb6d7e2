//! What the answers of calls come to.
use crate::outcome::Outcome;
use jiter::{
    JiterErrorType, JiterResult, JsonError, JsonErrorType as Kind, JsonValue, UniqueError,
};
use std::alloc::{AllocError, Global};
use test_support::told::text_of;

impl Outcome {
    /// It answered this value.
    pub fn value(alloc: Global, value: &JsonValue<'_>) -> Result<Outcome, AllocError> {
        Ok(Outcome::Answered(text_of(alloc, value)?))
    }

    /// Memory was refused, by a call that tells no index.
    pub fn refused(alloc: Global) -> Result<Outcome, AllocError> {
        Ok(Outcome::AllocFailed(String::from_str(alloc, "out of memory")?))
    }

    /// This does not hold.
    pub fn broken(alloc: Global, what: &str) -> Result<Outcome, AllocError> {
        Ok(Outcome::Broken(String::from_str(alloc, what)?))
    }

    /// Memory was refused at this index: it has to lie between these places.
    pub fn refused_at(
        alloc: Global,
        index: usize,
        first: usize,
        last: usize,
    ) -> Result<Outcome, AllocError> {
        let line = format!(in alloc; "out of memory at {index}")?;
        if first <= index && index <= last {
            Ok(Outcome::AllocFailed(line))
        } else {
            Ok(Outcome::Broken(line))
        }
    }

    /// What a reading of a whole text answers.
    pub fn of_text(
        alloc: Global,
        bytes: &[u8],
        answer: &Result<JsonValue<'_>, JsonError>,
    ) -> Result<Outcome, AllocError> {
        match answer {
            Ok(value) => Outcome::value(alloc, value),
            Err(error) if error.error_type == Kind::OutOfMemory => {
                Outcome::refused_at(alloc, error.index, first_of(bytes), bytes.len())
            }
            Err(error) => Ok(Outcome::Answered(format!(in alloc;
                "{} at {}",
                error.error_type, error.index
            )?)),
        }
    }

    /// What a reading of a whole text answers that refuses repeated keys.
    pub fn of_unique(
        alloc: Global,
        bytes: &[u8],
        answer: &Result<JsonValue<'_>, UniqueError>,
    ) -> Result<Outcome, AllocError> {
        match answer {
            Ok(value) => Outcome::value(alloc, value),
            Err(error) if error.is_memory() => {
                Outcome::refused_at(alloc, error.index, first_of(bytes), bytes.len())
            }
            Err(error) => Ok(Outcome::Answered(format!(in alloc;
                "{} at {}",
                error.error_type, error.index
            )?)),
        }
    }

    /// What a reading of a whole value replies, of a reader that is then at this index.
    pub fn of_value(
        alloc: Global,
        bytes: &[u8],
        reply: &JiterResult<JsonValue<'_>>,
        place: usize,
    ) -> Result<Outcome, AllocError> {
        match reply {
            Ok(value) => Outcome::value(alloc, value),
            Err(error) if error.error_type == JiterErrorType::JsonError(Kind::OutOfMemory) => {
                if error.index != place {
                    return Outcome::broken(alloc, "the reader does not stand at the index");
                }
                Outcome::refused_at(alloc, place, first_of(bytes), bytes.len())
            }
            Err(error) => Ok(Outcome::Answered(format!(in alloc;
                "{} at {}",
                error.error_type, error.index
            )?)),
        }
    }
}

/// The index of the first byte that isn't whitespace, or the length.
pub fn first_of(bytes: &[u8]) -> usize {
    for index in 0..bytes.len() {
        match bytes[index] {
            b' ' | b'\t' | b'\n' | b'\r' => {}
            _ => return index,
        }
    }
    bytes.len()
}
