//! What a walk returns, in words.
use crate::unfit::Unfit;
use jiter_walk::{Value, WalkError, read_document};
use std::alloc::{AllocError, Global};
use std::fmt::Debug;
use std::io::Write;

/// Returns the byte index of an error.
pub fn index_of(error: &WalkError<Unfit>) -> usize {
    match error {
        WalkError::Reader(error) => error.index,
        WalkError::Custom(_, index) => *index,
    }
}

/// Returns what was returned: the value, or the index of the error and the error.
pub fn told<V: Debug>(
    alloc: Global,
    given: &Result<V, WalkError<Unfit>>,
) -> Result<String, AllocError> {
    match given {
        Ok(value) => format!(in alloc; "{value:?}"),
        Err(error) => format!(in alloc; "{}: {error}", index_of(error)),
    }
}

/// Whether each document is what the words say, read as this type.
pub fn all_read<'j, V: Value<'j, Unfit> + Debug>(
    rt: &HostRuntime,
    rows: &[(&'j [u8], &str)],
) -> Result<bool, AllocError> {
    for (text, words) in rows {
        let given: Result<V, WalkError<Unfit>> = read_document(rt.alloc(), text);
        let line = told(rt.alloc(), &given)?;
        if line.as_str() != *words {
            let _ = writeln!(rt.stderr(), "not {words}, but {line}");
            return Ok(false);
        }
    }
    Ok(true)
}
