//! Two prefixes of one document in one call.
use jiter::PartialMode;
use jiter::client::two_prefixes;
use std::alloc::{AllocError, Global};
use test_rows::{Partial, Row, bytes_of};
use test_support::told::text_of;

/// The values of both prefixes, or the error. ` | ` ends the shorter one and the longer one in the row.
pub fn answer(alloc: Global, row: Row<'_>) -> Result<String, AllocError> {
    let mut bytes = Vec::new(alloc);
    let mut ends = (0, 0);
    for (number, part) in row.input.split(" | ").enumerate() {
        bytes.extend_from_slice(bytes_of(alloc, part)?.as_slice())?;
        match number {
            0 => ends = (bytes.len(), bytes.len()),
            1 => ends.1 = bytes.len(),
            _ => {}
        }
    }
    let mode = match row.partial {
        Partial::Off => PartialMode::Off,
        Partial::On => PartialMode::On,
        Partial::TrailingStrings => PartialMode::TrailingStrings,
    };
    both(alloc, bytes.as_slice(), ends, row.allow_inf_nan, mode)
}

fn both(
    alloc: Global,
    bytes: &[u8],
    ends: (usize, usize),
    allow_inf_nan: bool,
    mode: PartialMode,
) -> Result<String, AllocError> {
    let (shorter, longer) = ends;
    if shorter > longer || longer > bytes.len() {
        return String::from_str(alloc, "no prefixes");
    }
    match &two_prefixes(alloc, bytes, shorter, longer, allow_inf_nan, mode) {
        Ok(values) => {
            let first = text_of(alloc, &values.0)?;
            let second = text_of(alloc, &values.1)?;
            format!(in alloc; "{first} and {second}")
        }
        Err(error) => format!(in alloc; "{} at {}", error.error_type, error.index),
    }
}
