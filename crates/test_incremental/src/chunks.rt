//! What is answered after each chunk, and in the end.
use jiter::{JsonError, JsonValue, PartialMode};
use jiter_incremental::{IncrementalParser, LineIndex, parse_chunks};
use std::alloc::{AllocError, Global};
use test_rows::{Partial, Row};
use test_support::told::{outcome_text, text_of};

/// The value after each chunk, and after `finish:` that of the end.
pub fn pushed(alloc: Global, row: Row<'_>, chunks: &[Vec<u8>]) -> Result<String, AllocError> {
    let mut incremental_parser = IncrementalParser::new(alloc, row.allow_inf_nan, mode_of(&row));
    let mut out = String::new(alloc);
    for chunk in chunks {
        incremental_parser.push(chunk.as_slice())?;
        out.push_str(value_text(alloc, incremental_parser.value())?.as_str())?;
        out.push_str(" | ")?;
    }
    out.push_str("finish: ")?;
    out.push_str(outcome_text(alloc, &incremental_parser.finish())?.as_str())?;
    Ok(out)
}

/// The value of all chunks in the row's mode, moved out of the parser.
pub fn moved_out(alloc: Global, row: Row<'_>, chunks: &[Vec<u8>]) -> Result<String, AllocError> {
    let mut incremental_parser = IncrementalParser::new(alloc, row.allow_inf_nan, mode_of(&row));
    for chunk in chunks {
        incremental_parser.push(chunk.as_slice())?;
    }
    outcome_text(alloc, &incremental_parser.into_value())
}

/// The error after each chunk, if the document isn't complete there.
pub fn errors(alloc: Global, row: Row<'_>, chunks: &[Vec<u8>]) -> Result<String, AllocError> {
    let mut incremental_parser = IncrementalParser::new(alloc, row.allow_inf_nan, mode_of(&row));
    let mut out = String::new(alloc);
    for chunk in chunks {
        incremental_parser.push(chunk.as_slice())?;
        if !out.is_empty() {
            out.push_str(" | ")?;
        }
        match incremental_parser.error() {
            Some(error) => {
                let told = format!(in alloc; "{} at {}", error.error_type, error.index)?;
                out.push_str(told.as_str())?;
            }
            None => out.push_str("none")?,
        }
    }
    Ok(out)
}

fn mode_of(row: &Row<'_>) -> PartialMode {
    match &row.partial {
        Partial::Off => PartialMode::Off,
        Partial::On => PartialMode::On,
        Partial::TrailingStrings => PartialMode::TrailingStrings,
    }
}

fn value_text(
    alloc: Global,
    value: Result<&JsonValue<'static>, JsonError>,
) -> Result<String, AllocError> {
    match value {
        Ok(value) => text_of(alloc, value),
        Err(error) => format!(in alloc; "{} at {}", error.error_type, error.index),
    }
}

/// The value of all chunks.
pub fn whole(alloc: Global, row: Row<'_>, chunks: &[Vec<u8>]) -> Result<String, AllocError> {
    let mut pieces = Vec::new(alloc);
    for chunk in chunks {
        pieces.push(chunk.as_slice())?;
    }
    let value = parse_chunks(alloc, pieces.as_slice(), row.allow_inf_nan);
    outcome_text(alloc, &value)
}

/// Line and column of each index of the chunks, of the first index past them, and of the greatest one.
pub fn feeds(alloc: Global, chunks: &[Vec<u8>]) -> Result<String, AllocError> {
    let mut lines = LineIndex::new(alloc);
    let mut length = 0usize;
    for chunk in chunks {
        lines.push(chunk.as_slice())?;
        length = length.saturating_add(chunk.len());
    }
    let mut out = String::new(alloc);
    for index in 0..length {
        push_place(alloc, &lines, index, &mut out)?;
        out.push_str(" ")?;
    }
    push_place(alloc, &lines, length, &mut out)?;
    out.push_str(" ")?;
    push_place(alloc, &lines, usize::MAX, &mut out)?;
    Ok(out)
}

fn push_place(
    alloc: Global,
    lines: &LineIndex,
    index: usize,
    out: &mut String,
) -> Result<(), AllocError> {
    let place = lines.position(index).short(alloc)?;
    out.push_str(place.as_str())
}
