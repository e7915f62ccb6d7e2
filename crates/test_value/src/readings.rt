//! What the readings of a whole document answer.
use jiter_scan::PartialMode;
use jiter_value::{JsonValue, JsonValueScratch, Machine, Turn};
use std::alloc::{AllocError, Global};
use test_rows::{Partial, Row, bytes_of};
use test_support::told::{answer_text, outcome_text, text_of};

/// The mode that a row asks for.
pub fn mode_of(row: &Row<'_>) -> PartialMode {
    match row.partial {
        Partial::Off => PartialMode::Off,
        Partial::On => PartialMode::On,
        Partial::TrailingStrings => PartialMode::TrailingStrings,
    }
}

/// What the row's call answers, if it is one of these: the value, or the kind and the index of the error.
pub fn answer(alloc: Global, row: &Row<'_>, bytes: &[u8]) -> Result<Option<String>, AllocError> {
    let names = row.allow_inf_nan;
    let mode = mode_of(row);
    let text = match row.call {
        "parse" => outcome_text(alloc, &JsonValue::parse(alloc, bytes, names)),
        "parse_with_config" => answer_text(alloc, bytes, names, mode),
        "parse_owned" => outcome_text(alloc, &JsonValue::parse_owned(alloc, bytes, names, mode)),
        "parse_unique" => unique_text(alloc, bytes, names, mode),
        "machine" => Ok(by_turns(alloc, bytes, names, mode)?.0),
        "turns" => told(alloc, by_turns(alloc, bytes, names, mode)?),
        "scratch" => served(alloc, row, mode),
        "scratch_owned" => served_owned(alloc, row, mode),
        _ => return Ok(None),
    };
    Ok(Some(text?))
}

// The value, or the error as it prints.
fn unique_text(
    alloc: Global,
    bytes: &[u8],
    allow_inf_nan: bool,
    mode: PartialMode,
) -> Result<String, AllocError> {
    match &JsonValue::parse_unique(alloc, bytes, allow_inf_nan, mode) {
        Ok(value) => text_of(alloc, value),
        Err(error) => format!(in alloc; "{error}"),
    }
}

fn told(alloc: Global, answer: (String, usize)) -> Result<String, AllocError> {
    format!(in alloc; "{} after {}", answer.0, answer.1)
}

// What a machine answers, and how many turns go on before.
fn by_turns(
    alloc: Global,
    bytes: &[u8],
    allow_inf_nan: bool,
    mode: PartialMode,
) -> Result<(String, usize), AllocError> {
    let mut machine = Machine::new(alloc, bytes, allow_inf_nan, mode);
    for turns in 0..bytes.len().saturating_mul(3).saturating_add(3) {
        match machine.turn() {
            Turn::More(next) => machine = next,
            Turn::Done(outcome) => return Ok((outcome_text(alloc, &outcome)?, turns)),
        }
    }
    Ok((String::from_str(alloc, "too many turns")?, 0))
}

// The documents of a row. ` | ` stands between two.
fn documents(alloc: Global, row: &Row<'_>) -> Result<Vec<Vec<u8>>, AllocError> {
    let mut documents = Vec::new(alloc);
    for document in row.input.split(" | ") {
        documents.push(bytes_of(alloc, document)?)?;
    }
    Ok(documents)
}

fn append_answer(line: &mut String, answer: &str) -> Result<(), AllocError> {
    if !line.is_empty() {
        line.push_str(" | ")?;
    }
    line.push_str(answer)
}

// What one scratch answers to each document of the row.
fn served(alloc: Global, row: &Row<'_>, mode: PartialMode) -> Result<String, AllocError> {
    let documents = documents(alloc, row)?;
    let mut scratch = JsonValueScratch::new(alloc);
    let mut line = String::new(alloc);
    for document in &documents {
        let outcome = scratch.parse(document.as_slice(), row.allow_inf_nan, mode);
        append_answer(&mut line, outcome_text(alloc, &outcome)?.as_str())?;
    }
    Ok(line)
}

fn served_owned(alloc: Global, row: &Row<'_>, mode: PartialMode) -> Result<String, AllocError> {
    let mut scratch = JsonValueScratch::new(alloc);
    let mut line = String::new(alloc);
    for document in row.input.split(" | ") {
        let bytes = bytes_of(alloc, document)?;
        let outcome = scratch.parse_owned(bytes.as_slice(), row.allow_inf_nan, mode);
        append_answer(&mut line, outcome_text(alloc, &outcome)?.as_str())?;
    }
    Ok(line)
}
