//! A scratch that reads one document again and again.
use crate::mark::mark;
use crate::outcome::Outcome;
use crate::readings::Readings;
use crate::stop::Stop;
use jiter::{JsonError, JsonErrorType as Kind, JsonValue, JsonValueScratch, PartialMode};
use std::alloc::{AllocError, Global};

// Other documents of each kind, with each setting.
const OTHERS: [(&[u8], bool, PartialMode); 14] = [
    (b"[1,{\"k\":[\"\\n\"", false, PartialMode::Off),
    (b"[1,{\"k\":[\"\\n\"", false, PartialMode::On),
    (b"[1,{\"k\":[\"\\n\"", false, PartialMode::TrailingStrings),
    (b"[1,{\"\\n\":[\"\\n\"]}]", true, PartialMode::Off),
    (b"", false, PartialMode::Off),
    (b" null", false, PartialMode::Off),
    (b"-7", false, PartialMode::On),
    (b"2.5", false, PartialMode::Off),
    (b"NaN", true, PartialMode::TrailingStrings),
    (b"\"a\"", false, PartialMode::Off),
    (b"\"\\n\"", false, PartialMode::Off),
    (b"\"\\x\"", false, PartialMode::Off),
    (b"[ ]", false, PartialMode::Off),
    (b"{ } x", false, PartialMode::Off),
];

// Adds what a reading of another document came to.
fn add_other(
    readings: &mut Readings,
    alloc: Global,
    answer: &Result<JsonValue<'_>, JsonError>,
) -> Result<(), Stop> {
    match answer {
        Err(error) if error.error_type == Kind::OutOfMemory => {
            readings.refuse(String::from_str(alloc, "out of memory in another document")?)
        }
        _ => Ok(()),
    }
}

/// Returns what a fresh parse and three readings of one scratch come to, which is the same each time. The scratch reads
/// other documents before the third. The call of `new` is a section, and each reading of the document is one.
pub fn borrowed(alloc: Global, bytes: &[u8], mode: PartialMode) -> Result<Outcome, AllocError> {
    match read(alloc, bytes, mode) {
        Ok(readings) => readings.end(alloc),
        Err(stop) => stop.outcome(alloc),
    }
}

/// The same for values that own their strings.
pub fn owned(alloc: Global, bytes: &[u8], mode: PartialMode) -> Result<Outcome, AllocError> {
    match read_owned(alloc, bytes, mode) {
        Ok(readings) => readings.end(alloc),
        Err(stop) => stop.outcome(alloc),
    }
}

fn read(alloc: Global, bytes: &[u8], mode: PartialMode) -> Result<Readings, Stop> {
    let mut readings = Readings::default();
    let fresh = JsonValue::parse_with_config(alloc, bytes, true, mode);
    readings.add(Outcome::of_text(alloc, bytes, &fresh)?)?;
    let _ = mark(alloc);
    let mut scratch = JsonValueScratch::new(alloc);
    let _ = mark(alloc);
    for turn in 0..3 {
        if turn == 2 {
            read_others(&mut readings, alloc, &mut scratch)?;
        }
        read_again(&mut readings, alloc, &mut scratch, bytes, mode)?;
    }
    Ok(readings)
}

fn read_others(
    readings: &mut Readings,
    alloc: Global,
    scratch: &mut JsonValueScratch<'_>,
) -> Result<(), Stop> {
    for &(other, names, mode) in &OTHERS {
        add_other(readings, alloc, &scratch.parse(other, names, mode))?;
    }
    Ok(())
}

fn read_again<'j>(
    readings: &mut Readings,
    alloc: Global,
    scratch: &mut JsonValueScratch<'j>,
    bytes: &'j [u8],
    mode: PartialMode,
) -> Result<(), Stop> {
    let _ = mark(alloc);
    let answer = scratch.parse(bytes, true, mode);
    let _ = mark(alloc);
    readings.add(Outcome::of_text(alloc, bytes, &answer)?)
}

fn read_owned(alloc: Global, bytes: &[u8], mode: PartialMode) -> Result<Readings, Stop> {
    let mut readings = Readings::default();
    let fresh = JsonValue::parse_owned(alloc, bytes, true, mode);
    readings.add(Outcome::of_text(alloc, bytes, &fresh)?)?;
    let _ = mark(alloc);
    let mut scratch: JsonValueScratch<'static> = JsonValueScratch::new(alloc);
    let _ = mark(alloc);
    for turn in 0..3 {
        if turn == 2 {
            read_others_owned(&mut readings, alloc, &mut scratch)?;
        }
        read_again_owned(&mut readings, alloc, &mut scratch, bytes, mode)?;
    }
    Ok(readings)
}

fn read_others_owned(
    readings: &mut Readings,
    alloc: Global,
    scratch: &mut JsonValueScratch<'static>,
) -> Result<(), Stop> {
    for &(other, names, mode) in &OTHERS {
        add_other(readings, alloc, &scratch.parse_owned(other, names, mode))?;
    }
    Ok(())
}

fn read_again_owned(
    readings: &mut Readings,
    alloc: Global,
    scratch: &mut JsonValueScratch<'static>,
    bytes: &[u8],
    mode: PartialMode,
) -> Result<(), Stop> {
    let _ = mark(alloc);
    let answer = scratch.parse_owned(bytes, true, mode);
    let _ = mark(alloc);
    readings.add(Outcome::of_text(alloc, bytes, &answer)?)
}
