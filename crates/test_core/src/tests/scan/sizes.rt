//! Growths of every size, and errors and positions at every number: with ample memory no call refuses.
use jiter_scan::errors::{
    Fault, FaultKind, JsonError, JsonErrorType as Kind, LinePosition, push_position,
};
use jiter_scan::memory::{
    AllocFailed, copy_text, lengthen, make_room, push, push_number, push_text, split_off,
    with_capacity,
};
use std::alloc::{AllocError, Global};
use std::test::*;

// How many items a list has that has room for each, how many one that grows by each, and how many are split off it
// at this place.
fn grown(alloc: Global, count: usize, at: usize) -> Result<(usize, usize, usize), AllocFailed> {
    let mut items = with_capacity(alloc, count)?;
    let mut more = Vec::new(alloc);
    for item in 0..count {
        push(&mut items, item)?;
        make_room(&mut more)?;
        push(&mut more, item)?;
    }
    let at = at.min(more.len());
    let part = split_off(&mut more, at)?;
    Ok((items.len(), more.len(), part.len()))
}

// How long bytes are that grow three times, and a copy of the text that grows by it.
fn lengthened(alloc: Global, text: &str, first: usize) -> Result<(usize, usize), AllocFailed> {
    let mut bytes = Vec::new(alloc);
    lengthen(&mut bytes, first)?;
    lengthen(&mut bytes, text.len())?;
    lengthen(&mut bytes, text.len().min(1000))?;
    let mut copy = copy_text(alloc, text)?;
    push_text(&mut copy, text)?;
    Ok((bytes.len(), copy.len()))
}

#[test]
fn growths_of_every_size_are_granted(rt: HostRuntime) -> Result<(), Fail> {
    let alloc = rt.alloc();
    let seen = grown(alloc, 10_000, 0).ok();
    assert!(rt; seen == Some((10_000, 0, 10_000)));
    let text = "0123456789".repeat(alloc, 10_000)?;
    let seen = lengthened(alloc, text.as_str(), 0).ok();
    assert!(rt; seen == Some((101_000, 200_000)));
    for size in 0..=300usize {
        let half = size / 2;
        let seen = grown(alloc, size, 0).ok();
        assert!(rt; seen == Some((size, 0, size)), "{size} items");
        let seen = grown(alloc, size, half).ok();
        assert!(rt;
            seen == Some((size, half, size.saturating_sub(half))),
            "{size} items"
        );
        // Each printable letter begins some texts.
        let letter = (size % 95).saturating_add(32) as u8 as char;
        let text = format!(in alloc; "{letter}")?.repeat(alloc, size)?;
        let twice = size.saturating_mul(2);
        let seen = lengthened(alloc, text.as_str(), 0).ok();
        assert!(rt; seen == Some((twice, twice)), "{size} bytes");
        let seen = lengthened(alloc, text.as_str(), 12).ok();
        assert!(rt;
            seen == Some((twice.saturating_add(12), twice)),
            "{size} more bytes"
        );
    }
    Ok(())
}

// Whether a clone of a position is equal to it, and to no other near by.
fn is_itself_alone(line: usize, column: usize) -> Result<bool, AllocError> {
    let position = LinePosition::new(line, column);
    let copy = position.clone()?;
    let other_line = LinePosition::new(line ^ 1, column);
    let other_column = LinePosition::new(line, column ^ 1);
    Ok(copy == LinePosition::new(line, column) && copy != other_line && copy != other_column)
}

// Whether a number and the three texts of a position are told.
fn is_told(alloc: Global, line: usize, column: usize) -> Result<bool, Fail> {
    let position = LinePosition::new(line, column);
    let mut text = String::from_str(alloc, "so")?;
    let pushed = push_position(&mut text, &position).is_ok();
    let wanted = format!(in alloc; "so at line {line} column {column}")?;
    let mut number = String::new(alloc);
    let numbered = push_number(&mut number, line).is_ok();
    let short = format!(in alloc; "{line}:{column}")?;
    let long = format!(in alloc; "line {line} column {column}")?;
    Ok(
        pushed
            && numbered
            && text.as_str() == wanted.as_str()
            && number.as_str() == line.to_string(alloc)?.as_str()
            && position.short(alloc)?.as_str() == short.as_str()
            && position.to_string(alloc)?.as_str() == long.as_str(),
    )
}

#[test]
fn every_line_and_column_is_told(rt: HostRuntime) -> Result<(), Fail> {
    let alloc = rt.alloc();
    let mut number = 0usize;
    // Each number to 1100, and ever larger ones to the largest.
    for step in 0..1160usize {
        for (line, column) in [(number, 7), (7, number), (number, number)] {
            assert!(rt; is_told(alloc, line, column)?, "{line}:{column}");
            assert!(rt; is_itself_alone(line, column)?, "{line}:{column}");
        }
        number = if step < 1100 {
            number.saturating_add(1)
        } else {
            number.saturating_mul(2)
        };
    }
    Ok(())
}

// Every kind of error.
const KINDS: [Kind; 22] = [
    Kind::FloatExpectingInt,
    Kind::EofWhileParsingList,
    Kind::EofWhileParsingObject,
    Kind::EofWhileParsingString,
    Kind::EofWhileParsingValue,
    Kind::ExpectedColon,
    Kind::ExpectedListCommaOrEnd,
    Kind::ExpectedObjectCommaOrEnd,
    Kind::ExpectedSomeIdent,
    Kind::ExpectedSomeValue,
    Kind::InvalidEscape,
    Kind::InvalidNumber,
    Kind::NumberOutOfRange,
    Kind::InvalidUnicodeCodePoint,
    Kind::ControlCharacterWhileParsingString,
    Kind::KeyMustBeAString,
    Kind::LoneLeadingSurrogateInHexEscape,
    Kind::TrailingComma,
    Kind::TrailingCharacters,
    Kind::UnexpectedEndOfHexEscape,
    Kind::RecursionLimitExceeded,
    Kind::OutOfMemory,
];

// Every kind of error of the bytes.
const FAULTS: [FaultKind; 20] = [
    FaultKind::EofWhileParsingList,
    FaultKind::EofWhileParsingObject,
    FaultKind::EofWhileParsingString,
    FaultKind::EofWhileParsingValue,
    FaultKind::ExpectedColon,
    FaultKind::ExpectedListCommaOrEnd,
    FaultKind::ExpectedObjectCommaOrEnd,
    FaultKind::ExpectedSomeIdent,
    FaultKind::ExpectedSomeValue,
    FaultKind::InvalidEscape,
    FaultKind::InvalidNumber,
    FaultKind::NumberOutOfRange,
    FaultKind::InvalidUnicodeCodePoint,
    FaultKind::ControlCharacterWhileParsingString,
    FaultKind::KeyMustBeAString,
    FaultKind::LoneLeadingSurrogateInHexEscape,
    FaultKind::TrailingComma,
    FaultKind::TrailingCharacters,
    FaultKind::UnexpectedEndOfHexEscape,
    FaultKind::RecursionLimitExceeded,
];

// How many kinds are equal to a clone of this one, and how many errors of some kind, at this index and at one near
// by, to a clone of its error at this index.
fn count_errors(kind: &Kind, index: usize) -> Result<(usize, usize, usize), AllocError> {
    let error_type = kind.clone()?;
    let error = JsonError { error_type, index }.clone()?;
    let mut counts = (0usize, 0usize, 0usize);
    for other in &KINDS {
        let here = JsonError {
            error_type: other.clone()?,
            index,
        };
        let near = JsonError {
            error_type: other.clone()?,
            index: index ^ 1,
        };
        counts.0 = counts
            .0
            .saturating_add(usize::from(*other == error.error_type));
        counts.1 = counts.1.saturating_add(usize::from(here == error));
        counts.2 = counts.2.saturating_add(usize::from(!(near != error)));
    }
    Ok(counts)
}

// The same of a kind of error.
fn count_faults(kind: FaultKind, index: usize) -> Result<(usize, usize, usize), AllocError> {
    let fault = Fault {
        kind: kind.clone()?,
        index,
    }
    .clone()?;
    let mut counts = (0usize, 0usize, 0usize);
    for other in FAULTS {
        let here = Fault { kind: other, index };
        let near = Fault {
            kind: other,
            index: index ^ 1,
        };
        counts.0 = counts.0.saturating_add(usize::from(other == fault.kind));
        counts.1 = counts.1.saturating_add(usize::from(here == fault));
        counts.2 = counts.2.saturating_add(usize::from(!(near != fault)));
    }
    Ok(counts)
}

// The first kind whose error at this index is not described, in spaces and in lines, or prints otherwise, or is like
// another one.
fn first_missed(
    alloc: Global,
    blanks: &[u8],
    lines: &[u8],
    index: usize,
) -> Result<Option<&'static Kind>, Fail> {
    let next = index.saturating_add(1);
    for kind in &KINDS {
        let error = JsonError {
            error_type: kind.clone()?,
            index,
        };
        let in_blanks = format!(in alloc; "{kind} at line 1 column {next}")?;
        let in_lines = format!(in alloc; "{kind} at line {} column 0", next.saturating_add(1))?;
        let printed = format!(in alloc; "{kind} at index {index}")?;
        if error.description(alloc, blanks)?.as_str() != in_blanks.as_str()
            || error.description(alloc, lines)?.as_str() != in_lines.as_str()
            || error.to_string(alloc)?.as_str() != printed.as_str()
            || count_errors(kind, index)? != (1, 1, 0)
        {
            return Ok(Some(kind));
        }
    }
    Ok(None)
}

#[test]
fn every_error_at_every_index_is_described_and_like_itself_alone(
    rt: HostRuntime,
) -> Result<(), Fail> {
    let alloc = rt.alloc();
    let blanks = " ".repeat(alloc, 100_001)?;
    let lines = "\n".repeat(alloc, 100_001)?;
    let far = [499, 500, 777, 998, 999, 1000, 1001, 9999, 65_536, 100_000];
    for step in 0..311usize {
        let index = if step <= 300 {
            step
        } else {
            far[(step - 301) % 10]
        };
        let missed = first_missed(alloc, blanks.as_bytes(), lines.as_bytes(), index)?;
        assert!(rt; missed.is_none(), "{missed:?} at {index}");
        let kind = FAULTS[step % 20];
        assert!(rt;
            count_faults(kind, index)? == (1, 1, 0),
            "{kind:?} at {index}"
        );
    }
    Ok(())
}
