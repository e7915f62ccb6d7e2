//! The examples of docs/CALLING.md whose document comes in chunks.
use jiter::{JsonError, JsonValue, PartialMode};
use jiter_incremental::{IncrementalParser, LineIndex, parse_chunks};
use std::alloc::{AllocError, Global};
use std::test::*;

// The example of docs/CALLING.md: the document that comes in pieces, and how many items stand after each.
fn whole(
    alloc: Global,
    pieces: &[&[u8]],
    shown: &mut Vec<usize>,
) -> Result<Result<JsonValue<'static>, JsonError>, AllocError> {
    let mut incremental_parser = IncrementalParser::new(alloc, false, PartialMode::TrailingStrings);
    for piece in pieces {
        incremental_parser.push(piece)?;
        if let Ok(JsonValue::Array(items)) = incremental_parser.value() {
            shown.push(items.len())?;
        }
    }
    Ok(incremental_parser.finish())
}

#[test]
fn a_document_that_comes_in_pieces_is_shown_and_whole(rt: HostRuntime) -> Result<(), Fail> {
    let pieces: [&[u8]; 4] = [b"[1", b"2, \"a", b" b\", tru", b"e]"];
    let mut shown = Vec::new(rt.alloc());
    let value = whole(rt.alloc(), &pieces, &mut shown)?;
    assert_eq!(rt; shown.as_slice(), [1, 2, 2, 3].as_slice());
    let wanted = JsonValue::parse_owned(
        rt.alloc(),
        b"[12, \"a b\", true]",
        false,
        PartialMode::Off,
    );
    assert!(rt; value == wanted);
    assert!(rt; parse_chunks(rt.alloc(), &pieces, false) == wanted);
    let none = JsonValue::parse_owned(rt.alloc(), b"", false, PartialMode::Off);
    assert!(rt; parse_chunks(rt.alloc(), &[], false) == none);
    Ok(())
}

// The example of docs/CALLING.md: the error of a document in chunks, if it has one.
fn fault(alloc: Global, pieces: &[&[u8]]) -> Result<Option<String>, AllocError> {
    let mut incremental_parser = IncrementalParser::new(alloc, false, PartialMode::Off);
    let mut lines = LineIndex::new(alloc);
    for piece in pieces {
        incremental_parser.push(piece)?;
        lines.push(piece)?;
    }
    let Err(error) = incremental_parser.finish() else {
        return Ok(None);
    };
    let position = lines.position(error.index);
    Ok(Some(format!(in alloc; "{} at {position}", error.error_type)?))
}

#[test]
fn a_fault_is_told_at_its_line_and_column(rt: HostRuntime) -> Result<(), Fail> {
    let told = fault(rt.alloc(), &[b"[1,\n ".as_slice(), b"2,]"])?;
    match told {
        Some(text) => assert_eq!(rt; text.as_str(), "trailing comma at line 2 column 4"),
        None => assert!(rt; false, "it is no document"),
    }
    assert!(rt; fault(rt.alloc(), &[b"[1,\n ".as_slice(), b"2]"])?.is_none());
    Ok(())
}
