//! Objects that become structs: which member counts, and where an error is.
use crate::records::{Part, Record};
use crate::tests::shown::{all_read, index_of, told};
use crate::unfit::Unfit;
use jiter_walk::{WalkError, read_document};
use std::alloc::{AllocError, Global};
use std::io::Write;
use std::process::Abort;
use std::test::*;

// A record, or its error, in words.
fn record_told(
    alloc: Global,
    given: Result<Record<'_>, WalkError<Unfit>>,
) -> Result<String, AllocError> {
    match given {
        Ok(record) => {
            let raw = str::from_utf8(record.raw.unwrap_or(b"-")).unwrap_or("not UTF-8");
            format!(in alloc;
                "{} {:?} {} {:?} {:?} {:?} {raw}",
                record.id, record.note, record.open, record.main, record.parts, record.state
            )
        }
        Err(error) => told::<()>(alloc, &Err(error)),
    }
}

fn all_records(rt: &HostRuntime, rows: &[(&[u8], &str)]) -> Result<bool, AllocError> {
    for (text, words) in rows {
        let line = record_told(rt.alloc(), read_document(rt.alloc(), text))?;
        if line.as_str() != *words {
            let _ = writeln!(rt.stderr(), "not {words}, but {line}");
            return Ok(false);
        }
    }
    Ok(true)
}

#[test]
fn the_first_or_the_last_member_counts(rt: HostRuntime) -> Result<(), Fail> {
    let rows: [(&[u8], &str); 9] = [
        (b"{\"id\":7}", "7 None true None [] None -"),
        (
            b" {\"x\":{\"id\":9},\"\\u0069d\":255,\"\":[[]]}\n",
            "255 None true None [] None -",
        ),
        (b"{\"id\":7,\"id\":256}", "7 None true None [] None -"),
        (
            b"{\"id\":7,\"id\":\"x\",\"note\":\"a\",\"note\":1,\"open\":false,\"open\":true,\"id\":null}",
            "7 Some(\"a\") false None [] None -",
        ),
        (
            b"{\"open\":true,\"open\":[false],\"id\":1}",
            "1 None true None [] None -",
        ),
        (
            b"{\"main\":{\"name\":\"a\"},\"main\":null,\"id\":0,\"state\":\"open\",\"state\":\"closed\"}",
            "0 None true Some(None) [] Some(Closed) -",
        ),
        (
            b"{\"id\":0,\"main\":null,\"main\":{\"size\":2,\"name\":\"a\",\"size\":1}}",
            "0 None true Some(Some(Part { name: \"a\", size: Some(1) })) [] None -",
        ),
        (
            b"{\"parts\":[[{\"name\":\"x\"}],[]],\"parts\":[[],[{\"name\":\"b\",\"size\":9},{\"name\":\"c\"}]],\"id\":1}",
            "1 None true None [[], [Part { name: \"b\", size: Some(9) }, Part { name: \"c\", size: None }]] None -",
        ),
        (
            b"{\"raw\":1,\"raw\": [1 ,\"a\"] ,\"id\":2}",
            "2 None true None [] None [1 ,\"a\"]",
        ),
    ];
    assert!(rt; all_records(&rt, &rows)?);
    Ok(())
}

#[test]
fn an_error_of_an_object_is_at_its_value_key_or_brace(rt: HostRuntime) -> Result<(), Fail> {
    let rows: [(&[u8], &str); 23] = [
        (b"[]", "0: expected object but found array"),
        (b" 1", "1: expected object but found int"),
        (b"null", "0: expected object but found null"),
        (b"{}", "1: id is missing"),
        (b"{\"note\":\"a\"} ", "11: id is missing"),
        (b"{\"id\":256,\"id\":1}", "6: out of range"),
        (b"{\"id\":1,\"id\":[}", "14: expected value"),
        (b"{\"id\":1,\"id\":1,}", "15: trailing comma"),
        (
            b"{\"main\":{\"name\":\"a\",\"name\":\"b\"}}",
            "20: duplicate key",
        ),
        (b"{\"main\":{\"x\":1}}", "9: unknown key"),
        (b"{\"main\":{}}", "9: name is missing"),
        (b"{\"main\":[]}", "8: expected object but found array"),
        (b"{\"parts\":[[],[{\"size\":0}]]}", "22: out of range"),
        (b"{\"parts\":[[{\"size\":10}]]}", "19: out of range"),
        (b"{\"parts\":[1]}", "10: expected array but found int"),
        (b"{\"state\":\"x\"}", "9: no such state"),
        (b"{\"open\":0}", "8: expected bool but found int"),
        (b"{\"note\":null}", "8: expected string but found null"),
        (b"{\"raw\":}", "7: expected value"),
        (b"{\"id\":1} x", "9: trailing characters"),
        (b"{\"id\" 1}", "6: expected `:`"),
        (b"{1:2}", "1: key must be a string"),
        (b"{\"id\":1 \"x\":1}", "8: expected `,` or `}`"),
    ];
    assert!(rt; all_records(&rt, &rows)?);
    let lists: [(&[u8], &str); 4] = [
        (b"[{\"name\":\"\"}]", "[Part { name: \"\", size: None }]"),
        (b"[{\"name\":\"a\"},{}]", "15: name is missing"),
        (
            b"[{\"name\":\"a\"},{\"name\":\"b\",\"name\":1}]",
            "26: duplicate key",
        ),
        (b"[{\"size\":1,\"names\":0}]", "11: unknown key"),
    ];
    assert!(rt; all_read::<Vec<Part>>(&rt, &lists)?);
    Ok(())
}

#[test]
fn no_prefix_of_a_record_is_one(rt: HostRuntime) {
    let text =
        b"{\"id\": 12, \"note\": \"a\\u00e9\", \"x\": [1, null], \"main\": {\"name\": \"b\", \"size\": 3},\
        \"parts\": [[{\"name\": \"c\"}], []], \"state\": \"open\", \"raw\": [1.5e1, false], \"open\": true}"
            .as_slice();
    for end in 0..text.len() {
        let given: Result<Record<'_>, WalkError<Unfit>> = read_document(rt.alloc(), &text[..end]);
        match given {
            Ok(_) => assert!(rt; false, "a record up to {end}"),
            Err(error) => assert!(rt; index_of(&error) <= end, "an error past {end}"),
        }
    }
    let given: Result<Record<'_>, WalkError<Unfit>> = read_document(rt.alloc(), text);
    assert!(rt; given.is_ok());
}
