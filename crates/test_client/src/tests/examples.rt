//! The examples of README.md and docs/CALLING.md that are no part of a caller, with what each prints.
use jiter::*;
use std::alloc::{AllocError, Global};
use std::process::Abort;
use std::test::*;

// A whole document, word for word.
fn told(alloc: Global, bytes: &[u8]) -> Result<String, AllocError> {
    match &JsonValue::parse(alloc, bytes, false) {
        Ok(JsonValue::Array(items)) => format!(in alloc; "an array of {}", items.len()),
        Ok(JsonValue::Object(members)) => format!(in alloc; "an object of {}", members.len()),
        Ok(_) => String::from_str(alloc, "a scalar"),
        Err(error) => error.description(alloc, bytes),
    }
}

// How many items have arrived; none, where the bytes are no array yet.
fn items_arrived(alloc: Global, bytes: &[u8]) -> usize {
    match &JsonValue::parse_with_config(alloc, bytes, false, PartialMode::TrailingStrings) {
        Ok(JsonValue::Array(items)) => items.len(),
        _ => 0,
    }
}

// The key that an object of the document has twice, if one does.
fn repeated_key(alloc: Global, bytes: &[u8]) -> Option<String> {
    match JsonValue::parse_unique(alloc, bytes, false, PartialMode::Off) {
        Ok(_) => None,
        Err(error) => match error.error_type {
            UniqueErrorType::DuplicateKey(key) => Some(key),
            UniqueErrorType::JsonError(_) => None,
        },
    }
}

// A number alone; each arm makes the line that the example in docs/CALLING.md prints.
fn number_text(alloc: Global, bytes: &[u8]) -> Result<String, AllocError> {
    match NumberAny::from_bytes(bytes, false) {
        Ok(NumberAny::Int(NumberInt::Int(number))) => format!(in alloc; "{number}"),
        Ok(NumberAny::Int(NumberInt::BigInt(digits))) => format!(in alloc; "{digits}"),
        Ok(NumberAny::Float(text)) => format!(in alloc; "{text}"),
        Err(error) => format!(in alloc; "{} at {}", error.error_type, error.index),
    }
}

// The line and the column of an index.
fn place(alloc: Global, bytes: &[u8], index: usize) -> Result<String, AllocError> {
    let position = LinePosition::find(bytes, index);
    format!(in alloc; "{position}")
}

#[test]
fn examples_answer_as_the_documents_say(rt: HostRuntime) -> Result<(), Fail> {
    let alloc = rt.alloc();
    for (text, wanted) in [
        ("[true, 1.50]", "an array of 2"),
        ("[1,]", "trailing comma at line 1 column 4"),
        ("{\"a\": 1}", "an object of 1"),
        ("1.50", "a scalar"),
    ] {
        assert_eq!(rt; told(alloc, text.as_bytes())?.as_str(), wanted);
    }
    for (text, wanted) in [
        ("2.50", "2.50"),
        ("-12", "-12"),
        ("9223372036854775808", "9223372036854775808"),
        ("2.", "EOF while parsing a value at 2"),
    ] {
        assert_eq!(rt; number_text(alloc, text.as_bytes())?.as_str(), wanted);
    }
    assert_eq!(rt; place(alloc, b"ab\ncd", 4)?.as_str(), "line 2 column 2");
    let key = repeated_key(alloc, b"{\"a\": 1, \"\\u0061\": 2}").ok_or("a key")?;
    assert_eq!(rt; key.as_str(), "a");
    assert!(rt; repeated_key(alloc, b"{\"a\": {\"a\": 1}}").is_none());
    Ok(())
}

#[test]
fn a_document_arrives_in_pieces(rt: HostRuntime) {
    let document = b"[12, \"a b\", {\"k\": tru";
    for (length, items) in [
        (0, 0),
        (1, 0),
        (2, 1),
        (5, 1),
        (6, 2),
        (11, 2),
        (12, 2),
        (13, 3),
        (21, 3),
    ] {
        assert_eq!(rt;
            items_arrived(rt.alloc(), &document[..length]),
            items,
            "{length}"
        );
    }
}

#[test]
fn a_document_is_read_by_steps(rt: HostRuntime) -> Result<(), Fail> {
    let document = br#"{"name": "John Doe", "age": 43, "phones": ["+44 1234567", "+44 2345678"]}"#;
    let mut jiter = Jiter::new(document);
    name_and_age(&rt, rt.alloc(), &mut jiter)?;
    phones(&rt, rt.alloc(), &mut jiter)?;
    jiter.finish()?;
    Ok(())
}

fn name_and_age(rt: &impl Abort, alloc: Global, jiter: &mut Jiter<'_>) -> Result<(), Fail> {
    assert_eq!(rt; jiter.next_object(alloc)?, Some("name"));
    assert_eq!(rt; jiter.next_str(alloc)?, "John Doe");
    assert_eq!(rt; jiter.next_key(alloc)?, Some("age"));
    assert_eq!(rt; jiter.next_int()?, NumberInt::Int(43));
    assert_eq!(rt; jiter.next_key(alloc)?, Some("phones"));
    Ok(())
}

fn phones(rt: &impl Abort, alloc: Global, jiter: &mut Jiter<'_>) -> Result<(), Fail> {
    assert_eq!(rt; jiter.next_array()?, Some(Peek::String));
    assert_eq!(rt; jiter.next_str(alloc)?, "+44 1234567");
    assert_eq!(rt; jiter.array_step()?, Some(Peek::String));
    assert_eq!(rt; jiter.next_str(alloc)?, "+44 2345678");
    assert_eq!(rt; jiter.array_step()?, None);
    assert_eq!(rt; jiter.next_key(alloc)?, None);
    Ok(())
}

#[test]
fn another_type_may_be_tried(rt: HostRuntime) -> Result<(), Fail> {
    let alloc = rt.alloc();
    let mut jiter = Jiter::new(b"[1.5, 2]");
    assert_eq!(rt; jiter.next_array()?, Some(Peek::new(b'1')));
    let error = jiter.next_int().err().ok_or("an integer")?;
    let told = error.description(alloc, &jiter)?;
    assert_eq!(rt;
        told.as_str(),
        "expected int but found float at line 1 column 2"
    );
    assert_eq!(rt; jiter.next_number_bytes()?, b"1.5".as_slice());
    Ok(())
}

// The example of docs/CALLING.md: a text that the caller keeps.
fn read_host(alloc: Global, jiter: &mut Jiter<'_>) -> JiterResult<String> {
    let text = jiter.next_str(alloc)?;
    match String::from_str(alloc, text) {
        Ok(copy) => Ok(copy),
        Err(_) => Err(jiter.out_of_memory()),
    }
}

// The values of the lines that are documents; each owns its texts, and the scratch serves all lines. Out of memory ends
// it.
fn values_of(alloc: Global, lines: &[&[u8]]) -> Result<Vec<JsonValue<'static>>, AllocError> {
    let mut scratch = JsonValueScratch::new(alloc);
    let mut values = Vec::new(alloc);
    for line in lines {
        match scratch.parse_owned(line, false, PartialMode::Off) {
            Ok(value) => values.push(value)?,
            Err(error) if error.is_memory() => return Err(AllocError),
            Err(_) => {}
        }
    }
    Ok(values)
}

#[test]
fn texts_and_values_are_kept(rt: HostRuntime) -> Result<(), Fail> {
    let alloc = rt.alloc();
    let host = read_host(alloc, &mut Jiter::new(b"\"localhost\""))?;
    assert_eq!(rt; host.as_str(), "localhost");
    let refused = read_host(alloc, &mut Jiter::new(b"80"))
        .err()
        .ok_or("no host")?;
    assert_eq!(rt; (refused.index, refused.is_memory()), (0, false));
    let lines = [
        b"{\"level\": \"info\"}".as_slice(),
        b"{\"level\": ".as_slice(),
        b"{\"level\": \"warn\"}".as_slice(),
    ];
    let values = values_of(alloc, &lines)?;
    assert_eq!(rt; values.len(), 2);
    let last = JsonValue::parse(alloc, b"{\"level\": \"warn\"}", false)?;
    assert!(rt; values[1] == last);
    Ok(())
}
