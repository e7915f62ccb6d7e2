//! What a skip meets, beside what reading the whole document meets.
use jiter::{Jiter, JiterError, JiterResult, JsonErrorType as Kind, JsonValue};
use std::alloc::{AllocError, Global};
use std::test::*;

// The bytes that the small documents are made of.
const BYTES: [u8; 11] = [
    b'[', b']', b'{', b'}', b'"', b',', b':', b'1', b' ', b'\\', 0xff,
];

// A reader of these bytes, where names are numbers or not.
fn reader<'j>(bytes: &'j [u8], names: bool) -> Jiter<'j> {
    if names {
        Jiter::new(bytes).with_allow_inf_nan()
    } else {
        Jiter::new(bytes)
    }
}

// Reads a document as a parse does, its value skipped.
fn skip_document(bytes: &[u8], names: bool) -> JiterResult<()> {
    let mut jiter = reader(bytes, names);
    match jiter.next_skip() {
        Ok(()) => jiter.finish(),
        Err(error) => Err(error),
    }
}

// Whether the skip has the error that reading has; it has none for UTF-8.
fn agree(alloc: Global, bytes: &[u8], names: bool) -> bool {
    match (
        JsonValue::parse(alloc, bytes, names),
        skip_document(bytes, names),
    ) {
        (Ok(_), Ok(())) => true,
        (Ok(_), Err(_)) => false,
        (Err(read), Ok(())) => read.error_type == Kind::InvalidUnicodeCodePoint,
        (Err(read), Err(skipped)) => {
            read.error_type == Kind::InvalidUnicodeCodePoint || JiterError::from(read) == skipped
        }
    }
}

#[test]
fn small_documents_are_skipped_as_they_are_read(rt: HostRuntime) {
    let mut bytes = [b' '; 4];
    for number in 0..14641_usize {
        let mut rest = number;
        for at in 0..4 {
            bytes[at] = BYTES[rest % 11];
            rest /= 11;
        }
        assert!(rt; agree(rt.alloc(), &bytes, false), "of {bytes:?}");
    }
}

// Documents, read or refused, each for another reason.
const DOCUMENTS: [&str; 43] = [
    "\n{\"name\": \"John Doe\", \"age\": 43, \"phones\": [\"+44 1234567\", \"+44 2345678\"]}",
    "  ",
    "[1, 2] extra",
    "[1,]",
    "-9223372036854775808",
    "9223372036854775808",
    "-0",
    "1000000000000000000",
    "0.",
    "01",
    "[-I]",
    "[I]",
    "[Infinit]",
    r#""\ud83d\ude00""#,
    r#""\ud83dx""#,
    r#""\ud83d\n""#,
    r#""\udc00""#,
    r#""\ud83d\u0041""#,
    r#"{"a": [1, {"b": "x"#,
    r#"[{"a":[1}, 2]"#,
    "[12",
    "[12.",
    "[12.5",
    "[\"a",
    r#"["ab\u00"#,
    "[\"",
    "[\"ab",
    " 1.5",
    "12.",
    "[\"x\"]",
    r#""\nx""#,
    "\"aaaaaaaaaaaaaa\u{e9}aaa\u{1f}\"",
    r#"{"a": "escaped\nvalue", "b": [1, 2, {"c": [3, "#,
    "[1] x",
    r#"["ok\n", {"d": 4}]"#,
    r#"{"a":1,"\u0061":2}"#,
    r#"{"a" 1}"#,
    "{1:2}",
    r#"{"a":1,}"#,
    r#"{"a":1 "b"}"#,
    r#"["string", "\u00a3", true, false, null, NaN, Infinity, -Infinity]"#,
    "NaN",
    r#"{"a": [1, 2.50, "\n"]}"#,
];

// The first place from this one on, and the byte there, of which the skip does not meet what reading meets.
fn first_unlike(
    alloc: Global,
    document: &[u8],
    from: usize,
    names: bool,
) -> Result<Option<(usize, u8)>, AllocError> {
    let mut bytes = Vec::from_slice(alloc, document)?;
    for place in from..document.len() {
        for byte in 0..=255u8 {
            if place < bytes.len() {
                bytes[place] = byte;
            }
            if !agree(alloc, bytes.as_slice(), names) {
                return Ok(Some((place, byte)));
            }
        }
        if place < bytes.len() {
            bytes[place] = document[place];
        }
    }
    Ok(None)
}

#[test]
fn documents_with_any_other_byte_are_skipped_as_they_are_read(rt: HostRuntime) -> Result<(), Fail> {
    for document in DOCUMENTS {
        for names in [false, true] {
            let unlike = first_unlike(rt.alloc(), document.as_bytes(), 0, names)?;
            assert_eq!(rt; unlike, None, "of {document}, {names}");
        }
    }
    // About the limit of nesting.
    let deepest = "[".repeat(rt.alloc(), 210)?;
    assert_eq!(rt;
        first_unlike(rt.alloc(), deepest.as_bytes(), 190, false)?,
        None
    );
    Ok(())
}
