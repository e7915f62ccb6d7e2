//! How values and strings are printed, with parts of each size and depth.
use jiter::JsonValue;
use jiter_print::{print, print_pretty, print_str};
use std::alloc::{AllocError, Global};
use std::test::*;

// Whether a document is printed as it is.
fn is_printed(alloc: Global, document: &str) -> bool {
    match JsonValue::parse(alloc, document.as_bytes(), false) {
        Ok(value) => match print(alloc, &value) {
            Ok(text) => text.as_slice() == document.as_bytes(),
            Err(_) => false,
        },
        Err(_) => false,
    }
}

#[test]
fn values_are_printed(rt: HostRuntime) {
    for document in [
        "null",
        "true",
        "false",
        "0",
        "9",
        "10",
        "-1",
        "-10",
        "-12",
        "100",
        "1000000007",
        "9223372036854775807",
        "-9223372036854775808",
        "9223372036854775808",
        "-1.50E+2",
        "\"\"",
        "\"\\\"\"",
        "\"\\\"\\\\\"",
        "\"a\\\"\"",
        "\"\\\"a\"",
        "\"ab\\u000acd\\u0000\\u001f é\"",
        "\"a\\\"\\\\/\\u001f\u{7f}é\"",
        "[]",
        "{}",
        "{\"a\":[[],{}],\"\\u000a\":null,\"a\":2}",
    ] {
        assert!(rt; is_printed(rt.alloc(), document), "{document}");
    }
}

// The same for `first`, then up to `counts` times `more`, then `last`.
fn each_is_printed(
    alloc: Global,
    first: &str,
    more: &str,
    last: &str,
    counts: usize,
) -> Result<bool, AllocError> {
    for count in 0..=counts {
        let parts = more.repeat(alloc, count)?;
        let document = format!(in alloc; "{first}{parts}{last}")?;
        if !is_printed(alloc, document.as_str()) {
            return Ok(false);
        }
    }
    Ok(true)
}

#[test]
fn each_size_is_printed(rt: HostRuntime) -> Result<(), AllocError> {
    for (first, more, last, counts) in [
        ("[", "0,", "0]", 300),
        ("{", "\"k\":0,", "\"k\":0}", 300),
        ("{\"", "k", "\":0}", 300),
        ("\"", "a", "\"", 1_000),
        ("\"", "\\u0001", "\"", 300),
        ("1", "1", "", 300),
        ("-1.0", "0", "", 300),
    ] {
        assert!(rt;
            each_is_printed(rt.alloc(), first, more, last, counts)?,
            "{more}"
        );
    }
    Ok(())
}

#[test]
fn each_depth_is_printed(rt: HostRuntime) -> Result<(), AllocError> {
    for depth in 1..=200 {
        let opened = "[".repeat(rt.alloc(), depth)?;
        let closed = "]".repeat(rt.alloc(), depth)?;
        let document = format!(in rt.alloc(); "{opened}{closed}")?;
        assert!(rt; is_printed(rt.alloc(), document.as_str()));
    }
    Ok(())
}

// Whether the document's value has this text over lines, with `indent` spaces for a level.
fn is_laid_out(alloc: Global, document: &str, indent: usize, wanted: &str) -> bool {
    let Ok(value) = JsonValue::parse(alloc, document.as_bytes(), false) else {
        return false;
    };
    match print_pretty(alloc, &value, indent) {
        Ok(text) => text.as_slice() == wanted.as_bytes(),
        Err(_) => false,
    }
}

#[test]
fn parts_are_printed_on_lines_of_their_own(rt: HostRuntime) {
    for (document, indent, wanted) in [
        ("1", 2, "1"),
        ("[]", 2, "[]"),
        ("[1,\"a\"]", 0, "[\n1,\n\"a\"\n]"),
        (
            "{\"a\":[1,{}],\"b\":[[],null]}",
            2,
            "{\n  \"a\": [\n    1,\n    {}\n  ],\n  \"b\": [\n    [],\n    null\n  ]\n}",
        ),
    ] {
        assert!(rt;
            is_laid_out(rt.alloc(), document, indent, wanted),
            "{document}"
        );
    }
}

#[test]
fn a_string_is_appended_with_quotes_and_escapes(rt: HostRuntime) {
    let mut line = Vec::new(rt.alloc());
    for text in ["", "a\"b", "\u{1}é"] {
        assert!(rt; print_str(&mut line, text).is_ok());
    }
    assert_eq!(rt; line.as_slice(), "\"\"\"a\\\"b\"\"\\u0001é\"".as_bytes());
}
