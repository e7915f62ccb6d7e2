//! Calls that read the value that comes next, and where the reader is then.
use crate::state::State;
use crate::tests::shown::told;
use crate::unfit::Unfit;
use jiter::Jiter;
use jiter_walk::{
    WalkError, next_flag, next_integer, next_integer_as, next_integer_in, next_named, next_null,
    next_number, next_number_source, next_source, skip,
};
use std::alloc::{AllocError, Global};
use std::io::Write;
use std::process::Abort;
use std::test::*;

// These bytes as a string.
fn source_told(
    alloc: Global,
    source: Result<&[u8], WalkError<Unfit>>,
) -> Result<String, AllocError> {
    match source {
        Ok(bytes) => String::from_str(alloc, str::from_utf8(bytes).unwrap_or("not UTF-8")),
        Err(error) => told::<()>(alloc, &Err(error)),
    }
}

// What the call with this name returns.
fn called(alloc: Global, call: &str, jiter: &mut Jiter<'_>) -> Result<String, AllocError> {
    match call {
        "flag" => told(alloc, &next_flag(jiter)),
        "integer" => told(alloc, &next_integer(jiter)),
        "number" => told(alloc, &next_number(jiter)),
        "from 3 to 7" => told(alloc, &next_integer_in(jiter, 3, 7, Unfit::Range)),
        "from 0" => told(alloc, &next_integer_in(jiter, 0, u64::MAX, Unfit::Range)),
        "from 7 to 3" => told(alloc, &next_integer_in(jiter, 7, 3, Unfit::Range)),
        "u8" => told(alloc, &next_integer_as::<u8, Unfit>(jiter, Unfit::NoId)),
        "named" => told(
            alloc,
            &next_named::<State, Unfit>(alloc, jiter, Unfit::NoState),
        ),
        "number source" => source_told(alloc, next_number_source(jiter)),
        "source" => source_told(alloc, next_source(jiter)),
        "null" => told(alloc, &next_null(jiter)),
        _ => told(alloc, &skip(jiter)),
    }
}

fn all_told(rt: &HostRuntime, call: &str, rows: &[(&[u8], &str)]) -> Result<bool, AllocError> {
    for (text, words) in rows {
        let mut jiter = Jiter::new(text);
        let given = called(rt.alloc(), call, &mut jiter)?;
        let line = format!(in rt.alloc(); "{given}, at {}", jiter.current_index())?;
        if line.as_str() != *words {
            let _ = writeln!(rt.stderr(), "not {words}, but {line}");
            return Ok(false);
        }
    }
    Ok(true)
}

#[test]
fn integers_within_bounds_are_returned(rt: HostRuntime) -> Result<(), Fail> {
    let few: [(&[u8], &str); 8] = [
        (b"3", "3, at 1"),
        (b" 7,", "7, at 2"),
        (b"2", "0: out of range, at 1"),
        (b" 8", "1: out of range, at 2"),
        (b"-3", "0: out of range, at 2"),
        (b"5.0", "0: expected int but found float, at 0"),
        (b"[3]", "0: expected int but found array, at 0"),
        (b"5x", "5, at 1"),
    ];
    assert!(rt; all_told(&rt, "from 3 to 7", &few)?);
    let all: [(&[u8], &str); 5] = [
        (b"0", "0, at 1"),
        (b"9223372036854775807", "9223372036854775807, at 19"),
        (b"9223372036854775808", "0: out of range, at 19"),
        (b"-1", "0: out of range, at 2"),
        (b"-0", "0, at 2"),
    ];
    assert!(rt; all_told(&rt, "from 0", &all)?);
    assert!(rt; all_told(&rt, "from 7 to 3", &[(b"5", "0: out of range, at 1")])?);
    assert!(rt;
        all_told(
            &rt,
            "u8",
            &[
                (b" 255]", "255, at 4"),
                (b" 256]", "1: id is missing, at 4")
            ]
        )?
    );
    Ok(())
}

#[test]
fn names_and_words_are_returned(rt: HostRuntime) -> Result<(), Fail> {
    let named: [(&[u8], &str); 7] = [
        (b"\"open\"", "Open, at 6"),
        (b" \"cl\\u006fsed\" ", "Closed, at 14"),
        (b" \"Open\"", "1: no such state, at 7"),
        (b"\"\"", "0: no such state, at 2"),
        (b"null", "0: expected string but found null, at 0"),
        (b"\"open", "5: EOF while parsing a string, at 0"),
        (b" ", "1: EOF while parsing a value, at 1"),
    ];
    assert!(rt; all_told(&rt, "named", &named)?);
    let flags: [(&[u8], &str); 2] = [
        (b" true", "true, at 5"),
        (b"1", "0: expected bool but found int, at 0"),
    ];
    assert!(rt; all_told(&rt, "flag", &flags)?);
    let nulls: [(&[u8], &str); 3] = [
        (b" null", "(), at 5"),
        (b"0", "0: expected null but found int, at 0"),
        (b"nul", "3: EOF while parsing a value, at 0"),
    ];
    assert!(rt; all_told(&rt, "null", &nulls)?);
    Ok(())
}

#[test]
fn sources_are_without_the_whitespace_around_them(rt: HostRuntime) -> Result<(), Fail> {
    let sources: [(&[u8], &str); 8] = [
        (b" \n[1 , {\"a\":2 }] ,", "[1 , {\"a\":2 }], at 16"),
        (b"\t1.50e1 ", "1.50e1, at 7"),
        (b"\"a\\n\"", "\"a\\n\", at 5"),
        (b" null]", "null, at 5"),
        (b"\"\xff\"", "not UTF-8, at 3"),
        (b" [1,]", "4: trailing comma, at 4"),
        (b" ", "1: EOF while parsing a value, at 1"),
        (b"x", "0: expected value, at 0"),
    ];
    assert!(rt; all_told(&rt, "source", &sources)?);
    let numbers: [(&[u8], &str); 5] = [
        (b" -1.50e+1 ", "-1.50e+1, at 9"),
        (b"12345678901234567890123", "12345678901234567890123, at 23"),
        (b"0", "0, at 1"),
        (b" \"1\"", "1: expected float but found string, at 1"),
        (b"-", "1: EOF while parsing a value, at 0"),
    ];
    assert!(rt; all_told(&rt, "number source", &numbers)?);
    let skipped: [(&[u8], &str); 4] = [
        (b" [1, {\"a\": \"\xff\"}] 1", "(), at 16"),
        (b"1e999", "(), at 5"),
        (b"[NaN]", "1: expected value, at 1"),
        (b"", "0: EOF while parsing a value, at 0"),
    ];
    assert!(rt; all_told(&rt, "skip", &skipped)?);
    let numbers: [(&[u8], &str); 3] = [
        (b"1.50", "Float(\"1.50\"), at 4"),
        (
            b"9223372036854775808",
            "Int(BigInt(\"9223372036854775808\")), at 19",
        ),
        (b"-7", "Int(Int(-7)), at 2"),
    ];
    assert!(rt; all_told(&rt, "number", &numbers)?);
    let integers: [(&[u8], &str); 2] = [
        (
            b"9223372036854775808",
            "BigInt(\"9223372036854775808\"), at 19",
        ),
        (b"1.5", "0: expected int but found float, at 0"),
    ];
    assert!(rt; all_told(&rt, "integer", &integers)?);
    Ok(())
}
