//! Good and bad messages. No contract promises success while there is memory, or says which error bytes get that
//! aren't a document. These tests show both.
use crate::message::{Message, User, read_message};
use json_lines::refusal_of;
use std::io;
use std::io::Write;
use std::test::*;

fn write_user<W: Write>(user: &User, line: &mut W) -> io::Result<()> {
    write!(line, "{}(", user.name)?;
    for tag in &user.tags {
        write!(line, "{tag} ")?;
    }
    write!(line, ")")
}

fn write_message<W: Write>(message: &Message<'_>, line: &mut W) -> io::Result<()> {
    write!(line, "{} ", message.id)?;
    write_user(&message.user, line)?;
    for copy in &message.copies {
        write_user(copy, line)?;
    }
    match message.price {
        Some(price) => line.write_all(price),
        None => Ok(()),
    }
}

// Whether this is what the text comes to: a message, or an error's report.
fn gives(rt: &HostRuntime, text: &[u8], words: &str) -> io::Result<bool> {
    let mut line = Vec::new(rt.alloc());
    match read_message(rt.alloc(), text) {
        Ok(message) => write_message(&message, &mut line)?,
        Err(error) => {
            let report = refusal_of(rt.alloc(), "m", text, &error)?;
            line.write_all(report.as_bytes())?;
        }
    }
    Ok(line.as_slice() == words.as_bytes())
}

fn all_give(rt: &HostRuntime, rows: &[(&[u8], &str)]) -> io::Result<bool> {
    for (text, words) in rows {
        if !gives(rt, text, words)? {
            writeln!(rt.stderr(), "not so: {words}")?;
            return Ok(false);
        }
    }
    Ok(true)
}

#[test]
fn last_members_count(rt: HostRuntime) -> io::Result<()> {
    let rows: [(&[u8], &str); 3] = [
        (b"{\"id\":0,\"user\":{\"name\":\"\"}}", "0 ()"),
        (
            b" {\"price\": 1.50, \"copies\": [{\"name\": \"b\"}, {\"tags\": [\"x\"], \"name\": \"c\"}],\n\
                \"user\": {\"name\": \"a\", \"tags\": [\"y\", \"\\u00e9\"]}, \"id\": 4294967295}\n",
            "4294967295 a(y \u{e9} )b()c(x )1.50",
        ),
        (
            b"{\"id\": 1, \"user\": {\"name\": \"a\"}, \"copies\": [{\"name\": \"b\"}], \"price\": 1, \"name\": [{}],\
                \"price\": -2e3, \"copies\": [], \"user\": {\"n\\u0061me\": \"c\", \"tags\": [\"x\"], \"tags\": []}, \"id\": 2}",
            "2 c()-2e3",
        ),
    ];
    assert!(rt; all_give(&rt, &rows)?);
    Ok(())
}

#[test]
fn an_error_is_at_its_value(rt: HostRuntime) -> io::Result<()> {
    let rows: [(&[u8], &str); 11] = [
        (b"[]", "m:1:1: expected object but found array\n"),
        (b"{\"id\": -7}", "m:1:8: no id below 4294967296\n"),
        (
            b"{\"id\":\n4294967296, \"id\": 1}",
            "m:2:1: no id below 4294967296\n",
        ),
        (b"{\"id\": 1.0}", "m:1:8: expected int but found float\n"),
        (
            b"{\"user\": 1, \"user\": {\"name\": \"x\"}, \"id\": 1}",
            "m:1:10: expected object but found int\n",
        ),
        (
            b"{\"id\": 7,\n \"user\": {\"name\": 1}}",
            "m:2:19: expected string but found int\n",
        ),
        (
            b"{\"user\": {\"tags\":\n{}}}",
            "m:2:1: expected array but found object\n",
        ),
        (
            b"{\"user\": {\"tags\": [\"a\",\n 2]}}",
            "m:2:2: expected string but found int\n",
        ),
        (
            b"{\"copies\":\n null}",
            "m:2:2: expected array but found null\n",
        ),
        (
            b"{\"copies\": [{\"name\": \"x\"},\n []]}",
            "m:2:2: expected object but found array\n",
        ),
        (
            b"{\"price\":\n\"1\"}",
            "m:2:1: expected float but found string\n",
        ),
    ];
    assert!(rt; all_give(&rt, &rows)?);
    Ok(())
}

#[test]
fn an_error_is_at_its_key_or_brace(rt: HostRuntime) -> io::Result<()> {
    let rows: [(&[u8], &str); 9] = [
        (b"{}", "m:1:2: id is missing\n"),
        (b"{\"id\": 1\n}", "m:2:1: user is missing\n"),
        (b"{\"user\": {\"name\": \"x\"}}", "m:1:23: id is missing\n"),
        (
            b"{\"id\": 7, \"user\": {\"tags\": []}}",
            "m:1:30: name is missing\n",
        ),
        (
            b"{\"copies\": [{\"name\": \"y\"},\n {}]}",
            "m:2:3: name is missing\n",
        ),
        (
            b"{\"user\": {\"name\": \"x\",\n \"name\": 1}}",
            "m:2:2: duplicate key\n",
        ),
        (
            b"{\"user\": {\"name\": \"x\",\n  \"n\\u0061me\": \"y\"}}",
            "m:2:3: duplicate key\n",
        ),
        (b"{\"user\": {\"id\": 1}}", "m:1:11: unknown key\n"),
        (
            b"{\"copies\": [{\"name\": \"z\", \"tags\": [],\n\n\"\": 0}]}",
            "m:3:1: unknown key\n",
        ),
    ];
    assert!(rt; all_give(&rt, &rows)?);
    Ok(())
}

#[test]
fn errors_in_the_bytes_are_reported(rt: HostRuntime) -> io::Result<()> {
    let rows: [(&[u8], &str); 7] = [
        (b"", "m:1:0: EOF while parsing a value\n"),
        (b"{\"id\": 1,}", "m:1:10: trailing comma\n"),
        (
            b"{\"id\": 1, \"user\": {\"name\": \"x\"}} 1",
            "m:1:34: trailing characters\n",
        ),
        (
            b"{\"id\": 1, \"user\": {\"name\": \"x\"}",
            "m:1:31: EOF while parsing an object\n",
        ),
        (
            b"{\"user\": {\"name\": \"x\", \"tags\": [\"a\"",
            "m:1:35: EOF while parsing a list\n",
        ),
        (b"{\"price\": 1.", "m:1:12: EOF while parsing a value\n"),
        (b"{\"price\": 1, \"z\": [}", "m:1:20: expected value\n"),
    ];
    assert!(rt; all_give(&rt, &rows)?);
    Ok(())
}

#[test]
fn no_part_of_a_message_is_one(rt: HostRuntime) {
    let text =
        b"{\"id\": 7, \"user\": {\"name\": \"a\", \"tags\": [\"b\"]}, \"copies\": [{\"name\": \"c\"}], \"price\": 1.5}".as_slice();
    for end in 0..text.len() {
        assert!(rt; read_message(rt.alloc(), &text[..end]).is_err());
    }
    assert!(rt; read_message(rt.alloc(), text).is_ok());
}
