//! Good and bad configurations. No contract promises success while there is memory, or says which error bytes get
//! that aren't a document. These tests show both.
use crate::config::read_config;
use std::io;
use std::io::Write;
use std::test::*;

// Whether the text gives these settings.
fn gives(rt: &HostRuntime, text: &[u8], host: &str, port: u16, debug: bool) -> bool {
    match read_config(rt.alloc(), text) {
        Ok(config) => config.host.as_str() == host
            && config.port.number == port
            && config.debug == debug,
        Err(_) => false,
    }
}

// Whether the text fails with this message.
fn refuses(rt: &HostRuntime, text: &[u8], words: &str) -> io::Result<bool> {
    match read_config(rt.alloc(), text) {
        Ok(_) => Ok(false),
        Err(error) => {
            let mut line = Vec::new(rt.alloc());
            write!(line, "{error} at {}", error.position(text))?;
            Ok(line.as_slice() == words.as_bytes())
        }
    }
}

#[test]
fn last_members_count(rt: HostRuntime) {
    assert!(rt; gives(&rt, b"{\"host\": \"a\", \"port\": 1}", "a", 1, false));
    assert!(rt;
        gives(
            &rt,
            b" {\"debug\":true,\"x\":[{\"port\": 0}],\"port\":65535,\"h\\u006fst\":\"\\n\",\"\":null} ",
            "\n",
            65535,
            true
        )
    );
    assert!(rt;
        gives(
            &rt,
            b"{\"port\": 1, \"host\": \"a\", \"debug\": true, \"debug\": false, \"host\": \"b\", \"port\": 2}",
            "b",
            2,
            false
        )
    );
}

#[test]
fn an_error_is_at_its_value(rt: HostRuntime) -> io::Result<()> {
    let rows = [
        (
            b"{\"host\":\n  7}".as_slice(),
            "expected string but found int at line 2 column 3",
        ),
        (
            b"{\"host\": null}",
            "expected string but found null at line 1 column 10",
        ),
        (
            b"{\"port\": \"80\"}",
            "expected int but found string at line 1 column 10",
        ),
        (
            b"{\"port\": 80.0}",
            "expected int but found float at line 1 column 10",
        ),
        (
            b"{\"port\": {}}",
            "expected int but found object at line 1 column 10",
        ),
        (
            b"{\"debug\":\n\n1}",
            "expected bool but found int at line 3 column 1",
        ),
        (
            b"{\"debug\": []}",
            "expected bool but found array at line 1 column 11",
        ),
        (
            b"{\"port\": 0}",
            "no port from 1 to 65535 at line 1 column 10",
        ),
        (
            b"{\"port\": -1}",
            "no port from 1 to 65535 at line 1 column 10",
        ),
        (
            b"{\"port\":\n 65536}",
            "no port from 1 to 65535 at line 2 column 2",
        ),
        (
            b"{\"port\": 18446744073709551617}",
            "no port from 1 to 65535 at line 1 column 10",
        ),
        (
            b"{\"port\": 0, \"port\": 80}",
            "no port from 1 to 65535 at line 1 column 10",
        ),
        (b"{\"port\": 80}", "host is missing at line 1 column 12"),
        (
            b"{\"host\": \"a\"\n}\n",
            "port is missing at line 2 column 1",
        ),
        (b"[]", "expected object but found array at line 1 column 1"),
    ];
    for (text, words) in rows {
        assert!(rt; refuses(&rt, text, words)?, "{words}");
    }
    Ok(())
}

#[test]
fn errors_in_the_bytes_are_reported(rt: HostRuntime) -> io::Result<()> {
    let rows = [
        (
            b"".as_slice(),
            "EOF while parsing a value at line 1 column 0",
        ),
        (
            b"{\"host\": \"a\", \"port\": 80} 1",
            "trailing characters at line 1 column 27",
        ),
        (b"{\"host\": \"a\",}", "trailing comma at line 1 column 14"),
        (
            b"{\"x\": [1,], \"port\": 80}",
            "trailing comma at line 1 column 10",
        ),
        (b"{\"port\": 080}", "invalid number at line 1 column 11"),
        (b"{\"host\" \"a\"}", "expected `:` at line 1 column 9"),
        (
            b"{\"host\":\"a\",\"port\":80",
            "EOF while parsing an object at line 1 column 21",
        ),
        (
            b"{\"host\":\"a\",\"port\":8",
            "EOF while parsing an object at line 1 column 20",
        ),
        (
            b"{\"host\":\"a\",\"port\":80,",
            "EOF while parsing a value at line 1 column 22",
        ),
        (
            b"{\"host\":\"a\",\"port\"",
            "EOF while parsing an object at line 1 column 18",
        ),
        (
            b"{\"host\":\"a\",\"port\":80,\"x\":[1}",
            "expected `,` or `]` at line 1 column 29",
        ),
    ];
    for (text, words) in rows {
        assert!(rt; refuses(&rt, text, words)?, "{words}");
    }
    Ok(())
}
