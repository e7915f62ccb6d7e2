//! The program's arguments.
use super::{Row, does, list_of};
use crate::asking::words;
use crate::running::End;
use crate::words::Words;
use jiter::PartialMode;
use std::alloc::{AllocError, Global};
use std::test::*;

// Whether the arguments ask for these settings.
fn ask_for(alloc: Global, given: &[&str], mode: PartialMode, inf_nan: bool, unique: bool) -> bool {
    let asked = Words {
        mode,
        inf_nan,
        unique,
    };
    match list_of(alloc, given) {
        Ok(list) => words(list.as_slice()) == Some(asked),
        Err(_) => false,
    }
}

#[test]
fn words_name_a_mode(rt: HostRuntime) {
    let alloc = rt.alloc();
    for (word, mode) in [
        ("off", PartialMode::Off),
        ("on", PartialMode::On),
        ("trailing-strings", PartialMode::TrailingStrings),
    ] {
        assert!(rt; ask_for(alloc, &[word], mode, false, false));
        assert!(rt; ask_for(alloc, &[word, "inf-nan"], mode, true, false));
        assert!(rt; ask_for(alloc, &[word, "unique"], mode, false, true));
        assert!(rt; ask_for(alloc, &[word, "inf-nan", "unique"], mode, true, true));
    }
}

// Whether the arguments are wrong, and the program writes the usage line.
fn are_wrong(alloc: Global, given: &[&str]) -> bool {
    let row = Row {
        given,
        text: b"[1]",
        status: 2,
        line: b"usage: look off|on|trailing-strings [inf-nan] [unique]\n",
    };
    match list_of(alloc, given) {
        Ok(list) => words(list.as_slice()).is_none() && does(alloc, row, 1),
        Err(_) => false,
    }
}

#[test]
fn other_words_get_the_usage_line(rt: HostRuntime) {
    let alloc = rt.alloc();
    for word in [
        "maybe",
        "",
        "Off",
        "off ",
        "inf-nan",
        "On",
        "trailing-string",
        "trailing-strings ",
        "x",
    ] {
        assert!(rt; are_wrong(alloc, &[word]), "{word}");
        assert!(rt; are_wrong(alloc, &[word, "inf-nan"]), "{word}");
        assert!(rt; are_wrong(alloc, &[word, "unique"]), "{word}");
        assert!(rt; are_wrong(alloc, &["off", "inf-nan", word]), "{word}");
        assert!(rt; are_wrong(alloc, &["off", "unique", word]), "{word}");
        assert!(rt;
            are_wrong(alloc, &["off", "inf-nan", "unique", word]),
            "{word}"
        );
    }
    for (first, second) in [
        ("off", "x"),
        ("off", "Unique"),
        ("unique", "off"),
        ("off", "off"),
        ("on", "off"),
        ("trailing-strings", "on"),
    ] {
        assert!(rt; are_wrong(alloc, &[first, second]), "{first} {second}");
    }
    assert!(rt; are_wrong(alloc, &[]));
    assert!(rt; are_wrong(alloc, &["unique"]));
    assert!(rt; are_wrong(alloc, &["off", "x", "unique"]));
    assert!(rt; are_wrong(alloc, &["inf-nan", "unique", "off"]));
}

#[test]
fn each_end_has_a_status_and_a_name(rt: HostRuntime) -> Result<(), AllocError> {
    for (end, status, name) in [
        (End::Shown, 0, "Shown"),
        (End::Refused, 1, "Refused"),
        (End::Failed, 3, "Failed"),
    ] {
        assert_eq!(rt; end.status(), status);
        assert_eq!(rt; format!(in rt.alloc(); "{end:?}")?.as_str(), name);
    }
    let asked = Words {
        mode: PartialMode::TrailingStrings,
        inf_nan: true,
        unique: false,
    };
    assert_eq!(rt;
        format!(in rt.alloc(); "{asked:?}")?.as_str(),
        "Words { mode: TrailingStrings, inf_nan: true, unique: false }"
    );
    Ok(())
}

// What each word changes.
const ROWS: [Row<'static>; 6] = [
    Row {
        given: &["off"],
        text: b"[1, \"a",
        status: 1,
        line: b"EOF while parsing a string at line 1 column 6\n",
    },
    Row {
        given: &["on"],
        text: b"[1, \"a",
        status: 0,
        line: b"[1]\n",
    },
    Row {
        given: &["trailing-strings"],
        text: b"[1, \"a",
        status: 0,
        line: b"[1,\"a\"]\n",
    },
    Row {
        given: &["off", "inf-nan"],
        text: b"{\"a\":NaN,\"a\":1}",
        status: 0,
        line: b"{\"a\":NaN,\"a\":1}\n",
    },
    Row {
        given: &["off", "unique"],
        text: b"{\"a\":1,\n\"a\" : 2}",
        status: 1,
        line: b"Detected duplicate key \"a\" at line 2 column 6\n",
    },
    Row {
        given: &["trailing-strings", "inf-nan", "unique"],
        text: b"{\"a\":NaN,\"b\":\"c",
        status: 0,
        line: b"{\"a\":NaN,\"b\":\"c\"}\n",
    },
];

#[test]
fn each_word_reaches_the_reading(rt: HostRuntime) {
    for row in ROWS {
        assert!(rt; does(rt.alloc(), row, 1));
    }
}
