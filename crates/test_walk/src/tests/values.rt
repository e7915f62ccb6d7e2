//! Values: numbers, strings, lists and trees, each as a complete document.
use crate::tests::shown::all_read;
use jiter::JsonValue;
use std::process::Abort;
use std::test::*;

const RANGE: &str = "0: out of range";

#[test]
fn integers_end_at_the_bounds_of_their_type(rt: HostRuntime) -> Result<(), Fail> {
    let u8s: [(&[u8], &str); 5] = [
        (b"0", "0"),
        (b"255", "255"),
        (b"256", RANGE),
        (b"-1", RANGE),
        (b"-0", "0"),
    ];
    assert!(rt; all_read::<u8>(&rt, &u8s)?);
    let u16s: [(&[u8], &str); 4] = [
        (b"0", "0"),
        (b"65535", "65535"),
        (b"65536", RANGE),
        (b"-1", RANGE),
    ];
    assert!(rt; all_read::<u16>(&rt, &u16s)?);
    let u32s: [(&[u8], &str); 4] = [
        (b"0", "0"),
        (b"4294967295", "4294967295"),
        (b"4294967296", RANGE),
        (b"-1", RANGE),
    ];
    assert!(rt; all_read::<u32>(&rt, &u32s)?);
    let u64s: [(&[u8], &str); 9] = [
        (b"0", "0"),
        (b"9223372036854775807", "9223372036854775807"),
        (b"9223372036854775808", "9223372036854775808"),
        (b"18446744073709551615", "18446744073709551615"),
        (b"18446744073709551616", RANGE),
        (b"100000000000000000000", RANGE),
        (b"-1", RANGE),
        (b"-9223372036854775809", RANGE),
        (b" 1.0", "1: expected int but found float"),
    ];
    assert!(rt; all_read::<u64>(&rt, &u64s)?);
    let i8s: [(&[u8], &str); 4] = [
        (b"-128", "-128"),
        (b"127", "127"),
        (b"-129", RANGE),
        (b"128", RANGE),
    ];
    assert!(rt; all_read::<i8>(&rt, &i8s)?);
    let i16s: [(&[u8], &str); 4] = [
        (b"-32768", "-32768"),
        (b"32767", "32767"),
        (b"-32769", RANGE),
        (b"32768", RANGE),
    ];
    assert!(rt; all_read::<i16>(&rt, &i16s)?);
    let i32s: [(&[u8], &str); 4] = [
        (b"-2147483648", "-2147483648"),
        (b"2147483647", "2147483647"),
        (b"-2147483649", RANGE),
        (b"2147483648", RANGE),
    ];
    assert!(rt; all_read::<i32>(&rt, &i32s)?);
    let i64s: [(&[u8], &str); 5] = [
        (b"-9223372036854775808", "-9223372036854775808"),
        (b"9223372036854775807", "9223372036854775807"),
        (b"-9223372036854775809", RANGE),
        (b"9223372036854775808", RANGE),
        (b"\n 9223372036854775808 ", "2: out of range"),
    ];
    assert!(rt; all_read::<i64>(&rt, &i64s)?);
    Ok(())
}

#[test]
fn doubles_are_the_nearest_finite_ones(rt: HostRuntime) -> Result<(), Fail> {
    let doubles: [(&[u8], &str); 20] = [
        (b"1.5", "1.5"),
        (b"-0.0", "-0.0"),
        (b"-0", "0.0"),
        (b"1e-400", "0.0"),
        (b"-1e-400", "-0.0"),
        (b"3", "3.0"),
        (b"9007199254740993", "9007199254740992.0"),
        (b"12345678901234567890", "1.2345678901234567e19"),
        (b"1.7976931348623157e308", "1.7976931348623157e308"),
        (b"1e999", RANGE),
        (b" -1e999", "1: out of range"),
        (b"1.7976931348623159e308", RANGE),
        (b"NaN", "0: expected value"),
        (b"Infinity", "0: expected value"),
        (b"-Infinity", "1: invalid number"),
        (b"\"1\"", "0: expected int but found string"),
        (b" null", "1: expected int but found null"),
        (b"1.", "2: EOF while parsing a value"),
        (b"01", "1: invalid number"),
        (b"1 2", "2: trailing characters"),
    ];
    assert!(rt; all_read::<f64>(&rt, &doubles)?);
    let lists: [(&[u8], &str); 3] = [
        (b"[1, 2.5]", "[1.0, 2.5]"),
        (b"[1,\n 1e999]", "5: out of range"),
        (b"[NaN]", "1: expected value"),
    ];
    assert!(rt; all_read::<Vec<f64>>(&rt, &lists)?);
    Ok(())
}

#[test]
fn lists_hold_their_items_in_order(rt: HostRuntime) -> Result<(), Fail> {
    let nested: [(&[u8], &str); 11] = [
        (b"[]", "[]"),
        (b"[ [ ] ]", "[[]]"),
        (b"[[1, 2], [], [3]]", "[[1, 2], [], [3]]"),
        (b"[[1], 2]", "6: expected array but found int"),
        (b"[[1], [256]]", "7: out of range"),
        (b"[[1], [2, true]]", "10: expected int but found bool"),
        (b"[[1,]]", "4: trailing comma"),
        (b"[[1] [2]]", "5: expected `,` or `]`"),
        (b"[[1]", "4: EOF while parsing a list"),
        (b"{}", "0: expected array but found object"),
        (b"[[1]] ]", "6: trailing characters"),
    ];
    assert!(rt; all_read::<Vec<Vec<u8>>>(&rt, &nested)?);
    let nullable: [(&[u8], &str); 8] = [
        (b"null", "None"),
        (b"[null, \"a\", null]", "Some([None, Some(\"a\"), None])"),
        (
            b"[\"null\", \"\\u00e9\"]",
            "Some([Some(\"null\"), Some(\"\u{e9}\")])",
        ),
        (b" [false]", "2: expected string but found bool"),
        (b"false", "0: expected array but found bool"),
        (b"nul", "3: EOF while parsing a value"),
        (b"nula", "3: expected ident"),
        (b"[nulb]", "4: expected ident"),
    ];
    assert!(rt; all_read::<Option<Vec<Option<String>>>>(&rt, &nullable)?);
    Ok(())
}

#[test]
fn strings_flags_and_trees_are_read(rt: HostRuntime) -> Result<(), Fail> {
    let strings: [(&[u8], &str); 6] = [
        (b"\"\"", "\"\""),
        (b" \"a\\u0062\" ", "\"ab\""),
        (b"\"a", "2: EOF while parsing a string"),
        (b"\"\xff\"", "1: invalid unicode code point"),
        (b"1", "0: expected string but found int"),
        (b"", "0: EOF while parsing a value"),
    ];
    assert!(rt; all_read::<String>(&rt, &strings)?);
    let flags: [(&[u8], &str); 5] = [
        (b"true", "true"),
        (b"\tfalse", "false"),
        (b"0", "0: expected bool but found int"),
        (b"tru", "3: EOF while parsing a value"),
        (b"True", "0: expected value"),
    ];
    assert!(rt; all_read::<bool>(&rt, &flags)?);
    let trees: [(&[u8], &str); 4] = [
        (
            b" [1, {\"a\": null}] ",
            "Array([Int(1), Object([(\"a\", Null)])])",
        ),
        (b"1e999", "Float(\"1e999\")"),
        (b"{\"a\": [NaN]}", "7: expected value"),
        (b"[1, {\"a\": \"\xff\"}]", "11: invalid unicode code point"),
    ];
    assert!(rt; all_read::<JsonValue<'_>>(&rt, &trees)?);
    Ok(())
}
