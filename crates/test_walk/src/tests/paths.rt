//! Paths to values. For bytes that aren't a document no contract says the path; these tests show it.
use jiter_walk::path_at;
use std::alloc::AllocError;
use std::test::*;

#[test]
fn paths_lead_to_the_innermost_value(rt: HostRuntime) -> Result<(), AllocError> {
    let server = br#"{"server": {"ports": [80, "no"]}}"#.as_slice();
    let keys = br#"{"a/b": 1, "m~n": {"\u0061\/~": [true]}}"#.as_slice();
    let spaced = b" [ 1 , 2 ] ".as_slice();
    let rows = [
        (server, 0, ""),
        (server, 1, "/server"),
        (server, 9, "/server"),
        (server, 10, "/server"),
        (server, 11, "/server"),
        (server, 12, "/server/ports"),
        (server, 21, "/server/ports"),
        (server, 23, "/server/ports/0"),
        (server, 24, "/server/ports"),
        (server, 26, "/server/ports/1"),
        (server, 30, "/server/ports"),
        (server, 31, "/server"),
        (server, 32, ""),
        (server, 33, ""),
        (server, 1000, ""),
        (keys, 8, "/a~1b"),
        (keys, 9, ""),
        (keys, 32, "/m~0n/a~1~0"),
        (keys, 33, "/m~0n/a~1~0/0"),
        (spaced, 0, ""),
        (spaced, 3, "/0"),
        (spaced, 4, ""),
        (spaced, 7, "/1"),
        (b"{\"a\":1,\"a\":[2]}".as_slice(), 12, "/a/0"),
        (b"[0,1,2,3,4,5,6,7,8,9,10,[11]]".as_slice(), 25, "/11/0"),
        (b"{\"\": [{}]}".as_slice(), 6, "//0"),
        (b"{\"\xc3\xa9\": 1}".as_slice(), 7, "/\u{e9}"),
        (b"true".as_slice(), 2, ""),
    ];
    for (bytes, index, path) in rows {
        let found = path_at(rt.alloc(), bytes, index)?;
        assert_eq!(rt; found.as_str(), path);
    }
    Ok(())
}

#[test]
fn damaged_bytes_give_the_open_containers(rt: HostRuntime) -> Result<(), AllocError> {
    let rows = [
        (b"".as_slice(), 0, ""),
        (b" ".as_slice(), 1, ""),
        (b"{\"a\": [1, {\"b\":".as_slice(), 15, "/a/1/b"),
        (b"{\"a\": [1, {\"b\": ".as_slice(), 16, "/a/1/b"),
        (b"{\"a\": [1, ".as_slice(), 10, "/a"),
        (b"{\"a\": [1, 2".as_slice(), 11, "/a"),
        (b"{\"a\": \"x".as_slice(), 8, "/a"),
        (b"{\"a\": [1, tru]}".as_slice(), 13, "/a/1"),
        (b"{\"a\": [1, tru]}".as_slice(), 7, "/a/0"),
        (b"[1 2]".as_slice(), 3, ""),
        (b"{\"a\" 1}".as_slice(), 5, ""),
        (b"{\"a\": {\"b\": 1,}}".as_slice(), 14, "/a"),
        (b"[1 2, {\"x\": 3}]".as_slice(), 11, ""),
        (b"[[1, 2], tru".as_slice(), 5, "/0/1"),
        (b"[[1, tru], 2]".as_slice(), 11, "/0/1"),
    ];
    for (bytes, index, path) in rows {
        let found = path_at(rt.alloc(), bytes, index)?;
        assert_eq!(rt; found.as_str(), path);
    }
    Ok(())
}

// (Each skip begins a limit of nesting of its own.)
#[test]
fn a_path_goes_deeper_than_a_parse(rt: HostRuntime) -> Result<(), AllocError> {
    let mut bytes = Vec::new(rt.alloc());
    let mut path = String::new(rt.alloc());
    for _ in 0..300 {
        bytes.push(b'[')?;
        path.push_str("/0")?;
    }
    bytes.push(b'7')?;
    let found = path_at(rt.alloc(), bytes.as_slice(), 300)?;
    assert_eq!(rt; found.as_str(), path.as_str());
    Ok(())
}
