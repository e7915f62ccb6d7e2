//! A tape: plain bytes and characters of each size, one after another.
use jiter_scan::bytes::decode_buffer::put_char;
use jiter_scan::bytes::simd::copy_plain;
use std::test::*;

#[test]
fn what_counts_on_the_tape_stays(rt: HostRuntime) {
    let mut tape = Vec::new(rt.alloc());
    let mut count = 0;
    for source in [
        b"one, \n".as_slice(),
        b"sixteen plain bytes",
        b"\\",
        b", two",
    ] {
        assert!(rt; count <= tape.len());
        match copy_plain(&mut tape, count, source, 0) {
            Ok((_, end, low)) => {
                assert!(rt; low);
                count = end;
            }
            Err(_) => panic!(rt; "there is memory"),
        }
    }
    let whole = b"one, sixteen plain bytes, two".as_slice();
    assert_eq!(rt; count, whole.len());
    assert!(rt; count <= tape.len() && &tape.as_slice()[..count] == whole);
}

#[test]
fn characters_are_written_in_utf8(rt: HostRuntime) {
    let mut tape = Vec::new(rt.alloc());
    assert!(rt; tape.resize(32, 0).is_ok());
    let mut count = 0;
    for c in ['a', '\u{e9}', '\u{20ac}', '\u{1f600}'] {
        assert!(rt; count < 10 && tape.len() == 32);
        count = put_char(&mut tape, count, c);
    }
    assert!(rt; count == 10 && tape.len() == 32);
    assert!(rt; &tape.as_slice()[..10] == "a\u{e9}\u{20ac}\u{1f600}".as_bytes());
}
