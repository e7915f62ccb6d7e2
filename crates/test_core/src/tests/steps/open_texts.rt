//! A text between whose parts an escape stands.
use jiter_steps::partial_text::PartialText;
use std::test::*;

#[test]
fn an_escape_ends_an_unfinished_character(rt: HostRuntime) {
    let mut text = PartialText::new(rt.alloc());
    assert_eq!(rt; text.add_char('\u{e9}'), Ok(()));
    assert_eq!(rt; text.add(b"b\xe2"), Ok(2));
    assert_eq!(rt; text.add_char('\u{ac}'), Ok(()));
    assert_eq!(rt; text.add(b"\xac"), Ok(1));
    assert_eq!(rt; text.text(), "\u{e9}b");
    assert_eq!(rt; text.is_text(true), false);
}
