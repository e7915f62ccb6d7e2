//! A caller that prints a value of its own, and whose contract says that the text is a document again.
ghost use Rattle.std.specs.Prelude.{◌≡◌, ℕ, false, IfSome};
ghost use Rattle.jiter.specs.Caller.{answer_in, done, Tree};
ghost use Rattle.jiter_print.specs.Print.{with_line_feed};
ghost use Rattle.jiter_print.specs.Printed.{IsLineOf};

use jiter::{JsonValue, PartialMode};
use jiter_print::print;
use std::alloc::Global;
use std::test::*;

// The value owns its strings and number texts: the bytes may be gone when it is printed.
fn owned_line(alloc: Global, bytes: &[u8]) -> Option<Vec<u8>>
    ensures { IfSome result (λ line. (read : Tree) × (end : ℕ)
        × (answer_in false PartialMode.Off bytes.now ≡ done read end)
        × IsLineOf false read (with_line_feed line.items)) }
{
    match JsonValue::parse_owned(alloc, bytes, false, PartialMode::Off) {
        Ok(value) => match print(alloc, &value) {
            Ok(line) => Some(line),
            Err(_) => None,
        },
        Err(_) => None,
    }
}

#[test]
fn an_owned_value_is_printed(rt: HostRuntime) -> Result<(), Fail> {
    let line = owned_line(rt.alloc(), b"[1.50, \"\\u0061\"]").ok_or("a document")?;
    assert_eq!(rt; line.as_slice(), b"[1.50,\"a\"]".as_slice());
    assert!(rt; owned_line(rt.alloc(), b"[1.50").is_none());
    Ok(())
}
