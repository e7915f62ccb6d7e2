//! Skipped strings with damage at each place.
use jiter_scan::errors::{Fault, FaultKind as Kind};
use jiter_steps::parse::Parser;
use jiter_steps::skip::skip;
use std::alloc::{AllocError, Global};
use std::test::*;

// A string of so many letters and these bytes.
fn with_damage(alloc: Global, letters: usize, damage: &[u8]) -> Result<Vec<u8>, AllocError> {
    let mut bytes = Vec::new(alloc);
    bytes.push(b'"')?;
    bytes.extend_from_slice("a".repeat(alloc, letters)?.as_bytes())?;
    bytes.extend_from_slice(damage)?;
    bytes.push(b'"')?;
    Ok(bytes)
}

// What a skip of the bytes answers, and where it leaves the reader.
fn skipped(bytes: &[u8]) -> Option<(Result<(), Fault>, usize)> {
    if bytes.is_empty() {
        return None;
    }
    let mut parser = Parser { bytes, index: 0 };
    let answer = skip(&mut parser, false);
    Some((answer, parser.index))
}

#[test]
fn damage_is_met_at_any_place_of_a_string(rt: HostRuntime) -> Result<(), Fail> {
    let alloc = rt.alloc();
    for letters in 0..41 {
        for (damage, kind, after) in [
            (
                b"\x1f".as_slice(),
                Kind::ControlCharacterWhileParsingString,
                1,
            ),
            (b"\\q", Kind::InvalidEscape, 2),
            (b"\\udc00", Kind::LoneLeadingSurrogateInHexEscape, 6),
            (b"\\ud83dx", Kind::UnexpectedEndOfHexEscape, 7),
        ] {
            let bytes = with_damage(alloc, letters, damage)?;
            let index = letters + after;
            let wanted = Some((Err(Fault { kind, index }), 0));
            assert!(rt; skipped(bytes.as_slice()) == wanted, "{letters} letters");
        }
        let broken = with_damage(alloc, letters, b"\xff")?;
        let wanted = Some((Ok(()), letters + 3));
        assert!(rt; skipped(broken.as_slice()) == wanted, "{letters} letters");
    }
    Ok(())
}
