//! Damage at each index of a string, and the error that a parse returns.
use jiter_scan::JsonErrorType as Kind;
use std::alloc::{AllocError, Global};
use std::test::*;
use test_support::told::fault_of;

// A string of so many letters and these bytes.
fn with_damage(alloc: Global, letters: usize, damage: &[u8]) -> Result<Vec<u8>, AllocError> {
    let mut bytes = Vec::new(alloc);
    bytes.push(b'"')?;
    bytes.extend_from_slice("a".repeat(alloc, letters)?.as_bytes())?;
    bytes.extend_from_slice(damage)?;
    bytes.push(b'"')?;
    Ok(bytes)
}

// The first count of letters, up to 40, after which the damage is not refused with this kind, so many bytes
// after the letters.
fn first_miss(
    alloc: Global,
    damage: &[u8],
    kind: &Kind,
    after: usize,
) -> Result<Option<usize>, AllocError> {
    for letters in 0..=40usize {
        let bytes = with_damage(alloc, letters, damage)?;
        let index = letters.saturating_add(after);
        match fault_of(alloc, bytes.as_slice(), false) {
            Some((seen, place)) if seen == *kind && place == index => {}
            _ => return Ok(Some(letters)),
        }
    }
    Ok(None)
}

#[test]
fn damage_is_found_at_each_place_of_a_string(rt: HostRuntime) -> Result<(), Fail> {
    const ROWS: [(&[u8], Kind, usize); 5] = [
        (b"\xff", Kind::InvalidUnicodeCodePoint, 1),
        (b"\x1f", Kind::ControlCharacterWhileParsingString, 1),
        (br"\q", Kind::InvalidEscape, 2),
        (br"\udc00", Kind::LoneLeadingSurrogateInHexEscape, 6),
        (br"\ud83dx", Kind::UnexpectedEndOfHexEscape, 7),
    ];
    for (damage, kind, after) in &ROWS {
        let miss = first_miss(rt.alloc(), damage, kind, *after)?;
        assert_eq!(rt; miss, None, "{kind}");
    }
    Ok(())
}
