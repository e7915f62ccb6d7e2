//! Damage after each count of letters of a string, as a parse, a skip and a raw reading meet it, and where the reader
//! stands then: of a string alone, in a key, after another string, and after an escape.
use jiter::{Jiter, JiterErrorType, JiterResult, JsonErrorType as Kind, JsonValue};
use std::alloc::{AllocError, Global};
use std::test::*;

// Where the string stands.
#[derive(Clone, Copy, Debug)]
enum Place {
    Alone,
    Key,
    Second,
    AfterEscape,
}

// A string's index, what is there before its letters and after the damage, the string's first byte, and how many
// bytes fewer the decoded prefix has.
#[derive(Clone, Copy)]
struct Form {
    place: Place,
    prefix: &'static [u8],
    back: &'static [u8],
    first: usize,
    fewer: usize,
}

const FORMS: [Form; 4] = [
    Form {
        place: Place::Alone,
        prefix: b"\"",
        back: b"\"",
        first: 0,
        fewer: 0,
    },
    Form {
        place: Place::Key,
        prefix: b"{\"",
        back: b"\":1}",
        first: 1,
        fewer: 0,
    },
    Form {
        place: Place::Second,
        prefix: b"[\"x\",\"",
        back: b"\"]",
        first: 5,
        fewer: 0,
    },
    Form {
        place: Place::AfterEscape,
        prefix: b"\"\\n",
        back: b"\"",
        first: 0,
        fewer: 1,
    },
];

// Damage, the kind of its error, and how many bytes after the letters that is.
const DAMAGES: [(&[u8], Kind, usize); 5] = [
    (b"\xff", Kind::InvalidUnicodeCodePoint, 0),
    (b"\x1f", Kind::ControlCharacterWhileParsingString, 0),
    (br"\q", Kind::InvalidEscape, 1),
    (br"\udc00", Kind::LoneLeadingSurrogateInHexEscape, 5),
    (br"\ud83dx", Kind::UnexpectedEndOfHexEscape, 6),
];

// A string of so many letters and this damage, in its place.
fn damaged(
    alloc: Global,
    form: Form,
    letters: usize,
    damage: &[u8],
) -> Result<Vec<u8>, AllocError> {
    let mut bytes = Vec::from_slice(alloc, form.prefix)?;
    bytes.extend_from_slice("a".repeat(alloc, letters)?.as_bytes())?;
    bytes.extend_from_slice(damage)?;
    bytes.extend_from_slice(form.back)?;
    Ok(bytes)
}

// Reads the string as bytes.
fn read_raw(jiter: &mut Jiter<'_>, place: Place) -> JiterResult<()> {
    match place {
        Place::Alone | Place::AfterEscape => {
            let _ = jiter.next_bytes()?;
        }
        Place::Key => {
            let _ = jiter.next_object_bytes()?;
        }
        Place::Second => {
            let _ = jiter.next_array()?;
            let _ = jiter.next_bytes()?;
            let _ = jiter.array_step()?;
            let _ = jiter.next_bytes()?;
        }
    }
    Ok(())
}

// Whether a call left the reader where it should: after what it read, or at the string, refused with this kind at this
// index.
fn is_met(
    jiter: &Jiter<'_>,
    reply: JiterResult<()>,
    wanted: Option<(&Kind, usize)>,
    end: usize,
    first: usize,
) -> bool {
    match (reply, wanted) {
        (Ok(()), None) => jiter.current_index() == end,
        (Err(error), Some((kind, index))) => {
            let alike = match error.error_type {
                JiterErrorType::JsonError(seen) => seen == *kind,
                _ => false,
            };
            alike && error.index == index && jiter.current_index() == first
        }
        _ => false,
    }
}

// Whether a parse refuses these bytes with this kind at this index.
fn is_refused(alloc: Global, bytes: &[u8], kind: &Kind, index: usize) -> bool {
    match JsonValue::parse(alloc, bytes, false) {
        Ok(_) => false,
        Err(error) => error.error_type == *kind && error.index == index,
    }
}

// How many bytes after the string a raw reading of it leaves.
fn left_after(place: Place) -> usize {
    match place {
        Place::Alone | Place::AfterEscape => 0,
        Place::Key => 2,
        Place::Second => 1,
    }
}

// Whether a parse, a skip and a raw reading meet the damage after so many letters: broken UTF-8 a parse alone.
fn is_found(
    alloc: Global,
    form: Form,
    letters: usize,
    damage: &(&[u8], Kind, usize),
) -> Result<bool, AllocError> {
    let (source, kind, after) = damage;
    let bytes = damaged(alloc, form, letters, source)?;
    let index = form
        .prefix
        .len()
        .saturating_add(letters)
        .saturating_add(*after);
    let broken = *kind == Kind::InvalidUnicodeCodePoint;
    let wanted = if broken { None } else { Some((kind, index)) };
    let read = if broken {
        index.saturating_sub(form.fewer)
    } else {
        index
    };
    let mut skipping = Jiter::new(bytes.as_slice());
    let skipped = skipping.next_skip();
    let mut raw = Jiter::new(bytes.as_slice());
    let reply = read_raw(&mut raw, form.place);
    let end = bytes.len().saturating_sub(left_after(form.place));
    Ok(
        is_refused(alloc, bytes.as_slice(), kind, read)
            && is_met(&skipping, skipped, wanted, bytes.len(), form.first)
            && is_met(&raw, reply, wanted, end, form.first),
    )
}

// The first count of letters, up to 40, after which the damage is not found.
fn first_miss(
    alloc: Global,
    form: Form,
    damage: &(&[u8], Kind, usize),
) -> Result<Option<usize>, AllocError> {
    for letters in 0..=40usize {
        if !is_found(alloc, form, letters, damage)? {
            return Ok(Some(letters));
        }
    }
    Ok(None)
}

#[test]
fn damage_is_found_in_each_place(rt: HostRuntime) -> Result<(), Fail> {
    for form in FORMS {
        for damage in &DAMAGES {
            let miss = first_miss(rt.alloc(), form, damage)?;
            let place = form.place;
            assert_eq!(rt; miss, None, "letters, {place:?}, {}", damage.1);
        }
    }
    Ok(())
}
