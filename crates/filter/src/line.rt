//! What becomes of a line: the object of its members, or why it has none.
ghost use Rattle.std.specs.Prelude.{◌≡◌, ◌≤◌, ◌<◌, [], false, IfErr, IfOk, IfSome, length, string_bytes};
ghost use Rattle.jiter.specs.Caller.{answer, view};
ghost use Rattle.json_lines.specs.Line.{seen};
ghost use Rattle.filter.specs.Line.{LineBecomes, PartBecomes, pointed_outcome, pointed_text};
ghost use Rattle.filter.specs.Once.{AreSources, IsValueOf, ReadsOne, name_at, seen_part};
ghost use Rattle.filter.specs.declared.pointers.Member.{Member};

use crate::members::find_members;
use crate::pointers::Member;
use jiter::{JiterResult, JsonValue};
use jiter_print::print;
use json_lines::Outcome;
use std::alloc::{AllocError, Global};

/// What becomes of a member.
#[derive(Drop)]
pub enum Part<'j> {
    /// It is written as it is in the line.
    Source(&'j [u8]),
    /// This text is written.
    Text(Vec<u8>),
    /// Nothing is: the column and the cause of the line's error.
    Refused(usize, String),
}

// The compact text of the part that a pointer leads to; `null` if it leads to none.
fn part_in(alloc: Global, value: &JsonValue<'_>, pointer: &str) -> Result<Vec<u8>, AllocError>
    ensures { IfOk result (λ text. text.items ≡ pointed_text pointer.now (view value.now)) }
{
    match value.pointer(pointer) {
        Some(part) => print(alloc, part),
        None => Vec::from_slice(alloc, b"null"),
    }
}

// What becomes of a pointer, by the line's value if it is at hand.
fn pointed<'j>(
    alloc: Global,
    line: &'j [u8],
    pointer: &str,
    value: &Option<JsonValue<'_>>,
) -> Result<Part<'j>, AllocError>
    requires { IfSome value.now (λ v. IsValueOf line.now v) }
    ensures { IfOk result (λ part. seen_part part ≡ pointed_outcome pointer.now (answer false line.now)) }
{
    if let Some(value) = value {
        return Ok(Part::Text(part_in(alloc, value, pointer)?));
    }
    match &JsonValue::parse(alloc, line, false) {
        Ok(value) => Ok(Part::Text(part_in(alloc, value, pointer)?)),
        Err(error) if error.is_memory() => Err(AllocError),
        Err(error) => {
            let cause = format!(in alloc; "{}", error.error_type)?;
            Ok(Part::Refused(error.index + 1, cause))
        }
    }
}

// What is written of a member whose walk found this source, or why nothing is.
fn part_of<'j>(
    alloc: Global,
    member: &Member,
    line: &'j [u8],
    source: JiterResult<Option<&'j [u8]>>,
    value: &Option<JsonValue<'_>>,
) -> Result<Part<'j>, AllocError>
    requires reads { ReadsOne (string_bytes member.now.name) line.now source }
    requires index { IfErr source (λ e. e.index ≤ length line.now) }
    requires whole { IfSome value.now (λ v. IsValueOf line.now v) }
    ensures any { IfOk result (λ part. PartBecomes member.now line.now (seen_part part)) }
{
    match source {
        Ok(source) => match &member.deep {
            Some(pointer) => pointed(alloc, line, pointer.as_str(), value),
            None => Ok(Part::Source(source.unwrap_or(b"null"))),
        },
        Err(error) if error.is_memory() => Err(AllocError),
        Err(error) => {
            let cause = format!(in alloc; "{}", error.error_type)?;
            Ok(Part::Refused(error.index + 1, cause))
        }
    }
}

// The sources of all members, if one walk finds them.
fn sources_of<'j>(
    alloc: Global,
    line: &'j [u8],
    members: &[Member],
) -> Result<Option<Vec<Option<&'j [u8]>>>, AllocError>
    ensures { IfOk result (λ found. IfSome found (λ s. AreSources members.now line.now s.items)) }
{
    let mut sources = vec![in alloc; None; members.len()]?;
    match find_members(alloc, line, members, sources.as_mut_slice()) {
        Ok(()) => Ok(Some(sources)),
        Err(_) => Ok(None),
    }
}

// The source of the member at an index, if all were found; otherwise what a walk of its own finds.
fn source_at<'j>(
    alloc: Global,
    line: &'j [u8],
    members: &[Member],
    sources: &Option<Vec<Option<&'j [u8]>>>,
    index: usize,
) -> JiterResult<Option<&'j [u8]>>
    requires within { index < length members.now }
    requires found { IfSome sources.now (λ s. AreSources members.now line.now s.items) }
    ensures reads { (m : Member) → ReadsOne (name_at members.now index m) line.now result }
    ensures index { IfErr result (λ e. e.index ≤ length line.now) }
{
    match sources {
        Some(sources) => Ok(sources[index]),
        None => {
            let mut source = [None];
            find_members(alloc, line, &members[index..index + 1], &mut source)?;
            Ok(source[0])
        }
    }
}

// The line's value, if a pointer of several steps needs it and the line can be read.
fn value_of<'j>(alloc: Global, line: &'j [u8], members: &[Member]) -> Option<JsonValue<'j>>
    ensures { IfSome result (λ v. IsValueOf line.now v) }
{
    if members.iter().any(|member| member.deep.is_some()) {
        JsonValue::parse(alloc, line, false).ok()
    } else {
        None
    }
}

// The object of all members, with what was read of the line for all of them.
fn object_of<'j>(
    alloc: Global,
    members: &[Member],
    line: &'j [u8],
    sources: &Option<Vec<Option<&'j [u8]>>>,
    value: &Option<JsonValue<'_>>,
) -> Result<Outcome, AllocError>
    requires found { IfSome sources.now (λ s. AreSources members.now line.now s.items) }
    requires whole { IfSome value.now (λ v. IsValueOf line.now v) }
    ensures any { IfOk result (λ outcome. LineBecomes members.now line.now [] (seen outcome)) }
{
    let mut text = Vec::with_capacity(alloc, line.len())?;
    for (index, member) in members.iter().enumerate() {
        let source = source_at(alloc, line, members, sources, index);
        text.extend_from_slice(member.key.as_slice())?;
        match part_of(alloc, member, line, source, value)? {
            Part::Source(part) => text.extend_from_slice(part)?,
            Part::Text(part) => text.extend_from_slice(part.as_slice())?,
            Part::Refused(column, cause) => return Ok(Outcome::Refused(column, cause)),
        }
    }
    text.extend_from_slice(b"}\n")?;
    Ok(Outcome::Text(text))
}

/// Returns the object of a line's members, and a line feed; `null` for a member that is missing. Or why the line has none.
///
/// One walk over the line finds the sources of all members, and one parse gives the value for pointers of several steps.
/// Only if one of them fails is the line read for each member by itself, up to the first that fails: so the error doesn't
/// depend on the other members.
///
/// # Errors
///
/// - `AllocError` if an allocation fails
pub fn line_of(alloc: Global, members: &[Member], line: &[u8]) -> Result<Outcome, AllocError>
    ensures any { IfOk result (λ outcome. LineBecomes members.now line.now [] (seen outcome)) }
{
    let sources = sources_of(alloc, line, members)?;
    let value = match &sources {
        Some(_) => value_of(alloc, line, members),
        None => None,
    };
    object_of(alloc, members, line, &sources, &value)
}
