//! Finds members of an object, and the sources of their values, in one walk over a line.
ghost use Rattle.std.specs.Prelude.{◌≡◌, ◌≤◌, IfErr, IfOk, None, length, replicate, slice_range};
ghost use Rattle.std.specs.Cow.{cow_str_bytes};
ghost use Rattle.jiter.specs.Caller.{Reads, anywhere, byte_of, known, next, value_place, StandsAt};
ghost use Rattle.filter.specs.Members.{part_read};
ghost use Rattle.filter.specs.Once.{Keeps, ReadsAll, is_wanted};

use crate::pointers::Member;
use jiter::{Jiter, JiterResult, Peek};
use std::alloc::Global;
use std::borrow::CowStr;

// Moves past a member's value. One that is written is read, so that its UTF-8 is checked; any other one is skipped.
fn known_part(alloc: Global, jiter: &mut Jiter<'_>, peek: Peek, is_named: bool) -> JiterResult<()>
    requires { StandsAt jiter.old (byte_of peek) }
    ensures reads { Reads anywhere (λ u. u) (known jiter.old (part_read is_named jiter.old)) result jiter.old jiter.new }
{
    if is_named {
        let _value = jiter.known_value(alloc, peek)?;
        return Ok(());
    }
    jiter.known_skip(peek)
}

// The source is the value without the whitespace around it.
fn next_source<'j>(alloc: Global, jiter: &mut Jiter<'j>, is_named: bool) -> JiterResult<&'j [u8]>
    ensures reads { Reads anywhere (λ _. tt) (next jiter.old (part_read is_named jiter.old)) result jiter.old jiter.new }
    ensures source { IfOk result (λ x. x.now
        ≡ slice_range jiter.old.text (value_place jiter.old) jiter.new.position) }
{
    let peek = jiter.peek()?;
    let start = jiter.current_index();
    known_part(alloc, jiter, peek, is_named)?;
    Ok(jiter.slice_to_current(start))
}

fn is_any(members: &[Member], key: &str) -> bool
    ensures { result ≡ is_wanted key.now members.now }
{
    members.iter().any(|member| key == member.name.as_str())
}

// Keeps the source for each member with this name.
fn put<'j>(members: &[Member], key: &str, source: &'j [u8], sources: &mut [Option<&'j [u8]>])
    requires { length sources.old ≡ length members.now }
    ensures { Keeps members.now key.now source.now sources.old sources.new }
{
    for (index, member) in members.iter().enumerate() {
        if key == member.name.as_str() {
            sources[index] = Some(source);
        }
    }
}

// Moves past the value of a member with this key, and keeps its source for each member with this name.
fn pass_value<'j>(
    alloc: Global,
    jiter: &mut Jiter<'j>,
    members: &[Member],
    key: CowStr<'j>,
    sources: &mut [Option<&'j [u8]>],
) -> JiterResult<()>
    requires { length sources.old ≡ length members.now }
    ensures reads { Reads anywhere (λ _. tt)
        (next jiter.old (part_read (is_wanted (cow_str_bytes key.entry) members.now) jiter.old))
        result jiter.old jiter.new }
    ensures kept { IfOk result (λ _. Keeps members.now (cow_str_bytes key.entry)
        (slice_range jiter.old.text (value_place jiter.old) jiter.new.position) sources.old sources.new) }
{
    let is_named = is_any(members, key.as_str());
    let source = next_source(alloc, jiter, is_named)?;
    if is_named {
        put(members, key.as_str(), source, sources);
    }
    Ok(())
}

/// Finds the source of the last member with each one's name in the object that a line is. Keys are compared decoded. All
/// members with one of the names are read, and all others skipped.
///
/// # Errors
///
/// - `WrongType` if the line's value isn't an object
/// - any other error of the pull reader; in skipped values UTF-8 isn't checked
/// - `OutOfMemory`, only for a key with a backslash or a member with one of the names
pub fn find_members<'j>(
    alloc: Global,
    line: &'j [u8],
    members: &[Member],
    sources: &mut [Option<&'j [u8]>],
) -> JiterResult<()>
    requires { sources.old ≡ replicate (length members.now) None }
    // What the reader's calls reply decides.
    ensures reads { ReadsAll members.now line.now sources.new result }
    ensures index { IfErr result (λ e. e.index ≤ length line.now) }
{
    let mut jiter = Jiter::new(line);
    let mut next = jiter.next_object_cow(alloc)?;
    while let Some((key, _)) = next {
        pass_value(alloc, &mut jiter, members, key, sources)?;
        next = jiter.next_key_cow(alloc)?;
    }
    jiter.finish()
}
