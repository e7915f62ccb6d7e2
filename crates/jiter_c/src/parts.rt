//! Walks through the next array or object: how many parts it has, the item at an index, and the last member with a key.
ghost use Rattle.std.specs.Prelude.{◌≡◌, ℕ, IfErr, IfOk, MatchResult, None, false, option_map, true};
ghost use Rattle.std.specs.Str.{bytes_eq};
ghost use Rattle.jiter.specs.Errors.{cause_of};
ghost use Rattle.jiter.specs.Jiter.{MovesOn, key_bytes, reply_seen};
ghost use Rattle.jiter.specs.Jiter.{UnlessMemory as UnlessRefused, WhereMemory as WhereRefused};
ghost use Rattle.jiter.specs.Parts.{LedTo, RefusedAfter, StandsNext, count_parts, last_named, numbered};
ghost use Rattle.jiter.specs.Reader.{next, object_read, skip_read, value_place};
ghost use Rattle.jiter.specs.Reads.{Reads, never, only_at};
ghost use Rattle.jiter_steps.specs.Node.{IsContainer, Node, NodeMembers, Nodes, begin};
ghost use Rattle.jiter_steps.specs.StringDecoder.{WantsMemory};
ghost use Rattle.jiter_steps.specs.StringReading.{whole};
ghost use Rattle.jiter_c.specs.Parts.{CountsParts, FindsItem, FindsMember, MembersPassed};
ghost use Rattle.jiter_c.specs.Parts.{IfRefused, RefusedSo, ReportsWalk, first_part, into_read, next_part};
ghost use Rattle.jiter_c.specs.Replies.{array_reply, next_reply, object_reply, state_of};
ghost use Rattle.jiter_c.specs.Reports.{Reports, RunsOutAt, UnlessMemory, WhereMemory, fault_or};

use crate::faults::{JiterFault, fault_of};
use crate::reader::{JiterReader, answer, jiter_at, report};
use jiter::{Jiter, JiterResult, Peek};
use std::alloc::Global;

fn first_part(jiter: &mut Jiter<'_>, object: bool) -> JiterResult<bool>
    ensures reads { Reads never (λ more. more) (first_part object jiter.old) result jiter.old jiter.new }
{
    if object {
        Ok(jiter.next_object_bytes()?.is_some())
    } else {
        Ok(jiter.next_array()?.is_some())
    }
}

fn next_part(jiter: &mut Jiter<'_>, object: bool) -> JiterResult<bool>
    ensures reads { Reads never (λ more. more) (next_part object jiter.old) result jiter.old jiter.new }
{
    if object {
        Ok(jiter.next_key_bytes()?.is_some())
    } else {
        Ok(jiter.array_step()?.is_some())
    }
}

// The walk has a reader of its own, so that the caller's stays where it is.
fn count_parts(reader: &JiterReader<'_>) -> JiterResult<u64>
    ensures counts { (n : Node) → StandsNext (state_of reader.now) n → IsContainer n
        → MatchResult result (λ count. count ≡ count_parts n) (λ _. ⊥) }
    ensures refusal { IfErr result (λ e. (stop : ℕ)
        × RefusedAfter (state_of reader.now) (cause_of e.error_type) e.index stop) }
    ensures into { (stop : ℕ) × RefusedSo (next_reply reader.now into_read) result stop }
    ensures walked { IfOk result (CountsParts (state_of reader.now)) }
{
    let mut jiter = jiter_at(reader);
    let object = jiter.peek()? == Peek::Object;
    let mut count = 0;
    let mut more = first_part(&mut jiter, object)?;
    while more {
        count += 1;
        jiter.next_skip()?;
        more = next_part(&mut jiter, object)?;
    }
    Ok(count)
}

/// Writes the number of items or members of the next array or object to `count`.
///
/// Does not move the reader, allocate, or check UTF-8.
///
/// # Errors
///
/// Returns `false` and writes to `fault`:
///
/// - the error that [`jiter::Jiter::next_object_bytes`] returns at an object, and [`jiter::Jiter::next_array`] at any
///   other value
/// - the first error of a step or a skip in the array or object
#[unsafe(no_mangle)]
pub extern "C" fn jiter_count(
    reader: &JiterReader<'_>,
    count: &mut u64,
    fault: &mut JiterFault,
) -> bool
    ensures counts { (n : Node) → StandsNext (state_of reader.now) n → IsContainer n
        → (result ≡ true) × (count.new ≡ count_parts n) }
    ensures reports { (stop : ℕ) × ReportsWalk (state_of reader.now) result stop fault.old fault.new }
    ensures into { IfRefused (next_reply reader.now into_read) ((result ≡ false)
        × (fault.new ≡ fault_or fault.old (next_reply reader.now into_read))) }
    ensures walked { result ≡ true → CountsParts (state_of reader.now) count.new }
    ensures kept { result ≡ false → count.new ≡ count.old }
{
    let Some(parts) = report(count_parts(reader), fault) else {
        return false;
    };
    *count = parts;
    true
}

fn find_item(jiter: &mut Jiter<'_>, number: u64) -> JiterResult<bool>
    ensures moves { MovesOn jiter.old jiter.new }
    ensures led { (b e : ℕ) → (ns : Nodes) → StandsNext jiter.old (Node.array b e ns)
        → MatchResult result (λ found. LedTo (numbered number ns) e found jiter.new.position) (λ _. ⊥) }
    ensures refusal { IfErr result
        (λ e. RefusedAfter jiter.old (cause_of e.error_type) e.index jiter.new.position) }
    ensures into { RefusedSo (first_part false jiter.old) result jiter.new.position }
    ensures walked { IfOk result (λ found. FindsItem jiter.old number found jiter.new.position) }
{
    let mut before = number;
    let mut item = jiter.next_array()?;
    while item.is_some() && before > 0 {
        before -= 1;
        jiter.next_skip()?;
        item = jiter.array_step()?;
    }
    if item.is_none() {
        return Ok(false);
    }
    jiter.peek()?;
    Ok(true)
}

/// Moves to the item with the index `number`, from 0, of the next array.
///
/// `found` is whether there is one. Otherwise the reader is after the array. Does not allocate or check UTF-8.
///
/// # Errors
///
/// Returns `false` and writes to `fault`:
///
/// - the error that [`jiter::Jiter::next_array`] returns
/// - the first error of a step or a skip in the array
///
/// The reader is then where the call that failed leaves it.
#[unsafe(no_mangle)]
pub extern "C" fn jiter_item(
    reader: &mut JiterReader<'_>,
    number: u64,
    found: &mut bool,
    fault: &mut JiterFault,
) -> bool
    ensures led { (b e : ℕ) → (ns : Nodes) → StandsNext (state_of reader.old) (Node.array b e ns)
        → (result ≡ true) × LedTo (numbered number ns) e found.new reader.new.index }
    ensures reports { ReportsWalk (state_of reader.old) result reader.new.index fault.old fault.new }
    ensures into { IfRefused (array_reply reader.old)
        (Reports (array_reply reader.old) result reader.old reader.new fault.old fault.new) }
    ensures walked { result ≡ true → FindsItem (state_of reader.old) number found.new reader.new.index }
    ensures kept { result ≡ false → found.new ≡ found.old }
    ensures reader { reader.new ≡ record reader.old { index = reader.new.index } }
{
    let mut jiter = jiter_at(reader);
    let read = find_item(&mut jiter, number);
    let Some(item) = answer(reader, &jiter, read, fault) else {
        return false;
    };
    *found = item;
    true
}

// Only the comparison is kept, so that the key is not borrowed any longer.
fn is_named(key: Option<&str>, name: &[u8]) -> Option<bool>
    ensures { result ≡ option_map (λ key. bytes_eq key.now name.now) key.entry }
{
    Some(key?.as_bytes() == name)
}

fn pass(jiter: &mut Jiter<'_>) -> JiterResult<usize>
    ensures reads { Reads never (λ _. tt) (next jiter.old (skip_read jiter.old)) result jiter.old jiter.new }
    ensures place { IfOk result (λ start. start ≡ value_place jiter.old) }
{
    let peek = jiter.peek()?;
    let start = jiter.current_index();
    jiter.known_skip(peek)?;
    Ok(start)
}

fn last_member(alloc: Global, jiter: &mut Jiter<'_>, name: &[u8]) -> JiterResult<Option<usize>>
    ensures moves { MovesOn jiter.old jiter.new }
    ensures led { (b e : ℕ) → (ms : NodeMembers) → StandsNext jiter.old (Node.object b e ms)
        → UnlessRefused result (MatchResult result (λ place.
        (place ≡ option_map begin (last_named jiter.old.text name.now None ms))
        × (jiter.new.position ≡ e)) (λ _. ⊥)) }
    ensures refusal { UnlessRefused result (IfErr result
        (λ e. RefusedAfter jiter.old (cause_of e.error_type) e.index jiter.new.position)) }
    ensures into { UnlessRefused result (RefusedSo
        (reply_seen key_bytes (next jiter.old (object_read whole jiter.old))) result jiter.new.position) }
    ensures walked { IfOk result
        (λ place. MembersPassed name.now jiter.old None place jiter.new.position) }
    ensures memory { WhereRefused result (λ e. WantsMemory jiter.old.text e.index) }
    ensures place { WhereRefused result (λ e. jiter.new.position ≡ e.index) }
{
    let mut place = None;
    let mut named = is_named(jiter.next_object(alloc)?, name);
    while let Some(same) = named {
        let start = pass(jiter)?;
        if same {
            place = Some(start);
        }
        named = is_named(jiter.next_key(alloc)?, name);
    }
    Ok(place)
}

/// Moves to the value of the last member with the key `name` of the next object.
///
/// Keys are compared decoded. `found` is whether there is one. Otherwise the reader is after the object. The UTF-8 of
/// values is not checked.
///
/// # Errors
///
/// Returns `false` and writes to `fault`:
///
/// - the error that [`jiter::Jiter::next_object`] returns
/// - the first error of a key, a step or a skip in the object
/// - out of memory, only for a key with a backslash; the reader is then at that key
///
/// The reader is then where the call that failed leaves it.
#[unsafe(no_mangle)]
pub extern "C" fn jiter_member(
    alloc: Global,
    reader: &mut JiterReader<'_>,
    name: &[u8],
    found: &mut bool,
    fault: &mut JiterFault,
) -> bool
    ensures led { (b e : ℕ) → (ms : NodeMembers) → StandsNext (state_of reader.old) (Node.object b e ms)
        → UnlessMemory result fault.new ((result ≡ true)
        × LedTo (last_named reader.old.bytes.now name.now None ms) e found.new reader.new.index) }
    ensures reports { UnlessMemory result fault.new
        (ReportsWalk (state_of reader.old) result reader.new.index fault.old fault.new) }
    ensures into { UnlessMemory result fault.new (IfRefused (object_reply whole reader.old)
        (Reports (object_reply whole reader.old) result reader.old reader.new fault.old fault.new)) }
    ensures walked { result ≡ true
        → FindsMember name.now (state_of reader.old) found.new reader.new.index }
    ensures kept { result ≡ false → found.new ≡ found.old }
    ensures reader { reader.new ≡ record reader.old { index = reader.new.index } }
    ensures memory { WhereMemory result fault.new (RunsOutAt
        (only_at (λ i. WantsMemory reader.old.bytes.now i)) reader.old reader.new fault.new) }
{
    let mut jiter = jiter_at(reader);
    let read = last_member(alloc, &mut jiter, name);
    reader.index = jiter.current_index();
    match read {
        Ok(place) => {
            *found = place.is_some();
            reader.index = place.unwrap_or(reader.index);
            true
        }
        Err(error) => {
            *fault = fault_of(&error);
            false
        }
    }
}
