//! A client of the pull reader, which builds a value by peeks, steps and scalar reads alone. A submodule parses two
//! prefixes of one document.
ghost use Rattle.std.specs.Prelude.{◌≡◌, ◌≤◌, ◌+◌, IfOk, OnErr, IsSome, false, option_map};
ghost use Rattle.jiter.specs.Words.{out_of_memory, number_view, start_of, number_tree, text_view, whole, step, view};
ghost use Rattle.jiter.specs.Words.{array_first, object_first, owned_text, owned_tree, HoldsBorrowedTextOrPart, built};
ghost use Rattle.jiter.specs.Words.{LeadsOn, json_error, built_inside, own_text, IsTruthOrNothing, OwnedMayGrowAt};
ghost use Rattle.jiter.specs.Words.{RefusesBytes, WhereMemory, reply_seen, StandsAt, byte_of, refusal_view, Reads};
ghost use Rattle.jiter.specs.Words.{anywhere, owned_value_memory, value_place, next, known, value_read, object_read};
ghost use Rattle.jiter.specs.Words.{key_step};
ghost use Rattle.jiter_scan.specs.Ascii as ascii;

use crate::errors::{JiterError, JiterErrorType, JiterResult};
use crate::jiter::Jiter;
use crate::peek::Peek;
use jiter_scan::memory::{copy_text, push};
use jiter_scan::{AllocFailed, JsonErrorType, NumberAny, NumberInt};
use jiter_steps::parse::{Literal, NESTING_LIMIT, Start, start_of};
use jiter_value::JsonValue;
use std::alloc::Global;
use std::borrow::CowStr;

mod prefixes;

pub use prefixes::{a_longer_prefix_extends_a_shorter, two_prefixes};

// `refused` is the evidence that an allocation failed. Without it nothing can report this error.
#[cold]
fn out_of_memory(refused: AllocFailed, jiter: &Jiter<'_>) -> JiterError
    ensures { refusal_view result
        ≡ record { cause = json_error out_of_memory; index = jiter.now.position } }
{
    let _ = refused;
    jiter.out_of_memory()
}

fn number_value(alloc: Global, number: NumberAny<'_>) -> Result<JsonValue<'static>, AllocFailed>
    ensures value { IfOk result (λ v. view v ≡ owned_tree (number_tree (number_view number.entry))) }
    ensures memory { OnErr result (HoldsBorrowedTextOrPart (number_tree (number_view number.entry))) }
{
    match number {
        NumberAny::Int(NumberInt::Int(integer)) => Ok(JsonValue::Int(integer)),
        NumberAny::Int(NumberInt::BigInt(text)) => {
            let copy = copy_text(alloc, text)?;
            Ok(JsonValue::BigInt(CowStr::Owned(copy)))
        }
        NumberAny::Float(text) => {
            let copy = copy_text(alloc, text)?;
            Ok(JsonValue::Float(CowStr::Owned(copy)))
        }
    }
}

fn build_number(alloc: Global, jiter: &mut Jiter<'_>, peek: Peek) -> JiterResult<JsonValue<'static>>
    requires here { StandsAt jiter.old (byte_of peek) }
    requires begins { start_of (byte_of peek) ≡ Start.Number }
    ensures reads { Reads anywhere view (built jiter.old 0 Start.Number) result jiter.old jiter.new }
    ensures memory { WhereMemory result (λ _. OwnedMayGrowAt jiter.old) }
{
    let number = jiter.known_number(peek)?;
    match number_value(alloc, number) {
        Ok(value) => Ok(value),
        Err(refused) => Err(out_of_memory(refused, jiter)),
    }
}

fn build_string(alloc: Global, jiter: &mut Jiter<'_>) -> JiterResult<JsonValue<'static>>
    requires whole { jiter.old.partial_strings ≡ false }
    requires here { StandsAt jiter.old ascii.quote }
    ensures reads { Reads anywhere view (built jiter.old 0 Start.String) result jiter.old jiter.new }
    ensures memory { WhereMemory result (λ _. OwnedMayGrowAt jiter.old) }
{
    let text = jiter.known_str(alloc)?;
    match copy_text(alloc, text) {
        Ok(text) => Ok(JsonValue::Str(CowStr::Owned(text))),
        Err(refused) => Err(out_of_memory(refused, jiter)),
    }
}

fn build_null(jiter: &mut Jiter<'_>) -> JiterResult<JsonValue<'static>>
    requires { StandsAt jiter.old ascii.small_n }
    ensures reads { Reads anywhere view (built jiter.old 0 (Start.Literal Literal.Null))
        result jiter.old jiter.new }
    ensures refusal { RefusesBytes jiter.old.text result }
{
    jiter.known_null()?;
    Ok(JsonValue::Null)
}

// A byte that begins no value comes here too: `known_bool` reports it.
fn build_bool(jiter: &mut Jiter<'_>, peek: Peek) -> JiterResult<JsonValue<'static>>
    requires here { StandsAt jiter.old (byte_of peek) }
    requires begins { IsTruthOrNothing (start_of (byte_of peek)) }
    ensures reads { Reads anywhere view (built jiter.old 0 (start_of (byte_of peek)))
        result jiter.old jiter.new }
    ensures refusal { RefusesBytes jiter.old.text result }
{
    let truth = jiter.known_bool(peek)?;
    Ok(JsonValue::Bool(truth))
}

#[cycle(build)]
fn build_array(
    alloc: Global,
    jiter: &mut Jiter<'_>,
    levels: usize,
) -> JiterResult<JsonValue<'static>>
    requires whole { jiter.old.partial_strings ≡ false }
    requires here { StandsAt jiter.old ascii.left_bracket }
    ensures reads { Reads anywhere view (built jiter.old levels Start.Array) result jiter.old jiter.new }
    ensures memory { WhereMemory result (λ _.
        LeadsOn (step jiter.old.text array_first (jiter.old.position + 1))) }
{
    let mut next = jiter.known_array()?;
    let mut items = Vec::new(alloc);
    while let Some(peek) = next {
        let item = build_inside(alloc, jiter, peek, levels)?;
        if let Err(refused) = push(&mut items, item) {
            return Err(out_of_memory(refused, jiter));
        }
        next = jiter.array_step()?;
    }
    Ok(JsonValue::Array(items))
}

// The key is borrowed from the reader, which goes on to the value. So the key is copied.
fn copy_key(alloc: Global, key: Option<&str>) -> Result<Option<CowStr<'static>>, AllocFailed>
    ensures value { IfOk result (λ copy. option_map text_view copy
        ≡ option_map (λ x. own_text x.now) key.entry) }
    ensures memory { OnErr result (IsSome key.entry) }
{
    match key {
        Some(text) => {
            let copy = copy_text(alloc, text)?;
            Ok(Some(CowStr::Owned(copy)))
        }
        None => Ok(None),
    }
}

fn first_key(alloc: Global, jiter: &mut Jiter<'_>) -> JiterResult<Option<CowStr<'static>>>
    requires { StandsAt jiter.old ascii.left_brace }
    ensures reads { Reads anywhere (option_map text_view)
        (reply_seen (option_map owned_text) (known jiter.old (object_read whole jiter.old)))
        result jiter.old jiter.new }
    ensures memory { WhereMemory result (λ _.
        LeadsOn (step jiter.old.text object_first (jiter.old.position + 1))) }
{
    let key = jiter.known_object(alloc)?;
    match copy_key(alloc, key) {
        Ok(copy) => Ok(copy),
        Err(refused) => Err(out_of_memory(refused, jiter)),
    }
}

fn next_key(alloc: Global, jiter: &mut Jiter<'_>) -> JiterResult<Option<CowStr<'static>>>
    ensures reads { Reads anywhere (option_map text_view)
        (reply_seen (option_map owned_text) (key_step whole jiter.old)) result jiter.old jiter.new }
{
    let key = jiter.next_key(alloc)?;
    match copy_key(alloc, key) {
        Ok(copy) => Ok(copy),
        Err(refused) => Err(out_of_memory(refused, jiter)),
    }
}

#[cycle(build)]
fn build_object(
    alloc: Global,
    jiter: &mut Jiter<'_>,
    levels: usize,
) -> JiterResult<JsonValue<'static>>
    requires whole { jiter.old.partial_strings ≡ false }
    requires here { StandsAt jiter.old ascii.left_brace }
    ensures reads { Reads anywhere view (built jiter.old levels Start.Object) result jiter.old jiter.new }
    ensures memory { WhereMemory result (λ _.
        LeadsOn (step jiter.old.text object_first (jiter.old.position + 1))) }
{
    let mut next = first_key(alloc, jiter)?;
    let mut members = Vec::new(alloc);
    while let Some(key) = next {
        let value = build_member(alloc, jiter, levels)?;
        if let Err(refused) = push(&mut members, (key, value)) {
            return Err(out_of_memory(refused, jiter));
        }
        next = next_key(alloc, jiter)?;
    }
    Ok(JsonValue::Object(members))
}

#[cycle(build)]
fn build_member(
    alloc: Global,
    jiter: &mut Jiter<'_>,
    levels: usize,
) -> JiterResult<JsonValue<'static>>
    requires { jiter.old.partial_strings ≡ false }
    ensures reads { Reads anywhere view (next jiter.old (λ i _. built_inside jiter.old levels i))
        result jiter.old jiter.new }
{
    let peek = jiter.peek()?;
    build_inside(alloc, jiter, peek, levels)
}

// The limit is tested before the value is read, as in `Jiter::next_value`.
#[cycle(build)]
fn build_inside(
    alloc: Global,
    jiter: &mut Jiter<'_>,
    peek: Peek,
    levels: usize,
) -> JiterResult<JsonValue<'static>>
    requires whole { jiter.old.partial_strings ≡ false }
    requires here { StandsAt jiter.old (byte_of peek) }
    ensures reads { Reads anywhere view (built_inside jiter.old levels jiter.old.position)
        result jiter.old jiter.new }
{
    if levels == 0 {
        return Err(JiterError {
            error_type: JiterErrorType::JsonError(JsonErrorType::RecursionLimitExceeded),
            index: jiter.current_index(),
        });
    }
    build_value(alloc, jiter, peek, levels - 1)
}

// `levels` is how many non-empty containers may still be nested in one another, this value included.
#[cycle(build)]
fn build_value(
    alloc: Global,
    jiter: &mut Jiter<'_>,
    peek: Peek,
    levels: usize,
) -> JiterResult<JsonValue<'static>>
    requires whole { jiter.old.partial_strings ≡ false }
    requires here { StandsAt jiter.old (byte_of peek) }
    ensures reads { Reads anywhere view (built jiter.old levels (start_of (byte_of peek)))
        result jiter.old jiter.new }
    ensures memory { WhereMemory result (λ _. OwnedMayGrowAt jiter.old) }
{
    match start_of(peek.into_inner()) {
        Start::Array => build_array(alloc, jiter, levels),
        Start::Object => build_object(alloc, jiter, levels),
        Start::String => build_string(alloc, jiter),
        Start::Number => build_number(alloc, jiter, peek),
        Start::Literal(Literal::Null) => build_null(jiter),
        Start::Literal(Literal::True | Literal::False) | Start::Nothing => build_bool(jiter, peek),
    }
}

/// Builds the next value by peeks, steps and scalar reads alone. All its strings and number texts are owned.
///
/// Returns what [`Jiter::next_value_owned`] returns, and leaves the reader at the same position.
///
/// # Errors
///
/// - the errors of [`Jiter::next_value_owned`], except `OutOfMemory`, with the same index and the same position of the
///   reader
/// - `OutOfMemory`, only for a string, a `BigInt`, a `Float` or a non-empty container
///
/// After `OutOfMemory` the reader is at the error's index, at or after the value's first byte.
///
/// # Requires
///
/// Partial strings are not allowed in the reader. `rt try` does not test it.
#[tactic(auto, using(crate::proofs::OwnedTrees::built_as_read))]
pub fn value_by_steps(alloc: Global, jiter: &mut Jiter<'_>) -> JiterResult<JsonValue<'static>>
    requires { jiter.old.partial_strings ≡ false }
    ensures reads { Reads (owned_value_memory jiter.old (value_place jiter.old)) view
        (reply_seen owned_tree (next jiter.old (value_read jiter.old))) result jiter.old jiter.new }
{
    let peek = jiter.peek()?;
    build_value(alloc, jiter, peek, NESTING_LIMIT)
}
