//! Values that know how they are read, lists of them, and documents.
ghost use Rattle.std.specs.Prelude.{◌≡◌, ◌≤◌, ◌++◌, ◌∷◌, [], ℕ, Bool, IfErr, IfOk, List, Option, false, length, map, option_map, string_bytes};
ghost use Rattle.jiter.specs.Caller.{IsDocument, IsMemory, Node, Tree, value_of, view};
ghost use Rattle.jiter_walk.specs.Meanings.{flag, list, or_null, text, tree};
ghost use Rattle.jiter_walk.specs.Table.{Meaning};
ghost use Rattle.jiter_walk.specs.Walk.{IsReadable, Returns, Walks, index_of};
ghost use Rattle.jiter_walk.specs.Values.{list_meaning, listed, or_null_in};

use crate::items::{Items, each_item};
use crate::scalars::{next_flag, next_null, next_text, next_tree};
use crate::walk_error::WalkError;
use jiter::{Jiter, JiterResult, JsonValue, Peek};
use std::alloc::Global;

/// A value that knows how it is read.
pub trait Value<'j, C>: Drop {
    // What contracts see of it.
    ghost View: { Type 0 };

    ghost view: { Self → View };

    // What a value means.
    ghost meaning: { Meaning C View };

    /// Reads the value that comes next.
    fn read(alloc: Global, jiter: &mut Jiter<'j>) -> Result<Self, WalkError<C>>
        ensures { Walks view meaning.of result jiter.old jiter.new };
}

impl<'j, C> Value<'j, C> for String {
    ghost View = { List ℕ };

    ghost view = { string_bytes };

    ghost meaning = { text };

    fn read(alloc: Global, jiter: &mut Jiter<'j>) -> Result<String, WalkError<C>> {
        next_text(alloc, jiter)
    }
}

impl<'j, C> Value<'j, C> for bool {
    ghost View = { Bool };

    ghost view = { λ b. b };

    ghost meaning = { flag };

    fn read(alloc: Global, jiter: &mut Jiter<'j>) -> Result<bool, WalkError<C>> {
        let _ = alloc;
        next_flag(jiter)
    }
}

/// Appends an item to a list. If an allocation fails, the error is at the reader's position.
pub fn push<T: Drop>(list: &mut Vec<T>, item: T, jiter: &Jiter<'_>) -> JiterResult<()>
    ensures kept { IfOk result (λ _. list.new.items ≡ list.old.items ++ item ∷ []) }
    ensures memory { IfErr result IsMemory }
    ensures index { IfErr result (λ e. e.index ≡ jiter.now.position) }
{
    match list.push(item) {
        Ok(()) => Ok(()),
        Err(_) => Err(jiter.out_of_memory()),
    }
}

#[derive(Drop)]
struct Listed<V> {
    items: Vec<V>,
}

impl<'j, C, V: Value<'j, C>> Items<'j, C> for Listed<V> {
    ghost State = { List V.View };

    ghost state = { λ l. map V.view l.items.items };

    ghost after = { listed V.meaning.of };

    fn item(&mut self, alloc: Global, jiter: &mut Jiter<'j>) -> Result<(), WalkError<C>> {
        let value = V::read(alloc, jiter)?;
        push(&mut self.items, value, jiter)?;
        Ok(())
    }
}

/// Reads the array that comes next, each of its items as a value (RFC 8259, 5).
///
/// # Errors
///
/// - `Reader` for an error in the bytes, for a value of another type at its first byte, and if memory runs out
/// - the first error of an item
pub fn read_list<'j, C, V: Value<'j, C>>(
    alloc: Global,
    jiter: &mut Jiter<'j>,
) -> Result<Vec<V>, WalkError<C>>
    ensures { Walks (λ list. map V.view list.items) (list_meaning V.meaning.of) result jiter.old jiter.new }
{
    let mut list = Listed {
        items: Vec::new(alloc),
    };
    each_item(alloc, jiter, &mut list)?;
    let Listed { items } = list;
    Ok(items)
}

impl<'j, C, V: Value<'j, C>> Value<'j, C> for Vec<V> {
    ghost View = { List V.View };

    ghost view = { λ values. map V.view values.items };

    ghost meaning = { list V.meaning };

    fn read(alloc: Global, jiter: &mut Jiter<'j>) -> Result<Vec<V>, WalkError<C>> {
        read_list(alloc, jiter)
    }
}

impl<'j, C> Value<'j, C> for JsonValue<'j> {
    ghost View = { Tree };

    ghost view = { view };

    ghost meaning = { tree };

    fn read(alloc: Global, jiter: &mut Jiter<'j>) -> Result<JsonValue<'j>, WalkError<C>> {
        next_tree(alloc, jiter)
    }
}

/// Returns the value that comes next, or `None` for `null`.
///
/// # Errors
///
/// - the errors of the value
pub fn next_or_null<'j, C, V: Value<'j, C>>(
    alloc: Global,
    jiter: &mut Jiter<'j>,
) -> Result<Option<V>, WalkError<C>>
    ensures { Walks (option_map V.view) (or_null_in V.meaning.of) result jiter.old jiter.new }
{
    if jiter.peek()? == Peek::Null {
        next_null(jiter)?;
        return Ok(None);
    }
    Ok(Some(V::read(alloc, jiter)?))
}

impl<'j, C, V: Value<'j, C>> Value<'j, C> for Option<V> {
    ghost View = { Option V.View };

    ghost view = { option_map V.view };

    ghost meaning = { or_null V.meaning };

    fn read(alloc: Global, jiter: &mut Jiter<'j>) -> Result<Option<V>, WalkError<C>> {
        next_or_null(alloc, jiter)
    }
}

/// Reads a document: a value, with nothing but whitespace around it (RFC 8259, 2).
///
/// # Errors
///
/// - `Reader` for an error in the bytes, for a value of another type at its first byte, and if memory runs out
/// - the errors of the value
pub fn read_document<'j, C, V: Value<'j, C>>(
    alloc: Global,
    bytes: &'j [u8],
) -> Result<V, WalkError<C>>
    ensures document { (n : Node) → IsDocument false bytes.now n → Returns V.view result (V.meaning.of bytes.now n) }
    ensures held { (n : Node) → IsDocument false bytes.now n
        → IfOk result (λ x. V.meaning.Is (value_of bytes.now n) (V.view x)) }
    ensures readable { IfOk result (λ _. IsReadable bytes.now) }
    ensures index { IfErr result (λ e. index_of e ≤ length bytes.now) }
{
    let mut jiter = Jiter::new(bytes);
    let value = V::read(alloc, &mut jiter)?;
    jiter.finish()?;
    Ok(value)
}
