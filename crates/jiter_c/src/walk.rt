//! A document's values as a table in C's memory, each before its parts, so that C steps from one to the next without a
//! call.
ghost use Rattle.std.specs.Prelude.{◌≡◌, ◌+◌, ◌<◌, ◌^◌, ◌≤◌, ℕ, None, Some, false, length, suc, true};
ghost use Rattle.jiter_value.specs.Value.{member_views, view, views};
ghost use Rattle.jiter_c.specs.Holding.{MatchDocument};
ghost use Rattle.jiter_c.specs.Walk.{Lays, capped, item_nodes, item_texts, laid, member_nodes, member_texts, node_report};
ghost use Rattle.jiter_c.specs.Walk.{nodes_of, parts_of, table_of, texts_of};

use crate::handles::{Contents, JiterHandle, close, fill, open};
use crate::texts::write_prefix;
use crate::values::{JiterValue, describe};
use core::mem::{replace, replace_with};
use jiter::{JsonArray, JsonObject, JsonValue};

/// A value of a document, and where its parts, its text and its key are. The parts follow it in the table.
#[repr(C)]
#[derive(Clone, Copy)]
pub struct JiterNode {
    /// The type, by the numbers of `jiter_c.h`.
    pub kind: u32,
    /// 1 if it is `true`; otherwise 0.
    pub truth: u32,
    /// The integer, if it fits in 64 signed bits. For other values the number of items, members, or bytes of the string or
    /// number text; otherwise 0.
    pub integer: i64,
    /// How many nodes on the next item or member of its array or object is; 0 if it is the last one.
    pub next: usize,
    /// Where its text begins in the texts.
    pub text: usize,
    /// The number of bytes of its key, which is before its text; 0 if it is no member.
    pub key_length: usize,
}

#[cycle(count)]
#[inline(always)]
fn count(value: &JsonValue<'static>) -> (usize, usize)
    ensures nodes { (at : ℕ) → result.0 ≡ capped (suc (length (parts_of at (view value.now)))) }
    ensures bytes { result.1 ≡ capped (length (texts_of (view value.now))) }
{
    match value {
        JsonValue::BigInt(text) => (1, text.as_str().len()),
        JsonValue::Float(text) => (1, text.as_str().len()),
        JsonValue::Str(text) => (1, text.as_str().len()),
        JsonValue::Array(items) => count_items(items),
        JsonValue::Object(members) => count_members(members),
        _ => (1, 0),
    }
}

#[cycle(count)]
fn count_items(items: &JsonArray<'static>) -> (usize, usize)
    ensures nodes { (at : ℕ) → result.0 ≡ capped (suc (length (item_nodes at (views items.now.items)))) }
    ensures bytes { result.1 ≡ capped (length (item_texts (views items.now.items))) }
{
    let mut nodes = 1_usize;
    let mut bytes = 0_usize;
    for i in 0..items.len() {
        let (parts, texts) = count(&items[i]);
        nodes = nodes.saturating_add(parts);
        bytes = bytes.saturating_add(texts);
    }
    (nodes, bytes)
}

#[cycle(count)]
fn count_members(members: &JsonObject<'static>) -> (usize, usize)
    ensures nodes { (at : ℕ) → result.0
        ≡ capped (suc (length (member_nodes at (member_views members.now.items)))) }
    ensures bytes { result.1 ≡ capped (length (member_texts (member_views members.now.items))) }
{
    let mut nodes = 1_usize;
    let mut bytes = 0_usize;
    for i in 0..members.len() {
        let member = &members[i];
        let (parts, texts) = count(&member.1);
        nodes = nodes.saturating_add(parts);
        bytes = bytes
            .saturating_add(member.0.as_str().len())
            .saturating_add(texts);
    }
    (nodes, bytes)
}

#[inline(always)]
fn node_of(value: &JsonValue<'static>) -> JiterNode
    ensures { result ≡ node_report (view value.now) 1 0 0 0 }
{
    let JiterValue {
        kind,
        truth,
        integer,
        length,
    } = describe(value);
    JiterNode {
        kind,
        truth: if truth { 1 } else { 0 },
        integer: if kind == 3 {
            integer
        } else {
            (length as u64).cast_signed()
        },
        next: 0,
        text: 0,
        key_length: 0,
    }
}

#[cycle(lay)]
#[inline(always)]
fn lay_value(
    value: &JsonValue<'static>,
    key_length: usize,
    left: usize,
    text: usize,
    nodes: &mut [JiterNode],
    texts: &mut [u8],
) -> (usize, usize)
    requires nodes { length (nodes_of text key_length left (view value.now)) ≤ length nodes.now }
    requires texts { length (texts_of (view value.now)) ≤ length texts.now }
    requires place { text + length (texts_of (view value.now)) < 2 ^ 64 }
    ensures nodes { nodes.new ≡ laid (nodes_of text key_length left (view value.now)) nodes.old }
    ensures texts { texts.new ≡ laid (texts_of (view value.now)) texts.old }
    ensures count { result.0 ≡ length (nodes_of text key_length left (view value.now)) }
    ensures bytes { result.1 ≡ length (texts_of (view value.now)) }
{
    let node = node_of(value);
    let (parts, bytes) = lay_parts(value, text, &mut nodes[1..], texts);
    nodes[0] = JiterNode {
        next: if left == 0 { 0 } else { parts + 1 },
        text,
        key_length,
        ..node
    };
    (parts + 1, bytes)
}

#[cycle(lay)]
#[inline(always)]
fn lay_parts(
    value: &JsonValue<'static>,
    text: usize,
    nodes: &mut [JiterNode],
    texts: &mut [u8],
) -> (usize, usize)
    requires nodes { length (parts_of text (view value.now)) ≤ length nodes.now }
    requires texts { length (texts_of (view value.now)) ≤ length texts.now }
    requires place { text + length (texts_of (view value.now)) < 2 ^ 64 }
    ensures nodes { nodes.new ≡ laid (parts_of text (view value.now)) nodes.old }
    ensures texts { texts.new ≡ laid (texts_of (view value.now)) texts.old }
    ensures count { result.0 ≡ length (parts_of text (view value.now)) }
    ensures bytes { result.1 ≡ length (texts_of (view value.now)) }
{
    match value {
        JsonValue::BigInt(text) => (0, write_prefix(texts, text.as_str().as_bytes())),
        JsonValue::Float(text) => (0, write_prefix(texts, text.as_str().as_bytes())),
        JsonValue::Str(text) => (0, write_prefix(texts, text.as_str().as_bytes())),
        JsonValue::Array(items) => lay_items(items, text, nodes, texts),
        JsonValue::Object(members) => lay_members(members, text, nodes, texts),
        _ => (0, 0),
    }
}

#[cycle(lay)]
fn lay_items(
    items: &JsonArray<'static>,
    text: usize,
    nodes: &mut [JiterNode],
    texts: &mut [u8],
) -> (usize, usize)
    requires nodes { length (item_nodes text (views items.now.items)) ≤ length nodes.now }
    requires texts { length (item_texts (views items.now.items)) ≤ length texts.now }
    requires place { text + length (item_texts (views items.now.items)) < 2 ^ 64 }
    ensures nodes { nodes.new ≡ laid (item_nodes text (views items.now.items)) nodes.old }
    ensures texts { texts.new ≡ laid (item_texts (views items.now.items)) texts.old }
    ensures count { result.0 ≡ length (item_nodes text (views items.now.items)) }
    ensures bytes { result.1 ≡ length (item_texts (views items.now.items)) }
{
    let mut count = 0;
    let mut bytes = 0;
    for i in 0..items.len() {
        let (parts, put) = lay_value(
            &items[i],
            0,
            items.len() - 1 - i,
            text + bytes,
            &mut nodes[count..],
            &mut texts[bytes..],
        );
        count += parts;
        bytes += put;
    }
    (count, bytes)
}

#[cycle(lay)]
fn lay_members(
    members: &JsonObject<'static>,
    text: usize,
    nodes: &mut [JiterNode],
    texts: &mut [u8],
) -> (usize, usize)
    requires nodes { length (member_nodes text (member_views members.now.items)) ≤ length nodes.now }
    requires texts { length (member_texts (member_views members.now.items)) ≤ length texts.now }
    requires place { text + length (member_texts (member_views members.now.items)) < 2 ^ 64 }
    ensures nodes { nodes.new ≡ laid (member_nodes text (member_views members.now.items)) nodes.old }
    ensures texts { texts.new ≡ laid (member_texts (member_views members.now.items)) texts.old }
    ensures count { result.0 ≡ length (member_nodes text (member_views members.now.items)) }
    ensures bytes { result.1 ≡ length (member_texts (member_views members.now.items)) }
{
    let mut count = 0;
    let mut bytes = 0;
    for i in 0..members.len() {
        let member = &members[i];
        let key = write_prefix(&mut texts[bytes..], member.0.as_str().as_bytes());
        bytes += key;
        let (parts, put) = lay_value(
            &member.1,
            key,
            members.len() - 1 - i,
            text + bytes,
            &mut nodes[count..],
            &mut texts[bytes..],
        );
        count += parts;
        bytes += put;
    }
    (count, bytes)
}

fn lay(value: &JsonValue<'static>, nodes: &mut [JiterNode], texts: &mut [u8]) -> bool
    ensures { Lays (view value.now) result nodes.old nodes.new texts.old texts.new }
{
    let (count, bytes) = count(value);
    if nodes.len() < count || texts.len() < bytes {
        return false;
    }
    lay_value(value, 0, 0, 0, nodes, texts);
    true
}

fn count_in(handle: JiterHandle) -> (JiterHandle, Option<(usize, usize)>)
    ensures same { result.0.value ≡ handle.value }
    ensures counted { MatchDocument handle.value (result.1 ≡ None)
        (λ v. result.1 ≡ Some (capped (length (table_of v)), capped (length (texts_of v)))) }
{
    let contents = open(handle);
    let counted = match &*contents {
        Contents::Document(value) => Some(count(value)),
        _ => None,
    };
    (close(contents), counted)
}

/// Writes how much memory [`jiter_document_nodes`] needs: how many values the document has to `nodes`, and how many
/// bytes its strings, number texts and keys have to `bytes`. A number that would exceed the largest `size_t` is that.
///
/// # Errors
///
/// Returns `false` and writes nothing if the handle holds no document.
#[unsafe(no_mangle)]
pub extern "C" fn jiter_document_count(
    handle: &mut JiterHandle,
    nodes: &mut usize,
    bytes: &mut usize,
) -> bool
    ensures same { handle.new.value ≡ handle.old.value }
    ensures counted { MatchDocument handle.old.value
        ((result ≡ false) × (nodes.new ≡ nodes.old) × (bytes.new ≡ bytes.old))
        (λ v. (result ≡ true) × (nodes.new ≡ capped (length (table_of v)))
        × (bytes.new ≡ capped (length (texts_of v)))) }
{
    let Some(counted) = replace_with(handle, (), |handle, _| count_in(handle)) else {
        return false;
    };
    *nodes = counted.0;
    *bytes = counted.1;
    true
}

// The table is written while the handle holds nothing: a closure can't write to memory of the caller's.
fn taken(handle: JiterHandle) -> (JiterHandle, Contents)
    ensures { result.1 ≡ handle.value }
{
    let mut contents = open(handle);
    let held = replace(&mut *contents, Contents::Nothing);
    (close(contents), held)
}

/// Writes the values of a document to `nodes`, each before its parts, and their strings, number texts and keys to
/// `texts`, each key before the texts of its value. What is in the memory after them stays. Does not allocate.
///
/// # Errors
///
/// Returns `false` and writes nothing:
///
/// - if the memory is too small: [`jiter_document_count`] returns how much is needed
/// - if the handle holds no document
#[unsafe(no_mangle)]
pub extern "C" fn jiter_document_nodes(
    handle: &mut JiterHandle,
    nodes: &mut [JiterNode],
    texts: &mut [u8],
) -> bool
    ensures same { handle.new.value ≡ handle.old.value }
    ensures laid { MatchDocument handle.old.value
        ((result ≡ false) × (nodes.new ≡ nodes.old) × (texts.new ≡ texts.old))
        (λ v. Lays v result nodes.old nodes.new texts.old texts.new) }
{
    let contents = replace_with(handle, (), |handle, _| taken(handle));
    let done = match &contents {
        Contents::Document(value) => lay(value, nodes, texts),
        _ => false,
    };
    fill(handle, contents);
    done
}
