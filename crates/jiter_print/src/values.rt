//! The text of a value, compact or over lines.
ghost use Rattle.std.specs.Prelude.{◌≡◌, true, Bool, List, ℕ, ◌∷◌, ◌++◌, ◌^◌, ◌<◌, ◌≤◌, IfOk, OnOk, take, vec_len, replicate};
ghost use Rattle.std.specs.Fmt.{signed_decimal};
ghost use Rattle.jiter_scan.specs.declared.partial_mode.PartialMode.{PartialMode};
ghost use Rattle.jiter_steps.specs.Answer.{answer_in};
ghost use Rattle.jiter_steps.specs.Read.{done};
ghost use Rattle.jiter_steps.specs.Tree.{Tree, array, object};
ghost use Rattle.jiter_value.specs.Owned.{HoldSame};
ghost use Rattle.jiter_value.specs.Value.{view, views, member_views};
ghost use Rattle.jiter_print.specs.Layout.{laid_out, layout_of, line_break, last_break, space, pretty_of};
ghost use Rattle.jiter_print.specs.Print.{print_of, comma, with_line_feed, Appends};
ghost use Rattle.jiter_print.specs.Printed.{IsLineOf};

use crate::strings::{append_bytes, append_text};
use itoa::Buffer;
use jiter_scan::memory::{AllocFailed, lengthen};
use jiter_value::{JsonArray, JsonObject, JsonValue};
use std::alloc::{AllocError, Global};

/// Returns the compact JSON text of a value, without whitespace between its parts.
///
/// - An `Int` is printed in decimal, any other number as its source text.
/// - In a string, `"` and `\` follow a backslash, and a byte below 0x20 is `\u00` and two lower-case hex digits
///   (RFC 8259, 7). All else stays as it is.
///
/// If the value was parsed, in any mode, borrowed or owned, the text and a line feed are a document with the same value.
/// It is the same for a copy of such a value. This holds under the same setting for non-finite numbers. A `BigInt` or
/// `Float` that you build yourself is printed as you wrote it.
///
/// # Errors
///
/// - `AllocError` if an allocation fails
///
/// # Examples
///
/// ```rust
/// let value = JsonValue::parse(alloc, b"{\"a\": [1, 2.50]}", false)?;
/// let text = print(alloc, &value)?;
/// assert_eq!(rt; text.as_slice(), b"{\"a\":[1,2.50]}".as_slice());
/// ```
pub fn print(alloc: Global, value: &JsonValue<'_>) -> Result<Vec<u8>, AllocError>
    ensures text { IfOk result (λ text. text.items ≡ print_of (view value.now)) }
    ensures again { (names : Bool) → (mode : PartialMode) → (bytes : List ℕ) → (read : Tree) → (end : ℕ)
        → answer_in names mode bytes ≡ done read end → HoldSame read (view value.now)
        → IsLineOf names (view value.now) (with_line_feed (print_of (view value.now))) }
{
    let mut line = Vec::new(alloc);
    let end = append::<false>(value, 0, 0, &mut line, 0)?;
    line.truncate(end);
    Ok(line)
}

/// Returns the JSON text of a value, with each item and member on a line of its own.
///
/// A container adds `indent` spaces to the lines inside it. A colon is followed by a space. Empty containers are `[]` and
/// `{}`. All else is printed as by [`print`], and the text reads again as the same value under the same conditions.
///
/// # Errors
///
/// - `AllocError` if an allocation fails
///
/// # Examples
///
/// ```rust
/// let value = JsonValue::parse(alloc, b"{\"a\": [1, 2.50]}", false)?;
/// let text = print_pretty(alloc, &value, 2)?;
/// assert_eq!(rt; text.as_slice(), b"{\n  \"a\": [\n    1,\n    2.50\n  ]\n}".as_slice());
/// ```
pub fn print_pretty(
    alloc: Global,
    value: &JsonValue<'_>,
    indent: usize,
) -> Result<Vec<u8>, AllocError>
    ensures text { IfOk result (λ text. text.items ≡ pretty_of indent (view value.now)) }
    ensures again { (names : Bool) → (mode : PartialMode) → (bytes : List ℕ) → (read : Tree) → (end : ℕ)
        → answer_in names mode bytes ≡ done read end → HoldSame read (view value.now)
        → IsLineOf names (view value.now) (with_line_feed (pretty_of indent (view value.now))) }
{
    let mut line = Vec::new(alloc);
    let end = append::<true>(value, indent, 0, &mut line, 0)?;
    line.truncate(end);
    Ok(line)
}

// The functions below append to `line` as those of strings.rt do. With `PRETTY` they break lines: each level adds
// `indent` spaces, and the line of the closing bracket has `margin` spaces. Without it both are zero.
#[cycle(append)]
#[inline(always)]
fn append<const PRETTY: bool>(
    value: &JsonValue<'_>,
    indent: usize,
    margin: usize,
    line: &mut Vec<u8>,
    count: usize,
) -> Result<usize, AllocFailed>
    requires { count ≤ vec_len line.old }
    ensures { IfOk result (λ end. Appends line.old.items line.new.items count
        (laid_out (layout_of PRETTY indent margin) (view value.now)) end) }
{
    match value {
        JsonValue::Null => append_bytes(b"null", line, count),
        JsonValue::Bool(true) => append_bytes(b"true", line, count),
        JsonValue::Bool(false) => append_bytes(b"false", line, count),
        JsonValue::Int(number) => append_integer(*number, line, count),
        JsonValue::BigInt(text) => append_bytes(text.as_str().as_bytes(), line, count),
        JsonValue::Float(text) => append_bytes(text.as_str().as_bytes(), line, count),
        JsonValue::Str(text) => append_text(text.as_str(), line, count),
        JsonValue::Array(items) => append_items::<PRETTY>(items, indent, margin, line, count),
        JsonValue::Object(members) => {
            append_members::<PRETTY>(members, indent, margin, line, count)
        }
    }
}

#[cycle(append)]
#[inline(never)]
fn append_items<const PRETTY: bool>(
    items: &JsonArray<'_>,
    indent: usize,
    margin: usize,
    line: &mut Vec<u8>,
    count: usize,
) -> Result<usize, AllocFailed>
    requires { count ≤ vec_len line.old }
    ensures { IfOk result (λ end. Appends line.old.items line.new.items count
        (laid_out (layout_of PRETTY indent margin) (array (views items.now.items))) end) }
{
    let inner = margin.saturating_add(indent);
    let mut end = append_bytes(b"[", line, count)?;
    for i in 0..items.len() {
        end = append_comma(i, line, end);
        end = append_break::<PRETTY>(inner, line, end)?;
        end = append::<PRETTY>(&items[i], indent, inner, line, end)?;
    }
    end = append_last_break::<PRETTY>(items.len(), margin, line, end)?;
    append_bytes(b"]", line, end)
}

#[cycle(append)]
#[inline(never)]
fn append_members<const PRETTY: bool>(
    members: &JsonObject<'_>,
    indent: usize,
    margin: usize,
    line: &mut Vec<u8>,
    count: usize,
) -> Result<usize, AllocFailed>
    requires { count ≤ vec_len line.old }
    ensures { IfOk result (λ end. Appends line.old.items line.new.items count
        (laid_out (layout_of PRETTY indent margin) (object (member_views members.now.items))) end) }
{
    let inner = margin.saturating_add(indent);
    let mut end = append_bytes(b"{", line, count)?;
    for i in 0..members.len() {
        end = append_comma(i, line, end);
        end = append_break::<PRETTY>(inner, line, end)?;
        let member = &members[i];
        end = append_text(member.0.as_str(), line, end)?;
        end = append_colon::<PRETTY>(line, end)?;
        end = append::<PRETTY>(&member.1, indent, inner, line, end)?;
    }
    end = append_last_break::<PRETTY>(members.len(), margin, line, end)?;
    append_bytes(b"}", line, end)
}

// The comma is always written, and counted only after a part. This needs no branch.
#[inline(always)]
fn append_comma(before: usize, line: &mut Vec<u8>, count: usize) -> usize
    requires { count < vec_len line.old }
    ensures text { take result line.new.items ≡ take count line.old.items ++ comma before }
    ensures place { result ≤ vec_len line.new }
{
    line[count] = b',';
    count + (before > 0) as usize
}

#[inline(always)]
fn append_colon<const PRETTY: bool>(line: &mut Vec<u8>, count: usize) -> Result<usize, AllocFailed>
    requires { count < vec_len line.old }
    ensures text { (indent : ℕ) → (margin : ℕ) → IfOk result (λ end. take end line.new.items
        ≡ take count line.old.items ++ 58 ∷ space (layout_of PRETTY indent margin)) }
    ensures place { IfOk result (λ end. end ≤ vec_len line.new) }
{
    if PRETTY {
        return append_bytes(b": ", line, count);
    }
    line[count] = b':';
    Ok(count + 1)
}

// Without `PRETTY` nothing is written.
#[inline(always)]
fn append_break<const PRETTY: bool>(
    margin: usize,
    line: &mut Vec<u8>,
    count: usize,
) -> Result<usize, AllocFailed>
    requires { count ≤ vec_len line.old }
    ensures text { (indent : ℕ) → IfOk result (λ end. take end line.new.items
        ≡ take count line.old.items ++ line_break (layout_of PRETTY indent margin)) }
    ensures place { IfOk result (λ end. end ≤ vec_len line.new) }
    ensures fits { PRETTY ≡ true → OnOk result (margin < 2 ^ 63) }
{
    if PRETTY {
        let end = append_bytes(b"\n", line, count)?;
        return append_spaces(margin, line, end);
    }
    Ok(count)
}

// The closing bracket has a line of its own after one or more parts.
#[inline(always)]
fn append_last_break<const PRETTY: bool>(
    parts: usize,
    margin: usize,
    line: &mut Vec<u8>,
    count: usize,
) -> Result<usize, AllocFailed>
    requires { count ≤ vec_len line.old }
    ensures text { (indent : ℕ) → IfOk result (λ end. take end line.new.items
        ≡ take count line.old.items ++ last_break (layout_of PRETTY indent margin) parts) }
    ensures place { IfOk result (λ end. end ≤ vec_len line.new) }
{
    if PRETTY && parts > 0 {
        return append_break::<PRETTY>(margin, line, count);
    }
    Ok(count)
}

// A vector has at most `isize::MAX` bytes, so an allocation fails for as many spaces or more.
#[inline(never)]
fn append_spaces(spaces: usize, line: &mut Vec<u8>, count: usize) -> Result<usize, AllocFailed>
    requires { count < vec_len line.old }
    ensures text { IfOk result (λ end. Appends line.old.items line.new.items count (replicate spaces 32) end) }
    ensures fits { OnOk result (spaces < 2 ^ 63) }
{
    if line.len() - count <= spaces {
        lengthen(line, spaces.min(isize::MAX as usize))?;
    }
    line.as_mut_slice()[count..count + spaces].fill(b' ');
    Ok(count + spaces)
}

#[inline(always)]
fn append_integer(number: i64, line: &mut Vec<u8>, count: usize) -> Result<usize, AllocFailed>
    requires { count ≤ vec_len line.old }
    ensures { IfOk result (λ end. Appends line.old.items line.new.items count (signed_decimal number) end) }
{
    let mut buffer = Buffer::new();
    append_bytes(buffer.format(number).as_bytes(), line, count)
}
