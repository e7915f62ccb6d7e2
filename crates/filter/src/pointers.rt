//! The members that are written, by JSON Pointers.
ghost use Rattle.std.specs.Prelude.{◌≡◌, IfOk, IfSome, None, Some, false, if◌then◌else◌, option_map, string_bytes};
ghost use Rattle.std.specs.List.{list_any, slice_split};
ghost use Rattle.jiter_value.specs.Pointer.{is_slash};
ghost use Rattle.filter.specs.Pointers.{decoded, escaped, head_of, is_deep, key_text, meant, name_in};

use jiter_print::print_str;
use std::alloc::{AllocError, Global};

/// A member that is written.
#[derive(Debug, Drop)]
pub struct Member {
    /// The name that the pointer's first step gives, decoded.
    pub name: String,
    /// The pointer, if it has more steps.
    pub deep: Option<String>,
    /// All steps, decoded, with slashes between them: the key in the output.
    pub label: String,
    /// What is written before the value: `{` or a comma, the label as a JSON string, and a colon.
    pub key: Vec<u8>,
}

impl Member {
    /// Returns the member that a JSON Pointer names, or `None` if it isn't one or leads to the whole line.
    ///
    /// # Errors
    ///
    /// - `AllocError` if an allocation fails
    pub fn of_pointer(
        alloc: Global,
        pointer: &str,
        is_first: bool,
    ) -> Result<Option<Member>, AllocError>
        ensures key { IfOk result (λ found. IfSome found
            (λ m. m.key.items ≡ key_text is_first (string_bytes m.label))) }
        ensures one { IfOk result (λ found. IfSome found
            (λ m. m.deep ≡ None → string_bytes m.label ≡ string_bytes m.name)) }
        ensures deep { IfOk result (λ found. IfSome found (λ m. option_map string_bytes m.deep
            ≡ (if is_deep pointer.now then Some pointer.now else None))) }
        // There is a member exactly for a pointer to one or into one, and its name is that of the first step.
        ensures name { IfOk result (λ found. option_map (λ m. string_bytes m.name) found ≡ name_in pointer.now) }
    {
        let Some(steps) = pointer.strip_prefix('/') else {
            return Ok(None);
        };
        let (first, has_more) = first_step(steps);
        let (Some(name), Some(all)) = (decoded(alloc, first)?, decoded(alloc, steps)?) else {
            return Ok(None);
        };
        let (label, deep) = match has_more {
            true => (all, Some(String::from_str(alloc, pointer)?)),
            false => (String::from_str(alloc, name.as_str())?, None),
        };
        let mut key = Vec::from_slice(alloc, if is_first { b"{" } else { b"," })?;
        print_str(&mut key, label.as_str())?;
        key.push(b':')?;
        Ok(Some(Member {
            name,
            deep,
            label,
            key,
        }))
    }
}

// The first of some steps, and whether others follow it.
fn first_step(steps: &str) -> (&str, bool)
    ensures first { result.0.now ≡ head_of (slice_split is_slash steps.now) }
    ensures more { result.1 ≡ list_any is_slash steps.now }
{
    match steps.split_once('/') {
        Some((first, _)) => (first, true),
        None => (steps, false),
    }
}

fn escaped(character: char) -> Option<char>
    ensures { result ≡ escaped character }
{
    match character {
        '0' => Some('~'),
        '1' => Some('/'),
        _ => None,
    }
}

fn meant(is_escape: bool, character: char) -> Option<char>
    ensures { result ≡ meant is_escape character }
{
    if is_escape {
        escaped(character)
    } else {
        Some(character)
    }
}

// In a step, `~1` is a slash and `~0` is a tilde (RFC 6901, 3).
fn decoded(alloc: Global, steps: &str) -> Result<Option<String>, AllocError>
    ensures { IfOk result (λ found. option_map string_bytes found ≡ decoded steps.now) }
{
    let mut name = String::new(alloc);
    let mut is_escape = false;
    for character in steps.chars() {
        if character == '~' && !is_escape {
            is_escape = true;
            continue;
        }
        let Some(character) = meant(is_escape, character) else {
            return Ok(None);
        };
        name.push(character)?;
        is_escape = false;
    }
    Ok(if is_escape { None } else { Some(name) })
}
