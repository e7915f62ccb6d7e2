//! What the programs share that run tables of tests. Such a program reads one row a line:
//!
//!     CALL MODE INPUT
//!
//! It writes the row again, then ` => ` and what the call returns. A line that is empty or begins with `#` is copied.
#![tactic(auto)]

use std::alloc::{AllocError, Global};

/// How a row asks for a truncated document to be read.
#[derive(Clone, Copy)]
pub enum Partial {
    /// The word `off`, or `-` if the call takes no mode.
    Off,
    /// The word `on`.
    On,
    /// The word `strings`.
    TrailingStrings,
}

/// One row of a table.
#[derive(Clone, Copy)]
pub struct Row<'t> {
    /// The word that names the call.
    pub call: &'t str,
    /// The mode without `+nan`.
    pub partial: Partial,
    /// Whether the mode ends with `+nan`: `NaN`, `Infinity` and `-Infinity` are numbers.
    pub allow_inf_nan: bool,
    /// The rest of the line; [`bytes_of`] turns it into bytes.
    pub input: &'t str,
}

/// Splits a line into call, mode and input. Returns `None` for an empty line, one that begins with `#`, and one without
/// a known mode.
pub fn row_of(line: &str) -> Option<Row<'_>> {
    if line.is_empty() || line.starts_with('#') {
        return None;
    }
    let (call, rest) = line.split_once(' ')?;
    let (mode, input) = rest.split_once(' ').unwrap_or((rest, ""));
    let (word, allow_inf_nan) = match mode.strip_suffix("+nan") {
        Some(word) => (word, true),
        None => (mode, false),
    };
    let partial = match word {
        "off" | "-" => Partial::Off,
        "on" => Partial::On,
        "strings" => Partial::TrailingStrings,
        _ => return None,
    };
    Some(Row {
        call,
        partial,
        allow_inf_nan,
        input,
    })
}

/// Returns the bytes that an input spells. `%0A` is the byte with these two hex digits, and `%(300:[)` is 300 times the
/// text between `:` and `)`. Any other byte is itself, and so is a `%` that begins neither form.
pub fn bytes_of(alloc: Global, input: &str) -> Result<Vec<u8>, AllocError> {
    let mut bytes = Vec::new(alloc);
    for (index, part) in input.split("%(").enumerate() {
        if index == 0 {
            append(&mut bytes, part)?;
        } else {
            append_repeated(&mut bytes, part)?;
        }
    }
    Ok(bytes)
}

/// Returns the bytes of an input without its first `|`, and the index that it marked; 0 without a mark.
pub fn marked_bytes_of(alloc: Global, input: &str) -> Result<(Vec<u8>, usize), AllocError> {
    let Some((before, after)) = input.split_once('|') else {
        return Ok((bytes_of(alloc, input)?, 0));
    };
    let mut bytes = bytes_of(alloc, before)?;
    let at = bytes.len();
    bytes.extend_from_slice(bytes_of(alloc, after)?.as_slice())?;
    Ok((bytes, at))
}

// `part` is what follows a `%(`.
fn append_repeated(bytes: &mut Vec<u8>, part: &str) -> Result<(), AllocError> {
    let Some((count, text, after)) = repeated(part) else {
        bytes.extend_from_slice(b"%(")?;
        return append(bytes, part);
    };
    let alloc = *bytes.allocator();
    let mut once = Vec::new(alloc);
    append(&mut once, text)?;
    bytes.extend_from_slice(once.as_slice().repeat(alloc, count)?.as_slice())?;
    append(bytes, after)
}

// Returns the count, the repeated text, and what follows: 300, `[` and `1` for `300:[)1`.
fn repeated(part: &str) -> Option<(usize, &str, &str)> {
    let (count, rest) = part.split_once(':')?;
    let (text, after) = rest.split_once(')')?;
    Some((count.parse().ok()?, text, after))
}

// `%` and two hex digits are one byte.
fn append(bytes: &mut Vec<u8>, text: &str) -> Result<(), AllocError> {
    for (index, part) in text.split('%').enumerate() {
        match spelled_byte(part) {
            Some((byte, after)) if index > 0 => {
                bytes.push(byte)?;
                bytes.extend_from_slice(after.as_bytes())?;
            }
            _ => {
                if index > 0 {
                    bytes.push(b'%')?;
                }
                bytes.extend_from_slice(part.as_bytes())?;
            }
        }
    }
    Ok(())
}

// Returns the byte of two hex digits, and what follows them.
fn spelled_byte(part: &str) -> Option<(u8, &str)> {
    let (digits, after) = part.split_at_checked(2)?;
    Some((u8::from_str_radix(digits, 16).ok()?, after))
}
