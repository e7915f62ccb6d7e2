//! Parsing into values that own all their strings, keys and number texts.
ghost use Rattle.std.specs.Prelude.{◌≡◌, ◌<◌, ◌⊎◌, IfOk, length, true};
ghost use Rattle.jiter_value.specs.Words.{past_blanks, nesting_limit, NeverMovesBack, Returns, value_at, WhereRefused};
ghost use Rattle.jiter_value.specs.Words.{owned_text, owned_tree, ReadHolds, IsOwnedAnswer, OwnedMayGrow};
ghost use Rattle.jiter_value.specs.Words.{Parses, reading_as, HoldsNothing, IsCleared, each, rules, rules_as};
ghost use Rattle.jiter_value.specs.Words.{view, BeginsContainer, MayGrowAt, MayGrow};

use crate::parse::reading::{error_at, read_text, read_text_as, read_value};
use crate::parse::settings::Settings;
use crate::parse::string_storage::Owning;
use crate::parse::turns::Reading;
use crate::value::JsonValue;
use crate::value::copies::move_value;
use jiter_scan::{JsonError, PartialMode};
use jiter_steps::parse::{Parser, Start, start_of};
use jiter_steps::read_error::ReadError;
use jiter_steps::whitespace::past_blanks;
use std::alloc::Global;
use std::mem::swap;

impl JsonValue<'static> {
    /// Parses bytes as [`JsonValue::parse_with_config`] does, and returns a value that borrows nothing.
    ///
    /// The value owns all its strings, keys and number texts.
    ///
    /// # Errors
    ///
    /// - any error of [`JsonValue::parse_with_config`]
    /// - `OutOfMemory`, only for a non-empty container, a string or a number text. If a scalar can't be copied, the
    ///   index is the length. Otherwise it is where the parse stopped, at or after the value's first byte.
    ///
    /// # Examples
    ///
    /// ```rust
    /// let value: JsonValue<'static> = JsonValue::parse_owned(alloc, b"[\"a\", 1.50]", false, PartialMode::Off)?;
    /// assert_eq!(rt; value.at(0).and_then(|item| item.as_str()), Some("a"));
    /// ```
    pub fn parse_owned(
        alloc: Global,
        bytes: &[u8],
        allow_inf_nan: bool,
        allow_partial: PartialMode,
    ) -> Result<JsonValue<'static>, JsonError>
        // What every parse promises, with each text owned.
        ensures { Parses owned_tree (OwnedMayGrow allow_inf_nan allow_partial bytes.now)
            allow_inf_nan allow_partial bytes.now result }
    {
        let settings = Settings {
            allow_inf_nan,
            mode: allow_partial,
        };
        if begins_container(bytes, past_blanks(bytes, 0)) {
            return own_once(alloc, bytes, settings);
        }
        own_scalar(alloc, &mut Vec::new(alloc), bytes, settings)
    }
}

#[inline(always)]
fn begins_container(bytes: &[u8], at: usize) -> bool
    ensures { result ≡ true → BeginsContainer bytes.now at }
{
    at < bytes.len() && matches!(start_of(bytes[at]), Start::Array | Start::Object)
}

// Parses a container with the buffers of this reading. Each text is owned as it is read.
fn own_text<'s>(reading: &mut Reading<'s>, bytes: &[u8]) -> Result<JsonValue<'s>, JsonError>
    requires container { BeginsContainer bytes.now (past_blanks bytes.now 0) }
    requires empty { HoldsNothing reading.old.stacks }
    ensures parses { Parses owned_tree (MayGrow bytes.now)
        reading.old.settings.allow_inf_nan reading.old.settings.mode bytes.now result }
    ensures cleared { IfOk result (λ v. IsCleared reading.new.stacks) }
{
    let alloc = reading.alloc;
    read_text_as(reading, Owning { alloc }, bytes)
}

// The same with buffers of its own.
fn own_once<'s>(alloc: Global, bytes: &[u8], settings: Settings) -> Result<JsonValue<'s>, JsonError>
    requires { BeginsContainer bytes.now (past_blanks bytes.now 0) }
    ensures { Parses owned_tree (MayGrow bytes.now)
        settings.allow_inf_nan settings.mode bytes.now result }
{
    let mut reading = Reading::new(alloc, settings);
    own_text(&mut reading, bytes)
}

// A scalar is copied last, so a borrowed one isn't copied if an error follows it.
fn own_scalar(
    alloc: Global,
    buffer: &mut Vec<u8>,
    bytes: &[u8],
    settings: Settings,
) -> Result<JsonValue<'static>, JsonError>
    ensures { Parses owned_tree (OwnedMayGrow settings.allow_inf_nan settings.mode bytes.now)
        settings.allow_inf_nan settings.mode bytes.now result }
{
    let mut borrowed = Reading::new(alloc, settings);
    swap(buffer, &mut borrowed.buffer);
    let read = read_text(&mut borrowed, bytes);
    swap(buffer, &mut borrowed.buffer);
    own_answer(alloc, read, bytes.len())
}

fn own_container<'s>(
    alloc: Global,
    parser: &mut Parser<'_>,
    settings: Settings,
) -> Result<JsonValue<'s>, ReadError>
    requires within { parser.old.index < length parser.old.bytes.now }
    requires container { BeginsContainer parser.old.bytes.now parser.old.index }
    ensures moves { NeverMovesBack parser.old parser.new }
    ensures value { Returns view result parser.new.index
        (value_at (rules_as (each owned_text) settings) parser.old.bytes.now nesting_limit parser.old.index) }
    ensures memory { WhereRefused result (MayGrowAt parser.old.bytes.now parser.old.index) }
{
    let mut reading = Reading::new(alloc, settings);
    reading.run(Owning { alloc }, parser)
}

/// Parses a document with the buffers and settings of this reading. The value owns its texts.
pub(crate) fn read_text_owned(
    reading: &mut Reading<'static>,
    bytes: &[u8],
) -> Result<JsonValue<'static>, JsonError>
    requires { IsCleared reading.old.stacks }
    ensures parses { Parses owned_tree
        (OwnedMayGrow reading.old.settings.allow_inf_nan reading.old.settings.mode bytes.now)
        reading.old.settings.allow_inf_nan reading.old.settings.mode bytes.now result }
    ensures cleared { IfOk result (λ v. IsCleared reading.new.stacks) }
{
    if begins_container(bytes, past_blanks(bytes, 0)) {
        return own_text(reading, bytes);
    }
    own_scalar(reading.alloc, &mut reading.buffer, bytes, reading.settings)
}

/// Returns the same result, with the texts of its value owned. If an allocation fails, the error is at `index`.
pub(crate) fn own_answer(
    alloc: Global,
    answer: Result<JsonValue<'_>, JsonError>,
    index: usize,
) -> Result<JsonValue<'static>, JsonError>
    ensures { IsOwnedAnswer answer.entry index result }
{
    let mut value = answer?;
    move_value(alloc, &mut value).map_err(|refused| error_at(ReadError::Memory(refused), index))
}

/// Reads the value at the reader's position, each of its texts owned.
///
/// # Errors
///
/// - any error of the value; `Memory` only if it may grow, or holds a part or a borrowed text
///
/// # Requires
///
/// The reader's position is before the length.
pub fn read_owned(
    alloc: Global,
    parser: &mut Parser<'_>,
    settings: Settings,
) -> Result<JsonValue<'static>, ReadError>
    requires { parser.old.index < length parser.old.bytes.now }
    ensures moves { NeverMovesBack parser.old parser.new }
    ensures value { Returns view result parser.new.index (reading_as owned_tree
        (value_at (rules settings) parser.old.bytes.now nesting_limit parser.old.index)) }
    ensures memory { WhereRefused result (MayGrowAt parser.old.bytes.now parser.old.index
        ⊎ ReadHolds (value_at (rules settings) parser.old.bytes.now nesting_limit parser.old.index)) }
{
    if begins_container(parser.bytes, parser.index) {
        return own_container(alloc, parser, settings);
    }
    let mut value = read_value(alloc, parser, settings)?;
    Ok(move_value(alloc, &mut value)?)
}
