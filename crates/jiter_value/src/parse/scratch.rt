//! Buffers that are reused from document to document.
ghost use Rattle.std.specs.Prelude.{◌≡◌, [], IfOk};
ghost use Rattle.jiter_value.specs.Words.{owned_tree, OwnedMayGrow, Parses, as_read, IsCleared, MayGrow};

use crate::parse::parse_owned::read_text_owned;
use crate::parse::reading::read_text;
use crate::parse::settings::Settings;
use crate::parse::stacks::Stacks;
use crate::parse::turns::Reading;
use crate::value::JsonValue;
use jiter_scan::{JsonError, PartialMode};
use std::alloc::Global;
use std::marker::Model;

/// Buffers for parsing one document after another, such as the lines of a log.
///
/// They hold the items of all open arrays, the members of all open objects, and the bytes of decoded strings. They keep
/// their capacity between calls, so documents of the same shape let them grow only once. After that, a parse allocates
/// only for its value. Documents that were parsed before don't change a result.
///
/// # Examples
///
/// ```rust
/// let mut scratch = JsonValueScratch::new(alloc);
/// for line in log.split(|byte| *byte == b'\n') {
///     let value = scratch.parse_owned(line, false, PartialMode::Off)?;
/// }
/// ```
#[derive(Drop)]
pub struct JsonValueScratch<'j> {
    reading: Reading<'j>,
}

impl<'j> Model for JsonValueScratch<'j> {
    ghost use Rattle.jiter_value.specs.Scratch.{Lists, lists, IsCleared};
    ghost use Rattle.jiter_value.specs.ValueCode.{codes};

    ghost Value = { Lists };

    ghost coded = { Prim.hlevel codes };

    ghost view = { λ s. lists s.reading.stacks };

    ghost invariant = { λ s. IsCleared s.reading.stacks };
}

impl<'j> JsonValueScratch<'j> {
    /// Creates a scratch with empty buffers.
    ///
    /// Does not allocate.
    pub fn new(alloc: Global) -> JsonValueScratch<'j>
        ensures elements { result.elements ≡ [] }
        ensures members { result.members ≡ [] }
    {
        let settings = Settings {
            allow_inf_nan: false,
            mode: PartialMode::Off,
        };
        let mut reading = Reading::new(alloc, settings);
        reading.stacks.reused = true;
        JsonValueScratch { reading }
    }

    /// Parses bytes with these buffers, as [`JsonValue::parse_with_config`] does.
    ///
    /// # Errors
    ///
    /// Those of [`JsonValue::parse_with_config`]. After any error you can parse the next document.
    pub fn parse(
        &mut self,
        bytes: &'j [u8],
        allow_inf_nan: bool,
        allow_partial: PartialMode,
    ) -> Result<JsonValue<'j>, JsonError>
        ensures elements { self.new.elements ≡ [] }
        ensures members { self.new.members ≡ [] }
        ensures parses { Parses as_read (MayGrow bytes.now) allow_inf_nan allow_partial bytes.now
            result }
    {
        self.reading.settings = Settings {
            allow_inf_nan,
            mode: allow_partial,
        };
        let answer = read_text(&mut self.reading, bytes);
        if answer.is_err() {
            clear(&mut self.reading.stacks);
        }
        answer
    }
}

impl JsonValueScratch<'static> {
    /// Parses bytes with these buffers, as [`JsonValue::parse_owned`] does. The value borrows nothing.
    ///
    /// # Errors
    ///
    /// Those of [`JsonValue::parse_owned`]. After any error you can parse the next document.
    pub fn parse_owned(
        &mut self,
        bytes: &[u8],
        allow_inf_nan: bool,
        allow_partial: PartialMode,
    ) -> Result<JsonValue<'static>, JsonError>
        ensures elements { self.new.elements ≡ [] }
        ensures members { self.new.members ≡ [] }
        ensures parses { Parses owned_tree (OwnedMayGrow allow_inf_nan allow_partial bytes.now)
            allow_inf_nan allow_partial bytes.now result }
    {
        self.reading.settings = Settings {
            allow_inf_nan,
            mode: allow_partial,
        };
        let answer = read_text_owned(&mut self.reading, bytes);
        if answer.is_err() {
            clear(&mut self.reading.stacks);
        }
        answer
    }
}

// Empties the stacks, but keeps their capacity. After a value they are empty already; after an error they may hold parts.
#[cold]
#[inline(never)]
fn clear<'j>(stacks: &mut Stacks<'j>)
    ensures { IsCleared stacks.new }
{
    stacks.items.clear();
    stacks.members.clear();
    stacks.nest.clear();
    stacks.root = JsonValue::Null;
}
