//! The pull reader's calls for complete values.
ghost use Rattle.jiter.specs.Words.{view, value_place, next, known, value_read, StandsAt, byte_of, Reads, value_memory};

use crate::errors::JiterResult;
use crate::jiter::{Jiter, refusal_at};
use crate::peek::Peek;
use jiter_scan::PartialMode;
use jiter_value::JsonValue;
use jiter_value::parse::reading::read_value;
use jiter_value::parse::settings::Settings;
use std::alloc::Global;

impl<'j> Jiter<'j> {
    /// Parses the next value, whatever its type, with partial reading off (RFC 8259, 3).
    ///
    /// Strings without a backslash and the texts of numbers are borrowed. Bytes after the value are not read.
    ///
    /// # Errors
    ///
    /// - the errors of [`JsonValue::parse`] with the reader's setting, except `TrailingCharacters`, with their index in
    ///   the reader's bytes
    /// - `OutOfMemory`, only for a string with a backslash or a non-empty container
    ///
    /// The reader is then at the first byte of the scalar or key that fails, otherwise at the error. After
    /// `OutOfMemory` it is at the error's index, at or after the value's first byte.
    pub fn next_value(&mut self, alloc: Global) -> JiterResult<JsonValue<'j>>
        ensures reads { Reads (value_memory self.old (value_place self.old)) view
            (next self.old (value_read self.old))
            result self.old self.new }
    {
        let peek = self.peek()?;
        self.known_value(alloc, peek)
    }

    /// Parses the value that you peeked, as [`Jiter::next_value`] does.
    ///
    /// # Errors
    ///
    /// - the errors of [`Jiter::next_value`]; they leave the reader at the same position
    ///
    /// # Requires
    ///
    /// The byte of `peek` is at the reader's position, as after the call that returned it. `rt try` does not test it.
    pub fn known_value(&mut self, alloc: Global, peek: Peek) -> JiterResult<JsonValue<'j>>
        requires { StandsAt self.old (byte_of peek) }
        ensures reads { Reads (value_memory self.old self.old.position) view
            (known self.old (value_read self.old))
            result self.old self.new }
    {
        let _ = peek;
        let settings = Settings {
            allow_inf_nan: self.allow_inf_nan,
            mode: PartialMode::Off,
        };
        read_value(alloc, &mut self.parser, settings).map_err(|error| refusal_at(
            error,
            self.parser.index,
        ))
    }
}
