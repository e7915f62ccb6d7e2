//! The pull reader's calls for complete values that own their strings.
ghost use Rattle.jiter.specs.Words.{owned_tree, view, value_place, next, known, value_read, StandsAt};
ghost use Rattle.jiter.specs.Words.{byte_of, reply_seen, Reads, owned_value_memory};

use crate::errors::JiterResult;
use crate::jiter::{Jiter, refusal_at};
use crate::peek::Peek;
use jiter_scan::PartialMode;
use jiter_value::JsonValue;
use jiter_value::parse::parse_owned::read_owned;
use jiter_value::parse::settings::Settings;
use std::alloc::Global;

impl<'j> Jiter<'j> {
    /// Parses the next value as [`Jiter::next_value`] does, with strings and number texts of its own.
    ///
    /// The value borrows nothing, so you can keep it after the bytes are gone.
    ///
    /// # Errors
    ///
    /// - the errors of [`Jiter::next_value`], except `OutOfMemory`; they leave the reader at the same position
    /// - `OutOfMemory`, only for a string, a `BigInt`, a `Float` or a non-empty container
    ///
    /// After `OutOfMemory` the reader is at the error's index, at or after the value's first byte.
    pub fn next_value_owned(&mut self, alloc: Global) -> JiterResult<JsonValue<'static>>
        ensures reads { Reads (owned_value_memory self.old (value_place self.old)) view
            (reply_seen owned_tree (next self.old (value_read self.old)))
            result self.old self.new }
    {
        let peek = self.peek()?;
        self.known_value_owned(alloc, peek)
    }

    /// Parses the value that you peeked, as [`Jiter::next_value_owned`] does.
    ///
    /// # Errors
    ///
    /// - the errors of [`Jiter::next_value_owned`]; they leave the reader at the same position
    ///
    /// # Requires
    ///
    /// The byte of `peek` is at the reader's position, as after the call that returned it. `rt try` does not test it.
    pub fn known_value_owned(
        &mut self,
        alloc: Global,
        peek: Peek,
    ) -> JiterResult<JsonValue<'static>>
        requires { StandsAt self.old (byte_of peek) }
        ensures reads { Reads (owned_value_memory self.old self.old.position) view
            (reply_seen owned_tree (known self.old (value_read self.old)))
            result self.old self.new }
    {
        let _ = peek;
        let settings = Settings {
            allow_inf_nan: self.allow_inf_nan,
            mode: PartialMode::Off,
        };
        read_owned(alloc, &mut self.parser, settings).map_err(|error| refusal_at(
            error,
            self.parser.index,
        ))
    }
}
