//! The pull reader's steps through arrays.
ghost use Rattle.std.specs.Prelude.{◌≡◌, ◌<◌, ◌≤◌, length, option_map};
ghost use Rattle.jiter.specs.Words.{step_of, next, known, array_read, item_reply, item_step, StandsAt};
ghost use Rattle.jiter.specs.Words.{TellsHere, byte_of, Reads, never};
ghost use Rattle.jiter_scan.specs.Ascii as ascii;

use crate::errors::{JiterResult, JsonType};
use crate::jiter::Jiter;
use crate::peek::Peek;
use jiter_steps::parse::ContainerKind;
use jiter_steps::step::{Step, first, known_next, peek_for};

impl<'j> Jiter<'j> {
    // Moves to where a step ended. Returns the item there, or `None` after the array.
    #[inline(always)]
    fn item(&mut self, found: (usize, Step)) -> JiterResult<Option<Peek>>
        requires within { (self.old.position ≤ found.0) × (found.0 ≤ length self.old.text) }
        requires part { found.1 ≡ Step.Part → found.0 < length self.old.text }
        ensures reads { Reads never (option_map byte_of)
            (item_reply self.old.text (step_of found.0 found.1)) result self.old self.new }
        ensures here { TellsHere result self.new }
    {
        match found {
            (at, Step::Part) => {
                self.parser.index = at;
                Ok(Some(Peek::new(self.parser.bytes[at])))
            }
            (at, Step::End) => {
                self.parser.index = at;
                Ok(None)
            }
            (at, Step::Fault(kind)) => self.stop(kind, at),
        }
    }

    /// Steps into the next array and returns the first byte of its first item, or `None` if it is empty (RFC 8259, 5).
    ///
    /// The first byte of an item is not consumed, and it may be any byte except `]`. The closing bracket of an empty
    /// array is consumed.
    ///
    /// # Errors
    ///
    /// - `WrongType` if the next value has another type; a number with an error of its own is reported as that error
    /// - `ExpectedSomeValue` if the next byte begins no value
    /// - `EofWhileParsingValue` if only whitespace is left
    /// - `EofWhileParsingList` if the input ends after the opening bracket
    ///
    /// After `EofWhileParsingList` the reader is at the end, otherwise at the value's first byte (or at the end, if
    /// only whitespace is left).
    ///
    /// # Examples
    ///
    /// ```rust
    /// let mut item = jiter.next_array()?;
    /// while let Some(peek) = item {
    ///     jiter.known_skip(peek)?;
    ///     item = jiter.array_step()?;
    /// }
    /// ```
    #[inline(always)]
    pub fn next_array(&mut self) -> JiterResult<Option<Peek>>
        ensures reads { Reads never (option_map byte_of) (next self.old (array_read self.old))
            result self.old self.new }
        ensures here { TellsHere result self.new }
    {
        match peek_for(self.parser.bytes, self.parser.index, b'[') {
            (at, Some(b'[')) => {
                let found = first(self.parser.bytes, at + 1, ContainerKind::Array);
                self.item(found)
            }
            (at, _) => Err(self.stop_at(JsonType::Array, at)),
        }
    }

    /// Steps into the array that you peeked, as [`Jiter::next_array`] does.
    ///
    /// # Errors
    ///
    /// - `EofWhileParsingList` if the input ends after the opening bracket; the reader is then at the end
    ///
    /// # Requires
    ///
    /// The byte at the reader's position is `[`, as after a peek of [`Peek::Array`]. `rt try` does not test it.
    pub fn known_array(&mut self) -> JiterResult<Option<Peek>>
        requires { StandsAt self.old ascii.left_bracket }
        ensures reads { Reads never (option_map byte_of) (known self.old (array_read self.old))
            result self.old self.new }
        ensures here { TellsHere result self.new }
    {
        self.next_array()
    }

    /// Moves past the comma after an item. Returns the next item's first byte, or `None` at the end (RFC 8259, 5).
    ///
    /// The first byte of an item is not consumed, and it may be any byte except `]`. The closing bracket of the array
    /// is consumed.
    ///
    /// # Errors
    ///
    /// - `ExpectedListCommaOrEnd` if the next byte is neither a comma nor `]`
    /// - `TrailingComma` if `]` follows the comma
    /// - `EofWhileParsingList` if the input ends before a comma or `]`
    /// - `EofWhileParsingValue` if the input ends after the comma
    ///
    /// The reader is then at the error. Don't call it again: in `[1,]` a second call would take the `]` for the end.
    #[inline(always)]
    pub fn array_step(&mut self) -> JiterResult<Option<Peek>>
        ensures reads { Reads never (option_map byte_of) (item_step self.old) result self.old self.new }
        ensures here { TellsHere result self.new }
    {
        let found = known_next(self.parser.bytes, self.parser.index, ContainerKind::Array);
        self.item(found)
    }
}
