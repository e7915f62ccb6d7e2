//! The pull reader's calls for literals and numbers.
ghost use Rattle.std.specs.Prelude.{◌<◌, ◌≤◌, length};
ghost use Rattle.jiter.specs.Words.{number_view, int_view, number_at, seen_as, literal_at, next, known};
ghost use Rattle.jiter.specs.Words.{scalar_reply, null_read, bool_read, number_read, int_read};
ghost use Rattle.jiter.specs.Words.{number_bytes_read, StandsAt, byte_of, Reads, never};
ghost use Rattle.jiter_scan.specs.Ascii as ascii;

use crate::errors::{JiterResult, JsonType};
use crate::jiter::{Jiter, refusal, wrong_type};
use crate::peek::Peek;
use jiter_scan::number::number_decoder::{Integer, int_at};
use jiter_scan::number::number_span::{NUMBER_REACH, padded_number_end};
use jiter_scan::{NumberAny, NumberInt};
use jiter_steps::fast::fast_literal_end;
use jiter_steps::parse::{Literal, Start, literal_end, start_of};
use jiter_steps::step::{peek, peek_for};

impl<'j> Jiter<'j> {
    // Reads the literal at `at` near the end of the input, and finds the error.
    #[cold]
    #[inline(never)]
    fn cold_literal<T: Drop>(&mut self, at: usize, literal: Literal, told: T) -> JiterResult<T>
        requires { (self.old.position ≤ at) × (at < length self.old.text) }
        ensures reads { Reads never (λ x. x)
            (scalar_reply at (seen_as (λ _ _. told) (literal_at self.old.text literal at))) result self.old self.new }
    {
        match literal_end(self.parser.bytes, at, literal) {
            Ok(end) => {
                self.parser.index = end;
                Ok(told)
            }
            Err(fault) => {
                self.parser.index = at;
                Err(refusal(fault))
            }
        }
    }

    // A function of its own: otherwise the fast path would reserve stack space for the result of this call.
    #[inline(always)]
    fn slow_literal<T: Drop>(&mut self, at: usize, literal: Literal, told: T) -> JiterResult<T>
        requires { (self.old.position ≤ at) × (at < length self.old.text) }
        ensures reads { Reads never (λ x. x)
            (scalar_reply at (seen_as (λ _ _. told) (literal_at self.old.text literal at))) result self.old self.new }
    {
        self.cold_literal(at, literal, told)
    }

    // Reads the literal at `at`.
    #[inline(always)]
    fn literal<T: Drop>(&mut self, at: usize, literal: Literal, told: T) -> JiterResult<T>
        requires { (self.old.position ≤ at) × (at < length self.old.text) }
        ensures reads { Reads never (λ x. x)
            (scalar_reply at (seen_as (λ _ _. told) (literal_at self.old.text literal at))) result self.old self.new }
    {
        match fast_literal_end(self.parser.bytes, at, literal) {
            Some(end) => {
                self.parser.index = end;
                Ok(told)
            }
            None => self.slow_literal(at, literal, told),
        }
    }

    #[inline(always)]
    fn number(&mut self) -> JiterResult<NumberAny<'j>>
        requires within { self.old.position < length self.old.text }
        ensures reads { Reads never number_view
            (scalar_reply self.old.position (number_at self.old.names self.old.text self.old.position))
            result self.old self.new }
    {
        self.parser.number(self.allow_inf_nan).map_err(refusal)
    }

    /// Reads `null` (RFC 8259, 3).
    ///
    /// # Errors
    ///
    /// - `WrongType` if the next value has another type; a number with an error of its own is reported as that error
    /// - `ExpectedSomeValue` if the next byte begins no value
    /// - `ExpectedSomeIdent` if a byte after `n` doesn't fit
    /// - `EofWhileParsingValue` if the input ends before the value or inside it
    ///
    /// The reader is then at the value's first byte (or at the end, if only whitespace is left).
    #[inline(always)]
    pub fn next_null(&mut self) -> JiterResult<()>
        ensures reads { Reads never (λ u. u) (next self.old (null_read self.old)) result self.old self.new }
    {
        match peek_for(self.parser.bytes, self.parser.index, b'n') {
            (at, Some(b'n')) => self.literal(at, Literal::Null, ()),
            (at, _) => Err(self.stop_at(JsonType::Null, at)),
        }
    }

    /// Reads the `null` that you peeked, as [`Jiter::next_null`] does.
    ///
    /// # Errors
    ///
    /// - `ExpectedSomeIdent` if a byte after `n` doesn't fit
    /// - `EofWhileParsingValue` if the input ends inside `null`
    ///
    /// The reader then stays at the `n`.
    ///
    /// # Requires
    ///
    /// The byte at the reader's position is `n`, as after a peek of [`Peek::Null`]. `rt try` does not test it.
    pub fn known_null(&mut self) -> JiterResult<()>
        requires { StandsAt self.old ascii.small_n }
        ensures reads { Reads never (λ u. u) (known self.old (null_read self.old)) result self.old self.new }
    {
        self.next_null()
    }

    /// Reads `true` or `false` (RFC 8259, 3).
    ///
    /// # Errors
    ///
    /// - `WrongType` if the next value has another type; a number with an error of its own is reported as that error
    /// - `ExpectedSomeValue` if the next byte begins no value
    /// - `ExpectedSomeIdent` if a byte after `t` or `f` doesn't fit
    /// - `EofWhileParsingValue` if the input ends before the value or inside it
    ///
    /// The reader is then at the value's first byte (or at the end, if only whitespace is left).
    #[inline(always)]
    pub fn next_bool(&mut self) -> JiterResult<bool>
        ensures reads { Reads never (λ b. b) (next self.old (bool_read self.old)) result self.old self.new }
    {
        match peek_for(self.parser.bytes, self.parser.index, b't') {
            (at, Some(b't')) => self.literal(at, Literal::True, true),
            (at, Some(b'f')) => self.literal(at, Literal::False, false),
            (at, _) => Err(self.stop_at(JsonType::Bool, at)),
        }
    }

    /// Reads the `true` or `false` that you peeked, as [`Jiter::next_bool`] does.
    ///
    /// # Errors
    ///
    /// - the errors of [`Jiter::next_bool`]; the reader then stays where it is
    ///
    /// # Requires
    ///
    /// The byte of `peek` is at the reader's position, as after the call that returned it. `rt try` does not test it.
    pub fn known_bool(&mut self, peek: Peek) -> JiterResult<bool>
        requires { StandsAt self.old (byte_of peek) }
        ensures reads { Reads never (λ b. b) (known self.old (bool_read self.old)) result self.old self.new }
    {
        if peek.into_inner() > b' ' {
            self.next_bool()
        } else {
            Err(self.refused_as(JsonType::Bool, Start::Nothing))
        }
    }

    /// Reads a number (RFC 8259, 6).
    ///
    /// An integer beyond `i64`, or a float, is returned as its source text, borrowed from the document.
    ///
    /// # Errors
    ///
    /// - `WrongType` if the next value is not a number
    /// - `ExpectedSomeValue` if the next byte begins no value; also for `NaN` and `Infinity`, unless they are allowed
    /// - `InvalidNumber` if a byte doesn't fit, as in `01`, `1.x` and `-x`; also for `-Infinity`, unless it is allowed
    /// - `ExpectedSomeIdent` if non-finite numbers are allowed and a byte of one doesn't fit
    /// - `NumberOutOfRange` if the integer part has more than 4,300 digits
    /// - `EofWhileParsingValue` if the input ends before the number or inside it
    ///
    /// The reader is then at the value's first byte (or at the end, if only whitespace is left).
    pub fn next_number(&mut self) -> JiterResult<NumberAny<'j>>
        ensures reads { Reads never number_view (next self.old (number_read self.old)) result self.old self.new }
    {
        let peek = self.peek()?;
        self.known_number(peek)
    }

    /// Reads the number that you peeked, as [`Jiter::next_number`] does.
    ///
    /// # Errors
    ///
    /// - the errors of [`Jiter::next_number`]; the reader then stays where it is
    ///
    /// # Requires
    ///
    /// The byte of `peek` is at the reader's position, as after the call that returned it. `rt try` does not test it.
    pub fn known_number(&mut self, peek: Peek) -> JiterResult<NumberAny<'j>>
        requires { StandsAt self.old (byte_of peek) }
        ensures reads { Reads never number_view (known self.old (number_read self.old)) result self.old self.new }
    {
        let start = start_of(peek.into_inner());
        match start {
            Start::Number => self.number(),
            _ => Err(self.refused_as(JsonType::Int, start)),
        }
    }

    /// Reads an integer (RFC 8259, 6).
    ///
    /// An integer beyond `i64` is returned as its source text, borrowed from the document.
    ///
    /// # Errors
    ///
    /// - `WrongType` if the next value is not a number
    /// - `WrongType` if it is a float: `.`, `e` or `E` follows the integer part, or it begins with `N`, `I` or `-I`
    /// - `ExpectedSomeValue` if the next byte begins no value
    /// - `InvalidNumber` if a byte doesn't fit, as in `01` and `-x`
    /// - `NumberOutOfRange` if the integer has more than 4,300 digits
    /// - `EofWhileParsingValue` if the input ends before the integer or inside it
    ///
    /// What follows in a float is not read, and the setting for non-finite numbers doesn't matter.
    ///
    /// The reader is then at the value's first byte (or at the end, if only whitespace is left).
    pub fn next_int(&mut self) -> JiterResult<NumberInt<'j>>
        ensures reads { Reads never int_view (next self.old (int_read self.old)) result self.old self.new }
    {
        let (at, byte) = peek(self.parser.bytes, self.parser.index);
        let Some(Start::Number) = byte.map(start_of) else {
            return Err(self.stop_at(JsonType::Int, at));
        };
        self.parser.index = at;
        match int_at(self.parser.bytes, at) {
            Ok((Integer::Whole(number), end)) => {
                self.parser.index = end;
                Ok(number)
            }
            Ok((Integer::FloatSeen, _)) => Err(wrong_type(JsonType::Int, JsonType::Float, at)),
            Err(fault) => Err(refusal(fault)),
        }
    }

    /// Reads the integer that you peeked, as [`Jiter::next_int`] does.
    ///
    /// # Errors
    ///
    /// - the errors of [`Jiter::next_int`]; the reader then stays where it is
    ///
    /// # Requires
    ///
    /// The byte of `peek` is at the reader's position, as after the call that returned it. `rt try` does not test it.
    pub fn known_int(&mut self, peek: Peek) -> JiterResult<NumberInt<'j>>
        requires { StandsAt self.old (byte_of peek) }
        ensures reads { Reads never int_view (known self.old (int_read self.old)) result self.old self.new }
    {
        if peek.into_inner() > b' ' {
            self.next_int()
        } else {
            Err(self.refused_as(JsonType::Int, Start::Nothing))
        }
    }

    // Reads what the fast path can't, and finds the error.
    #[cold]
    #[inline(never)]
    fn cold_number_bytes(&mut self) -> JiterResult<&'j [u8]>
        ensures reads { Reads never (λ b. b.now) (next self.old (number_bytes_read self.old)) result self.old self.new }
    {
        let start = self.next_start()?;
        let index = self.parser.index;
        match start {
            Start::Number => {
                self.number()?;
                Ok(self.slice_to_current(index))
            }
            _ => Err(self.refused_as(JsonType::Float, start)),
        }
    }

    // A function of its own: otherwise the fast path would reserve stack space for the result of this call.
    #[inline(always)]
    fn slow_number_bytes(&mut self) -> JiterResult<&'j [u8]>
        ensures reads { Reads never (λ b. b.now) (next self.old (number_bytes_read self.old)) result self.old self.new }
    {
        self.cold_number_bytes()
    }

    /// Reads a number and returns its source bytes, borrowed from the document (RFC 8259, 6).
    ///
    /// # Errors
    ///
    /// - the errors of [`Jiter::next_number`]; the type that a `WrongType` expects is `Float` here
    ///
    /// The reader is then at the value's first byte (or at the end, if only whitespace is left).
    #[inline(always)]
    pub fn next_number_bytes(&mut self) -> JiterResult<&'j [u8]>
        ensures reads { Reads never (λ b. b.now) (next self.old (number_bytes_read self.old)) result self.old self.new }
    {
        let (bytes, at) = (self.parser.bytes, self.parser.index);
        if at + NUMBER_REACH <= bytes.len() {
            if let Some(end) = padded_number_end(bytes, at) {
                self.parser.index = end;
                return Ok(&bytes[at..end]);
            }
        }
        self.slow_number_bytes()
    }

    /// Reads the number that you peeked and returns its source bytes, as [`Jiter::next_number_bytes`] does.
    ///
    /// # Errors
    ///
    /// - the errors of [`Jiter::next_number_bytes`]; the reader then stays where it is
    ///
    /// # Requires
    ///
    /// The byte of `peek` is at the reader's position, as after the call that returned it. `rt try` does not test it.
    pub fn known_number_bytes(&mut self, peek: Peek) -> JiterResult<&'j [u8]>
        requires { StandsAt self.old (byte_of peek) }
        ensures reads { Reads never (λ b. b.now) (known self.old (number_bytes_read self.old))
            result self.old self.new }
    {
        if peek.into_inner() > b' ' {
            self.next_number_bytes()
        } else {
            Err(self.refused_as(JsonType::Float, Start::Nothing))
        }
    }
}
