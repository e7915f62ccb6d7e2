//! The pull reader: how it is made, its peek and its end, and what all its calls share.
ghost use Rattle.std.specs.Prelude.{◌≡◌, ◌≢◌, ◌<◌, ◌≤◌, Err, MatchResult, Some, None, true, false, length};
ghost use Rattle.std.specs.Prelude.{slice_get, slice_index, ⊤};
ghost use Rattle.jiter.specs.Words.{fault_kind, out_of_memory, json_error, wrong_type, cause_of, type_of};
ghost use Rattle.jiter.specs.Words.{value_place, peek, next, gave, finish, type_refusal, refused, refused_as};
ghost use Rattle.jiter.specs.Words.{with_position, at_start, MovesOn, IsMemory, IsRefusalOf, refusal_view};
ghost use Rattle.jiter.specs.Words.{IsErrorAt, StandsAt, BeginsAs, byte_of, Reads, Stops, never};

use crate::errors::{JiterError, JiterErrorType, JiterResult, JsonType};
use crate::peek::Peek;
use jiter_scan::errors::{Fault, FaultKind, fault_at};
use jiter_scan::number::number_decoder::number_at;
use jiter_scan::word::byte_at;
use jiter_scan::{JsonError, JsonErrorType, NumberAny};
use jiter_steps::parse::{Literal, Parser, Start, start_of};
use jiter_steps::read_error::ReadError;
use jiter_steps::step::{peek, peek_spaced};
use jiter_value::parse::reading::error_at;
use std::alloc::{AllocError, Global};
use std::borrow::CowStr;
use std::marker::Model;

mod arrays;
mod objects;
mod owned_values;
mod position;
mod scalars;
mod skips;
mod texts;
mod values;

/// A pull reader: it reads a document one value or one step at a time, as you ask.
///
/// A `next_` call skips whitespace and reads what comes next. A `known_` call is its `next_` call after a peek: it
/// requires that the byte of the peek is still at the reader's position.
///
/// The reader does not check everything:
///
/// - It keeps no record of which containers are open. Steps in the wrong order can accept bytes that aren't a document.
///   On `[1, "a": 2}`, `next_array`, `next_int`, `next_key`, `next_int`, `next_key` and `finish` all succeed.
/// - Bytes after the value go unseen until you call [`Jiter::finish`].
///
/// # Errors
///
/// After an error the reader is at:
///
/// - the value's first byte, if a scalar fails or the next value has another type; the end if only whitespace is left.
///   So you may try another type.
/// - the key's opening quote, if the string of a key fails
/// - the error itself, if a colon, a step of an array or object, or `finish` fails
/// - for a complete value, the first byte of the scalar or key in it that fails, otherwise the error itself
/// - after `OutOfMemory`, the first byte of the string or key; for a complete value, the error's index, at or after its
///   first byte
///
/// Stop at the first error of a step. After it, further steps can accept bytes that aren't a document.
///
/// # Examples
///
/// ```rust
/// let mut jiter = Jiter::new(br#"{"name": "John Doe", "age": 43}"#);
/// assert_eq!(rt; jiter.next_object(alloc)?, Some("name"));
/// assert_eq!(rt; jiter.next_str(alloc)?, "John Doe");
/// assert_eq!(rt; jiter.next_key(alloc)?, Some("age"));
/// assert_eq!(rt; jiter.next_int()?, NumberInt::Int(43));
/// assert_eq!(rt; jiter.next_key(alloc)?, None);
/// jiter.finish()?;
/// ```
#[derive(Debug, Drop)]
pub struct Jiter<'j> {
    parser: Parser<'j>,
    allow_inf_nan: bool,
    allow_partial_strings: bool,
    // The buffer in which strings are decoded, if one was made.
    tape: Option<Vec<u8>>,
    // The string or key that the last call returned, if the caller borrows it from here.
    text: CowStr<'j>,
}

impl<'j> Model for Jiter<'j> {
    ghost use Rattle.jiter.specs.Reader.{ReaderState};

    ghost Value = { ReaderState };

    ghost view = { λ a. record {
      text = a.parser.bytes.now;
      position = a.parser.index;
      names = a.allow_inf_nan;
      partial_strings = a.allow_partial_strings;
    } };
}

// The clone has the same bytes, position and settings. It gets no tape, so cloning never fails.
impl<'j> Clone for Jiter<'j> {
    ghost is_clone = { λ old new. new ≡ old };

    ghost is_infallible = { λ _. ⊤ };

    fn clone(&self) -> Result<Jiter<'j>, AllocError> {
        let mut jiter = Jiter::new_at(self.parser.bytes, self.parser.index);
        jiter.allow_inf_nan = self.allow_inf_nan;
        jiter.allow_partial_strings = self.allow_partial_strings;
        Ok(jiter)
    }
}

#[cold]
fn refusal(fault: Fault) -> JiterError
    ensures value { refusal_view result ≡ record { cause = json_error (fault_kind fault.kind); index = fault.index } }
    ensures bytes { cause_of result.error_type ≢ json_error out_of_memory }
{
    JiterError::from(JsonError::from(fault))
}

// Out of memory has no index of its own: it gets `index`, the reader's position.
#[cold]
fn refusal_at(error: ReadError, index: usize) -> JiterError
    ensures { IsErrorAt error index result }
{
    JiterError::from(error_at(error, index))
}

fn wrong_type(wanted: JsonType, actual: JsonType, index: usize) -> JiterError
    ensures { refusal_view result ≡ record { cause = wrong_type (type_of wanted) (type_of actual); index = index } }
{
    JiterError {
        error_type: JiterErrorType::WrongType {
            expected: wanted,
            actual,
        },
        index,
    }
}

impl<'j> Jiter<'j> {
    /// Returns a reader at the first byte, with both settings off.
    ///
    /// Does not allocate. The first string that has to be decoded allocates the buffer for it.
    pub fn new(bytes: &'j [u8]) -> Jiter<'j>
        ensures { result ≡ at_start bytes.now }
    {
        Jiter::new_at(bytes, 0)
    }

    /// Returns a reader at the first byte, with both settings off, that decodes strings in the buffer `tape`.
    ///
    /// The bytes in the buffer don't matter. To get it back for the next reader, call [`Jiter::into_tape`].
    pub fn with_tape(bytes: &'j [u8], tape: Vec<u8>) -> Jiter<'j>
        ensures { result ≡ at_start bytes.now }
    {
        let mut jiter = Jiter::new(bytes);
        jiter.tape = Some(tape);
        jiter
    }

    /// Returns a reader at the byte index `index`, with both settings off. Does not allocate.
    ///
    /// # Requires
    ///
    /// `index` is at most the length of the bytes. `rt try` does not test it.
    pub fn new_at(bytes: &'j [u8], index: usize) -> Jiter<'j>
        requires { index ≤ length bytes.now }
        ensures { result ≡ with_position (at_start bytes.now) index }
    {
        Jiter {
            parser: Parser { bytes, index },
            allow_inf_nan: false,
            allow_partial_strings: false,
            tape: None,
            text: CowStr::Borrowed(""),
        }
    }

    /// Returns the buffer for decoded strings, or an empty one if none was made. Does not allocate.
    ///
    /// No promise is made about the bytes in the buffer. Pass it to [`Jiter::with_tape`].
    pub fn into_tape(self, alloc: Global) -> Vec<u8> {
        let Jiter {
            parser: _,
            allow_inf_nan: _,
            allow_partial_strings: _,
            tape,
            text: _,
        } = self;
        match tape {
            Some(tape) => tape,
            None => Vec::new(alloc),
        }
    }

    /// Returns the same reader with `NaN`, `Infinity` and `-Infinity` allowed as numbers.
    pub fn with_allow_inf_nan(self) -> Jiter<'j>
        ensures { result ≡ record self.entry { names = true } }
    {
        let mut jiter = self;
        jiter.allow_inf_nan = true;
        jiter
    }

    /// Returns the same reader with unterminated strings allowed at the end of the input.
    ///
    /// - [`Jiter::next_str`] and [`Jiter::known_str`] return such a string up to its last complete character or escape.
    ///   An incomplete character before a closing quote is left out too.
    /// - [`Jiter::next_bytes`] and [`Jiter::known_bytes`] return its bytes up to the end of the input. If the input
    ///   ends inside an escape, they fail with `EofWhileParsingString`.
    /// - All other calls ignore the setting.
    pub fn with_allow_partial_strings(self) -> Jiter<'j>
        ensures { result ≡ record self.entry { partial_strings = true } }
    {
        let mut jiter = self;
        jiter.allow_partial_strings = true;
        jiter
    }

    /// Moves past whitespace and returns the next byte, whatever it is (RFC 8259, 2).
    ///
    /// The byte is not consumed, so a second peek returns the same.
    ///
    /// # Errors
    ///
    /// - `EofWhileParsingValue` if only whitespace is left; the reader is then at the end
    ///
    /// # Examples
    ///
    /// ```rust
    /// let source = match jiter.peek()? {
    ///     Peek::String => jiter.known_bytes()?,
    ///     peek => jiter.known_number_bytes(peek)?,
    /// };
    /// ```
    #[inline(always)]
    pub fn peek(&mut self) -> JiterResult<Peek>
        ensures reads { Reads never byte_of (peek self.old) result self.old self.new }
        ensures place { self.new.position ≡ value_place self.old }
        ensures here { MatchResult result (λ p. StandsAt self.new (byte_of p))
            (λ _. slice_get self.new.text self.new.position ≡ None) }
    {
        let (at, byte) = peek_spaced(self.parser.bytes, self.parser.index);
        self.parser.index = at;
        match byte {
            None => Err(refusal(fault_at(FaultKind::EofWhileParsingValue, at))),
            Some(byte) => Ok(Peek::new(byte)),
        }
    }

    #[inline(always)]
    fn next_start(&mut self) -> JiterResult<Start>
        ensures reads { Reads never (λ b. b) (next self.old (λ i b. gave b i)) result self.old self.new }
        ensures place { self.new.position ≡ value_place self.old }
        ensures here { MatchResult result (BeginsAs self.new) (λ _. slice_get self.new.text self.new.position ≡ None) }
    {
        let peek = self.peek()?;
        Ok(start_of(peek.into_inner()))
    }

    /// Checks that only whitespace is left, and moves to the end.
    ///
    /// Call it last: otherwise bytes after the value go unseen.
    ///
    /// # Errors
    ///
    /// - `TrailingCharacters` if another byte is left; the reader is then at that byte
    pub fn finish(&mut self) -> JiterResult<()>
        ensures reads { Reads never (λ u. u) (finish self.old) result self.old self.new }
    {
        let (end, byte) = peek(self.parser.bytes, self.parser.index);
        self.parser.index = end;
        match byte {
            None => Ok(()),
            Some(_) => Err(refusal(fault_at(FaultKind::TrailingCharacters, end))),
        }
    }

    /// Returns the error `OutOfMemory` at the reader's position, and leaves the reader there.
    ///
    /// Return it when an allocation of your own fails, such as the copy of a string that the reader returned.
    ///
    /// # Examples
    ///
    /// ```rust
    /// let text = jiter.next_str(alloc)?;
    /// match String::from_str(alloc, text) {
    ///     Ok(copy) => Ok(copy),
    ///     Err(_) => Err(jiter.out_of_memory()),
    /// }
    /// ```
    #[cold]
    pub fn out_of_memory(&self) -> JiterError
        ensures kind { IsMemory result }
        ensures index { result.index ≡ self.now.position }
    {
        JiterError {
            error_type: JiterErrorType::JsonError(JsonErrorType::OutOfMemory),
            index: self.current_index(),
        }
    }

    // A number with an error of its own is reported as that error, and not as another type.
    #[cold]
    fn refused_as(&self, wanted: JsonType, start: Start) -> JiterError
        requires within { self.now.position < length self.now.text }
        ensures value { refusal_view result ≡ type_refusal self.now self.now.position (type_of wanted) start }
        ensures refusal { IsRefusalOf self.now.text result }
    {
        let index = self.parser.index;
        match start {
            Start::Array => wrong_type(wanted, JsonType::Array, index),
            Start::Object => wrong_type(wanted, JsonType::Object, index),
            Start::String => wrong_type(wanted, JsonType::String, index),
            Start::Number => match number_at(self.parser.bytes, index, self.allow_inf_nan) {
                Ok((NumberAny::Int(_), _)) => wrong_type(wanted, JsonType::Int, index),
                Ok((NumberAny::Float(_), _)) => wrong_type(wanted, JsonType::Float, index),
                Err(fault) => refusal(fault),
            },
            Start::Literal(Literal::Null) => wrong_type(wanted, JsonType::Null, index),
            Start::Literal(Literal::True) => wrong_type(wanted, JsonType::Bool, index),
            Start::Literal(Literal::False) => wrong_type(wanted, JsonType::Bool, index),
            Start::Nothing => refusal(fault_at(FaultKind::ExpectedSomeValue, index)),
        }
    }

    // Moves to an error of the bytes and returns it. The result is made here, so that a caller holds no part of it.
    #[cold]
    #[inline(never)]
    fn cold_stop<T: Drop>(&mut self, kind: FaultKind, index: usize) -> JiterResult<T>
        requires { (self.old.position ≤ index) × (index ≤ length self.old.text) }
        ensures { Stops (refused (json_error (fault_kind kind)) index index) result self.old self.new }
    {
        self.parser.index = index;
        Err(refusal(fault_at(kind, index)))
    }

    // A function of its own: otherwise the fast path would reserve stack space for the result of this call.
    #[inline(always)]
    fn stop<T: Drop>(&mut self, kind: FaultKind, index: usize) -> JiterResult<T>
        requires { (self.old.position ≤ index) × (index ≤ length self.old.text) }
        ensures { Stops (refused (json_error (fault_kind kind)) index index) result self.old self.new }
    {
        self.cold_stop(kind, index)
    }

    // Moves to the next value, which is not of the wanted type, or to the end. The byte there is read again: a caller
    // that passed it on would hold it in a register on the fast path.
    #[cold]
    #[inline(never)]
    fn cold_stop_at(&mut self, wanted: JsonType, at: usize) -> JiterError
        requires place { at ≡ value_place self.old }
        requires within { (self.old.position ≤ at) × (at ≤ length self.old.text) }
        ensures { Stops {X = Unit {0}} (next self.old (λ i b. refused_as self.old i (type_of wanted) b)) (Err result)
            self.old self.new }
    {
        self.parser.index = at;
        match byte_at(self.parser.bytes, at) {
            Some(byte) => self.refused_as(wanted, start_of(byte)),
            None => refusal(fault_at(FaultKind::EofWhileParsingValue, at)),
        }
    }

    // The same reason as for `stop`.
    #[inline(always)]
    fn stop_at(&mut self, wanted: JsonType, at: usize) -> JiterError
        requires place { at ≡ value_place self.old }
        requires within { (self.old.position ≤ at) × (at ≤ length self.old.text) }
        ensures { Stops {X = Unit {0}} (next self.old (λ i b. refused_as self.old i (type_of wanted) b)) (Err result)
            self.old self.new }
    {
        self.cold_stop_at(wanted, at)
    }
}
