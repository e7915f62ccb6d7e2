//! The kinds of error, an error's position, and their texts.
ghost use Rattle.std.specs.Prelude.{◌≡◌, ◌++◌, Some, IfOk, OnOk, codes, string_bytes};
ghost use Rattle.jiter_scan.specs.Words.{kind_of, fault_kind, kind_text, is_memory, at_index, position_of};
ghost use Rattle.jiter_scan.specs.Words.{position_text, short_text, description_text};

use crate::memory::{AllocFailed, copy_text, push_number, push_text};
use std::alloc::{AllocError, Global};
use std::error::Error;
use std::fmt;

/// The kind of a [`JsonError`]: what is wrong with the bytes, or that an allocation failed.
#[derive(Debug, Clone, PartialEq, Eq, Drop)]
pub enum JsonErrorType {
    /// A float where an integer is expected. No call returns it.
    FloatExpectingInt,
    /// The input ends inside an array, after its `[` or after an item.
    EofWhileParsingList,
    /// The input ends inside an object, after its `{`, a key or a member.
    EofWhileParsingObject,
    /// The input ends inside a string.
    EofWhileParsingString,
    /// The input ends where a value must begin, after a comma, or inside a literal or a number.
    EofWhileParsingValue,
    /// A key is followed by a byte other than a colon (RFC 8259, 4).
    ExpectedColon,
    /// An item is followed by a byte other than a comma or `]` (RFC 8259, 5).
    ExpectedListCommaOrEnd,
    /// A member is followed by a byte other than a comma or `}` (RFC 8259, 4).
    ExpectedObjectCommaOrEnd,
    /// A byte is wrong in a literal, or in an allowed `NaN` or `Infinity` (RFC 8259, 3).
    ExpectedSomeIdent,
    /// A byte begins no value (RFC 8259, 3). `N` and `I` begin one only if non-finite numbers are allowed.
    ExpectedSomeValue,
    /// A backslash is followed by a byte that is no escape, or `\u` by a byte that is no hex digit (RFC 8259, 7).
    InvalidEscape,
    /// A byte does not fit in a number (RFC 8259, 6).
    InvalidNumber,
    /// A number has more than 4300 digits in its integer part.
    NumberOutOfRange,
    /// A string is not UTF-8 (RFC 8259, 8.1). The index counts decoded bytes after the opening quote.
    InvalidUnicodeCodePoint,
    /// A string has a byte below 20 hex (RFC 8259, 7).
    ControlCharacterWhileParsingString,
    /// A byte other than a quote is where a key must begin (RFC 8259, 4).
    KeyMustBeAString,
    /// The escape of a low surrogate has no high one before it. Or `\u` follows a high one, but spells no low one.
    LoneLeadingSurrogateInHexEscape,
    /// A comma is followed by a closing bracket (RFC 8259, 4 and 5).
    TrailingComma,
    /// The value is followed by a byte that is not whitespace (RFC 8259, 2).
    TrailingCharacters,
    /// The escape of a high surrogate is not followed by `\u`.
    UnexpectedEndOfHexEscape,
    /// More than 200 non-empty containers are inside one another.
    RecursionLimitExceeded,
    /// An allocation failed. It says nothing about the bytes.
    OutOfMemory,
}

/// Returns the text that a kind prints.
pub fn kind_text(kind: &JsonErrorType) -> &'static str
    ensures { result.now ≡ kind_text (kind_of kind.now) }
{
    match kind {
        JsonErrorType::FloatExpectingInt => "float value was found where an int was expected",
        JsonErrorType::EofWhileParsingList => "EOF while parsing a list",
        JsonErrorType::EofWhileParsingObject => "EOF while parsing an object",
        JsonErrorType::EofWhileParsingString => "EOF while parsing a string",
        JsonErrorType::EofWhileParsingValue => "EOF while parsing a value",
        JsonErrorType::ExpectedColon => "expected `:`",
        JsonErrorType::ExpectedListCommaOrEnd => "expected `,` or `]`",
        JsonErrorType::ExpectedObjectCommaOrEnd => "expected `,` or `}`",
        JsonErrorType::ExpectedSomeIdent => "expected ident",
        JsonErrorType::ExpectedSomeValue => "expected value",
        JsonErrorType::InvalidEscape => "invalid escape",
        JsonErrorType::InvalidNumber => "invalid number",
        JsonErrorType::NumberOutOfRange => "number out of range",
        JsonErrorType::InvalidUnicodeCodePoint => "invalid unicode code point",
        JsonErrorType::ControlCharacterWhileParsingString =>
            "control character (\\u0000-\\u001F) found while parsing a string",
        JsonErrorType::KeyMustBeAString => "key must be a string",
        JsonErrorType::LoneLeadingSurrogateInHexEscape => "lone leading surrogate in hex escape",
        JsonErrorType::TrailingComma => "trailing comma",
        JsonErrorType::TrailingCharacters => "trailing characters",
        JsonErrorType::UnexpectedEndOfHexEscape => "unexpected end of hex escape",
        JsonErrorType::RecursionLimitExceeded => "recursion limit exceeded",
        JsonErrorType::OutOfMemory => "out of memory",
    }
}

impl fmt::Display for JsonErrorType {
    ghost output = { λ kind. Some (kind_text (kind_of kind)) };

    // A width changes nothing: the text is never padded.
    ghost styled_output = { λ kind _. Some (kind_text (kind_of kind)) };

    fn fmt<W: fmt::Write>(&self, f: &mut fmt::Formatter<W>) -> fmt::Result {
        f.write_str(kind_text(self))
    }
}

/// The result of reading JSON.
pub type JsonResult<T> = Result<T, JsonError>;

/// An error: its kind and its byte index. It prints as `KIND at index N`.
#[derive(Debug, Clone, PartialEq, Eq, Drop)]
pub struct JsonError {
    /// The kind.
    pub error_type: JsonErrorType,
    /// The byte index, from 0 and at most the length.
    pub index: usize,
}

impl fmt::Display for JsonError {
    ghost output = { λ error. Some (at_index (kind_text (kind_of error.error_type)) error.index) };

    fn fmt<W: fmt::Write>(&self, f: &mut fmt::Formatter<W>) -> fmt::Result {
        write!(f, "{} at index {}", self.error_type, self.index)
    }
}

impl Error for JsonError {}

/// A kind of error that the bytes can cause.
///
/// Each variant has the meaning of its namesake in [`JsonErrorType`]. `FloatExpectingInt` and `OutOfMemory` have none.
#[derive(Debug, Clone, Copy, PartialEq, Eq)]
pub enum FaultKind {
    EofWhileParsingList,
    EofWhileParsingObject,
    EofWhileParsingString,
    EofWhileParsingValue,
    ExpectedColon,
    ExpectedListCommaOrEnd,
    ExpectedObjectCommaOrEnd,
    ExpectedSomeIdent,
    ExpectedSomeValue,
    InvalidEscape,
    InvalidNumber,
    NumberOutOfRange,
    InvalidUnicodeCodePoint,
    ControlCharacterWhileParsingString,
    KeyMustBeAString,
    LoneLeadingSurrogateInHexEscape,
    TrailingComma,
    TrailingCharacters,
    UnexpectedEndOfHexEscape,
    RecursionLimitExceeded,
}

impl From<FaultKind> for JsonErrorType {
    ghost from_gives = { λ kind error_type. kind_of error_type ≡ fault_kind kind };

    fn from(kind: FaultKind) -> JsonErrorType {
        match kind {
            FaultKind::EofWhileParsingList => JsonErrorType::EofWhileParsingList,
            FaultKind::EofWhileParsingObject => JsonErrorType::EofWhileParsingObject,
            FaultKind::EofWhileParsingString => JsonErrorType::EofWhileParsingString,
            FaultKind::EofWhileParsingValue => JsonErrorType::EofWhileParsingValue,
            FaultKind::ExpectedColon => JsonErrorType::ExpectedColon,
            FaultKind::ExpectedListCommaOrEnd => JsonErrorType::ExpectedListCommaOrEnd,
            FaultKind::ExpectedObjectCommaOrEnd => JsonErrorType::ExpectedObjectCommaOrEnd,
            FaultKind::ExpectedSomeIdent => JsonErrorType::ExpectedSomeIdent,
            FaultKind::ExpectedSomeValue => JsonErrorType::ExpectedSomeValue,
            FaultKind::InvalidEscape => JsonErrorType::InvalidEscape,
            FaultKind::InvalidNumber => JsonErrorType::InvalidNumber,
            FaultKind::NumberOutOfRange => JsonErrorType::NumberOutOfRange,
            FaultKind::InvalidUnicodeCodePoint => JsonErrorType::InvalidUnicodeCodePoint,
            FaultKind::ControlCharacterWhileParsingString =>
                JsonErrorType::ControlCharacterWhileParsingString,
            FaultKind::KeyMustBeAString => JsonErrorType::KeyMustBeAString,
            FaultKind::LoneLeadingSurrogateInHexEscape =>
                JsonErrorType::LoneLeadingSurrogateInHexEscape,
            FaultKind::TrailingComma => JsonErrorType::TrailingComma,
            FaultKind::TrailingCharacters => JsonErrorType::TrailingCharacters,
            FaultKind::UnexpectedEndOfHexEscape => JsonErrorType::UnexpectedEndOfHexEscape,
            FaultKind::RecursionLimitExceeded => JsonErrorType::RecursionLimitExceeded,
        }
    }
}

/// An error of the bytes: its kind and its byte index.
#[derive(Debug, Clone, Copy, PartialEq, Eq)]
pub struct Fault {
    /// The kind.
    pub kind: FaultKind,
    /// The byte index, from 0 and at most the length.
    pub index: usize,
}

/// Returns the error of this kind at this byte index.
pub fn fault_at(kind: FaultKind, index: usize) -> Fault
    ensures { result ≡ record { kind = kind; index = index } }
{
    Fault { kind, index }
}

impl From<Fault> for JsonError {
    ghost from_gives = { λ fault error. (kind_of error.error_type ≡ fault_kind fault.kind)
        × (error.index ≡ fault.index) };

    fn from(fault: Fault) -> JsonError {
        JsonError {
            error_type: JsonErrorType::from(fault.kind),
            index: fault.index,
        }
    }
}

impl JsonError {
    /// Returns whether an allocation failed. Otherwise the bytes have an error.
    pub fn is_memory(&self) -> bool
        ensures { result ≡ is_memory (kind_of self.now.error_type) }
    {
        matches!(&self.error_type, JsonErrorType::OutOfMemory)
    }

    /// Returns the line and column of the error in `bytes`, which are the bytes that were parsed.
    pub fn get_position(&self, bytes: &[u8]) -> LinePosition
        ensures { result ≡ position_of bytes.now self.now.index }
    {
        LinePosition::find(bytes, self.index)
    }

    /// Returns `KIND at line L column C`, for the bytes that were parsed.
    ///
    /// # Errors
    ///
    /// - `AllocError`, only if an allocation fails
    ///
    /// # Examples
    ///
    /// ```
    /// let error = JsonError { error_type: JsonErrorType::TrailingComma, index: 3 };
    /// let text = error.description(alloc, b"[1,]")?;
    /// assert_eq!(rt; text.as_str(), "trailing comma at line 1 column 4");
    /// ```
    pub fn description(&self, alloc: Global, bytes: &[u8]) -> Result<String, AllocError>
        ensures { IfOk result (λ text. string_bytes text
            ≡ description_text (kind_of self.now.error_type) self.now.index bytes.now) }
    {
        Ok(self.describe(alloc, bytes)?)
    }

    // Fails only if an allocation failed: the error is the evidence, from which the public call makes an `AllocError`.
    fn describe(&self, alloc: Global, bytes: &[u8]) -> Result<String, AllocFailed>
        ensures { IfOk result (λ text. string_bytes text
            ≡ description_text (kind_of self.now.error_type) self.now.index bytes.now) }
    {
        let position = self.get_position(bytes);
        let mut text = copy_text(alloc, kind_text(&self.error_type))?;
        push_position(&mut text, &position)?;
        Ok(text)
    }
}

/// Appends ` at line L column C` to a string. Fails only if an allocation fails.
pub fn push_position(text: &mut String, position: &LinePosition) -> Result<(), AllocFailed>
    ensures { OnOk result (string_bytes text.new
        ≡ string_bytes text.old ++ (codes " at " ++ position_text position.now)) }
{
    push_text(text, " at line ")?;
    push_number(text, position.line)?;
    push_text(text, " column ")?;
    push_number(text, position.column)
}

/// A line and a column. It prints as `line L column C`.
///
/// Lines count from 1. A column counts the bytes after the last line feed: a line's first byte has column 1. A line
/// feed itself has column 0 of the line that it begins.
#[derive(Debug, Clone, PartialEq, Eq, Drop)]
pub struct LinePosition {
    /// The line, from 1.
    pub line: usize,
    /// The column, from 1; it is 0 for a line feed and for empty bytes.
    pub column: usize,
}

impl fmt::Display for LinePosition {
    ghost output = { λ p. Some (position_text p) };

    fn fmt<W: fmt::Write>(&self, f: &mut fmt::Formatter<W>) -> fmt::Result {
        write!(f, "line {} column {}", self.line, self.column)
    }
}

impl LinePosition {
    /// Returns the position with this line and column.
    pub fn new(line: usize, column: usize) -> Self
        ensures { result ≡ record { line = line; column = column } }
    {
        Self { line, column }
    }

    /// Returns `L:C`, the line and the column.
    ///
    /// # Errors
    ///
    /// - `AllocError`, only if an allocation fails
    pub fn short(&self, alloc: Global) -> Result<String, AllocError>
        ensures { IfOk result (λ text. string_bytes text ≡ short_text self.now) }
    {
        Ok(self.shorten(alloc)?)
    }

    fn shorten(&self, alloc: Global) -> Result<String, AllocFailed>
        ensures { IfOk result (λ text. string_bytes text ≡ short_text self.now) }
    {
        let mut text = copy_text(alloc, "")?;
        push_number(&mut text, self.line)?;
        push_text(&mut text, ":")?;
        push_number(&mut text, self.column)?;
        Ok(text)
    }

    /// Returns the line and column of a byte index. An index at or past the length gives those of the last byte.
    ///
    /// # Examples
    ///
    /// ```
    /// let position = LinePosition::find(b"[1,\n 2,]", 7);
    /// assert_eq!(rt; position, LinePosition::new(2, 4));
    /// ```
    pub fn find(bytes: &[u8], index: usize) -> Self
        ensures { result ≡ position_of bytes.now index }
    {
        let prefix = if index < bytes.len() {
            &bytes[..=index]
        } else {
            bytes
        };
        let mut line = 1;
        let mut column = 0;
        for byte in prefix {
            if *byte == b'\n' {
                line += 1;
                column = 0;
            } else {
                column += 1;
            }
        }
        Self { line, column }
    }
}
