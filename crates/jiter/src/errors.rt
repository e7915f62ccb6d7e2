//! The errors of the pull reader, and their texts.
ghost use Rattle.std.specs.Prelude.{◌≡◌, Some, IfOk, string_bytes};
ghost use Rattle.jiter.specs.Words.{kind_of, position_of, json_error, is_memory_cause, type_text, cause_text};
ghost use Rattle.jiter.specs.Words.{error_text, error_description, type_of, cause_of};

use crate::jiter::Jiter;
use jiter_scan::errors::{kind_text, push_position};
use jiter_scan::memory::{copy_text, push_text};
use jiter_scan::{AllocFailed, JsonError, JsonErrorType, LinePosition};
use std::alloc::{AllocError, Global};
use std::error::Error;
use std::fmt;

/// The type of a JSON value, as an error names it.
#[derive(Debug, Clone, PartialEq, Eq, Drop)]
pub enum JsonType {
    /// `null`.
    Null,
    /// `true` or `false`.
    Bool,
    /// A number without fraction or exponent.
    Int,
    /// A number with a fraction or an exponent, or a non-finite number.
    Float,
    /// A string.
    String,
    /// An array.
    Array,
    /// An object.
    Object,
}

impl JsonType {
    fn text(&self) -> &'static str
        ensures { result.now ≡ type_text (type_of self.now) }
    {
        match self {
            Self::Null => "null",
            Self::Bool => "bool",
            Self::Int => "int",
            Self::Float => "float",
            Self::String => "string",
            Self::Array => "array",
            Self::Object => "object",
        }
    }
}

impl fmt::Display for JsonType {
    ghost output = { λ name. Some (type_text (type_of name)) };

    // A width in the format doesn't change the text.
    ghost styled_output = { λ name _. Some (type_text (type_of name)) };

    fn fmt<W: fmt::Write>(&self, f: &mut fmt::Formatter<W>) -> fmt::Result {
        f.write_str(self.text())
    }
}

/// Why a call of the pull reader failed.
#[derive(Debug, Clone, PartialEq, Eq, Drop)]
pub enum JiterErrorType {
    /// The bytes have an error, or an allocation failed.
    JsonError(JsonErrorType),
    /// The next value has another type than the one that the call reads.
    WrongType {
        /// The type that the call reads: `Int` for [`Jiter::next_number`], `Float` for [`Jiter::next_number_bytes`].
        expected: JsonType,
        /// The type of the next value.
        actual: JsonType,
    },
}

impl JiterErrorType {
    fn describe(&self, alloc: Global) -> Result<String, AllocFailed>
        ensures { IfOk result (λ text. string_bytes text ≡ cause_text (cause_of self.now)) }
    {
        match self {
            Self::JsonError(kind) => copy_text(alloc, kind_text(kind)),
            Self::WrongType { expected, actual } => {
                let mut text = copy_text(alloc, "expected ")?;
                push_text(&mut text, expected.text())?;
                push_text(&mut text, " but found ")?;
                push_text(&mut text, actual.text())?;
                Ok(text)
            }
        }
    }
}

impl fmt::Display for JiterErrorType {
    ghost output = { λ cause. Some (cause_text (cause_of cause)) };

    fn fmt<W: fmt::Write>(&self, f: &mut fmt::Formatter<W>) -> fmt::Result {
        match self {
            Self::JsonError(kind) => f.write_str(kind_text(kind)),
            Self::WrongType { expected, actual } => {
                write!(f, "expected {expected} but found {actual}")
            }
        }
    }
}

/// The result of a call of the pull reader.
pub type JiterResult<T> = Result<T, JiterError>;

/// An error of the pull reader: its cause and its byte index.
#[derive(Debug, Clone, PartialEq, Eq, Drop)]
pub struct JiterError {
    /// The cause.
    pub error_type: JiterErrorType,
    /// The byte index, from 0 and at most the length.
    pub index: usize,
}

impl fmt::Display for JiterError {
    ghost output = { λ error. Some (error_text (cause_of error.error_type) error.index) };

    fn fmt<W: fmt::Write>(&self, f: &mut fmt::Formatter<W>) -> fmt::Result {
        write!(f, "{} at index {}", self.error_type, self.index)
    }
}

impl Error for JiterError {}

impl From<JsonError> for JiterError {
    ghost from_gives = { λ old new. (cause_of new.error_type ≡ json_error (kind_of old.error_type))
        × (new.index ≡ old.index) };

    fn from(error: JsonError) -> JiterError {
        JiterError {
            error_type: JiterErrorType::JsonError(error.error_type),
            index: error.index,
        }
    }
}

impl JiterError {
    /// Returns whether an allocation failed. Such an error says nothing about the bytes.
    pub fn is_memory(&self) -> bool
        ensures { result ≡ is_memory_cause (cause_of self.now.error_type) }
    {
        matches!(
            &self.error_type,
            JiterErrorType::JsonError(JsonErrorType::OutOfMemory)
        )
    }

    /// Returns the line and column of the error. Pass the reader that returned it, or one of the same bytes.
    pub fn get_position(&self, jiter: &Jiter<'_>) -> LinePosition
        ensures { result ≡ position_of jiter.now.text self.now.index }
    {
        jiter.error_position(self.index)
    }

    /// Returns the error as `CAUSE at line L column C`. Pass the reader that returned it, or one of the same bytes.
    ///
    /// # Errors
    ///
    /// - `AllocError` if an allocation fails
    ///
    /// # Examples
    ///
    /// ```rust
    /// let mut jiter = Jiter::new(b" true");
    /// if let Err(error) = jiter.next_int() {
    ///     let text = error.description(alloc, &jiter)?;
    ///     assert_eq!(rt; text.as_str(), "expected int but found bool at line 1 column 2");
    /// }
    /// ```
    pub fn description(&self, alloc: Global, jiter: &Jiter<'_>) -> Result<String, AllocError>
        ensures { IfOk result (λ text. string_bytes text
            ≡ error_description (cause_of self.now.error_type) self.now.index jiter.now.text) }
    {
        let mut text = self.error_type.describe(alloc)?;
        push_position(&mut text, &self.get_position(jiter))?;
        Ok(text)
    }
}
