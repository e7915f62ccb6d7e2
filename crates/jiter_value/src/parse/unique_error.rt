//! The errors of a parse that rejects duplicate keys, and what they print.
ghost use Rattle.std.specs.Prelude.{◌≡◌, Some, IfOk, OnErr, string_bytes};
ghost use Rattle.jiter_value.specs.Words.{is_memory, kind_text, at_index, description_text, position_of};
ghost use Rattle.jiter_value.specs.Words.{unique_kind, IsDuplicateKey};

use crate::value::quoted::{push_quoted, write_quoted};
use jiter_scan::errors::{kind_text, push_position};
use jiter_scan::memory::{AllocFailed, copy_text, push_text};
use jiter_scan::{JsonError, JsonErrorType, LinePosition};
use std::alloc::{AllocError, Global};
use std::error::Error;
use std::fmt;

/// Why [`crate::JsonValue::parse_unique`] failed.
#[derive(Debug, PartialEq, Eq, Drop)]
pub enum UniqueErrorType {
    /// An error of the bytes other than a duplicate key, or `OutOfMemory`.
    JsonError(JsonErrorType),
    /// A duplicate key, decoded (RFC 8259, 4).
    DuplicateKey(String),
}

/// An error of [`crate::JsonValue::parse_unique`], with its byte index.
///
/// For a duplicate key, that is the index after the key's colon.
#[derive(Debug, PartialEq, Eq, Drop)]
pub struct UniqueError {
    /// Why the call failed.
    pub error_type: UniqueErrorType,
    /// The byte index, from 0 and at most the length.
    pub index: usize,
}

impl UniqueErrorType {
    /// Returns a copy.
    ///
    /// # Errors
    ///
    /// `AllocError` if an allocation fails, only for a `DuplicateKey`.
    pub fn clone(&self, alloc: Global) -> Result<UniqueErrorType, AllocError>
        ensures value { IfOk result (λ copy. unique_kind copy ≡ unique_kind self.now) }
        ensures memory { OnErr result (IsDuplicateKey self.now) }
    {
        match self {
            Self::JsonError(kind) => Ok(Self::JsonError(kind.clone()?)),
            Self::DuplicateKey(key) => Ok(Self::DuplicateKey(copy_text(alloc, key.as_str())?)),
        }
    }

    // As `Display` prints it.
    fn describe(&self, alloc: Global) -> Result<String, AllocFailed>
        ensures { IfOk result (λ text. string_bytes text ≡ kind_text (unique_kind self.now)) }
    {
        match self {
            Self::JsonError(kind) => copy_text(alloc, kind_text(kind)),
            Self::DuplicateKey(key) => {
                let mut text = copy_text(alloc, "Detected duplicate key ")?;
                push_quoted(&mut text, key.as_str())?;
                Ok(text)
            }
        }
    }
}

impl fmt::Display for UniqueErrorType {
    ghost output = { λ cause. Some (kind_text (unique_kind cause)) };

    fn fmt<W: fmt::Write>(&self, f: &mut fmt::Formatter<W>) -> fmt::Result {
        match self {
            Self::JsonError(kind) => f.write_str(kind_text(kind)),
            Self::DuplicateKey(key) => {
                f.write_str("Detected duplicate key ")?;
                write_quoted(f, key.as_str())
            }
        }
    }
}

impl fmt::Display for UniqueError {
    ghost output = { λ error. Some (at_index (kind_text (unique_kind error.error_type)) error.index) };

    fn fmt<W: fmt::Write>(&self, f: &mut fmt::Formatter<W>) -> fmt::Result {
        write!(f, "{} at index {}", self.error_type, self.index)
    }
}

impl Error for UniqueError {}

impl From<JsonError> for UniqueError {
    ghost use Rattle.jiter_value.specs.declared.parse.unique_error.UniqueErrorType.TheVariants as cause;

    ghost from_gives = { λ old new. (new.error_type ≡ cause.JsonError old.error_type)
        × (new.index ≡ old.index) };

    fn from(error: JsonError) -> UniqueError {
        UniqueError {
            error_type: UniqueErrorType::JsonError(error.error_type),
            index: error.index,
        }
    }
}

impl UniqueError {
    /// Returns a copy.
    ///
    /// # Errors
    ///
    /// `AllocError` if an allocation fails, only for a `DuplicateKey`.
    pub fn clone(&self, alloc: Global) -> Result<UniqueError, AllocError>
        ensures kind { IfOk result (λ copy. unique_kind copy.error_type ≡ unique_kind self.now.error_type) }
        ensures index { IfOk result (λ copy. copy.index ≡ self.now.index) }
        ensures memory { OnErr result (IsDuplicateKey self.now.error_type) }
    {
        let error_type = self.error_type.clone(alloc)?;
        Ok(UniqueError {
            error_type,
            index: self.index,
        })
    }

    /// Returns whether the call ran out of memory. If so, the error says nothing about the bytes.
    pub fn is_memory(&self) -> bool
        ensures { result ≡ is_memory (unique_kind self.now.error_type) }
    {
        matches!(
            &self.error_type,
            UniqueErrorType::JsonError(JsonErrorType::OutOfMemory)
        )
    }

    /// Returns the line and column of the error. Pass the bytes that were parsed.
    ///
    /// Lines and columns count from 1, in bytes; the column of a line feed is 0.
    pub fn get_position(&self, bytes: &[u8]) -> LinePosition
        ensures { result ≡ position_of bytes.now self.now.index }
    {
        LinePosition::find(bytes, self.index)
    }

    /// Returns the error in words: `KIND at line L column C`. Pass the bytes that were parsed.
    ///
    /// # Errors
    ///
    /// `AllocError` if an allocation fails.
    pub fn description(&self, alloc: Global, bytes: &[u8]) -> Result<String, AllocError>
        ensures { IfOk result (λ text. string_bytes text
            ≡ description_text (unique_kind self.now.error_type) self.now.index bytes.now) }
    {
        Ok(self.describe(alloc, bytes)?)
    }

    // Fails only if an allocation failed: only that makes an `AllocFailed`, but anyone can make an `AllocError`.
    fn describe(&self, alloc: Global, bytes: &[u8]) -> Result<String, AllocFailed>
        ensures { IfOk result (λ text. string_bytes text
            ≡ description_text (unique_kind self.now.error_type) self.now.index bytes.now) }
    {
        let mut text = self.error_type.describe(alloc)?;
        push_position(&mut text, &self.get_position(bytes))?;
        Ok(text)
    }
}
