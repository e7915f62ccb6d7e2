//! A reader with a position in the bytes. It reads literals, numbers and strings, and goes to where a step ended.
ghost use Rattle.std.specs.Prelude.{◌≡◌, ◌≤◌, ◌<◌, IfOk, None, OnOk, OnErr, true, length};
ghost use Rattle.jiter_steps.specs.Words.{fault_kind, number_at, number_view, Scans, taken, span_of, start_of, step};
ghost use Rattle.jiter_steps.specs.Words.{literal_at, closer_of, begins_part, end_kind_of, comma_kind_of, document_end};
ghost use Rattle.jiter_steps.specs.Words.{scalar_at, WhereRefused, string_at, text_form, text_view, WantsMemory};

use crate::read_error::ReadError;
use crate::string_decoder::string_at;
use crate::whitespace::past_blanks;
use jiter_scan::NumberAny;
use jiter_scan::errors::{Fault, FaultKind, fault_at};
use jiter_scan::number::number_decoder::number_at;
use jiter_scan::word::word_end;
use std::alloc::Global;
use std::borrow::CowStr;

/// How many non-empty containers may be inside one another.
pub const NESTING_LIMIT: usize = 200;

/// A literal (RFC 8259, 3).
#[derive(Clone, Copy, Debug, PartialEq, Eq)]
pub enum Literal {
    Null,
    True,
    False,
}

/// What kind of value a byte begins.
#[derive(Clone, Copy, Debug, PartialEq, Eq)]
pub enum Start {
    Array,
    Object,
    String,
    Number,
    Literal(Literal),
    Nothing,
}

/// Returns what kind of value the byte begins.
#[inline(always)]
pub fn start_of(byte: u8) -> Start
    ensures { result ≡ start_of byte }
{
    match byte {
        b'[' => Start::Array,
        b'{' => Start::Object,
        b'"' => Start::String,
        b'n' => Start::Literal(Literal::Null),
        b't' => Start::Literal(Literal::True),
        b'f' => Start::Literal(Literal::False),
        b'0'..=b'9' | b'-' | b'N' | b'I' => Start::Number,
        _ => Start::Nothing,
    }
}

/// Returns the index after the literal at `from` (RFC 8259, 3). Fails as [`word_end`] does.
pub fn literal_end(bytes: &[u8], from: usize, literal: Literal) -> Result<usize, Fault>
    requires { from ≤ length bytes.now }
    ensures value { Scans (taken tt) result (literal_at bytes.now literal from) }
    ensures end { IfOk result (λ e. (from < e) × (e ≤ length bytes.now)) }
{
    match literal {
        Literal::Null => word_end(bytes, from, b"null"),
        Literal::True => word_end(bytes, from, b"true"),
        Literal::False => word_end(bytes, from, b"false"),
    }
}

/// The kind of an open container. Its methods have all that differs between the steps of arrays and of objects.
#[derive(Clone, Copy, Debug, PartialEq, Eq)]
pub enum ContainerKind {
    /// An array.
    Array,
    /// An object.
    Object,
}

impl ContainerKind {
    /// Returns the closing bracket.
    #[inline(always)]
    pub fn closer(self) -> u8
        ensures { result ≡ closer_of self }
    {
        match self {
            ContainerKind::Array => b']',
            ContainerKind::Object => b'}',
        }
    }

    /// Returns whether the byte can begin a part: for an item any byte except `]`, for a member a quote.
    #[inline(always)]
    pub fn begins_part(self, byte: u8) -> bool
        ensures { result ≡ begins_part self byte }
    {
        match self {
            ContainerKind::Array => byte != b']',
            ContainerKind::Object => byte == b'"',
        }
    }

    /// Returns the error's kind if the input ends after the opening bracket or after a part.
    #[inline(always)]
    pub fn end_kind(self) -> FaultKind
        ensures { fault_kind result ≡ end_kind_of self }
    {
        match self {
            ContainerKind::Array => FaultKind::EofWhileParsingList,
            ContainerKind::Object => FaultKind::EofWhileParsingObject,
        }
    }

    /// Returns the error's kind if a part is followed by neither a comma nor the closing bracket.
    #[inline(always)]
    pub fn comma_kind(self) -> FaultKind
        ensures { fault_kind result ≡ comma_kind_of self }
    {
        match self {
            ContainerKind::Array => FaultKind::ExpectedListCommaOrEnd,
            ContainerKind::Object => FaultKind::ExpectedObjectCommaOrEnd,
        }
    }
}

/// The bytes, and the reader's position in them.
#[derive(Debug, Drop)]
pub struct Parser<'j> {
    /// The bytes that are read.
    pub bytes: &'j [u8],
    /// The byte index of the reader's position, from 0.
    pub index: usize,
    ghost within: { index ≤ length bytes.now },
}

impl<'j> Parser<'j> {
    ghost use Rattle.jiter_steps.specs.Parse.{NeverMovesBack, LeadsTo, Reads, Returns};

    /// Returns a reader at index 0.
    pub fn new(bytes: &'j [u8]) -> Self
        ensures same { result.bytes ≡ bytes.entry }
        ensures begin { result.index ≡ 0 }
    {
        Self { bytes, index: 0 }
    }

    /// Moves to where a step ended. Fails with the error that it found there.
    #[inline(always)]
    pub fn go(&mut self, found: (usize, Option<FaultKind>)) -> Result<(), Fault>
        requires { (self.old.index ≤ found.0) × (found.0 ≤ length self.old.bytes.now) }
        ensures moves { NeverMovesBack self.old self.new }
        ensures value { LeadsTo result self.new.index (span_of found.0 found.1) }
        ensures place { self.new.index ≡ found.0 }
        ensures ok { OnOk result (found.1 ≡ None) }
    {
        let (at, fault) = found;
        self.index = at;
        match fault {
            None => Ok(()),
            Some(kind) => Err(fault_at(kind, at)),
        }
    }

    /// Skips whitespace up to the end of the input. Fails at the first other byte.
    pub fn finish(&mut self) -> Result<(), Fault>
        ensures moves { NeverMovesBack self.old self.new }
        ensures value { LeadsTo result self.new.index
            (step self.old.bytes.now document_end self.old.index) }
    {
        self.index = past_blanks(self.bytes, self.index);
        if self.index < self.bytes.len() {
            return Err(fault_at(FaultKind::TrailingCharacters, self.index));
        }
        Ok(())
    }

    /// Reads the literal at the reader's position (RFC 8259, 3). After an error the reader is where it was.
    #[inline(always)]
    pub fn literal(&mut self, literal: Literal) -> Result<(), Fault>
        ensures moves { NeverMovesBack self.old self.new }
        ensures value { Reads (λ u. u) result self.new.index
            (scalar_at self.old.index (literal_at self.old.bytes.now literal self.old.index)) }
        ensures ahead { OnOk result (self.old.index < self.new.index) }
    {
        self.index = literal_end(self.bytes, self.index, literal)?;
        Ok(())
    }

    /// Reads the number at the reader's position (RFC 8259, 6). After an error the reader is where it was.
    #[inline(always)]
    pub fn number(&mut self, allow_inf_nan: bool) -> Result<NumberAny<'j>, Fault>
        requires { self.old.index < length self.old.bytes.now }
        ensures moves { NeverMovesBack self.old self.new }
        ensures value { Reads number_view result self.new.index
            (scalar_at self.old.index (number_at allow_inf_nan self.old.bytes.now self.old.index)) }
        ensures ahead { OnOk result (self.old.index < self.new.index) }
    {
        let (number, end) = number_at(self.bytes, self.index, allow_inf_nan)?;
        self.index = end;
        Ok(number)
    }

    /// Reads the string whose opening quote is at the reader's position (RFC 8259, 7 and 8.1), as [`string_at`] does.
    /// After an error the reader is where it was.
    #[inline(always)]
    pub fn string(
        &mut self,
        alloc: Global,
        buffer: &mut Vec<u8>,
        partial: bool,
    ) -> Result<CowStr<'j>, ReadError>
        requires { self.old.index < length self.old.bytes.now }
        ensures moves { NeverMovesBack self.old self.new }
        ensures value { Returns text_view result self.new.index (scalar_at self.old.index
            (string_at (text_form partial) self.old.bytes.now self.old.index)) }
        ensures ahead { OnOk result (self.old.index < self.new.index) }
        ensures place { OnErr result (self.new.index ≡ self.old.index) }
        ensures memory { WhereRefused result (WantsMemory self.old.bytes.now self.old.index) }
    {
        let (text, end) = string_at(alloc, buffer, self.bytes, self.index, partial)?;
        self.index = end;
        Ok(text)
    }
}
