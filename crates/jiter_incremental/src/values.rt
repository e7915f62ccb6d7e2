//! Begins containers, keys and scalars (RFC 8259, 3 to 7). A scalar or key that is all in the chunk is read at once.
ghost use Rattle.std.specs.Prelude.{◌≡◌, ◌+◌, ◌-◌, ◌^◌, ◌<◌, ◌≤◌, ◌++◌, [], IfOk, OnErr, OnOk, length};
ghost use Rattle.std.specs.Prelude.{slice_index, true, false, string_bytes};
ghost use Rattle.jiter_incremental.specs.Words.{text_of, name_word, AwaitsKey, AwaitsValue, IsHere, IsScalar, KeepsRoom, ReadsAsBefore};
ghost use Rattle.jiter_incremental.specs.Words.{Steps, TakesSeparator, HasRoomAt, quote, number_view, begins_decimal};
ghost use Rattle.jiter_incremental.specs.Words.{is_blank, start_of, nesting_limit, number_tree, HasTaken};
ghost use Rattle.jiter_incremental.specs.Words.{opening, string, owned_text, tree_as, view};
ghost use Rattle.jiter_incremental.specs.declared.reader.Awaits.TheVariants as awaited;
ghost use Rattle.jiter_incremental.specs.declared.reader.Token.TheVariants as token_kind;
ghost use Rattle.jiter_steps.specs.declared.parse.Start.TheVariants as start;

use crate::names::{WordValue, literal_value};
use crate::reader::{Awaits, Reader, Token};
use crate::slot::{empty, reserve_in};
use jiter_scan::errors::FaultKind;
use jiter_scan::memory::{AllocFailed, copy_text};
use jiter_scan::number::number_within::number_within;
use jiter_scan::number::partial_number::begun_at;
use jiter_scan::{NumberAny, NumberInt};
use jiter_steps::fast::fast_literal_end;
use jiter_steps::parse::{ContainerKind, Literal, NESTING_LIMIT, Start, start_of};
use jiter_steps::partial_string::{PartialString, text_within};
use jiter_value::value::JsonValue;
use std::alloc::Global;
use std::borrow::CowStr;

// The source text is copied: the value outlives the chunk.
fn number_value(alloc: Global, number: NumberAny<'_>) -> Result<JsonValue<'static>, AllocFailed>
    ensures { IfOk result (λ v.
        view v ≡ tree_as owned_text (number_tree (number_view number.entry))) }
{
    match number {
        NumberAny::Int(NumberInt::Int(integer)) => Ok(JsonValue::Int(integer)),
        NumberAny::Int(NumberInt::BigInt(text)) => {
            let copy = copy_text(alloc, text)?;
            Ok(JsonValue::BigInt(CowStr::Owned(copy)))
        }
        NumberAny::Float(text) => {
            let copy = copy_text(alloc, text)?;
            Ok(JsonValue::Float(CowStr::Owned(copy)))
        }
    }
}

// Does not allocate.
pub(crate) fn text_value(text: String) -> JsonValue<'static>
    ensures { view result ≡ string (text_of (string_bytes text)) }
{
    JsonValue::Str(CowStr::Owned(text))
}

fn begins_decimal(byte: u8) -> bool
    ensures { result ≡ begins_decimal byte }
{
    matches!(byte, b'-' | b'0'..=b'9')
}

impl Reader {
    pub(crate) fn begin_token(&mut self, token: Token)
        requires { self.old.base + self.old.at < 2 ^ 64 }
        ensures { self.new ≡ record self.old { begin = self.old.base + self.old.at; token = token } }
    {
        self.begin = self.position();
        self.token = token;
    }

    // Takes the separator too that is awaited where a value or a key ended, if the chunk has it at `end` (RFC 8259, 2).
    #[inline(always)]
    pub(crate) fn past_separator(&mut self, chunk: &[u8], end: usize) -> usize
        ensures { TakesSeparator chunk.now end self.old self.new result }
    {
        if end >= chunk.len() || !matches!(self.token, Token::Nothing) {
            return end;
        }
        match self.awaits {
            Awaits::Comma if chunk[end] == b',' => self.awaits = Awaits::Next,
            Awaits::Colon if chunk[end] == b':' => self.awaits = Awaits::Value,
            _ => return end,
        }
        end + 1
    }

    #[inline(always)]
    fn open(
        &mut self,
        slot: &mut JsonValue<'static>,
        level: usize,
        chunk: &[u8],
        kind: ContainerKind,
    ) -> usize
        requires here { IsHere level chunk.now self.old (view slot.old) }
        requires token { self.old.token ≡ token_kind.Nothing }
        requires awaited { AwaitsValue level chunk.now self.old (view slot.old) }
        requires other { is_blank (slice_index chunk.now self.old.at) ≡ false }
        requires space { HasRoomAt level slot.old }
        requires low { level ≤ nesting_limit }
        requires starts { start_of (slice_index chunk.now self.old.at) ≡ opening kind }
        ensures steps { Steps level chunk.now self.old (view slot.old) self.new (view slot.new) result }
        ensures token { self.new.token ≡ token_kind.Nothing }
    {
        self.put(slot, level, empty(self.alloc, kind));
        self.depth += 1;
        self.awaits = Awaits::First;
        1
    }

    fn begin_word(&mut self, name: WordValue)
        requires { self.old.base + self.old.at < 2 ^ 64 }
        ensures is { self.new ≡ record self.old {
          begin = self.old.base + self.old.at;
          token = token_kind.Word;
          awaits = awaited.Value;
          name = name;
          word = self.new.word;
        } }
        ensures word { (self.new.word.word.now ≡ name_word name) × (self.new.word.seen ≡ 1) }
    {
        self.name = name;
        self.word = name.begun();
        self.begin_token(Token::Word);
        self.awaits = Awaits::Value;
    }

    // `start_of` counts `N` and `I` as first bytes of numbers.
    fn begin_float_name(&mut self, slot: &JsonValue<'static>, level: usize, chunk: &[u8]) -> usize
        requires here { IsHere level chunk.now self.old (view slot.now) }
        requires token { self.old.token ≡ token_kind.Nothing }
        requires awaited { AwaitsValue level chunk.now self.old (view slot.now) }
        requires other { is_blank (slice_index chunk.now self.old.at) ≡ false }
        requires low { level ≤ nesting_limit }
        requires starts { start_of (slice_index chunk.now self.old.at) ≡ start.Number }
        requires named { begins_decimal (slice_index chunk.now self.old.at) ≡ false }
        ensures steps { Steps level chunk.now self.old (view slot.now) self.new (view slot.now) result }
        ensures token { ¬ IsScalar self.new.token }
    {
        if !self.settings.allow_inf_nan {
            self.refuse(FaultKind::ExpectedSomeValue, self.position());
        } else if chunk[self.at] == b'N' {
            self.begin_word(WordValue::NaN);
        } else {
            self.begin_word(WordValue::Infinity);
        }
        1
    }

    // The number may be cut by the chunk's end, or invalid.
    #[inline(never)]
    fn begin_number(
        &mut self,
        slot: &JsonValue<'static>,
        level: usize,
        chunk: &[u8],
    ) -> Result<usize, AllocFailed>
        requires here { IsHere level chunk.now self.old (view slot.now) }
        requires token { self.old.token ≡ token_kind.Nothing }
        requires awaited { AwaitsValue level chunk.now self.old (view slot.now) }
        requires other { is_blank (slice_index chunk.now self.old.at) ≡ false }
        requires space { HasRoomAt level slot.now }
        requires low { level ≤ nesting_limit }
        requires begins { begins_decimal (slice_index chunk.now self.old.at) ≡ true }
        ensures steps { IfOk result (λ n. Steps level chunk.now self.old (view slot.now) self.new (view slot.now) n) }
        ensures stays { OnErr result (ReadsAsBefore level chunk.now self.old (view slot.now) self.new (view slot.now)) }
        ensures room { KeepsRoom level self.new slot.now }
    {
        let (stage, end) = begun_at(chunk, self.at);
        self.number.clear();
        self.number.begin(chunk, self.at, stage, end)?;
        self.begin_token(Token::Number);
        self.awaits = Awaits::Value;
        Ok(end - self.at)
    }

    #[inline(never)]
    fn number(
        &mut self,
        slot: &mut JsonValue<'static>,
        level: usize,
        chunk: &[u8],
    ) -> Result<usize, AllocFailed>
        requires here { IsHere level chunk.now self.old (view slot.old) }
        requires token { self.old.token ≡ token_kind.Nothing }
        requires awaited { AwaitsValue level chunk.now self.old (view slot.old) }
        requires other { is_blank (slice_index chunk.now self.old.at) ≡ false }
        requires space { HasRoomAt level slot.old }
        requires low { level ≤ nesting_limit }
        requires begins { begins_decimal (slice_index chunk.now self.old.at) ≡ true }
        ensures steps { IfOk result (λ n. Steps level chunk.now self.old (view slot.old) self.new (view slot.new) n) }
        ensures stays { OnErr result (ReadsAsBefore level chunk.now self.old (view slot.old) self.new (view slot.new)) }
        ensures room { KeepsRoom level self.new slot.new }
    {
        match number_within(chunk, self.at) {
            Some((number, end)) => {
                let value = number_value(self.alloc, number)?;
                self.put(slot, level, value);
                Ok(self.past_separator(chunk, end) - self.at)
            }
            None => self.begin_number(slot, level, chunk),
        }
    }

    pub(crate) fn begin_string(&mut self, token: Token)
        requires { self.old.base + self.old.at < 2 ^ 64 }
        ensures is { self.new ≡ record self.old {
          begin = self.old.base + self.old.at;
          token = token;
          string = self.new.string;
        } }
        ensures string { HasTaken self.new.string [] }
    {
        self.string = PartialString::new(self.alloc);
        self.begin_token(token);
    }

    #[inline(always)]
    fn text(
        &mut self,
        slot: &mut JsonValue<'static>,
        level: usize,
        chunk: &[u8],
    ) -> Result<usize, AllocFailed>
        requires here { IsHere level chunk.now self.old (view slot.old) }
        requires token { self.old.token ≡ token_kind.Nothing }
        requires awaited { AwaitsValue level chunk.now self.old (view slot.old) }
        requires other { is_blank (slice_index chunk.now self.old.at) ≡ false }
        requires space { HasRoomAt level slot.old }
        requires low { level ≤ nesting_limit }
        requires quote { slice_index chunk.now self.old.at ≡ quote }
        ensures steps { IfOk result (λ n. Steps level chunk.now self.old (view slot.old) self.new (view slot.new) n) }
        ensures stays { OnErr result (ReadsAsBefore level chunk.now self.old (view slot.old) self.new (view slot.new)) }
        ensures room { KeepsRoom level self.new slot.new }
    {
        match text_within(self.alloc, &mut self.buffer, chunk, self.at)? {
            Some((text, end)) => {
                self.put(slot, level, text_value(text));
                Ok(self.past_separator(chunk, end) - self.at)
            }
            None => {
                self.begin_string(Token::Text);
                self.awaits = Awaits::Value;
                Ok(1)
            }
        }
    }

    #[inline(always)]
    fn literal(
        &mut self,
        slot: &mut JsonValue<'static>,
        level: usize,
        chunk: &[u8],
        literal: Literal,
    ) -> usize
        requires here { IsHere level chunk.now self.old (view slot.old) }
        requires token { self.old.token ≡ token_kind.Nothing }
        requires awaited { AwaitsValue level chunk.now self.old (view slot.old) }
        requires other { is_blank (slice_index chunk.now self.old.at) ≡ false }
        requires space { HasRoomAt level slot.old }
        requires low { level ≤ nesting_limit }
        requires starts { start_of (slice_index chunk.now self.old.at) ≡ start.Literal literal }
        ensures steps { Steps level chunk.now self.old (view slot.old) self.new (view slot.new) result }
        ensures token { ¬ IsScalar self.new.token }
    {
        match fast_literal_end(chunk, self.at, literal) {
            Some(end) => {
                self.put(slot, level, literal_value(literal));
                self.past_separator(chunk, end) - self.at
            }
            None => {
                self.begin_word(WordValue::Literal(literal));
                1
            }
        }
    }

    /// Takes the first bytes of a value: all of them if it is a scalar that is complete in the chunk.
    ///
    /// The limit is tested where a value begins: an empty container may be one level deeper.
    #[inline(always)]
    pub fn value(
        &mut self,
        slot: &mut JsonValue<'static>,
        level: usize,
        chunk: &[u8],
    ) -> Result<usize, AllocFailed>
        requires here { IsHere level chunk.now self.old (view slot.old) }
        requires token { self.old.token ≡ token_kind.Nothing }
        requires awaited { AwaitsValue level chunk.now self.old (view slot.old) }
        requires other { is_blank (slice_index chunk.now self.old.at) ≡ false }
        ensures steps { IfOk result (λ n. Steps level chunk.now self.old (view slot.old) self.new (view slot.new) n) }
        ensures stays { OnErr result (ReadsAsBefore level chunk.now self.old (view slot.old) self.new (view slot.new)) }
        ensures room { KeepsRoom level self.new slot.new }
    {
        if level > NESTING_LIMIT {
            self.refuse(FaultKind::RecursionLimitExceeded, self.position());
            return Ok(1);
        }
        let byte = chunk[self.at];
        let start = start_of(byte);
        if matches!(start, Start::Nothing) {
            self.refuse(FaultKind::ExpectedSomeValue, self.position());
            return Ok(1);
        }
        reserve_in(slot)?;
        match start {
            Start::String => self.text(slot, level, chunk),
            Start::Number if begins_decimal(byte) => self.number(slot, level, chunk),
            Start::Number => Ok(self.begin_float_name(slot, level, chunk)),
            Start::Literal(literal) => Ok(self.literal(slot, level, chunk, literal)),
            Start::Array => Ok(self.open(slot, level, chunk, ContainerKind::Array)),
            _ => Ok(self.open(slot, level, chunk, ContainerKind::Object)),
        }
    }

    /// Takes a key, with its colon if both are in the chunk; or its opening quote.
    #[inline(always)]
    pub fn key(
        &mut self,
        slot: &JsonValue<'static>,
        level: usize,
        chunk: &[u8],
    ) -> Result<usize, AllocFailed>
        requires here { IsHere level chunk.now self.old (view slot.now) }
        requires token { self.old.token ≡ token_kind.Nothing }
        requires awaited { AwaitsKey level chunk.now self.old (view slot.now) }
        ensures steps { IfOk result (λ n. Steps level chunk.now self.old (view slot.now) self.new (view slot.now) n) }
        ensures stays { OnErr result (ReadsAsBefore level chunk.now self.old (view slot.now) self.new (view slot.now)) }
        ensures token { ¬ IsScalar self.new.token }
    {
        match text_within(self.alloc, &mut self.buffer, chunk, self.at)? {
            Some((text, end)) => {
                self.key = CowStr::Owned(text);
                self.awaits = Awaits::Colon;
                Ok(self.past_separator(chunk, end) - self.at)
            }
            None => {
                self.begin_string(Token::Key);
                self.awaits = Awaits::Colon;
                Ok(1)
            }
        }
    }
}
