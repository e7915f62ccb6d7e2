//! The incremental parser: it takes a document in chunks, and has the value so far after each.
ghost use Rattle.std.specs.Prelude.{◌≡◌, ◌+◌, ◌-◌, ◌^◌, ◌<◌, ◌≤◌, ◌++◌, [], IsErrAnd, List, MatchResult};
ghost use Rattle.std.specs.Prelude.{OnErr, OnOk, length, take, true, ℕ, flat_map};
ghost use Rattle.jiter_incremental.specs.Words.{past_blanks, MayRefuseAt, AnswersSo, HasReceived};
ghost use Rattle.jiter_incremental.specs.Words.{WouldFinish, received, owned_tree, Parses, view, Settings};

use crate::reader::Reader;
use jiter_scan::errors::Fault;
use jiter_scan::memory::AllocFailed;
use jiter_scan::{JsonError, JsonErrorType, PartialMode};
use jiter_value::parse::settings::Settings;
use jiter_value::value::JsonValue;
use std::alloc::{AllocError, Global};
use std::marker::Model;

fn told(fault: Option<Fault>, value: JsonValue<'static>) -> Result<JsonValue<'static>, JsonError>
    ensures { (p : Settings) → (t : List ℕ) → AnswersSo p t fault (Some (view value.entry))
        → Parses owned_tree ⊥ p.allow_inf_nan p.mode t result }
{
    match fault {
        Some(fault) => Err(JsonError::from(fault)),
        None => Ok(value),
    }
}

/// An incremental parser: takes a JSON document (RFC 8259) in chunks, and has the value so far after each.
///
/// You may cut the document anywhere, even inside a number, an escape or a UTF-8 character. The parser keeps no chunk;
/// the value owns its strings. For line and column numbers, push the same chunks to a [`LineIndex`](crate::LineIndex).
///
/// # Examples
///
/// ```
/// let mut incremental_parser = IncrementalParser::new(alloc, false, PartialMode::TrailingStrings);
/// incremental_parser.push(b"[12, \"a ")?;
/// assert_eq!(rt; incremental_parser.value()?.pointer("/1").and_then(|text| text.as_str()), Some("a "));
/// incremental_parser.push(b"b\"]")?;
/// let value = incremental_parser.finish()?;
/// ```
#[derive(Drop)]
pub struct IncrementalParser {
    root: JsonValue<'static>,
    reader: Reader,
}

impl Model for IncrementalParser {
    ghost use Rattle.std.specs.Prelude.{List, ℕ};
    ghost use Rattle.jiter_incremental.specs.IncrementalParser.{HasReceived, Received, received};
    ghost use Rattle.jiter_value.specs.ValueCode.{codes};

    ghost Value = { Received };

    ghost coded = { Prim.hlevel codes };

    ghost view = { λ a. received a.reader a.root };

    ghost invariant = { λ a. (t : List ℕ) × HasReceived (received a.reader a.root) t };
}

impl IncrementalParser {
    /// Returns a parser that hasn't taken any bytes. Does not allocate.
    ///
    /// `allow_partial` is the mode in which [`value`](IncrementalParser::value) reads the bytes so far. With `allow_inf_nan`,
    /// `NaN`, `Infinity` and `-Infinity` are numbers.
    pub fn new(alloc: Global, allow_inf_nan: bool, allow_partial: PartialMode) -> IncrementalParser
        ensures begun { HasReceived result [] }
        ensures names { result.settings.allow_inf_nan ≡ allow_inf_nan }
        ensures mode { result.settings.mode ≡ allow_partial }
        ensures position { result.position ≡ 0 }
    {
        let settings = Settings {
            allow_inf_nan,
            mode: allow_partial,
        };
        IncrementalParser {
            root: JsonValue::Null,
            reader: Reader::new(alloc, settings),
        }
    }

    /// Takes a chunk: the bytes that follow those so far.
    ///
    /// An error in the bytes isn't an error of this call: `value` and `finish` report it.
    ///
    /// Each call goes down all open containers to the innermost. For 200 of them that takes about a microsecond.
    ///
    /// # Errors
    ///
    /// - `AllocError` if an allocation fails; leading whitespace needs none. The bytes before the failure are taken,
    ///   and [`position`](IncrementalParser::position) counts them. Push the rest of the chunk again.
    /// - `AllocError` if the position would exceed `usize::MAX`; no byte of the chunk is taken
    ///
    /// If you ignore an error and push the next chunk, the bytes between are missing from all later results.
    pub fn push(&mut self, chunk: &[u8]) -> Result<(), AllocError>
        ensures ok { (t : List ℕ) → HasReceived self.old t → OnOk result (HasReceived self.new (t ++ chunk.now)) }
        ensures refused { (t : List ℕ) → HasReceived self.old t → OnErr result
            (HasReceived self.new (t ++ take (self.new.position - self.old.position) chunk.now)) }
        ensures unchanged { 2 ^ 64 ≤ self.old.position + length chunk.now → self.new ≡ self.old }
        ensures fits { OnOk result (self.old.position + length chunk.now < 2 ^ 64) }
        ensures wanted { (t : List ℕ) → HasReceived self.old t → self.old.position + length chunk.now < 2 ^ 64
            → OnErr result (MayRefuseAt (t ++ chunk.now) self.new.position) }
        ensures position { OnOk result (self.new.position ≡ self.old.position + length chunk.now) }
        ensures within { (self.old.position ≤ self.new.position)
            × (self.new.position ≤ self.old.position + length chunk.now) }
        ensures settings { self.new.settings ≡ self.old.settings }
    {
        if self.reader.position().checked_add(chunk.len()).is_none() {
            return Err(AllocError);
        }
        let read = self.reader.read(&mut self.root, chunk);
        self.reader.leave_chunk();
        read?;
        Ok(())
    }

    /// Returns how many bytes were taken, of all chunks.
    pub fn position(&self) -> usize
        ensures position { result ≡ self.now.position }
        ensures counts { (t : List ℕ) → HasReceived self.now t → result ≡ length t }
    {
        self.reader.position()
    }

    /// Returns what [`JsonValue::parse_owned`] returns for all bytes so far, in this parser's mode. Does not allocate.
    ///
    /// # Errors
    ///
    /// - any error of `parse_owned` except `OutOfMemory`; its index counts from the first byte of the first chunk
    pub fn value(&self) -> Result<&JsonValue<'static>, JsonError>
        ensures { (t : List ℕ) → HasReceived self.now t → MatchResult result
            (λ v. Parses owned_tree ⊥ self.now.settings.allow_inf_nan self.now.settings.mode t (Ok v.now))
            (λ e. Parses owned_tree ⊥ self.now.settings.allow_inf_nan self.now.settings.mode t (Err e)) }
    {
        match self.reader.mode_fault(&self.root) {
            Some(fault) => Err(JsonError::from(fault)),
            None => Ok(&self.root),
        }
    }

    /// Returns the error that [`finish`](IncrementalParser::finish) would return now, or `None` if the bytes so far are a complete
    /// document. Does not allocate.
    pub fn error(&self) -> Option<JsonError>
        ensures { (t : List ℕ) → HasReceived self.now t → WouldFinish self.now.settings.allow_inf_nan t result }
    {
        match self.reader.strict_fault(&self.root) {
            Some(fault) => Some(JsonError::from(fault)),
            None => None,
        }
    }

    /// Returns what [`value`](IncrementalParser::value) returns, with the value moved out. Does not allocate.
    ///
    /// # Errors
    ///
    /// - the errors of [`value`](IncrementalParser::value)
    pub fn into_value(self) -> Result<JsonValue<'static>, JsonError>
        ensures { (t : List ℕ) → HasReceived self t
            → Parses owned_tree ⊥ self.settings.allow_inf_nan self.settings.mode t result }
    {
        let IncrementalParser { root, reader } = self;
        told(reader.mode_fault(&root), root)
    }

    /// Returns what [`JsonValue::parse_owned`] returns for all bytes with partial reading off, whatever this parser's
    /// mode is. Does not allocate.
    ///
    /// # Errors
    ///
    /// - any error of `parse_owned` except `OutOfMemory`; its index counts from the first byte of the first chunk
    pub fn finish(self) -> Result<JsonValue<'static>, JsonError>
        ensures { (t : List ℕ) → HasReceived self t
            → Parses owned_tree ⊥ self.settings.allow_inf_nan PartialMode.Off t result }
    {
        let IncrementalParser { root, reader } = self;
        told(reader.strict_fault(&root), root)
    }
}

/// Parses the bytes of all chunks as one document, with partial reading off. The value owns its strings.
///
/// With `allow_inf_nan`, `NaN`, `Infinity` and `-Infinity` are numbers. Indices count over all chunks.
///
/// # Errors
///
/// - any error of [`JsonValue::parse_owned`]
/// - `OutOfMemory` if an allocation fails, only if the chunks hold more than whitespace; its index is the number of
///   bytes taken until then
/// - `OutOfMemory` if the chunks hold more than `usize::MAX` bytes
pub fn parse_chunks(
    alloc: Global,
    chunks: &[&[u8]],
    allow_inf_nan: bool,
) -> Result<JsonValue<'static>, JsonError>
    ensures parses { let t = flat_map (λ chunk. chunk.now) chunks.now in length t < 2 ^ 64
        → Parses owned_tree (past_blanks t 0 < length t) allow_inf_nan PartialMode.Off t result }
    ensures long { 2 ^ 64 ≤ length (flat_map (λ chunk. chunk.now) chunks.now)
        → IsErrAnd result (λ e. e.error_type ≡ JsonErrorType.OutOfMemory) }
{
    let mut incremental_parser = IncrementalParser::new(alloc, allow_inf_nan, PartialMode::Off);
    for chunk in chunks {
        match incremental_parser.push(chunk) {
            Ok(()) => {}
            Err(_) => {
                return Err(JsonError {
                    error_type: JsonErrorType::OutOfMemory,
                    index: incremental_parser.position(),
                });
            }
        }
    }
    incremental_parser.finish()
}
