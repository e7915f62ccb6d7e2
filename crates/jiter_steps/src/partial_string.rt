//! Strings in chunks (RFC 8259, 7 and 8.1). A chunk may end anywhere, also inside a character or an escape. A string
//! that is complete in its chunk is read by `text_within`.
ghost use Rattle.std.specs.Prelude.{◌≡◌, ◌+◌, ◌<◌, ◌≤◌, [], IfOk, IfSome, List, None, OnErr, OnOk, Some};
ghost use Rattle.std.specs.Prelude.{length, ◌++◌, ◌||◌, is_some, false, not, slice_get, slice_index};
ghost use Rattle.std.specs.Prelude.{slice_range, string_bytes, take, true, ℕ};
ghost use Rattle.jiter_steps.specs.Words.{eof_string, IsLook, Pass, is_plain, is_stop, is_plain_ascii, scan_stop};
ghost use Rattle.jiter_steps.specs.Words.{failed, GoesOnWith, HasTaken, HasTakenFrom, IsCountAt, IsEven, IsPart};
ghost use Rattle.jiter_steps.specs.Words.{IsTextWithin, Wherever, grown, text_or, IsWhole, with_text};
ghost use Rattle.jiter_steps.specs.Words.{content_at, kept, text_form, whole};
ghost use Rattle.jiter_scan.specs.Ascii as ascii;

use crate::escape::{StringEnd, StringEvent, next_event};
use crate::partial_escape::{EscapeStep, PartialEscape};
use crate::partial_text::{MOST_MISSING, PartialText};
use crate::read_error::ReadError;
use crate::string_decoder::{checked_text, decode};
use jiter_scan::bytes::short_scan::{Look, look_at};
use jiter_scan::bytes::simd::{scan_string, string_stop};
use jiter_scan::errors::FaultKind;
use jiter_scan::memory::{AllocFailed, copy_text};
use jiter_scan::text::utf8_text;
use std::alloc::Global;

/// What the next bytes are to a string.
#[derive(Clone, Copy, Debug, PartialEq, Eq)]
pub enum StringStep {
    /// This many of them were taken.
    Taken(usize),
    /// The first one is the closing quote.
    Quote,
    /// An error: its kind, and how many bytes its index is before the first of them.
    Wrong(FaultKind, usize),
}

/// A string whose opening quote was read, but not its closing one.
#[derive(Drop)]
pub struct PartialString {
    text: PartialText,
    escape: Option<PartialEscape>,
}

fn plain_run(chunk: &[u8], at: usize, most: usize) -> &[u8]
    requires within { at < length chunk.now }
    requires most { 0 < most }
    requires plain { is_plain (slice_index chunk.now at) ≡ true }
    ensures plain { Pass is_plain result.now }
    ensures is { result.now ≡ slice_range chunk.now at (at + length result.now) }
    ensures some { 0 < length result.now }
    ensures within { at + length result.now ≤ length chunk.now }
{
    let near = &chunk[..at + (chunk.len() - at).min(most)];
    &near[at..string_stop(near, at)]
}

// Whether a quote ends the string in the chunk. So a string that is cut isn't decoded twice.
fn is_closed(chunk: &[u8], stop: usize) -> bool
    requires { stop ≤ length chunk.now }
{
    let mut at = stop;
    while at < chunk.len() && chunk[at] == b'\\' {
        at = string_stop(chunk, chunk.len().min(at + 2));
    }
    at < chunk.len() && chunk[at] == b'"'
}

#[inline(never)]
fn decoded_within(
    alloc: Global,
    buffer: &mut Vec<u8>,
    chunk: &[u8],
    at: usize,
    stop: usize,
    low: bool,
) -> Result<Option<(String, usize)>, AllocFailed>
    requires first { slice_get chunk.now at ≡ Some ascii.quote }
    requires stop { stop ≡ scan_stop chunk.now (at + 1) }
    requires escaped { IsLook chunk.now (at + 1) stop (Look.Escaped low) }
    ensures { IfOk result (λ found. IfSome found (λ x. IsTextWithin chunk.now at (string_bytes x.0) x.1)) }
{
    match decode(buffer, chunk, at, stop, low, false) {
        Ok((count, end)) => {
            let text = utf8_text(&buffer.as_slice()[..count]);
            Ok(Some((copy_text(alloc, text)?, end)))
        }
        Err(ReadError::Memory(refused)) => Err(refused),
        Err(ReadError::Fault(_)) => Ok(None),
    }
}

#[inline(always)]
fn closed_within(
    alloc: Global,
    chunk: &[u8],
    at: usize,
    to: usize,
    text: &str,
) -> Result<Option<(String, usize)>, AllocFailed>
    requires first { slice_get chunk.now at ≡ Some ascii.quote }
    requires stop { to ≡ scan_stop chunk.now (at + 1) }
    requires last { slice_get chunk.now to ≡ Some ascii.quote }
    requires text { text.now ≡ slice_range chunk.now (at + 1) to }
    ensures { IfOk result (λ found. IfSome found (λ x. IsTextWithin chunk.now at (string_bytes x.0) x.1)) }
{
    Ok(Some((copy_text(alloc, text)?, to + 1)))
}

/// Returns the string whose opening quote is at `at`, and the index after its closing quote, if the chunk has both. A
/// string with a backslash is decoded in the buffer.
///
/// Returns `None` if no quote is at `at`. Also if the string is truncated or wrong: a [`PartialString`] then reads it.
pub fn text_within(
    alloc: Global,
    buffer: &mut Vec<u8>,
    chunk: &[u8],
    at: usize,
) -> Result<Option<(String, usize)>, AllocFailed>
    requires { at < length chunk.now }
    ensures { IfOk result (λ found. IfSome found (λ x. IsTextWithin chunk.now at (string_bytes x.0) x.1)) }
{
    if chunk[at] != b'"' {
        return Ok(None);
    }
    match look_at(chunk, at + 1) {
        (to, Look::Plain) => closed_within(alloc, chunk, at, to, utf8_text(&chunk[at + 1..to])),
        (to, Look::Utf8) => match checked_text(chunk, at + 1, to, false) {
            Ok(text) => closed_within(alloc, chunk, at, to, text),
            Err(_) => Ok(None),
        },
        (stop, Look::Escaped(low)) if is_closed(chunk, stop) => {
            decoded_within(alloc, buffer, chunk, at, stop, low)
        }
        _ => Ok(None),
    }
}

impl PartialString {
    /// Returns a string of which only the opening quote was read. Does not allocate.
    pub fn new(alloc: Global) -> PartialString
        ensures { HasTaken result [] }
    {
        PartialString {
            text: PartialText::new(alloc),
            escape: None,
        }
    }

    // Takes the next byte of the incomplete escape.
    #[inline(never)]
    fn spell(&mut self, chunk: &[u8], at: usize) -> Result<StringStep, AllocFailed>
        requires within { at < length chunk.now }
        requires open { ¬ (self.old.escape ≡ None) }
        ensures goes { (w : List ℕ) → HasTaken self.old w → IfOk result (GoesOnWith self.new w chunk.now at) }
        ensures part { IfOk result (IsPart chunk.now at) }
        ensures refused { OnErr result (self.new ≡ self.old) }
    {
        let Some(escape) = &mut self.escape else {
            unreachable!();
        };
        match escape.next(chunk[at]) {
            EscapeStep::Part => {}
            EscapeStep::Whole(c) => {
                self.text.add_char(c)?;
                self.escape = None;
            }
            EscapeStep::Wrong(kind, after) => {
                return Ok(StringStep::Wrong(kind, escape.count() - after));
            }
        }
        Ok(StringStep::Taken(1))
    }

    // A truncated escape is kept for the next chunk. Of a wrong one only the backslash is taken: the next calls read
    // the other bytes one by one, up to the error.
    fn take_escape(&mut self, chunk: &[u8], at: usize) -> Result<usize, AllocFailed>
        requires within { at < length chunk.now }
        requires none { self.old.escape ≡ None }
        requires backslash { slice_get chunk.now at ≡ Some ascii.backslash }
        ensures taken { (w : List ℕ) → HasTaken self.old w → IfOk result (HasTakenFrom self.new w chunk.now at) }
        ensures part { IfOk result (IsCountAt chunk.now at) }
        ensures refused { OnErr result (self.new ≡ self.old) }
    {
        let rest = &chunk[at..];
        match next_event(rest, 0) {
            StringEvent::Escape(c, end) => {
                self.text.add_char(c)?;
                Ok(end)
            }
            StringEvent::End(StringEnd::Cut) => {
                self.escape = Some(PartialEscape::cut(rest));
                Ok(rest.len())
            }
            StringEvent::End(_) => {
                self.escape = Some(PartialEscape::new());
                Ok(1)
            }
        }
    }

    // No character is incomplete, so bytes below 80 hex need no test.
    #[inline(always)]
    fn plain_whole(&mut self, chunk: &[u8], at: usize) -> Result<usize, AllocFailed>
        requires within { at < length chunk.now }
        requires even { IsEven self.old }
        requires plain { is_plain (slice_index chunk.now at) ≡ true }
        ensures taken { (w : List ℕ) → HasTaken self.old w → IfOk result (HasTakenFrom self.new w chunk.now at) }
        ensures part { IfOk result (IsCountAt chunk.now at) }
        ensures refused { OnErr result (self.new ≡ self.old) }
    {
        let (to, low) = scan_string(chunk, at);
        let run = &chunk[at..to];
        if low {
            self.text.add_ascii(run)?;
            return Ok(to - at);
        }
        self.text.add(run)
    }

    // Next to an incomplete character, only the bytes that it lacks are read. After a wrong one, nothing is tested.
    fn plain(&mut self, chunk: &[u8], at: usize) -> Result<usize, AllocFailed>
        requires within { at < length chunk.now }
        requires none { self.old.escape ≡ None }
        requires plain { is_plain (slice_index chunk.now at) ≡ true }
        ensures taken { (w : List ℕ) → HasTaken self.old w → IfOk result (HasTakenFrom self.new w chunk.now at) }
        ensures part { IfOk result (IsCountAt chunk.now at) }
        ensures refused { OnErr result (self.new ≡ self.old) }
    {
        if self.text.is_whole() {
            return self.plain_whole(chunk, at);
        }
        let most = if self.text.is_text(true) {
            MOST_MISSING
        } else {
            chunk.len()
        };
        self.text.add(plain_run(chunk, at, most))
    }

    // Takes a run of plain bytes, or an escape.
    #[inline(always)]
    fn turn(&mut self, chunk: &[u8], at: usize) -> Result<usize, AllocFailed>
        requires within { at < length chunk.now }
        requires none { self.old.escape ≡ None }
        requires goes_on { is_stop (slice_index chunk.now at) ≡ true → slice_index chunk.now at ≡ ascii.backslash }
        ensures taken { (w : List ℕ) → HasTaken self.old w → IfOk result (HasTakenFrom self.new w chunk.now at) }
        ensures part { IfOk result (IsCountAt chunk.now at) }
        ensures refused { OnErr result (self.new ≡ self.old) }
    {
        if chunk[at] == b'\\' {
            return self.take_escape(chunk, at);
        }
        self.plain(chunk, at)
    }

    /// Takes bytes of the chunk from `at` on, and returns how many or what ends the string. `Err` changes nothing.
    pub fn next(&mut self, chunk: &[u8], at: usize) -> Result<StringStep, AllocFailed>
        requires { at < length chunk.now }
        ensures goes { (w : List ℕ) → HasTaken self.old w → IfOk result (GoesOnWith self.new w chunk.now at) }
        ensures part { IfOk result (IsPart chunk.now at) }
        ensures refused { OnErr result (self.new ≡ self.old) }
    {
        if self.escape.is_some() {
            return self.spell(chunk, at);
        }
        match chunk[at] {
            b'"' => return Ok(StringStep::Quote),
            0..=31 => {
                let kind = FaultKind::ControlCharacterWhileParsingString;
                return Ok(StringStep::Wrong(kind, 0));
            }
            _ => {}
        }
        // If an allocation fails after some bytes, they are taken, and the next call tries again.
        let mut end = at;
        'turning: loop {
            match self.turn(chunk, end) {
                Ok(count) => end += count,
                Err(_) if at < end => break 'turning,
                Err(refused) => return Err(refused),
            }
            if end == chunk.len() || self.escape.is_some() || matches!(chunk[end], b'"' | 0..=31) {
                break 'turning;
            }
        }
        Ok(StringStep::Taken(end - at))
    }

    /// Returns whether the string is UTF-8 if it ends here: with its closing quote, or with the input if `partial` is set.
    /// With `partial`, an incomplete character at its end is left out.
    ///
    /// If the string is not UTF-8, its first wrong byte is after the characters so far.
    pub fn is_text(&self, partial: bool) -> bool
        ensures closed { (w : List ℕ) → (h : HasTaken self.now w) → self.now.escape ≡ None
            → Wherever w (λ t i j. slice_get t j ≡ Some ascii.quote
            → content_at (text_form partial) t i ≡ text_or result i h.escaped self.now.text.text (j + 1)) }
        ensures cut { (w : List ℕ) → (h : HasTaken self.now w) → partial ≡ true → Wherever w (λ t i j. length t ≡ j
            → content_at kept t i
            ≡ text_or result i (h.escaped || is_some self.now.escape) self.now.text.text j) }
        ensures kept { partial ≡ true → result ≡ not self.now.text.broken }
        ensures unclosed { (w : List ℕ) → HasTaken self.now w → Wherever w (λ t i j. length t ≡ j
            → content_at whole t i ≡ failed eof_string j) }
    {
        self.text.is_text(partial)
    }

    /// Returns the characters so far.
    pub fn text(&self) -> &str
        ensures { result.now ≡ self.now.text.text }
    {
        self.text.text()
    }

    /// Moves the characters so far out, so that they can be shown, and leaves none. Does not allocate.
    pub fn take_text(&mut self) -> String
        ensures text { string_bytes result ≡ self.old.text.text }
        ensures rest { self.new.text ≡ with_text self.old.text [] }
        ensures escape { self.new.escape ≡ self.old.escape }
    {
        self.text.take_text()
    }

    /// Puts back the characters that [`take_text`](PartialString::take_text) returned.
    pub fn give_back(&mut self, text: String)
        ensures text { self.new.text ≡ with_text self.old.text (string_bytes text) }
        ensures escape { self.new.escape ≡ self.old.escape }
    {
        self.text.give_back(text);
    }
}
