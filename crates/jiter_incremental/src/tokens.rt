//! Goes on with the token that the last chunk cut (RFC 8259, 3, 6 and 7). Numbers and strings that may end are shown.
ghost use Rattle.std.specs.Prelude.{◌≡◌, ◌⊎◌, ◌+◌, ◌^◌, ◌<◌, ◌≤◌, IfOk, List, None, OnErr, OnOk, length, slice_get, ℕ};
ghost use Rattle.std.specs.Prelude.{slice_index, Some, string_bytes, false, true};
ghost use Rattle.jiter_incremental.specs.Words.{text_of, Next, HasMoved, HasReadIn, bytes_in, is_shown, token_tree};
ghost use Rattle.jiter_incremental.specs.Words.{name_word, AsRead, HasEnded, IsAt, IsComplete, IsPaused, IsScalar};
ghost use Rattle.jiter_incremental.specs.Words.{KeepsRoom, IsHere, ReadsAsBefore, Steps, IsOfString, Fits};
ghost use Rattle.jiter_incremental.specs.Words.{IsSettled, document, with_shown, HasRoomAt, IsPutSo, OpenFrame, filled};
ghost use Rattle.jiter_incremental.specs.Words.{Number, allows_trailing_strings, IsBegun, is_whole, kept_bytes, Tree};
ghost use Rattle.jiter_incremental.specs.Words.{own_view, number_tree, with_text, text_view, null, string, owned_text};
ghost use Rattle.jiter_incremental.specs.Words.{tree_as, view, StepsTo};
ghost use Rattle.jiter_incremental.specs.declared.reader.Token.TheVariants as token_kind;
ghost use Rattle.jiter_scan.specs.Ascii as ascii;
ghost use Rattle.jiter_scan.specs.declared.number.partial_number.NumberStep.TheVariants as number_went;

use crate::names::WordValue;
use crate::punctuation::is_blank;
use crate::reader::{Reader, Token};
use crate::slot::{put_in, reserve_in, take_from};
use crate::values::text_value;
use jiter_scan::errors::FaultKind;
use jiter_scan::memory::AllocFailed;
use jiter_scan::number::partial_number::{NumberStep, OwnNumber};
use jiter_scan::partial_word::WordStep;
use jiter_steps::partial_string::StringStep;
use jiter_value::value::JsonValue;
use std::alloc::Global;
use std::borrow::CowStr;
use std::mem;

// Does not allocate: a source text is moved into the value.
fn number_value(number: OwnNumber) -> JsonValue<'static>
    ensures value { view result ≡ tree_as owned_text (number_tree (own_view number)) }
    ensures kept { (w : List ℕ) → bytes_in (view result) w ≡ kept_bytes number w }
{
    match number {
        OwnNumber::Int(number) => JsonValue::Int(number),
        OwnNumber::BigInt(text) => JsonValue::BigInt(CowStr::Owned(text)),
        OwnNumber::Float(text) => JsonValue::Float(CowStr::Owned(text)),
    }
}

// The values of this crate own their strings, so the borrowed case never occurs.
fn owned_string(alloc: Global, text: &mut CowStr<'static>) -> String
    ensures { (text_view text.old).owned ≡ true → string_bytes result ≡ (text_view text.old).bytes }
{
    match mem::replace(text, CowStr::Borrowed("")) {
        CowStr::Owned(text) => text,
        CowStr::Borrowed(_) => String::new(alloc),
    }
}

impl Reader {
    // Whether the mode keeps the unfinished string. It never keeps a key.
    pub(crate) fn keeps(&self) -> bool
        ensures text { self.now.token ≡ token_kind.Text → result ≡ allows_trailing_strings self.now.settings.mode }
        ensures key { self.now.token ≡ token_kind.Key → result ≡ false }
        ensures only { result ≡ true → self.now.token ≡ token_kind.Text }
    {
        matches!(self.token, Token::Text) && self.settings.mode.allow_trailing_str()
    }

    /// Returns whether the unfinished token is a value if the input ends here.
    pub fn is_showable(&self) -> bool
        ensures { (v : Tree) → result ≡ is_shown (document self.now v) }
    {
        match self.token {
            Token::Number => self.number.is_whole(),
            Token::Text => self.settings.mode.allow_trailing_str() && self.string.is_text(true),
            _ => false,
        }
    }

    // Moves the source text or the string into the value, so nothing is copied.
    fn shown_value(&mut self) -> JsonValue<'static>
        requires shown { is_shown (document self.old null) ≡ true }
        requires begun { self.old.token ≡ token_kind.Number
            → IsBegun (string_bytes self.old.number.text) self.old.number.stage }
        ensures value { (v : Tree) → view result ≡ token_tree (document self.old v) self.old.token }
        ensures moved { (v : Tree) → HasMoved self.old.token (document self.old v) self.new.number self.new.string (view result) }
        ensures same { self.new ≡ with_shown self.old self.old.shown self.new.number self.new.string self.old.key }
    {
        if matches!(self.token, Token::Number) {
            return number_value(self.number.take_value());
        }
        text_value(self.string.take_text())
    }

    // Undoes `shown_value`. An integer of 64 bits holds no source text: the number kept it.
    fn give_back(&mut self, value: JsonValue<'static>)
        ensures number { (x : Number) → self.old.token ≡ token_kind.Number
            → view value.entry ≡ tree_as owned_text (number_tree x) → (self.new.number.stage ≡ self.old.number.stage)
            × (string_bytes self.new.number.text ≡ bytes_in (view value.entry) (string_bytes self.old.number.text)) }
        ensures text { (w : List ℕ) → self.old.token ≡ token_kind.Text → view value.entry ≡ string (text_of w)
            → (self.new.string.text ≡ with_text self.old.string.text w)
            × (self.new.string.escape ≡ self.old.string.escape) }
        ensures same { self.new ≡ with_shown self.old self.old.shown self.new.number self.new.string self.old.key }
    {
        let mut value = value;
        match &mut value {
            JsonValue::BigInt(text) | JsonValue::Float(text) => {
                self.number.give_back(owned_string(self.alloc, text));
            }
            JsonValue::Str(text) => self.string.give_back(owned_string(self.alloc, text)),
            _ => {}
        }
    }

    /// Stores the unfinished token in the innermost slot, if it is a value already. Does not allocate.
    pub fn show(&mut self, slot: &mut JsonValue<'static>, level: usize)
        requires paused { IsPaused level self.old slot.old }
        requires read { (n : Next) × (t : List ℕ) × (outer : List OpenFrame) × IsAt level outer
            × HasReadIn n (document self.old (filled outer (view slot.old))) t }
        ensures shows { AsRead level self.old (view slot.old) self.new (view slot.new) }
        ensures complete { IsComplete self.new }
        ensures ended { self.new.depth < level → HasEnded self.new }
        ensures same { self.new
            ≡ with_shown self.old self.new.shown self.new.number self.new.string self.new.key }
    {
        if level != self.depth || self.fault.is_some() {
            return;
        }
        if self.is_showable() {
            let value = self.shown_value();
            put_in(slot, level, &mut self.key, value);
            self.shown = true;
        }
    }

    /// Takes out of the innermost slot what [`show`](Reader::show) stored, whose capacity stays. Reserves it for a token
    /// that wasn't stored.
    pub fn hide(&mut self, slot: &mut JsonValue<'static>, level: usize) -> Result<(), AllocFailed>
        requires above { level ≤ self.old.depth }
        requires unset { self.old.fault ≡ None }
        requires complete { IsComplete self.old }
        requires read { (n : Next) × (t : List ℕ) × (outer : List OpenFrame) × IsAt level outer
            × HasReadIn n (document self.old (filled outer (view slot.old))) t }
        ensures hides { AsRead level self.old (view slot.old) self.new (view slot.new) }
        ensures paused { OnOk result (IsPaused level self.new slot.new) }
        ensures same { self.new
            ≡ with_shown self.old self.new.shown self.new.number self.new.string self.new.key }
        ensures refused { OnErr result ((self.new ≡ self.old) × IsScalar self.old.token) }
    {
        if level < self.depth {
            return Ok(());
        }
        if self.shown {
            let value = take_from(slot, level, &mut self.key);
            self.give_back(value);
            self.shown = false;
            return Ok(());
        }
        match self.token {
            Token::Number | Token::Text => reserve_in(slot),
            _ => Ok(()),
        }
    }

    fn take_word(
        &mut self,
        slot: &mut JsonValue<'static>,
        level: usize,
        chunk: &[u8],
    ) -> Result<usize, AllocFailed>
        requires here { IsHere level chunk.now self.old (view slot.old) }
        requires token { self.old.token ≡ token_kind.Word }
        ensures steps { IfOk result (λ n. Steps level chunk.now self.old (view slot.old) self.new (view slot.new) n) }
        ensures stays { OnErr result (ReadsAsBefore level chunk.now self.old (view slot.old) self.new (view slot.new)) }
        ensures token { ¬ IsScalar self.new.token }
    {
        let mut word = self.word;
        match word.next(chunk[self.at]) {
            WordStep::Part => self.word = word,
            WordStep::Last => {
                reserve_in(slot)?;
                let value = self.name.value(self.alloc)?;
                self.put(slot, level, value);
            }
            WordStep::Other => self.refuse(FaultKind::ExpectedSomeIdent, self.position()),
        }
        Ok(1)
    }

    // The byte is the `I` of `-Infinity`.
    fn take_name(&mut self, slot: &JsonValue<'static>, level: usize, chunk: &[u8]) -> usize
        requires here { IsHere level chunk.now self.old (view slot.now) }
        requires token { self.old.token ≡ token_kind.Number }
        requires leads { StepsTo self.old.number.stage (slice_index chunk.now self.old.at) number_went.Named }
        requires fits { Fits self.old.number.stage (slice_index chunk.now self.old.at) number_went.Named }
        requires room { KeepsRoom level self.old slot.now }
        ensures steps { Steps level chunk.now self.old (view slot.now) self.new (view slot.now) result }
        ensures room { KeepsRoom level self.new slot.now }
    {
        if self.settings.allow_inf_nan {
            self.name = WordValue::MinusInfinity;
            self.word = WordValue::MinusInfinity.begun();
            self.token = Token::Word;
        } else {
            self.refuse(FaultKind::InvalidNumber, self.position());
        }
        1
    }

    // The byte isn't part of the number, which ends before it. Takes the byte too.
    fn end_number(&mut self, slot: &mut JsonValue<'static>, level: usize, chunk: &[u8]) -> usize
        requires here { IsHere level chunk.now self.old (view slot.old) }
        requires token { self.old.token ≡ token_kind.Number }
        requires leads { StepsTo self.old.number.stage (slice_index chunk.now self.old.at) number_went.Over }
        requires fits { Fits self.old.number.stage (slice_index chunk.now self.old.at) number_went.Over }
        requires space { HasRoomAt level slot.old }
        ensures steps { Steps level chunk.now self.old (view slot.old) self.new (view slot.new) result }
        ensures token { self.new.token ≡ token_kind.Nothing }
    {
        let value = number_value(self.number.take_value());
        self.put(slot, level, value);
        if is_blank(chunk[self.at]) {
            return 1;
        }
        self.after(slot, level, chunk)
    }

    // The byte fits nowhere in a number.
    fn end_invalid(
        &mut self,
        slot: &JsonValue<'static>,
        level: usize,
        chunk: &[u8],
        went: NumberStep,
    ) -> usize
        requires here { IsHere level chunk.now self.old (view slot.now) }
        requires token { self.old.token ≡ token_kind.Number }
        requires leads { StepsTo self.old.number.stage (slice_index chunk.now self.old.at) went }
        requires fits { Fits self.old.number.stage (slice_index chunk.now self.old.at) went }
        requires wrong { (went ≡ number_went.Invalid) ⊎ (went ≡ number_went.TooLong) }
        requires room { KeepsRoom level self.old slot.now }
        ensures steps { Steps level chunk.now self.old (view slot.now) self.new (view slot.now) result }
        ensures room { KeepsRoom level self.new slot.now }
    {
        match went {
            NumberStep::TooLong => self.refuse(FaultKind::NumberOutOfRange, self.position() + 1),
            _ => self.refuse(FaultKind::InvalidNumber, self.position()),
        }
        1
    }

    // Takes bytes of the number, or the byte after it. `NumberOutOfRange` is at one past the first digit too many.
    #[inline(never)]
    fn take_number(
        &mut self,
        slot: &mut JsonValue<'static>,
        level: usize,
        chunk: &[u8],
    ) -> Result<usize, AllocFailed>
        requires here { IsHere level chunk.now self.old (view slot.old) }
        requires token { self.old.token ≡ token_kind.Number }
        requires room { KeepsRoom level self.old slot.old }
        ensures steps { IfOk result (λ n. Steps level chunk.now self.old (view slot.old) self.new (view slot.new) n) }
        ensures stays { OnErr result (ReadsAsBefore level chunk.now self.old (view slot.old) self.new (view slot.new)) }
        ensures room { KeepsRoom level self.new slot.new }
    {
        match self.number.next(chunk[self.at]) {
            NumberStep::Taken(stage) => self.number.more(stage, chunk, self.at),
            NumberStep::Over => Ok(self.end_number(slot, level, chunk)),
            NumberStep::Named => Ok(self.take_name(slot, level, chunk)),
            wrong => Ok(self.end_invalid(slot, level, chunk, wrong)),
        }
    }

    fn put_text(&mut self, slot: &mut JsonValue<'static>, level: usize)
        requires token { IsOfString self.old.token }
        requires room { KeepsRoom level self.old slot.old }
        ensures { IsPutSo level self.old (view slot.old) self.new (view slot.new) }
    {
        let text = self.string.take_text();
        if matches!(self.token, Token::Key) {
            self.key = CowStr::Owned(text);
            self.token = Token::Nothing;
        } else {
            self.put(slot, level, text_value(text));
        }
    }

    // `TrailingStrings` drops an incomplete character before the quote. With partial reading off it is an error.
    fn close_string(&mut self, slot: &mut JsonValue<'static>, level: usize, chunk: &[u8])
        requires here { IsHere level chunk.now self.old (view slot.old) }
        requires token { IsOfString self.old.token }
        requires quote { slice_get chunk.now self.old.at ≡ Some ascii.quote }
        requires whole { self.old.string.escape ≡ None }
        requires room { KeepsRoom level self.old slot.old }
        ensures steps { Steps level chunk.now self.old (view slot.old) self.new (view slot.new) 1 }
        ensures closed { self.new.token ≡ token_kind.Nothing → IsSettled level self.new }
        ensures room { KeepsRoom level self.new slot.new }
    {
        let index = self.begin + 1 + self.string.text().len();
        let kind = FaultKind::InvalidUnicodeCodePoint;
        let kept = self.keeps();
        if self.string.is_text(false) {
            self.put_text(slot, level);
        } else if self.string.is_text(kept) {
            self.note(kind, index);
            self.put_text(slot, level);
        } else {
            self.refuse(kind, index);
        }
    }

    // A wrong byte counts as taken: the error is final.
    #[inline(never)]
    fn take_string(
        &mut self,
        slot: &mut JsonValue<'static>,
        level: usize,
        chunk: &[u8],
    ) -> Result<usize, AllocFailed>
        requires here { IsHere level chunk.now self.old (view slot.old) }
        requires token { IsOfString self.old.token }
        requires room { KeepsRoom level self.old slot.old }
        ensures steps { IfOk result (λ n. Steps level chunk.now self.old (view slot.old) self.new (view slot.new) n) }
        ensures stays { OnErr result (ReadsAsBefore level chunk.now self.old (view slot.old) self.new (view slot.new)) }
        ensures room { KeepsRoom level self.new slot.new }
    {
        match self.string.next(chunk, self.at) {
            Ok(StringStep::Taken(count)) => Ok(count),
            Ok(StringStep::Quote) => {
                self.close_string(slot, level, chunk);
                Ok(self.past_separator(chunk, self.at + 1) - self.at)
            }
            Ok(StringStep::Wrong(kind, back)) => {
                self.refuse(kind, self.position() - back);
                Ok(1)
            }
            Err(error) => Err(error),
        }
    }

    /// Takes bytes of the unfinished token.
    #[inline(always)]
    pub fn token(
        &mut self,
        slot: &mut JsonValue<'static>,
        level: usize,
        chunk: &[u8],
    ) -> Result<usize, AllocFailed>
        requires here { IsHere level chunk.now self.old (view slot.old) }
        requires token { ¬ (self.old.token ≡ token_kind.Nothing) }
        requires room { KeepsRoom level self.old slot.old }
        ensures steps { IfOk result (λ n. Steps level chunk.now self.old (view slot.old) self.new (view slot.new) n) }
        ensures stays { OnErr result (ReadsAsBefore level chunk.now self.old (view slot.old) self.new (view slot.new)) }
        ensures room { KeepsRoom level self.new slot.new }
    {
        match self.token {
            Token::Word => self.take_word(slot, level, chunk),
            Token::Number => self.take_number(slot, level, chunk),
            _ => self.take_string(slot, level, chunk),
        }
    }
}
