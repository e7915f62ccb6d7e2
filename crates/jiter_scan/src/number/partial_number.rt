//! Numbers that a chunk may truncate (RFC 8259, 6). A chunk's bytes are taken at once; a stage says how far we read.
ghost use Rattle.std.specs.Prelude.{◌≡◌, ◌+◌, ◌-◌, ◌<◌, ◌≤◌, ◌++◌, [], Bool, IfOk, IfSome, List, None, OnErr, OnOk, ℕ};
ghost use Rattle.std.specs.Prelude.{Some, false, length, slice_get, slice_index, slice_range, string_bytes, string_len};
ghost use Rattle.std.specs.Prelude.{string_capacity, true, IsAscii};
ghost use Rattle.jiter_scan.specs.Words.{big, integer, is_float_byte, number_value, skip_minus, exponent_at, number_at};
ghost use Rattle.jiter_scan.specs.Words.{decimal_at, int_part_at, number_span, Scans, taken, BeginsThere, Fits, GoesTo};
ghost use Rattle.jiter_scan.specs.Words.{HoldsNumber, IsBegun, StepsTo, at_end, begins_decimal, is_int_stage, is_whole};
ghost use Rattle.jiter_scan.specs.Words.{kept_bytes, number_by, number_from, own_view, tail_at};

use crate::bytes::decimal::{digit_run_end, is_digit};
use crate::errors::{Fault, FaultKind, fault_at};
use crate::memory::{AllocFailed, push_ascii};
use crate::number::number_decoder::{NumberInt, long_integer};
use crate::number::number_span::skip_minus;
use std::alloc::Global;
use std::{cmp, mem};

// How many digits an integer part may have after its first one.
const MORE_DIGITS: usize = 4299;

/// How far a number was read.
#[derive(Clone, Copy, Debug, PartialEq, Eq)]
pub enum Stage {
    /// After its minus.
    Minus,
    /// After the `0` of its integer part.
    Zero,
    /// After a digit of another integer part, which may have so many more.
    Digits(usize),
    /// After its point.
    Point,
    /// After a digit of its fraction.
    Fraction,
    /// After the letter of its exponent.
    Letter,
    /// After the sign of its exponent.
    Sign,
    /// After a digit of its exponent.
    Exponent,
}

/// What the next byte is to a number.
#[derive(Clone, Copy, Debug, PartialEq, Eq)]
pub enum NumberStep {
    /// A byte of the number, which brings it to this stage.
    Taken(Stage),
    /// No byte of the number, which ends before it.
    Over,
    /// The `I` after its minus, which begins `Infinity`.
    Named,
    /// A byte that does not fit.
    Invalid,
    /// A digit that is one too many.
    TooLong,
}

/// A number that owns its source text.
#[derive(Debug, Drop)]
pub enum OwnNumber {
    /// An integer that an `i64` holds.
    Int(i64),
    /// The source text of any other integer.
    BigInt(String),
    /// The source text of a number with a point or an exponent.
    Float(String),
}

fn first_stage(byte: u8) -> Stage
    requires { begins_decimal byte ≡ true }
    ensures leads { (names : Bool) (t : List ℕ) (j : ℕ) → slice_get t j ≡ Some byte
        → number_span names t j ≡ number_from names result t (j + 1) }
    ensures whole { is_int_stage result ≡ true }
    ensures byte { (byte < 128) × (is_float_byte byte ≡ false) }
{
    if byte == b'-' {
        Stage::Minus
    } else if byte == b'0' {
        Stage::Zero
    } else {
        Stage::Digits(MORE_DIGITS)
    }
}

#[inline(always)]
#[tactic(auto, using(crate::proofs::OpenNumbers::next_digits))]
fn next_of(stage: Stage, byte: u8) -> NumberStep
    ensures leads { StepsTo stage byte result }
    ensures fits { Fits stage byte result }
{
    if is_digit(byte) {
        return match stage {
            Stage::Minus if byte == b'0' => NumberStep::Taken(Stage::Zero),
            Stage::Minus => NumberStep::Taken(Stage::Digits(MORE_DIGITS)),
            Stage::Zero => NumberStep::Invalid,
            Stage::Digits(room) if room == 0 => NumberStep::TooLong,
            Stage::Digits(room) => NumberStep::Taken(Stage::Digits(room - 1)),
            Stage::Point | Stage::Fraction => NumberStep::Taken(Stage::Fraction),
            Stage::Letter | Stage::Sign | Stage::Exponent => NumberStep::Taken(Stage::Exponent),
        };
    }
    let letter = byte == b'e' || byte == b'E';
    match stage {
        Stage::Minus if byte == b'I' => NumberStep::Named,
        Stage::Letter if byte == b'+' || byte == b'-' => NumberStep::Taken(Stage::Sign),
        Stage::Minus | Stage::Point | Stage::Letter | Stage::Sign => NumberStep::Invalid,
        Stage::Zero | Stage::Digits(_) if byte == b'.' => NumberStep::Taken(Stage::Point),
        Stage::Zero | Stage::Digits(_) | Stage::Fraction if letter => NumberStep::Taken(
            Stage::Letter,
        ),
        Stage::Zero | Stage::Digits(_) | Stage::Fraction | Stage::Exponent => NumberStep::Over,
    }
}

// The number has neither a point nor an exponent so far.
#[inline(always)]
pub(crate) fn is_int_stage(stage: Stage) -> bool
    ensures { result ≡ is_int_stage stage }
{
    matches!(stage, Stage::Minus | Stage::Zero | Stage::Digits(_))
}

// The bytes so far are a number.
#[inline(always)]
#[tactic(auto, using(crate::proofs::OpenNumbers::ended))]
fn is_whole(stage: Stage) -> bool
    ensures value { result ≡ is_whole stage }
    ensures ends { (names : Bool) (t : List ℕ) (j : ℕ) → slice_get t j ≡ None
        → number_from names stage t j ≡ at_end result j }
{
    !matches!(
        stage,
        Stage::Minus | Stage::Point | Stage::Letter | Stage::Sign
    )
}

// Returns the stage after the digits at `at` that follow the first one of their part, and the index after them.
#[inline(always)]
fn run_end(stage: Stage, bytes: &[u8], at: usize) -> (Stage, usize)
    requires { at ≤ length bytes.now }
    ensures { GoesTo stage bytes.now at result.0 result.1 }
{
    match stage {
        Stage::Fraction | Stage::Exponent => (stage, digit_run_end(bytes, at)),
        Stage::Digits(room) => {
            let count = cmp::min(digit_run_end(bytes, at) - at, room);
            (Stage::Digits(room - count), at + count)
        }
        _ => (stage, at),
    }
}

// Returns the stage after all bytes at `at` that continue the number, the index there, and the error if it can't end.
#[tactic(auto, using(std::proofs::lemmas::Option::gets, crate::proofs::NumberParts::goes_next))]
pub(crate) fn stages_end(stage: Stage, bytes: &[u8], at: usize) -> (Stage, usize, Result<(), Fault>)
    requires { at ≤ length bytes.now }
    ensures goes { GoesTo stage bytes.now at result.0 result.1 }
    ensures ends { Scans (λ _. taken tt result.1) result.2 (number_from false result.0 bytes.now result.1) }
{
    let mut reached = stage;
    let mut end = at;
    while end < bytes.len() {
        match next_of(reached, bytes[end]) {
            NumberStep::Taken(next) => (reached, end) = run_end(next, bytes, end + 1),
            NumberStep::Over => return (reached, end, Ok(())),
            NumberStep::TooLong => {
                let fault = fault_at(FaultKind::NumberOutOfRange, end + 1);
                return (reached, end, Err(fault));
            }
            NumberStep::Named | NumberStep::Invalid => {
                return (reached, end, Err(fault_at(FaultKind::InvalidNumber, end)));
            }
        }
    }
    if is_whole(reached) {
        return (reached, end, Ok(()));
    }
    let fault = fault_at(FaultKind::EofWhileParsingValue, end);
    (reached, end, Err(fault))
}

/// Returns the stage and the index that the bytes of the number at `at` reach. Requires a minus or a digit there.
#[inline(always)]
pub fn begun_at(chunk: &[u8], at: usize) -> (Stage, usize)
    requires within { at < length chunk.now }
    requires begins { begins_decimal (slice_index chunk.now at) ≡ true }
    ensures { BeginsThere chunk.now at result.0 result.1 }
{
    let (stage, end, _) = stages_end(first_stage(chunk[at]), chunk, at + 1);
    (stage, end)
}

/// A number that a chunk may truncate: its bytes so far, and the stage that they reach.
#[derive(Drop)]
pub struct PartialNumber {
    text: String,
    stage: Stage,
}

impl PartialNumber {
    /// Returns a number without bytes. Does not allocate.
    pub fn new(alloc: Global) -> PartialNumber
        ensures { string_bytes result.text ≡ [] }
    {
        PartialNumber {
            text: String::new(alloc),
            stage: Stage::Minus,
        }
    }

    #[inline(always)]
    fn take(&mut self, stage: Stage, chunk: &[u8], at: usize, end: usize) -> Result<(), AllocFailed>
        requires within { (at ≤ end) × (end ≤ length chunk.now) }
        requires ascii { IsAscii (slice_range chunk.now at end) }
        ensures taken { OnOk result ((self.new.stage ≡ stage)
            × (string_bytes self.new.text ≡ string_bytes self.old.text ++ slice_range chunk.now at end)) }
        ensures refused { OnErr result
            ((string_bytes self.new.text ≡ string_bytes self.old.text) × (self.new.stage ≡ self.old.stage)) }
        ensures full { OnErr result (string_capacity self.old.text < string_len self.old.text + (end - at)) }
    {
        push_ascii(&mut self.text, &chunk[at..end])?;
        self.stage = stage;
        Ok(())
    }

    /// Takes the number's first bytes, from `at` to before `end`. `stage` and `end` are what [`begun_at`] returned for
    /// `at`. If the allocation fails, nothing changes.
    pub fn begin(
        &mut self,
        chunk: &[u8],
        at: usize,
        stage: Stage,
        end: usize,
    ) -> Result<(), AllocFailed>
        requires none { string_bytes self.old.text ≡ [] }
        requires begun { BeginsThere chunk.now at stage end }
        ensures held { OnOk result (HoldsNumber self.new (slice_range chunk.now at end)) }
        ensures refused { OnErr result
            ((string_bytes self.new.text ≡ []) × (self.new.stage ≡ self.old.stage)) }
        ensures full { OnErr result (string_capacity self.old.text < end - at) }
    {
        self.take(stage, chunk, at, end)
    }

    /// Returns what the next byte is to the number. The byte is not taken.
    pub fn next(&self, byte: u8) -> NumberStep
        ensures leads { StepsTo self.now.stage byte result }
        ensures fits { Fits self.now.stage byte result }
    {
        next_of(self.stage, byte)
    }

    /// Takes the byte at `at` and all bytes after it that continue the number, and returns how many. `stage` is what
    /// [`next`](PartialNumber::next) returned for the byte. If the allocation fails, nothing changes.
    pub fn more(&mut self, stage: Stage, chunk: &[u8], at: usize) -> Result<usize, AllocFailed>
        requires within { at < length chunk.now }
        requires leads { StepsTo self.old.stage (slice_index chunk.now at) (NumberStep.Taken stage) }
        requires fits { Fits self.old.stage (slice_index chunk.now at) (NumberStep.Taken stage) }
        ensures part { IfOk result (λ n. (0 < n) × (at + n ≤ length chunk.now)) }
        ensures held { IfOk result (λ n. (w : List ℕ) → HoldsNumber self.old w
            → HoldsNumber self.new (w ++ slice_range chunk.now at (at + n))) }
        ensures refused { OnErr result
            ((string_bytes self.new.text ≡ string_bytes self.old.text) × (self.new.stage ≡ self.old.stage)) }
        ensures full { OnErr result (string_capacity self.old.text
            < string_len self.old.text + (length chunk.now - at)) }
    {
        let (after, end, _) = stages_end(stage, chunk, at + 1);
        self.take(after, chunk, at, end)?;
        Ok(end - at)
    }

    /// Returns whether the bytes so far are a number.
    pub fn is_whole(&self) -> bool
        ensures value { result ≡ is_whole self.now.stage }
        ensures ends { (names : Bool) (t : List ℕ) (j : ℕ) → slice_get t j ≡ None
            → number_from names self.now.stage t j ≡ at_end result j }
    {
        is_whole(self.stage)
    }

    /// Returns the bytes so far.
    pub fn text(&self) -> &str
        ensures { result.now ≡ string_bytes self.now.text }
    {
        self.text.as_str()
    }

    /// Moves the bytes so far out, and leaves none. Does not allocate.
    pub fn take_text(&mut self) -> String
        ensures text { string_bytes result ≡ string_bytes self.old.text }
        ensures none { string_bytes self.new.text ≡ [] }
        ensures stage { self.new.stage ≡ self.old.stage }
    {
        let alloc = *self.text.allocator();
        mem::replace(&mut self.text, String::new(alloc))
    }

    /// Returns the number, with its source text moved out, unless it is an `i64`. Requires that the bytes are a number.
    ///
    /// Does not allocate, and reads at most 20 bytes.
    pub fn take_value(&mut self) -> OwnNumber
        requires begun { IsBegun (string_bytes self.old.text) self.old.stage }
        requires whole { is_whole self.old.stage ≡ true }
        ensures value { own_view result ≡ number_value (string_bytes self.old.text) }
        ensures kept { kept_bytes result (string_bytes self.new.text) ≡ string_bytes self.old.text }
        ensures stage { self.new.stage ≡ self.old.stage }
    {
        if !is_int_stage(self.stage) {
            return OwnNumber::Float(self.take_text());
        }
        let text = self.text.as_bytes();
        match long_integer(text, 0, skip_minus(text, 0), text.len()) {
            NumberInt::Int(number) => OwnNumber::Int(number),
            NumberInt::BigInt(_) => OwnNumber::BigInt(self.take_text()),
        }
    }

    /// Puts back the source text that [`take_value`](PartialNumber::take_value) moved out, so that more bytes can follow.
    pub fn give_back(&mut self, text: String)
        ensures text { string_bytes self.new.text ≡ string_bytes text }
        ensures stage { self.new.stage ≡ self.old.stage }
    {
        self.text = text;
    }

    /// Drops the bytes.
    pub fn clear(&mut self)
        ensures { string_bytes self.new.text ≡ [] }
    {
        self.text.clear();
    }
}
