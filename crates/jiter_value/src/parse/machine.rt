//! A parse that the caller takes on turn by turn.
ghost use Rattle.std.specs.Prelude.{◌≡◌, ◌≤◌, ◌<◌, ◌+◌, ◌*◌, IfOk, false, length, true};
ghost use Rattle.jiter_value.specs.Words.{held_by, position_in, IsOver, IsReadingOn, Parses, as_read, IsCleared, size};
ghost use Rattle.jiter_value.specs.Words.{work_left, view, MayGrow};

use crate::parse::reading::{error_at, finish_whole};
use crate::parse::settings::Settings;
use crate::parse::stacks::{State, drop_root, take_error, take_root};
use crate::parse::string_storage::Borrowing;
use crate::parse::turns::{AnyKey, Reading};
use crate::value::JsonValue;
use jiter_scan::errors::{FaultKind, fault_at};
use jiter_scan::{JsonError, JsonErrorType, PartialMode};
use jiter_steps::parse::Parser;
use jiter_steps::read_error::ReadError;
use jiter_steps::whitespace::past_blanks;
use std::alloc::Global;
use std::marker::Model;

/// A parse that you take on turn by turn, so that you can do something else in between.
///
/// For n bytes, at most 3n + 3 turns return [`Turn::More`].
///
/// # Examples
///
/// ```rust
/// let mut machine = Machine::new(alloc, bytes, false, PartialMode::Off);
/// for _ in 0..turns {
///     match machine.turn() {
///         Turn::More(next) => machine = next,
///         Turn::Done(result) => return Turn::Done(result),
///     }
/// }
/// ```
#[derive(Drop)]
pub struct Machine<'j> {
    alloc: Global,
    settings: Settings,
    // There is one from the first turn on. It is in a box, so that a turn doesn't move its 300 bytes.
    reading: Option<Box<Reading<'j>>>,
    bytes: &'j [u8],
    ghost within: { position_in reading ≤ length bytes.now },
}

impl<'j> Model for Machine<'j> {
    ghost use Rattle.std.specs.Prelude.{IfSome};
    ghost use Rattle.jiter_value.specs.Machine.{Progress, progress, IsReadingOn};
    ghost use Rattle.jiter_value.specs.ValueCode.{codes};

    ghost Value = { Progress };

    ghost coded = { Prim.hlevel codes };

    ghost view = { λ m. progress m.bytes.now m.settings m.reading m.within };

    ghost invariant = { λ m. IfSome m.reading (λ b. IsReadingOn m.bytes.now b.value) };
}

/// What a turn returns: a machine for the next turn, or the result.
#[derive(Drop)]
pub enum Turn<'j> {
    /// The parse isn't over: call [`Machine::turn`] again.
    More(Machine<'j>),
    /// The result: what [`JsonValue::parse_with_config`] returns for the same bytes and settings.
    Done(Result<JsonValue<'j>, JsonError>),
}

// Skips the whitespace before the value. If the input ends there, stores the error and returns `false`.
#[inline(always)]
fn begin<'j>(reading: &mut Reading<'j>, bytes: &'j [u8]) -> bool
    requires cleared { IsCleared reading.old.stacks }
    requires state { reading.old.state ≡ State.Root }
    ensures begun { result ≡ true → IsReadingOn bytes.now reading.new }
    ensures over { result ≡ false → IsOver bytes.now reading.new }
    ensures given_up { result ≡ false → reading.new.state ≡ State.GivenUp }
    ensures stacks { result ≡ true → reading.new.stacks ≡ reading.old.stacks }
    ensures state { result ≡ true → reading.new.state ≡ reading.old.state }
    ensures settings { reading.new.settings ≡ reading.old.settings }
{
    reading.at = past_blanks(bytes, 0);
    if reading.at < bytes.len() {
        return true;
    }
    let fault = fault_at(FaultKind::EofWhileParsingValue, reading.at);
    reading.stacks.error = ReadError::Fault(fault);
    reading.state = State::GivenUp;
    false
}

// Takes one turn and returns whether more is awaited.
#[inline(always)]
fn take_turn<'j>(reading: &mut Reading<'j>, bytes: &'j [u8]) -> bool
    requires { IsReadingOn bytes.now reading.old }
    ensures on { result ≡ true → IsReadingOn bytes.now reading.new }
    ensures over { result ≡ false → IsOver bytes.now reading.new }
    ensures forward { reading.old.at ≤ reading.new.at }
    ensures work_left { result ≡ true → work_left bytes.now reading.new.stacks reading.new.at
        < work_left bytes.now reading.old.stacks reading.old.at }
    ensures held { result ≡ true → held_by reading.new ≤ held_by reading.old + 1 }
    ensures size { reading.new.state ≡ State.Done
        → size (view reading.new.stacks.root) ≤ held_by reading.old + 1 }
    ensures settings { reading.new.settings ≡ reading.old.settings }
{
    match reading.go::<Borrowing<'j>, AnyKey, true>(Borrowing { bytes }, &mut AnyKey, bytes) {
        State::Done => false,
        State::GivenUp => false,
        _ => {
            // The machine's invariant: between turns the root is `Null`.
            drop_root(&mut reading.stacks);
            true
        }
    }
}

// The result of a reading that has ended.
#[inline(always)]
fn answer<'j>(reading: &mut Reading<'j>, bytes: &'j [u8]) -> Result<JsonValue<'j>, JsonError>
    requires within { reading.old.at ≤ length bytes.now }
    requires over { IsOver bytes.now reading.old }
    ensures parses { Parses as_read (MayGrow bytes.now) reading.old.settings.allow_inf_nan reading.old.settings.mode
        bytes.now result }
    ensures root { IfOk result (λ v. (reading.old.state ≡ State.Done) × (v ≡ reading.old.stacks.root)) }
{
    let mut parser = Parser {
        bytes,
        index: reading.at,
    };
    match reading.state {
        State::Done => {
            let value = take_root(&mut reading.stacks);
            match finish_whole::<Borrowing<'j>>(&mut parser, reading.settings, value) {
                Ok(whole) => Ok(whole),
                Err(error) => Err(error_at(error, parser.index)),
            }
        }
        State::GivenUp => {
            let error = take_error(&mut reading.stacks);
            Err(error_at(error, parser.index))
        }
        _ => unreachable!(),
    }
}

impl<'j> Machine<'j> {
    ghost use Rattle.std.specs.Prelude.{◌≡◌, ◌≤◌, ◌+◌, ◌*◌, None, length};
    ghost use Rattle.jiter_value.specs.Machine.{turns_left, held, progress};
    ghost use Rattle.jiter_value.specs.TurnsTo.{TurnsTo};

    /// Creates a machine at index 0, with the settings of [`JsonValue::parse_with_config`].
    ///
    /// Does not allocate.
    pub fn new(
        alloc: Global,
        bytes: &'j [u8],
        allow_inf_nan: bool,
        allow_partial: PartialMode,
    ) -> Machine<'j>
        ensures text { result.text ≡ bytes.now }
        ensures names { result.settings.allow_inf_nan ≡ allow_inf_nan }
        ensures mode { result.settings.mode ≡ allow_partial }
        ensures position { result.position ≡ 0 }
        ensures turns_left { turns_left result ≤ 3 * length bytes.now + 3 }
        ensures held { held result ≡ 0 }
    {
        let settings = Settings {
            allow_inf_nan,
            mode: allow_partial,
        };
        Machine {
            alloc,
            settings,
            reading: None,
            bytes,
        }
    }

    // Takes the first turn. Only a reading that goes on is put in a box, as a parse of a scalar may not allocate.
    #[inline(never)]
    fn first_turn(alloc: Global, bytes: &'j [u8], settings: Settings) -> Turn<'j>
        ensures { (h : 0 ≤ length bytes.now) → TurnsTo (progress bytes.now settings None h) result }
    {
        let mut reading = Reading::new(alloc, settings);
        if !begin(&mut reading, bytes) || !take_turn(&mut reading, bytes) {
            return Turn::Done(answer(&mut reading, bytes));
        }
        let index = reading.at;
        match Box::new(alloc, reading) {
            Ok(reading) => Turn::More(Machine {
                alloc,
                settings,
                reading: Some(reading),
                bytes,
            }),
            Err(_) => Turn::Done(Err(JsonError {
                error_type: JsonErrorType::OutOfMemory,
                index,
            })),
        }
    }

    /// Takes one turn: reads one scalar, opening bracket or key, and the steps after it, closing brackets included.
    ///
    /// The last turn returns the result in [`Turn::Done`]. Its errors are those of [`JsonValue::parse_with_config`]. The
    /// first turn allocates a block of some 300 bytes, unless it is the last one.
    pub fn turn(self) -> Turn<'j>
        ensures { TurnsTo self.entry result }
    {
        let Machine {
            alloc,
            settings,
            reading,
            bytes,
        } = self;
        let mut boxed = match reading {
            None => return Machine::first_turn(alloc, bytes, settings),
            Some(boxed) => boxed,
        };
        let reading = &mut *boxed;
        if !take_turn(reading, bytes) {
            return Turn::Done(answer(reading, bytes));
        }
        Turn::More(Machine {
            alloc,
            settings,
            reading: Some(boxed),
            bytes,
        })
    }
}
