//! Reading a complete document, or the value at a reader's position.
ghost use Rattle.std.specs.Prelude.{◌≡◌, ◌≤◌, ◌<◌, IfOk, length, false};
ghost use Rattle.jiter_value.specs.Words.{past_blanks, nesting_limit, NeverMovesBack, Returns, done, value_at, tree_as};
ghost use Rattle.jiter_value.specs.Words.{WhereRefused, Parses, as_read, GivesWhole, IsErrorOf, HoldsNothing, rules};
ghost use Rattle.jiter_value.specs.Words.{IsCleared, answer_as, rules_as, view, MayGrowAt, MayGrowBy, MayGrow};

use crate::parse::settings::Settings;
use crate::parse::string_storage::{Borrowing, StringStorage};
use crate::parse::turns::Reading;
use crate::value::JsonValue;
use jiter_scan::{JsonError, JsonErrorType, PartialMode};
use jiter_steps::parse::Parser;
use jiter_steps::read_error::ReadError;
use jiter_steps::step::value_first;
use std::alloc::Global;

/// Converts an error to the one that a public call returns. A failed allocation gets `index`; other errors have one.
#[cold]
pub fn error_at(error: ReadError, index: usize) -> JsonError
    ensures { IsErrorOf error index result }
{
    match error {
        ReadError::Fault(fault) => JsonError::from(fault),
        ReadError::Memory(_) => JsonError {
            error_type: JsonErrorType::OutOfMemory,
            index,
        },
    }
}

/// Returns the value, which ends at the reader's position. With partial reading off, only whitespace may follow it.
#[inline(always)]
pub(crate) fn finish_whole<'s, T: StringStorage<'s>>(
    parser: &mut Parser<'_>,
    settings: Settings,
    value: JsonValue<'s>,
) -> Result<JsonValue<'s>, ReadError>
    requires begins { past_blanks parser.old.bytes.now 0 < length parser.old.bytes.now }
    requires value { value_at (rules_as T.policy settings) parser.old.bytes.now nesting_limit
        (past_blanks parser.old.bytes.now 0) ≡ done (view value) parser.old.index }
    ensures moves { NeverMovesBack parser.old parser.new }
    ensures value { GivesWhole result parser.new.index
        (answer_as T.policy settings parser.old.bytes.now) }
    ensures same { IfOk result (λ v. v ≡ value.entry) }
    ensures memory { WhereRefused result ⊥ }
{
    match settings.mode {
        PartialMode::Off => {}
        _ => return Ok(value),
    }
    parser.finish()?;
    Ok(value)
}

/// Reads the value at the reader's position.
///
/// # Errors
///
/// - any error of the value; `Memory` only if it may grow
///
/// # Requires
///
/// The reader's position is before the length.
pub fn read_value<'j>(
    alloc: Global,
    parser: &mut Parser<'j>,
    settings: Settings,
) -> Result<JsonValue<'j>, ReadError>
    requires { parser.old.index < length parser.old.bytes.now }
    ensures moves { NeverMovesBack parser.old parser.new }
    ensures value { Returns view result parser.new.index
        (value_at (rules settings) parser.old.bytes.now nesting_limit parser.old.index) }
    ensures memory { WhereRefused result (MayGrowAt parser.old.bytes.now parser.old.index) }
{
    let texts = Borrowing {
        bytes: parser.bytes,
    };
    let mut reading = Reading::new(alloc, settings);
    reading.run(texts, parser)
}

/// Reads a document from index 0, with this reading's buffers and settings: with partial reading off, to its end.
#[inline(always)]
fn read_whole<'s, T: StringStorage<'s>>(
    reading: &mut Reading<'s>,
    texts: T,
    parser: &mut Parser<'_>,
) -> Result<JsonValue<'s>, ReadError>
    requires texts { T.of texts parser.old.bytes.now }
    requires repeats { T.policy.unique ≡ false }
    requires begins { parser.old.index ≡ 0 }
    requires empty { HoldsNothing reading.old.stacks }
    ensures moves { NeverMovesBack parser.old parser.new }
    ensures value { GivesWhole result parser.new.index
        (answer_as T.policy reading.old.settings parser.old.bytes.now) }
    ensures memory { WhereRefused result
        (MayGrowBy T.wants parser.old.bytes.now (past_blanks parser.old.bytes.now 0)) }
    ensures place { WhereRefused result (past_blanks parser.old.bytes.now 0 ≤ parser.new.index) }
    ensures cleared { IfOk result (λ v. IsCleared reading.new.stacks) }
{
    parser.go(value_first(parser.bytes, parser.index))?;
    let value = reading.run(texts, parser)?;
    finish_whole::<T>(parser, reading.settings, value)
}

/// Parses a document with the buffers and settings of this reading. `texts` decides how each text is stored.
#[inline(always)]
pub(crate) fn read_text_as<'s, T: StringStorage<'s>>(
    reading: &mut Reading<'s>,
    texts: T,
    bytes: &[u8],
) -> Result<JsonValue<'s>, JsonError>
    requires texts { T.of texts bytes.now }
    requires repeats { T.policy.unique ≡ false }
    requires empty { HoldsNothing reading.old.stacks }
    ensures parses { Parses (tree_as T.policy.text) (MayGrowBy T.wants bytes.now (past_blanks bytes.now 0))
        reading.old.settings.allow_inf_nan reading.old.settings.mode bytes.now result }
    ensures cleared { IfOk result (λ v. IsCleared reading.new.stacks) }
{
    let mut parser = Parser::new(bytes);
    match read_whole(reading, texts, &mut parser) {
        Ok(value) => Ok(value),
        Err(error) => Err(error_at(error, parser.index)),
    }
}

/// Parses a document with the buffers and settings of this reading. Strings without a backslash are borrowed.
#[inline(always)]
pub(crate) fn read_text<'j>(
    reading: &mut Reading<'j>,
    bytes: &'j [u8],
) -> Result<JsonValue<'j>, JsonError>
    requires { HoldsNothing reading.old.stacks }
    ensures parses { Parses as_read (MayGrow bytes.now) reading.old.settings.allow_inf_nan reading.old.settings.mode
        bytes.now result }
    ensures cleared { IfOk result (λ v. IsCleared reading.new.stacks) }
{
    let texts = Borrowing { bytes };
    read_text_as(reading, texts, bytes)
}
