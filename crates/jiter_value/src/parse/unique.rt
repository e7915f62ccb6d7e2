//! Parsing a document in which no object repeats a key.
ghost use Rattle.std.specs.Prelude.{◌≡◌, ◌≤◌, IfOk, MatchResult};
ghost use Rattle.jiter_value.specs.Words.{past_blanks, Node, value_of, NeverMovesBack, IsUniqueDocument};
ghost use Rattle.jiter_value.specs.Words.{unique_answer_in, AnswersBy, ParsesUnique, refusing_repeats};
ghost use Rattle.jiter_value.specs.Words.{HoldsNothing, IsMemoryRefused, GivesUniqueWhole, IsUniqueErrorOf};
ghost use Rattle.jiter_value.specs.Words.{WhereUniqueRefused, view, MayGrowBy};

use crate::parse::reading::{error_at, finish_whole};
use crate::parse::settings::Settings;
use crate::parse::string_storage::BorrowingUnique;
use crate::parse::turns::Reading;
use crate::parse::turns::unique::{Interrupted, run_unique};
use crate::parse::unique_error::{UniqueError, UniqueErrorType};
use crate::value::JsonValue;
use jiter_scan::PartialMode;
use jiter_steps::parse::Parser;
use jiter_steps::read_error::ReadError;
use jiter_steps::step::value_first;
use std::alloc::Global;

/// Reads a document from index 0, with the buffers and settings of this reading. Stops at a duplicate key.
pub(crate) fn read_unique<'j>(
    reading: &mut Reading<'j>,
    parser: &mut Parser<'j>,
) -> Result<JsonValue<'j>, Interrupted>
    requires begins { parser.old.index ≡ 0 }
    requires empty { HoldsNothing reading.old.stacks }
    ensures moves { NeverMovesBack parser.old parser.new }
    ensures value { GivesUniqueWhole result parser.new.index
        (unique_answer_in reading.old.settings.allow_inf_nan reading.old.settings.mode parser.old.bytes.now) }
    ensures memory { WhereUniqueRefused result
        (MayGrowBy ⊥ parser.old.bytes.now (past_blanks parser.old.bytes.now 0)) }
    ensures place { WhereUniqueRefused result (past_blanks parser.old.bytes.now 0 ≤ parser.new.index) }
{
    if let Err(fault) = parser.go(value_first(parser.bytes, parser.index)) {
        return Err(Interrupted::Read(ReadError::Fault(fault)));
    }
    let texts = BorrowingUnique {
        bytes: parser.bytes,
    };
    match run_unique(reading, texts, parser) {
        Err(stopped) => Err(stopped),
        Ok(value) => match finish_whole::<BorrowingUnique<'j>>(parser, reading.settings, value) {
            Ok(whole) => Ok(whole),
            Err(error) => Err(Interrupted::Read(error)),
        },
    }
}

/// Returns the error of a parse that stopped. A failed allocation gets `index`, any other error has its own.
#[cold]
fn unique_error_at(stopped: Interrupted, index: usize) -> UniqueError
    ensures { IsUniqueErrorOf stopped index result }
{
    match stopped {
        Interrupted::Read(error) => UniqueError::from(error_at(error, index)),
        Interrupted::Repeated(repeated) => UniqueError {
            error_type: UniqueErrorType::DuplicateKey(repeated.key),
            index: repeated.index,
        },
    }
}

impl<'j> JsonValue<'j> {
    /// Parses bytes as [`JsonValue::parse_with_config`] does, and rejects a duplicate key in every mode.
    ///
    /// Keys are compared decoded, within one object (RFC 8259, 4). After an object's 33rd member, a set is allocated.
    ///
    /// # Errors
    ///
    /// - `DuplicateKey` if an object repeats a key. The index is the byte after the second key's colon. An error in
    ///   that key, or a missing colon, is reported instead.
    /// - any error of [`JsonValue::parse_with_config`], including `OutOfMemory`
    ///
    /// # Examples
    ///
    /// ```rust
    /// let bytes = br#"{"a": 1, "\u0061": 2}"#;
    /// if let Err(error) = JsonValue::parse_unique(alloc, bytes, false, PartialMode::Off) {
    ///     assert_eq!(rt; error.index, 18);
    /// }
    /// ```
    pub fn parse_unique(
        alloc: Global,
        bytes: &'j [u8],
        allow_inf_nan: bool,
        allow_partial: PartialMode,
    ) -> Result<JsonValue<'j>, UniqueError>
        // With partial reading off, a value is returned only for a document without duplicate keys, and is its value.
        ensures found { allow_partial ≡ PartialMode.Off → IfOk result (λ v. (n : Node)
            × IsUniqueDocument allow_inf_nan bytes.now n × (value_of bytes.now n ≡ view v)) }
        // In every mode such a document gives its value, unless an allocation fails.
        ensures accepts { (n : Node) → IsUniqueDocument allow_inf_nan bytes.now n → MatchResult result
            (λ v. view v ≡ value_of bytes.now n) (λ e. IsMemoryRefused e.error_type) }
        // On any bytes: what a reading from the left gives in this mode, if a duplicate key is an error.
        ensures answer { AnswersBy (refusing_repeats allow_inf_nan) result
            (unique_answer_in allow_inf_nan allow_partial bytes.now) }
        // What every parse promises, for such documents: also where its errors are and when it may run out of memory.
        ensures parses { ParsesUnique allow_inf_nan allow_partial bytes.now result }
    {
        let settings = Settings {
            allow_inf_nan,
            mode: allow_partial,
        };
        let mut reading = Reading::new(alloc, settings);
        let mut parser = Parser::new(bytes);
        match read_unique(&mut reading, &mut parser) {
            Ok(value) => Ok(value),
            Err(stopped) => Err(unique_error_at(stopped, parser.index)),
        }
    }
}
