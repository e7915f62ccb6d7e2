//! What becomes of a line: the compact text of its document, or its first error.
ghost use Rattle.std.specs.Prelude.{◌≡◌, ◌≤◌, false, IfErr, length};
ghost use Rattle.jiter_value.specs.Parses.{AnswersBy};
ghost use Rattle.jiter_value.specs.ParsesUnique.{refusing_repeats};
ghost use Rattle.importer.specs.Line.{Becomes, reading_of};

use jiter::{JsonValue, PartialMode, UniqueError};
use jiter_print::print;
use json_lines::{Convert, Outcome};
use std::alloc::{AllocError, Global};

/// How a log is read.
#[derive(Clone, Copy)]
pub struct Importer {
    /// Whether a duplicate key is an error.
    pub unique: bool,
}

fn parse<'j>(alloc: Global, unique: bool, line: &'j [u8]) -> Result<JsonValue<'j>, UniqueError>
    ensures answers { AnswersBy (refusing_repeats false) result (reading_of unique line.now) }
    ensures index { IfErr result (λ e. e.index ≤ length line.now) }
{
    if unique {
        return JsonValue::parse_unique(alloc, line, false, PartialMode::Off);
    }
    match JsonValue::parse_with_config(alloc, line, false, PartialMode::Off) {
        Ok(value) => Ok(value),
        Err(error) => Err(UniqueError::from(error)),
    }
}

impl Convert for Importer {
    ghost becomes = { Becomes };

    fn convert(&self, alloc: Global, line: &[u8]) -> Result<Outcome, AllocError> {
        match parse(alloc, self.unique, line) {
            Ok(value) => {
                let mut text = print(alloc, &value)?;
                text.push(b'\n')?;
                Ok(Outcome::Text(text))
            }
            Err(error) if error.is_memory() => Err(AllocError),
            Err(error) => {
                let cause = format!(in alloc; "{}", error.error_type)?;
                Ok(Outcome::Refused(error.index + 1, cause))
            }
        }
    }
}
