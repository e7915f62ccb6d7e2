//! The words that are values: the literals (RFC 8259, 3) and the non-finite numbers.
ghost use Rattle.std.specs.Prelude.{◌≡◌, IfOk};
ghost use Rattle.jiter_incremental.specs.Words.{float, text_of, name_tree, name_word, view};

use jiter_scan::memory::{AllocFailed, copy_text};
use jiter_scan::partial_word::PartialWord;
use jiter_steps::parse::Literal;
use jiter_value::value::JsonValue;
use std::alloc::Global;
use std::borrow::CowStr;

/// A word that is a value.
#[derive(Clone, Copy, Debug)]
pub enum WordValue {
    /// `null`, `true` or `false`.
    Literal(Literal),
    /// `NaN`
    NaN,
    /// `Infinity`
    Infinity,
    /// `-Infinity`; its word is what follows the minus.
    MinusInfinity,
}

fn float(alloc: Global, name: &str) -> Result<JsonValue<'static>, AllocFailed>
    ensures { IfOk result (λ v. view v ≡ float (text_of name.now)) }
{
    let text = copy_text(alloc, name)?;
    Ok(JsonValue::Float(CowStr::Owned(text)))
}

/// Returns the value of a literal.
pub(crate) fn literal_value(literal: Literal) -> JsonValue<'static>
    ensures { view result ≡ name_tree (WordValue.Literal literal) }
{
    match literal {
        Literal::Null => JsonValue::Null,
        Literal::True => JsonValue::Bool(true),
        Literal::False => JsonValue::Bool(false),
    }
}

impl WordValue {
    /// Returns the word with its first byte taken.
    pub fn begun(self) -> PartialWord
        ensures word { result.word.now ≡ name_word self }
        ensures seen { result.seen ≡ 1 }
    {
        match self {
            WordValue::Literal(Literal::Null) => PartialWord::begun(b"null"),
            WordValue::Literal(Literal::True) => PartialWord::begun(b"true"),
            WordValue::Literal(Literal::False) => PartialWord::begun(b"false"),
            WordValue::NaN => PartialWord::begun(b"NaN"),
            WordValue::Infinity => PartialWord::begun(b"Infinity"),
            WordValue::MinusInfinity => PartialWord::begun(b"Infinity"),
        }
    }

    /// Returns the value; a non-finite number owns its source text.
    pub fn value(self, alloc: Global) -> Result<JsonValue<'static>, AllocFailed>
        ensures { IfOk result (λ v. view v ≡ name_tree self) }
    {
        match self {
            WordValue::Literal(literal) => Ok(literal_value(literal)),
            WordValue::NaN => float(alloc, "NaN"),
            WordValue::Infinity => float(alloc, "Infinity"),
            WordValue::MinusInfinity => float(alloc, "-Infinity"),
        }
    }
}
