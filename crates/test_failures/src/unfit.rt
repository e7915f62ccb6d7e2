//! Causes of an error of a walk.
ghost use Rattle.std.specs.Prelude.{Some};
ghost use Rattle.test_failures.specs.Objects.{unfit_text};

use std::fmt;

/// Why a document does not have the form that a walk reads.
#[derive(Debug, Clone, Copy)]
pub enum Unfit {
    /// The integer is out of range.
    Range,
    /// The string names no state.
    NoState,
    /// A field is missing.
    Missing,
    /// A key is there twice.
    Repeated,
    /// No field has this key.
    Unknown,
}

impl fmt::Display for Unfit {
    ghost output = { λ unfit. Some (unfit_text unfit) };

    fn fmt<W: fmt::Write>(&self, f: &mut fmt::Formatter<W>) -> fmt::Result {
        f.write_str(match self {
            Self::Range => "out of range",
            Self::NoState => "no state",
            Self::Missing => "missing field",
            Self::Repeated => "duplicate key",
            Self::Unknown => "unknown key",
        })
    }
}
