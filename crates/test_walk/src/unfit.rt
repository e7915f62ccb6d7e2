//! Causes of the tests' own.
ghost use Rattle.test_walk.specs.declared.unfit.Unfit.TheVariants as cause;

use jiter_walk::OutOfRange;
use std::fmt;

/// Why a value isn't what a test reads.
#[derive(Debug, Clone, Copy)]
pub enum Unfit {
    /// The number isn't one of its type or bounds.
    Range,
    /// The string names nothing.
    NoState,
    /// There is no member `id`.
    NoId,
    /// There is no member `name`.
    NoName,
    /// There is a second member of a key.
    Repeated,
    /// The key is another one.
    Unknown,
}

impl fmt::Display for Unfit {
    fn fmt<W: fmt::Write>(&self, f: &mut fmt::Formatter<W>) -> fmt::Result {
        f.write_str(match self {
            Self::Range => "out of range",
            Self::NoState => "no such state",
            Self::NoId => "id is missing",
            Self::NoName => "name is missing",
            Self::Repeated => "duplicate key",
            Self::Unknown => "unknown key",
        })
    }
}

impl OutOfRange for Unfit {
    ghost out_of_range = { cause.Range };

    fn out_of_range() -> Unfit {
        Unfit::Range
    }
}
