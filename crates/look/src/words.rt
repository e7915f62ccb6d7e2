//! The settings of a run.
use jiter::PartialMode;

/// The settings that the arguments ask for.
#[derive(Debug, PartialEq, Eq, Drop)]
pub struct Words {
    /// How a truncated document is read.
    pub mode: PartialMode,
    /// Whether `NaN`, `Infinity` and `-Infinity` are numbers.
    pub inf_nan: bool,
    /// Whether a duplicate key is an error.
    pub unique: bool,
}
