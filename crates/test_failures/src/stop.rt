//! Why a run of calls ends early.
use crate::outcome::Outcome;
use jiter::{JiterError, JiterErrorType, JsonErrorType as Kind};
use std::alloc::{AllocError, Global};

/// Why a run of calls ends early.
#[derive(Drop)]
pub enum Stop {
    /// A call of the reader failed.
    Reader(JiterError),
    /// An allocation of the program itself failed.
    Own(AllocError),
    /// Something that is promised does not hold.
    Broken(&'static str),
}

impl From<JiterError> for Stop {
    ghost from_gives = { λ _ _. Unit {0} };

    fn from(error: JiterError) -> Self {
        Stop::Reader(error)
    }
}

impl From<AllocError> for Stop {
    ghost from_gives = { λ _ _. Unit {0} };

    fn from(error: AllocError) -> Self {
        Stop::Own(error)
    }
}

impl Stop {
    /// Returns what the run comes to. Fails if an allocation of the program itself did.
    pub fn outcome(self, alloc: Global) -> Result<Outcome, AllocError> {
        match self {
            Stop::Own(error) => Err(error),
            Stop::Broken(what) => Outcome::broken(alloc, what),
            Stop::Reader(error) if is_short(&error) => Outcome::refused(alloc),
            Stop::Reader(error) => Ok(Outcome::Answered(format!(in alloc;
                "{} at {}",
                error.error_type, error.index
            )?)),
        }
    }
}

/// Whether an allocation failed.
pub fn is_short(error: &JiterError) -> bool {
    error.error_type == JiterErrorType::JsonError(Kind::OutOfMemory)
}
