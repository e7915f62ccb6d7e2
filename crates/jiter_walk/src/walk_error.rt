//! Errors of a walk.
ghost use Rattle.std.specs.Prelude.{◌≡◌, ◌≤◌, length};
ghost use Rattle.jiter.specs.Caller.{position_of};
ghost use Rattle.jiter_walk.specs.declared.walk_error.WalkError.TheVariants as variant;
ghost use Rattle.jiter_walk.specs.Walk.{NeverOutOfMemory, Walks, custom, fails, index_of, is_memory_reason, reason, reason_output};

use jiter::{Jiter, JiterError, LinePosition};
use std::fmt;

/// Why a value can't be read, and where.
#[derive(Debug, Drop)]
pub enum WalkError<C> {
    /// An error of the pull reader: an error in the bytes, a value of another type, or out of memory.
    Reader(JiterError),
    /// A cause of your own, and its byte index.
    Custom(C, usize),
}

impl<C> WalkError<C> {
    /// Returns the line and column of the error, in the bytes that were read.
    pub fn position(&self, bytes: &[u8]) -> LinePosition
        ensures { result ≡ position_of bytes.now (index_of self.now) }
    {
        match self {
            Self::Reader(error) => LinePosition::find(bytes, error.index),
            Self::Custom(_, index) => LinePosition::find(bytes, *index),
        }
    }

    /// Returns whether an allocation failed. Such an error says nothing about the bytes.
    pub fn is_memory(&self) -> bool
        ensures { result ≡ is_memory_reason (reason self.now) }
    {
        matches!(self, Self::Reader(error) if error.is_memory())
    }
}

impl<C> From<JiterError> for WalkError<C> {
    ghost from_gives = { λ error given. given ≡ variant.Reader error };

    fn from(error: JiterError) -> Self {
        Self::Reader(error)
    }
}

impl<C: fmt::Display> fmt::Display for WalkError<C> {
    ghost output = { λ error. reason_output C.output (reason error) };

    fn fmt<W: fmt::Write>(&self, f: &mut fmt::Formatter<W>) -> fmt::Result {
        match self {
            Self::Reader(error) => write!(f, "{}", error.error_type),
            Self::Custom(cause, _) => write!(f, "{cause}"),
        }
    }
}

/// Returns an error of your own for a member that isn't read, as an unknown key or a second one. Nothing is read.
///
/// # Errors
///
/// - `Custom` with `cause`, at `at`
///
/// # Requires
///
/// `at` is within the bytes, as the index of a key is.
///
/// # Examples
///
/// ```rust
/// "name" if self.name.is_some() => fail_at(jiter, Unfit::SecondName, at)?,
/// ```
pub fn fail_at<C: Drop>(jiter: &Jiter<'_>, cause: C, at: usize) -> Result<(), WalkError<C>>
    requires { at ≤ length jiter.now.text }
    ensures walks { Walks (λ u. u) (λ t n. fails (custom cause) at) result jiter.now jiter.now }
    ensures never { NeverOutOfMemory result }
{
    // (so that the reader's position is known to be within its bytes)
    let _ = jiter.current_index();
    Err(WalkError::Custom(cause, at))
}
