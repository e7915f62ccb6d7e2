//! The error of calls that may allocate.
ghost use Rattle.std.specs.Prelude.{◌≡◌};

use jiter_scan::errors::Fault;
use jiter_scan::memory::AllocFailed;

/// Why reading failed.
#[derive(Debug, PartialEq, Eq, Drop)]
pub enum ReadError {
    /// The bytes have an error.
    Fault(Fault),
    /// An allocation failed.
    Memory(AllocFailed),
}

impl From<Fault> for ReadError {
    ghost use Rattle.jiter_steps.specs.declared.read_error.ReadError.TheVariants as error;

    ghost from_gives = { λ fault e. e ≡ error.Fault fault };

    fn from(fault: Fault) -> ReadError {
        ReadError::Fault(fault)
    }
}

impl From<AllocFailed> for ReadError {
    ghost use Rattle.jiter_steps.specs.declared.read_error.ReadError.TheVariants as error;

    ghost from_gives = { λ refused e. e ≡ error.Memory refused };

    fn from(refused: AllocFailed) -> ReadError {
        ReadError::Memory(refused)
    }
}
