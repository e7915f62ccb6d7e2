//! How a document is read, and which errors a partial mode forgives.
ghost use Rattle.std.specs.Prelude.{◌≡◌};
ghost use Rattle.jiter_value.specs.Words.{fault_kind, forgives};

use jiter_scan::PartialMode;
use jiter_scan::errors::FaultKind;

/// How a document is read.
#[derive(Clone, Copy, Debug)]
pub struct Settings {
    /// Whether `NaN`, `Infinity` and `-Infinity` are numbers.
    pub allow_inf_nan: bool,
    /// Whether a truncated document is accepted, and how it is read.
    pub mode: PartialMode,
}

/// Returns whether an error inside a container is forgiven. Reading then goes on as if the container had closed there.
pub fn forgives(mode: PartialMode, kind: FaultKind) -> bool
    ensures { result ≡ forgives mode (fault_kind kind) }
{
    mode.is_active()
        && matches!(
            kind,
            FaultKind::EofWhileParsingList
                | FaultKind::EofWhileParsingObject
                | FaultKind::EofWhileParsingString
                | FaultKind::EofWhileParsingValue
                | FaultKind::ExpectedListCommaOrEnd
                | FaultKind::ExpectedObjectCommaOrEnd
        )
}
