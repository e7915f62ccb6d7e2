//! What all readers of JSON need: errors, positions, allocations, literals, numbers, scans of strings, partial modes.
#![tactic(auto)]

pub mod bytes;
pub mod errors;
pub mod memory;
pub mod number;
pub mod partial_mode;
pub mod partial_word;
pub mod text;
pub mod word;

pub use errors::{Fault, FaultKind, JsonError, JsonErrorType, JsonResult, LinePosition};
pub use memory::AllocFailed;
pub use number::number_decoder::{NumberAny, NumberInt};
pub use partial_mode::PartialMode;
