//! Prints values and strings as JSON text, and writes complete lines.
#![tactic(auto)]

mod buffer;
mod lines;
mod strings;
mod values;

pub use lines::write_line;
pub use strings::print_str;
pub use values::{print, print_pretty};
