//! What a terminal shows of a text with a JSON document in it, while it arrives.
#![tactic(auto)]

mod input;
mod report;
mod screen;
mod shown;

pub use input::{Input, Options};
pub use report::{error_report, parse_report};
pub use screen::{Rows, Shown, redraw};
pub use shown::rows_of;
