//! What programs over files of JSON share: logs that are read line by line, the line that reports an error, and how a
//! program takes its words and ends.
#![tactic(auto)]

mod array;
mod items;
mod line;
mod log;
mod program;
mod progress;
mod reading;
mod report;

pub use items::convert_items;
pub use line::{Convert, Outcome, refusal_line, refusal_of};
pub use log::{Counts, Origin, convert_log};
pub use program::{
    Program, ReadInput, base_command, convert_logs, log_command, main_of, read_each,
};
pub use progress::{Progress, Reports, Tally, Watched, progress_text};
