//! Parses documents that come in chunks. You get the value so far after each chunk; the chunks are not kept.
#![tactic(auto)]

pub mod ends;
pub mod incremental_parser;
mod line_index;
pub mod names;
pub mod punctuation;
pub mod reader;
pub mod slot;
pub mod tokens;
pub mod values;

pub use incremental_parser::{IncrementalParser, parse_chunks};
pub use line_index::LineIndex;
