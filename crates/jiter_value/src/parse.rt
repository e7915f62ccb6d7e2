//! The calls that parse a document into a value, and the machine that they run.

pub mod machine;
pub mod parse_owned;
pub mod reading;
pub mod scratch;
pub mod settings;
pub mod stacks;
pub mod string_storage;
pub(crate) mod turns;
pub mod unique;
pub mod unique_error;
