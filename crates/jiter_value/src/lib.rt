//! JSON documents as trees (`JsonValue`), and the calls that parse them. Strings without a backslash are borrowed.
#![tactic(auto)]

pub mod parse;
pub mod value;

pub use parse::machine::{Machine, Turn};
pub use parse::scratch::JsonValueScratch;
pub use parse::unique_error::{UniqueError, UniqueErrorType};
pub use value::{JsonArray, JsonObject, JsonValue};
