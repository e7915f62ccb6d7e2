//! A JSON parser for bytes that you don't trust, and for truncated documents. Parse a document to a [`JsonValue`], or
//! read it step by step with a [`Jiter`]:
//!
//! ```rust
//! let value = JsonValue::parse(alloc, br#"{"ports": [80, 443]}"#, false)?;
//! assert_eq!(rt; value.pointer("/ports/0").and_then(|port| port.as_i64()), Some(80));
//! ```
//!
//! docs/CALLING.md has an example of each interface.
#![tactic(auto)]

pub mod client;
mod errors;
mod jiter;
mod peek;

pub use errors::{JiterError, JiterErrorType, JiterResult, JsonType};
pub use jiter::Jiter;
pub use jiter_scan::bytes::simd;
pub use jiter_scan::{
    JsonError, JsonErrorType, JsonResult, LinePosition, NumberAny, NumberInt, PartialMode,
};
pub use jiter_value::{
    JsonArray, JsonObject, JsonValue, JsonValueScratch, Machine, Turn, UniqueError, UniqueErrorType,
};
pub use peek::Peek;
