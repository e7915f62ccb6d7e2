//! Numbers (RFC 8259, 6): where one ends, what it is, and numbers that come in chunks.

pub mod fast_number;
pub mod number_decoder;
pub mod number_span;
pub mod number_within;
pub mod partial_number;
