//! Bytes sixteen at a time: scans of strings, digits in decimal, the buffer of decoded strings.

pub mod decimal;
pub mod decode_buffer;
pub mod short_scan;
pub mod simd;
