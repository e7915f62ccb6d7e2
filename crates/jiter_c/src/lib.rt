//! The library for C, and for Rust that links it; ffi/jiter_c.h declares its functions. No memory changes its owner:
//! strings are copied to the caller's memory or borrowed from the caller's bytes. A call that returns `false` for an
//! error has written nothing except `fault` and the reader's position.
#![tactic(auto)]

mod descriptions;
mod document_doubles;
mod document_texts;
mod documents;
mod faults;
mod handles;
mod keys;
mod line_index;
mod parser;
mod parts;
mod reader;
mod scalars;
mod steps;
mod texts;
mod values;
mod walk;
