//! What the tests and the programs of rows share: values and errors in words.
#![tactic(auto)]

pub mod told;
