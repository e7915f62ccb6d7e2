//! Structs that the tests of `jiter_walk` read from documents, and these tests.
#![tactic(auto)]

mod records;
mod state;
#[cfg(test)]
mod tests;
mod unfit;

pub use records::{Part, Record};
pub use state::State;
pub use unfit::Unfit;
