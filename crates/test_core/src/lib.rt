//! What no row of a table can show of the five core crates: every size, every byte of damage, copies, equality, and the
//! examples of docs/CALLING.md whose document comes in chunks. Tests alone.
#![tactic(auto)]

#[cfg(test)]
mod tests;
