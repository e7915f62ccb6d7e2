//! What clients of `jiter` write: the examples of README.md and docs/CALLING.md, a caller that is proved, printing, and the
//! progress of a log. Tests alone.
#![tactic(auto)]

#[cfg(test)]
mod tests;
