//! The tape; growths of every size; equality and clones.
mod numbers;
mod sizes;
mod tapes;
