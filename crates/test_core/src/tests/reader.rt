//! The pull reader: damage and skips, and its errors beside one another.
mod alike;
mod damage;
mod skips;
