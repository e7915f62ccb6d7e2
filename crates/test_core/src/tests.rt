//! A module for each of the five crates.
mod incremental;
mod reader;
mod scan;
mod steps;
mod value;
