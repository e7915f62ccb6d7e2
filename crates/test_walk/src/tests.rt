//! Walks over values, lists and objects, and paths to values.
mod calls;
mod objects;
mod paths;
mod shown;
mod values;
