//! Reads the members of an object, or the items of an array, each by a method of yours.
#![tactic(auto)]

mod borrowed;
mod float;
mod integer;
mod items;
mod members;
mod name;
mod object;
mod path;
mod scalars;
mod value;
mod walk_error;

pub use borrowed::next_text_cow;
pub use float::next_f64;
pub use integer::{Integer, OutOfRange, next_integer_as};
pub use items::{Items, each_item};
pub use members::{Members, each_member};
pub use name::{Named, next_named};
pub use object::{Object, read_object, read_object_document};
pub use path::path_at;
pub use scalars::{
    next_flag, next_integer, next_integer_in, next_null, next_number, next_number_source,
    next_place, next_source, next_text, next_tree, skip,
};
pub use value::{Value, next_or_null, push, read_document, read_list};
pub use walk_error::{WalkError, fail_at};
