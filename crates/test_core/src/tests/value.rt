//! Access to values, copies, equality, and damaged documents.
mod access;
mod copies;
mod damage;
mod unique_errors;
