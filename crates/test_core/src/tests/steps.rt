//! Whitespace and strings of each length, with damage at each index; strings cut at every byte.
mod blanks;
mod open_strings;
mod open_texts;
mod raw_strings;
mod skips;
