//! The columns that a row has.

/// A column: which value it shows, and its name in the header.
#[derive(Debug, Clone, Copy)]
pub struct Column<'n> {
    /// The name in the header. Without a pointer it is the name of the member that is shown.
    pub name: &'n str,
    /// The JSON Pointer that leads to the value.
    pub pointer: Option<&'n str>,
}

impl<'n> Column<'n> {
    /// Returns the column that a word of the command line asks for: `NAME`, `/POINTER` or `NAME=/POINTER`.
    pub fn of_word(word: &'n str) -> Self {
        if let Some((name, pointer)) = word.split_once('=') {
            if pointer.starts_with('/') {
                return Self {
                    name,
                    pointer: Some(pointer),
                };
            }
        }
        let pointer = if word.starts_with('/') {
            Some(word)
        } else {
            None
        };
        Self {
            name: word,
            pointer,
        }
    }
}

/// The columns of a row, in their order.
#[derive(Drop)]
pub struct Columns<'n> {
    /// The first column.
    pub first: Column<'n>,
    /// The columns after it.
    pub others: Vec<Column<'n>>,
    /// The byte between two cells.
    pub separator: u8,
    /// Whether an array or an object makes a cell.
    pub nested: bool,
}
