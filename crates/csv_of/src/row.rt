//! The CSV row of a line (RFC 4180): a cell for each column, with a comma or a tab between cells.
ghost use Rattle.std.specs.Prelude.{◌≡◌, ◌++◌, IfOk, OnOk, false, option_map};
ghost use Rattle.jiter.specs.Caller.{IsUniqueDocument, Node, value_of, view};
ghost use Rattle.json_lines.specs.Line.{seen};
ghost use Rattle.csv_of.specs.Row.{Becomes, cell_in, cell_of, header_of, no_cell, outcome_of, quoted};
ghost use Rattle.csv_of.specs.Row.{row_if, row_of, shown_by};

use crate::columns::{Column, Columns};
use itoa::Buffer;
use jiter::{JsonValue, PartialMode};
use jiter_print::print;
use json_lines::{Convert, Outcome};
use memchr::memchr;
use std::alloc::{AllocError, Global};

// Appends a text between quotes, with each quote in it written twice.
fn push_quoted(row: &mut Vec<u8>, text: &[u8]) -> Result<(), AllocError>
    ensures { OnOk result (row.new.items ≡ row.old.items ++ quoted text.now) }
{
    row.push(b'"')?;
    let mut rest = text;
    while let Some(at) = memchr(b'"', rest) {
        row.extend_from_slice(&rest[..=at])?;
        row.push(b'"')?;
        rest = &rest[at + 1..];
    }
    row.extend_from_slice(rest)?;
    row.push(b'"')?;
    Ok(())
}

// Appends the cell of a value. Returns whether it has one.
fn push_cell(
    alloc: Global,
    nested: bool,
    value: &JsonValue<'_>,
    row: &mut Vec<u8>,
) -> Result<bool, AllocError>
    ensures { IfOk result (λ has. row_if has row.new.items
        ≡ option_map (λ cell. row.old.items ++ cell) (cell_in nested (view value.now))) }
{
    match value {
        JsonValue::Null => {}
        JsonValue::Bool(true) => row.extend_from_slice(b"true")?,
        JsonValue::Bool(false) => row.extend_from_slice(b"false")?,
        JsonValue::Int(number) => {
            row.extend_from_slice(Buffer::new().format(*number).as_bytes())?
        }
        JsonValue::BigInt(text) => row.extend_from_slice(text.as_str().as_bytes())?,
        JsonValue::Float(text) => row.extend_from_slice(text.as_str().as_bytes())?,
        JsonValue::Str(text) => push_quoted(row, text.as_str().as_bytes())?,
        JsonValue::Array(_) | JsonValue::Object(_) => {
            if !nested {
                return Ok(false);
            }
            push_quoted(row, print(alloc, value)?.as_slice())?;
        }
    }
    Ok(true)
}

fn shown<'v, 's>(column: &Column<'_>, object: &'v JsonValue<'s>) -> Option<&'v JsonValue<'s>>
    ensures { option_map (λ v. view v.now) result ≡ shown_by (option_map (λ p. p.now) column.now.pointer)
        column.now.name.now (view object.now) }
{
    match column.pointer {
        Some(pointer) => object.pointer(pointer),
        None => object.get(column.name),
    }
}

// Appends a column's cell. A value that is missing makes an empty one, as `null` does.
fn push_column(
    alloc: Global,
    nested: bool,
    column: &Column<'_>,
    object: &JsonValue<'_>,
    row: &mut Vec<u8>,
) -> Result<bool, AllocError>
    ensures { IfOk result (λ has. row_if has row.new.items
        ≡ option_map (λ cell. row.old.items ++ cell) (cell_of nested column.now (view object.now))) }
{
    push_cell(
        alloc,
        nested,
        shown(column, object).unwrap_or(&JsonValue::Null),
        row,
    )
}

fn no_cell(alloc: Global, name: &str) -> Result<Outcome, AllocError>
    ensures { IfOk result (λ outcome. seen outcome ≡ no_cell name.now) }
{
    let cause = format!(in alloc; "the value of {name} is an array or an object")?;
    Ok(Outcome::Refused(1, cause))
}

// The row of an object whose text has so many bytes.
fn row_of(
    alloc: Global,
    columns: &Columns<'_>,
    object: &JsonValue<'_>,
    size: usize,
) -> Result<Outcome, AllocError>
    ensures { IfOk result (λ outcome. seen outcome ≡ row_of columns.now (view object.now)) }
{
    let mut row = Vec::with_capacity(alloc, size)?;
    if !push_column(alloc, columns.nested, &columns.first, object, &mut row)? {
        return no_cell(alloc, columns.first.name);
    }
    for column in &columns.others {
        row.push(columns.separator)?;
        if !push_column(alloc, columns.nested, column, object, &mut row)? {
            return no_cell(alloc, column.name);
        }
    }
    row.extend_from_slice(b"\r\n")?;
    Ok(Outcome::Text(row))
}

fn outcome_of(
    alloc: Global,
    columns: &Columns<'_>,
    value: &JsonValue<'_>,
    size: usize,
) -> Result<Outcome, AllocError>
    ensures { IfOk result (λ outcome. seen outcome ≡ outcome_of columns.now (view value.now)) }
{
    if value.as_object().is_none() {
        return Ok(Outcome::Refused(1, String::from_str(alloc, "not an object")?));
    }
    row_of(alloc, columns, value, size)
}

/// Returns the row of the columns' names, each between quotes.
///
/// # Errors
///
/// - `AllocError` if an allocation fails
pub fn header_of(alloc: Global, columns: &Columns<'_>) -> Result<Vec<u8>, AllocError>
    ensures { IfOk result (λ row. row.items ≡ header_of columns.now) }
{
    let mut row = Vec::new(alloc);
    push_quoted(&mut row, columns.first.name.as_bytes())?;
    for column in &columns.others {
        row.push(columns.separator)?;
        push_quoted(&mut row, column.name.as_bytes())?;
    }
    row.extend_from_slice(b"\r\n")?;
    Ok(row)
}

impl Convert for Columns<'_> {
    ghost becomes = { Becomes };

    /// Converts a line to its row, or to the reason why it has none.
    ///
    /// A string becomes its decoded text between quotes; a number, `true` and `false` become their compact text. `null` and
    /// a value that is missing become an empty cell. An array or an object becomes its compact text between quotes, or the
    /// line is refused. An error of the document is at its byte, any other one at the line's first column.
    ///
    /// # Errors
    ///
    /// - `AllocError` if an allocation fails
    fn convert(&self, alloc: Global, line: &[u8]) -> Result<Outcome, AllocError>
        // A document without duplicate keys becomes the row of its value, or is refused for that value.
        ensures document { (n : Node) → IsUniqueDocument false line.now n → IfOk result
            (λ outcome. seen outcome ≡ outcome_of self.now (value_of line.now n)) }
        // Any other line is refused for its first error.
        ensures first { IfOk result (λ outcome. Becomes self.now line.now (seen outcome)) }
    {
        match JsonValue::parse_unique(alloc, line, false, PartialMode::Off) {
            Ok(value) => outcome_of(alloc, self, &value, line.len()),
            Err(error) if error.is_memory() => Err(AllocError),
            Err(error) => {
                let cause = format!(in alloc; "{}", error.error_type)?;
                Ok(Outcome::Refused(error.index + 1, cause))
            }
        }
    }
}
