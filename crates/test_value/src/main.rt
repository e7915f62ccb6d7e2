//! Tests of `jiter_value`: the program reads rows of calls that read a document and look into its value, and writes each
//! with its answer. Crate test_rows says how a row is written. The crate test_core has what no row can show.
#![tactic(auto)]

mod errors;
mod line;
mod readings;
mod values;

use line::one_line;
use std::alloc::{AllocError, Global};
use std::io;
use test_rows::{Row, bytes_of, row_of};

fn main(rt: HostRuntime) -> io::Result<()> {
    for line in rt.lines(rt.alloc()) {
        let line = line?;
        match row_of(line.as_str()) {
            Some(row) => {
                let answer = answer_of(rt.alloc(), &row)?;
                println!(rt; "{line} => {answer}")?;
            }
            None => println!(rt; "{line}")?,
        }
    }
    Ok(())
}

// What the row's call answers.
fn answer_of(alloc: Global, row: &Row<'_>) -> Result<String, AllocError> {
    let bytes = bytes_of(alloc, row.input)?;
    let bytes = bytes.as_slice();
    if let Some(answer) = readings::answer(alloc, row, bytes)? {
        return one_line(alloc, answer.as_str());
    }
    if let Some(answer) = errors::answer(alloc, row, bytes)? {
        return one_line(alloc, answer.as_str());
    }
    let answer = values::answer(alloc, row, bytes)?;
    one_line(alloc, answer.as_str())
}
