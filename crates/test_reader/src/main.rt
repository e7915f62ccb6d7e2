//! Tests of the pull reader: the program reads rows of calls and writes each with its answer. What no row can show is in
//! the crate test_core: damage, skips, and how its errors compare.
//!
//! A row names one call of `Jiter`, or several joined by commas. The answer shows what each call returns, and after `@`
//! the index where it leaves the reader.
#![tactic(auto)]

mod known;
mod next;
mod prefixes;
mod reading;
mod told;

use std::alloc::{AllocError, Global};
use std::io;
use test_rows::{Row, row_of};

fn main(rt: HostRuntime) -> io::Result<()> {
    for line in rt.lines(rt.alloc()) {
        let line = line?;
        match row_of(line.as_str()) {
            Some(row) => {
                let answer = answer_of(rt.alloc(), row)?;
                println!(rt; "{line} => {answer}")?;
            }
            None => println!(rt; "{line}")?,
        }
    }
    Ok(())
}

// What the row's calls answer, on one line.
fn answer_of(alloc: Global, row: Row<'_>) -> Result<String, AllocError> {
    let answer = match row.call {
        "two_prefixes" => prefixes::answer(alloc, row)?,
        "types" => told::types(alloc)?,
        _ => reading::answer(alloc, row)?,
    };
    answer.replace(alloc, "\n", "%0A")
}
