//! Tests of documents that arrive in chunks: the program reads rows of calls and writes each with its answer. The examples
//! of docs/CALLING.md are in the crate test_core.
//!
//! ` | ` stands between two chunks of a row.
#![tactic(auto)]

mod chunks;

use chunks::{errors, feeds, moved_out, pushed, whole};
use std::alloc::{AllocError, Global};
use std::io;
use test_rows::{Row, bytes_of, row_of};

fn main(rt: HostRuntime) -> io::Result<()> {
    for line in rt.lines(rt.alloc()) {
        let line = line?;
        match row_of(line.as_str()) {
            Some(row) => {
                let answer = answer_of(rt.alloc(), row)?;
                println!(rt; "{line} => {answer}")?;
            }
            None => println!(rt; "{line}")?,
        }
    }
    Ok(())
}

// What the row's call answers, on one line.
fn answer_of(alloc: Global, row: Row<'_>) -> Result<String, AllocError> {
    let mut chunks = Vec::new(alloc);
    for chunk in row.input.split(" | ") {
        chunks.push(bytes_of(alloc, chunk)?)?;
    }
    let chunks = chunks.as_slice();
    let answer = match row.call {
        "push" => pushed(alloc, row, chunks)?,
        "into_value" => moved_out(alloc, row, chunks)?,
        "error" => errors(alloc, row, chunks)?,
        "parse_chunks" => whole(alloc, row, chunks)?,
        "line_index" => feeds(alloc, chunks)?,
        _ => String::from_str(alloc, "no such call")?,
    };
    answer.replace(alloc, "\n", "%0A")
}
