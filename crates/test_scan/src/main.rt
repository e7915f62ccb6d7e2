//! Tests of `jiter_scan`: the program reads rows of calls and writes each with its answer. The crate test_core has
//! what no row can show.
#![tactic(auto)]

mod errors;
mod numbers;
mod scans;

use jiter_scan::errors::Fault;
use std::alloc::Global;
use std::fmt::Debug;
use std::io;
use std::io::{BufRead, BufReader};
use test_rows::{Row, marked_bytes_of, row_of};

fn main(rt: HostRuntime) -> io::Result<()> {
    let alloc = rt.alloc();
    for line in BufReader::new(alloc, rt.reader())?.lines(alloc) {
        let line = line?;
        match row_of(line.as_str()) {
            Some(row) => {
                print!(rt; "{line} => ")?;
                answer(&rt, alloc, &row)?;
            }
            None => println!(rt; "{line}")?,
        }
    }
    Ok(())
}

// Prints what the row's call answers.
fn answer(rt: &HostRuntime, alloc: Global, row: &Row<'_>) -> io::Result<()> {
    let names = row.allow_inf_nan;
    match row.call {
        "position" | "error" | "description" | "kind" => return errors::answer(rt, alloc, row),
        "mode" => return errors::answer_mode(rt, row.partial),
        "modes" => return errors::answer_modes(rt),
        _ => {}
    }
    let (bytes, at) = marked_bytes_of(alloc, row.input)?;
    let bytes = bytes.as_slice();
    match row.call {
        "number" | "integer" | "long_number" => numbers::answer_alone(rt, row.call, bytes, names),
        "number_at" if at < bytes.len() => numbers::answer_at(rt, alloc, bytes, at, names),
        "end_at" if at < bytes.len() => numbers::answer_end_at(rt, bytes, at, names),
        "number_before" => numbers::answer_before(rt, alloc, bytes, names),
        "integer_at" if at < bytes.len() => numbers::answer_integer_at(rt, bytes, at),
        "fast_number" if at <= bytes.len() => numbers::answer_fast(rt, bytes, at),
        "fast_number_before" => numbers::answer_fast_before(rt, alloc, bytes),
        "word" if at <= bytes.len() => scans::answer_word(rt, bytes, at),
        "scan" if at <= bytes.len() => scans::answer_scan(rt, bytes, at),
        "digits" => scans::answer_digits(rt, bytes),
        _ => println!(rt; "no such call"),
    }
}

// Prints the value, or the kind and the index of the error.
fn tell<T: Debug + Drop>(rt: &HostRuntime, answer: Result<T, Fault>) -> io::Result<()> {
    match answer {
        Ok(value) => println!(rt; "{value:?}"),
        Err(fault) => println!(rt; "{:?} at {}", fault.kind, fault.index),
    }
}
