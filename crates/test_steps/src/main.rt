//! Tests of `jiter_steps`: the program reads rows of calls and writes each with its answer. The crate test_core has
//! what no row can show.
#![tactic(auto)]

ghost use Rattle.std.specs.Prelude.{◌≤◌, length};

mod pieces;
mod reader;
mod strings;

use jiter_steps::parse::Literal;
use std::alloc::Global;
use std::io;
use std::io::{BufRead, BufReader};
use test_rows::{Partial, Row, marked_bytes_of, row_of};

fn main(rt: HostRuntime) -> io::Result<()> {
    let alloc = rt.alloc();
    for line in BufReader::new(alloc, rt.reader())?.lines(alloc) {
        let line = line?;
        match row_of(line.as_str()) {
            Some(row) => {
                print!(rt; "{line} => ")?;
                answer(&rt, alloc, &row)?;
            }
            None => println!(rt; "{line}")?,
        }
    }
    Ok(())
}

// Prints what the row's call answers.
fn answer(rt: &HostRuntime, alloc: Global, row: &Row<'_>) -> io::Result<()> {
    let input = row.input;
    let keep = matches!(&row.partial, Partial::TrailingStrings);
    match row.call {
        "text_pieces" => return pieces::answer_text_pieces(rt, alloc, input),
        "string_pieces" => return pieces::answer_string_pieces(rt, alloc, input),
        _ => {}
    }
    let (bytes, at) = marked_bytes_of(alloc, input)?;
    let bytes = bytes.as_slice();
    if bytes.len() < at {
        return println!(rt; "no such place");
    }
    if bytes.len() == at {
        return answer_anywhere(rt, alloc, row.call, bytes, at);
    }
    match row.call {
        "skip" => reader::answer_skip(rt, bytes, at, row.allow_inf_nan),
        "string" => strings::answer_string(rt, alloc, bytes, at, keep),
        "raw" => strings::answer_raw(rt, alloc, bytes, at),
        "look_at" => strings::answer_look(rt, bytes, at),
        "checked_text" => strings::answer_checked_text(rt, bytes, at, keep),
        "reader_number" => reader::answer_number(rt, bytes, at),
        "reader_string" => reader::answer_string(rt, alloc, bytes, at),
        "reader_raw" => reader::answer_raw(rt, bytes, at, keep),
        "array_first" | "object_first" => reader::answer_first(rt, row.call, bytes, at),
        "fast_null" => reader::answer_plain_literal(rt, bytes, at, Literal::Null),
        "plain_true" => reader::answer_plain_literal(rt, bytes, at, Literal::True),
        "plain_false" => reader::answer_plain_literal(rt, bytes, at, Literal::False),
        _ => answer_anywhere(rt, alloc, row.call, bytes, at),
    }
}

// The calls that may be made at the end of the bytes too.
fn answer_anywhere(
    rt: &HostRuntime,
    alloc: Global,
    call: &str,
    bytes: &[u8],
    at: usize,
) -> io::Result<()>
    requires { at ≤ length bytes.now }
{
    match call {
        "start" => reader::answer_start(rt, bytes),
        "escape" => pieces::answer_escape(rt, bytes),
        "text" => pieces::answer_text(rt, alloc, bytes),
        "blanks" => reader::answer_blanks(rt, bytes, at),
        "null" => reader::answer_literal(rt, bytes, at, Literal::Null),
        "true" => reader::answer_literal(rt, bytes, at, Literal::True),
        "false" => reader::answer_literal(rt, bytes, at, Literal::False),
        _ => reader::answer_step(rt, call, bytes, at),
    }
}
