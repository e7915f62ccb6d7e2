//! Makes one call of the parser on standard input, and tells what it came to: for runs in each of which one request for
//! memory is refused (checks/refused), and for runs whose requests are counted (checks/memory).
#![tactic(auto)]

mod answers;
mod asking;
mod config;
mod copies;
mod event;
mod mark;
mod message;
mod outcome;
mod pieces;
mod reading;
mod readings;
mod repeated;
mod sample;
mod scratch;
mod steps;
mod stop;
mod tell;
mod unfit;
mod walk;
mod walks;
mod whole;

use asking::{Asked, Call, read_words};
use outcome::Outcome;
use std::alloc::{AllocError, Global};
use std::io::Read;
use std::process::ExitCode;
use std::{env, io};

const USAGE: &str = "usage: test_failures CALL off|on|trailing-strings";

// The exit status where a request of the program itself was refused, before the call or after it.
const REFUSED: u8 = 3;

fn main(rt: HostRuntime) -> ExitCode {
    let Ok(list) = words_given(&rt) else {
        return ExitCode::from(REFUSED);
    };
    let Some(asked) = read_words(list.as_slice()) else {
        let _ = println!(rt; "{USAGE}");
        return ExitCode::from(2);
    };
    let mut bytes = Vec::new(rt.alloc());
    if rt.stdin().read_to_end(&mut bytes).is_err() {
        return ExitCode::from(REFUSED);
    }
    let Ok(outcome) = outcome_of(rt.alloc(), bytes.as_slice(), asked) else {
        return ExitCode::from(REFUSED);
    };
    match println!(rt; "{}", outcome.line()) {
        Ok(()) => ExitCode::from(outcome.status()),
        Err(_) => ExitCode::from(REFUSED),
    }
}

// The words after the program's name.
fn words_given(rt: &HostRuntime) -> io::Result<Vec<String>> {
    let mut list = Vec::new(rt.alloc());
    for word in env::args(rt)?.skip(1) {
        list.push(word)?;
    }
    Ok(list)
}

// What the call comes to. It fails where a request of the program itself is refused.
fn outcome_of(alloc: Global, bytes: &[u8], asked: Asked) -> Result<Outcome, AllocError> {
    match asked.call {
        Call::Whole(call) => whole::outcome(alloc, bytes, asked.mode, call),
        Call::Reading(call) => reading::outcome(alloc, bytes, call),
        Call::Strings(known) => walk::outcome(alloc, bytes, asked.mode, known),
        Call::Steps(call) => steps::outcome(alloc, bytes, call),
        Call::Repeated(call) => repeated::outcome(alloc, bytes, asked.mode, call),
        Call::Walk(call) => walks::outcome(alloc, bytes, call),
        Call::Copy(call) => copies::outcome(alloc, bytes, asked.mode, call),
        Call::Pieces(size) => pieces::outcome(alloc, bytes, asked.mode, size),
    }
}
