//! Reads a JSON document from standard input and writes its value as one compact line, or describes its error.
#![tactic(auto)]

mod asking;
mod looking;
mod running;
#[cfg(test)]
mod tests;
mod words;

use looking::look;
use std::process::ExitCode;
use std::{env, io};

fn main(rt: HostRuntime) -> ExitCode {
    let Ok(list) = words_given(&rt) else {
        return ExitCode::from(3);
    };
    let mut reader = rt.stdin();
    let mut out = rt.stdout();
    let mut err = rt.stderr();
    ExitCode::from(look(rt.alloc(), list.as_slice(), &mut reader, &mut out, &mut err))
}

// The arguments after the program's name.
fn words_given(rt: &HostRuntime) -> io::Result<Vec<String>> {
    let mut list = Vec::new(rt.alloc());
    for word in env::args(rt)?.skip(1) {
        list.push(word)?;
    }
    Ok(list)
}
