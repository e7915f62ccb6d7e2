//! Reads logs of JSON lines and writes parts of each line, or reports the line.
#![tactic(auto)]

mod filter;
mod line;
mod members;
mod pointers;

use clap::{Arg, ArgAction, ArgMatches, Command};
use filter::Filter;
use json_lines::{Program, convert_logs, log_command, main_of};
use pointers::Member;
use std::alloc::{AllocError, Global};
use std::io;
use std::process::ExitCode;

const ABOUT: &str =
    "Writes parts of JSON lines. Each line is an object, and becomes an object on standard output: the parts that the \
    pointers lead to, in their order. Its keys are the pointers' steps with slashes between them. The value of a \
    pointer of one step is written as it is in the line, that of any other pointer compactly, and a missing value as \
    `null`; of a repeated name the last member counts. `FILE:LINE:COLUMN: cause` is written for any other line to \
    standard error. Lines of whitespace are passed over.\n\nMembers that no pointer leads to or into are skipped: their \
    syntax is checked, but not that their strings are UTF-8. With a pointer of several steps all of a line is checked.";

impl Program for Filter {
    const NAME: &'static str = "filter";

    fn command<'a>(alloc: Global) -> Result<Command<'a>, AllocError> {
        let pointers = Arg::new(alloc, "pointers")
            .long("pointer")
            .value_name("POINTER")
            .action(ArgAction::Append)
            .required(true)
            .help(
                "A part to write, as a JSON Pointer: `/id`, `/user/id`, `/items/0`; `~1` is a slash and `~0` a tilde",
            );
        log_command(alloc, Self::NAME, ABOUT)?.arg(pointers)
    }

    fn run(rt: &HostRuntime, matches: &ArgMatches<'_>) -> io::Result<u8> {
        let mut members = Vec::new(rt.alloc());
        for pointer in matches.get_strs("pointers").unwrap_or(&[]) {
            match Member::of_pointer(rt.alloc(), pointer, members.is_empty())? {
                Some(member) => members.push(member)?,
                None => {
                    eprintln!(rt; "filter: {pointer}: not a pointer to a part, as `/id`")?;
                    return Ok(2);
                }
            }
        }
        // The command demands a pointer.
        if members.is_empty() {
            return Ok(2);
        }
        Ok(convert_logs(rt, Self::NAME, matches, &Filter { members }).0)
    }
}

fn main(rt: HostRuntime) -> ExitCode {
    main_of::<Filter>(&rt)
}
