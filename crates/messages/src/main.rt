//! Reads messages: prints what is in each, or what is wrong with it.
#![tactic(auto)]

mod message;
#[cfg(test)]
mod tests;

use clap::{ArgMatches, Command};
use json_lines::{Program, ReadInput, base_command, main_of, read_each, refusal_of};
use message::read_message;
use std::alloc::{AllocError, Global};
use std::io::{self, ErrorKind, Read, Write};

#[derive(Drop)]
struct Show;

impl ReadInput for Show {
    fn read<R: Read + Drop>(
        &mut self,
        rt: &HostRuntime,
        name: &str,
        mut reader: R,
    ) -> io::Result<bool> {
        let mut bytes = Vec::new(rt.alloc());
        reader.read_to_end(&mut bytes)?;
        match read_message(rt.alloc(), &bytes) {
            Ok(message) => {
                let (id, user, copies) = (message.id, &message.user, message.copies.len());
                let tags = user.tags.len();
                println!(rt; "{id} from {}: {tags} tags, {copies} copies", user.name)?;
                Ok(true)
            }
            Err(error) if error.is_memory() => Err(io::Error::from(ErrorKind::OutOfMemory)),
            Err(error) => {
                let report = refusal_of(rt.alloc(), name, &bytes, &error)?;
                rt.stderr().write_all(report.as_bytes())?;
                Ok(false)
            }
        }
    }
}

impl Program for Show {
    const NAME: &'static str = "messages";

    fn command<'a>(alloc: Global) -> Result<Command<'a>, AllocError> {
        let about = "Reads messages: prints who sent each, or `FILE:LINE:COLUMN: what is wrong`.";
        base_command(alloc, Self::NAME, about, "Messages; else standard input")
    }

    fn run(rt: &HostRuntime, matches: &ArgMatches<'_>) -> io::Result<u8> {
        Ok(read_each(rt, Self::NAME, matches, &mut Show))
    }
}

fn main(rt: HostRuntime) -> std::process::ExitCode {
    main_of::<Show>(&rt)
}
