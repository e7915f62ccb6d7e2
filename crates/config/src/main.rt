//! Reads configurations: prints the settings of each, or what is wrong with it.
#![tactic(auto)]

mod config;
mod port;
#[cfg(test)]
mod tests;

use clap::{ArgMatches, Command};
use config::{Config, read_config};
use json_lines::{Program, ReadInput, base_command, main_of, read_each, refusal_of};
use std::alloc::{AllocError, Global};
use std::io;
use std::io::{ErrorKind, Read, Write};
use std::process::ExitCode;

const ABOUT: &str =
    "Reads a configuration: a JSON object with the members `host`, `port` and `debug`. Writes \
    its settings to standard output, or `FILE:LINE:COLUMN: what is wrong` to standard error.";

// Shows each configuration.
#[derive(Drop)]
struct Show;

impl ReadInput for Show {
    fn read<R: Read + Drop>(
        &mut self,
        rt: &HostRuntime,
        name: &str,
        mut reader: R,
    ) -> io::Result<bool> {
        let mut bytes = Vec::new(rt.alloc());
        reader.read_to_end(&mut bytes)?;
        match read_config(rt.alloc(), bytes.as_slice()) {
            Ok(Config { host, port, debug }) => {
                println!(rt; "{host} port {}, debug {debug}", port.number)?;
                Ok(true)
            }
            Err(error) if error.is_memory() => Err(io::Error::from(ErrorKind::OutOfMemory)),
            Err(error) => {
                let report = refusal_of(rt.alloc(), name, bytes.as_slice(), &error)?;
                rt.stderr().write_all(report.as_bytes())?;
                Ok(false)
            }
        }
    }
}

impl Program for Show {
    const NAME: &'static str = "config";

    fn command<'a>(alloc: Global) -> Result<Command<'a>, AllocError> {
        let files = "The configurations; standard input if there is none";
        base_command(alloc, Self::NAME, ABOUT, files)
    }

    fn run(rt: &HostRuntime, matches: &ArgMatches<'_>) -> io::Result<u8> {
        Ok(read_each(rt, Self::NAME, matches, &mut Show))
    }
}

fn main(rt: HostRuntime) -> ExitCode {
    main_of::<Show>(&rt)
}
