//! Checks logs of JSON lines: prints each document compactly, and reports each other line.
#![tactic(auto)]

mod import;

use clap::{Arg, ArgAction, ArgMatches, Command};
use import::Importer;
use json_lines::{Program, convert_logs, log_command, main_of};
use std::alloc::{AllocError, Global};
use std::io;
use std::process::ExitCode;

const ABOUT: &str =
    "Checks JSON lines. Each line is one document, and is written compactly to standard output. `FILE:LINE:COLUMN: cause` \
    is written for each other line to standard error, with the counts of both at the end. Lines of whitespace are passed \
    over.";

impl Program for Importer {
    const NAME: &'static str = "importer";

    fn command<'a>(alloc: Global) -> Result<Command<'a>, AllocError> {
        let unique = Arg::new(alloc, "unique")
            .long("unique")
            .action(ArgAction::SetTrue)
            .help("Refuse a line in which an object repeats a key");
        log_command(alloc, Self::NAME, ABOUT)?.arg(unique)
    }

    fn run(rt: &HostRuntime, matches: &ArgMatches<'_>) -> io::Result<u8> {
        let unique = matches.get_flag("unique");
        let (status, counts) = convert_logs(rt, Self::NAME, matches, &Importer { unique });
        if status < 3 {
            eprintln!(rt; "{} values, {} refused", counts.texts, counts.refused)?;
            // Of a document on several lines more are refused than not: a line that holds a value is the last item of an
            // array, and that array's brackets have lines of their own.
            if counts.refused > counts.texts {
                eprintln!(rt;
                    "each line must be one document; is this one document on several lines?"
                )?;
            }
        }
        Ok(status)
    }
}

fn main(rt: HostRuntime) -> ExitCode {
    main_of::<Importer>(&rt)
}
