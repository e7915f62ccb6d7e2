//! Writes JSON documents over lines or compactly, or a part of each.
#![tactic(auto)]

mod document;
mod pointers;

use clap::{Arg, ArgAction, ArgMatches, Command};
use document::{Format, Style, run};
use json_lines::{Program, ReadInput, base_command, main_of, read_each};
use pointers::is_pointer;
use std::alloc::{AllocError, Global};
use std::io;
use std::io::Read;
use std::process::ExitCode;

const ABOUT: &str =
    "Writes a JSON document with each item and member on a line of its own. Each input is one document. If an \
    object repeats a name, all of its members are written, in their order.\n\nFor an input that isn't a document, \
    `FILE:LINE:COLUMN: cause`, its line and a caret under the column are written to standard error. NaN and Infinity \
    aren't allowed. An input is complete in memory before anything of it is written.";

const POINTER: &str =
    "Write the part that this JSON Pointer leads to: `/id`, `/user/id`, `/items/0`; `~1` is a slash and `~0` a tilde. Of \
    a repeated name the last member counts";

impl ReadInput for Format<'_> {
    fn read<R: Read + Drop>(
        &mut self,
        rt: &HostRuntime,
        name: &str,
        mut reader: R,
    ) -> io::Result<bool> {
        let (mut out, mut err) = (rt.stdout(), rt.stderr());
        run(rt.alloc(), *self, name, &mut reader, &mut out, &mut err)
    }
}

fn flag<'a>(alloc: Global, name: &'a str, help: &'a str) -> Arg<'a> {
    Arg::new(alloc, name)
        .long(name)
        .action(ArgAction::SetTrue)
        .help(help)
}

impl Program for Format<'_> {
    const NAME: &'static str = "format";

    fn command<'a>(alloc: Global) -> Result<Command<'a>, AllocError> {
        let compact = "Write the text on one line, without whitespace between its parts";
        let check =
            "Write nothing, and no error either: the exit status says whether all inputs are documents in which \
            the pointer leads to a part";
        let pointer = Arg::new(alloc, "pointer")
            .long("pointer")
            .value_name("POINTER")
            .help(POINTER);
        let files = "The documents; standard input if there is none";
        base_command(alloc, Self::NAME, ABOUT, files)?
            .arg(flag(alloc, "compact", compact))?
            .arg(flag(alloc, "check", check))?
            .arg(pointer)
    }

    fn run(rt: &HostRuntime, matches: &ArgMatches<'_>) -> io::Result<u8> {
        let pointer = matches.get_str("pointer").unwrap_or("");
        if !is_pointer(pointer) {
            eprintln!(rt; "format: {pointer}: not a JSON Pointer, as `/id`")?;
            return Ok(2);
        }
        let style = match (matches.get_flag("check"), matches.get_flag("compact")) {
            (true, _) => Style::Silent,
            (false, true) => Style::Compact,
            (false, false) => Style::Pretty,
        };
        Ok(read_each(rt, Self::NAME, matches, &mut Format { style, pointer }))
    }
}

fn main(rt: HostRuntime) -> ExitCode {
    main_of::<Format<'static>>(&rt)
}
