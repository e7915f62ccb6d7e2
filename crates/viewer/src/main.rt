//! Shows a JSON document while it is read: on a terminal in place, into a pipe its value at the end.
#![tactic(auto)]

mod view;

use clap::{Arg, ArgAction, ArgMatches, Command, value_parser};
use jiter::PartialMode;
use json_lines::{Program, ReadInput, base_command, main_of, read_each};
use json_screen::Options;
use std::alloc::{AllocError, Global};
use std::io::{IsTerminal, Read};
use std::process::ExitCode;
use std::{env, io};
use view::{Output, Settings, run};

const NAME: &str = "viewer";

const ABOUT: &str =
    "Shows a JSON document while it is read, for example a model's answer. On a terminal it is shown \
    indented and in place. Otherwise its value is written as one line, at the end of the input; with --lines, a line for \
    each change.\n\nThe document begins at the first `[` or `{` and ends at the bracket that closes it. A terminal shows \
    the text around it as it is; only the document is read. A document that ends early is shown up to that point. An input \
    without a document, with an error in it, or with another document right after it, as in a log of lines, is refused.\n\n\
    A terminal is taken to have as many columns as --width says, or the environment's COLUMNS, or 80. If it has fewer, the \
    ends of long rows are not shown.";

fn flag<'a>(alloc: Global, name: &'a str, help: &'a str) -> Arg<'a> {
    Arg::new(alloc, name)
        .long(name)
        .action(ArgAction::SetTrue)
        .help(help)
}

// The columns of a terminal, as its environment says, if it does.
fn columns(rt: &HostRuntime) -> Option<usize> {
    let columns = env::var(rt, "COLUMNS").ok()?.parse::<usize>().ok()?;
    (columns > 0).then_some(columns)
}

// What is written, and the columns of a terminal's rows. The last one stays free, since terminals differ in what follows it.
fn output(rt: &HostRuntime, matches: &ArgMatches<'_>) -> Output {
    if matches.get_flag("lines") {
        return Output::Lines;
    } else if !rt.stdout().is_terminal() {
        return Output::Value;
    }
    let asked = matches.get_one::<usize>("width");
    Output::Rows(asked.or_else(|| columns(rt)).unwrap_or(80).max(20) - 1)
}

// How inputs are shown.
#[derive(Drop)]
struct Viewer {
    options: Options,
    output: Output,
}

impl ReadInput for Viewer {
    fn read<R: Read + Drop>(
        &mut self,
        rt: &HostRuntime,
        name: &str,
        mut reader: R,
    ) -> io::Result<bool> {
        let settings = Settings {
            name,
            options: self.options,
            output: self.output,
        };
        let (mut out, mut err) = (rt.stdout(), rt.stderr());
        run(rt.alloc(), settings, &mut reader, &mut out, &mut err)
    }
}

impl Program for Viewer {
    const NAME: &'static str = NAME;

    fn command<'a>(alloc: Global) -> Result<Command<'a>, AllocError> {
        let inputs = "The inputs; standard input if there is none";
        let numbers = "Take NaN, Infinity and -Infinity for numbers";
        let width = Arg::new(alloc, "width")
            .long("width")
            .value_name("COLUMNS")
            .value_parser(value_parser!(u16).range(1..))
            .help("The columns of the terminal; at least 20 are used");
        base_command(alloc, NAME, ABOUT, inputs)?
            .arg(flag(alloc, "strings", "Show a string before its end has come"))?
            .arg(flag(alloc, "non-finite", numbers))?
            .arg(flag(
                alloc,
                "lines",
                "Write a line for each change, on a terminal too",
            ))?
            .arg(width)
    }

    fn run(rt: &HostRuntime, matches: &ArgMatches<'_>) -> io::Result<u8> {
        let mode = match matches.get_flag("strings") {
            true => PartialMode::TrailingStrings,
            false => PartialMode::On,
        };
        let inf_nan = matches.get_flag("non-finite");
        let output = output(rt, matches);
        let options = Options { mode, inf_nan };
        Ok(read_each(rt, NAME, matches, &mut Viewer { options, output }))
    }
}

fn main(rt: HostRuntime) -> ExitCode {
    main_of::<Viewer>(&rt)
}
