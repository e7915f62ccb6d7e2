//! Converts logs of JSON lines to CSV (RFC 4180): a row for each line, with a cell for each column.
#![tactic(auto)]

mod columns;
mod row;

use clap::{Arg, ArgAction, ArgMatches, Command};
use columns::{Column, Columns};
use jiter_print::write_line;
use json_lines::{Program, convert_logs, log_command, main_of};
use row::header_of;
use std::alloc::{AllocError, Global};
use std::io;
use std::process::ExitCode;

const ABOUT: &str =
    "Converts JSON lines to CSV. Each line is an object, and becomes a row on standard output. \
    `FILE:LINE:COLUMN: cause` is written for each line without a row to standard error. Lines of whitespace are passed \
    over.\n\nA string becomes its text between quotes. A number, `true` and `false` become their compact JSON text. A \
    value that is missing or `null` is an empty cell.";

const COLUMN: &str =
    "A column: a member's name as `id`, a JSON Pointer as `/user/name`, or a name for the header and a pointer as \
    `user=/user/name`; `~1` is a slash and `~0` a tilde in a pointer";

const TABS: &str =
    "Write a tab in place of the comma between two cells; the quotes are those of CSV, as Postgres and SQLite read them";

fn flag<'a>(alloc: Global, name: &'a str, help: &'a str) -> Arg<'a> {
    Arg::new(alloc, name)
        .long(name)
        .action(ArgAction::SetTrue)
        .help(help)
}

impl Program for Columns<'_> {
    const NAME: &'static str = "csv_of";

    fn command<'a>(alloc: Global) -> Result<Command<'a>, AllocError> {
        let columns = Arg::new(alloc, "columns")
            .long("column")
            .value_name("COLUMN")
            .action(ArgAction::Append)
            .required(true)
            .help(COLUMN);
        let nested =
            "Write an array or an object as its compact text between quotes; without this its line is refused";
        log_command(alloc, Self::NAME, ABOUT)?
            .arg(columns)?
            .arg(flag(
                alloc,
                "header",
                "Write the columns' names before the first row",
            ))?
            .arg(flag(alloc, "nested", nested))?
            .arg(flag(alloc, "tabs", TABS))
    }

    fn run(rt: &HostRuntime, matches: &ArgMatches<'_>) -> io::Result<u8> {
        // The command demands a column.
        let Some((first, words)) = matches.get_strs("columns").and_then(|it| it.split_first())
        else {
            return Ok(2);
        };
        let mut others = Vec::new(rt.alloc());
        for word in words {
            others.push(Column::of_word(word))?;
        }
        let columns = Columns {
            first: Column::of_word(first),
            others,
            separator: if matches.get_flag("tabs") {
                b'\t'
            } else {
                b','
            },
            nested: matches.get_flag("nested"),
        };
        if matches.get_flag("header") {
            let header = header_of(rt.alloc(), &columns)?;
            write_line(&mut rt.stdout(), header.as_slice())?;
        }
        Ok(convert_logs(rt, Self::NAME, matches, &columns).0)
    }
}

fn main(rt: HostRuntime) -> ExitCode {
    main_of::<Columns<'static>>(&rt)
}
