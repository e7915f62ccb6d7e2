//! How a program takes its words, reads its inputs and ends.
use crate::items::convert_items;
use crate::line::Convert;
use crate::log::{Counts, NONE, Origin, convert_log};
use crate::progress::{Progress, Reports, Watched};
use clap::error::ErrorKind as WordsError;
use clap::{Arg, ArgAction, ArgMatches, Command, value_parser};
use std::alloc::{AllocError, Global};
use std::fs::File;
use std::io::{BufReader, ErrorKind, IsTerminal, Read, Write};
use std::process::ExitCode;
use std::{env, fs, io};

const STATUS: &str =
    "The FILE `-` is standard input.\n\nExit status: 0 if nothing is refused, 1 if something is, 2 for wrong arguments, 3 if a read, a write \
    or an allocation failed.";

const BAD: &str =
    "Write each line with an error, as it is, to FILE; what FILE held before is lost. A last line without a line feed gets \
    one";

const ITEMS: &str =
    "The input is one array; each of its items is converted as a line is, and may be on several lines";

const LOGS: &str = "The logs; standard input if there is none";

const NO_PROGRESS: &str =
    "Don't show how far each log is read. It is shown on standard error, if that is a terminal and standard output isn't one";

// One read takes at most this many bytes of a log.
const CAPACITY: usize = 1 << 15;

/// A program with words.
pub trait Program {
    /// The program's name.
    const NAME: &'static str;

    /// Returns what the program's words may be.
    ///
    /// # Errors
    ///
    /// - `AllocError` if an allocation fails
    fn command<'a>(alloc: Global) -> Result<Command<'a>, AllocError>;

    /// Runs the program, and returns its exit status.
    ///
    /// # Errors
    ///
    /// - the error of a failed read or write
    /// - `OutOfMemory` if an allocation fails
    fn run(rt: &HostRuntime, matches: &ArgMatches<'_>) -> io::Result<u8>;
}

/// A program that reads inputs, one after the other.
pub trait ReadInput {
    /// Is called before each input, with its size in bytes if it is a file of known size. By default, it does nothing.
    fn begin(&mut self, _size: Option<u64>) {}

    /// Reads an input to its end. Returns whether nothing in it was refused.
    ///
    /// # Errors
    ///
    /// - the error of a failed read or write
    /// - `OutOfMemory` if an allocation fails
    fn read<R: Read + Drop>(&mut self, rt: &HostRuntime, name: &str, reader: R) -> io::Result<bool>;
}

/// Returns a command with a version, a text about the program and its exit status, and the names of files.
///
/// # Errors
///
/// - `AllocError` if an allocation fails
pub fn base_command<'a>(
    alloc: Global,
    name: &'a str,
    about: &'a str,
    files: &'a str,
) -> Result<Command<'a>, AllocError> {
    let files = Arg::new(alloc, "files")
        .value_name("FILE")
        .action(ArgAction::Append)
        .num_args(0..)
        .help(files);
    Command::new(alloc, name)
        .version("0.18.0")
        .about(about)
        .after_help(STATUS)
        .arg(files)
}

/// Returns a command as [`base_command`] does, with the options of the programs over logs.
///
/// # Errors
///
/// - `AllocError` if an allocation fails
pub fn log_command<'a>(
    alloc: Global,
    name: &'a str,
    about: &'a str,
) -> Result<Command<'a>, AllocError> {
    let first_line = Arg::new(alloc, "first-line")
        .long("first-line")
        .value_name("N")
        .value_parser(value_parser!(u64).range(1..1 << 62))
        .help(
            "The number of each log's first line, where a log was cut between two lines; 1 if it is not given",
        );
    let bad = Arg::new(alloc, "bad")
        .long("bad")
        .value_name("FILE")
        .help(BAD);
    let items = Arg::new(alloc, "items")
        .long("items")
        .action(ArgAction::SetTrue)
        .help(ITEMS);
    let no_progress = Arg::new(alloc, "no-progress")
        .long("no-progress")
        .action(ArgAction::SetTrue)
        .help(NO_PROGRESS);
    base_command(alloc, name, about, LOGS)?
        .arg(items)?
        .arg(first_line)?
        .arg(bad)?
        .arg(no_progress)
}

// Reports an error and returns the exit status. A closed pipe isn't reported: whoever closed it knows.
fn report(rt: &HostRuntime, program: &str, name: &str, error: &io::Error) -> u8 {
    if error.kind() != ErrorKind::BrokenPipe {
        let _ = eprintln!(rt; "{program}: {name}: {error}");
    }
    3
}

fn run<P: Program>(rt: &HostRuntime) -> io::Result<u8> {
    let words: Vec<String> = env::args(rt)?.collect(rt.alloc())?;
    let command = P::command(rt.alloc())?;
    match command.try_get_matches_from(words.as_slice()) {
        Ok(matches) => P::run(rt, &matches),
        Err(error) if error.kind() == WordsError::OutOfMemory => {
            Err(io::Error::from(ErrorKind::OutOfMemory))
        }
        Err(error) => {
            error.print(rt)?;
            Ok(error.exit_code() as u8)
        }
    }
}

/// Runs a program with the words that it was called with. Reports an error of its run.
pub fn main_of<P: Program>(rt: &HostRuntime) -> ExitCode {
    match run::<P>(rt) {
        Ok(status) => ExitCode::from(status),
        Err(error) => ExitCode::from(report(rt, P::NAME, "words", &error)),
    }
}

// Returns the size of a file, if it is a regular one.
fn size_of(file: &File) -> Option<u64> {
    let metadata = file.metadata().ok()?;
    metadata.is_file().then_some(metadata.len())
}

fn read_file<I: ReadInput>(rt: &HostRuntime, name: &str, input: &mut I) -> io::Result<bool> {
    let file = fs::open(rt, name)?;
    input.begin(size_of(&file));
    input.read(rt, name, file)
}

fn read_stdin<I: ReadInput>(rt: &HostRuntime, input: &mut I) -> io::Result<bool> {
    input.begin(None);
    input.read(rt, "<stdin>", rt.stdin())
}

// Reads one input, and returns the exit status after it.
fn read_one<I: ReadInput>(rt: &HostRuntime, program: &str, name: &str, input: &mut I) -> u8 {
    let (name, read) = match name {
        "-" => ("<stdin>", read_stdin(rt, input)),
        _ => (name, read_file(rt, name, input)),
    };
    match read {
        Ok(is_clean) => !is_clean as u8,
        Err(error) => report(rt, program, name, &error),
    }
}

/// Reads each file, or standard input if there is none; the file `-` is standard input too. Returns the exit status: 0 if
/// nothing was refused, 1 if something was, 3 if an input could not be read to its end. Such an input is reported, and the
/// next one is read.
pub fn read_each<I: ReadInput>(
    rt: &HostRuntime,
    program: &str,
    matches: &ArgMatches<'_>,
    input: &mut I,
) -> u8 {
    let names = matches.get_strs("files").unwrap_or(&[]);
    if names.is_empty() {
        return read_one(rt, program, "-", input);
    }
    let mut status = 0;
    for name in names {
        status = status.max(read_one(rt, program, name, input));
    }
    status
}

// A writer that drops what it gets.
#[derive(Drop)]
struct Sink;

impl Write for Sink {
    fn write(&mut self, buf: &[u8]) -> io::Result<usize> {
        Ok(buf.len())
    }

    fn flush(&mut self) -> io::Result<()> {
        Ok(())
    }
}

// What reads the logs: the converter, the output for lines with an error, and the counts of the logs that were read.
struct Logs<'a, C, B> {
    converter: &'a C,
    first_line: usize,
    items: bool,
    bad: B,
    counts: Counts,
    shows_progress: bool,
    size: Option<u64>,
}

impl<C: Convert, B: Write> ReadInput for Logs<'_, C, B> {
    fn begin(&mut self, size: Option<u64>) {
        self.size = size;
    }

    fn read<R: Read + Drop>(
        &mut self,
        rt: &HostRuntime,
        name: &str,
        reader: R,
    ) -> io::Result<bool> {
        let progress = progress_of(rt, self.shows_progress, self.size);
        let progress = progress.as_ref();
        let watched = Watched { reader, progress };
        let mut reader = BufReader::with_capacity(rt.alloc(), CAPACITY, watched)?;
        let mut err = Reports {
            err: rt.stderr(),
            progress,
        };
        let origin = Origin {
            name,
            first_line: self.first_line,
        };
        let converted = if self.items {
            convert_items(
                rt.alloc(),
                self.converter,
                &origin,
                &mut reader,
                &mut rt.stdout(),
                &mut err,
                &mut self.bad,
            )
        } else {
            convert_log(
                rt.alloc(),
                self.converter,
                &origin,
                &mut reader,
                &mut rt.stdout(),
                &mut err,
                &mut self.bad,
            )
        };
        if let Some(progress) = progress {
            progress.clear();
        }
        let counts = converted?;
        self.counts.texts = self.counts.texts.saturating_add(counts.texts);
        self.counts.refused = self.counts.refused.saturating_add(counts.refused);
        Ok(counts.refused == 0)
    }
}

// Returns whether to show the progress: only on a terminal that nothing else is written to.
fn shows_progress(rt: &HostRuntime, matches: &ArgMatches<'_>) -> bool {
    !matches.get_flag("no-progress") && rt.stderr().is_terminal() && !rt.stdout().is_terminal()
}

// Returns the progress of an input, if it is to be shown. Without a clock, nothing is shown.
fn progress_of(
    rt: &HostRuntime,
    shows: bool,
    size: Option<u64>,
) -> Option<Progress<'_, HostRuntime>> {
    if !shows {
        return None;
    }
    Progress::start(rt, size).ok()
}

fn convert_with<C: Convert, B: Write + Drop>(
    rt: &HostRuntime,
    program: &str,
    matches: &ArgMatches<'_>,
    converter: &C,
    bad: B,
) -> (u8, Counts) {
    let mut logs = Logs {
        converter,
        first_line: matches.get_one::<usize>("first-line").unwrap_or(1),
        items: matches.get_flag("items"),
        bad,
        counts: NONE,
        shows_progress: shows_progress(rt, matches),
        size: None,
    };
    let status = read_each(rt, program, matches, &mut logs);
    let Logs {
        counts,
        bad: _bad,
        converter: _converter,
        first_line: _first_line,
        items: _items,
        shows_progress: _shows_progress,
        size: _size,
    } = logs;
    (status, counts)
}

/// Converts each log as [`read_each`] reads it, by the options of [`log_command`]. Returns the exit status and the counts of
/// all logs that were read to their end.
pub fn convert_logs<C: Convert>(
    rt: &HostRuntime,
    program: &str,
    matches: &ArgMatches<'_>,
    converter: &C,
) -> (u8, Counts) {
    let Some(name) = matches.get_str("bad") else {
        return convert_with(rt, program, matches, converter, Sink);
    };
    match fs::create(rt, name) {
        Ok(bad) => convert_with(rt, program, matches, converter, bad),
        Err(error) => (report(rt, program, name, &error), NONE),
    }
}
