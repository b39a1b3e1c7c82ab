//! The command line of `load`, and its help.

#[cfg(test)]
mod tests;

use bk_commands::{form_of, json_arg};
use bk_decimal::number;
use bk_inspect::Form;
use bk_load::{Load, Until};
use clap::error::ErrorKind;
use clap::{Arg, ArgAction, ArgMatches, Command, Error};
use std::alloc::{AllocError, Global};
use std::convert::AsStr;

/// What `load` does: one line in the imperative.
const ABOUT_LOAD: &str = "Load a bookie from many threads, and check its files";

/// The output of `load`, its exit status and an example.
const LOAD_HELP: &str = "\
Opens a bookie, in memory or with --folder on the logs of DIR, and lets N threads call it at once.
Each thread adds entries of 17 to 256 bytes to eight ledgers, and to the next eight after a thousand
adds, when it deletes one of the eight. After every fourth add it reads one of its entries back. Two
workers flush, and a third thread compacts logs and removes those that no entry needs. Then the bookie
is ended with the receipts of all adds, and its files are opened and searched for each accepted entry.
If the error stream is a terminal, a line there shows the progress.

Output:
  adds N bytes N held N refused N milliseconds N   adds accepted, and their bytes; adds that found
                                                   their entry there; adds to a deleted ledger;
                                                   time of all
  takes N wrong N ledgers deleted N                entries read back; entries that were not as added
  logs made N compacted N removed N                the logs
  works N faults N                                 steps of the workers; steps that met a fault
  latency 50% N 99% N 99.9% N nanoseconds          time of an add, by percentile
  receipts N                                       adds in the bookie's trail, each at its receipt's
                                                   number
  files found N deleted N lost N unknown N earlier N of N
                                                   accepted entries in the files; of deleted ledgers;
                                                   missing; entries that nobody added; entries that
                                                   were there before, of how many
  good | bad                                       good if something was added, adds equal receipts,
                                                   nothing is held, wrong, lost or unknown, no step
                                                   met a fault, and all earlier entries are there

With --folder the directory is created if it does not exist. The ledgers are those after the last one
with an entry, deleted or fenced, and the entries stay. Each deletion is recorded in `ledgers.manifest`
of DIR before it takes effect, and how much of each log is durable in `logs.manifest`. One program at a
time writes to a directory.
With --json the numbers are one object.

Exit status: 0 if and only if the load was good; 1 if it was bad, ended early, with `fault TEXT` on
the error stream, or could not be printed; 2 if the command line is wrong. Each call of the system
that fails on DIR is reported once on the error stream, `FILE: OPERATION: REASON`, the first first.

Example:
  $ ./bookie load --threads 2 --adds 1
  adds 1 bytes 17 held 0 refused 0 milliseconds 4
  takes 0 wrong 0 ledgers deleted 0
  logs made 1 compacted 0 removed 0
  works 307 faults 0
  latency 50% 42930 99% 42930 99.9% 42930 nanoseconds
  receipts 1
  files found 1 deleted 0 lost 0 unknown 0 earlier 0 of 0
  good
";

/// The load of a command line without options.
const USUAL: Load = Load {
    callers: 8,
    until: Until::Adds(100_000),
};

/// The greatest number of threads.
const MOST_THREADS: u64 = 256;

/// The greatest number of adds.
const MOST_ADDS: u64 = 1_000_000_000;

/// The greatest number of seconds.
const MOST_SECONDS: u64 = 1_000_000;

/// A call of `load`.
#[derive(Debug, PartialEq, Eq, Drop)]
pub(super) struct LoadCall<'a> {
    /// The form of the output.
    pub form: Form,
    pub load: Load,
    /// The path of the directory; `None` for a new disk in memory.
    pub folder: Option<&'a str>,
    /// Whether its manifests are neither read nor written.
    pub no_manifest: bool,
}

/// A value that is not a number in its range.
#[derive(Debug, thiserror::Error, Drop)]
#[error("invalid value '{text}' for '--{name} <N>': not a number from 1 to {most} in plain digits")]
struct BadNumber<'a> {
    text: &'a str,
    name: &'static str,
    most: u64,
}

/// Parses a command line to a call of `load`. The first word is the program's name.
///
/// # Errors
///
/// By the kind of the error:
///
/// - `OutOfMemory`: an allocation failed.
/// - `DisplayHelp`: help was requested.
/// - any other kind: the command line is invalid.
pub(super) fn load_call<'a, S: AsStr>(
    alloc: Global,
    words: &'a [S],
) -> Result<LoadCall<'a>, Error> {
    let mut commands = commands(alloc)?;
    let matches = commands.try_get_matches_from_mut(words)?;
    let Some(found) = matches.subcommand_matches("load") else {
        return Err(commands.error(ErrorKind::MissingSubcommand, "a command is asked for")?);
    };
    match read_load(found) {
        Ok(load) => Ok(LoadCall {
            form: form_of(found),
            load,
            folder: found.get_str("folder"),
            no_manifest: found.get_flag("no-manifest"),
        }),
        Err(bad) => Err(bad_value(alloc, &bad)?),
    }
}

/// Returns the part of the program's command line that concerns `load`.
fn commands<'a>(alloc: Global) -> Result<Command<'a>, AllocError> {
    Command::new(alloc, "bookie")
        .bin_name("bookie")?
        .about("Entry log storage of a bookie")
        .subcommand_required(true)
        .arg(json_arg(alloc))?
        .subcommand(load_command(alloc)?)
}

/// Returns the error of a value that is out of its range.
fn bad_value(alloc: Global, bad: &BadNumber<'_>) -> Result<Error, AllocError> {
    let told = format!(in alloc; "{bad}")?;
    let mut command = Command::new(alloc, "bookie").override_usage("bookie load [OPTIONS]");
    command.error(ErrorKind::ValueValidation, &told)
}

/// Returns the command `load`.
fn load_command<'a>(alloc: Global) -> Result<Command<'a>, AllocError> {
    Command::new(alloc, "load")
        .about(ABOUT_LOAD)
        .after_help(LOAD_HELP)
        .arg(
            Arg::new(alloc, "threads")
                .long("threads")
                .value_name("N")
                .help("Call from this many threads at once: 1 to 256 [default: 8]"),
        )?
        .arg(
            Arg::new(alloc, "adds")
                .long("adds")
                .value_name("N")
                .conflicts_with("seconds")?
                .help(
                    "Make this many adds, all threads together: 1 to 1000000000 [default: 100000]",
                ),
        )?
        .arg(
            Arg::new(alloc, "seconds")
                .long("seconds")
                .value_name("N")
                .help("Make adds for this many seconds: 1 to 1000000"),
        )?
        .arg(
            Arg::new(alloc, "folder")
                .long("folder")
                .value_name("DIR")
                .help(
                    "Write to this directory of logs, created if it does not exist, and not in memory",
                ),
        )?
        .arg(
            Arg::new(alloc, "no-manifest")
                .long("no-manifest")
                .action(ArgAction::SetTrue)
                .help("Neither read nor write the manifests of the directory"),
        )
}

/// Returns the load that the options select.
fn read_load<'a>(found: &ArgMatches<'a>) -> Result<Load, BadNumber<'a>> {
    let mut load = USUAL;
    if let Some(threads) = read_option(found, "threads", MOST_THREADS)? {
        load.callers = u32::try_from(threads).unwrap_or(u32::MAX);
    }
    if let Some(adds) = read_option(found, "adds", MOST_ADDS)? {
        load.until = Until::Adds(adds);
    }
    if let Some(seconds) = read_option(found, "seconds", MOST_SECONDS)? {
        load.until = Until::Seconds(seconds);
    }
    Ok(load)
}

/// Returns the value of an option, at least 1, or `None` if the option is not given.
fn read_option<'a>(
    found: &ArgMatches<'a>,
    name: &'static str,
    most: u64,
) -> Result<Option<u64>, BadNumber<'a>> {
    let Some(text) = found.get_str(name) else {
        return Ok(None);
    };
    match number(text, most) {
        Some(n) if n > 0 => Ok(Some(n)),
        _ => Err(BadNumber { text, name, most }),
    }
}
