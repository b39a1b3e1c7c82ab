//! The command line, parsed.

use crate::numbers::{
    BATCH, BadValue, CACHE_LIMIT, COLLECT, DAYS, ENTRY, LEDGER, MAJOR, MEGABYTES, MINOR, RECORD,
    SEED, SLOTS, WRITERS,
};
use crate::options::Options;
use clap::error::ErrorKind;
use clap::{Arg, ArgAction, Command, Error};
use std::alloc::{AllocError, Global};
use std::convert::AsStr;

/// What the program does: one line in the imperative.
const ABOUT: &str = "Simulate a bookie for days, and print what its disk, memory and lock cost";

/// The output and the exit status.
const HELP: &str = "\
Runs the real store over a disk that keeps lengths and keys of records, and no data. Ledgers are
created, filled and deleted; the cache is flushed when it is full; logs are compacted and removed as
by a bookie's workers. docs/scale.md explains the model and the table.

One run, and one row, for each retention, pair of thresholds and limit of a log.

Columns: retention and its mean in days, thresholds in thousandths, log limit; write amplification;
space amplification, mean and peak of the second half; logs, mean of the second half and peak; memory
of the index; minor and major compactions, and what they moved; instructions of a hold of the lock
that a thousandth of all holds exceeds, and of the longest, with its call. `full on day D` ends a row
whose run ended because every slot was taken.

Exit status: 0 after a run; 1 if it ended early, with `fault TEXT` on the error stream; 2 if the
command line is wrong.
";

/// What a command line asks for.
#[derive(Drop)]
pub(crate) enum Asked<'a> {
    Run(Options<'a>),
    /// This help.
    Help(String),
    /// Nothing: it is wrong, for this reason.
    Wrong(String),
}

/// Returns what the words ask for. Fails only if out of memory.
pub(crate) fn read<S: AsStr>(alloc: Global, words: &[S]) -> Result<Asked<'_>, AllocError> {
    let mut command = command(alloc)?;
    let matches = match command.try_get_matches_from_mut(words) {
        Ok(matches) => matches,
        Err(error) => return refused(alloc, &error),
    };
    match Options::read(alloc, &matches)? {
        Ok(options) => Ok(Asked::Run(options)),
        Err(bad) => wrong_value(alloc, &bad),
    }
}

/// Returns the text of an error of the parse.
fn refused<'a>(alloc: Global, error: &Error) -> Result<Asked<'a>, AllocError> {
    let text = format!(in alloc; "{error}")?;
    match error.kind() {
        ErrorKind::DisplayHelp => Ok(Asked::Help(text)),
        ErrorKind::OutOfMemory => Err(AllocError),
        _ => Ok(Asked::Wrong(text)),
    }
}

/// Returns the text of a value that is none of its option.
fn wrong_value<'a>(alloc: Global, bad: &BadValue<'_>) -> Result<Asked<'a>, AllocError> {
    let BadValue { text, name, form } = *bad;
    let told = format!(in alloc; "error: invalid value '{text}' for '--{name}': not {form}\n")?;
    Ok(Asked::Wrong(told))
}

/// Returns the command.
fn command<'a>(alloc: Global) -> Result<Command<'a>, AllocError> {
    let command = Command::new(alloc, "simulate")
        .bin_name("bookie simulate")?
        .about(ABOUT)
        .after_help(HELP);
    with_run(alloc, with_upkeep(alloc, with_load(alloc, command)?)?)
}

/// Adds the options of what comes in.
fn with_load<'a>(alloc: Global, command: Command<'a>) -> Result<Command<'a>, AllocError> {
    command
        .arg(DAYS.arg(alloc))?
        .arg(MEGABYTES.arg(alloc))?
        .arg(ENTRY.arg(alloc))?
        .arg(LEDGER.arg(alloc))?
        .arg(WRITERS.arg(alloc))?
        .arg(list(
            alloc,
            "retention",
            "KIND:DAYS",
            "Keep a closed ledger: fixed:DAYS, exponential:DAYS or heavy:DAYS; may be repeated [default: all three, 3 days]",
        ))
}

/// Adds the options of the store and its upkeep.
fn with_upkeep<'a>(alloc: Global, command: Command<'a>) -> Result<Command<'a>, AllocError> {
    command
        .arg(list(
            alloc,
            "log-limit",
            "BYTES",
            "Seal a log before it passes this many bytes: 2048 to 4000000000; may be repeated [default: 1073741824]",
        ))?
        .arg(list(
            alloc,
            "thresholds",
            "MINOR:MAJOR",
            "Compact logs with fewer live thousandths; may be repeated [default: 200:800]",
        ))?
        .arg(CACHE_LIMIT.arg(alloc))?
        .arg(SLOTS.arg(alloc))?
        .arg(COLLECT.arg(alloc))?
        .arg(MINOR.arg(alloc))?
        .arg(MAJOR.arg(alloc))
}

/// Adds the options of the run.
fn with_run<'a>(alloc: Global, command: Command<'a>) -> Result<Command<'a>, AllocError> {
    command
        .arg(BATCH.arg(alloc))?
        .arg(RECORD.arg(alloc))?
        .arg(SEED.arg(alloc))?
        .arg(text(
            alloc,
            "folder",
            "DIR",
            "Run on this empty directory, with real bytes",
        ))?
        .arg(text(
            alloc,
            "html",
            "FILE",
            "Write a page with the curves to this file",
        ))?
        .arg(
            Arg::new(alloc, "holds")
                .long("holds")
                .action(ArgAction::SetTrue)
                .help("Print counts, bytes and the holds of each call below each row"),
        )
}

/// Returns an option that may be repeated.
fn list<'a>(alloc: Global, name: &'static str, value: &'static str, help: &'static str) -> Arg<'a> {
    Arg::new(alloc, name)
        .long(name)
        .action(ArgAction::Append)
        .value_name(value)
        .help(help)
}

/// Returns an option with a text.
fn text<'a>(alloc: Global, name: &'static str, value: &'static str, help: &'static str) -> Arg<'a> {
    Arg::new(alloc, name)
        .long(name)
        .value_name(value)
        .help(help)
}
