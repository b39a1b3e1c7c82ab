//! The command line.

use crate::options::Options;
use std::alloc::AllocGlobal;
use std::convert::AsStr;
use std::env::Env;
use std::{env, io};
use thiserror::Error;

pub(crate) const VERSION: &str = "bk_serve 1.0\n";

pub(crate) const HELP: &str = "\
Serves one directory of entry logs to one client, over standard input and output

Usage: bk_serve DIR [OPTIONS]

The client writes requests to the standard input and reads replies from the standard output
(bindings/protocol.md). The directory is created if nothing is there and its parent exists. The file
`ledgers.manifest` beside the logs keeps deleted and fenced ledgers and the attributes of ledgers.
A hint, such as `1f.hint` beside the log `1f.log`, lists the entries of a sealed log, so that an
opening need not read the log.

Options:
      --compact MINOR,MAJOR  Compact in the background: logs with less than MINOR percent of live
                             bytes, then those with less than MAJOR. 0 omits a kind
      --log-limit BYTES      Seal a log before an entry that would make it longer than this: 2048 to
                             4000000000 [1073741824]
      --no-hints             Neither use nor write hints
      --readers N            Let up to N threads share reads that were sent ahead, 1 to 8: for a
                             directory that does not fit in memory [1]
  -h, --help                 Print help
  -V, --version              Print version

Exit status: 0 after a session that ended in order, 1 after any other, 2 for a wrong command line
";

/// What a command line asks for.
pub(crate) enum Command<'a> {
    /// To serve the directory at this path.
    Serve { path: &'a str, options: Options },
    Help,
    Version,
    /// Nothing: it is wrong.
    Wrong,
}

/// Returns what the words of a command line ask for, of which the first is the program's name.
pub(crate) fn command_of<S: AsStr>(words: &[S]) -> Command<'_> {
    match words {
        [_, word] if is_one_of(word.as_str(), "-h", "--help") => Command::Help,
        [_, word] if is_one_of(word.as_str(), "-V", "--version") => Command::Version,
        [_, words @ ..] => match serve_of(words) {
            Some((path, options)) => Command::Serve { path, options },
            None => Command::Wrong,
        },
        [] => Command::Wrong,
    }
}

/// Returns whether a word is one of two.
fn is_one_of(word: &str, short: &str, long: &str) -> bool {
    word == short || word == long
}

/// Returns the directory that is to be served, and how. The last of equal options counts.
fn serve_of<S: AsStr>(words: &[S]) -> Option<(&str, Options)> {
    let (place, options) = place_of(words)?;
    Some((words.get(place)?.as_str(), options))
}

/// Returns which word is the directory, and the options that the others are.
fn place_of<S: AsStr>(words: &[S]) -> Option<(usize, Options)> {
    let mut place = None;
    let mut options = Options::DEFAULT;
    let mut at = 0usize;
    for _ in 0..words.len() {
        let Some(word) = words.get(at) else {
            break;
        };
        if is_path(word.as_str()) && place.is_none() {
            place = Some(at);
            at = at.saturating_add(1);
        } else {
            let value = match words.get(at.saturating_add(1)) {
                Some(value) => Some(value.as_str()),
                None => None,
            };
            at = at.saturating_add(options.set(word.as_str(), value)?);
        }
    }
    Some((place?, options))
}

/// Returns whether a word can be a path and is no option.
fn is_path(word: &str) -> bool {
    !word.is_empty() && !word.starts_with('-')
}

/// Why the words of the command line are not known. Its text is what the program reports.
#[derive(Clone, Copy, Debug, PartialEq, Eq, Error)]
pub(crate) enum WordsFault {
    /// A word is not UTF-8.
    #[error("error: a word of the command line is not UTF-8")]
    NotText,
    /// Out of memory.
    #[error("fault memory")]
    Memory,
}

impl WordsFault {
    /// Returns the program's exit status.
    pub(crate) fn status(self) -> u8 {
        match self {
            WordsFault::NotText => 2,
            WordsFault::Memory => 1,
        }
    }
}

/// Returns the words of the process's command line, the program's name first.
pub(crate) fn words_of<R: Env + AllocGlobal>(rt: &R) -> Result<Vec<String>, WordsFault> {
    let args = match env::args(rt) {
        Ok(args) => args,
        Err(error) if error.kind() == io::ErrorKind::InvalidData => {
            return Err(WordsFault::NotText);
        }
        Err(_) => return Err(WordsFault::Memory),
    };
    args.collect(rt.alloc()).map_err(|_| WordsFault::Memory)
}
