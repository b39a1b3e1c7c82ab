//! Command line of the commands on a directory, as defined by their rows.

use crate::help::PROGRAM;
use crate::row::{CommandRow, Usage, Value, Word};
use crate::rows::{row_of, tables};
use crate::words::LOG;
use bk_decimal::number;
use bk_disk::log_of;
use bk_inspect::Form;
use bk_record::LAST_LOG;
use clap::error::ErrorKind;
use clap::{Arg, ArgAction, ArgMatches, Command, Error};
use std::alloc::{AllocError, Global};
use std::convert::AsStr;
use std::fmt;
use std::fmt::{Display, Formatter};

/// A call of a command on a directory. Each value that was given is in its range.
#[derive(Drop)]
pub struct FolderCall<'a> {
    /// The form of the output.
    pub form: Form,
    /// The directory's path.
    pub path: &'a str,
    row: &'static CommandRow,
    found: ArgMatches<'a>,
}

impl<'a> FolderCall<'a> {
    /// Returns the command's name.
    pub fn name(&self) -> &'static str {
        self.row.name
    }

    /// Returns whether a flag is given.
    pub fn has(&self, flag: &Word) -> bool {
        self.found.get_flag(flag.name)
    }

    /// Returns the log; `None` if the command has no such operand.
    pub fn log(&self) -> Option<u32> {
        log_in(self.found.get_str(LOG.name)?)
    }

    /// Returns the number of an operand or an option; `None` if it is not given.
    pub fn number(&self, word: &Word) -> Option<u64> {
        match word.value {
            Value::Number { name: _, most } => number(self.found.get_str(word.name)?, most),
            _ => None,
        }
    }

    /// Returns the numbers of an option that may be repeated, in order.
    ///
    /// # Errors
    ///
    /// - `AllocError` if an allocation fails.
    pub fn numbers(&self, alloc: Global, word: &Word) -> Result<Vec<u64>, AllocError> {
        let mut numbers = Vec::new(alloc);
        if let (Value::Numbers { name: _, most }, Some(texts)) = (
            word.value,
            self.found.get_strs(word.name),
        ) {
            for text in texts {
                if let Some(n) = number(text, most) {
                    numbers.push(n)?;
                }
            }
        }
        Ok(numbers)
    }

    /// Returns the text of an option; `None` if it is not given.
    pub fn text(&self, word: &Word) -> Option<&'a str> {
        self.found.get_str(word.name)
    }

    /// Returns the texts of an option that may be repeated, in order.
    ///
    /// # Errors
    ///
    /// - `AllocError` if an allocation fails.
    pub fn texts(&self, alloc: Global, word: &Word) -> Result<Vec<&'a str>, AllocError> {
        let mut texts = Vec::new(alloc);
        if let Some(found) = self.found.get_strs(word.name) {
            texts.extend_from_slice(found)?;
        }
        Ok(texts)
    }
}

/// A value that is not in its range.
#[derive(Clone, Copy, Debug)]
struct BadWord<'a> {
    text: &'a str,
    word: Word,
}

impl Display for BadWord<'_> {
    fn fmt<W: fmt::Write>(&self, f: &mut Formatter<W>) -> fmt::Result {
        let text = self.text;
        match self.word.value {
            Value::Number { name, most } | Value::Numbers { name, most } => {
                write!(
                    f,
                    "invalid value '{text}' for '<{name}>': not a number from 0 to {most} in plain digits"
                )
            }
            Value::Choice { name, among } => {
                write!(
                    f,
                    "invalid value '{text}' for '--{} <{name}>': not {}",
                    self.word.name,
                    Among { words: among }
                )
            }
            Value::Log | Value::Flag | Value::Path | Value::Paths { .. } => {
                write!(
                    f,
                    "invalid value '{text}' for '<{}>': not a number from 0 to {LAST_LOG} in plain digits",
                    self.word.name
                )
            }
        }
    }
}

/// Words from which one is chosen.
#[derive(Clone, Copy)]
struct Among {
    words: &'static [&'static str],
}

impl Display for Among {
    fn fmt<W: fmt::Write>(&self, f: &mut Formatter<W>) -> fmt::Result {
        for (index, word) in self.words.iter().enumerate() {
            let follows = self.words.len().saturating_sub(index);
            match (index, follows) {
                (0, _) => write!(f, "{word}")?,
                (_, 1) => write!(f, " or {word}")?,
                _ => write!(f, ", {word}")?,
            }
        }
        Ok(())
    }
}

/// The option, after the program's name or after a command, for output as JSON.
const JSON: &str = "--json";

/// Returns whether the words call a command on a directory, or request help on one. The first word
/// is the program's name.
pub fn is_folder_call<S: AsStr>(words: &[S]) -> bool {
    command_of(words).is_some_and(|name| row_of(name).is_some())
}

/// Returns the command that the words call or request help on. The first word is the program's
/// name, and `--json` may follow it. Returns `None` if there is no further word.
pub fn command_of<'a, S: AsStr>(words: &'a [S]) -> Option<&'a str> {
    let skipped = match words {
        [_, first, ..] if first.as_str() == JSON => 2,
        _ => 1,
    };
    match words.get(skipped..) {
        Some([first, second, ..]) if first.as_str() == "help" => Some(second.as_str()),
        Some([first, ..]) => Some(first.as_str()),
        _ => None,
    }
}

/// Parses words to a call of a command on a directory. The first word is the program's name.
///
/// # Errors
///
/// By the kind of the error:
///
/// - `OutOfMemory`: an allocation failed.
/// - `DisplayHelp`: help was requested.
/// - any other kind: the command line is invalid.
pub fn folder_call<'a, S: AsStr>(alloc: Global, words: &'a [S]) -> Result<FolderCall<'a>, Error> {
    let Matched { row, found } = find_command(alloc, words)?;
    check_values(alloc, row, &found)?;
    Ok(FolderCall {
        form: form_of(&found),
        path: found.get_str("DIR").unwrap_or(""),
        row,
        found,
    })
}

/// A command that was called, and the values of its operands and options.
#[derive(Drop)]
struct Matched<'a> {
    row: &'static CommandRow,
    found: ArgMatches<'a>,
}

/// Parses words to a command and its values, whatever these are.
fn find_command<'a, S: AsStr>(alloc: Global, words: &'a [S]) -> Result<Matched<'a>, Error> {
    let mut commands = folder_commands(alloc)?;
    let mut matches = commands.try_get_matches_from_mut(words)?;
    let Some((name, found)) = matches.remove_subcommand() else {
        return Err(commands.error(ErrorKind::MissingSubcommand, "a command is asked for")?);
    };
    match row_of(name) {
        Some(row) => Ok(Matched { row, found }),
        None => Err(commands.error(ErrorKind::InvalidSubcommand, "no command on a directory")?),
    }
}

/// Checks that each value is in its range and that no operand is missing.
fn check_values(
    alloc: Global,
    row: &'static CommandRow,
    found: &ArgMatches<'_>,
) -> Result<(), Error> {
    if let Some(bad) = bad_word_in(row, found) {
        return Err(bad_word(alloc, row, &bad)?);
    }
    if let Some(missing) = missing_in(row, found) {
        return Err(missing_word(alloc, row, &missing)?);
    }
    Ok(())
}

/// An operand that is not given, and the flag that could be given in its place.
#[derive(Clone, Copy, Debug)]
struct MissingWord {
    operand: &'static str,
    flag: &'static str,
}

impl Display for MissingWord {
    fn fmt<W: fmt::Write>(&self, f: &mut Formatter<W>) -> fmt::Result {
        write!(f, "give <{}> or --{}", self.operand, self.flag)
    }
}

/// Returns the first operand that is not given, nor the flag in its place.
fn missing_in(row: &CommandRow, found: &ArgMatches<'_>) -> Option<MissingWord> {
    for word in row.operands {
        if let Some(flag) = word.unless
            && found.get_str(word.name).is_none()
            && !found.get_flag(flag)
        {
            return Some(MissingWord {
                operand: word.name,
                flag,
            });
        }
    }
    None
}

/// Returns the error of an operand that is not given, with the command's usage.
fn missing_word(
    alloc: Global,
    row: &'static CommandRow,
    missing: &MissingWord,
) -> Result<Error, AllocError> {
    let reason = format!(in alloc; "{missing}")?;
    error_of(alloc, row, ErrorKind::MissingRequiredArgument, &reason)
}

/// Returns the first value that is not in its range: of the operands, then of the options.
fn bad_word_in<'a>(row: &CommandRow, found: &ArgMatches<'a>) -> Option<BadWord<'a>> {
    for word in row.operands.iter().chain(row.options) {
        if let Some(text) = bad_text(word, found) {
            return Some(BadWord { text, word: *word });
        }
    }
    None
}

/// Returns the first value of an operand or option that is not in its range.
fn bad_text<'a>(word: &Word, found: &ArgMatches<'a>) -> Option<&'a str> {
    let texts = match word.value {
        Value::Flag | Value::Path | Value::Paths { .. } => return None,
        _ => found.get_strs(word.name)?,
    };
    for text in texts {
        let is_good = match word.value {
            Value::Log => log_in(text).is_some(),
            Value::Number { name: _, most } | Value::Numbers { name: _, most } => {
                number(text, most).is_some()
            }
            Value::Choice { name: _, among } => among.contains(text),
            Value::Flag | Value::Path | Value::Paths { .. } => true,
        };
        if !is_good {
            return Some(*text);
        }
    }
    None
}

/// Returns the log that a text denotes: by its file name or by its id in decimal.
fn log_in(text: &str) -> Option<u32> {
    match log_of(text) {
        Some(log) => Some(log),
        None => Some(number(text, u64::from(LAST_LOG))? as u32),
    }
}

/// Returns the error of a value that is not in its range, with the command's usage.
fn bad_word(
    alloc: Global,
    row: &'static CommandRow,
    bad: &BadWord<'_>,
) -> Result<Error, AllocError> {
    let reason = reason_of(alloc, bad)?;
    error_of(alloc, row, ErrorKind::ValueValidation, &reason)
}

/// Returns an error of this kind for this reason, with the command's usage.
fn error_of(
    alloc: Global,
    row: &'static CommandRow,
    kind: ErrorKind,
    reason: &str,
) -> Result<Error, AllocError> {
    let usage = format!(in alloc; "{}", Usage { row })?;
    let mut command = Command::new(alloc, PROGRAM).override_usage(usage.as_str());
    command.error(kind, reason)
}

/// Returns the reason. If the text is the name of a log file without its extension, the reason also
/// has the log's id.
fn reason_of(alloc: Global, bad: &BadWord<'_>) -> Result<String, AllocError> {
    if let Value::Log = bad.word.value {
        let name = format!(in alloc; "{}.log", bad.text)?;
        if let Some(log) = log_of(&name) {
            return format!(in alloc; "{bad}; the file {name} is log {log}");
        }
    }
    format!(in alloc; "{bad}")
}

/// Returns the output form that the matches of a command line with `json_arg` select.
pub fn form_of(found: &ArgMatches<'_>) -> Form {
    if found.get_flag("json") {
        Form::Json
    } else {
        Form::Text
    }
}

/// Returns the command line of the commands on a directory.
fn folder_commands<'a>(alloc: Global) -> Result<Command<'a>, AllocError> {
    let mut commands = Command::new(alloc, PROGRAM)
        .bin_name(PROGRAM)?
        .about("Entry log storage of a bookie")
        .subcommand_required(true)
        .arg(json_arg(alloc))?;
    for rows in tables() {
        commands = with_rows(alloc, commands, rows)?;
    }
    Ok(commands)
}

/// Returns a command line with the commands of these rows too.
fn with_rows<'a>(
    alloc: Global,
    mut commands: Command<'a>,
    rows: &'static [CommandRow],
) -> Result<Command<'a>, AllocError> {
    for row in rows {
        commands = commands.subcommand(row.command(alloc)?)?;
    }
    Ok(commands)
}

/// Returns the option for output as JSON, which may follow the program's name or a command.
pub fn json_arg<'a>(alloc: Global) -> Arg<'a> {
    Arg::new(alloc, "json")
        .long("json")
        .global(true)
        .action(ArgAction::SetTrue)
        .help("Print each line as a JSON object")
}
