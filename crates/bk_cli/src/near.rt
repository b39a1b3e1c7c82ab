//! The command that was meant by a word that is none.

use crate::folder::command_of;
use crate::help::PROGRAM;
use crate::row::CommandRow;
use crate::rows::tables;
use clap::error::ErrorKind;
use clap::{Command, Error};
use std::alloc::{AllocError, Global};
use std::convert::AsStr;
use strsim::osa_distance;

/// The commands that are not on a directory alone.
const OTHERS: [&str; 3] = ["script", "load", "help"];

/// Returns the error of words that call an unknown command, with the name of a command that differs
/// from it in one slip: a letter too many, too few, another, or two exchanged. `None` if there is no
/// such command. The first word is the program's name. Fails if memory is refused.
pub fn near_command_error<S: AsStr>(
    alloc: Global,
    words: &[S],
) -> Result<Option<Error>, AllocError> {
    let Some(word) = command_of(words) else {
        return Ok(None);
    };
    let Some(name) = near_command(alloc, word)? else {
        return Ok(None);
    };
    let told = format!(in alloc; "unrecognized command '{word}'; there is '{name}'")?;
    let mut program = Command::new(alloc, PROGRAM).override_usage(
        "bookie COMMAND [OPTIONS] [WORDS]",
    );
    Ok(Some(program.error(ErrorKind::InvalidSubcommand, &told)?))
}

/// Returns the command that differs from a word in one slip.
fn near_command(alloc: Global, word: &str) -> Result<Option<&'static str>, AllocError> {
    for rows in tables() {
        if let Some(name) = near_row(alloc, word, rows)? {
            return Ok(Some(name));
        }
    }
    for name in OTHERS {
        if osa_distance(alloc, word, name)? == 1 {
            return Ok(Some(name));
        }
    }
    Ok(None)
}

/// Returns the command of these rows that differs from a word in one slip.
fn near_row(
    alloc: Global,
    word: &str,
    rows: &'static [CommandRow],
) -> Result<Option<&'static str>, AllocError> {
    for row in rows {
        if osa_distance(alloc, word, row.name)? == 1 {
            return Ok(Some(row.name));
        }
    }
    Ok(None)
}
