//! The commands on a directory, one row each.
//!
//! To add a command, add a row in one of the tables and a function in bk_commands. A table is
//! expanded in the proof of each function that names it, so one function names each, and a table is
//! short.

mod copying;
mod counting;
mod listing;
mod reading;
mod writing;

use crate::row::CommandRow;
use copying::COPYING;
use counting::COUNTING;
use listing::LISTING;
use reading::READING;
use writing::WRITING;

/// Returns the tables of the commands that change nothing, in the order of the help.
pub fn reading_tables() -> [&'static [CommandRow]; 3] {
    [listing_rows(), reading_rows(), counting_rows()]
}

/// Returns the tables of the commands that write, in the order of the help.
pub fn writing_tables() -> [&'static [CommandRow]; 2] {
    [copying_rows(), writing_rows()]
}

/// Returns the tables of all commands, in the order of the help.
pub fn tables() -> [&'static [CommandRow]; 5] {
    [
        listing_rows(),
        reading_rows(),
        counting_rows(),
        copying_rows(),
        writing_rows(),
    ]
}

/// Returns the row of the command with this name.
pub fn row_of(name: &str) -> Option<&'static CommandRow> {
    for table in tables() {
        if let Some(row) = table.iter().find(|row| row.name == name) {
            return Some(row);
        }
    }
    None
}

/// Returns the rows of the commands that check a directory or list what it has.
fn listing_rows() -> &'static [CommandRow] {
    LISTING
}

/// Returns the rows of the commands that read entries, or one log.
fn reading_rows() -> &'static [CommandRow] {
    READING
}

/// Returns the rows of the commands that count the entries of live ledgers.
fn counting_rows() -> &'static [CommandRow] {
    COUNTING
}

/// Returns the rows of the commands that copy logs, or read them for their hints.
fn copying_rows() -> &'static [CommandRow] {
    COPYING
}

/// Returns the rows of the commands that write records, manifests and ledgers maps.
fn writing_rows() -> &'static [CommandRow] {
    WRITING
}
