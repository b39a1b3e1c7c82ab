//! What a command that reads entries notes of the directory's manifest: a deleted ledger.

ghost use Rattle.std.specs.Prelude.{◌↔◌, IsTrue};
ghost use Rattle.bk_deleted.specs.Noting.{ShowsEntries, IsNote};

use crate::deleted::recorded_in;
use bk_cli::FolderCall;
use bk_cli::words::{LEDGER, NO_MANIFEST};
use bk_messages::write_row;
use serde::Serialize;
use std::fmt;
use std::fmt::{Display, Formatter};
use std::io::Write;

/// A note on the manifest.
#[derive(Clone, Copy, Serialize)]
struct NoteRow {
    note: &'static str,
    /// The ledger that is deleted.
    #[serde(skip_serializing_if = "Option::is_none")]
    ledger: Option<u64>,
    /// The number of deleted ledgers.
    #[serde(skip_serializing_if = "Option::is_none")]
    ledgers: Option<u64>,
}

impl Display for NoteRow {
    fn fmt<W: fmt::Write>(&self, f: &mut Formatter<W>) -> fmt::Result {
        match (self.ledger, self.ledgers) {
            (Some(ledger), _) => write!(f, "note ledger {ledger} is deleted"),
            (None, Some(count)) => write!(f, "note {count} ledgers are deleted"),
            (None, None) => write!(f, "note {}", self.note),
        }
    }
}

/// Notes on the error stream that the ledger of a call is deleted, or how many ledgers are if the
/// call lists all; also that the manifest cannot be read. A failed write is ignored.
pub fn note_deleted<E: Write>(rt: &HostRuntime, call: &FolderCall<'_>, errors: &mut E) {
    let is_of_all = call.name() == "ledgers";
    if !is_noted(call.name()) || call.has(&NO_MANIFEST) {
        return;
    }
    let row = match recorded_in(rt, call.path) {
        Ok(listed) => note_of(is_of_all, call.number(&LEDGER), &listed.deleted),
        Err(_fault) => Some(NoteRow {
            note: "the manifest cannot be read",
            ledger: None,
            ledgers: None,
        }),
    };
    if let Some(row) = row {
        let _ = write_row(rt.alloc(), call.form, &row, errors);
    }
}

/// Returns whether the command of this name shows entries, or the ledgers that have some.
fn is_noted(name: &str) -> bool
    ensures { IsTrue result ↔ ShowsEntries name.now }
{
    matches!(name, "ledgers" | "find" | "entries" | "export")
}

/// Returns the row of a call that shows all ledgers, or one; `None` if nothing that it shows is
/// deleted.
fn note_of(is_of_all: bool, ledger: Option<u64>, deleted: &[u64]) -> Option<NoteRow>
    ensures { IsNote is_of_all ledger deleted.now result }
{
    let (ledger, ledgers) = if is_of_all {
        (None, Some(deleted.len() as u64))
    } else {
        (ledger, None)
    };
    let is_shown = match ledger {
        Some(ledger) => deleted.contains(&ledger),
        None => is_of_all && !deleted.is_empty(),
    };
    if !is_shown {
        return None;
    }
    Some(NoteRow {
        ledger,
        ledgers,
        note: "deleted",
    })
}
