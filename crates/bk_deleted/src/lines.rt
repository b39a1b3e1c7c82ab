//! Files that list ledgers, one per line: deleted ones, or live ones.

ghost use Rattle.std.specs.Prelude.{◌<◌, ◌^◌, IfSome, OnOk};
ghost use Rattle.bk_deleted.specs.Lines.{Names, IsOfLine};
ghost use Rattle.bk_deleted.specs.Deleting.{Gains};

use bk_decimal::number;
use bk_messages::{DeadFault, LineEnd};
use bk_record::LAST_ID;
use std::alloc::Global;
use std::fs;

/// The lines of a file of ledgers.
#[derive(Clone, Copy, Debug, PartialEq, Eq)]
pub(crate) enum Lines {
    /// A ledger in plain digits.
    Plain,
    /// The same, or as the stock shell lists ledgers: `ledgerID: 12`.
    Listed,
}

impl Lines {
    /// Returns the ledger of a line.
    fn ledger_of(self, line: &str) -> Option<u64>
        ensures least { IfSome result (λ ledger. ledger < 2 ^ 63) }
        ensures value { IfSome result (λ ledger. Names self line.now ledger) }
    {
        let digits = match self {
            Lines::Plain => line,
            Lines::Listed => match line.strip_prefix("ledgerID:") {
                Some(rest) => rest.trim_start_matches(' '),
                None => line,
            },
        };
        number(digits, LAST_ID)
    }
}

/// Appends the ledgers of a file. Empty lines are ignored.
pub(crate) fn read_file(
    rt: &HostRuntime,
    path: &str,
    lines: Lines,
    ledgers: &mut Vec<u64>,
) -> Result<(), DeadFault>
    ensures { OnOk result (Gains ledgers.old.items ledgers.new.items) }
{
    let text = match fs::read_to_string(rt, path) {
        Ok(text) => text,
        Err(reason) => {
            let path = String::from_str(rt.alloc(), path)?;
            return Err(DeadFault::Unread { path, reason });
        }
    };
    for (index, line) in text.split('\n').enumerate() {
        if line.is_empty() {
            continue;
        }
        let Some(ledger) = lines.ledger_of(line) else {
            return Err(bad_line(rt.alloc(), path, index, line));
        };
        if ledgers.push(ledger).is_err() {
            return Err(DeadFault::Memory);
        }
    }
    Ok(())
}

/// Returns the fault of the line of this index, from 0, of the file at a path: it is no ledger.
fn bad_line(alloc: Global, path: &str, index: usize, line: &str) -> DeadFault
    ensures { IsOfLine index result }
{
    match String::from_str(alloc, path) {
        Ok(path) => DeadFault::Line {
            path,
            number: (index as u64).saturating_add(1),
            end: LineEnd::of(line),
        },
        Err(_) => DeadFault::Memory,
    }
}
