//! `ledgers`: the records, bytes, first and last entry of each ledger.

ghost use Rattle.std.specs.Prelude.{◌≤◌, IfOk};
ghost use Rattle.bk_inspect.specs.Reading.{OnlyReads};

use crate::form::write_row;
use crate::walk::{TakesEntries, take_in_logs};
use crate::{DirFault, Form};
use bk_disk::LogDisk;
use bk_log::Found;
use serde::Serialize;
use std::alloc::{AllocError, Global};
use std::collections::BTreeMap;
use std::fmt;
use std::fmt::{Display, Formatter};
use std::io::Write;

/// The total of a ledger over all logs.
#[derive(Clone, Copy)]
struct LedgerTotal {
    /// The number of records.
    records: u64,
    /// The size of these records, with the length fields.
    bytes: u64,
    /// The least entry.
    first: u64,
    /// The greatest entry.
    last: u64,
    /// The number of logs with a record.
    logs: u64,
    /// The log of the last record counted.
    log: u32,
}

impl LedgerTotal {
    /// Returns the total of one record.
    fn of(log: u32, found: Found) -> LedgerTotal {
        let entry = found.key.entry();
        LedgerTotal {
            records: 1,
            bytes: u64::from(found.size),
            first: entry,
            last: entry,
            logs: 1,
            log,
        }
    }

    /// Adds a record, of the same log or a later one.
    fn with(self, log: u32, found: Found) -> LedgerTotal {
        let entry = found.key.entry();
        let more = u64::from(log != self.log);
        LedgerTotal {
            records: self.records.saturating_add(1),
            bytes: self.bytes.saturating_add(u64::from(found.size)),
            first: self.first.min(entry),
            last: self.last.max(entry),
            logs: self.logs.saturating_add(more),
            log,
        }
    }
}

/// The total of each ledger found.
#[derive(Drop)]
struct Totals {
    ledgers: BTreeMap<u64, LedgerTotal>,
}

impl TakesEntries for Totals {
    fn take_in(&mut self, log: u32, found: Found) -> Result<(), AllocError> {
        let ledger = found.key.ledger();
        let total = match self.ledgers.get(&ledger) {
            Some(total) => total.with(log, found),
            None => LedgerTotal::of(log, found),
        };
        let _ = self.ledgers.insert(ledger, total)?;
        Ok(())
    }
}

/// Writes one row per ledger, rising, `LEDGER RECORDS BYTES FIRST LAST LOGS`. It counts records: an
/// entry that is moved meanwhile has two if both logs were read. Returns the status, as the walk
/// over the logs does.
pub(crate) fn show_totals<D: LogDisk, W: Write, E: Write>(
    alloc: Global,
    disk: &mut D,
    form: Form,
    writer: &mut W,
    errors: &mut E,
) -> Result<u8, DirFault>
    ensures status { IfOk result (λ status. status ≤ 1) }
    ensures reads { OnlyReads (D.honest disk.old) (D.files disk.old) (D.honest disk.new) (D.files disk.new) }
{
    let mut totals = Totals {
        ledgers: BTreeMap::new(alloc),
    };
    let status = take_in_logs(alloc, disk, &mut totals, form, errors)?;
    for (ledger, total) in &totals.ledgers {
        let row = TotalRow::of(*ledger, *total);
        write_row(alloc, form, &row, writer)?;
    }
    Ok(status)
}

/// The row of a ledger.
#[derive(Clone, Copy, Serialize)]
struct TotalRow {
    ledger: u64,
    records: u64,
    bytes: u64,
    first: u64,
    last: u64,
    logs: u64,
}

impl TotalRow {
    /// Returns the row of a ledger.
    fn of(ledger: u64, total: LedgerTotal) -> TotalRow {
        TotalRow {
            ledger,
            records: total.records,
            bytes: total.bytes,
            first: total.first,
            last: total.last,
            logs: total.logs,
        }
    }
}

impl Display for TotalRow {
    fn fmt<W: fmt::Write>(&self, f: &mut Formatter<W>) -> fmt::Result {
        write!(
            f,
            "{} {} {} {} {} {}",
            self.ledger, self.records, self.bytes, self.first, self.last, self.logs
        )
    }
}
