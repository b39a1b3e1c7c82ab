//! A survey of a directory: what a page shows, counted while the logs are read.

ghost use Rattle.std.specs.Prelude.{◌≡◌, IfOk, OnOk};

use crate::{Histogram, LedgerRow, LogCount, LogEnd, LogRow, Report, Thresholds};
use std::alloc::{AllocError, Global};
use std::collections::{BTreeMap, BTreeSet};

/// The greatest number of ledgers that a page shows.
const LEDGERS: usize = 20;

/// What was counted of a ledger over all logs.
#[derive(Clone, Copy)]
pub struct LedgerCount {
    pub entries: u64,
    /// The bytes of these entries, with their length fields.
    pub bytes: u64,
    /// The number of logs with an entry.
    pub logs: u64,
    /// The log of the last entry.
    pub log: u32,
    pub is_dead: bool,
}

impl LedgerCount {
    ghost use Rattle.bk_report.specs.Surveying.{HasOneMore};
    ghost use Rattle.std.specs.Prelude.{Some, None};

    /// Returns the count of one entry.
    fn of(log: u32, size: u64, is_dead: bool) -> LedgerCount
        ensures { HasOneMore size is_dead None result }
    {
        LedgerCount {
            entries: 1,
            bytes: size,
            logs: 1,
            log,
            is_dead,
        }
    }

    /// Returns the count with one more entry, of the same log or a later one.
    fn with_entry(self, log: u32, size: u64, is_dead: bool) -> LedgerCount
        ensures { HasOneMore size is_dead (Some self) result }
    {
        LedgerCount {
            entries: self.entries.saturating_add(1),
            bytes: self.bytes.saturating_add(size),
            logs: self.logs.saturating_add(u64::from(log != self.log)),
            log,
            is_dead,
        }
    }
}

/// Counts a directory. For each log call `begin`, then `add` for each of its entries, then `end`.
#[derive(Drop)]
pub struct Survey {
    /// The logs that were read.
    pub logs: Vec<LogRow>,
    /// The log that is read.
    pub log: LogCount,
    /// What was counted of each ledger.
    pub ledgers: BTreeMap<u64, LedgerCount>,
    /// The sizes of all entries.
    pub sizes: Histogram,
    /// The deleted ledgers.
    pub deleted: BTreeSet<u64>,
}

impl Survey {
    ghost use Rattle.bk_report.specs.Surveying.{AddsToLedger, CountsEntry, EndsLog};

    /// Returns the survey of no log.
    pub fn new(alloc: Global, deleted: BTreeSet<u64>) -> Survey
        ensures { result.deleted ≡ deleted }
    {
        Survey {
            logs: Vec::new(alloc),
            log: LogCount::new(0, 0, false),
            ledgers: BTreeMap::new(alloc),
            sizes: Histogram::EMPTY,
            deleted,
        }
    }

    /// Begins a log, whose file has `bytes` bytes.
    pub fn begin(&mut self, log: u32, bytes: u64, is_sealed: bool)
        ensures { self.new ≡ record self.old { log = self.new.log } }
    {
        self.log = LogCount::new(log, bytes, is_sealed);
    }

    /// Counts an entry of the log, whose record has `size` bytes.
    pub fn add(&mut self, ledger: u64, size: u64) -> Result<(), AllocError>
        ensures { OnOk result (CountsEntry ledger size self.old self.new) }
    {
        let is_dead = self.deleted.contains(&ledger);
        let is_first = self.add_to_ledger(ledger, size, is_dead)?;
        self.log = self.log.with_entry(size, is_dead, is_first);
        self.sizes.count(size);
        Ok(())
    }

    /// Counts an entry in its ledger. Returns whether it is the first of its ledger in the log.
    fn add_to_ledger(&mut self, ledger: u64, size: u64, is_dead: bool) -> Result<bool, AllocError>
        ensures frame { self.new ≡ record self.old { ledgers = self.new.ledgers } }
        ensures ok { OnOk result (AddsToLedger ledger size is_dead self.old.ledgers self.new.ledgers) }
    {
        let log = self.log.log;
        let found = self.ledgers.get(&ledger).copied();
        let (count, is_first) = match found {
            Some(count) => (count.with_entry(log, size, is_dead), count.log != log),
            None => (LedgerCount::of(log, size, is_dead), true),
        };
        let _ = self.ledgers.insert(ledger, count)?;
        Ok(is_first)
    }

    /// Ends the log, of which `fault` says what is wrong.
    pub fn end(&mut self, end: LogEnd, fault: Option<String>) -> Result<(), AllocError>
        ensures { OnOk result (EndsLog end self.old self.new) }
    {
        let row = self.log.row(end, fault);
        self.logs.push(row)?;
        Ok(())
    }

    /// Returns the report on what was counted.
    pub fn report(
        self,
        alloc: Global,
        folder: String,
        time: String,
        faults: Vec<String>,
        thresholds: Thresholds,
    ) -> Result<Report, AllocError>
        ensures logs { IfOk result (λ report. report.logs ≡ self.logs) }
    {
        let ledgers = largest(alloc, &self.ledgers)?;
        Ok(Report {
            folder,
            time,
            ledger_count: self.ledgers.len() as u64,
            dead_count: self.deleted.len() as u64,
            logs: self.logs,
            ledgers,
            sizes: self.sizes,
            faults,
            thresholds,
            manifest: None,
        })
    }
}

/// Returns the largest ledgers, the largest first, and of equal ones the one with the least id.
fn largest(
    alloc: Global,
    ledgers: &BTreeMap<u64, LedgerCount>,
) -> Result<Vec<LedgerRow>, AllocError> {
    let mut rows = Vec::new(alloc);
    for (ledger, count) in ledgers {
        rows.push(LedgerRow {
            ledger: *ledger,
            entries: count.entries,
            bytes: count.bytes,
            logs: count.logs,
            is_dead: count.is_dead,
        })?;
    }
    rows.sort_by_key(|row| u64::MAX - row.bytes)?;
    rows.truncate(LEDGERS);
    Ok(rows)
}
