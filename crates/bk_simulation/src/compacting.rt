//! Compactions and removals, as a bookie's workers do them.

use crate::SimFault;
use crate::calls::{
    Began, begin_compaction, bytes_of, copy_entries, counts_of, end_copies, finish_compaction,
    log_from, remove_log, retire_log, sizes_of, switch_entries,
};
use crate::cost::linear;
use crate::holds::Call;
use crate::month::Bookie;
use bk_compact::Kind;
use bk_disk::LogDisk;

/// Number of entries of one step, of real ones.
const STRIDE: u64 = 1000;

/// Number of simulated records of one step.
const RECORDS: u64 = 4096;

/// Bytes of a ledger in a ledgers map, and of a header.
const LEDGER: u64 = 16;

/// Greatest number of logs of one pass, as many as a store may hold.
const LOGS: u32 = 65_536;

impl<D: LogDisk> Bookie<D> {
    /// Removes each log without an entry to which the index points.
    pub(crate) fn remove_unused(&mut self) -> Result<(), SimFault> {
        let mut from = 0u32;
        for _ in 0..LOGS {
            let Some(log) = log_from(&self.store, from) else {
                break;
            };
            from = log.saturating_add(1);
            self.note_one(Call::Retire, self.cost.retire, 0, 1)?;
            if retire_log(&mut self.store, log) {
                self.remove(log)?;
            }
        }
        Ok(())
    }

    /// Closes and removes a retired log.
    fn remove(&mut self, log: u32) -> Result<(), SimFault> {
        let ledgers = self.ledgers_in(log);
        remove_log(&mut self.store, log)?;
        self.tally.removed = self.tally.removed.saturating_add(1);
        let cost = self.cost;
        self.note_one(Call::Remove, cost.remove, cost.remove_ledger, ledgers)
    }

    /// Returns the number of ledgers in the map of a log.
    fn ledgers_in(&self, log: u32) -> u64 {
        bytes_of(&self.store, log).others.saturating_sub(1024) / LEDGER
    }

    /// Compacts all logs that qualify, and removes those without entries.
    pub(crate) fn compact_all(&mut self, kind: Kind) -> Result<(), SimFault> {
        self.remove_unused()?;
        for _ in 0..LOGS {
            let Some(source) = self.begin(kind)? else {
                break;
            };
            let moved = self.compact(source)?;
            self.tally_compaction(kind, moved);
            self.note_peaks();
        }
        Ok(())
    }

    /// Counts a compaction that moved this number of records.
    fn tally_compaction(&mut self, kind: Kind, moved: u64) {
        let tally = &mut self.tally;
        match kind {
            Kind::Minor => {
                tally.minor = tally.minor.saturating_add(1);
                tally.minor_moved = tally.minor_moved.saturating_add(moved);
            }
            Kind::Major => {
                tally.major = tally.major.saturating_add(1);
                tally.major_moved = tally.major_moved.saturating_add(moved);
            }
        }
    }

    /// Begins a compaction, if a log qualifies. Sets `is_full` if every slot is taken.
    fn begin(&mut self, kind: Kind) -> Result<Option<u32>, SimFault> {
        let (logs, _) = sizes_of(&self.store);
        let found = match begin_compaction(&mut self.store, kind)? {
            Began::Chosen(log) => Some(log),
            Began::Nothing => None,
            Began::Full => {
                self.is_full = true;
                return Ok(None);
            }
        };
        let cost = self.cost;
        self.note_one(Call::Begin, cost.begin, cost.begin_log, logs)?;
        Ok(found)
    }

    /// Copies, switches and removes the source log. Returns the number of records moved.
    fn compact(&mut self, source: u32) -> Result<u64, SimFault> {
        self.copy_all(source)?;
        let moved = self.end_copy()?;
        self.switch_all()?;
        self.note_one(Call::Finish, self.cost.finish, 0, 1)?;
        let log = finish_compaction(&mut self.store)?;
        self.remove(log)?;
        Ok(moved)
    }

    /// Copies all entries to which the index points.
    fn copy_all(&mut self, source: u32) -> Result<(), SimFault> {
        let mut left = self.records_in(source);
        for _ in 0..u64::MAX {
            let Some(copied) = copy_entries(&mut self.store, RECORDS)? else {
                break;
            };
            self.note_copy(left.min(RECORDS), copied)?;
            left = left.saturating_sub(RECORDS);
        }
        Ok(())
    }

    /// Returns the number of records in a log.
    fn records_in(&self, log: u32) -> u64 {
        bytes_of(&self.store, log).records / u64::from(self.plan.scale.record).max(1)
    }

    /// Counts the steps that examine and copy this number of records.
    fn note_copy(&mut self, examined: u64, copied: u64) -> Result<(), SimFault> {
        let examined = self.plan.entries(examined);
        let copied = self.plan.entries(copied);
        let steps = examined.div_ceil(STRIDE).max(1);
        let each = copied.div_ceil(steps).min(STRIDE);
        let cost = self.cost;
        let fixed = linear(cost.copy, cost.copy_copied, each);
        let size = examined.min(STRIDE);
        let instructions = linear(fixed, cost.copy_examined, size);
        self.holds.note(Call::Copy, size, instructions, steps)?;
        Ok(())
    }

    /// Seals the target log. Returns the number of records copied.
    fn end_copy(&mut self) -> Result<u64, SimFault> {
        let before = counts_of(&self.store);
        let moved = end_copies(&mut self.store)?;
        let after = counts_of(&self.store);
        let others = after.appended.others.saturating_sub(before.appended.others);
        let cost = self.cost;
        self.note_one(Call::EndCopy, cost.seal, cost.seal_ledger, others / LEDGER)?;
        Ok(moved)
    }

    /// Points the index to the copies.
    fn switch_all(&mut self) -> Result<(), SimFault> {
        for _ in 0..u64::MAX {
            let (moved, left) = switch_entries(&mut self.store, RECORDS)?;
            self.note_switch(moved)?;
            if left == 0 {
                break;
            }
        }
        Ok(())
    }

    /// Counts the steps that switch this number of records.
    fn note_switch(&mut self, moved: u64) -> Result<(), SimFault> {
        let entries = self.plan.entries(moved);
        let steps = entries.div_ceil(STRIDE).max(1);
        let size = entries.min(STRIDE);
        let instructions = linear(self.cost.switch, self.cost.switch_entry, size);
        self.holds.note(Call::Switch, size, instructions, steps)?;
        Ok(())
    }
}
