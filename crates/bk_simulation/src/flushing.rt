//! Flushes.

use crate::SimFault;
use crate::calls::{Wrote, begin_flush, counts_of, flush_len, publish_flush, write_entry};
use crate::holds::Call;
use crate::month::Bookie;
use bk_disk::LogDisk;
use bk_sim_disk::Metered;

/// Bytes of a header, and of a ledger in a ledgers map.
const HEADER: u64 = 1024;

const LEDGER: u64 = 16;

impl<D: LogDisk> Bookie<D> {
    /// Writes the cache to logs and publishes it. Sets `is_full` if every slot is taken.
    pub(crate) fn flush(&mut self) -> Result<(), SimFault> {
        if !begin_flush(&mut self.store) {
            return Ok(());
        }
        self.write_all()?;
        if self.is_full {
            return Ok(());
        }
        let records = publish_flush(&mut self.store)?;
        self.note_publish(records)?;
        self.note_peaks();
        Ok(())
    }

    /// Counts a publish of this number of records.
    fn note_publish(&mut self, records: u64) -> Result<(), SimFault> {
        self.tally.flushes = self.tally.flushes.saturating_add(1);
        let entries = self.plan.entries(records);
        let cost = self.cost;
        self.note_one(Call::Publish, cost.publish, cost.publish_entry, entries)
    }

    /// Writes all records of the flush.
    fn write_all(&mut self) -> Result<(), SimFault> {
        for _ in 0..=flush_len(&self.store) {
            let before = counts_of(&self.store);
            match write_entry(&mut self.store)? {
                Wrote::Entry => self.note_write(&before)?,
                Wrote::All => break,
                Wrote::Full => {
                    self.is_full = true;
                    break;
                }
            }
        }
        Ok(())
    }

    /// Counts a write, by the counts of the disk before it.
    fn note_write(&mut self, before: &Metered) -> Result<(), SimFault> {
        let after = counts_of(&self.store);
        self.note_each(Call::Write, self.cost.write, 1)?;
        if after.created > before.created {
            let others = after.appended.others.saturating_sub(before.appended.others);
            self.note_seal(others)?;
        }
        Ok(())
    }

    /// Counts a write that sealed a log and created the next one, and appended these bytes for it.
    fn note_seal(&mut self, others: u64) -> Result<(), SimFault> {
        let ledgers = others.saturating_sub(HEADER) / LEDGER;
        let cost = self.cost;
        let fixed = cost.seal.saturating_add(cost.write);
        self.note_one(Call::Seal, fixed, cost.seal_ledger, ledgers)
    }
}
