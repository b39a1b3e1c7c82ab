//! Files of logs, with records without data.

use crate::PauseFault;
use bk_disk::{LogDisk, MemDisk};
use bk_head::new_header;
use bk_store::{Settings, Store};
use std::alloc::{AllocError, Global};

/// Settings of the stores: one log and one cache hold all entries.
pub(crate) const SETTINGS: Settings = Settings {
    log_limit: 4_000_000_000,
    cache_limit: 1_073_741_824,
    recent: 0,
    slots: 65_536,
    leases: 1024,
    minor: 200,
    major: 800,
};

/// Logs, each of the same number of records.
#[derive(Clone, Copy)]
pub(crate) struct Files {
    pub logs: u32,
    /// Number of records of a log.
    pub each: u64,
    /// Whether each record of a log is of a ledger of its own. If not, all are of ledger 0.
    pub apart: bool,
}

impl Files {
    /// Returns the ids of a record of a log.
    fn ids(self, log: u32, number: u64) -> (u64, u64) {
        let entry = u64::from(log).saturating_mul(self.each);
        if self.apart {
            (number, u64::from(log))
        } else {
            (0, entry.saturating_add(number))
        }
    }

    /// Opens a store on the logs, with these ledgers deleted.
    pub(crate) fn open(
        self,
        alloc: Global,
        settings: Settings,
        dead: &[u64],
    ) -> Result<Store<MemDisk>, PauseFault> {
        let disk = self.disk(alloc)?;
        Store::open(alloc, disk, settings, dead).map_err(|_| PauseFault::Answer("open"))
    }

    fn disk(self, alloc: Global) -> Result<MemDisk, PauseFault> {
        let mut disk = MemDisk::new(alloc);
        for log in 0..self.logs.min(65_536) {
            disk.create(alloc, log).map_err(|_| PauseFault::Memory)?;
            disk.append(alloc, log, &new_header())
                .map_err(|_| PauseFault::Memory)?;
            self.fill(alloc, &mut disk, log)?;
        }
        Ok(disk)
    }

    fn fill(self, alloc: Global, disk: &mut MemDisk, log: u32) -> Result<(), PauseFault> {
        for number in 0..self.each {
            let mut record = Vec::with_capacity(alloc, 20)?;
            record.extend_from_slice(&16u32.to_be_bytes())?;
            record.extend_from_slice(&payload(alloc, self.ids(log, number))?)?;
            disk.append(alloc, log, &record)
                .map_err(|_| PauseFault::Memory)?;
        }
        Ok(())
    }
}

/// Returns a payload of the two ids alone.
pub(crate) fn payload(alloc: Global, ids: (u64, u64)) -> Result<Vec<u8>, AllocError> {
    let mut payload = Vec::with_capacity(alloc, 16)?;
    payload.extend_from_slice(&ids.0.to_be_bytes())?;
    payload.extend_from_slice(&ids.1.to_be_bytes())?;
    Ok(payload)
}
