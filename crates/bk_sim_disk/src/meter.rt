//! A disk over another one that counts what the calls do.

ghost use Rattle.std.specs.Prelude.{false};
ghost use Rattle.std.specs.FinMap as map;

use crate::record::is_entry;
use bk_disk::{DiskFault, LogDisk};
use std::alloc::{AllocError, Global};
use std::collections::BTreeMap;

/// Bytes of a log or of several: those of the records of entries, with their length fields, and all
/// others, which are headers and ledgers maps.
#[derive(Clone, Copy, Debug, Default, PartialEq, Eq)]
pub struct Bytes {
    pub records: u64,
    pub others: u64,
}

impl Bytes {
    /// Adds the bytes of one append.
    fn add(&mut self, bytes: &[u8]) {
        let count = bytes.len() as u64;
        if is_entry(bytes) {
            self.records = self.records.saturating_add(count);
        } else {
            self.others = self.others.saturating_add(count);
        }
    }

    /// Takes away the bytes of a log.
    fn take(&mut self, gone: Bytes) {
        self.records = self.records.saturating_sub(gone.records);
        self.others = self.others.saturating_sub(gone.others);
    }
}

/// What the calls on a disk did, up to now.
#[derive(Clone, Copy, Debug, Default, PartialEq, Eq)]
pub struct Metered {
    /// Number of logs that were created.
    pub created: u64,
    /// Number of logs that were removed.
    pub removed: u64,
    /// Number of syncs.
    pub syncs: u64,
    /// Bytes that were appended.
    pub appended: Bytes,
    /// Bytes of the logs that are there.
    pub held: Bytes,
}

impl Metered {
    /// Returns the number of logs that are there.
    pub fn logs(&self) -> u64 {
        self.created.saturating_sub(self.removed)
    }
}

/// The counts, and the bytes of each log.
#[derive(Drop)]
struct Meter {
    logs: BTreeMap<u32, Bytes>,
    counts: Metered,
}

impl Meter {
    /// Makes room for a log that is created next.
    fn ready(&mut self, log: u32) -> Result<(), AllocError> {
        match self.logs.insert(log, Bytes::default()) {
            Ok(_) => Ok(()),
            Err(_) => Err(AllocError),
        }
    }

    /// Counts a log that was created.
    fn create(&mut self) {
        self.counts.created = self.counts.created.saturating_add(1);
    }

    /// Counts an append.
    fn append(&mut self, log: u32, bytes: &[u8]) {
        self.counts.appended.add(bytes);
        self.counts.held.add(bytes);
        if let Some(held) = self.logs.get_mut(&log) {
            held.add(bytes);
        }
    }

    /// Counts a sync.
    fn sync(&mut self) {
        self.counts.syncs = self.counts.syncs.saturating_add(1);
    }

    /// Counts a log that was removed.
    fn remove(&mut self, log: u32) {
        self.counts.removed = self.counts.removed.saturating_add(1);
        if let Some(held) = self.logs.remove(&log) {
            self.counts.held.take(held);
        }
    }
}

/// Another disk, whose calls are counted. It begins without logs, and claims no honesty.
#[derive(Drop)]
pub struct MeterDisk<D: LogDisk> {
    inner: D,
    meter: Meter,
}

impl<D: LogDisk> MeterDisk<D> {
    /// Returns the disk over one without logs.
    pub fn new(alloc: Global, inner: D) -> MeterDisk<D> {
        let meter = Meter {
            logs: BTreeMap::new(alloc),
            counts: Metered::default(),
        };
        MeterDisk { inner, meter }
    }

    /// Returns the counts.
    pub fn counts(&self) -> Metered {
        self.meter.counts
    }

    /// Returns the bytes of a log, and `None` if there is none of this id.
    pub fn log(&self, log: u32) -> Option<Bytes> {
        self.meter.logs.get(&log).copied()
    }
}

impl<D: LogDisk> LogDisk for MeterDisk<D> {
    type View = D::View;

    ghost files = { λ _. map.empty };

    ghost synced = { λ _. map.empty };

    ghost gone = { λ _. map.empty };

    ghost honest = { λ _. false };

    ghost failures = { λ disk. D.failures disk.inner };

    fn bounds(&self) {}

    fn is_lost(&self, log: u32) -> bool {
        self.inner.is_lost(log)
    }

    fn is_kept(&self, log: u32) -> bool {
        self.inner.is_kept(log)
    }

    fn count_failures(&self) -> u64 {
        self.inner.count_failures()
    }

    fn list(&mut self, alloc: Global) -> Result<Vec<u32>, DiskFault> {
        self.inner.list(alloc)
    }

    fn length(&mut self, alloc: Global, log: u32) -> Result<u64, DiskFault> {
        self.inner.length(alloc, log)
    }

    fn create(&mut self, alloc: Global, log: u32) -> Result<(), DiskFault> {
        if self.meter.ready(log).is_err() {
            return Err(DiskFault::Memory);
        }
        self.inner.create(alloc, log)?;
        self.meter.create();
        Ok(())
    }

    fn append(&mut self, alloc: Global, log: u32, bytes: &[u8]) -> Result<(), DiskFault> {
        self.inner.append(alloc, log, bytes)?;
        self.meter.append(log, bytes);
        Ok(())
    }

    fn patch(&mut self, alloc: Global, log: u32, bytes: &[u8; 12]) -> Result<(), DiskFault> {
        self.inner.patch(alloc, log, bytes)
    }

    fn sync(&mut self, alloc: Global, log: u32) -> Result<(), DiskFault> {
        self.meter.sync();
        self.inner.sync(alloc, log)
    }

    fn read_at(&mut self, alloc: Global, log: u32, at: u64, n: u64) -> Result<Vec<u8>, DiskFault> {
        self.inner.read_at(alloc, log, at, n)
    }

    fn view(&mut self, alloc: Global, log: u32) -> Result<D::View, DiskFault> {
        self.inner.view(alloc, log)
    }

    fn remove(&mut self, alloc: Global, log: u32) -> Result<(), DiskFault> {
        self.inner.remove(alloc, log)?;
        self.meter.remove(log);
        Ok(())
    }
}
