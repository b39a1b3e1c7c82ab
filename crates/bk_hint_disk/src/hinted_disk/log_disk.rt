//! The calls of a disk whose views have hints.

use super::HintedDisk;
use crate::Hints;
use crate::sample::compare;
use bk_disk::{DiskFault, LogDisk, LogView};
use bk_hint_view::HintedView;
use bk_record::{HEADER_LENGTH, RECORD_HEAD};
use std::alloc::Global;

impl<D: LogDisk, H: Hints> LogDisk for HintedDisk<D, H> {
    type View = HintedView<D::View>;

    ghost use Rattle.std.specs.Prelude.{◌&&◌};

    ghost files = { λ disk. disk.files };

    ghost synced = { λ disk. disk.kept };

    ghost gone = { λ disk. disk.gone };

    ghost honest = { λ disk. disk.honest && disk.sure };

    ghost failures = { λ disk. disk.failures };

    fn bounds(&self) {
        self.inner.bounds()
    }

    fn is_lost(&self, log: u32) -> bool {
        self.inner.is_lost(log)
    }

    fn is_kept(&self, log: u32) -> bool {
        self.inner.is_kept(log)
    }

    fn count_failures(&self) -> u64 {
        self.inner.count_failures()
    }

    /// Lists the logs. The next view of each gets its hint.
    fn list(&mut self, alloc: Global) -> Result<Vec<u32>, DiskFault> {
        let logs = self.inner.list(alloc)?;
        self.uses.arm(alloc, &logs);
        Ok(logs)
    }

    fn length(&mut self, alloc: Global, log: u32) -> Result<u64, DiskFault> {
        self.inner.length(alloc, log)
    }

    /// Drops a hint of the id, and makes the log.
    fn create(&mut self, alloc: Global, log: u32) -> Result<(), DiskFault> {
        let dropped = self.hints.drop_hint(alloc, log);
        self.believed = self.believed && dropped.is_ok();
        self.inner.create(alloc, log)
    }

    fn append(&mut self, alloc: Global, log: u32, bytes: &[u8]) -> Result<(), DiskFault> {
        self.inner.append(alloc, log, bytes)
    }

    fn patch(&mut self, alloc: Global, log: u32, bytes: &[u8; 12]) -> Result<(), DiskFault> {
        self.inner.patch(alloc, log, bytes)
    }

    fn sync(&mut self, alloc: Global, log: u32) -> Result<(), DiskFault> {
        self.inner.sync(alloc, log)
    }

    fn read_at(&mut self, alloc: Global, log: u32, at: u64, n: u64) -> Result<Vec<u8>, DiskFault> {
        self.inner.read_at(alloc, log, at, n)
    }

    /// Returns a view of a log, with the table of its hint if it is the first one after a `list` and
    /// the hint may be used.
    fn view(&mut self, alloc: Global, log: u32) -> Result<HintedView<D::View>, DiskFault> {
        if !self.believed || !self.uses.take(log) {
            let inner = self.inner.view(alloc, log)?;
            return Ok(HintedView { inner, table: None });
        }
        let header = match self.inner.read_at(alloc, log, 0, HEADER_LENGTH as u64) {
            Ok(header) => header,
            Err(DiskFault::Disk) => return Err(DiskFault::Disk),
            Err(_) => Vec::new(alloc),
        };
        let inner = self.inner.view(alloc, log)?;
        let found = self.hints.get(alloc, log);
        let end = inner.end();
        let Some(front) = self.uses.front(alloc, log, &found, &header, end) else {
            return Ok(HintedView { inner, table: None });
        };
        let at = front.seal.at;
        let tail = inner.read_at(alloc, at, end.saturating_sub(at));
        let mut compared = Ok(());
        for probe in &front.probes {
            let mut head = [0u8; RECORD_HEAD];
            let read = inner.read_into(probe.at, &mut head);
            compared = compared.and(compare(probe, read, &head));
        }
        let table = self.uses.table(alloc, log, &front, &header, tail, compared);
        Ok(HintedView { inner, table })
    }

    /// Drops the hint of the log, and removes it.
    fn remove(&mut self, alloc: Global, log: u32) -> Result<(), DiskFault> {
        let forgotten = self.hints.drop_hint(alloc, log);
        self.believed = self.believed && forgotten.is_ok();
        self.inner.remove(alloc, log)
    }
}
