//! A disk that shows of some logs only the first bytes.

ghost use Rattle.std.specs.Prelude.{◌≡◌, IsTrue};
ghost use Rattle.std.specs.FinMap as map;
ghost use Rattle.bk_manifest_disk.specs.Limiting.{AreWithin};

use crate::LimitedView;
use crate::limits::Limits;
use bk_disk::{CutDisk, DiskFault, LogDisk};
use bk_record::MAX_LOG_LENGTH;
use std::alloc::Global;
use std::collections::BTreeMap;
use std::marker::Model;

/// A disk of which some logs end at a limit: it shows the first bytes of their files, and hides the
/// others. A log without a limit is shown whole. No call reads the hidden bytes.
///
/// The files do not change before a log is written: an `append` to a limited log, and its removal,
/// first truncate the log of the inner disk at its limit. A directory keeps a copy of what it cuts.
#[derive(Drop)]
pub struct LimitedDisk<D: CutDisk> {
    inner: D,
    limits: Limits,
}

impl<D: CutDisk> Model for LimitedDisk<D> {
    ghost use Rattle.std.specs.Prelude.{IsTrue};
    ghost use Rattle.bk_manifest_disk.specs.Limiting.{Limiting, limiting_code, AreWithin};

    ghost Value = { Limiting };

    ghost coded = { limiting_code };

    ghost view = { λ disk. record {
      files = D.files disk.inner;
      kept = D.synced disk.inner;
      gone = D.gone disk.inner;
      honest = D.honest disk.inner;
      failures = D.failures disk.inner;
      limits = disk.limits;
    } };

    ghost invariant = { λ disk. IsTrue (D.honest disk.inner) → AreWithin (disk.limits) (D.files disk.inner) };
}

impl<D: CutDisk> LimitedDisk<D> {
    /// Returns the disk, which shows of each of these logs as many bytes as its limit. Each of them
    /// has a file of at least that length.
    pub fn new(inner: D, limits: BTreeMap<u32, u64>) -> LimitedDisk<D>
        requires within { IsTrue (D.honest inner) → AreWithin (map.from_entries limits.entries) (D.files inner) }
        ensures { result ≡ record {
          files = D.files inner;
          kept = D.synced inner;
          gone = D.gone inner;
          honest = D.honest inner;
          failures = D.failures inner;
          limits = map.from_entries limits.entries;
        } }
    {
        LimitedDisk {
            inner,
            limits: Limits::new(limits),
        }
    }

    /// Returns the inner disk, whose files have the hidden bytes too.
    pub fn inner(&self) -> &D
        ensures files { D.files result.now ≡ self.now.files }
        ensures honest { D.honest result.now ≡ self.now.honest }
        ensures failures { D.failures result.now ≡ self.now.failures }
    {
        &self.inner
    }

    /// Does nothing. Reveals the type invariant: on an honest disk each limited log has a file that
    /// is not shorter than its limit.
    pub fn reveal_invariant(&self)
        ensures { IsTrue self.now.honest → AreWithin self.now.limits self.now.files }
    {
        let _ = &self.limits;
    }
}

impl<D: CutDisk> LogDisk for LimitedDisk<D> {
    type View = LimitedView<D::View>;

    ghost use Rattle.bk_manifest_disk.specs.Limiting.{shown_files};

    ghost files = { λ disk. shown_files disk.limits disk.files };

    ghost synced = { λ disk. shown_files disk.limits disk.kept };

    ghost gone = { λ disk. disk.gone };

    ghost honest = { λ disk. disk.honest };

    ghost failures = { λ disk. disk.failures };

    fn bounds(&self) {
        self.inner.bounds()
    }

    fn is_lost(&self, log: u32) -> bool {
        self.inner.is_lost(log)
    }

    fn is_kept(&self, log: u32) -> bool {
        self.inner.is_kept(log)
    }

    fn count_failures(&self) -> u64 {
        self.inner.count_failures()
    }

    fn list(&mut self, alloc: Global) -> Result<Vec<u32>, DiskFault> {
        self.inner.list(alloc)
    }

    fn length(&mut self, alloc: Global, log: u32) -> Result<u64, DiskFault> {
        let length = self.inner.length(alloc, log)?;
        Ok(self.limits.cap(log, length))
    }

    fn create(&mut self, alloc: Global, log: u32) -> Result<(), DiskFault> {
        self.inner.create(alloc, log)
    }

    fn append(&mut self, alloc: Global, log: u32, bytes: &[u8]) -> Result<(), DiskFault> {
        let Some(limit) = self.limits.get(log) else {
            return self.inner.append(alloc, log, bytes);
        };
        if limit.saturating_add(bytes.len() as u64) > MAX_LOG_LENGTH {
            return Err(DiskFault::TooLong);
        }
        match self.inner.cut(alloc, log, limit) {
            Ok(()) => {
                self.limits.remove(log);
                self.inner.append(alloc, log, bytes)
            }
            Err(fault) => Err(fault),
        }
    }

    fn patch(&mut self, alloc: Global, log: u32, bytes: &[u8; 12]) -> Result<(), DiskFault> {
        if !self.limits.reaches(log, 8, 12) {
            return Err(DiskFault::PastEnd);
        }
        self.inner.patch(alloc, log, bytes)
    }

    fn sync(&mut self, alloc: Global, log: u32) -> Result<(), DiskFault> {
        self.inner.sync(alloc, log)
    }

    fn read_at(&mut self, alloc: Global, log: u32, at: u64, n: u64) -> Result<Vec<u8>, DiskFault> {
        if !self.limits.reaches(log, at, n) {
            return Err(DiskFault::PastEnd);
        }
        self.inner.read_at(alloc, log, at, n)
    }

    fn view(&mut self, alloc: Global, log: u32) -> Result<LimitedView<D::View>, DiskFault> {
        let inner = self.inner.view(alloc, log)?;
        Ok(LimitedView {
            inner,
            limit: self.limits.get(log),
        })
    }

    fn remove(&mut self, alloc: Global, log: u32) -> Result<(), DiskFault> {
        let Some(limit) = self.limits.get(log) else {
            return self.inner.remove(alloc, log);
        };
        match self.inner.cut(alloc, log, limit) {
            Ok(()) => {
                self.limits.remove(log);
                self.inner.remove(alloc, log)
            }
            Err(fault) => Err(fault),
        }
    }
}

impl<D: CutDisk> CutDisk for LimitedDisk<D> {
    /// First truncates a limited log at its limit.
    fn cut(&mut self, alloc: Global, log: u32, length: u64) -> Result<(), DiskFault> {
        let Some(limit) = self.limits.get(log) else {
            return self.inner.cut(alloc, log, length);
        };
        match self.inner.cut(alloc, log, limit) {
            Ok(()) => {
                self.limits.remove(log);
                self.inner.cut(alloc, log, length)
            }
            Err(fault) => Err(fault),
        }
    }
}
