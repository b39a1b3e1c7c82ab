//! A directory with a manifest of its logs, in which a log is cut.

ghost use Rattle.std.specs.Prelude.{false};
ghost use Rattle.std.specs.FinMap as map;

use crate::cut_folder::log_path;
use crate::cutting::{CutDisk, FailedCall};
use bk_disk as disk;
use bk_disk::{DiskFault, FaultWatch, LogDisk};
use std::alloc::{AllocError, Global};

/// The disk of a directory whose own `cut` records what is durable. It is not honest, since another
/// process may change the directory.
#[derive(Drop)]
pub struct CutKept<'a, D: disk::CutDisk> {
    path: &'a str,
    disk: D,
    watch: FaultWatch,
}

impl<'a, D: disk::CutDisk> CutKept<'a, D> {
    /// Returns the disk of the directory at a path, over a disk of it with this watch.
    pub fn new(path: &'a str, disk: D, watch: FaultWatch) -> CutKept<'a, D> {
        CutKept { path, disk, watch }
    }
}

impl<'a, D: disk::CutDisk> CutDisk for CutKept<'a, D> {
    fn cut(&mut self, alloc: Global, log: u32, length: u64, kept: u64) -> Result<(), DiskFault> {
        if self.disk.length(alloc, log)? != length {
            return Err(DiskFault::PastEnd);
        }
        self.disk.cut(alloc, log, kept)
    }

    fn log_place(&self, alloc: Global, log: u32) -> Result<String, AllocError> {
        log_path(alloc, self.path, log)
    }

    fn cut_reason(&self, alloc: Global) -> Result<Option<FailedCall>, AllocError> {
        match self.watch.last(alloc)? {
            Some(call) => Ok(Some(FailedCall {
                file: String::from_str(alloc, call.path())?,
                operation: call.operation(),
                reason: call.reason().to_string(alloc)?,
            })),
            None => Ok(None),
        }
    }
}

impl<'a, D: disk::CutDisk> LogDisk for CutKept<'a, D> {
    type View = D::View;

    ghost files = { λ _. map.empty };

    ghost synced = { λ _. map.empty };

    ghost gone = { λ _. map.empty };

    ghost honest = { λ _. false };

    ghost failures = { λ kept. D.failures kept.disk };

    fn bounds(&self) {}

    fn is_lost(&self, log: u32) -> bool {
        self.disk.is_lost(log)
    }

    fn is_kept(&self, log: u32) -> bool {
        self.disk.is_kept(log)
    }

    fn count_failures(&self) -> u64 {
        self.disk.count_failures()
    }

    fn list(&mut self, alloc: Global) -> Result<Vec<u32>, DiskFault> {
        self.disk.list(alloc)
    }

    fn length(&mut self, alloc: Global, log: u32) -> Result<u64, DiskFault> {
        self.disk.length(alloc, log)
    }

    fn create(&mut self, alloc: Global, log: u32) -> Result<(), DiskFault> {
        self.disk.create(alloc, log)
    }

    fn append(&mut self, alloc: Global, log: u32, bytes: &[u8]) -> Result<(), DiskFault> {
        self.disk.append(alloc, log, bytes)
    }

    fn patch(&mut self, alloc: Global, log: u32, bytes: &[u8; 12]) -> Result<(), DiskFault> {
        self.disk.patch(alloc, log, bytes)
    }

    fn sync(&mut self, alloc: Global, log: u32) -> Result<(), DiskFault> {
        self.disk.sync(alloc, log)
    }

    fn read_at(&mut self, alloc: Global, log: u32, at: u64, n: u64) -> Result<Vec<u8>, DiskFault> {
        self.disk.read_at(alloc, log, at, n)
    }

    fn view(&mut self, alloc: Global, log: u32) -> Result<D::View, DiskFault> {
        self.disk.view(alloc, log)
    }

    fn remove(&mut self, alloc: Global, log: u32) -> Result<(), DiskFault> {
        self.disk.remove(alloc, log)
    }
}
