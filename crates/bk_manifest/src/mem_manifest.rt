//! A manifest's file in memory.

ghost use Rattle.std.specs.Prelude.{◌≡◌, true, IsTrue};
ghost use Rattle.bk_manifest.specs.Keeping.{FailsExactlyIf};
ghost use Rattle.bk_manifest.specs.Plan.{failures_of};

use crate::{FileFault, ManifestFile};
use std::alloc::Global;

/// When the device of a file in memory fails.
#[derive(Clone, Copy, Debug, PartialEq, Eq)]
pub enum Plan {
    Never,
    /// At one call, after this many others.
    After(u64),
    /// It has failed, and does not fail again.
    Failed,
}

impl Plan {
    /// Returns whether the device fails at this call.
    fn is_failing(&mut self) -> bool
        ensures { FailsExactlyIf (failures_of self.old) (failures_of self.new) (IsTrue result) }
    {
        match *self {
            Plan::After(0) => {
                *self = Plan::Failed;
                true
            }
            Plan::After(others) => {
                *self = Plan::After(others - 1);
                false
            }
            _ => false,
        }
    }
}

/// A file in memory. It is honest. Its calls fail as planned, or if an allocation is refused.
#[derive(Drop)]
pub struct MemManifest {
    /// Bytes of the file.
    pub bytes: Vec<u8>,
    /// Number of the bytes that a crash leaves.
    pub synced: usize,
    /// When the device fails.
    pub plan: Plan,
    /// Whether a `replace` that fails leaves the new file.
    pub renames: bool,
}

impl ManifestFile for MemManifest {
    ghost bytes = { λ file. file.bytes.items };

    ghost synced = { λ file. file.synced };

    ghost honest = { λ _. true };

    ghost failures = { λ file. failures_of file.plan };

    fn count_failures(&self) -> u64 {
        match self.plan {
            Plan::Never | Plan::After(_) => 0,
            Plan::Failed => 1,
        }
    }

    fn read(&mut self, alloc: Global) -> Result<Vec<u8>, FileFault> {
        if self.plan.is_failing() {
            return Err(FileFault::Disk);
        }
        match Vec::from_slice(alloc, &self.bytes) {
            Ok(bytes) => Ok(bytes),
            Err(_) => Err(FileFault::Memory),
        }
    }

    fn write_at(&mut self, at: usize, piece: &[u8]) -> Result<(), FileFault> {
        let fails = self.plan.is_failing();
        let len = if fails { piece.len() / 2 } else { piece.len() };
        let (front, _) = piece.split_at(len);
        self.bytes.truncate(at);
        self.synced = self.synced.min(at);
        let stored = self.bytes.extend_from_slice(front).is_ok();
        if fails {
            return Err(FileFault::Disk);
        }
        if stored {
            Ok(())
        } else {
            Err(FileFault::Memory)
        }
    }

    fn sync(&mut self) -> Result<(), FileFault> {
        if self.plan.is_failing() {
            return Err(FileFault::Disk);
        }
        self.synced = self.synced.max(self.bytes.len());
        Ok(())
    }

    fn replace(&mut self, alloc: Global, whole: &[u8]) -> Result<(), FileFault> {
        let fails = self.plan.is_failing();
        if fails && !self.renames {
            return Err(FileFault::Disk);
        }
        match Vec::from_slice(alloc, whole) {
            Ok(bytes) => {
                self.synced = bytes.len();
                self.bytes = bytes;
            }
            Err(_) if fails => return Err(FileFault::Disk),
            Err(_) => return Err(FileFault::Memory),
        }
        if fails { Err(FileFault::Disk) } else { Ok(()) }
    }
}
