//! Disk in memory: a map from ids to logs, each stored in blocks that its views share.
//!
//! Only allocations fail. A call whose allocation is refused leaves the files unchanged.

ghost use Rattle.std.specs.Prelude.{◌≡◌, true, IsTrue, IfOk};
ghost use Rattle.std.specs.FinMap as map;
ghost use Rattle.bk_disk.specs.Durable.{IsAllDurable};
ghost use Rattle.bk_disk.specs.Logs.{listed, IsListing};

use crate::blocks::Blocks;
use crate::{CutDisk, DiskFault, LogDisk, MemView};
use bk_record::MAX_LOG_LENGTH;
use std::alloc::{AllocError, Global};
use std::collections::BTreeMap;
use std::marker::Model;

/// A disk in memory. It is honest, and its device never fails.
#[derive(Drop)]
pub struct MemDisk {
    logs: BTreeMap<u32, Blocks>,
}

impl Model for MemDisk {
    ghost use Rattle.std.specs.Coded.{coded_ℕ, coded_list};
    ghost use Rattle.std.specs.FinMap as map;
    ghost use Rattle.bk_record.specs.Files.{Files};
    ghost use Rattle.bk_disk.specs.Disk.{AreLogFiles};
    ghost use Rattle.bk_disk.specs.Logs.{files_of};

    ghost Value = { Files };

    ghost coded = { map.code coded_ℕ (coded_list coded_ℕ) };

    ghost view = { λ disk. files_of disk.logs };

    ghost invariant = { λ disk. AreLogFiles (files_of disk.logs) };
}

impl MemDisk {
    /// Returns a disk without logs.
    pub fn new(alloc: Global) -> Self
        ensures { result ≡ map.empty }
    {
        MemDisk {
            logs: BTreeMap::new(alloc),
        }
    }

    /// Returns a disk with these logs, each an id and its bytes. The ids differ and are at most
    /// 2^31 - 1, and each file has at most 2^32 - 1 bytes. Fails only if memory is refused.
    pub fn of(alloc: Global, files: Vec<(u32, Vec<u8>)>) -> Result<MemDisk, AllocError>
        requires { IsListing (listed files.items) }
        ensures { IfOk result (λ disk. disk ≡ map.from_entries (listed files.items)) }
    {
        let mut logs = BTreeMap::new(alloc);
        for (log, bytes) in &files {
            logs.insert(*log, Blocks::of(alloc, bytes)?)?;
        }
        Ok(MemDisk { logs })
    }
}

#[tactic(auto, using(crate::proofs::FileMaps::file_maps, crate::proofs::DurableGrows::kept_rules))]
impl LogDisk for MemDisk {
    type View = MemView;

    ghost files = { λ disk. disk };

    ghost synced = { λ disk. disk };

    ghost gone = { λ _. map.empty };

    ghost honest = { λ _. true };

    ghost failures = { λ _. 0 };

    fn bounds(&self) {
        let _ = &self.logs;
    }

    fn is_lost(&self, _log: u32) -> bool {
        let _ = &self.logs;
        false
    }

    /// Returns true: a crash takes nothing from a disk in memory.
    fn is_kept(&self, log: u32) -> bool
        ensures always { IsTrue result }
        ensures durable { IsTrue true → IsTrue result → IsAllDurable self.now log self.now }
    {
        let _ = &self.logs;
        true
    }

    /// Returns 0: memory does not fail as a device.
    fn count_failures(&self) -> u64 {
        let _ = &self.logs;
        0
    }

    fn list(&mut self, alloc: Global) -> Result<Vec<u32>, DiskFault> {
        self.logs
            .keys()
            .copied()
            .collect(alloc)
            .map_err(|_| DiskFault::Memory)
    }

    fn length(&mut self, _alloc: Global, log: u32) -> Result<u64, DiskFault> {
        match self.logs.get(&log) {
            Some(file) => Ok(file.len()),
            None => Err(DiskFault::NoLog),
        }
    }

    fn create(&mut self, alloc: Global, log: u32) -> Result<(), DiskFault> {
        if self.logs.contains_key(&log) {
            return Err(DiskFault::Exists);
        }
        self.logs
            .insert(log, Blocks::new(alloc))
            .map_err(|_| DiskFault::Memory)?;
        Ok(())
    }

    fn append(&mut self, _alloc: Global, log: u32, bytes: &[u8]) -> Result<(), DiskFault> {
        let Some(file) = self.logs.get_mut(&log) else {
            return Err(DiskFault::NoLog);
        };
        if bytes.len() as u64 > MAX_LOG_LENGTH - file.len() {
            return Err(DiskFault::TooLong);
        }
        file.append(bytes).map_err(|_| DiskFault::Memory)
    }

    fn patch(&mut self, _alloc: Global, log: u32, bytes: &[u8; 12]) -> Result<(), DiskFault> {
        let Some(file) = self.logs.get_mut(&log) else {
            return Err(DiskFault::NoLog);
        };
        if file.len() < 20 {
            return Err(DiskFault::PastEnd);
        }
        file.patch(bytes).map_err(|_| DiskFault::Memory)
    }

    fn sync(&mut self, _alloc: Global, log: u32) -> Result<(), DiskFault> {
        if self.logs.contains_key(&log) {
            Ok(())
        } else {
            Err(DiskFault::NoLog)
        }
    }

    fn read_at(&mut self, alloc: Global, log: u32, at: u64, n: u64) -> Result<Vec<u8>, DiskFault> {
        let Some(file) = self.logs.get(&log) else {
            return Err(DiskFault::NoLog);
        };
        let end = file.len();
        let Some(to) = at.checked_add(n) else {
            return Err(DiskFault::PastEnd);
        };
        if end < to {
            return Err(DiskFault::PastEnd);
        }
        file.read(alloc, at as usize, to as usize)
            .map_err(|_| DiskFault::Memory)
    }

    fn view(&mut self, _alloc: Global, log: u32) -> Result<MemView, DiskFault> {
        let Some(file) = self.logs.get(&log) else {
            return Err(DiskFault::NoLog);
        };
        let bytes = file.share().map_err(|_| DiskFault::Memory)?;
        Ok(MemView::new(bytes))
    }

    fn remove(&mut self, _alloc: Global, log: u32) -> Result<(), DiskFault> {
        match self.logs.remove(&log) {
            Some(_) => Ok(()),
            None => Err(DiskFault::NoLog),
        }
    }
}

#[tactic(auto, using(crate::proofs::FileMaps::file_maps, crate::proofs::Cutting::uncut_keeps))]
impl CutDisk for MemDisk {
    fn cut(&mut self, alloc: Global, log: u32, length: u64) -> Result<(), DiskFault> {
        let Some(file) = self.logs.get_mut(&log) else {
            return Err(DiskFault::NoLog);
        };
        if file.len() <= length {
            return Ok(());
        }
        file.truncate(alloc, length as usize)
            .map_err(|_| DiskFault::Memory)
    }
}
