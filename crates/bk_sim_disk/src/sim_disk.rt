//! A disk that keeps lengths and keys of records, and no data.

ghost use Rattle.std.specs.Prelude.{false};
ghost use Rattle.std.specs.FinMap as map;

use crate::sim_log::SimLog;
use crate::sim_view::SimView;
use bk_disk::{DiskFault, LogDisk};
use bk_record::MAX_LOG_LENGTH;
use std::alloc::Global;
use std::collections::BTreeMap;

/// A disk in memory that keeps 24 bytes of a record whose data is its filler, and reads the record
/// back whole. It keeps all other bytes as they are. Its device never fails. It claims no honesty.
#[derive(Drop)]
pub struct SimDisk {
    logs: BTreeMap<u32, SimLog>,
}

impl SimDisk {
    /// Returns a disk without logs.
    pub fn new(alloc: Global) -> SimDisk {
        SimDisk {
            logs: BTreeMap::new(alloc),
        }
    }
}

impl LogDisk for SimDisk {
    type View = SimView;

    ghost files = { λ _. map.empty };

    ghost synced = { λ _. map.empty };

    ghost gone = { λ _. map.empty };

    ghost honest = { λ _. false };

    ghost failures = { λ _. 0 };

    fn bounds(&self) {}

    fn is_lost(&self, _log: u32) -> bool {
        false
    }

    fn is_kept(&self, _log: u32) -> bool {
        true
    }

    fn count_failures(&self) -> u64 {
        0
    }

    fn list(&mut self, alloc: Global) -> Result<Vec<u32>, DiskFault> {
        self.logs
            .keys()
            .copied()
            .collect(alloc)
            .map_err(|_| DiskFault::Memory)
    }

    fn length(&mut self, _alloc: Global, log: u32) -> Result<u64, DiskFault> {
        match self.logs.get(&log) {
            Some(file) => Ok(file.len()),
            None => Err(DiskFault::NoLog),
        }
    }

    fn create(&mut self, alloc: Global, log: u32) -> Result<(), DiskFault> {
        if self.logs.contains_key(&log) {
            return Err(DiskFault::Exists);
        }
        match self.logs.insert(log, SimLog::new(alloc)) {
            Ok(_) => Ok(()),
            Err(_) => Err(DiskFault::Memory),
        }
    }

    fn append(&mut self, _alloc: Global, log: u32, bytes: &[u8]) -> Result<(), DiskFault> {
        let Some(file) = self.logs.get_mut(&log) else {
            return Err(DiskFault::NoLog);
        };
        if bytes.len() as u64 > MAX_LOG_LENGTH.saturating_sub(file.len()) {
            return Err(DiskFault::TooLong);
        }
        file.append(bytes).map_err(|_| DiskFault::Memory)
    }

    fn patch(&mut self, _alloc: Global, log: u32, bytes: &[u8; 12]) -> Result<(), DiskFault> {
        let Some(file) = self.logs.get_mut(&log) else {
            return Err(DiskFault::NoLog);
        };
        if !file.can_patch() {
            return Err(DiskFault::PastEnd);
        }
        file.patch(bytes).map_err(|_| DiskFault::Memory)
    }

    fn sync(&mut self, _alloc: Global, log: u32) -> Result<(), DiskFault> {
        if self.logs.contains_key(&log) {
            Ok(())
        } else {
            Err(DiskFault::NoLog)
        }
    }

    fn read_at(&mut self, alloc: Global, log: u32, at: u64, n: u64) -> Result<Vec<u8>, DiskFault> {
        let Some(file) = self.logs.get(&log) else {
            return Err(DiskFault::NoLog);
        };
        match at.checked_add(n) {
            Some(to) if to <= file.len() => {}
            _ => return Err(DiskFault::PastEnd),
        }
        let mut bytes = vec![in alloc; 0u8; n as usize].map_err(|_| DiskFault::Memory)?;
        file.read_into(at, &mut bytes);
        Ok(bytes)
    }

    fn view(&mut self, _alloc: Global, log: u32) -> Result<SimView, DiskFault> {
        let Some(file) = self.logs.get(&log) else {
            return Err(DiskFault::NoLog);
        };
        match file.share() {
            Ok(shared) => Ok(SimView::new(shared)),
            Err(_) => Err(DiskFault::Memory),
        }
    }

    fn remove(&mut self, _alloc: Global, log: u32) -> Result<(), DiskFault> {
        match self.logs.remove(&log) {
            Some(_) => Ok(()),
            None => Err(DiskFault::NoLog),
        }
    }
}
