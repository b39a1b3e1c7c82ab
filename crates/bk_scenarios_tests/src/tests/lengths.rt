//! A disk that keeps only the length of one log and the bytes written last, if they are few. Logs
//! of the largest size then take no memory.

ghost use Rattle.std.specs.FinMap as map;
ghost use Rattle.std.specs.Prelude.{[], false, true};

use bk_disk::{DiskFault, LogDisk, LogView};
use bk_record::MAX_LOG_LENGTH;
use std::alloc::Global;

/// Largest append that is kept.
const KEPT: usize = 1024;

/// A disk with log 0 only. It is not honest, since it cannot return the bytes.
#[derive(Drop)]
pub(super) struct Lengths {
    /// The length of the log, or `None` if there is none.
    pub length: Option<u64>,
    /// The bytes appended last, if at most 1,024.
    pub last: Vec<u8>,
    /// The bytes patched into the header.
    pub patched: Option<[u8; 12]>,
}

impl Lengths {
    /// Returns a disk without a log.
    pub(super) fn new(alloc: Global) -> Lengths {
        Lengths {
            length: None,
            last: Vec::new(alloc),
            patched: None,
        }
    }
}

/// A view of no bytes.
#[derive(Drop)]
pub(super) struct Nothing;

impl LogView for Nothing {
    ghost bytes = { λ _. [] };

    ghost honest = { λ _. false };

    ghost sound = { λ _. true };

    fn bounds(&self) {}

    fn end(&self) -> u64 {
        1024
    }

    fn read_into(&self, _at: u64, _out: &mut [u8]) -> Result<(), DiskFault> {
        Err(DiskFault::PastEnd)
    }
}

impl LogDisk for Lengths {
    type View = Nothing;

    ghost files = { λ _. map.empty };

    ghost synced = { λ _. map.empty };

    ghost gone = { λ _. map.empty };

    ghost honest = { λ _. false };

    ghost failures = { λ _. 0 };

    fn bounds(&self) {}

    fn is_lost(&self, _log: u32) -> bool {
        false
    }

    fn is_kept(&self, _log: u32) -> bool {
        false
    }

    fn count_failures(&self) -> u64 {
        0
    }

    fn list(&mut self, alloc: Global) -> Result<Vec<u32>, DiskFault> {
        let mut ids = Vec::new(alloc);
        if self.length.is_some() {
            ids.push(0).map_err(|_| DiskFault::Memory)?;
        }
        Ok(ids)
    }

    fn length(&mut self, _alloc: Global, _log: u32) -> Result<u64, DiskFault> {
        self.length.ok_or(DiskFault::NoLog)
    }

    fn create(&mut self, _alloc: Global, _log: u32) -> Result<(), DiskFault> {
        self.length = Some(0);
        Ok(())
    }

    fn append(&mut self, alloc: Global, _log: u32, bytes: &[u8]) -> Result<(), DiskFault> {
        let Some(length) = self.length else {
            return Err(DiskFault::NoLog);
        };
        if length > MAX_LOG_LENGTH || bytes.len() as u64 > MAX_LOG_LENGTH - length {
            return Err(DiskFault::TooLong);
        }
        if bytes.len() <= KEPT {
            let Ok(last) = Vec::from_slice(alloc, bytes) else {
                return Err(DiskFault::Memory);
            };
            self.last = last;
        }
        self.length = Some(length + bytes.len() as u64);
        Ok(())
    }

    fn patch(&mut self, _alloc: Global, _log: u32, bytes: &[u8; 12]) -> Result<(), DiskFault> {
        self.patched = Some(*bytes);
        Ok(())
    }

    fn sync(&mut self, _alloc: Global, _log: u32) -> Result<(), DiskFault> {
        Ok(())
    }

    fn read_at(
        &mut self,
        _alloc: Global,
        _log: u32,
        _at: u64,
        _n: u64,
    ) -> Result<Vec<u8>, DiskFault> {
        Err(DiskFault::PastEnd)
    }

    fn view(&mut self, _alloc: Global, _log: u32) -> Result<Nothing, DiskFault> {
        Ok(Nothing)
    }

    fn remove(&mut self, _alloc: Global, _log: u32) -> Result<(), DiskFault> {
        self.length = None;
        Ok(())
    }
}
