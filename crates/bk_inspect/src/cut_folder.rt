//! A directory of the system in which a log is cut.

ghost use Rattle.std.specs.Prelude.{false};
ghost use Rattle.std.specs.FinMap as map;

use crate::cutting::{CutDisk, FailedCall};
use bk_disk::{DirDisk, DirView, DiskFault, LogDisk, Operation, name_of};
use std::alloc::{AllocError, Global};
use std::fs::OpenOptions;
use std::io::{self, ErrorKind};

/// A call of the system that failed: the file, the operation and the reason.
#[derive(Drop)]
pub(crate) struct Refused {
    path: String,
    operation: Operation,
    reason: io::Error,
}

impl Refused {
    /// Returns the failed call of a report. The only error is out of memory.
    pub(crate) fn told(
        alloc: Global,
        refused: &Option<Refused>,
    ) -> Result<Option<FailedCall>, AllocError> {
        match refused {
            Some(
                Refused {
                    path,
                    operation,
                    reason,
                },
            ) => Ok(Some(FailedCall {
                file: String::from_str(alloc, path)?,
                operation: *operation,
                reason: reason.to_string(alloc)?,
            })),
            None => Ok(None),
        }
    }
}

/// A call of the system that failed on a file, and the reason.
pub(crate) type Failed = (Operation, io::Error);

/// Remembers a failed call, and returns it as `Disk`, or as `Memory`.
pub(crate) fn refuse(refused: &mut Option<Refused>, path: String, failed: Failed) -> DiskFault {
    let (operation, reason) = failed;
    let fault = match reason.kind() {
        ErrorKind::OutOfMemory => DiskFault::Memory,
        _ => DiskFault::Disk,
    };
    *refused = Some(Refused {
        path,
        operation,
        reason,
    });
    fault
}

/// Returns what a call of the system returned, or the call and the reason.
pub(crate) fn tried<T>(operation: Operation, outcome: io::Result<T>) -> Result<T, Failed> {
    match outcome {
        Ok(value) => Ok(value),
        Err(reason) => Err((operation, reason)),
    }
}

/// Returns the path of a log.
pub(crate) fn log_path(alloc: Global, folder: &str, log: u32) -> Result<String, AllocError> {
    let name = name_of(alloc, log)?;
    format!(in alloc; "{folder}/{name}")
}

/// The disk of a directory that can cut a log. It is not honest, as a `DirDisk`.
#[derive(Drop)]
pub(crate) struct CutFolder<'a> {
    rt: HostRuntime,
    path: &'a str,
    disk: DirDisk,
    refused: Option<Refused>,
}

impl<'a> CutFolder<'a> {
    /// Returns the disk of the directory at a path, over a disk of it.
    pub(crate) fn new(rt: &HostRuntime, path: &'a str, disk: DirDisk) -> CutFolder<'a> {
        CutFolder {
            rt: *rt,
            path,
            disk,
            refused: None,
        }
    }
}

impl<'a> CutDisk for CutFolder<'a> {
    fn cut(&mut self, alloc: Global, log: u32, length: u64, kept: u64) -> Result<(), DiskFault> {
        let path = log_path(alloc, self.path, log).map_err(|_| DiskFault::Memory)?;
        match cut_file(&self.rt, &path, length, kept) {
            Ok(true) => Ok(()),
            Ok(false) => Err(DiskFault::PastEnd),
            Err(failed) => Err(refuse(&mut self.refused, path, failed)),
        }
    }

    fn log_place(&self, alloc: Global, log: u32) -> Result<String, AllocError> {
        log_path(alloc, self.path, log)
    }

    fn cut_reason(&self, alloc: Global) -> Result<Option<FailedCall>, AllocError> {
        Refused::told(alloc, &self.refused)
    }
}

/// Cuts a file of `length` bytes to its first `kept` ones, and syncs it. Returns false, and leaves
/// the file, if it has another length. The file is cut in place, so it keeps its owner and its
/// rights.
fn cut_file(rt: &HostRuntime, path: &str, length: u64, kept: u64) -> Result<bool, Failed> {
    let opened = OpenOptions::new().write(true).open(rt, path);
    let file = tried(Operation::Open, opened)?;
    if tried(Operation::Open, file.metadata())?.len() != length {
        return Ok(false);
    }
    tried(Operation::Truncate, file.set_len(kept))?;
    tried(Operation::Sync, file.sync_all())?;
    Ok(true)
}

impl<'a> LogDisk for CutFolder<'a> {
    type View = DirView;

    ghost files = { λ _. map.empty };

    ghost synced = { λ _. map.empty };

    ghost gone = { λ _. map.empty };

    ghost honest = { λ _. false };

    ghost failures = { λ folder. folder.disk.failures };

    fn bounds(&self) {}

    fn is_lost(&self, log: u32) -> bool {
        self.disk.is_lost(log)
    }

    fn is_kept(&self, log: u32) -> bool {
        self.disk.is_kept(log)
    }

    fn count_failures(&self) -> u64 {
        self.disk.count_failures()
    }

    fn list(&mut self, alloc: Global) -> Result<Vec<u32>, DiskFault> {
        self.disk.list(alloc)
    }

    fn length(&mut self, alloc: Global, log: u32) -> Result<u64, DiskFault> {
        self.disk.length(alloc, log)
    }

    fn create(&mut self, alloc: Global, log: u32) -> Result<(), DiskFault> {
        self.disk.create(alloc, log)
    }

    fn append(&mut self, alloc: Global, log: u32, bytes: &[u8]) -> Result<(), DiskFault> {
        self.disk.append(alloc, log, bytes)
    }

    fn patch(&mut self, alloc: Global, log: u32, bytes: &[u8; 12]) -> Result<(), DiskFault> {
        self.disk.patch(alloc, log, bytes)
    }

    fn sync(&mut self, alloc: Global, log: u32) -> Result<(), DiskFault> {
        self.disk.sync(alloc, log)
    }

    fn read_at(&mut self, alloc: Global, log: u32, at: u64, n: u64) -> Result<Vec<u8>, DiskFault> {
        self.disk.read_at(alloc, log, at, n)
    }

    fn view(&mut self, alloc: Global, log: u32) -> Result<DirView, DiskFault> {
        self.disk.view(alloc, log)
    }

    fn remove(&mut self, alloc: Global, log: u32) -> Result<(), DiskFault> {
        self.disk.remove(alloc, log)
    }
}
