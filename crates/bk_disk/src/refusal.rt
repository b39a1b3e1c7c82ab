//! Why a disk cannot become the writer of a directory, before it is reported.
//!
//! `DirDisk::open_to_write` reports a `FolderFault`, and a call that writes a `FileFault`.

use crate::file_fault::{Failed, FileFault, Operation};
use crate::reason::{Finding, Reason};
use crate::{DiskFault, FolderFault};
use std::alloc::Global;
use std::io::{self, ErrorKind};

/// Why a directory is not written.
#[derive(Debug, Drop)]
pub(crate) enum Refusal {
    /// Another program has the lock of this file; the number of its process.
    InUse { lock: String, holder: Option<u32> },
    /// What is at a path cannot be opened, locked or synced, or is no log.
    Path { path: String, reason: Reason },
    /// A call on the file of a log that is written again failed.
    File(FileFault),
    /// An allocation was refused.
    Memory,
}

impl Refusal {
    /// Returns the refusal of the system on a path.
    pub(crate) fn at(alloc: Global, path: &str, error: io::Error) -> Refusal {
        Refusal::by(alloc, path, Reason::of(&error))
    }

    /// Returns the refusal of a path for a reason.
    pub(crate) fn by(alloc: Global, path: &str, reason: Reason) -> Refusal {
        match String::from_str(alloc, path) {
            Ok(path) => Refusal::Path { path, reason },
            Err(_) => Refusal::Memory,
        }
    }

    /// Returns the refusal of a call on a file.
    pub(crate) fn of_call(alloc: Global, path: &str, failed: Failed) -> Refusal {
        match String::from_str(alloc, path) {
            Ok(path) => Refusal::File(FileFault::new(path, failed)),
            Err(_) => Refusal::Memory,
        }
    }

    /// Returns the fault of a call on the disk.
    pub(crate) fn disk_fault(&self) -> DiskFault {
        match self {
            Refusal::InUse { .. } => DiskFault::Disk,
            Refusal::Path { reason, .. } => device_fault(reason.kind()),
            Refusal::File(fault) => device_fault(fault.reason().kind()),
            Refusal::Memory => DiskFault::Memory,
        }
    }

    /// Returns the report of `open_to_write`. The path of a call on a file has the operation.
    pub(crate) fn folder_fault(self, alloc: Global) -> FolderFault {
        match self {
            Refusal::InUse { lock, holder } => FolderFault::InUse { lock, holder },
            Refusal::Path { path, reason } => FolderFault::Refused {
                path,
                reason: reason.to_error(),
            },
            Refusal::File(fault) => {
                match format!(in alloc; "{}: {}", fault.path(), fault.operation()) {
                    Ok(path) => FolderFault::Refused {
                        path,
                        reason: fault.reason(),
                    },
                    Err(_) => FolderFault::Memory,
                }
            }
            Refusal::Memory => FolderFault::Memory,
        }
    }

    /// Returns the failed call, `None` if memory is refused.
    pub(crate) fn file_fault(&self, alloc: Global) -> Option<FileFault> {
        let (path, failed) = match self {
            Refusal::InUse { lock, holder: _ } => {
                let held = Reason::Found(Finding::Held);
                (lock, Failed::by(Operation::Lock, held))
            }
            Refusal::Path { path, reason } => (path, Failed::by(Operation::Lock, *reason)),
            Refusal::File(fault) => return fault.copy(alloc).ok(),
            Refusal::Memory => return None,
        };
        let path = String::from_str(alloc, path).ok()?;
        Some(FileFault::new(path, failed))
    }
}

/// Returns the fault of a call on the disk if a call of the system fails so.
pub(crate) fn device_fault(kind: ErrorKind) -> DiskFault {
    match kind {
        ErrorKind::OutOfMemory => DiskFault::Memory,
        _ => DiskFault::Disk,
    }
}
