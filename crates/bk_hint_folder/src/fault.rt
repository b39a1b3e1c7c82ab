//! Why the hints of a directory are not made or compared.

use bk_disk::{FaultWatch, FileFault, FolderFault, Operation};
use bk_hint_disk::{MakeFault, RefusedPut};
use std::alloc::{AllocError, Global};
use std::io;
use thiserror::Error;

/// Why the hints of a directory are not made or compared. Logs of lower ids may have theirs.
#[derive(Debug, Error, Drop)]
pub enum HintingFault {
    /// The directory cannot be opened or listed, or memory is refused.
    #[error("{0}")]
    Folder(FolderFault),
}

impl From<FolderFault> for HintingFault {
    fn from(fault: FolderFault) -> HintingFault {
        HintingFault::Folder(fault)
    }
}

impl From<AllocError> for HintingFault {
    fn from(_: AllocError) -> HintingFault {
        HintingFault::Folder(FolderFault::Memory)
    }
}

/// A log whose hint was not made or compared, and why.
#[derive(Debug, Drop)]
pub struct LogFault {
    pub log: u32,
    pub why: LogReason,
}

/// Why the hint of a log was not made or compared.
#[derive(Debug, Error, Drop)]
pub enum LogReason {
    /// A call of the system on the log failed.
    #[error("disk: {0}")]
    Call(FileFault),
    /// The log cannot be read.
    #[error("{0}")]
    Fault(MakeFault),
    /// The hint cannot be written, or the log not be looked up: the file, the call of the system and
    /// its error.
    #[error("disk: {path}: {operation}: {reason}")]
    Refused {
        path: String,
        operation: Operation,
        reason: io::Error,
    },
    /// A write or a sync of the log failed earlier, and it was not written again since.
    #[error("set aside: a write or sync of it failed; the next program that writes here writes it again")]
    Aside,
}

impl From<RefusedPut> for LogReason {
    fn from(refused: RefusedPut) -> LogReason {
        let RefusedPut {
            path,
            operation,
            reason,
        } = refused;
        LogReason::Refused {
            path,
            operation,
            reason,
        }
    }
}

impl LogReason {
    /// Returns the reason of a fault on a log. The watch has the call of the disk that failed,
    /// `refused` that of a put.
    pub(crate) fn of(
        alloc: Global,
        fault: MakeFault,
        watch: &FaultWatch,
        refused: Option<RefusedPut>,
    ) -> Result<LogReason, AllocError> {
        if fault == MakeFault::Store
            && let Some(refused) = refused
        {
            return Ok(LogReason::from(refused));
        }
        if fault == MakeFault::Disk
            && let Some(call) = watch.last(alloc)?
        {
            return Ok(LogReason::Call(call));
        }
        Ok(LogReason::Fault(fault))
    }
}
