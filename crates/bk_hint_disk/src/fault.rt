//! Errors of hints as files.

use bk_disk::DiskFault;
use bk_log::ScanFault;
use thiserror::Error;

/// Why a call on a store of hints failed.
#[derive(Clone, Copy, Debug, PartialEq, Eq, Error)]
pub enum HintStoreFault {
    /// An allocation was refused.
    #[error("memory")]
    Memory,
    /// The device failed.
    #[error("disk")]
    Disk,
    /// A link, a directory or something else that is no plain file has the name of the hint.
    #[error("no plain file")]
    NotPlain,
    /// The file has this many bytes, more than the hint of a log can have.
    #[error("hint length {0}")]
    TooLong(u64),
}

/// Why a hint could not be made.
#[derive(Clone, Copy, Debug, PartialEq, Eq, Error)]
pub enum MakeFault {
    /// There is no such log.
    #[error("no log")]
    NoLog,
    /// An allocation was refused.
    #[error("memory")]
    Memory,
    /// The device of the log failed.
    #[error("disk")]
    Disk,
    /// The store of the hints failed.
    #[error("hint store")]
    Store,
    /// The disk is not honest.
    #[error("odd")]
    Odd,
}

impl MakeFault {
    /// Returns the fault of a call on a disk or a view.
    pub(crate) fn of_disk(fault: DiskFault) -> MakeFault {
        match fault {
            DiskFault::Disk => MakeFault::Disk,
            DiskFault::Memory => MakeFault::Memory,
            DiskFault::NoLog => MakeFault::NoLog,
            _ => MakeFault::Odd,
        }
    }

    /// Returns the fault of a scan, `None` for a record with a bad length.
    pub(crate) fn of_scan(fault: ScanFault) -> Option<MakeFault> {
        match fault {
            ScanFault::Disk => Some(MakeFault::Disk),
            ScanFault::Memory => Some(MakeFault::Memory),
            ScanFault::Odd => Some(MakeFault::Odd),
            ScanFault::BadLength { .. } => None,
        }
    }
}
