//! Errors of calls on a log.

ghost use Rattle.std.specs.Prelude.{◌≡◌};
ghost use Rattle.bk_log.specs.Faults.{log_fault_of};

use bk_disk::DiskFault;
use thiserror::Error;

/// Why a log could not be created, written or sealed.
#[derive(Clone, Copy, Debug, PartialEq, Eq, Error)]
pub enum LogFault {
    /// The device failed.
    #[error("disk")]
    Disk,
    /// An earlier write failed: the log takes no further record.
    #[error("failed")]
    Failed,
    /// Out of memory.
    #[error("memory")]
    Memory,
    /// A log to be created exists already; or a result that no honest disk gives: a log that was
    /// created is missing, or a short log is full.
    #[error("odd disk")]
    Odd,
}

impl LogFault {
    ghost use Rattle.bk_log.specs.Faults.{is_lasting};

    /// Returns whether a write with this error may have left a part of a record, so that nothing is
    /// appended after it.
    pub(crate) fn is_lasting(self) -> bool
        ensures { result ≡ is_lasting self }
    {
        !matches!(self, LogFault::Memory)
    }
}

/// Why a log could not be created, and whether its file was created nevertheless.
#[derive(Clone, Copy, Debug, PartialEq, Eq)]
pub struct CreateFault {
    /// Whether the call created the log's file, which then has a part of the header or none of it.
    /// Otherwise the call changed no file; if the error is `Odd`, a file of this id exists.
    pub made: bool,
    /// The cause.
    pub fault: LogFault,
}

/// Why an entry could not be read.
#[derive(Clone, Copy, Debug, PartialEq, Eq, Error)]
pub enum FetchFault {
    /// The view is not sound: its device failed.
    #[error("disk")]
    Disk,
    /// No whole record of the key has its payload at the position.
    #[error("not there")]
    NotThere,
    /// Out of memory.
    #[error("memory")]
    Memory,
    /// A result that no honest view gives.
    #[error("odd disk")]
    Odd,
}

/// Why a scan of a log's bytes stopped.
#[derive(Clone, Copy, Debug, PartialEq, Eq, Error)]
pub enum ScanFault {
    /// The length field at position `at` has a value below 16, as a signed number.
    #[error("bad length {at} {length}")]
    BadLength { at: u64, length: i32 },
    /// The view is not sound: its device failed.
    #[error("disk")]
    Disk,
    /// Out of memory.
    #[error("memory")]
    Memory,
    /// A result that no honest view gives.
    #[error("odd disk")]
    Odd,
}

/// Converts an error of the disk: `Memory` and `Disk` are unchanged, all others become `Odd`.
pub(crate) fn log_fault(fault: DiskFault) -> LogFault
    ensures { result ≡ log_fault_of fault }
{
    match fault {
        DiskFault::Disk => LogFault::Disk,
        DiskFault::Memory => LogFault::Memory,
        DiskFault::Exists | DiskFault::NoLog | DiskFault::PastEnd | DiskFault::TooLong => {
            LogFault::Odd
        }
    }
}
