//! Why a call on a disk fails.

use thiserror::Error;

/// Why a call on a disk or a view failed.
#[derive(Clone, Copy, Debug, PartialEq, Eq, Error)]
pub enum DiskFault {
    /// The device failed.
    #[error("disk")]
    Disk,
    /// There is a log of this id already.
    #[error("log exists")]
    Exists,
    /// There is no such log.
    #[error("no log")]
    NoLog,
    /// The read or the patch reaches past the end of the log, or the read of a view begins in the
    /// header.
    #[error("past the end")]
    PastEnd,
    /// The log would have more than 2^32 - 1 bytes.
    #[error("log full")]
    TooLong,
    /// An allocation was refused.
    #[error("memory")]
    Memory,
}
