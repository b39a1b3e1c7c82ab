//! Results of the calls of a collection, one enum per call, and their errors.

use bk_store::LogCause;
use std::alloc::AllocError;
use thiserror::Error;

/// Result of retiring a log.
#[derive(Clone, Copy, Debug, PartialEq, Eq)]
pub enum RetireAnswer {
    /// No log of this id is held.
    NoLog,
    /// A flush or a compaction writes the log or has yet to publish it, or the running compaction
    /// copies from it.
    InUse,
    /// The log of this id is Retired: no index entry points into it, and none ever will. Its file
    /// remains.
    Retired(u32),
    /// N index entries, at least one, point into the log.
    StillNamed(u64),
}

/// Result of closing a log.
#[derive(Clone, Copy, Debug, PartialEq, Eq)]
pub enum CloseAnswer {
    /// No log of this id is held.
    NoLog,
    /// The log is not Retired, so the index may still point into it.
    NotRetired,
    /// The log is Closed: no lease of it is out, and none will be granted.
    Closed,
    /// N leases of the log, at least one, were out when the call looked.
    Leased(u64),
}

/// Result of removing a log.
#[derive(Clone, Copy, Debug, PartialEq, Eq)]
pub enum RemoveAnswer {
    /// No log of this id is held.
    NoLog,
    /// The log is not Closed: a lease of it may be out or may still be granted.
    NotClosed,
    /// The log is no longer held, its file is removed, and its slot is free. Its id is never used
    /// again.
    Removed,
}

/// Why a call of a collection failed. The logs and the index of the store are unchanged.
#[derive(Clone, Copy, Debug, PartialEq, Eq, Error)]
pub enum CollectFault {
    /// The device failed: a view could not be read, or a file not removed.
    #[error("disk")]
    Disk,
    /// Out of memory.
    #[error("memory")]
    Memory,
    /// The published part of this log cannot be read to its end. Does not occur on an honest disk.
    #[error("log {id}: {cause}")]
    Log { id: u32, cause: LogCause },
    /// The disk returned what no honest disk can.
    #[error("odd disk")]
    Odd,
}

impl From<AllocError> for CollectFault {
    ghost use Rattle.std.specs.Prelude.{◌≡◌};
    ghost use Rattle.bk_collect.specs.declared.answer.CollectFault.TheVariants.{Memory};

    ghost from_gives = { λ _ e. e ≡ Memory };

    fn from(_error: AllocError) -> CollectFault {
        CollectFault::Memory
    }
}
