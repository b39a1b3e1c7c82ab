//! Replies to requests that were refused.

use thiserror::Error;

/// Why a request was refused.
#[derive(Clone, Copy, Debug, PartialEq, Eq, Error)]
pub enum Refusal {
    /// The trail has `front` marks, fewer than this session has observed.
    #[error("backwards {seen} {front}")]
    Backwards { seen: u64, front: u64 },
    /// A ledger id or an entry id exceeds 2^63 - 1.
    #[error("negative number")]
    Negative,
    /// The entry or the attribute has this many bytes, which is too many.
    #[error("too long {length}")]
    TooLong { length: u64 },
    /// The ledger is deleted.
    #[error("deleted")]
    Deleted,
    /// The ledger is fenced, and the add is not a recovery.
    #[error("fenced")]
    Fenced,
    /// The write cache has `used` bytes of `limit`, and no room for the entry.
    #[error("full {used} {limit}")]
    Full { used: u64, limit: u64 },
    /// Out of memory.
    #[error("memory")]
    Memory,
    /// The lease table cannot have a further owner.
    #[error("no seat")]
    NoSeat,
    /// The log has as many leases as one log may have.
    #[error("too many leases")]
    TooMany,
    /// The ledger was deleted before.
    #[error("already deleted")]
    AlreadyDeleted,
    /// The trail has this many marks, so it ends before the receipt's number.
    #[error("missing {front}")]
    Missing { front: u64 },
    /// The trail has another mark at the receipt's number.
    #[error("differs")]
    Differs,
    /// The log has no such record where the index points.
    #[error("not there")]
    NotThere,
    /// The device failed.
    #[error("disk")]
    Disk,
    /// The disk returned what no honest disk can.
    #[error("odd disk")]
    Odd,
    /// Every slot for a log is taken.
    #[error("logs full")]
    LogsFull,
    /// The next log id is past 2^31 - 1.
    #[error("no more ids")]
    NoMoreIds,
    /// A setting is out of range.
    #[error("settings")]
    Settings,
    /// This log cannot be read.
    #[error("log {log}")]
    BadLog { log: u64 },
    /// This log is longer than 2^32 - 1 bytes.
    #[error("log too long {log}")]
    LogTooLong { log: u64 },
    /// Another process has the directory open.
    #[error("in use")]
    InUse,
    /// A compaction is running.
    #[error("busy")]
    Busy,
    /// A number of the request is out of its range.
    #[error("out of range")]
    OutOfRange,
    /// A thread could not be started.
    #[error("no thread")]
    NoThread,
    /// The server does not have this call.
    #[error("not offered")]
    NotOffered,
}
