//! Results and errors of the calls of a store, one enum per call.

use crate::Receipt;
use bk_lease::Lease;
use bk_record::{Location, RecordFault};
use std::alloc::AllocError;
use std::sync::Arc;
use thiserror::Error;

/// Result of an add.
#[derive(Clone, Copy, Debug, PartialEq, Eq)]
pub enum Added {
    /// The entry is in the store; here is its receipt.
    Accepted(Receipt),
    /// The store has an entry of this key, which is unchanged (this project's rule).
    Held,
}

/// Why an add failed. The store is unchanged.
#[derive(Clone, Copy, Debug, PartialEq, Eq, Error)]
pub enum AddFault {
    /// The payload is too short or too long, or an id is out of range.
    #[error("{0}")]
    Bad(RecordFault),
    /// The ledger of the entry is deleted.
    #[error("deleted")]
    Deleted,
    /// The ledger of the entry is fenced, and the add is not a recovery.
    #[error("fenced")]
    Fenced,
    /// The active cache has `used` payload bytes, and this payload would exceed the limit.
    #[error("full {used} {limit}")]
    Full { used: u64, limit: u64 },
    /// Out of memory.
    #[error("memory")]
    Memory,
}

impl From<RecordFault> for AddFault {
    ghost use Rattle.std.specs.Prelude.{◌≡◌};
    ghost use Rattle.bk_store.specs.declared.answer.AddFault.TheVariants.{Bad};

    ghost from_gives = { λ fault e. e ≡ Bad fault };

    fn from(fault: RecordFault) -> AddFault {
        AddFault::Bad(fault)
    }
}

impl From<AllocError> for AddFault {
    ghost use Rattle.std.specs.Prelude.{◌≡◌};
    ghost use Rattle.bk_store.specs.declared.answer.AddFault.TheVariants.{Memory};

    ghost from_gives = { λ _ e. e ≡ Memory };

    fn from(_error: AllocError) -> AddFault {
        AddFault::Memory
    }
}

/// Result of appending the next entry of a flush.
#[derive(Clone, Copy, Debug, PartialEq, Eq)]
pub enum Appended {
    /// Every entry of the flush has a place, or no flush is running.
    AllPlaced,
    /// No log is Writing, or the Writing log has a record and this entry would exceed `log_limit`.
    NeedsLog,
    /// The entry was appended at this location.
    At(Location),
}

/// Result of a take.
#[derive(Drop)]
pub enum Taken<V: Drop> {
    /// The ledger of the entry is deleted.
    Deleted,
    /// The payload, from a cache.
    Cached(Arc<Vec<u8>>),
    /// The store has no entry of this key.
    NotHeld,
    /// A lease on the log that has the entry, and the location of the entry there.
    Leased(Lease<V>, Location),
}

/// Why a take failed. The store is unchanged, and no lease of this call is out.
#[derive(Clone, Copy, Debug, PartialEq, Eq, Error)]
pub enum TakeFault {
    /// The lease table cannot have a further owner.
    #[error("no seat")]
    NoSeat,
    /// The log has as many leases as one log may have.
    #[error("too many leases")]
    TooMany,
    /// A payload or a view cannot have a further owner.
    #[error("memory")]
    Memory,
}

/// Why a deletion failed. The store is unchanged.
#[derive(Clone, Copy, Debug, PartialEq, Eq, Error)]
pub enum DeleteFault {
    /// The ledger was deleted before.
    #[error("already deleted")]
    AlreadyDeleted,
    /// Out of memory.
    #[error("memory")]
    Memory,
}

impl From<AllocError> for DeleteFault {
    ghost use Rattle.std.specs.Prelude.{◌≡◌};
    ghost use Rattle.bk_store.specs.declared.answer.DeleteFault.TheVariants.{Memory};

    ghost from_gives = { λ _ e. e ≡ Memory };

    fn from(_error: AllocError) -> DeleteFault {
        DeleteFault::Memory
    }
}

/// Result of a fence.
#[derive(Clone, Copy, Debug, PartialEq, Eq)]
pub enum Fence {
    /// The ledger is fenced from now on.
    Fenced,
    /// The ledger was fenced before.
    AlreadyFenced,
}

/// Why a fence failed. The store is unchanged.
#[derive(Clone, Copy, Debug, PartialEq, Eq, Error)]
pub enum FenceFault {
    /// The ledger is deleted.
    #[error("deleted")]
    Deleted,
    /// Out of memory.
    #[error("memory")]
    Memory,
}

impl From<AllocError> for FenceFault {
    ghost use Rattle.std.specs.Prelude.{◌≡◌};
    ghost use Rattle.bk_store.specs.declared.answer.FenceFault.TheVariants.{Memory};

    ghost from_gives = { λ _ e. e ≡ Memory };

    fn from(_error: AllocError) -> FenceFault {
        FenceFault::Memory
    }
}

/// Why no log was created.
#[derive(Clone, Copy, Debug, PartialEq, Eq)]
pub enum MakeFault {
    /// Every slot is taken.
    LogsFull,
    /// The next id is past 2^31 - 1.
    NoMoreIds,
    /// Out of memory.
    Memory,
    /// The device failed.
    Disk,
    /// The disk returned what no honest disk can.
    Odd,
}

/// Why a log could not be read at opening.
#[derive(Clone, Copy, Debug, PartialEq, Eq, Error)]
pub enum LogCause {
    /// Its header is not that of an entry log.
    #[error("{0}")]
    Header(bk_head::HeadFault),
    /// The length field at this position, read as a signed number, is below 16.
    #[error("bad length {at} {length}")]
    BadLength { at: u64, length: i32 },
}

/// Why a store did not open. The disk is dropped.
#[derive(Clone, Copy, Debug, PartialEq, Eq, Error)]
pub enum OpenFault {
    /// A setting is out of range.
    #[error("settings")]
    Settings,
    /// The device failed.
    #[error("disk")]
    Disk,
    /// Out of memory.
    #[error("memory")]
    Memory,
    /// There are more logs than slots.
    #[error("logs full")]
    LogsFull,
    /// The log of this id cannot be read.
    #[error("log {id}: {cause}")]
    Log { id: u32, cause: LogCause },
    /// The log of this id is longer than 2^32 - 1 bytes.
    #[error("log too long {0}")]
    TooLong(u32),
    /// The disk returned what no honest disk can.
    #[error("odd disk")]
    Odd,
}
