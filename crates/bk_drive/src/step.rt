//! Steps and their answers.

use crate::{Counts, LedgerRead, LedgerReadAnswer};
use bk_collect::{CloseAnswer, CollectFault, RemoveAnswer, RetireAnswer};
use bk_compact::{
    BeginAnswer, CopyAnswer, EndAnswer, FinishAnswer, GiveUpAnswer, Kind, SwitchAnswer,
};
use bk_flush::{PublishAnswer, RollAnswer, WriteAnswer};
use bk_log::FetchFault;
use bk_record::{Key, Location};
use bk_store::{AddFault, Added, DeleteFault, Fence, FenceFault, StepFault, SwapAnswer, TakeFault};
use std::sync::Arc;

/// A step of the store alone.
#[derive(Clone, Copy, Debug, PartialEq, Eq)]
pub enum Work {
    /// Makes the active cache the flushing cache.
    Swap,
    /// Writes the next entry of the flush.
    WriteOne,
    /// Publishes the flush: its entries are read from their logs from now on.
    Publish,
    /// Seals the current log, so that the next flush creates another.
    Roll,
    /// Retires this log if no index entry points into it.
    Retire(u32),
    /// Rebuilds the index from the published parts of the logs.
    Rebuild,
    /// Closes this log if it is retired and has no lease.
    Close(u32),
    /// Removes this log and its file if it is closed.
    Remove(u32),
    /// Begins a compaction of this kind: chooses the source log and creates the target log.
    Begin(Kind),
    /// Examines up to N entries of the source log, and copies those that the index references
    /// there.
    Copy(u64),
    /// Seals and publishes the target log after all entries have been examined.
    EndCopy,
    /// Switches the index of up to N copied keys to the target log.
    Switch(u64),
    /// Retires the source log after all keys have been switched.
    Finish,
    /// Gives up the running compaction.
    GiveUp,
}

/// A step of the machine. Readers are numbered from 0 to 3.
#[derive(Debug, Drop)]
pub enum Step {
    /// A step of the store alone.
    Work(Work),
    /// Adds this entry: ledger id and entry id, eight bytes each, then the data.
    Add(Vec<u8>),
    /// The same as part of a recovery: a fence does not refuse it.
    AddRecovery(Vec<u8>),
    /// Takes this key for a reader, which then holds the lease if one is granted.
    Take(u32, Key),
    /// Reads the entry on which this reader holds a lease. The reader keeps the lease.
    Fetch(u32),
    /// Ends the lease that this reader holds.
    Release(u32),
    /// Deletes this ledger.
    Delete(u64),
    /// Fences this ledger: later ordinary adds to it are refused.
    Fence(u64),
    /// Reads by ledger.
    Read(LedgerRead),
    /// Counts what is cached and what is durable.
    Stats,
}

/// Answer of a take.
#[derive(Debug, Drop)]
pub enum TakeAnswer {
    /// There is no reader with this number.
    NoReader,
    /// The reader already holds a lease.
    ReaderBusy,
    /// The ledger of the key is deleted.
    Deleted,
    /// The store has no entry with this key.
    NotHeld,
    /// The payload, from a cache.
    Cached(Arc<Vec<u8>>),
    /// The reader holds a lease on the entry at this location.
    Leased(Location),
}

/// Answer of a fetch.
#[derive(Debug, Drop)]
pub enum FetchAnswer {
    /// There is no reader with this number.
    NoReader,
    /// The reader holds no lease.
    NoLease,
    /// The payload that the entry had when the lease was granted.
    Bytes(Vec<u8>),
}

/// Answer of a release.
#[derive(Clone, Copy, Debug, PartialEq, Eq)]
pub enum ReleaseAnswer {
    /// There is no reader with this number.
    NoReader,
    /// The reader holds no lease.
    NoLease,
    /// The lease has ended.
    Released,
}

/// The answer of a step, by the call that it made.
#[derive(Debug, Drop)]
pub enum Answer {
    /// Answer of an add of either kind.
    Add(Result<Added, AddFault>),
    Take(Result<TakeAnswer, TakeFault>),
    Fetch(Result<FetchAnswer, FetchFault>),
    Release(ReleaseAnswer),
    /// Number of keys that the deleted ledger had, each counted once.
    Delete(Result<u64, DeleteFault>),
    Fence(Result<Fence, FenceFault>),
    Swap(SwapAnswer),
    Write(Result<WriteAnswer, StepFault>),
    Publish(Result<PublishAnswer, StepFault>),
    Roll(Result<RollAnswer, StepFault>),
    Retire(RetireAnswer),
    /// Number of keys in the new index.
    Rebuild(Result<u64, CollectFault>),
    Close(CloseAnswer),
    Remove(Result<RemoveAnswer, CollectFault>),
    Begin(Result<BeginAnswer, StepFault>),
    Copy(Result<CopyAnswer, StepFault>),
    EndCopy(Result<EndAnswer, StepFault>),
    Switch(SwitchAnswer),
    Finish(FinishAnswer),
    GiveUp(GiveUpAnswer),
    Read(LedgerReadAnswer),
    Stats(Counts),
    /// The step was not performed, since what must be durable before it could not be recorded. Only
    /// `drive_recorded` gives this answer.
    Unrecorded,
}
