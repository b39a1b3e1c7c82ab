//! The calls of the store, with the answers that occur in a run. Each has no contract, so that the
//! code above is proved without the store's.

use crate::SimFault;
use bk_collect::{RemoveAnswer, RetireAnswer, close, remove, retire};
use bk_compact::{
    BeginAnswer, CopyAnswer, EndAnswer, FinishAnswer, Kind, SwitchAnswer, begin, copy, end_copy,
    finish, switch,
};
use bk_disk::LogDisk;
use bk_flush::{PublishAnswer, WriteAnswer, publish, swap, write_one};
use bk_sim_disk::{Bytes, MeterDisk, Metered};
use bk_store::{AddFault, Added, Settings, StepFault, Store, SwapAnswer};
use std::alloc::Global;

/// The simulated store.
pub(crate) type SimStore<D> = Store<MeterDisk<D>>;

/// Opens a store on a disk without logs.
pub(crate) fn open_store<D: LogDisk>(
    alloc: Global,
    disk: D,
    settings: Settings,
) -> Result<SimStore<D>, SimFault> {
    let disk = MeterDisk::new(alloc, disk);
    let store = match Store::open(alloc, disk, settings, &[]) {
        Ok(store) => store,
        Err(fault) => return Err(SimFault::Open(fault)),
    };
    if store.log_from(0).is_some() {
        return Err(SimFault::NotEmpty);
    }
    Ok(store)
}

/// Adds an entry. Returns false if the cache is full.
pub(crate) fn add_entry<D: LogDisk>(
    store: &mut SimStore<D>,
    payload: &[u8],
) -> Result<bool, SimFault> {
    match store.add(payload) {
        Ok(Added::Accepted(_)) => Ok(true),
        Ok(Added::Held) => Err(SimFault::Answer("add")),
        Err(AddFault::Full { .. }) => Ok(false),
        Err(fault) => Err(SimFault::Add(fault)),
    }
}

/// Deletes a ledger. Returns the number of its keys.
pub(crate) fn delete_ledger<D: LogDisk>(
    store: &mut SimStore<D>,
    ledger: u64,
) -> Result<u64, SimFault> {
    match store.delete(ledger) {
        Ok(keys) => Ok(keys),
        Err(_) => Err(SimFault::Answer("delete")),
    }
}

/// Begins a flush. Returns whether there is something to flush.
pub(crate) fn begin_flush<D: LogDisk>(store: &mut SimStore<D>) -> bool {
    match swap(store) {
        SwapAnswer::Nothing => false,
        SwapAnswer::Running | SwapAnswer::Swapped(_) => true,
    }
}

/// What a write did.
#[derive(Clone, Copy, Debug, PartialEq, Eq)]
pub(crate) enum Wrote {
    /// It wrote an entry.
    Entry,
    /// Nothing: all are written.
    All,
    /// Nothing: every slot is taken.
    Full,
}

/// Writes the next entry of the flush.
pub(crate) fn write_entry<D: LogDisk>(store: &mut SimStore<D>) -> Result<Wrote, SimFault> {
    match write_one(store) {
        Ok(WriteAnswer::Wrote(_)) => Ok(Wrote::Entry),
        Ok(_) => Ok(Wrote::All),
        Err(StepFault::LogsFull) => Ok(Wrote::Full),
        Err(_) => Err(SimFault::Answer("write")),
    }
}

/// Publishes the flush. Returns the number of its entries.
pub(crate) fn publish_flush<D: LogDisk>(store: &mut SimStore<D>) -> Result<u64, SimFault> {
    match publish(store) {
        Ok(PublishAnswer::Published(entries)) => Ok(entries),
        _ => Err(SimFault::Answer("publish")),
    }
}

/// What the begin of a compaction did.
#[derive(Clone, Copy, Debug, PartialEq, Eq)]
pub(crate) enum Began {
    /// It chose this log.
    Chosen(u32),
    /// No log qualifies.
    Nothing,
    /// Every slot is taken.
    Full,
}

/// Begins a compaction, if a log qualifies.
pub(crate) fn begin_compaction<D: LogDisk>(
    store: &mut SimStore<D>,
    kind: Kind,
) -> Result<Began, SimFault> {
    match begin(store, kind) {
        Ok(BeginAnswer::Chosen(log)) => Ok(Began::Chosen(log)),
        Ok(BeginAnswer::NothingToDo) => Ok(Began::Nothing),
        Err(StepFault::LogsFull) => Ok(Began::Full),
        _ => Err(SimFault::Answer("begin")),
    }
}

/// Examines so many entries of the source log. Returns how many were copied, and `None` if all were
/// examined before.
pub(crate) fn copy_entries<D: LogDisk>(
    store: &mut SimStore<D>,
    count: u64,
) -> Result<Option<u64>, SimFault> {
    match copy(store, count) {
        Ok(CopyAnswer::Copied(copied)) => Ok(Some(copied)),
        Ok(CopyAnswer::AtEnd) => Ok(None),
        _ => Err(SimFault::Answer("copy")),
    }
}

/// Seals the target log. Returns the number of entries copied.
pub(crate) fn end_copies<D: LogDisk>(store: &mut SimStore<D>) -> Result<u64, SimFault> {
    match end_copy(store) {
        Ok(EndAnswer::Ended(moves)) => Ok(moves),
        _ => Err(SimFault::Answer("end")),
    }
}

/// Switches up to so many entries. Returns how many were switched, and how many are left.
pub(crate) fn switch_entries<D: LogDisk>(
    store: &mut SimStore<D>,
    count: u64,
) -> Result<(u64, u64), SimFault> {
    match switch(store, count) {
        SwitchAnswer::Moved(moved, left) => Ok((moved, left)),
        _ => Err(SimFault::Answer("switch")),
    }
}

/// Ends the compaction. Returns the source log, which is retired.
pub(crate) fn finish_compaction<D: LogDisk>(store: &mut SimStore<D>) -> Result<u32, SimFault> {
    match finish(store) {
        FinishAnswer::Retired(log) => Ok(log),
        _ => Err(SimFault::Answer("finish")),
    }
}

/// Retires a log if the index does not point to it. Returns whether it did.
pub(crate) fn retire_log<D: LogDisk>(store: &mut SimStore<D>, log: u32) -> bool {
    matches!(retire(store, log), RetireAnswer::Retired(_))
}

/// Closes and removes a retired log.
pub(crate) fn remove_log<D: LogDisk>(store: &mut SimStore<D>, log: u32) -> Result<(), SimFault> {
    let _ = close(store, log);
    match remove(store, log) {
        Ok(RemoveAnswer::Removed) => Ok(()),
        _ => Err(SimFault::Answer("remove")),
    }
}

/// Returns the least id of a log from this one on.
pub(crate) fn log_from<D: LogDisk>(store: &SimStore<D>, from: u32) -> Option<u32> {
    store.log_from(from)
}

/// Returns the counts of the disk.
pub(crate) fn counts_of<D: LogDisk>(store: &SimStore<D>) -> Metered {
    store.disk().counts()
}

/// Returns the bytes of a log.
pub(crate) fn bytes_of<D: LogDisk>(store: &SimStore<D>, log: u32) -> Bytes {
    store.disk().log(log).unwrap_or_default()
}

/// Returns the bytes of the records of live ledgers in all logs.
pub(crate) fn live_bytes<D: LogDisk>(store: &SimStore<D>) -> u64 {
    store.bytes().live
}

/// Returns the number of logs that are held, and of keys of the index.
pub(crate) fn sizes_of<D: LogDisk>(store: &SimStore<D>) -> (u64, u64) {
    let stats = store.stats();
    (stats.logs as u64, stats.indexed as u64)
}

/// Returns the number of entries of the running flush.
pub(crate) fn flush_len<D: LogDisk>(store: &SimStore<D>) -> u64 {
    store.flush_len()
}

/// Returns how often the log changes from a key of a ledger to the next, and one more.
pub(crate) fn logs_of<D: LogDisk>(store: &SimStore<D>, ledger: u64) -> u64 {
    let mut logs = 0u64;
    let mut last = None;
    for (_, location) in store.index().walk_ledger(ledger) {
        let log = Some(location.log());
        if log != last {
            logs = logs.saturating_add(1);
            last = log;
        }
    }
    logs
}
