//! The calls. Each is in a function that is never inlined, so that its cost is counted under its
//! name, and is followed by `tell`.

use crate::PauseFault;
use bk_collect::{CloseAnswer, RemoveAnswer, RetireAnswer, close, remove, retire};
use bk_compact::{
    BeginAnswer, CopyAnswer, EndAnswer, FinishAnswer, Kind, SwitchAnswer, begin, copy, end_copy,
    finish, switch,
};
use bk_disk::MemDisk;
use bk_flush::{
    PublishAnswer, RollAnswer, WriteAnswer, publish as publish_flush, roll, swap as swap_caches,
    write_one,
};
use bk_record::Key;
use bk_store::{AddKind, Added, Prepared, Store, SwapAnswer, Taken};
use std::io;

type Mem = Store<MemDisk>;

/// Prints the result of a call, which has ended.
#[inline(never)]
pub(crate) fn tell(rt: &HostRuntime, stage: &str, count: u64) -> io::Result<()> {
    println!(rt; "{stage} {count}")
}

/// Adds a prepared entry: what an add does under the lock.
#[inline(never)]
pub(crate) fn add(store: &mut Mem, entry: Prepared) -> Result<u64, PauseFault> {
    match store.add_prepared(AddKind::Ordinary, entry) {
        Ok(Added::Accepted(_)) => Ok(1),
        _ => Err(PauseFault::Answer("add")),
    }
}

/// Takes a key, and ends the lease.
#[inline(never)]
pub(crate) fn take(store: &mut Mem, key: Key) -> Result<u64, PauseFault> {
    match store.take(key) {
        Ok(Taken::Leased(lease, _)) => {
            lease.release().end();
            Ok(1)
        }
        Ok(Taken::Cached(_)) => Ok(1),
        _ => Err(PauseFault::Answer("take")),
    }
}

/// Makes the active cache the flushing one.
#[inline(never)]
pub(crate) fn swap(store: &mut Mem) -> Result<u64, PauseFault> {
    match swap_caches(store) {
        SwapAnswer::Swapped(entries) => Ok(entries),
        _ => Err(PauseFault::Answer("swap")),
    }
}

/// Writes one entry.
#[inline(never)]
pub(crate) fn write(store: &mut Mem) -> Result<u64, PauseFault> {
    match write_one(store) {
        Ok(WriteAnswer::Wrote(_)) => Ok(1),
        _ => Err(PauseFault::Answer("write")),
    }
}

/// Writes `count` entries.
#[inline(never)]
pub(crate) fn writes(store: &mut Mem, count: u64) -> Result<u64, PauseFault> {
    for _ in 0..count {
        let Ok(WriteAnswer::Wrote(_)) = write_one(store) else {
            return Err(PauseFault::Answer("writes"));
        };
    }
    Ok(count)
}

/// Publishes the flush.
#[inline(never)]
pub(crate) fn publish(store: &mut Mem) -> Result<u64, PauseFault> {
    match publish_flush(store) {
        Ok(PublishAnswer::Published(entries)) => Ok(entries),
        _ => Err(PauseFault::Answer("publish")),
    }
}

/// Seals the current log.
#[inline(never)]
pub(crate) fn seal(store: &mut Mem) -> Result<u64, PauseFault> {
    match roll(store) {
        Ok(RollAnswer::Sealed(_)) => Ok(1),
        _ => Err(PauseFault::Answer("seal")),
    }
}

/// Deletes a ledger.
#[inline(never)]
pub(crate) fn delete(store: &mut Mem, ledger: u64) -> Result<u64, PauseFault> {
    match store.delete(ledger) {
        Ok(keys) => Ok(keys),
        Err(_) => Err(PauseFault::Answer("delete")),
    }
}

/// Looks for a log to compact. Returns whether there is one.
#[inline(never)]
pub(crate) fn choose(store: &mut Mem, kind: Kind) -> Result<u64, PauseFault> {
    match begin(store, kind) {
        Ok(BeginAnswer::Chosen(_)) => Ok(1),
        Ok(BeginAnswer::NothingToDo) => Ok(0),
        _ => Err(PauseFault::Answer("begin")),
    }
}

/// Examines entries of the source log.
#[inline(never)]
pub(crate) fn copy_some(store: &mut Mem, count: u64) -> Result<u64, PauseFault> {
    match copy(store, count) {
        Ok(CopyAnswer::Copied(copied)) => Ok(copied),
        _ => Err(PauseFault::Answer("copy")),
    }
}

/// Seals the target log.
#[inline(never)]
pub(crate) fn end(store: &mut Mem) -> Result<u64, PauseFault> {
    match end_copy(store) {
        Ok(EndAnswer::Ended(moves)) => Ok(moves),
        _ => Err(PauseFault::Answer("end")),
    }
}

/// Switches entries to the target log.
#[inline(never)]
pub(crate) fn switch_some(store: &mut Mem, count: u64) -> Result<u64, PauseFault> {
    match switch(store, count) {
        SwitchAnswer::Moved(moved, _) => Ok(moved),
        _ => Err(PauseFault::Answer("switch")),
    }
}

/// Ends the compaction.
#[inline(never)]
pub(crate) fn finish_job(store: &mut Mem) -> Result<u64, PauseFault> {
    match finish(store) {
        FinishAnswer::Retired(_) => Ok(1),
        _ => Err(PauseFault::Answer("finish")),
    }
}

/// Looks whether a log can be retired.
#[inline(never)]
pub(crate) fn retire_log(store: &mut Mem, log: u32) -> Result<u64, PauseFault> {
    match retire(store, log) {
        RetireAnswer::Retired(_) => Ok(1),
        RetireAnswer::StillNamed(_) => Ok(0),
        _ => Err(PauseFault::Answer("retire")),
    }
}

/// Closes a retired log.
#[inline(never)]
pub(crate) fn close_log(store: &mut Mem, log: u32) -> Result<u64, PauseFault> {
    match close(store, log) {
        CloseAnswer::Closed => Ok(1),
        _ => Err(PauseFault::Answer("close")),
    }
}

/// Removes a closed log.
#[inline(never)]
pub(crate) fn remove_log(store: &mut Mem, log: u32) -> Result<u64, PauseFault> {
    match remove(store, log) {
        Ok(RemoveAnswer::Removed) => Ok(1),
        _ => Err(PauseFault::Answer("remove")),
    }
}

/// Sums the bytes of all logs.
#[inline(never)]
pub(crate) fn bytes(store: &Mem) -> u64 {
    store.bytes().total
}

/// Reads the counts.
#[inline(never)]
pub(crate) fn stats(store: &Mem) -> u64 {
    store.stats().logs as u64
}
