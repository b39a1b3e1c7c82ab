//! The stages. Each is a function that is never inlined, so that its cost is counted under its
//! name.
//!
//! Each performs one kind of work for all entries and returns their number. It fails with `Answer`
//! if an answer differs from the expected one. Then `tell` is called, so that work between two
//! stages is not counted.

use crate::BenchFault;
use crate::entries::LEDGERS;
use bk_compact::{
    BeginAnswer, CopyAnswer, EndAnswer, FinishAnswer, Kind, SwitchAnswer, begin, copy, end_copy,
    finish, switch,
};
use bk_disk::{LogDisk, LogView, MemDisk};
use bk_flush::{PublishAnswer, WriteAnswer, publish as publish_flush, swap, write_one};
use bk_log::{Scanner, fetch as fetch_entry};
use bk_record::{HEADER_LENGTH, Key};
use bk_store::{Added, Settings, Store, SwapAnswer, Taken};
use sha2::{Digest, Sha256};
use std::alloc::Global;
use std::io;

/// Settings of the measured stores: one log and one cache hold all entries, and each log that is
/// not entirely live is compacted.
pub(crate) const SETTINGS: Settings = Settings {
    log_limit: 1_073_741_824,
    cache_limit: 1_073_741_824,
    recent: 0,
    slots: 1024,
    leases: 1024,
    minor: 200,
    major: 1000,
};

/// Prints the result of a stage, which has ended.
#[inline(never)]
pub(crate) fn tell(rt: &HostRuntime, stage: &str, count: u64) -> io::Result<()> {
    println!(rt; "{stage} {count}")
}

/// Computes the digest of each payload. Returns the sum of their first bytes.
#[inline(never)]
pub(crate) fn digest(payloads: &[Vec<u8>]) -> u64 {
    let mut sum = 0u64;
    for payload in payloads {
        let digest = Sha256::digest(payload.as_slice());
        sum = sum.saturating_add(u64::from(digest[0]));
    }
    sum
}

/// Adds each payload.
#[inline(never)]
pub(crate) fn add<D: LogDisk>(
    store: &mut Store<D>,
    payloads: &[Vec<u8>],
) -> Result<u64, BenchFault> {
    let mut count = 0u64;
    for payload in payloads {
        let Ok(Added::Accepted(_)) = store.add(payload) else {
            return Err(BenchFault::Answer("add"));
        };
        count = count.saturating_add(1);
    }
    Ok(count)
}

/// Takes each key from the write cache.
#[inline(never)]
pub(crate) fn cached(store: &mut Store<MemDisk>, keys: &[Key]) -> Result<u64, BenchFault> {
    let mut count = 0u64;
    for key in keys {
        let Ok(Taken::Cached(_)) = store.take(*key) else {
            return Err(BenchFault::Answer("cached"));
        };
        count = count.saturating_add(1);
    }
    Ok(count)
}

/// Swaps, then writes each entry to the log.
#[inline(never)]
pub(crate) fn write<D: LogDisk>(store: &mut Store<D>) -> Result<u64, BenchFault> {
    let SwapAnswer::Swapped(entries) = swap(store) else {
        return Err(BenchFault::Answer("write"));
    };
    for _ in 0..entries {
        let Ok(WriteAnswer::Wrote(_)) = write_one(store) else {
            return Err(BenchFault::Answer("write"));
        };
    }
    Ok(entries)
}

/// Publishes the flush: adds all keys to the index.
#[inline(never)]
pub(crate) fn publish<D: LogDisk>(store: &mut Store<D>) -> Result<u64, BenchFault> {
    match publish_flush(store) {
        Ok(PublishAnswer::Published(entries)) => Ok(entries),
        _ => Err(BenchFault::Answer("publish")),
    }
}

/// Takes each key by a lease, reads the entry and releases the lease.
#[inline(never)]
pub(crate) fn fetch<D: LogDisk>(
    store: &mut Store<D>,
    alloc: Global,
    keys: &[Key],
) -> Result<u64, BenchFault> {
    let mut count = 0u64;
    for key in keys {
        let Ok(Taken::Leased(lease, location)) = store.take(*key) else {
            return Err(BenchFault::Answer("fetch"));
        };
        let found = fetch_entry(lease.view(), alloc, location, *key);
        lease.release().end();
        if found.is_err() {
            return Err(BenchFault::Answer("fetch"));
        }
        count = count.saturating_add(1);
    }
    Ok(count)
}

/// Scans the first log, which has all entries, up to `most`.
#[inline(never)]
pub(crate) fn scan<D: LogDisk>(
    store: &Store<D>,
    alloc: Global,
    most: u64,
) -> Result<u64, BenchFault> {
    match store.log_view(0) {
        Some(view) => scan_log(&**view, alloc, most),
        None => Err(BenchFault::Answer("scan")),
    }
}

/// Returns the number of entries that a view shows, up to `most`.
fn scan_log<V: LogView>(view: &V, alloc: Global, most: u64) -> Result<u64, BenchFault> {
    let end = view.end();
    if end < HEADER_LENGTH as u64 {
        return Err(BenchFault::Answer("scan"));
    }
    let mut scanner = Scanner::new(view, alloc, HEADER_LENGTH as u64, end);
    for count in 0..most {
        match scanner.next() {
            Ok(Some(_)) => {}
            Ok(None) => return Ok(count),
            Err(_) => return Err(BenchFault::Answer("scan")),
        }
    }
    Ok(most)
}

/// Takes the disk from the store and opens a store on it.
#[inline(never)]
pub(crate) fn reopen(
    store: Store<MemDisk>,
    alloc: Global,
) -> Result<(Store<MemDisk>, u64), BenchFault> {
    let Ok(disk) = store.into_disk() else {
        return Err(BenchFault::Answer("reopen"));
    };
    let Ok(opened) = Store::open(alloc, disk, SETTINGS, &[]) else {
        return Err(BenchFault::Answer("reopen"));
    };
    let keys = opened.index().len() as u64;
    Ok((opened, keys))
}

/// Deletes every tenth ledger. Returns the number of their keys.
#[inline(never)]
pub(crate) fn delete<D: LogDisk>(store: &mut Store<D>) -> Result<u64, BenchFault> {
    let mut count = 0u64;
    for tenth in 0..LEDGERS / 10 {
        let Ok(keys) = store.delete(10 * tenth) else {
            return Err(BenchFault::Answer("delete"));
        };
        count = count.saturating_add(keys);
    }
    Ok(count)
}

/// Compacts the one log. Returns the number of keys switched to their copies.
#[inline(never)]
pub(crate) fn compact<D: LogDisk>(store: &mut Store<D>) -> Result<u64, BenchFault> {
    copy_log(store)?;
    let moved = move_keys(store)?;
    match finish(store) {
        FinishAnswer::Retired(_) => Ok(moved),
        _ => Err(BenchFault::Answer("finish")),
    }
}

/// Chooses the log and copies its entries.
fn copy_log<D: LogDisk>(store: &mut Store<D>) -> Result<(), BenchFault> {
    match begin(store, Kind::Major) {
        Ok(BeginAnswer::Chosen(_)) => {}
        _ => return Err(BenchFault::Answer("begin")),
    }
    match copy(store, u64::MAX) {
        Ok(CopyAnswer::Copied(_)) => Ok(()),
        _ => Err(BenchFault::Answer("copy")),
    }
}

/// Ends the copying and switches the keys to the copies. Returns their number.
fn move_keys<D: LogDisk>(store: &mut Store<D>) -> Result<u64, BenchFault> {
    match end_copy(store) {
        Ok(EndAnswer::Ended(_)) => {}
        _ => return Err(BenchFault::Answer("end")),
    }
    match switch(store, u64::MAX) {
        SwitchAnswer::Moved(moved, 0) => Ok(moved),
        _ => Err(BenchFault::Answer("switch")),
    }
}

/// Performs one add.
#[inline(never)]
pub(crate) fn one_add(store: &mut Store<MemDisk>, payload: &[u8]) -> Result<(), BenchFault> {
    match store.add(payload) {
        Ok(Added::Accepted(_)) => Ok(()),
        _ => Err(BenchFault::Answer("add")),
    }
}

/// Deletes one ledger. Returns the number of its keys.
#[inline(never)]
pub(crate) fn one_delete(store: &mut Store<MemDisk>, ledger: u64) -> Result<u64, BenchFault> {
    match store.delete(ledger) {
        Ok(keys) => Ok(keys),
        Err(_) => Err(BenchFault::Answer("delete")),
    }
}
