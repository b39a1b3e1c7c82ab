//! Runs all stages in order, each with a line that has the number of entries.

use crate::BenchFault;
use crate::entries::Amount;
use crate::stages::{
    SETTINGS, add, cached, compact, delete, digest, fetch, publish, reopen, scan, tell, write,
};
use bk_disk::MemDisk;
use bk_flush::{RollAnswer, roll};
use bk_record::Key;
use bk_store::Store;
use std::alloc::{AllocError, Global};

/// Runs all stages with N entries.
pub(crate) fn run(rt: &HostRuntime, amount: Amount) -> Result<(), BenchFault> {
    let alloc = rt.alloc();
    let keys = amount.keys(alloc)?;
    let payloads = amount.payloads(alloc)?;
    let store = filled(rt, alloc, &keys, &payloads)?;
    let mut store = opened(rt, alloc, store)?;
    shrink(rt, &mut store)
}

/// Returns a store that has the entries in a log.
fn filled(
    rt: &HostRuntime,
    alloc: Global,
    keys: &[Key],
    payloads: &[Vec<u8>],
) -> Result<Store<MemDisk>, BenchFault> {
    let Ok(mut store) = Store::open(alloc, MemDisk::new(alloc), SETTINGS, &[]) else {
        return Err(BenchFault::Answer("open"));
    };
    match fill(rt, alloc, &mut store, keys, payloads) {
        Ok(()) => Ok(store),
        Err(fault) => Err(fault),
    }
}

/// Adds and flushes the entries, and reads them before and after the flush.
fn fill(
    rt: &HostRuntime,
    alloc: Global,
    store: &mut Store<MemDisk>,
    keys: &[Key],
    payloads: &[Vec<u8>],
) -> Result<(), BenchFault> {
    tell(rt, "payloads", payloads.len() as u64)?;
    tell(rt, "digest", digest(payloads))?;
    let added = add(store, payloads)?;
    tell(rt, "add", added)?;
    let taken = cached(store, keys)?;
    tell(rt, "cached", taken)?;
    let written = write(store)?;
    tell(rt, "write", written)?;
    let published = publish(store)?;
    tell(rt, "publish", published)?;
    let fetched = fetch(store, alloc, keys)?;
    tell(rt, "fetch", fetched)?;
    tidy(alloc)?;
    let scanned = scan(store, alloc, keys.len() as u64)?;
    tell(rt, "scan", scanned)?;
    Ok(())
}

/// Allocates and frees large blocks. The C library then consolidates its free memory, and the next
/// stage is not charged for it.
fn tidy(alloc: Global) -> Result<(), AllocError> {
    for _ in 0..32 {
        drop(vec![in alloc; 0u8; 65_536]?);
    }
    Ok(())
}

/// Opens the store again.
fn opened(
    rt: &HostRuntime,
    alloc: Global,
    store: Store<MemDisk>,
) -> Result<Store<MemDisk>, BenchFault> {
    let (store, keys) = reopen(store, alloc)?;
    match tell(rt, "reopen", keys) {
        Ok(()) => Ok(store),
        Err(_) => Err(BenchFault::Host),
    }
}

/// Deletes ledgers and compacts the log of the others.
fn shrink(rt: &HostRuntime, store: &mut Store<MemDisk>) -> Result<(), BenchFault> {
    let deleted = delete(store)?;
    tell(rt, "delete", deleted)?;
    seal(store)?;
    let moved = compact(store)?;
    tell(rt, "compact", moved)?;
    Ok(())
}

/// Seals the current log, if there is one, so that it can be compacted.
fn seal(store: &mut Store<MemDisk>) -> Result<(), BenchFault> {
    match roll(store) {
        Ok(RollAnswer::Sealed(_) | RollAnswer::NothingOpen) => Ok(()),
        _ => Err(BenchFault::Answer("roll")),
    }
}
