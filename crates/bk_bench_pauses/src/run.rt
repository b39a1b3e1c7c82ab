//! The runs: a store is made, then calls are made one by one.

use crate::PauseFault;
use crate::beside::Beside;
use crate::files::{Files, SETTINGS, payload};
use crate::stages::{
    add, bytes, choose, close_log, copy_some, delete, end, finish_job, publish, remove_log,
    retire_log, seal, stats, swap, switch_some, take, tell, write, writes,
};
use bk_compact::Kind;
use bk_disk::MemDisk;
use bk_record::Key;
use bk_store::{Added, Prepared, Settings, Store};
use std::alloc::Global;

/// Number of entries of a step of a compaction.
const STRIDE: u64 = 1000;

/// Makes the calls beside `count` of something.
pub(crate) fn run(rt: &HostRuntime, beside: Beside, count: u64) -> Result<(), PauseFault> {
    let logs = count.min(65_536) as u32;
    match beside {
        Beside::Logs => with_logs(rt, logs),
        Beside::Worn => with_worn(rt, logs),
        Beside::Slots => with_slots(rt, logs),
        Beside::Keys => with_keys(rt, count),
        Beside::Spread => with_spread(rt, logs),
        Beside::Cache => with_cache(rt, count, false),
        Beside::Ledgers => with_cache(rt, count, true),
        Beside::Copies => with_copies(rt, count),
    }
}

/// Opens a store on logs of one live entry, and makes calls that visit logs.
fn with_logs(rt: &HostRuntime, logs: u32) -> Result<(), PauseFault> {
    let mut store = of(rt.alloc(), logs, 1, false, &[])?;
    beside_logs(rt, &mut store)
}

/// Opens a store on logs that are half live, and begins a compaction.
fn with_worn(rt: &HostRuntime, logs: u32) -> Result<(), PauseFault> {
    let mut store = of(rt.alloc(), logs, 2, true, &[0])?;
    beside_worn(rt, &mut store)
}

/// Opens a store on a log of one ledger, and makes calls that look up a key.
fn with_keys(rt: &HostRuntime, count: u64) -> Result<(), PauseFault> {
    let mut store = of(rt.alloc(), 1, count, false, &[])?;
    beside_keys(rt, &mut store)
}

/// Opens a store on logs that each have one entry of a ledger, and deletes it.
fn with_spread(rt: &HostRuntime, logs: u32) -> Result<(), PauseFault> {
    let mut store = of(rt.alloc(), logs, 1, false, &[])?;
    delete_one(rt, &mut store)
}

/// Fills the cache of a store, and flushes it.
fn with_cache(rt: &HostRuntime, count: u64, apart: bool) -> Result<(), PauseFault> {
    let mut store = cached(rt.alloc(), count, apart)?;
    beside_cache(rt, &mut store, count)
}

/// Opens a store on logs.
fn of(
    alloc: Global,
    logs: u32,
    each: u64,
    apart: bool,
    dead: &[u64],
) -> Result<Store<MemDisk>, PauseFault> {
    let files = Files { logs, each, apart };
    files.open(alloc, SETTINGS, dead)
}

/// Returns an entry of a ledger that no log has.
fn fresh(alloc: Global, entry: u64) -> Result<Prepared, PauseFault> {
    let payload = payload(alloc, (1_000_000_000, entry))?;
    Prepared::new(alloc, &payload).map_err(|_| PauseFault::Answer("prepare"))
}

/// Makes calls that visit logs, and no log qualifies for a compaction.
fn beside_logs(rt: &HostRuntime, store: &mut Store<MemDisk>) -> Result<(), PauseFault> {
    let found = choose(store, Kind::Minor)?;
    tell(rt, "begin", found)?;
    let total = bytes(store);
    tell(rt, "bytes", total)?;
    let logs = stats(store);
    tell(rt, "stats", logs)?;
    let retired = retire_log(store, 0)?;
    tell(rt, "retire", retired)?;
    write_one(rt, store)
}

/// Adds an entry and flushes it to a new log.
fn write_one(rt: &HostRuntime, store: &mut Store<MemDisk>) -> Result<(), PauseFault> {
    add_one(rt, store)?;
    let swapped = swap(store)?;
    tell(rt, "swap", swapped)?;
    let written = write(store)?;
    tell(rt, "create", written)?;
    let published = publish(store)?;
    tell(rt, "publish", published)?;
    Ok(())
}

/// Begins a compaction where each log qualifies.
fn beside_worn(rt: &HostRuntime, store: &mut Store<MemDisk>) -> Result<(), PauseFault> {
    let found = choose(store, Kind::Major)?;
    tell(rt, "begin", found)?;
    Ok(())
}

/// Writes to a new log where one slot is free.
fn with_slots(rt: &HostRuntime, logs: u32) -> Result<(), PauseFault> {
    let files = Files {
        logs: logs.saturating_sub(1),
        each: 1,
        apart: false,
    };
    let settings = Settings {
        slots: logs.max(1),
        ..SETTINGS
    };
    let mut store = files.open(rt.alloc(), settings, &[])?;
    write_one(rt, &mut store)
}

/// Makes calls that look up a key, then deletes all.
fn beside_keys(rt: &HostRuntime, store: &mut Store<MemDisk>) -> Result<(), PauseFault> {
    add_one(rt, store)?;
    if let Some(key) = Key::new(0, 0) {
        let taken = take(store, key)?;
        tell(rt, "take", taken)?;
    }
    delete_one(rt, store)
}

/// Deletes the ledger of all keys.
fn delete_one(rt: &HostRuntime, store: &mut Store<MemDisk>) -> Result<(), PauseFault> {
    let keys = delete(store, 0)?;
    tell(rt, "delete", keys)?;
    Ok(())
}

/// Opens a store without logs and adds entries, of one ledger or each of its own.
fn cached(alloc: Global, count: u64, apart: bool) -> Result<Store<MemDisk>, PauseFault> {
    let mut store = of(alloc, 0, 0, false, &[])?;
    for number in 0..count {
        let ids = if apart { (number, 0) } else { (0, number) };
        put(alloc, &mut store, ids)?;
    }
    Ok(store)
}

/// Adds an entry.
fn put(alloc: Global, store: &mut Store<MemDisk>, ids: (u64, u64)) -> Result<(), PauseFault> {
    let payload = payload(alloc, ids)?;
    match store.add(&payload) {
        Ok(Added::Accepted(_)) => Ok(()),
        _ => Err(PauseFault::Answer("add")),
    }
}

/// Flushes the cache, and seals the log.
fn beside_cache(
    rt: &HostRuntime,
    store: &mut Store<MemDisk>,
    count: u64,
) -> Result<(), PauseFault> {
    add_one(rt, store)?;
    let swapped = swap(store)?;
    tell(rt, "swap", swapped)?;
    write_all(rt, store, count)?;
    let published = publish(store)?;
    tell(rt, "publish", published)?;
    let sealed = seal(store)?;
    tell(rt, "seal", sealed)?;
    Ok(())
}

/// Adds an entry of another ledger.
fn add_one(rt: &HostRuntime, store: &mut Store<MemDisk>) -> Result<(), PauseFault> {
    let entry = fresh(rt.alloc(), 0)?;
    let added = add(store, entry)?;
    tell(rt, "add", added)?;
    Ok(())
}

/// Writes `count` entries, then one more.
fn write_all(rt: &HostRuntime, store: &mut Store<MemDisk>, count: u64) -> Result<(), PauseFault> {
    let before = writes(store, count)?;
    tell(rt, "writes", before)?;
    let written = write(store)?;
    tell(rt, "write", written)?;
    Ok(())
}

/// Returns each second number below `count`.
fn halves(alloc: Global, count: u64) -> Result<Vec<u64>, PauseFault> {
    let mut dead = Vec::new(alloc);
    for number in 0..count / 2 {
        let ledger = number.saturating_mul(2);
        dead.push(ledger).map_err(|_| PauseFault::Memory)?;
    }
    Ok(dead)
}

/// Opens a store on a log of `count` entries, half of them deleted, and compacts it.
fn with_copies(rt: &HostRuntime, count: u64) -> Result<(), PauseFault> {
    let dead = halves(rt.alloc(), count)?;
    let mut store = of(rt.alloc(), 1, count, true, &dead)?;
    compact(rt, &mut store)
}

/// Compacts the one log.
fn compact(rt: &HostRuntime, store: &mut Store<MemDisk>) -> Result<(), PauseFault> {
    let found = choose(store, Kind::Major)?;
    tell(rt, "begin", found)?;
    copies(rt, store)?;
    switches(rt, store)?;
    removal(rt, store)
}

/// Copies all entries: one step, then the rest at once.
fn copies(rt: &HostRuntime, store: &mut Store<MemDisk>) -> Result<(), PauseFault> {
    let some = copy_some(store, STRIDE)?;
    tell(rt, "copy", some)?;
    let rest = copy_some(store, u64::MAX)?;
    tell(rt, "copy_rest", rest)?;
    let moves = end(store)?;
    tell(rt, "end_copy", moves)?;
    Ok(())
}

/// Switches all entries: one step, then the rest at once.
fn switches(rt: &HostRuntime, store: &mut Store<MemDisk>) -> Result<(), PauseFault> {
    let some = switch_some(store, STRIDE)?;
    tell(rt, "switch", some)?;
    let rest = switch_some(store, u64::MAX)?;
    tell(rt, "switch_rest", rest)?;
    let ended = finish_job(store)?;
    tell(rt, "finish", ended)?;
    Ok(())
}

/// Removes the source log.
fn removal(rt: &HostRuntime, store: &mut Store<MemDisk>) -> Result<(), PauseFault> {
    let closed = close_log(store, 0)?;
    tell(rt, "close", closed)?;
    let removed = remove_log(store, 0)?;
    tell(rt, "remove", removed)?;
    Ok(())
}
