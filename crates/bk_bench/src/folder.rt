//! Stages over a directory, each with its time.
//!
//! A line has the time in nanoseconds, so no two runs print the same. Work between two stages, such
//! as making payloads, is not timed.

use crate::BenchFault;
use crate::entries::{Amount, LEDGERS, Order, payload_of};
use crate::stages::{SETTINGS, add, compact, delete, digest, fetch, publish, scan, write};
use bk_disk::{DirDisk, LogDisk};
use bk_manifest_disk::open_logs;
use bk_store::{Settings, Store};
use std::alloc::{AllocError, Global};
use std::time::Instant;

/// Size of the ids of a payload.
const IDS: u64 = 16;

/// A stage over a directory.
#[derive(Clone, Copy)]
pub(crate) enum FolderWork {
    /// Adds and flushes entries, reads them by leases, and scans their log.
    Fill(Filling),
    /// The same with a manifest of the logs.
    Record(Filling),
    /// Opens a store on the logs of the directory, then deletes every tenth ledger.
    Open,
    /// Compacts the log with the lowest live share, with every tenth ledger deleted.
    Compact,
}

/// Entries to flush to a directory, one of each ledger after another.
#[derive(Clone, Copy)]
pub(crate) struct Filling {
    /// Size of a payload, its 16 bytes of ids included.
    pub length: u64,
    /// Number of entries per flush.
    pub batch: u64,
    /// Number of flushes.
    pub publishes: u64,
    /// Largest size of a log.
    pub limit: u32,
}

impl Filling {
    /// Returns all entries.
    fn amount(self) -> Amount {
        Amount {
            count: self.batch.saturating_mul(self.publishes),
            order: Order::Turn,
        }
    }
}

/// Results and times of the stages of a filling, in nanoseconds.
#[derive(Clone, Copy)]
struct Times {
    sum: u64,
    digest: u64,
    add: u64,
    write: u64,
    publish: u64,
}

/// Runs a stage over the directory at a path and prints its time.
pub(crate) fn run(rt: &HostRuntime, path: &str, work: FolderWork) -> Result<(), BenchFault> {
    match work {
        FolderWork::Fill(filling) => fill(rt, disk_at(rt, path)?, filling),
        FolderWork::Record(filling) => match open_logs(rt.alloc(), disk_at(rt, path)?) {
            Ok(opened) => fill(rt, opened.disk, filling),
            Err(_) => Err(BenchFault::Answer("manifest")),
        },
        FolderWork::Open => open(rt, path),
        FolderWork::Compact => compact_one(rt, path),
    }
}

/// Returns the disk of the directory.
fn disk_at(rt: &HostRuntime, path: &str) -> Result<DirDisk, BenchFault> {
    match DirDisk::open(rt, path) {
        Ok(disk) => Ok(disk),
        Err(_) => Err(BenchFault::Answer("folder")),
    }
}

/// Opens a store on the disk of a directory, with these ledgers deleted.
fn opened<D: LogDisk>(
    rt: &HostRuntime,
    disk: D,
    settings: Settings,
    dead: &[u64],
) -> Result<Store<D>, BenchFault> {
    match Store::open(rt.alloc(), disk, settings, dead) {
        Ok(store) => Ok(store),
        Err(_) => Err(BenchFault::Answer("open")),
    }
}

/// Returns the nanoseconds since a moment.
fn since(rt: &HostRuntime, begun: Instant) -> Result<u64, BenchFault> {
    let spent = begun.elapsed(rt)?;
    let seconds = spent.as_secs().saturating_mul(1_000_000_000);
    Ok(seconds.saturating_add(u64::from(spent.subsec_nanos())))
}

/// Prints the result of a stage and its time.
fn tell_time(rt: &HostRuntime, stage: &str, count: u64, time: u64) -> Result<(), BenchFault> {
    println!(rt; "{stage} {count} {time}")?;
    Ok(())
}

fn fill<D: LogDisk>(rt: &HostRuntime, disk: D, filling: Filling) -> Result<(), BenchFault> {
    let settings = Settings {
        log_limit: filling.limit,
        ..SETTINGS
    };
    let mut store = opened(rt, disk, settings, &[])?;
    fill_store(rt, &mut store, filling)
}

/// Adds, flushes and reads all entries, and scans the first log.
fn fill_store<D: LogDisk>(
    rt: &HostRuntime,
    store: &mut Store<D>,
    filling: Filling,
) -> Result<(), BenchFault> {
    let mut times = Times {
        sum: 0,
        digest: 0,
        add: 0,
        write: 0,
        publish: 0,
    };
    for number in 0..filling.publishes {
        let payloads = payloads_of(rt.alloc(), filling, number)?;
        flush(rt, store, &payloads, &mut times)?;
    }
    let amount = filling.amount();
    tell_time(rt, "digest", times.sum, times.digest)?;
    tell_time(rt, "add", amount.count, times.add)?;
    tell_time(rt, "write", amount.count, times.write)?;
    tell_time(rt, "publish", amount.count, times.publish)?;
    read(rt, store, amount)?;
    scan_first(rt, store, amount.count)
}

/// Returns the payloads of the flush with this number, counted from 0.
fn payloads_of(alloc: Global, filling: Filling, flush: u64) -> Result<Vec<Vec<u8>>, AllocError> {
    let data = vec![in alloc; 0u8; filling.length.saturating_sub(IDS) as usize]?;
    let amount = filling.amount();
    let first = flush.saturating_mul(filling.batch);
    let mut payloads = Vec::new(alloc);
    for number in 0..filling.batch {
        let ids = amount.ids(first.saturating_add(number));
        payloads.push(payload_of(alloc, ids, &data)?)?;
    }
    Ok(payloads)
}

/// Computes the digests of these payloads, as an add does; then adds and flushes them.
fn flush<D: LogDisk>(
    rt: &HostRuntime,
    store: &mut Store<D>,
    payloads: &[Vec<u8>],
    times: &mut Times,
) -> Result<(), BenchFault> {
    let begun = Instant::now(rt)?;
    times.sum = times.sum.saturating_add(digest(payloads));
    times.digest = times.digest.saturating_add(since(rt, begun)?);
    let begun = Instant::now(rt)?;
    add(store, payloads)?;
    let added = since(rt, begun)?;
    write(store)?;
    let written = since(rt, begun)?;
    publish(store)?;
    let published = since(rt, begun)?;
    times.add = times.add.saturating_add(added);
    times.write = times.write.saturating_add(written.saturating_sub(added));
    times.publish = times
        .publish
        .saturating_add(published.saturating_sub(written));
    Ok(())
}

/// Reads all entries by leases.
fn read<D: LogDisk>(
    rt: &HostRuntime,
    store: &mut Store<D>,
    amount: Amount,
) -> Result<(), BenchFault> {
    let keys = amount.keys(rt.alloc())?;
    let begun = Instant::now(rt)?;
    let fetched = fetch(store, rt.alloc(), &keys)?;
    let time = since(rt, begun)?;
    tell_time(rt, "fetch", fetched, time)
}

/// Scans the first log, up to `most` entries.
fn scan_first<D: LogDisk>(rt: &HostRuntime, store: &Store<D>, most: u64) -> Result<(), BenchFault> {
    let begun = Instant::now(rt)?;
    let scanned = scan(store, rt.alloc(), most)?;
    let time = since(rt, begun)?;
    tell_time(rt, "scan", scanned, time)
}

fn open(rt: &HostRuntime, path: &str) -> Result<(), BenchFault> {
    let begun = Instant::now(rt)?;
    let mut store = opened(rt, disk_at(rt, path)?, SETTINGS, &[])?;
    let time = since(rt, begun)?;
    tell_time(rt, "open", store.index().len() as u64, time)?;
    delete_tenths(rt, &mut store)
}

/// Deletes every tenth ledger.
fn delete_tenths(rt: &HostRuntime, store: &mut Store<DirDisk>) -> Result<(), BenchFault> {
    let begun = Instant::now(rt)?;
    let deleted = delete(store)?;
    let time = since(rt, begun)?;
    tell_time(rt, "delete", deleted, time)
}

fn compact_one(rt: &HostRuntime, path: &str) -> Result<(), BenchFault> {
    let dead = tenths(rt.alloc())?;
    let mut store = opened(rt, disk_at(rt, path)?, SETTINGS, &dead)?;
    compact_store(rt, &mut store)
}

/// Returns every tenth ledger.
fn tenths(alloc: Global) -> Result<Vec<u64>, AllocError> {
    let mut ledgers = Vec::new(alloc);
    for tenth in 0..LEDGERS / 10 {
        ledgers.push(10 * tenth)?;
    }
    Ok(ledgers)
}

/// Compacts the log with the lowest live share.
fn compact_store(rt: &HostRuntime, store: &mut Store<DirDisk>) -> Result<(), BenchFault> {
    let begun = Instant::now(rt)?;
    let moved = compact(store)?;
    let time = since(rt, begun)?;
    tell_time(rt, "compact", moved, time)
}
