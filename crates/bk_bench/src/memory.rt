//! Entries held in memory in one form, so that the peak memory of the program shows what the form
//! uses.

use crate::BenchFault;
use crate::entries::{Amount, payload, short_payload};
use crate::stages::SETTINGS;
use bk_disk::{LogDisk, MemDisk};
use bk_head::new_header;
use bk_store::{Added, Store};
use std::alloc::Global;

/// Number of entries of a ledger before it is deleted, if only marks are to be held.
const BATCH: u64 = 1000;

/// The form in which entries are held.
#[derive(Clone, Copy)]
pub(crate) enum Holding {
    /// Not at all.
    Nothing,
    /// As records of a log, of 20 bytes each.
    Log,
    /// As records of a log, with a store opened on it.
    Store,
    /// In the write cache, with their marks.
    Cached,
    /// Only as marks of a trail.
    Marks,
}

/// Holds N entries in a form and prints how many it holds.
pub(crate) fn run(rt: &HostRuntime, holding: Holding, amount: Amount) -> Result<(), BenchFault> {
    let alloc = rt.alloc();
    let held = match holding {
        Holding::Nothing => 0,
        Holding::Log => log_length(alloc, amount)?,
        Holding::Store => opened(alloc, amount)?,
        Holding::Cached => cached(alloc, amount)?,
        Holding::Marks => marks(alloc, amount.count)?,
    };
    println!(rt; "held {held}")?;
    Ok(())
}

/// Creates a log of the entries and returns its length.
fn log_length(alloc: Global, amount: Amount) -> Result<u64, BenchFault> {
    let mut disk = log_of(alloc, amount)?;
    match disk.length(alloc, 0) {
        Ok(length) => Ok(length),
        Err(_) => Err(BenchFault::Answer("log")),
    }
}

/// Opens a store on a log of the entries and returns the number of keys in its index.
fn opened(alloc: Global, amount: Amount) -> Result<u64, BenchFault> {
    let store = open(alloc, log_of(alloc, amount)?)?;
    Ok(store.index().len() as u64)
}

fn open(alloc: Global, disk: MemDisk) -> Result<Store<MemDisk>, BenchFault> {
    Store::open(alloc, disk, SETTINGS, &[]).map_err(|_| BenchFault::Answer("open"))
}

/// Returns a disk with one log of these entries, without data.
fn log_of(alloc: Global, amount: Amount) -> Result<MemDisk, BenchFault> {
    let mut disk = MemDisk::new(alloc);
    disk.create(alloc, 0).map_err(|_| BenchFault::Memory)?;
    disk.append(alloc, 0, &new_header())
        .map_err(|_| BenchFault::Memory)?;
    for number in 0..amount.count {
        let mut record = Vec::with_capacity(alloc, 20)?;
        record.extend_from_slice(&16u32.to_be_bytes())?;
        record.extend_from_slice(&short_payload(alloc, amount.ids(number))?)?;
        disk.append(alloc, 0, &record)
            .map_err(|_| BenchFault::Memory)?;
    }
    Ok(disk)
}

/// Adds the entries to a store, which keeps them in its cache. Returns its number of marks.
fn cached(alloc: Global, amount: Amount) -> Result<u64, BenchFault> {
    let mut store = open(alloc, MemDisk::new(alloc))?;
    add_all(&mut store, alloc, amount)
}

fn add_all(store: &mut Store<MemDisk>, alloc: Global, amount: Amount) -> Result<u64, BenchFault> {
    for number in 0..amount.count {
        let payload = payload(alloc, amount.ids(number))?;
        add(store, &payload)?;
    }
    Ok(store.front())
}

/// Adds N entries and deletes their ledgers, so that memory has little more than the marks. Returns
/// the number of marks.
fn marks(alloc: Global, count: u64) -> Result<u64, BenchFault> {
    let mut store = open(alloc, MemDisk::new(alloc))?;
    mark(&mut store, alloc, count)
}

fn mark(store: &mut Store<MemDisk>, alloc: Global, count: u64) -> Result<u64, BenchFault> {
    for number in 0..count {
        let payload = short_payload(alloc, (number / BATCH, number % BATCH))?;
        add(store, &payload)?;
        if number % BATCH == BATCH - 1 {
            delete(store, number / BATCH)?;
        }
    }
    Ok(store.front())
}

fn add(store: &mut Store<MemDisk>, payload: &[u8]) -> Result<(), BenchFault> {
    match store.add(payload) {
        Ok(Added::Accepted(_)) => Ok(()),
        _ => Err(BenchFault::Answer("add")),
    }
}

fn delete(store: &mut Store<MemDisk>, ledger: u64) -> Result<(), BenchFault> {
    match store.delete(ledger) {
        Ok(_) => Ok(()),
        Err(_) => Err(BenchFault::Answer("delete")),
    }
}
