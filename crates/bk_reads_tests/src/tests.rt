//! A store over two logs whose entries fill several pages of the index, with entries in both write
//! caches.

use bk_disk::{DiskFault, LogDisk, MemDisk};
use bk_store::{AddFault, Added, Settings, Store, SwapAnswer};
use std::alloc::{AllocError, Global};

mod counts;
mod pages;
mod refused;

/// Settings of these tests.
const SETTINGS: Settings = Settings {
    log_limit: 1_048_576,
    cache_limit: 1_048_576,
    recent: 0,
    slots: 4,
    leases: 4,
    minor: 200,
    major: 800,
};

/// Creates a log that has a header without a map, and nothing else.
fn make(alloc: Global, disk: &mut MemDisk, log: u8) -> Result<(), DiskFault> {
    let log = u32::from(log);
    disk.create(alloc, log)?;
    disk.append(alloc, log, b"BKLO\0\0\0\x01")?;
    disk.append(alloc, log, &[0; 1016])
}

/// Returns the payload of an entry: its ids and one byte.
fn payload(ledger: u64, entry: u64) -> [u8; 17] {
    let mut bytes = [7; 17];
    bytes[..8].copy_from_slice(&ledger.to_be_bytes());
    bytes[8..16].copy_from_slice(&entry.to_be_bytes());
    bytes
}

/// Appends the records of the entries of a ledger from one id up to, not including, another.
fn put(
    alloc: Global,
    disk: &mut MemDisk,
    log: u32,
    ledger: u64,
    from: u64,
    to: u64,
) -> Result<(), DiskFault> {
    for entry in from..to {
        disk.append(alloc, log, b"\0\0\0\x11")?;
        disk.append(alloc, log, &payload(ledger, entry))?;
    }
    Ok(())
}

/// Returns a disk with entries 0 to 599 of ledger 1, 5 of ledger 2 and 0 of ledger 4 in log 0, and
/// with entries 600 to 699 of ledger 1 and 3 of ledger 7 in log 3.
fn disk(alloc: Global) -> Result<MemDisk, DiskFault> {
    let mut disk = MemDisk::new(alloc);
    make(alloc, &mut disk, 0)?;
    put(alloc, &mut disk, 0, 1, 0, 600)?;
    put(alloc, &mut disk, 0, 2, 5, 6)?;
    put(alloc, &mut disk, 0, 4, 0, 1)?;
    make(alloc, &mut disk, 3)?;
    put(alloc, &mut disk, 3, 1, 600, 700)?;
    put(alloc, &mut disk, 3, 7, 3, 4)?;
    Ok(disk)
}

/// Adds the entries of a ledger from one id up to, not including, another. Returns whether each was
/// accepted.
fn add(store: &mut Store<MemDisk>, ledger: u64, from: u64, to: u64) -> Result<bool, AllocError> {
    for entry in from..to {
        match store.add(&payload(ledger, entry)) {
            Ok(Added::Accepted(_)) => {}
            Err(AddFault::Memory) => return Err(AllocError),
            Ok(Added::Held) | Err(_) => return Ok(false),
        }
    }
    Ok(true)
}

/// A ledger, and its entries from one id up to, not including, another.
type Part = (u64, u64, u64);

/// What is in the flushing cache.
const FLUSHING: [Part; 2] = [(1, 700, 707), (3, 0, 1)];

/// What is in the active cache.
const ACTIVE: [Part; 2] = [(1, 707, 713), (2, 9, 10)];

/// Adds the entries of these parts. Returns whether each was accepted.
fn add_all(store: &mut Store<MemDisk>, parts: &[Part]) -> Result<bool, AllocError> {
    for (ledger, from, to) in parts {
        if !add(store, *ledger, *from, *to)? {
            return Ok(false);
        }
    }
    Ok(true)
}

/// Fills the caches of a store. Returns whether each call did what it should.
fn fill(store: &mut Store<MemDisk>) -> Result<bool, AllocError> {
    if !add_all(store, &FLUSHING)? || store.swap() != SwapAnswer::Swapped(8) {
        return Ok(false);
    }
    add_all(store, &ACTIVE)
}

/// Returns the store of these tests: ledger 4 is deleted, entries 700 to 706 of ledger 1 and 0 of
/// ledger 3 are in the flushing cache, entries 707 to 712 of ledger 1 and 9 of ledger 2 in the active
/// one. Returns `None` if a call failed.
fn store(alloc: Global) -> Option<Store<MemDisk>> {
    let disk = disk(alloc).ok()?;
    let mut store = Store::open(alloc, disk, SETTINGS, &[4]).ok()?;
    if fill(&mut store) == Ok(true) {
        Some(store)
    } else {
        None
    }
}
