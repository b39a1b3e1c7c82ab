//! Concurrent readers, each a thread: by leases that they hold, which needs no lock, and by one
//! lease per read.

use crate::CallersFault;
use crate::entries::payload;
use crate::serving::{flush, tell_time};
use crate::words::Asked;
use bk_bookie::{AddLedger, Bookie, Pass};
use bk_disk::{LogDisk, MemDisk};
use bk_lease::Lease;
use bk_log::fetch;
use bk_record::{Key, Location};
use bk_store::{Added, Taken};
use std::alloc::Global;
use std::io::{Eprint, Print};
use std::rt::Clock;
use std::sync::Wait;
use std::thread;
use std::thread::Threads;
use std::time::Instant;

/// The ledger whose entries are read.
const LEDGER: u64 = 2000;

/// Number of its entries.
const ENTRIES: u64 = 1000;

/// A lease and the location and key of its entry.
#[derive(Drop)]
pub(crate) struct Held {
    lease: Lease<<MemDisk as LogDisk>::View>,
    location: Location,
    key: Key,
}

impl Held {
    /// Takes an entry of a log. Fails with `Answer` if the result is not a lease.
    pub(crate) fn take<L: AddLedger, R: Wait>(
        rt: &R,
        bookie: &Bookie<L, MemDisk>,
        pass: &mut Pass<L>,
        key: Key,
    ) -> Result<Held, CallersFault> {
        match bookie.take(rt, pass, key) {
            Ok(Taken::Leased(lease, location)) => Ok(Held {
                lease,
                location,
                key,
            }),
            _ => Err(CallersFault::Answer("take")),
        }
    }

    /// Returns whether the entry is read by the lease.
    pub(crate) fn is_read(&self, alloc: Global) -> bool {
        fetch(self.lease.view(), alloc, self.location, self.key).is_ok()
    }

    /// Releases the lease.
    pub(crate) fn release(self) {
        self.lease.release().end();
    }
}

/// Runs N concurrent readers: first with leases granted before, then with a new lease for each
/// read.
pub(crate) fn read_all<
    L: AddLedger + Send + Sync,
    R: Threads + Wait + Sync + Print + Eprint + Clock,
>(rt: &R, alloc: Global, bookie: &Bookie<L, MemDisk>, asked: Asked) -> Result<(), CallersFault> {
    let Asked { callers, count, .. } = asked;
    let keys = fill(rt, alloc, bookie)?;
    let readers = lease_all(rt, alloc, bookie, &keys, callers)?;
    let start = Instant::now(rt)?;
    let held = thread::map_vec(rt, readers, &|held| read_held(alloc, held, count))?;
    tell_time(rt, "held", &held, start)?;
    let keys = &keys;
    let start = Instant::now(rt)?;
    let leased = thread::map_indices(
        rt,
        alloc,
        callers as usize,
        &|_| read_leased(rt, alloc, bookie, keys, count),
    )?;
    tell_time(rt, "leased", &leased, start)
}

/// Adds the entries and flushes them to a log. Returns their keys.
fn fill<L: AddLedger, R: Wait>(
    rt: &R,
    alloc: Global,
    bookie: &Bookie<L, MemDisk>,
) -> Result<Vec<Key>, CallersFault> {
    let Ok(mut pass) = bookie.pass(rt) else {
        return Err(CallersFault::Answer("pass"));
    };
    let mut keys = Vec::new(alloc);
    for entry in 0..ENTRIES {
        let Ok(Added::Accepted(receipt)) = bookie.add(rt, &mut pass, &payload(LEDGER, entry)) else {
            return Err(CallersFault::Answer("add"));
        };
        keys.push(receipt.key).map_err(|_| CallersFault::Memory)?;
    }
    flush(rt, bookie)?;
    Ok(keys)
}

/// Takes leases on all these entries for N readers.
fn lease_all<L: AddLedger, R: Wait>(
    rt: &R,
    alloc: Global,
    bookie: &Bookie<L, MemDisk>,
    keys: &[Key],
    readers: u32,
) -> Result<Vec<Vec<Held>>, CallersFault> {
    let Ok(mut pass) = bookie.pass(rt) else {
        return Err(CallersFault::Answer("pass"));
    };
    let mut all = Vec::new(alloc);
    for _ in 0..readers {
        let leases = lease_each(rt, alloc, bookie, &mut pass, keys)?;
        all.push(leases).map_err(|_| CallersFault::Memory)?;
    }
    Ok(all)
}

/// Takes a lease on each of these entries.
pub(crate) fn lease_each<L: AddLedger, R: Wait>(
    rt: &R,
    alloc: Global,
    bookie: &Bookie<L, MemDisk>,
    pass: &mut Pass<L>,
    keys: &[Key],
) -> Result<Vec<Held>, CallersFault> {
    let mut leases = Vec::new(alloc);
    for key in keys {
        let held = Held::take(rt, bookie, pass, *key)?;
        leases.push(held).map_err(|_| CallersFault::Memory)?;
    }
    Ok(leases)
}

/// Reads `count` times, with one held lease after another. Returns the number of entries read.
fn read_held(alloc: Global, held: Vec<Held>, count: u64) -> u64 {
    let mut read = 0u64;
    for number in 0..count {
        let Some(held) = held.get((number % ENTRIES) as usize) else {
            return read;
        };
        if held.is_read(alloc) {
            read = read.saturating_add(1);
        }
    }
    read
}

/// Reads `count` times, with a new lease each time. Returns the number of entries read.
fn read_leased<L: AddLedger, R: Wait>(
    rt: &R,
    alloc: Global,
    bookie: &Bookie<L, MemDisk>,
    keys: &[Key],
    count: u64,
) -> u64 {
    let Ok(mut pass) = bookie.pass(rt) else {
        return 0;
    };
    let mut read = 0u64;
    for number in 0..count {
        let Some(key) = keys.get((number % ENTRIES) as usize) else {
            return read;
        };
        let Ok(held) = Held::take(rt, bookie, &mut pass, *key) else {
            return read;
        };
        if held.is_read(alloc) {
            read = read.saturating_add(1);
        }
        held.release();
    }
    read
}
