//! Counted calls. Each stage is a function that is never inlined, so that its cost is counted under
//! its name.
//!
//! Each performs one kind of call for all entries, on the store or by a pass, and returns their
//! number. It fails with `Answer` if an answer differs from the expected one. Then `tell` is
//! called, so that work between two stages is not counted.

use crate::CallersFault;
use crate::entries::{keys, payloads};
use crate::reads::{Held, lease_each};
use crate::serving::{SETTINGS, flush, published, swapped, wrote};
use bk_bookie::{AddLedger, Bookie, Pass};
use bk_disk::MemDisk;
use bk_drive::{Work, apply};
use bk_record::Key;
use bk_store::{Added, Store, Taken};
use std::alloc::Global;
use std::io;
use std::io::Print;
use std::sync::Wait;

/// Runs all stages with N entries, first on a store, then by one pass of the bookie.
pub(crate) fn count_calls<L: AddLedger, R: Wait + Print>(
    rt: &R,
    alloc: Global,
    bookie: &Bookie<L, MemDisk>,
    count: u64,
) -> Result<(), CallersFault> {
    let keys = keys(alloc, count)?;
    let payloads = payloads(alloc, count)?;
    count_store(rt, alloc, &keys, &payloads)?;
    count_pass(rt, alloc, bookie, &keys, &payloads)
}

/// The stages of a store that is not shared.
fn count_store<R: Print>(
    rt: &R,
    alloc: Global,
    keys: &[Key],
    payloads: &[[u8; 100]],
) -> Result<(), CallersFault> {
    let Ok(mut store) = Store::open(alloc, MemDisk::new(alloc), SETTINGS, &[]) else {
        return Err(CallersFault::Answer("open"));
    };
    count_own(rt, &mut store, keys, payloads)
}

fn count_own<R: Print>(
    rt: &R,
    store: &mut Store<MemDisk>,
    keys: &[Key],
    payloads: &[[u8; 100]],
) -> Result<(), CallersFault> {
    let added = store_add(store, payloads)?;
    tell(rt, "store_add", added)?;
    let taken = store_cached(store, keys)?;
    tell(rt, "store_cached", taken)?;
    flush_store(store)?;
    let leased = store_leased(store, keys)?;
    tell(rt, "store_leased", leased)?;
    Ok(())
}

/// Flushes the cache of a store.
fn flush_store(store: &mut Store<MemDisk>) -> Result<(), CallersFault> {
    for _ in 0..swapped(&apply(store, Work::Swap))? {
        wrote(&apply(store, Work::WriteOne))?;
    }
    published(&apply(store, Work::Publish))
}

/// The stages of one pass, with no other caller, and of reads by leases that are held.
fn count_pass<L: AddLedger, R: Wait + Print>(
    rt: &R,
    alloc: Global,
    bookie: &Bookie<L, MemDisk>,
    keys: &[Key],
    payloads: &[[u8; 100]],
) -> Result<(), CallersFault> {
    let Ok(mut pass) = bookie.pass(rt) else {
        return Err(CallersFault::Answer("pass"));
    };
    let pass = &mut pass;
    let added = pass_add(rt, bookie, pass, payloads)?;
    tell(rt, "pass_add", added)?;
    let taken = pass_cached(rt, bookie, pass, keys)?;
    tell(rt, "pass_cached", taken)?;
    flush(rt, bookie)?;
    let leased = pass_leased(rt, bookie, pass, keys)?;
    tell(rt, "pass_leased", leased)?;
    let held = lease_each(rt, alloc, bookie, pass, keys)?;
    let read = held_read(alloc, &held);
    tell(rt, "held_read", read)?;
    Ok(())
}

/// Prints the result of a stage, which has ended.
#[inline(never)]
pub(crate) fn tell<R: Print>(rt: &R, stage: &str, count: u64) -> io::Result<()> {
    println!(rt; "{stage} {count}")
}

/// Adds each payload to a store.
#[inline(never)]
fn store_add(store: &mut Store<MemDisk>, payloads: &[[u8; 100]]) -> Result<u64, CallersFault> {
    let mut count = 0u64;
    for payload in payloads {
        let Ok(Added::Accepted(_)) = store.add(payload) else {
            return Err(CallersFault::Answer("store_add"));
        };
        count = count.saturating_add(1);
    }
    Ok(count)
}

/// Adds each payload by a pass.
#[inline(never)]
fn pass_add<L: AddLedger, R: Wait>(
    rt: &R,
    bookie: &Bookie<L, MemDisk>,
    pass: &mut Pass<L>,
    payloads: &[[u8; 100]],
) -> Result<u64, CallersFault> {
    let mut count = 0u64;
    for payload in payloads {
        let Ok(Added::Accepted(_)) = bookie.add(rt, pass, payload) else {
            return Err(CallersFault::Answer("pass_add"));
        };
        count = count.saturating_add(1);
    }
    Ok(count)
}

/// Takes each key from the write cache of a store.
#[inline(never)]
fn store_cached(store: &mut Store<MemDisk>, keys: &[Key]) -> Result<u64, CallersFault> {
    let mut count = 0u64;
    for key in keys {
        let Ok(Taken::Cached(_)) = store.take(*key) else {
            return Err(CallersFault::Answer("store_cached"));
        };
        count = count.saturating_add(1);
    }
    Ok(count)
}

/// Takes each key from the write cache by a pass.
#[inline(never)]
fn pass_cached<L: AddLedger, R: Wait>(
    rt: &R,
    bookie: &Bookie<L, MemDisk>,
    pass: &mut Pass<L>,
    keys: &[Key],
) -> Result<u64, CallersFault> {
    let mut count = 0u64;
    for key in keys {
        let Ok(Taken::Cached(_)) = bookie.take(rt, pass, *key) else {
            return Err(CallersFault::Answer("pass_cached"));
        };
        count = count.saturating_add(1);
    }
    Ok(count)
}

/// Takes a lease for each key from a store and releases it.
#[inline(never)]
fn store_leased(store: &mut Store<MemDisk>, keys: &[Key]) -> Result<u64, CallersFault> {
    let mut count = 0u64;
    for key in keys {
        let Ok(Taken::Leased(lease, _)) = store.take(*key) else {
            return Err(CallersFault::Answer("store_leased"));
        };
        lease.release().end();
        count = count.saturating_add(1);
    }
    Ok(count)
}

/// Takes a lease for each key by a pass and releases it.
#[inline(never)]
fn pass_leased<L: AddLedger, R: Wait>(
    rt: &R,
    bookie: &Bookie<L, MemDisk>,
    pass: &mut Pass<L>,
    keys: &[Key],
) -> Result<u64, CallersFault> {
    let mut count = 0u64;
    for key in keys {
        let Ok(Taken::Leased(lease, _)) = bookie.take(rt, pass, *key) else {
            return Err(CallersFault::Answer("pass_leased"));
        };
        lease.release().end();
        count = count.saturating_add(1);
    }
    Ok(count)
}

/// Reads by each of these leases. Returns the number of entries read.
#[inline(never)]
fn held_read(alloc: Global, held: &[Held]) -> u64 {
    let mut count = 0u64;
    for held in held {
        if held.is_read(alloc) {
            count = count.saturating_add(1);
        }
    }
    count
}
