//! Single adds at a given length of the trail.

use crate::BenchFault;
use crate::entries::payload;
use crate::stages::{SETTINGS, one_add, tell};
use bk_disk::MemDisk;
use bk_store::Store;

/// Number of adds at each length: two that reach it and two after it.
const ADDS: u64 = 4;

/// Performs single adds each time the trail reaches one of these lengths, which rise. All other
/// marks are fences: they have no digest, so they are cheap to append.
pub(crate) fn run(rt: &HostRuntime, lengths: &[u64]) -> Result<(), BenchFault> {
    let alloc = rt.alloc();
    let Ok(mut store) = Store::open(alloc, MemDisk::new(alloc), SETTINGS, &[]) else {
        return Err(BenchFault::Answer("open"));
    };
    add_at(rt, &mut store, lengths)
}

fn add_at(rt: &HostRuntime, store: &mut Store<MemDisk>, lengths: &[u64]) -> Result<(), BenchFault> {
    for length in lengths {
        fence_until(store, length.saturating_sub(ADDS / 2))?;
        for _ in 0..ADDS {
            add_next(rt, store)?;
        }
    }
    Ok(())
}

/// Adds one entry, whose id is the number of its mark.
fn add_next(rt: &HostRuntime, store: &mut Store<MemDisk>) -> Result<(), BenchFault> {
    let number = store.front();
    let payload = payload(rt.alloc(), (1, number))?;
    one_add(store, &payload)?;
    tell(rt, "add", number)?;
    Ok(())
}

/// Fences ledgers, one mark each, until the trail has this length.
fn fence_until(store: &mut Store<MemDisk>, length: u64) -> Result<(), BenchFault> {
    for number in store.front()..length {
        if store.fence(u64::MAX - number).is_err() {
            return Err(BenchFault::Answer("fence"));
        }
    }
    Ok(())
}
