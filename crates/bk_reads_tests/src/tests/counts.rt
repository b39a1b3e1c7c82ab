//! Counts of a store that change: failures of the device, and leases that are out.

use super::{SETTINGS, store};
use bk_disk::{FaultDisk, MemDisk, MemView};
use bk_record::Key;
use bk_store::{LogState, MakeFault, Store, Taken};
use std::alloc::Global;
use std::process::Abort;

/// Returns a store over a disk without logs, whose second call fails: the first one lists the logs.
fn failing(alloc: Global) -> Option<Store<FaultDisk<MemDisk>>> {
    let disk = FaultDisk::new(MemDisk::new(alloc), 2, 0);
    Store::open(alloc, disk, SETTINGS, &[]).ok()
}

/// Creates two logs, of which the first fails. Returns the failures that are counted before, between
/// and after.
fn failures(store: &mut Store<FaultDisk<MemDisk>>) -> Option<[u64; 3]> {
    let before = store.stats().failures;
    if store.create_log(LogState::Copying) != Err(MakeFault::Disk) {
        return None;
    }
    let between = store.stats().failures;
    if store.create_log(LogState::Copying) != Ok(1) {
        return None;
    }
    Some([before, between, store.stats().failures])
}

#[test]
fn failures_of_the_device_are_counted(rt: HostRuntime) {
    let Some(mut store) = failing(rt.alloc()) else {
        panic!(rt; "no store");
    };
    assert!(rt; failures(&mut store) == Some([0, 1, 1]));
}

/// Returns a lease on the log that has an entry, or `None`.
fn lease(store: &mut Store<MemDisk>, ledger: u64, entry: u64) -> Option<Taken<MemView>> {
    let taken = store.take(Key::new(ledger, entry)?).ok()?;
    if matches!(&taken, Taken::Leased(_, _)) {
        Some(taken)
    } else {
        None
    }
}

/// Takes two leases on one log and one on another, and drops one of each log. Returns the leases
/// that are counted before, after each of the takes, and after each of the drops.
fn leases(store: &mut Store<MemDisk>) -> Option<[u64; 6]> {
    let before = store.count_leases();
    let first = lease(store, 1, 0)?;
    let one = store.count_leases();
    let again = lease(store, 1, 599)?;
    let other = lease(store, 7, 3)?;
    let three = store.count_leases();
    drop(first);
    let two = store.count_leases();
    drop(other);
    let last = store.count_leases();
    drop(again);
    Some([before, one, three, two, last, store.count_leases()])
}

#[test]
fn leases_that_are_out_are_counted(rt: HostRuntime) {
    let Some(mut store) = store(rt.alloc()) else {
        panic!(rt; "no store");
    };
    assert!(rt; leases(&mut store) == Some([0, 1, 3, 2, 1, 0]));
}
