//! Pages over both write caches, several logs and the pages of the index; deleted and fenced
//! ledgers.

use super::store;
use bk_disk::MemDisk;
use bk_record::Key;
use bk_store::{Fence, LogBytes, Stats, Store};
use std::alloc::AllocError;
use std::process::Abort;
use std::test::Fail;

/// Returns whether a page of entries is this one.
fn has_page(
    store: &Store<MemDisk>,
    ledger: u64,
    from: u64,
    most: usize,
    page: &[u64],
) -> Result<bool, AllocError> {
    Ok(store.entries(ledger, from, most)?.as_slice() == page)
}

/// Returns whether a page of ledgers is this one.
fn has_ledgers(
    store: &Store<MemDisk>,
    from: u64,
    most: usize,
    page: &[u64],
) -> Result<bool, AllocError> {
    Ok(store.ledgers(from, most)?.as_slice() == page)
}

/// Reads ledger 1 in pages of this length. Returns the number of entries up to the first that is
/// not one more than the entry before it.
fn walked(store: &Store<MemDisk>, most: usize) -> Result<u64, AllocError> {
    let mut next = 0;
    for _ in 0..1000 {
        let page = store.entries(1, next, most)?;
        for entry in &page {
            if *entry != next || next >= 10_000 {
                return Ok(next);
            }
            next += 1;
        }
        if page.len() < most {
            return Ok(next);
        }
    }
    Ok(next)
}

#[test]
fn pages_have_every_entry_once(rt: HostRuntime) -> Result<(), Fail> {
    let Some(store) = store(rt.alloc()) else {
        panic!(rt; "no store");
    };
    for most in [1, 7, 128, 256, 713, 1000] {
        assert_eq!(rt; walked(&store, most)?, 713);
    }
    Ok(())
}

/// Pages of entries: a ledger, the first id, the most ids, and the page.
const PAGES: [(u64, u64, usize, &[u64]); 9] = [
    (1, 127, 3, &[127, 128, 129]),
    (1, 255, 3, &[255, 256, 257]),
    (1, 599, 2, &[599, 600]),
    (1, 699, 2, &[699, 700]),
    (1, 706, 9, &[706, 707, 708, 709, 710, 711, 712]),
    (1, 713, 9, &[]),
    (1, u64::MAX, 9, &[]),
    (1, 0, 0, &[]),
    (2, 0, 9, &[5, 9]),
];

#[test]
fn pages_go_over_caches_logs_and_index_pages(rt: HostRuntime) -> Result<(), Fail> {
    let Some(store) = store(rt.alloc()) else {
        panic!(rt; "no store");
    };
    for (ledger, from, most, page) in &PAGES {
        assert!(rt;
            has_page(&store, *ledger, *from, *most, page)?,
            "page from {from}"
        );
    }
    Ok(())
}

/// Ledgers, and the last entry of each.
const LAST: [(u64, Option<u64>); 7] = [
    (1, Some(712)),
    (2, Some(9)),
    (3, Some(0)),
    (4, None),
    (5, None),
    (7, Some(3)),
    (u64::MAX, None),
];

#[test]
fn last_entries_are_of_caches_and_index_together(rt: HostRuntime) {
    let Some(store) = store(rt.alloc()) else {
        panic!(rt; "no store");
    };
    for (ledger, last) in &LAST {
        assert!(rt; store.last_entry(*ledger) == *last, "ledger {ledger}");
    }
}

/// Pages of ledgers: the first id, the most ids, and the page.
const LEDGERS: [(u64, usize, &[u64]); 5] = [
    (0, 9, &[1, 2, 3, 7]),
    (2, 2, &[2, 3]),
    (4, 9, &[7]),
    (8, 9, &[]),
    (u64::MAX, 9, &[]),
];

#[test]
fn ledgers_are_the_live_ones_with_an_entry(rt: HostRuntime) -> Result<(), Fail> {
    let Some(store) = store(rt.alloc()) else {
        panic!(rt; "no store");
    };
    for (from, most, page) in &LEDGERS {
        assert!(rt;
            has_ledgers(&store, *from, *most, page)?,
            "ledgers from {from}"
        );
    }
    Ok(())
}

/// Deletes ledger 1. Returns whether no page has it or an entry of it then.
fn hides_deleted(store: &mut Store<MemDisk>) -> Result<bool, AllocError> {
    if store.delete(1) != Ok(713) || store.last_entry(1).is_some() {
        return Ok(false);
    }
    Ok(has_ledgers(store, 0, 9, &[2, 3, 7])? && has_page(store, 1, 0, 9, &[])?)
}

#[test]
fn a_deleted_ledger_is_in_no_page(rt: HostRuntime) -> Result<(), Fail> {
    let Some(mut store) = store(rt.alloc()) else {
        panic!(rt; "no store");
    };
    assert!(rt; hides_deleted(&mut store)?);
    Ok(())
}

/// Keys, and whether the store holds them.
const HELD: [(u64, u64, bool); 4] = [(2, 5, true), (2, 9, true), (2, 6, false), (4, 0, false)];

/// Returns whether the store holds each of these keys as it should.
fn holds_all(store: &Store<MemDisk>, keys: &[(u64, u64, bool)]) -> bool {
    for (ledger, entry, is_held) in keys {
        match Key::new(*ledger, *entry) {
            Some(key) if store.holds(&key) == *is_held => {}
            _ => return false,
        }
    }
    true
}

/// Fences ledger 2. Returns whether the store holds what it held before.
fn shows_fenced(store: &mut Store<MemDisk>) -> Result<bool, AllocError> {
    if store.fence(2) != Ok(Fence::Fenced) || !store.is_fenced(2) || store.is_fenced(1) {
        return Ok(false);
    }
    Ok(holds_all(store, &HELD) && has_page(store, 2, 0, 9, &[5, 9])?)
}

#[test]
fn a_fence_hides_no_entry(rt: HostRuntime) -> Result<(), Fail> {
    let Some(mut store) = store(rt.alloc()) else {
        panic!(rt; "no store");
    };
    assert!(rt; shows_fenced(&mut store)?);
    Ok(())
}

/// What the store counts.
const COUNTS: Stats = Stats {
    logs: 2,
    next: 4,
    indexed: 702,
    cached: 119,
    flushing: 136,
    front: 15,
    durable: 0,
    failures: 0,
};

#[test]
fn counts_are_those_of_the_store(rt: HostRuntime) {
    let Some(store) = store(rt.alloc()) else {
        panic!(rt; "no store");
    };
    assert!(rt; store.stats() == COUNTS);
}

/// The bytes of the logs.
const BYTES: LogBytes = LogBytes {
    total: 14_763,
    live: 14_742,
};

/// Deletes ledger 7. Returns whether the bytes of the logs are right before and after.
fn counts_bytes(store: &mut Store<MemDisk>) -> bool {
    store.bytes() == BYTES && store.delete(7) == Ok(1) && store.bytes().live == 14_721
}

#[test]
fn bytes_are_those_of_the_logs(rt: HostRuntime) {
    let Some(mut store) = store(rt.alloc()) else {
        panic!(rt; "no store");
    };
    assert!(rt; counts_bytes(&mut store));
}
