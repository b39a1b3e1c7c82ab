//! A page for which memory is refused is an error, and the next call returns it.

use super::{SETTINGS, add, make, put};
use bk_disk::MemDisk;
use bk_store::Store;
use std::alloc::Global;
use std::process::Abort;
use std::test::Fail;

/// Returns a store with entries 0 to 2 of ledger 1 in a log, and 3 to 5 and entry 0 of ledger 2 in
/// the active cache. Returns `None` if a call failed.
fn small(alloc: Global) -> Option<Store<MemDisk>> {
    let mut disk = MemDisk::new(alloc);
    make(alloc, &mut disk, 0).ok()?;
    put(alloc, &mut disk, 0, 1, 0, 3).ok()?;
    let mut store = Store::open(alloc, disk, SETTINGS, &[]).ok()?;
    if add(&mut store, 1, 3, 6).ok()? && add(&mut store, 2, 0, 1).ok()? {
        Some(store)
    } else {
        None
    }
}

/// Returns the same store, made again if memory was refused once.
fn made(alloc: Global) -> Option<Store<MemDisk>> {
    match small(alloc) {
        Some(store) => Some(store),
        None => small(alloc),
    }
}

#[test]
fn a_page_without_memory_is_read_again(rt: HostRuntime) -> Result<(), Fail> {
    let Some(store) = made(rt.alloc()) else {
        panic!(rt; "no store");
    };
    let entries = match store.entries(1, 1, 9) {
        Ok(entries) => entries,
        Err(_) => store.entries(1, 1, 9)?,
    };
    assert_eq!(rt; entries.as_slice(), [1, 2, 3, 4, 5].as_slice());
    let ledgers = match store.ledgers(0, 9) {
        Ok(ledgers) => ledgers,
        Err(_) => store.ledgers(0, 9)?,
    };
    assert_eq!(rt; ledgers.as_slice(), [1, 2].as_slice());
    Ok(())
}
