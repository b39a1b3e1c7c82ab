//! Memory refused once, in any of the calls of a log with a hint: an opening fails, or has each
//! entry, and a hint that is not used then is so for memory alone.
//!
//! The gate refuses each allocation in turn (`.ci/refusals.txt`).

use super::logs::{SETTINGS, SMALL, SMALL_LOG, has, write};
use bk_disk::MemDisk;
use bk_hint_disk::{HintedDisk, MakeFault, MemHints, WhyNot};
use bk_store::Store;
use std::alloc::Global;
use std::process::Abort;
use std::test::Fail;

/// Writes the hint of the small log, again if memory is refused. Returns whether it was written.
fn hinted(alloc: Global, disk: &mut HintedDisk<MemDisk, MemHints>) -> Option<bool> {
    let log = u32::from(SMALL_LOG);
    match disk.write_hint(alloc, log) {
        Ok(written) => Some(written),
        Err(MakeFault::Memory) => disk.write_hint(alloc, log).ok(),
        Err(_) => Some(false),
    }
}

/// Makes the small log and its hint, and opens a store. Returns whether that has its entries, and
/// whether each hint that was not used was so for memory. `None` if memory was refused.
fn life(alloc: Global) -> Option<(bool, bool)> {
    let mut disk = HintedDisk::new(alloc, MemDisk::new(alloc), MemHints::new(alloc));
    write(alloc, &mut disk, SMALL_LOG, &SMALL, true)?;
    if !hinted(alloc, &mut disk)? {
        return Some((false, false));
    }
    let mut store = Store::open(alloc, disk, SETTINGS, &[]).ok()?;
    let is_memory = match store.disk().unused() {
        [] => true,
        [unused] => unused.why == WhyNot::Memory,
        _ => false,
    };
    let has_all = store.stats().indexed == 3 && has(&mut store, SMALL_LOG, &SMALL);
    Some((has_all, is_memory))
}

#[test]
fn an_opening_without_memory_has_each_entry(rt: HostRuntime) -> Result<(), Fail> {
    let alloc = rt.alloc();
    let lived = match life(alloc) {
        Some(lived) => Some(lived),
        None => life(alloc),
    };
    assert_eq!(rt; lived, Some((true, true)));
    Ok(())
}
