//! A store that is opened over hints reads few bytes.

use super::logs::{Entry, SETTINGS, has, hint_of, write};
use super::loose::LooseHints;
use super::meter::{Meter, MeterDisk};
use bk_disk::{LogDisk, MemDisk};
use bk_hint_disk::{HintedDisk, Hints};
use bk_store::Store;
use std::alloc::Global;
use std::process::Abort;
use std::sync::Arc;
use std::test::Fail;

/// Returns 300 entries with payloads of 1 KiB, of two ledgers, in turn as flushes write them.
fn entries(alloc: Global) -> Option<Vec<Entry>> {
    let mut entries = Vec::new(alloc);
    for flush in 0..3u64 {
        for ledger in [1u64, 2] {
            for entry in 0..50u64 {
                entries.push((ledger, flush * 50 + entry, 1008)).ok()?;
            }
        }
    }
    Some(entries)
}

/// A disk that counts, with one log of these entries; the hint of the log; and the counts.
fn made(alloc: Global) -> Option<(MeterDisk<MemDisk>, Vec<u8>, Arc<Meter>)> {
    let meter = Meter::new(alloc).ok()?;
    let mut disk = MeterDisk::new(MemDisk::new(alloc), &meter)?;
    write(alloc, &mut disk, 1, &entries(alloc)?, true)?;
    let hint = hint_of(alloc, &mut disk, 1)?;
    Some((disk, hint, meter))
}

/// Opens a store. Returns how many bytes were read, `None` if the store has not each entry.
fn read_by<D: LogDisk>(alloc: Global, disk: D, meter: &Arc<Meter>) -> Option<u64> {
    let before = meter.bytes();
    let mut store = Store::open(alloc, disk, SETTINGS, &[]).ok()?;
    let read = meter.bytes().wrapping_sub(before);
    if store.stats().indexed != 300 || !has(&mut store, 1, &entries(alloc)?) {
        return None;
    }
    Some(read)
}

/// Returns the length of the log, and the bytes of log and hint that an opening reads with the hint
/// and without it.
fn counted(alloc: Global) -> Option<(u64, u64, u64)> {
    let (mut disk, hint, meter) = made(alloc)?;
    let length = disk.length(alloc, 1).ok()?;
    let mut hints = LooseHints::new(alloc);
    hints.put(alloc, 1, &hint).ok()?;
    let hinted = read_by(alloc, HintedDisk::new(alloc, disk, hints), &meter)?;
    let (disk, _, meter) = made(alloc)?;
    let plain = read_by(alloc, disk, &meter)?;
    Some((length, hinted.wrapping_add(hint.len() as u64), plain))
}

#[test]
fn an_opening_over_hints_reads_a_hundredth(rt: HostRuntime) -> Result<(), Fail> {
    let (length, hinted, plain) = counted(rt.alloc()).expect(&rt, "a store");
    assert_eq!(rt; length, 309_480);
    assert!(rt; hinted <= 3094, "{hinted} bytes");
    assert!(rt; plain >= 6000, "{plain} bytes");
    Ok(())
}
