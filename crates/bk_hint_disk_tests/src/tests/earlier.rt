//! Hints of an earlier log of the same id, with the same length, header and ledgers map: only the
//! records differ, of which at most 16 are compared.

use super::logs::{Entry, Opened, SMALL_LOG, hint_of, open_with, small_hint, write};
use super::loose::LooseHints;
use super::meter::{Meter, MeterDisk};
use bk_disk::{LogDisk, MemDisk};
use bk_hint_disk::{HintedDisk, Hints, WhyNot, check_hint};
use std::alloc::Global;
use std::process::Abort;
use std::sync::Arc;
use std::test::Fail;

/// Entries of earlier logs with the length and ledgers map of the small log: other ids, another
/// order, other sizes.
pub(super) const EARLIER: [[Entry; 3]; 5] = [
    [(1, 1, 4), (1, 0, 4), (2, 9, 0)],
    [(1, 0, 4), (1, 1, 4), (2, 8, 0)],
    [(2, 9, 0), (1, 0, 4), (1, 1, 4)],
    [(1, 0, 4), (2, 9, 0), (1, 1, 4)],
    [(1, 0, 0), (1, 1, 8), (2, 9, 0)],
];

#[test]
fn a_hint_of_an_earlier_log_is_refused(rt: HostRuntime) -> Result<(), Fail> {
    let alloc = rt.alloc();
    for (number, entries) in EARLIER.iter().enumerate() {
        let hint = small_hint(alloc, entries).expect(&rt, "a hint");
        assert_eq!(rt;
            open_with(alloc, &hint),
            Opened::Without(WhyNot::OtherRecords),
            "log {number}"
        );
    }
    Ok(())
}

/// Returns whether the hint of an earlier log is gone after a log of its id was made.
fn is_dropped(alloc: Global, hint: &[u8]) -> Option<bool> {
    let log = u32::from(SMALL_LOG);
    let mut hints = LooseHints::new(alloc);
    hints.put(alloc, log, hint).ok()?;
    let mut disk = HintedDisk::new(alloc, MemDisk::new(alloc), hints);
    write(alloc, &mut disk, SMALL_LOG, &EARLIER[0], true)?;
    disk.list(alloc).ok()?;
    let view = disk.view(alloc, log).ok()?;
    Some(view.table.is_none() && disk.unused().is_empty())
}

#[test]
fn a_log_that_is_made_drops_the_hint_of_its_id(rt: HostRuntime) -> Result<(), Fail> {
    let alloc = rt.alloc();
    let hint = small_hint(alloc, &EARLIER[0]).expect(&rt, "a hint");
    assert_eq!(rt; is_dropped(alloc, &hint), Some(true));
    Ok(())
}

/// Returns so many entries of one ledger and one size. That of one place has another id, if there is
/// such a place.
fn run(alloc: Global, count: u16, odd: u16) -> Option<Vec<Entry>> {
    let mut entries = Vec::new(alloc);
    for place in 0..count {
        let id = if place == odd { 999 } else { u64::from(place) };
        entries.push((1, id, 4)).ok()?;
    }
    Some(entries)
}

/// Returns whether a hint with another entry at this place is refused for the records of a log of
/// `run`.
fn is_refused(alloc: Global, disk: &mut MeterDisk<MemDisk>, count: u16, odd: u16) -> Option<bool> {
    let log = u32::from(SMALL_LOG);
    let hint = small_hint(alloc, &run(alloc, count, odd)?)?;
    let header = disk.read_at(alloc, log, 0, 1024).ok()?;
    let view = disk.view(alloc, log).ok()?;
    match check_hint(alloc, &hint, log, &header, &view) {
        Ok(_) => Some(false),
        Err(WhyNot::OtherRecords) => Some(true),
        Err(_) => None,
    }
}

/// Returns how many places of a log of so many entries are compared, and how many reads a check of
/// its hint makes.
fn compared(alloc: Global, count: u16) -> Option<(u16, u64)> {
    let meter = Meter::new(alloc).ok()?;
    let mut disk = MeterDisk::new(MemDisk::new(alloc), &meter)?;
    write(
        alloc,
        &mut disk,
        SMALL_LOG,
        &run(alloc, count, count)?,
        true,
    )?;
    let mut places: u16 = 0;
    for odd in 0..count {
        let is_compared = is_refused(alloc, &mut disk, count, odd)?;
        let is_end = odd == 0 || odd.wrapping_add(1) == count;
        if is_end && !is_compared {
            return None;
        }
        if is_compared {
            places = places.wrapping_add(1);
        }
    }
    Some((places, reads_of_check(alloc, &mut disk, &meter)?))
}

/// Returns how many reads of the log's view a check of its own hint makes.
fn reads_of_check(alloc: Global, disk: &mut MeterDisk<MemDisk>, meter: &Arc<Meter>) -> Option<u64> {
    let log = u32::from(SMALL_LOG);
    let hint = hint_of(alloc, disk, SMALL_LOG)?;
    let header = disk.read_at(alloc, log, 0, 1024).ok()?;
    let view = disk.view(alloc, log).ok()?;
    let before = meter.reads();
    check_hint(alloc, &hint, log, &header, &view).ok()?;
    Some(meter.reads().wrapping_sub(before))
}

/// Numbers of entries, and how many of these are compared: one of 1, 2 or 3, and the last one.
const COMPARED: [(u16, u16); 9] = [
    (1, 1),
    (2, 2),
    (15, 15),
    (16, 9),
    (17, 9),
    (30, 16),
    (31, 11),
    (40, 14),
    (45, 16),
];

#[test]
fn at_most_sixteen_records_are_read(rt: HostRuntime) -> Result<(), Fail> {
    let alloc = rt.alloc();
    for (count, places) in COMPARED {
        // One read more: the ledgers map.
        let reads = u64::from(places).wrapping_add(1);
        assert_eq!(rt;
            compared(alloc, count),
            Some((places, reads)),
            "{count} entries"
        );
    }
    Ok(())
}
