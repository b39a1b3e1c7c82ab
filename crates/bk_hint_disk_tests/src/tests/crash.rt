//! Hints that a crash leaves beside other files: a log that is gone, shorter, or another one of the
//! id. The answers are those of the logs that are left.

use super::earlier::EARLIER;
use super::logs::{Entry, SETTINGS, SMALL, SMALL_LOG, hint_of, small_hint, write};
use super::loose::LooseHints;
use bk_disk::{CutDisk, LogDisk, MemDisk};
use bk_hint_disk::{HintedDisk, Hints};
use bk_record::Key;
use bk_store::{Store, Taken};
use std::alloc::Global;
use std::process::Abort;
use std::test::Fail;

/// The entries of log 9, which stays.
const STAYS: [Entry; 2] = [(1, 7, 0), (3, 0, 8)];

/// What is left of the small log.
#[derive(Clone, Copy)]
enum Left<'a> {
    Gone,
    Cut(u64),
    /// Another log of the id, and whether it is sealed.
    Other(&'a [Entry], bool),
}

/// Returns what a crash leaves of the logs.
fn left_by(alloc: Global, left: Left<'_>) -> Option<MemDisk> {
    let mut disk = MemDisk::new(alloc);
    write(alloc, &mut disk, 9, &STAYS, true)?;
    match left {
        Left::Gone => {}
        Left::Cut(length) => {
            write(alloc, &mut disk, SMALL_LOG, &SMALL, true)?;
            disk.cut(alloc, u32::from(SMALL_LOG), length).ok()?;
        }
        Left::Other(entries, is_sealed) => {
            write(alloc, &mut disk, SMALL_LOG, entries, is_sealed)?;
        }
    }
    Some(disk)
}

/// Returns the hints of both logs, as they were before.
fn hints(alloc: Global) -> Option<LooseHints> {
    let mut hints = LooseHints::new(alloc);
    let small = small_hint(alloc, &SMALL)?;
    hints.put(alloc, u32::from(SMALL_LOG), &small).ok()?;
    let mut disk = left_by(alloc, Left::Gone)?;
    hints.put(alloc, 9, &hint_of(alloc, &mut disk, 9)?).ok()?;
    Some(hints)
}

/// The ids of all entries of these logs, and of one that none has.
const KEYS: [(u64, u64); 8] = [
    (1, 0),
    (1, 1),
    (1, 7),
    (2, 8),
    (2, 9),
    (3, 0),
    (4, 0),
    (4, 1),
];

/// Returns the number of entries of a store on a disk, and the location of each of these, 0 if it
/// has none. `None` if no store opens.
fn answers<D: LogDisk>(alloc: Global, disk: D) -> Option<Vec<u64>> {
    let mut store = Store::open(alloc, disk, SETTINGS, &[]).ok()?;
    let mut answers = Vec::new(alloc);
    answers.push(store.stats().indexed as u64).ok()?;
    for (ledger, id) in KEYS {
        let place = match store.take(Key::new(ledger, id)?) {
            Ok(Taken::Leased(_, location)) => location.value(),
            _ => 0,
        };
        answers.push(place).ok()?;
    }
    Some(answers)
}

/// Returns whether the answers with the hints are those without.
fn are_same(alloc: Global, left: Left<'_>) -> Option<bool> {
    let plain = answers(alloc, left_by(alloc, left)?);
    let hinted = HintedDisk::new(alloc, left_by(alloc, left)?, hints(alloc)?);
    Some(plain == answers(alloc, hinted))
}

/// Entries of a longer log with the id of the small one, and of one with other ledgers.
const OTHERS: [&[Entry]; 4] = [
    &[],
    &[(1, 0, 4), (1, 1, 4), (2, 9, 0), (4, 0, 0)],
    &[(4, 0, 4), (4, 1, 4), (2, 9, 0)],
    &[(1, 0, 4), (1, 1, 4)],
];

/// Lengths of what is left of the small log: within its header, its records and its ledgers map, and
/// at the end of each.
const CUTS: [u64; 20] = [
    0, 8, 20, 1023, 1024, 1025, 1028, 1047, 1048, 1049, 1072, 1091, 1092, 1093, 1096, 1112, 1116,
    1132, 1147, 1148,
];

#[test]
fn hints_that_a_crash_leaves_change_no_answer(rt: HostRuntime) -> Result<(), Fail> {
    let alloc = rt.alloc();
    assert_eq!(rt; are_same(alloc, Left::Gone), Some(true));
    for length in CUTS {
        let left = Left::Cut(length);
        assert_eq!(rt; are_same(alloc, left), Some(true), "{length} bytes");
    }
    for is_sealed in [true, false] {
        for entries in &EARLIER {
            let left = Left::Other(entries, is_sealed);
            assert_eq!(rt; are_same(alloc, left), Some(true));
        }
        for entries in OTHERS {
            let left = Left::Other(entries, is_sealed);
            assert_eq!(rt; are_same(alloc, left), Some(true));
        }
    }
    Ok(())
}
