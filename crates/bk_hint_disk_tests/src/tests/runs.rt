//! Openings by runs of entries: each answer is that of a scan, no read and no step is for an entry
//! of a run, and a hint of another run is not used.

use super::drive::told;
use super::logs::{Entry, SETTINGS, has, hint_of, write};
use super::loose::LooseHints;
use super::meter::{Meter, MeterDisk};
use bk_disk::{LogDisk, MemDisk};
use bk_drive::{LedgerRead, Step};
use bk_hint::{HintFault, decode, encode};
use bk_hint_disk::{HintedDisk, Hints, MemHints, Unused, WhyNot};
use bk_record::Key;
use bk_store::Store;
use std::alloc::{AllocError, Global};
use std::process::Abort;
use std::test::Fail;

/// Appends a run of entries of a ledger, of one size.
fn push_run(entries: &mut Vec<Entry>, first: Entry, count: u16) -> Result<(), AllocError> {
    let (ledger, id, data) = first;
    for place in 0..count {
        entries.push((ledger, id.wrapping_add(u64::from(place)), data))?;
    }
    Ok(())
}

/// The ledgers of these logs.
const LEDGERS: [u64; 4] = [1, 2, 3, 9];

/// Returns the entries of a log: of each ledger a run, single entries of other sizes, and a run of
/// that size. The runs of a log have ids that the next log has too.
fn listed(alloc: Global, log: u8) -> Result<Vec<Entry>, AllocError> {
    let id = u64::from(log) * 40;
    let mut entries = Vec::new(alloc);
    for ledger in LEDGERS {
        let data = 4 * ledger as u16;
        push_run(&mut entries, (ledger, id, data), 60)?;
        entries.push((ledger, id + 60, 500))?;
        entries.push((ledger, id + 61, 0))?;
        entries.push((ledger, 1000 + id, 0))?;
        push_run(&mut entries, (ledger, 1001 + id, data), 7)?;
    }
    // A run that goes on with another size, and one of the same size and other ids.
    push_run(&mut entries, (1, 2000 + id, 30), 5)?;
    push_run(&mut entries, (1, 2005 + id, 31), 5)?;
    push_run(&mut entries, (1, 2011 + id, 31), 5)?;
    Ok(entries)
}

/// The logs; the last one is not sealed.
const LOGS: [u8; 4] = [1, 2, 3, 4];

/// Makes the logs.
fn make<D: LogDisk>(alloc: Global, disk: &mut D) -> Option<()> {
    for log in LOGS {
        write(alloc, disk, log, &listed(alloc, log).ok()?, log < 4)?;
    }
    Some(())
}

/// Returns steps that read the ids of each ledger, and entries at ends of runs and between.
fn steps(alloc: Global) -> Result<Vec<Step>, AllocError> {
    let mut steps = Vec::new(alloc);
    steps.push(Step::Stats)?;
    steps.push(Step::Read(LedgerRead::Ledgers(0, 100)))?;
    for ledger in LEDGERS {
        steps.push(Step::Read(LedgerRead::Entries(ledger, 0, 10_000)))?;
        for id in [
            39u64, 40, 79, 80, 99, 100, 101, 161, 220, 221, 222, 1127, 1168,
        ] {
            let Some(key) = Key::new(ledger, id) else {
                return Err(AllocError);
            };
            steps.push(Step::Take(0, key))?;
            steps.push(Step::Fetch(0))?;
            steps.push(Step::Release(0))?;
        }
    }
    Ok(steps)
}

#[test]
fn an_opening_by_runs_has_the_answers_of_a_scan(rt: HostRuntime) -> Result<(), Fail> {
    let alloc = rt.alloc();
    let mut plain = MemDisk::new(alloc);
    assert!(rt; make(alloc, &mut plain).is_some());
    let mut hinted = HintedDisk::new(alloc, MemDisk::new(alloc), MemHints::new(alloc));
    assert!(rt; make(alloc, &mut hinted).is_some());
    for log in LOGS {
        let wrote = hinted.write_hint(alloc, u32::from(log));
        assert_eq!(rt; wrote, Ok(log < 4), "log {log}");
    }
    let watch = hinted.unused_watch(alloc)?;
    let steps = steps(alloc)?;
    let (text, read) = told(alloc, plain, &steps).expect(&rt, "a store");
    let (hinted_text, hinted_read) = told(alloc, hinted, &steps).expect(&rt, "a store");
    assert_eq!(rt; hinted_text.as_str(), text.as_str());
    assert_eq!(rt; hinted_read, read);
    assert!(rt; read >= 40, "{read} entries read");
    assert!(rt; watch.list(alloc)?.is_empty());
    Ok(())
}

/// Returns a long run of this many entries, and a short one of another ledger.
fn long_run(alloc: Global, count: u16) -> Result<Vec<Entry>, AllocError> {
    let mut entries = Vec::new(alloc);
    push_run(&mut entries, (5, 0, 30), count)?;
    push_run(&mut entries, (6, 7, 30), 2)?;
    Ok(entries)
}

/// What an opening by a hint did.
#[derive(Clone, Copy, Debug, PartialEq, Eq)]
struct Cost {
    /// The length of the hint in bytes.
    hint: u64,
    /// The number of bytes of the log that were read.
    bytes: u64,
    /// The number of reads of the log.
    reads: u64,
    /// The number of looks for a run: one for each step of a scan.
    looks: u64,
}

/// Returns what an opening of a log of a long run does with its hint; `None` if the store has not
/// each entry.
fn cost_of(alloc: Global, count: u16) -> Option<Cost> {
    let entries = long_run(alloc, count).ok()?;
    let meter = Meter::new(alloc).ok()?;
    let outer = Meter::new(alloc).ok()?;
    let mut disk = MeterDisk::new(MemDisk::new(alloc), &meter)?;
    write(alloc, &mut disk, 1, &entries, true)?;
    let hint = hint_of(alloc, &mut disk, 1)?;
    let mut hints = LooseHints::new(alloc);
    hints.put(alloc, 1, &hint).ok()?;
    let (bytes, reads) = (meter.bytes(), meter.reads());
    let disk = HintedDisk::new(alloc, disk, hints);
    let watch = disk.unused_watch(alloc).ok()?;
    let mut store = Store::open(alloc, MeterDisk::new(disk, &outer)?, SETTINGS, &[]).ok()?;
    let cost = Cost {
        hint: hint.len() as u64,
        bytes: meter.bytes().wrapping_sub(bytes),
        reads: meter.reads().wrapping_sub(reads),
        looks: outer.looks(),
    };
    if !watch.list(alloc).ok()?.is_empty() || !has(&mut store, 1, &entries) {
        return None;
    }
    Some(cost)
}

#[test]
fn an_opening_does_nothing_for_an_entry_of_a_run(rt: HostRuntime) -> Result<(), Fail> {
    let alloc = rt.alloc();
    let few = cost_of(alloc, 58).expect(&rt, "a store");
    assert!(rt; few.looks <= 20, "{} looks", few.looks);
    // Of each of these numbers of entries, and the two behind them, 16 are compared.
    for count in [148u16, 448, 898, 2998] {
        assert_eq!(rt; cost_of(alloc, count), Some(few), "{count} entries");
    }
    Ok(())
}

/// Returns the entries of a log of two runs and an entry.
fn two_runs(alloc: Global) -> Result<Vec<Entry>, AllocError> {
    let mut entries = Vec::new(alloc);
    push_run(&mut entries, (1, 0, 8), 40)?;
    push_run(&mut entries, (2, 100, 8), 20)?;
    entries.push((2, 7, 0))?;
    Ok(entries)
}

/// The first entries of runs, and their numbers.
type Runs = &'static [(Entry, u16)];

/// Runs that are not those of `two_runs`, and why a hint of them is not used.
const OTHER: [(Runs, WhyNot); 8] = [
    // One entry less, and one more.
    (
        &[((1, 0, 8), 39), ((2, 100, 8), 20), ((2, 7, 0), 1)],
        WhyNot::OtherMap,
    ),
    (
        &[((1, 0, 8), 41), ((2, 100, 8), 19), ((2, 7, 0), 1)],
        WhyNot::OtherMap,
    ),
    // Another ledger.
    (
        &[((3, 0, 8), 40), ((2, 100, 8), 20), ((2, 7, 0), 1)],
        WhyNot::OtherMap,
    ),
    // Other ids.
    (
        &[((1, 1, 8), 40), ((2, 100, 8), 20), ((2, 7, 0), 1)],
        WhyNot::OtherRecords,
    ),
    (
        &[((1, 0, 8), 40), ((2, 99, 8), 20), ((2, 7, 0), 1)],
        WhyNot::OtherRecords,
    ),
    (
        &[
            ((1, 20, 8), 20),
            ((1, 0, 8), 20),
            ((2, 100, 8), 20),
            ((2, 7, 0), 1),
        ],
        WhyNot::OtherRecords,
    ),
    // Another order.
    (
        &[((2, 100, 8), 20), ((1, 0, 8), 40), ((2, 7, 0), 1)],
        WhyNot::OtherRecords,
    ),
    // Other sizes of the same sum.
    (
        &[
            ((1, 0, 9), 20),
            ((1, 20, 7), 20),
            ((2, 100, 8), 20),
            ((2, 7, 0), 1),
        ],
        WhyNot::OtherRecords,
    ),
];

/// A disk with the log of `two_runs`, and its hint.
fn made(alloc: Global) -> Option<(MemDisk, Vec<u8>)> {
    let mut disk = MemDisk::new(alloc);
    write(alloc, &mut disk, 1, &two_runs(alloc).ok()?, true)?;
    let hint = hint_of(alloc, &mut disk, 1)?;
    Some((disk, hint))
}

/// Returns a hint of a log of these runs, with the facts of a hint.
fn disguised(alloc: Global, runs: Runs, hint: &[u8]) -> Option<Vec<u8>> {
    let mut entries = Vec::new(alloc);
    for (first, count) in runs {
        push_run(&mut entries, *first, *count).ok()?;
    }
    let mut disk = MemDisk::new(alloc);
    write(alloc, &mut disk, 1, &entries, true)?;
    let (contents, _) = decode(alloc, &hint_of(alloc, &mut disk, 1)?).ok()?;
    let (_, facts) = decode(alloc, hint).ok()?;
    encode(alloc, &contents, &facts).ok()
}

/// Opens a log of `two_runs` over a hint. Returns whether the hint was not used for this reason, and
/// the store has exactly the entries of the log.
fn is_refused(alloc: Global, disk: MemDisk, hint: &[u8], why: WhyNot) -> Option<bool> {
    let mut hints = LooseHints::new(alloc);
    hints.put(alloc, 1, hint).ok()?;
    let entries = two_runs(alloc).ok()?;
    let mut store = Store::open(alloc, HintedDisk::new(alloc, disk, hints), SETTINGS, &[]).ok()?;
    let is_noted = store.disk().unused() == [Unused { log: 1, why }].as_slice();
    Some(is_noted && store.stats().indexed == 61 && has(&mut store, 1, &entries))
}

#[test]
fn a_hint_of_another_run_is_not_used(rt: HostRuntime) -> Result<(), Fail> {
    let alloc = rt.alloc();
    for (number, (runs, why)) in OTHER.iter().enumerate() {
        let (disk, hint) = made(alloc).expect(&rt, "a log");
        let hint = disguised(alloc, *runs, &hint).expect(&rt, "a hint");
        assert_eq!(rt;
            is_refused(alloc, disk, &hint, *why),
            Some(true),
            "runs {number}"
        );
    }
    Ok(())
}

#[test]
fn a_flipped_length_of_a_run_is_noticed(rt: HostRuntime) -> Result<(), Fail> {
    let alloc = rt.alloc();
    let (_, hint) = made(alloc).expect(&rt, "a log");
    // The steps and the checksum are the last bytes: 0, 39 or 19 more of one size, and the last.
    for back in 1..=24usize {
        let (disk, mut bytes) = made(alloc).expect(&rt, "a log");
        let at = hint.len().saturating_sub(back);
        let byte = bytes.get_mut(at).expect(&rt, "a byte");
        *byte ^= 1;
        let why = WhyNot::Damaged(HintFault::Checksum);
        assert_eq!(rt;
            is_refused(alloc, disk, &bytes, why),
            Some(true),
            "byte {at}"
        );
    }
    Ok(())
}
