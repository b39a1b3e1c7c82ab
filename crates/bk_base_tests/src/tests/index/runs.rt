//! Runs of keys, compared with single insertions.

ghost use Rattle.std.specs.Prelude.{◌<◌, ◌^◌};

use super::{key, place};
use bk_index::Index;
use std::alloc::AllocError;
use std::process::Abort;
use std::test::Fail;

// Distance of the places of a run, in bytes.
pub(super) const SIZE: u32 = 1024;

// A run: a ledger, the first entry id, the log, and the number of keys.
#[derive(Clone, Copy, Debug)]
pub(super) struct Run(pub u32, pub u32, pub u16, pub u16);

pub(super) const RUNS: [Run; 14] = [
    // The index is empty; pages are full and are split.
    Run(2, 0, 0, 300),
    Run(4, 1000, 0, 600),
    // Between two ledgers.
    Run(2, 300, 1, 700),
    // In a page of other ledgers.
    Run(3, 0, 2, 5),
    Run(3, 5, 3, 400),
    // Some or all of these keys are there.
    Run(2, 100, 4, 300),
    Run(2, 900, 5, 200),
    Run(4, 900, 6, 200),
    Run(2, 0, 7, 1200),
    // Before all others.
    Run(1, 10, 8, 256),
    Run(1, 0, 9, 10),
    // No key.
    Run(2, 50, 10, 0),
    // Ids on both sides of 2^32, and a run of pages behind and before them.
    Run(0, u32::MAX - 3, 11, 8),
    Run(0, u32::MAX - 1000, 12, 3000),
];

pub(super) fn insert_one_by_one(
    rt: &impl Abort,
    index: &mut Index,
    run: Run,
) -> Result<(), AllocError> {
    let Run(ledger, entry, log, count) = run;
    for number in 0..count {
        let key = key(u64::from(ledger), u64::from(entry) + u64::from(number));
        let to = place(u32::from(log), 1028 + u32::from(number) * SIZE);
        let before = index.get(&key);
        assert_eq!(rt; index.insert(key, to)?, before);
    }
    Ok(())
}

fn insert_run(index: &mut Index, run: Run) -> Result<(), AllocError> {
    let Run(ledger, entry, log, count) = run;
    let first = key(u64::from(ledger), u64::from(entry));
    let to = place(u32::from(log), 1028);
    index.insert_run(first, to, SIZE, u32::from(count))
}

pub(super) fn same_pairs(rt: &impl Abort, index: &Index, other: &Index) {
    assert_eq!(rt; index.len(), other.len());
    let mut others = other.walk();
    for pair in index.walk() {
        assert_eq!(rt; others.next(), Some(pair));
        assert_eq!(rt; index.get(&pair.0), Some(pair.1));
    }
    assert_eq!(rt; others.next(), None);
}

#[test]
fn runs_set_what_single_insertions_set(rt: HostRuntime) -> Result<(), Fail> {
    let mut index = Index::new(rt.alloc());
    let mut other = Index::new(rt.alloc());
    for run in &RUNS {
        if insert_run(&mut index, *run).is_err() {
            insert_run(&mut index, *run)?;
        }
        insert_one_by_one(&rt, &mut other, *run)?;
        same_pairs(&rt, &index, &other);
    }
    assert_eq!(rt; index.len(), 1200 + 405 + 700 + 266 + 3000);
    Ok(())
}

#[test]
fn the_last_ids_and_positions_are_set(rt: HostRuntime) -> Result<(), Fail> {
    let mut index = Index::new(rt.alloc());
    let last = (1 << 63) - 1;
    index.insert_run(key(last, last - 1), place(0, u32::MAX - 7), 7, 2)?;
    assert_eq!(rt;
        index.get(&key(last, last - 1)),
        Some(place(0, u32::MAX - 7))
    );
    assert_eq!(rt; index.get(&key(last, last)), Some(place(0, u32::MAX)));
    index.insert_run(key(last, last), place(1, 2000), u32::MAX, 1)?;
    assert_eq!(rt; index.get(&key(last, last)), Some(place(1, 2000)));
    assert_eq!(rt; index.len(), 2);
    Ok(())
}
