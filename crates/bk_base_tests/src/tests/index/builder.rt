//! An index that is filled by runs, compared with single insertions.

use super::runs::{RUNS, Run, SIZE, insert_one_by_one, same_pairs};
use super::{key, place};
use bk_index::{Index, IndexBuilder};
use std::alloc::{AllocError, Global};
use std::process::Abort;
use std::test::Fail;

// Runs without a common key, not in the order of their keys.
const APART: [Run; 8] = [
    Run(2, 300, 1, 700),
    Run(4, 1000, 0, 600),
    Run(3, 5, 3, 200),
    Run(2, 0, 0, 300),
    Run(3, 0, 2, 5),
    Run(1, 10, 8, 256),
    Run(1, 0, 9, 10),
    Run(0, u32::MAX - 300, 11, 900),
];

fn insert_run(builder: &mut IndexBuilder, run: Run) -> Result<(), AllocError> {
    let Run(ledger, entry, log, count) = run;
    let first = key(u64::from(ledger), u64::from(entry));
    let to = place(u32::from(log), 1028);
    builder.insert_run(first, to, SIZE, u32::from(count))
}

fn compare(rt: &impl Abort, alloc: Global, runs: &[Run]) -> Result<Index, AllocError> {
    let mut builder = IndexBuilder::new(alloc);
    let mut other = Index::new(alloc);
    for run in runs {
        insert_run(&mut builder, *run)?;
        insert_one_by_one(rt, &mut other, *run)?;
    }
    let index = builder.finish()?;
    same_pairs(rt, &index, &other);
    Ok(index)
}

#[test]
fn a_builder_sets_what_single_insertions_set(rt: HostRuntime) -> Result<(), Fail> {
    let index = compare(&rt, rt.alloc(), &RUNS)?;
    assert_eq!(rt; index.len(), 1200 + 405 + 700 + 266 + 3000);
    Ok(())
}

#[test]
fn pages_are_filled_in_the_order_of_the_keys(rt: HostRuntime) -> Result<(), Fail> {
    let index = compare(&rt, rt.alloc(), &APART)?;
    let pages = index.as_pages();
    // A key that does not fit the last page begins a page if that one has at least 128 keys, which is
    // looked at for each sixteenth key: the ids of ledger 0 are on both sides of 2^32, and few keys
    // of ledger 1 share a page with ledger 2.
    let mut lens = Vec::new(rt.alloc());
    for number in 0..pages.len() {
        lens.push(pages.page_len(number))?;
    }
    let wanted = [
        256, 141, 256, 247, 256, 138, 256, 256, 256, 141, 168, 256, 256, 88,
    ];
    assert_eq!(rt; lens.len(), wanted.len());
    for (len, wanted) in lens.iter().zip(&wanted) {
        assert_eq!(rt; *len, Some(*wanted));
    }
    Ok(())
}

#[test]
fn runs_that_go_on_are_joined(rt: HostRuntime) -> Result<(), Fail> {
    let mut builder = IndexBuilder::new(rt.alloc());
    builder.insert(key(5, 7), place(3, 1028), SIZE)?;
    builder.insert(key(5, 8), place(3, 1028 + SIZE), SIZE)?;
    builder.insert_run(key(5, 9), place(3, 1028 + 2 * SIZE), SIZE, 400)?;
    // Another distance, another log, a gap, and a key again.
    builder.insert(key(5, 409), place(3, 1028 + 402 * SIZE), 2 * SIZE)?;
    builder.insert(key(5, 410), place(4, 1028 + 404 * SIZE), 2 * SIZE)?;
    builder.insert(key(5, 412), place(4, 1028 + 406 * SIZE), 2 * SIZE)?;
    builder.insert(key(5, 8), place(6, 5000), SIZE)?;
    let index = builder.finish()?;
    assert_eq!(rt; index.len(), 405);
    assert_eq!(rt; index.get(&key(5, 7)), Some(place(3, 1028)));
    assert_eq!(rt; index.get(&key(5, 8)), Some(place(6, 5000)));
    assert_eq!(rt; index.get(&key(5, 408)), Some(place(3, 1028 + 401 * SIZE)));
    assert_eq!(rt; index.get(&key(5, 410)), Some(place(4, 1028 + 404 * SIZE)));
    assert_eq!(rt; index.get(&key(5, 411)), None);
    Ok(())
}

#[test]
fn a_walk_passes_the_entries_of_each_log(rt: HostRuntime) -> Result<(), Fail> {
    let index = compare(&rt, rt.alloc(), &RUNS)?;
    for log in 0..14 {
        assert_eq!(rt; passed_in(&index, log), index.count_in(log));
    }
    Ok(())
}

// Number of the entries of a log that a walk passes.
fn passed_in(index: &Index, log: u32) -> u64 {
    let mut sum = 0u64;
    let mut walk = index.walk();
    for _ in 0..=index.len() {
        match walk.pass_log() {
            Some((of, count)) if of == log => sum = sum.wrapping_add(count),
            Some(_) => {}
            None => break,
        }
    }
    sum
}
