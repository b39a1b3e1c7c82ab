//! Thousands of entries of hundreds of ledgers, with ids up to 2^63 - 1.

use super::super::pass;
use super::Answer::{self, At, Count, Held, Mark, Nothing, Taken};
use super::Call::{self, Add, After, Drop, Find, First, FlushLen, RecentLen, Remember, Swap, Used};
use super::{first_wrong, make};
use bk_cache::Caches;
use std::alloc::Global;
use std::test::Fail;

const LEDGERS: u64 = 250;

const ENTRIES: u64 = 20;

// The greatest id.
const LAST: u64 = 0x7fff_ffff_ffff_ffff;

// Ids far apart: the larger the number, the lower the id.
fn id(number: u64) -> u64 {
    LAST - (number % 4096) * 1_000_000_007
}

// Adds entries of all ledgers in turn, and counts those with the expected result.
fn fill(alloc: Global, caches: &mut Caches, expected: Answer) -> u64 {
    let mut count = 0u64;
    for number in 0..LEDGERS * ENTRIES {
        let call = Add(id(number % LEDGERS), id(number / LEDGERS), 1, 17);
        if make(alloc, caches, call) == expected {
            count = count.saturating_add(1);
        }
    }
    count
}

// Whether all entries are taken, swapped, and held after that.
fn are_held(alloc: Global, caches: &mut Caches) -> bool {
    fill(alloc, caches, Taken) == 5000
        && make(alloc, caches, Swap) == Count(5000)
        && fill(alloc, caches, Held) == 5000
}

// Remembers an entry of each ledger.
fn remember_all(alloc: Global, caches: &mut Caches) {
    for number in 0..LEDGERS {
        make(alloc, caches, Remember(id(number), 5, 3));
    }
}

// After all entries were added, swapped and added again.
static CALLS: [(Call, Answer); 14] = [
    (Add(0, 0, 2, 100), Taken),
    (Drop(LAST), Count(20)),
    (Drop(LAST), Count(0)),
    (Drop(LAST - 249 * 1_000_000_007), Count(20)),
    (Drop(u64::MAX), Count(0)),
    (Drop(0), Count(1)),
    (FlushLen, Count(4960)),
    (Used, Count(0)),
    (
        First,
        At(LAST - 248 * 1_000_000_007, LAST - 19 * 1_000_000_007),
    ),
    (
        After(LAST - 1_000_000_007, LAST - 1_000_000_007),
        At(LAST - 1_000_000_007, LAST),
    ),
    (After(LAST - 1_000_000_007, LAST), Nothing),
    (
        Find(LAST - 248 * 1_000_000_007, LAST - 19 * 1_000_000_007),
        Mark(1),
    ),
    (Find(LAST, LAST), Nothing),
    (Swap, Answer::Running),
];

// After an entry of each ledger was remembered, of which 200 stay.
static RECENT: [(Call, Answer); 4] = [
    (RecentLen, Count(200)),
    (Find(LAST - 49 * 1_000_000_007, 5), Nothing),
    (Find(LAST - 50 * 1_000_000_007, 5), Mark(3)),
    (Find(LAST - 249 * 1_000_000_007, 5), Mark(3)),
];

#[test]
fn thousands_of_entries_are_held_flushed_and_dropped(rt: HostRuntime) -> Result<(), Fail> {
    let mut caches = Caches::new(rt.alloc(), 1_073_741_824, 200)?;
    assert!(rt; are_held(rt.alloc(), &mut caches));
    pass(&rt, "calls", first_wrong(rt.alloc(), &mut caches, &CALLS));
    remember_all(rt.alloc(), &mut caches);
    pass(&rt, "recent", first_wrong(rt.alloc(), &mut caches, &RECENT));
    Ok(())
}
