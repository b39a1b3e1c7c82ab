//! Lists of calls, each with its result.

use super::super::pass;
use super::Answer::{self, At, Count, Full, Held, Mark, Nothing, Running, Taken};
use super::Call::{
    self, Add, After, Done, Drop, Find, First, FlushLen, Put, RecentLen, Remember, Swap, Used,
};
use super::{first_wrong, make};
use bk_cache::Caches;
use std::alloc::{AllocError, Global};
use std::test::Fail;

// Caches of a hundred bytes, with room for two recent entries.
static CALLS: [(Call, Answer); 40] = [
    (Swap, Nothing),
    (Add(1, 5, 7, 20), Taken),
    (Add(1, 2, 7, 40), Taken),
    (Add(1, 5, 8, 16), Held),
    (Add(2, 0, 7, 40), Taken),
    // Exactly at the limit.
    (Add(3, 0, 7, 16), Full(100)),
    (Add(1, 5, 8, 16), Held),
    (Drop(2), Count(1)),
    (Used, Count(60)),
    (Add(3, 0, 7, 40), Taken),
    (Swap, Count(3)),
    (Used, Count(0)),
    // The first payload stays, in the flush as well.
    (Add(1, 5, 8, 20), Held),
    (Find(1, 5), Mark(7)),
    (First, At(1, 2)),
    (After(1, 0), At(1, 2)),
    (After(1, 2), At(1, 5)),
    (After(1, 5), At(3, 0)),
    (After(3, 0), Nothing),
    (Add(2, 0, 9, 100), Taken),
    (Drop(1), Count(2)),
    (Drop(1), Count(0)),
    (Drop(3), Count(1)),
    // A flush without entries still runs.
    (FlushLen, Count(0)),
    (Swap, Running),
    (Done, Nothing),
    (Find(1, 5), Nothing),
    (Swap, Count(1)),
    (Find(2, 0), Mark(9)),
    // Of three, the one remembered first is dropped; reads do not change the order.
    (Remember(4, 0, 4), Nothing),
    (Remember(5, 0, 5), Nothing),
    (Find(4, 0), Mark(4)),
    (Remember(6, 0, 6), Nothing),
    (RecentLen, Count(2)),
    (Find(4, 0), Nothing),
    (Find(5, 0), Mark(5)),
    (Find(6, 0), Mark(6)),
    // Recent entries are not in a write cache.
    (Drop(5), Count(0)),
    (Find(5, 0), Nothing),
    (RecentLen, Count(1)),
];

/// Returns the number of the first call on caches of a hundred bytes with another answer. With
/// `shared`, the payloads come in shared.
fn first_wrong_of(alloc: Global, shared: bool) -> Result<Option<usize>, AllocError> {
    let mut caches = Caches::new(alloc, 100, 2)?;
    for (number, (call, expected)) in CALLS.iter().enumerate() {
        let call = if shared { with_shared(*call) } else { *call };
        if make(alloc, &mut caches, call) != *expected {
            return Ok(Some(number.saturating_add(1)));
        }
    }
    Ok(None)
}

/// The same call with a shared payload.
fn with_shared(call: Call) -> Call {
    match call {
        Add(ledger, entry, mark, size) => Put(ledger, entry, mark, size),
        other => other,
    }
}

#[test]
fn calls_of_caches_of_a_hundred_bytes(rt: HostRuntime) -> Result<(), Fail> {
    pass(&rt, "calls", first_wrong_of(rt.alloc(), false)?);
    Ok(())
}

#[test]
fn shared_payloads_come_in_as_copies_do(rt: HostRuntime) -> Result<(), Fail> {
    pass(&rt, "shared", first_wrong_of(rt.alloc(), true)?);
    Ok(())
}

static UNREMEMBERED: [(Call, Answer); 3] = [
    (Remember(1, 0, 4), Nothing),
    (Find(1, 0), Nothing),
    (RecentLen, Count(0)),
];

#[test]
fn without_room_nothing_is_remembered(rt: HostRuntime) -> Result<(), Fail> {
    let mut caches = Caches::new(rt.alloc(), 100, 0)?;
    let wrong = first_wrong(rt.alloc(), &mut caches, &UNREMEMBERED);
    pass(&rt, "unremembered", wrong);
    Ok(())
}
