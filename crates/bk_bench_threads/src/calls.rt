//! Concurrent callers, each a thread with its own pass.

ghost use Rattle.std.specs.Prelude.{◌≡◌, ◌+◌, ◌<◌, ◌^◌};

use crate::CallersFault;
use crate::entries::payload;
use crate::serving::tell_time;
use crate::words::Asked;
use bk_bookie::{AddLedger, Bookie};
use bk_disk::MemDisk;
use bk_record::Key;
use bk_store::Taken;
use std::alloc::Global;
use std::io::{Eprint, Print};
use std::rt::Clock;
use std::sync::Wait;
use std::thread;
use std::thread::Threads;
use std::time::Instant;

/// The ledger of the first caller.
const FIRST: u64 = 1000;

/// Runs N callers that add their entries concurrently. When all are done, each takes its own from
/// the cache.
pub(crate) fn call_all<
    L: AddLedger + Send + Sync,
    R: Threads + Wait + Sync + Print + Eprint + Clock,
>(rt: &R, alloc: Global, bookie: &Bookie<L, MemDisk>, asked: Asked) -> Result<(), CallersFault> {
    let Asked { callers, count, .. } = asked;
    let start = Instant::now(rt)?;
    let added = thread::map_indices(
        rt,
        alloc,
        callers as usize,
        &|caller| add_each(rt, bookie, ledger_of(caller), count),
    )?;
    tell_time(rt, "adds", &added, start)?;
    let start = Instant::now(rt)?;
    let taken = thread::map_indices(
        rt,
        alloc,
        callers as usize,
        &|caller| take_each(rt, bookie, ledger_of(caller), count),
    )?;
    tell_time(rt, "takes", &taken, start)
}

/// Returns the ledger of a caller, which no other caller has.
fn ledger_of(caller: usize) -> u64
    ensures { caller < 2 ^ 32 → result ≡ FIRST + caller }
{
    FIRST.saturating_add(caller as u64)
}

/// Adds each entry of a ledger. Returns the number accepted, as the pass counts them.
fn add_each<L: AddLedger, R: Wait>(
    rt: &R,
    bookie: &Bookie<L, MemDisk>,
    ledger: u64,
    count: u64,
) -> u64 {
    let Ok(mut pass) = bookie.pass(rt) else {
        return 0;
    };
    for entry in 0..count {
        let _ = bookie.add(rt, &mut pass, &payload(ledger, entry));
    }
    pass.adds()
}

/// Takes each entry of a ledger. Returns the number of cached payloads.
fn take_each<L: AddLedger, R: Wait>(
    rt: &R,
    bookie: &Bookie<L, MemDisk>,
    ledger: u64,
    count: u64,
) -> u64 {
    let Ok(mut pass) = bookie.pass(rt) else {
        return 0;
    };
    let mut taken = 0u64;
    for entry in 0..count {
        let Some(key) = Key::new(ledger, entry) else {
            return taken;
        };
        if let Ok(Taken::Cached(_)) = bookie.take(rt, &mut pass, key) {
            taken = taken.saturating_add(1);
        }
    }
    taken
}
