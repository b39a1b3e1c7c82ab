//! What a disk has before a load.

ghost use Rattle.std.specs.Prelude.{◌≡◌, ◌<◌, ◌≤◌, ◌^◌, All, IfOk, IsTrue};
ghost use Rattle.std.specs.FinMap as map;
ghost use Rattle.bk_load.specs.Before.{IsPastLedgers};

use crate::LoadFault;
use bk_disk::LogDisk;
use bk_index::Index;
use bk_store::{Settings, Store};
use std::alloc::Global;

/// What a disk has before a load.
#[derive(Clone, Copy)]
pub(crate) struct Before {
    pub logs: u64,
    pub entries: u64,
    /// The disk has no entry of this ledger or a later one.
    pub first: u64,
}

/// Largest first ledger of a load, so that enough ledgers follow it.
const LAST_FIRST: u64 = 1 << 62;

/// Returns the number of logs of a disk.
pub(crate) fn logs_on<D: LogDisk>(alloc: Global, disk: &mut D) -> Result<u64, LoadFault>
    ensures honest { D.honest disk.new ≡ D.honest disk.old }
    ensures same { IsTrue (D.honest disk.old) → D.files disk.new ≡ D.files disk.old }
{
    match disk.list(alloc) {
        Ok(logs) => Ok(logs.len() as u64),
        Err(_) => Err(LoadFault::Disk),
    }
}

/// Returns the disk of a store that has no lease.
pub(crate) fn disk_of<D: LogDisk>(store: Store<D>) -> Result<D, LoadFault> {
    match store.into_disk() {
        Ok(disk) => Ok(disk),
        Err(_) => Err(LoadFault::Leased),
    }
}

/// Returns the larger of `free` and the ledger after this one.
fn past(free: u64, ledger: u64) -> u64
    requires { ledger < 2 ^ 63 }
    ensures above { free ≤ result }
    ensures past { ledger < result }
{
    free.max(ledger + 1)
}

/// Returns a ledger such that the index has no entry of it or a later one.
fn free_ledger(index: &Index) -> u64
    ensures { All (λ e. e.0.ledger < result) (map.entries index.now) }
{
    let mut free = 0;
    for (key, _) in index.walk() {
        free = past(free, key.ledger());
    }
    free
}

/// Returns the first ledger of a load that is past these ledgers too, each of which is below 2^63.
/// Fails with `NoLedger` if too few follow.
pub(crate) fn past_all(first: u64, ledgers: &[u64]) -> Result<u64, LoadFault>
    ensures above { IfOk result (λ past. first ≤ past) }
    ensures past { IfOk result (λ past. All (λ ledger. ledger < past) ledgers.now) }
{
    let mut first = first;
    for ledger in ledgers {
        if *ledger >= LAST_FIRST {
            return Err(LoadFault::NoLedger);
        }
        first = past(first, *ledger);
    }
    Ok(first)
}

/// Returns what a disk with these logs and entries has.
fn before_of(logs: u64, index: &Index) -> Before
    ensures { All (λ e. e.0.ledger < result.first) (map.entries index.now) }
{
    Before {
        logs,
        entries: index.len() as u64,
        first: free_ledger(index),
    }
}

/// Opens a store on a disk to see what it has, and returns the disk.
pub(crate) fn survey<D: LogDisk>(
    alloc: Global,
    mut disk: D,
    settings: Settings,
) -> Result<(D, Before), LoadFault>
    ensures { IsTrue (D.honest disk) → IfOk result (λ found. IsPastLedgers (D.files disk) found.1.first) }
{
    let logs = logs_on(alloc, &mut disk)?;
    let store = match Store::open(alloc, disk, settings, &[]) {
        Ok(store) => store,
        Err(fault) => return Err(LoadFault::Open(fault)),
    };
    let before = before_of(logs, store.index());
    if before.first > LAST_FIRST {
        return Err(LoadFault::NoLedger);
    }
    Ok((disk_of(store)?, before))
}
