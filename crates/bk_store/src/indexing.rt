//! Adding what a scan finds to an index: the rule of an opening, which fills one, and of a rebuild.

ghost use Rattle.std.specs.Prelude.{◌≡◌, ◌+◌, ◌<◌, ◌≤◌, ◌^◌, not, OnOk, OnErr, IfOk};
ghost use Rattle.std.specs.FinSet as set;
ghost use Rattle.bk_log.specs.FoundRuns.{bytes_of_run};
ghost use Rattle.bk_index.specs.Runs.{with_run};
ghost use Rattle.bk_store.specs.Indexing.{with_key};

use crate::Store;
use crate::ledger_set::LedgerSet;
use bk_disk::LogDisk;
use bk_index::{Index, IndexBuilder};
use bk_log::{Found, FoundRun};
use bk_record::Location;
use std::alloc::AllocError;

/// Points the key of an entry found in a log to its place, unless its ledger is deleted; a place
/// that the key had is replaced. Returns whether the ledger is live. Fails if memory is refused,
/// which leaves the index unchanged.
pub(crate) fn index_found(
    index: &mut Index,
    dead: &LedgerSet,
    log: u32,
    found: &Found,
) -> Result<bool, AllocError>
    requires id { log < 2 ^ 31 }
    requires begins { 1028 ≤ found.now.at }
    requires within { found.now.at < 2 ^ 32 }
    ensures index { OnOk result (index.new ≡ with_key dead.now index.old found.now.key (record { log = log; at = found.now.at })) }
    ensures err { OnErr result (index.new ≡ index.old) }
    ensures live { IfOk result (λ live. live ≡ not (set.contains dead.now found.now.key.ledger)) }
{
    if dead.contains(found.key.ledger()) {
        return Ok(false);
    }
    let place = Location::pack(log, found.at as u32).unwrap();
    index.insert(found.key, place)?;
    Ok(true)
}

/// Points the key of an entry found in a log to its place, in an index that is being filled, unless
/// its ledger is deleted; a place that the key had is replaced. Returns whether the ledger is live.
/// Fails if memory is refused.
pub(crate) fn fill_found(
    index: &mut IndexBuilder,
    dead: &LedgerSet,
    log: u32,
    found: &Found,
) -> Result<bool, AllocError>
    requires id { log < 2 ^ 31 }
    requires begins { 1028 ≤ found.now.at }
    requires within { found.now.at < 2 ^ 32 }
    ensures index { OnOk result (index.new ≡ with_key dead.now index.old found.now.key (record { log = log; at = found.now.at })) }
    ensures live { IfOk result (λ live. live ≡ not (set.contains dead.now found.now.key.ledger)) }
{
    let ledger = found.key.ledger();
    if dead.contains(ledger) {
        return Ok(false);
    }
    let location = Location::pack(log, found.at as u32).unwrap();
    index.insert(found.key, location, found.size)?;
    Ok(true)
}

/// Points the keys of a run of entries found in a log to their places, in an index that is being
/// filled; a place that a key had is replaced. Fails if memory is refused.
pub(crate) fn index_run(
    index: &mut IndexBuilder,
    log: u32,
    run: &FoundRun,
) -> Result<(), AllocError>
    requires id { log < 2 ^ 31 }
    requires some { 0 < run.now.count }
    requires ids { run.now.first.key.entry + run.now.count ≤ 2 ^ 63 }
    requires begins { 1028 ≤ run.now.first.at }
    requires within { run.now.first.at + bytes_of_run run.now < 2 ^ 32 + run.now.first.size }
    ensures { OnOk result (index.new ≡ with_run index.old run.now.first.key (record { log = log; at = run.now.first.at }) run.now.first.size run.now.count) }
{
    let place = Location::pack(log, run.first.at as u32).unwrap();
    index.insert_run(run.first.key, place, run.first.size, run.count)?;
    Ok(())
}

impl<D: LogDisk> Store<D> {
    /// Adds an entry found in a log to an index that is rebuilt: points its key to its place,
    /// unless its ledger is deleted. Fails if memory is refused, which leaves the index unchanged.
    pub fn index_found(&self, index: &mut Index, log: u32, found: &Found) -> Result<(), AllocError>
        requires id { log < 2 ^ 31 }
        requires begins { 1028 ≤ found.now.at }
        requires within { found.now.at < 2 ^ 32 }
        ensures ok { OnOk result (index.new ≡ with_key self.now.ledgers.dead index.old found.now.key (record { log = log; at = found.now.at })) }
        ensures err { OnErr result (index.new ≡ index.old) }
    {
        index_found(index, self.fields.ledgers.dead(), log, found)?;
        Ok(())
    }
}
