//! Runs a load.

ghost use Rattle.std.specs.Prelude.{◌≡◌, ◌+◌, ◌-◌, ◌<◌, ◌^◌, IfOk, min, vec_len};
ghost use Rattle.bk_load.specs.Reported.{ReportsCallers, ReportsLogs};

use crate::before::{Before, disk_of, logs_on, past_all, survey};
use crate::checking::check;
use crate::done::Done;
use crate::keeper::Keeper;
use crate::latency::ranks_of;
use crate::serving::{Served, serve};
use crate::{Checked, Load, LoadFault, Logs, Report};
use bk_bookie::WorkReport;
use bk_disk::LogDisk;
use bk_drive::Recorder;
use bk_store::{Settings, Store};
use std::alloc::Global;
use std::io::Write;
use std::marker::Brand;
use std::rt::Clock;
use std::sync::Wait;
use std::sync::ledger::Blank;
use std::thread::Threads;

/// Opens the files that a load leaves. Returns the number of logs and the result of the check.
fn look_at<D: LogDisk>(
    alloc: Global,
    settings: Settings,
    first: u64,
    store: Store<D>,
    done: &Done,
) -> Result<(u64, Checked), LoadFault>
    ensures { IfOk result (λ r. r.1.found + r.1.deleted + r.1.lost ≡ vec_len done.now.receipts) }
{
    let mut disk = disk_of(store)?;
    let logs = logs_on(alloc, &mut disk)?;
    let mut store = Store::open(alloc, disk, settings, &done.dead).map_err(LoadFault::Open)?;
    let checked = check(alloc, &mut store, first, &done.receipts)?;
    Ok((logs, checked))
}

/// Returns the steps of the workers, with the failed steps of the keeper among the faults.
fn works_of(works: WorkReport, keeper: &Keeper) -> WorkReport
    ensures answered { result.answered ≡ works.answered }
    ensures faults { result.faults ≡ min (works.faults + keeper.now.faults) (2 ^ 64 - 1) }
{
    WorkReport {
        answered: works.answered,
        faults: works.faults.saturating_add(keeper.faults),
    }
}

/// Returns what happened to the logs, from their number before and now.
fn logs_of(before: u64, now: u64, keeper: &Keeper) -> Logs
    ensures made { result.made ≡ min (now + keeper.now.removed) (2 ^ 64 - 1) - before }
    ensures compacted { result.compacted ≡ keeper.now.compacted }
    ensures removed { result.removed ≡ keeper.now.removed }
{
    Logs {
        made: now.saturating_add(keeper.removed).saturating_sub(before),
        compacted: keeper.compacted,
        removed: keeper.removed,
    }
}

/// Returns the report of a load.
fn report_on<D: LogDisk>(
    alloc: Global,
    settings: Settings,
    before: Before,
    served: Served<D>,
) -> Result<Report, LoadFault>
    ensures counted { IfOk result (λ r. (r.adds ≡ served.adds) × (r.receipts ≡ vec_len served.done.receipts)) }
    ensures callers { IfOk result (ReportsCallers served.done) }
    ensures logs { IfOk result (ReportsLogs before served.keeper) }
    ensures works { IfOk result (λ r. (r.works.answered ≡ served.works.answered) × (r.milliseconds ≡ served.milliseconds)) }
    ensures checked { IfOk result (λ r. r.checked.found + r.checked.deleted + r.checked.lost ≡ r.receipts) }
    ensures faults { IfOk result (λ r. r.works.faults ≡ min (served.works.faults + served.keeper.faults) (2 ^ 64 - 1)) }
{
    let Served {
        store,
        adds,
        done,
        works,
        keeper,
        milliseconds,
    } = served;
    let (now, checked) = look_at(alloc, settings, before.first, store, &done)?;
    let logs = logs_of(before.logs, now, &keeper);
    let receipts = done.receipts.len() as u64;
    let deletes = done.dead.len() as u64;
    let latencies = ranks_of(done.times).map_err(|_| LoadFault::Memory)?;
    Ok(Report {
        adds,
        receipts,
        bytes: done.bytes,
        held: done.held,
        refused: done.refused,
        takes: done.takes,
        wrong: done.wrong,
        deletes,
        works: works_of(works, &keeper),
        logs,
        milliseconds,
        latencies,
        earlier: before.entries,
        checked,
    })
}

/// What is recorded of ledgers, and where a load records deletions.
#[derive(Drop)]
pub struct Recorded<K: Recorder + Drop> {
    /// The ledgers, each below 2^63.
    pub ledgers: Vec<u64>,
    pub recorder: K,
}

/// Runs a load on a bookie over the logs of this disk.
///
/// The callers add entries to shared ledgers, take some of them, and delete a ledger from time to
/// time, after the recorder was asked. Two workers flush, and a keeper compacts and removes logs. The
/// ledgers follow the last one on the disk and those that are recorded. With `Until::Adds(n)` the
/// callers make n adds together. Progress is written to `progress` once a second.
///
/// # Errors
///
/// See `LoadFault`. The disk is dropped with every error.
pub fn run_load<
    D: LogDisk,
    K: Recorder + Send + Drop,
    R: Threads + Wait + Clock + Sync,
    W: Write + Send + Drop,
>(
    rt: &R,
    alloc: Global,
    disk: D,
    settings: Settings,
    load: Load,
    recorded: Recorded<K>,
    progress: Option<W>,
) -> Result<Report, LoadFault>
    ensures counted { IfOk result (λ r. r.adds ≡ r.receipts) }
    ensures checked { IfOk result (λ r. r.checked.found + r.checked.deleted + r.checked.lost ≡ r.receipts) }
{
    let (disk, found) = survey(alloc, disk, settings)?;
    let Recorded { ledgers, recorder } = recorded;
    let first = past_all(found.first, &ledgers)?;
    let before = Before { first, ..found };
    let blank = Blank::new(u64::from(load.callers) + 1);
    let served = serve::<Brand, K, D, R, W>(
        rt,
        alloc,
        blank,
        disk,
        settings,
        load,
        before.first,
        recorder,
        progress,
    )?;
    report_on(alloc, settings, before, served)
}
