//! Fixed scripts: the power fails at each call in turn, several times, with other files left each
//! time.

use super::chance::Chance;
use super::finding::compare;
use super::life::{live, live_once, live_twice};
use super::owed::Owed;
use super::powered::{ALL, Bare, Calls, Kept, KeptLogs, Powered, nothing};
use super::steps::{add_of, push_step};
use super::stop::Stop;
use super::test_file::Failing;
use bk_crash::PowerDisk;
use bk_disk::{LogDisk, MemDisk};
use bk_drive::{Kind, Step, Work};
use std::alloc::{AllocError, Global};
use std::process::Abort;

/// A step of a script.
enum Plan {
    /// An add of N bytes as this entry of this ledger.
    Add(u64, u64, usize),
    Delete(u64),
    Do(Work),
}

use Plan::{Add, Delete, Do};

const SWAP: Plan = Do(Work::Swap);

const WRITE: Plan = Do(Work::WriteOne);

const PUBLISH: Plan = Do(Work::Publish);

const ROLL: Plan = Do(Work::Roll);

const MAJOR: Plan = Do(Work::Begin(Kind::Major));

const END: Plan = Do(Work::EndCopy);

const FINISH: Plan = Do(Work::Finish);

/// A flush of three entries, a roll, and a second flush with an add during it.
const FLUSHES: &[Plan] = &[
    Add(1, 0, 5),
    Add(2, 0, 7),
    Add(1, 1, 0),
    SWAP,
    WRITE,
    WRITE,
    WRITE,
    PUBLISH,
    ROLL,
    Add(3, 0, 9),
    Add(1, 2, 1),
    SWAP,
    WRITE,
    Add(2, 1, 30),
    WRITE,
    PUBLISH,
];

/// Logs that are full after two entries, so that a write seals one log and creates the next.
const FULL_LOGS: &[Plan] = &[
    Add(1, 0, 480),
    Add(1, 1, 480),
    Add(1, 2, 480),
    Add(2, 0, 480),
    Add(2, 1, 480),
    SWAP,
    WRITE,
    WRITE,
    WRITE,
    WRITE,
    WRITE,
    PUBLISH,
    Add(3, 0, 480),
    SWAP,
    WRITE,
    PUBLISH,
    ROLL,
];

/// Two logs are compacted, retired, closed and removed, with the copy of the first. Entries are
/// added and flushed in between.
const COMPACTIONS: &[Plan] = &[
    Add(1, 0, 5),
    Add(2, 0, 200),
    Add(3, 0, 4),
    SWAP,
    WRITE,
    WRITE,
    WRITE,
    PUBLISH,
    ROLL,
    Delete(2),
    MAJOR,
    Do(Work::Copy(1)),
    Add(4, 0, 9),
    Do(Work::Copy(5)),
    END,
    Do(Work::Switch(1)),
    SWAP,
    WRITE,
    Do(Work::Switch(5)),
    FINISH,
    Do(Work::Close(0)),
    Do(Work::Remove(0)),
    PUBLISH,
    Delete(3),
    ROLL,
    MAJOR,
    Do(Work::Copy(9)),
    END,
    Do(Work::Switch(9)),
    FINISH,
    Do(Work::Close(1)),
    Do(Work::Remove(1)),
    Do(Work::Close(2)),
    Do(Work::Remove(2)),
];

/// A compaction is given up after its copying, the index is rebuilt, and the unreferenced log is
/// removed.
const GIVEN_UP: &[Plan] = &[
    Add(1, 0, 5),
    Add(2, 0, 200),
    SWAP,
    WRITE,
    WRITE,
    PUBLISH,
    ROLL,
    Delete(2),
    MAJOR,
    Do(Work::Copy(9)),
    END,
    Do(Work::GiveUp),
    Do(Work::Rebuild),
    Do(Work::Retire(0)),
    Do(Work::Close(0)),
    Do(Work::Remove(0)),
    Add(5, 0, 4),
    SWAP,
    WRITE,
    PUBLISH,
    ROLL,
    MAJOR,
    Do(Work::Copy(1)),
    Do(Work::GiveUp),
];

/// Ledgers are deleted during a flush and during a copy.
const DELETIONS: &[Plan] = &[
    Add(1, 0, 1),
    Add(2, 0, 1),
    Add(3, 0, 1),
    SWAP,
    WRITE,
    Delete(1),
    WRITE,
    WRITE,
    PUBLISH,
    ROLL,
    Add(4, 0, 1),
    MAJOR,
    Do(Work::Copy(1)),
    Delete(2),
    Do(Work::Copy(9)),
    END,
    Do(Work::Switch(9)),
    FINISH,
    Do(Work::Close(0)),
    Do(Work::Remove(0)),
    SWAP,
    WRITE,
    PUBLISH,
    Do(Work::Rebuild),
];

/// Flushes whose writes and publishes are repeated, for a call that is refused once.
const REFUSALS: &[Plan] = &[
    Add(1, 0, 5),
    Add(2, 0, 480),
    SWAP,
    WRITE,
    WRITE,
    PUBLISH,
    WRITE,
    WRITE,
    PUBLISH,
    ROLL,
    ROLL,
    Add(3, 0, 9),
    SWAP,
    WRITE,
    PUBLISH,
    WRITE,
    PUBLISH,
    WRITE,
    PUBLISH,
];

fn steps_of(alloc: Global, plans: &[Plan]) -> Result<Vec<Step>, AllocError> {
    let mut steps = Vec::new(alloc);
    for plan in plans {
        let step = match plan {
            Add(ledger, entry, size) => add_of(alloc, *ledger, *entry, *size, 7)?,
            Delete(ledger) => Step::Delete(*ledger),
            Do(work) => Step::Work(*work),
        };
        push_step(&mut steps, step)?;
    }
    Ok(steps)
}

/// How often the power fails at each call.
const TIMES: u64 = 24;

/// How the process ends that performs the steps.
#[derive(Clone, Copy)]
enum End {
    /// The power fails.
    Power,
    /// The power fails at a call on the file of the manifest.
    File,
    /// A call on the file of the manifest is refused, and the power fails after the steps.
    Refused,
    /// It is killed. A store opens on its files, then the power fails.
    Kill,
    /// It is killed. The power fails while a store opens on its files.
    Opening,
}

/// Returns which calls fail of a process that ends so after N calls.
fn calls_of(end: End, calls: u64) -> Calls {
    match end {
        End::Power | End::Kill | End::Opening => Calls { disk: calls, ..ALL },
        End::File => Calls {
            file: Failing::Power(calls),
            ..ALL
        },
        End::Refused => Calls {
            file: Failing::Once(calls),
            ..ALL
        },
    }
}

/// Performs steps until N calls are made, and compares what is left, with other choices each time.
/// Returns whether a call failed.
fn is_cut<D: LogDisk, P: Powered<D>>(
    alloc: Global,
    steps: &[Step],
    end: End,
    calls: u64,
    time: u64,
) -> Result<bool, Stop> {
    let mut chance = Chance::new(calls.wrapping_mul(1000).wrapping_add(time));
    let mut owed = Owed::new(alloc);
    let (left, cut) = match end {
        End::Kill => live_twice::<D, P>(alloc, &mut owed, steps, calls, &mut chance)?,
        End::Opening => live_once::<D, P>(alloc, &mut owed, steps, calls, &mut chance)?,
        _ => {
            let calls = calls_of(end, calls);
            live::<D, P>(alloc, &mut owed, nothing(alloc), steps, calls, &mut chance)?
        }
    };
    if matches!(end, End::Refused) && !owed.is_published() {
        return Err(Stop::new("not published", calls, time));
    }
    compare::<D, P>(alloc, &mut owed, left, &mut chance)?;
    Ok(cut)
}

/// Repeats this. Returns whether the process ended before its steps the last time.
fn are_cut<D: LogDisk, P: Powered<D>>(
    alloc: Global,
    steps: &[Step],
    end: End,
    calls: u64,
) -> Result<bool, Stop> {
    let mut cut = false;
    for time in 0..TIMES {
        cut = is_cut::<D, P>(alloc, steps, end, calls, time)?;
    }
    Ok(cut)
}

/// Returns the number of crashes of a script that were compared.
fn crashes<D: LogDisk, P: Powered<D>>(
    alloc: Global,
    plans: &[Plan],
    end: End,
) -> Result<u64, Stop> {
    let steps = steps_of(alloc, plans)?;
    for calls in 1..1000u64 {
        if !are_cut::<D, P>(alloc, &steps, end, calls)? {
            return Ok(calls.saturating_mul(TIMES));
        }
    }
    Ok(999 * TIMES)
}

/// The scripts, with their names.
static RUNS: [(&str, &[Plan]); 5] = [
    ("flushes", FLUSHES),
    ("full logs", FULL_LOGS),
    ("compactions", COMPACTIONS),
    ("given up", GIVEN_UP),
    ("deletions", DELETIONS),
];

/// Returns the number of crashes compared, or the script that lost something.
fn all_crashes<D: LogDisk, P: Powered<D>>(
    alloc: Global,
    end: End,
) -> Result<u64, (&'static str, Stop)> {
    let mut count = 0u64;
    for (name, plans) in RUNS.iter() {
        match crashes::<D, P>(alloc, plans, end) {
            Ok(more) => count = count.saturating_add(more),
            Err(stop) => return Err((*name, stop)),
        }
    }
    Ok(count)
}

/// Checks that this many crashes at each time were compared and nothing was lost.
fn is_kept<D: LogDisk, P: Powered<D>>(rt: &impl Abort, alloc: Global, end: End, least: u64) {
    match all_crashes::<D, P>(alloc, end) {
        Ok(count) => assert!(rt; count / TIMES > least, "{count} crashes"),
        Err((name, stop)) => assert!(rt;
            false,
            "{name}: {} {} {}",
            stop.what, stop.ledger, stop.number
        ),
    }
}

#[test]
fn a_worked_run_loses_nothing(rt: HostRuntime) {
    is_kept::<PowerDisk<MemDisk>, Bare>(&rt, rt.alloc(), End::Power, 100);
}

#[test]
fn what_a_killed_run_left_outlives_a_loss_of_power_once_it_is_opened(rt: HostRuntime) {
    is_kept::<PowerDisk<MemDisk>, Bare>(&rt, rt.alloc(), End::Kill, 100);
}

#[test]
fn a_worked_run_with_a_manifest_loses_nothing_to_damage(rt: HostRuntime) {
    is_kept::<KeptLogs, Kept>(&rt, rt.alloc(), End::Power, 100);
}

#[test]
fn nothing_is_lost_if_the_power_fails_at_a_call_on_the_manifest(rt: HostRuntime) {
    is_kept::<KeptLogs, Kept>(&rt, rt.alloc(), End::File, 50);
}

#[test]
fn what_a_killed_run_with_a_manifest_left_outlives_damage(rt: HostRuntime) {
    is_kept::<KeptLogs, Kept>(&rt, rt.alloc(), End::Kill, 100);
}

#[test]
fn what_a_killed_run_published_outlives_damage_while_it_is_opened(rt: HostRuntime) {
    is_kept::<KeptLogs, Kept>(&rt, rt.alloc(), End::Opening, 100);
}

#[test]
fn what_is_published_after_a_refused_record_is_kept(rt: HostRuntime) {
    match crashes::<KeptLogs, Kept>(rt.alloc(), REFUSALS, End::Refused) {
        Ok(count) => assert!(rt; count > 10 * TIMES, "{count} crashes"),
        Err(stop) => assert!(rt; false, "{} {} {}", stop.what, stop.ledger, stop.number),
    }
}
