//! One life of a store: it opens, performs steps until the power of its disk fails, and leaves
//! files. Its answers alone determine what it must keep.

use super::chance::Chance;
use super::finding::find_all;
use super::owed::{Owed, Stage};
use super::powered::{
    Calls, Ended, Left, Powered, again, device_of, has_failed, is_dead, next_device, nothing,
    opened, written_by,
};
use super::stop::{Stop, not_opened};
use super::test_file::{Failing, Saved};
use bk_crash::Written;
use bk_disk::LogDisk;
use bk_drive::{Answer, OpenFault, PublishAnswer, Step, Store, SwapAnswer, Work, apply};
use bk_store::Added;
use std::alloc::Global;

/// Performs steps on what a loss of power left, where calls fail. Returns what the next one leaves,
/// and whether a call failed before the steps ended.
pub(super) fn live<D: LogDisk, P: Powered<D>>(
    alloc: Global,
    owed: &mut Owed,
    left: Left,
    steps: &[Step],
    calls: Calls,
    chance: &mut Chance,
) -> Result<(Left, bool), Stop> {
    let device = device_of(alloc, &left, calls, chance)?;
    let Some(mut store) = opened::<D, P>(alloc, device, &owed.dead)? else {
        return Ok((again::<D, P>(alloc, left, chance)?, true));
    };
    take_all::<D, P>(alloc, &mut store, owed, steps)?;
    let left = left_by::<D, P>(alloc, &store, chance)?;
    Ok((left, has_failed::<D, P>(&store)))
}

/// Performs steps on a new disk until N calls are made, where the process ends. The next process
/// opens a store on all files, then the power fails. What the second store found must be kept.
/// Returns what is left and whether the first process ended before its steps.
pub(super) fn live_twice<D: LogDisk, P: Powered<D>>(
    alloc: Global,
    owed: &mut Owed,
    steps: &[Step],
    calls: u64,
    chance: &mut Chance,
) -> Result<(Left, bool), Stop> {
    let (ended, is_ended) = ended_by::<D, P>(alloc, owed, steps, calls, chance)?;
    let left = left_behind::<D, P>(alloc, owed, &ended, chance)?;
    Ok((left, is_ended))
}

/// The same if the power fails while the second store opens.
pub(super) fn live_once<D: LogDisk, P: Powered<D>>(
    alloc: Global,
    owed: &mut Owed,
    steps: &[Step],
    calls: u64,
    chance: &mut Chance,
) -> Result<(Left, bool), Stop> {
    let (ended, is_ended) = ended_by::<D, P>(alloc, owed, steps, calls, chance)?;
    Ok((P::left(alloc, &ended, chance)?, is_ended))
}

/// Returns what a process wrote until N calls were made, and whether it ended before its steps.
fn ended_by<D: LogDisk, P: Powered<D>>(
    alloc: Global,
    owed: &mut Owed,
    steps: &[Step],
    calls: u64,
    chance: &mut Chance,
) -> Result<(Ended, bool), Stop> {
    let calls = Calls {
        disk: calls,
        file: Failing::Power(u64::MAX),
    };
    let device = device_of(alloc, &nothing(alloc), calls, chance)?;
    let Some(mut store) = opened::<D, P>(alloc, device, &owed.dead)? else {
        return Ok((nothing_written(alloc), true));
    };
    take_all::<D, P>(alloc, &mut store, owed, steps)?;
    Ok((written_by::<D, P>(alloc, &store)?, is_dead::<D, P>(&store)))
}

/// Returns what a process has written that wrote nothing.
fn nothing_written(alloc: Global) -> Ended {
    Ended {
        written: Written::new(alloc),
        saved: Saved::empty(alloc),
    }
}

/// Opens a store on what a process wrote. Returns what a loss of power leaves then.
fn left_behind<D: LogDisk, P: Powered<D>>(
    alloc: Global,
    owed: &mut Owed,
    ended: &Ended,
    chance: &mut Chance,
) -> Result<Left, Stop> {
    let device = next_device(alloc, ended)?;
    let Some(mut store) = opened::<D, P>(alloc, device, &owed.dead)? else {
        return Err(not_opened(OpenFault::Disk));
    };
    find_all(alloc, &mut store, owed)?;
    left_by::<D, P>(alloc, &store, chance)
}

/// Performs steps until the power fails.
fn take_all<D: LogDisk, P: Powered<D>>(
    alloc: Global,
    store: &mut Store<D>,
    owed: &mut Owed,
    steps: &[Step],
) -> Result<(), Stop> {
    for step in steps {
        take(alloc, store, owed, step)?;
        if is_dead::<D, P>(store) {
            break;
        }
    }
    Ok(())
}

/// Returns what a loss of power leaves of what a store wrote.
fn left_by<D: LogDisk, P: Powered<D>>(
    alloc: Global,
    store: &Store<D>,
    chance: &mut Chance,
) -> Result<Left, Stop> {
    let ended = written_by::<D, P>(alloc, store)?;
    if ended.written.is_lost() {
        return Err(Stop::new("no memory", 0, 0));
    }
    P::left(alloc, &ended, chance)
}

/// Performs a step and records what must be kept. Steps of a reader are skipped.
fn take<D: LogDisk>(
    alloc: Global,
    store: &mut Store<D>,
    owed: &mut Owed,
    step: &Step,
) -> Result<(), Stop> {
    match step {
        Step::Add(payload) => {
            if is_accepted(store, payload) {
                owed.add(alloc, payload)?;
            }
        }
        Step::Delete(ledger) => {
            if is_deleted(store, *ledger) {
                owed.delete(*ledger)?;
            }
        }
        Step::Work(work) => match work_done(store, *work) {
            Done::Swapped => owed.go_on(Stage::Added, Stage::Flushing),
            Done::Published => owed.go_on(Stage::Flushing, Stage::Published),
            Done::Other => {}
        },
        _ => {}
    }
    Ok(())
}

/// Returns whether an add is accepted.
fn is_accepted<D: LogDisk>(store: &mut Store<D>, payload: &[u8]) -> bool {
    matches!(store.add(payload), Ok(Added::Accepted(_)))
}

/// Returns whether a ledger is deleted.
fn is_deleted<D: LogDisk>(store: &mut Store<D>, ledger: u64) -> bool {
    store.delete(ledger).is_ok()
}

/// What a step changes of what must be kept.
enum Done {
    Swapped,
    Published,
    Other,
}

/// Performs a step of the store alone.
fn work_done<D: LogDisk>(store: &mut Store<D>, work: Work) -> Done {
    done_by(&apply(store, work))
}

/// Returns what a step with this answer changed.
fn done_by(answer: &Answer) -> Done {
    match answer {
        Answer::Swap(SwapAnswer::Swapped(_)) => Done::Swapped,
        Answer::Publish(Ok(PublishAnswer::Published(_))) => Done::Published,
        _ => Done::Other,
    }
}
