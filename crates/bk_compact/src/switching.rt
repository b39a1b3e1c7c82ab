//! Switching: points the keys of copied entries to the target log, one by one.

ghost use Rattle.std.specs.Prelude.{◌≡◌, IsTrue};
ghost use Rattle.bk_store.specs.Contents.{SameContents, PreservesContents};
ghost use Rattle.bk_store.specs.declared.job.Phase.TheVariants.{Switch as SwitchPhase};
ghost use Rattle.bk_store.specs.Frame.{FrameUnchanged};
ghost use Rattle.bk_compact.specs.Compacting.{SwitchTransition};
ghost use Rattle.bk_compact.specs.JobSteps.{IsTakenOut, Switches};

use crate::SwitchAnswer;
use bk_disk::LogDisk;
use bk_store::{Job, Phase, Store};

/// Takes the next `count` pending relocations, or all of them. Points the key of each to its copy
/// if the index still points to the place that was copied; a key that was deleted or changed
/// meanwhile is unchanged.
///
/// Returns how many index entries were switched and how many relocations are pending. Does not
/// allocate and does not use the device.
pub fn switch<D: LogDisk>(store: &mut Store<D>, count: u64) -> SwitchAnswer
    ensures transition { SwitchTransition store.old count result store.new }
    ensures frame { FrameUnchanged store.old store.new × (store.new.failures ≡ store.old.failures) }
    ensures honest { store.new.honest ≡ store.old.honest }
    ensures contents { IsTrue store.old.honest → SameContents store.old store.new }
{
    store.reveal_invariant();
    let Some(job) = store.job() else {
        return SwitchAnswer::NoJob;
    };
    if matches!(job.phase(), Phase::Copy) {
        return SwitchAnswer::NotNow;
    }
    let Some(mut taken) = store.take_job() else {
        unreachable!();
    };
    let moved = take_moves(store, &mut taken.job, count);
    let left = taken.job.left();
    store.set_job(taken);
    SwitchAnswer::Moved(moved, left)
}

/// Takes the next `count` pending relocations, or all of them, and returns how many index entries
/// were switched.
fn take_moves<D: LogDisk>(store: &mut Store<D>, job: &mut Job, count: u64) -> u64
    requires out { IsTakenOut store.old job.old }
    requires switching { job.old.phase ≡ SwitchPhase }
    ensures transition { Switches store.old job.old count result store.new job.new }
    ensures out { IsTakenOut store.new job.new }
    ensures frame { PreservesContents store.old store.new }
{
    let mut moved = 0;
    for _ in 0..count {
        let Some(next) = job.next_move() else {
            break;
        };
        if store.relocate(next.key, next.from, next.to) {
            moved += 1;
        }
    }
    moved
}
