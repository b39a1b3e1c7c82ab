//! Copying: examines the entries of the source log in order, and copies those that the index points
//! to.
//!
//! The job is taken out of the store during a call, and usually given back. If an append to the
//! target log failed on the device, or the disk is not honest, the compaction ends instead, and the
//! target log is Readable as it is.

ghost use Rattle.std.specs.Prelude.{◌≡◌, ◌≤◌, IsTrue};
ghost use Rattle.bk_disk.specs.Disk.{AreSound};
ghost use Rattle.bk_store.specs.Jobs.{Job as JobState};
ghost use Rattle.bk_store.specs.Contents.{SameContents, PreservesContents};
ghost use Rattle.bk_store.specs.declared.job.Phase.TheVariants.{Copy as CopyPhase};
ghost use Rattle.bk_store.specs.Frame.{FrameUnchanged};
ghost use Rattle.bk_store.specs.Faults.{ReportsDeviceFault};
ghost use Rattle.bk_compact.specs.Compacting.{CopyTransition, IsRunning, BoundsDeviceFaults};

use crate::CopyAnswer;
use crate::entries::{Stopped, copy_entries};
use crate::finishing::abandon;
use crate::scanning::{Unread, is_at_end};
use bk_disk::LogDisk;
use bk_store::{Phase, StepFault, Store};

/// Examines the next `count` entries of the published part of the source log, or all that are left,
/// and copies each entry that the index points to. Returns how many were copied. Ignores foreign
/// records.
///
/// # Errors
///
/// In the order in which entries are examined:
///
/// - `Memory { done }`: an allocation failed, and an entry was left. `done` entries were copied and
///   are not copied again; the next call continues with the entry that failed.
/// - `Disk`: the source log could not be read. The compaction continues as after `Memory`.
/// - `Disk`: an append to the target log failed. The compaction ends, and the target log is
///   Readable as it is.
/// - `Odd`: the disk is not honest. The compaction ends likewise.
pub fn copy<D: LogDisk>(store: &mut Store<D>, count: u64) -> Result<CopyAnswer, StepFault>
    ensures transition { CopyTransition store.old count result store.new }
    ensures frame { FrameUnchanged store.old store.new }
    ensures cause { BoundsDeviceFaults store.old result store.new }
    ensures sound { AreSound D.View.sound → ReportsDeviceFault store.old result store.new }
    ensures honest { store.new.honest ≡ store.old.honest }
    ensures contents { IsTrue store.old.honest → SameContents store.old store.new }
{
    store.reveal_invariant();
    let Some(job) = store.job() else {
        return Ok(CopyAnswer::NoJob);
    };
    match job.phase() {
        Phase::Switch => return Ok(CopyAnswer::NotNow),
        Phase::Copy => {}
    }
    if count > 0 {
        return go_on(store, count);
    }
    examine_none(store, count)
}

/// Returns the result of a call that examines nothing: `AtEnd` if no entry is left, else
/// `Copied(0)` if none was asked for, and `Memory` if the view's owner was refused.
fn examine_none<D: LogDisk>(store: &mut Store<D>, count: u64) -> Result<CopyAnswer, StepFault>
    requires runs { (job : JobState) × IsRunning store.old CopyPhase job }
    ensures transition { CopyTransition store.old count result store.new }
    ensures sound { AreSound D.View.sound → ReportsDeviceFault store.old result store.new }
    ensures frame { PreservesContents store.old store.new }
{
    store.reveal_invariant();
    let Some(job) = store.job() else {
        unreachable!();
    };
    match is_at_end(store, job) {
        Ok(true) => Ok(CopyAnswer::AtEnd),
        Ok(false) => {
            if count == 0 {
                return Ok(CopyAnswer::Copied(0));
            }
            Err(StepFault::Memory { done: 0 })
        }
        Err(Unread::Disk) => Err(StepFault::Disk),
        Err(Unread::Odd) => {
            abandon(store);
            Err(StepFault::Odd)
        }
    }
}

/// Takes the job out of the store and copies entries. Then gives the job back, or ends the
/// compaction.
fn go_on<D: LogDisk>(store: &mut Store<D>, count: u64) -> Result<CopyAnswer, StepFault>
    requires some { 1 ≤ count }
    requires runs { (job : JobState) × IsRunning store.old CopyPhase job }
    ensures transition { CopyTransition store.old count result store.new }
    ensures sound { AreSound D.View.sound → ReportsDeviceFault store.old result store.new }
    ensures frame { PreservesContents store.old store.new }
{
    store.reveal_invariant();
    let Some(job) = store.job() else {
        unreachable!();
    };
    let Some(view) = store.log_view(job.source()) else {
        unreachable!();
    };
    let Ok(view) = view.clone() else {
        return examine_none(store, count);
    };
    let Some(mut taken) = store.take_job() else {
        unreachable!();
    };
    match copy_entries(store, &*view, &mut taken.job, count) {
        Ok(None) => {
            store.set_job(taken);
            Ok(CopyAnswer::AtEnd)
        }
        Ok(Some(copied)) => {
            store.set_job(taken);
            Ok(CopyAnswer::Copied(copied))
        }
        Err(Stopped::Memory(done)) => {
            store.set_job(taken);
            Err(StepFault::Memory { done })
        }
        Err(Stopped::Unread) => {
            store.set_job(taken);
            Err(StepFault::Disk)
        }
        Err(Stopped::Failed) => {
            taken.end();
            Err(StepFault::Disk)
        }
        Err(Stopped::Odd) => {
            taken.end();
            Err(StepFault::Odd)
        }
    }
}
