//! Ending the copying: seals and publishes the target log, so that the index may point into it.

ghost use Rattle.std.specs.Prelude.{◌≡◌, true, IsTrue};
ghost use Rattle.bk_disk.specs.Disk.{AreSound};
ghost use Rattle.bk_store.specs.Jobs.{Job as JobState};
ghost use Rattle.bk_store.specs.Contents.{SameContents, PreservesContents};
ghost use Rattle.bk_store.specs.declared.job.Phase.TheVariants.{Copy as CopyPhase};
ghost use Rattle.bk_store.specs.Frame.{FrameUnchanged};
ghost use Rattle.bk_store.specs.Faults.{ReportsDeviceFault};
ghost use Rattle.bk_compact.specs.Compacting.{EndCopyTransition, IsRunning, BoundsDeviceFaults};
ghost use Rattle.bk_compact.specs.JobSteps.{IsAtEnd};

use crate::EndAnswer;
use crate::finishing::abandon;
use crate::scanning::is_at_end;
use bk_disk::LogDisk;
use bk_store::{LogState, Phase, StepFault, Store};

/// Ends the copying if every entry of the published part of the source log was examined: seals and
/// publishes the target log. Returns the number of pending relocations.
///
/// # Errors
///
/// The compaction ends with every error, and the target log is Readable as it is:
///
/// - `Disk`: the source log could not be read, or the device failed.
/// - `Memory { done: 0 }`: an allocation failed, and every entry was examined.
/// - `Odd`: the disk is not honest.
pub fn end_copy<D: LogDisk>(store: &mut Store<D>) -> Result<EndAnswer, StepFault>
    ensures transition { EndCopyTransition store.old result store.new }
    ensures frame { FrameUnchanged store.old store.new }
    ensures cause { BoundsDeviceFaults store.old result store.new }
    ensures sound { AreSound D.View.sound → ReportsDeviceFault store.old result store.new }
    ensures honest { store.new.honest ≡ store.old.honest }
    ensures contents { IsTrue store.old.honest → SameContents store.old store.new }
{
    store.reveal_invariant();
    let Some(job) = store.job() else {
        return Ok(EndAnswer::NoJob);
    };
    match job.phase() {
        Phase::Switch => return Ok(EndAnswer::NotNow),
        Phase::Copy => {}
    }
    match is_at_end(store, job) {
        Ok(false) => Ok(EndAnswer::NotAtEnd),
        Ok(true) => seal_copy(store),
        Err(unread) => {
            abandon(store);
            Err(StepFault::from(unread))
        }
    }
}

/// Seals and publishes the target log after every entry was examined.
fn seal_copy<D: LogDisk>(store: &mut Store<D>) -> Result<EndAnswer, StepFault>
    requires { (job : JobState) × IsRunning store.old CopyPhase job × IsAtEnd store.old job true }
    ensures transition { EndCopyTransition store.old result store.new }
    ensures cause { ReportsDeviceFault store.old result store.new }
    ensures frame { PreservesContents store.old store.new }
{
    store.reveal_invariant();
    let Some(mut taken) = store.take_job() else {
        unreachable!();
    };
    let copy = taken.job.copy();
    if let Err(fault) = store.seal(copy, LogState::Readable) {
        taken.end();
        return Err(StepFault::from(fault));
    }
    if let Err(fault) = store.publish_log(copy) {
        taken.end();
        return Err(StepFault::from(fault));
    }
    taken.job.begin_switch();
    let left = taken.job.left();
    store.set_job(taken);
    Ok(EndAnswer::Ended(left))
}
