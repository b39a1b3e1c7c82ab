//! Ending a compaction: retires its source log, or gives the compaction up.

ghost use Rattle.std.specs.Prelude.{◌≡◌, ℕ, None, IsTrue};
ghost use Rattle.bk_store.specs.Primitives.{SetLogStateTransition};
ghost use Rattle.bk_store.specs.Jobs.{Job as JobState};
ghost use Rattle.bk_store.specs.Contents.{SameContents, PreservesContents};
ghost use Rattle.bk_store.specs.declared.job.Phase.TheVariants.{Copy as CopyPhase};
ghost use Rattle.bk_store.specs.declared.log.LogState.TheVariants.{Readable as ReadableState};
ghost use Rattle.bk_store.specs.Frame.{FrameUnchanged};
ghost use Rattle.bk_compact.specs.Compacting.{FinishTransition, GiveUpTransition, IsRunning, IsUndisturbed, with_job};

use crate::{FinishAnswer, GiveUpAnswer};
use bk_disk::LogDisk;
use bk_store::{LogState, Phase, Store};

/// Finishes a compaction without pending relocations. Retires its source log if the index does not
/// point into it.
///
/// If the index was rebuilt after entries were copied, it may still point into the source log,
/// which is then unchanged. Does not allocate and does not use the device.
pub fn finish<D: LogDisk>(store: &mut Store<D>) -> FinishAnswer
    ensures transition { FinishTransition store.old result store.new }
    ensures frame { FrameUnchanged store.old store.new × (store.new.failures ≡ store.old.failures) }
    ensures retires { IsTrue store.old.honest → (source : ℕ) → IsUndisturbed store.old source → result ≡ FinishAnswer.Retired source }
    ensures honest { store.new.honest ≡ store.old.honest }
    ensures contents { IsTrue store.old.honest → SameContents store.old store.new }
{
    store.reveal_invariant();
    let Some(job) = store.job() else {
        return FinishAnswer::NoJob;
    };
    if matches!(job.phase(), Phase::Copy) {
        return FinishAnswer::NotNow;
    }
    let left = job.left();
    if left > 0 {
        return FinishAnswer::Left(left);
    }
    let source = job.source();
    let Some(named) = store.named(source) else {
        unreachable!();
    };
    let Some(taken) = store.take_job() else {
        unreachable!();
    };
    taken.end();
    if named > 0 {
        return FinishAnswer::StillNamed(named);
    }
    store.set_log_state(source, LogState::Retired);
    FinishAnswer::Retired(source)
}

/// Gives up the running compaction in either phase. A target log that is being written becomes
/// Readable as it is, and switched index entries stay switched. Does not allocate and does not use
/// the device.
pub fn give_up<D: LogDisk>(store: &mut Store<D>) -> GiveUpAnswer
    ensures transition { GiveUpTransition store.old result store.new }
    ensures frame { FrameUnchanged store.old store.new × (store.new.failures ≡ store.old.failures) }
    ensures honest { store.new.honest ≡ store.old.honest }
    ensures contents { IsTrue store.old.honest → SameContents store.old store.new }
{
    store.reveal_invariant();
    let Some(job) = store.job() else {
        return GiveUpAnswer::NoJob;
    };
    match job.phase() {
        Phase::Copy => abandon(store),
        Phase::Switch => {
            let Some(taken) = store.take_job() else {
                unreachable!();
            };
            taken.end();
        }
    }
    GiveUpAnswer::GivenUp
}

/// Ends the compaction while entries are copied. The target log becomes Readable as it is.
pub(crate) fn abandon<D: LogDisk>(store: &mut Store<D>)
    requires { (job : JobState) × IsRunning store.old CopyPhase job }
    ensures transition { (job : JobState) → IsRunning store.old CopyPhase job → SetLogStateTransition (with_job store.old None) job.copy ReadableState store.new }
    ensures frame { PreservesContents store.old store.new }
{
    store.reveal_invariant();
    let Some(taken) = store.take_job() else {
        unreachable!();
    };
    store.set_log_state(taken.job.copy(), LogState::Readable);
    taken.end();
}
