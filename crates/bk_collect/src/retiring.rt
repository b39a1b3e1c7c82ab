//! Retiring a log that the index does not point into. It stays out of the index for good, and may
//! be closed and removed later.

ghost use Rattle.std.specs.Prelude.{◌≡◌, IsTrue};
ghost use Rattle.std.specs.Bool.{OnFalse, OnTrue};
ghost use Rattle.bk_store.specs.Primitives.{IsIdle};
ghost use Rattle.bk_store.specs.Contents.{SameContents};
ghost use Rattle.bk_store.specs.Frame.{FrameUnchanged};
ghost use Rattle.bk_collect.specs.Collecting.{IsCompacted, RetireTransition};

use crate::RetireAnswer;
use bk_disk::LogDisk;
use bk_store::{LogState, Store};

/// Retires a log if no index entry points into it.
///
/// A log that the running flush wrote is in use, and so are the source log and the target log of
/// the running compaction. Returns `Retired` for a log that is retired or closed already, before
/// index entries are counted. Does not allocate and does not use the device.
pub fn retire<D: LogDisk>(store: &mut Store<D>, log: u32) -> RetireAnswer
    ensures transition { RetireTransition store.old log result store.new }
    ensures frame { FrameUnchanged store.old store.new × (store.new.failures ≡ store.old.failures) }
    ensures honest { store.new.honest ≡ store.old.honest }
    ensures contents { IsTrue store.old.honest → SameContents store.old store.new }
{
    let (Some(state), Some(named)) = (store.log_state(log), store.named(log)) else {
        return RetireAnswer::NoLog;
    };
    match state {
        LogState::Writing | LogState::Filled | LogState::Copying => RetireAnswer::InUse,
        LogState::Retired | LogState::Closed => RetireAnswer::Retired(log),
        LogState::Readable if is_compacted(store, log) => RetireAnswer::InUse,
        LogState::Readable if named > 0 => RetireAnswer::StillNamed(named),
        LogState::Readable => {
            store.set_log_state(log, LogState::Retired);
            RetireAnswer::Retired(log)
        }
    }
}

/// Returns whether the log is the source log or the target log of the running compaction.
fn is_compacted<D: LogDisk>(store: &Store<D>, log: u32) -> bool
    ensures yes { OnTrue result (IsCompacted store.now log) }
    ensures no { OnFalse result (IsIdle store.now log) }
{
    match store.job() {
        None => false,
        Some(job) => job.source() == log || job.copy() == log,
    }
}
