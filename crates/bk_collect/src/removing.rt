//! Removing a closed log with its file; its slot is free for another log.

ghost use Rattle.std.specs.Prelude.{◌≡◌, IsErrOf, IsTrue, Ok};
ghost use Rattle.bk_disk.specs.Disk.{FailsExactlyIf};
ghost use Rattle.bk_store.specs.Contents.{SameContents};
ghost use Rattle.bk_store.specs.Frame.{CoreUnchanged, CachesUnchanged, SlotsUnchanged};
ghost use Rattle.bk_collect.specs.Collecting.{RemoveTransition};

use crate::{CollectFault, RemoveAnswer};
use bk_disk::LogDisk;
use bk_log::LogFault;
use bk_store::{LogState, Store};

/// Removes a log that is closed to leases, and its file. The id of the log is never used again.
///
/// # Errors
///
/// The log stays Closed, and its file remains:
///
/// - `Memory`: an allocation failed.
/// - `Disk`: the device failed.
/// - `Odd`: the disk is not honest.
///
/// `Log` does not occur.
pub fn remove<D: LogDisk>(store: &mut Store<D>, log: u32) -> Result<RemoveAnswer, CollectFault>
    ensures transition { RemoveTransition store.old log result store.new }
    ensures frame { CoreUnchanged store.old store.new × CachesUnchanged store.old store.new
        × (¬ (result ≡ Ok RemoveAnswer.Removed) → SlotsUnchanged store.old.keeper store.new.keeper) }
    ensures cause { FailsExactlyIf store.old.failures store.new.failures (IsErrOf result CollectFault.Disk) }
    ensures honest { store.new.honest ≡ store.old.honest }
    ensures contents { IsTrue store.old.honest → SameContents store.old store.new }
{
    let Some(state) = store.log_state(log) else {
        return Ok(RemoveAnswer::NoLog);
    };
    match state {
        LogState::Writing
        | LogState::Filled
        | LogState::Copying
        | LogState::Readable
        | LogState::Retired => Ok(RemoveAnswer::NotClosed),
        LogState::Closed => match store.remove_log(log) {
            Ok(()) => Ok(RemoveAnswer::Removed),
            Err(LogFault::Disk) => Err(CollectFault::Disk),
            Err(LogFault::Memory) => Err(CollectFault::Memory),
            Err(LogFault::Failed | LogFault::Odd) => Err(CollectFault::Odd),
        },
    }
}
