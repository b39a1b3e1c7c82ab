//! Rolling: seals the current log between two flushes.

ghost use Rattle.std.specs.Prelude.{◌≡◌, IsTrue};
ghost use Rattle.bk_store.specs.Contents.{SameContents};
ghost use Rattle.bk_store.specs.Frame.{FrameUnchanged};
ghost use Rattle.bk_store.specs.Faults.{ReportsDeviceFault};
ghost use Rattle.bk_flush.specs.Flushing.{RollTransition};

use crate::RollAnswer;
use bk_disk::LogDisk;
use bk_store::{LogState, StepFault, Store};

/// Seals the Writing log, so that the next flush begins another one.
///
/// # Errors
///
/// - `Disk`: the device failed.
/// - `Memory { done: 0 }`: an allocation failed.
/// - `Odd`: the disk is not honest.
///
/// After every error the log is Readable and is written no more. It may lack a ledgers map.
pub fn roll<D: LogDisk>(store: &mut Store<D>) -> Result<RollAnswer, StepFault>
    ensures transition { RollTransition store.old result store.new }
    ensures cause { ReportsDeviceFault store.old result store.new }
    ensures frame { FrameUnchanged store.old store.new }
    ensures honest { store.new.honest ≡ store.old.honest }
    ensures contents { IsTrue store.old.honest → SameContents store.old store.new }
{
    if store.is_flushing() {
        return Ok(RollAnswer::FlushRunning);
    }
    let Some(log) = store.writing() else {
        return Ok(RollAnswer::NothingOpen);
    };
    store.seal(log, LogState::Readable)?;
    Ok(RollAnswer::Sealed(log))
}
