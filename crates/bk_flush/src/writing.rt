//! Beginning a flush, and writing its entries one by one in key order.
//!
//! An I/O error restarts the flush: nothing is written after a partial record, and no accepted
//! entry is lost.

ghost use Rattle.std.specs.Prelude.{◌≡◌, IsTrue};
ghost use Rattle.bk_store.specs.Contents.{SameContents, PreservesContents};
ghost use Rattle.bk_store.specs.Primitives.{NextNeedsLog};
ghost use Rattle.bk_store.specs.Transitions.{SwapTransition};
ghost use Rattle.bk_store.specs.Frame.{CoreUnchanged, SlotsUnchanged, FrameUnchanged};
ghost use Rattle.bk_store.specs.Faults.{ReportsDeviceFault};
ghost use Rattle.bk_flush.specs.Flushing.{AppendTransition, WriteOneTransition};

use crate::WriteAnswer;
use crate::faults::flush_fault;
use crate::ready::next_log;
use bk_disk::LogDisk;
use bk_store::{Appended, StepFault, Store, SwapAnswer};

/// Begins a flush: makes the active cache the flushing cache, and notes the number of marks as the
/// swapped front. If a flush is running, nothing changes. If no flush is running and the active cache
/// is empty, all marks are durable, and both fronts become their number.
pub fn swap<D: LogDisk>(store: &mut Store<D>) -> SwapAnswer
    ensures transition { SwapTransition store.old result store.new }
    ensures frame { CoreUnchanged store.old store.new × SlotsUnchanged store.old.keeper store.new.keeper
        × (store.new.failures ≡ store.old.failures) }
{
    store.swap()
}

/// Writes the first entry of the flush that has no place.
///
/// If the Writing log has a record and this one would exceed `log_limit`, the log is sealed and
/// becomes Filled. If no log is Writing, the next one is created.
///
/// # Errors
///
/// - `LogsFull`: a new log is needed and every slot is taken. Nothing changes.
/// - `NoMoreIds`: a new log is needed and the last id is used. Nothing changes.
/// - `Memory { done: 0 }`: an allocation failed. A log that was sealed or created for this entry
///   stays so. The call may be repeated.
/// - `Disk`: the device failed. `Odd`: the disk is not honest. The flush restarts in another log.
pub fn write_one<D: LogDisk>(store: &mut Store<D>) -> Result<WriteAnswer, StepFault>
    ensures transition { WriteOneTransition store.old result store.new }
    ensures cause { ReportsDeviceFault store.old result store.new }
    ensures frame { FrameUnchanged store.old store.new }
    ensures honest { store.new.honest ≡ store.old.honest }
    ensures contents { IsTrue store.old.honest → SameContents store.old store.new }
{
    match append(store)? {
        Appended::AllPlaced if store.is_flushing() => Ok(WriteAnswer::AllWritten),
        Appended::AllPlaced => Ok(WriteAnswer::NoFlush),
        Appended::At(location) => Ok(WriteAnswer::Wrote(location)),
        Appended::NeedsLog => write_to_next_log(store),
    }
}

/// Writes the next entry of the flush, which needs a new log, to the next log.
fn write_to_next_log<D: LogDisk>(store: &mut Store<D>) -> Result<WriteAnswer, StepFault>
    requires { NextNeedsLog store.old }
    ensures transition { WriteOneTransition store.old result store.new }
    ensures frame { PreservesContents store.old store.new }
{
    next_log(store)?;
    let Appended::At(location) = append(store)? else {
        unreachable!();
    };
    Ok(WriteAnswer::Wrote(location))
}

/// Appends the next entry of the flush. Restarts the flush on an I/O error.
#[inline(always)]
fn append<D: LogDisk>(store: &mut Store<D>) -> Result<Appended, StepFault>
    ensures transition { AppendTransition store.old result store.new }
    ensures frame { PreservesContents store.old store.new }
{
    match store.append_next() {
        Ok(appended) => Ok(appended),
        Err(fault) => Err(flush_fault(store, fault)),
    }
}
