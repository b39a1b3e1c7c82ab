//! Publishing: syncs the logs of a flush, then adds its entries to the index.
//!
//! An error leaves the flush running with all its entries and places, so a later publish can finish
//! it. If the disk has lost a log of the flush, the flush restarts: after a failed sync the kernel
//! may report success for data that it dropped, so the entries are written again to another log.

ghost use Rattle.std.specs.Prelude.{◌≡◌, IsTrue, OnOk};
ghost use Rattle.bk_store.specs.Contents.{SameContents, PreservesContents};
ghost use Rattle.bk_store.specs.Frame.{CoreUnchanged, SlotsUnchanged};
ghost use Rattle.bk_store.specs.Faults.{ReportsDeviceFault};
ghost use Rattle.bk_flush.specs.Flushing.{PublishCachesFrame, PublishTransition};
ghost use Rattle.bk_flush.specs.Publishing.{AllShown, NamesEntries, ShowsLogs};

use crate::PublishAnswer;
use crate::faults::publish_fault;
use bk_disk::LogDisk;
use bk_store::{StepFault, Store};

/// Publishes the running flush and ends it.
///
/// Syncs each log that has a place of the flush once, by rising id, and publishes its whole file.
/// Then adds each entry to the index, in key order, and remembers it as a recent entry. From then
/// on the entries are read from their logs, and they are durable: the durable front of the store
/// becomes the number of marks at the swap that began the flush.
///
/// # Errors
///
/// - `Disk`: a log could not be synced or viewed. `Odd`: the disk is not honest. The logs with
///   lower ids are published, no entry is in the index, and the flush continues. It restarts with
///   all its entries if the disk has lost a log of it.
/// - `Memory { done }`: an allocation failed. If a log could not be published, `done` is 0 and the
///   logs with lower ids are published. Otherwise all logs are published, and the first `done`
///   entries are in the index. The flush continues.
pub fn publish<D: LogDisk>(store: &mut Store<D>) -> Result<PublishAnswer, StepFault>
    ensures transition { PublishTransition store.old result store.new }
    ensures cause { ReportsDeviceFault store.old result store.new }
    ensures frame { CoreUnchanged store.old store.new × PublishCachesFrame store.old result store.new
        × SlotsUnchanged store.old.keeper store.new.keeper }
    ensures honest { store.new.honest ≡ store.old.honest }
    ensures contents { IsTrue store.old.honest → SameContents store.old store.new }
{
    store.reveal_invariant();
    if !store.is_flushing() {
        return Ok(PublishAnswer::NoFlush);
    }
    if store.next_entry().is_some() {
        return Ok(PublishAnswer::NotAllWritten);
    }
    let entries = store.flush_len();
    show_logs(store)?;
    name_entries(store)?;
    store.end_flush();
    Ok(PublishAnswer::Published(entries))
}

/// Publishes each log that has a place of the flush, once, by rising id.
///
/// Log ids rise with the keys, so one pass over the places meets each log once.
fn show_logs<D: LogDisk>(store: &mut Store<D>) -> Result<(), StepFault>
    ensures transition { ShowsLogs store.old result store.new }
    ensures shown { OnOk result (AllShown store.new) }
    ensures frame { PreservesContents store.old store.new }
{
    store.reveal_invariant();
    let mut from = 0;
    for number in 0..store.placed_len() {
        let Some((_, place)) = store.placed(number) else {
            unreachable!();
        };
        let log = place.log();
        if log < from {
            continue;
        }
        store.reveal_invariant();
        if let Err(fault) = store.publish_log(log) {
            return Err(publish_fault(store, fault));
        }
        from = log + 1;
    }
    Ok(())
}

/// Adds each entry of the flush to the index, in key order. Fails only with `Memory`.
fn name_entries<D: LogDisk>(store: &mut Store<D>) -> Result<(), StepFault>
    requires { AllShown store.old }
    ensures transition { NamesEntries store.old result store.new }
    ensures frame { PreservesContents store.old store.new }
{
    for number in 0..store.placed_len() {
        let Ok(()) = store.index_placed(number) else {
            return Err(StepFault::Memory {
                done: number as u64,
            });
        };
    }
    Ok(())
}
