//! Seals the current log when it is filled, and creates the next one.

ghost use Rattle.std.specs.Prelude.{◌≡◌, ℕ, List, Option, IfOk, OnOk};
ghost use Rattle.bk_store.specs.Primitives.{IsWritingLog, NeedsLog};
ghost use Rattle.bk_flush.specs.Flushing.{IsNewLog, ReadyLogTransition, SealFilledTransition};
ghost use Rattle.bk_store.specs.Contents.{PreservesContents};

use crate::faults::{flush_fault, making_fault};
use bk_disk::LogDisk;
use bk_log::LogFault;
use bk_store::{LogState, StepFault, Store};

/// Seals the Writing log, if there is one, creates the next log and returns its id. Fails as
/// `write_one` does.
pub(crate) fn next_log<D: LogDisk>(store: &mut Store<D>) -> Result<u32, StepFault>
    ensures transition { (payload : List ℕ) (filled : Option ℕ) → NeedsLog store.old payload filled → ReadyLogTransition store.old payload result store.new }
    ensures new { IfOk result (λ log. IsNewLog store.new log) }
    ensures caches { OnOk result (store.new.caches ≡ store.old.caches) }
    ensures places { OnOk result (store.new.places ≡ store.old.places) }
    ensures frame { PreservesContents store.old store.new }
{
    if let Err(fault) = store.can_create_log() {
        return Err(making_fault(store, fault));
    }
    if let Err(fault) = seal_writing(store) {
        return Err(flush_fault(store, fault));
    }
    match store.create_log(LogState::Writing) {
        Ok(log) => Ok(log),
        Err(fault) => Err(making_fault(store, fault)),
    }
}

/// Seals the Writing log, if there is one.
fn seal_writing<D: LogDisk>(store: &mut Store<D>) -> Result<(), LogFault>
    ensures transition { (writing : Option ℕ) × IsWritingLog store.old writing × SealFilledTransition store.old writing result store.new }
    ensures frame { PreservesContents store.old store.new }
{
    match store.writing() {
        Some(log) => store.seal(log, LogState::Filled),
        None => Ok(()),
    }
}
