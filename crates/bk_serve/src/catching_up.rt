//! Ledgers of which the manifest has more than the store.

ghost use Rattle.std.specs.Prelude.{◌≡◌, true, IfErr, OnOk};
ghost use Rattle.bk_serve.specs.CatchingUp.{CarriesOut, CatchesUp, IsInForce};

use crate::notes::settle;
use crate::refusals::{of_delete, of_fence};
use bk_disk::LogDisk;
use bk_manifest::{Manifest, ManifestFile};
use bk_serve_core::Refusal;
use bk_store::Store;
use std::alloc::Global;

/// Carries out the deletion or the fence of a ledger that is durable, unless the store has.
fn carry_out<D: LogDisk, F: ManifestFile>(
    store: &mut Store<D>,
    notes: &Manifest<F>,
    ledger: u64,
) -> Result<(), Refusal>
    ensures { CarriesOut ledger store.old notes.now result store.new }
{
    if store.is_dead(ledger) {
        return Ok(());
    }
    if notes.state().is_deleted(ledger) {
        return match store.delete(ledger) {
            Ok(_) => Ok(()),
            Err(fault) => Err(of_delete(fault)),
        };
    }
    if notes.state().is_fenced(ledger) {
        return match store.fence(ledger) {
            Ok(_) => Ok(()),
            Err(fault) => Err(of_fence(fault)),
        };
    }
    Ok(())
}

/// Makes store and manifest agree on a ledger, before an entry is added to it: takes a record back
/// that was refused and may be in the file, and carries out what is durable and was refused by
/// `memory`. Otherwise the next opening would delete the ledger with the entry.
pub(crate) fn catch_up<D: LogDisk, F: ManifestFile>(
    alloc: Global,
    store: &mut Store<D>,
    notes: &mut Manifest<F>,
    ledger: u64,
) -> Result<(), Refusal>
    ensures { CatchesUp ledger store.old notes.old result store.new notes.new }
{
    settle(alloc, notes)?;
    carry_out(store, notes, ledger)
}
