//! Adds the entries of the published part of one log to an index, one at a time, so no log is held
//! in memory.

ghost use Rattle.std.specs.Prelude.{◌≡◌, ◌<◌, ◌≤◌, ◌^◌, IsErrOf, IfErr, OnOk, Some};
ghost use Rattle.bk_disk.specs.Disk.{AreSound};
ghost use Rattle.bk_store.specs.Indexing.{with_key};
ghost use Rattle.bk_store.specs.Logs.{view_of};
ghost use Rattle.bk_collect.specs.Collecting.{RebuildFails, open_view};
ghost use Rattle.bk_collect.specs.Rebuilding.{EntryFails, TakesIn, collect_fault_of};

use crate::CollectFault;
use bk_disk::{LogDisk, LogView};
use bk_index::Index;
use bk_log::{Found, ScanFault, Scanner};
use bk_record::HEADER_LENGTH;
use bk_store::{LogCause, Store};

/// Adds the entries of a view of a log to the index, in order. Ignores foreign records and a torn
/// record at the end.
pub(crate) fn take_in<D: LogDisk>(
    store: &Store<D>,
    log: u32,
    view: &D::View,
    index: &mut Index,
) -> Result<(), CollectFault>
    requires id { log < 2 ^ 31 }
    requires shown { open_view store.now.logs log ≡ Some (view_of D.View.bytes D.View.honest D.View.sound view.now) }
    ensures ok { OnOk result (TakesIn store.now.ledgers.dead log (view_of D.View.bytes D.View.honest D.View.sound view.now) index.old index.new) }
    ensures fails { IfErr result (λ fault. RebuildFails store.now fault) }
    ensures sound { AreSound D.View.sound → ¬ (IsErrOf result CollectFault.Disk) }
{
    store.reveal_invariant();
    store.disk().bounds();
    let end = view.end();
    if end < HEADER_LENGTH as u64 {
        return Err(CollectFault::Odd);
    }
    let mut scanner = Scanner::new(view, store.alloc(), HEADER_LENGTH as u64, end);
    loop {
        match scanner.next() {
            Ok(Some(found)) => name(store, log, &found, index)?,
            Ok(None) => return Ok(()),
            Err(fault) => return Err(scan_fault(log, fault)),
        }
    }
}

/// Points the key of an entry to its place, unless its ledger is deleted. Fails with `Memory`, and
/// with `Odd` if the position exceeds 2^32 - 1.
fn name<D: LogDisk>(
    store: &Store<D>,
    log: u32,
    found: &Found,
    index: &mut Index,
) -> Result<(), CollectFault>
    requires id { log < 2 ^ 31 }
    requires begins { 1028 ≤ found.now.at }
    ensures ok { OnOk result (index.new ≡ with_key store.now.ledgers.dead index.old found.now.key (record { log = log; at = found.now.at })) }
    ensures fails { IfErr result (λ fault. EntryFails found.now fault) }
{
    if found.at > u64::from(u32::MAX) {
        return Err(CollectFault::Odd);
    }
    store.index_found(index, log, found)?;
    Ok(())
}

/// Returns the fault of a rebuild for a fault of the scan of log `id`.
fn scan_fault(id: u32, fault: ScanFault) -> CollectFault
    ensures { result ≡ collect_fault_of id fault }
{
    match fault {
        ScanFault::BadLength { at, length } => CollectFault::Log {
            id,
            cause: LogCause::BadLength { at, length },
        },
        ScanFault::Disk => CollectFault::Disk,
        ScanFault::Memory => CollectFault::Memory,
        ScanFault::Odd => CollectFault::Odd,
    }
}
