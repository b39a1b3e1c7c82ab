//! Scanning a log at opening, entry by entry, so no log is held in memory.

ghost use Rattle.std.specs.Prelude.{◌≡◌, ◌<◌, ◌≤◌, ◌^◌, false, IsTrue, IsErrOf, Some, IfErr, OnOk};
ghost use Rattle.bk_record.specs.Files.{header_length};
ghost use Rattle.bk_disk.specs.Disk.{view_end};
ghost use Rattle.bk_accounts.specs.Book.{total_in};
ghost use Rattle.bk_store.specs.Found.{IsScanned};
ghost use Rattle.bk_store.specs.Opening.{IsHeaded, FileFails};

use super::fault::scan_fault;
use super::tally::Tally;
use crate::OpenFault;
use bk_disk::LogView;
use bk_log::Scanner;
use bk_record::HEADER_LENGTH;
use std::alloc::Global;

/// Tallies the entries of a log from its header to its end, runs of them as wholes. Ignores foreign
/// records and a torn record at the end.
pub(super) fn scan<V: LogView>(
    view: &V,
    alloc: Global,
    log: u32,
    end: u64,
    tally: &mut Tally,
) -> Result<(), OpenFault>
    requires id { log < 2 ^ 31 }
    requires headed { header_length ≤ end }
    requires short { end < 2 ^ 32 }
    requires whole { IsTrue (V.honest view.now) → end ≡ view_end (V.bytes view.now) }
    requires fresh { total_in tally.old.accounts log ≡ Some 0 }
    ensures never { ¬ (IsErrOf result OpenFault.Settings) }
    ensures cause { IsErrOf result OpenFault.Disk → V.sound view.now ≡ false }
    ensures ok { OnOk result (IsScanned log end (V.honest view.now) (V.bytes view.now) tally.old tally.new) }
    ensures err { IfErr result (λ fault. IsTrue (V.honest view.now) → IsHeaded (V.bytes view.now) → FileFails log (V.bytes view.now) fault) }
{
    let mut scanner = Scanner::new(view, alloc, HEADER_LENGTH as u64, end);
    loop {
        if let Some(run) = scanner.next_run() {
            tally.add_run(log, &run)?;
            continue;
        }
        match scanner.next() {
            Ok(Some(found)) => tally.add(log, &found)?,
            Ok(None) => return Ok(()),
            Err(fault) => return Err(scan_fault(log, fault)),
        }
    }
}
