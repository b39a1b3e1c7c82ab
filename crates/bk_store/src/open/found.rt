//! Reading one log at opening: sync if the disk does not keep it, length, header, view, entries.

ghost use Rattle.std.specs.Prelude.{◌≡◌, ◌<◌, ◌^◌, ℕ, List, IsTrue, IsErrOf, IfOk, IfErr, OnOk, length};
ghost use Rattle.bk_record.specs.Files.{file_of};
ghost use Rattle.bk_disk.specs.Disk.{AreSound, FailsExactlyIf, IsFile};
ghost use Rattle.bk_disk.specs.Durable.{IsDurable, DurableGrows};
ghost use Rattle.bk_accounts.specs.Book.{IsNotOpen};
ghost use Rattle.bk_store.specs.Opening.{IsHeaded, FileFails};
ghost use Rattle.bk_store.specs.Found.{IsTaken};

use super::header::check_header;
use super::scan::scan;
use super::tally::Tally;
use crate::log::HeldLog;
use crate::{LogState, OpenFault};
use bk_disk::{LogDisk, LogView};
use bk_record::{HEADER_LENGTH, MAX_LOG_LENGTH};
use std::alloc::Global;
use std::sync::Arc;

/// Reads a log for this slot: tallies its entries, and returns it as a Readable log with a view of
/// its whole file.
#[tactic(auto, using(bk_disk::proofs::DurableGrows::kept_rules))]
pub(super) fn find<D: LogDisk>(
    disk: &mut D,
    alloc: Global,
    id: u32,
    slot: usize,
    tally: &mut Tally,
) -> Result<HeldLog<D::View>, OpenFault>
    requires id { id < 2 ^ 31 }
    requires closed { IsNotOpen tally.old.accounts id }
    ensures honest { D.honest disk.new ≡ D.honest disk.old }
    ensures durable { IsTrue (D.honest disk.old) → DurableGrows (D.synced disk.old) (D.gone disk.old) (D.synced disk.new) (D.gone disk.new) }
    ensures synced { IsTrue (D.honest disk.old) → OnOk result (IsDurable (D.synced disk.new) id (file_of (D.files disk.old) id)) }
    ensures failures { OnOk result (D.failures disk.new ≡ D.failures disk.old) }
    ensures sound { AreSound D.View.sound → IsErrOf result OpenFault.Disk → D.failures disk.old < D.failures disk.new }
    ensures never { ¬ (IsErrOf result OpenFault.Settings) }
    ensures files { IsTrue (D.honest disk.old) → D.files disk.new ≡ D.files disk.old }
    ensures ok { IfOk result (λ log. IsTaken (D.honest disk.old) (D.files disk.old) id slot log tally.old tally.new) }
    ensures err { (file : List ℕ) → IsTrue (D.honest disk.old) → IsFile (D.files disk.old) id file
        → IfErr result (FileFails id file) }
{
    check_file(disk, alloc, id)?;
    let view = disk.view(alloc, id)?;
    let end = view.end();
    if end < HEADER_LENGTH as u64 || end > MAX_LOG_LENGTH {
        return Err(OpenFault::Odd);
    }
    if tally.accounts.open(id).is_err() {
        return Err(OpenFault::Memory);
    }
    scan(&view, alloc, id, end, tally)?;
    let Ok(view) = Arc::new(alloc, view) else {
        return Err(OpenFault::Memory);
    };
    Ok(HeldLog {
        state: LogState::Readable,
        slot,
        view: Some(view),
        acknowledged: end,
        writer: None,
    })
}

/// Makes a log durable, then checks its length and its header.
#[tactic(auto, using(bk_disk::proofs::DurableGrows::kept_rules))]
fn check_file<D: LogDisk>(disk: &mut D, alloc: Global, id: u32) -> Result<(), OpenFault>
    ensures honest { D.honest disk.new ≡ D.honest disk.old }
    ensures durable { IsTrue (D.honest disk.old) → DurableGrows (D.synced disk.old) (D.gone disk.old) (D.synced disk.new) (D.gone disk.new) }
    ensures cause { FailsExactlyIf (D.failures disk.old) (D.failures disk.new) (IsErrOf result OpenFault.Disk) }
    ensures never { ¬ (IsErrOf result OpenFault.Settings) }
    ensures files { IsTrue (D.honest disk.old) → D.files disk.new ≡ D.files disk.old }
    ensures ok { (file : List ℕ) → IsTrue (D.honest disk.old) → IsFile (D.files disk.old) id file
        → OnOk result ((length file < 2 ^ 32) × IsHeaded file) }
    ensures err { (file : List ℕ) → IsTrue (D.honest disk.old) → IsFile (D.files disk.old) id file
        → IfErr result (FileFails id file) }
    ensures synced { (file : List ℕ) → IsTrue (D.honest disk.old) → IsFile (D.files disk.old) id file
        → OnOk result (IsDurable (D.synced disk.new) id file) }
{
    keep(disk, alloc, id)?;
    judge_file(disk, alloc, id)
}

/// Syncs a log, unless the disk keeps all of it already. Its bytes may be in the page cache only,
/// and the index must point only to bytes on the device.
#[tactic(auto, using(bk_disk::proofs::DurableGrows::kept_rules))]
fn keep<D: LogDisk>(disk: &mut D, alloc: Global, id: u32) -> Result<(), OpenFault>
    ensures honest { D.honest disk.new ≡ D.honest disk.old }
    ensures durable { IsTrue (D.honest disk.old) → DurableGrows (D.synced disk.old) (D.gone disk.old) (D.synced disk.new) (D.gone disk.new) }
    ensures synced { (file : List ℕ) → IsTrue (D.honest disk.old) → IsFile (D.files disk.old) id file
        → OnOk result (IsDurable (D.synced disk.new) id file) }
    ensures cause { FailsExactlyIf (D.failures disk.old) (D.failures disk.new) (IsErrOf result OpenFault.Disk) }
    ensures never { ¬ (IsErrOf result OpenFault.Settings) }
    ensures files { IsTrue (D.honest disk.old) → D.files disk.new ≡ D.files disk.old }
    ensures err { (file : List ℕ) → IsTrue (D.honest disk.old) → IsFile (D.files disk.old) id file
        → IfErr result (FileFails id file) }
{
    if disk.is_kept(id) {
        return Ok(());
    }
    disk.sync(alloc, id)?;
    Ok(())
}

/// Checks the length of a log, and its header if it has one.
#[tactic(auto, using(bk_disk::proofs::DurableGrows::kept_rules))]
fn judge_file<D: LogDisk>(disk: &mut D, alloc: Global, id: u32) -> Result<(), OpenFault>
    ensures honest { D.honest disk.new ≡ D.honest disk.old }
    ensures durable { IsTrue (D.honest disk.old) → DurableGrows (D.synced disk.old) (D.gone disk.old) (D.synced disk.new) (D.gone disk.new) }
    ensures cause { FailsExactlyIf (D.failures disk.old) (D.failures disk.new) (IsErrOf result OpenFault.Disk) }
    ensures never { ¬ (IsErrOf result OpenFault.Settings) }
    ensures files { IsTrue (D.honest disk.old) → D.files disk.new ≡ D.files disk.old }
    ensures ok { (file : List ℕ) → IsTrue (D.honest disk.old) → IsFile (D.files disk.old) id file
        → OnOk result ((length file < 2 ^ 32) × IsHeaded file) }
    ensures err { (file : List ℕ) → IsTrue (D.honest disk.old) → IsFile (D.files disk.old) id file
        → IfErr result (FileFails id file) }
{
    let length = disk.length(alloc, id)?;
    if length > MAX_LOG_LENGTH {
        return Err(OpenFault::TooLong(id));
    }
    if length >= HEADER_LENGTH as u64 {
        check_header(disk, alloc, id)?;
    }
    Ok(())
}
