//! The hint of one log: made, and put into a store.

ghost use Rattle.std.specs.Prelude.{◌≡◌, ℕ, List, IsTrue, Some, Ok, true};
ghost use Rattle.std.specs.FinMap as map;
ghost use Rattle.bk_hint.specs.declared.listed.Listed.{Listed};
ghost use Rattle.bk_hint_disk.specs.Truth.{AreTrue};
ghost use Rattle.bk_hint_disk.specs.Usable.{IsUsable};
ghost use Rattle.bk_hint_folder.specs.Hinting.{LeavesHints};
ghost use Rattle.bk_hint_folder.specs.Putting.{PutsHint};

use crate::sealed::{Log, fault_of, is_sealed, log_of};
use bk_disk::{LogDisk, LogView};
use bk_hint_disk::{HintStoreFault, Hints, MakeFault, WhyNot, check_hint, make_hint};
use std::alloc::Global;

/// What was done about the hint of a log.
#[derive(Clone, Copy, Debug, PartialEq, Eq)]
pub enum Outcome {
    /// The log had no hint that may be used; one of this number of bytes was made.
    Made { bytes: u64 },
    /// The log has a hint that may be used, which was kept.
    Kept,
    /// The log is not sealed. It may still be written.
    Unsealed,
    /// No hint can be made: a record has a bad length, or the ledgers map is not that of the records.
    Unfit,
    /// There is no such log.
    NoLog,
}

/// Makes the hint of a log and puts it into a store, unless it has one that may be used. First syncs
/// the log: after a power loss a hint may be there and must not list what the log then has not.
///
/// # Errors
///
/// - `Memory`; `Disk` if the log cannot be read or synced; `Odd` if the disk is not honest. The hints
///   are as before.
/// - `Store` if the hint cannot be put. The log may have the old hint, the new one or none.
pub fn hint_log<D: LogDisk, H: Hints>(
    alloc: Global,
    disk: &mut D,
    hints: &mut H,
    log: u32,
) -> Result<Outcome, MakeFault>
    ensures honest { (D.honest disk.new ≡ D.honest disk.old) × (H.honest hints.new ≡ H.honest hints.old) }
    ensures files { IsTrue (D.honest disk.old) → D.files disk.new ≡ D.files disk.old }
    ensures hints { IsTrue (D.honest disk.old) → IsTrue (H.honest hints.old)
        → LeavesHints (D.files disk.old) (D.synced disk.new) (H.hints hints.old) log result (H.hints hints.new) }
    ensures truth { IsTrue (D.honest disk.old) → IsTrue (H.honest hints.old)
        → AreTrue (H.hints hints.old) (D.files disk.old) → AreTrue (H.hints hints.new) (D.files disk.old) }
{
    take_log(alloc, disk, hints, log)
}

/// Does what `hint_log` does.
fn take_log<D: LogDisk, H: Hints>(
    alloc: Global,
    disk: &mut D,
    hints: &mut H,
    log: u32,
) -> Result<Outcome, MakeFault>
    ensures honest { (D.honest disk.new ≡ D.honest disk.old) × (H.honest hints.new ≡ H.honest hints.old) }
    ensures files { IsTrue (D.honest disk.old) → D.files disk.new ≡ D.files disk.old }
    ensures hints { IsTrue (D.honest disk.old) → IsTrue (H.honest hints.old)
        → LeavesHints (D.files disk.old) (D.synced disk.new) (H.hints hints.old) log result (H.hints hints.new) }
{
    let Log { header, view } = match log_of(alloc, disk, log) {
        Ok(found) => found,
        Err(MakeFault::NoLog) => return Ok(Outcome::NoLog),
        Err(fault) => return Err(fault),
    };
    if !is_sealed(&header, view.end()) {
        return Ok(Outcome::Unsealed);
    }
    match has_hint(alloc, hints, log, &header, &view) {
        Ok(true) => return Ok(Outcome::Kept),
        Ok(false) => {}
        Err(fault) => return Err(fault),
    }
    match make_hint(alloc, log, &header, &view) {
        Ok(Some(hint)) => put_hint(alloc, disk, hints, log, &hint),
        Ok(None) => Ok(Outcome::Unfit),
        Err(fault) => Err(fault),
    }
}

/// Returns whether a log has a hint that may be used.
fn has_hint<V: LogView, H: Hints>(
    alloc: Global,
    hints: &mut H,
    log: u32,
    header: &[u8],
    view: &V,
) -> Result<bool, MakeFault>
    ensures honest { H.honest hints.new ≡ H.honest hints.old }
    ensures same { IsTrue (H.honest hints.old) → H.hints hints.new ≡ H.hints hints.old }
    ensures usable { IsTrue (H.honest hints.old) → IsTrue (V.honest view.now) → result ≡ Ok true
        → (hint : List ℕ) × ((entries : List Listed) × ((map.get (H.hints hints.old) log ≡ Some hint)
        × IsUsable header.now (V.bytes view.now) hint log entries)) }
{
    let hint = match hints.get(alloc, log) {
        Ok(Some(hint)) => hint,
        Err(HintStoreFault::Memory) => return Err(MakeFault::Memory),
        Ok(None) | Err(_) => return Ok(false),
    };
    match check_hint(alloc, &hint, log, header, view) {
        Ok(_) => Ok(true),
        Err(WhyNot::Memory) => Err(MakeFault::Memory),
        Err(WhyNot::Disk) => Err(MakeFault::Disk),
        Err(_) => Ok(false),
    }
}

/// Syncs a log, and makes these bytes its hint.
fn put_hint<D: LogDisk, H: Hints>(
    alloc: Global,
    disk: &mut D,
    hints: &mut H,
    log: u32,
    hint: &[u8],
) -> Result<Outcome, MakeFault>
    ensures honest { (D.honest disk.new ≡ D.honest disk.old) × (H.honest hints.new ≡ H.honest hints.old) }
    ensures files { IsTrue (D.honest disk.old) → D.files disk.new ≡ D.files disk.old }
    ensures hints { IsTrue (D.honest disk.old) → IsTrue (H.honest hints.old)
        → PutsHint (D.files disk.old) (D.synced disk.new) (H.hints hints.old) log hint.now result (H.hints hints.new) }
{
    match disk.sync(alloc, log) {
        Ok(()) => {}
        Err(fault) => return Err(fault_of(fault)),
    }
    match hints.put(alloc, log, hint) {
        Ok(()) => Ok(Outcome::Made {
            bytes: hint.len() as u64,
        }),
        Err(HintStoreFault::Memory) => Err(MakeFault::Memory),
        Err(_) => Err(MakeFault::Store),
    }
}
