//! The hint of one log compared with the one that a scan of the log makes.

ghost use Rattle.std.specs.Prelude.{◌≡◌, List, IsTrue, Ok, None, true};
ghost use Rattle.bk_hint.specs.declared.listed.Listed.{Listed};
ghost use Rattle.bk_hint_disk.specs.Truth.{IsTrueHint};
ghost use Rattle.bk_hint_disk.specs.Usable.{IsUsable};
ghost use Rattle.bk_hint_folder.specs.Hinting.{IsStateOf, IsUnread};

use crate::sealed::{Log, is_sealed, log_of};
use bk_disk::{LogDisk, LogView};
use bk_hint::HintFault;
use bk_hint_disk::{HintStoreFault, Hints, MakeFault, WhyNot, check_hint, make_hint};
use std::alloc::Global;
use thiserror::Error;

/// What the hint of a log is.
#[derive(Clone, Copy, Debug, PartialEq, Eq)]
pub enum HintState {
    /// The log is sealed and has no hint.
    Missing,
    /// The log is not sealed and has no hint.
    Unsealed,
    /// The hint may be used, and is the one that a scan of the log makes.
    Right,
    /// The hint is not right.
    Wrong(WrongHint),
    /// There is no such log.
    NoLog,
}

/// Why a hint is not right.
#[derive(Clone, Copy, Debug, PartialEq, Eq, Error)]
pub enum WrongHint {
    /// It is not used.
    #[error("{0}")]
    NotUsed(WhyNot),
    /// It is used, but a scan of the log makes another one.
    #[error("not of the entries of the log")]
    Other,
    /// It is used, but no hint can be made of the log.
    #[error("no hint can be made of the log")]
    Unfit,
}

/// Returns what the hint of a log is: reads the log to its end if it has a hint that may be used.
///
/// # Errors
///
/// - `Memory`; `Disk` if the log cannot be read; `Odd` if the disk is not honest.
pub fn compare_hint<D: LogDisk, H: Hints>(
    alloc: Global,
    disk: &mut D,
    hints: &mut H,
    log: u32,
) -> Result<HintState, MakeFault>
    ensures honest { (D.honest disk.new ≡ D.honest disk.old) × (H.honest hints.new ≡ H.honest hints.old) }
    ensures files { IsTrue (D.honest disk.old) → D.files disk.new ≡ D.files disk.old }
    ensures hints { IsTrue (H.honest hints.old) → H.hints hints.new ≡ H.hints hints.old }
    ensures state { IsTrue (D.honest disk.old) → IsTrue (H.honest hints.old)
        → IsStateOf (D.files disk.old) (H.hints hints.old) log result }
{
    let Log { header, view } = match log_of(alloc, disk, log) {
        Ok(found) => found,
        Err(MakeFault::NoLog) => return Ok(HintState::NoLog),
        Err(fault) => return Err(fault),
    };
    let hint = match hints.get(alloc, log) {
        Ok(Some(hint)) => hint,
        Ok(None) if is_sealed(&header, view.end()) => return Ok(HintState::Missing),
        Ok(None) => return Ok(HintState::Unsealed),
        Err(fault) => return unread(fault),
    };
    match compared(alloc, log, &header, &view, &hint)? {
        None => Ok(HintState::Right),
        Some(wrong) => Ok(HintState::Wrong(wrong)),
    }
}

/// Returns the state of a hint that cannot be read.
fn unread(fault: HintStoreFault) -> Result<HintState, MakeFault>
    ensures { IsUnread result }
{
    let why = match fault {
        HintStoreFault::Memory => return Err(MakeFault::Memory),
        HintStoreFault::Disk => WhyNot::Disk,
        HintStoreFault::NotPlain => WhyNot::NotPlain,
        HintStoreFault::TooLong(length) => WhyNot::Damaged(HintFault::Length(length)),
    };
    Ok(HintState::Wrong(WrongHint::NotUsed(why)))
}

/// Compares a hint with the log; `None` if it is right.
fn compared<V: LogView>(
    alloc: Global,
    log: u32,
    header: &[u8],
    view: &V,
    hint: &[u8],
) -> Result<Option<WrongHint>, MakeFault>
    ensures { IsTrue (V.honest view.now) → result ≡ Ok None
        → IsTrueHint (V.bytes view.now) hint.now × ((entries : List Listed) × IsUsable header.now (V.bytes view.now) hint.now log entries) }
{
    match check_hint(alloc, hint, log, header, view) {
        Ok(_) => {}
        Err(WhyNot::Memory) => return Err(MakeFault::Memory),
        Err(WhyNot::Disk) => return Err(MakeFault::Disk),
        Err(why) => return Ok(Some(WrongHint::NotUsed(why))),
    }
    match make_hint(alloc, log, header, view) {
        Ok(Some(made)) => {
            if is_same(&made, hint) {
                Ok(None)
            } else {
                Ok(Some(WrongHint::Other))
            }
        }
        Ok(None) => Ok(Some(WrongHint::Unfit)),
        Err(fault) => Err(fault),
    }
}

/// Returns whether bytes are the same.
fn is_same(one: &[u8], other: &[u8]) -> bool
    ensures { result ≡ true → one.now ≡ other.now }
{
    one == other
}
