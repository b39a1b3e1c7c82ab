//! The logs that can be sealed by their headers.

ghost use Rattle.std.specs.Prelude.{◌≡◌, ◌++◌, ◌∷◌, [], if◌then◌else◌, IfOk, IfSome, IsSome, IsTrue, OnOk};
ghost use Rattle.std.specs.FinMap as map;
ghost use Rattle.bk_inspect.specs.Reading.{OnlyReads};
ghost use Rattle.bk_inspect.specs.Unsealed.{ArePicked, HasOpenHead, IsOpenAs};

use crate::calls::list_logs;
use crate::fault::tell_end;
use crate::header::{Head, read_head};
use crate::seal::VERSION;
use crate::{DirFault, Form};
use bk_disk::{FaultWatch, LogDisk};
use std::alloc::Global;
use std::io::Write;

/// Returns the logs of a disk, rising, whose header is of version 1 and names no ledgers map. Nothing
/// is written to the disk.
///
/// A log that is removed meanwhile is left out. Returns `None` if the device fails, memory is refused
/// or the disk is odd, with `fault TEXT` on the error stream.
pub fn find_unsealed<D: LogDisk, E: Write>(
    alloc: Global,
    form: Form,
    disk: &mut D,
    errors: &mut E,
) -> Option<Vec<u32>>
    ensures reads { OnlyReads (D.honest disk.old) (D.files disk.old) (D.honest disk.new) (D.files disk.new) }
    ensures ok { IsTrue (D.honest disk.old) → IfSome result (λ logs.
        ArePicked (HasOpenHead (D.files disk.old)) (map.keys (D.files disk.old)) logs.items) }
{
    find_watched(alloc, form, None, disk, errors)
}

/// The same, with a watch that has the reason if a call of the system fails.
pub(crate) fn find_watched<D: LogDisk, E: Write>(
    alloc: Global,
    form: Form,
    watch: Option<&FaultWatch>,
    disk: &mut D,
    errors: &mut E,
) -> Option<Vec<u32>>
    ensures reads { OnlyReads (D.honest disk.old) (D.files disk.old) (D.honest disk.new) (D.files disk.new) }
    ensures ok { IsTrue (D.honest disk.old) → IfSome result (λ logs.
        ArePicked (HasOpenHead (D.files disk.old)) (map.keys (D.files disk.old)) logs.items) }
{
    match unsealed_logs(alloc, disk) {
        Ok(logs) => Some(logs),
        Err(fault) => {
            tell_end(alloc, form, watch, None, fault, errors);
            None
        }
    }
}

/// Returns the logs of a disk whose header is of version 1 and names no map.
fn unsealed_logs<D: LogDisk>(alloc: Global, disk: &mut D) -> Result<Vec<u32>, DirFault>
    ensures reads { OnlyReads (D.honest disk.old) (D.files disk.old) (D.honest disk.new) (D.files disk.new) }
    ensures ok { IsTrue (D.honest disk.old) → IfOk result (λ logs.
        ArePicked (HasOpenHead (D.files disk.old)) (map.keys (D.files disk.old)) logs.items) }
{
    let ids = list_logs(alloc, disk)?;
    let mut picked = Vec::new(alloc);
    for log in ids.as_slice() {
        let is_picked = is_unsealed(alloc, disk, *log)?;
        pick(*log, is_picked, &mut picked)?;
    }
    Ok(picked)
}

/// Appends a log if it is picked.
fn pick(log: u32, is_picked: bool, picked: &mut Vec<u32>) -> Result<(), DirFault>
    ensures { OnOk result (picked.new.items ≡ (if is_picked then picked.old.items ++ log ∷ [] else picked.old.items)) }
{
    if is_picked && picked.push(log).is_err() {
        return Err(DirFault::Memory);
    }
    Ok(())
}

/// Returns whether a log that was listed has an open header; false if it is removed meanwhile.
fn is_unsealed<D: LogDisk>(alloc: Global, disk: &mut D, log: u32) -> Result<bool, DirFault>
    ensures reads { OnlyReads (D.honest disk.old) (D.files disk.old) (D.honest disk.new) (D.files disk.new) }
    ensures ok { IsTrue (D.honest disk.old) → IsSome (map.get (D.files disk.old) log)
        → IfOk result (HasOpenHead (D.files disk.old) log) }
{
    match read_head(alloc, disk, log) {
        Ok(found) => Ok(is_open(&found.head)),
        Err(DirFault::NoLog) => Ok(false),
        Err(fault) => Err(fault),
    }
}

/// Returns whether a header is of version 1 and names no map.
fn is_open(head: &Head) -> bool
    ensures { IsOpenAs head.now result }
{
    match head {
        Head::Whole(header) => {
            header.version == VERSION && header.map_offset == 0 && header.count == 0
        }
        Head::Short | Head::Bad(_) => false,
    }
}
