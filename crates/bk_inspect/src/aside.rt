//! Copies a log aside, piece by piece, or goes on with the copy of a call that was killed.

ghost use Rattle.std.specs.Prelude.{◌≡◌, ◌<◌, ◌^◌, [], Some, IsTrue, IfOk, OnOk};
ghost use Rattle.std.specs.FinMap as map;
ghost use Rattle.bk_inspect.specs.Copying.{BeginAlike, CopiesAside, CopiesBytes, CopiesPiece, FillsAndKeeps, IsPieceOf, PiecesAgree, StandsAs, WritesCopy};
ghost use Rattle.bk_inspect.specs.Reading.{OnlyReads};
ghost use Rattle.bk_inspect.specs.Sealing.{AppendsMap};

use crate::DirFault;
use crate::cutting::Aside;
use bk_disk::{DiskFault, LogDisk};
use std::alloc::Global;

/// The number of bytes copied at once.
const PIECE: u64 = 1_048_576;

/// Why a log is not copied aside.
#[derive(Clone, Copy, Debug, PartialEq, Eq)]
pub(crate) enum CopyFault {
    /// Something else than a copy of the log is at the place of the copy.
    Taken,
    /// Something else than a draft of the copy has its name.
    Blocked,
    /// The device failed, memory was refused, or the disk is odd.
    Broken(DirFault),
}

/// What is at the place of a log's copy.
#[derive(Clone, Copy, Debug, PartialEq, Eq)]
pub(crate) enum Standing {
    /// Nothing, or the first bytes of the log, or all of them.
    Part,
    /// All bytes of the log, and more: it was cut since.
    More,
    /// Something else.
    Other,
}

/// Copies a log of `length` bytes aside, and syncs the copy. If there is a copy that has the first
/// bytes of the log, another takes its place. If it has all of them and more, it stays, and is
/// synced. No byte of a copy is lost.
pub(crate) fn copy_log<D: LogDisk, A: Aside>(
    alloc: Global,
    disk: &mut D,
    aside: &mut A,
    log: u32,
    length: u64,
) -> Result<(), CopyFault>
    ensures reads { OnlyReads (D.honest disk.old) (D.files disk.old) (D.honest disk.new) (D.files disk.new) }
    ensures honest { A.honest aside.new ≡ A.honest aside.old }
    ensures transition { IsTrue (D.honest disk.old) → IsTrue (A.honest aside.old)
        → CopiesAside (D.files disk.old) (A.copies aside.old) log length result (A.copies aside.new) }
    ensures synced { IsTrue (A.honest aside.old)
        → OnOk result (map.get (A.synced aside.new) log ≡ map.get (A.copies aside.new) log) }
{
    match what_stands(alloc, disk, aside, log, length) {
        Ok(Standing::Part) => write_copy(alloc, disk, aside, log, length),
        Ok(Standing::More) => match sync_copy(alloc, aside, log) {
            Ok(()) => Ok(()),
            Err(fault) => Err(CopyFault::Broken(fault)),
        },
        Ok(Standing::Other) => Err(CopyFault::Taken),
        Err(fault) => Err(CopyFault::Broken(fault)),
    }
}

/// Returns what is at the place of the copy of a log of `length` bytes.
fn what_stands<D: LogDisk, A: Aside>(
    alloc: Global,
    disk: &mut D,
    aside: &mut A,
    log: u32,
    length: u64,
) -> Result<Standing, DirFault>
    ensures reads { OnlyReads (D.honest disk.old) (D.files disk.old) (D.honest disk.new) (D.files disk.new) }
    ensures aside { OnlyReads (A.honest aside.old) (A.copies aside.old) (A.honest aside.new) (A.copies aside.new) }
    ensures ok { IsTrue (D.honest disk.old) → IsTrue (A.honest aside.old)
        → IfOk result (StandsAs (D.files disk.old) (A.copies aside.old) log length) }
{
    let copied = match aside.length(alloc, log) {
        Ok(copied) => copied,
        Err(DiskFault::NoLog) => return Ok(Standing::Part),
        Err(DiskFault::Exists) => return Ok(Standing::Other),
        Err(fault) => return Err(DirFault::from(fault)),
    };
    if !begin_alike(alloc, disk, aside, log, length.min(copied))? {
        return Ok(Standing::Other);
    }
    if length < copied {
        Ok(Standing::More)
    } else {
        Ok(Standing::Part)
    }
}

/// Returns whether the first `n` bytes of a log are those of its copy.
fn begin_alike<D: LogDisk, A: Aside>(
    alloc: Global,
    disk: &mut D,
    aside: &mut A,
    log: u32,
    n: u64,
) -> Result<bool, DirFault>
    ensures reads { OnlyReads (D.honest disk.old) (D.files disk.old) (D.honest disk.new) (D.files disk.new) }
    ensures aside { OnlyReads (A.honest aside.old) (A.copies aside.old) (A.honest aside.new) (A.copies aside.new) }
    ensures ok { IsTrue (D.honest disk.old) → IsTrue (A.honest aside.old)
        → IfOk result (BeginAlike (D.files disk.old) (A.copies aside.old) log n) }
{
    let mut at = 0;
    while at < n {
        let some = (n - at).min(PIECE);
        if !pieces_agree(alloc, disk, aside, log, at, some)? {
            return Ok(false);
        }
        at += some;
    }
    Ok(true)
}

/// Returns whether `n` bytes of a log from position `at` on are those of its copy.
fn pieces_agree<D: LogDisk, A: Aside>(
    alloc: Global,
    disk: &mut D,
    aside: &mut A,
    log: u32,
    at: u64,
    n: u64,
) -> Result<bool, DirFault>
    ensures reads { OnlyReads (D.honest disk.old) (D.files disk.old) (D.honest disk.new) (D.files disk.new) }
    ensures aside { OnlyReads (A.honest aside.old) (A.copies aside.old) (A.honest aside.new) (A.copies aside.new) }
    ensures ok { IsTrue (D.honest disk.old) → IsTrue (A.honest aside.old)
        → IfOk result (PiecesAgree (D.files disk.old) (A.copies aside.old) log at n) }
{
    let of_log = read_log(alloc, disk, log, at, n)?;
    let of_copy = read_copy(alloc, aside, log, at, n)?;
    Ok(of_log == of_copy)
}

/// Returns `n` bytes of a log from position `at` on.
fn read_log<D: LogDisk>(
    alloc: Global,
    disk: &mut D,
    log: u32,
    at: u64,
    n: u64,
) -> Result<Vec<u8>, DirFault>
    ensures reads { OnlyReads (D.honest disk.old) (D.files disk.old) (D.honest disk.new) (D.files disk.new) }
    ensures ok { IsTrue (D.honest disk.old) → IfOk result (λ bytes. IsPieceOf (D.files disk.old) log at n bytes.items) }
{
    match disk.read_at(alloc, log, at, n) {
        Ok(bytes) => Ok(bytes),
        Err(fault) => Err(DirFault::from(fault).of_known()),
    }
}

/// Returns `n` bytes of a copy from position `at` on.
fn read_copy<A: Aside>(
    alloc: Global,
    aside: &mut A,
    log: u32,
    at: u64,
    n: u64,
) -> Result<Vec<u8>, DirFault>
    ensures reads { OnlyReads (A.honest aside.old) (A.copies aside.old) (A.honest aside.new) (A.copies aside.new) }
    ensures ok { IsTrue (A.honest aside.old) → IfOk result (λ bytes. IsPieceOf (A.copies aside.old) log at n bytes.items) }
{
    match aside.read_at(alloc, log, at, n) {
        Ok(bytes) => Ok(bytes),
        Err(fault) => Err(DirFault::from(fault).of_known()),
    }
}

/// Writes a copy of a log of `length` bytes, beside the one that is there, and puts it in its place.
fn write_copy<D: LogDisk, A: Aside>(
    alloc: Global,
    disk: &mut D,
    aside: &mut A,
    log: u32,
    length: u64,
) -> Result<(), CopyFault>
    ensures reads { OnlyReads (D.honest disk.old) (D.files disk.old) (D.honest disk.new) (D.files disk.new) }
    ensures honest { A.honest aside.new ≡ A.honest aside.old }
    ensures transition { IsTrue (D.honest disk.old) → IsTrue (A.honest aside.old)
        → WritesCopy (D.files disk.old) (A.copies aside.old) log length result (A.copies aside.new) }
    ensures synced { IsTrue (A.honest aside.old)
        → OnOk result (map.get (A.synced aside.new) log ≡ map.get (A.copies aside.new) log) }
{
    match aside.begin(alloc, log) {
        Ok(()) => {}
        Err(DiskFault::Exists) => return Err(CopyFault::Blocked),
        Err(fault) => return Err(CopyFault::Broken(DirFault::from(fault).of_known())),
    }
    match fill_and_keep(alloc, disk, aside, log, length) {
        Ok(()) => Ok(()),
        Err(fault) => {
            let _ = aside.discard(alloc, log);
            Err(CopyFault::Broken(fault))
        }
    }
}

/// Fills the empty draft of a copy, and puts it in the place of the copy.
fn fill_and_keep<D: LogDisk, A: Aside>(
    alloc: Global,
    disk: &mut D,
    aside: &mut A,
    log: u32,
    length: u64,
) -> Result<(), DirFault>
    ensures reads { OnlyReads (D.honest disk.old) (D.files disk.old) (D.honest disk.new) (D.files disk.new) }
    ensures honest { A.honest aside.new ≡ A.honest aside.old }
    ensures transition { IsTrue (D.honest disk.old) → IsTrue (A.honest aside.old)
        → map.get (A.drafts aside.old) log ≡ Some []
        → FillsAndKeeps (D.files disk.old) (A.copies aside.old) log length result (A.copies aside.new) }
    ensures synced { IsTrue (A.honest aside.old)
        → OnOk result (map.get (A.synced aside.new) log ≡ map.get (A.copies aside.new) log) }
{
    copy_bytes(alloc, disk, aside, log, length)?;
    match aside.keep(alloc, log) {
        Ok(()) => Ok(()),
        Err(fault) => Err(DirFault::from(fault).of_known()),
    }
}

/// Writes the bytes of a log to the draft of its copy.
fn copy_bytes<D: LogDisk, A: Aside>(
    alloc: Global,
    disk: &mut D,
    aside: &mut A,
    log: u32,
    length: u64,
) -> Result<(), DirFault>
    ensures reads { OnlyReads (D.honest disk.old) (D.files disk.old) (D.honest disk.new) (D.files disk.new) }
    ensures aside { OnlyReads (A.honest aside.old) (A.copies aside.old) (A.honest aside.new) (A.copies aside.new) }
    ensures transition { IsTrue (D.honest disk.old) → IsTrue (A.honest aside.old)
        → CopiesBytes (D.files disk.old) (A.drafts aside.old) log length result (A.drafts aside.new) }
{
    let mut at = 0;
    while at < length {
        let n = (length - at).min(PIECE);
        copy_piece(alloc, disk, aside, log, at, n)?;
        at += n;
    }
    Ok(())
}

/// Appends `n` bytes of a log, from position `at` on, to the draft of its copy.
fn copy_piece<D: LogDisk, A: Aside>(
    alloc: Global,
    disk: &mut D,
    aside: &mut A,
    log: u32,
    at: u64,
    n: u64,
) -> Result<(), DirFault>
    ensures reads { OnlyReads (D.honest disk.old) (D.files disk.old) (D.honest disk.new) (D.files disk.new) }
    ensures aside { OnlyReads (A.honest aside.old) (A.copies aside.old) (A.honest aside.new) (A.copies aside.new) }
    ensures transition { IsTrue (D.honest disk.old) → IsTrue (A.honest aside.old)
        → CopiesPiece (D.files disk.old) (A.drafts aside.old) log at n result (A.drafts aside.new) }
{
    match disk.read_at(alloc, log, at, n) {
        Ok(bytes) => append(alloc, aside, log, &bytes),
        Err(fault) => Err(DirFault::from(fault).of_known()),
    }
}

/// Appends bytes to a draft.
fn append<A: Aside>(alloc: Global, aside: &mut A, log: u32, bytes: &[u8]) -> Result<(), DirFault>
    ensures reads { OnlyReads (A.honest aside.old) (A.copies aside.old) (A.honest aside.new) (A.copies aside.new) }
    ensures transition { IsTrue (A.honest aside.old) → AppendsMap (A.drafts aside.old) log bytes.now result (A.drafts aside.new) }
{
    match aside.append(alloc, log, bytes) {
        Ok(()) => Ok(()),
        Err(fault) => Err(DirFault::from(fault).of_known()),
    }
}

/// Syncs a copy.
fn sync_copy<A: Aside>(alloc: Global, aside: &mut A, log: u32) -> Result<(), DirFault>
    ensures reads { OnlyReads (A.honest aside.old) (A.copies aside.old) (A.honest aside.new) (A.copies aside.new) }
    ensures synced { IsTrue (A.honest aside.old)
        → OnOk result (map.get (A.synced aside.new) log ≡ map.get (A.copies aside.new) log) }
{
    match aside.sync(alloc, log) {
        Ok(()) => Ok(()),
        Err(fault) => Err(DirFault::from(fault).of_known()),
    }
}
