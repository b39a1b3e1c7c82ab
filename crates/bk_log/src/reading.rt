//! Reads of a view that return exactly the requested bytes, or an error.

ghost use Rattle.std.specs.Prelude.{◌≡◌, ◌≤◌, false, IsTrue, IsErrOf, IfOk, length};
ghost use Rattle.bk_log.specs.Reads.{GivesBytes, Fills, FillsFront};

use bk_disk::{DiskFault, LogView};
use bk_record::RECORD_HEAD;
use std::alloc::Global;

/// Why bytes of a view could not be read.
#[derive(Clone, Copy)]
pub(crate) enum ReadFault {
    /// The view is not sound.
    Disk,
    /// The bytes are not in the view.
    PastEnd,
    /// Out of memory.
    Memory,
    /// A result that no honest view gives.
    Odd,
}

/// Returns the `n` bytes of a view from a position. Not inlined, since `fetch` needs it only for
/// long records.
#[inline(never)]
pub(crate) fn read<V: LogView>(
    view: &V,
    alloc: Global,
    at: u64,
    n: u64,
) -> Result<Vec<u8>, ReadFault>
    ensures cause { IsErrOf result ReadFault.Disk → V.sound view.now ≡ false }
    ensures long { IfOk result (λ v. length v.items ≡ n) }
    ensures transition { IsTrue (V.honest view.now) → GivesBytes (λ v. v.items) (V.bytes view.now) at n result }
{
    match view.read_at(alloc, at, n) {
        Ok(bytes) if bytes.len() as u64 == n => Ok(bytes),
        Ok(_) => Err(ReadFault::Odd),
        Err(DiskFault::Disk) => Err(ReadFault::Disk),
        Err(DiskFault::PastEnd) => Err(ReadFault::PastEnd),
        Err(DiskFault::Memory) => Err(ReadFault::Memory),
        Err(DiskFault::Exists | DiskFault::NoLog | DiskFault::TooLong) => Err(ReadFault::Odd),
    }
}

/// Reads the bytes of a view from a position into `out`.
pub(crate) fn read_into<V: LogView>(view: &V, at: u64, out: &mut [u8]) -> Result<(), ReadFault>
    ensures cause { IsErrOf result ReadFault.Disk → V.sound view.now ≡ false }
    ensures transition { IsTrue (V.honest view.now) → Fills (V.bytes view.now) at (length out.old) result out.new }
{
    match view.read_into(at, out) {
        Ok(()) => Ok(()),
        Err(DiskFault::Disk) => Err(ReadFault::Disk),
        Err(DiskFault::PastEnd) => Err(ReadFault::PastEnd),
        Err(_) => Err(ReadFault::Odd),
    }
}

/// Reads the bytes of a view from a position into the front of `out`: as many as `out` has, or as
/// the view has from there. Returns their number, at least 20.
pub(crate) fn read_front<V: LogView>(view: &V, at: u64, out: &mut [u8]) -> Result<usize, ReadFault>
    requires { RECORD_HEAD ≤ length out.old }
    ensures cause { IsErrOf result ReadFault.Disk → V.sound view.now ≡ false }
    ensures fits { IfOk result (λ n. (RECORD_HEAD ≤ n) × (n ≤ length out.new)) }
    ensures transition { IsTrue (V.honest view.now) → FillsFront (V.bytes view.now) at result out.new }
{
    let left = view.end().saturating_sub(at).min(out.len() as u64) as usize;
    if left < RECORD_HEAD {
        return Err(ReadFault::PastEnd);
    }
    match read_into(view, at, &mut out[..left]) {
        Ok(()) => Ok(left),
        Err(fault) => Err(fault),
    }
}
