//! A log with its header, and whether it is sealed.

ghost use Rattle.std.specs.Prelude.{◌≡◌, ◌≢◌, ◌⊎◌, ◌<◌, ◌≤◌, ℕ, true, false, length, take, IfOk, IsErrOf, IsNone, IsTrue, Ok, Some};
ghost use Rattle.std.specs.FinMap as map;
ghost use Rattle.bk_record.specs.Files.{header_length};
ghost use Rattle.bk_disk.specs.Disk.{IsFile};
ghost use Rattle.bk_disk.specs.declared.fault.DiskFault.TheVariants as causes;
ghost use Rattle.bk_head.specs.Reading.{map_place};
ghost use Rattle.bk_hint_disk.specs.Usable.{IsSealedAt};
ghost use Rattle.bk_hint_disk.specs.declared.fault.MakeFault.TheVariants as faults;
ghost use Rattle.bk_hint_folder.specs.Sealed.{IsFrontOf, NamesNoMap};

use bk_disk::{DiskFault, LogDisk, LogView};
use bk_head::{Header, place_of_map, read_header};
use bk_hint_disk::MakeFault;
use bk_record::HEADER_LENGTH;
use std::alloc::Global;

/// A log: its header, empty if the log is shorter than one, and a view of it.
#[derive(Drop)]
pub(crate) struct Log<V: LogView> {
    pub(crate) header: Vec<u8>,
    pub(crate) view: V,
}

/// Returns a log of a disk.
///
/// # Errors
///
/// - `NoLog`, `Memory`, `Disk`, and `Odd` if the disk is not honest.
pub(crate) fn log_of<D: LogDisk>(
    alloc: Global,
    disk: &mut D,
    log: u32,
) -> Result<Log<D::View>, MakeFault>
    ensures honest { D.honest disk.new ≡ D.honest disk.old }
    ensures files { IsTrue (D.honest disk.old) → D.files disk.new ≡ D.files disk.old }
    ensures view { IsTrue (D.honest disk.old) → IfOk result (λ found. IsFile (D.files disk.old) log (D.View.bytes found.view)
        × IsTrue (D.View.honest found.view) × IsFrontOf (D.View.bytes found.view) found.header.items) }
    ensures gone { IsTrue (D.honest disk.old) → IsErrOf result faults.NoLog → IsNone (map.get (D.files disk.old) log) }
{
    let header = match disk.read_at(alloc, log, 0, HEADER_LENGTH as u64) {
        Ok(header) => header,
        // It is shorter than a header.
        Err(DiskFault::PastEnd) => Vec::new(alloc),
        Err(fault) => return Err(fault_of(fault)),
    };
    match disk.view(alloc, log) {
        Ok(view) => Ok(Log { header, view }),
        Err(fault) => Err(fault_of(fault)),
    }
}

/// Returns whether this is the header of a log of this length that names a ledgers map which begins
/// in the log.
pub(crate) fn is_sealed(header: &[u8], end: u64) -> bool
    ensures sealed { result ≡ true → (header_length ≤ length header.now) × ((at : ℕ) × IsSealedAt header.now end at) }
    ensures unsealed { result ≡ false → (length header.now < header_length) ⊎ NamesNoMap (take header_length header.now) end }
{
    let Some(header) = header.first_chunk() else {
        return false;
    };
    match read_header(header) {
        Ok(header) => names_map(end, &header),
        Err(_) => false,
    }
}

/// Returns whether a header names a ledgers map that begins in a log of this length.
fn names_map(end: u64, header: &Header) -> bool
    ensures some { result ≡ true → (at : ℕ) × ((count : ℕ) × (map_place end header.now.map_offset header.now.count ≡ Ok (Some (at, count)))) }
    ensures none { result ≡ false → (at count : ℕ) → map_place end header.now.map_offset header.now.count ≢ Ok (Some (at, count)) }
{
    match place_of_map(end, header) {
        Ok(Some(_)) => true,
        Ok(None) => false,
        Err(_fault) => false,
    }
}

/// Returns the fault of a call on a disk.
pub(crate) fn fault_of(fault: DiskFault) -> MakeFault
    ensures { result ≡ faults.NoLog → fault ≡ causes.NoLog }
{
    match fault {
        DiskFault::Disk => MakeFault::Disk,
        DiskFault::Memory => MakeFault::Memory,
        DiskFault::NoLog => MakeFault::NoLog,
        _ => MakeFault::Odd,
    }
}
