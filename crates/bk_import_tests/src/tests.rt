//! Round trips: what `export` writes of one disk is imported to another, which then exports the same.

mod faults;
mod refused;
mod trips;

use bk_disk::{LogDisk, MemDisk};
use bk_import::{ImportFault, Imported, Settings, import};
use bk_inspect::{DataForm, EntryRange, Form, run_export_as};
use std::alloc::{AllocError, Global};
use std::test::Fail;

/// The bytes of an export of a ledger, and its status.
fn export<D: LogDisk>(
    alloc: Global,
    disk: &mut D,
    range: EntryRange,
    form: Form,
    data: DataForm,
) -> (Vec<u8>, u8) {
    let mut output = Vec::new(alloc);
    let mut errors = Vec::new(alloc);
    let status = run_export_as(alloc, form, disk, range, data, &mut output, &mut errors);
    (output, status)
}

/// All entries of a ledger.
fn whole(ledger: u64) -> EntryRange {
    EntryRange {
        ledger,
        first: 0,
        last: 100,
    }
}

/// Appends the record of an entry with this data, at most 239 bytes.
fn put(bytes: &mut Vec<u8>, ledger: u8, entry: u8, data: &[u8]) -> Result<(), AllocError> {
    let length = data.len().saturating_add(16).min(255) as u32;
    bytes.extend_from_slice(&length.to_be_bytes())?;
    bytes.extend_from_slice(&[0, 0, 0, 0, 0, 0, 0, ledger])?;
    bytes.extend_from_slice(&[0, 0, 0, 0, 0, 0, 0, entry])?;
    bytes.extend_from_slice(data)
}

/// A disk whose log 5 has these records.
fn disk_of(alloc: Global, records: &[u8]) -> Result<MemDisk, Fail> {
    let mut bytes = Vec::from_slice(alloc, b"BKLO\0\0\0\x01")?;
    bytes.resize(1024, 0)?;
    bytes.extend_from_slice(records)?;
    let mut disk = MemDisk::new(alloc);
    disk.create(alloc, 5)?;
    disk.append(alloc, 5, &bytes)?;
    Ok(disk)
}

/// Imports records to a disk. Returns the disk then.
fn import_to(
    alloc: Global,
    disk: MemDisk,
    settings: Settings,
    records: &[u8],
) -> Result<(MemDisk, Imported), Fail> {
    let mut reader = records;
    let done = import(alloc, disk, settings, &[], &mut reader)?;
    match done.store.into_disk() {
        Ok(disk) => Ok((disk, done.imported)),
        Err(_) => Err(Fail::new("a lease is out")),
    }
}

/// Why records are not imported to an empty disk whose ledger 2 is deleted; as text.
fn refusal(alloc: Global, records: &[u8]) -> Result<String, Fail> {
    let mut reader = records;
    let disk = MemDisk::new(alloc);
    match import(alloc, disk, Settings::DEFAULT, &[2], &mut reader) {
        Ok(_) => Err(Fail::new("it is imported")),
        Err(fault) => Ok(fault_text(alloc, &fault)?),
    }
}

/// The text of a fault.
fn fault_text(alloc: Global, fault: &ImportFault) -> Result<String, AllocError> {
    format!(in alloc; "{fault}")
}
