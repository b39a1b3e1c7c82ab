//! The logs of these tests.

use bk_disk::LogDisk;
use bk_log::LogWriter;
use std::alloc::Global;

/// Writes a log of three entries of this ledger, and seals it if asked.
pub(super) fn write<D: LogDisk>(
    alloc: Global,
    disk: &mut D,
    log: u32,
    ledger: u64,
    is_sealed: bool,
) -> Option<()> {
    let mut writer = LogWriter::create(disk, alloc, log).ok()?;
    let mut payload = vec![in alloc; 7u8; 30].ok()?;
    payload[..8].copy_from_slice(&ledger.to_be_bytes());
    for entry in 0u64..3 {
        payload[8..16].copy_from_slice(&entry.to_be_bytes());
        writer.put(disk, alloc, &payload).ok()?;
    }
    if is_sealed {
        writer.seal(disk, alloc).ok()?;
    }
    Some(())
}

/// Length of the hint of such a log: two numbers for its records of one size, beside head and checksum.
pub(super) const HINT: u64 = 68;

/// Makes log 1, sealed, log 2, open, log 3, sealed, and log 4, shorter than a header.
pub(super) fn make<D: LogDisk>(alloc: Global, disk: &mut D) -> Option<()> {
    write(alloc, disk, 1, 1, true)?;
    write(alloc, disk, 2, 2, false)?;
    write(alloc, disk, 3, 3, true)?;
    disk.create(alloc, 4).ok()?;
    disk.append(alloc, 4, b"BKLO").ok()
}
