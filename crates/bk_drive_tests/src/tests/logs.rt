//! Logs that are on the disk when a store opens.

use bk_disk::{DiskFault, LogDisk, MemDisk};
use std::alloc::Global;

/// A log: its id, bytes 8 to 20 of its header, which locate its map, and the bytes after the
/// header.
type Found = (u8, &'static [u8; 12], &'static [u8]);

/// Entry 0 of ledgers 1 and 2, and a map of both.
const SEALED: Found = (
    0,
    b"\0\0\0\0\0\0\x04\x2a\0\0\0\x02",
    b"\0\0\0\x11\0\0\0\0\0\0\0\x01\0\0\0\0\0\0\0\0a\
\0\0\0\x11\0\0\0\0\0\0\0\x02\0\0\0\0\0\0\0\0b\
\0\0\0\x34\xff\xff\xff\xff\xff\xff\xff\xff\xff\xff\xff\xff\xff\xff\xff\xfe\0\0\0\x02\
\0\0\0\0\0\0\0\x01\0\0\0\0\0\0\0\x15\0\0\0\0\0\0\0\x02\0\0\0\0\0\0\0\x15",
);

/// Entry 0 of ledger 3, and 20 of the 21 bytes of a record.
const TORN: Found = (
    1,
    &[0; 12],
    b"\0\0\0\x11\0\0\0\0\0\0\0\x03\0\0\0\0\0\0\0\0c\
\0\0\0\x11\0\0\0\0\0\0\0\x02\0\0\0\0\0\0\0\0",
);

/// Entry 0 of ledger 1 with other bytes, and of ledger 4.
const LATER: Found = (
    2,
    &[0; 12],
    b"\0\0\0\x11\0\0\0\0\0\0\0\x01\0\0\0\0\0\0\0\0A\0\0\0\x11\0\0\0\0\0\0\0\x04\0\0\0\0\0\0\0\0d",
);

/// Puts a log on a disk.
fn put(alloc: Global, disk: &mut MemDisk, log: &Found) -> Result<(), DiskFault> {
    let (id, map, behind) = log;
    make(alloc, disk, *id)?;
    disk.patch(alloc, u32::from(*id), map)?;
    disk.append(alloc, u32::from(*id), behind)
}

/// Creates a log that has a header without a map, and nothing else.
pub(super) fn make(alloc: Global, disk: &mut MemDisk, id: u8) -> Result<(), DiskFault> {
    let log = u32::from(id);
    disk.create(alloc, log)?;
    disk.append(alloc, log, b"BKLO\0\0\0\x01")?;
    disk.append(alloc, log, &[0; 1016])
}

/// Returns a disk with these logs.
pub(super) fn found(alloc: Global) -> Result<MemDisk, DiskFault> {
    let mut disk = MemDisk::new(alloc);
    for log in &[SEALED, TORN, LATER] {
        put(alloc, &mut disk, log)?;
    }
    Ok(disk)
}
