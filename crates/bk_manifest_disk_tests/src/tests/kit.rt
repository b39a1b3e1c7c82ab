//! Disks and manifests in memory.

use bk_disk::{LogDisk, MemDisk};
use bk_manifest::{Manifest, ManifestFile, MemManifest, Plan, Record};
use bk_manifest_disk::{KeptDisk, LimitedDisk};
use std::alloc::Global;

/// A disk of files in memory that was opened by a manifest in memory.
pub(super) type Kept = KeptDisk<LimitedDisk<MemDisk>, MemManifest>;

/// Returns a file of these bytes, all of them synced, whose device fails as planned.
pub(super) fn file_of(alloc: Global, bytes: &[u8], plan: Plan) -> Option<MemManifest> {
    Some(MemManifest {
        bytes: Vec::from_slice(alloc, bytes).ok()?,
        synced: bytes.len(),
        plan,
        renames: false,
    })
}

/// What a record says of a log: a durable length, if any.
#[derive(Clone, Copy)]
pub(super) enum Said {
    Made,
    Durable(u64),
    Removed(u64),
}

/// Returns the record of a log.
fn record_of(log: u16, said: Said) -> Record {
    let log = u32::from(log);
    match said {
        Said::Made => Record::MadeLog(log),
        Said::Durable(length) => Record::DurableLog { log, length },
        Said::Removed(length) => Record::RemovedLog { log, length },
    }
}

/// Returns the bytes of a manifest that has these records, one batch for each.
pub(super) fn manifest_of(alloc: Global, records: &[(u16, Said)]) -> Option<Vec<u8>> {
    let file = file_of(alloc, &[], Plan::Never)?;
    let mut manifest = Manifest::create(alloc, file, 7).ok()?;
    for (log, said) in records {
        manifest.note(record_of(*log, *said)).ok()?;
        manifest.commit(alloc).ok()?;
    }
    Vec::from_slice(alloc, &manifest.file().bytes).ok()
}

/// Adds a log with these bytes.
pub(super) fn add<D: LogDisk>(alloc: Global, disk: &mut D, log: u16, bytes: &[u8]) -> bool {
    disk.create(alloc, u32::from(log)).is_ok() && disk.append(alloc, u32::from(log), bytes).is_ok()
}

/// Returns whether a log has these bytes, or there is no such log.
pub(super) fn has<D: LogDisk>(alloc: Global, disk: &mut D, log: u16, bytes: Option<&[u8]>) -> bool {
    let found = disk.length(alloc, u32::from(log)).ok();
    if found != bytes.map(|bytes| bytes.len() as u64) {
        return false;
    }
    match (found, bytes) {
        (Some(length), Some(bytes)) => {
            let read = disk.read_at(alloc, u32::from(log), 0, length);
            matches!(read, Ok(read) if read.as_slice() == bytes)
        }
        _ => true,
    }
}
