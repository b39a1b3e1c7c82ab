//! A log that is truncated: its record comes first, and bytes that are hidden go with the others.

use super::kit::{Kept, Said, add, file_of, has, manifest_of};
use bk_disk::{CutDisk, DiskFault, LogDisk, MemDisk};
use bk_manifest::{LogState, Plan};
use bk_manifest_disk::open;
use std::alloc::Global;
use std::test::Fail;

/// Opens a log of 8 bytes, of which 6 are durable, by a manifest that fails at a call.
fn opened(alloc: Global, plan: Plan) -> Option<Kept> {
    let bytes = manifest_of(alloc, &[(5, Said::Durable(6))])?;
    let mut disk = MemDisk::new(alloc);
    if !add(alloc, &mut disk, 5, b"abcdefGH") {
        return None;
    }
    Some(open(alloc, disk, file_of(alloc, &bytes, plan)?).ok()?.disk)
}

/// Returns the durable length that is recorded.
fn recorded(disk: &Kept) -> Option<LogState> {
    disk.manifest().state().log(5)
}

#[test]
fn a_cut_is_recorded(rt: HostRuntime) -> Result<(), Fail> {
    let alloc = rt.alloc();
    let mut disk = opened(alloc, Plan::Never).expect(&rt, "memory");
    assert_eq!(rt; disk.cut(alloc, 5, 4), Ok(()));
    assert!(rt; has(alloc, &mut disk, 5, Some(b"abcd")));
    assert_eq!(rt; recorded(&disk), Some(LogState::Durable { length: 4 }));
    assert_eq!(rt; disk.append(alloc, 5, b"xy"), Ok(()));
    assert!(rt; has(alloc, &mut disk, 5, Some(b"abcdxy")));
    // A log that has no more bytes stays as it is, and so does its record.
    assert_eq!(rt; disk.cut(alloc, 5, 9), Ok(()));
    assert!(rt; has(alloc, &mut disk, 5, Some(b"abcdxy")));
    assert_eq!(rt; recorded(&disk), Some(LogState::Durable { length: 4 }));
    assert_eq!(rt; disk.cut(alloc, 6, 4), Err(DiskFault::NoLog));
    Ok(())
}

/// Cuts a log by a manifest that fails at a call, and once more if that fails. Returns whether it failed
/// and the log stayed; `None` if the log is not opened, or something else is found.
fn stays(alloc: Global, plan: Plan) -> Option<bool> {
    let mut disk = opened(alloc, plan)?;
    let answer = disk.cut(alloc, 5, 4);
    if answer == Err(DiskFault::Disk) {
        let is = has(alloc, &mut disk, 5, Some(b"abcdef"))
            && recorded(&disk) == Some(LogState::Durable { length: 6 })
            && disk.cut(alloc, 5, 4) == Ok(());
        return if is && has(alloc, &mut disk, 5, Some(b"abcd")) {
            Some(true)
        } else {
            None
        };
    }
    Some(false)
}

#[test]
fn a_log_stays_if_its_record_fails(rt: HostRuntime) {
    let mut failed = 0u8;
    for call in 0..12 {
        if stays(rt.alloc(), Plan::After(call)) == Some(true) {
            failed = failed.saturating_add(1);
        }
    }
    // A record is a write and a sync.
    assert_eq!(rt; failed, 2);
}
