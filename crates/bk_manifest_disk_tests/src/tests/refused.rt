//! An opening whose allocations are refused.

use super::kit::{Said, add, file_of, has, manifest_of};
use bk_disk::MemDisk;
use bk_manifest::Plan;
use bk_manifest_disk::open;
use std::alloc::Global;

/// Opens three logs: one that is longer than its record, one that is back, and an unknown one.
/// `None` if an allocation is refused.
fn is_shown(alloc: Global) -> Option<bool> {
    let mut disk = MemDisk::new(alloc);
    for log in 1..4 {
        if !add(alloc, &mut disk, log, b"abcdefgh") {
            return None;
        }
    }
    let records = [(1, Said::Durable(4)), (2, Said::Removed(6))];
    let bytes = manifest_of(alloc, &records)?;
    let opened = open(alloc, disk, file_of(alloc, &bytes, Plan::Never)?).ok()?;
    let mut disk = opened.disk;
    let is = has(alloc, &mut disk, 1, Some(b"abcd"))
        && has(alloc, &mut disk, 2, Some(b"abcdef"))
        && has(alloc, &mut disk, 3, Some(b"abcdefgh"));
    is.then_some(opened.reports.len() == 2)
}

#[test]
fn an_opening_without_memory_is_opened_again(rt: HostRuntime) {
    let first = is_shown(rt.alloc());
    assert!(rt; first != Some(false));
    assert!(rt; first == Some(true) || is_shown(rt.alloc()) == Some(true));
}
