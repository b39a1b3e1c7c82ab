//! A manifest of three logs that is cut at each byte.

use super::kit::{Said, add, file_of, has, manifest_of};
use bk_disk::MemDisk;
use bk_manifest::Plan;
use bk_manifest_disk::open;
use std::alloc::Global;

/// Three records of 13 bytes each, in batches of 25 bytes from position 24 on.
const RECORDS: [(u16, Said); 3] = [
    (1, Said::Durable(4)),
    (2, Said::Durable(5)),
    (3, Said::Durable(6)),
];

/// Returns whether an opening shows of each log what the first `whole` records have, and all of the
/// others, and counts so many torn bytes.
fn is_shown(alloc: Global, bytes: &[u8], whole: usize, torn: usize) -> Option<bool> {
    let mut disk = MemDisk::new(alloc);
    for log in 1..4 {
        if !add(alloc, &mut disk, log, b"abcdefgh") {
            return None;
        }
    }
    let opened = open(alloc, disk, file_of(alloc, bytes, Plan::Never)?).ok()?;
    let mut disk = opened.disk;
    let mut is = opened.torn == torn && opened.reports.len() == whole;
    for (log, short) in [(1, b"abcd".as_slice()), (2, b"abcde"), (3, b"abcdef")] {
        let want = if usize::from(log) <= whole {
            short
        } else {
            b"abcdefgh"
        };
        is = is && has(alloc, &mut disk, log, Some(want));
    }
    Some(is)
}

#[test]
fn a_manifest_cut_at_each_byte_has_its_whole_batches(rt: HostRuntime) {
    let alloc = rt.alloc();
    let bytes = manifest_of(alloc, &RECORDS).expect(&rt, "memory");
    assert_eq!(rt; bytes.len(), 99);
    assert_eq!(rt; is_shown(alloc, &[], 0, 0), Some(true));
    for length in 1..24 {
        assert_eq!(rt; is_shown(alloc, &bytes[..length], 0, 0), None);
    }
    for length in 24..100 {
        let whole = (length - 24) / 25;
        let torn = (length - 24) % 25;
        assert_eq!(rt;
            is_shown(alloc, &bytes[..length], whole, torn),
            Some(true),
            "{length}"
        );
    }
}
