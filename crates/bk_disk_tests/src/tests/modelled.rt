//! Logs of a real directory against lists of bytes: pieces of all sizes, in each order and with
//! other calls between them.

use super::stage::begin;
use bk_disk::{CutDisk, DirDisk, DiskFault, LogDisk, LogView};
use bk_record::LAST_LOG;
use std::alloc::{AllocError, Global};
use std::fs;
use std::process::Abort;

// What is gathered at most, a byte less and a byte more, and pieces that are far from it.
const SIZES: [usize; 6] = [1, 20, 65_535, 65_536, 65_537, 200_000];

const MORE_SIZES: [usize; 4] = [0, 3_000, 10_240, 40_000];

/// A call on a log.
#[derive(Clone, Copy)]
enum Deed {
    /// Appends bytes of the source: from a position on, so many.
    Append(usize, usize),
    Length,
    Read(usize, usize),
    View,
    Patch,
    Sync,
    Cut(usize),
    /// Removes the log and makes it again.
    Again,
}

/// A log of a disk, and the bytes that it is to have.
#[derive(Drop)]
struct Twin {
    rt: HostRuntime,
    log: u32,
    path: &'static str,
    bytes: Vec<u8>,
}

// Makes an empty log. Returns whether there is one now.
fn create(disk: &mut DirDisk, alloc: Global, log: u32) -> bool {
    log <= LAST_LOG && disk.create(alloc, log).is_ok()
}

impl Twin {
    // Makes a log.
    fn new(rt: &HostRuntime, disk: &mut DirDisk, log: u32, path: &'static str) -> Option<Twin> {
        if !create(disk, rt.alloc(), log) {
            return None;
        }
        Some(Twin {
            rt: *rt,
            log,
            path,
            bytes: Vec::new(rt.alloc()),
        })
    }

    // Makes a call, on the list of bytes too. Returns whether both answer the same.
    fn perform(&mut self, disk: &mut DirDisk, source: &[u8], deed: Deed) -> bool {
        let alloc = self.rt.alloc();
        match deed {
            Deed::Append(at, n) => self.append(disk, source.get(at..at.saturating_add(n))),
            Deed::Length => disk.length(alloc, self.log) == Ok(self.bytes.len() as u64),
            Deed::Read(at, n) => self.reads(disk, at, n),
            Deed::View => self.views(disk),
            Deed::Patch => self.patch(disk),
            Deed::Sync => disk.sync(alloc, self.log).is_ok() && self.is_on_file(),
            Deed::Cut(length) => {
                self.bytes.truncate(length);
                disk.cut(alloc, self.log, length as u64).is_ok()
            }
            Deed::Again => {
                self.bytes.clear();
                disk.remove(alloc, self.log).is_ok() && create(disk, alloc, self.log)
            }
        }
    }

    fn append(&mut self, disk: &mut DirDisk, piece: Option<&[u8]>) -> bool {
        let Some(piece) = piece else {
            return false;
        };
        disk.append(self.rt.alloc(), self.log, piece).is_ok()
            && self.bytes.extend_from_slice(piece).is_ok()
    }

    fn reads(&self, disk: &mut DirDisk, at: usize, n: usize) -> bool {
        let wanted = self.bytes.get(at..at.saturating_add(n));
        match (
            disk.read_at(self.rt.alloc(), self.log, at as u64, n as u64),
            wanted,
        ) {
            (Ok(found), Some(wanted)) => found.as_slice() == wanted,
            (Err(fault), None) => fault == DiskFault::PastEnd,
            _ => false,
        }
    }

    fn views(&self, disk: &mut DirDisk) -> bool {
        let Ok(view) = disk.view(self.rt.alloc(), self.log) else {
            return false;
        };
        let wanted = self.bytes.get(1024..).unwrap_or(&[]);
        match view.read_at(self.rt.alloc(), 1024, view.end().saturating_sub(1024)) {
            Ok(found) => found.as_slice() == wanted,
            Err(_) => false,
        }
    }

    fn patch(&mut self, disk: &mut DirDisk) -> bool {
        let patched = disk.patch(self.rt.alloc(), self.log, b"twelve bytes");
        if self.bytes.len() < 20 {
            return patched == Err(DiskFault::PastEnd);
        }
        self.bytes[8..20].copy_from_slice(b"twelve bytes");
        patched.is_ok()
    }

    // Whether the file has the bytes, and no more.
    fn is_on_file(&self) -> bool {
        match fs::read(&self.rt, self.path) {
            Ok(found) => found.as_slice() == self.bytes.as_slice(),
            Err(_) => false,
        }
    }
}

// Bytes whose pieces differ.
fn source(alloc: Global) -> Result<Vec<u8>, AllocError> {
    let mut bytes = Vec::new(alloc);
    for number in 0..350_000u32 {
        bytes.push((number % 251) as u8)?;
    }
    Ok(bytes)
}

// How a sequence of pieces ends.
const ENDS: [Deed; 4] = [
    Deed::Sync,
    Deed::View,
    Deed::Read(60_000, 9_000),
    Deed::Patch,
];

// Appends pieces of two sizes to a log that is made again, and looks at it.
fn appends_two(twin: &mut Twin, disk: &mut DirDisk, source: &[u8], sizes: [usize; 2]) -> bool {
    let [first, second] = sizes;
    let deeds = [
        Deed::Again,
        Deed::Append(7, 1),
        Deed::Append(0, first),
        Deed::Length,
        Deed::Append(101, second),
        Deed::Length,
        Deed::Append(1_003, 20),
        ENDS[first.wrapping_add(second) % 4],
        Deed::Append(0, 1),
        Deed::Sync,
    ];
    deeds.iter().all(|deed| twin.perform(disk, source, *deed))
}

fn appends_after(twin: &mut Twin, disk: &mut DirDisk, source: &[u8], first: usize) -> bool {
    SIZES
        .iter()
        .all(|second| appends_two(twin, disk, source, [first, *second]))
}

#[test]
fn pieces_of_each_size_are_appended_in_each_order(rt: HostRuntime) {
    assert!(rt; begin(&rt, "bk_disk_pieces"));
    let source = source(rt.alloc()).expect(&rt, "bytes");
    let mut disk = DirDisk::open(&rt, "bk_disk_pieces").expect(&rt, "a disk");
    let mut twin = Twin::new(&rt, &mut disk, 1, "bk_disk_pieces/1.log").expect(&rt, "a log");
    for first in &SIZES {
        assert!(rt;
            appends_after(&mut twin, &mut disk, &source, *first),
            "{first}"
        );
    }
    drop(disk);
    assert!(rt; fs::remove_dir_all(&rt, "bk_disk_pieces").is_ok());
}

/// Numbers that look as if by chance, the same in each run.
#[derive(Drop)]
struct Chance {
    state: u64,
}

impl Chance {
    // Returns the next number, below another one.
    fn below(&mut self, end: usize) -> usize {
        self.state = self
            .state
            .wrapping_mul(6_364_136_223_846_793_005)
            .wrapping_add(1_442_695_040_888_963_407);
        (self.state >> 33) as usize % end.max(1)
    }

    // Returns the size of a piece.
    fn size(&mut self) -> usize {
        match self.below(12) {
            number if number < 6 => SIZES.get(number).copied().unwrap_or(0),
            number if number < 10 => MORE_SIZES.get(number % 4).copied().unwrap_or(0),
            _ => self.below(200),
        }
    }

    // Returns a call on a log of this length, which is made again once it is long.
    fn deed(&mut self, length: usize) -> Deed {
        if length > 300_000 {
            return Deed::Again;
        }
        match self.below(24) {
            0 => Deed::Length,
            1 => Deed::Read(self.below(length.saturating_add(9)), self.below(70_000)),
            2 => Deed::View,
            3 => Deed::Patch,
            4 => Deed::Sync,
            5 => Deed::Cut(self.below(length.saturating_add(9))),
            6 => Deed::Again,
            _ => Deed::Append(self.below(150_000), self.size()),
        }
    }
}

// The calls on the logs of one disk.
const CALLS: usize = 75;

// Makes calls on two logs. Returns the number of the first one that is not answered so, and that
// of calls if there is none.
fn perform_some(
    disk: &mut DirDisk,
    source: &[u8],
    logs: (&mut Twin, &mut Twin),
    chance: &mut Chance,
) -> usize {
    let (one, other) = logs;
    for number in 0..CALLS {
        let twin = match chance.below(2) {
            0 => &mut *one,
            _ => &mut *other,
        };
        let deed = chance.deed(twin.bytes.len());
        if !twin.perform(disk, source, deed) {
            return number;
        }
    }
    CALLS
}

#[test]
fn two_logs_are_written_with_other_calls_between(rt: HostRuntime) {
    assert!(rt; begin(&rt, "bk_disk_twins"));
    let source = source(rt.alloc()).expect(&rt, "bytes");
    let mut chance = Chance { state: 20 };
    let mut disk = DirDisk::open(&rt, "bk_disk_twins").expect(&rt, "a disk");
    let mut one = Twin::new(&rt, &mut disk, 1, "bk_disk_twins/1.log").expect(&rt, "a log");
    let mut other = Twin::new(&rt, &mut disk, 2, "bk_disk_twins/2.log").expect(&rt, "a log");
    for round in 0..4 {
        let done = perform_some(&mut disk, &source, (&mut one, &mut other), &mut chance);
        assert!(rt; done == CALLS, "round {round}: call {done}");
        // The end of a disk writes all.
        drop(disk);
        assert!(rt; one.is_on_file() && other.is_on_file(), "round {round}");
        disk = DirDisk::open(&rt, "bk_disk_twins").expect(&rt, "a disk");
    }
    drop(disk);
    assert!(rt; fs::remove_dir_all(&rt, "bk_disk_twins").is_ok());
}
