//! Logs that are cut.

use super::change::Change::Grow;
use super::sight::Sight::{Has, Names};
use super::stage::{Act, run};
use super::table::{Call, Row, Want, check};
use bk_disk::{CutDisk, DiskFault, FaultDisk, LogDisk, MemDisk};
use std::alloc::Global;
use std::process::Abort;

const BEGUN: [Row; 3] = [
    (Call::Create(1), Want::Done),
    (Call::Append(1, b"0123456789"), Want::Done),
    (Call::Sync(1), Want::Done),
];

const SHORTER: [Row; 4] = [
    (Call::Length(1), Want::Number(4)),
    (Call::Read(1, 0, 4), Want::Bytes(b"0123")),
    (Call::Append(1, b"x"), Want::Done),
    (Call::Read(1, 0, 5), Want::Bytes(b"0123x")),
];

// A log is cut, is short enough, and is missing.
fn check_cuts<D: CutDisk>(rt: &impl Abort, alloc: Global, disk: &mut D) {
    check(rt, alloc, disk, &BEGUN);
    assert!(rt; disk.cut(alloc, 1, 4) == Ok(()));
    assert!(rt; disk.cut(alloc, 1, 4) == Ok(()));
    assert!(rt; disk.cut(alloc, 1, 1000) == Ok(()));
    check(rt, alloc, disk, &SHORTER);
    assert!(rt; disk.cut(alloc, 2, 0) == Err(DiskFault::NoLog));
    assert!(rt; disk.cut(alloc, 1, 0) == Ok(()));
    assert!(rt; disk.length(alloc, 1) == Ok(0));
}

#[test]
fn a_log_in_memory_is_cut(rt: HostRuntime) {
    check_cuts(&rt, rt.alloc(), &mut MemDisk::new(rt.alloc()));
    let mut disk = FaultDisk::new(MemDisk::new(rt.alloc()), 0, 0);
    check_cuts(&rt, rt.alloc(), &mut disk);
}

const WHOLE: [Row; 1] = [(Call::Read(1, 0, 10), Want::Bytes(b"0123456789"))];

#[test]
fn a_cut_that_fails_leaves_the_log(rt: HostRuntime) {
    let alloc = rt.alloc();
    let mut disk = FaultDisk::new(MemDisk::new(alloc), 4, 0);
    check(&rt, alloc, &mut disk, &BEGUN);
    assert!(rt; disk.cut(alloc, 1, 4) == Err(DiskFault::Disk));
    check(&rt, alloc, &mut disk, &WHOLE);
    assert!(rt; disk.cut(alloc, 1, 4) == Ok(()));
    check(&rt, alloc, &mut disk, &SHORTER);
}

// What is cut stands beside the log, each time in a new file.
const CUT: [Act; 13] = [
    Act::OpenToWrite,
    Act::Calls(&BEGUN),
    Act::Cut(1, 4),
    Act::See(Has("1.log", b"0123")),
    Act::See(Has("1.log.cut.0", b"456789")),
    Act::Cut(1, 4),
    Act::See(Names(2)),
    Act::Calls(&SHORTER),
    Act::Cut(1, 0),
    Act::See(Has("1.log", b"")),
    Act::See(Has("1.log.cut.0", b"456789")),
    Act::See(Has("1.log.cut.1", b"0123x")),
    Act::Calls(&[(Call::List, Want::Ids(&[1]))]),
];

#[test]
fn a_log_of_a_directory_is_cut_beside_a_copy(rt: HostRuntime) {
    run(&rt, &rt, "bk_disk_cut", &CUT);
}

const LOST: [Row; 1] = [(Call::Sync(1), Want::Fault(DiskFault::Disk))];

// A log that somebody else changed is not cut.
const CHANGED: [Act; 6] = [
    Act::OpenToWrite,
    Act::Calls(&BEGUN),
    Act::Do(Grow("1.log", b"xy")),
    Act::Calls(&LOST),
    Act::IsLost(1, true),
    Act::See(Has("1.log", b"0123456789xy")),
];

#[test]
fn a_log_that_is_lost_is_not_cut(rt: HostRuntime) {
    run(&rt, &rt, "bk_disk_not_cut", &CHANGED);
}
