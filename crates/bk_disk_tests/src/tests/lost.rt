//! Logs of a real directory on which a call failed, and what is reported of it.

use super::change::Change::{Cut, Fill, Grow, Remove, Rename, Write};
use super::sight::Sight::Has;
use super::stage::{Act, begin, run};
use super::table::{Call, Row, Want};
use bk_disk::{DirDisk, DiskFault, FileFault, LogDisk, Operation};
use std::fs;
use std::process::Abort;

const DISK: Want<'static> = Want::Fault(DiskFault::Disk);

const BEGUN: [Row; 2] = [
    (Call::Create(1), Want::Done),
    (Call::Append(1, b"0123456789abcdefghij"), Want::Done),
];

const LOST: [Row; 3] = [
    (Call::Sync(1), DISK),
    (Call::Append(1, b"x"), DISK),
    (Call::Patch(1, b"twelve bytes"), DISK),
];

// More logs than files stay open.
const MORE: [Row; 18] = [
    (Call::Create(2), Want::Done),
    (Call::Create(3), Want::Done),
    (Call::Create(4), Want::Done),
    (Call::Create(5), Want::Done),
    (Call::Create(6), Want::Done),
    (Call::Create(7), Want::Done),
    (Call::Create(8), Want::Done),
    (Call::Create(9), Want::Done),
    (Call::Create(10), Want::Done),
    (Call::Create(11), Want::Done),
    (Call::Create(12), Want::Done),
    (Call::Create(13), Want::Done),
    (Call::Create(14), Want::Done),
    (Call::Create(15), Want::Done),
    (Call::Create(16), Want::Done),
    (Call::Create(17), Want::Done),
    (Call::Create(18), Want::Done),
    (Call::Create(19), Want::Done),
];

const MADE_AGAIN: [Row; 5] = [
    (Call::Length(1), Want::Number(22)),
    (Call::Remove(1), Want::Done),
    (Call::Create(1), Want::Done),
    (Call::Append(1, b"0123456789abcdefghij"), Want::Done),
    (Call::Sync(1), Want::Done),
];

const CLOSED: [Act; 16] = [
    Act::Open,
    Act::Failed(0),
    Act::Calls(&BEGUN),
    Act::IsLost(1, false),
    Act::IsKept(1, false),
    Act::Do(Grow("1.log", b"xy")),
    Act::IsLost(1, false),
    Act::Calls(&LOST),
    Act::IsLost(1, true),
    Act::IsLost(2, false),
    Act::Failed(3),
    Act::Calls(&MORE),
    Act::Calls(&LOST),
    Act::Calls(&MADE_AGAIN),
    Act::IsLost(1, false),
    Act::Failed(6),
];

#[test]
fn a_lost_log_stays_lost_when_its_file_is_closed(rt: HostRuntime) {
    run(&rt, &rt, "bk_disk_lost", &CLOSED);
}

const NOT_OURS: [Row; 6] = [
    (Call::Remove(1), DISK),
    (Call::Remove(1), DISK),
    (Call::Length(1), DISK),
    (Call::View(1), DISK),
    (Call::Append(1, b"x"), DISK),
    (Call::Sync(1), DISK),
];

const OTHER: [Act; 6] = [
    Act::Open,
    Act::Calls(&BEGUN),
    Act::Do(Write("other", b"other")),
    Act::Do(Rename("other", "1.log")),
    Act::Calls(&NOT_OURS),
    Act::See(Has("1.log", b"other")),
];

#[test]
fn another_file_of_the_name_is_not_removed(rt: HostRuntime) {
    run(&rt, &rt, "bk_disk_other", &OTHER);
}

const MISSED: [Row; 2] = [
    (Call::Length(1), Want::Fault(DiskFault::NoLog)),
    (Call::Sync(1), Want::Fault(DiskFault::NoLog)),
];

// From then on the log counts as one whose removal has not ended.
const MISSING: [Row; 4] = [
    (Call::Sync(1), DISK),
    (Call::Append(1, b"x"), DISK),
    (Call::Length(1), DISK),
    (Call::Remove(1), Want::Done),
];

const REMOVED: [Act; 9] = [
    Act::Open,
    Act::Calls(&BEGUN),
    Act::Do(Remove("1.log")),
    Act::IsLost(1, false),
    Act::Calls(&MISSED),
    Act::IsLost(1, true),
    Act::Calls(&MISSING),
    Act::IsLost(1, false),
    Act::Calls(&NO_LOG),
];

#[test]
fn a_log_that_somebody_removed_is_lost_once_it_is_synced(rt: HostRuntime) {
    run(&rt, &rt, "bk_disk_missing", &REMOVED);
}

const NO_LOG: [Row; 1] = [(Call::Length(31), Want::Fault(DiskFault::NoLog))];

const TOLD: [Act; 9] = [
    Act::Open,
    Act::Last(""),
    Act::Calls(&NO_LOG),
    Act::Last("bk_disk_told/1f.log: open: No such file or directory (os error 2)"),
    Act::Do(Fill("9.log", 5, 1030)),
    Act::View(9),
    Act::Do(Cut("9.log", 1026)),
    Act::Reads(0, 1024, 6, DISK),
    Act::Last("bk_disk_told/9.log: read: the file is shorter than it was"),
];

#[test]
fn the_last_call_that_failed_is_reported(rt: HostRuntime) {
    run(&rt, &rt, "bk_disk_told", &TOLD);
}

// Returns what a watch of a dropped disk reports once its directory could not be listed.
fn fault_of_list(rt: &HostRuntime, folder: &str) -> Option<FileFault> {
    let mut disk = DirDisk::open(rt, folder).ok()?;
    let watch = disk.fault_watch(rt.alloc()).ok()?;
    fs::remove_dir_all(rt, folder).ok()?;
    if disk.list(rt.alloc()) != Err(DiskFault::Disk) {
        return None;
    }
    drop(disk);
    watch.last(rt.alloc()).ok()?
}

#[test]
fn a_failed_call_is_reported_when_the_disk_was_dropped(rt: HostRuntime) {
    assert!(rt; begin(&rt, "bk_disk_dropped"));
    let fault = fault_of_list(&rt, "bk_disk_dropped").expect(&rt, "a fault");
    assert!(rt; fault.operation() == Operation::List);
    assert!(rt; fault.path() == "bk_disk_dropped");
    assert!(rt; fault.reason().raw_os_error() == Some(2));
}
