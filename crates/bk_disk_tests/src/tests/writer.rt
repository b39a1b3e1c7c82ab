//! The one writer of a real directory, and files that somebody else changes while they are written.

use super::change::Change::{Cut, Directory, Grow, Remove, Rename, Write};
use super::stage::{Act, begin, run};
use super::table::{Call, Row, Want, check};
use bk_disk::{DirDisk, DiskFault};
use std::alloc::Global;
use std::fs;
use std::process::Abort;

const DISK: Want<'static> = Want::Fault(DiskFault::Disk);

const REFUSED: [Row; 7] = [
    (Call::List, Want::Ids(&[1])),
    (Call::Read(1, 0, 3), Want::Bytes(b"012")),
    (Call::Create(2), DISK),
    (Call::Append(1, b"x"), DISK),
    (Call::Patch(1, b"twelve bytes"), DISK),
    (Call::Remove(1), DISK),
    (Call::Length(1), Want::Number(20)),
];

const BEGIN: [Row; 2] = [
    (Call::Create(1), Want::Done),
    (Call::Append(1, b"0123456789abcdefghij"), Want::Done),
];

const FREE: [Row; 3] = [
    (Call::Create(2), Want::Done),
    (Call::Remove(1), Want::Done),
    (Call::List, Want::Ids(&[2])),
];

const TWO_WRITERS: [Act; 12] = [
    Act::Open,
    Act::Calls(&BEGIN),
    Act::Swap,
    Act::Open,
    Act::Calls(&REFUSED),
    Act::HeldHere,
    Act::Swap,
    Act::Close,
    Act::OpenToWrite,
    Act::Close,
    Act::Swap,
    Act::Calls(&FREE),
];

#[test]
fn a_second_writer_is_refused_and_reads_on(rt: HostRuntime) {
    run(&rt, &rt, "bk_disk_two_writers", &TWO_WRITERS);
}

// Directories that are not to be written, and what is reported of each.
const NOT_WRITTEN: [Act; 6] = [
    Act::Open,
    Act::Do(Write("1.log", b"")),
    Act::Do(Directory("writer.lock")),
    Act::NotOpened(
        "bk_disk_no_lock/gone",
        "disk: bk_disk_no_lock/gone: No such file or directory (os error 2)",
    ),
    Act::NotOpened(
        "bk_disk_no_lock/1.log",
        "disk: bk_disk_no_lock/1.log: Not a directory (os error 20)",
    ),
    Act::NotOpened(
        "bk_disk_no_lock",
        "disk: bk_disk_no_lock/writer.lock: Is a directory (os error 21)",
    ),
];

#[test]
fn a_directory_that_is_not_to_be_written_is_reported_with_the_reason(rt: HostRuntime) {
    run(&rt, &rt, "bk_disk_no_lock", &NOT_WRITTEN);
}

const BEGUN: [Row; 7] = [
    (Call::Create(1), Want::Done),
    (Call::Append(1, b"abc"), Want::Done),
    (Call::Sync(1), Want::Done),
    (Call::Create(2), Want::Done),
    (Call::Append(2, b"abcdef"), Want::Done),
    (Call::Create(3), Want::Done),
    (Call::Create(4), Want::Done),
];

const SEEN: [Row; 13] = [
    // What is written goes to the end, wherever that is.
    (Call::Append(1, b"d"), Want::Done),
    (Call::Sync(1), DISK),
    (Call::Append(1, b"e"), DISK),
    (Call::Sync(1), DISK),
    (Call::Read(1, 0, 6), Want::Bytes(b"abcxyd")),
    (Call::Length(2), DISK),
    (Call::Append(2, b"g"), DISK),
    (Call::Read(2, 0, 4), Want::Bytes(b"abcd")),
    (Call::View(3), DISK),
    (Call::Sync(4), Want::Fault(DiskFault::NoLog)),
    (Call::Create(4), Want::Done),
    (Call::Append(4, b"new"), Want::Done),
    (Call::Sync(4), Want::Done),
];

// Somebody else makes log 1 longer and log 2 shorter, log 3 another file, and removes log 4.
const INTRUDED: [Act; 8] = [
    Act::Open,
    Act::Calls(&BEGUN),
    Act::Do(Grow("1.log", b"xy")),
    Act::Do(Cut("2.log", 4)),
    Act::Do(Write("other", b"")),
    Act::Do(Rename("other", "3.log")),
    Act::Do(Remove("4.log")),
    Act::Calls(&SEEN),
];

#[test]
fn what_somebody_else_wrote_is_seen_and_stays(rt: HostRuntime) {
    run(&rt, &rt, "bk_disk_intruder", &INTRUDED);
}

// Makes a log of two bytes.
fn create_log(rt: &impl Abort, alloc: Global, disk: &mut DirDisk, log: u16) {
    let calls = [
        (Call::Create(log), Want::Done),
        (Call::Append(log, b"ab"), Want::Done),
    ];
    check(rt, alloc, disk, &calls);
}

// Appends two bytes to such a log.
fn grow_log(rt: &impl Abort, alloc: Global, disk: &mut DirDisk, log: u16) {
    let calls = [
        (Call::Append(log, b"cd"), Want::Done),
        (Call::Sync(log), Want::Done),
        (Call::Length(log), Want::Number(4)),
        (Call::Read(log, 0, 4), Want::Bytes(b"abcd")),
    ];
    check(rt, alloc, disk, &calls);
}

// Writes 40 logs, each twice.
fn write_logs(rt: &impl Abort, alloc: Global, disk: &mut DirDisk) {
    for log in 0..40 {
        create_log(rt, alloc, disk, log);
    }
    for log in 0..40 {
        grow_log(rt, alloc, disk, log);
    }
}

#[test]
fn more_logs_are_written_than_files_are_kept(rt: HostRuntime) {
    assert!(rt; begin(&rt, "bk_disk_many"));
    let mut disk = DirDisk::open(&rt, "bk_disk_many").expect(&rt, "a disk");
    write_logs(&rt, rt.alloc(), &mut disk);
    drop(disk);
    assert!(rt; fs::remove_dir_all(&rt, "bk_disk_many").is_ok());
}
