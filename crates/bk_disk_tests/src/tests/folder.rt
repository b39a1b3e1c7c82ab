//! A disk over a real directory, which each test makes and removes.

use super::change::Change::{Cut, Directory, Fill, Link, RemoveAll, Twin, Write};
use super::stage::{Act, run};
use super::table::{Call, Row, Want};
use bk_disk::{DirDisk, DiskFault};
use std::process::Abort;

const CALLS: [Row; 18] = [
    (Call::Create(31), Want::Done),
    (Call::Create(31), Want::Fault(DiskFault::Exists)),
    (Call::Append(31, b"0123456789"), Want::Done),
    (
        Call::Patch(31, b"twelve bytes"),
        Want::Fault(DiskFault::PastEnd),
    ),
    (Call::Append(31, b"0123456789abc"), Want::Done),
    (Call::Patch(31, b"twelve bytes"), Want::Done),
    (Call::Sync(31), Want::Done),
    (
        Call::Read(31, 0, 23),
        Want::Bytes(b"01234567twelve bytesabc"),
    ),
    (Call::Read(31, 20, 4), Want::Fault(DiskFault::PastEnd)),
    (Call::Length(31), Want::Number(23)),
    (Call::View(31), Want::Bytes(b"")),
    (Call::Create(2), Want::Done),
    (Call::List, Want::Ids(&[2, 31])),
    (Call::Remove(31), Want::Done),
    (Call::Remove(31), Want::Fault(DiskFault::NoLog)),
    (Call::Length(31), Want::Fault(DiskFault::NoLog)),
    (Call::Append(31, b"a"), Want::Fault(DiskFault::NoLog)),
    (Call::List, Want::Ids(&[2])),
];

const CALLED: [Act; 2] = [Act::Open, Act::Calls(&CALLS)];

#[test]
fn calls_on_a_directory(rt: HostRuntime) {
    run(&rt, &rt, "bk_disk_calls", &CALLED);
}

const LISTED: [Row; 4] = [
    (Call::List, Want::Ids(&[0, 3, 31, 2_147_483_647])),
    (Call::Length(3), Want::Number(5)),
    (Call::Length(2), Want::Fault(DiskFault::NoLog)),
    (Call::View(4), Want::Fault(DiskFault::NoLog)),
];

// Files of five bytes, a directory, and links to a file and to the directory.
const FILES: [Act; 16] = [
    Act::Open,
    Act::Do(Write("0.log", b"bytes")),
    Act::Do(Write("1f.log", b"bytes")),
    Act::Do(Write("7fffffff.log", b"bytes")),
    Act::Do(Write("80000000.log", b"bytes")),
    Act::Do(Write("01f.log", b"bytes")),
    Act::Do(Write("00.log", b"bytes")),
    Act::Do(Write("1F.log", b"bytes")),
    Act::Do(Write("+1.log", b"bytes")),
    Act::Do(Write(".log", b"bytes")),
    Act::Do(Write("0.log.compacted", b"bytes")),
    Act::Do(Write("notes", b"bytes")),
    Act::Do(Directory("2.log")),
    Act::Do(Link("3.log", "1f.log")),
    Act::Do(Link("4.log", "2.log")),
    Act::Calls(&LISTED),
];

#[test]
fn only_files_of_logs_are_listed(rt: HostRuntime) {
    run(&rt, &rt, "bk_disk_names", &FILES);
}

const REFUSED: [Row; 2] = [
    (Call::List, Want::Fault(DiskFault::Disk)),
    (Call::Length(5), Want::Fault(DiskFault::NoLog)),
];

const GONE: [Row; 2] = [
    (Call::List, Want::Fault(DiskFault::Disk)),
    (Call::Create(1), Want::Fault(DiskFault::Disk)),
];

const NO_DIRECTORY: [Act; 6] = [
    Act::Open,
    Act::Do(Link("5.log", "nowhere")),
    Act::Calls(&REFUSED),
    Act::Do(RemoveAll("../bk_disk_refused")),
    Act::Calls(&GONE),
    Act::Do(Directory("")),
];

#[test]
fn what_the_system_refuses_is_disk(rt: HostRuntime) {
    run(&rt, &rt, "bk_disk_refused", &NO_DIRECTORY);
    let opened = DirDisk::open(&rt, "bk_disk_refused");
    assert!(rt; matches!(opened, Err(DiskFault::Disk)));
}

const GROWN_AND_GONE: [Row; 2] = [
    (Call::Append(9, b"more"), Want::Done),
    (Call::Remove(9), Want::Done),
];

const VIEWED: [Act; 10] = [
    Act::Open,
    Act::Do(Fill("9.log", 5, 1030)),
    Act::View(9),
    Act::Do(Twin("kept", "9.log")),
    Act::Calls(&GROWN_AND_GONE),
    Act::Ends(0, 1030),
    Act::Reads(0, 1024, 6, Want::Bytes(&[5; 6])),
    Act::Reads(0, 1024, 7, Want::Fault(DiskFault::PastEnd)),
    Act::Do(Cut("kept", 1026)),
    Act::Reads(0, 1024, 6, Want::Fault(DiskFault::Disk)),
];

#[test]
fn a_view_keeps_its_file_and_its_end(rt: HostRuntime) {
    run(&rt, &rt, "bk_disk_views", &VIEWED);
}
