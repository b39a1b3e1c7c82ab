//! Names in a real directory that are no files of their own: links, second names of a file, directories.

use super::change::Change::{Directory, Link, Remove, RemoveAll, Rename, Twin, Write};
use super::sight::Sight::{Has, Names};
use super::stage::{Act, run};
use super::table::{Call, Row, Want};
use bk_disk::DiskFault;

const BYTES: &[u8] = b"bytes";

const DISK: Want<'static> = Want::Fault(DiskFault::Disk);

const NOT_WRITTEN: [Row; 6] = [
    (Call::List, Want::Ids(&[0, 1])),
    (Call::Read(1, 0, 5), Want::Bytes(b"bytes")),
    (Call::Create(2), DISK),
    (Call::Append(0, b"x"), DISK),
    (Call::Patch(0, b"twelve bytes"), DISK),
    (Call::Remove(0), DISK),
];

const LINKED: [Act; 10] = [
    Act::Do(Write("0.log", BYTES)),
    Act::Do(Link("1.log", "0.log")),
    Act::Refused(
        "disk: bk_disk_link/1.log -> 0.log: a link is no log in a directory that is written: remove it",
    ),
    Act::Open,
    Act::Calls(&NOT_WRITTEN),
    Act::See(Names(2)),
    Act::See(Has("0.log", BYTES)),
    Act::See(Has("1.log", BYTES)),
    // The way on.
    Act::Do(Remove("1.log")),
    Act::OpenToWrite,
];

#[test]
fn a_link_is_no_log_where_logs_are_written(rt: HostRuntime) {
    run(&rt, &rt, "bk_disk_link", &LINKED);
}

const TWINS: [Act; 10] = [
    Act::Do(Write("0.log", BYTES)),
    Act::Do(Twin("1.log", "0.log")),
    Act::Refused(
        "disk: bk_disk_twins/0.log and bk_disk_twins/1.log: two names of one file, which is no log here: remove one of them",
    ),
    Act::Open,
    Act::Calls(&NOT_WRITTEN),
    Act::See(Names(2)),
    Act::See(Has("0.log", BYTES)),
    Act::See(Has("1.log", BYTES)),
    // A second name that is no log's is one of somebody else, as a copy of the directory by links has them.
    Act::Do(Rename("1.log", "copy")),
    Act::OpenToWrite,
];

#[test]
fn two_names_of_one_file_are_no_logs(rt: HostRuntime) {
    run(&rt, &rt, "bk_disk_twins", &TWINS);
}

const LINK_CAME: [Row; 7] = [
    (Call::Length(0), Want::Number(5)),
    (Call::Length(1), DISK),
    (Call::Read(1, 0, 5), DISK),
    (Call::View(1), DISK),
    (Call::Sync(1), DISK),
    (Call::Remove(1), DISK),
    (Call::List, DISK),
];

const LATE_LINK: [Act; 7] = [
    Act::Do(Write("0.log", BYTES)),
    Act::OpenToWrite,
    Act::Do(Link("1.log", "0.log")),
    Act::Calls(&LINK_CAME),
    Act::See(Names(2)),
    Act::See(Has("0.log", BYTES)),
    Act::See(Has("1.log", BYTES)),
];

#[test]
fn a_link_that_comes_later_is_no_log(rt: HostRuntime) {
    run(&rt, &rt, "bk_disk_late_link", &LATE_LINK);
}

const EXISTS: [Row; 1] = [(Call::Create(1), Want::Fault(DiskFault::Exists))];

const NEXT: [Act; 5] = [
    Act::Do(Write("0.log", BYTES)),
    Act::OpenToWrite,
    Act::Do(Directory("1.log")),
    Act::Calls(&EXISTS),
    Act::Last("bk_disk_next/1.log: create: File exists (os error 17)"),
];

#[test]
fn a_directory_with_the_next_name_is_named(rt: HostRuntime) {
    run(&rt, &rt, "bk_disk_next", &NEXT);
}

const NOT_HERE: [Row; 2] = [(Call::Create(1), DISK), (Call::Remove(0), DISK)];

// The directory is moved away, and another one has its name.
const MOVED: [Act; 9] = [
    Act::Do(Write("0.log", BYTES)),
    Act::OpenToWrite,
    Act::Do(Rename("../bk_disk_moved", "../bk_disk_moved_away")),
    Act::Do(Directory("")),
    Act::Do(Write("0.log", b"other")),
    Act::Calls(&NOT_HERE),
    Act::Last("bk_disk_moved: lock: Stale file handle (os error 116)"),
    Act::See(Has("0.log", b"other")),
    Act::Do(RemoveAll("../bk_disk_moved_away")),
];

#[test]
fn another_directory_of_the_name_is_not_written(rt: HostRuntime) {
    run(&rt, &rt, "bk_disk_moved", &MOVED);
}

const LISTED: [Row; 3] = [
    (Call::List, Want::Ids(&[0])),
    (Call::Length(5), Want::Fault(DiskFault::NoLog)),
    (Call::Create(6), DISK),
];

const FOLDER_CAME: [Row; 3] = [
    (Call::List, DISK),
    (Call::Length(5), DISK),
    (Call::Length(0), Want::Number(5)),
];

// A directory with a log's name is passed over by reading, and no log where logs are written.
const FOLDER: [Act; 13] = [
    Act::Do(Write("0.log", BYTES)),
    Act::Do(Directory("5.log")),
    Act::Refused("disk: bk_disk_folder/5.log: a directory is no plain file: move it away"),
    Act::Open,
    Act::Calls(&LISTED),
    Act::Last("bk_disk_folder/5.log: lock: a directory is no plain file: move it away"),
    Act::See(Names(2)),
    // The way on.
    Act::Do(Rename("5.log", "other")),
    Act::OpenToWrite,
    // It comes back.
    Act::Do(Rename("other", "5.log")),
    Act::Calls(&FOLDER_CAME),
    Act::Last("bk_disk_folder/5.log: open: a directory is no plain file: move it away"),
    Act::See(Names(2)),
];

#[test]
fn a_directory_is_no_log_where_logs_are_written(rt: HostRuntime) {
    run(&rt, &rt, "bk_disk_folder", &FOLDER);
}
