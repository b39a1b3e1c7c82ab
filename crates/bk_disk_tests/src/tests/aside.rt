//! Logs of a real directory that a disk sets aside after a failure, and the next one writes again.

use super::change::Change::{Directory, Grow, Remove, Write};
use super::sight::Sight::{Gone, Has, Names};
use super::stage::{Act, run};
use super::table::{Call, Row, Want};
use bk_disk::DiskFault;

const DISK: Want<'static> = Want::Fault(DiskFault::Disk);

const BEGUN: [Row; 2] = [
    (Call::Create(1), Want::Done),
    (Call::Append(1, b"0123456789abcdefghij"), Want::Done),
];

const LOST: [Row; 1] = [(Call::Sync(1), DISK)];

const GOES_ON: [Row; 3] = [
    (Call::Append(1, b"!"), Want::Done),
    (Call::Sync(1), Want::Done),
    (
        Call::Read(1, 0, 23),
        Want::Bytes(b"0123456789abcdefghijxy!"),
    ),
];

const CHANGED: Act = Act::Last(
    "bk_disk_aside/1.log: open: somebody else changed the file's length",
);

const AGAIN: [Act; 15] = [
    Act::OpenToWrite,
    Act::Calls(&BEGUN),
    Act::See(Gone("1.unsynced")),
    Act::Do(Grow("1.log", b"xy")),
    Act::Calls(&LOST),
    CHANGED,
    Act::See(Has("1.unsynced", b"")),
    Act::Calls(&LOST),
    CHANGED,
    Act::Close,
    Act::Remember("1.log"),
    Act::OpenToWrite,
    Act::IsRemembered("1.log", false),
    Act::See(Names(1)),
    Act::Calls(&GOES_ON),
];

#[test]
fn a_lost_log_is_set_aside_and_written_again(rt: HostRuntime) {
    run(&rt, &rt, "bk_disk_aside", &AGAIN);
}

const REMOVED: [Row; 1] = [(Call::Remove(1), Want::Done)];

const GONE: [Act; 6] = [
    Act::OpenToWrite,
    Act::Calls(&BEGUN),
    Act::Do(Grow("1.log", b"xy")),
    Act::Calls(&LOST),
    Act::Calls(&REMOVED),
    Act::See(Names(0)),
];

// Somebody else removes the log, and it is made again.
const MADE: [Act; 8] = [
    Act::OpenToWrite,
    Act::Calls(&BEGUN),
    Act::Do(Grow("1.log", b"xy")),
    Act::Calls(&LOST),
    Act::See(Names(2)),
    Act::Do(Remove("1.log")),
    Act::Calls(&BEGUN),
    Act::See(Names(1)),
];

#[test]
fn a_log_that_is_removed_or_made_again_is_not_set_aside(rt: HostRuntime) {
    run(&rt, &rt, "bk_disk_aside_removed", &GONE);
    run(&rt, &rt, "bk_disk_aside_made", &MADE);
}

const NOT_ASIDE: [Act; 7] = [
    Act::OpenToWrite,
    Act::Calls(&BEGUN),
    Act::Do(Directory("1.unsynced")),
    Act::Do(Grow("1.log", b"xy")),
    Act::Calls(&LOST),
    Act::Last(
        "bk_disk_not_aside/1.log: open: somebody else changed the file's length; not set aside: create: File exists (os error 17)",
    ),
    Act::Calls(&LOST),
];

#[test]
fn a_log_that_cannot_be_set_aside_is_reported(rt: HostRuntime) {
    run(&rt, &rt, "bk_disk_not_aside", &NOT_ASIDE);
}

const FIRST_WRITE: [Row; 1] = [(Call::Create(2), Want::Done)];

const READ: [Row; 3] = [
    (Call::List, Want::Ids(&[1])),
    (Call::Length(1), Want::Number(5)),
    (Call::Read(1, 0, 5), Want::Bytes(b"bytes")),
];

// Reading leaves all as it is; the first call that writes does not.
const READ_FIRST: [Act; 12] = [
    Act::Do(Write("1.log", b"bytes")),
    Act::Do(Write("1.unsynced", b"")),
    Act::Do(Write("1.log.again", b"by")),
    Act::Remember("1.log"),
    Act::Open,
    Act::Calls(&READ),
    Act::IsRemembered("1.log", true),
    Act::See(Names(3)),
    Act::Calls(&FIRST_WRITE),
    Act::IsRemembered("1.log", false),
    Act::See(Has("1.log", b"bytes")),
    Act::See(Names(2)),
];

#[test]
fn reading_leaves_a_log_that_is_set_aside(rt: HostRuntime) {
    run(&rt, &rt, "bk_disk_aside_read", &READ_FIRST);
}
