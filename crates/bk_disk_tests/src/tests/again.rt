//! What a crash leaves while a log is written again, and what no crash leaves.

use super::change::Change::{Directory, Fill, Link, Remove, RemoveAll, Rename, Write};
use super::sight::Sight::{Filled, Gone, Has, Names};
use super::stage::{Act, run, run_after};
use super::table::{Call, Row, Want};
use bk_disk::DiskFault;

const BYTES: &[u8] = b"bytes";

const LOG: Act = Act::Do(Write("1.log", BYTES));

const MARK: Act = Act::Do(Write("1.unsynced", b""));

// No copy yet or any more; a part of it; all of it; and one of a log that lost bytes in a power loss since.
const STATES: [[Act; 3]; 4] = [
    [LOG, MARK, MARK],
    [LOG, MARK, Act::Do(Write("1.log.again", b"by"))],
    [LOG, MARK, Act::Do(Write("1.log.again", BYTES))],
    [
        LOG,
        MARK,
        Act::Do(Write("1.log.again", b"bytes that are lost")),
    ],
];

// The log is another file with the same bytes, and nothing else is there.
const WRITTEN_AGAIN: [Act; 5] = [
    Act::Remember("1.log"),
    Act::OpenToWrite,
    Act::IsRemembered("1.log", false),
    Act::See(Has("1.log", BYTES)),
    Act::See(Names(1)),
];

#[test]
fn a_log_is_written_again_after_a_crash_at_any_point(rt: HostRuntime) {
    for state in &STATES {
        run_after(&rt, &rt, "bk_disk_again_crash", state, &WRITTEN_AGAIN);
    }
}

// The log was removed, and the file that sets it aside was not.
const ALONE: [Act; 4] = [
    MARK,
    Act::Do(Write("2.log", BYTES)),
    Act::OpenToWrite,
    Act::See(Names(1)),
];

#[test]
fn a_log_that_is_missing_is_not_set_aside(rt: HostRuntime) {
    run(&rt, &rt, "bk_disk_again_alone", &ALONE);
}

const NOT_WRITTEN: [Row; 1] = [(Call::Create(2), Want::Fault(DiskFault::Disk))];

// Somebody else moved the log away. Its copy may have what is nowhere else.
const COPY_ALONE: [Act; 9] = [
    MARK,
    Act::Do(Write("1.log.again", BYTES)),
    Act::NotOpened(
        "bk_disk_again_copy",
        "disk: bk_disk_again_copy/1.log.again: a copy of a log that is missing: move it away, or back",
    ),
    Act::Open,
    Act::Calls(&NOT_WRITTEN),
    Act::See(Names(2)),
    // The way on.
    Act::Do(Rename("1.log.again", "1.log")),
    Act::OpenToWrite,
    Act::See(Has("1.log", BYTES)),
];

#[test]
fn a_copy_without_its_log_is_kept(rt: HostRuntime) {
    run(&rt, &rt, "bk_disk_again_copy", &COPY_ALONE);
}

// Logs of no byte, of one, and of whole and broken pieces; one that is not set aside.
const SIZES: [Act; 19] = [
    Act::Do(Fill("0.log", 0, 0)),
    Act::Do(Write("0.unsynced", b"")),
    Act::Do(Fill("1.log", 1, 1)),
    MARK,
    Act::Do(Fill("2.log", 2, 65_536)),
    Act::Do(Write("2.unsynced", b"")),
    Act::Do(Fill("7fffffff.log", 3, 100_000)),
    Act::Do(Write("7fffffff.unsynced", b"")),
    Act::Do(Write("7fffffff.log.again", BYTES)),
    Act::Do(Fill("4.log", 4, 10)),
    Act::Do(Write("4.log.again", BYTES)),
    Act::Remember("4.log"),
    Act::OpenToWrite,
    Act::See(Filled("0.log", 0, 0)),
    Act::See(Filled("1.log", 1, 1)),
    Act::See(Filled("2.log", 2, 65_536)),
    Act::See(Filled("7fffffff.log", 3, 100_000)),
    Act::IsRemembered("4.log", true),
    // The logs, and the copy beside a log that is not set aside.
    Act::See(Names(6)),
];

#[test]
fn logs_of_each_length_are_written_again(rt: HostRuntime) {
    run(&rt, &rt, "bk_disk_again_sizes", &SIZES);
}

// Links are not followed, and directories are left alone.
const NAMES: [Act; 19] = [
    LOG,
    Act::Do(Write("target", b"target")),
    Act::Do(Link("1.unsynced", "target")),
    Act::Refused("disk: bk_disk_again_names/1.unsynced: a link is no plain file: remove it"),
    Act::Do(Remove("1.unsynced")),
    Act::Do(Directory("1.unsynced")),
    Act::Refused(
        "disk: bk_disk_again_names/1.unsynced: a directory is no plain file: move it away",
    ),
    Act::Do(RemoveAll("1.unsynced")),
    MARK,
    Act::Do(Link("1.log.again", "target")),
    Act::Refused("disk: bk_disk_again_names/1.log.again: a link is no plain file: remove it"),
    Act::Do(Remove("1.log.again")),
    Act::Do(Directory("1.log.again")),
    Act::Refused(
        "disk: bk_disk_again_names/1.log.again: a directory is no plain file: move it away",
    ),
    Act::Do(RemoveAll("1.log.again")),
    Act::See(Has("target", b"target")),
    Act::See(Has("1.unsynced", b"")),
    Act::OpenToWrite,
    Act::See(Gone("1.unsynced")),
];

#[test]
fn names_beside_a_log_are_plain_files(rt: HostRuntime) {
    run(&rt, &rt, "bk_disk_again_names", &NAMES);
}
