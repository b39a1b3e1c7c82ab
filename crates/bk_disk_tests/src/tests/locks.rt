//! The lock file of a real directory, and what may stand in its place.

use super::change::Change::{Link, Remove, Twin, Write};
use super::sight::Sight::{Gone, Has, HasProcess};
use super::stage::{Act, run};

const BYTES: &[u8] = b"bytes";

const LINKED: &str =
    "disk: bk_disk_lock_link/writer.lock: a link is not followed to lock a directory: remove it";

// Links to a log, to a file of another directory, and to nothing.
const LINKS: [Act; 18] = [
    Act::Do(Write("0.log", BYTES)),
    Act::Do(Write("../bk_disk_lock_target", b"another file")),
    Act::Do(Link("writer.lock", "0.log")),
    Act::NotOpened("bk_disk_lock_link", LINKED),
    Act::See(Has("0.log", BYTES)),
    Act::Do(Remove("writer.lock")),
    Act::Do(Link("writer.lock", "../bk_disk_lock_target")),
    Act::NotOpened("bk_disk_lock_link", LINKED),
    Act::See(Has("0.log", BYTES)),
    Act::See(Has("../bk_disk_lock_target", b"another file")),
    Act::Do(Remove("writer.lock")),
    Act::Do(Link("writer.lock", "nowhere")),
    Act::NotOpened("bk_disk_lock_link", LINKED),
    Act::See(Has("0.log", BYTES)),
    Act::See(Gone("nowhere")),
    // The way on.
    Act::Do(Remove("writer.lock")),
    Act::OpenToWrite,
    Act::Do(Remove("../bk_disk_lock_target")),
];

#[test]
fn the_lock_is_not_opened_through_a_link(rt: HostRuntime) {
    run(&rt, &rt, "bk_disk_lock_link", &LINKS);
}

const SECOND_NAME: [Act; 4] = [
    Act::Do(Write("0.log", BYTES)),
    Act::Do(Twin("writer.lock", "0.log")),
    Act::NotOpened(
        "bk_disk_lock_twin",
        "disk: bk_disk_lock_twin/writer.lock: the lock is a plain file with one name: move this away",
    ),
    Act::See(Has("0.log", BYTES)),
];

#[test]
fn a_lock_that_is_another_file_too_is_refused(rt: HostRuntime) {
    run(&rt, &rt, "bk_disk_lock_twin", &SECOND_NAME);
}

const DELETED: [Act; 9] = [
    Act::Do(Write("0.log", BYTES)),
    Act::OpenToWrite,
    Act::Do(Remove("writer.lock")),
    Act::HeldBy(None),
    Act::Do(Write("writer.lock", b"7\n")),
    Act::HeldBy(Some(7)),
    Act::See(Has("writer.lock", b"7\n")),
    Act::Close,
    Act::OpenToWrite,
];

#[test]
fn a_lock_that_is_deleted_lets_no_second_writer_in(rt: HostRuntime) {
    run(&rt, &rt, "bk_disk_lock_deleted", &DELETED);
}

const TEXTS: [Act; 8] = [
    Act::Do(Write("0.log", BYTES)),
    Act::Do(Write("writer.lock", b"1234567890\n")),
    Act::OpenToWrite,
    Act::Close,
    Act::See(HasProcess("writer.lock")),
    Act::Do(Write("writer.lock", b"notes of somebody")),
    Act::OpenToWrite,
    Act::See(Has("writer.lock", b"notes of somebody")),
];

const HELD: [Act; 3] = [
    Act::Do(Write("writer.lock", b"notes of somebody")),
    Act::OpenToWrite,
    Act::HeldBy(None),
];

#[test]
fn a_lock_file_gets_a_number_and_a_longer_one_stays(rt: HostRuntime) {
    run(&rt, &rt, "bk_disk_lock_text", &TEXTS);
    run(&rt, &rt, "bk_disk_lock_text", &HELD);
}
