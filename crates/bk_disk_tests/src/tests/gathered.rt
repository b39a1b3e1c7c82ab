//! Appends that are gathered before they are written, seen from the files.

use super::change::Change::{Cut, Remove, Rename, Write};
use super::sight::Sight::{Gone, Has, Names};
use super::stage::{Act, run, run_after};
use super::table::{Call, Row, Want};
use bk_disk::DiskFault;

const DISK: Want<'static> = Want::Fault(DiskFault::Disk);

const HEAD: &[u8; 20] = b"0123456789abcdefghij";

const GATHERED: [Row; 5] = [
    (Call::Create(1), Want::Done),
    (Call::Append(1, HEAD), Want::Done),
    (Call::Append(1, b"xy"), Want::Done),
    (Call::Append(1, b"z"), Want::Done),
    (Call::Length(1), Want::Number(23)),
];

// The first bytes are written at once, the others are not, and the length counts them.
const WAITING: Act = Act::See(Has("1.log", HEAD));

const WRITTEN: Act = Act::See(Has("1.log", b"0123456789abcdefghijxyz"));

const SYNC: [Row; 1] = [(Call::Sync(1), Want::Done)];

const VIEW: [Row; 1] = [(Call::View(1), Want::Bytes(b""))];

const READ: [Row; 1] = [(Call::Read(1, 19, 4), Want::Bytes(b"jxyz"))];

const PAST: [Row; 1] = [(Call::Read(1, 19, 5), Want::Fault(DiskFault::PastEnd))];

const BEGUN: [Act; 3] = [Act::OpenToWrite, Act::Calls(&GATHERED), WAITING];

// Each call that looks at the bytes of the log writes them, and nothing is written twice.
const LOOKS: [[Act; 5]; 4] = [
    [
        Act::Calls(&SYNC),
        WRITTEN,
        Act::Calls(&SYNC),
        Act::Close,
        WRITTEN,
    ],
    [
        Act::Calls(&VIEW),
        WRITTEN,
        Act::Calls(&VIEW),
        Act::Close,
        WRITTEN,
    ],
    [
        Act::Calls(&READ),
        WRITTEN,
        Act::Calls(&READ),
        Act::Close,
        WRITTEN,
    ],
    [
        Act::Calls(&PAST),
        WRITTEN,
        Act::Calls(&PAST),
        Act::Close,
        WRITTEN,
    ],
];

#[test]
fn what_is_appended_is_gathered_until_a_call_looks_at_it(rt: HostRuntime) {
    for look in &LOOKS {
        run_after(&rt, &rt, "bk_disk_gathered", &BEGUN, look);
    }
}

const PATCH: [Row; 3] = [
    (Call::Patch(1, b"twelve bytes"), Want::Done),
    (
        Call::Read(1, 0, 23),
        Want::Bytes(b"01234567twelve bytesxyz"),
    ),
    (Call::Append(1, b"!"), Want::Done),
];

const PATCHED: [Act; 7] = [
    Act::OpenToWrite,
    Act::Calls(&GATHERED),
    WAITING,
    Act::Calls(&PATCH),
    Act::See(Has("1.log", b"01234567twelve bytesxyz")),
    Act::Close,
    Act::See(Has("1.log", b"01234567twelve bytesxyz!")),
];

const SHORT: [Row; 6] = [
    (Call::Create(1), Want::Done),
    (Call::Append(1, b"nineteen bytes her"), Want::Done),
    (Call::Append(1, b"e"), Want::Done),
    (
        Call::Patch(1, b"twelve bytes"),
        Want::Fault(DiskFault::PastEnd),
    ),
    (Call::Append(1, b"!"), Want::Done),
    (Call::Patch(1, b"............"), Want::Done),
];

// The twentieth byte of the header is gathered.
const PATCHED_SHORT: [Act; 3] = [
    Act::OpenToWrite,
    Act::Calls(&SHORT),
    Act::See(Has("1.log", b"nineteen............")),
];

#[test]
fn a_patch_writes_what_was_gathered_first(rt: HostRuntime) {
    run(&rt, &rt, "bk_disk_gathered_patch", &PATCHED);
    run(&rt, &rt, "bk_disk_gathered_short", &PATCHED_SHORT);
}

const CUT_OFF: [Act; 7] = [
    Act::OpenToWrite,
    Act::Calls(&GATHERED),
    WAITING,
    Act::Cut(1, 22),
    Act::See(Has("1.log", b"0123456789abcdefghijxy")),
    Act::See(Has("1.log.cut.0", b"z")),
    Act::Close,
];

const CUT_NOTHING: [Act; 6] = [
    Act::OpenToWrite,
    Act::Calls(&GATHERED),
    Act::Cut(1, 23),
    Act::Close,
    WRITTEN,
    Act::See(Names(1)),
];

#[test]
fn a_cut_counts_what_was_gathered(rt: HostRuntime) {
    run(&rt, &rt, "bk_disk_gathered_cut", &CUT_OFF);
    run(&rt, &rt, "bk_disk_gathered_whole", &CUT_NOTHING);
}

const CLOSED: [Act; 5] = [
    Act::OpenToWrite,
    Act::Calls(&GATHERED),
    WAITING,
    Act::Close,
    WRITTEN,
];

#[test]
fn the_end_of_a_disk_writes_what_was_gathered(rt: HostRuntime) {
    run(&rt, &rt, "bk_disk_gathered_end", &CLOSED);
}

const MADE_AGAIN: [Row; 4] = [
    (Call::Remove(1), Want::Done),
    (Call::Create(1), Want::Done),
    (Call::Length(1), Want::Number(0)),
    (Call::View(1), Want::Bytes(b"")),
];

const GOES: [Row; 2] = [
    (Call::Remove(1), Want::Done),
    (Call::Append(1, b"x"), Want::Fault(DiskFault::NoLog)),
];

const REMOVED: [Act; 8] = [
    Act::OpenToWrite,
    Act::Calls(&GATHERED),
    Act::Calls(&GOES),
    Act::See(Names(0)),
    Act::Calls(&GATHERED),
    Act::Calls(&MADE_AGAIN),
    Act::Close,
    Act::See(Has("1.log", b"")),
];

#[test]
fn a_removal_drops_what_was_gathered(rt: HostRuntime) {
    run(&rt, &rt, "bk_disk_gathered_removed", &REMOVED);
}

const TWO: [Row; 7] = [
    (Call::Create(2), Want::Done),
    (Call::Append(2, b"two"), Want::Done),
    (Call::Append(2, b"TWO"), Want::Done),
    (Call::Append(1, b"!"), Want::Done),
    (Call::Append(2, b"?"), Want::Done),
    (Call::Length(1), Want::Number(24)),
    (Call::Length(2), Want::Number(7)),
];

const SYNC_TWO: [Row; 1] = [(Call::Sync(2), Want::Done)];

const TWO_LOGS: [Act; 9] = [
    Act::OpenToWrite,
    Act::Calls(&GATHERED),
    Act::Calls(&TWO),
    WAITING,
    Act::See(Has("2.log", b"two")),
    Act::Calls(&SYNC_TWO),
    WAITING,
    Act::See(Has("2.log", b"twoTWO?")),
    Act::Calls(&[(Call::Read(1, 20, 4), Want::Bytes(b"xyz!"))]),
];

#[test]
fn each_log_gathers_its_own(rt: HostRuntime) {
    run(&rt, &rt, "bk_disk_gathered_two", &TWO_LOGS);
}

// With log 1, as many logs as stay open.
const MORE: [Row; 15] = [
    (Call::Create(2), Want::Done),
    (Call::Create(3), Want::Done),
    (Call::Create(4), Want::Done),
    (Call::Create(5), Want::Done),
    (Call::Create(6), Want::Done),
    (Call::Create(7), Want::Done),
    (Call::Create(8), Want::Done),
    (Call::Create(9), Want::Done),
    (Call::Create(10), Want::Done),
    (Call::Create(11), Want::Done),
    (Call::Create(12), Want::Done),
    (Call::Create(13), Want::Done),
    (Call::Create(14), Want::Done),
    (Call::Create(15), Want::Done),
    (Call::Create(16), Want::Done),
];

const ONE_MORE: [Row; 1] = [(Call::Create(17), Want::Done)];

const GOES_ON: [Row; 3] = [
    (Call::Append(1, b"!"), Want::Done),
    (Call::Length(1), Want::Number(24)),
    (Call::Read(1, 20, 4), Want::Bytes(b"xyz!")),
];

const MANY: [Act; 7] = [
    Act::OpenToWrite,
    Act::Calls(&GATHERED),
    Act::Calls(&MORE),
    WAITING,
    Act::Calls(&ONE_MORE),
    WRITTEN,
    Act::Calls(&GOES_ON),
];

#[test]
fn a_file_that_is_closed_has_what_was_gathered(rt: HostRuntime) {
    run(&rt, &rt, "bk_disk_gathered_many", &MANY);
}

const LIMIT: [Row; 8] = [
    (Call::Append(1, b"12345678"), Want::Done),
    (Call::Append(1, b"901"), Want::Fault(DiskFault::TooLong)),
    (Call::Append(1, b"90"), Want::Done),
    (Call::Append(1, b"1"), Want::Fault(DiskFault::TooLong)),
    (Call::Length(1), Want::Number(4_294_967_295)),
    (
        Call::Read(1, 4_294_967_284, 11),
        Want::Bytes(b"\x001234567890"),
    ),
    (Call::Append(1, b"1"), Want::Fault(DiskFault::TooLong)),
    (Call::Append(1, b""), Want::Done),
];

// A log of ten bytes less than the most.
const LONGEST: [Act; 4] = [
    Act::Do(Write("1.log", b"")),
    Act::Do(Cut("1.log", 4_294_967_285)),
    Act::OpenToWrite,
    Act::Calls(&LIMIT),
];

#[test]
fn the_limit_counts_what_was_gathered(rt: HostRuntime) {
    run(&rt, &rt, "bk_disk_gathered_limit", &LONGEST);
}

const LOST: [Row; 4] = [
    (Call::Length(1), DISK),
    (Call::Sync(1), DISK),
    (Call::Append(1, b"x"), DISK),
    (Call::Patch(1, b"twelve bytes"), DISK),
];

// Another file gets the log's name. Nothing that was gathered gets there.
const REPLACED: [Act; 8] = [
    Act::OpenToWrite,
    Act::Calls(&GATHERED),
    Act::Do(Write("other", b"other")),
    Act::Do(Rename("other", "1.log")),
    Act::Calls(&LOST),
    Act::IsLost(1, true),
    Act::Close,
    Act::See(Has("1.log", b"other")),
];

const MISSED: [Row; 4] = [
    (Call::Length(1), Want::Fault(DiskFault::NoLog)),
    (Call::Append(1, b"x"), Want::Done),
    (Call::Sync(1), Want::Fault(DiskFault::NoLog)),
    (Call::Append(1, b"x"), DISK),
];

const MISSING: [Act; 7] = [
    Act::OpenToWrite,
    Act::Calls(&GATHERED),
    Act::Do(Remove("1.log")),
    Act::Calls(&MISSED),
    Act::IsLost(1, true),
    Act::Close,
    Act::See(Gone("1.log")),
];

#[test]
fn what_was_gathered_of_a_log_that_somebody_changed_is_reported(rt: HostRuntime) {
    run(&rt, &rt, "bk_disk_gathered_replaced", &REPLACED);
    run(&rt, &rt, "bk_disk_gathered_missing", &MISSING);
}
