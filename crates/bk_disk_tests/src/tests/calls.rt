//! Each call with bytes written by hand, and each fault.

use super::listing::two_files;
use super::table::{Call, Row, Want, check};
use bk_disk::{DiskFault, LogDisk, LogView, MemDisk, MemView};
use std::alloc::Global;
use std::process::Abort;

static ONES: [u8; 70_000] = [1; 70_000];

const WRITTEN: [Row; 10] = [
    (Call::Create(3), Want::Done),
    (Call::Append(3, b"0123456789"), Want::Done),
    (Call::Append(3, b"0123456789abc"), Want::Done),
    (Call::Patch(3, b"twelve bytes"), Want::Done),
    (Call::Sync(3), Want::Done),
    (
        Call::Read(3, 0, 23),
        Want::Bytes(b"01234567twelve bytesabc"),
    ),
    (Call::Read(3, 20, 2), Want::Bytes(b"ab")),
    (Call::Read(3, 23, 0), Want::Bytes(b"")),
    (Call::Length(3), Want::Number(23)),
    (Call::View(3), Want::Bytes(b"")),
];

#[test]
fn bytes_come_back_as_they_were_written(rt: HostRuntime) {
    check(&rt, rt.alloc(), &mut MemDisk::new(rt.alloc()), &WRITTEN);
}

const COMING_AND_GOING: [Row; 10] = [
    (Call::List, Want::Ids(&[])),
    (Call::Create(9), Want::Done),
    (Call::Create(3), Want::Done),
    (Call::Create(9), Want::Fault(DiskFault::Exists)),
    (Call::List, Want::Ids(&[3, 9])),
    (Call::Append(9, b"nine"), Want::Done),
    (Call::Remove(9), Want::Done),
    (Call::List, Want::Ids(&[3])),
    (Call::Create(9), Want::Done),
    (Call::Length(9), Want::Number(0)),
];

#[test]
fn logs_come_and_go(rt: HostRuntime) {
    check(
        &rt,
        rt.alloc(),
        &mut MemDisk::new(rt.alloc()),
        &COMING_AND_GOING,
    );
}

const FAULTS: [Row; 17] = [
    (Call::Create(4), Want::Done),
    (Call::Append(4, b"nineteen bytes here"), Want::Done),
    (Call::Length(5), Want::Fault(DiskFault::NoLog)),
    (Call::Append(5, b"bytes"), Want::Fault(DiskFault::NoLog)),
    (
        Call::Patch(5, b"twelve bytes"),
        Want::Fault(DiskFault::NoLog),
    ),
    (Call::Sync(5), Want::Fault(DiskFault::NoLog)),
    (Call::Read(5, 0, 0), Want::Fault(DiskFault::NoLog)),
    (Call::View(5), Want::Fault(DiskFault::NoLog)),
    (Call::Remove(5), Want::Fault(DiskFault::NoLog)),
    (Call::Read(4, 19, 1), Want::Fault(DiskFault::PastEnd)),
    (Call::Read(4, 20, 0), Want::Fault(DiskFault::PastEnd)),
    (Call::Read(4, 2, u64::MAX), Want::Fault(DiskFault::PastEnd)),
    (
        Call::Patch(4, b"twelve bytes"),
        Want::Fault(DiskFault::PastEnd),
    ),
    (Call::Read(4, 0, 19), Want::Bytes(b"nineteen bytes here")),
    (Call::Append(4, b"!"), Want::Done),
    (Call::Patch(4, b"............"), Want::Done),
    (Call::Read(4, 0, 20), Want::Bytes(b"nineteen............")),
];

#[test]
fn each_fault_comes_in_its_condition(rt: HostRuntime) {
    check(&rt, rt.alloc(), &mut MemDisk::new(rt.alloc()), &FAULTS);
}

const TWO_FILES: [Row; 3] = [
    (Call::List, Want::Ids(&[0, 1])),
    (Call::Read(0, 0, 4), Want::Bytes(b"zero")),
    (Call::Read(1, 0, 3), Want::Bytes(b"one")),
];

#[test]
fn a_disk_of_two_files_has_them(rt: HostRuntime) {
    let mut disk = two_files(rt.alloc(), b"one", b"zero").expect(&rt, "a disk");
    check(&rt, rt.alloc(), &mut disk, &TWO_FILES);
}

// A disk of log 6, which has these bytes.
fn log_of(alloc: Global, bytes: &[u8]) -> Result<MemDisk, DiskFault> {
    let mut disk = MemDisk::new(alloc);
    disk.create(alloc, 6)?;
    disk.append(alloc, 6, bytes)?;
    Ok(disk)
}

// A view of log 6 once these bytes were appended to it. Then the log grows by others, is patched and goes.
fn view_of(rt: &impl Abort, alloc: Global, bytes: &[u8], more: &[u8]) -> MemView {
    let mut disk = log_of(alloc, bytes).expect(rt, "a log");
    let view = disk.view(alloc, 6).expect(rt, "a view");
    let calls = [
        (Call::Append(6, more), Want::Done),
        (Call::Patch(6, b"twelve bytes"), Want::Done),
        (Call::Remove(6), Want::Done),
    ];
    check(rt, alloc, &mut disk, &calls);
    view
}

// Whether a view has all bytes from 1024 to its end, each of them 5, and no other.
fn has_fives(alloc: Global, view: &MemView, end: u64) -> bool {
    let reads = [
        (end, 1),
        (1023, 1),
        (end.saturating_add(1), 0),
        (1024, u64::MAX),
        (0, 0),
    ];
    for (at, n) in &reads {
        if !is_past(alloc, view, *at, *n) {
            return false;
        }
    }
    match view.read_at(alloc, 1024, end.saturating_sub(1024)) {
        Ok(all) => all.iter().all(|byte| *byte == 5),
        Err(_) => false,
    }
}

fn is_past(alloc: Global, view: &MemView, at: u64, n: u64) -> bool {
    matches!(view.read_at(alloc, at, n), Err(DiskFault::PastEnd))
}

static FIVES: [u8; 70_000] = [5; 70_000];

const ENDS: [(usize, u64); 5] = [
    (0, 1024),
    (1000, 1024),
    (1025, 1025),
    (65_536, 65_536),
    (70_000, 70_000),
];

// Whether a view of a log of so many bytes ends there, and keeps them.
fn keeps_bytes(rt: &impl Abort, alloc: Global, size: usize, end: u64) -> bool {
    let Some(bytes) = FIVES.get(..size) else {
        return false;
    };
    let view = view_of(rt, alloc, bytes, &ONES);
    view.end() == end && has_fives(alloc, &view, end)
}

#[test]
fn a_view_keeps_its_bytes(rt: HostRuntime) {
    for (size, end) in &ENDS {
        let is_kept = keeps_bytes(&rt, rt.alloc(), *size, *end);
        assert!(rt; is_kept, "{size} bytes");
    }
}

const TEXTS: [(DiskFault, &str); 6] = [
    (DiskFault::Disk, "disk"),
    (DiskFault::Exists, "log exists"),
    (DiskFault::NoLog, "no log"),
    (DiskFault::PastEnd, "past the end"),
    (DiskFault::TooLong, "log full"),
    (DiskFault::Memory, "memory"),
];

// Whether a fault has this text.
fn is_text(alloc: Global, fault: DiskFault, text: &str) -> bool {
    match fault.to_string(alloc) {
        Ok(shown) => shown.as_str() == text,
        Err(_) => false,
    }
}

#[test]
fn texts_of_faults(rt: HostRuntime) {
    for (fault, text) in &TEXTS {
        let is_it = is_text(rt.alloc(), *fault, text);
        assert!(rt; is_it, "{text}");
    }
}
