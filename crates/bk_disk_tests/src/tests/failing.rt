//! A disk one of whose calls fails, or one of whose views is broken.

use super::bound::{FIRST, view_between};
use super::table::{Call, Row, Want, check, make};
use bk_disk::{DiskFault, FaultDisk, LogDisk, LogView, MemDisk};
use std::alloc::Global;
use std::process::Abort;

const BYTES: &[u8; 24] = b"0123456789abcdefghijklmn";

// One call of each kind on log 4, and a new log.
const CALLS: [Call<'static>; 9] = [
    Call::List,
    Call::Length(4),
    Call::Create(5),
    Call::Append(4, b"appended"),
    Call::Patch(4, b"twelve bytes"),
    Call::Sync(4),
    Call::Read(4, 0, 1),
    Call::View(4),
    Call::Remove(4),
];

const ONE_LOG: [Row; 2] = [
    (Call::Create(4), Want::Done),
    (Call::Append(4, BYTES), Want::Done),
];

// A disk of log 4.
fn one_log(rt: &impl Abort, alloc: Global) -> MemDisk {
    let mut disk = MemDisk::new(alloc);
    check(rt, alloc, &mut disk, &ONE_LOG);
    disk
}

// Whether the call of this number fails of one call of each kind, and no other; of number 0 none does.
fn fails_alone(alloc: Global, disk: &mut FaultDisk<MemDisk>, k: u64) -> bool {
    let mut made = 0u64;
    for call in &CALLS {
        made = made.saturating_add(1);
        let fails = make(alloc, disk, *call).fault() == Some(DiskFault::Disk);
        if fails != (made == k) || disk.has_failed() != (0 < k && k <= made) {
            return false;
        }
    }
    true
}

#[test]
fn the_kth_of_all_calls_fails_and_no_other(rt: HostRuntime) {
    for k in 0..10u64 {
        let mut disk = FaultDisk::new(one_log(&rt, rt.alloc()), k, 0);
        assert!(rt; fails_alone(rt.alloc(), &mut disk, k), "call {k}");
    }
}

const LEFT: [Row; 3] = [
    (Call::List, Want::Ids(&[4])),
    (Call::Read(4, 0, 24), Want::Bytes(BYTES)),
    (Call::Length(4), Want::Number(24)),
];

// Whether a call fails at first, then leaves the files, and is made again.
fn fails_once(rt: &impl Abort, alloc: Global, call: Call<'_>) -> bool {
    let mut disk = FaultDisk::new(one_log(rt, alloc), 1, 0);
    let fails = make(alloc, &mut disk, call).fault() == Some(DiskFault::Disk);
    check(rt, alloc, &mut disk, &LEFT);
    fails && make(alloc, &mut disk, call).fault().is_none()
}

#[test]
fn a_failing_call_leaves_the_files_and_the_next_goes_on(rt: HostRuntime) {
    for (number, call) in CALLS.iter().enumerate() {
        let goes_on = fails_once(&rt, rt.alloc(), *call);
        assert!(rt; goes_on, "call {number}");
    }
}

// How many bytes of an append are kept, and what the log has then.
const KEPT: [(usize, &[u8]); 5] = [
    (0, b"0123456789abcdefghijklmn"),
    (7, b"0123456789abcdefghijklmnappende"),
    (8, b"0123456789abcdefghijklmnappended"),
    (9, b"0123456789abcdefghijklmnappended"),
    (usize::MAX, b"0123456789abcdefghijklmnappended"),
];

fn check_kept(rt: &impl Abort, alloc: Global, kept: usize, left: &[u8]) {
    let mut disk = FaultDisk::new(one_log(rt, alloc), 1, kept);
    let length = left.len() as u64;
    let calls = [
        (Call::Append(4, b"appended"), Want::Fault(DiskFault::Disk)),
        (Call::Length(4), Want::Number(length)),
        (Call::Read(4, 0, length), Want::Bytes(left)),
        (Call::Append(4, b"appended"), Want::Done),
    ];
    check(rt, alloc, &mut disk, &calls);
}

#[test]
fn a_failing_append_keeps_the_first_bytes(rt: HostRuntime) {
    for (kept, left) in &KEPT {
        check_kept(&rt, rt.alloc(), *kept, left);
    }
}

// What the disk says of log 4 without a call of its device: whether it is lost, and whether it is
// kept.
fn said_of(disk: &impl LogDisk) -> (bool, bool) {
    (disk.is_lost(4), disk.is_kept(4))
}

#[test]
fn a_disk_in_memory_loses_nothing_and_keeps_all(rt: HostRuntime) {
    let alloc = rt.alloc();
    assert!(rt; said_of(&one_log(&rt, alloc)) == (false, true));
    let mut disk = FaultDisk::new(one_log(&rt, alloc), 1, 0);
    assert!(rt; said_of(&disk) == (false, true));
    assert!(rt; !disk.has_failed() && disk.count_failures() == 0);
    assert!(rt; disk.sync(alloc, 4) == Err(DiskFault::Disk));
    assert!(rt; said_of(&disk) == (false, true));
    assert!(rt; disk.count_failures() == 1);
}

const NO_LOG: [Row; 3] = [
    (Call::Append(9, b"appended"), Want::Fault(DiskFault::Disk)),
    (Call::List, Want::Ids(&[4])),
    (Call::Append(9, b"appended"), Want::Fault(DiskFault::NoLog)),
];

#[test]
fn a_failing_append_of_no_log_leaves_none(rt: HostRuntime) {
    let mut disk = FaultDisk::new(one_log(&rt, rt.alloc()), 1, 7);
    check(&rt, rt.alloc(), &mut disk, &NO_LOG);
}

const FEWER: [Row; 3] = [
    (Call::Append(4, b"appended"), Want::Fault(DiskFault::Disk)),
    (Call::Read(4, 20, 6), Want::Bytes(b"klmnap")),
    (Call::Length(4), Want::Number(26)),
];

#[test]
fn an_append_that_fails_on_two_disks_keeps_the_fewer_bytes(rt: HostRuntime) {
    for (outer, inner) in &[(2, 5), (5, 2)] {
        let underneath = FaultDisk::new(one_log(&rt, rt.alloc()), 1, *inner);
        let mut disk = FaultDisk::new(underneath, 1, *outer);
        check(&rt, rt.alloc(), &mut disk, &FEWER);
        assert!(rt; disk.count_failures() == 1, "one call failed");
    }
}

// What a view tells: of a read of no bytes at its begin, of one into a buffer, and of one before its begin.
fn told_by(alloc: Global, view: &impl LogView) -> [Option<DiskFault>; 3] {
    [
        view.read_at(alloc, 1024, 0).err(),
        view.read_into(1024, &mut []).err(),
        view.read_at(alloc, 0, 0).err(),
    ]
}

// Whether the next view of log 4 is broken, or whole.
fn is_view(alloc: Global, disk: &mut FaultDisk<MemDisk>, is_broken: bool) -> bool {
    let Ok(view) = disk.view(alloc, 4) else {
        return false;
    };
    let disk = Some(DiskFault::Disk);
    match told_by(alloc, &view) {
        [first, second, third] if is_broken => first == disk && second == disk && third == disk,
        [first, second, third] => {
            first.is_none() && second.is_none() && third == Some(DiskFault::PastEnd)
        }
    }
}

// Whether of four views the one of this number is broken, and no other.
fn is_broken_alone(alloc: Global, disk: &mut FaultDisk<MemDisk>, j: u64) -> bool {
    for number in 1..=4u64 {
        if !is_view(alloc, disk, number == j) {
            return false;
        }
    }
    true
}

const NO_VIEW: [Row; 1] = [(Call::View(9), Want::Fault(DiskFault::NoLog))];

#[test]
fn the_chosen_view_is_broken_and_no_other(rt: HostRuntime) {
    for j in 0..4u64 {
        let mut disk = FaultDisk::broken_view(one_log(&rt, rt.alloc()), j);
        check(&rt, rt.alloc(), &mut disk, &NO_VIEW);
        let is_alone = is_broken_alone(rt.alloc(), &mut disk, j) && !disk.has_failed();
        assert!(rt; is_alone, "view {j}");
    }
}

// Whether the run tells of the device, and so does the disk, where this call of it fails.
fn tells(alloc: Global, k: u64) -> (bool, bool) {
    let mut disk = FaultDisk::new(MemDisk::new(alloc), k, 0);
    let read = view_between(alloc, &mut disk, 5, &FIRST, &[8, 9]);
    (matches!(read, Err(DiskFault::Disk)), disk.has_failed())
}

#[test]
fn any_call_of_a_run_may_fail(rt: HostRuntime) {
    for k in 1..=5u64 {
        assert!(rt; tells(rt.alloc(), k) == (k < 5, k < 5), "call {k}");
    }
}
