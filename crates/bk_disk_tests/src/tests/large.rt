//! A log of more than 16 MiB, and hundreds of logs.

use super::table::{Call, Row, Want, check};
use bk_disk::{DiskFault, LogDisk, LogView, MemDisk, MemView};
use std::alloc::Global;
use std::process::Abort;

// Bytes of a piece of the large log.
const PIECE: u64 = 1_000_001;

// Appends so many bytes, each of them this number, to log 7.
fn append_piece(rt: &impl Abort, alloc: Global, disk: &mut MemDisk, number: u8, n: u64) {
    let piece = vec![in alloc; number; n as usize].expect(rt, "a piece");
    check(rt, alloc, disk, &[(Call::Append(7, &piece), Want::Done)]);
}

// A byte before and a byte behind the border of two pieces.
fn check_border(rt: &impl Abort, alloc: Global, disk: &mut MemDisk, number: u8) {
    let at = (u64::from(number) * PIECE).saturating_sub(1);
    let want = [number.wrapping_sub(1), number];
    check(
        rt,
        alloc,
        disk,
        &[(Call::Read(7, at, 2), Want::Bytes(&want))],
    );
}

const PATCHED: [Row; 5] = [
    (Call::Length(7), Want::Number(20_000_020)),
    (Call::Patch(7, b"twelve bytes"), Want::Done),
    (Call::Read(7, 6, 16), Want::Bytes(b"\0\0twelve bytes\0\0")),
    (Call::Append(7, b"end"), Want::Done),
    (Call::Read(7, 20_000_019, 4), Want::Bytes(b"\x13end")),
];

#[test]
fn a_log_of_twenty_million_bytes(rt: HostRuntime) {
    let alloc = rt.alloc();
    let mut disk = MemDisk::new(alloc);
    check(&rt, alloc, &mut disk, &[(Call::Create(7), Want::Done)]);
    for number in 0..20u8 {
        append_piece(&rt, alloc, &mut disk, number, PIECE);
    }
    let early = disk.view(alloc, 7).expect(&rt, "a view");
    for number in 1..20u8 {
        check_border(&rt, alloc, &mut disk, number);
    }
    check(&rt, alloc, &mut disk, &PATCHED);
    assert!(rt; early.end() == 20_000_020 && has_at(&early, 19_000_018, [18, 19]));
}

// Whether a view has these two bytes at a position.
fn has_at(view: &MemView, at: u64, want: [u8; 2]) -> bool {
    let mut read = [0u8; 2];
    view.read_into(at, &mut read).is_ok() && read == want
}

// Whether a view of the first 17 pieces has their bytes, and no other.
fn has_pieces(view: &MemView) -> bool {
    let past = view.read_into(17 * PIECE - 1, &mut [0u8; 2]);
    view.end() == 17 * PIECE
        && has_at(view, 1024, [0, 0])
        && has_at(view, PIECE - 1, [0, 1])
        && has_at(view, 256 * 65_536 - 1, [16, 16])
        && has_at(view, 17 * PIECE - 2, [16, 16])
        && past == Err(DiskFault::PastEnd)
}

#[test]
fn a_view_of_hundreds_of_blocks_stays(rt: HostRuntime) {
    let alloc = rt.alloc();
    let mut disk = MemDisk::new(alloc);
    check(&rt, alloc, &mut disk, &[(Call::Create(7), Want::Done)]);
    for number in 0..17u8 {
        append_piece(&rt, alloc, &mut disk, number, PIECE);
    }
    let early = disk.view(alloc, 7).expect(&rt, "a view");
    let patch = [(Call::Patch(7, b"twelve bytes"), Want::Done)];
    check(&rt, alloc, &mut disk, &patch);
    for number in 17..35u8 {
        append_piece(&rt, alloc, &mut disk, number, PIECE);
        check_border(&rt, alloc, &mut disk, number);
    }
    let length = [(Call::Length(7), Want::Number(35 * PIECE))];
    check(&rt, alloc, &mut disk, &length);
    assert!(rt; has_pieces(&early));
}

// Makes a log of an id up to two thousand million, with two bytes.
fn create_log(rt: &impl Abort, alloc: Global, disk: &mut MemDisk, number: u16) {
    let id = u32::from(number) * 269 % 700 * 3_000_000;
    disk.create(alloc, id).expect(rt, "a log");
    disk.append(alloc, id, &number.to_be_bytes())
        .expect(rt, "bytes");
}

// Whether a log has two bytes, and is removed.
fn goes(alloc: Global, disk: &mut MemDisk, id: u32) -> bool {
    disk.length(alloc, id) == Ok(2) && disk.remove(alloc, id) == Ok(())
}

#[test]
fn seven_hundred_logs(rt: HostRuntime) {
    let alloc = rt.alloc();
    let mut disk = MemDisk::new(alloc);
    for number in 0..700u16 {
        create_log(&rt, alloc, &mut disk, number);
    }
    let ids = disk.list(alloc).expect(&rt, "ids");
    assert!(rt; ids.len() == 700);
    assert!(rt; ids.is_sorted());
    for id in &ids {
        assert!(rt; goes(alloc, &mut disk, *id), "log {id}");
    }
    check(&rt, alloc, &mut disk, &[(Call::List, Want::Ids(&[]))]);
}
