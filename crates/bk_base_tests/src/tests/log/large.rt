//! Large logs: longer than a window, with records above 1 MiB, and with thousands of ledgers.

ghost use Rattle.std.specs.Prelude.{◌≡◌, false};
ghost use Rattle.bk_log.specs.Writing.{Writes};

use super::hostile::{Scanned, scan};
use super::key;
use super::writes::{create, put};
use bk_disk::{LogDisk, LogView, MemDisk, MemView};
use bk_head::{Header, read_map};
use bk_log::{Found, LogWriter, Scanner};
use bk_record::Key;
use std::alloc::Global;
use std::process::Abort;

/// The greatest id of a ledger or an entry.
const LAST: u64 = i64::MAX as u64;

/// A log of `records` records of one size, of `mask + 1` ledgers, each with `each` bytes of
/// records. A scan lends the payload of `lent` of them: those that lie in one block of the disk.
#[derive(Clone, Copy)]
struct Shape {
    records: u32,
    mask: u32,
    payload: u32,
    each: u64,
    lent: u32,
}

/// Records of 50 bytes, of which three lie in two blocks of 65,536 bytes; eighteen records of
/// 1,100,004 bytes, longer than a block; three records of each of 4,096 ledgers, of 24 bytes, of
/// which two lie in two blocks.
static SHAPES: [Shape; 3] = [
    Shape {
        records: 5_000,
        mask: 0,
        payload: 46,
        each: 250_000,
        lent: 4_997,
    },
    Shape {
        records: 18,
        mask: 1,
        payload: 1_100_000,
        each: 9_900_036,
        lent: 0,
    },
    Shape {
        records: 12_288,
        mask: 4_095,
        payload: 20,
        each: 72,
        lent: 12_286,
    },
];

/// The key of the record of this number: ids fall from 2^63 - 1 on.
fn key_at(rt: &impl Abort, shape: Shape, number: u32) -> Key {
    let ledger = u64::from(number & shape.mask).saturating_mul(1_000_000_007);
    key(
        rt,
        LAST.saturating_sub(ledger),
        LAST.saturating_sub(u64::from(number)),
    )
}

/// The position of its payload.
fn place_at(shape: Shape, number: u32) -> u64 {
    u64::from(number)
        .saturating_mul(u64::from(shape.payload) + 4)
        .saturating_add(1028)
}

/// Its payload: the ids, then bytes of one value.
fn payload_at(rt: &impl Abort, alloc: Global, shape: Shape, number: u32) -> Vec<u8> {
    let key = key_at(rt, shape, number);
    let mut bytes = Vec::from_slice(alloc, &key.ledger().to_be_bytes()).expect(rt, "memory");
    bytes
        .extend_from_slice(&key.entry().to_be_bytes())
        .expect(rt, "memory");
    bytes
        .resize(shape.payload as usize, (number & 0xff) as u8)
        .expect(rt, "memory");
    bytes
}

/// Writes log 0.
fn write(rt: &impl Abort, alloc: Global, disk: &mut MemDisk, shape: Shape) -> LogWriter
    ensures { result.failed ≡ false → Writes disk.new result }
{
    let mut writer = create(rt, alloc, disk, 0);
    for number in 0..shape.records {
        let payload = payload_at(rt, alloc, shape, number);
        let place = put(rt, alloc, disk, &mut writer, &payload);
        assert_eq!(rt; u64::from(place.at()), place_at(shape, number));
    }
    writer
}

/// A scan returns the records in order, and lends payloads.
fn check_found(rt: &impl Abort, alloc: Global, view: &MemView, shape: Shape) {
    let mut scanner = Scanner::new(view, alloc, 1024, view.end());
    let mut lent: u32 = 0;
    for number in 0..shape.records {
        let found = Found {
            key: key_at(rt, shape, number),
            at: place_at(shape, number),
            size: shape.payload.saturating_add(4),
        };
        assert_eq!(rt; scanner.next(), Ok(Some(found)), "{number}");
        if let Some(payload) = scanner.payload(&found) {
            let expected = payload_at(rt, alloc, shape, number);
            assert!(rt; payload == expected.as_slice(), "{number}");
            lent = lent.saturating_add(1);
        }
    }
    assert_eq!(rt; lent, shape.lent);
}

/// The header has a map at this position, and the map has each ledger's bytes.
fn check_map(rt: &impl Abort, alloc: Global, disk: &mut MemDisk, at: u32, shape: Shape) {
    let length = disk.length(alloc, 0).expect(rt, "a length");
    let said = disk.read_at(alloc, 0, 8, 12).expect(rt, "a header");
    let count = shape.mask.saturating_add(1);
    assert_eq!(rt; &said[..8], u64::from(at).to_be_bytes().as_slice());
    assert_eq!(rt; &said[8..], count.to_be_bytes().as_slice());
    let tail = disk
        .read_at(
            alloc,
            0,
            u64::from(at),
            length.saturating_sub(u64::from(at)),
        )
        .expect(rt, "a map");
    assert!(rt; tail.len() < 1 << 32);
    let header = Header {
        version: 1,
        map_offset: i64::from(at),
        count: i32::try_from(count).expect(rt, "a count"),
    };
    let map = read_map(alloc, &tail, u64::from(at) + tail.len() as u64, &header)
        .expect(rt, "no fault")
        .expect(rt, "a map");
    assert_eq!(rt; map.len(), count as usize);
    assert!(rt; map.values().all(|bytes| *bytes == shape.each));
    assert!(rt; map.contains_key(&LAST));
}

fn check(rt: &impl Abort, alloc: Global, shape: Shape) {
    let mut disk = MemDisk::new(alloc);
    let writer = write(rt, alloc, &mut disk, shape);
    let end = writer.length() as u32;
    writer.seal(&mut disk, alloc).expect(rt, "a sealed log");
    let view = disk.view(alloc, 0).expect(rt, "a view");
    check_found(rt, alloc, &view, shape);
    let want = Scanned {
        entries: shape.records,
        foreign: 1,
        torn: 0,
        fault: None,
    };
    assert_eq!(rt; scan(rt, alloc, &view), want);
    check_map(rt, alloc, &mut disk, end, shape);
}

#[test]
fn logs_at_size_are_read_again(rt: HostRuntime) {
    for shape in &SHAPES {
        check(&rt, rt.alloc(), *shape);
    }
}
