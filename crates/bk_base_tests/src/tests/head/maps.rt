//! Maps that are read, at different offsets.

ghost use Rattle.std.specs.Prelude.{◌<◌, ◌^◌, length};

use super::{BATCH, read_behind};
use bk_head::{HeadFault, Header, new_header, read_map};
use std::alloc::Global;
use std::collections::BTreeMap;
use std::process::Abort;
use std::test::Fail;

/// The record of entry 0 of ledger 1 with the data `hello`, at byte 1024.
const RECORD: [u8; 25] = [
    0, 0, 0, 21, 0, 0, 0, 0, 0, 0, 0, 1, 0, 0, 0, 0, 0, 0, 0, 0, 104, 101, 108, 108, 111,
];

/// Reads the map of a log at this offset.
fn read_at(
    alloc: Global,
    log: &[u8],
    offset: usize,
    count: i32,
) -> Result<Option<BTreeMap<u64, u64>>, HeadFault>
    requires log { length log.now < 2 ^ 32 }
    requires offset { offset < 2 ^ 32 }
{
    let header = Header {
        version: 1,
        map_offset: offset as i64,
        count,
    };
    let tail = if offset >= 1024 && offset <= log.len() {
        &log[offset..]
    } else {
        &log[..0]
    };
    read_map(alloc, tail, log.len() as u64, &header)
}

#[test]
fn one_batch_is_the_map_of_its_pairs(rt: HostRuntime) -> Result<(), Fail> {
    let map = read_behind(rt.alloc(), &BATCH, 1)?.ok_or("a map")?;
    assert_eq!(rt; map.len(), 1);
    assert_eq!(rt; map.get(&1).copied(), Some(25));
    Ok(())
}

/// Returns the fault of a map at this offset, which is below 2^32.
fn fault_at(alloc: Global, log: &[u8; 1089], offset: usize, count: i32) -> Option<HeadFault> {
    if offset > 0xffff_ffff {
        return None;
    }
    read_at(alloc, log, offset, count).err()
}

/// An offset, a count, and the fault.
static OFFSETS: [(usize, i32, HeadFault); 9] = [
    (1049, 2, HeadFault::CountDiffers(1)),
    (1089, 1, HeadFault::CountDiffers(0)),
    (1050, 1, HeadFault::NotAMap(1050)),
    (1024, 1, HeadFault::NotAMap(1024)),
    (1023, 1, HeadFault::NotAMap(1023)),
    (1090, 1, HeadFault::NotAMap(1090)),
    (0, 1, HeadFault::NotAMap(0)),
    (1049, -1, HeadFault::Negative),
    (0, -1, HeadFault::Negative),
];

#[test]
fn offset_tells_where_the_map_stands(rt: HostRuntime) {
    let mut log = [0; 1089];
    log[1024..1049].copy_from_slice(&RECORD);
    log[1049..].copy_from_slice(&BATCH);
    for (offset, count, fault) in &OFFSETS {
        assert_eq!(rt;
            fault_at(rt.alloc(), &log, *offset, *count),
            Some(*fault),
            "{offset} {count}"
        );
    }
    let header = Header {
        version: 1,
        map_offset: -1,
        count: 1,
    };
    assert_eq!(rt;
        read_map(rt.alloc(), &[], 1089, &header).err(),
        Some(HeadFault::Negative)
    );
}

#[test]
fn log_without_ledgers_has_an_empty_map(rt: HostRuntime) -> Result<(), Fail> {
    let map = read_at(rt.alloc(), &new_header(), 1024, 0)?.ok_or("a map")?;
    assert!(rt; map.is_empty());
    assert!(rt; read_at(rt.alloc(), &new_header(), 0, 0)?.is_none());
    Ok(())
}

#[test]
fn pairs_may_stand_in_any_order_and_in_small_batches(rt: HostRuntime) -> Result<(), Fail> {
    let mut two = [0; 80];
    two[..40].copy_from_slice(&BATCH);
    two[40..].copy_from_slice(&BATCH);
    two[71] = 0;
    let map = read_behind(rt.alloc(), &two, 2)?.ok_or("a map")?;
    assert_eq!(rt; map.len(), 2);
    assert_eq!(rt; map.get(&0).copied(), Some(25));
    Ok(())
}
