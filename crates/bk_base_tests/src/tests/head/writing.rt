//! Maps that are written: small ones byte by byte, and one of eleven batches.

ghost use Rattle.std.specs.Prelude.{◌+◌, ◌<◌, ◌≤◌, ◌^◌, IfOk};
ghost use Rattle.bk_head.specs.Ledgers.{map_of};
ghost use Rattle.bk_head.specs.Written.{IsWritable};

use super::{BATCH, read_behind};
use bk_head::write_map;
use std::alloc::{AllocError, Global};
use std::collections::BTreeMap;
use std::process::Abort;
use std::test::Fail;

/// A map of consecutive ledgers from the first, each of this size.
fn map_of_ledgers(
    alloc: Global,
    first: u64,
    ledgers: u64,
    size: u64,
) -> Result<BTreeMap<u64, u64>, AllocError>
    requires ids { first + ledgers ≤ 2 ^ 63 }
    requires few { ledgers < 2 ^ 31 }
    requires size { size < 2 ^ 63 }
    ensures { IfOk result (λ map. IsWritable (map_of map)) }
{
    let mut map = BTreeMap::new(alloc);
    for number in 0..ledgers {
        map.insert(first + number, size)?;
    }
    Ok(map)
}

#[test]
fn map_of_one_ledger_is_one_batch(rt: HostRuntime) -> Result<(), Fail> {
    let mut out = Vec::new(rt.alloc());
    write_map(&map_of_ledgers(rt.alloc(), 0, 0, 25)?, &mut out)?;
    assert!(rt; out.is_empty());
    write_map(&map_of_ledgers(rt.alloc(), 0, 2, 25)?, &mut out)?;
    assert_eq!(rt; out.len(), 56);
    assert_eq!(rt; out[3], 52);
    assert_eq!(rt; &out[4..20], &BATCH[4..20]);
    assert_eq!(rt; &out[20..24], [0, 0, 0, 2].as_slice());
    assert_eq!(rt; &out[40..], &BATCH[24..]);
    Ok(())
}

#[test]
fn ten_thousand_and_one_ledgers_are_two_batches(rt: HostRuntime) -> Result<(), Fail> {
    let map = map_of_ledgers(rt.alloc(), 0, 10_001, 20)?;
    let mut out = Vec::new(rt.alloc());
    write_map(&map, &mut out)?;
    assert_eq!(rt; out.len(), 160_064);
    assert_eq!(rt; &out[..4], [0, 2, 113, 20].as_slice());
    assert_eq!(rt; &out[160_024..160_028], [0, 0, 0, 36].as_slice());
    let again = read_behind(rt.alloc(), &out, 10_001)?.ok_or("a map")?;
    assert!(rt; again == map);
    Ok(())
}

/// Ten full batches and one pair, of ledgers up to 2^63 - 1.
#[test]
fn map_of_a_hundred_thousand_ledgers_is_read_again(rt: HostRuntime) -> Result<(), Fail> {
    let map = map_of_ledgers(rt.alloc(), 9_223_372_036_854_675_807, 100_001, 20)?;
    let mut out = Vec::new(rt.alloc());
    write_map(&map, &mut out)?;
    assert_eq!(rt; out.len(), 1_600_280);
    assert!(rt; map.contains_key(&9_223_372_036_854_775_807));
    let again = read_behind(rt.alloc(), &out, 100_001)?.ok_or("a map")?;
    assert!(rt; again == map);
    Ok(())
}
