//! Examples on one thread.
ghost use Rattle.std.specs.Prelude.{◌^◌, ◌<◌, ◌≤◌};

use super::{Bytes, lease, one_log};
use bk_lease::{Lease, LeaseTable, Leased, PinFault, Slot};
use std::alloc::{AllocError, Global};
use std::test::Fail;

// Returns early by `?`, which drops the lease: there is no second byte.
fn second_byte(lease: Lease<Bytes>) -> Option<u8> {
    let byte = lease.view().get(1)?;
    Some(*byte)
}

#[test]
fn closes_once_both_leases_are_given_back(rt: HostRuntime) -> Result<(), Fail> {
    let (mut keeper, view) = one_log(rt.alloc(), 2)?;
    let first = lease(&mut keeper, 0, &view)?;
    let second = lease(&mut keeper, 0, &view)?;
    assert!(rt; matches!(lease(&mut keeper, 0, &view), Err(PinFault::TooMany)));
    assert!(rt; matches!(keeper.close(0), Err(Leased { count: 2 })));
    first.release().end();
    assert!(rt; matches!(keeper.close(0), Err(Leased { count: 1 })));
    assert!(rt; second_byte(second).is_none());
    assert!(rt; keeper.close(0).is_ok());
    Ok(())
}

#[test]
fn lease_outlives_its_keeper(rt: HostRuntime) -> Result<(), Fail> {
    let (mut keeper, view) = one_log(rt.alloc(), 1)?;
    let lease = lease(&mut keeper, 0, &view)?;
    drop(keeper);
    drop(view);
    assert!(rt; lease.slot() == 0 && lease.log() == 5);
    assert!(rt; matches!(lease.view().first(), Some(104)));
    Ok(())
}

// Opens a slot of a new table, closes it, opens it again, closes and frees it: whether all of it
// succeeded.
fn goes_round(alloc: Global, slots: usize, log: u32) -> Result<bool, AllocError>
    requires slots { (0 < slots) × (slots ≤ 65536) }
    requires log { log < 2 ^ 31 }
{
    let mut keeper = LeaseTable::new(alloc, slots, 1)?;
    let Some(slot) = keeper.free_slot() else {
        return Ok(false);
    };
    keeper.open(slot, log);
    if keeper.close(slot).is_err() || keeper.slots()[slot] != Slot::Closed(log) {
        return Ok(false);
    }
    keeper.open(slot, log);
    let Ok(closed) = keeper.close(slot) else {
        return Ok(false);
    };
    let is_it = closed.slot == slot && closed.log == log;
    keeper.free(closed);
    Ok(is_it && keeper.slots()[slot] == Slot::Free)
}

#[test]
fn slot_goes_round(rt: HostRuntime) -> Result<(), Fail> {
    for slots in [1, 2, 300, 65_536] {
        for log in [0, 1, 5, 2_147_483_647] {
            assert!(rt; matches!(goes_round(rt.alloc(), slots, log), Ok(true)));
        }
    }
    Ok(())
}

#[test]
fn answers_tell_themselves(rt: HostRuntime) -> Result<(), Fail> {
    let no_seat = format!(in rt.alloc(); "{}", PinFault::NoSeat)?;
    assert_eq!(rt; no_seat.as_str(), "no seat");
    let too_many = format!(in rt.alloc(); "{}", PinFault::TooMany)?;
    assert_eq!(rt; too_many.as_str(), "too many leases");
    let leased = format!(in rt.alloc(); "{}", Leased { count: 2 })?;
    assert_eq!(rt; leased.as_str(), "leased 2");
    Ok(())
}
