//! The largest table, and the greatest number of leases of a slot.
ghost use Rattle.std.specs.Prelude.{◌≡◌};
ghost use Rattle.bk_lease.specs.Leases.{IsOpen};

use super::{Bytes, lease};
use bk_lease::{Keeper, Lease, LeaseTable, Leased, PinFault, Slot};
use std::sync::Arc;
use std::test::Fail;

// Opens each free slot, for logs from 0 on, and returns their number.
fn open_all(keeper: &mut Keeper) -> u32 {
    for log in 0..70_000 {
        let Some(slot) = keeper.free_slot() else {
            return log;
        };
        keeper.open(slot, log);
    }
    70_000
}

// Takes leases of a slot until there are too many.
fn lease_all(
    keeper: &mut Keeper,
    slot: usize,
    view: &Arc<Bytes>,
    leases: &mut Vec<Lease<Bytes>>,
) -> bool
    requires { IsOpen keeper.old.slots slot }
    ensures { keeper.new.slots ≡ keeper.old.slots }
{
    for _ in 0..70_000 {
        match lease(keeper, slot, view) {
            Err(fault) => return fault == PinFault::TooMany,
            Ok(lease) => {
                if leases.push(lease).is_err() {
                    return false;
                }
            }
        }
    }
    false
}

#[test]
fn last_of_65536_slots_has_65535_leases(rt: HostRuntime) -> Result<(), Fail> {
    let view = Arc::new(rt.alloc(), Bytes::new(rt.alloc()))?;
    let mut keeper = LeaseTable::new(rt.alloc(), 65_536, 65_535)?;
    assert_eq!(rt; open_all(&mut keeper), 65_536);
    let slot = 65_535;
    if slot >= keeper.slots().len() {
        return Err(Fail::new("too few slots"));
    }
    let Slot::Open(log) = keeper.slots()[slot] else {
        return Err(Fail::new("not open"));
    };
    assert_eq!(rt; log, 65_535);
    let mut leases = Vec::new(rt.alloc());
    assert!(rt; lease_all(&mut keeper, slot, &view, &mut leases));
    assert!(rt; matches!(keeper.close(slot), Err(Leased { count: 65_535 })));
    drop(leases.pop());
    assert!(rt; matches!(keeper.close(slot), Err(Leased { count: 65_534 })));
    drop(leases);
    assert!(rt; keeper.close(slot).is_ok());
    Ok(())
}
