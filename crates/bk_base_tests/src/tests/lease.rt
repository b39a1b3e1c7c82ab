//! What no clause states: that calls succeed, also with threads; and that the contracts suffice for
//! a caller.
ghost use Rattle.std.specs.Prelude.{◌≡◌, ◌^◌, ◌<◌, IfOk, OnOk, OnErr};
ghost use Rattle.bk_lease.specs.Leases.{IsOpen};
ghost use Rattle.bk_lease.specs.Values.{new_ticket, with_given};

mod callers;
mod rows;
mod size;
mod threads;

use bk_lease::{Keeper, Lease, LeaseTable, PinFault};
use std::alloc::{AllocError, Global};
use std::sync::Arc;

/// Value shown by the leases of these tests.
type Bytes = Vec<u8>;

// A keeper with log 5 in its one slot, and a byte for its leases to show.
fn one_log(alloc: Global, most: u64) -> Result<(Keeper, Arc<Bytes>), AllocError>
    requires { (0 < most) × (most < 2 ^ 16) }
    ensures { IfOk result (λ made. IsOpen made.0.slots 0) }
{
    let view = Arc::new(alloc, vec![in alloc; 104; 1]?)?;
    let mut keeper = LeaseTable::new(alloc, 1, most)?;
    keeper.open(0, 5);
    Ok((keeper, view))
}

fn lease(keeper: &mut Keeper, slot: usize, view: &Arc<Bytes>) -> Result<Lease<Bytes>, PinFault>
    requires { IsOpen keeper.old.slots slot }
    ensures given { OnOk result (keeper.new ≡ with_given keeper.old) }
    ensures err { OnErr result (keeper.new ≡ keeper.old) }
    ensures ticket { IfOk result (λ lease. lease.ticket ≡ new_ticket keeper.old slot lease.ticket.seat) }
{
    let view = Arc::try_clone(view).map_err(|_| PinFault::NoSeat)?;
    let seat = keeper.pin(slot)?;
    Ok(Lease::of(seat, view))
}
