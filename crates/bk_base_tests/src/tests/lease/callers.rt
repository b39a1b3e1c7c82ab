//! Two callers whose proofs use only the contracts: a store with one reader, and a keeper that
//! threads share under a lock.
ghost use Rattle.std.specs.Prelude.{◌≡◌, ◌≢◌, ◌^◌, ◌<◌, length, true, OnOk, OnErr};
ghost use Rattle.std.specs.Option.{ForSome};
ghost use Rattle.bk_lease.specs.Leases.{IsOpen, IsClosed, log_at};

use super::{Bytes, lease, one_log};
use bk_lease::{Closed, Keeper, Lease, Leased, PinFault, Slot};
use std::sync::{Arc, Mutex, Wait};
use std::test::Fail;
use std::thread;

/// A keeper, and the lease of its one reader: of an open slot, for the slot's log.
#[derive(Drop)]
struct Store {
    keeper: Keeper,
    reader: Option<Lease<Bytes>>,
    ghost of_its_table: { ForSome reader (λ lease. lease.ticket.table ≡ keeper.table) },
    ghost of_an_open_slot: { ForSome reader (λ lease. IsOpen keeper.slots lease.ticket.slot) },
    ghost of_its_log: { ForSome reader (λ lease. lease.ticket.log ≡ log_at keeper.slots lease.ticket.slot) },
}

impl Store {
    fn new(keeper: Keeper) -> Store
        ensures { result.keeper ≡ keeper }
    {
        Store {
            keeper,
            reader: None,
        }
    }

    fn take(&mut self, slot: usize, view: &Arc<Bytes>) -> Result<(), PinFault>
        requires { IsOpen self.old.keeper.slots slot }
        ensures { self.new.keeper.slots ≡ self.old.keeper.slots }
    {
        let lease = lease(&mut self.keeper, slot, view)?;
        self.reader = Some(lease);
        Ok(())
    }

    /// After a close the reader has no lease of the slot: `meet` excludes it.
    fn close(&mut self, slot: usize) -> Result<Closed, Leased>
        requires { IsOpen self.old.keeper.slots slot }
        ensures closed { OnOk result (IsClosed self.new.keeper.slots slot) }
        ensures unread { OnOk result (ForSome self.new.reader (λ l. l.ticket.slot ≢ slot)) }
        ensures err { OnErr result (self.new.keeper ≡ self.old.keeper) }
    {
        let closed = self.keeper.close(slot)?;
        if let Some(lease) = self.reader.take() {
            if lease.slot() == slot {
                self.keeper.meet(lease);
                unreachable!()
            }
            self.reader = Some(lease);
        }
        Ok(closed)
    }

    fn release(&mut self)
        ensures { self.new.keeper ≡ self.old.keeper }
    {
        self.reader = None;
    }
}

#[test]
fn store_closes_a_slot_that_its_reader_has_left(rt: HostRuntime) -> Result<(), Fail> {
    let (keeper, view) = one_log(rt.alloc(), 1)?;
    let mut store = Store::new(keeper);
    store.take(0, &view)?;
    assert!(rt; matches!(store.close(0), Err(Leased { count: 1 })));
    store.release();
    assert!(rt; store.close(0).is_ok());
    Ok(())
}

// Closes a slot of a shared keeper, whose state is known only once the lock is taken.
fn close_shared(
    rt: &impl Wait,
    keeper: &Mutex<Keeper>,
    slot: usize,
) -> Option<Result<Closed, Leased>> {
    let mut keeper = keeper.lock(rt);
    if slot >= keeper.slots().len() {
        return None;
    }
    let Slot::Open(_) = keeper.slots()[slot] else {
        return None;
    };
    Some(keeper.close(slot))
}

#[test]
fn shared_keeper_closes_while_a_lease_ends_without_the_lock(rt: HostRuntime) -> Result<(), Fail> {
    let (mut keeper, view) = one_log(rt.alloc(), 1)?;
    let lease = lease(&mut keeper, 0, &view)?;
    let keeper = Arc::new(rt.alloc(), Mutex::new(keeper))?;
    let held = keeper.lock(&rt);
    let reader = thread::spawn(&rt, move || drop(lease))?;
    reader.join(&rt);
    drop(held);
    assert!(rt; matches!(close_shared(&rt, &keeper, 0), Some(Ok(_))));
    assert!(rt; close_shared(&rt, &keeper, 0).is_none());
    assert!(rt; close_shared(&rt, &keeper, 1).is_none());
    Ok(())
}
