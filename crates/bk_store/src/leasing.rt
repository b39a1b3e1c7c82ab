//! Leases of logs: granting one, counting them, closing a log that has none, and returning the disk.

ghost use Rattle.std.specs.Prelude.{◌≡◌, OnOk, IfOk, IfErr};
ghost use Rattle.bk_lease.specs.Values.{CountsLeases};
ghost use Rattle.bk_store.specs.Invariant.{StoreInvariant};
ghost use Rattle.bk_store.specs.Primitives.{IsIn};
ghost use Rattle.bk_store.specs.Logs.{HasOpenView};
ghost use Rattle.bk_store.specs.Transitions.{TakeTransition, GrantLeaseTransition};
ghost use Rattle.bk_store.specs.Leasing.{HaveNoLeases, CloseLogTransition, IsLowestLeased};
ghost use Rattle.bk_store.specs.declared.log.LogState.TheVariants.{Retired};

use crate::fields::Fields;
use crate::{LogState, Store, TakeFault, Taken};
use bk_disk::LogDisk;
use bk_lease::{Lease, Leased, PinFault};
use bk_record::Key;

/// A store that keeps its disk, because leases are out.
#[derive(Drop)]
pub struct StillLeased<D: LogDisk> {
    /// The store, unchanged.
    pub store: Store<D>,
    /// The lowest log with a lease.
    pub log: u32,
    /// The number of its leases, at least one.
    pub count: u64,
}

impl<D: LogDisk> Fields<D> {
    /// Returns the payload of a key from a cache, or a lease on the log that has it.
    pub fn take(&mut self, key: Key) -> Result<Taken<D::View>, TakeFault>
        requires { StoreInvariant self.old }
        ensures transition { TakeTransition D.View.bytes D.View.honest D.View.sound self.old.state key result self.new.state }
        ensures internals { self.new ≡ record self.old { state = self.new.state } }
    {
        if self.ledgers.is_dead(key.ledger()) {
            return Ok(Taken::Deleted);
        }
        if let Some(payload) = self.caches.get(&key) {
            return match payload.clone() {
                Ok(payload) => Ok(Taken::Cached(payload)),
                Err(_) => Err(TakeFault::Memory),
            };
        }
        let Some(location) = self.index.get(&key) else {
            return Ok(Taken::NotHeld);
        };
        let lease = self.lease(location.log())?;
        Ok(Taken::Leased(lease, location))
    }

    /// Grants a lease of an open log on its last view: first a handle of the view, then one of the
    /// slot.
    fn lease(&mut self, log: u32) -> Result<Lease<D::View>, TakeFault>
        requires keeps { StoreInvariant self.old }
        requires shown { HasOpenView self.old.state.logs log }
        ensures transition { GrantLeaseTransition D.View.bytes D.View.honest D.View.sound self.old.state log result self.new.state }
        ensures internals { self.new ≡ record self.old { state = self.new.state } }
    {
        let Some(held) = self.logs.get(log) else {
            unreachable!();
        };
        let Some(view) = &held.view else {
            unreachable!();
        };
        let Ok(view) = view.clone() else {
            return Err(TakeFault::Memory);
        };
        match self.keeper.pin(held.slot) {
            Ok(seat) => Ok(Lease::of(seat, view)),
            Err(PinFault::NoSeat) => Err(TakeFault::NoSeat),
            Err(PinFault::TooMany) => Err(TakeFault::TooMany),
        }
    }

    /// Counts the leases of all logs.
    pub fn count_leases(&mut self) -> u64
        ensures unchanged { self.new ≡ self.old }
        ensures counts { CountsLeases self.old.state.keeper result }
    {
        self.keeper.count_leases()
    }

    /// Closes a Retired log and its slot.
    pub fn close_log(&mut self, log: u32) -> Result<(), Leased>
        requires keeps { StoreInvariant self.old }
        requires retired { IsIn self.old.state log Retired }
        ensures transition { CloseLogTransition self.old.state log result self.new.state }
        ensures internals { self.new ≡ record self.old { state = self.new.state } }
    {
        let Some(held) = self.logs.get(log) else {
            unreachable!();
        };
        self.keeper.close(held.slot)?;
        self.logs.end_writing(log, LogState::Closed);
        Ok(())
    }
}

impl<D: LogDisk> Store<D> {
    /// Returns the disk if no lease is out.
    ///
    /// # Errors
    ///
    /// - `StillLeased`: the store, unchanged, with the lowest log that has leases and their number.
    pub fn into_disk(self) -> Result<D, StillLeased<D>>
        ensures files { IfOk result (λ disk. D.files disk ≡ self.files) }
        ensures honest { IfOk result (λ disk. D.honest disk ≡ self.honest) }
        ensures failures { IfOk result (λ disk. D.failures disk ≡ self.failures) }
        ensures unleased { OnOk result (HaveNoLeases self.keeper self.logs self.next) }
        ensures leased { IfErr result (λ refused. IsLowestLeased self.keeper self.logs refused.log refused.count) }
        ensures same { IfErr result (λ refused. refused.store ≡ self) }
    {
        let Self { mut fields } = self;
        if let Some((log, count)) = fields.logs.close_all(&mut fields.keeper) {
            return Err(StillLeased {
                store: Store { fields },
                log,
                count,
            });
        }
        let Fields { disk, .. } = fields;
        Ok(disk)
    }
}
