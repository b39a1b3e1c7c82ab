//! The keeper of a lease table: it opens slots for logs and creates seats for readers.
//!
//! A keeper has the state of each slot, and by the lease rule the words agree with it. So no call
//! reads a word to learn its log, and a count that a step finds is the count of that log.
ghost use Rattle.std.specs.Prelude.{◌≡◌, ◌≢◌, ℕ, ◌^◌, ◌<◌, ◌≤◌, length, IfSome, IfNone};
ghost use Rattle.std.specs.Prelude.{IfOk, IfErr, OnOk, OnErr, IsErrOf};
ghost use Rattle.bk_lease.specs.declared.slot.Slot.TheVariants.{Free, Open};
ghost use Rattle.bk_lease.specs.Leases.{state_at, log_at, IsOpen, IsClosed, MayOpen};
ghost use Rattle.bk_lease.specs.Slots.{IsFree, taken_count};

use crate::answers::{Closed, Leased, PinFault};
use crate::counting::{closed, counted, pinned};
use crate::lease::Lease;
use crate::rule::{Board, Role};
use crate::seat::LeaseSeat;
use crate::slot::Slot;
use crate::steps::{FreeStep, GrantStep, NeverStep, OpenStep, UndoStep};
use crate::word;
use atomic_table::Seat;
use std::marker::Model;
use std::sync::Arc;

/// The lease manager: opens, closes and frees slots, and grants leases to readers. A table has one.
/// No call waits.
#[derive(Drop)]
pub struct Keeper {
    table: Arc<Board>,
    seat: Seat<(), Role>,
    slots: Vec<Slot>,
    most: u64,
    /// Start of the search for a free slot: the last slot that was opened or freed.
    last: usize,
}

impl Model for Keeper {
    ghost use Rattle.std.specs.Arc.{arc_value};
    ghost use Rattle.bk_lease.specs.Values.{SlotTable};
    ghost use Rattle.bk_lease.specs.Codes.{slot_table_code};

    ghost Value = { SlotTable };

    ghost coded = { slot_table_code };

    ghost use Rattle.bk_lease.specs.Values.{IsAtRest, given_in};

    ghost view = { λ k. record {
      table = k.seat.table_id;
      slots = k.slots.items;
      most = k.most;
      given = given_in k.seat.me.0;
    } };

    ghost invariant = { λ k.
        IsAtRest k.seat (arc_value k.table).shared.table_id k.slots.items k.most };
}

impl Keeper {
    ghost use Rattle.std.specs.Arc.{arc_value};
    ghost use Rattle.bk_lease.specs.Values.{SlotTable, IsAtRest, given_in, with_state, with_closed};
    ghost use Rattle.bk_lease.specs.Values.{with_given, new_ticket, AllowsLeaseCount, AllowsCountIn, CountsLeases};

    pub(crate) fn new(
        table: Arc<Board>,
        seat: Seat<(), Role>,
        slots: Vec<Slot>,
        most: u64,
    ) -> Keeper
        requires { IsAtRest seat (arc_value table).shared.table_id slots.items most }
        ensures { result ≡ record {
          table = seat.table_id;
          slots = slots.items;
          most = most;
          given = given_in seat.me.0;
        } }
    {
        Keeper {
            table,
            seat,
            slots,
            most,
            last: 0,
        }
    }

    /// Returns the state of each slot.
    pub fn slots(&self) -> &[Slot]
        ensures { result.now ≡ self.now.slots }
    {
        &self.slots
    }

    /// Returns a free slot, or `None` if there is none.
    ///
    /// The search starts at the last slot that was opened or freed, so opening slots one after
    /// another visits each slot once.
    pub fn free_slot(&self) -> Option<usize>
        ensures free { IfSome result (λ slot. IsFree self.now.slots slot) }
        ensures full { IfNone result (taken_count self.now.slots ≡ length self.now.slots) }
    {
        if let Some(slot) = first_free(&self.slots, self.last) {
            return Some(slot);
        }
        first_free(&self.slots, 0)
    }

    /// Opens a slot for a log. Requires a slot that is free or closed, and a log id of at most 2^31
    /// - 1.
    pub fn open(&mut self, slot: usize, log: u32)
        requires slot { slot < length self.old.slots }
        requires log { log < 2 ^ 31 }
        requires may_open { MayOpen (state_at self.old.slots slot) }
        ensures { self.new ≡ with_state self.old slot (Open log) }
    {
        let shared = &self.table.shared;
        shared.store::<OpenStep>(&mut self.seat, slot, word::unleased(log));
        self.slots[slot] = Slot::Open(log);
        self.last = slot;
    }

    /// Returns a seat that holds an open slot: a lease of its log.
    ///
    /// # Errors
    ///
    /// In this order; the keeper is unchanged:
    ///
    /// - `NoSeat` if the table can have no further owner.
    /// - `TooMany` if the log has as many outstanding leases as the table allows.
    pub fn pin(&mut self, slot: usize) -> Result<LeaseSeat, PinFault>
        requires { IsOpen self.old.slots slot }
        ensures ok { IfOk result (λ seat. seat ≡ new_ticket self.old slot seat.seat) }
        ensures given { OnOk result (self.new ≡ with_given self.old) }
        ensures err { OnErr result (self.new ≡ self.old) }
        ensures room { OnOk result ((met : ℕ) × (met < self.old.most) × AllowsLeaseCount self.old slot met) }
        ensures too_many { IsErrOf result PinFault.TooMany → AllowsLeaseCount self.old slot self.old.most }
    {
        let Ok(table) = Arc::try_clone(&self.table) else {
            return Err(PinFault::NoSeat);
        };
        let log = self.log_at(slot);
        let met = pinned(&self.table, &mut self.seat, slot);
        let shared = &self.table.shared;
        if met >= self.most {
            shared.fetch_sub::<UndoStep>(&mut self.seat, slot, 1);
            return Err(PinFault::TooMany);
        }
        let seat = shared.split_seat::<GrantStep>(&mut self.seat);
        Ok(LeaseSeat::new(table, seat, slot, log))
    }

    /// Closes an open slot if its log has no outstanding lease.
    ///
    /// # Errors
    ///
    /// - `Leased` with the number of leases that were outstanding at that step; the keeper is
    ///   unchanged.
    pub fn close(&mut self, slot: usize) -> Result<Closed, Leased>
        requires { IsOpen self.old.slots slot }
        ensures ok { IfOk result (λ c. (c.slot ≡ slot) × (c.log ≡ log_at self.old.slots slot)) }
        ensures closed { OnOk result (self.new ≡ with_closed self.old slot) }
        ensures unleased { OnOk result (AllowsLeaseCount self.old slot 0) }
        ensures leased { IfErr result (λ e. (0 < e.count) × (e.count ≤ self.old.most)) }
        ensures met { IfErr result (λ e. AllowsLeaseCount self.old slot e.count) }
        ensures err { OnErr result (self.new ≡ self.old) }
    {
        let log = self.log_at(slot);
        match closed(&self.table, &mut self.seat, slot, log) {
            Ok(()) => {
                self.slots[slot] = Slot::Closed(log);
                Ok(Closed { slot, log })
            }
            Err(count) => Err(Leased { count }),
        }
    }

    /// Frees a closed slot.
    pub fn free(&mut self, closed: Closed)
        requires { state_at self.old.slots closed.slot ≡ Slot.Closed closed.log }
        ensures { self.new ≡ with_state self.old closed.slot Free }
    {
        let shared = &self.table.shared;
        shared.store::<FreeStep>(&mut self.seat, closed.slot, 0);
        self.slots[closed.slot] = Slot::Free;
        self.last = closed.slot;
    }

    /// Returns the number of outstanding leases, over all logs, at most 2^64 - 1.
    ///
    /// It is the sum of one number for each slot: of an open slot the leases of its log at one step
    /// of the call, of any other slot 0. Other threads may give leases back between these steps. So
    /// the sum is at most the number of leases when the call begins, and at least the number when
    /// it ends. One load for each open slot, in order; no wait.
    pub fn count_leases(&mut self) -> u64
        ensures unchanged { self.new ≡ self.old }
        ensures counts { CountsLeases self.old result }
    {
        let mut total = 0u64;
        for slot in 0..self.slots.len() {
            total = total.saturating_add(self.leases_on(slot));
        }
        total
    }

    /// Returns the number of leases on a slot at one step of the call.
    fn leases_on(&mut self, slot: usize) -> u64
        requires { slot < length self.old.slots }
        ensures unchanged { self.new ≡ self.old }
        ensures count { AllowsCountIn self.old slot (state_at self.old.slots slot) result }
    {
        match self.slots[slot] {
            Slot::Open(_) => counted(&self.table, &mut self.seat, slot),
            Slot::Free | Slot::Closed(_) => 0,
        }
    }

    /// Theorem: no lease holds a slot that this keeper has closed. A caller that has both calls
    /// this function in a branch that is never reached.
    pub fn meet<V: Drop>(&mut self, lease: Lease<V>)
        requires table { lease.ticket.table ≡ self.old.table }
        requires closed { IsClosed self.old.slots lease.ticket.slot }
        ensures { ⊥ }
    {
        lease.into_seat().meet(&mut self.seat);
        let shared = &self.table.shared;
        shared.load::<NeverStep>(&mut self.seat, 0);
    }

    /// Returns the log of an open slot.
    fn log_at(&self, slot: usize) -> u32
        requires { IsOpen self.now.slots slot }
        ensures { result ≡ log_at self.now.slots slot }
    {
        let Slot::Open(log) = self.slots[slot] else {
            unreachable!()
        };
        log
    }
}

/// The first free slot from `from` on.
fn first_free(slots: &[Slot], from: usize) -> Option<usize>
    ensures free { IfSome result (λ slot. IsFree slots.now slot) }
    ensures taken { IfNone result ((slot : ℕ) → from ≤ slot → slot < length slots.now
        → state_at slots.now slot ≢ Free) }
{
    for slot in from..slots.len() {
        if slots[slot] == Slot::Free {
            return Some(slot);
        }
    }
    None
}
