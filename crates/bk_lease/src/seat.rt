//! The seat of a lease: it holds one slot until it is spent by one atomic step.
ghost use Rattle.std.specs.Prelude.{◌≡◌, ◌<◌, true, false, []};

use crate::rule::{Board, Role};
use crate::steps::{MeetStep, ReleaseStep};
use atomic_table::Seat;
use std::marker::Model;
use std::sync::Arc;

/// Lease handle: holds one slot, whose log is leased, until it is spent.
///
/// The seat is an owner of its table, so it can outlive the keeper and move to any thread. It has
/// no `Drop`: code that loses a seat does not compile. Put it into a `Lease`, or spend it and end
/// it.
pub struct LeaseSeat {
    table: Arc<Board>,
    seat: Seat<(), Role>,
    slot: usize,
    log: u32,
}

impl Model for LeaseSeat {
    ghost use Rattle.std.specs.Arc.{arc_value};
    ghost use Rattle.bk_lease.specs.Values.{Ticket};
    ghost use Rattle.bk_lease.specs.Codes.{ticket_code};

    ghost Value = { Ticket };

    ghost coded = { ticket_code };

    ghost use Rattle.bk_lease.specs.Values.{IsSeatOf, is_held};

    ghost view = { λ s. record {
      table = s.seat.table_id;
      seat = s.seat.id;
      slot = s.slot;
      log = s.log;
      is_held = is_held s.seat.me.0;
    } };

    ghost invariant = { λ s. IsSeatOf s.seat (arc_value s.table).shared.table_id s.slot };
}

impl LeaseSeat {
    ghost use Rattle.std.specs.Arc.{arc_value};
    ghost use Rattle.bk_lease.specs.declared.rule.Role.TheVariants.{Held, Spent};
    ghost use Rattle.bk_lease.specs.Values.{Ticket, HasClosed, IsSameSeat, held_ticket, spent_ticket};

    /// Returns the seat of a granted pin.
    pub(crate) fn new(table: Arc<Board>, seat: Seat<(), Role>, slot: usize, log: u32) -> LeaseSeat
        requires seated { seat.table_id ≡ (arc_value table).shared.table_id }
        requires inside { slot < seat.table_id.words }
        requires held { seat.me ≡ (Held slot, []) }
        ensures { result ≡ held_ticket seat.table_id seat.id slot log }
    {
        LeaseSeat {
            table,
            seat,
            slot,
            log,
        }
    }

    pub(crate) fn slot(&self) -> usize
        ensures { result ≡ self.now.slot }
    {
        self.slot
    }

    pub(crate) fn log(&self) -> u32
        ensures { result ≡ self.now.log }
    {
        self.log
    }

    /// Releases the lease by one atomic step on the slot's word. Requires a seat that holds its
    /// slot.
    pub fn spend(&mut self)
        requires { self.old.is_held ≡ true }
        ensures { self.new ≡ spent_ticket self.old }
    {
        let shared = &self.table.shared;
        shared.fetch_sub::<ReleaseStep>(&mut self.seat, self.slot, 1);
    }

    /// Ends a spent seat.
    pub fn end(self)
        requires { self.is_held ≡ false }
    {
        let Self {
            table: _,
            seat: _,
            slot: _,
            log: _,
        } = self;
    }

    /// Joins a seat that holds its slot with that of a keeper that has closed the slot.
    pub(crate) fn meet(self, keeper: &mut Seat<(), Role>)
        requires table { keeper.old.table_id ≡ self.table }
        requires closed { HasClosed keeper.old.me self.slot }
        requires held { self.is_held ≡ true }
        ensures seat { IsSameSeat keeper.old keeper.new }
        ensures spent { keeper.new.me ≡ (Spent, []) }
    {
        let Self {
            table,
            seat,
            slot: _,
            log: _,
        } = self;
        table.shared.join_seat::<MeetStep>(keeper, seat);
    }
}
