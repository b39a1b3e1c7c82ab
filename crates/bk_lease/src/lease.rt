//! A lease of an entry log: a seat that holds the log's slot, and the value that the lease shows.
//!
//! The seat is in the lease from the pin until the release, in any thread and on any path: dropping
//! a lease releases it.
ghost use Rattle.std.specs.Prelude.{◌≡◌, true, false};
ghost use Rattle.std.specs.Option.{ForSome, option_map};
ghost use Rattle.bk_lease.specs.Values.{spent_ticket};

use crate::seat::LeaseSeat;
use std::marker::Model;
use std::sync::Arc;

/// A lease of an entry log, which shows a `V`. While it exists, the log is not closed.
///
/// Dropping it releases it, as `release` does: one atomic step, without a lock or a wait.
pub struct Lease<V: Drop> {
    seat: Option<LeaseSeat>,
    view: Arc<V>,
}

impl<V: Drop> Model for Lease<V> {
    ghost use Rattle.std.specs.Arc.{arc_value};
    ghost use Rattle.bk_lease.specs.Values.{LeasedView};

    ghost Value = { LeasedView V };

    ghost use Rattle.bk_lease.specs.Values.{ticket_in, KeepsHeld};

    ghost view = { λ l. record { ticket = ticket_in l.seat; view = arc_value l.view } };

    ghost invariant = { λ l. KeepsHeld l.seat };
}

impl<V: Drop> Lease<V> {
    ghost use Rattle.std.specs.Arc.{arc_value};
    ghost use Rattle.bk_lease.specs.Values.{Ticket, LeasedView};

    /// Returns a lease that shows `view`. Requires a seat that holds its slot.
    pub fn of(seat: LeaseSeat, view: Arc<V>) -> Lease<V>
        requires { seat.is_held ≡ true }
        ensures { result ≡ record { ticket = seat; view = arc_value view } }
    {
        Lease {
            seat: Some(seat),
            view,
        }
    }

    /// Returns the value that the lease was made with.
    pub fn view(&self) -> &V
        ensures { result.now ≡ self.now.view }
    {
        &self.view
    }

    /// Returns the id of the log that is leased.
    pub fn log(&self) -> u32
        ensures { result ≡ self.now.ticket.log }
    {
        self.seat().log()
    }

    /// Returns the slot of that log.
    pub fn slot(&self) -> usize
        ensures { result ≡ self.now.ticket.slot }
    {
        self.seat().slot()
    }

    /// Releases the lease by one atomic step and returns its spent seat, which the caller ends.
    pub fn release(self) -> LeaseSeat
        ensures { result ≡ spent_ticket self.ticket }
    {
        let mut seat = self.into_seat();
        seat.spend();
        seat
    }

    /// Returns the seat, which still holds its slot.
    pub(crate) fn into_seat(self) -> LeaseSeat
        ensures seat { result ≡ self.ticket }
        ensures held { result.is_held ≡ true }
    {
        let Self { seat, view: _ } = self;
        let Some(seat) = seat else { unreachable!() };
        seat
    }

    fn seat(&self) -> &LeaseSeat
        ensures { result.now ≡ self.now.ticket }
    {
        let Some(seat) = &self.seat else {
            unreachable!()
        };
        seat
    }
}

/// Effect of a drop on the seat: it stays in its place and is spent.
fn spend_in_place(seat: &mut Option<LeaseSeat>)
    requires { ForSome seat.old (λ s. s.is_held ≡ true) }
    ensures { seat.new ≡ option_map spent_ticket seat.old }
{
    if let Some(kept) = seat {
        kept.spend();
    }
}

/// Ends a spent seat.
fn let_go(seat: Option<LeaseSeat>)
    requires { ForSome seat (λ s. s.is_held ≡ false) }
{
    if let Some(seat) = seat {
        seat.end();
    }
}

// No clause can name the seat after this body. By the clause of `spend_in_place` the seat is spent.
// It has no `Drop`, so it can only be passed to `let_go`, which requires a spent seat.
impl<V: Drop> Drop for Lease<V> {
    fn drop(mut self) {
        spend_in_place(&mut self.seat);
        let Self { seat, view: _ } = self;
        let_go(seat);
    }
}
