//! The steps of a keeper that count a slot's leases. Each answers with the count in the word that
//! the step found.
ghost use Rattle.std.specs.Prelude.{◌≡◌, ℕ, ◌%◌, ◌^◌, ◌<◌};
ghost use Rattle.bk_lease.specs.Steps.{IsIdleOn, IsOpenFor, pin_made, close_made, pin_step, close_step, close_result};
ghost use Rattle.bk_lease.specs.Steps.{count_made, count_step};
ghost use Rattle.bk_lease.specs.Values.{IsSameSeat};

use crate::rule::{Board, Role};
use crate::steps::{CloseStep, CountStep, PinStep};
use crate::word;
use atomic_table::Seat;

/// Makes the step of a pin on an open slot. The pin is then under way. Returns the number of leases
/// that the step met.
pub(crate) fn pinned(table: &Board, seat: &mut Seat<(), Role>, slot: usize) -> u64
    requires seated { seat.old.table_id ≡ table.now.shared.table_id }
    requires inside { slot < table.now.shared.table_id.words }
    requires idle { IsIdleOn seat.old.me slot }
    ensures same { IsSameSeat seat.old seat.new }
    ensures met { (found : ℕ) × pin_step (pin_made table.now.shared.table_id.slots slot) seat.old.me found seat.new.me
        × (result ≡ found % 2 ^ 32) }
{
    let found = table.shared.fetch_add::<PinStep>(seat, slot, 1);
    word::count_of(found)
}

/// Makes the step that reads the word of an open slot. Returns the number of leases that it met.
pub(crate) fn counted(table: &Board, seat: &mut Seat<(), Role>, slot: usize) -> u64
    requires seated { seat.old.table_id ≡ table.now.shared.table_id }
    requires inside { slot < table.now.shared.table_id.words }
    requires idle { IsIdleOn seat.old.me slot }
    ensures same { IsSameSeat seat.old seat.new }
    ensures met { (found : ℕ) × count_step (count_made table.now.shared.table_id.slots slot) seat.old.me found seat.new.me
        × (result ≡ found % 2 ^ 32) }
{
    let read = table.shared.load::<CountStep>(seat, slot);
    word::count_of(read)
}

/// Makes the step of a close on a slot that is open for this log: closes the slot if the log has no
/// lease. Fails with the number of leases that the step met, at least one.
pub(crate) fn closed(
    table: &Board,
    seat: &mut Seat<(), Role>,
    slot: usize,
    log: u32,
) -> Result<(), u64>
    requires seated { seat.old.table_id ≡ table.now.shared.table_id }
    requires inside { slot < table.now.shared.table_id.words }
    requires open { IsOpenFor seat.old.me slot log }
    requires log { log < 2 ^ 31 }
    ensures same { IsSameSeat seat.old seat.new }
    ensures met { (found : ℕ) × close_step (close_made table.now.shared.table_id.slots slot log) seat.old.me found seat.new.me
        × (result ≡ close_result log found) }
{
    let unleased = word::unleased(log);
    let found = table
        .shared
        .compare_exchange::<CloseStep>(seat, slot, unleased, word::closed(log));
    if found == unleased {
        Ok(())
    } else {
        Err(word::count_of(found))
    }
}
