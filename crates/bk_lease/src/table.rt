//! Creation of a lease table.
ghost use Rattle.std.specs.Prelude.{◌≡◌, ◌^◌, ◌<◌, ◌≤◌, IfOk, replicate};
ghost use Rattle.bk_lease.specs.declared.slot.Slot.TheVariants.{Free};

use crate::keeper::Keeper;
use crate::rule::{Board, Room};
use crate::slot::Slot;
use std::alloc::{AllocError, Global};
use std::sync::Arc;

/// A table of lease words, one for each slot.
pub struct LeaseTable;

impl LeaseTable {
    /// Returns the keeper of a new table whose slots are all free.
    ///
    /// The table has `slots` slots, 1 to 65,536, and allows `most` leases of one slot at once, 1 to
    /// 65,535. No later call on the keeper, a seat or a lease allocates.
    ///
    /// # Errors
    ///
    /// - `AllocError` if an allocation fails.
    pub fn new(alloc: Global, slots: usize, most: u64) -> Result<Keeper, AllocError>
        requires slots { (0 < slots) × (slots ≤ 65536) }
        requires most { (0 < most) × (most < 2 ^ 16) }
        ensures free { IfOk result (λ keeper. keeper.slots ≡ replicate slots Free) }
        ensures most { IfOk result (λ keeper. keeper.most ≡ most) }
    {
        let words = vec![in alloc; 0; slots]?;
        let states = vec![in alloc; Slot::Free; slots]?;
        let (table, seat) = Board::of_words(alloc, &words, &Room { slots, most })?;
        let table = Arc::new(alloc, table)?;
        Ok(Keeper::new(table, seat, states, most))
    }
}
