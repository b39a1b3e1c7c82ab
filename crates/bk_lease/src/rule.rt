//! The lease rule as the rule of a table with one word for each slot.
//!
//! Each seat has a view, a ghost value. The keeper's view has the state of each slot, the pin under
//! way and the number of seats created; any other seat holds its slot or is spent. The rule relates
//! words and views, and each step of any thread preserves it (`specs/Leases.antt`).

use crate::slot::Slot;
use atomic_table::{Table, TableRule};
use std::alloc::Global;
use std::collections::LinkedList;

/// A pin under way: its slot, and the number of seats that held the slot at its step. Ghost.
pub(crate) struct Pin {
    pub(crate) slot: u64,
    pub(crate) met: u64,
}

/// View of the keeper. Ghost.
pub(crate) struct Register {
    pub(crate) slots: LinkedList<Slot>,
    pub(crate) pending: Option<Pin>,
    /// Greatest number of seats that hold one slot.
    pub(crate) most: u64,
    /// Number of seats created, one per pin.
    pub(crate) given: u64,
}

/// View of a seat. Ghost.
pub(crate) enum Role {
    Keeper(Register),
    /// The seat holds this slot.
    Held(u64),
    Spent,
}

/// Arguments of a new table.
#[derive(Clone, Copy)]
pub(crate) struct Room {
    pub(crate) slots: usize,
    pub(crate) most: u64,
}

pub(crate) struct LeaseRule;

impl TableRule<(), Role, Room> for LeaseRule {
    ghost use Rattle.bk_lease.specs.Leases.{IsRuled, first_role};

    ghost holds = { λ _ s. IsRuled s.words s.views };

    ghost first = { first_role };
}

pub(crate) type Board = Table<(), Role, Room, LeaseRule, Global>;
