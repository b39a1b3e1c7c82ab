#![tactic(auto)]
//! Leases on entry logs: a log that is leased is not closed, so it is not removed while it is read.
//!
//! Each held log has a slot, and each slot has one word: its state, its log, and its number of
//! leases. A lease is released by one atomic step on this word, in any thread, without a lock or a
//! wait. A slot is closed by an atomic step that finds it without leases.

mod answers;
mod counting;
mod keeper;
mod lease;
mod rule;
mod seat;
mod slot;
mod steps;
mod table;
mod word;

pub use answers::{Closed, Leased, PinFault};
pub use keeper::Keeper;
pub use lease::Lease;
pub use seat::LeaseSeat;
pub use slot::Slot;
pub use table::LeaseTable;
