//! Results of a keeper's calls.

use thiserror::Error;

/// A closed slot: when it was closed, its log had no outstanding lease. None is granted until the
/// slot is opened again.
#[derive(Debug, Drop)]
pub struct Closed {
    pub slot: usize,
    /// Id of the log in the slot.
    pub log: u32,
}

/// A slot was not closed: its log had `count` outstanding leases at that step, at least one.
#[derive(Clone, Copy, Debug, PartialEq, Eq, Error)]
#[error("leased {count}")]
pub struct Leased {
    pub count: u64,
}

/// Why a pin returned no seat. The slot's count is unchanged.
#[derive(Clone, Copy, Debug, PartialEq, Eq, Error)]
pub enum PinFault {
    /// The table can have no further owner: it has 2^63 - 1 seats and keepers. Callers report it as
    /// out of memory.
    #[error("no seat")]
    NoSeat,
    /// The slot's log has as many outstanding leases as the table allows.
    #[error("too many leases")]
    TooMany,
}
