//! State of a slot.

/// State of a slot, as the keeper has it. Log ids are from 0 to 2^31 - 1.
#[derive(Clone, Copy, Debug, PartialEq, Eq)]
pub enum Slot {
    /// The slot has no log.
    Free,
    /// The slot has this log, and leases of it can be granted.
    Open(u32),
    /// The slot has this log, which has no outstanding lease, and none can be granted.
    Closed(u32),
}
