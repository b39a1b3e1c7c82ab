//! What happened in a run.

/// Counts of a run. Records are simulated ones.
#[derive(Clone, Copy, Debug, Default, PartialEq, Eq)]
pub struct Tally {
    /// Records that were added.
    pub added: u64,
    /// Flushes that were published.
    pub flushes: u64,
    /// Ledgers that were deleted.
    pub deleted: u64,
    /// Minor compactions, and the records that they moved.
    pub minor: u64,
    pub minor_moved: u64,
    /// Major compactions, and the records that they moved.
    pub major: u64,
    pub major_moved: u64,
    /// Logs that were removed, those without entries among them.
    pub removed: u64,
}
