//! What comes in, how the bookie is kept, and how much of it one simulated record stands for.

use crate::Retention;
use bk_store::Settings;

/// The entries that come in. The bytes of an entry are those of its record, with the length field.
#[derive(Clone, Copy, Debug, PartialEq, Eq)]
pub struct Load {
    /// Length of the run in seconds.
    pub seconds: u64,
    /// Bytes that come in per day.
    pub rate: u64,
    /// Bytes of an entry: 20 to 5,000,004.
    pub entry: u64,
    /// Mean bytes of a ledger. Sizes are uniform between half and three halves of it.
    pub ledger: u64,
    /// Number of ledgers that are written at the same time. A full one is closed, and another one
    /// takes its place.
    pub writers: u32,
    /// How long a ledger is kept after it was closed.
    pub retention: Retention,
    /// Number from which all choices follow.
    pub seed: u64,
}

/// How the bookie is kept.
#[derive(Clone, Copy, Debug, PartialEq, Eq)]
pub struct Upkeep {
    /// Settings of the store, in real bytes.
    pub settings: Settings,
    /// Seconds from one removal of logs without entries to the next.
    pub collect_every: u64,
    /// Seconds from one minor compaction of all logs to the next; 0: never.
    pub minor_every: u64,
    /// The same for a major compaction.
    pub major_every: u64,
}

/// How much one simulated record stands for.
#[derive(Clone, Copy, Debug, PartialEq, Eq)]
pub struct Scale {
    /// Number of entries of one ledger that a simulated record stands for.
    pub batch: u64,
    /// Bytes of a simulated record, with its length field: 20 to 5,000,004.
    pub record: u32,
}
