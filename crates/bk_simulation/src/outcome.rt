//! What a run gives: its samples and its counts.

use crate::{Holds, Plan, Tally};
use bk_sim_disk::Metered;

/// The state at one moment. Bytes are real ones.
#[derive(Clone, Copy, Debug, PartialEq, Eq)]
pub struct Sample {
    /// Seconds since the begin of the run.
    pub time: u64,
    /// Bytes of the records in logs of ledgers that live.
    pub live: u64,
    /// Bytes of all logs.
    pub disk: u64,
    /// Number of logs that are held.
    pub logs: u64,
    /// Number of keys of the index, in entries.
    pub keys: u64,
}

/// The result of a run.
#[derive(Drop)]
pub struct Outcome {
    pub plan: Plan,
    pub samples: Vec<Sample>,
    pub tally: Tally,
    pub metered: Metered,
    pub holds: Holds,
    /// Greatest bytes of all logs.
    pub peak_disk: u64,
    /// Greatest number of logs that were held.
    pub peak_logs: u64,
    /// Greatest number of keys of the index, in entries.
    pub peak_keys: u64,
    /// The second at which a log was wanted and every slot was taken, which ended the run.
    pub full_at: Option<u64>,
}
