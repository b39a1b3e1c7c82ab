//! Steps of a store, with a manifest of its deleted and fenced ledgers.
#![tactic(auto)]

mod drive;
mod recorder;

pub use drive::drive_kept;
pub use recorder::LedgerRecorder;
