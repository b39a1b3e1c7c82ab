//! A thread-safe bookie: one store behind one mutex, passes for its callers, receipts for accepted
//! entries, and workers.
#![tactic(auto)]

mod add_request;
mod bookie;
mod calls;
mod counting;
mod ending;
mod fault;
mod fetching;
mod guarded;
mod hold;
mod ledger_reads;
mod pass;
mod receipts;
mod workers;

pub use bookie::{Bookie, OpenRefused};
pub use ending::{FinishRefused, Finished};
pub use fault::{CallFault, FinishFault, NoPass, ReadBackFault, WorkersFault};
pub use fetching::fetch_leased;
pub use pass::{AddLedger, Pass};
pub use workers::{Gate, WorkReport, is_fault};
