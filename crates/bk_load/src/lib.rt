//! Load test of a bookie: callers that add, take and delete, workers that flush, a keeper that
//! compacts and removes logs, and a check of the files at the end.
#![tactic(auto)]

mod before;
mod caller;
mod checking;
mod done;
mod entries;
mod keeper;
mod latency;
mod report;
mod running;
mod serving;

pub use latency::Latencies;
pub use report::{Checked, Load, LoadFault, Logs, Report, Until};
pub use running::{Recorded, run_load};
