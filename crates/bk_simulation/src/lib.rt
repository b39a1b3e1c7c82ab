//! A simulation of a bookie: the real store, with ledgers that are created, filled and deleted, and
//! with flushes and compactions as a bookie's workers do them.
#![tactic(auto)]

mod alarm;
mod calls;
mod chance;
mod compacting;
mod cost;
mod deaths;
mod fault;
mod figures;
mod flushing;
mod holds;
mod load;
mod memory;
mod month;
mod outcome;
mod plan;
mod retention;
mod row;
mod tally;
mod writers;

pub use cost::Cost;
pub use fault::SimFault;
pub use holds::{Call, Holds, Longest};
pub use load::{Load, Scale, Upkeep};
pub use memory::{TRAIL_BYTES, index_bytes};
pub use month::simulate;
pub use outcome::{Outcome, Sample};
pub use plan::{Plan, PlanFault};
pub use retention::{Kind as RetentionKind, Retention};
pub use row::{HEAD, write_counts, write_holds, write_row};
pub use tally::Tally;
