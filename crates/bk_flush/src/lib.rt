//! Flushes the write cache of a store to entry logs, and rolls the current log.
//!
//! Uses only public calls of `Store`, so the store invariant holds whatever these functions do.
#![tactic(auto)]

mod answer;
mod faults;
mod publication;
mod ready;
mod sealing;
mod writing;

pub use answer::{PublishAnswer, RollAnswer, WriteAnswer};
pub use bk_store::StepFault as FlushFault;
pub use publication::publish;
pub use sealing::roll;
pub use writing::{swap, write_one};
