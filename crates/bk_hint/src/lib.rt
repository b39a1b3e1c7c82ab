//! Hint files: the entries of a sealed entry log, so that an opening need not read the log's bytes.
#![tactic(auto)]

mod checking;
mod contents;
mod cursor;
mod entries;
mod facts;
mod fault;
mod head;
mod listed;
mod noting;
mod reading;
mod runs;
mod sums;
mod writing;

pub use contents::Contents;
pub use cursor::EntryCursor;
pub use entries::Entries;
pub use facts::LogFacts;
pub use fault::HintFault;
pub use listed::Listed;
pub use reading::decode;
pub use runs::{ListedRun, ListedRuns};
pub use sums::{fits_map, sums_by_ledger};
pub use writing::encode;
