//! One entry log: written record by record, and read as a whole or at one place.
#![tactic(auto)]

mod calls;
mod fault;
mod fetching;
mod found;
mod front;
mod laws;
mod length;
mod reading;
mod runs;
mod scanner;
mod sizes;
mod window;
mod writer;

pub use fault::{CreateFault, FetchFault, LogFault, ScanFault};
pub use fetching::fetch;
pub use found::{Found, FoundRun};
pub use laws::{
    a_scan_goes_on, logs_only_grow, one_record_at_a_place, sizes_are_sums, whole_log_is_one_part,
};
pub use scanner::Scanner;
pub use sizes::LedgerSizes;
pub use writer::LogWriter;
