//! What commands on a directory write beside their answers: rows, faults with the way on, failed calls
//! of the system, and a line of progress.
#![tactic(auto)]

mod book_fault;
mod dead;
mod failed_calls;
mod fault;
mod kinds;
mod line;
mod logs_fault;
mod object;
mod report;
mod rows;
mod way_on;

pub use book_fault::BookFault;
pub use dead::{DeadFault, LineEnd};
pub use failed_calls::FailedCalls;
pub use fault::{CommandFault, reason_of};
pub use kinds::{
    disk_kind, folder_kind, logs_kind, manifest_kind, open_kind, read_kind, reason_kind, step_kind,
};
pub use line::Line;
pub use logs_fault::LogsFault;
pub use report::{end_early, tell_dead};
pub use rows::{RowFault, write_object, write_row};
pub use way_on::WayOn;
