//! Adds the entries of a file of records to the logs of a disk.
#![tactic(auto)]

mod importing;
mod records;

pub use bk_store::{OpenFault, Settings};
pub use importing::{Done, ImportFault, Imported, import};
