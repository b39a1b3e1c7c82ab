//! Accounts of the entry logs, and the choice of the log to compact. For each open log: the bytes
//! of its entries, those of ledgers that were not forgotten, and the number of index entries that
//! point into it.
#![tactic(auto)]

mod accounts;
mod fault;
mod laws;
mod log_account;
mod usage;

pub use accounts::Accounts;
pub use fault::AccountFault;
pub use laws::{counts_from_scratch, one_choice};
