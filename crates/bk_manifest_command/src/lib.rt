//! The command `manifest`: shows the manifests of a directory, checks them, and makes one anew that is
//! damaged or does not fit the logs.
#![tactic(auto)]

mod command;
mod fault;
mod rebuild;
mod rows;
mod take_logs;

pub use command::run_manifest;
