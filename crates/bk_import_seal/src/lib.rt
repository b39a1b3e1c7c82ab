//! The commands `import` and `seal` on a directory.
#![tactic(auto)]

mod import;
mod seal;

pub use import::run_import;
pub use seal::run_seal;
