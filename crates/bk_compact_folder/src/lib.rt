//! The command `compact`: compacts a directory, or shows what that would do.
#![tactic(auto)]

mod ask;
mod command;
mod index;
mod kept;
mod named;
mod planned;
mod rows;

pub use ask::CompactAsk;
pub use command::run_compact;
