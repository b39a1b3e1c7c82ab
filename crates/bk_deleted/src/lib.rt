//! The deleted ledgers of a call of a command: those that it names or does not name as live, and those
//! that the manifest of its directory records.
#![tactic(auto)]

mod deleted;
mod lines;
mod noted;

pub use deleted::{Deleted, DeletedAsk, deleted_in};
pub use noted::note_deleted;
