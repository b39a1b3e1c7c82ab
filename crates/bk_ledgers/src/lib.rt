//! The deletions and fences of the ledgers of a directory, in a manifest beside its logs.
#![tactic(auto)]

mod directory;
mod listed;
mod once;
mod recording;

pub use bk_manifest_disk::{Read, ReadFault, Torn, read_file};
pub use directory::{LEDGERS, Opened, open_ledgers, read_ledgers};
pub use listed::{Listed, ledgers_of};
pub use once::{record_deletion, record_fence};
pub use recording::{record, record_deletions, settle};
