//! What a crash may leave of a store's logs and what an opening finds, and a test disk whose power
//! fails.
#![tactic(auto)]

mod interrupted;
mod laws;
mod power_disk;
mod recovered;
mod written;
mod written_log;

pub use interrupted::interrupt;
pub use laws::{
    a_crash_loses_nothing, a_cut_opens, a_manifest_makes_a_cut, a_second_crash_leaves_no_more,
};
pub use power_disk::PowerDisk;
pub use recovered::{survives_damage, survives_with_ledgers};
pub use written::{Choices, File, Written};
