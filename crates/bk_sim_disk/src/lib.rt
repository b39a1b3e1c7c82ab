//! Disks for simulations: one that keeps lengths and keys of records, and no data; and a meter over
//! any disk.
#![tactic(auto)]

mod meter;
mod record;
mod sim_disk;
mod sim_log;
mod sim_view;

pub use meter::{Bytes, MeterDisk, Metered};
pub use record::{filler_of, payload_of};
pub use sim_disk::SimDisk;
pub use sim_view::SimView;
