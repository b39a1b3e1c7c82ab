//! Hints of entry logs: where they are kept, whether one may be used, how one is made, and a disk
//! whose views have them.
#![tactic(auto)]

mod checking;
mod dir_hints;
mod fault;
mod hinted_disk;
mod hints;
mod making;
mod mem_hints;
mod sample;
mod sealed;
mod unused_watch;
mod uses;
mod why_not;

pub use checking::check_hint;
pub use dir_hints::{DirHints, RefusedPut};
pub use fault::{HintStoreFault, MakeFault};
pub use hinted_disk::HintedDisk;
pub use hints::Hints;
pub use making::make_hint;
pub use mem_hints::MemHints;
pub use unused_watch::UnusedWatch;
pub use why_not::{Unused, WhyNot};
