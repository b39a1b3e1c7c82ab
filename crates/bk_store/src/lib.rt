//! The state of a bookie's storage: entry logs, write caches, index, leases, deleted and fenced
//! ledgers.
#![tactic(auto)]

mod adding;
mod answer;
mod choice;
mod deleting;
mod fencing;
mod fields;
mod flushing;
mod fronts;
mod indexing;
mod job;
mod known_ledgers;
mod laws;
mod leasing;
mod ledger_reads;
mod ledger_set;
mod log;
mod log_sums;
mod logs;
mod making;
mod mark;
mod naming;
mod open;
mod places;
mod prepared;
mod primitives;
mod reading;
mod relocating;
mod removing;
mod replacing;
mod settings;
mod showing;
mod states;
mod stats;
mod step_fault;
mod store;
mod trail;
mod writing;

pub use adding::AddKind;
pub use answer::{
    AddFault, Added, Appended, DeleteFault, Fence, FenceFault, LogCause, MakeFault, OpenFault,
    TakeFault, Taken,
};
pub use bk_cache::Swap as SwapAnswer;
pub use fronts::Fronts;
pub use job::{Job, Move, Phase, TakenJob};
pub use laws::{
    add_refines_abstract, delete_keeps_representation, delete_refines_abstract,
    fence_refines_abstract, files_have_an_index, index_is_one, opened_index_represents,
    rebuilt_index_represents, reopening_keeps_contents, replay_is_what_came_in,
    represented_keys_are_held, represented_map_is_contents, represented_map_is_unique,
    swap_refines_abstract, take_refines_abstract, trail_is_kept,
};
pub use leasing::StillLeased;
pub use log::LogState;
pub use log_sums::LogBytes;
pub use mark::{Mark, Receipt};
pub use prepared::Prepared;
pub use settings::Settings;
pub use stats::Stats;
pub use step_fault::StepFault;
pub use store::Store;
