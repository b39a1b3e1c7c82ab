//! Entries in memory: the active cache, the flushing cache, and the recent entries.
#![tactic(auto)]

mod cache;
mod cache_add;
mod caches;
mod fault;
mod flushing;
mod near;
mod page;
mod recent;
mod rows;
mod swap;

pub use cache::share;
pub use cache_add::CacheAdd;
pub use caches::Caches;
pub use fault::CacheFault;
pub use flushing::Flushing;
pub use near::CacheNear;
pub use swap::Swap;
