//! Retires, closes and removes logs that the index does not point into, and rebuilds the index from
//! the published parts of the logs.
//!
//! Uses only public calls of `Store`, so the store invariant holds whatever these functions do.
#![tactic(auto)]

mod answer;
mod closing;
mod rebuilding;
mod removing;
mod retiring;
mod scanning;

pub use answer::{CloseAnswer, CollectFault, RemoveAnswer, RetireAnswer};
pub use closing::close;
pub use rebuilding::rebuild;
pub use removing::remove;
pub use retiring::retire;
