//! Finite map from keys to locations, walked in key order.
#![tactic(auto)]

mod builder;
mod index;
mod near;
mod page;
mod pages;
mod walk;

pub use builder::IndexBuilder;
pub use index::Index;
pub use near::Near;
pub use pages::Pages;
pub use walk::Walk;
