//! A page on the runs of a simulation: one HTML file that loads nothing.
#![tactic(auto)]

mod load;
mod markup;
mod page;
mod picture;
mod table;

pub use page::write_page;
