//! A view of an entry log that has the records of the log in memory, so that a scan does not read
//! them.
#![tactic(auto)]

mod hinted_view;
mod laws;
mod table;

pub use hinted_view::HintedView;
pub use laws::a_table_is_tested;
pub use table::Table;
