//! A page on a directory of entry logs: one HTML file that loads nothing, and the survey that counts
//! what it shows.
#![tactic(auto)]

mod compaction;
mod counting;
mod escape;
mod histogram;
mod number;
mod page;
mod part;
mod report;
mod scale;
mod size;
mod survey;
mod totals;

pub use compaction::{Effect, effect_of};
pub use counting::{LogCount, LogEnd};
pub use escape::write_text;
pub use histogram::{CLASSES, Histogram, size_class};
pub use number::write_number;
pub use page::write_page;
pub use part::Part;
pub use report::{LedgerRow, LogRow, ManifestRow, ManifestTable, Promise, Report, Thresholds};
pub use survey::{LedgerCount, Survey};
pub use totals::{Totals, totals_of};
