//! The page on a directory of entry logs: reads the logs and writes the page of bk_report.
#![tactic(auto)]

mod folder;
mod manifest;
mod survey;

pub use bk_report::Thresholds;
pub use folder::report_folder;
pub use survey::{PageAsk, Surveyed, survey_disk};
