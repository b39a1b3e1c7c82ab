//! Makes the hints of the sealed logs of a directory, and compares them with their logs.
#![tactic(auto)]

mod checked;
mod comparing;
mod fault;
mod folder_hints;
mod hinted;
mod making;
mod names;
mod sealed;

pub use checked::{SeesStates, check_hints};
pub use comparing::{HintState, WrongHint, compare_hint};
pub use fault::{HintingFault, LogFault, LogReason};
pub use folder_hints::FolderHints;
pub use hinted::{SeesOutcomes, Written, write_hints, write_hints_watched};
pub use making::{Outcome, hint_log};
