//! Errors of a scenario.

use std::alloc::AllocError;
use thiserror::Error;

/// Why a scenario is not run.
#[derive(Clone, Copy, Debug, Error)]
pub(crate) enum RunFault {
    /// The file cannot be read or is not UTF-8.
    #[error("not read")]
    Unread,
    /// The line with this number, counted from 1, names no section, or one that must come earlier.
    #[error("line {0}: bad section")]
    Section(u64),
    /// The line with this number is not valid in its section.
    #[error("line {0}: bad line")]
    Line(u64),
    /// The files cannot be put on a disk: an id occurs twice or exceeds 2^31 - 1.
    #[error("bad files")]
    Files,
    /// The scenario makes more calls than the limit.
    #[error("too many calls")]
    Calls,
    /// Out of memory.
    #[error("memory")]
    Memory,
}

impl From<AllocError> for RunFault {
    fn from(_error: AllocError) -> Self {
        RunFault::Memory
    }
}
