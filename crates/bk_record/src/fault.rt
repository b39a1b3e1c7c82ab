//! Errors of keys, payloads and records.

use thiserror::Error;

/// Why a payload is refused, or could not be written.
#[derive(Clone, Copy, Debug, PartialEq, Eq, Error)]
pub enum RecordFault {
    /// The payload has this many bytes, fewer than the 16 of its two ids.
    #[error("short {0}")]
    Short(u64),
    /// The ledger id or the entry id is negative as a signed number.
    #[error("negative number")]
    Negative,
    /// The payload of an add has this many bytes, more than 5,000,000.
    #[error("too long {0}")]
    TooLong(u64),
    /// Out of memory.
    #[error("memory")]
    Memory,
}
