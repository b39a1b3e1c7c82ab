//! Errors of an add to the caches.

use thiserror::Error;

/// Why the active cache refuses a payload.
#[derive(Clone, Copy, Debug, PartialEq, Eq, Error)]
pub enum CacheFault {
    /// The payload would exceed the limit of the active cache.
    #[error("full {used} {limit}")]
    Full {
        /// Payload bytes of the active cache.
        used: u64,
        /// Greatest number of payload bytes.
        limit: u64,
    },
    /// Out of memory.
    #[error("memory")]
    Memory,
}
