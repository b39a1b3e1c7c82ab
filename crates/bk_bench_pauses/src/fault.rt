//! Errors of the program.

use std::alloc::AllocError;
use std::io;
use thiserror::Error;

/// Why the program ends early.
#[derive(Clone, Copy, Debug, Error)]
pub(crate) enum PauseFault {
    /// The words of the command line are not valid.
    #[error("WHAT N, where WHAT is logs, worn, slots, keys, spread, cache, ledgers or copies")]
    Words,
    /// Out of memory.
    #[error("memory")]
    Memory,
    /// The words could not be read, or a line could not be written.
    #[error("words or output")]
    Host,
    /// A call has another answer than the one that is measured.
    #[error("{0}: another answer")]
    Answer(&'static str),
}

impl From<AllocError> for PauseFault {
    fn from(_error: AllocError) -> Self {
        PauseFault::Memory
    }
}

impl From<io::Error> for PauseFault {
    fn from(_error: io::Error) -> Self {
        PauseFault::Host
    }
}
