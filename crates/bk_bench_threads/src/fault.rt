//! Errors of the program.

use std::alloc::AllocError;
use std::io;
use thiserror::Error;

/// Why the program ends early.
#[derive(Clone, Copy, Debug, Error)]
pub(crate) enum CallersFault {
    /// The words of the command line are not valid.
    #[error("counted N, calls C N, reads C N, or all C N")]
    Words,
    /// Out of memory.
    #[error("memory")]
    Memory,
    /// The words or the clock could not be read, or a line could not be written.
    #[error("words, clock or output")]
    Host,
    /// A call failed, or its answer differs from the one that the work with this name measures.
    #[error("{0}: another answer")]
    Answer(&'static str),
}

impl From<AllocError> for CallersFault {
    fn from(_error: AllocError) -> Self {
        CallersFault::Memory
    }
}

impl From<io::Error> for CallersFault {
    fn from(_error: io::Error) -> Self {
        CallersFault::Host
    }
}
