//! Errors of the program.

use std::alloc::AllocError;
use std::io;
use thiserror::Error;

/// Why the program ends early.
#[derive(Clone, Copy, Debug, Error)]
pub(crate) enum BenchFault {
    /// The words of the command line are not valid.
    #[error("entries N ORDER, trail N.., flushing N, memory WHAT N ORDER, or folder WHAT ..")]
    Words,
    /// Out of memory.
    #[error("memory")]
    Memory,
    /// The words could not be read, or a line could not be written.
    #[error("words or output")]
    Host,
    /// A call failed, or its answer differs from the one that the stage with this name measures.
    #[error("{0}: another answer")]
    Answer(&'static str),
}

impl From<AllocError> for BenchFault {
    fn from(_error: AllocError) -> Self {
        BenchFault::Memory
    }
}

impl From<io::Error> for BenchFault {
    fn from(_error: io::Error) -> Self {
        BenchFault::Host
    }
}
