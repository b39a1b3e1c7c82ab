//! Why a simulation ends early.

use bk_store::{AddFault, OpenFault};
use std::alloc::{AllocError, AllocFailed};
use thiserror::Error;

/// Why a simulation ends early.
#[derive(Clone, Copy, Debug, PartialEq, Eq, Error)]
pub enum SimFault {
    /// Out of memory.
    #[error("memory")]
    Memory,
    /// The store did not open.
    #[error("{0}")]
    Open(OpenFault),
    /// The directory or the disk has logs already.
    #[error("the disk has logs already")]
    NotEmpty,
    /// An add was refused.
    #[error("add: {0}")]
    Add(AddFault),
    /// Every slot is taken.
    #[error("every slot is taken")]
    Full,
    /// A call failed, or has an answer that does not occur here.
    #[error("{0}: another answer")]
    Answer(&'static str),
}

impl From<AllocError> for SimFault {
    fn from(_error: AllocError) -> SimFault {
        SimFault::Memory
    }
}

impl<T: Drop> From<AllocFailed<T>> for SimFault {
    fn from(_error: AllocFailed<T>) -> SimFault {
        SimFault::Memory
    }
}
