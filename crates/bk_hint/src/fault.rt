//! Errors of hints.

ghost use Rattle.std.specs.Prelude.{◌≡◌};
ghost use Rattle.bk_hint.specs.declared.fault.HintFault.TheVariants.{Memory};

use std::alloc::{AllocError, AllocFailed};
use thiserror::Error;

/// Why bytes are no hint, or could not be read.
#[derive(Clone, Copy, Debug, PartialEq, Eq, Error)]
pub enum HintFault {
    /// Out of memory.
    #[error("memory")]
    Memory,
    /// The file has this many bytes, fewer than the 36 of a hint without entries.
    #[error("short hint {0}")]
    Short(u64),
    /// The first four bytes are not `BKHI`.
    #[error("bad hint magic")]
    BadMagic,
    /// The hint has this version, which is not 1.
    #[error("hint version {0}")]
    Version(u32),
    /// The file has this many bytes, not as many as its numbers of heads and steps say.
    #[error("hint length {0}")]
    Length(u64),
    /// The checksum does not fit the bytes before it.
    #[error("bad hint checksum")]
    Checksum,
    /// Heads and steps do not list legal entries in order.
    #[error("bad hint entries")]
    Entries,
}

impl From<AllocError> for HintFault {
    ghost from_gives = { λ _ e. e ≡ Memory };

    fn from(_e: AllocError) -> HintFault {
        HintFault::Memory
    }
}

impl<T: Drop> From<AllocFailed<T>> for HintFault {
    ghost from_gives = { λ _ e. e ≡ Memory };

    fn from(_e: AllocFailed<T>) -> HintFault {
        HintFault::Memory
    }
}
