//! Errors of headers and ledgers maps.

use thiserror::Error;

/// Why a header or a ledgers map could not be read, or a map could not be written.
#[derive(Clone, Copy, Debug, PartialEq, Eq, Error)]
pub enum HeadFault {
    /// The first four bytes are not `BKLO`.
    #[error("bad magic")]
    BadMagic,
    /// The header has this version, which is not 0 or 1.
    #[error("version {0}")]
    Version(u32),
    /// An offset, a count, a ledger id or a size is negative as a signed number.
    #[error("negative number")]
    Negative,
    /// No batch of a ledgers map is at this position of the log.
    #[error("not a map {0}")]
    NotAMap(u64),
    /// The length field at this position of the log does not fit the batch's number of pairs.
    #[error("map length {0}")]
    MapLength(u64),
    /// The map has this ledger twice.
    #[error("repeated {0}")]
    Repeated(u64),
    /// The map has this many ledgers, and the header another count.
    #[error("count differs {0}")]
    CountDiffers(u64),
    /// Out of memory.
    #[error("memory")]
    Memory,
}
