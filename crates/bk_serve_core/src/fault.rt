//! Errors of the codec.

ghost use Rattle.std.specs.Prelude.{◌≡◌};
ghost use Rattle.bk_serve_core.specs.declared.fault.EncodeError.TheVariants as encode;

use std::alloc::{AllocError, AllocFailed};
use thiserror::Error;

/// Why the bytes of a frame are no request or no reply.
#[derive(Clone, Copy, Debug, PartialEq, Eq, Error)]
pub enum Fault {
    /// The frame ends before its kind.
    #[error("no kind")]
    NoKind,
    /// No request or no reply has this kind.
    #[error("unknown kind {0}")]
    UnknownKind(u8),
    /// A frame of this kind cannot have this number of bytes of fields.
    #[error("kind {kind} with {length} bytes of fields")]
    BadLength { kind: u8, length: u64 },
}

/// Why a request or a reply was not encoded.
#[derive(Clone, Copy, Debug, PartialEq, Eq, Error)]
pub enum EncodeError {
    /// Out of memory.
    #[error("memory")]
    Memory,
    /// The content of an entry, an attribute or a page has this many bytes, which it cannot have.
    #[error("too long {0}")]
    TooLong(u64),
}

/// Why a frame was not read or written.
#[derive(Clone, Copy, Debug, PartialEq, Eq, Error)]
pub enum FrameFault {
    /// The frame has this length, less than that of an id and a kind.
    #[error("short frame {0}")]
    Short(u32),
    /// The frame has this length, more than the longest.
    #[error("oversized frame {0}")]
    Oversized(u32),
    /// The input ended after `read` of the `length` bytes of a frame, or of the 4 of a length
    /// field.
    #[error("cut frame {length} {read}")]
    Cut { length: u64, read: u64 },
    /// The reader or the writer failed.
    #[error("device")]
    Device,
    /// Out of memory.
    #[error("memory")]
    Memory,
}

impl From<AllocError> for FrameFault {
    ghost use Rattle.bk_serve_core.specs.declared.fault.FrameFault.TheVariants as frame;

    ghost from_gives = { λ _ e. e ≡ frame.Memory };

    fn from(_e: AllocError) -> FrameFault {
        FrameFault::Memory
    }
}

impl From<AllocError> for EncodeError {
    ghost from_gives = { λ _ e. e ≡ encode.Memory };

    fn from(_e: AllocError) -> EncodeError {
        EncodeError::Memory
    }
}

impl<T: Drop> From<AllocFailed<T>> for EncodeError {
    ghost from_gives = { λ _ e. e ≡ encode.Memory };

    fn from(_e: AllocFailed<T>) -> EncodeError {
        EncodeError::Memory
    }
}
