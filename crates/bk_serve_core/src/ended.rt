//! The end of a session by a fault of its frames.

use thiserror::Error;

/// Why the server ended the session. It answers every request that it took before this reply.
#[derive(Clone, Copy, Debug, PartialEq, Eq, Error)]
pub enum Ended {
    /// The first frame is no hello.
    #[error("no hello")]
    NoHello,
    /// The server speaks these versions, none of which the client does.
    #[error("version {lowest} {highest}")]
    Version { lowest: u64, highest: u64 },
    /// A later frame is a hello.
    #[error("second hello")]
    SecondHello,
    /// The input ended after `read` of the `length` bytes of a frame, or of the 4 of a length
    /// field.
    #[error("cut frame {length} {read}")]
    Cut { length: u64, read: u64 },
    /// A frame has this length, less than that of an id and a kind.
    #[error("short frame {length}")]
    Short { length: u64 },
    /// A frame has this length, more than the largest.
    #[error("oversized frame {length} {largest}")]
    Oversized { length: u64, largest: u64 },
    /// No request has this call.
    #[error("unknown call {call}")]
    UnknownCall { call: u64 },
    /// A request of this call cannot have this number of bytes of fields.
    #[error("bad fields {call} {length}")]
    BadFields { call: u64, length: u64 },
    /// The id of a request is not greater than that of the one before.
    #[error("id {next} after {previous}")]
    NotRising { next: u64, previous: u64 },
    /// The input could not be read.
    #[error("input failed")]
    InputFailed,
    /// Out of memory for a frame.
    #[error("no memory")]
    NoMemory,
}
