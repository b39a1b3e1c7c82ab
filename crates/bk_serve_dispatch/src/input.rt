//! Input that can tell what is there without waiting.

use std::alloc::Global;
use std::io::{BufReader, Read, Stdin};

/// Number of bytes of the length field of a frame.
const LENGTH_FIELD: usize = 4;

/// A reader that can tell whether bytes wait.
pub trait Source: Read {
    /// Returns whether bytes, or the end of the input, may wait to be read. True if that is not
    /// known.
    fn is_waiting(&self) -> bool;

    /// Returns whether bytes, or the end of the input, are there, so that a read does not wait.
    /// False if that is not known.
    fn is_there(&self) -> bool;
}

/// The standard input cannot tell.
impl Source for Stdin {
    fn is_waiting(&self) -> bool {
        true
    }

    fn is_there(&self) -> bool {
        false
    }
}

/// The input of a session.
pub trait Input: Read {
    /// Returns whether a whole frame can be read without waiting.
    fn has_frame(&self) -> bool;

    /// Returns whether bytes, or the end of the input, may wait to be read.
    fn is_waiting(&self) -> bool;

    /// Returns whether a whole frame, further bytes, or the end of the input are there. Then only
    /// the rest of a frame may have to be waited for.
    fn is_there(&self) -> bool;
}

impl<R: Source> Input for BufReader<R, Global> {
    fn has_frame(&self) -> bool {
        begins_with_frame(self.buffer())
    }

    fn is_waiting(&self) -> bool {
        !self.buffer().is_empty() || self.get_ref().is_waiting()
    }

    fn is_there(&self) -> bool {
        begins_with_frame(self.buffer()) || self.get_ref().is_there()
    }
}

/// Returns whether bytes begin with a whole frame.
fn begins_with_frame(bytes: &[u8]) -> bool {
    let Some((field, rest)) = bytes.split_first_chunk::<LENGTH_FIELD>() else {
        return false;
    };
    u32::from_be_bytes(*field) as usize <= rest.len()
}
