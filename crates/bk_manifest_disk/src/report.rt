//! What an opening ignores of the logs.

use std::fmt::{self, Display, Formatter};

/// Why bytes of a log are ignored.
#[derive(Clone, Copy, Debug, PartialEq, Eq)]
pub enum Cause {
    /// They follow the durable bytes.
    NotDurable,
    /// The log was made, and no byte of it was ever durable.
    NeverDurable,
    /// The log was removed, and is there again. They follow the bytes that were durable.
    Back,
}

impl Display for Cause {
    fn fmt<W: fmt::Write>(&self, f: &mut Formatter<W>) -> fmt::Result {
        f.write_str(match self {
            Cause::NotDurable => "not durable",
            Cause::NeverDurable => "log never durable",
            Cause::Back => "removed log is back",
        })
    }
}

/// Bytes at the end of a log that an opening ignores. They stay in the file. Its text is
/// `log L: N bytes ignored from position P: CAUSE`.
#[derive(Clone, Copy, Debug, PartialEq, Eq)]
pub struct Report {
    pub log: u32,
    /// Position of the first ignored byte.
    pub from: u64,
    /// Number of ignored bytes. May be 0 if the log was removed.
    pub bytes: u64,
    pub cause: Cause,
}

impl Display for Report {
    fn fmt<W: fmt::Write>(&self, f: &mut Formatter<W>) -> fmt::Result {
        write!(
            f,
            "log {}: {} bytes ignored from position {}: {}",
            self.log, self.bytes, self.from, self.cause
        )
    }
}
