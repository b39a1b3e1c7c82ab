//! Results of the calls of a flush, one enum per call.

use bk_record::Location;

/// Result of one write of a flush.
#[derive(Clone, Copy, Debug, PartialEq, Eq)]
pub enum WriteAnswer {
    /// No flush is running.
    NoFlush,
    /// Every entry of the flush has a place.
    AllWritten,
    /// The next entry was written at this location.
    Wrote(Location),
}

/// Result of a publish.
#[derive(Clone, Copy, Debug, PartialEq, Eq)]
pub enum PublishAnswer {
    /// No flush is running.
    NoFlush,
    /// An entry of the flush has no place yet.
    NotAllWritten,
    /// The flush ended. It had this many entries, which are read from their logs from now on.
    Published(u64),
}

/// Result of a roll.
#[derive(Clone, Copy, Debug, PartialEq, Eq)]
pub enum RollAnswer {
    /// A flush is running.
    FlushRunning,
    /// No log is Writing.
    NothingOpen,
    /// The Writing log, of this id, was sealed and is written no more.
    Sealed(u32),
}
