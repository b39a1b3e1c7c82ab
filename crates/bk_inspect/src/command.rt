//! The commands that read a directory of entry logs.

ghost use Rattle.std.specs.Prelude.{◌≤◌, ◌↔◌, IsTrue};

use crate::DigestChoice;
use bk_record::Key;

/// A command on a directory of entry logs. No command writes to it.
#[derive(Clone, Copy, Debug, PartialEq, Eq)]
pub enum DirCommand {
    /// The id, the length in bytes and the state of each log.
    Logs,
    /// The header of the log of this id.
    Header(u32),
    /// The ledgers map of the log of this id.
    Map(u32),
    /// The entries of the log of this id, in file order.
    Scan(u32),
    /// Those entries of the log of this id that are chosen, in file order.
    ScanPart(u32, ScanChoice),
    /// The last record of this key over all logs.
    Find(Key),
    /// Whether each log is valid, and its map that of its entries.
    Check,
    /// Whether each log's header is valid, and its map can be read. No entry is read.
    CheckQuick,
    /// What `Check` tells, and whether each entry fits the digest in its payload.
    CheckDigests(DigestChoice),
    /// One of these checks, with the torn bytes of unsealed logs.
    CheckLong(Option<DigestChoice>),
    /// The records, their bytes, the first and the last entry of each ledger.
    Ledgers,
    /// The location of the last record of each of these entries of a ledger.
    Entries(EntryRange),
}

impl DirCommand {
    /// Returns the log that is asked for, if it is one.
    pub(crate) fn log(&self) -> Option<u32> {
        match self {
            DirCommand::Header(log)
            | DirCommand::Map(log)
            | DirCommand::Scan(log)
            | DirCommand::ScanPart(log, _) => Some(*log),
            DirCommand::Logs
            | DirCommand::Find(_)
            | DirCommand::Check
            | DirCommand::CheckQuick
            | DirCommand::CheckDigests(_)
            | DirCommand::CheckLong(_)
            | DirCommand::Ledgers
            | DirCommand::Entries(_) => None,
        }
    }
}

/// Which entries of a log a scan shows, and whether with their data.
#[derive(Clone, Copy, Debug, PartialEq, Eq)]
pub struct ScanChoice {
    /// Those of this ledger; `None`: of all ledgers.
    pub ledger: Option<u64>,
    /// Those whose payload begins at this position of the file or after it.
    pub from: u64,
    /// Whether their data is shown too.
    pub data: bool,
}

/// The entries of a ledger from one number to another, inclusive.
#[derive(Clone, Copy, Debug, PartialEq, Eq)]
pub struct EntryRange {
    pub ledger: u64,
    pub first: u64,
    pub last: u64,
}

impl EntryRange {
    /// Returns whether this is a number of the range.
    pub(crate) fn has(&self, entry: u64) -> bool
        ensures { IsTrue result ↔ (self.now.first ≤ entry) × (entry ≤ self.now.last) }
    {
        self.first <= entry && entry <= self.last
    }
}
