//! The rows of a compaction of a directory: the logs that it would take or keeps, and the ledgers.

use serde::Serialize;
use std::fmt;
use std::fmt::{Display, Formatter};

/// A log that a compaction would take.
#[derive(Clone, Copy, Serialize)]
pub(crate) struct PlannedRow {
    pub log: u32,
    pub length: u64,
    /// `compact` or `remove`.
    pub fate: &'static str,
    /// The number of entries to copy.
    #[serde(skip_serializing_if = "Option::is_none")]
    pub entries: Option<u64>,
}

/// The records of a ledger that is named as deleted.
#[derive(Clone, Copy, Serialize)]
pub(crate) struct LedgerRow {
    pub ledger: u64,
    pub entries: u64,
    pub bytes: u64,
}

/// The row of a log that is kept.
#[derive(Clone, Copy, Serialize)]
pub(crate) struct KeptRow<'a> {
    pub note: &'static str,
    pub log: u32,
    pub length: u64,
    pub file: &'a str,
}

/// The row of a directory without logs.
#[derive(Clone, Copy, Serialize)]
pub(crate) struct EmptyRow<'a> {
    pub note: &'static str,
    pub folder: &'a str,
}

impl Display for PlannedRow {
    fn fmt<W: fmt::Write>(&self, f: &mut Formatter<W>) -> fmt::Result {
        write!(f, "{} {} {}", self.log, self.length, self.fate)?;
        match self.entries {
            Some(entries) => write!(f, " {entries}"),
            None => Ok(()),
        }
    }
}

impl Display for LedgerRow {
    fn fmt<W: fmt::Write>(&self, f: &mut Formatter<W>) -> fmt::Result {
        write!(
            f,
            "ledger {} entries {} bytes {}",
            self.ledger, self.entries, self.bytes
        )
    }
}

impl Display for KeptRow<'_> {
    fn fmt<W: fmt::Write>(&self, f: &mut Formatter<W>) -> fmt::Result {
        write!(
            f,
            "{} {}: {} bytes, less than a header; look at it, and remove it if it is of no use",
            self.note, self.file, self.length
        )
    }
}

impl Display for EmptyRow<'_> {
    fn fmt<W: fmt::Write>(&self, f: &mut Formatter<W>) -> fmt::Result {
        write!(
            f,
            "{} in {}: a log is a file named by its id in hexadecimal, such as 1f.log",
            self.note, self.folder
        )
    }
}
