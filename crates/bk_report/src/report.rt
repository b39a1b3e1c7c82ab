//! What a page is made from. The caller fills it.

use crate::Histogram;

/// A log of the directory. Its bytes are those of its file; the rest after the five parts is the
/// header.
#[derive(Drop)]
pub struct LogRow {
    pub log: u32,
    /// The length of the file.
    pub bytes: u64,
    /// The bytes of entries, with their length fields, whose ledger is live.
    pub live: u64,
    /// The bytes of entries, with their length fields, whose ledger is deleted.
    pub dead: u64,
    /// The bytes of whole records without an entry, such as those of the ledgers map.
    pub foreign: u64,
    /// The bytes after the last whole record, fewer than a record needs.
    pub torn: u64,
    /// The bytes from a fault on, which cannot be read.
    pub doubtful: u64,
    /// The number of entries.
    pub entries: u64,
    /// The length of the log that a compaction would make of it; 0 if no entry is live.
    pub copy: u64,
    /// Whether a compaction leaves the log as it is.
    pub is_kept: bool,
    /// Whether the header names a ledgers map.
    pub is_sealed: bool,
    /// What is wrong with the log. A compaction leaves out a log with a fault.
    pub fault: Option<String>,
}

/// A ledger over all logs.
#[derive(Clone, Copy)]
pub struct LedgerRow {
    pub ledger: u64,
    pub entries: u64,
    /// The bytes of these entries, with their length fields.
    pub bytes: u64,
    /// The number of logs with an entry.
    pub logs: u64,
    /// Whether the ledger is deleted.
    pub is_dead: bool,
}

/// The thresholds of the two kinds of compaction, in thousandths.
#[derive(Clone, Copy)]
pub struct Thresholds {
    pub minor: u32,
    pub major: u32,
}

/// What the manifest says of a log.
#[derive(Clone, Copy)]
pub enum Promise {
    /// It was made, and no byte of it was promised to be durable.
    Made,
    /// Its first `length` bytes are durable.
    Durable { length: u64 },
    /// It was removed.
    Removed,
}

/// A log of the manifest.
#[derive(Clone, Copy)]
pub struct ManifestRow {
    pub log: u32,
    pub promise: Promise,
}

/// What the manifest says.
#[derive(Drop)]
pub struct ManifestTable {
    /// The logs, by rising id.
    pub logs: Vec<ManifestRow>,
    /// The deleted ledgers.
    pub deleted: Vec<u64>,
    /// The fenced ledgers.
    pub fenced: Vec<u64>,
}

/// What a page shows.
#[derive(Drop)]
pub struct Report {
    /// The name of the directory.
    pub folder: String,
    /// When the directory was read.
    pub time: String,
    /// The logs, by rising id.
    pub logs: Vec<LogRow>,
    /// The number of ledgers with an entry.
    pub ledger_count: u64,
    /// The number of ledgers that the caller named as deleted.
    pub dead_count: u64,
    /// The largest ledgers, the largest first.
    pub ledgers: Vec<LedgerRow>,
    /// The sizes of all entries, with their length fields.
    pub sizes: Histogram,
    /// The faults, each with its file, the operation and the reason.
    pub faults: Vec<String>,
    pub thresholds: Thresholds,
    /// What the manifest says; `None` if none was read.
    pub manifest: Option<ManifestTable>,
}
