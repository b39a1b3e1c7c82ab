//! An entry that a scan found.

use bk_record::Key;

/// An entry of a log: its key, the position of its payload in bytes, and the size of its record in
/// bytes, with its length field.
#[derive(Clone, Copy, Debug, PartialEq, Eq)]
pub struct Found {
    pub key: Key,
    pub at: u64,
    pub size: u32,
}

/// Entries of one ledger and one size whose records stand directly one behind another, with
/// consecutive entry ids.
#[derive(Clone, Copy, Debug, PartialEq, Eq)]
pub struct FoundRun {
    /// The first entry.
    pub first: Found,
    /// Number of entries.
    pub count: u32,
}
