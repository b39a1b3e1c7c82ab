//! Marks of the trail, and receipts of entries.

use bk_record::Key;

/// A change that a store accepted.
#[derive(Clone, Copy, Debug, PartialEq, Eq)]
pub enum Mark {
    /// An entry was added: its key, and the SHA-256 of its payload.
    Add { key: Key, digest: [u8; 32] },
    /// A ledger was deleted.
    Delete { ledger: u64 },
    /// A ledger was fenced.
    Fence { ledger: u64 },
}

/// Evidence that an entry was accepted: the number of its mark in the trail, its key, and the
/// SHA-256 of its payload.
#[derive(Clone, Copy, Debug, PartialEq, Eq)]
pub struct Receipt {
    pub number: u64,
    pub key: Key,
    pub digest: [u8; 32],
}
