//! Requests.

/// What a client asks. The number of a variant in the protocol is its call.
#[derive(Clone, Copy, PartialEq, Eq)]
pub enum Request<'a> {
    /// Opens the session: `MAGIC`, and the lowest and the highest version that the client speaks.
    Hello {
        magic: u64,
        lowest: u64,
        highest: u64,
    },
    /// Adds an entry: its ids, and the bytes after them.
    Add {
        ledger: u64,
        entry: u64,
        content: &'a [u8],
    },
    /// Adds an entry as part of a recovery: a fence does not refuse it.
    AddRecovery {
        ledger: u64,
        entry: u64,
        content: &'a [u8],
    },
    /// Reads an entry.
    Read {
        ledger: u64,
        entry: u64,
    },
    /// Reads the entry of a ledger that has the greatest id.
    ReadLast {
        ledger: u64,
    },
    /// Reads the entry of a receipt: its number, its key and the SHA-256 of its entry.
    ReadBack {
        number: u64,
        ledger: u64,
        entry: u64,
        digest: [u8; 32],
    },
    /// Asks for the greatest entry id of a ledger.
    LastEntry {
        ledger: u64,
    },
    /// Asks whether the store has an entry, without reading a log.
    Holds {
        ledger: u64,
        entry: u64,
    },
    /// Asks for the entry ids of a ledger, from this one on, at most so many.
    Entries {
        ledger: u64,
        from: u64,
        most: u64,
    },
    /// Asks for the ids of the ledgers that have entries, from this one on, at most so many.
    Ledgers {
        from: u64,
        most: u64,
    },
    /// Fences a ledger: later ordinary adds to it are refused.
    Fence {
        ledger: u64,
    },
    /// Asks whether a ledger is fenced.
    IsFenced {
        ledger: u64,
    },
    /// Deletes a ledger.
    Delete {
        ledger: u64,
    },
    /// Stores the master key of a ledger.
    SetMasterKey {
        ledger: u64,
        key: &'a [u8],
    },
    /// Asks for the master key of a ledger.
    MasterKey {
        ledger: u64,
    },
    /// Stores the explicit LAC of a ledger, bytes that only clients interpret.
    SetExplicitLac {
        ledger: u64,
        lac: &'a [u8],
    },
    /// Asks for the explicit LAC of a ledger.
    ExplicitLac {
        ledger: u64,
    },
    /// Writes and publishes all entries that were accepted before.
    Flush,
    /// Flushes, and asks up to which number of the trail all is durable.
    Checkpoint,
    /// Compacts the logs whose live share is below a threshold, in thousandths; 0 omits a kind.
    Compact {
        minor: u64,
        major: u64,
    },
    /// Asks for the figures of the store.
    Stats,
    /// Flushes, then seals the log that is being written.
    Seal,
    /// Flushes and ends the session; no later request is answered.
    Close,
}
