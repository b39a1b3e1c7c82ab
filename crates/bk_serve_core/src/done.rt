//! Replies to requests that were carried out.

/// What was done. The number of a variant in the protocol is its status.
#[derive(Clone, Copy, PartialEq, Eq)]
pub enum Done<'a> {
    /// Answers `Hello`: the version of the session, the greatest length of a frame, the greatest
    /// number of requests without a reply, and the greatest number of ids of a page.
    Welcome {
        version: u64,
        largest: u64,
        in_flight: u64,
        page: u64,
    },
    /// The entry was added: the number of its mark in the trail, and the SHA-256 of the entry.
    Accepted {
        number: u64,
        digest: [u8; 32],
    },
    /// The store has an entry of this key, which is unchanged.
    Held,
    /// The entry: its ids, and the bytes after them.
    Entry {
        ledger: u64,
        entry: u64,
        content: &'a [u8],
    },
    /// The store has no such entry.
    NotHeld,
    /// The greatest entry id of the ledger.
    Last {
        entry: u64,
    },
    /// It is so.
    Yes,
    /// It is not so.
    No,
    /// Rising ids, eight bytes each, big-endian.
    Page {
        ids: &'a [u8],
    },
    /// The ledger is fenced from now on.
    FencedNow,
    /// The ledger was fenced before.
    FencedBefore,
    /// The ledger is deleted; it had this number of entries.
    Dropped {
        entries: u64,
    },
    /// The attribute is durable.
    Stored,
    /// The attribute of the ledger.
    Attribute {
        value: &'a [u8],
    },
    /// The ledger has no such attribute.
    NoAttribute,
    /// This number of entries was published.
    Flushed {
        entries: u64,
    },
    /// Every mark of the trail below this number is durable.
    Durable {
        front: u64,
    },
    /// This number of logs was removed, and of entries copied.
    Compacted {
        logs: u64,
        entries: u64,
    },
    /// The store: its logs, the bytes of their records, those of live ledgers, the payload bytes of
    /// the write caches, the entries of the index, a number below which every mark of the trail is
    /// durable, the next log's id, the length of the trail, the leases that are out, and how often
    /// the device failed since the directory was opened.
    Figures {
        logs: u64,
        bytes: u64,
        live: u64,
        cached: u64,
        indexed: u64,
        durable: u64,
        next_log: u64,
        front: u64,
        leases: u64,
        failures: u64,
    },
    /// This log was sealed.
    Sealed {
        log: u64,
    },
    /// No log is being written.
    NothingOpen,
    /// The session ends; every mark of the trail below this number is durable.
    Closed {
        front: u64,
    },
}
