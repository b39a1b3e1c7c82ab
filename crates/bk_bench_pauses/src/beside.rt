//! What the calls are made beside.

/// What the calls are made beside, N of it.
#[derive(Clone, Copy, Debug, PartialEq, Eq)]
pub(crate) enum Beside {
    /// Logs that are held, each of one live entry.
    Logs,
    /// Logs that are held, each half live, so that each qualifies for a compaction.
    Worn,
    /// Logs that are held, all slots but one.
    Slots,
    /// Keys of one ledger in one log.
    Keys,
    /// Keys of one ledger, each in a log of its own.
    Spread,
    /// Entries of one ledger in the cache.
    Cache,
    /// Entries in the cache, each of a ledger of its own.
    Ledgers,
    /// Entries of a log, each of a ledger of its own, half of them deleted.
    Copies,
}

impl Beside {
    /// Returns what a word names.
    pub(crate) fn named(word: &str) -> Option<Beside> {
        match word {
            "logs" => Some(Beside::Logs),
            "worn" => Some(Beside::Worn),
            "slots" => Some(Beside::Slots),
            "keys" => Some(Beside::Keys),
            "spread" => Some(Beside::Spread),
            "cache" => Some(Beside::Cache),
            "ledgers" => Some(Beside::Ledgers),
            "copies" => Some(Beside::Copies),
            _ => None,
        }
    }
}
