//! Settings of a store.

ghost use Rattle.std.specs.Prelude.{◌↔◌, IsTrue};
ghost use Rattle.bk_store.specs.Limits.{IsAllowed};

use bk_record::{MAX_CACHE_LIMIT, MAX_LOG_LIMIT};

/// Limits and thresholds of a store (this project's rule).
#[derive(Clone, Copy, Debug, PartialEq, Eq)]
pub struct Settings {
    /// A log with a record is sealed before a record that would exceed this many bytes: 2,048 to
    /// 4,000,000,000.
    pub log_limit: u32,
    /// Maximal payload bytes of one write cache: 16 to 1,073,741,824.
    pub cache_limit: u32,
    /// Number of recently flushed entries kept in memory: 0 to 65,536.
    pub recent: u32,
    /// Maximal number of logs held at once: 1 to 65,536.
    pub slots: u32,
    /// Maximal number of leases on one log at once: 1 to 65,535.
    pub leases: u32,
    /// A minor compaction takes a log with fewer live thousandths than this: 0 to 1,000.
    pub minor: u32,
    /// The same for a major compaction: 0 to 1,000.
    pub major: u32,
}

impl Settings {
    /// The default settings.
    pub const DEFAULT: Settings = Settings {
        log_limit: 1_073_741_824,
        cache_limit: 16_777_216,
        recent: 0,
        slots: 1024,
        leases: 1024,
        minor: 200,
        major: 800,
    };

    /// Returns whether each number is in its range.
    pub fn is_allowed(&self) -> bool
        ensures { IsTrue result ↔ IsAllowed self.now }
    {
        2048 <= self.log_limit
            && self.log_limit <= MAX_LOG_LIMIT
            && 16 <= self.cache_limit
            && self.cache_limit <= MAX_CACHE_LIMIT
            && self.recent <= 65_536
            && 1 <= self.slots
            && self.slots <= 65_536
            && 1 <= self.leases
            && self.leases <= 65_535
            && self.minor <= 1000
            && self.major <= 1000
    }
}
