//! The bytes of a log by kind, counted entry by entry.

ghost use Rattle.std.specs.Prelude.{◌≡◌};
ghost use Rattle.bk_report.specs.Counting.{AddsEntry, CoversFile, IsRowOf, copy_of};

use crate::LogRow;

/// The length of a header.
const HEADER: u64 = 1024;

/// The number of ledgers in a batch of a ledgers map.
const BATCH: u64 = 10_000;

/// What was counted of a log.
#[derive(Clone, Copy)]
pub struct LogCount {
    pub log: u32,
    /// The length of the file.
    pub bytes: u64,
    /// Whether the header names a ledgers map.
    pub is_sealed: bool,
    /// The number of entries.
    pub entries: u64,
    /// The bytes of entries, with their length fields, whose ledger is live.
    pub live: u64,
    /// The bytes of the other entries.
    pub dead: u64,
    /// The number of live ledgers with an entry.
    pub live_ledgers: u64,
}

/// How the reading of a log ended.
#[derive(Clone, Copy)]
pub enum LogEnd {
    /// All whole records were read. After the last are `torn` bytes.
    Read { torn: u64 },
    /// What is at this position and after it cannot be read.
    Doubtful { from: u64 },
}

impl LogCount {
    /// Returns the count of a log without an entry.
    pub fn new(log: u32, bytes: u64, is_sealed: bool) -> LogCount {
        LogCount {
            log,
            bytes,
            is_sealed,
            entries: 0,
            live: 0,
            dead: 0,
            live_ledgers: 0,
        }
    }

    /// Returns the count with one more entry, whose record has `size` bytes. `is_first` says whether
    /// it is the first of its ledger in this log.
    pub fn with_entry(self, size: u64, is_dead: bool, is_first: bool) -> LogCount
        ensures { AddsEntry size is_dead is_first self result }
    {
        let counted = LogCount {
            entries: self.entries.saturating_add(1),
            ..self
        };
        if is_dead {
            return LogCount {
                dead: self.dead.saturating_add(size),
                ..counted
            };
        }
        LogCount {
            live: self.live.saturating_add(size),
            live_ledgers: self.live_ledgers.saturating_add(u64::from(is_first)),
            ..counted
        }
    }

    /// Returns the row of the log, when its reading has ended.
    pub fn row(self, end: LogEnd, fault: Option<String>) -> LogRow
        ensures row { IsRowOf self end result }
        ensures covers { CoversFile self end result }
    {
        let (torn, doubtful) = match end {
            LogEnd::Read { torn } => (torn, 0),
            LogEnd::Doubtful { from } => (0, self.bytes.saturating_sub(from)),
        };
        let after_entries = self
            .bytes
            .saturating_sub(HEADER)
            .saturating_sub(self.live)
            .saturating_sub(self.dead);
        LogRow {
            log: self.log,
            bytes: self.bytes,
            live: self.live,
            dead: self.dead,
            foreign: after_entries.saturating_sub(torn).saturating_sub(doubtful),
            torn,
            doubtful,
            entries: self.entries,
            copy: self.copy(),
            is_kept: 0 < self.bytes && self.bytes < HEADER,
            is_sealed: self.is_sealed,
            fault,
        }
    }

    /// Returns the length of a log that has the live entries alone, with its header and its ledgers
    /// map; 0 if there are none.
    fn copy(self) -> u64
        ensures { result ≡ copy_of self }
    {
        if self.live == 0 {
            return 0;
        }
        let ledgers = u128::from(self.live_ledgers);
        let map = 16 * ledgers + 24 * u128::from(self.live_ledgers.div_ceil(BATCH));
        let copy = u128::from(HEADER) + u128::from(self.live) + map;
        u64::try_from(copy).unwrap_or(u64::MAX)
    }
}
