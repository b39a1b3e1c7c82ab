//! How many bytes of each log are shown.

ghost use Rattle.std.specs.Prelude.{◌≡◌, ◌+◌};
ghost use Rattle.std.specs.FinMap as map;

use std::alloc::Global;
use std::collections::BTreeMap;
use std::marker::Model;

/// The limits of some logs, in bytes.
#[derive(Drop)]
pub(crate) struct Limits {
    by_log: BTreeMap<u32, u64>,
}

impl Model for Limits {
    ghost use Rattle.std.specs.FinMap as map;
    ghost use Rattle.std.specs.Coded.{coded_ℕ};
    ghost use Rattle.bk_manifest_disk.specs.Limiting.{LogLimits};

    ghost Value = { LogLimits };

    ghost coded = { map.code coded_ℕ coded_ℕ };

    ghost view = { λ limits. map.from_entries limits.by_log.entries };
}

impl Limits {
    ghost use Rattle.bk_manifest_disk.specs.Limiting.{capped, reaches};

    pub(crate) fn new(by_log: BTreeMap<u32, u64>) -> Limits
        ensures { result ≡ map.from_entries by_log.entries }
    {
        Limits { by_log }
    }

    /// Returns the limit of a log; `None` if all its bytes are shown.
    pub(crate) fn get(&self, log: u32) -> Option<u64>
        ensures { result ≡ map.get self.now log }
    {
        self.by_log.get(&log).copied()
    }

    /// Returns the length of a log up to its limit.
    pub(crate) fn cap(&self, log: u32, length: u64) -> u64
        ensures { result ≡ capped (map.get self.now log) length }
    {
        match self.get(log) {
            Some(limit) => length.min(limit),
            None => length,
        }
    }

    /// Returns whether `n` bytes of a log from position `at` on are before its limit.
    pub(crate) fn reaches(&self, log: u32, at: u64, n: u64) -> bool
        ensures { result ≡ reaches (map.get self.now log) (at + n) }
    {
        match self.get(log) {
            Some(limit) => at <= limit && n <= limit - at,
            None => true,
        }
    }

    /// Removes the limit of a log.
    pub(crate) fn remove(&mut self, log: u32)
        ensures { self.new ≡ map.remove self.old log }
    {
        self.by_log.remove(&log);
    }
}
