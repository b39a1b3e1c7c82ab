//! Counts that a store knows at once.

ghost use Rattle.std.specs.Prelude.{◌≡◌, ◌-◌, ◌≤◌, ◌^◌, length, min};
ghost use Rattle.std.specs.FinMap as map;
ghost use Rattle.bk_cache.specs.Caches.{used_of, flush_of};
ghost use Rattle.bk_lease.specs.Values.{CountsLeases};

use crate::Store;
use bk_disk::LogDisk;

/// Counts of a store at one moment. None of them costs a search.
#[derive(Clone, Copy, Debug, PartialEq, Eq)]
pub struct Stats {
    /// Number of logs that are held, also retired and closed ones.
    pub logs: usize,
    /// Id of the next log, at most 2^31.
    pub next: u32,
    /// Number of index entries.
    pub indexed: usize,
    /// Number of payload bytes of the active cache.
    pub cached: u64,
    /// Number of payload bytes of the flushing cache, 0 if no flush is running.
    pub flushing: u64,
    /// Number of marks in the trail, which is the number of the next mark.
    pub front: u64,
    /// Number of marks that are durable: the durable front.
    pub durable: u64,
    /// How often the device has failed in calls of the disk, at most 2^64 - 1. Failed reads of a
    /// view are not among them.
    pub failures: u64,
}

impl<D: LogDisk> Store<D> {
    /// Returns the counts of this moment.
    pub fn stats(&self) -> Stats
        ensures logs { result.logs ≡ map.len self.now.logs }
        ensures next { result.next ≡ self.now.next }
        ensures indexed { result.indexed ≡ map.len self.now.index }
        ensures cached { result.cached ≡ used_of self.now.caches.active }
        ensures flushing { result.flushing ≡ used_of (flush_of self.now.caches) }
        ensures front { result.front ≡ length self.now.ledgers.trail }
        ensures durable { result.durable ≡ self.now.fronts.durable }
        ensures failures { result.failures ≡ min self.now.failures (2 ^ 64 - 1) }
        ensures within { result.cached ≤ self.now.caches.limit }
        ensures ids { result.next ≤ 2 ^ 31 }
    {
        let fields = &self.fields;
        Stats {
            logs: fields.logs.len(),
            next: fields.next,
            indexed: fields.index.len(),
            cached: fields.caches.used(),
            flushing: fields.caches.flush_used(),
            front: fields.ledgers.front(),
            durable: fields.fronts.durable,
            failures: fields.disk.count_failures(),
        }
    }

    /// Returns the number of outstanding leases, over all logs, at most 2^64 - 1.
    ///
    /// It is the sum of one number for each log that is held: of a closed log 0, of any other its
    /// leases at one step of the call. Other threads may give leases back between these steps. So
    /// the sum is at most the number of leases when the call begins, and at least the number when it
    /// ends. One load for each log that is not closed; no wait.
    pub fn count_leases(&mut self) -> u64
        ensures unchanged { self.new ≡ self.old }
        ensures counts { CountsLeases self.old.keeper result }
    {
        self.fields.count_leases()
    }
}
