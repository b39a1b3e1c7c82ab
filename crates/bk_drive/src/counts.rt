//! Counts of a store, as a value.

ghost use Rattle.std.specs.Prelude.{◌≡◌};
ghost use Rattle.bk_drive.specs.Counting.{counts_of};

use bk_disk::LogDisk;
use bk_store::Store;

/// Counts of the entries that are only cached, and of the marks of the trail.
#[derive(Clone, Copy, Debug, PartialEq, Eq)]
pub struct Counts {
    /// Number of payload bytes of the active cache.
    pub cached: u64,
    /// Number of payload bytes of the flushing cache, 0 if no flush is running.
    pub flushing: u64,
    /// Number of marks in the trail.
    pub front: u64,
    /// Number of marks that are durable: the durable front of the store.
    pub durable: u64,
}

/// Returns the counts of a store, which is unchanged.
pub(crate) fn count<D: LogDisk>(store: &Store<D>) -> Counts
    ensures { result ≡ counts_of store.now }
{
    let stats = store.stats();
    Counts {
        cached: stats.cached,
        flushing: stats.flushing,
        front: stats.front,
        durable: stats.durable,
    }
}
