//! Choosing the log that is compacted next.

ghost use Rattle.std.specs.Prelude.{IsSome, IsTrue};
ghost use Rattle.std.specs.List.{All};
ghost use Rattle.std.specs.FinMap as map;
ghost use Rattle.bk_store.specs.Invariant.{StoreInvariant};
ghost use Rattle.bk_store.specs.CompactionPrimitives.{IsLeastUsed};

use crate::fields::Fields;
use bk_disk::LogDisk;

impl<D: LogDisk> Fields<D> {
    /// Returns the log to compact among these, which are held.
    pub fn least_used(&self, threshold: u32, allowed: &[u32]) -> Option<u32>
        requires keeps { StoreInvariant self.now }
        requires held { All (λ id. IsSome (map.get self.now.state.logs id)) allowed.now }
        ensures { IsTrue self.now.state.honest → IsLeastUsed self.now.state threshold allowed.now result }
    {
        self.accounts.lowest_below(threshold, allowed)
    }
}
