//! Relocating entries in a compaction: an entry is appended to the target log, then the index
//! points to its copy.

ghost use Rattle.std.specs.Prelude.{◌≡◌};
ghost use Rattle.bk_record.specs.Location.{Place};
ghost use Rattle.bk_store.specs.Invariant.{StoreInvariant};
ghost use Rattle.bk_store.specs.Primitives.{AppendRecordTransition};
ghost use Rattle.bk_store.specs.Internals.{AppendCopiedInternals, RelocateInternals, DurableNeverShrinks, with_durable_of};
ghost use Rattle.bk_store.specs.CompactionPrimitives.{CanAppendCopied, CanRelocate, RelocateTransition};

use crate::fields::Fields;
use bk_disk::LogDisk;
use bk_log::LogFault;
use bk_record::{Key, Location};

impl<D: LogDisk> Fields<D> {
    /// Appends an entry to a target log.
    #[tactic(auto, using(bk_disk::proofs::DurableGrows::kept_rules))]
    pub fn append_copied(
        &mut self,
        log: u32,
        key: Key,
        payload: &[u8],
    ) -> Result<Location, LogFault>
        requires keeps { StoreInvariant self.old }
        requires may { (place : Place) × CanAppendCopied self.old.state log key place payload.now }
        ensures transition { AppendRecordTransition self.old.state log payload.now result self.new.state }
        ensures internals { AppendCopiedInternals (with_durable_of self.old self.new) log key payload.now result self.new }
        ensures durable { DurableNeverShrinks self.old self.new }
    {
        let Ok(()) = self.accounts.ready(log, key.ledger()) else {
            return Err(LogFault::Memory);
        };
        match self.logs.put(log, &mut self.disk, self.alloc, payload) {
            Ok(location) => {
                let size = payload.len() as u32 + 4;
                self.accounts.count(log, key.ledger(), size);
                Ok(location)
            }
            Err(fault) => Err(fault),
        }
    }

    /// Points a key from one place to another, if the index points to the first.
    pub fn relocate(&mut self, key: Key, from: Location, to: Location) -> bool
        requires keeps { StoreInvariant self.old }
        requires may { CanRelocate self.old.state key from to }
        ensures transition { RelocateTransition self.old.state key from to result self.new.state }
        ensures internals { RelocateInternals self.old key to result self.new }
    {
        if !self.index.replace_if(&key, from, to) {
            return false;
        }
        // Lemma: a log has at most as many index entries as the index, so the count cannot
        // overflow.
        let _keys = self.index.len();
        self.accounts.unname(from.log());
        self.accounts.name(to.log());
        true
    }
}
