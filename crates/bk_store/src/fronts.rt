//! The fronts: how much of the trail a flush has, and how much is durable.

ghost use Rattle.std.specs.Prelude.{◌≡◌, ◌≤◌, IsTrue, length};
ghost use Rattle.bk_store.specs.Fronts.{AreDurable, fronts_at, fronts_after_swap, fronts_after_flush};

use crate::{Store, SwapAnswer};
use bk_disk::LogDisk;

/// Numbers of marks of the trail, counted from its start.
#[derive(Clone, Copy, Debug, PartialEq, Eq)]
pub struct Fronts {
    /// Number of marks at the last swap that began a flush. No entry of an earlier mark is in the
    /// active cache.
    pub swapped: u64,
    /// Number of marks whose entries are durable: those at the swap of the last flush that ended.
    pub durable: u64,
}

impl Fronts {
    /// Returns the fronts with all of this many marks durable.
    pub(crate) fn at(front: u64) -> Fronts
        ensures { result ≡ fronts_at front }
    {
        Fronts {
            swapped: front,
            durable: front,
        }
    }

    /// Returns the fronts after a swap with this answer, in a store with this many marks.
    pub(crate) fn after_swap(self, answer: &SwapAnswer, front: u64) -> Fronts
        ensures { result ≡ fronts_after_swap answer.now front self }
    {
        match answer {
            SwapAnswer::Running => self,
            SwapAnswer::Nothing => Fronts::at(front),
            SwapAnswer::Swapped(_) => Fronts {
                swapped: front,
                ..self
            },
        }
    }

    /// Returns the fronts after the end of the flush.
    pub(crate) fn after_flush(self) -> Fronts
        ensures { result ≡ fronts_after_flush self }
    {
        Fronts::at(self.swapped)
    }
}

impl<D: LogDisk> Store<D> {
    /// Returns the durable front: how many marks of the trail are durable, counted from its start.
    ///
    /// The entry of each `Add` mark below it is in the index, at a place in a synced part of a log, or
    /// its ledger is deleted. So it survives a crash, and a journal need not keep it. `publish` raises
    /// the front to the number of marks at the swap that began its flush; a swap that finds nothing
    /// to flush raises it to the number of all marks. It never falls.
    ///
    /// The front speaks of adds only. A caller stores deletions and fences itself.
    pub fn durable_front(&self) -> u64
        ensures value { result ≡ self.now.fronts.durable }
        ensures within { result ≤ length self.now.ledgers.trail }
        ensures meaning { IsTrue self.now.honest → AreDurable result self.now.index self.now.logs self.now.ledgers }
    {
        self.fields.fronts.durable
    }
}
