//! The end of a bookie.

ghost use Rattle.std.specs.Prelude.{◌≡◌, List, IfOk, IfErr, sum_by, vec_len};
ghost use Rattle.bk_store.specs.declared.mark.Mark.{Mark};
ghost use Rattle.bk_bookie.specs.Adds.{add_count};
ghost use Rattle.bk_bookie.specs.Receipts.{AllStand};

use crate::FinishFault;
use crate::bookie::Bookie;
use crate::pass::{AddLedger, Pass};
use bk_disk::LogDisk;
use bk_store::{Receipt, Store};
use std::sync::Mutex;

/// What a bookie leaves: its store, and the number of adds that all its passes count.
#[derive(Drop)]
pub struct Finished<D: LogDisk> {
    pub store: Store<D>,
    pub adds: u64,
}

/// Why a bookie was not ended, and the bookie and the passes, which are unchanged.
#[derive(Drop)]
pub struct FinishRefused<L: AddLedger, D: LogDisk> {
    pub fault: FinishFault,
    pub bookie: Bookie<L, D>,
    pub passes: Vec<Pass<L>>,
}

impl<L: AddLedger, D: LogDisk> Bookie<L, D> {
    /// Ends the bookie, given all its passes, and looks up receipts in its trail.
    ///
    /// Returns the store and the sum of the counts of the passes, which is the number of adds in
    /// the trail. Does not allocate.
    ///
    /// # Errors
    ///
    /// In this order; the bookie and the passes are returned unchanged:
    ///
    /// - `PassesOut`: N passes were created and not handed in.
    /// - for the first receipt, in the order of the list, whose mark is not in the trail: `Missing`
    ///   if the trail ends before its number, `Differs` if the trail has another mark there.
    pub fn finish(
        self,
        passes: Vec<Pass<L>>,
        receipts: &[Receipt],
    ) -> Result<Finished<D>, FinishRefused<L, D>>
        ensures sum { IfOk result (λ f. f.adds ≡ sum_by (λ p. p.adds) passes.items) }
        ensures count { IfOk result (λ f. f.adds ≡ add_count f.store.ledgers.trail) }
        ensures stand { IfOk result (λ f. AllStand f.store.ledgers.trail receipts.now) }
        ensures passes { IfErr result (λ refused. refused.passes ≡ passes) }
    {
        let alloc = self.alloc;
        let guarded = self.guarded.into_inner();
        match guarded.refusal(passes.len(), receipts) {
            None => Ok(guarded.close(passes)),
            Some(fault) => Err(FinishRefused {
                fault,
                bookie: Bookie {
                    guarded: Mutex::new(guarded),
                    alloc,
                },
                passes,
            }),
        }
    }
}
