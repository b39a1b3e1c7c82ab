//! Counts of the store, as one critical section on the shared state.

ghost use Rattle.std.specs.Prelude.{◌≡◌, IfOk, IsTrue};
ghost use Rattle.bk_lease.specs.Values.{CountsLeases};
ghost use Rattle.bk_bookie.specs.Counting.{CountsMarks, TellsDurable, stats_of};
ghost use Rattle.bk_bookie.specs.LedgerReads.{ReadTransition};
ghost use Rattle.bk_bookie.specs.Passes.{SeenIsMonotone};

use crate::CallFault;
use crate::bookie::Bookie;
use crate::guarded::Guarded;
use crate::hold::hold;
use crate::pass::{AddLedger, Pass};
use bk_disk::LogDisk;
use bk_store::Stats;
use std::convert::Infallible;
use std::sync::Wait;

impl<L: AddLedger, D: LogDisk> Bookie<L, D> {
    /// Returns the counts of the store, as `Store::stats` does, with the durable front.
    ///
    /// An entry whose receipt has a number below `durable` survives a crash, unless its ledger is
    /// deleted. So a journal need not keep it: this is the checkpoint of a bookie.
    ///
    /// # Errors
    ///
    /// - `Backwards`: the trail is shorter than the pass has observed.
    pub fn stats(&self, rt: &impl Wait, pass: &mut Pass<L>) -> Result<Stats, CallFault<Infallible>>
        ensures seen { SeenIsMonotone pass.old result pass.new }
        ensures count { pass.new.adds ≡ pass.old.adds }
        ensures marks { IfOk result (λ stats. CountsMarks pass.new stats) }
    {
        hold(rt, &self.guarded).stats(pass)
    }

    /// Returns the number of outstanding leases, over all logs, as `Store::count_leases` does.
    ///
    /// No lease is granted during the call, but leases may be given back, without the lock.
    ///
    /// # Errors
    ///
    /// - `Backwards`: the trail is shorter than the pass has observed.
    pub fn count_leases(
        &self,
        rt: &impl Wait,
        pass: &mut Pass<L>,
    ) -> Result<u64, CallFault<Infallible>>
        ensures seen { SeenIsMonotone pass.old result pass.new }
        ensures count { pass.new.adds ≡ pass.old.adds }
    {
        hold(rt, &self.guarded).count_leases(pass)
    }
}

impl<L: AddLedger, D: LogDisk> Guarded<L, D> {
    /// Returns the counts of the store, for a pass.
    fn stats(&self, pass: &mut Pass<L>) -> Result<Stats, CallFault<Infallible>>
        ensures transition { ReadTransition (λ s stats. stats ≡ stats_of s) self.now.store pass.old result pass.new }
        ensures marks { IfOk result (λ stats. CountsMarks pass.new stats) }
        ensures durable { IsTrue L.honest → IfOk result (λ stats. TellsDurable self.now.store stats) }
        ensures count { pass.new.adds ≡ pass.old.adds }
    {
        if let Some(front) = self.behind(pass) {
            return Err(CallFault::Backwards {
                seen: pass.seen,
                front,
            });
        }
        pass.seen = self.store.front();
        // Lemma: the entries below the durable front are durable.
        let _durable = self.store.durable_front();
        Ok(self.store.stats())
    }

    /// Returns the number of outstanding leases, for a pass.
    fn count_leases(&mut self, pass: &mut Pass<L>) -> Result<u64, CallFault<Infallible>>
        ensures transition { ReadTransition (λ s count. CountsLeases s.keeper count) self.old.store pass.old result pass.new }
        ensures unchanged { self.new ≡ self.old }
        ensures count { pass.new.adds ≡ pass.old.adds }
    {
        if let Some(front) = self.behind(pass) {
            return Err(CallFault::Backwards {
                seen: pass.seen,
                front,
            });
        }
        pass.seen = self.store.front();
        Ok(self.store.count_leases())
    }
}
