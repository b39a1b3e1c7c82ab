//! Reads by ledger, each as one critical section on the shared state.

ghost use Rattle.std.specs.Prelude.{◌≡◌, ◌↔◌, IsTrue, IfOk};
ghost use Rattle.bk_store.specs.LedgerReads.{HasLiveEntry, HasLiveLedger, IsGreatest, IsPage};
ghost use Rattle.bk_store.specs.Transitions.{is_fenced};
ghost use Rattle.bk_bookie.specs.LedgerReads.{IsPageFrom, ReadTransition};
ghost use Rattle.bk_bookie.specs.Passes.{SeenIsMonotone};

use crate::CallFault;
use crate::bookie::Bookie;
use crate::calls::told;
use crate::guarded::Guarded;
use crate::hold::hold;
use crate::pass::{AddLedger, Pass};
use bk_disk::LogDisk;
use bk_record::Key;
use std::alloc::AllocError;
use std::convert::Infallible;
use std::sync::Wait;

impl<L: AddLedger, D: LogDisk> Bookie<L, D> {
    /// Returns whether the store has an entry of this key, as `Store::holds` does.
    ///
    /// # Errors
    ///
    /// - `Backwards`: the trail is shorter than the pass has observed.
    pub fn holds(
        &self,
        rt: &impl Wait,
        pass: &mut Pass<L>,
        key: &Key,
    ) -> Result<bool, CallFault<Infallible>>
        ensures seen { SeenIsMonotone pass.old result pass.new }
        ensures count { pass.new.adds ≡ pass.old.adds }
    {
        hold(rt, &self.guarded).holds(pass, key)
    }

    /// Returns whether a ledger is fenced, as `Store::is_fenced` does.
    ///
    /// # Errors
    ///
    /// - `Backwards`: the trail is shorter than the pass has observed.
    pub fn is_fenced(
        &self,
        rt: &impl Wait,
        pass: &mut Pass<L>,
        ledger: u64,
    ) -> Result<bool, CallFault<Infallible>>
        ensures seen { SeenIsMonotone pass.old result pass.new }
        ensures count { pass.new.adds ≡ pass.old.adds }
    {
        hold(rt, &self.guarded).is_fenced(pass, ledger)
    }

    /// Returns the greatest entry id of a ledger, as `Store::last_entry` does; `None` if it has no
    /// entry or is deleted.
    ///
    /// # Errors
    ///
    /// - `Backwards`: the trail is shorter than the pass has observed.
    pub fn last_entry(
        &self,
        rt: &impl Wait,
        pass: &mut Pass<L>,
        ledger: u64,
    ) -> Result<Option<u64>, CallFault<Infallible>>
        ensures seen { SeenIsMonotone pass.old result pass.new }
        ensures count { pass.new.adds ≡ pass.old.adds }
    {
        hold(rt, &self.guarded).last_entry(pass, ledger)
    }

    /// Returns the entry ids of a ledger from id `from` on, at most `most`, as `Store::entries` does.
    ///
    /// The ids rise, each once. A page with fewer than `most` is the last one. Between two pages other
    /// callers may add and delete.
    ///
    /// # Errors
    ///
    /// - `Backwards`: the trail is shorter than the pass has observed.
    /// - `Of`: out of memory.
    pub fn entries(
        &self,
        rt: &impl Wait,
        pass: &mut Pass<L>,
        ledger: u64,
        from: u64,
        most: usize,
    ) -> Result<Vec<u64>, CallFault<AllocError>>
        ensures seen { SeenIsMonotone pass.old result pass.new }
        ensures count { pass.new.adds ≡ pass.old.adds }
        ensures page { IfOk result (λ page. IsPageFrom from most page.items) }
    {
        hold(rt, &self.guarded).entries(pass, ledger, from, most)
    }

    /// Returns the ledgers that have an entry, from ledger `from` on, at most `most`, as
    /// `Store::ledgers` does.
    ///
    /// The ids rise, each once. A page with fewer than `most` is the last one.
    ///
    /// # Errors
    ///
    /// - `Backwards`: the trail is shorter than the pass has observed.
    /// - `Of`: out of memory.
    pub fn ledgers(
        &self,
        rt: &impl Wait,
        pass: &mut Pass<L>,
        from: u64,
        most: usize,
    ) -> Result<Vec<u64>, CallFault<AllocError>>
        ensures seen { SeenIsMonotone pass.old result pass.new }
        ensures count { pass.new.adds ≡ pass.old.adds }
        ensures page { IfOk result (λ page. IsPageFrom from most page.items) }
    {
        hold(rt, &self.guarded).ledgers(pass, from, most)
    }
}

impl<L: AddLedger, D: LogDisk> Guarded<L, D> {
    /// Returns whether the store has an entry, for a pass.
    fn holds(&self, pass: &mut Pass<L>, key: &Key) -> Result<bool, CallFault<Infallible>>
        ensures transition { ReadTransition (λ s is. IsTrue is ↔ HasLiveEntry s key.now.ledger key.now.entry) self.now.store pass.old result pass.new }
        ensures count { pass.new.adds ≡ pass.old.adds }
    {
        if let Some(front) = self.behind(pass) {
            return Err(CallFault::Backwards {
                seen: pass.seen,
                front,
            });
        }
        pass.seen = self.store.front();
        Ok(self.store.holds(key))
    }

    /// Returns whether a ledger is fenced, for a pass.
    fn is_fenced(&self, pass: &mut Pass<L>, ledger: u64) -> Result<bool, CallFault<Infallible>>
        ensures transition { ReadTransition (λ s is. is ≡ is_fenced s ledger) self.now.store pass.old result pass.new }
        ensures count { pass.new.adds ≡ pass.old.adds }
    {
        if let Some(front) = self.behind(pass) {
            return Err(CallFault::Backwards {
                seen: pass.seen,
                front,
            });
        }
        pass.seen = self.store.front();
        Ok(self.store.is_fenced(ledger))
    }

    /// Returns the greatest entry id of a ledger, for a pass.
    fn last_entry(
        &self,
        pass: &mut Pass<L>,
        ledger: u64,
    ) -> Result<Option<u64>, CallFault<Infallible>>
        ensures transition { ReadTransition (λ s last. IsGreatest (HasLiveEntry s ledger) last) self.now.store pass.old result pass.new }
        ensures count { pass.new.adds ≡ pass.old.adds }
    {
        if let Some(front) = self.behind(pass) {
            return Err(CallFault::Backwards {
                seen: pass.seen,
                front,
            });
        }
        pass.seen = self.store.front();
        Ok(self.store.last_entry(ledger))
    }

    /// Returns a page of the entry ids of a ledger, for a pass.
    fn entries(
        &self,
        pass: &mut Pass<L>,
        ledger: u64,
        from: u64,
        most: usize,
    ) -> Result<Vec<u64>, CallFault<AllocError>>
        ensures transition { ReadTransition (λ s page. IsPage (HasLiveEntry s ledger) from most page.items) self.now.store pass.old result pass.new }
        ensures page { IfOk result (λ page. IsPageFrom from most page.items) }
        ensures count { pass.new.adds ≡ pass.old.adds }
    {
        if let Some(front) = self.behind(pass) {
            return Err(CallFault::Backwards {
                seen: pass.seen,
                front,
            });
        }
        pass.seen = self.store.front();
        told(self.store.entries(ledger, from, most))
    }

    /// Returns a page of the ledgers that have an entry, for a pass.
    fn ledgers(
        &self,
        pass: &mut Pass<L>,
        from: u64,
        most: usize,
    ) -> Result<Vec<u64>, CallFault<AllocError>>
        ensures transition { ReadTransition (λ s page. IsPage (HasLiveLedger s) from most page.items) self.now.store pass.old result pass.new }
        ensures page { IfOk result (λ page. IsPageFrom from most page.items) }
        ensures count { pass.new.adds ≡ pass.old.adds }
    {
        if let Some(front) = self.behind(pass) {
            return Err(CallFault::Backwards {
                seen: pass.seen,
                front,
            });
        }
        pass.seen = self.store.front();
        told(self.store.ledgers(from, most))
    }
}
