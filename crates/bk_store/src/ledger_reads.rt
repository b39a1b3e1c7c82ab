//! Reads by ledger: the entries of a live ledger, and the live ledgers that have one, in order. Each
//! step is a search in the caches and one in the index; no other ledger is walked over.

ghost use Rattle.std.specs.Prelude.{◌≡◌, ◌⊎◌, ◌<◌, ◌≤◌, ◌^◌, ◌↔◌, Some, IsSomeAnd, IsTrue, IfOk, IfSome};
ghost use Rattle.bk_store.specs.LedgerReads.{HoldsEntry, HoldsLedger, HasLiveEntry, HasLiveLedger, IsGreatest, IsLeastFrom, IsPage};
ghost use Rattle.bk_store.specs.Transitions.{is_fenced};

use crate::Store;
use crate::fields::Fields;
use bk_disk::LogDisk;
use bk_record::Key;
use std::alloc::AllocError;

impl<D: LogDisk> Fields<D> {
    /// Returns whether the ledger of a key is live and a write cache or the index has the key.
    pub fn holds(&self, key: &Key) -> bool
        ensures { IsTrue result ↔ HasLiveEntry self.now.state key.now.ledger key.now.entry }
    {
        if self.ledgers.is_dead(key.ledger()) {
            return false;
        }
        self.caches.holds(key) || self.index.get(key).is_some()
    }

    /// Returns the greatest entry id of a live ledger.
    pub fn last_entry(&self, ledger: u64) -> Option<u64>
        ensures { IsGreatest (HasLiveEntry self.now.state ledger) result }
    {
        if self.ledgers.is_dead(ledger) {
            return None;
        }
        let cached = self.caches.last_entry(ledger);
        cached.max(self.index.last_entry(ledger))
    }

    // The least entry id of a ledger, from this one on, that a write cache or the index has.
    fn next_entry(&self, ledger: u64, from: u64) -> Option<u64>
        ensures least { IsLeastFrom (HoldsEntry self.now.state ledger) from result }
        ensures bound { IfSome result (λ next. next < 2 ^ 63) }
    {
        let cached = self.caches.next_entry(ledger, from);
        least(cached, self.index.next_entry(ledger, from))
    }

    // The least ledger, from this one on, of which a write cache or the index has an entry.
    fn next_ledger(&self, from: u64) -> Option<u64>
        ensures least { IsLeastFrom (HoldsLedger self.now.state) from result }
        ensures bound { IfSome result (λ next. next < 2 ^ 63) }
    {
        let cached = self.caches.next_ledger(from);
        least(cached, self.index.next_ledger(from))
    }

    // The least live ledger, from this one on, that has an entry.
    fn next_live_ledger(&self, from: u64) -> Option<u64>
        ensures least { IsLeastFrom (HasLiveLedger self.now.state) from result }
        ensures bound { IfSome result (λ next. next < 2 ^ 63) }
    {
        let mut at = from;
        while let Some(ledger) = self.next_ledger(at) {
            if !self.ledgers.is_dead(ledger) {
                return Some(ledger);
            }
            at = ledger + 1;
        }
        None
    }

    /// Returns a page of the entry ids of a live ledger.
    pub fn entries(&self, ledger: u64, from: u64, most: usize) -> Result<Vec<u64>, AllocError>
        ensures { IfOk result (λ page. IsPage (HasLiveEntry self.now.state ledger) from most page.items) }
    {
        let mut page = Vec::new(self.alloc);
        if self.ledgers.is_dead(ledger) {
            return Ok(page);
        }
        let mut at = from;
        for _ in 0..most {
            let Some(entry) = self.next_entry(ledger, at) else {
                return Ok(page);
            };
            page.push(entry)?;
            at = entry + 1;
        }
        Ok(page)
    }

    /// Returns a page of the live ledgers that have an entry.
    pub fn live_ledgers(&self, from: u64, most: usize) -> Result<Vec<u64>, AllocError>
        ensures { IfOk result (λ page. IsPage (HasLiveLedger self.now.state) from most page.items) }
    {
        let mut page = Vec::new(self.alloc);
        let mut at = from;
        for _ in 0..most {
            let Some(ledger) = self.next_live_ledger(at) else {
                return Ok(page);
            };
            page.push(ledger)?;
            at = ledger + 1;
        }
        Ok(page)
    }
}

// The smaller of two numbers, either of which may be missing.
fn least(a: Option<u64>, b: Option<u64>) -> Option<u64>
    ensures either { IfSome result (λ n. (a ≡ Some n) ⊎ (b ≡ Some n)) }
    ensures first { IfSome a (λ n. IsSomeAnd result (λ m. m ≤ n)) }
    ensures second { IfSome b (λ n. IsSomeAnd result (λ m. m ≤ n)) }
{
    match (a, b) {
        (Some(a), Some(b)) => Some(a.min(b)),
        (a, None) => a,
        (None, b) => b,
    }
}

impl<D: LogDisk> Store<D> {
    /// Returns whether the store has an entry of this key; `false` if its ledger is deleted.
    pub fn holds(&self, key: &Key) -> bool
        ensures { IsTrue result ↔ HasLiveEntry self.now key.now.ledger key.now.entry }
    {
        self.fields.holds(key)
    }

    /// Returns whether a ledger is fenced.
    pub fn is_fenced(&self, ledger: u64) -> bool
        ensures { result ≡ is_fenced self.now ledger }
    {
        self.fields.ledgers.is_fenced(ledger)
    }

    /// Returns the greatest entry id that the store has of a ledger, and `None` if it has none or
    /// the ledger is deleted.
    ///
    /// Searches the write caches and the index together, and visits no other entry.
    pub fn last_entry(&self, ledger: u64) -> Option<u64>
        ensures { IsGreatest (HasLiveEntry self.now ledger) result }
    {
        self.fields.last_entry(ledger)
    }

    /// Returns the ids of the entries that the store has of a ledger, from id `from` on, at most
    /// `most`.
    ///
    /// The ids rise, each once. A page with fewer than `most` is the last one; the next page
    /// begins after the last id of this one. A deleted ledger has no entry.
    ///
    /// # Errors
    ///
    /// - `AllocError` if an allocation fails.
    pub fn entries(&self, ledger: u64, from: u64, most: usize) -> Result<Vec<u64>, AllocError>
        ensures { IfOk result (λ page. IsPage (HasLiveEntry self.now ledger) from most page.items) }
    {
        self.fields.entries(ledger, from, most)
    }

    /// Returns the ledgers that are not deleted and have an entry, from ledger `from` on, at most
    /// `most`.
    ///
    /// The ids rise, each once. A page with fewer than `most` is the last one; the next page
    /// begins after the last id of this one. A ledger costs one search, whatever its entries.
    ///
    /// # Errors
    ///
    /// - `AllocError` if an allocation fails.
    pub fn ledgers(&self, from: u64, most: usize) -> Result<Vec<u64>, AllocError>
        ensures { IfOk result (λ page. IsPage (HasLiveLedger self.now) from most page.items) }
    {
        self.fields.live_ledgers(from, most)
    }
}
