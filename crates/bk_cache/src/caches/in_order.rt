//! The keys of both write caches in order.

ghost use Rattle.std.specs.Prelude.{◌≡◌, ◌⊎◌, ◌<◌, ◌≤◌, ◌^◌, ℕ, Some, IsSome, IfSome};
ghost use Rattle.std.specs.Option.{IsSomeAnd};
ghost use Rattle.bk_record.specs.Key.{EntryKey};
ghost use Rattle.bk_cache.specs.Caches.{write_cached_payload};
ghost use Rattle.bk_cache.specs.Invariant.{IsSound};

use super::Caches;

impl Caches {
    /// Returns the least entry id of a ledger, from this one on, that a write cache has.
    pub fn next_entry(&self, ledger: u64, from: u64) -> Option<u64>
        ensures held { IfSome result (λ next. (from ≤ next) × IsSome (write_cached_payload self.now (record { ledger = ledger; entry = next }))) }
        ensures least { (entry : ℕ) → from ≤ entry → IsSome (write_cached_payload self.now (record { ledger = ledger; entry = entry })) → IsSomeAnd result (λ next. next ≤ entry) }
        ensures bound { IfSome result (λ next. next < 2 ^ 63) }
        ensures sound { IsSound self.now }
    {
        let active = self.active.next_entry(ledger, from);
        match &self.flush {
            Some(flush) => least(active, flush.next_entry(ledger, from)),
            None => active,
        }
    }

    /// Returns the greatest entry id of a ledger that a write cache has.
    pub fn last_entry(&self, ledger: u64) -> Option<u64>
        ensures held { IfSome result (λ last. IsSome (write_cached_payload self.now (record { ledger = ledger; entry = last }))) }
        ensures greatest { (entry : ℕ) → IsSome (write_cached_payload self.now (record { ledger = ledger; entry = entry })) → IsSomeAnd result (λ last. entry ≤ last) }
        ensures sound { IsSound self.now }
    {
        let active = self.active.last_entry(ledger);
        match &self.flush {
            Some(flush) => active.max(flush.last_entry(ledger)),
            None => active,
        }
    }

    /// Returns the least ledger, from this one on, that has an entry in a write cache.
    pub fn next_ledger(&self, from: u64) -> Option<u64>
        ensures held { IfSome result (λ next. (from ≤ next) × ((entry : ℕ) × IsSome (write_cached_payload self.now (record { ledger = next; entry = entry })))) }
        ensures least { (key : EntryKey) → from ≤ key.ledger → IsSome (write_cached_payload self.now key) → IsSomeAnd result (λ next. next ≤ key.ledger) }
        ensures bound { IfSome result (λ next. next < 2 ^ 63) }
        ensures sound { IsSound self.now }
    {
        let active = self.active.next_ledger(from);
        match &self.flush {
            Some(flush) => least(active, flush.next_ledger(from)),
            None => active,
        }
    }
}

// The smaller of two numbers, either of which may be missing.
fn least(a: Option<u64>, b: Option<u64>) -> Option<u64>
    ensures either { IfSome result (λ n. (a ≡ Some n) ⊎ (b ≡ Some n)) }
    ensures first { IfSome a (λ n. IsSomeAnd result (λ m. m ≤ n)) }
    ensures second { IfSome b (λ n. IsSomeAnd result (λ m. m ≤ n)) }
{
    match (a, b) {
        (Some(a), Some(b)) => Some(a.min(b)),
        (a, None) => a,
        (None, b) => b,
    }
}
