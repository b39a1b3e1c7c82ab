//! The keys in order: the least and the greatest entry of a ledger, the next ledger.

ghost use Rattle.std.specs.Prelude.{◌<◌, ◌≤◌, ◌^◌, ℕ, IsSome, IfSome, IsSomeAnd};
ghost use Rattle.std.specs.FinMap as map;
ghost use Rattle.bk_record.specs.Key.{EntryKey};

use super::Index;

impl Index {
    /// Returns the least entry id of a ledger from this one on. Any number can be given as ledger.
    pub fn next_entry(&self, ledger: u64, from: u64) -> Option<u64>
        ensures held { IfSome result (λ next. (from ≤ next) × IsSome (map.get self.now (record { ledger = ledger; entry = next }))) }
        ensures least { (entry : ℕ) → from ≤ entry → IsSome (map.get self.now (record { ledger = ledger; entry = entry })) → IsSomeAnd result (λ next. next ≤ entry) }
        ensures bound { IfSome result (λ next. next < 2 ^ 63) }
    {
        let key = self.pages.first_from(ledger, from)?;
        if key.ledger() == ledger {
            Some(key.entry())
        } else {
            None
        }
    }

    /// Returns the greatest entry id of a ledger. Any number can be given as ledger.
    pub fn last_entry(&self, ledger: u64) -> Option<u64>
        ensures held { IfSome result (λ last. IsSome (map.get self.now (record { ledger = ledger; entry = last }))) }
        ensures greatest { (entry : ℕ) → IsSome (map.get self.now (record { ledger = ledger; entry = entry })) → IsSomeAnd result (λ last. entry ≤ last) }
    {
        let key = self.pages.last_upto(ledger)?;
        if key.ledger() == ledger {
            Some(key.entry())
        } else {
            None
        }
    }

    /// Returns the least ledger, from this one on, that has a key.
    pub fn next_ledger(&self, from: u64) -> Option<u64>
        ensures held { IfSome result (λ next. (from ≤ next) × ((entry : ℕ) × IsSome (map.get self.now (record { ledger = next; entry = entry })))) }
        ensures least { (key : EntryKey) → from ≤ key.ledger → IsSome (map.get self.now key) → IsSomeAnd result (λ next. next ≤ key.ledger) }
        ensures bound { IfSome result (λ next. next < 2 ^ 63) }
    {
        let key = self.pages.first_from(from, 0)?;
        Some(key.ledger())
    }
}
