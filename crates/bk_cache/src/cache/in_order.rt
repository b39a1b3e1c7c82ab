//! The keys of a write cache in order: the least and the greatest entry of a ledger, the next ledger.

ghost use Rattle.std.specs.Prelude.{◌<◌, ◌≤◌, ◌^◌, ℕ, IsSome, IfSome};
ghost use Rattle.std.specs.Option.{IsSomeAnd};
ghost use Rattle.std.specs.FinMap as map;
ghost use Rattle.bk_record.specs.Key.{EntryKey};

use super::Cache;
use bk_record::{Key, LAST_ID};

impl Cache {
    /// Returns the least entry id of a ledger from this one on.
    pub(crate) fn next_entry(&self, ledger: u64, from: u64) -> Option<u64>
        ensures held { IfSome result (λ next. (from ≤ next) × IsSome (map.get self.now (record { ledger = ledger; entry = next }))) }
        ensures least { (entry : ℕ) → from ≤ entry → IsSome (map.get self.now (record { ledger = ledger; entry = entry })) → IsSomeAnd result (λ next. next ≤ entry) }
        ensures bound { IfSome result (λ next. next < 2 ^ 63) }
    {
        let rows = &self.rows;
        let first = Key::new(ledger, from)?;
        match rows.first_from(&first) {
            Some((key, _)) if key.ledger() == ledger => Some(key.entry()),
            _ => None,
        }
    }

    /// Returns the greatest entry id of a ledger.
    pub(crate) fn last_entry(&self, ledger: u64) -> Option<u64>
        ensures held { IfSome result (λ last. IsSome (map.get self.now (record { ledger = ledger; entry = last }))) }
        ensures greatest { (entry : ℕ) → IsSome (map.get self.now (record { ledger = ledger; entry = entry })) → IsSomeAnd result (λ last. entry ≤ last) }
    {
        let rows = &self.rows;
        if ledger > LAST_ID {
            return None;
        }
        let key = rows.last_of(ledger)?;
        Some(key.entry())
    }

    /// Returns the least ledger, from this one on, that has an entry.
    pub(crate) fn next_ledger(&self, from: u64) -> Option<u64>
        ensures held { IfSome result (λ next. (from ≤ next) × ((entry : ℕ) × IsSome (map.get self.now (record { ledger = next; entry = entry })))) }
        ensures least { (key : EntryKey) → from ≤ key.ledger → IsSome (map.get self.now key) → IsSomeAnd result (λ next. next ≤ key.ledger) }
        ensures bound { IfSome result (λ next. next < 2 ^ 63) }
    {
        let rows = &self.rows;
        let first = Key::new(from, 0)?;
        match rows.first_from(&first) {
            Some((key, _)) => Some(key.ledger()),
            None => None,
        }
    }
}
