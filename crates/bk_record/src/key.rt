//! The key of an entry: its ledger id and its entry id.

ghost use Rattle.std.specs.Prelude.{◌≡◌, ◌<◌, ◌^◌};
ghost use Rattle.std.proofs.Common.{rules};
ghost use Rattle.std.specs.Cmp.{partial_order_from_own_ties};
ghost use Rattle.std.specs.Cmp.Rules.{comparing};
ghost use Rattle.std.specs.Ordering.{as_partial_cmp};
ghost use Rattle.bk_record.specs.Key.{key_cmp};

use std::cmp::Ordering;
use std::marker::Model;

/// Ledger id and entry id of an entry, each from 0 to 2^63 - 1. Keys are ordered by ledger, then
/// entry (project rule).
#[derive(Clone, Copy, Debug, PartialEq, Eq)]
pub struct Key {
    ledger: u64,
    entry: u64,
}

impl Model for Key {
    ghost use Rattle.std.specs.Prelude.{◌<◌, ◌^◌};
    ghost use Rattle.bk_record.specs.Key.{EntryKey};

    ghost Value = { EntryKey };

    ghost view = { λ key. record { ledger = key.ledger; entry = key.entry } };

    ghost invariant = { λ key. (key.ledger < 2 ^ 63) × (key.entry < 2 ^ 63) };

    ghost inverse = { λ value. record { ledger = value.ledger; entry = value.entry } };
}

impl Key {
    ghost use Rattle.std.specs.Option.{SomeIff};

    /// Returns the key of these ids, or `None` if one of them exceeds 2^63 - 1 (project rule).
    pub fn new(ledger: u64, entry: u64) -> Option<Key>
        ensures { SomeIff result ((ledger < 2 ^ 63) × (entry < 2 ^ 63)) (record { ledger = ledger; entry = entry }) }
    {
        if ledger >> 63 == 0 && entry >> 63 == 0 {
            Some(Key { ledger, entry })
        } else {
            None
        }
    }

    /// Returns the ledger id.
    pub fn ledger(&self) -> u64
        ensures value { result ≡ self.now.ledger }
        ensures bound { result < 2 ^ 63 }
    {
        self.ledger
    }

    /// Returns the entry id.
    pub fn entry(&self) -> u64
        ensures value { result ≡ self.now.entry }
        ensures bound { result < 2 ^ 63 }
    {
        self.entry
    }
}

impl Ord for Key {
    ghost cmp = { key_cmp };

    ghost total = { Prim.search (comparing, rules) };

    ghost matches_partial_cmp = { Prim.search (comparing, rules) };

    ghost matches_eq = { Prim.search (comparing, rules) };

    fn cmp(&self, other: &Key) -> Ordering {
        match self.ledger.cmp(&other.ledger) {
            Ordering::Equal => self.entry.cmp(&other.entry),
            unequal => unequal,
        }
    }
}

impl PartialOrd for Key {
    ghost partial_cmp = { as_partial_cmp key_cmp };

    ghost laws = { partial_order_from_own_ties (Prim.search (comparing, rules)) (Prim.search (comparing, rules)) };

    fn partial_cmp(&self, other: &Key) -> Option<Ordering> {
        Some(self.cmp(other))
    }
}
