//! A set of ledgers, used for the deleted and for the fenced ones.

ghost use Rattle.std.specs.Prelude.{◌≡◌, ◌<◌, ◌^◌, OnOk, OnErr, IfOk, nat_lt};
ghost use Rattle.std.specs.List.{filter};
ghost use Rattle.std.specs.FinSet as set;

use bk_record::LAST_ID;
use std::alloc::{AllocError, Global};
use std::collections::BTreeSet;
use std::marker::Model;

/// A set of ledgers.
#[derive(Drop)]
pub(crate) struct LedgerSet {
    ledgers: BTreeSet<u64>,
}

impl Model for LedgerSet {
    ghost use Rattle.std.specs.Coded.{coded_ℕ};
    ghost use Rattle.std.specs.FinSet as set;
    ghost use Rattle.bk_record.specs.Scan.{Ledgers};

    ghost Value = { Ledgers };

    ghost coded = { set.code coded_ℕ };

    ghost view = { λ s. set.from_list s.ledgers.keys };
}

impl LedgerSet {
    ghost use Rattle.bk_store.specs.Transitions.{valid_ledgers};

    /// Returns the empty set.
    pub fn new(alloc: Global) -> LedgerSet
        ensures { result ≡ set.empty }
    {
        LedgerSet {
            ledgers: BTreeSet::new(alloc),
        }
    }

    /// Returns the ledgers of a list. Ignores duplicates and values above the greatest id. Fails
    /// only if out of memory.
    pub fn of(alloc: Global, listed: &[u64]) -> Result<LedgerSet, AllocError>
        ensures { IfOk result (λ ledgers. ledgers ≡ valid_ledgers listed.now) }
    {
        let mut ledgers = BTreeSet::new(alloc);
        for ledger in listed {
            if *ledger <= LAST_ID {
                ledgers.insert(*ledger)?;
            }
        }
        Ok(LedgerSet { ledgers })
    }

    /// Returns whether the set has the ledger.
    pub fn contains(&self, ledger: u64) -> bool
        ensures { result ≡ set.contains self.now ledger }
    {
        self.ledgers.contains(&ledger)
    }

    /// Adds a ledger. Fails only if out of memory, which leaves the set unchanged.
    pub fn insert(&mut self, ledger: u64) -> Result<(), AllocError>
        ensures ok { OnOk result (self.new ≡ set.insert self.old ledger) }
        ensures err { OnErr result (self.new ≡ self.old) }
    {
        self.ledgers.insert(ledger)?;
        Ok(())
    }

    /// Removes a ledger. Does not allocate.
    pub fn remove(&mut self, ledger: u64)
        ensures { self.new ≡ set.remove self.old ledger }
    {
        self.ledgers.remove(&ledger);
    }
}
