//! The account of one open log. The remaining bytes are a running number, always the sum of the
//! ledgers' parts.
//!
//! The bytes counted last for one ledger are separate from its part, so that the next record of the
//! same ledger needs no look-up.
ghost use Rattle.std.specs.Prelude.{◌≡◌, ℕ, ◌+◌, ◌^◌, ◌<◌, true, false, IsTrue, IfSome, IfNone, OnOk, OnErr};
ghost use Rattle.std.specs.FinMap as finmap;
ghost use Rattle.bk_accounts.specs.Parts.{HasPart, with_last};

use std::alloc::{AllocError, Global};
use std::collections::BTreeMap;
use std::marker::Model;

#[derive(Debug, Drop)]
pub(crate) struct LogAccount {
    total: u32,
    remaining: u32,
    named: u64,
    // The ledger counted last, and its bytes that are not yet in its part.
    last: Option<(u64, u32)>,
    parts: BTreeMap<u64, u32>,
}

impl Model for LogAccount {
    ghost use Rattle.std.specs.FinMap as finmap;
    ghost use Rattle.bk_accounts.specs.Account.{Account, account_code};
    ghost use Rattle.bk_accounts.specs.Parts.{AreKept, with_last};

    ghost Value = { Account };

    ghost coded = { account_code };

    ghost view = { λ a. record { total = a.total; named = a.named; live = with_last (finmap.from_entries a.parts.entries) a.last } };

    ghost invariant = { λ a. AreKept a.total a.remaining (finmap.from_entries a.parts.entries) a.last };
}

impl LogAccount {
    ghost use Rattle.bk_accounts.specs.Account.{fresh, has_room, remaining_size, with_room, with_size, with_dead_size, with_name, with_names, without_name, without_size};

    /// Returns an empty account. Does not allocate.
    pub(crate) fn new(alloc: Global) -> LogAccount
        ensures { result ≡ fresh }
    {
        LogAccount {
            total: 0,
            remaining: 0,
            named: 0,
            last: None,
            parts: BTreeMap::new(alloc),
        }
    }

    /// Returns the bytes counted.
    pub(crate) fn total(&self) -> u32
        ensures { result ≡ self.now.total }
    {
        self.total
    }

    /// Returns the bytes of ledgers that were not forgotten later.
    pub(crate) fn remaining(&self) -> u32
        ensures { result ≡ remaining_size self.now }
    {
        self.remaining
    }

    /// Returns the number of index entries that point into the log.
    pub(crate) fn named(&self) -> u64
        ensures { result ≡ self.now.named }
    {
        self.named
    }

    /// Returns whether there is room for a ledger's sum.
    pub(crate) fn has_room(&self, ledger: u64) -> bool
        ensures { result ≡ has_room self.now ledger }
    {
        match self.last {
            Some((held, _)) if held == ledger => true,
            _ => self.parts.contains_key(&ledger),
        }
    }

    /// Makes room for the sum of a ledger that has none. If an allocation fails, the account is
    /// unchanged.
    pub(crate) fn add_room(&mut self, ledger: u64) -> Result<(), AllocError>
        requires { has_room self.old ledger ≡ false }
        ensures ok { OnOk result (self.new ≡ with_room ledger self.old) }
        ensures err { OnErr result (self.new ≡ self.old) }
    {
        put_back(&mut self.parts, self.last);
        self.last = None;
        self.parts.insert(ledger, 0)?;
        Ok(())
    }

    /// Counts bytes of a ledger that has room.
    pub(crate) fn count(&mut self, ledger: u64, size: u32)
        requires ready { IsTrue (has_room self.old ledger) }
        requires fits { self.old.total + size < 2 ^ 32 }
        ensures { self.new ≡ with_size ledger size self.old }
    {
        match self.last {
            Some((held, more)) if held == ledger => self.last = Some((ledger, more + size)),
            last => {
                put_back(&mut self.parts, last);
                self.last = Some((ledger, size));
            }
        }
        self.total += size;
        self.remaining += size;
    }

    /// Counts bytes of a deleted ledger: in the total only.
    pub(crate) fn count_dead(&mut self, size: u32)
        requires { self.old.total + size < 2 ^ 32 }
        ensures { self.new ≡ with_dead_size size self.old }
    {
        self.total += size;
    }

    /// Counts one more index entry.
    pub(crate) fn name(&mut self)
        requires { self.old.named + 1 < 2 ^ 64 }
        ensures { self.new ≡ with_name self.old }
    {
        self.named += 1;
    }

    /// Counts `count` more index entries.
    pub(crate) fn name_many(&mut self, count: u64)
        requires { self.old.named + count < 2 ^ 64 }
        ensures { self.new ≡ with_names count self.old }
    {
        self.named += count;
    }

    /// Counts one index entry fewer.
    pub(crate) fn unname(&mut self)
        requires { 0 < self.old.named }
        ensures { self.new ≡ without_name self.old }
    {
        self.named -= 1;
    }

    /// Removes a ledger and its room; the total is unchanged.
    pub(crate) fn forget(&mut self, ledger: u64)
        ensures { self.new ≡ without_size ledger self.old }
    {
        put_back(&mut self.parts, self.last);
        self.last = None;
        if let Some(part) = self.parts.remove(&ledger) {
            self.remaining -= part;
        }
    }

    /// Removes one of the ledgers that have room, as `forget` does, and returns it.
    pub(crate) fn pop(&mut self) -> Option<u64>
        ensures some { IfSome result (λ ledger. (has_room self.old ledger ≡ true) × (self.new ≡ without_size ledger self.old)) }
        ensures none { IfNone result ((ledger : ℕ) → has_room self.old ledger ≡ false) }
    {
        put_back(&mut self.parts, self.last);
        self.last = None;
        let (ledger, part) = self.parts.pop_first()?;
        self.remaining -= part;
        Some(ledger)
    }
}

/// Adds the bytes counted last to their ledger's part.
fn put_back(parts: &mut BTreeMap<u64, u32>, last: Option<(u64, u32)>)
    requires { IfSome last (HasPart (finmap.from_entries parts.old.entries)) }
    ensures { finmap.from_entries parts.new.entries ≡ with_last (finmap.from_entries parts.old.entries) last }
{
    if let Some((ledger, more)) = last {
        let part = parts.get_mut(&ledger).unwrap();
        *part += more;
    }
}
