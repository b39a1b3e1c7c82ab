//! The tally of the logs read so far: the index and the accounts.

ghost use Rattle.std.specs.Prelude.{◌≡◌, ◌+◌, ◌<◌, ◌≤◌, ◌^◌, IfSome, IfOk, OnOk, IsOkUnless};
ghost use Rattle.std.specs.FinMap as map;
ghost use Rattle.bk_accounts.specs.Book.{HasAccount, total_in};
ghost use Rattle.bk_log.specs.FoundRuns.{bytes_of_run, founds_of};
ghost use Rattle.bk_store.specs.Found.{with_entries, with_entry, with_names, named_by, AreUnnamed};

use crate::OpenFault;
use crate::indexing::{fill_found, index_run};
use crate::ledger_set::LedgerSet;
use bk_accounts::Accounts;
use bk_index::{Index, IndexBuilder};
use bk_log::{Found, FoundRun};
use std::alloc::{AllocError, Global};

/// The index of the entries of live ledgers, the accounts of all entries, and the deleted ledgers.
#[derive(Drop)]
pub(super) struct Tally {
    pub index: IndexBuilder,
    pub accounts: Accounts,
    pub dead: LedgerSet,
}

impl Tally {
    /// Returns the tally of no logs.
    pub fn new(alloc: Global, dead: LedgerSet) -> Tally
        ensures { result ≡ record { index = map.empty; accounts = map.empty; dead = dead } }
    {
        Tally {
            index: IndexBuilder::new(alloc),
            accounts: Accounts::new(alloc),
            dead,
        }
    }

    /// Tallies the next entry of a log: counts its record and, if its ledger is live, points its
    /// key to it. Fails only with `Memory`.
    pub fn add(&mut self, log: u32, found: &Found) -> Result<(), OpenFault>
        requires id { log < 2 ^ 31 }
        requires begins { 1028 ≤ found.now.at }
        requires within { found.now.at < 2 ^ 32 }
        requires open { HasAccount self.old.accounts log }
        requires fits { IfSome (total_in self.old.accounts log) (λ total. total + found.now.size < 2 ^ 32) }
        ensures ok { OnOk result (self.new ≡ with_entry log self.old found.now) }
        ensures only { IsOkUnless result OpenFault.Memory }
    {
        if !fill_found(&mut self.index, &self.dead, log, found)? {
            self.accounts.count_dead(log, found.size);
            return Ok(());
        }
        let ledger = found.key.ledger();
        if self.accounts.ready(log, ledger).is_err() {
            return Err(OpenFault::Memory);
        }
        self.accounts.count(log, ledger, found.size);
        Ok(())
    }

    /// Tallies the next entries of a log, a run: counts their records and, if their ledger is live,
    /// points their keys to them. Fails only with `Memory`.
    pub fn add_run(&mut self, log: u32, run: &FoundRun) -> Result<(), OpenFault>
        requires id { log < 2 ^ 31 }
        requires some { 0 < run.now.count }
        requires ids { run.now.first.key.entry + run.now.count ≤ 2 ^ 63 }
        requires begins { 1028 ≤ run.now.first.at }
        requires within { run.now.first.at + bytes_of_run run.now < 2 ^ 32 + run.now.first.size }
        requires short { bytes_of_run run.now < 2 ^ 32 }
        requires open { HasAccount self.old.accounts log }
        requires fits { IfSome (total_in self.old.accounts log) (λ total. total + bytes_of_run run.now < 2 ^ 32) }
        ensures ok { OnOk result (self.new ≡ with_entries log self.old (founds_of run.now)) }
        ensures only { IsOkUnless result OpenFault.Memory }
    {
        let ledger = run.first.key.ledger();
        let bytes = run.count * run.first.size;
        if self.dead.contains(ledger) {
            self.accounts.count_dead(log, bytes);
            return Ok(());
        }
        index_run(&mut self.index, log, run)?;
        if self.accounts.ready(log, ledger).is_err() {
            return Err(OpenFault::Memory);
        }
        self.accounts.count(log, ledger, bytes);
        Ok(())
    }

    /// Counts each entry of the index in the account of its log. Returns the index, the accounts
    /// and the deleted ledgers. Fails if memory is refused.
    pub fn name_all(self) -> Result<(Index, Accounts, LedgerSet), AllocError>
        requires { AreUnnamed self.accounts }
        ensures { IfOk result (λ parts. record { index = parts.0; accounts = parts.1; dead = parts.2 } ≡ with_names self) }
    {
        let Tally {
            index: builder,
            mut accounts,
            dead,
        } = self;
        let index = builder.finish()?;
        name_each(&index, &mut accounts);
        Ok((index, accounts, dead))
    }
}

/// Counts each entry of an index in the account of its log. Does not allocate.
pub(crate) fn name_each(index: &Index, accounts: &mut Accounts)
    requires { AreUnnamed accounts.old }
    ensures { accounts.new ≡ named_by (map.entries index.now) accounts.old }
{
    let _keys = index.len();
    let mut walk = index.walk();
    while let Some((log, count)) = walk.pass_log() {
        accounts.name_many(log, count);
    }
}
