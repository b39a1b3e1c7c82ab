//! The accounts of all open logs. Each call changes the account of one log; `forget` changes those
//! in which the ledger has room.
ghost use Rattle.std.specs.Prelude.{◌≡◌, ℕ, ◌+◌, ◌^◌, ◌<◌, ◌↔◌, true, false, All, IfSome, IfNone, MatchOption};
ghost use Rattle.std.specs.Prelude.{IsOk, IfOk, IfErr, OnOk, OnErr, IsOkUnless, IsErrOf};
ghost use Rattle.std.specs.FinMap as finmap;
ghost use Rattle.std.specs.BTreeSet.{contains};
ghost use Rattle.std.specs.Option.{ok_or};
ghost use Rattle.bk_accounts.specs.Choice.{IsChoice, NoneBelow};
ghost use Rattle.bk_accounts.specs.Listed.{room_cmp};

use crate::fault::AccountFault;
use crate::log_account::LogAccount;
use crate::usage::Usage;
use std::alloc::Global;
use std::collections::{BTreeMap, BTreeSet};
use std::marker::Model;
use std::ops::Bound;

/// Sums of each open log: bytes of its entries, bytes of those whose ledger was not forgotten
/// later, and number of index entries that point into it.
///
/// Contracts see a finite map from each open log to its account (`specs/Book.antt`).
#[derive(Debug, Drop)]
pub struct Accounts {
    alloc: Global,
    logs: BTreeMap<u32, LogAccount>,
    // Each ledger that has room, with the logs in which it has it.
    rooms: BTreeSet<(u64, u32)>,
}

impl Model for Accounts {
    ghost use Rattle.std.specs.FinMap as finmap;
    ghost use Rattle.bk_accounts.specs.Book.{Book, book_code};
    ghost use Rattle.bk_accounts.specs.Listed.{AreListedRooms};

    ghost Value = { Book };

    ghost coded = { book_code };

    ghost view = { λ a. finmap.from_entries a.logs.entries };

    ghost invariant = { λ a. AreListedRooms (finmap.from_entries a.logs.entries) a.rooms };
}

impl Accounts {
    ghost use Rattle.bk_accounts.specs.Book.{HasAccount, IsNotOpen, IsReady, total_in, remaining_in, named_in, total_at, remaining_at, after_open};
    ghost use Rattle.bk_accounts.specs.Book.{after_ready, after_count, after_count_dead, after_name, after_names, after_unname, after_forget, after_drop};

    /// Returns accounts without an open log. Does not allocate; later calls use `alloc`.
    pub fn new(alloc: Global) -> Accounts
        ensures { result ≡ finmap.empty }
    {
        Accounts {
            alloc,
            logs: BTreeMap::new(alloc),
            rooms: BTreeSet::new(alloc),
        }
    }

    /// Opens the account of a log that is not open: no bytes, no names.
    ///
    /// # Errors
    ///
    /// - `Memory`; the accounts are unchanged.
    pub fn open(&mut self, log: u32) -> Result<(), AccountFault>
        requires { IsNotOpen self.old log }
        ensures ok { OnOk result (self.new ≡ after_open self.old log) }
        ensures memory { IsOkUnless result AccountFault.Memory }
        ensures err { OnErr result (self.new ≡ self.old) }
    {
        self.logs.insert(log, LogAccount::new(self.alloc))?;
        Ok(())
    }

    /// Makes room for the sum of a ledger in a log, as `count` requires. Existing room is reused.
    ///
    /// # Errors
    ///
    /// In this order; the accounts are unchanged:
    ///
    /// - `NoLog` exactly if the log is not open.
    /// - `Memory`, only if the room is new.
    pub fn ready(&mut self, log: u32, ledger: u64) -> Result<(), AccountFault>
        ensures ok { OnOk result (self.new ≡ after_ready self.old log ledger) }
        ensures no_log { IsErrOf result AccountFault.NoLog ↔ IsNotOpen self.old log }
        ensures ready { OnOk result (IsReady self.new log ledger) }
        ensures room { IsReady self.old log ledger → IsOk result }
        ensures err { OnErr result (self.new ≡ self.old) }
    {
        let Some(account) = self.logs.get_mut(&log) else {
            return Err(AccountFault::NoLog);
        };
        if account.has_room(ledger) {
            return Ok(());
        }
        self.rooms.insert((ledger, log))?;
        if account.add_room(ledger).is_err() {
            let _ = self.rooms.remove(&(ledger, log));
            return Err(AccountFault::Memory);
        }
        Ok(())
    }

    /// Counts an entry of a ledger in a log. `size` is its whole record in bytes, with the length
    /// field. Does not allocate.
    ///
    /// Requires room from `ready`, which a later `open` of the log or `forget` of the ledger
    /// removes, and a total of the log below 2^32.
    pub fn count(&mut self, log: u32, ledger: u64, size: u32)
        requires ready { IsReady self.old log ledger }
        requires fits { IfSome (total_in self.old log) (λ total. total + size < 2 ^ 32) }
        ensures { self.new ≡ after_count self.old log ledger size }
    {
        self.logs.get_mut(&log).unwrap().count(ledger, size);
    }

    /// Counts an entry of a deleted ledger, as an opened file can have: in the total only. Does
    /// nothing if the log is not open. Does not allocate.
    ///
    /// Requires a total of the log below 2^32.
    pub fn count_dead(&mut self, log: u32, size: u32)
        requires { IfSome (total_in self.old log) (λ total. total + size < 2 ^ 32) }
        ensures { self.new ≡ after_count_dead self.old log size }
    {
        if let Some(account) = self.logs.get_mut(&log) {
            account.count_dead(size);
        }
    }

    /// Counts one more index entry that points into the log. Does nothing if the log is not open.
    /// Does not allocate.
    ///
    /// Requires fewer than 2^64 - 1 names; a map in memory has fewer keys.
    pub fn name(&mut self, log: u32)
        requires { IfSome (named_in self.old log) (λ named. named + 1 < 2 ^ 64) }
        ensures { self.new ≡ after_name self.old log }
    {
        if let Some(account) = self.logs.get_mut(&log) {
            account.name();
        }
    }

    /// Counts `count` more index entries that point into the log, as that number of calls of `name`
    /// does. Does nothing if the log is not open. Does not allocate.
    ///
    /// Requires a number of names below 2^64.
    pub fn name_many(&mut self, log: u32, count: u64)
        requires { IfSome (named_in self.old log) (λ named. named + count < 2 ^ 64) }
        ensures { self.new ≡ after_names self.old log count }
    {
        if let Some(account) = self.logs.get_mut(&log) {
            account.name_many(count);
        }
    }

    /// Counts one index entry fewer that points into the log. Does nothing if the log is not open.
    /// Does not allocate.
    ///
    /// Requires that an open log has a name.
    pub fn unname(&mut self, log: u32)
        requires { IfSome (named_in self.old log) (λ named. 0 < named) }
        ensures { self.new ≡ after_unname self.old log }
    {
        if let Some(account) = self.logs.get_mut(&log) {
            account.unname();
        }
    }

    /// Removes a ledger and its room from the remaining bytes of every log; the totals are
    /// unchanged. Entries counted for the ledger later count as remaining. Does not allocate.
    pub fn forget(&mut self, ledger: u64)
        ensures { self.new ≡ after_forget self.old ledger }
    {
        while let Some(log) = first_room(&self.rooms, ledger) {
            let _ = self.rooms.remove(&(ledger, log));
            if let Some(account) = self.logs.get_mut(&log) {
                account.forget(ledger);
            }
        }
    }

    /// Returns the bytes of all entries counted in a log.
    ///
    /// # Errors
    ///
    /// - `NoLog` exactly if the log is not open.
    pub fn total(&self, log: u32) -> Result<u32, AccountFault>
        ensures { result ≡ ok_or (total_in self.now log) AccountFault.NoLog }
    {
        Ok(self.account(log)?.total())
    }

    /// Returns the bytes of the entries of a log whose ledger was not forgotten later.
    ///
    /// # Errors
    ///
    /// - `NoLog` exactly if the log is not open.
    pub fn remaining(&self, log: u32) -> Result<u32, AccountFault>
        ensures { result ≡ ok_or (remaining_in self.now log) AccountFault.NoLog }
    {
        Ok(self.account(log)?.remaining())
    }

    /// Returns the number of index entries that point into a log.
    ///
    /// # Errors
    ///
    /// - `NoLog` exactly if the log is not open.
    pub fn named(&self, log: u32) -> Result<u64, AccountFault>
        ensures { result ≡ ok_or (named_in self.now log) AccountFault.NoLog }
    {
        Ok(self.account(log)?.named())
    }

    /// Returns the log to compact, or `None` if no log qualifies. Does not allocate.
    ///
    /// A log qualifies if it is among `allowed` and fewer than `threshold` thousandths of its bytes
    /// remain. The log with the least part remaining wins; of equals, the one with the lowest id.
    /// Requires that every allowed log is open.
    ///
    /// The rule that a log is compacted if its usage is below a threshold is BookKeeper's.
    /// Thousandths, exact products and the order of ties are project rules.
    pub fn lowest_below(&self, threshold: u32, allowed: &[u32]) -> Option<u32>
        requires { All (λ log. HasAccount self.now log) allowed.now }
        ensures { MatchOption result
            (NoneBelow (total_at self.now) (remaining_at self.now) threshold allowed.now)
            (IsChoice (total_at self.now) (remaining_at self.now) threshold allowed.now) }
    {
        let mut lowest: Option<Usage> = None;
        for log in allowed {
            let usage = self.usage(*log);
            if usage.is_below(threshold) {
                lowest = Some(usage.first_of(lowest));
            }
        }
        Some(lowest?.log)
    }

    /// Closes the account of a log. Does nothing if the log is not open. Does not allocate.
    pub fn drop_log(&mut self, log: u32)
        ensures { self.new ≡ after_drop self.old log }
    {
        let Some(mut account) = self.logs.remove(&log) else {
            return;
        };
        while let Some(ledger) = account.pop() {
            let _ = self.rooms.remove(&(ledger, log));
        }
    }

    fn account(&self, log: u32) -> Result<&LogAccount, AccountFault>
        ensures open { IfOk result (λ account. finmap.get self.now log ≡ Some account.now) }
        ensures closed { IfErr result (λ fault. (fault ≡ AccountFault.NoLog) × (finmap.get self.now log ≡ None)) }
    {
        self.logs.get(&log).ok_or(AccountFault::NoLog)
    }

    fn usage(&self, log: u32) -> Usage
        requires { HasAccount self.now log }
        ensures total { result.total ≡ total_at self.now log }
        ensures remaining { result.remaining ≡ remaining_at self.now log }
        ensures log { result.log ≡ log }
    {
        let account = self.account(log).unwrap();
        Usage {
            log,
            total: account.total(),
            remaining: account.remaining(),
        }
    }
}

// The first log in which the ledger has room. The rooms of a ledger are adjacent.
fn first_room(rooms: &BTreeSet<(u64, u32)>, ledger: u64) -> Option<u32>
    ensures some { IfSome result (λ log. contains room_cmp rooms.now (ledger, log) ≡ true) }
    ensures none { IfNone result ((log : ℕ) → contains room_cmp rooms.now (ledger, log) ≡ false) }
{
    let (first, log) = rooms
        .range((Bound::Included((ledger, 0)), Bound::Unbounded))
        .next()?;
    if *first == ledger { Some(*log) } else { None }
}
