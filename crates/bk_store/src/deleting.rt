//! Deleting a ledger: its entries leave everything except the files.

ghost use Rattle.std.specs.Prelude.{◌≡◌, ◌≤◌, ◌^◌, ◌==◌, ◌&&◌, ℕ, not, is_some, IfSome};
ghost use Rattle.std.specs.List.{count_by};
ghost use Rattle.std.specs.FinMap as map;
ghost use Rattle.bk_record.specs.Keyed.{without_ledger, log_count};
ghost use Rattle.bk_cache.specs.Caches.{write_cached_payload};
ghost use Rattle.bk_accounts.specs.Book.{named_in};
ghost use Rattle.bk_store.specs.Transitions.{DeleteTransition};
ghost use Rattle.bk_store.specs.Deletion.{AreNamedBy, DeleteInternals};
ghost use Rattle.bk_store.specs.Invariant.{StoreInvariant};

use crate::DeleteFault;
use crate::fields::Fields;
use bk_accounts::Accounts;
use bk_cache::Caches;
use bk_disk::LogDisk;
use bk_index::Index;

impl<D: LogDisk> Fields<D> {
    pub fn delete(&mut self, ledger: u64) -> Result<u64, DeleteFault>
        requires { StoreInvariant self.old }
        ensures transition { DeleteTransition self.old.state ledger result self.new.state }
        ensures internals { DeleteInternals self.old ledger result self.new }
    {
        if self.ledgers.is_dead(ledger) {
            return Err(DeleteFault::AlreadyDeleted);
        }
        self.ledgers.delete(ledger)?;
        let indexed = unname_ledger(&self.index, &self.caches, &mut self.accounts, ledger);
        self.index.drop_ledger(ledger);
        self.places.drop_ledger(ledger);
        self.accounts.forget(ledger);
        Ok(self.caches.drop_ledger(ledger) + indexed)
    }
}

// Removes the index entries of a ledger from the counts of the accounts. Returns how many of their
// keys no write cache has.
fn unname_ledger(index: &Index, caches: &Caches, accounts: &mut Accounts, ledger: u64) -> u64
    requires { (log : ℕ) → IfSome (named_in accounts.old log) (λ named. named ≡ log_count index.now log) }
    ensures named { AreNamedBy (without_ledger index.now ledger) accounts.old accounts.new }
    ensures alone { result ≡ count_by (λ e. (e.0.ledger == ledger) && not (is_some (write_cached_payload caches.now e.0))) (map.entries index.now) }
    ensures bound { result ≤ 2 ^ 63 }
{
    let mut alone = 0;
    for (key, location) in index.walk_ledger(ledger) {
        accounts.unname(location.log());
        alone += u64::from(!caches.holds(&key));
    }
    alone
}
