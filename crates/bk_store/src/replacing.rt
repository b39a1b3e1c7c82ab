//! Replacing the index by a rebuilt one.

ghost use Rattle.std.specs.Prelude.{◌≡◌, ℕ, IfSome};
ghost use Rattle.std.specs.FinMap as map;
ghost use Rattle.bk_record.specs.Keyed.{log_count};
ghost use Rattle.bk_accounts.specs.Book.{named_in};
ghost use Rattle.bk_store.specs.Invariant.{StoreInvariant};
ghost use Rattle.bk_store.specs.Primitives.{ReplaceIndexTransition};
ghost use Rattle.bk_store.specs.Deletion.{AreNamedBy};
ghost use Rattle.bk_store.specs.Internals.{ReplaceIndexInternals};

use crate::fields::Fields;
use crate::open::name_each;
use bk_accounts::Accounts;
use bk_disk::LogDisk;
use bk_index::Index;

impl<D: LogDisk> Fields<D> {
    /// Replaces the index, and counts the index entries of each log again.
    pub fn replace_index(&mut self, index: Index)
        requires { StoreInvariant self.old }
        ensures transition { ReplaceIndexTransition self.old.state index self.new.state }
        ensures internals { ReplaceIndexInternals self.old self.new }
    {
        unname_each(&self.index, &mut self.accounts);
        name_each(&index, &mut self.accounts);
        self.index = index;
        if let Some(job) = &mut self.job {
            job.note_rebuild();
        }
    }
}

/// Sets the number of index entries of each log to zero.
fn unname_each(index: &Index, accounts: &mut Accounts)
    requires { (log : ℕ) → IfSome (named_in accounts.old log) (λ named. named ≡ log_count index.now log) }
    ensures { AreNamedBy map.empty accounts.old accounts.new }
{
    for (_, place) in index.walk() {
        accounts.unname(place.log());
    }
}
