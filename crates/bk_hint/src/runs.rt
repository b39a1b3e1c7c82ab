//! Runs of entries, and an iterator over them.

ghost use Rattle.std.specs.Prelude.{◌≡◌, ◌≤◌, length, slice_get, Some};
ghost use Rattle.std.specs.Iterator.{YieldsFirst, item_count};
ghost use Rattle.bk_hint.specs.Checking.{IsRepeatable};
ghost use Rattle.bk_hint.specs.Entries.{bytes_of, origin, IsSound};
ghost use Rattle.bk_hint.specs.Runs.{entries_of_run, runs_of};

use crate::Listed;
use crate::entries::turn;
use crate::head::Head;
use std::marker::Model;

/// Entries of one ledger and one size whose records stand directly one behind another, with
/// consecutive entry ids.
#[derive(Clone, Copy, Debug, PartialEq, Eq)]
pub struct ListedRun {
    /// The first entry.
    pub first: Listed,
    /// Number of entries that follow it.
    pub again: u32,
}

impl ListedRun {
    /// Returns the number of entries.
    #[tactic(auto, using(crate::proofs::Runwise::run_many))]
    pub(crate) fn count(&self) -> u64
        ensures { result ≡ length (entries_of_run self.now) }
    {
        u64::from(self.again) + 1
    }

    /// Returns the sum of the sizes of the records.
    pub(crate) fn bytes(&self) -> u64
        ensures { result ≡ bytes_of (entries_of_run self.now) }
    {
        self.first.times(u64::from(self.again) + 1)
    }

    /// Returns the entry at this place of the run. Place 0 is that of the first one.
    pub(crate) fn at(&self, place: u32) -> Listed
        requires inside { place ≤ self.now.again }
        requires legal { IsRepeatable self.now.again self.now.first }
        ensures { slice_get (entries_of_run self.now) place ≡ Some result }
    {
        self.first.behind(place)
    }
}

/// Iterator over the runs of the entries of a log, in file order. `Contents::runs` returns it.
/// Contracts see the list of what is left.
#[derive(Debug, Drop)]
pub struct ListedRuns<'a> {
    last: Listed,
    heads: &'a [Head],
    steps: &'a [u32],
}

impl<'a> Model for ListedRuns<'a> {
    ghost use Rattle.std.specs.Prelude.{List};
    ghost use Rattle.bk_hint.specs.declared.runs.ListedRun.{ListedRun};
    ghost use Rattle.bk_hint.specs.Runs.{runs_of};
    ghost use Rattle.bk_hint.specs.Walking.{CanGoOn};

    ghost Value = { List ListedRun };

    ghost view = { λ walk. runs_of walk.last walk.heads.now walk.steps.now };

    ghost invariant = { λ walk. CanGoOn walk.last 0 walk.heads.now walk.steps.now };
}

impl<'a> ListedRuns<'a> {
    /// Returns an iterator over the runs of heads and steps.
    pub(crate) fn over(heads: &'a [Head], steps: &'a [u32]) -> ListedRuns<'a>
        requires { IsSound heads.now steps.now }
        ensures { result ≡ runs_of origin heads.now steps.now }
    {
        ListedRuns {
            last: Listed::origin(),
            heads,
            steps,
        }
    }

    /// Returns a copy.
    pub(crate) fn same(&self) -> ListedRuns<'a>
        ensures { result ≡ self.now }
    {
        ListedRuns {
            last: self.last.same(),
            heads: self.heads,
            steps: self.steps,
        }
    }
}

impl Iterator for ListedRuns<'_> {
    type Item = ListedRun;

    ghost next_gives = { YieldsFirst (λ walk. walk) };

    ghost remaining = { item_count (λ walk. walk) };

    fn next(&mut self) -> Option<ListedRun> {
        match turn(&self.last, self.heads, self.steps) {
            Some((first, again, heads, steps)) => {
                self.last = first.behind(again);
                self.heads = heads;
                self.steps = steps;
                Some(ListedRun { first, again })
            }
            None => None,
        }
    }
}
