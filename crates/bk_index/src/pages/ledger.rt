//! The keys of one ledger. They are in adjacent pages, so a search over the fences finds the first
//! and the last page, and no other page is visited.

ghost use Rattle.std.specs.Prelude.{◌≡◌, ◌<◌, ◌≤◌, ◌+◌, ◌^◌, [], ◌++◌, length, take, drop, not, ◌==◌, filter, slice_index_or, sum_by, IsTrue};
ghost use Rattle.std.specs.FinMap.{is_sorted};
ghost use Rattle.bk_record.specs.Key.{key_cmp};
ghost use Rattle.bk_index.specs.Pages.{all_pairs, HoldsLedger};

use super::Pages;
use crate::Walk;
use crate::page::{Page, Part};

impl Pages {
    /// Returns an iterator over the keys of a ledger and their locations, in key order.
    pub(crate) fn walk_ledger(&self, ledger: u64) -> Walk<'_>
        requires { IsTrue (is_sorted key_cmp (all_pairs self.now)) }
        ensures items { result ≡ filter (λ pair. pair.0.ledger == ledger) (all_pairs self.now) }
        ensures bound { length result ≤ 2 ^ 63 }
    {
        let (from, to) = self.pages_of(ledger);
        match &self.list[from..to] {
            [] => Walk::over(Part::empty(), &[], Part::empty()),
            [page] => Walk::over(page.of_ledger(ledger), &[], Part::empty()),
            [first, between @ .., last] => {
                Walk::over(first.of_ledger(ledger), between, last.of_ledger(ledger))
            }
        }
    }

    /// Removes the keys of a ledger and returns their number.
    pub(crate) fn drop_ledger(&mut self, ledger: u64) -> usize
        requires { IsTrue (is_sorted key_cmp (all_pairs self.old)) }
        ensures left { all_pairs self.new ≡ filter (λ pair. not (pair.0.ledger == ledger)) (all_pairs self.old) }
        ensures count { length (all_pairs self.new) + result ≡ length (all_pairs self.old) }
    {
        let (from, to) = self.pages_of(ledger);
        if from == to {
            return 0;
        }
        if from + 1 == to {
            return self.thin(from, ledger);
        }
        let last = self.thin(to - 1, ledger);
        let between = self.cut(from + 1, to - 1);
        let first = self.thin(from, ledger);
        last + between + first
    }

    // The pages that can have keys of a ledger, from the first number up to, not including, the
    // second.
    fn pages_of(&self, ledger: u64) -> (usize, usize)
        requires { IsTrue (is_sorted key_cmp (all_pairs self.now)) }
        ensures { HoldsLedger self.now ledger result.0 result.1 }
    {
        let before = self.fences.partition_point(|fence| fence.ledger() < ledger);
        let to = self
            .fences
            .partition_point(|fence| fence.ledger() <= ledger);
        (before.saturating_sub(1), to)
    }

    // Removes the keys of a ledger from a page, and the page if it is then empty.
    fn thin(&mut self, at: usize, ledger: u64) -> usize
        requires { at < length self.old }
        ensures before { take at self.new ≡ take at self.old }
        ensures behind { all_pairs (drop at self.new)
            ≡ filter (λ pair. not (pair.0.ledger == ledger)) (slice_index_or self.old at []) ++ all_pairs (drop (at + 1) self.old) }
        ensures count { length (all_pairs self.new) + result ≡ length (all_pairs self.old) }
        ensures bound { length (all_pairs self.old) < 2 ^ 64 }
    {
        let page = &mut self.list[at];
        let dropped = page.drop_ledger(ledger);
        if page.len() == 0 {
            self.fences.remove(at);
            drop(self.list.remove(at));
        } else {
            self.fences[at] = page.first();
        }
        dropped
    }

    // Removes whole pages and returns their number of entries.
    fn cut(&mut self, from: usize, to: usize) -> usize
        requires order { from ≤ to }
        requires bound { to ≤ length self.old }
        ensures left { self.new ≡ take from self.old ++ drop to self.old }
        ensures count { length (all_pairs self.new) + result ≡ length (all_pairs self.old) }
    {
        let dropped = count_pairs(&self.list[from..to]);
        drop(self.fences.drain(from..to));
        drop(self.list.drain(from..to));
        dropped
    }
}

fn count_pairs(pages: &[Page]) -> usize
    requires { sum_by length pages.now < 2 ^ 64 }
    ensures { result ≡ sum_by length pages.now }
{
    pages.iter().map(|page| page.len()).sum()
}
