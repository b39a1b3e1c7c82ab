//! The pages of one ledger, which are adjacent.

ghost use Rattle.std.specs.Prelude.{◌≡◌, ◌+◌, ◌-◌, ◌<◌, ◌^◌, length, not, ◌==◌, filter, option_map, slice_get, sum_by, IfSome, IfNone};
ghost use Rattle.std.specs.Map.{values_of};
ghost use Rattle.std.specs.BTreeMap.{btree_map_len};
ghost use Rattle.bk_cache.specs.Rows.{page_of, is_of_ledger, all_pairs, ArePages};

use super::Rows;
use crate::page::Page;
use bk_record::{Key, LAST_ID};
use std::collections::BTreeMap;
use std::ops::Bound;

impl Rows {
    /// Returns the greatest key of a ledger.
    pub(crate) fn last_of(&self, ledger: u64) -> Option<Key>
        requires { ledger < 2 ^ 63 }
        ensures { let own = filter (λ e. is_of_ledger ledger (page_of e.0)) self.now in
            result ≡ option_map (λ e. e.0) (slice_get own (length own - 1)) }
    {
        let first = Key::new(ledger, 0).unwrap();
        let last = Key::new(ledger, LAST_ID).unwrap();
        let (_, page) = self
            .pages
            .range((Bound::Included(first), Bound::Included(last)))
            .next_back()?;
        page.last()
    }

    /// Removes the entries of a ledger, a page at a time. Returns their number and the sum of
    /// their payloads' sizes in bytes.
    pub(crate) fn drop_ledger(&mut self, ledger: u64) -> (u64, u64)
        requires id { ledger < 2 ^ 63 }
        requires count { length self.old < 2 ^ 64 }
        requires bytes { sum_by length (values_of self.old) < 2 ^ 64 }
        ensures left { self.new ≡ filter (λ e. not (e.0.ledger == ledger)) self.old }
        ensures count { length self.new + result.0 ≡ length self.old }
        ensures bytes { sum_by length (values_of self.new) + result.1 ≡ sum_by length (values_of self.old) }
    {
        let mut count = 0;
        let mut bytes = 0;
        while let Some(page) = take_page(&mut self.pages, ledger) {
            count += page.len() as u64;
            bytes += page.bytes();
        }
        (count, bytes)
    }
}

// Takes a page of the ledger out of the tree. Returns `None` if there is none.
fn take_page(pages: &mut BTreeMap<Key, Page>, ledger: u64) -> Option<Page>
    requires id { ledger < 2 ^ 63 }
    requires are { ArePages pages.old.entries }
    ensures are { ArePages pages.new.entries }
    ensures others { filter (λ e. not (e.0.ledger == ledger)) (all_pairs pages.new.entries) ≡ filter (λ e. not (e.0.ledger == ledger)) (all_pairs pages.old.entries) }
    ensures count { IfSome result (λ page. length (all_pairs pages.new.entries) + length page ≡ length (all_pairs pages.old.entries)) }
    ensures bytes { IfSome result (λ page. sum_by length (values_of (all_pairs pages.new.entries)) + sum_by length (values_of page) ≡ sum_by length (values_of (all_pairs pages.old.entries))) }
    ensures fewer { IfSome result (λ page. btree_map_len pages.new < btree_map_len pages.old) }
    ensures unchanged { IfNone result (pages.new.entries ≡ pages.old.entries) }
    ensures none { IfNone result (filter (λ e. not (e.0.ledger == ledger)) (all_pairs pages.new.entries) ≡ all_pairs pages.new.entries) }
{
    let first = Key::new(ledger, 0).unwrap();
    let (number, _) = pages
        .range((Bound::Included(first), Bound::Unbounded))
        .next()?;
    if number.ledger() != ledger {
        return None;
    }
    let number = *number;
    pages.remove(&number)
}
