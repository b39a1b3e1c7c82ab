//! Walk over an index in key order. It still has to visit the rest of a page, the pages after it,
//! and pairs of the page after those.

ghost use Rattle.std.specs.Prelude.{◌≡◌, ◌<◌, ◌++◌, [], length, All, IsNone, IfSome};
ghost use Rattle.std.specs.Iterator.{YieldsFirst, item_count};
ghost use Rattle.bk_index.specs.Pages.{all_pairs};
ghost use Rattle.bk_index.specs.Passing.{PassesLog};

use crate::page::{Page, Part};
use bk_record::{Key, Location};
use std::marker::Model;

/// Iterator over keys and their locations, by ledger, then entry. `Index::walk` and
/// `Index::walk_ledger` return it.
#[derive(Debug, Drop)]
pub struct Walk<'a> {
    page: Part<'a>,
    pages: &'a [Page],
    last: Part<'a>,
}

impl<'a> Model for Walk<'a> {
    ghost use Rattle.std.specs.Prelude.{◌<◌, ◌++◌, List, length, All};
    ghost use Rattle.bk_record.specs.Key.{EntryKey};
    ghost use Rattle.bk_record.specs.Location.{Place};
    ghost use Rattle.bk_index.specs.Pages.{all_pairs};

    ghost Value = { List (EntryKey × Place) };

    ghost view = { λ walk. walk.page ++ (all_pairs walk.pages.now ++ walk.last) };

    ghost invariant = { λ walk. All (λ page. 0 < length page) walk.pages.now };
}

impl<'a> Walk<'a> {
    // Walk over pairs, then pages, none of which is empty, then further pairs.
    pub(crate) fn over(page: Part<'a>, pages: &'a [Page], last: Part<'a>) -> Walk<'a>
        requires { All (λ page. 0 < length page) pages.now }
        ensures { result ≡ page.entry ++ (all_pairs pages.now ++ last.entry) }
    {
        Walk { page, pages, last }
    }

    /// Passes the next entries, all of one page whose locations are in the log of the next one, and
    /// returns the log and their number, which is at least 1. `None` at the end.
    pub fn pass_log(&mut self) -> Option<(u32, u64)>
        ensures none { IsNone result → (self.old ≡ []) × (self.new ≡ []) }
        ensures some { IfSome result (λ passed. PassesLog self.old passed.0 passed.1 self.new) }
    {
        if let Some(passed) = self.page.pass_log() {
            return Some(passed);
        }
        if let Some((page, pages)) = self.pages.split_first() {
            self.page = page.pairs();
            self.pages = pages;
            return self.page.pass_log();
        }
        self.last.pass_log()
    }
}

impl Iterator for Walk<'_> {
    type Item = (Key, Location);

    ghost next_gives = { YieldsFirst (λ walk. walk) };

    ghost remaining = { item_count (λ walk. walk) };

    #[inline(always)]
    fn next(&mut self) -> Option<(Key, Location)> {
        if let Some(pair) = self.page.next() {
            return Some(pair);
        }
        if let Some((page, pages)) = self.pages.split_first() {
            self.page = page.pairs();
            self.pages = pages;
            return self.page.next();
        }
        self.last.next()
    }
}
