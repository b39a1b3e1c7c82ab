//! Iterator over the entries of a flush. It still has to visit the rest of a page and the pages after
//! it.

ghost use Rattle.std.specs.Prelude.{◌≡◌, []};
ghost use Rattle.std.specs.Iterator.{YieldsFirstBy, item_count};
ghost use Rattle.bk_cache.specs.Rows.{all_pairs, ArePages};

use crate::page::{Page, Pair};
use bk_record::Key;
use std::collections::BTreeMap;
use std::collections::btree_map::Iter;
use std::marker::Model;
use std::sync::Arc;

/// Iterator over keys and payloads of the running flush, by ledger, then entry.
#[derive(Drop)]
pub struct Flushing<'a> {
    page: &'a [Pair],
    rest: Option<Iter<'a, Key, Page>>,
}

impl<'a> Model for Flushing<'a> {
    ghost use Rattle.std.specs.Prelude.{List, [], ◌++◌, map, unwrap_or};
    ghost use Rattle.std.specs.List.{AllByRecursion};
    ghost use Rattle.bk_cache.specs.Recents.{Entry};
    ghost use Rattle.bk_cache.specs.Rows.{all_pairs, IsPage};

    ghost Value = { List Entry };

    ghost view = { λ walk. map (λ e. (e.0, e.1.value.items)) walk.page.now ++ all_pairs (unwrap_or walk.rest []) };

    ghost invariant = { λ walk. AllByRecursion (λ page. IsPage page) (unwrap_or walk.rest []) };
}

impl<'a> Flushing<'a> {
    /// Returns an iterator without entries.
    pub(crate) fn empty() -> Flushing<'a>
        ensures { result ≡ [] }
    {
        Flushing {
            page: &[],
            rest: None,
        }
    }

    /// Returns an iterator over the entries of these pages.
    pub(crate) fn over(pages: &'a BTreeMap<Key, Page>) -> Flushing<'a>
        requires { ArePages pages.now.entries }
        ensures { result ≡ all_pairs pages.now.entries }
    {
        Flushing {
            page: &[],
            rest: Some(pages.iter()),
        }
    }
}

impl<'a> Iterator for Flushing<'a> {
    type Item = (Key, &'a Arc<Vec<u8>>);

    ghost next_gives = { YieldsFirstBy (λ e. (e.0, e.1.now.value.items)) (λ walk. walk) };

    ghost remaining = { item_count (λ walk. walk) };

    fn next(&mut self) -> Option<(Key, &'a Arc<Vec<u8>>)> {
        if let Some((first, rest)) = self.page.split_first() {
            self.page = rest;
            return Some((first.0, &first.1));
        }
        let Some(pages) = &mut self.rest else {
            return None;
        };
        let (_, page) = pages.next()?;
        let (first, rest) = page.pairs().split_first()?;
        self.page = rest;
        Some((first.0, &first.1))
    }
}
