//! Shared payloads by key, in pages: a page has the entries of a ledger whose ids have the same
//! quotient by 256. A search goes down the tree of pages, and mostly needs one look in the page.

ghost use Rattle.std.specs.Prelude.{◌≡◌, ◌+◌, ◌<◌, ◌≤◌, ◌^◌, ℕ, [], length, not, ◌==◌, filter, option_map, slice_get, sum_by, IsSome, IfSome};
ghost use Rattle.std.specs.Map.{values_of};
ghost use Rattle.std.specs.Ordering.{is_lt, is_le};
ghost use Rattle.std.specs.Option.{IsSomeAnd};
ghost use Rattle.std.specs.FinMap.{find};
ghost use Rattle.bk_record.specs.Key.{key_cmp};
ghost use Rattle.bk_cache.specs.Rows.{page_of, PutTransition};

use crate::Flushing;
use crate::page::Page;
use bk_record::Key;
use std::alloc::{AllocError, Global};
use std::collections::BTreeMap;
use std::marker::Model;
use std::ops::Bound;
use std::sync::Arc;

mod ledger;

/// Pages by ledger and by the quotient of their entry ids. None is empty.
#[derive(Drop)]
pub(crate) struct Rows {
    alloc: Global,
    pages: BTreeMap<Key, Page>,
}

impl Model for Rows {
    ghost use Rattle.std.specs.Prelude.{List};
    ghost use Rattle.bk_cache.specs.Recents.{Entry};
    ghost use Rattle.bk_cache.specs.Rows.{entries_code, all_pairs, ArePages};

    ghost Value = { List Entry };

    ghost coded = { entries_code };

    ghost view = { λ rows. all_pairs rows.pages.entries };

    ghost invariant = { λ rows. ArePages rows.pages.entries };
}

/// Number of entry ids of a page.
const PAGE: u64 = 256;

// The page of a key, as the tree has it.
#[inline]
fn page_of(key: &Key) -> Key
    ensures { result ≡ page_of key.now }
{
    Key::new(key.ledger(), key.entry() / PAGE).unwrap()
}

impl Rows {
    /// Returns no entries. Does not allocate.
    pub(crate) fn new(alloc: Global) -> Rows
        ensures { result ≡ [] }
    {
        Rows {
            alloc,
            pages: BTreeMap::new(alloc),
        }
    }

    /// Returns the payload of a key.
    #[inline]
    pub(crate) fn get(&self, key: &Key) -> Option<&Arc<Vec<u8>>>
        ensures { option_map (λ payload. payload.now.value.items) result ≡ find key_cmp key.now self.now }
    {
        let page = self.pages.get(&page_of(key))?;
        page.get(key)
    }

    /// Adds a payload under a new key. Returns `false` if there is one. Unless the payload is
    /// added, nothing changes.
    pub(crate) fn put(&mut self, key: Key, payload: Arc<Vec<u8>>) -> Result<bool, AllocError>
        ensures { PutTransition self.old key payload.value.items result self.new }
    {
        let number = page_of(&key);
        if let Some(page) = self.pages.get_mut(&number) {
            return page.put(key, payload);
        }
        let page = Page::of_pair(self.alloc, key, payload)?;
        self.pages.insert(number, page)?;
        Ok(true)
    }

    /// Returns the first entry.
    pub(crate) fn first(&self) -> Option<(Key, &Arc<Vec<u8>>)>
        ensures { option_map (λ e. (e.0, e.1.now.value.items)) result ≡ slice_get self.now 0 }
    {
        let (_, page) = self.pages.first_key_value()?;
        page.first()
    }

    /// Returns the first entry from a key on.
    pub(crate) fn first_from(&self, key: &Key) -> Option<(Key, &Arc<Vec<u8>>)>
        ensures { option_map (λ e. (e.0, e.1.now.value.items)) result ≡ slice_get (filter (λ e. is_le (key_cmp key.now e.0)) self.now) 0 }
    {
        let number = page_of(key);
        let Some(page) = self.pages.get(&number) else {
            return self.first_behind(number);
        };
        match page.first_from(key) {
            Some(found) => Some(found),
            None => self.first_behind(number),
        }
    }

    /// Returns the first entry after a key. Looks for the key at the place `near` of its page
    /// first, and sets it to the place of the result.
    pub(crate) fn first_after(&self, key: &Key, near: &mut usize) -> Option<(Key, &Arc<Vec<u8>>)>
        ensures { option_map (λ e. (e.0, e.1.now.value.items)) result ≡ slice_get (filter (λ e. is_lt (key_cmp key.now e.0)) self.now) 0 }
    {
        let number = page_of(key);
        let Some(page) = self.pages.get(&number) else {
            return self.first_behind(number);
        };
        match page.first_after(key, near) {
            Some(found) => Some(found),
            None => {
                *near = 0;
                self.first_behind(number)
            }
        }
    }

    // The first entry of the pages behind this one.
    fn first_behind(&self, number: Key) -> Option<(Key, &Arc<Vec<u8>>)>
        ensures { option_map (λ e. (e.0, e.1.now.value.items)) result ≡ slice_get (filter (λ e. is_lt (key_cmp number (page_of e.0))) self.now) 0 }
    {
        let (_, page) = self
            .pages
            .range((Bound::Excluded(number), Bound::Unbounded))
            .next()?;
        page.first()
    }

    /// Returns an iterator over the entries in key order.
    pub(crate) fn walk(&self) -> Flushing<'_>
        ensures { result ≡ self.now }
    {
        Flushing::over(&self.pages)
    }
}
