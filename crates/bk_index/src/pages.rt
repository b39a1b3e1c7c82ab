//! The pages of the index in key order, with a fence for each: the first key of the page. A search
//! covers the fences, then one page.

ghost use Rattle.std.specs.Prelude.{◌≡◌, ◌↔◌, ◌<◌, ◌≤◌, ◌+◌, ◌^◌, [], ◌∷◌, ◌++◌, length, take, drop, not, ◌==◌, count_by, filter, slice_get};
ghost use Rattle.std.specs.Prelude.{slice_index_or, option_map, sum_by, All, Some, None, IsTrue, IsSome, IsOk, IfOk, IfSome, IfNone, OnOk, OnErr};
ghost use Rattle.std.specs.Bool.{OnTrue, OnFalse};
ghost use Rattle.std.specs.FinMap.{find, put, is_sorted};
ghost use Rattle.bk_record.specs.Key.{key_cmp};
ghost use Rattle.bk_index.specs.Sorted.{IsAt, IsGapFor};
ghost use Rattle.bk_index.specs.Pages.{all_pairs, IsHome, HoldsLedger};

use crate::Near;
use crate::page::{MOST, Page};
use bk_record::{Key, Location};
use std::alloc::{AllocError, Global};
use std::marker::Model;

mod in_order;
mod ledger;
mod runs;

/// The pages of an index. Each has from 1 to 256 entries.
#[derive(Debug, Drop)]
pub struct Pages {
    fences: Vec<Key>,
    list: Vec<Page>,
}

impl Model for Pages {
    ghost use Rattle.std.specs.Prelude.{List};
    ghost use Rattle.bk_record.specs.Key.{EntryKey};
    ghost use Rattle.bk_record.specs.Location.{Place};
    ghost use Rattle.bk_index.specs.Pages.{AreFenced};

    ghost Value = { List (List (EntryKey × Place)) };

    ghost view = { λ pages. pages.list.items };

    ghost invariant = { λ pages. AreFenced pages.fences.items pages.list.items };
}

// Greatest number of pages: no machine has the memory for them, and all their entries can still be
// counted.
const MOST_PAGES: usize = 1 << 55;

impl Pages {
    /// Returns an empty list of pages. Does not allocate.
    pub(crate) fn new(alloc: Global) -> Pages
        ensures { result ≡ [] }
    {
        Pages {
            fences: Vec::new(alloc),
            list: Vec::new(alloc),
        }
    }

    /// Returns the number of pages.
    pub fn len(&self) -> usize
        ensures value { result ≡ length self.now }
        ensures sizes { All (λ page. (1 ≤ length page) × (length page ≤ 256)) self.now }
    {
        self.list.len()
    }

    /// Returns the number of entries of a page, from 1 to 256, or `None` exactly from the number of
    /// pages on.
    pub fn page_len(&self, number: usize) -> Option<usize>
        ensures value { result ≡ option_map length (slice_get self.now number) }
        ensures sizes { All (λ page. (1 ≤ length page) × (length page ≤ 256)) self.now }
    {
        let page = self.list.get(number)?;
        Some(page.len())
    }

    // The page that has the key or would have it: the last whose fence is not greater, else the
    // first.
    #[inline]
    fn home(&self, key: &Key) -> usize
        requires { IsTrue (is_sorted key_cmp (all_pairs self.now)) }
        ensures home { IsHome key.now self.now result }
        ensures bound { 0 < length self.now → result < length self.now }
    {
        self.fences
            .partition_point(|fence| *fence <= *key)
            .saturating_sub(1)
    }

    // Same as `home`, for a key to be inserted. Keys mostly rise, so it tries the last page first.
    fn home_for(&self, key: &Key) -> usize
        requires { IsTrue (is_sorted key_cmp (all_pairs self.now)) }
        ensures home { IsHome key.now self.now result }
        ensures bound { 0 < length self.now → result < length self.now }
    {
        let count = self.fences.len();
        if count > 0 && self.fences[count - 1] <= *key {
            return count - 1;
        }
        self.home(key)
    }

    // Same as `home_for`, but tries a page first: any number can be given.
    #[inline(always)]
    fn home_near(&self, key: &Key, page: usize) -> usize
        requires { IsTrue (is_sorted key_cmp (all_pairs self.now)) }
        ensures home { IsHome key.now self.now result }
        ensures bound { 0 < length self.now → result < length self.now }
    {
        let count = self.fences.len();
        if page >= count || self.fences[page] > *key {
            return self.home_for(key);
        }
        let next = page + 1;
        if next < count && self.fences[next] <= *key {
            return self.home_for(key);
        }
        page
    }

    // Returns the location of a key if it is at the place `near`; otherwise `None`.
    #[inline]
    fn get_here(&self, key: &Key, near: &Near) -> Option<Location>
        requires { IsTrue (is_sorted key_cmp (all_pairs self.now)) }
        ensures value { IfSome result (λ location. find key_cmp key.now (all_pairs self.now) ≡ Some location) }
        ensures next { IsSome result → near.now.place + 1 < 2 ^ 64 }
    {
        let page = self.list.get(near.page)?;
        let location = page.get_at(key, near.place)?;
        Some(location)
    }

    /// Same as `get`, but tries the place `near` first, and sets it to the place after the key.
    pub(crate) fn get_near(&self, key: &Key, near: &mut Near) -> Option<Location>
        requires { IsTrue (is_sorted key_cmp (all_pairs self.now)) }
        ensures { result ≡ find key_cmp key.now (all_pairs self.now) }
    {
        if let Some(location) = self.get_here(key, near) {
            near.place += 1;
            return Some(location);
        }
        let at = self.home(key);
        near.page = at;
        let page = self.list.get(at)?;
        page.get_near(key, &mut near.place)
    }

    /// Returns the location of a key, or `None`.
    #[inline]
    pub(crate) fn get(&self, key: &Key) -> Option<Location>
        requires { IsTrue (is_sorted key_cmp (all_pairs self.now)) }
        ensures { result ≡ find key_cmp key.now (all_pairs self.now) }
    {
        let page = self.list.get(self.home(key))?;
        page.get(key)
    }

    /// Sets the location of a key and returns the one before. Fails only for a new key, and then
    /// leaves the pages unchanged. Tries the page `near` first, and sets it to the one that the key
    /// goes to, before a split.
    pub(crate) fn insert(
        &mut self,
        key: Key,
        location: Location,
        near: &mut usize,
    ) -> Result<Option<Location>, AllocError>
        requires { IsTrue (is_sorted key_cmp (all_pairs self.old)) }
        ensures ok { OnOk result (all_pairs self.new ≡ put key_cmp key location (all_pairs self.old)) }
        ensures before { IfOk result (λ before. before ≡ find key_cmp key (all_pairs self.old)) }
        ensures err { OnErr result (self.new ≡ self.old) }
        ensures bound { OnOk result (length (all_pairs self.new) < 2 ^ 64) }
        ensures held { IsSome (find key_cmp key (all_pairs self.old)) → IsOk result }
    {
        if self.list.is_empty() {
            self.begin(key, location)?;
            return Ok(None);
        }
        let at = self.home_near(&key, *near);
        *near = at;
        if self.push(at, &key, location)? {
            return Ok(None);
        }
        self.insert_at(at, key, location)
    }

    // Adds a key after all others of its page, and returns whether it did: mostly so if keys rise.
    // Otherwise nothing changes.
    #[inline]
    fn push(&mut self, at: usize, key: &Key, location: Location) -> Result<bool, AllocError>
        requires within { at < length self.old }
        requires home { IsHome key.now self.old at }
        ensures pushed { IfOk result (λ pushed. OnTrue pushed (all_pairs self.new ≡ put key_cmp key.now location (all_pairs self.old))) }
        ensures bound { IfOk result (λ pushed. OnTrue pushed (length (all_pairs self.new) < 2 ^ 64)) }
        ensures absent { IfOk result (λ pushed. OnTrue pushed (find key_cmp key.now (all_pairs self.old) ≡ None)) }
        ensures failed { OnErr result (find key_cmp key.now (all_pairs self.old) ≡ None) }
        ensures unchanged { IfOk result (λ pushed. OnFalse pushed (self.new ≡ self.old)) }
        ensures err { OnErr result (self.new ≡ self.old) }
    {
        let page = &mut self.list[at];
        if page.push(key, location)? {
            return Ok(true);
        }
        Ok(false)
    }

    // Same as `insert`, in the page of the key.
    fn insert_at(
        &mut self,
        at: usize,
        key: Key,
        location: Location,
    ) -> Result<Option<Location>, AllocError>
        requires within { at < length self.old }
        requires home { IsHome key self.old at }
        requires sorted { IsTrue (is_sorted key_cmp (all_pairs self.old)) }
        ensures ok { OnOk result (all_pairs self.new ≡ put key_cmp key location (all_pairs self.old)) }
        ensures before { IfOk result (λ before. before ≡ find key_cmp key (all_pairs self.old)) }
        ensures err { OnErr result (self.new ≡ self.old) }
        ensures bound { OnOk result (length (all_pairs self.new) < 2 ^ 64) }
        ensures held { IsSome (find key_cmp key (all_pairs self.old)) → IsOk result }
    {
        let page = &mut self.list[at];
        match page.place_for(&key) {
            Ok(place) => Ok(Some(page.replace(place, key, location))),
            Err(place) => {
                self.add(at, place, key, location)?;
                Ok(None)
            }
        }
    }

    // Adds the first page, with one key.
    fn begin(&mut self, key: Key, location: Location) -> Result<(), AllocError>
        requires { self.old ≡ [] }
        ensures ok { OnOk result (all_pairs self.new ≡ (key, location) ∷ []) }
        ensures err { OnErr result (self.new ≡ self.old) }
    {
        let page = Page::of_pair(*self.fences.allocator(), key, location)?;
        self.fences.reserve(1)?;
        self.list.reserve(1)?;
        self.fences.push(key)?;
        self.list.push(page)?;
        Ok(())
    }

    // Inserts a new key into its page; splits the page if it is full.
    fn add(
        &mut self,
        at: usize,
        place: usize,
        key: Key,
        location: Location,
    ) -> Result<(), AllocError>
        requires within { at < length self.old }
        requires home { IsHome key self.old at }
        requires gap { IsGapFor (slice_index_or self.old at []) key place }
        ensures ok { OnOk result (all_pairs self.new ≡ put key_cmp key location (all_pairs self.old)) }
        ensures bound { OnOk result (length (all_pairs self.new) < 2 ^ 64) }
        ensures err { OnErr result (self.new ≡ self.old) }
    {
        let page = &mut self.list[at];
        if page.len() == MOST {
            return self.split(at, place, key, location);
        }
        page.insert(place, key, location)?;
        self.fences[at] = page.first();
        Ok(())
    }

    // Inserts a new key into its full page: the upper half becomes the next page.
    fn split(
        &mut self,
        at: usize,
        place: usize,
        key: Key,
        location: Location,
    ) -> Result<(), AllocError>
        requires within { at < length self.old }
        requires home { IsHome key self.old at }
        requires gap { IsGapFor (slice_index_or self.old at []) key place }
        requires full { length (slice_index_or self.old at []) ≡ 256 }
        ensures ok { OnOk result (all_pairs self.new ≡ put key_cmp key location (all_pairs self.old)) }
        ensures bound { OnOk result (length (all_pairs self.new) < 2 ^ 64) }
        ensures err { OnErr result (self.new ≡ self.old) }
    {
        if self.list.len() == MOST_PAGES {
            return Err(AllocError);
        }
        self.fences.reserve(1)?;
        self.list.reserve(1)?;
        let alloc = *self.fences.allocator();
        let page = &mut self.list[at];
        let behind = page.split(alloc, place, key, location)?;
        self.fences[at] = page.first();
        // Does not fail: room for both was reserved.
        self.fences.insert(at + 1, behind.first())?;
        self.list.insert(at + 1, behind)?;
        Ok(())
    }

    /// Changes the location of a key if it is `from`, and returns whether it was. Tries the place
    /// `near` first, and then sets it to the place after the key.
    pub(crate) fn replace_if(
        &mut self,
        key: &Key,
        from: Location,
        to: Location,
        near: &mut Near,
    ) -> bool
        requires { IsTrue (is_sorted key_cmp (all_pairs self.old)) }
        ensures condition { IsTrue result ↔ (find key_cmp key.now (all_pairs self.old) ≡ Some from) }
        ensures replaced { OnTrue result (all_pairs self.new ≡ put key_cmp key.now to (all_pairs self.old)) }
        ensures len { length (all_pairs self.new) ≡ length (all_pairs self.old) }
        ensures unchanged { OnFalse result (self.new ≡ self.old) }
    {
        if let Some(moved) = self.replace_here(key, from, to, near) {
            return moved;
        }
        self.replace_found(key, from, to, near)
    }

    // Same as `replace_if`, by a search.
    fn replace_found(&mut self, key: &Key, from: Location, to: Location, near: &mut Near) -> bool
        requires { IsTrue (is_sorted key_cmp (all_pairs self.old)) }
        ensures condition { IsTrue result ↔ (find key_cmp key.now (all_pairs self.old) ≡ Some from) }
        ensures replaced { OnTrue result (all_pairs self.new ≡ put key_cmp key.now to (all_pairs self.old)) }
        ensures len { length (all_pairs self.new) ≡ length (all_pairs self.old) }
        ensures unchanged { OnFalse result (self.new ≡ self.old) }
    {
        let at = self.home(key);
        if at >= self.list.len() {
            return false;
        }
        near.page = at;
        let page = &mut self.list[at];
        page.replace_if(key, from, to, &mut near.place)
    }

    // Same as `replace_if` for a key at the place `near`; `None` if the key is not there.
    #[inline]
    fn replace_here(
        &mut self,
        key: &Key,
        from: Location,
        to: Location,
        near: &mut Near,
    ) -> Option<bool>
        requires { IsTrue (is_sorted key_cmp (all_pairs self.old)) }
        ensures condition { IfSome result (λ moved. IsTrue moved ↔ (find key_cmp key.now (all_pairs self.old) ≡ Some from)) }
        ensures replaced { IfSome result (λ moved. OnTrue moved (all_pairs self.new ≡ put key_cmp key.now to (all_pairs self.old))) }
        ensures unchanged { IfSome result (λ moved. OnFalse moved (self.new ≡ self.old)) }
        ensures none { IfNone result (self.new ≡ self.old) }
        ensures len { length (all_pairs self.new) ≡ length (all_pairs self.old) }
    {
        let at = near.page;
        if at >= self.list.len() {
            return None;
        }
        let page = &mut self.list[at];
        let moved = page.replace_at(near.place, key, from, to)?;
        near.place += 1;
        Some(moved)
    }

    /// Returns the number of keys whose location is in a log.
    pub(crate) fn count_in(&self, log: u32) -> usize
        ensures { result ≡ count_by (λ pair. pair.1.log == log) (all_pairs self.now) }
    {
        count_log(&self.list, log)
    }

    /// Returns the pages, none of which is empty.
    pub(crate) fn list(&self) -> &[Page]
        ensures value { result.now ≡ self.now }
        ensures filled { All (λ page. 0 < length page) result.now }
    {
        &self.list
    }
}

fn count_log(pages: &[Page], log: u32) -> usize
    requires { sum_by (λ page. count_by (λ pair. pair.1.log == log) page) pages.now < 2 ^ 64 }
    ensures { result ≡ sum_by (λ page. count_by (λ pair. pair.1.log == log) page) pages.now }
{
    pages.iter().map(|page| page.count_in(log)).sum()
}
