//! The index: a finite map from keys to locations, in pages of up to 256 entries.

ghost use Rattle.std.specs.Prelude.{◌≡◌, ◌↔◌, ◌==◌, ◌≤◌, ◌^◌, length, filter, map as each, Some, IsTrue, IsSome, IsOk, IfOk, OnOk, OnErr};
ghost use Rattle.std.specs.Bool.{OnTrue, OnFalse};
ghost use Rattle.std.specs.FinMap as map;
ghost use Rattle.bk_index.specs.Keyed.{without_ledger, ledger_count, log_count};
ghost use Rattle.bk_index.specs.Pages.{all_pairs, ArePageLens};

use crate::page::Part;
use crate::{Near, Pages, Walk};
use bk_record::{Key, Location};
use std::alloc::{AllocError, Global};
use std::marker::Model;

mod in_order;
mod runs;

// No page has this number: a search hint that names none.
const NO_PAGE: usize = usize::MAX;

/// Finite map from keys to locations.
#[derive(Debug, Drop)]
pub struct Index {
    pages: Pages,
    len: usize,
    /// Search hint: the place after the last key that was replaced.
    near: Near,
}

impl Model for Index {
    ghost use Rattle.std.specs.FinMap as map;
    ghost use Rattle.bk_index.specs.Keyed.{Places, places_code};
    ghost use Rattle.bk_index.specs.Pages.{all_pairs, AreCounted};

    ghost Value = { Places };

    ghost coded = { places_code };

    ghost view = { λ index. map.from_sorted (all_pairs index.pages) };

    ghost invariant = { λ index. AreCounted index.pages index.len };
}

impl Index {
    /// Returns an empty index. Does not allocate.
    pub fn new(alloc: Global) -> Index
        ensures { result ≡ map.empty }
    {
        Index {
            pages: Pages::new(alloc),
            len: 0,
            near: Near::start(),
        }
    }

    /// Returns the number of keys.
    pub fn len(&self) -> usize
        ensures { result ≡ map.len self.now }
    {
        self.len
    }

    /// Returns whether the index has no key.
    pub fn is_empty(&self) -> bool
        ensures { IsTrue result ↔ (self.now ≡ map.empty) }
    {
        self.len == 0
    }

    /// Returns the location of a key, or `None` if the index does not have it.
    #[inline]
    pub fn get(&self, key: &Key) -> Option<Location>
        ensures { result ≡ map.get self.now key.now }
    {
        self.pages.get(key)
    }

    /// Returns the location of a key, or `None`, with a search hint for the next call.
    ///
    /// The key right after that of the last call, in the same page, is found without a search. The
    /// hint does not change the result.
    pub fn get_near(&self, key: &Key, near: &mut Near) -> Option<Location>
        ensures { result ≡ map.get self.now key.now }
    {
        self.pages.get_near(key, near)
    }

    /// Sets the location of a key and returns the location before.
    ///
    /// # Errors
    ///
    /// - `AllocError` if an allocation fails, only for a new key; the index is unchanged.
    pub fn insert(&mut self, key: Key, location: Location) -> Result<Option<Location>, AllocError>
        ensures ok { OnOk result (self.new ≡ map.insert self.old key location) }
        ensures before { IfOk result (λ before. before ≡ map.get self.old key) }
        ensures err { OnErr result (self.new ≡ self.old) }
        ensures held { IsSome (map.get self.old key) → IsOk result }
    {
        let mut page = NO_PAGE;
        self.insert_near(key, location, &mut page)
    }

    // Same as `insert`. Tries the page of this number first, and sets it to that of the key.
    #[inline(always)]
    fn insert_near(
        &mut self,
        key: Key,
        location: Location,
        page: &mut usize,
    ) -> Result<Option<Location>, AllocError>
        ensures ok { OnOk result (self.new ≡ map.insert self.old key location) }
        ensures before { IfOk result (λ before. before ≡ map.get self.old key) }
        ensures err { OnErr result (self.new ≡ self.old) }
        ensures held { IsSome (map.get self.old key) → IsOk result }
    {
        match self.pages.insert(key, location, page)? {
            Some(before) => Ok(Some(before)),
            None => {
                self.len += 1;
                Ok(None)
            }
        }
    }

    /// Changes the location of a key from `from` to `to`.
    ///
    /// Returns `true` exactly if the location of the key was `from`; otherwise nothing changes. The
    /// key right after the one replaced last, in the same page, is found without a search.
    pub fn replace_if(&mut self, key: &Key, from: Location, to: Location) -> bool
        ensures condition { IsTrue result ↔ (map.get self.old key.now ≡ Some from) }
        ensures replaced { OnTrue result (self.new ≡ map.insert self.old key.now to) }
        ensures unchanged { OnFalse result (self.new ≡ self.old) }
    {
        self.pages.replace_if(key, from, to, &mut self.near)
    }

    /// Removes the keys of a ledger and returns their number. Any number can be given as ledger.
    pub fn drop_ledger(&mut self, ledger: u64) -> u64
        ensures left { self.new ≡ without_ledger self.old ledger }
        ensures count { result ≡ ledger_count self.old ledger }
    {
        let dropped = self.pages.drop_ledger(ledger);
        self.len -= dropped;
        dropped as u64
    }

    /// Returns an iterator over the keys and their locations, by ledger, then entry.
    pub fn walk(&self) -> Walk<'_>
        ensures { result ≡ map.entries self.now }
    {
        Walk::over(Part::empty(), self.pages.list(), Part::empty())
    }

    /// Returns an iterator over the keys of one ledger and their locations, by entry: at most 2^63.
    /// Pages without a key of the ledger are not visited.
    pub fn walk_ledger(&self, ledger: u64) -> Walk<'_>
        ensures items { result ≡ filter (λ pair. pair.0.ledger == ledger) (map.entries self.now) }
        ensures bound { length result ≤ 2 ^ 63 }
    {
        self.pages.walk_ledger(ledger)
    }

    /// Returns the number of keys whose location is in a log.
    pub fn count_in(&self, log: u32) -> u64
        ensures { result ≡ log_count self.now log }
    {
        self.pages.count_in(log) as u64
    }

    /// Returns the pages of the entries: their number by `len`, the length of each by `page_len`.
    /// The lengths are from 1 to 256 and add up to the number of keys.
    pub fn as_pages(&self) -> &Pages
        ensures items { all_pairs result.now ≡ map.entries self.now }
        ensures lens { ArePageLens (each length result.now) (map.len self.now) }
    {
        // Lemma: the pages' sizes.
        let _pages = self.pages.len();
        &self.pages
    }
}
