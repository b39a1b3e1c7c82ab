//! One page of a write cache: shared payloads by key, sorted by key, each key once.

ghost use Rattle.std.specs.Prelude.{◌≡◌, ◌-◌, ◌<◌, ◌^◌, [], ◌∷◌, length, map, filter, option_map, slice_get, sum_by, IfOk};
ghost use Rattle.std.specs.Map.{values_of};
ghost use Rattle.std.specs.Ordering.{is_lt, is_le};
ghost use Rattle.std.specs.FinMap.{find};
ghost use Rattle.bk_record.specs.Key.{key_cmp};
ghost use Rattle.bk_cache.specs.Rows.{PutTransition};

use bk_record::Key;
use std::alloc::{AllocError, Global};
use std::marker::Model;
use std::sync::Arc;

mod places;

use places::{place_for, place_near, place_of};

/// A key and its payload.
pub(crate) type Pair = (Key, Arc<Vec<u8>>);

/// Pairs of a key and a payload, sorted by key.
#[derive(Drop)]
pub(crate) struct Page {
    pairs: Vec<(Key, Arc<Vec<u8>>)>,
}

impl Model for Page {
    ghost use Rattle.std.specs.Prelude.{IsTrue, List, map};
    ghost use Rattle.std.specs.FinMap.{is_sorted};
    ghost use Rattle.bk_record.specs.Key.{key_cmp};
    ghost use Rattle.bk_cache.specs.Recents.{Entry};
    ghost use Rattle.bk_cache.specs.Rows.{entries_code};

    ghost Value = { List Entry };

    ghost coded = { entries_code };

    ghost view = { λ page. map (λ e. (e.0, e.1.value.items)) page.pairs.items };

    ghost invariant = { λ page. IsTrue (is_sorted key_cmp page.pairs.items) };
}

impl Page {
    /// Returns a page of one pair, with room for a second one.
    pub(crate) fn of_pair(
        alloc: Global,
        key: Key,
        payload: Arc<Vec<u8>>,
    ) -> Result<Page, AllocError>
        ensures { IfOk result (λ page. page ≡ (key, payload.value.items) ∷ []) }
    {
        let mut pairs = Vec::with_capacity(alloc, 2)?;
        pairs.push((key, payload))?;
        Ok(Page { pairs })
    }

    /// Returns the number of pairs.
    pub(crate) fn len(&self) -> usize
        ensures { result ≡ length self.now }
    {
        self.pairs.len()
    }

    /// Returns the payload of a key.
    #[inline]
    pub(crate) fn get(&self, key: &Key) -> Option<&Arc<Vec<u8>>>
        ensures { option_map (λ payload. payload.now.value.items) result ≡ find key_cmp key.now self.now }
    {
        match place_of(&self.pairs, key) {
            Ok(place) => Some(&self.pairs[place].1),
            Err(_) => None,
        }
    }

    /// Adds a payload under a new key. Returns `false` if the page has the key. Unless the payload
    /// is added, the page is unchanged.
    pub(crate) fn put(&mut self, key: Key, payload: Arc<Vec<u8>>) -> Result<bool, AllocError>
        ensures { PutTransition self.old key payload.value.items result self.new }
    {
        match place_for(&self.pairs, &key) {
            Ok(_) => Ok(false),
            Err(place) => {
                self.pairs.insert(place, (key, payload))?;
                Ok(true)
            }
        }
    }

    /// Returns the first pair from a key on.
    pub(crate) fn first_from(&self, key: &Key) -> Option<(Key, &Arc<Vec<u8>>)>
        ensures { option_map (λ e. (e.0, e.1.now.value.items)) result ≡ slice_get (filter (λ e. is_le (key_cmp key.now e.0)) self.now) 0 }
    {
        match place_of(&self.pairs, key) {
            Ok(place) => self.at(place),
            Err(place) => self.at(place),
        }
    }

    /// Returns the first pair after a key. Looks for the key at the place `near` first, and sets
    /// it to the place of the result.
    pub(crate) fn first_after(&self, key: &Key, near: &mut usize) -> Option<(Key, &Arc<Vec<u8>>)>
        ensures { option_map (λ e. (e.0, e.1.now.value.items)) result ≡ slice_get (filter (λ e. is_lt (key_cmp key.now e.0)) self.now) 0 }
    {
        match place_near(&self.pairs, key, *near) {
            Ok(place) => {
                *near = place + 1;
                self.at(place + 1)
            }
            Err(place) => {
                *near = place;
                self.at(place)
            }
        }
    }

    // The pair at a place.
    fn at(&self, place: usize) -> Option<(Key, &Arc<Vec<u8>>)>
        ensures { option_map (λ e. (e.0, e.1.now.value.items)) result ≡ slice_get self.now place }
    {
        let (key, payload) = self.pairs.get(place)?;
        Some((*key, payload))
    }

    /// Returns the first pair.
    pub(crate) fn first(&self) -> Option<(Key, &Arc<Vec<u8>>)>
        ensures { option_map (λ e. (e.0, e.1.now.value.items)) result ≡ slice_get self.now 0 }
    {
        self.at(0)
    }

    /// Returns the last key.
    pub(crate) fn last(&self) -> Option<Key>
        ensures { result ≡ option_map (λ e. e.0) (slice_get self.now (length self.now - 1)) }
    {
        let (key, _) = self.pairs.last()?;
        Some(*key)
    }

    /// Returns the sum of the payloads' sizes in bytes.
    pub(crate) fn bytes(&self) -> u64
        requires { sum_by length (values_of self.now) < 2 ^ 64 }
        ensures { result ≡ sum_by length (values_of self.now) }
    {
        bytes_of(&self.pairs)
    }

    /// Returns the pairs, sorted by key.
    pub(crate) fn pairs(&self) -> &[Pair]
        ensures { map (λ e. (e.0, e.1.value.items)) result.now ≡ self.now }
    {
        &self.pairs
    }
}

// The sum of the payloads' sizes.
fn bytes_of(pairs: &[Pair]) -> u64
    requires { sum_by (λ e. length e.1.value.items) pairs.now < 2 ^ 64 }
    ensures { result ≡ sum_by (λ e. length e.1.value.items) pairs.now }
{
    pairs.iter().map(|(_, payload)| payload.len() as u64).sum()
}
