//! Plain form of a page: pairs of any keys. A pair takes 24 bytes.

ghost use Rattle.std.specs.Prelude.{◌≡◌, ◌<◌, ◌+◌, ◌^◌, ◌++◌, length, not, ◌==◌, count_by, filter, Some, None, IsTrue, IfOk, IfErr, IfSome, OnOk, OnErr};
ghost use Rattle.std.specs.FinMap.{find, put, is_sorted};
ghost use Rattle.bk_record.specs.Key.{EntryKey, key_cmp};
ghost use Rattle.bk_index.specs.Sorted.{IsAt, IsGapFor};
ghost use Rattle.bk_index.specs.Pages.{first_key};

use super::halves::halves;
use super::packed::Packed;
use super::part::Part;
use bk_record::{Key, Location};
use std::alloc::AllocError;
use std::cmp::Ordering;
use std::marker::Model;

mod in_order;

pub(crate) use in_order::is_before;

/// Pairs of a key and a location, sorted by key.
#[derive(Debug, Drop)]
pub(crate) struct Plain {
    pairs: Vec<(Key, Location)>,
}

impl Model for Plain {
    ghost use Rattle.std.specs.Prelude.{IsTrue, List};
    ghost use Rattle.std.specs.FinMap.{is_sorted};
    ghost use Rattle.bk_record.specs.Key.{EntryKey, key_cmp};
    ghost use Rattle.bk_record.specs.Location.{Place};

    ghost Value = { List (EntryKey × Place) };

    ghost view = { λ page. page.pairs.items };

    ghost invariant = { λ page. IsTrue (is_sorted key_cmp page.pairs.items) };
}

impl Plain {
    /// Returns the page of these pairs, which are sorted by key.
    pub(crate) fn of_pairs(pairs: Vec<(Key, Location)>) -> Plain
        requires { IsTrue (is_sorted key_cmp pairs.items) }
        ensures { result ≡ pairs.items }
    {
        Plain { pairs }
    }

    /// Returns the number of pairs.
    pub(crate) fn len(&self) -> usize
        ensures { result ≡ length self.now }
    {
        self.pairs.len()
    }

    /// Returns the key of the first pair.
    pub(crate) fn first(&self) -> Key
        requires { 0 < length self.now }
        ensures { result ≡ first_key self.now }
    {
        self.pairs[0].0
    }

    /// Returns the pairs, sorted by key.
    pub(crate) fn pairs(&self) -> Part<'_>
        ensures { result ≡ self.now }
    {
        Part::of_pairs(&self.pairs)
    }

    /// Returns the pairs of a ledger, which are adjacent.
    pub(crate) fn of_ledger(&self, ledger: u64) -> Part<'_>
        ensures { result ≡ filter (λ pair. pair.0.ledger == ledger) self.now }
    {
        let from = self.pairs.partition_point(|(key, _)| key.ledger() < ledger);
        let behind = &self.pairs[from..];
        Part::of_pairs(&behind[..behind.partition_point(|(key, _)| key.ledger() <= ledger)])
    }

    /// Returns the place of a key, or the place where it would be inserted.
    #[inline]
    pub(crate) fn place_of(&self, key: &Key) -> Result<usize, usize>
        ensures found { IfOk result (IsAt self.now key.now) }
        ensures absent { IfErr result (IsGapFor self.now key.now) }
        ensures none { IfErr result (λ _. find key_cmp key.now self.now ≡ None) }
    {
        self.pairs.binary_search_by_key(key, |&(held, _)| held)
    }

    /// Same as `place_of`, for a key to be inserted. Keys mostly rise, so it tries the end first.
    pub(crate) fn place_for(&self, key: &Key) -> Result<usize, usize>
        ensures found { IfOk result (IsAt self.now key.now) }
        ensures absent { IfErr result (IsGapFor self.now key.now) }
    {
        let count = self.pairs.len();
        if count > 0 && self.pairs[count - 1].0 < *key {
            return Err(count);
        }
        self.place_of(key)
    }

    /// Whether the pair at this place has the key.
    pub(crate) fn has_at(&self, key: &Key, place: usize) -> bool
        ensures { IsTrue result → IsAt self.now key.now place }
    {
        let Some(pair) = self.pairs.get(place) else {
            return false;
        };
        matches!(pair.0.cmp(key), Ordering::Equal)
    }

    /// Returns the location of the key at a place.
    pub(crate) fn location(&self, place: usize) -> Location
        requires { place < length self.now }
        ensures value { (key : EntryKey) → IsAt self.now key place → find key_cmp key self.now ≡ Some result }
        ensures next { place + 1 < 2 ^ 64 }
    {
        self.pairs[place].1
    }

    /// Sets the location of the key at a place and returns the one before.
    pub(crate) fn replace(&mut self, place: usize, key: Key, to: Location) -> Location
        requires { IsAt self.old key place }
        ensures replaced { self.new ≡ put key_cmp key to self.old }
        ensures len { length self.new ≡ length self.old }
        ensures first { first_key self.new ≡ first_key self.old }
        ensures before { find key_cmp key self.old ≡ Some result }
    {
        let before = self.pairs[place].1;
        self.pairs[place] = (key, to);
        before
    }

    /// Inserts a new key at its place. If an allocation fails, the page is unchanged.
    pub(crate) fn insert(
        &mut self,
        place: usize,
        key: Key,
        location: Location,
    ) -> Result<(), AllocError>
        requires { IsGapFor self.old key place }
        ensures ok { OnOk result (self.new ≡ put key_cmp key location self.old) }
        ensures len { OnOk result (length self.new ≡ length self.old + 1) }
        ensures err { OnErr result (self.new ≡ self.old) }
    {
        self.pairs.insert(place, (key, location))?;
        Ok(())
    }

    /// Returns the two halves of a full page with a new key.
    pub(crate) fn halves(
        &self,
        place: usize,
        key: Key,
        location: Location,
    ) -> Result<(Plain, Plain), AllocError>
        requires gap { IsGapFor self.now key place }
        requires full { length self.now ≡ 256 }
        ensures ok { IfOk result (λ parts. parts.0 ++ parts.1 ≡ put key_cmp key location self.now) }
        ensures stay { IfOk result (λ parts. length parts.0 ≡ 128) }
        ensures behind { IfOk result (λ parts. length parts.1 ≡ 129) }
    {
        let alloc = *self.pairs.allocator();
        let (lower, upper) = halves(alloc, &self.pairs, place, (key, location))?;
        Ok((Plain { pairs: lower }, Plain { pairs: upper }))
    }

    /// Returns the same pairs in packed form, or `None` if they do not fit it.
    pub(crate) fn packed(&self, room: usize) -> Result<Option<Packed>, AllocError>
        ensures { IfOk result (λ packed. IfSome packed (λ packed. packed ≡ self.now)) }
    {
        Packed::of_pairs(*self.pairs.allocator(), &self.pairs, room)
    }

    /// Removes the keys of a ledger and returns their number.
    pub(crate) fn drop_ledger(&mut self, ledger: u64) -> usize
        ensures left { self.new ≡ filter (λ pair. not (pair.0.ledger == ledger)) self.old }
        ensures count { length self.new + result ≡ length self.old }
    {
        let before = self.pairs.len();
        self.pairs.retain(|(key, _)| key.ledger() != ledger);
        before - self.pairs.len()
    }

    /// Returns the number of keys whose location is in a log.
    pub(crate) fn count_in(&self, log: u32) -> usize
        ensures { result ≡ count_by (λ pair. pair.1.log == log) self.now }
    {
        self.pairs
            .iter()
            .filter(|(_, location)| location.log() == log)
            .count()
    }
}
