//! Packed form of a page: pairs of one ledger, with near entry ids. A pair takes 12 bytes.

ghost use Rattle.std.specs.Prelude.{◌≡◌, ◌<◌, ◌+◌, ◌^◌, [], ◌∷◌, ◌++◌, length, not, ◌==◌, count_by, filter, Some, None, IsTrue, IfOk, IfErr, IfSome, OnOk, OnErr, if◌then◌else◌};
ghost use Rattle.std.specs.Bool.{OnTrue, OnFalse};
ghost use Rattle.std.specs.FinMap.{find, put};
ghost use Rattle.bk_record.specs.Key.{EntryKey, key_cmp};
ghost use Rattle.bk_index.specs.Sorted.{IsAt, IsGapFor};
ghost use Rattle.bk_index.specs.Pages.{first_key};

use super::halves::{MOST, halves};
use super::logs::{UNKNOWN, joint};
use super::offset::{base_of, entry_at, key_at, offset_in};
use super::part::Part;
use super::plain::Plain;
use bk_record::{Key, Location};
use std::alloc::{AllocError, Global};
use std::marker::Model;

mod convert;
mod in_order;
mod runs;

/// Pairs of a key and a location, sorted by key, all of one ledger. Each is a cell: the offset of
/// its entry id from `base`, and its location.
#[derive(Debug, Drop)]
pub(crate) struct Packed {
    ledger: u64,
    base: u64,
    /// The log of all locations if it is known, else `UNKNOWN`.
    log: u32,
    cells: Vec<(u32, Location)>,
}

impl Model for Packed {
    ghost use Rattle.std.specs.Prelude.{◌<◌, ◌≤◌, ◌+◌, ◌^◌, IsTrue, List};
    ghost use Rattle.std.specs.FinMap.{is_sorted};
    ghost use Rattle.bk_record.specs.Key.{EntryKey, key_cmp};
    ghost use Rattle.bk_record.specs.Location.{Place};
    ghost use Rattle.bk_index.specs.Packed.{cell_pairs, AreInLog};

    ghost Value = { List (EntryKey × Place) };

    ghost view = { λ page. cell_pairs page.ledger page.base page.cells.items };

    ghost invariant = { λ page. (page.ledger < 2 ^ 63) × (page.base + 2 ^ 32 ≤ 2 ^ 63)
        × IsTrue (is_sorted key_cmp (cell_pairs page.ledger page.base page.cells.items))
        × AreInLog page.log page.cells.items };
}

impl Packed {
    /// Returns a page of one pair.
    pub(crate) fn of_pair(alloc: Global, key: Key, location: Location) -> Result<Packed, AllocError>
        ensures { IfOk result (λ page. page ≡ (key, location) ∷ []) }
    {
        let ledger = key.ledger();
        let base = base_of(key.entry());
        let mut cells = Vec::new(alloc);
        cells.push(((key.entry() - base) as u32, location))?;
        Ok(Packed {
            ledger,
            base,
            log: location.log(),
            cells,
        })
    }

    /// Returns the number of pairs.
    pub(crate) fn len(&self) -> usize
        ensures { result ≡ length self.now }
    {
        self.cells.len()
    }

    /// Returns the key of the first pair.
    pub(crate) fn first(&self) -> Key
        requires { 0 < length self.now }
        ensures { result ≡ first_key self.now }
    {
        key_at(self.ledger, self.base, self.cells[0].0)
    }

    /// Returns the pairs, sorted by key.
    pub(crate) fn pairs(&self) -> Part<'_>
        ensures { result ≡ self.now }
    {
        Part::of_cells(self.ledger, self.base, self.log, &self.cells)
    }

    /// Returns the pairs of a ledger: all or none.
    pub(crate) fn of_ledger(&self, ledger: u64) -> Part<'_>
        ensures { result ≡ filter (λ pair. pair.0.ledger == ledger) self.now }
    {
        if self.ledger == ledger {
            self.pairs()
        } else {
            Part::empty()
        }
    }

    /// Returns the place of a key, or the place where it would be inserted.
    #[inline]
    pub(crate) fn place_of(&self, key: &Key) -> Result<usize, usize>
        ensures found { IfOk result (IsAt self.now key.now) }
        ensures absent { IfErr result (IsGapFor self.now key.now) }
        ensures none { IfErr result (λ _. find key_cmp key.now self.now ≡ None) }
    {
        let Some(offset) = offset_in(self.ledger, self.base, key) else {
            // The key is after all others or before them.
            let Some(&(last, _)) = self.cells.last() else {
                return Err(0);
            };
            if key_at(self.ledger, self.base, last) < *key {
                return Err(self.cells.len());
            }
            return Err(0);
        };
        let guess = self.guess(offset);
        if self.has_at(key, guess) {
            return Ok(guess);
        }
        self.cells.binary_search_by_key(&offset, |&(held, _)| held)
    }

    // Returns the place of an offset if the entry ids have no gap before it.
    #[inline]
    fn guess(&self, offset: u32) -> usize {
        match self.cells.first() {
            Some(&(first, _)) => offset.wrapping_sub(first) as usize,
            None => 0,
        }
    }

    /// Same as `place_of`, for a key to be inserted. Keys mostly rise, so it tries the end first.
    pub(crate) fn place_for(&self, key: &Key) -> Result<usize, usize>
        ensures found { IfOk result (IsAt self.now key.now) }
        ensures absent { IfErr result (IsGapFor self.now key.now) }
    {
        let count = self.cells.len();
        if let Some(offset) = offset_in(self.ledger, self.base, key) {
            if count > 0 && self.cells[count - 1].0 < offset {
                return Err(count);
            }
        }
        self.place_of(key)
    }

    /// Whether the pair at this place has the key.
    #[inline]
    pub(crate) fn has_at(&self, key: &Key, place: usize) -> bool
        ensures { IsTrue result → IsAt self.now key.now place }
    {
        let Some(&(offset, _)) = self.cells.get(place) else {
            return false;
        };
        key.ledger() == self.ledger && key.entry() == entry_at(self.base, offset)
    }

    /// Returns the location of the key at a place.
    pub(crate) fn location(&self, place: usize) -> Location
        requires { place < length self.now }
        ensures value { (key : EntryKey) → IsAt self.now key place → find key_cmp key self.now ≡ Some result }
        ensures next { place + 1 < 2 ^ 64 }
    {
        self.cells[place].1
    }

    /// Sets the location of the key at a place and returns the one before.
    pub(crate) fn replace(&mut self, place: usize, key: Key, to: Location) -> Location
        requires { IsAt self.old key place }
        ensures replaced { self.new ≡ put key_cmp key to self.old }
        ensures len { length self.new ≡ length self.old }
        ensures first { first_key self.new ≡ first_key self.old }
        ensures before { find key_cmp key self.old ≡ Some result }
    {
        let (offset, before) = self.cells[place];
        self.cells[place] = (offset, to);
        self.log = UNKNOWN;
        before
    }

    /// Adds a key after all others, and returns whether it did: if the page is not full, the key is
    /// after all others and has an offset. Otherwise nothing changes. If an allocation fails, the
    /// page is unchanged.
    #[inline]
    pub(crate) fn push(&mut self, key: &Key, location: Location) -> Result<bool, AllocError>
        ensures pushed { IfOk result (λ pushed. OnTrue pushed (self.new ≡ put key_cmp key.now location self.old)) }
        ensures absent { IfOk result (λ pushed. OnTrue pushed (find key_cmp key.now self.old ≡ None)) }
        ensures failed { OnErr result (find key_cmp key.now self.old ≡ None) }
        ensures room { IfOk result (λ pushed. OnTrue pushed (length self.old < 256)) }
        ensures len { IfOk result (λ pushed. OnTrue pushed (length self.new ≡ length self.old + 1)) }
        ensures first { IfOk result (λ pushed. OnTrue pushed (first_key self.new ≡ first_key self.old)) }
        ensures unchanged { IfOk result (λ pushed. OnFalse pushed (self.new ≡ self.old)) }
        ensures err { OnErr result (self.new ≡ self.old) }
    {
        let Some(offset) = offset_in(self.ledger, self.base, key) else {
            return Ok(false);
        };
        let count = self.cells.len();
        if count == 0 || count >= MOST || self.cells[count - 1].0 >= offset {
            return Ok(false);
        }
        self.cells.push((offset, location))?;
        self.log = joint(self.log, &location);
        Ok(true)
    }

    /// Inserts a new key at its place, and returns whether it has an offset; otherwise nothing
    /// changes. If an allocation fails, the page is unchanged.
    pub(crate) fn insert(
        &mut self,
        place: usize,
        key: &Key,
        location: Location,
    ) -> Result<bool, AllocError>
        requires { IsGapFor self.old key.now place }
        ensures ok { IfOk result (λ fits. self.new ≡ (if fits then put key_cmp key.now location self.old else self.old)) }
        ensures len { IfOk result (λ fits. length self.new ≡ (if fits then length self.old + 1 else length self.old)) }
        ensures err { OnErr result (self.new ≡ self.old) }
    {
        match offset_in(self.ledger, self.base, key) {
            Some(offset) => {
                self.cells.insert(place, (offset, location))?;
                self.log = UNKNOWN;
                Ok(true)
            }
            None => Ok(false),
        }
    }

    /// Returns the two halves of a full page with a new key, or `None` if the key has no offset.
    pub(crate) fn halves(
        &self,
        place: usize,
        key: &Key,
        location: Location,
    ) -> Result<Option<(Packed, Packed)>, AllocError>
        requires gap { IsGapFor self.now key.now place }
        requires full { length self.now ≡ 256 }
        ensures ok { IfOk result (λ parts. IfSome parts (λ parts. parts.0 ++ parts.1 ≡ put key_cmp key.now location self.now)) }
        ensures stay { IfOk result (λ parts. IfSome parts (λ parts. length parts.0 ≡ 128)) }
        ensures behind { IfOk result (λ parts. IfSome parts (λ parts. length parts.1 ≡ 129)) }
    {
        let Some(offset) = offset_in(self.ledger, self.base, key) else {
            return Ok(None);
        };
        let alloc = *self.cells.allocator();
        let (lower, upper) = halves(alloc, &self.cells, place, (offset, location))?;
        let lower = Packed {
            ledger: self.ledger,
            base: self.base,
            log: UNKNOWN,
            cells: lower,
        };
        let upper = Packed {
            ledger: self.ledger,
            base: self.base,
            log: UNKNOWN,
            cells: upper,
        };
        Ok(Some((lower, upper)))
    }

    /// Removes the keys of a ledger, all or none, and returns their number.
    pub(crate) fn drop_ledger(&mut self, ledger: u64) -> usize
        ensures left { self.new ≡ filter (λ pair. not (pair.0.ledger == ledger)) self.old }
        ensures count { length self.new + result ≡ length self.old }
    {
        if self.ledger != ledger {
            return 0;
        }
        let dropped = self.cells.len();
        self.cells.clear();
        dropped
    }

    /// Returns the number of keys whose location is in a log.
    pub(crate) fn count_in(&self, log: u32) -> usize
        ensures { result ≡ count_by (λ pair. pair.1.log == log) self.now }
    {
        self.cells
            .iter()
            .filter(|(_, location)| location.log() == log)
            .count()
    }
}
