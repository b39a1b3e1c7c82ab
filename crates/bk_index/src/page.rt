//! One page of the index: pairs of a key and a location, sorted by key, each key once.

ghost use Rattle.std.specs.Prelude.{◌≡◌, ◌↔◌, ◌<◌, ◌+◌, ◌-◌, ◌^◌, [], ◌∷◌, ◌++◌, length, not, ◌==◌, count_by, filter, slice_get, option_map, nat_le};
ghost use Rattle.std.specs.Prelude.{Some, None, IsTrue, IsSome, IfSome, IfOk, IfErr, OnOk, OnErr};
ghost use Rattle.std.specs.Bool.{OnTrue, OnFalse};
ghost use Rattle.std.specs.Ordering.{is_lt};
ghost use Rattle.std.specs.FinMap.{find, put};
ghost use Rattle.bk_record.specs.Key.{EntryKey, key_cmp};
ghost use Rattle.bk_index.specs.Sorted.{IsAt, IsGapFor};
ghost use Rattle.bk_index.specs.Pages.{first_key};

use bk_record::{Key, Location};
use std::alloc::{AllocError, Global};
use std::marker::Model;

mod edits;
mod halves;
mod logs;
mod offset;
mod packed;
mod part;
mod plain;

pub(crate) use halves::{LOWER, MOST};
use packed::Packed;
pub(crate) use part::Part;
use plain::Plain;
pub(crate) use plain::is_before;

/// Pairs of a key and a location, sorted by key.
///
/// A page is packed until it gets a key of another ledger, or one whose entry id differs in the
/// upper 32 bits.
#[derive(Debug, Drop)]
pub(crate) struct Page {
    form: Box<Form>,
}

#[derive(Debug, Drop)]
enum Form {
    Packed(Packed),
    Plain(Plain),
}

impl Model for Page {
    ghost use Rattle.std.specs.Prelude.{List};
    ghost use Rattle.bk_record.specs.Key.{EntryKey};
    ghost use Rattle.bk_record.specs.Location.{Place};

    ghost Value = { List (EntryKey × Place) };

    ghost use Rattle.bk_index.specs.Forms.{form_pairs};

    ghost view = { λ page. form_pairs page.form.value };
}

impl Page {
    /// Returns a page of one pair.
    pub(crate) fn of_pair(alloc: Global, key: Key, location: Location) -> Result<Page, AllocError>
        ensures { IfOk result (λ page. page ≡ (key, location) ∷ []) }
    {
        let packed = Packed::of_pair(alloc, key, location)?;
        Page::of_form(alloc, Form::Packed(packed))
    }

    /// Returns the number of pairs.
    pub(crate) fn len(&self) -> usize
        ensures { result ≡ length self.now }
    {
        match &*self.form {
            Form::Packed(packed) => packed.len(),
            Form::Plain(plain) => plain.len(),
        }
    }

    /// Returns the key of the first pair.
    pub(crate) fn first(&self) -> Key
        requires { 0 < length self.now }
        ensures { result ≡ first_key self.now }
    {
        match &*self.form {
            Form::Packed(packed) => packed.first(),
            Form::Plain(plain) => plain.first(),
        }
    }

    /// Returns the pairs, sorted by key.
    pub(crate) fn pairs(&self) -> Part<'_>
        ensures { result ≡ self.now }
    {
        match &*self.form {
            Form::Packed(packed) => packed.pairs(),
            Form::Plain(plain) => plain.pairs(),
        }
    }

    /// Returns the pairs of a ledger, which are adjacent.
    pub(crate) fn of_ledger(&self, ledger: u64) -> Part<'_>
        ensures { result ≡ filter (λ pair. pair.0.ledger == ledger) self.now }
    {
        match &*self.form {
            Form::Packed(packed) => packed.of_ledger(ledger),
            Form::Plain(plain) => plain.of_ledger(ledger),
        }
    }

    /// Returns the least key that is not before this ledger and entry.
    pub(crate) fn first_from(&self, ledger: u64, entry: u64) -> Option<Key>
        ensures { result ≡ option_map (λ pair. pair.0)
            (slice_get (filter (λ pair. not (is_lt (key_cmp pair.0 (record { ledger = ledger; entry = entry })))) self.now) 0) }
    {
        match &*self.form {
            Form::Packed(packed) => packed.first_from(ledger, entry),
            Form::Plain(plain) => plain.first_from(ledger, entry),
        }
    }

    /// Returns the greatest key whose ledger is at most this one.
    pub(crate) fn last_upto(&self, ledger: u64) -> Option<Key>
        ensures { let upto = filter (λ pair. nat_le pair.0.ledger ledger) self.now in
            result ≡ option_map (λ pair. pair.0) (slice_get upto (length upto - 1)) }
    {
        match &*self.form {
            Form::Packed(packed) => packed.last_upto(ledger),
            Form::Plain(plain) => plain.last_upto(ledger),
        }
    }

    // Returns the place of a key, or the place where it would be inserted.
    #[inline]
    fn place_of(&self, key: &Key) -> Result<usize, usize>
        ensures found { IfOk result (IsAt self.now key.now) }
        ensures none { IfErr result (λ _. find key_cmp key.now self.now ≡ None) }
    {
        match &*self.form {
            Form::Packed(packed) => packed.place_of(key),
            Form::Plain(plain) => plain.place_of(key),
        }
    }

    /// Returns the place of a key, or the place where it would be inserted. Keys mostly rise, so it
    /// tries the end first.
    #[inline(always)]
    pub(crate) fn place_for(&self, key: &Key) -> Result<usize, usize>
        ensures found { IfOk result (IsAt self.now key.now) }
        ensures absent { IfErr result (IsGapFor self.now key.now) }
    {
        match &*self.form {
            Form::Packed(packed) => packed.place_for(key),
            Form::Plain(plain) => plain.place_for(key),
        }
    }

    /// Whether the page, as it is, has no room for a new key: it has 256, or the key does not fit the
    /// packed form. A plain page has none.
    pub(crate) fn is_full_for(&self, key: &Key) -> bool {
        match &*self.form {
            Form::Packed(packed) => packed.is_full_for(key),
            Form::Plain(_) => true,
        }
    }

    /// Whether the pair at this place has the key.
    #[inline]
    pub(crate) fn has_at(&self, key: &Key, place: usize) -> bool
        ensures { IsTrue result → IsAt self.now key.now place }
    {
        match &*self.form {
            Form::Packed(packed) => packed.has_at(key, place),
            Form::Plain(plain) => plain.has_at(key, place),
        }
    }

    // Returns the location of the key at a place.
    #[inline]
    fn location(&self, place: usize) -> Location
        requires { place < length self.now }
        ensures value { (key : EntryKey) → IsAt self.now key place → find key_cmp key self.now ≡ Some result }
        ensures next { place + 1 < 2 ^ 64 }
    {
        match &*self.form {
            Form::Packed(packed) => packed.location(place),
            Form::Plain(plain) => plain.location(place),
        }
    }

    /// Returns the location of a key, or `None`.
    #[inline]
    pub(crate) fn get(&self, key: &Key) -> Option<Location>
        ensures { result ≡ find key_cmp key.now self.now }
    {
        match self.place_of(key) {
            Ok(place) => Some(self.location(place)),
            Err(_) => None,
        }
    }

    /// Same as `get`, and sets `near` to the place after the key.
    pub(crate) fn get_near(&self, key: &Key, near: &mut usize) -> Option<Location>
        ensures { result ≡ find key_cmp key.now self.now }
    {
        match self.place_of(key) {
            Ok(place) => {
                let location = self.location(place);
                *near = place + 1;
                Some(location)
            }
            Err(_) => None,
        }
    }

    /// Returns the location of a key if it is at this place; otherwise `None`.
    #[inline]
    pub(crate) fn get_at(&self, key: &Key, place: usize) -> Option<Location>
        ensures here { IsSome result → IsAt self.now key.now place }
        ensures value { IfSome result (λ location. find key_cmp key.now self.now ≡ Some location) }
        ensures next { IsSome result → place + 1 < 2 ^ 64 }
    {
        if !self.has_at(key, place) {
            return None;
        }
        Some(self.location(place))
    }

    /// Returns the number of keys whose location is in a log.
    pub(crate) fn count_in(&self, log: u32) -> usize
        ensures { result ≡ count_by (λ pair. pair.1.log == log) self.now }
    {
        match &*self.form {
            Form::Packed(packed) => packed.count_in(log),
            Form::Plain(plain) => plain.count_in(log),
        }
    }
}
