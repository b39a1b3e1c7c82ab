//! Adding entries of a flush to the index.

ghost use Rattle.std.specs.Prelude.{◌≡◌, OnOk, OnErr, slice_get};
ghost use Rattle.std.specs.FinMap as map;
ghost use Rattle.bk_store.specs.Invariant.{StoreInvariant};
ghost use Rattle.bk_store.specs.Primitives.{CanIndexEntry, CanIndexPlaced, IndexEntryTransition};
ghost use Rattle.bk_store.specs.Internals.{IndexEntryInternals, IndexPlacedParts, parts_after_index};

use crate::fields::Fields;
use bk_disk::LogDisk;
use bk_record::{Key, Location};
use std::alloc::AllocError;

impl<D: LogDisk> Fields<D> {
    /// Points the key of the entry of the flush with this number, in key order, to its place.
    pub fn index_placed(&mut self, number: usize) -> Result<(), AllocError>
        requires keeps { StoreInvariant self.old }
        requires may { CanIndexPlaced self.old.state number }
        ensures { IndexPlacedParts self.old number result self.new }
    {
        let Some((key, place)) = self.placed(number) else {
            unreachable!();
        };
        self.index_entry(key, place)
    }

    /// Returns the key and the place of an entry of the flush, by its number in key order.
    pub fn placed(&self, number: usize) -> Option<(Key, Location)>
        ensures { result ≡ slice_get (map.entries self.now.state.places) number }
    {
        Some(*self.places.pairs().get(number)?)
    }

    /// Points a key of the flush to its place, and remembers its entry as a recent one.
    fn index_entry(&mut self, key: Key, place: Location) -> Result<(), AllocError>
        requires keeps { StoreInvariant self.old }
        requires may { CanIndexEntry self.old.state key place }
        ensures transition { IndexEntryTransition self.old.state key place result self.new.state }
        ensures internals { IndexEntryInternals self.old key place result self.new }
    {
        self.send(key, place)?;
        if self.settings.recent == 0 {
            // Lemma: no key is in both write caches.
            let _ = self.caches.limit();
            return Ok(());
        }
        if let Some(payload) = self.caches.get(&key) {
            if let Ok(payload) = payload.clone() {
                self.caches.remember(key, payload);
            }
        }
        Ok(())
    }

    /// Points a key to a place, and counts the index entry in the account of its log. Out of memory
    /// changes nothing.
    fn send(&mut self, key: Key, place: Location) -> Result<(), AllocError>
        requires { StoreInvariant self.old }
        ensures ok { OnOk result (self.new ≡ parts_after_index self.old key place) }
        ensures err { OnErr result (self.new ≡ self.old) }
    {
        let before = self.index.insert(key, place)?;
        // Lemma: a log has at most as many index entries as the index, so the count cannot
        // overflow.
        let _keys = self.index.len();
        if let Some(before) = before {
            self.accounts.unname(before.log());
        }
        self.accounts.name(place.log());
        Ok(())
    }
}
