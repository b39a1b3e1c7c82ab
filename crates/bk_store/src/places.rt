//! Places of the running flush.
//!
//! A flush writes in key order, so a place is always appended. Room for it is made before its
//! record is written.

ghost use Rattle.std.specs.Prelude.{◌≡◌, ◌<◌, false, OnOk};
ghost use Rattle.std.specs.FinMap as map;
ghost use Rattle.bk_record.specs.Keyed.{without_ledger};
ghost use Rattle.bk_store.specs.FlushPlaces.{last_key, IsAfterPlaced};

use bk_record::{Key, Location};
use std::alloc::{AllocError, Global};
use std::marker::Model;

/// Places of the first entries of the flush, in key order.
#[derive(Drop)]
pub(crate) struct FlushPlaces {
    pairs: Vec<(Key, Location)>,
}

impl Model for FlushPlaces {
    ghost use Rattle.std.specs.Prelude.{◌-◌, IsTrue, vec_len, vec_capacity};
    ghost use Rattle.std.specs.FinMap as map;
    ghost use Rattle.bk_record.specs.Key.{key_cmp};
    ghost use Rattle.bk_store.specs.FlushPlaces.{HeldPlaces, held_places_code};

    ghost Value = { HeldPlaces };

    ghost coded = { held_places_code };

    ghost view = { λ p. record { places = map.from_sorted p.pairs.items; room = vec_capacity p.pairs - vec_len p.pairs } };

    ghost invariant = { λ p. IsTrue (map.is_sorted key_cmp p.pairs.items) };
}

impl FlushPlaces {
    /// Returns no places.
    pub fn new(alloc: Global) -> FlushPlaces
        ensures { result.places ≡ map.empty }
    {
        FlushPlaces {
            pairs: Vec::new(alloc),
        }
    }

    /// Returns the number of places.
    pub fn len(&self) -> usize
        ensures { result ≡ map.len self.now.places }
    {
        self.pairs.len()
    }

    /// Returns the last key that has a place.
    pub fn last(&self) -> Option<Key>
        ensures { result ≡ last_key self.now.places }
    {
        let (key, _) = self.pairs.last()?;
        Some(*key)
    }

    /// Makes room for one more place, and if there is none yet, for `most` places: a flush makes
    /// room for all its places at once. Fails only if out of memory, and changes no place.
    pub fn make_room(&mut self, most: usize) -> Result<(), AllocError>
        ensures same { self.new.places ≡ self.old.places }
        ensures ok { OnOk result (0 < self.new.room) }
    {
        if self.pairs.is_empty() && most > 0 {
            return self.pairs.reserve(most);
        }
        self.pairs.reserve(1)
    }

    /// Appends the place of a key, for which there must be room.
    pub fn note(&mut self, key: Key, place: Location)
        requires behind { IsAfterPlaced self.old.places key }
        requires room { 0 < self.old.room }
        ensures { self.new.places ≡ map.insert self.old.places key place }
    {
        self.pairs.push_reserved((key, place));
    }

    /// Drops all places.
    pub fn clear(&mut self)
        ensures { self.new.places ≡ map.empty }
    {
        self.pairs.clear();
    }

    /// Drops the places of a ledger. If it has none, only a binary search is made.
    pub fn drop_ledger(&mut self, ledger: u64)
        ensures { self.new.places ≡ without_ledger self.old.places ledger }
    {
        if self.has_ledger(ledger) {
            self.pairs.retain(|(key, _)| key.ledger() != ledger);
        }
    }

    // Returns whether an entry of the ledger has a place. Places of one ledger are adjacent.
    fn has_ledger(&self, ledger: u64) -> bool
        ensures { result ≡ false → without_ledger self.now.places ledger ≡ self.now.places }
    {
        let first = self.pairs.partition_point(|(key, _)| key.ledger() < ledger);
        match self.pairs.get(first) {
            Some((key, _)) => key.ledger() == ledger,
            None => false,
        }
    }

    /// Returns the pairs of key and place, in key order.
    pub fn pairs(&self) -> &[(Key, Location)]
        ensures { result.now ≡ map.entries self.now.places }
    {
        &self.pairs
    }
}
