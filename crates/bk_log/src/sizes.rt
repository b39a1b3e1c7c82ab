//! Sizes of a log's records by ledger, as its ledgers map has them.

ghost use Rattle.std.specs.Prelude.{◌≡◌, ◌+◌, ◌<◌, ◌^◌, IfOk, OnOk, OnErr};
ghost use Rattle.std.specs.FinMap as map;
ghost use Rattle.bk_head.specs.Ledgers.{map_of};
ghost use Rattle.bk_log.specs.Sizes.{size_in, with_bytes};

use crate::Found;
use std::alloc::{AllocError, Global};
use std::collections::BTreeMap;
use std::marker::Model;

/// For each ledger, the bytes of its counted records, with their length fields (BookKeeper ledgers
/// map). Contracts see a finite map and the ledger counted last (`specs/Sizes.antt`).
///
/// The bytes of the last ledger are kept apart from the map, so that the next record of the same
/// ledger needs no look-up.
#[derive(Drop)]
pub struct LedgerSizes {
    others: BTreeMap<u64, u64>,
    ledger: u64,
    size: u64,
}

impl Model for LedgerSizes {
    ghost use Rattle.std.specs.FinMap as map;
    ghost use Rattle.bk_log.specs.Sizes.{Tally, tally_code, with_last, IsLast};

    ghost Value = { Tally };

    ghost coded = { tally_code };

    ghost view = { λ a. record { sizes = with_last (map.from_entries a.others.entries) a.ledger a.size; ledger = a.ledger } };

    ghost invariant = { λ a. IsLast (map.from_entries a.others.entries) a.ledger a.size };
}

impl LedgerSizes {
    ghost use Rattle.bk_log.specs.Sizes.{CountsNext, AreWithin};

    /// Returns sizes without a ledger. Does not allocate.
    pub fn new(alloc: Global) -> LedgerSizes
        ensures { result ≡ record { sizes = map.empty; ledger = 0 } }
    {
        LedgerSizes {
            others: BTreeMap::new(alloc),
            ledger: 0,
            size: 0,
        }
    }

    /// Counts an entry that a scan found. Requires that the ledger's bytes stay below 2^64, as
    /// those of one log do (`within`).
    ///
    /// # Errors
    ///
    /// - `AllocError` if an allocation fails; the sizes are unchanged.
    pub fn count(&mut self, found: Found) -> Result<(), AllocError>
        requires sized { 0 < found.size }
        requires room { size_in self.old.sizes found.key.ledger + found.size < 2 ^ 64 }
        ensures ok { OnOk result (self.new ≡ record {
          sizes = with_bytes self.old.sizes found.key.ledger found.size;
          ledger = found.key.ledger;
        }) }
        ensures err { OnErr result (self.new ≡ self.old) }
        ensures within { OnOk result (AreWithin self.old.sizes found.size self.new.sizes) }
        ensures next { OnOk result (CountsNext self.old.sizes found self.new.sizes) }
    {
        self.turn_to(found.key.ledger())?;
        self.add(u64::from(found.size));
        Ok(())
    }

    /// Prepares for bytes of a ledger, so that `add` does not allocate. The sizes do not change.
    pub(crate) fn turn_to(&mut self, ledger: u64) -> Result<(), AllocError>
        ensures ok { OnOk result (self.new ≡ record self.old { ledger = ledger }) }
        ensures err { OnErr result (self.new ≡ self.old) }
    {
        if ledger == self.ledger {
            return Ok(());
        }
        if self.size > 0 {
            self.others.insert(self.ledger, self.size)?;
        }
        self.size = self.others.get(&ledger).copied().unwrap_or(0);
        self.ledger = ledger;
        Ok(())
    }

    /// Adds bytes to the ledger of the last `turn_to`.
    pub(crate) fn add(&mut self, size: u64)
        requires some { 0 < size }
        requires room { size_in self.old.sizes self.old.ledger + size < 2 ^ 64 }
        ensures { self.new ≡ record self.old { sizes = with_bytes self.old.sizes self.old.ledger size } }
    {
        self.size += size;
    }

    /// Returns the sizes as a map.
    ///
    /// # Errors
    ///
    /// - `AllocError` if an allocation fails.
    pub fn into_map(self) -> Result<BTreeMap<u64, u64>, AllocError>
        ensures { IfOk result (λ tree. map_of tree ≡ self.sizes) }
    {
        let LedgerSizes {
            mut others,
            ledger,
            size,
        } = self;
        if size > 0 {
            others.insert(ledger, size)?;
        }
        Ok(others)
    }
}
