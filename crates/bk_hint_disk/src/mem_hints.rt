//! Hints in memory.

ghost use Rattle.std.specs.Prelude.{◌≡◌, true};
ghost use Rattle.std.specs.FinMap as map;

use crate::{HintStoreFault, Hints};
use std::alloc::Global;
use std::collections::BTreeMap;
use std::marker::Model;

/// The bytes of a hint. Contracts see their list.
#[derive(Drop)]
struct HintBytes {
    bytes: Vec<u8>,
}

impl Model for HintBytes {
    ghost use Rattle.std.specs.Prelude.{ℕ, List};

    ghost Value = { List ℕ };

    ghost view = { λ hint. hint.bytes.items };
}

/// A store of hints in memory. It is honest, and only allocations fail.
#[derive(Drop)]
pub struct MemHints {
    hints: BTreeMap<u32, HintBytes>,
}

impl Model for MemHints {
    ghost use Rattle.std.specs.Coded.{coded_ℕ, coded_list};
    ghost use Rattle.std.specs.FinMap as map;
    ghost use Rattle.bk_record.specs.Files.{Files};
    ghost use Rattle.bk_disk.specs.Logs.{files_of};

    ghost Value = { Files };

    ghost coded = { map.code coded_ℕ (coded_list coded_ℕ) };

    ghost view = { λ store. files_of store.hints };
}

impl MemHints {
    /// Returns a store without hints.
    pub fn new(alloc: Global) -> MemHints
        ensures { result ≡ map.empty }
    {
        MemHints {
            hints: BTreeMap::new(alloc),
        }
    }
}

#[tactic(auto, using(bk_disk::proofs::FileMaps::file_maps))]
impl Hints for MemHints {
    ghost hints = { λ store. store };

    ghost honest = { λ _. true };

    fn get(&mut self, alloc: Global, log: u32) -> Result<Option<Vec<u8>>, HintStoreFault> {
        let Some(hint) = self.hints.get(&log) else {
            return Ok(None);
        };
        match hint.bytes.to_vec(alloc) {
            Ok(bytes) => Ok(Some(bytes)),
            Err(_) => Err(HintStoreFault::Memory),
        }
    }

    fn put(&mut self, alloc: Global, log: u32, hint: &[u8]) -> Result<(), HintStoreFault> {
        let Ok(bytes) = hint.to_vec(alloc) else {
            return Err(HintStoreFault::Memory);
        };
        match self.hints.insert(log, HintBytes { bytes }) {
            Ok(_) => Ok(()),
            Err(_) => Err(HintStoreFault::Memory),
        }
    }

    fn drop_hint(&mut self, _alloc: Global, log: u32) -> Result<(), HintStoreFault> {
        let _before = self.hints.remove(&log);
        Ok(())
    }
}
