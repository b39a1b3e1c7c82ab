//! The hints of a directory, used or not.

ghost use Rattle.std.specs.Prelude.{false};
ghost use Rattle.std.specs.FinMap as map;

use bk_hint_disk::{DirHints, HintStoreFault, Hints};
use std::alloc::{AllocError, Global};

/// The hints of a directory. If they are not used, none is found. One is removed with its log in both
/// cases, so that those that are left are of logs that are there.
///
/// The store is not honest, as `DirHints`.
#[derive(Drop)]
pub struct FolderHints {
    hints: DirHints,
    are_used: bool,
}

impl FolderHints {
    /// Returns the hints of the directory at a path, used or not.
    ///
    /// # Errors
    ///
    /// - `AllocError` if memory for the path is refused.
    pub fn new(rt: &HostRuntime, path: &str, are_used: bool) -> Result<FolderHints, AllocError> {
        Ok(FolderHints {
            hints: DirHints::new(rt, path)?,
            are_used,
        })
    }
}

impl Hints for FolderHints {
    ghost hints = { λ _. map.empty };

    ghost honest = { λ _. false };

    fn get(&mut self, alloc: Global, log: u32) -> Result<Option<Vec<u8>>, HintStoreFault> {
        if self.are_used {
            self.hints.get(alloc, log)
        } else {
            Ok(None)
        }
    }

    fn put(&mut self, alloc: Global, log: u32, hint: &[u8]) -> Result<(), HintStoreFault> {
        self.hints.put(alloc, log, hint)
    }

    fn drop_hint(&mut self, alloc: Global, log: u32) -> Result<(), HintStoreFault> {
        self.hints.drop_hint(alloc, log)
    }
}
