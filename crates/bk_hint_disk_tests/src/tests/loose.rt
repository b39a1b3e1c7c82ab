//! A store of hints in memory that claims no honesty: tests put damaged hints into it, and have its
//! calls fail.

ghost use Rattle.std.specs.Prelude.{false};
ghost use Rattle.std.specs.FinMap as map;

use bk_hint_disk::{HintStoreFault, Hints, MemHints};
use std::alloc::Global;

/// Hints in memory. The call number `fails`, counted down from the next one, fails; 0 is none.
#[derive(Drop)]
pub(super) struct LooseHints {
    inner: MemHints,
    fails: u64,
    fault: HintStoreFault,
}

impl LooseHints {
    pub(super) fn new(alloc: Global) -> LooseHints {
        LooseHints {
            inner: MemHints::new(alloc),
            fails: 0,
            fault: HintStoreFault::Disk,
        }
    }

    /// Has a later call fail.
    pub(super) fn fail(&mut self, call: u64, fault: HintStoreFault) {
        self.fails = call;
        self.fault = fault;
    }

    // Counts a call. Fails if it is the one.
    fn count(&mut self) -> Result<(), HintStoreFault> {
        let left = self.fails;
        self.fails = left.saturating_sub(1);
        if left == 1 {
            return Err(self.fault);
        }
        Ok(())
    }
}

impl Hints for LooseHints {
    ghost hints = { λ _. map.empty };

    ghost honest = { λ _. false };

    fn get(&mut self, alloc: Global, log: u32) -> Result<Option<Vec<u8>>, HintStoreFault> {
        self.count()?;
        self.inner.get(alloc, log)
    }

    fn put(&mut self, alloc: Global, log: u32, hint: &[u8]) -> Result<(), HintStoreFault> {
        self.count()?;
        self.inner.put(alloc, log, hint)
    }

    fn drop_hint(&mut self, alloc: Global, log: u32) -> Result<(), HintStoreFault> {
        self.count()?;
        self.inner.drop_hint(alloc, log)
    }
}
