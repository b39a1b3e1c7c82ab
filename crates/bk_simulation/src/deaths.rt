//! The deletions to come, in the order of their times.

ghost use Rattle.std.specs.Prelude.{◌≡◌, ◌≤◌, ◌∷◌, ℕ, IfSome};

use std::alloc::{AllocError, Global};
use std::collections::BTreeSet;

/// Ledgers with the times at which they are deleted.
#[derive(Drop)]
pub(crate) struct Deaths {
    times: BTreeSet<(u64, u64)>,
}

impl Deaths {
    pub(crate) fn new(alloc: Global) -> Deaths {
        Deaths {
            times: BTreeSet::new(alloc),
        }
    }

    /// Notes that a ledger is deleted at a time.
    pub(crate) fn note(&mut self, time: u64, ledger: u64) -> Result<(), AllocError> {
        match self.times.insert((time, ledger)) {
            Ok(_) => Ok(()),
            Err(_) => Err(AllocError),
        }
    }

    /// Takes out the next ledger that is deleted up to a time.
    pub(crate) fn next(&mut self, now: u64) -> Option<u64>
        ensures { IfSome result (λ ledger. (time : ℕ) × (time ≤ now)
            × (self.old.times.keys ≡ (time, ledger) ∷ self.new.times.keys)) }
    {
        let (time, _) = *self.times.first()?;
        if time > now {
            return None;
        }
        let (_, ledger) = self.times.pop_first()?;
        Some(ledger)
    }
}
