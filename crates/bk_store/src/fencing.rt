//! Fencing a ledger against ordinary adds.

ghost use Rattle.std.specs.Prelude.{◌≡◌};
ghost use Rattle.bk_store.specs.Transitions.{FenceTransition};

use crate::fields::Fields;
use crate::{Fence, FenceFault};
use bk_disk::LogDisk;

impl<D: LogDisk> Fields<D> {
    pub fn fence(&mut self, ledger: u64) -> Result<Fence, FenceFault>
        ensures transition { FenceTransition self.old.state ledger result self.new.state }
        ensures internals { self.new ≡ record self.old { state = self.new.state } }
    {
        if self.ledgers.is_dead(ledger) {
            return Err(FenceFault::Deleted);
        }
        if self.ledgers.is_fenced(ledger) {
            return Ok(Fence::AlreadyFenced);
        }
        self.ledgers.fence(ledger)?;
        Ok(Fence::Fenced)
    }
}
