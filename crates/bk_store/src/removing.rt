//! Removing a closed log with its file.

ghost use Rattle.bk_store.specs.Invariant.{StoreInvariant};
ghost use Rattle.bk_store.specs.Primitives.{IsIn};
ghost use Rattle.bk_store.specs.Internals.{RemoveLogInternals, RemovalDurability, with_durable_of};
ghost use Rattle.bk_store.specs.CompactionPrimitives.{RemoveLogTransition};
ghost use Rattle.bk_store.specs.declared.log.LogState.TheVariants.{Closed as ClosedState};

use crate::fields::Fields;
use crate::showing::log_fault;
use bk_disk::LogDisk;
use bk_lease::Closed;
use bk_log::LogFault;

impl<D: LogDisk> Fields<D> {
    /// Removes a closed log. After a crash its file may be back, or gone if the removal failed.
    #[tactic(auto, using(bk_disk::proofs::DurableGrows::kept_rules))]
    pub fn remove_log(&mut self, log: u32) -> Result<(), LogFault>
        requires keeps { StoreInvariant self.old }
        requires closed { IsIn self.old.state log ClosedState }
        ensures transition { RemoveLogTransition self.old.state log result self.new.state }
        ensures internals { RemoveLogInternals (with_durable_of self.old self.new) log result self.new }
        ensures durable { RemovalDurability self.old log result self.new }
    {
        let Some(held) = self.logs.get(log) else {
            unreachable!();
        };
        let slot = held.slot;
        if let Err(fault) = self.disk.remove(self.alloc, log) {
            return Err(log_fault(fault));
        }
        self.logs.remove(log);
        self.accounts.drop_log(log);
        self.keeper.free(Closed { slot, log });
        Ok(())
    }
}
