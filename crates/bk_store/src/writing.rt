//! Appending the next entry of a flush, and sealing a log.
//!
//! What can fail in memory comes first: there is room for a place and in the account before the
//! device is used.

ghost use Rattle.std.specs.Prelude.{◌≡◌};
ghost use Rattle.bk_store.specs.Invariant.{StoreInvariant};
ghost use Rattle.bk_store.specs.Primitives.{CanSealLog, SealLogTransition};
ghost use Rattle.bk_store.specs.Internals.{AppendNextParts, SealLogInternals, DurableNeverShrinks, with_durable_of, unless_log, unless_failed};

use crate::fields::Fields;
use crate::{Appended, LogState};
use bk_disk::LogDisk;
use bk_log::LogFault;

impl<D: LogDisk> Fields<D> {
    /// Appends the next entry of the flush to the Writing log.
    #[tactic(auto, using(bk_disk::proofs::DurableGrows::kept_rules))]
    pub fn append_next(&mut self) -> Result<Appended, LogFault>
        requires { StoreInvariant self.old }
        ensures parts { AppendNextParts (with_durable_of self.old self.new) result self.new }
        ensures durable { DurableNeverShrinks self.old self.new }
    {
        let Some(next) = self
            .caches
            .flushing_after_near(self.places.last(), &mut self.near)
        else {
            return Ok(Appended::AllPlaced);
        };
        let Some(log) = self.writing else {
            return Ok(Appended::NeedsLog);
        };
        if self
            .logs
            .is_filled(log, next.1.len(), self.settings.log_limit)
        {
            return Ok(Appended::NeedsLog);
        }
        let entries = self.caches.flush_len() as usize;
        let Ok(()) = self.places.make_room(entries) else {
            return Err(LogFault::Memory);
        };
        let Ok(()) = self.accounts.ready(log, next.0.ledger()) else {
            return Err(LogFault::Memory);
        };
        match self.logs.put(log, &mut self.disk, self.alloc, next.1) {
            Ok(place) => {
                let size = next.1.len() as u32 + 4;
                self.places.note(next.0, place);
                self.accounts.count(log, next.0.ledger(), size);
                Ok(Appended::At(place))
            }
            Err(fault) => {
                stop(&mut self.writing, fault);
                Err(fault)
            }
        }
    }

    /// Seals a log, which has this state from then on and is written no more.
    #[tactic(auto, using(bk_disk::proofs::DurableGrows::kept_rules))]
    pub fn seal(&mut self, log: u32, state: LogState) -> Result<(), LogFault>
        requires keeps { StoreInvariant self.old }
        requires may { CanSealLog self.old.state log state }
        ensures transition { SealLogTransition self.old.state log state result self.new.state }
        ensures internals { SealLogInternals (with_durable_of self.old self.new) log self.new }
        ensures durable { DurableNeverShrinks self.old self.new }
    {
        leave(&mut self.writing, log);
        let Some(writer) = self.logs.end_writing(log, state) else {
            unreachable!();
        };
        writer.seal(&mut self.disk, self.alloc)
    }
}

/// Forgets the Writing log if it is this one.
fn leave(writing: &mut Option<u32>, log: u32)
    ensures { writing.new ≡ unless_log writing.old log }
{
    if *writing == Some(log) {
        *writing = None;
    }
}

/// Forgets the Writing log after a failed append, except if out of memory.
fn stop(writing: &mut Option<u32>, fault: LogFault)
    ensures { writing.new ≡ unless_failed writing.old fault }
{
    if fault != LogFault::Memory {
        *writing = None;
    }
}
