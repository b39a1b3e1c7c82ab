//! Creating a log.
//!
//! The log is held and has its account before its file is created, so that every file is held. Its
//! slot opens after the file was created, so that a failed creation leaves the slot free.

ghost use Rattle.std.specs.Prelude.{◌≡◌, ◌<◌, true, IfOk, OnErr, OnOk, IsOkUnless};
ghost use Rattle.std.specs.FinMap as map;
ghost use Rattle.bk_store.specs.Logs.{is_written};
ghost use Rattle.bk_store.specs.Invariant.{StoreInvariant};
ghost use Rattle.bk_store.specs.Primitives.{CanCreateLogAnswer, CreateLogTransition};
ghost use Rattle.bk_record.specs.Files.{In};
ghost use Rattle.bk_store.specs.declared.log.LogState.TheVariants.{Writing};
ghost use Rattle.bk_store.specs.Internals.{ListGoesOn, CreateLogInternals, HasSlot, HasNoSlot, DurableNeverShrinks, with_durable_of, writing_in};

use crate::fields::Fields;
use crate::log::HeldLog;
use crate::{LogState, MakeFault};
use bk_disk::LogDisk;
use bk_log::{LogFault, LogWriter};
use bk_record::LAST_LOG;
use std::alloc::AllocError;

impl<D: LogDisk> Fields<D> {
    /// Returns whether the next log can be created.
    pub fn can_create_log(&self) -> Result<(), MakeFault>
        ensures { CanCreateLogAnswer self.now.state result }
    {
        if self.logs.len() >= self.settings.slots as usize {
            return Err(MakeFault::LogsFull);
        }
        if self.next > LAST_LOG {
            return Err(MakeFault::NoMoreIds);
        }
        Ok(())
    }

    /// Creates the next log, in this state.
    #[tactic(auto, using(bk_disk::proofs::DurableGrows::kept_rules))]
    pub fn create_log(&mut self, state: LogState) -> Result<u32, MakeFault>
        requires keeps { StoreInvariant self.old }
        requires written { is_written state ≡ true }
        ensures transition { CreateLogTransition self.old.state state result self.new.state }
        ensures internals { CreateLogInternals (with_durable_of self.old self.new) state result self.new }
        ensures durable { DurableNeverShrinks self.old self.new }
    {
        self.can_create_log()?;
        let slot = self.take_slot(state)?;
        let log = self.next;
        self.next += 1;
        match LogWriter::create(&mut self.disk, self.alloc, log) {
            Ok(writer) => {
                self.keeper.open(slot, log);
                self.logs.start(log, state, writer);
                self.writing = written_after(self.writing, log, state);
                Ok(log)
            }
            Err(fault) => {
                if fault.made {
                    self.keeper.open(slot, log);
                } else {
                    self.logs.remove(log);
                    self.accounts.drop_log(log);
                }
                Err(MakeFault::from(fault.fault))
            }
        }
    }

    /// Finds a free slot for the next log, holds the log, and opens its account. The slot opens
    /// later, when the file exists. Fails only with `Memory`, which changes nothing.
    fn take_slot(&mut self, state: LogState) -> Result<usize, MakeFault>
        requires keeps { StoreInvariant self.old }
        requires room { map.len self.old.state.logs < self.old.state.settings.slots }
        ensures ok { IfOk result (λ slot. HasSlot self.old state slot self.new) }
        ensures err { OnErr result (HasNoSlot self.old state self.new) }
        ensures memory { IsOkUnless result MakeFault.Memory }
    {
        let log = self.next;
        let Some(slot) = self.keeper.free_slot() else {
            unreachable!();
        };
        let Ok(()) = list_written(&mut self.filled, log, state) else {
            return Err(MakeFault::Memory);
        };
        let Ok(()) = self.accounts.open(log) else {
            return Err(MakeFault::Memory);
        };
        let Ok(()) = self.logs.insert(log, HeldLog::unmade(slot)) else {
            self.accounts.drop_log(log);
            return Err(MakeFault::Memory);
        };
        Ok(slot)
    }
}

/// Adds a log that becomes Writing to the list of the flush's logs. Fails only if out of memory.
fn list_written(filled: &mut Vec<u32>, log: u32, state: LogState) -> Result<(), AllocError>
    ensures list { ListGoesOn state filled.old.items filled.new.items }
    ensures listed { OnOk result (state ≡ Writing → In log filled.new.items) }
{
    match state {
        LogState::Writing => filled.push(log)?,
        LogState::Filled
        | LogState::Copying
        | LogState::Readable
        | LogState::Retired
        | LogState::Closed => {}
    }
    Ok(())
}

/// Returns the Writing log after a log was created in this state.
fn written_after(old: Option<u32>, log: u32, state: LogState) -> Option<u32>
    ensures { result ≡ writing_in old log state }
{
    match state {
        LogState::Writing => Some(log),
        LogState::Filled
        | LogState::Copying
        | LogState::Readable
        | LogState::Retired
        | LogState::Closed => old,
    }
}

impl From<LogFault> for MakeFault {
    ghost use Rattle.std.specs.Prelude.{◌≡◌};
    ghost use Rattle.bk_store.specs.Internals.{make_fault_of};

    ghost from_gives = { λ fault e. e ≡ make_fault_of fault };

    fn from(fault: LogFault) -> MakeFault {
        match fault {
            LogFault::Memory => MakeFault::Memory,
            LogFault::Disk => MakeFault::Disk,
            LogFault::Failed | LogFault::Odd => MakeFault::Odd,
        }
    }
}
