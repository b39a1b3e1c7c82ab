//! A log that a store holds: its state, its last view, its acknowledged length, and its writer
//! while it is written.

ghost use Rattle.std.specs.Prelude.{◌≡◌, ◌+◌, ◌<◌, ◌^◌, Some, IsTrue, IsErrOf, IsSome, false, length};
ghost use Rattle.bk_record.specs.Record.{IsPayload, key_of};
ghost use Rattle.bk_disk.specs.Disk.{FailsExactlyIf};
ghost use Rattle.bk_disk.specs.Durable.{DurableGrows};
ghost use Rattle.bk_log.specs.Writing.{Writing, Writes, WriterPutTransition};
ghost use Rattle.bk_store.specs.Logs.{in_state, unwritten_log, log_after_failed_append, state_after_restart, state_after_flush, log_without_records, with_view, view_of};
ghost use Rattle.bk_store.specs.Appending.{put_log, IsPutAt, CanAppendRecord};
ghost use Rattle.bk_store.specs.Leasing.{slot_lent};

use bk_disk::{LogDisk, LogView};
use bk_log::{LogFault, LogWriter};
use bk_record::{HEADER_LENGTH, Location};
use std::alloc::Global;
use std::marker::Model;
use std::sync::Arc;

/// State of a log (this project's rule).
#[derive(Clone, Copy, Debug, PartialEq, Eq)]
pub enum LogState {
    /// The current log of the flushes; at most one.
    Writing,
    /// Sealed or failed during the running flush, and written no more.
    Filled,
    /// The target log of a compaction, while it is written.
    Copying,
    /// Written no more.
    Readable,
    /// No index entry points into it, and none ever will.
    Retired,
    /// Retired, and closed to leases.
    Closed,
}

/// A log that is held, in a slot of the lease table. `acknowledged` is the length of its file up to
/// the last record whose append succeeded; of a log found at opening it is the whole length.
#[derive(Drop)]
pub(crate) struct HeldLog<V: LogView> {
    pub state: LogState,
    pub slot: usize,
    pub view: Option<Arc<V>>,
    pub acknowledged: u64,
    pub writer: Option<LogWriter>,
}

impl<V: LogView> Model for HeldLog<V> {
    ghost use Rattle.bk_store.specs.Logs.{Log, seen_log};
    ghost use Rattle.bk_store.specs.State.{log_code};

    ghost Value = { Log };

    ghost coded = { log_code };

    ghost view = { λ log. seen_log V.bytes V.honest V.sound log.state log.slot log.view log.acknowledged log.writer };
}

impl<V: LogView> HeldLog<V> {
    /// Returns a log whose file does not exist yet, for this slot.
    pub fn unmade(slot: usize) -> HeldLog<V>
        ensures { result ≡ log_without_records slot }
    {
        HeldLog {
            state: LogState::Readable,
            slot,
            view: None,
            acknowledged: HEADER_LENGTH as u64,
            writer: None,
        }
    }

    /// Returns the slot, and `None` if the log is closed to leases.
    pub fn lent_slot(&self) -> Option<usize>
        ensures { result ≡ slot_lent self.now.state self.now.slot }
    {
        match self.state {
            LogState::Closed => None,
            LogState::Writing
            | LogState::Filled
            | LogState::Copying
            | LogState::Readable
            | LogState::Retired => Some(self.slot),
        }
    }

    /// Starts writing the log, whose file was created.
    pub fn start(&mut self, state: LogState, writer: LogWriter)
        ensures { self.new ≡ record self.old { state = state; writer = Some writer } }
    {
        self.state = state;
        self.writer = Some(writer);
    }

    /// Sets the state.
    pub fn set_state(&mut self, state: LogState)
        ensures { self.new ≡ in_state state self.old }
    {
        self.state = state;
    }

    /// Ends writing, sets the state, and returns the writer.
    pub fn end_writing(&mut self, state: LogState) -> Option<LogWriter>
        ensures log { self.new ≡ unwritten_log state self.old }
        ensures writer { result ≡ self.old.writer }
    {
        self.state = state;
        self.writer.take()
    }

    /// Sets the last view.
    pub fn show(&mut self, view: Arc<V>)
        ensures { self.new ≡ with_view (view_of V.bytes V.honest V.sound view.value) self.old }
    {
        self.view = Some(view);
    }

    /// Ends writing after a failed append.
    #[cold]
    #[inline(never)]
    fn stop_after_failure(&mut self)
        ensures { self.new ≡ log_after_failed_append self.old }
    {
        self.state = match self.state {
            LogState::Writing => LogState::Filled,
            LogState::Copying => LogState::Readable,
            other => other,
        };
        self.writer = None;
    }

    /// Sets the state after a restart of the flush.
    pub fn after_restart(&mut self)
        ensures { self.new ≡ state_after_restart self.old.state self.old }
    {
        match self.state {
            LogState::Writing => {
                self.state = LogState::Readable;
                self.writer = None;
            }
            LogState::Filled => self.state = LogState::Readable,
            _ => {}
        }
    }

    /// Sets the state after the end of the flush.
    pub fn after_flush(&mut self)
        ensures { self.new ≡ state_after_flush self.old.state self.old }
    {
        if self.state == LogState::Filled {
            self.state = LogState::Readable;
        }
    }

    /// Appends a record, which is then acknowledged. A failed append ends writing, except if out of
    /// memory.
    pub fn put<D: LogDisk>(
        &mut self,
        disk: &mut D,
        alloc: Global,
        payload: &[u8],
    ) -> Result<Location, LogFault>
        requires payload { IsPayload payload.now }
        requires keyed { IsSome (key_of payload.now) }
        requires may { CanAppendRecord self.old payload.now }
        requires writes { (w : Writing) → self.old.writer ≡ Some w → IsTrue (D.honest disk.old) → Writes (D.files disk.old) w }
        ensures honest { D.honest disk.new ≡ D.honest disk.old }
        ensures durable { IsTrue (D.honest disk.old) → DurableGrows (D.synced disk.old) (D.gone disk.old) (D.synced disk.new) (D.gone disk.new) }
        ensures cause { FailsExactlyIf (D.failures disk.old) (D.failures disk.new) (IsErrOf result LogFault.Disk) }
        ensures log { (w : Writing) → self.old.writer ≡ Some w → self.new ≡ put_log self.old w payload.now result }
        ensures place { (w : Writing) → self.old.writer ≡ Some w → IsPutAt w result }
        ensures transition { (w : Writing) → self.old.writer ≡ Some w → IsTrue (D.honest disk.old)
            → WriterPutTransition (D.files disk.old) w payload.now result (D.files disk.new) }
    {
        let Some(writer) = &mut self.writer else {
            unreachable!();
        };
        match writer.put(disk, alloc, payload) {
            Ok(place) => {
                self.acknowledged = writer.length();
                Ok(place)
            }
            Err(LogFault::Memory) => Err(LogFault::Memory),
            Err(fault) => {
                self.stop_after_failure();
                Err(fault)
            }
        }
    }
}
