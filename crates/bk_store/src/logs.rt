//! The logs that a store holds, by id.

ghost use Rattle.std.specs.Prelude.{◌≡◌, ◌⊎◌, ℕ, ◌<◌, ◌≤◌, ◌^◌, List, length, Some, IsSome, IsTrue, IsErrOf, IfSome, IfNone, OnOk, OnErr, option_map};
ghost use Rattle.std.specs.FinMap as map;
ghost use Rattle.bk_record.specs.Limits.{max_added};
ghost use Rattle.bk_record.specs.Record.{IsPayload, key_of};
ghost use Rattle.bk_record.specs.Files.{In};
ghost use Rattle.bk_disk.specs.Disk.{FailsExactlyIf};
ghost use Rattle.bk_disk.specs.Durable.{DurableGrows};
ghost use Rattle.bk_log.specs.Writing.{Writing, Writes, WriterPutTransition};
ghost use Rattle.bk_store.specs.Logs.{Log, AllChanged, IsFlushLog, IsNextHeld, in_state, unwritten_log, state_after_restart, state_after_flush, last_view, view_of, with_view};
ghost use Rattle.bk_store.specs.Appending.{put_log, IsPutAt, CanAppendRecord};
ghost use Rattle.bk_store.specs.Primitives.{is_filled, writer_of};
ghost use Rattle.bk_store.specs.SlotAssignment.{AreSeated};
ghost use Rattle.bk_store.specs.Leasing.{HaveNoLeases, AreClosedToLeases, IsLowestLeased, lent_slot};
ghost use Rattle.bk_lease.specs.Values.{SlotTable};

use crate::LogState;
use crate::log::HeldLog;
use bk_disk::{LogDisk, LogView};
use bk_lease::{Keeper, Leased};
use bk_log::{LogFault, LogWriter};
use bk_record::Location;
use std::alloc::{AllocError, Global};
use std::collections::BTreeMap;
use std::marker::Model;
use std::sync::Arc;

/// All logs that a store holds.
#[derive(Drop)]
pub(crate) struct LogTable<V: LogView> {
    logs: BTreeMap<u32, HeldLog<V>>,
}

impl<V: LogView> Model for LogTable<V> {
    ghost use Rattle.std.specs.FinMap as map;
    ghost use Rattle.bk_store.specs.Logs.{Logs};
    ghost use Rattle.bk_store.specs.State.{logs_code};

    ghost Value = { Logs };

    ghost coded = { logs_code };

    ghost view = { λ table. map.from_entries table.logs.entries };
}

impl<V: LogView> LogTable<V> {
    /// Returns an empty table. Does not allocate.
    pub fn new(alloc: Global) -> LogTable<V>
        ensures { result ≡ map.empty }
    {
        LogTable {
            logs: BTreeMap::new(alloc),
        }
    }

    /// Returns the number of logs.
    pub fn len(&self) -> usize
        ensures { result ≡ map.len self.now }
    {
        self.logs.len()
    }

    /// Returns the log of this id.
    pub fn get(&self, id: u32) -> Option<&HeldLog<V>>
        ensures { option_map (λ log. log.now) result ≡ map.get self.now id }
    {
        self.logs.get(&id)
    }

    /// Returns the least id, from this one on, of a log that is held.
    pub fn next_from(&self, id: u32) -> Option<u32>
        ensures { IsNextHeld self.now id result }
    {
        // Most ids are of logs that are held, and one look-up is cheaper than a range.
        if self.logs.contains_key(&id) {
            return Some(id);
        }
        let (next, _) = self.logs.range(id..).next()?;
        Some(*next)
    }

    /// Adds a log. Fails only if out of memory, which leaves the table unchanged.
    pub fn insert(&mut self, id: u32, log: HeldLog<V>) -> Result<(), AllocError>
        ensures ok { OnOk result (self.new ≡ map.insert self.old id log) }
        ensures err { OnErr result (self.new ≡ self.old) }
    {
        self.logs.insert(id, log)?;
        Ok(())
    }

    /// Removes the log of this id.
    pub fn remove(&mut self, id: u32)
        ensures { self.new ≡ map.remove self.old id }
    {
        self.logs.remove(&id);
    }

    /// Returns the last view of a log, and `None` if the log is not held or has none.
    pub fn view(&self, id: u32) -> Option<&Arc<V>>
        ensures { option_map (λ view. view_of V.bytes V.honest V.sound view.now.value) result ≡ last_view self.now id }
    {
        self.get(id)?.view.as_ref()
    }

    /// Returns the writer of a log, and `None` if the log is not held or not written.
    pub fn writer(&self, id: u32) -> Option<&LogWriter>
        ensures { option_map (λ writer. writer.now) result ≡ writer_of self.now id }
    {
        self.get(id)?.writer.as_ref()
    }

    /// Returns whether a log, which is written, has a record and one more, of `size` payload bytes,
    /// would exceed `limit`.
    pub fn is_filled(&self, id: u32, size: usize, limit: u32) -> bool
        requires written { IsSome (writer_of self.now id) }
        requires size { size ≤ max_added }
        ensures { (w : Writing) (payload : List ℕ) → writer_of self.now id ≡ Some w → length payload ≡ size → result ≡ is_filled limit w payload }
    {
        let writer = self.writer(id).unwrap();
        writer.records() > 0 && writer.length() + 4 + size as u64 > u64::from(limit)
    }

    /// Sets the state of a log.
    pub fn set_state(&mut self, id: u32, state: LogState)
        requires { IsSome (map.get self.old id) }
        ensures { (log : Log) → map.get self.old id ≡ Some log → self.new ≡ map.insert self.old id (in_state state log) }
    {
        self.logs.get_mut(&id).unwrap().set_state(state);
    }

    /// Starts writing a log, whose file was created.
    pub fn start(&mut self, id: u32, state: LogState, writer: LogWriter)
        requires { IsSome (map.get self.old id) }
        ensures { (log : Log) → map.get self.old id ≡ Some log
            → self.new ≡ map.insert self.old id (record log { state = state; writer = Some writer }) }
    {
        self.logs.get_mut(&id).unwrap().start(state, writer);
    }

    /// Ends writing a log, sets its state, and returns its writer.
    pub fn end_writing(&mut self, id: u32, state: LogState) -> Option<LogWriter>
        requires { IsSome (map.get self.old id) }
        ensures logs { (log : Log) → map.get self.old id ≡ Some log → self.new ≡ map.insert self.old id (unwritten_log state log) }
        ensures writer { (log : Log) → map.get self.old id ≡ Some log → result ≡ log.writer }
    {
        self.logs.get_mut(&id).unwrap().end_writing(state)
    }

    /// Sets the last view of a log.
    pub fn show(&mut self, id: u32, view: Arc<V>)
        requires { IsSome (map.get self.old id) }
        ensures { (log : Log) → map.get self.old id ≡ Some log
            → self.new ≡ map.insert self.old id (with_view (view_of V.bytes V.honest V.sound view.value) log) }
    {
        self.logs.get_mut(&id).unwrap().show(view);
    }

    /// Appends a record to a log.
    pub fn put<D: LogDisk>(
        &mut self,
        id: u32,
        disk: &mut D,
        alloc: Global,
        payload: &[u8],
    ) -> Result<Location, LogFault>
        requires payload { IsPayload payload.now }
        requires keyed { IsSome (key_of payload.now) }
        requires held { IsSome (map.get self.old id) }
        requires may { (log : Log) → map.get self.old id ≡ Some log → CanAppendRecord log payload.now }
        requires writes { (log : Log) (w : Writing) → map.get self.old id ≡ Some log → log.writer ≡ Some w
            → IsTrue (D.honest disk.old) → Writes (D.files disk.old) w }
        ensures honest { D.honest disk.new ≡ D.honest disk.old }
        ensures durable { IsTrue (D.honest disk.old) → DurableGrows (D.synced disk.old) (D.gone disk.old) (D.synced disk.new) (D.gone disk.new) }
        ensures cause { FailsExactlyIf (D.failures disk.old) (D.failures disk.new) (IsErrOf result LogFault.Disk) }
        ensures logs { (log : Log) (w : Writing) → map.get self.old id ≡ Some log → log.writer ≡ Some w
            → self.new ≡ map.insert self.old id (put_log log w payload.now result) }
        ensures place { (log : Log) (w : Writing) → map.get self.old id ≡ Some log → log.writer ≡ Some w → IsPutAt w result }
        ensures transition { (log : Log) (w : Writing) → map.get self.old id ≡ Some log → log.writer ≡ Some w
            → IsTrue (D.honest disk.old) → WriterPutTransition (D.files disk.old) w payload.now result (D.files disk.new) }
    {
        self.logs.get_mut(&id).unwrap().put(disk, alloc, payload)
    }

    /// Returns the slot of a log, and `None` if the log is not held or is closed to leases.
    fn lent_slot(&self, id: u32) -> Option<usize>
        ensures { result ≡ lent_slot self.now id }
    {
        self.get(id)?.lent_slot()
    }

    /// Closes the slots of all logs that are not closed, by rising id. At the first leased log it
    /// opens them again, and returns that log with the number of its leases.
    pub fn close_all(&self, keeper: &mut Keeper) -> Option<(u32, u64)>
        requires seated { AreSeated keeper.old self.now }
        requires ids { (id : ℕ) → IsSome (map.get self.now id) → id < 2 ^ 31 }
        ensures none { IfNone result (HaveNoLeases keeper.old self.now (2 ^ 31)) }
        ensures some { IfSome result (λ found. IsLowestLeased keeper.old self.now found.0 found.1) }
        ensures same { IfSome result (λ _. keeper.new ≡ keeper.old) }
    {
        let mut from = 0;
        while let Some(id) = self.next_from(from) {
            if let Some(slot) = self.lent_slot(id) {
                if let Err(Leased { count }) = keeper.close(slot) {
                    self.open_below(keeper, id);
                    return Some((id, count));
                }
            }
            from = id + 1;
        }
        None
    }

    /// Opens the slots of the logs below `end` that are not closed.
    fn open_below(&self, keeper: &mut Keeper, end: u32)
        requires shut { (old : SlotTable) × AreSeated old self.now × AreClosedToLeases self.now old keeper.old 0 end }
        requires ids { (id : ℕ) → IsSome (map.get self.now id) → id < 2 ^ 31 }
        ensures { (old : SlotTable) → AreSeated old self.now → AreClosedToLeases self.now old keeper.old 0 end → keeper.new ≡ old }
    {
        let mut from = 0;
        while let Some(id) = self.next_from(from) {
            if id >= end {
                return;
            }
            if let Some(slot) = self.lent_slot(id) {
                keeper.open(slot, id);
            }
            from = id + 1;
        }
    }

    /// Sets the states of the logs of a flush, which are exactly these, after its restart.
    pub fn after_restart(&mut self, ids: &[u32])
        requires { (id : ℕ) → IsFlushLog self.old id → In id ids.now }
        ensures { AllChanged state_after_restart self.old self.new }
    {
        for id in ids {
            if let Some(log) = self.logs.get_mut(id) {
                log.after_restart();
            }
        }
    }

    /// Sets the states of the logs of a flush, which are exactly these, after its end.
    pub fn after_flush(&mut self, ids: &[u32])
        requires { (id : ℕ) → IsFlushLog self.old id → In id ids.now }
        ensures { AllChanged state_after_flush self.old self.new }
    {
        for id in ids {
            if let Some(log) = self.logs.get_mut(id) {
                log.after_flush();
            }
        }
    }
}
