//! Primitives of the store: the calls by which flush, compaction and collection change it.
//!
//! Each implements one transition of `specs/Primitives.antt`, `CompactionPrimitives.antt` or
//! `Leasing.antt`, preserves the store invariant, and leaves the logical contents unchanged (clause
//! `contents`).

ghost use Rattle.std.specs.Prelude.{◌≡◌, None, IsSome, IsTrue, true, false, option_map};
ghost use Rattle.std.specs.List.{All};
ghost use Rattle.std.specs.FinMap as map;
ghost use Rattle.bk_record.specs.Location.{Place};
ghost use Rattle.bk_store.specs.JobInvariant.{JobInvariant};
ghost use Rattle.bk_store.specs.Logs.{is_written};
ghost use Rattle.bk_store.specs.Contents.{SameContents};
ghost use Rattle.bk_store.specs.declared.log.LogState.TheVariants.{Writing, Retired, Closed};
ghost use Rattle.bk_lease.specs.Leases.{IsClosed};
ghost use Rattle.bk_store.specs.CompactionPrimitives.{IsLeastUsed, CanAppendCopied, CanRelocate, RemoveLogTransition, RelocateTransition};
ghost use Rattle.bk_store.specs.Leasing.{CloseLogTransition};
ghost use Rattle.bk_store.specs.Primitives.{CreateLogTransition, HasNoWriting, IsIn, AppendNextTransition, CanSealLog, SealLogTransition, CanPublishLog, PublishLogTransition, CanIndexPlaced};
ghost use Rattle.bk_store.specs.Primitives.{AppendRecordTransition, IndexPlacedTransition, AllIndexed, RestartFlushTransition, EndFlushTransition, CanSetLogState, SetLogStateTransition, CanReplaceIndex, ReplaceIndexTransition};

use crate::{Appended, Job, LogState, MakeFault, Store, TakenJob};
use bk_disk::LogDisk;
use bk_index::Index;
use bk_lease::{Lease, Leased};
use bk_log::LogFault;
use bk_record::{Key, Location};
use std::alloc::AllocError;

impl<D: LogDisk> Store<D> {
    /// Creates the next log, a file with a header, and returns its id. The log is in this state:
    /// `Writing`, if no other log is, or `Copying`.
    ///
    /// # Errors
    ///
    /// - `LogsFull`: every slot is taken. Nothing changes.
    /// - `NoMoreIds`: the last id is used. Nothing changes.
    /// - `Memory`: nothing changes, or as after `Disk`.
    /// - `Disk`: the device failed. `Odd`: the disk is not honest. The id is used. If the file
    ///   exists, the log is held as a Readable log without records.
    pub fn create_log(&mut self, state: LogState) -> Result<u32, MakeFault>
        requires written { is_written state ≡ true }
        requires one { state ≡ Writing → HasNoWriting self.old }
        ensures transition { CreateLogTransition self.old state result self.new }
        ensures contents { IsTrue self.old.honest → SameContents self.old self.new }
    {
        self.fields.create_log(state)
    }

    /// Appends the next entry of the flush, which `next_entry` returns, to the Writing log, and notes
    /// its place. Nothing changes if every entry has a place, or if the entry needs a new log: no log
    /// is Writing, or the Writing log has a record and this one would exceed `log_limit`.
    ///
    /// # Errors
    ///
    /// - `Memory`: nothing changes.
    /// - `Disk`: the device failed, and a part of the record, possibly all, was written. `Odd`: the
    ///   disk is not honest. The log becomes Filled and is written no more; the entry has no place.
    ///
    /// `Failed` does not occur.
    pub fn append_next(&mut self) -> Result<Appended, LogFault>
        ensures transition { AppendNextTransition self.old result self.new }
        ensures contents { IsTrue self.old.honest → SameContents self.old self.new }
    {
        self.fields.append_next()
    }

    /// Seals a log that is written: writes its ledgers map after its records, and the position of
    /// the map into its header.
    ///
    /// The Writing log becomes Filled, or Readable if no flush is running. A target log becomes
    /// Readable.
    ///
    /// # Errors
    ///
    /// `Memory`, `Disk` and `Odd`. The log has its new state and is written no more after each of
    /// them, and may lack a map. `Failed` does not occur.
    pub fn seal(&mut self, log: u32, state: LogState) -> Result<(), LogFault>
        requires { CanSealLog self.old log state }
        ensures transition { SealLogTransition self.old log state result self.new }
        ensures contents { IsTrue self.old.honest → SameContents self.old self.new }
    {
        self.fields.seal(log, state)
    }

    /// Syncs a log that no job has, and publishes its whole file.
    ///
    /// # Errors
    ///
    /// `Memory`, `Disk` and `Odd`. The published part of the log is unchanged. `Failed` does not
    /// occur.
    pub fn publish_log(&mut self, log: u32) -> Result<(), LogFault>
        requires { CanPublishLog self.old log }
        ensures transition { PublishLogTransition self.old log result self.new }
        ensures contents { IsTrue self.old.honest → SameContents self.old self.new }
    {
        self.fields.publish_log(log)
    }

    /// Points the key of the entry of the flush with this number, in key order, to its place, in a
    /// log whose whole file is published. Remembers the entry as a recent one, unless the allocation
    /// for that fails. It stays in the flushing cache.
    ///
    /// Fails only if the index is out of memory, which leaves the store unchanged.
    pub fn index_placed(&mut self, number: usize) -> Result<(), AllocError>
        requires { CanIndexPlaced self.old number }
        ensures transition { IndexPlacedTransition self.old number result self.new }
        ensures contents { IsTrue self.old.honest → SameContents self.old self.new }
    {
        self.fields.index_placed(number)
    }

    /// Returns whether the disk has lost bytes of a log of the flush for good. Calls no device.
    pub fn has_lost_log(&self) -> bool
        ensures { IsTrue self.now.honest → result ≡ false }
    {
        self.fields.has_lost_log()
    }

    /// Restarts the flush: its logs become Readable, its places are dropped, its cache is kept.
    pub fn restart_flush(&mut self)
        ensures transition { RestartFlushTransition self.old self.new }
        ensures contents { IsTrue self.old.honest → SameContents self.old self.new }
    {
        self.fields.restart_flush()
    }

    /// Ends a flush whose entries are all indexed: empties its cache, and makes the logs that it
    /// filled Readable.
    pub fn end_flush(&mut self)
        requires { AllIndexed self.old }
        ensures transition { EndFlushTransition self.old self.new }
        ensures contents { IsTrue self.old.honest → SameContents self.old self.new }
    {
        self.fields.end_flush()
    }

    /// Sets the state of a log that is not the flush's: a target log becomes Readable and is
    /// written no more; a Readable log without index entries becomes Retired.
    pub fn set_log_state(&mut self, log: u32, state: LogState)
        requires { CanSetLogState self.old log state }
        ensures transition { SetLogStateTransition self.old log state self.new }
        ensures contents { IsTrue self.old.honest → SameContents self.old self.new }
    {
        self.fields.set_log_state(log, state)
    }

    /// Closes a Retired log if no lease of it is out. From then on none is granted.
    ///
    /// # Errors
    ///
    /// - `Leased`: the number of leases, at least one. The store is unchanged.
    pub fn close_log(&mut self, log: u32) -> Result<(), Leased>
        requires { IsIn self.old log Retired }
        ensures transition { CloseLogTransition self.old log result self.new }
        ensures contents { IsTrue self.old.honest → SameContents self.old self.new }
    {
        self.fields.close_log(log)
    }

    /// Proves that no lease is of a closed log: a caller that has both is in an unreachable arm.
    pub fn meet(&mut self, lease: Lease<D::View>)
        requires table { lease.ticket.table ≡ self.old.keeper.table }
        requires closed { IsClosed self.old.keeper.slots lease.ticket.slot }
        ensures { ⊥ }
    {
        self.fields.keeper.meet(lease);
    }

    /// Replaces the index by one that was rebuilt from the published parts of the logs. Does not
    /// allocate.
    pub fn replace_index(&mut self, index: Index)
        requires { CanReplaceIndex self.old index }
        ensures transition { ReplaceIndexTransition self.old index self.new }
        ensures contents { IsTrue self.old.honest → SameContents self.old self.new }
    {
        self.fields.replace_index(index);
    }

    /// Returns the running compaction.
    pub fn job(&self) -> Option<&Job>
        ensures { option_map (λ job. job.now) result ≡ self.now.job }
    {
        self.fields.job.as_ref()
    }

    /// Takes the job of the running compaction out of the store.
    pub fn take_job(&mut self) -> Option<TakenJob>
        ensures job { option_map (λ taken. taken.job) result ≡ self.old.job }
        ensures left { self.new ≡ record self.old { job = None } }
    {
        let job = self.fields.job.take()?;
        Some(TakenJob { job })
    }

    /// Gives the store the job of the running compaction.
    pub fn set_job(&mut self, taken: TakenJob)
        requires none { self.old.job ≡ None }
        requires keeps { JobInvariant self.old taken.job }
        ensures { self.new ≡ record self.old { job = Some taken.job } }
    {
        let TakenJob { job } = taken;
        self.fields.job = Some(job);
    }

    /// Returns the log to compact among these, which are held: of those whose share of live bytes
    /// is below `threshold` thousandths the one with the smallest share, and of several such the
    /// one with the lowest id.
    pub fn least_used(&self, threshold: u32, allowed: &[u32]) -> Option<u32>
        requires { All (λ id. IsSome (map.get self.now.logs id)) allowed.now }
        ensures { IsTrue self.now.honest → IsLeastUsed self.now threshold allowed.now result }
    {
        self.fields.least_used(threshold, allowed)
    }

    /// Appends an entry that the index points to, to a target log, and returns its place.
    ///
    /// # Errors
    ///
    /// - `Memory`: nothing changes.
    /// - `Disk`: the device failed, and a part of the record, possibly all, was written. `Odd`: the
    ///   disk is not honest. The log becomes Readable and is written no more.
    ///
    /// `Failed` does not occur.
    pub fn append_copied(
        &mut self,
        log: u32,
        key: Key,
        payload: &[u8],
    ) -> Result<Location, LogFault>
        requires { (place : Place) × CanAppendCopied self.old log key place payload.now }
        ensures transition { AppendRecordTransition self.old log payload.now result self.new }
        ensures contents { IsTrue self.old.honest → SameContents self.old self.new }
    {
        self.fields.append_copied(log, key, payload)
    }

    /// Points a key from one place to another, in a later log where an entry of the key is
    /// published, if the index still points to the first. Returns whether it did. Does not
    /// allocate.
    pub fn relocate(&mut self, key: Key, from: Location, to: Location) -> bool
        requires { CanRelocate self.old key from to }
        ensures transition { RelocateTransition self.old key from to result self.new }
        ensures contents { IsTrue self.old.honest → SameContents self.old self.new }
    {
        self.fields.relocate(key, from, to)
    }

    /// Removes a closed log and its file, and frees its slot.
    ///
    /// # Errors
    ///
    /// `Memory`, `Disk` and `Odd`. The log stays closed, and its file remains; after `Disk` a crash
    /// may leave it or not. `Failed` does not occur.
    pub fn remove_log(&mut self, log: u32) -> Result<(), LogFault>
        requires { IsIn self.old log Closed }
        ensures transition { RemoveLogTransition self.old log result self.new }
        ensures contents { IsTrue self.old.honest → SameContents self.old self.new }
    {
        self.fields.remove_log(log)
    }
}
