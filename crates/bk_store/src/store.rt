//! The store: one state, with an invariant.
//!
//! Its visible state is the record of `specs/State.antt`, and each call is one transition of it.
//! The invariant is in `specs/Invariant.antt`: on an honest disk files, index and write caches
//! represent one map, and the accounts are sums over the acknowledged entries.

ghost use Rattle.std.specs.Prelude.{◌≡◌, ◌↔◌, Some, IsTrue, IsErrOf, IfOk, IfErr, length, option_map};
ghost use Rattle.std.specs.FinMap as map;
ghost use Rattle.bk_disk.specs.Disk.{AreSound};
ghost use Rattle.bk_store.specs.Abstract.{SatisfiesInvariant};
ghost use Rattle.bk_store.specs.Limits.{IsAllowed};
ghost use Rattle.bk_store.specs.Opening.{IsOpened, NeverFails, OpenFails};
ghost use Rattle.bk_store.specs.CrashSafety.{SurvivesCrash, DurableMarksSurvive};
ghost use Rattle.bk_store.specs.Transitions.{AddTransition, TakeTransition, DeleteTransition, FenceTransition, SwapTransition};
ghost use Rattle.bk_store.specs.declared.adding.AddKind.TheVariants.{Ordinary, Recovery};

use crate::fields::Fields;
use crate::{
    AddFault, AddKind, Added, DeleteFault, Fence, FenceFault, LogState, Mark, OpenFault, Prepared,
    Settings, SwapAnswer, TakeFault, Taken,
};
use bk_disk::LogDisk;
use bk_record::Key;
use std::alloc::Global;
use std::marker::Model;

/// A store of entries over a disk of entry logs.
#[derive(Drop)]
pub struct Store<D: LogDisk> {
    pub(crate) fields: Fields<D>,
}

impl<D: LogDisk> Model for Store<D> {
    ghost use Rattle.bk_store.specs.State.{State, state_code};

    ghost Value = { State };

    ghost coded = { state_code };

    ghost use Rattle.bk_store.specs.Invariant.{StoreInvariant};

    ghost view = { λ s. s.fields.state };

    ghost invariant = { λ s. StoreInvariant s.fields };
}

impl<D: LogDisk> Store<D> {
    /// Opens a store on the entry logs of a disk.
    ///
    /// Scans every log once, in order of log id, and syncs it unless the disk keeps it already. Builds
    /// the index and the accounts in memory; no log is loaded as a whole. If a key has several
    /// records, the last one wins, by log id, then position. All bytes found are published, and logs
    /// found are never appended to. The next log id is one more than the largest id found, or 0.
    ///
    /// `dead` lists the ledgers deleted earlier; deletions are not stored in the logs. Duplicates
    /// and values above 2^63 - 1 are ignored.
    ///
    /// # Errors
    ///
    /// In this order; the disk is dropped with every error:
    ///
    /// - `Settings`: a setting is out of range (see `Settings`).
    /// - `LogsFull`: there are more logs than `settings.slots`.
    /// - per log, by id: `TooLong` if the file is longer than 2^32 - 1 bytes; `Log` if the header's
    ///   magic or version is invalid, or a record's length field is below 16. A file shorter than a
    ///   header is an empty log. A torn record at the end is ignored.
    ///
    /// `Disk` (the device failed, or a view could not be read), `Memory` and `Odd` can occur at any
    /// point. A successful open met no device failure. `Disk` does not occur if the device never
    /// fails and views are sound.
    pub fn open(
        alloc: Global,
        disk: D,
        settings: Settings,
        dead: &[u64],
    ) -> Result<Store<D>, OpenFault>
        ensures settings { IsErrOf result OpenFault.Settings ↔ ¬ (IsAllowed settings) }
        ensures honest { IfOk result (λ s. s.honest ≡ D.honest disk) }
        ensures failures { IfOk result (λ s. s.failures ≡ D.failures disk) }
        ensures opened { IfOk result (λ s. IsOpened (D.honest disk) (D.files disk) settings dead.now s) }
        ensures fails { IfErr result (λ fault. IsTrue (D.honest disk) → OpenFails (D.files disk) settings fault) }
        ensures unfailing { NeverFails D.failures → AreSound D.View.sound → ¬ (IsErrOf result OpenFault.Disk) }
    {
        let fields = Fields::open(alloc, disk, settings, dead)?;
        Ok(Store { fields })
    }

    /// Adds an entry and returns a receipt, or returns `Held` if the store has an entry of this
    /// key, which is unchanged.
    ///
    /// The payload is the ledger id and the entry id, 8 bytes each, big-endian, followed by the
    /// data. An accepted entry has a mark in the trail.
    ///
    /// # Errors
    ///
    /// In this order; each leaves the store unchanged:
    ///
    /// - `Bad`: the payload is not that of an entry.
    /// - `Deleted`: the ledger is deleted.
    /// - `Fenced`: the ledger is fenced.
    /// - `Full`: the key is new, and the payload does not fit into the active cache.
    /// - `Memory`: the key is new, and an allocation failed.
    pub fn add(&mut self, payload: &[u8]) -> Result<Added, AddFault>
        ensures { AddTransition self.old Ordinary payload.now result self.new }
    {
        self.fields.add(AddKind::Ordinary, payload)
    }

    /// Adds an entry as `add` does, to a fenced ledger too. A recovery fences the ledger, then adds
    /// the entries that its writer did not write everywhere.
    ///
    /// # Errors
    ///
    /// Those of `add` except `Fenced`.
    pub fn add_recovery(&mut self, payload: &[u8]) -> Result<Added, AddFault>
        ensures { AddTransition self.old Recovery payload.now result self.new }
    {
        self.fields.add(AddKind::Recovery, payload)
    }

    /// Adds a prepared entry, as `add` or `add_recovery` does. Allocates only for its key and its
    /// mark.
    ///
    /// # Errors
    ///
    /// Those of an add of this kind except `Bad`.
    pub fn add_prepared(&mut self, kind: AddKind, entry: Prepared) -> Result<Added, AddFault>
        ensures { AddTransition self.old kind entry result self.new }
    {
        self.fields.add_prepared(kind, entry)
    }

    /// Fences a ledger: ordinary adds to it fail until the ledger is deleted or the store is opened
    /// again. Any number may be fenced, also one that is not a ledger id.
    ///
    /// # Errors
    ///
    /// In this order; each leaves the store unchanged:
    ///
    /// - `Deleted`: the ledger is deleted.
    /// - `Memory`: the ledger is not fenced yet, and an allocation failed.
    pub fn fence(&mut self, ledger: u64) -> Result<Fence, FenceFault>
        ensures { FenceTransition self.old ledger result self.new }
    {
        self.fields.fence(ledger)
    }

    /// Returns the number of marks in the trail, which is the number of the next mark.
    pub fn front(&self) -> u64
        ensures { result ≡ length self.now.ledgers.trail }
    {
        self.fields.ledgers.front()
    }

    /// Returns the trail: one mark for each add, deletion and fence accepted since the opening, in
    /// order.
    pub fn trail(&self) -> &[Mark]
        ensures { result.now ≡ self.now.ledgers.trail }
    {
        self.fields.ledgers.trail()
    }

    /// Returns the payload of a key from a cache, or a lease on the log that has it. The log is not
    /// closed while the lease exists.
    ///
    /// # Errors
    ///
    /// Each leaves the store unchanged, and no lease of the call is out:
    ///
    /// - `Memory`: the store has the entry, and an allocation failed.
    /// - `NoSeat`: the lease table cannot have a further owner.
    /// - `TooMany`: the log has as many leases as one log may have.
    pub fn take(&mut self, key: Key) -> Result<Taken<D::View>, TakeFault>
        ensures { TakeTransition D.View.bytes D.View.honest D.View.sound self.old key result self.new }
    {
        self.fields.take(key)
    }

    /// Deletes a ledger, and returns how many of its keys the store had.
    ///
    /// Removes its entries from the caches, the running flush, the index and the accounts, clears
    /// its fence, and appends a `Delete` mark to the trail. The ledger stays deleted for the
    /// lifetime of the store. Files are not changed, and a flush without entries still runs. Any
    /// number may be deleted, also one that is not a ledger id (this project's rule).
    ///
    /// # Errors
    ///
    /// In this order; each leaves the store unchanged:
    ///
    /// - `AlreadyDeleted`: the ledger was deleted before.
    /// - `Memory`: an allocation failed.
    pub fn delete(&mut self, ledger: u64) -> Result<u64, DeleteFault>
        ensures { DeleteTransition self.old ledger result self.new }
    {
        self.fields.delete(ledger)
    }

    /// Begins a flush: makes the active cache the flushing cache, and notes the number of marks as
    /// the swapped front. If a flush is running, nothing changes. If no flush is running and the
    /// active cache is empty, all marks are durable, and both fronts become their number.
    pub fn swap(&mut self) -> SwapAnswer
        ensures { SwapTransition self.old result self.new }
    {
        self.fields.swap()
    }

    /// Reveals the invariant of the store to a proof. Does nothing.
    pub fn reveal_invariant(&self)
        ensures { SatisfiesInvariant self.now }
    {
        // Lemma: no key is in both write caches.
        let _ = self.fields.caches.limit();
    }

    /// Returns the disk. Its files, its honesty and its failure count are those of the state.
    pub fn disk(&self) -> &D
        ensures files { D.files result.now ≡ self.now.files }
        ensures honest { D.honest result.now ≡ self.now.honest }
        ensures failures { D.failures result.now ≡ self.now.failures }
    {
        self.fields.disk()
    }

    /// Returns the disk, with the theorem of crash safety.
    ///
    /// Power may fail before and after any call. A store opened on whatever files are left then,
    /// with at least these deleted ledgers, has each entry of a live ledger that the index had, and
    /// no entry that this store did not have. So it has each entry whose mark is below the durable
    /// front.
    pub fn survives_crash(&self) -> &D
        ensures files { D.files result.now ≡ self.now.files }
        ensures honest { D.honest result.now ≡ self.now.honest }
        ensures survives_crash { IsTrue self.now.honest → SurvivesCrash (D.synced result.now) (D.gone result.now) self.now }
        ensures durable_marks { IsTrue self.now.honest → DurableMarksSurvive (D.synced result.now) (D.gone result.now) self.now }
    {
        self.fields.disk()
    }

    /// Returns the state of a log, and `None` if the log is not held.
    pub fn log_state(&self, id: u32) -> Option<LogState>
        ensures { result ≡ option_map (λ log. log.state) (map.get self.now.logs id) }
    {
        Some(self.fields.logs.get(id)?.state)
    }
}
