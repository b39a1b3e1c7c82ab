//! Read access to a store, for the crates above.

ghost use Rattle.std.specs.Prelude.{◌≡◌, ◌<◌, ◌≤◌, ◌↔◌, ◌^◌, Ok, IsSome, IsTrue, IfSome, length, option_map, slice_get};
ghost use Rattle.std.specs.FinMap as map;
ghost use Rattle.bk_record.specs.Files.{header_length};
ghost use Rattle.bk_record.specs.Keyed.{log_count};
ghost use Rattle.bk_record.specs.Limits.{max_added};
ghost use Rattle.bk_record.specs.Record.{read_added};
ghost use Rattle.bk_cache.specs.Caches.{flush_of};
ghost use Rattle.bk_store.specs.Primitives.{IsNextEntry, IsWritingLog, CanCreateLogAnswer, writer_of};
ghost use Rattle.bk_store.specs.Limits.{IsAllowed};
ghost use Rattle.bk_store.specs.Logs.{IsFlushLog, IsNextHeld, last_view, view_of};
ghost use Rattle.bk_store.specs.Transitions.{is_dead};

use crate::{MakeFault, Settings, Store};
use bk_disk::LogDisk;
use bk_index::Index;
use bk_log::LogWriter;
use bk_record::{Key, Location};
use std::alloc::Global;
use std::sync::Arc;

impl<D: LogDisk> Store<D> {
    /// Returns the limits and thresholds.
    pub fn settings(&self) -> Settings
        ensures value { result ≡ self.now.settings }
        ensures allowed { IsAllowed result }
    {
        self.fields.settings
    }

    /// Returns the allocator for collections of the caller.
    pub fn alloc(&self) -> Global {
        self.fields.alloc
    }

    /// Returns whether a ledger is deleted.
    pub fn is_dead(&self, ledger: u64) -> bool
        ensures { result ≡ is_dead self.now ledger }
    {
        self.fields.ledgers.is_dead(ledger)
    }

    /// Returns the least id, from this one on, of a log that is held. Repeated calls walk over all
    /// logs.
    pub fn log_from(&self, id: u32) -> Option<u32>
        ensures value { IsNextHeld self.now.logs id result }
        ensures bound { IfSome result (λ log. log < 2 ^ 31) }
    {
        self.fields.logs.next_from(id)
    }

    /// Returns the last view of a log, and `None` if the log is not held or has none.
    pub fn log_view(&self, id: u32) -> Option<&Arc<D::View>>
        ensures { option_map (λ view. view_of D.View.bytes D.View.honest D.View.sound view.now.value) result ≡ last_view self.now.logs id }
    {
        self.fields.logs.view(id)
    }

    /// Returns the Writing log.
    pub fn writing(&self) -> Option<u32>
        ensures { IsWritingLog self.now result }
    {
        self.fields.writing
    }

    /// Returns the writer of a log, and `None` if the log is not held or not written. A log without
    /// records ends where its header ends.
    pub fn writer(&self, id: u32) -> Option<&LogWriter>
        ensures value { option_map (λ writer. writer.now) result ≡ writer_of self.now.logs id }
        ensures empty { IfSome result (λ writer. writer.now.count ≡ 0 → writer.now.end ≡ header_length) }
    {
        self.fields.logs.writer(id)
    }

    /// Returns whether the next log can be created.
    ///
    /// # Errors
    ///
    /// - `LogsFull`: every slot is taken.
    /// - `NoMoreIds`: the last id is used.
    pub fn can_create_log(&self) -> Result<(), MakeFault>
        ensures { CanCreateLogAnswer self.now result }
    {
        self.fields.can_create_log()
    }

    /// Returns whether a flush is running.
    pub fn is_flushing(&self) -> bool
        ensures { IsTrue result ↔ IsSome self.now.caches.flush }
    {
        self.fields.caches.is_flushing()
    }

    /// Returns the number of entries of the running flush, 0 if none is running.
    pub fn flush_len(&self) -> u64
        ensures { result ≡ map.len (flush_of self.now.caches) }
    {
        self.fields.caches.flush_len()
    }

    /// Returns the first entry of the flush, in key order, that has no place: its key, and its
    /// payload of 16 to 5,000,000 bytes. Returns `None` if every entry has a place or no flush is
    /// running.
    pub fn next_entry(&self) -> Option<(Key, &Arc<Vec<u8>>)>
        ensures next { IsNextEntry self.now (option_map (λ e. (e.0, e.1.now.value.items)) result) }
        ensures keyed { IfSome result (λ e. read_added e.1.now.value.items ≡ Ok e.0) }
        ensures least { IfSome result (λ e. 16 ≤ length e.1.now.value.items) }
        ensures most { IfSome result (λ e. length e.1.now.value.items ≤ max_added) }
    {
        self.fields.caches.flushing_after(self.fields.places.last())
    }

    /// Returns how many entries of the flush have a place.
    pub fn placed_len(&self) -> usize
        ensures { result ≡ map.len self.now.places }
    {
        self.fields.places.len()
    }

    /// Returns the key and the place of an entry of the flush, by its number in key order.
    pub fn placed(&self, number: usize) -> Option<(Key, Location)>
        ensures value { result ≡ slice_get (map.entries self.now.places) number }
        ensures log { IfSome result (λ e. IsFlushLog self.now.logs e.1.log) }
    {
        self.fields.placed(number)
    }

    /// Returns how many index entries point into a log, and `None` if the log is not held.
    pub fn named(&self, id: u32) -> Option<u64>
        ensures { result ≡ option_map (λ _. log_count self.now.index id) (map.get self.now.logs id) }
    {
        self.fields.accounts.named(id).ok()
    }

    /// Returns the index.
    pub fn index(&self) -> &Index
        ensures { result.now ≡ self.now.index }
    {
        &self.fields.index
    }
}
