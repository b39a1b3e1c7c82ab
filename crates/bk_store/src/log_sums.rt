//! Bytes of the logs that a store holds, summed over all of them.

ghost use Rattle.std.specs.Prelude.{◌≡◌, IsTrue};
ghost use Rattle.bk_accounts.specs.Book.{total_at, remaining_at};
ghost use Rattle.bk_store.specs.CompactionPrimitives.{log_bytes, live_log_bytes};
ghost use Rattle.bk_store.specs.Invariant.{StoreInvariant};
ghost use Rattle.bk_store.specs.LogSums.{over_logs};

use crate::Store;
use crate::fields::Fields;
use bk_disk::LogDisk;

/// Bytes of the records of several logs, length fields included.
#[derive(Clone, Copy, Debug, PartialEq, Eq)]
pub struct LogBytes {
    /// Bytes of the records of all entries.
    pub total: u64,
    /// Bytes of those of live ledgers.
    pub live: u64,
}

impl<D: LogDisk> Fields<D> {
    // The bytes of a log that its account counts, and of those of live ledgers.
    fn counted(&self, id: u32) -> (u32, u32)
        ensures total { result.0 ≡ total_at self.now.accounts id }
        ensures live { result.1 ≡ remaining_at self.now.accounts id }
    {
        let total = self.accounts.total(id).unwrap_or(0);
        let live = self.accounts.remaining(id).unwrap_or(0);
        (total, live)
    }

    /// Returns the bytes that the accounts count.
    pub fn bytes(&self) -> LogBytes
        requires { StoreInvariant self.now }
        ensures total { result.total ≡ over_logs self.now.state.logs (total_at self.now.accounts) }
        ensures live { result.live ≡ over_logs self.now.state.logs (remaining_at self.now.accounts) }
    {
        let mut total: u64 = 0;
        let mut live: u64 = 0;
        let mut from = 0;
        while let Some(id) = self.logs.next_from(from) {
            let counted = self.counted(id);
            total += u64::from(counted.0);
            live += u64::from(counted.1);
            from = id + 1;
        }
        LogBytes { total, live }
    }
}

impl<D: LogDisk> Store<D> {
    /// Returns the bytes of the records of all logs. Visits each log once.
    pub fn bytes(&self) -> LogBytes
        ensures total { IsTrue self.now.honest → result.total ≡ over_logs self.now.logs (log_bytes self.now) }
        ensures live { IsTrue self.now.honest → result.live ≡ over_logs self.now.logs (live_log_bytes self.now) }
    {
        self.fields.bytes()
    }
}
