//! The two traits: a disk of entry logs, and a view of one log.
//!
//! A disk has files, whether it is honest, and how often its device has failed. The clauses on
//! files hold on an honest disk, which may fail. On any disk each call returns, honesty is
//! unchanged, and `Disk` is returned exactly if the number of failures rises.

ghost use Rattle.std.specs.Prelude.{◌≡◌, ℕ, ◌-◌, ◌<◌, ◌^◌, min, Bool, false, List, length, drop, IsTrue, IsErrOf, IfSome};
ghost use Rattle.std.specs.List.{All};
ghost use Rattle.bk_record.specs.Files.{Files};
ghost use Rattle.bk_disk.specs.Disk.{AreLogFiles, FailsExactlyOnDiskFault, Lists, Measures, Creates, Appends, Patches, Syncs};
ghost use Rattle.bk_disk.specs.Durable.{DurableGrows, IsAllDurable, SyncDurability, ListDurability, RemoveDurability};
ghost use Rattle.bk_disk.specs.Disk.{Reads, Views, Removes, ReadsView, ReadsInto, view_end};
ghost use Rattle.bk_disk.specs.Blocks.{HasPrefix};
ghost use Rattle.bk_disk.specs.Runs.{IsRunAt};

use crate::{DiskFault, RecordRun};
use bk_record::HEADER_LENGTH;
use std::alloc::Global;

/// The position at which a view begins: after the header of the log.
pub(crate) const HEADER: u64 = HEADER_LENGTH as u64;

/// The bytes of one log, from 1024 to `end`, as they were when the view was made. Threads may read
/// a view at the same time. A sound view never returns `Disk`.
pub trait LogView: Send + Sync + Drop {
    ghost bytes: { Self → List ℕ };

    ghost honest: { Self → Bool };

    ghost sound: { Self → Bool };

    /// Does nothing. Theorem: an honest view has bytes, numbers below 2^8.
    fn bounds(&self)
        ensures { IsTrue (honest self.now) → All (λ b. b < 2 ^ 8) (bytes self.now) };

    /// Returns the position at which the view ends: the length of the log when the view was made,
    /// and at least 1024.
    fn end(&self) -> u64
        ensures { IsTrue (honest self.now) → result ≡ view_end (bytes self.now) };

    /// Reads the bytes from position `at` on into the whole of `out`. Needs no memory.
    ///
    /// # Errors
    ///
    /// - `PastEnd` if the bytes are not between 1024 and `end`; `out` is unchanged.
    /// - `Disk` if the device fails, never on a sound view; `out` has any bytes.
    fn read_into(&self, at: u64, out: &mut [u8]) -> Result<(), DiskFault>
        ensures cause { IsErrOf result DiskFault.Disk → sound self.now ≡ false }
        ensures transition { IsTrue (honest self.now) → ReadsInto (bytes self.now) at (length out.old) result out.new };

    /// Returns bytes of the view from position `at` on that lie together in memory: any number of
    /// them, none if the view keeps no bytes in memory there. Calls no device.
    fn lend(&self, at: u64) -> &[u8]
        ensures { IsTrue (honest self.now) → HasPrefix (drop at (bytes self.now)) result.now }
    {
        &[]
    }

    /// Returns records that stand at position `at`, if the view knows their heads without reading
    /// them. Calls no device.
    fn lend_run(&self, at: u64) -> Option<RecordRun>
        ensures { IsTrue (honest self.now) → IfSome result (IsRunAt (bytes self.now) at) }
    {
        let _ = at;
        None
    }

    /// Returns `n` bytes from position `at` on.
    ///
    /// # Errors
    ///
    /// - `PastEnd` if the bytes are not between 1024 and `end`.
    /// - `Memory` if memory for the bytes is refused.
    /// - `Disk` if the device fails, never on a sound view.
    fn read_at(&self, alloc: Global, at: u64, n: u64) -> Result<Vec<u8>, DiskFault>
        ensures cause { IsErrOf result DiskFault.Disk → sound self.now ≡ false }
        ensures transition { IsTrue (honest self.now) → ReadsView (λ v. v.items) (bytes self.now) at n result }
    {
        let end = self.end();
        if at < HEADER || end < at || end - at < n {
            return Err(DiskFault::PastEnd);
        }
        let mut bytes = vec![in alloc; 0u8; n as usize].map_err(|_| DiskFault::Memory)?;
        self.read_into(at, &mut bytes)?;
        Ok(bytes)
    }
}

/// A set of entry logs, each a file of bytes with the id of the log.
///
/// `synced` is what a crash leaves of each log at least. `gone` are the removed files that a crash
/// may bring back. A call never makes less durable than before, except a removal, also one that
/// fails; a disk may make more durable at any time.
///
/// # Errors
///
/// Each call can fail with `Disk` if the device fails and with `Memory` if an allocation is
/// refused; the calls list the others. An error leaves the files unchanged, except `Disk` of
/// `append` and `patch`.
pub trait LogDisk: Send + Drop {
    type View: LogView;

    ghost files: { Self → Files };

    ghost synced: { Self → Files };

    ghost gone: { Self → Files };

    ghost honest: { Self → Bool };

    ghost failures: { Self → ℕ };

    /// Does nothing. Theorem: the ids of an honest disk are at most 2^31 - 1, and its files have at
    /// most 2^32 - 1 bytes, also after a failed append.
    fn bounds(&self)
        ensures { IsTrue (honest self.now) → AreLogFiles (files self.now) };

    /// Returns whether the device has lost bytes of a log for good: then no `sync` of the log
    /// succeeds until it is removed. Calls no device.
    fn is_lost(&self, log: u32) -> bool
        ensures { IsTrue (honest self.now) → result ≡ false };

    /// Returns whether all bytes of a log are durable already, so that no `sync` of it is needed.
    /// Calls no device.
    fn is_kept(&self, log: u32) -> bool
        ensures { IsTrue (honest self.now) → IsTrue result → IsAllDurable (files self.now) log (synced self.now) };

    /// Returns how often the device has failed in calls of this disk, at most 2^64 - 1. Calls no
    /// device.
    fn count_failures(&self) -> u64
        ensures { result ≡ min (failures self.now) (2 ^ 64 - 1) };

    /// Returns the ids of all logs, rising. After it no crash brings back a file that was removed
    /// before.
    fn list(&mut self, alloc: Global) -> Result<Vec<u32>, DiskFault>
        ensures honest { honest self.new ≡ honest self.old }
        ensures durable { IsTrue (honest self.old) → DurableGrows (synced self.old) (gone self.old) (synced self.new) (gone self.new) }
        ensures back { IsTrue (honest self.old) → ListDurability result (gone self.new) }
        ensures cause { FailsExactlyOnDiskFault (failures self.old) (failures self.new) result }
        ensures transition { IsTrue (honest self.old) → Lists (λ v. v.items) (files self.old) result (files self.new) };

    /// Returns the length of a log in bytes. Fails with `NoLog` if there is no such log.
    fn length(&mut self, alloc: Global, log: u32) -> Result<u64, DiskFault>
        ensures honest { honest self.new ≡ honest self.old }
        ensures durable { IsTrue (honest self.old) → DurableGrows (synced self.old) (gone self.old) (synced self.new) (gone self.new) }
        ensures cause { FailsExactlyOnDiskFault (failures self.old) (failures self.new) result }
        ensures transition { IsTrue (honest self.old) → Measures (files self.old) log result (files self.new) };

    /// Makes an empty log of an id of at most 2^31 - 1. Fails with `Exists` if there is one of that
    /// id.
    fn create(&mut self, alloc: Global, log: u32) -> Result<(), DiskFault>
        requires { log < 2 ^ 31 }
        ensures honest { honest self.new ≡ honest self.old }
        ensures durable { IsTrue (honest self.old) → DurableGrows (synced self.old) (gone self.old) (synced self.new) (gone self.new) }
        ensures cause { FailsExactlyOnDiskFault (failures self.old) (failures self.new) result }
        ensures transition { IsTrue (honest self.old) → Creates (files self.old) log result (files self.new) };

    /// Writes the bytes at the end of a log.
    ///
    /// # Errors
    ///
    /// - `NoLog` if there is no such log.
    /// - `TooLong` if the log would have more than 2^32 - 1 bytes.
    /// - `Disk` leaves the old bytes and a prefix of the new ones, possibly all of them.
    fn append(&mut self, alloc: Global, log: u32, bytes: &[u8]) -> Result<(), DiskFault>
        ensures honest { honest self.new ≡ honest self.old }
        ensures durable { IsTrue (honest self.old) → DurableGrows (synced self.old) (gone self.old) (synced self.new) (gone self.new) }
        ensures cause { FailsExactlyOnDiskFault (failures self.old) (failures self.new) result }
        ensures transition { IsTrue (honest self.old) → Appends (files self.old) log bytes.now result (files self.new) };

    /// Writes twelve bytes over those at position 8.
    ///
    /// # Errors
    ///
    /// - `NoLog` if there is no such log.
    /// - `PastEnd` if the log is shorter than 20 bytes.
    /// - `Disk` leaves any bytes at 8 to 20.
    fn patch(&mut self, alloc: Global, log: u32, bytes: &[u8; 12]) -> Result<(), DiskFault>
        ensures honest { honest self.new ≡ honest self.old }
        ensures durable { IsTrue (honest self.old) → DurableGrows (synced self.old) (gone self.old) (synced self.new) (gone self.new) }
        ensures cause { FailsExactlyOnDiskFault (failures self.old) (failures self.new) result }
        ensures transition { IsTrue (honest self.old) → Patches (files self.old) log bytes.now result (files self.new) };

    /// Makes all bytes of a log durable. Fails with `NoLog` if there is no such log.
    fn sync(&mut self, alloc: Global, log: u32) -> Result<(), DiskFault>
        ensures honest { honest self.new ≡ honest self.old }
        ensures durable { IsTrue (honest self.old) → DurableGrows (synced self.old) (gone self.old) (synced self.new) (gone self.new) }
        ensures syncs { IsTrue (honest self.old) → SyncDurability (files self.old) log result (synced self.new) }
        ensures cause { FailsExactlyOnDiskFault (failures self.old) (failures self.new) result }
        ensures transition { IsTrue (honest self.old) → Syncs (files self.old) log result (files self.new) };

    /// Returns `n` bytes of a log from position `at` on. Fails with `NoLog` if there is no such
    /// log, and with `PastEnd` if it is shorter.
    fn read_at(&mut self, alloc: Global, log: u32, at: u64, n: u64) -> Result<Vec<u8>, DiskFault>
        ensures honest { honest self.new ≡ honest self.old }
        ensures durable { IsTrue (honest self.old) → DurableGrows (synced self.old) (gone self.old) (synced self.new) (gone self.new) }
        ensures cause { FailsExactlyOnDiskFault (failures self.old) (failures self.new) result }
        ensures transition { IsTrue (honest self.old)
            → Reads (λ v. v.items) (files self.old) log at n result (files self.new) };

    /// Returns a view of a log as it is now. Fails with `NoLog` if there is no such log.
    fn view(&mut self, alloc: Global, log: u32) -> Result<Self::View, DiskFault>
        ensures honest { honest self.new ≡ honest self.old }
        ensures durable { IsTrue (honest self.old) → DurableGrows (synced self.old) (gone self.old) (synced self.new) (gone self.new) }
        ensures cause { FailsExactlyOnDiskFault (failures self.old) (failures self.new) result }
        ensures transition { IsTrue (honest self.old)
            → Views Self.View.bytes Self.View.honest (files self.old) log result (files self.new) };

    /// Removes a log, which a crash may bring back. Views of it stay. Fails with `NoLog` if there
    /// is no such log. After `Disk` a crash may leave the log or not, and a second call ends the
    /// removal.
    fn remove(&mut self, alloc: Global, log: u32) -> Result<(), DiskFault>
        ensures honest { honest self.new ≡ honest self.old }
        ensures durable { IsTrue (honest self.old) → RemoveDurability (files self.old) log result (synced self.old) (gone self.old) (synced self.new) (gone self.new) }
        ensures cause { FailsExactlyOnDiskFault (failures self.old) (failures self.new) result }
        ensures transition { IsTrue (honest self.old) → Removes (files self.old) log result (files self.new) };
}
