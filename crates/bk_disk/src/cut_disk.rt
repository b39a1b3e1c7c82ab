//! Trait of a disk whose logs can be truncated.

ghost use Rattle.std.specs.Prelude.{◌≡◌, IsTrue};
ghost use Rattle.bk_disk.specs.Disk.{FailsExactlyOnDiskFault};
ghost use Rattle.bk_disk.specs.Cutting.{Cuts, KeepsFrontDurable};

use crate::{DiskFault, LogDisk};
use std::alloc::Global;

/// A disk whose logs can be truncated.
pub trait CutDisk: LogDisk {
    /// Truncates a log to its first `length` bytes. A log that has no more stays as it is.
    ///
    /// # Errors
    ///
    /// - `NoLog` if there is no such log.
    /// - `Disk` leaves the log as it was, or truncated.
    /// - `Memory`.
    fn cut(&mut self, alloc: Global, log: u32, length: u64) -> Result<(), DiskFault>
        ensures honest { Self.honest self.new ≡ Self.honest self.old }
        ensures durable { IsTrue (Self.honest self.old)
            → KeepsFrontDurable log length (Self.synced self.old) (Self.gone self.old) (Self.synced self.new) (Self.gone self.new) }
        ensures cause { FailsExactlyOnDiskFault (Self.failures self.old) (Self.failures self.new) result }
        ensures transition { IsTrue (Self.honest self.old) → Cuts (Self.files self.old) log length result (Self.files self.new) };
}
