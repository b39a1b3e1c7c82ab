//! The trait of a store of hints.

ghost use Rattle.std.specs.Prelude.{◌≡◌, Bool, IsTrue};
ghost use Rattle.bk_record.specs.Files.{Files};
ghost use Rattle.bk_hint_disk.specs.Hints.{bytes_in, Drops, Gets, Puts};

use crate::HintStoreFault;
use std::alloc::Global;

/// A store of hints: bytes by log id. A store may lose a hint at any time before it is told to keep
/// it, and nothing is said of a crash: what it has then has to be checked.
///
/// # Errors
///
/// Each call can fail with `Disk` if the device fails and with `Memory` if an allocation is refused.
pub trait Hints: Send + Drop {
    ghost hints: { Self → Files };

    ghost honest: { Self → Bool };

    /// Returns the hint of a log, `None` if there is none.
    fn get(&mut self, alloc: Global, log: u32) -> Result<Option<Vec<u8>>, HintStoreFault>
        ensures honest { honest self.new ≡ honest self.old }
        ensures transition { IsTrue (honest self.old) → Gets bytes_in (hints self.old) log result (hints self.new) };

    /// Makes these bytes the hint of a log. An error leaves the old hint, the new one or none.
    fn put(&mut self, alloc: Global, log: u32, hint: &[u8]) -> Result<(), HintStoreFault>
        ensures honest { honest self.new ≡ honest self.old }
        ensures transition { IsTrue (honest self.old) → Puts (hints self.old) log hint.now result (hints self.new) };

    /// Removes the hint of a log, if there is one. An error leaves the hint or none.
    fn drop_hint(&mut self, alloc: Global, log: u32) -> Result<(), HintStoreFault>
        ensures honest { honest self.new ≡ honest self.old }
        ensures transition { IsTrue (honest self.old) → Drops (hints self.old) log result (hints self.new) };
}
