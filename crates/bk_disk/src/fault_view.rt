//! View of a disk with an injected failure.

ghost use Rattle.std.specs.Prelude.{◌≡◌, false, ◌&&◌, not, length, IsTrue, IsErrOf};
ghost use Rattle.bk_disk.specs.Disk.{ReadsView, ReadsInto};

use crate::{DiskFault, LogView};
use std::alloc::Global;
use std::marker::Model;

/// A view of a `FaultDisk`. If it is broken, every read fails with `Disk`; otherwise it is the
/// inner view.
#[derive(Drop)]
pub struct FaultView<V: LogView> {
    pub(crate) inner: V,
    pub(crate) broken: bool,
}

impl<V: LogView> Model for FaultView<V> {
    ghost use Rattle.bk_disk.specs.Failing.{FailingView, failing_view_code};

    ghost Value = { FailingView };

    ghost coded = { failing_view_code };

    ghost view = { λ view. record {
      bytes = V.bytes view.inner;
      honest = V.honest view.inner;
      sound = V.sound view.inner;
      broken = view.broken;
    } };
}

impl<V: LogView> LogView for FaultView<V> {
    ghost bytes = { λ view. view.bytes };

    ghost honest = { λ view. view.honest };

    ghost sound = { λ view. view.sound && not view.broken };

    fn bounds(&self) {
        self.inner.bounds()
    }

    fn end(&self) -> u64 {
        self.inner.end()
    }

    fn read_into(&self, at: u64, out: &mut [u8]) -> Result<(), DiskFault>
        ensures cause { IsErrOf result DiskFault.Disk → (self.now.sound && not self.now.broken) ≡ false }
        ensures transition { IsTrue self.now.honest → ReadsInto self.now.bytes at (length out.old) result out.new }
        ensures broken { IsTrue self.now.broken → IsErrOf result DiskFault.Disk }
    {
        if self.broken {
            return Err(DiskFault::Disk);
        }
        self.inner.read_into(at, out)
    }

    fn read_at(&self, alloc: Global, at: u64, n: u64) -> Result<Vec<u8>, DiskFault>
        ensures cause { IsErrOf result DiskFault.Disk → (self.now.sound && not self.now.broken) ≡ false }
        ensures transition { IsTrue self.now.honest → ReadsView (λ v. v.items) self.now.bytes at n result }
        ensures broken { IsTrue self.now.broken → IsErrOf result DiskFault.Disk }
    {
        if self.broken {
            return Err(DiskFault::Disk);
        }
        self.inner.read_at(alloc, at, n)
    }
}
