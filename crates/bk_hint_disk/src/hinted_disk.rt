//! A disk whose views have hints.

ghost use Rattle.std.specs.Prelude.{◌≡◌, true, IsTrue};
ghost use Rattle.bk_hint_disk.specs.Truth.{AreTrue};

mod log_disk;

use crate::uses::Uses;
use crate::{HintStoreFault, Hints, MakeFault, Unused, UnusedWatch, make_hint};
use bk_disk::{DiskFault, LogDisk};
use bk_record::HEADER_LENGTH;
use std::alloc::{AllocError, Global};
use std::marker::Model;

/// A disk over another one, and a store of hints of its logs. After a `list`, the first view of each
/// log knows the records that its hint lists, if the hint may be used (`check_hint`): it lends their
/// runs (`lend_run`). Other views lend none, and no call but this first view reads a hint.
///
/// Until it is made, such a view takes time for each run of entries, and none for each entry.
///
/// The files are those of the inner disk. `create` and `remove` first drop the hint of the log. If
/// that fails, this disk believes no hint from then on: one may be left of an earlier log of the id.
#[derive(Drop)]
pub struct HintedDisk<D: LogDisk, H: Hints> {
    inner: D,
    hints: H,
    believed: bool,
    uses: Uses,
}

impl<D: LogDisk, H: Hints> Model for HintedDisk<D, H> {
    ghost use Rattle.std.specs.Prelude.{IsTrue};
    ghost use Rattle.bk_hint_disk.specs.Hinting.{Hinting, hinting_code};
    ghost use Rattle.bk_hint_disk.specs.Truth.{AreTrue};

    ghost Value = { Hinting };

    ghost coded = { hinting_code };

    ghost view = { λ disk. record {
      files = D.files disk.inner;
      kept = D.synced disk.inner;
      gone = D.gone disk.inner;
      honest = D.honest disk.inner;
      failures = D.failures disk.inner;
      hints = H.hints disk.hints;
      sure = H.honest disk.hints;
      believed = disk.believed;
    } };

    ghost invariant = { λ disk. IsTrue (D.honest disk.inner) → IsTrue (H.honest disk.hints) → IsTrue disk.believed
        → AreTrue (H.hints disk.hints) (D.files disk.inner) };
}

impl<D: LogDisk, H: Hints> HintedDisk<D, H> {
    /// Returns the disk of these logs and hints. On an honest disk and store each hint is true of its
    /// log.
    pub fn new(alloc: Global, inner: D, hints: H) -> HintedDisk<D, H>
        requires { IsTrue (D.honest inner) → IsTrue (H.honest hints) → AreTrue (H.hints hints) (D.files inner) }
        ensures { result ≡ record {
          files = D.files inner;
          kept = D.synced inner;
          gone = D.gone inner;
          honest = D.honest inner;
          failures = D.failures inner;
          hints = H.hints hints;
          sure = H.honest hints;
          believed = true;
        } }
    {
        HintedDisk {
            inner,
            hints,
            believed: true,
            uses: Uses::new(alloc),
        }
    }

    /// Returns the inner disk, which has the same files.
    pub fn inner(&self) -> &D
        ensures files { D.files result.now ≡ self.now.files }
        ensures honest { D.honest result.now ≡ self.now.honest }
        ensures failures { D.failures result.now ≡ self.now.failures }
    {
        &self.inner
    }

    /// Returns the hints that were there and not used, each with the reason, in the order of the
    /// views. One that could not be noted, since memory was refused, is missing.
    pub fn unused(&self) -> &[Unused] {
        self.uses.unused()
    }

    /// Returns a watch that lists the same hints, also after this disk was moved or dropped.
    ///
    /// # Errors
    ///
    /// - `AllocError` if memory for it was refused when this disk was made, or if no further watch
    ///   can be counted.
    pub fn unused_watch(&self, _alloc: Global) -> Result<UnusedWatch, AllocError> {
        self.uses.watch()
    }

    /// Does nothing. Reveals the type invariant: while hints are believed, each one is true of its
    /// log.
    pub fn reveal_invariant(&self)
        ensures { IsTrue self.now.honest → IsTrue self.now.sure → IsTrue self.now.believed → AreTrue self.now.hints self.now.files }
    {
        let _ = &self.believed;
    }

    /// Makes the hint of a sealed log, and puts it into the store. Returns whether it did: not if the
    /// log is not sealed, or `make_hint` makes no hint of it.
    ///
    /// # Errors
    ///
    /// - `NoLog` if there is no such log; `Memory`, `Disk`, `Store`, and `Odd` if the disk is not
    ///   honest. Whether the log has a hint then is not known.
    pub fn write_hint(&mut self, alloc: Global, log: u32) -> Result<bool, MakeFault>
        ensures same { self.new ≡ record self.old { files = self.new.files; kept = self.new.kept; gone = self.new.gone; failures = self.new.failures; hints = self.new.hints } }
        ensures files { IsTrue self.old.honest → self.new.files ≡ self.old.files }
    {
        let header = match self.inner.read_at(alloc, log, 0, HEADER_LENGTH as u64) {
            Ok(header) => header,
            Err(DiskFault::PastEnd) => return Ok(false),
            Err(fault) => return Err(MakeFault::of_disk(fault)),
        };
        let view = match self.inner.view(alloc, log) {
            Ok(view) => view,
            Err(fault) => return Err(MakeFault::of_disk(fault)),
        };
        match make_hint(alloc, log, &header, &view) {
            Ok(Some(hint)) => match self.hints.put(alloc, log, &hint) {
                Ok(()) => Ok(true),
                Err(HintStoreFault::Memory) => Err(MakeFault::Memory),
                Err(_) => Err(MakeFault::Store),
            },
            Ok(None) => Ok(false),
            Err(fault) => Err(fault),
        }
    }
}
