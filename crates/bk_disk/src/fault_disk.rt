//! Disk with one injected failure, for tests: a chosen call fails, or a chosen view is broken.

ghost use Rattle.std.specs.Prelude.{◌≡◌, ◌<◌, ◌^◌, false, IsTrue};
ghost use Rattle.bk_disk.specs.Disk.{FailsExactlyOnDiskFault, Lists, Measures, Creates, Appends, Patches, Syncs, Reads, Views, Removes};
ghost use Rattle.bk_disk.specs.Durable.{DurableGrows, SyncDurability, ListDurability, RemoveDurability};
ghost use Rattle.bk_disk.specs.Cutting.{Cuts, KeepsFrontDurable};
ghost use Rattle.bk_disk.specs.Failing.{failure_count, Counts, FailsUntouched, FailsKeeping, CountsView};

use crate::countdown::Countdown;
use crate::{CutDisk, DiskFault, FaultView, LogDisk};
use std::alloc::Global;
use std::marker::Model;

/// Another disk, of which one call fails or one view is broken.
#[derive(Drop)]
pub struct FaultDisk<D: LogDisk> {
    inner: D,
    calls: Countdown,
    shared: bool,
    views: Countdown,
    kept: usize,
}

impl<D: LogDisk> Model for FaultDisk<D> {
    ghost use Rattle.std.specs.Prelude.{IsTrue};
    ghost use Rattle.bk_disk.specs.Failing.{Failing, failing_code};

    ghost Value = { Failing };

    ghost coded = { failing_code };

    ghost view = { λ disk. record {
      files = D.files disk.inner;
      synced = D.synced disk.inner;
      gone = D.gone disk.inner;
      honest = D.honest disk.inner;
      failures = D.failures disk.inner;
      calls = disk.calls;
      shared = disk.shared;
      views = disk.views;
      kept = disk.kept;
    } };

    ghost invariant = { λ disk. IsTrue disk.shared → IsTrue disk.calls.reached };
}

impl<D: LogDisk> FaultDisk<D> {
    /// Returns the disk, of which call `k` of `LogDisk` fails, counted from 1; with `k` 0 none
    /// does.
    ///
    /// A failing append writes the first `kept` bytes of its piece, or all if it has fewer. Every
    /// other failing call leaves the files unchanged.
    pub fn new(inner: D, k: u64, kept: usize) -> Self
        ensures { result ≡ record {
          files = D.files inner;
          synced = D.synced inner;
          gone = D.gone inner;
          honest = D.honest inner;
          failures = D.failures inner;
          calls = record { left = k; reached = false };
          shared = false;
          views = record { left = 0; reached = false };
          kept = kept;
        } }
    {
        FaultDisk {
            inner,
            calls: Countdown::new(k),
            shared: false,
            views: Countdown::new(0),
            kept,
        }
    }

    /// Returns the disk, of which view `j` is broken, counted from 1; with `j` 0 none is. Only
    /// views that were made count.
    pub fn broken_view(inner: D, j: u64) -> Self
        ensures { result ≡ record {
          files = D.files inner;
          synced = D.synced inner;
          gone = D.gone inner;
          honest = D.honest inner;
          failures = D.failures inner;
          calls = record { left = 0; reached = false };
          shared = false;
          views = record { left = j; reached = false };
          kept = 0;
        } }
    {
        FaultDisk {
            inner,
            calls: Countdown::new(0),
            shared: false,
            views: Countdown::new(j),
            kept: 0,
        }
    }

    /// Returns whether the failing call has occurred.
    pub fn has_failed(&self) -> bool
        ensures { result ≡ self.now.calls.reached }
    {
        self.calls.is_reached()
    }
}

#[tactic(auto, using(crate::proofs::DurableGrows::kept_rules))]
impl<D: LogDisk> LogDisk for FaultDisk<D> {
    type View = FaultView<D::View>;

    ghost files = { λ disk. disk.files };

    ghost synced = { λ disk. disk.synced };

    ghost gone = { λ disk. disk.gone };

    ghost honest = { λ disk. disk.honest };

    ghost failures = { λ disk. failure_count disk };

    fn bounds(&self) {
        self.inner.bounds()
    }

    /// Returns whether the inner disk has lost the log. An injected failure loses none.
    fn is_lost(&self, log: u32) -> bool {
        self.inner.is_lost(log)
    }

    fn is_kept(&self, log: u32) -> bool {
        self.inner.is_kept(log)
    }

    fn count_failures(&self) -> u64 {
        let own = u64::from(self.calls.is_reached() && !self.shared);
        self.inner.count_failures().saturating_add(own)
    }

    fn list(&mut self, alloc: Global) -> Result<Vec<u32>, DiskFault>
        ensures honest { self.new.honest ≡ self.old.honest }
        ensures durable { IsTrue self.old.honest → DurableGrows self.old.synced self.old.gone self.new.synced self.new.gone }
        ensures back { IsTrue self.old.honest → ListDurability result self.new.gone }
        ensures cause { FailsExactlyOnDiskFault (failure_count self.old) (failure_count self.new) result }
        ensures transition { IsTrue self.old.honest → Lists (λ v. v.items) self.old.files result self.new.files }
        ensures counts { Counts self.old self.new result }
        ensures untouched { FailsUntouched self.old self.new }
        ensures views { self.new.views ≡ self.old.views }
    {
        if self.calls.count() {
            return Err(DiskFault::Disk);
        }
        self.inner.list(alloc)
    }

    fn length(&mut self, alloc: Global, log: u32) -> Result<u64, DiskFault>
        ensures honest { self.new.honest ≡ self.old.honest }
        ensures durable { IsTrue self.old.honest → DurableGrows self.old.synced self.old.gone self.new.synced self.new.gone }
        ensures cause { FailsExactlyOnDiskFault (failure_count self.old) (failure_count self.new) result }
        ensures transition { IsTrue self.old.honest → Measures self.old.files log result self.new.files }
        ensures counts { Counts self.old self.new result }
        ensures untouched { FailsUntouched self.old self.new }
        ensures views { self.new.views ≡ self.old.views }
    {
        if self.calls.count() {
            return Err(DiskFault::Disk);
        }
        self.inner.length(alloc, log)
    }

    fn create(&mut self, alloc: Global, log: u32) -> Result<(), DiskFault>
        requires { log < 2 ^ 31 }
        ensures honest { self.new.honest ≡ self.old.honest }
        ensures durable { IsTrue self.old.honest → DurableGrows self.old.synced self.old.gone self.new.synced self.new.gone }
        ensures cause { FailsExactlyOnDiskFault (failure_count self.old) (failure_count self.new) result }
        ensures transition { IsTrue self.old.honest → Creates self.old.files log result self.new.files }
        ensures counts { Counts self.old self.new result }
        ensures untouched { FailsUntouched self.old self.new }
        ensures views { self.new.views ≡ self.old.views }
    {
        if self.calls.count() {
            return Err(DiskFault::Disk);
        }
        self.inner.create(alloc, log)
    }

    fn append(&mut self, alloc: Global, log: u32, bytes: &[u8]) -> Result<(), DiskFault>
        ensures honest { self.new.honest ≡ self.old.honest }
        ensures durable { IsTrue self.old.honest → DurableGrows self.old.synced self.old.gone self.new.synced self.new.gone }
        ensures cause { FailsExactlyOnDiskFault (failure_count self.old) (failure_count self.new) result }
        ensures transition { IsTrue self.old.honest → Appends self.old.files log bytes.now result self.new.files }
        ensures counts { Counts self.old self.new result }
        ensures keeping { FailsKeeping self.old log bytes.now self.new }
        ensures views { self.new.views ≡ self.old.views }
    {
        if self.calls.count() {
            let kept = self.kept.min(bytes.len());
            let left = self.inner.append(alloc, log, &bytes[..kept]);
            self.shared = left == Err(DiskFault::Disk);
            return Err(DiskFault::Disk);
        }
        self.inner.append(alloc, log, bytes)
    }

    fn patch(&mut self, alloc: Global, log: u32, bytes: &[u8; 12]) -> Result<(), DiskFault>
        ensures honest { self.new.honest ≡ self.old.honest }
        ensures durable { IsTrue self.old.honest → DurableGrows self.old.synced self.old.gone self.new.synced self.new.gone }
        ensures cause { FailsExactlyOnDiskFault (failure_count self.old) (failure_count self.new) result }
        ensures transition { IsTrue self.old.honest → Patches self.old.files log bytes.now result self.new.files }
        ensures counts { Counts self.old self.new result }
        ensures untouched { FailsUntouched self.old self.new }
        ensures views { self.new.views ≡ self.old.views }
    {
        if self.calls.count() {
            return Err(DiskFault::Disk);
        }
        self.inner.patch(alloc, log, bytes)
    }

    fn sync(&mut self, alloc: Global, log: u32) -> Result<(), DiskFault>
        ensures honest { self.new.honest ≡ self.old.honest }
        ensures durable { IsTrue self.old.honest → DurableGrows self.old.synced self.old.gone self.new.synced self.new.gone }
        ensures syncs { IsTrue self.old.honest → SyncDurability self.old.files log result self.new.synced }
        ensures cause { FailsExactlyOnDiskFault (failure_count self.old) (failure_count self.new) result }
        ensures transition { IsTrue self.old.honest → Syncs self.old.files log result self.new.files }
        ensures counts { Counts self.old self.new result }
        ensures untouched { FailsUntouched self.old self.new }
        ensures views { self.new.views ≡ self.old.views }
    {
        if self.calls.count() {
            return Err(DiskFault::Disk);
        }
        self.inner.sync(alloc, log)
    }

    fn read_at(&mut self, alloc: Global, log: u32, at: u64, n: u64) -> Result<Vec<u8>, DiskFault>
        ensures honest { self.new.honest ≡ self.old.honest }
        ensures durable { IsTrue self.old.honest → DurableGrows self.old.synced self.old.gone self.new.synced self.new.gone }
        ensures cause { FailsExactlyOnDiskFault (failure_count self.old) (failure_count self.new) result }
        ensures transition { IsTrue self.old.honest → Reads (λ v. v.items) self.old.files log at n result self.new.files }
        ensures counts { Counts self.old self.new result }
        ensures untouched { FailsUntouched self.old self.new }
        ensures views { self.new.views ≡ self.old.views }
    {
        if self.calls.count() {
            return Err(DiskFault::Disk);
        }
        self.inner.read_at(alloc, log, at, n)
    }

    fn view(&mut self, alloc: Global, log: u32) -> Result<FaultView<D::View>, DiskFault>
        ensures honest { self.new.honest ≡ self.old.honest }
        ensures durable { IsTrue self.old.honest → DurableGrows self.old.synced self.old.gone self.new.synced self.new.gone }
        ensures cause { FailsExactlyOnDiskFault (failure_count self.old) (failure_count self.new) result }
        ensures transition { IsTrue self.old.honest → Views (λ v. v.bytes) (λ v. v.honest) self.old.files log result self.new.files }
        ensures counts { Counts self.old self.new result }
        ensures untouched { FailsUntouched self.old self.new }
        ensures views { CountsView self.old result self.new }
    {
        if self.calls.count() {
            return Err(DiskFault::Disk);
        }
        let inner = self.inner.view(alloc, log)?;
        let broken = self.views.count();
        Ok(FaultView { inner, broken })
    }

    fn remove(&mut self, alloc: Global, log: u32) -> Result<(), DiskFault>
        ensures honest { self.new.honest ≡ self.old.honest }
        ensures durable { IsTrue self.old.honest → RemoveDurability self.old.files log result self.old.synced self.old.gone self.new.synced self.new.gone }
        ensures cause { FailsExactlyOnDiskFault (failure_count self.old) (failure_count self.new) result }
        ensures transition { IsTrue self.old.honest → Removes self.old.files log result self.new.files }
        ensures counts { Counts self.old self.new result }
        ensures untouched { FailsUntouched self.old self.new }
        ensures views { self.new.views ≡ self.old.views }
    {
        if self.calls.count() {
            return Err(DiskFault::Disk);
        }
        self.inner.remove(alloc, log)
    }
}

#[tactic(auto, using(crate::proofs::Cutting::uncut_keeps))]
impl<D: CutDisk> CutDisk for FaultDisk<D> {
    fn cut(&mut self, alloc: Global, log: u32, length: u64) -> Result<(), DiskFault>
        ensures honest { self.new.honest ≡ self.old.honest }
        ensures durable { IsTrue self.old.honest → KeepsFrontDurable log length self.old.synced self.old.gone self.new.synced self.new.gone }
        ensures cause { FailsExactlyOnDiskFault (failure_count self.old) (failure_count self.new) result }
        ensures transition { IsTrue self.old.honest → Cuts self.old.files log length result self.new.files }
        ensures counts { Counts self.old self.new result }
        ensures untouched { FailsUntouched self.old self.new }
        ensures views { self.new.views ≡ self.old.views }
    {
        if self.calls.count() {
            return Err(DiskFault::Disk);
        }
        self.inner.cut(alloc, log, length)
    }
}
