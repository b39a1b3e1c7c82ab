//! A disk whose power fails: it passes on N calls; each later call fails and changes nothing, but
//! an append during which the power fails may write a prefix of its bytes.

ghost use Rattle.std.specs.Prelude.{◌≡◌, ◌↔◌, ◌+◌, ◌<◌, ◌^◌, false, length, take, IsTrue, OnErr};
ghost use Rattle.std.specs.Bool.{OnTrue, OnFalse};
ghost use Rattle.std.specs.FinMap as map;
ghost use Rattle.bk_disk.specs.Disk.{FailsExactlyOnDiskFault, Lists, Measures, Creates, Appends, Patches, Syncs, Reads, Views, Removes};
ghost use Rattle.bk_disk.specs.Cutting.{Cuts, KeepsFrontDurable};
ghost use Rattle.bk_disk.specs.Durable.{DurableGrows, ListDurability, SyncDurability, RemoveDurability};
ghost use Rattle.bk_crash.specs.Noting.{IsNoted, IsNotedInPart, noted, made_log, longer_log, patched_log, synced_log, cut_log, with_removed};
ghost use Rattle.bk_crash.specs.AllLogs.{logs_of, gone_of};
ghost use Rattle.bk_crash.specs.Power.{IsOff, WritesFront};

use crate::Written;
use bk_disk::{CutDisk, DiskFault, LogDisk};
use std::alloc::Global;

/// A disk that passes on N calls and records them, to compute what a loss of power may leave.
#[derive(Drop)]
pub struct PowerDisk<D: LogDisk> {
    inner: D,
    written: Written,
    power: Power,
    /// Number of bytes that are written of the append during which the power fails.
    kept: usize,
}

/// Number of calls left that have power, and number of calls refused since.
#[derive(Drop)]
struct Power {
    left: u64,
    refused: u64,
    ghost spent: { 0 < refused → left ≡ 0 },
}

impl Power {
    /// Counts a call and returns whether it has no power. After 2^64 - 1 refused calls the power is
    /// back.
    fn fails(&mut self) -> bool
        ensures yes { OnTrue result (self.new.refused ≡ self.old.refused + 1) }
        ensures no { OnFalse result (self.new.refused ≡ self.old.refused) }
        ensures spent { OnTrue result (self.old.left ≡ 0) }
        ensures less { OnFalse result (0 < self.old.left → self.old.left ≡ self.new.left + 1) }
        ensures off { IsOff self.old.refused → IsTrue result }
    {
        if self.left > 0 {
            self.left -= 1;
            return false;
        }
        match self.refused.checked_add(1) {
            Some(more) => {
                self.refused = more;
                true
            }
            None => false,
        }
    }
}

impl<D: LogDisk> PowerDisk<D> {
    /// Returns a disk with power for `calls` calls. `written` records the logs of `inner`. If the
    /// power fails during an append, at most `kept` bytes of it are written.
    pub fn new(inner: D, written: Written, calls: u64, kept: usize) -> Self
        ensures files { D.files result.inner ≡ D.files inner }
        ensures written { result.written ≡ written }
        ensures power { (result.power.left ≡ calls) × (result.power.refused ≡ 0) × (result.kept ≡ kept) }
    {
        PowerDisk {
            inner,
            written,
            power: Power {
                left: calls,
                refused: 0,
            },
            kept,
        }
    }

    /// Returns whether the power has failed: a call was refused.
    pub fn is_dead(&self) -> bool
        ensures { IsTrue result ↔ (0 < self.now.power.refused) }
    {
        self.power.refused > 0
    }

    /// Returns the record of what was written.
    pub fn written(&self) -> &Written
        ensures { result.now ≡ self.now.written }
    {
        &self.written
    }
}

#[tactic(auto, using(bk_disk::proofs::DurableGrows::kept_rules))]
impl<D: LogDisk> LogDisk for PowerDisk<D> {
    type View = D::View;

    ghost files = { λ disk. D.files disk.inner };

    ghost synced = { λ disk. D.synced disk.inner };

    ghost gone = { λ disk. D.gone disk.inner };

    ghost honest = { λ disk. D.honest disk.inner };

    ghost failures = { λ disk. D.failures disk.inner + disk.power.refused };

    fn bounds(&self) {
        self.inner.bounds()
    }

    fn is_lost(&self, log: u32) -> bool {
        self.inner.is_lost(log)
    }

    /// Returns false: what was not synced may be lost with the power.
    fn is_kept(&self, _log: u32) -> bool {
        let _ = &self.inner;
        false
    }

    fn count_failures(&self) -> u64 {
        self.inner
            .count_failures()
            .saturating_add(self.power.refused)
    }

    fn list(&mut self, alloc: Global) -> Result<Vec<u32>, DiskFault>
        ensures honest { D.honest self.new.inner ≡ D.honest self.old.inner }
        ensures durable { IsTrue (D.honest self.old.inner)
            → DurableGrows (D.synced self.old.inner) (D.gone self.old.inner) (D.synced self.new.inner) (D.gone self.new.inner) }
        ensures back { IsTrue (D.honest self.old.inner) → ListDurability result (D.gone self.new.inner) }
        ensures cause { FailsExactlyOnDiskFault (D.failures self.old.inner + self.old.power.refused) (D.failures self.new.inner + self.new.power.refused) result }
        ensures transition { IsTrue (D.honest self.old.inner) → Lists (λ v. v.items) (D.files self.old.inner) result (D.files self.new.inner) }
        ensures noted { logs_of self.new.written ≡ logs_of self.old.written }
        ensures gone { IsNoted result (gone_of self.old.written) (gone_of self.new.written) map.empty }
        ensures dead { IsOff self.old.power.refused → (self.new.inner ≡ self.old.inner) × (self.new.written ≡ self.old.written) }
    {
        if self.power.fails() {
            return Err(DiskFault::Disk);
        }
        let listed = self.inner.list(alloc);
        if listed.is_ok() {
            self.written.list(alloc);
        }
        listed
    }

    fn length(&mut self, alloc: Global, log: u32) -> Result<u64, DiskFault>
        ensures honest { D.honest self.new.inner ≡ D.honest self.old.inner }
        ensures durable { IsTrue (D.honest self.old.inner)
            → DurableGrows (D.synced self.old.inner) (D.gone self.old.inner) (D.synced self.new.inner) (D.gone self.new.inner) }
        ensures cause { FailsExactlyOnDiskFault (D.failures self.old.inner + self.old.power.refused) (D.failures self.new.inner + self.new.power.refused) result }
        ensures transition { IsTrue (D.honest self.old.inner) → Measures (D.files self.old.inner) log result (D.files self.new.inner) }
        ensures dead { IsOff self.old.power.refused → (self.new.inner ≡ self.old.inner) × (self.new.written ≡ self.old.written) }
    {
        if self.power.fails() {
            return Err(DiskFault::Disk);
        }
        self.inner.length(alloc, log)
    }

    fn create(&mut self, alloc: Global, log: u32) -> Result<(), DiskFault>
        requires { log < 2 ^ 31 }
        ensures honest { D.honest self.new.inner ≡ D.honest self.old.inner }
        ensures durable { IsTrue (D.honest self.old.inner)
            → DurableGrows (D.synced self.old.inner) (D.gone self.old.inner) (D.synced self.new.inner) (D.gone self.new.inner) }
        ensures cause { FailsExactlyOnDiskFault (D.failures self.old.inner + self.old.power.refused) (D.failures self.new.inner + self.new.power.refused) result }
        ensures transition { IsTrue (D.honest self.old.inner) → Creates (D.files self.old.inner) log result (D.files self.new.inner) }
        ensures noted { self.new.written.is_lost ≡ false → IsNoted result (logs_of self.old.written) (logs_of self.new.written) (map.insert (logs_of self.old.written) log made_log) }
        ensures gone { gone_of self.new.written ≡ gone_of self.old.written }
        ensures dead { IsOff self.old.power.refused → (self.new.inner ≡ self.old.inner) × (self.new.written ≡ self.old.written) }
    {
        if self.power.fails() {
            return Err(DiskFault::Disk);
        }
        let made = self.inner.create(alloc, log);
        if made.is_ok() {
            self.written.create(alloc, log);
        }
        made
    }

    /// If the power fails in this call, a prefix of the bytes is written and recorded. If the
    /// device fails at these, its failure alone is counted, and the power fails at the next call.
    fn append(&mut self, alloc: Global, log: u32, bytes: &[u8]) -> Result<(), DiskFault>
        ensures honest { D.honest self.new.inner ≡ D.honest self.old.inner }
        ensures durable { IsTrue (D.honest self.old.inner)
            → DurableGrows (D.synced self.old.inner) (D.gone self.old.inner) (D.synced self.new.inner) (D.gone self.new.inner) }
        ensures cause { FailsExactlyOnDiskFault (D.failures self.old.inner + self.old.power.refused) (D.failures self.new.inner + self.new.power.refused) result }
        ensures transition { IsTrue (D.honest self.old.inner) → Appends (D.files self.old.inner) log bytes.now result (D.files self.new.inner) }
        ensures noted { self.new.written.is_lost ≡ false → IsNotedInPart result (logs_of self.old.written) (logs_of self.new.written) (λ n. noted (longer_log (take n bytes.now)) (logs_of self.old.written) log)
            (noted (longer_log bytes.now) (logs_of self.old.written) log) }
        ensures front { IsTrue (D.honest self.old.inner) → self.new.written.is_lost ≡ false → D.failures self.new.inner ≡ D.failures self.old.inner
            → OnErr result (WritesFront (D.files self.old.inner) (logs_of self.old.written) log bytes.now (D.files self.new.inner) (logs_of self.new.written)) }
        ensures gone { gone_of self.new.written ≡ gone_of self.old.written }
        ensures dead { IsOff self.old.power.refused → (self.new.inner ≡ self.old.inner) × (self.new.written ≡ self.old.written) }
    {
        let was_dead = self.power.refused > 0;
        if self.power.fails() {
            if !was_dead {
                let front = &bytes[..bytes.len().min(self.kept)];
                match self.inner.append(alloc, log, front) {
                    Ok(()) => self.written.append(log, front),
                    Err(fault) => {
                        if fault == DiskFault::Disk {
                            self.power.refused = 0;
                        }
                    }
                }
            }
            return Err(DiskFault::Disk);
        }
        let appended = self.inner.append(alloc, log, bytes);
        if appended.is_ok() {
            self.written.append(log, bytes);
        }
        appended
    }

    fn patch(&mut self, alloc: Global, log: u32, bytes: &[u8; 12]) -> Result<(), DiskFault>
        ensures honest { D.honest self.new.inner ≡ D.honest self.old.inner }
        ensures durable { IsTrue (D.honest self.old.inner)
            → DurableGrows (D.synced self.old.inner) (D.gone self.old.inner) (D.synced self.new.inner) (D.gone self.new.inner) }
        ensures cause { FailsExactlyOnDiskFault (D.failures self.old.inner + self.old.power.refused) (D.failures self.new.inner + self.new.power.refused) result }
        ensures transition { IsTrue (D.honest self.old.inner) → Patches (D.files self.old.inner) log bytes.now result (D.files self.new.inner) }
        ensures noted { IsNoted result (logs_of self.old.written) (logs_of self.new.written) (noted (patched_log bytes.now) (logs_of self.old.written) log) }
        ensures gone { gone_of self.new.written ≡ gone_of self.old.written }
        ensures dead { IsOff self.old.power.refused → (self.new.inner ≡ self.old.inner) × (self.new.written ≡ self.old.written) }
    {
        if self.power.fails() {
            return Err(DiskFault::Disk);
        }
        let patched = self.inner.patch(alloc, log, bytes);
        if patched.is_ok() {
            self.written.patch(log, bytes);
        }
        patched
    }

    fn sync(&mut self, alloc: Global, log: u32) -> Result<(), DiskFault>
        ensures honest { D.honest self.new.inner ≡ D.honest self.old.inner }
        ensures durable { IsTrue (D.honest self.old.inner)
            → DurableGrows (D.synced self.old.inner) (D.gone self.old.inner) (D.synced self.new.inner) (D.gone self.new.inner) }
        ensures syncs { IsTrue (D.honest self.old.inner) → SyncDurability (D.files self.old.inner) log result (D.synced self.new.inner) }
        ensures cause { FailsExactlyOnDiskFault (D.failures self.old.inner + self.old.power.refused) (D.failures self.new.inner + self.new.power.refused) result }
        ensures transition { IsTrue (D.honest self.old.inner) → Syncs (D.files self.old.inner) log result (D.files self.new.inner) }
        ensures noted { IsNoted result (logs_of self.old.written) (logs_of self.new.written) (noted synced_log (logs_of self.old.written) log) }
        ensures gone { gone_of self.new.written ≡ gone_of self.old.written }
        ensures dead { IsOff self.old.power.refused → (self.new.inner ≡ self.old.inner) × (self.new.written ≡ self.old.written) }
    {
        if self.power.fails() {
            return Err(DiskFault::Disk);
        }
        let synced = self.inner.sync(alloc, log);
        if synced.is_ok() {
            self.written.sync(log);
        }
        synced
    }

    fn read_at(&mut self, alloc: Global, log: u32, at: u64, n: u64) -> Result<Vec<u8>, DiskFault>
        ensures honest { D.honest self.new.inner ≡ D.honest self.old.inner }
        ensures durable { IsTrue (D.honest self.old.inner)
            → DurableGrows (D.synced self.old.inner) (D.gone self.old.inner) (D.synced self.new.inner) (D.gone self.new.inner) }
        ensures cause { FailsExactlyOnDiskFault (D.failures self.old.inner + self.old.power.refused) (D.failures self.new.inner + self.new.power.refused) result }
        ensures transition { IsTrue (D.honest self.old.inner) → Reads (λ v. v.items) (D.files self.old.inner) log at n result (D.files self.new.inner) }
        ensures dead { IsOff self.old.power.refused → (self.new.inner ≡ self.old.inner) × (self.new.written ≡ self.old.written) }
    {
        if self.power.fails() {
            return Err(DiskFault::Disk);
        }
        self.inner.read_at(alloc, log, at, n)
    }

    fn view(&mut self, alloc: Global, log: u32) -> Result<D::View, DiskFault>
        ensures honest { D.honest self.new.inner ≡ D.honest self.old.inner }
        ensures durable { IsTrue (D.honest self.old.inner)
            → DurableGrows (D.synced self.old.inner) (D.gone self.old.inner) (D.synced self.new.inner) (D.gone self.new.inner) }
        ensures cause { FailsExactlyOnDiskFault (D.failures self.old.inner + self.old.power.refused) (D.failures self.new.inner + self.new.power.refused) result }
        ensures transition { IsTrue (D.honest self.old.inner) → Views D.View.bytes D.View.honest (D.files self.old.inner) log result (D.files self.new.inner) }
        ensures dead { IsOff self.old.power.refused → (self.new.inner ≡ self.old.inner) × (self.new.written ≡ self.old.written) }
    {
        if self.power.fails() {
            return Err(DiskFault::Disk);
        }
        self.inner.view(alloc, log)
    }

    fn remove(&mut self, alloc: Global, log: u32) -> Result<(), DiskFault>
        ensures honest { D.honest self.new.inner ≡ D.honest self.old.inner }
        ensures durable { IsTrue (D.honest self.old.inner) → RemoveDurability (D.files self.old.inner) log result (D.synced self.old.inner)
            (D.gone self.old.inner) (D.synced self.new.inner) (D.gone self.new.inner) }
        ensures cause { FailsExactlyOnDiskFault (D.failures self.old.inner + self.old.power.refused) (D.failures self.new.inner + self.new.power.refused) result }
        ensures transition { IsTrue (D.honest self.old.inner) → Removes (D.files self.old.inner) log result (D.files self.new.inner) }
        ensures noted { IsNoted result (logs_of self.old.written) (logs_of self.new.written) (map.remove (logs_of self.old.written) log) }
        ensures gone { self.new.written.is_lost ≡ false
            → IsNoted result (gone_of self.old.written) (gone_of self.new.written) (with_removed (gone_of self.old.written) log (map.get (logs_of self.old.written) log)) }
        ensures dead { IsOff self.old.power.refused → (self.new.inner ≡ self.old.inner) × (self.new.written ≡ self.old.written) }
    {
        if self.power.fails() {
            return Err(DiskFault::Disk);
        }
        let removed = self.inner.remove(alloc, log);
        if removed.is_ok() {
            self.written.remove(log);
        }
        removed
    }
}

#[tactic(auto, using(bk_disk::proofs::Cutting::uncut_keeps))]
impl<D: CutDisk> CutDisk for PowerDisk<D> {
    fn cut(&mut self, alloc: Global, log: u32, length: u64) -> Result<(), DiskFault>
        ensures honest { D.honest self.new.inner ≡ D.honest self.old.inner }
        ensures durable { IsTrue (D.honest self.old.inner)
            → KeepsFrontDurable log length (D.synced self.old.inner) (D.gone self.old.inner) (D.synced self.new.inner) (D.gone self.new.inner) }
        ensures cause { FailsExactlyOnDiskFault (D.failures self.old.inner + self.old.power.refused) (D.failures self.new.inner + self.new.power.refused) result }
        ensures transition { IsTrue (D.honest self.old.inner) → Cuts (D.files self.old.inner) log length result (D.files self.new.inner) }
        ensures noted { IsNoted result (logs_of self.old.written) (logs_of self.new.written) (noted (cut_log length) (logs_of self.old.written) log) }
        ensures gone { gone_of self.new.written ≡ gone_of self.old.written }
        ensures dead { IsOff self.old.power.refused → (self.new.inner ≡ self.old.inner) × (self.new.written ≡ self.old.written) }
    {
        if self.power.fails() {
            return Err(DiskFault::Disk);
        }
        let cut = self.inner.cut(alloc, log, length);
        if cut.is_ok() {
            self.written.cut(log, length);
        }
        cut
    }
}
