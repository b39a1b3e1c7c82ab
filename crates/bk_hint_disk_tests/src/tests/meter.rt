//! A disk that counts what is read of its logs, and how often its views are asked for a run.

ghost use Rattle.std.specs.Prelude.{false};
ghost use Rattle.std.specs.FinMap as map;

use bk_disk::{DiskFault, LogDisk, LogView, RecordRun};
use std::alloc::{AllocError, Global};
use std::sync::Arc;
use std::sync::atomic::{AtomicU64, Ordering};

/// The number of bytes that were read, of the reads, and of the looks for a run of records.
#[derive(Drop)]
pub(super) struct Meter {
    bytes: AtomicU64,
    reads: AtomicU64,
    looks: AtomicU64,
}

impl Meter {
    pub(super) fn new(alloc: Global) -> Result<Arc<Meter>, AllocError> {
        let meter = Meter {
            bytes: AtomicU64::new(0),
            reads: AtomicU64::new(0),
            looks: AtomicU64::new(0),
        };
        Ok(Arc::new(alloc, meter)?)
    }

    fn add(&self, bytes: usize) {
        let _bytes = self.bytes.fetch_add(bytes as u64, Ordering::SeqCst);
        let _reads = self.reads.fetch_add(1, Ordering::SeqCst);
    }

    /// Returns the number of bytes.
    pub(super) fn bytes(&self) -> u64 {
        self.bytes.load(Ordering::SeqCst)
    }

    /// Returns the number of reads.
    pub(super) fn reads(&self) -> u64 {
        self.reads.load(Ordering::SeqCst)
    }

    /// Returns the number of looks for a run.
    pub(super) fn looks(&self) -> u64 {
        self.looks.load(Ordering::SeqCst)
    }
}

/// Another disk, of which each read is counted. It and its views claim no honesty. Its views lend no
/// bytes, and the runs that those of the other disk lend.
#[derive(Drop)]
pub(super) struct MeterDisk<D: LogDisk> {
    inner: D,
    meter: Arc<Meter>,
}

impl<D: LogDisk> MeterDisk<D> {
    pub(super) fn new(inner: D, meter: &Arc<Meter>) -> Option<MeterDisk<D>> {
        let meter = Arc::try_clone(meter).ok()?;
        Some(MeterDisk { inner, meter })
    }
}

/// A view of such a disk.
#[derive(Drop)]
pub(super) struct MeterView<V: LogView> {
    inner: V,
    meter: Arc<Meter>,
}

impl<V: LogView> LogView for MeterView<V> {
    ghost bytes = { λ view. V.bytes view.inner };

    ghost honest = { λ _. false };

    ghost sound = { λ view. V.sound view.inner };

    fn bounds(&self) {}

    fn end(&self) -> u64 {
        self.inner.end()
    }

    fn read_into(&self, at: u64, out: &mut [u8]) -> Result<(), DiskFault> {
        self.meter.add(out.len());
        self.inner.read_into(at, out)
    }

    fn lend_run(&self, at: u64) -> Option<RecordRun> {
        let _looks = self.meter.looks.fetch_add(1, Ordering::SeqCst);
        self.inner.lend_run(at)
    }
}

impl<D: LogDisk> LogDisk for MeterDisk<D> {
    type View = MeterView<D::View>;

    ghost files = { λ _. map.empty };

    ghost synced = { λ _. map.empty };

    ghost gone = { λ _. map.empty };

    ghost honest = { λ _. false };

    ghost failures = { λ disk. D.failures disk.inner };

    fn bounds(&self) {}

    fn is_lost(&self, log: u32) -> bool {
        self.inner.is_lost(log)
    }

    fn is_kept(&self, log: u32) -> bool {
        self.inner.is_kept(log)
    }

    fn count_failures(&self) -> u64 {
        self.inner.count_failures()
    }

    fn list(&mut self, alloc: Global) -> Result<Vec<u32>, DiskFault> {
        self.inner.list(alloc)
    }

    fn length(&mut self, alloc: Global, log: u32) -> Result<u64, DiskFault> {
        self.inner.length(alloc, log)
    }

    fn create(&mut self, alloc: Global, log: u32) -> Result<(), DiskFault> {
        self.inner.create(alloc, log)
    }

    fn append(&mut self, alloc: Global, log: u32, bytes: &[u8]) -> Result<(), DiskFault> {
        self.inner.append(alloc, log, bytes)
    }

    fn patch(&mut self, alloc: Global, log: u32, bytes: &[u8; 12]) -> Result<(), DiskFault> {
        self.inner.patch(alloc, log, bytes)
    }

    fn sync(&mut self, alloc: Global, log: u32) -> Result<(), DiskFault> {
        self.inner.sync(alloc, log)
    }

    fn read_at(&mut self, alloc: Global, log: u32, at: u64, n: u64) -> Result<Vec<u8>, DiskFault> {
        self.meter.add(n as usize);
        self.inner.read_at(alloc, log, at, n)
    }

    fn view(&mut self, alloc: Global, log: u32) -> Result<MeterView<D::View>, DiskFault> {
        let inner = self.inner.view(alloc, log)?;
        let Ok(meter) = Arc::try_clone(&self.meter) else {
            return Err(DiskFault::Memory);
        };
        Ok(MeterView { inner, meter })
    }

    fn remove(&mut self, alloc: Global, log: u32) -> Result<(), DiskFault> {
        self.inner.remove(alloc, log)
    }
}
