//! A disk that counts the bytes that are read of its logs.

ghost use Rattle.std.specs.Prelude.{false};
ghost use Rattle.std.specs.FinMap as map;

use bk_disk::{CutDisk, DiskFault, LogDisk, LogView, MemDisk, MemView};
use std::alloc::{AllocError, Global};
use std::sync::Arc;
use std::sync::atomic::{AtomicU64, Ordering};

/// The number of bytes that were read.
#[derive(Drop)]
pub(super) struct Meter {
    bytes: AtomicU64,
}

impl Meter {
    /// Returns a count of no byte.
    pub(super) fn new(alloc: Global) -> Result<Arc<Meter>, AllocError> {
        let meter = Meter {
            bytes: AtomicU64::new(0),
        };
        Ok(Arc::new(alloc, meter)?)
    }

    fn add(&self, bytes: u64) {
        let _before = self.bytes.fetch_add(bytes, Ordering::SeqCst);
    }

    /// Returns the number of bytes.
    pub(super) fn bytes(&self) -> u64 {
        self.bytes.load(Ordering::SeqCst)
    }
}

/// A disk in memory of which each read is counted. It and its views claim no honesty, and lend
/// nothing.
#[derive(Drop)]
pub(super) struct MeterDisk {
    inner: MemDisk,
    meter: Arc<Meter>,
}

impl MeterDisk {
    pub(super) fn new(inner: MemDisk, meter: &Arc<Meter>) -> Result<MeterDisk, AllocError> {
        let meter = Arc::try_clone(meter)?;
        Ok(MeterDisk { inner, meter })
    }
}

/// A view of such a disk.
#[derive(Drop)]
pub(super) struct MeterView {
    inner: MemView,
    meter: Arc<Meter>,
}

impl LogView for MeterView {
    ghost bytes = { λ view. MemView.bytes view.inner };

    ghost honest = { λ _. false };

    ghost sound = { λ _. false };

    fn bounds(&self) {
        self.inner.bounds()
    }

    fn end(&self) -> u64 {
        self.inner.end()
    }

    fn read_into(&self, at: u64, out: &mut [u8]) -> Result<(), DiskFault> {
        self.meter.add(out.len() as u64);
        self.inner.read_into(at, out)
    }
}

impl LogDisk for MeterDisk {
    type View = MeterView;

    ghost files = { λ _. map.empty };

    ghost synced = { λ _. map.empty };

    ghost gone = { λ _. map.empty };

    ghost honest = { λ _. false };

    ghost failures = { λ disk. MemDisk.failures disk.inner };

    fn bounds(&self) {}

    fn is_lost(&self, log: u32) -> bool {
        self.inner.is_lost(log)
    }

    fn is_kept(&self, log: u32) -> bool {
        self.inner.is_kept(log)
    }

    fn count_failures(&self) -> u64 {
        self.inner.count_failures()
    }

    fn list(&mut self, alloc: Global) -> Result<Vec<u32>, DiskFault> {
        self.inner.list(alloc)
    }

    fn length(&mut self, alloc: Global, log: u32) -> Result<u64, DiskFault> {
        self.inner.length(alloc, log)
    }

    fn create(&mut self, alloc: Global, log: u32) -> Result<(), DiskFault> {
        self.inner.create(alloc, log)
    }

    fn append(&mut self, alloc: Global, log: u32, bytes: &[u8]) -> Result<(), DiskFault> {
        self.inner.append(alloc, log, bytes)
    }

    fn patch(&mut self, alloc: Global, log: u32, bytes: &[u8; 12]) -> Result<(), DiskFault> {
        self.inner.patch(alloc, log, bytes)
    }

    fn sync(&mut self, alloc: Global, log: u32) -> Result<(), DiskFault> {
        self.inner.sync(alloc, log)
    }

    fn read_at(&mut self, alloc: Global, log: u32, at: u64, n: u64) -> Result<Vec<u8>, DiskFault> {
        self.meter.add(n);
        self.inner.read_at(alloc, log, at, n)
    }

    fn view(&mut self, alloc: Global, log: u32) -> Result<MeterView, DiskFault> {
        let inner = self.inner.view(alloc, log)?;
        match Arc::try_clone(&self.meter) {
            Ok(meter) => Ok(MeterView { inner, meter }),
            Err(_) => Err(DiskFault::Memory),
        }
    }

    fn remove(&mut self, alloc: Global, log: u32) -> Result<(), DiskFault> {
        self.inner.remove(alloc, log)
    }
}

impl CutDisk for MeterDisk {
    fn cut(&mut self, alloc: Global, log: u32, length: u64) -> Result<(), DiskFault> {
        self.inner.cut(alloc, log, length)
    }
}
