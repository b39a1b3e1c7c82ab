//! A disk that records the calls made on the disk below it.

ghost use Rattle.std.specs.Prelude.{◌≡◌};

use bk_disk::{DiskFault, LogDisk};
use std::alloc::{AllocError, Global};

/// A disk with one line per call: its name, the log, and the bytes to write.
#[derive(Drop)]
pub(crate) struct NotingDisk<D: LogDisk> {
    inner: D,
    notes: Notes,
}

/// The lines, and whether an allocation failed for one of them.
#[derive(Drop)]
struct Notes {
    lines: Vec<String>,
    is_lost: bool,
}

impl<D: LogDisk> NotingDisk<D> {
    /// Returns a disk without recorded calls.
    pub(crate) fn new(alloc: Global, inner: D) -> Self
        ensures { result.inner ≡ inner }
    {
        NotingDisk {
            inner,
            notes: Notes {
                lines: Vec::new(alloc),
                is_lost: false,
            },
        }
    }

    /// Returns the disk below.
    pub(crate) fn inner(&self) -> &D
        ensures { result.now ≡ self.now.inner }
    {
        &self.inner
    }

    /// Returns the calls in order, or `None` if an allocation failed for one of them.
    pub(crate) fn noted(&self) -> Option<&[String]> {
        if self.notes.is_lost {
            return None;
        }
        Some(&self.notes.lines)
    }
}

impl Notes {
    fn note(&mut self, line: Result<String, AllocError>) {
        let is_noted = match line {
            Ok(line) => self.lines.push(line).is_ok(),
            Err(AllocError) => false,
        };
        self.is_lost = self.is_lost || !is_noted;
    }
}

/// Returns the line of a call that writes.
pub(crate) fn line_of(
    alloc: Global,
    name: &str,
    log: u32,
    bytes: &[u8],
) -> Result<String, AllocError> {
    let digits = hex::encode(alloc, bytes)?;
    format!(in alloc; "{name} {log} {digits}")
}

impl<D: LogDisk> LogDisk for NotingDisk<D> {
    type View = D::View;

    ghost files = { λ disk. D.files disk.inner };

    ghost synced = { λ disk. D.synced disk.inner };

    ghost gone = { λ disk. D.gone disk.inner };

    ghost honest = { λ disk. D.honest disk.inner };

    ghost failures = { λ disk. D.failures disk.inner };

    fn bounds(&self) {
        self.inner.bounds()
    }

    fn is_lost(&self, log: u32) -> bool {
        self.inner.is_lost(log)
    }

    fn is_kept(&self, log: u32) -> bool {
        self.inner.is_kept(log)
    }

    fn count_failures(&self) -> u64 {
        self.inner.count_failures()
    }

    fn list(&mut self, alloc: Global) -> Result<Vec<u32>, DiskFault> {
        self.notes.note(format!(in alloc; "list"));
        self.inner.list(alloc)
    }

    fn length(&mut self, alloc: Global, log: u32) -> Result<u64, DiskFault> {
        self.notes.note(format!(in alloc; "length {log}"));
        self.inner.length(alloc, log)
    }

    fn create(&mut self, alloc: Global, log: u32) -> Result<(), DiskFault> {
        self.notes.note(format!(in alloc; "create {log}"));
        self.inner.create(alloc, log)
    }

    fn append(&mut self, alloc: Global, log: u32, bytes: &[u8]) -> Result<(), DiskFault> {
        self.notes.note(line_of(alloc, "append", log, bytes));
        self.inner.append(alloc, log, bytes)
    }

    fn patch(&mut self, alloc: Global, log: u32, bytes: &[u8; 12]) -> Result<(), DiskFault> {
        self.notes.note(line_of(alloc, "patch", log, bytes));
        self.inner.patch(alloc, log, bytes)
    }

    fn sync(&mut self, alloc: Global, log: u32) -> Result<(), DiskFault> {
        self.notes.note(format!(in alloc; "sync {log}"));
        self.inner.sync(alloc, log)
    }

    fn read_at(&mut self, alloc: Global, log: u32, at: u64, n: u64) -> Result<Vec<u8>, DiskFault> {
        self.notes.note(format!(in alloc; "read {log} {at} {n}"));
        self.inner.read_at(alloc, log, at, n)
    }

    fn view(&mut self, alloc: Global, log: u32) -> Result<D::View, DiskFault> {
        self.notes.note(format!(in alloc; "view {log}"));
        self.inner.view(alloc, log)
    }

    fn remove(&mut self, alloc: Global, log: u32) -> Result<(), DiskFault> {
        self.notes.note(format!(in alloc; "remove {log}"));
        self.inner.remove(alloc, log)
    }
}
