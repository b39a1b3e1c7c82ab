//! The file of a manifest in a directory.

ghost use Rattle.std.specs.Prelude.{◌≡◌, [], false, IsErrOf};
ghost use Rattle.bk_manifest.specs.Keeping.{FailsExactlyIf};

use bk_disk::{DiskFault, FolderFile};
use bk_manifest::{FileFault, ManifestFile};
use std::alloc::Global;

/// A file of a directory that is written, as the file of a manifest. It is not honest and states
/// nothing of its bytes, since another process may change them at any time.
///
/// Bytes that were read are written to a new file in place of this one before the first write or sync:
/// if a sync failed in an earlier process, the system may report success for bytes that it has dropped.
#[derive(Drop)]
pub struct KeptFile {
    file: FolderFile,
    /// The bytes that were read, which may be those of an earlier process. `None` once this one has
    /// written them, or if there are none.
    found: Option<Vec<u8>>,
    failures: u64,
}

impl KeptFile {
    /// Returns the file of a directory.
    pub fn new(file: FolderFile) -> KeptFile {
        KeptFile {
            file,
            found: None,
            failures: 0,
        }
    }

    /// Returns the bytes of the file, and keeps them until they are written again.
    fn read_all(&mut self, alloc: Global) -> Result<Vec<u8>, DiskFault>
        ensures { self.new.failures ≡ self.old.failures }
    {
        let bytes = self.file.read(alloc)?;
        self.found = if bytes.is_empty() {
            None
        } else {
            Some(bytes.to_vec(alloc).map_err(|_| DiskFault::Memory)?)
        };
        Ok(bytes)
    }

    /// Replaces the file by the bytes that were read, if they may be those of an earlier process.
    /// Returns whether it did.
    fn write_found(&mut self) -> Result<bool, DiskFault>
        ensures { self.new.failures ≡ self.old.failures }
    {
        match &self.found {
            None => return Ok(false),
            Some(found) => self.file.replace(found)?,
        }
        self.found = None;
        Ok(true)
    }

    /// Truncates the file at a position and writes a piece there.
    fn write_piece(&mut self, at: u64, piece: &[u8]) -> Result<(), DiskFault>
        ensures { self.new.failures ≡ self.old.failures }
    {
        self.write_found()?;
        self.file.write_at(at, piece)
    }

    /// Makes all bytes durable.
    fn sync_all(&mut self) -> Result<(), DiskFault>
        ensures { self.new.failures ≡ self.old.failures }
    {
        if self.write_found()? {
            return Ok(());
        }
        self.file.sync()
    }

    /// Replaces the file by one of these bytes.
    fn replace_all(&mut self, whole: &[u8]) -> Result<(), DiskFault>
        ensures { self.new.failures ≡ self.old.failures }
    {
        self.file.replace(whole)?;
        self.found = None;
        Ok(())
    }
}

/// Counts a result that is `Disk`. If there is no further number, it becomes `Memory`.
fn counted<T>(failures: &mut u64, answer: Result<T, DiskFault>) -> Result<T, FileFault>
    ensures { FailsExactlyIf failures.old failures.new (IsErrOf result FileFault.Disk) }
{
    match answer {
        Ok(found) => Ok(found),
        Err(DiskFault::Memory) => Err(FileFault::Memory),
        Err(_) => match failures.checked_add(1) {
            Some(more) => {
                *failures = more;
                Err(FileFault::Disk)
            }
            None => Err(FileFault::Memory),
        },
    }
}

impl ManifestFile for KeptFile {
    ghost bytes = { λ _. [] };

    ghost synced = { λ _. 0 };

    ghost honest = { λ _. false };

    ghost failures = { λ file. file.failures };

    fn count_failures(&self) -> u64 {
        self.failures
    }

    fn read(&mut self, alloc: Global) -> Result<Vec<u8>, FileFault> {
        let answer = self.read_all(alloc);
        counted(&mut self.failures, answer)
    }

    fn write_at(&mut self, at: usize, piece: &[u8]) -> Result<(), FileFault> {
        let answer = self.write_piece(at as u64, piece);
        counted(&mut self.failures, answer)
    }

    fn sync(&mut self) -> Result<(), FileFault> {
        let answer = self.sync_all();
        counted(&mut self.failures, answer)
    }

    fn replace(&mut self, _alloc: Global, whole: &[u8]) -> Result<(), FileFault> {
        let answer = self.replace_all(whole);
        counted(&mut self.failures, answer)
    }
}
