//! Disk over a directory of the system. It is not honest and states nothing of bytes, since another
//! process may change the directory at any time. `folder.rt` has the calls of the system.

ghost use Rattle.std.specs.Prelude.{false};
ghost use Rattle.std.specs.FinMap as map;
ghost use Rattle.bk_disk.specs.Disk.{FailsExactlyOnDiskFault};

use crate::folder::{Folder, fault_of};
use crate::{CutDisk, DirView, DiskFault, FaultWatch, FileFault, FolderFault, FolderFile, LogDisk};
use std::alloc::{AllocError, Global};

/// A directory of entry logs, each a file with the name of `name_of`. Files of other names are
/// passed over.
///
/// A call on a log whose file is missing returns `NoLog`. Every other error of the system is
/// `Disk`, also a name that is not UTF-8, a file that vanishes while the directory is listed, and a
/// read that ends early. `last_fault` has the file and the reason.
///
/// One disk writes a directory at a time. The first call that writes locks the directory and the
/// file `writer.lock` in it, and returns `Disk` if another disk has the lock; `open_to_write` locks
/// at once. The lock ends with the disk. It keeps out disks of this kind only. In a directory that
/// is written, a log's name that is no plain file is refused, and so is a file with the names of
/// two logs. Reading follows links and passes over directories and pipes.
///
/// The file of a log that this disk made or appended to stays open until its header is patched. A
/// call on such a log returns `Disk` if its file has another length than it was left with, or if
/// another file has its name. The directory is synced with each file that is made or removed, and a
/// file that is patched is synced.
///
/// # Appends are gathered
///
/// `append` copies its bytes into a window of the log, of 65,536 bytes. One call of the system
/// writes the window once the next piece does not fit. `sync`, `patch`, `view`, `read_at` and `cut`
/// of the log write it first, and so does the disk when it closes the file to make room for another
/// one, or is dropped. `length` counts it, and `remove` drops it. A piece that is longer is written
/// at once, behind the window; so is the first piece of a file that this disk made, and each one
/// while memory for the window is refused.
///
/// A call that cannot write the window returns `Disk`, and the log is lost. Then bytes whose
/// `append` returned `Ok` may not be in the file, if no `sync` returned `Ok` since. `append` itself
/// reports the write of earlier pieces. If the write fails when the disk is dropped, the log is set
/// aside, and a `FaultWatch` reports it. A process that is killed loses its windows. Others see the
/// bytes once they are written.
///
/// # After a failed write or sync
///
/// Each `append`, `patch` and `sync` of the log returns `Disk` until it is removed or made again:
/// the system may report success for bytes that it has dropped. The disk also sets the log aside
/// for the next one: it makes the empty file `N.unsynced` beside `N.log` and syncs the directory.
/// If this fails, the fault says so. The next disk that becomes the writer copies each such log,
/// syncs the copy, and puts it in the log's place before it does anything else. Reading ignores
/// these files.
///
/// Two cases stay open. The process may end between the failed call and the sync of the directory,
/// or `N.unsynced` cannot be made. Then the next disk takes the log as it reads it, and a power
/// loss may take entries that it serves. If the machine was restarted in between, all that is read
/// comes from the device, and the log needs no copy.
///
/// # After a failed removal
///
/// If `remove` returns `Disk`, the file may be gone while its directory is not synced: a crash
/// leaves the log or not. A second call ends the removal. Until then reads of a log without a file
/// return `Disk`. If the last sync of the directory failed, `list` syncs it first, and returns
/// `Disk` if that fails. So a log that was removed and is not listed does not come back.
#[derive(Drop)]
pub struct DirDisk {
    folder: Folder,
    failures: u64,
}

impl DirDisk {
    /// Opens the directory at a path. Writes and locks nothing before the first call that writes.
    ///
    /// # Errors
    ///
    /// - `Disk` if no directory can be read there.
    /// - `Memory`.
    pub fn open(rt: &HostRuntime, path: &str) -> Result<DirDisk, DiskFault> {
        match DirDisk::open_to_read(rt, path) {
            Ok(disk) => Ok(disk),
            Err(fault) => Err(fault_of(&fault)),
        }
    }

    /// Opens the directory at a path, as `open` does. Fails with `Refused`, which has the reason,
    /// or `Memory`.
    pub fn open_to_read(rt: &HostRuntime, path: &str) -> Result<DirDisk, FolderFault> {
        Ok(DirDisk {
            folder: Folder::open(rt, path)?,
            failures: 0,
        })
    }

    /// Opens the directory at a path as its one writer. Writes each log again that an earlier disk
    /// set aside, and syncs the directory, so that its names are durable.
    ///
    /// # Errors
    ///
    /// - `InUse` if another disk writes there.
    /// - `Refused` if the directory cannot be read, locked or synced, if `writer.lock` is a link or
    ///   has a second name, if `check_names` fails, or if a log cannot be written again. Then the
    ///   path has the file and the operation, and the next opening goes on.
    /// - `Memory`.
    pub fn open_to_write(rt: &HostRuntime, path: &str) -> Result<DirDisk, FolderFault> {
        let mut folder = Folder::open(rt, path)?;
        if let Err(refusal) = folder.lock(rt.alloc()) {
            return Err(refusal.folder_fault(rt.alloc()));
        }
        Ok(DirDisk {
            folder,
            failures: 0,
        })
    }

    /// Checks that each log's name is a plain file and no file has the names of two logs, as
    /// `open_to_write` does. The same holds of the names `N.unsynced` and `N.log.again`.
    ///
    /// # Errors
    ///
    /// - `Refused` with both names, or with a path that cannot be listed.
    /// - `Memory`.
    pub fn check_names(&self, alloc: Global) -> Result<(), FolderFault> {
        match self.folder.check_names(alloc) {
            Ok(()) => Ok(()),
            Err(refusal) => Err(refusal.folder_fault(alloc)),
        }
    }

    /// Sets how many views keep their file open; other views open it for each read. The default is
    /// half of the files that the process may have open.
    pub fn keep_open(&mut self, most: u64) {
        self.folder.keep_open(most)
    }

    /// Returns the last call of the system that failed, which is the reason if a call of this disk
    /// or of a view returned `Disk`, `NoLog` or `Exists`. `None` if none has failed, or memory for
    /// its path was refused. Fails if memory for the path is refused now.
    pub fn last_fault(&self, alloc: Global) -> Result<Option<FileFault>, AllocError> {
        self.folder.watch().last(alloc)
    }

    /// Returns a watch that reports the same after this disk was moved or dropped. Fails if memory
    /// is refused.
    pub fn fault_watch(&self, alloc: Global) -> Result<FaultWatch, AllocError> {
        self.folder.watch().share(alloc)
    }

    /// Returns the file of this name beside the logs, which need not exist. The name is no log's.
    /// Becomes the writer of the directory first.
    ///
    /// # Errors
    ///
    /// - those of `open_to_write`, which are noted for `last_fault`.
    pub fn file(&mut self, alloc: Global, name: &str) -> Result<FolderFile, FolderFault> {
        match self.folder.file(alloc, name) {
            Ok(file) => Ok(file),
            Err(refusal) => Err(refusal.folder_fault(alloc)),
        }
    }
}

// Counts a result that is `Disk`. If there is no further number, it becomes `Memory`.
fn counted<T>(failures: &mut u64, answer: Result<T, DiskFault>) -> Result<T, DiskFault>
    ensures { FailsExactlyOnDiskFault failures.old failures.new result }
{
    match answer {
        Err(DiskFault::Disk) => match failures.checked_add(1) {
            Some(more) => {
                *failures = more;
                Err(DiskFault::Disk)
            }
            None => Err(DiskFault::Memory),
        },
        Err(fault) => Err(fault),
        Ok(found) => Ok(found),
    }
}

impl LogDisk for DirDisk {
    type View = DirView;

    ghost files = { λ _. map.empty };

    ghost synced = { λ _. map.empty };

    ghost gone = { λ _. map.empty };

    ghost honest = { λ _. false };

    ghost failures = { λ disk. disk.failures };

    fn bounds(&self) {}

    /// Returns whether a write, a sync or a removal of the log failed, or somebody else changed or
    /// removed it: each further `append`, `patch` and `sync` of it returns `Disk`.
    fn is_lost(&self, log: u32) -> bool {
        self.folder.is_lost(log)
    }

    /// Returns false: the system does not tell what is durable.
    fn is_kept(&self, _log: u32) -> bool {
        false
    }

    fn count_failures(&self) -> u64 {
        self.failures
    }

    fn list(&mut self, alloc: Global) -> Result<Vec<u32>, DiskFault> {
        let answer = self.folder.ids(alloc);
        counted(&mut self.failures, answer)
    }

    fn length(&mut self, alloc: Global, log: u32) -> Result<u64, DiskFault> {
        let answer = self.folder.length(alloc, log);
        counted(&mut self.failures, answer)
    }

    fn create(&mut self, alloc: Global, log: u32) -> Result<(), DiskFault> {
        let answer = self.folder.make(alloc, log);
        counted(&mut self.failures, answer)
    }

    fn append(&mut self, alloc: Global, log: u32, bytes: &[u8]) -> Result<(), DiskFault> {
        let answer = self.folder.write_end(alloc, log, bytes);
        counted(&mut self.failures, answer)
    }

    fn patch(&mut self, alloc: Global, log: u32, bytes: &[u8; 12]) -> Result<(), DiskFault> {
        let answer = self.folder.write_patch(alloc, log, bytes);
        counted(&mut self.failures, answer)
    }

    fn sync(&mut self, alloc: Global, log: u32) -> Result<(), DiskFault> {
        let answer = self.folder.write_through(alloc, log);
        counted(&mut self.failures, answer)
    }

    fn read_at(&mut self, alloc: Global, log: u32, at: u64, n: u64) -> Result<Vec<u8>, DiskFault> {
        let answer = self.folder.read(alloc, log, at, n);
        counted(&mut self.failures, answer)
    }

    fn view(&mut self, alloc: Global, log: u32) -> Result<DirView, DiskFault> {
        let answer = self.folder.view(alloc, log);
        counted(&mut self.failures, answer)
    }

    fn remove(&mut self, alloc: Global, log: u32) -> Result<(), DiskFault> {
        let answer = self.folder.unlink(alloc, log);
        counted(&mut self.failures, answer)
    }
}

/// What stands behind the first `length` bytes of the file is first copied to a new file beside it,
/// `N.log.cut.K`, which is synced. Then the file is truncated and synced.
impl CutDisk for DirDisk {
    fn cut(&mut self, alloc: Global, log: u32, length: u64) -> Result<(), DiskFault> {
        let answer = self.folder.cut(alloc, log, length);
        counted(&mut self.failures, answer)
    }
}
