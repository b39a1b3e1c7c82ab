//! Calls of a disk on a directory of the system.
//!
//! The file of a log that this disk makes or writes stays open until the log is sealed (`kept.rt`);
//! every other call opens the file. The directory is synced with each file that is made or removed,
//! so that names are durable. A failed call is remembered for its report (`fault_watch.rt`), and
//! for later calls on the log if its contents or its file are in doubt (`trouble.rt`).

mod aside;
mod cutting;
mod patching;
mod writing;

use crate::dir_view::DirView;
use crate::file_fault::{Failed, FileFault, Operation};
use crate::kept::{KeptLogs, Seen, is_same_file};
use crate::lock::WriterLock;
use crate::log_names::{check_names, link_failed, not_plain};
use crate::open_views::{OpenView, most_open_views};
use crate::reason::{Finding, Reason};
use crate::refusal::{Refusal, device_fault};
use crate::trouble::{State, Troubles};
use crate::unsynced::write_again;
use crate::{DiskFault, FaultWatch, FolderFault, FolderFile, log_of};
use std::alloc::Global;
use std::fs::{self, DirEntry, File, Metadata, OpenOptions};
use std::io::{self, ErrorKind};
use std::os::unix::fs::FileExt;
use std::sync::Arc;

/// The system's number for `Stale file handle`.
const STALE: i32 = 116;

/// A directory of the system, with the files that are written.
pub(crate) struct Folder {
    rt: HostRuntime,
    path: String,
    /// The locks of the directory, from the first call that writes.
    lock: Option<WriterLock>,
    kept: KeptLogs,
    troubles: Troubles,
    /// The last call that failed, and what views share.
    watch: FaultWatch,
    /// The number of views that may keep their file open.
    most_open: u64,
    /// Whether the last sync of the directory failed, so that a removal may not be durable.
    has_unsynced_names: bool,
}

/// A log's file that is open.
#[derive(Drop)]
struct Opened {
    path: String,
    file: File,
    found: Metadata,
}

impl Folder {
    /// Opens the directory at a path. Fails with `Refused` if no directory can be read there, or
    /// `Memory`.
    pub(crate) fn open(rt: &HostRuntime, path: &str) -> Result<Folder, FolderFault> {
        let kept = KeptLogs::new(rt.alloc()).map_err(|_| FolderFault::Memory)?;
        let watch = FaultWatch::new(rt.alloc(), path).map_err(|_| FolderFault::Memory)?;
        let path = String::from_str(rt.alloc(), path).map_err(|_| FolderFault::Memory)?;
        match fs::read_dir(rt, path.as_str()) {
            Ok(_) => Ok(Folder {
                rt: *rt,
                path,
                lock: None,
                kept,
                troubles: Troubles::new(rt.alloc()),
                watch,
                most_open: most_open_views(rt),
                has_unsynced_names: false,
            }),
            Err(reason) => Err(FolderFault::Refused { path, reason }),
        }
    }

    /// Sets how many views may keep their file open.
    pub(crate) fn keep_open(&mut self, most: u64) {
        self.most_open = most;
    }

    /// Returns the watch of failed calls.
    pub(crate) fn watch(&self) -> &FaultWatch {
        &self.watch
    }

    /// Checks that each log is a file of its own.
    pub(crate) fn check_names(&self, alloc: Global) -> Result<(), Refusal> {
        check_names(&self.rt, alloc, &self.path)
    }

    /// Makes this disk the writer of the directory: takes the locks, checks the names of logs,
    /// writes the logs again that were set aside, and syncs the directory, so that its names are
    /// durable. If it is the writer already, checks that the path still leads to the directory.
    pub(crate) fn lock(&mut self, alloc: Global) -> Result<(), Refusal> {
        if let Some(lock) = &self.lock {
            return lock
                .check(&self.rt, &self.path)
                .map_err(|error| Refusal::at(alloc, &self.path, error));
        }
        let lock = WriterLock::take(&self.rt, alloc, &self.path)?;
        self.check_names(alloc)?;
        write_again(&self.rt, alloc, &lock, &self.path)?;
        match lock.sync() {
            Ok(()) => {
                self.lock = Some(lock);
                Ok(())
            }
            Err(error) => Err(Refusal::at(alloc, &self.path, error)),
        }
    }

    /// Returns the file of this name beside the logs, once this disk is the writer.
    pub(crate) fn file(&mut self, alloc: Global, name: &str) -> Result<FolderFile, Refusal> {
        if let Err(refusal) = self.lock(alloc) {
            self.watch.note(refusal.file_fault(alloc));
            return Err(refusal);
        }
        let watch = self.watch.share(alloc).map_err(|_| Refusal::Memory)?;
        FolderFile::new(&self.rt, &self.path, name, watch).map_err(|_| Refusal::Memory)
    }

    // Locks the directory before a call that writes.
    fn begin_write(&mut self, alloc: Global) -> Result<(), DiskFault> {
        match self.lock(alloc) {
            Ok(()) => Ok(()),
            Err(refusal) => {
                let answer = refusal.disk_fault();
                self.watch.note(refusal.file_fault(alloc));
                Err(answer)
            }
        }
    }

    // Notes a call that failed on a file. Returns the fault of the call on the disk.
    fn refuse(&self, path: String, failed: Failed) -> DiskFault {
        self.watch.note(Some(FileFault::new(path, failed)));
        device_fault(failed.reason.kind())
    }

    // Notes a call that failed on the file of a log, which may be missing.
    fn refuse_log(&self, path: String, failed: Failed) -> DiskFault {
        match (self.refuse(path, failed), failed.reason.kind()) {
            (_, ErrorKind::NotFound) => DiskFault::NoLog,
            (fault, _) => fault,
        }
    }

    // Notes a call that failed on the directory.
    fn refuse_folder(&self, operation: Operation, error: io::Error) -> DiskFault {
        let failed = Failed::new(operation, error);
        match self.path.clone() {
            Ok(path) => self.refuse(path, failed),
            Err(_) => {
                self.watch.note(None);
                device_fault(error.kind())
            }
        }
    }

    // Returns what has a name. Follows a link unless the directory is written.
    fn look(&self, path: &str) -> io::Result<Metadata> {
        match self.lock {
            Some(_) => fs::symlink_metadata(&self.rt, path),
            None => fs::metadata(&self.rt, path),
        }
    }

    // Returns the path of a log's file, and what it is. Fails as `seek` does, and with `Disk` if
    // the removal of the log has not ended.
    fn find(&mut self, alloc: Global, log: u32) -> Result<(String, Metadata), DiskFault> {
        match self.seek(alloc, log) {
            Err(DiskFault::NoLog) if self.is_left(log, State::Gone) => Err(DiskFault::Disk),
            found => found,
        }
    }

    // Returns the path of a log's file, and what it is. Fails with `Disk` if the name is a link in
    // a directory that is written, or if the file that is kept open is not the one of the name, or
    // has another length than it was left with.
    fn seek(&mut self, alloc: Global, log: u32) -> Result<(String, Metadata), DiskFault> {
        let path = self.path_of(alloc, log)?;
        let found = match self.look(&path) {
            Ok(found) => found,
            Err(reason) => {
                return Err(self.refuse_log(path, Failed::new(Operation::Open, reason)));
            }
        };
        if found.is_symlink() {
            return Err(self.refuse(path, link_failed()));
        }
        if let Some(finding) = self.no_log(&found) {
            let failed = Failed::by(Operation::Open, Reason::Found(finding));
            return Err(self.refuse_log(path, failed));
        }
        match self.compare(log, &found) {
            Ok(None) => Ok((path, found)),
            Ok(Some((state, failed))) => Err(self.lose(log, state, path, failed)),
            Err(failed) => Err(self.refuse(path, failed)),
        }
    }

    // Returns what a log's name leads to if it is no file. In a directory that is only read, that is
    // no log and no fault.
    fn no_log(&self, found: &Metadata) -> Option<Finding> {
        match not_plain(found) {
            Some(_) if self.lock.is_none() => Some(Finding::NoFile),
            finding => finding,
        }
    }

    // Compares what was found of a log with the file that is kept open. Returns the state of the
    // log if they differ. Fails if the system does not tell what the open file is; then nothing is
    // known against the log, and it stays as it is.
    fn compare(&mut self, log: u32, found: &Metadata) -> Result<Option<(State, Failed)>, Failed> {
        if let Some(kept) = self.kept.find(log) {
            return match kept.look_at(found)? {
                Seen::Same => Ok(None),
                Seen::Changed => Ok(Some((State::Lost, changed()))),
                Seen::Other => Ok(Some((State::Replaced, replaced()))),
            };
        }
        if self.is_left(log, State::Replaced) {
            return Ok(Some((State::Replaced, replaced())));
        }
        Ok(None)
    }

    // Opens a log's file, which then has all that was appended.
    fn open_log(
        &mut self,
        alloc: Global,
        log: u32,
        how: &OpenOptions,
    ) -> Result<Opened, DiskFault> {
        self.write_gathered(alloc, log)?;
        let (path, found) = self.find(alloc, log)?;
        match open_found(&self.rt, &path, how, &found) {
            Ok(file) => Ok(Opened { path, file, found }),
            Err(reason) => Err(self.refuse_log(path, Failed::new(Operation::Open, reason))),
        }
    }

    // Opens a log's file to read it.
    fn open_to_read(&mut self, alloc: Global, log: u32) -> Result<Opened, DiskFault> {
        self.open_log(alloc, log, OpenOptions::new().read(true))
    }

    /// Returns a view of a log.
    pub(crate) fn view(&mut self, alloc: Global, log: u32) -> Result<DirView, DiskFault> {
        let Opened { path, file, found } = self.open_to_read(alloc, log)?;
        let shared = self.watch.views();
        let views = Arc::try_clone(shared).map_err(|_| DiskFault::Memory)?;
        match OpenView::take(shared, self.most_open) {
            Ok(Some(right)) => Ok(DirView::open(log, file, found.len(), right, views)),
            Ok(None) => Ok(DirView::named(&self.rt, log, path, &found, views)),
            Err(_) => Err(DiskFault::Memory),
        }
    }

    /// Returns the length of a log's file, with what was gathered of the log.
    pub(crate) fn length(&mut self, alloc: Global, log: u32) -> Result<u64, DiskFault> {
        let (_, found) = self.find(alloc, log)?;
        Ok(found.len().saturating_add(self.kept.gathered(log)))
    }

    /// Returns `n` bytes of a log's file from a position on.
    pub(crate) fn read(
        &mut self,
        alloc: Global,
        log: u32,
        at: u64,
        n: u64,
    ) -> Result<Vec<u8>, DiskFault> {
        let Opened { path, file, found } = self.open_to_read(alloc, log)?;
        if found.len() < at || found.len() - at < n {
            return Err(DiskFault::PastEnd);
        }
        let mut bytes = vec![in alloc; 0u8; n as usize].map_err(|_| DiskFault::Memory)?;
        match file.read_exact_at(&mut bytes, at) {
            Ok(()) => Ok(bytes),
            Err(reason) => Err(self.refuse(path, Failed::new(Operation::Read, reason))),
        }
    }

    /// Returns the ids of the logs, rising. If the last sync of the directory failed, syncs it
    /// first, so that no crash brings a removed log back.
    pub(crate) fn ids(&mut self, alloc: Global) -> Result<Vec<u32>, DiskFault> {
        if self.has_unsynced_names
            && let Err(error) = self.sync_names()
        {
            return Err(self.refuse_folder(Operation::Sync, error));
        }
        self.listed(alloc)
    }

    // Returns the ids of the logs, rising.
    fn listed(&self, alloc: Global) -> Result<Vec<u32>, DiskFault> {
        let mut ids = Vec::new(alloc);
        let entries = match fs::read_dir(&self.rt, self.path.as_str()) {
            Ok(entries) => entries,
            Err(reason) => return Err(self.refuse_folder(Operation::List, reason)),
        };
        for entry in entries {
            let entry = match entry {
                Ok(entry) => entry,
                Err(reason) => return Err(self.refuse_folder(Operation::List, reason)),
            };
            if let Some(log) = self.log_at(alloc, &entry)? {
                ids.push(log).map_err(|_| DiskFault::Memory)?;
            }
        }
        ids.sort().map_err(|_| DiskFault::Memory)?;
        Ok(ids)
    }

    // Returns the log that an entry of the directory is.
    fn log_at(&self, alloc: Global, entry: &DirEntry) -> Result<Option<u32>, DiskFault> {
        let Some(log) = log_of(entry.file_name()) else {
            return Ok(None);
        };
        let failed = match self.look(entry.path().as_str()) {
            Ok(found) if found.is_symlink() => link_failed(),
            Ok(found) => match self.no_log(&found) {
                None => return Ok(Some(log)),
                Some(Finding::NoFile) => return Ok(None),
                Some(finding) => Failed::by(Operation::Open, Reason::Found(finding)),
            },
            Err(error) => Failed::new(Operation::List, error),
        };
        let path = self.path_of(alloc, log)?;
        Err(self.refuse(path, failed))
    }
}

impl Drop for Folder {
    /// Writes what was gathered of each log. A log of which this fails is set aside, and the watch
    /// has the call that failed.
    fn drop(mut self) {
        self.write_all_gathered();
        let Folder {
            rt: _,
            path: _,
            lock: _,
            kept: _,
            troubles: _,
            watch: _,
            most_open: _,
            has_unsynced_names: _,
        } = self;
    }
}

/// Opens the file of a name, if it is the one that was found, by device and inode.
pub(crate) fn open_found(
    rt: &HostRuntime,
    path: &str,
    how: &OpenOptions,
    found: &Metadata,
) -> io::Result<File> {
    let file = how.open(rt, path)?;
    if is_same_file(&file.metadata()?, found) {
        return Ok(file);
    }
    Err(io::Error::from_raw_os_error(STALE))
}

// Returns why a log is lost whose file has another length than it was left with.
fn changed() -> Failed {
    Failed::by(Operation::Open, Reason::Found(Finding::Changed))
}

// Returns why a log is lost if another file has its name.
fn replaced() -> Failed {
    Failed::by(Operation::Open, Reason::Found(Finding::Replaced))
}

/// Returns the fault of a call on the disk if the directory is not opened.
pub(crate) fn fault_of(fault: &FolderFault) -> DiskFault {
    match fault {
        FolderFault::InUse { .. } => DiskFault::Disk,
        FolderFault::Refused { reason, .. } => device_fault(reason.kind()),
        FolderFault::Memory => DiskFault::Memory,
    }
}
