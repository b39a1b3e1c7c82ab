//! Logs that an earlier disk set aside, written again.
//!
//! A disk sets a log aside if a write or a sync of it failed: it makes the empty file `N.unsynced`
//! beside `N.log`. After a failed sync the system may report success for bytes that it has dropped,
//! so a further sync proves nothing. The next disk that writes the directory writes each such log
//! again. What it serves then was written by writes whose sync was reported to succeed.
//!
//! The order, for each log:
//!
//! 1. `N.log` is copied to the new file `N.log.again`, and the copy is synced.
//! 2. The copy is renamed to `N.log`, and the directory is synced.
//! 3. `N.unsynced` is removed. The directory is synced once all logs are written again.
//!
//! The log has its old file until the rename, and then the synced copy. `N.unsynced` stays until
//! both are durable. So a crash at any point leaves a log that has all that was ever reported as
//! synced, and a directory that the next disk goes on with. A copy that a crash left has nothing
//! more of that, so it is removed, but only if the log can be read to its end.

use crate::copying::{CopyFailed, copy_bytes, read_bytes};
use crate::file_fault::{Failed, Operation};
use crate::folder::open_found;
use crate::lock::WriterLock;
use crate::name_of;
use crate::names::{again_name_of, unsynced_log_of, unsynced_name_of};
use crate::reason::{Finding, Reason};
use crate::refusal::Refusal;
use std::alloc::{AllocError, Global};
use std::fs::{self, File, OpenOptions};
use std::io::{self, ErrorKind};

/// A directory whose logs are written again.
#[derive(Drop)]
struct Again<'a> {
    rt: &'a HostRuntime,
    alloc: Global,
    lock: &'a WriterLock,
    folder: &'a str,
}

/// The paths of a log, of its copy, and of the file that sets it aside.
#[derive(Drop)]
struct Paths {
    log: String,
    copy: String,
    mark: String,
}

impl Paths {
    fn of(alloc: Global, folder: &str, log: u32) -> Result<Paths, AllocError> {
        Ok(Paths {
            log: format!(in alloc; "{folder}/{}", name_of(alloc, log)?)?,
            copy: format!(in alloc; "{folder}/{}", again_name_of(alloc, log)?)?,
            mark: format!(in alloc; "{folder}/{}", unsynced_name_of(alloc, log)?)?,
        })
    }
}

/// Writes each log of a locked directory again that was set aside. A file that sets no log aside is
/// removed.
///
/// # Errors
///
/// - `File` if a call fails, with its file. The log and the file that sets it aside are unchanged,
///   or the log is written again; the next call goes on.
/// - `Path` if there is a copy of a log that is missing.
/// - `Memory`.
pub(crate) fn write_again(
    rt: &HostRuntime,
    alloc: Global,
    lock: &WriterLock,
    folder: &str,
) -> Result<(), Refusal> {
    let again = Again {
        rt,
        alloc,
        lock,
        folder,
    };
    for log in &again.logs()? {
        again.write_log(*log)?;
    }
    Ok(())
}

impl Again<'_> {
    // Returns the logs that are set aside.
    fn logs(&self) -> Result<Vec<u32>, Refusal> {
        let mut logs = Vec::new(self.alloc);
        let entries = self.tried(
            self.folder,
            Operation::List,
            fs::read_dir(self.rt, self.folder),
        )?;
        for entry in entries {
            let entry = self.tried(self.folder, Operation::List, entry)?;
            if let Some(log) = unsynced_log_of(entry.file_name()) {
                logs.push(log).map_err(|_| Refusal::Memory)?;
            }
        }
        Ok(logs)
    }

    // Writes a log again, and sets it aside no longer.
    fn write_log(&self, log: u32) -> Result<(), Refusal> {
        let paths = Paths::of(self.alloc, self.folder, log).map_err(|_| Refusal::Memory)?;
        let is_missing = self.is_missing(&paths.log)?;
        let is_copied = !self.is_missing(&paths.copy)?;
        match (is_missing, is_copied) {
            (true, true) => {
                let reason = Reason::Found(Finding::CopyAlone);
                return Err(Refusal::by(self.alloc, &paths.copy, reason));
            }
            (true, false) => {}
            (false, _) => self.replace(&paths, is_copied)?,
        }
        self.remove(&paths.mark)
    }

    // Puts a synced copy of a log in its place.
    fn replace(&self, paths: &Paths, is_copied: bool) -> Result<(), Refusal> {
        let file = self.open(&paths.log)?;
        let found = self.tried(&paths.log, Operation::Open, file.metadata())?;
        if is_copied {
            self.tried(&paths.log, Operation::Read, read_bytes(&file, found.len()))?;
            self.remove(&paths.copy)?;
        }
        let copied = self.copy(paths, &file, found.len());
        if copied.is_err() {
            // It has nothing that the log has not.
            let _ = fs::remove_file(self.rt, paths.copy.as_str());
        }
        copied?;
        self.tried(self.folder, Operation::Sync, self.lock.sync())
    }

    // Copies a log of this length, and renames the copy to it.
    fn copy(&self, paths: &Paths, file: &File, length: u64) -> Result<(), Refusal> {
        let made = OpenOptions::new()
            .write(true)
            .create_new(true)
            .open(self.rt, paths.copy.as_str());
        let mut copy = self.tried(&paths.copy, Operation::Create, made)?;
        match copy_bytes(file, 0, length, &mut copy) {
            Ok(()) => {}
            Err(CopyFailed::Read(error)) => {
                return self.tried(&paths.log, Operation::Read, Err(error));
            }
            Err(CopyFailed::Write(error)) => {
                return self.tried(&paths.copy, Operation::Write, Err(error));
            }
        }
        self.tried(&paths.copy, Operation::Sync, copy.sync_all())?;
        let renamed = fs::rename(self.rt, paths.copy.as_str(), paths.log.as_str());
        self.tried(&paths.copy, Operation::Rename, renamed)
    }

    // Opens the file of a log, which is no link.
    fn open(&self, path: &str) -> Result<File, Refusal> {
        let found = self.tried(path, Operation::Open, fs::symlink_metadata(self.rt, path))?;
        let opened = open_found(self.rt, path, OpenOptions::new().read(true), &found);
        self.tried(path, Operation::Open, opened)
    }

    // Removes a file.
    fn remove(&self, path: &str) -> Result<(), Refusal> {
        self.tried(path, Operation::Remove, fs::remove_file(self.rt, path))
    }

    // Returns whether nothing has a name.
    fn is_missing(&self, path: &str) -> Result<bool, Refusal> {
        match fs::symlink_metadata(self.rt, path) {
            Ok(_) => Ok(false),
            Err(error) if error.kind() == ErrorKind::NotFound => Ok(true),
            Err(error) => self.tried(path, Operation::Open, Err(error)),
        }
    }

    // Returns what a call on a path returned, or its refusal.
    fn tried<T>(
        &self,
        path: &str,
        operation: Operation,
        outcome: io::Result<T>,
    ) -> Result<T, Refusal> {
        match outcome {
            Ok(value) => Ok(value),
            Err(error) => {
                let failed = Failed::new(operation, error);
                Err(Refusal::of_call(self.alloc, path, failed))
            }
        }
    }
}
