//! Calls that make, write, sync and remove the file of a log.

ghost use Rattle.std.specs.Prelude.{◌≡◌, false, is_ok, IsSome};
ghost use Rattle.bk_disk.specs.Doubts.{trouble_of};

use super::{Folder, Opened};
use crate::DiskFault;
use crate::file_fault::{Failed, Operation};
use crate::kept::{KeptLog, MOST_KEPT};
use crate::trouble::State;
use std::alloc::Global;
use std::fs::{self, File, OpenOptions};
use std::io::{self, ErrorKind};

impl Folder {
    // Makes the names of the directory durable. Remembers if this fails.
    pub(super) fn sync_names(&mut self) -> io::Result<()> {
        let synced = match &self.lock {
            Some(lock) => lock.sync(),
            None => sync_directory(&self.rt, &self.path),
        };
        self.has_unsynced_names = synced.is_err();
        synced
    }

    // Makes room for one more open file. If the sync of another log fails then, that log is lost,
    // and later calls on it report it.
    fn make_room(&mut self) {
        if let Some((log, failed)) = self.kept.make_room() {
            self.note(log, State::Lost, failed);
        }
    }

    /// Makes a log's file and keeps it open. Syncs the directory before the file is written.
    pub(crate) fn make(&mut self, alloc: Global, log: u32) -> Result<(), DiskFault> {
        self.begin_write(alloc)?;
        let path = self.path_of(alloc, log)?;
        self.make_room();
        let made = OpenOptions::new()
            .append(true)
            .create_new(true)
            .open(&self.rt, path.as_str());
        let file = match made {
            Ok(file) => file,
            Err(reason) => {
                let fault = self.refuse(path, Failed::new(Operation::Create, reason));
                return match reason.kind() {
                    ErrorKind::AlreadyExists => Err(DiskFault::Exists),
                    _ => Err(fault),
                };
            }
        };
        if let Err(reason) = self.sync_names() {
            // The name is not durable, so the file must not be written.
            let _ = fs::remove_file(&self.rt, path.as_str());
            return Err(self.refuse_folder(Operation::Sync, reason));
        }
        self.troubles.forget(log);
        self.take_back(log);
        self.kept.close(log);
        self.kept.keep(KeptLog::made(alloc, log, file))
    }

    /// Appends to a log: the bytes are gathered, and written with others later. If the first write
    /// to a file that this disk made fails, which is done at once, the file is removed.
    pub(crate) fn write_end(
        &mut self,
        alloc: Global,
        log: u32,
        bytes: &[u8],
    ) -> Result<(), DiskFault> {
        self.check_trouble(alloc, log)?;
        if self.kept.find(log).is_none() {
            self.begin_write(alloc)?;
            let opened = self.open_log(alloc, log, OpenOptions::new().append(true))?;
            let Opened { file, found, .. } = opened;
            self.make_room();
            self.kept
                .keep(KeptLog::found(alloc, log, file, found.len()))?;
        }
        self.append_kept(alloc, log, bytes)
    }

    // Appends to a log whose file is kept open.
    fn append_kept(&mut self, alloc: Global, log: u32, bytes: &[u8]) -> Result<(), DiskFault> {
        let Some(kept) = self.kept.find(log) else {
            return Err(DiskFault::NoLog);
        };
        if !kept.has_room_for(bytes) {
            return Err(DiskFault::TooLong);
        }
        let is_unwritten = kept.is_unwritten();
        match kept.append(bytes) {
            Ok(()) => Ok(()),
            Err(failed) if is_unwritten => Err(self.fail_first(alloc, log, failed)),
            Err(failed) => Err(self.fail_write(alloc, log, failed)),
        }
    }

    // Writes what was gathered of a log. If this fails, the log is lost.
    pub(super) fn write_gathered(&mut self, alloc: Global, log: u32) -> Result<(), DiskFault> {
        let Some(kept) = self.kept.find(log) else {
            return Ok(());
        };
        match kept.write_gathered() {
            Ok(()) => Ok(()),
            Err(failed) => Err(self.fail_write(alloc, log, failed)),
        }
    }

    // Writes what was gathered of each log, and closes its file. A log of which this fails is lost.
    pub(super) fn write_all_gathered(&mut self) {
        let alloc = self.rt.alloc();
        for _ in 0..MOST_KEPT {
            if let Some((log, failed)) = self.kept.close_first() {
                let _ = self.fail_write(alloc, log, failed);
            }
        }
    }

    // Notes a failed write, after which the log is lost.
    pub(super) fn fail_write(&mut self, alloc: Global, log: u32, failed: Failed) -> DiskFault {
        match self.path_of(alloc, log) {
            Ok(path) => self.lose(log, State::Lost, path, failed),
            Err(_) => {
                self.note(log, State::Lost, failed);
                DiskFault::Disk
            }
        }
    }

    // Notes the failed first write to a file that this disk made, and removes the file.
    fn fail_first(&mut self, alloc: Global, log: u32, failed: Failed) -> DiskFault {
        match self.path_of(alloc, log) {
            Ok(path) if self.unmake(log, &path) => self.lose(log, State::Gone, path, failed),
            _ => self.fail_write(alloc, log, failed),
        }
    }

    // Removes the open file of a log if the name still leads to it. Returns whether it is removed.
    fn unmake(&mut self, log: u32, path: &str) -> bool {
        let Some(kept) = self.kept.find(log) else {
            return false;
        };
        match fs::symlink_metadata(&self.rt, path) {
            Ok(found) if kept.is_named(&found) => {}
            _ => return false,
        }
        if fs::remove_file(&self.rt, path).is_err() {
            return false;
        }
        let _ = self.sync_names();
        true
    }

    /// Writes what was gathered of a log, and syncs its file. If somebody removed the file, its
    /// bytes are lost. A log that is lost stays so.
    pub(crate) fn write_through(&mut self, alloc: Global, log: u32) -> Result<(), DiskFault>
        ensures lost { IsSome (trouble_of self.old.troubles log) → is_ok result ≡ false }
        ensures stays { IsSome (trouble_of self.old.troubles log) → self.new.troubles ≡ self.old.troubles }
    {
        self.check_trouble(alloc, log)?;
        self.write_gathered(alloc, log)?;
        let path = match self.seek(alloc, log) {
            Ok((path, _)) => path,
            Err(fault) => {
                if fault == DiskFault::NoLog {
                    self.note(log, State::Gone, missing());
                }
                return Err(fault);
            }
        };
        let synced = match self.kept.find(log) {
            Some(kept) => kept.sync(),
            None => {
                let Opened { file, .. } = self.open_to_read(alloc, log)?;
                sync_file(&file)
            }
        };
        match synced {
            Ok(()) => Ok(()),
            Err(failed) => Err(self.lose(log, State::Lost, path, failed)),
        }
    }

    // Syncs a log's file through the file that is kept open, or else through this one.
    pub(super) fn sync_log(&mut self, log: u32, file: &File) -> Result<(), Failed> {
        match self.kept.find(log) {
            Some(kept) => kept.sync(),
            None => sync_file(file),
        }
    }

    /// Removes a log's file and the file that sets it aside, and syncs the directory. What was
    /// gathered of the log is dropped, or written if the file cannot be removed. If this fails with
    /// `Disk`, a second call does the rest. If another file has the name of a log that this disk
    /// writes, the file stays.
    pub(crate) fn unlink(&mut self, alloc: Global, log: u32) -> Result<(), DiskFault> {
        self.begin_write(alloc)?;
        let path = match self.seek(alloc, log) {
            Ok((path, _)) => path,
            Err(DiskFault::NoLog) if self.is_left(log, State::Gone) => {
                return self.end_removal(log);
            }
            Err(fault) => return Err(fault),
        };
        match fs::remove_file(&self.rt, path.as_str()) {
            Ok(()) => {
                self.kept.close(log);
                self.end_removal(log)
            }
            Err(reason) => Err(self.fail_removal(alloc, log, path, reason)),
        }
    }

    // Notes a removal that failed. The file stays open no longer.
    fn fail_removal(
        &mut self,
        alloc: Global,
        log: u32,
        path: String,
        reason: io::Error,
    ) -> DiskFault {
        let failed = Failed::new(Operation::Remove, reason);
        match reason.kind() {
            ErrorKind::NotFound => self.refuse_log(path, failed),
            _ => {
                // The log is still there, with all that was appended.
                let _ = self.write_gathered(alloc, log);
                self.lose(log, State::Gone, path, failed)
            }
        }
    }

    // Syncs the directory after a log's file was removed.
    fn end_removal(&mut self, log: u32) -> Result<(), DiskFault> {
        match self.sync_names() {
            Ok(()) => {
                self.troubles.forget(log);
                self.take_back(log);
                Ok(())
            }
            Err(error) => {
                self.note(log, State::Gone, Failed::new(Operation::Sync, error));
                self.refuse_folder(Operation::Sync, error);
                Err(DiskFault::Disk)
            }
        }
    }
}

// Returns why a log is lost whose file somebody removed.
fn missing() -> Failed {
    Failed::new(Operation::Open, io::Error::from(ErrorKind::NotFound))
}

// Syncs the directory at a path.
fn sync_directory(rt: &HostRuntime, path: &str) -> io::Result<()> {
    File::open(rt, path)?.sync_all()
}

// Syncs a file.
fn sync_file(file: &File) -> Result<(), Failed> {
    file.sync_all()
        .map_err(|reason| Failed::new(Operation::Sync, reason))
}
