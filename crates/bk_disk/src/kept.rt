//! Files of the logs that are written: each stays open until the log is sealed.
//!
//! What is appended is gathered in a window of the log (`window.rt`), which one call of the system
//! writes. The system reports a failed write-back to the files that were open when it occurred, so
//! a file is synced before it is closed.

use crate::DiskFault;
use crate::file_fault::{Failed, Operation};
use crate::window::Window;
use bk_record::MAX_LOG_LENGTH;
use std::alloc::{AllocError, Global};
use std::fs::{File, Metadata};
use std::io::{self, Write};
use std::os::unix::fs::MetadataExt;

/// The most files of logs that stay open. A store writes two logs at a time, one of its flush and
/// one of its compaction. The others are logs that it left unsealed.
pub(crate) const MOST_KEPT: usize = 16;

/// The file of a log that is written.
#[derive(Drop)]
pub(crate) struct KeptLog {
    log: u32,
    /// Open to write at its end.
    file: File,
    /// How long the file was left.
    length: u64,
    /// What is to be written behind that.
    window: Window,
    /// Whether this disk made the file.
    is_new: bool,
}

/// What a log's name leads to.
#[derive(Clone, Copy, Debug, PartialEq, Eq)]
pub(crate) enum Seen {
    /// The file that is open, as it was left.
    Same,
    /// The file that is open, of another length.
    Changed,
    /// Another file.
    Other,
}

impl KeptLog {
    /// Returns the open file of a log that was found.
    pub(crate) fn found(alloc: Global, log: u32, file: File, length: u64) -> KeptLog {
        KeptLog {
            log,
            file,
            length,
            window: Window::new(alloc),
            is_new: false,
        }
    }

    /// Returns the open and empty file of a log that this disk made.
    pub(crate) fn made(alloc: Global, log: u32, file: File) -> KeptLog {
        KeptLog {
            log,
            file,
            length: 0,
            window: Window::new(alloc),
            is_new: true,
        }
    }

    /// Returns whether this disk made the file, and has written nothing to it. Then nothing is
    /// gathered either.
    pub(crate) fn is_unwritten(&self) -> bool {
        self.is_new && self.length == 0
    }

    /// Returns the number of bytes that are to be written.
    pub(crate) fn gathered(&self) -> u64 {
        self.window.bytes().len() as u64
    }

    /// Returns whether a piece of this length fits.
    pub(crate) fn has_room_for(&self, bytes: &[u8]) -> bool {
        let end = self.length.saturating_add(self.gathered());
        end <= MAX_LOG_LENGTH && bytes.len() as u64 <= MAX_LOG_LENGTH - end
    }

    /// Appends a piece: gathers it, once what was gathered before is written if both do not fit
    /// into the window. The first piece of a file that this disk made is written at once, and so is
    /// one that is longer than the window, or that has no memory to be gathered.
    pub(crate) fn append(&mut self, bytes: &[u8]) -> Result<(), Failed> {
        if self.is_unwritten() {
            return self.write(bytes);
        }
        if self.window.gather(bytes) {
            return Ok(());
        }
        self.write_gathered()?;
        if self.window.gather(bytes) {
            return Ok(());
        }
        self.write(bytes)
    }

    /// Writes what was gathered at the file's end. If this fails, a part of it may be there, and
    /// the rest is dropped.
    pub(crate) fn write_gathered(&mut self) -> Result<(), Failed> {
        let count = self.gathered();
        if count == 0 {
            return Ok(());
        }
        let written = self.file.write_all(self.window.bytes());
        self.window.clear();
        self.left(written, count)
    }

    // Writes a piece at the file's end.
    fn write(&mut self, bytes: &[u8]) -> Result<(), Failed> {
        let written = self.file.write_all(bytes);
        self.left(written, bytes.len() as u64)
    }

    // Notes how long the file is left once so many bytes were written.
    fn left(&mut self, written: io::Result<()>, count: u64) -> Result<(), Failed> {
        match written {
            Ok(()) => {
                self.length = self.length.saturating_add(count);
                Ok(())
            }
            Err(reason) => Err(Failed::new(Operation::Write, reason)),
        }
    }

    // Writes what was gathered, and asks the device to keep all that was written.
    fn end(&mut self) -> Result<(), Failed> {
        self.write_gathered()?;
        self.sync()
    }

    /// Asks the device to keep what was written.
    pub(crate) fn sync(&self) -> Result<(), Failed> {
        self.file
            .sync_all()
            .map_err(|reason| Failed::new(Operation::Sync, reason))
    }

    /// Returns whether what a name leads to is the open file.
    pub(crate) fn is_named(&self, named: &Metadata) -> bool {
        match self.file.metadata() {
            Ok(kept) => is_same_file(&kept, named),
            Err(_) => false,
        }
    }

    /// Compares the open file with what the log's name leads to now. Fails if the system does not
    /// tell what the open file is.
    pub(crate) fn look_at(&self, named: &Metadata) -> Result<Seen, Failed> {
        match self.file.metadata() {
            Ok(kept) if !is_same_file(&kept, named) => Ok(Seen::Other),
            Ok(kept) if kept.len() == self.length => Ok(Seen::Same),
            Ok(_) => Ok(Seen::Changed),
            Err(reason) => Err(Failed::new(Operation::Open, reason)),
        }
    }
}

/// The device and the inode of a file.
#[derive(Clone, Copy, Debug, PartialEq, Eq)]
pub(crate) struct FileId {
    device: u64,
    inode: u64,
}

impl FileId {
    /// Returns those of what was found.
    pub(crate) fn of(found: &Metadata) -> FileId {
        FileId {
            device: found.dev(),
            inode: found.ino(),
        }
    }
}

/// Returns whether one file was found twice, by device and inode.
pub(crate) fn is_same_file(one: &Metadata, other: &Metadata) -> bool {
    FileId::of(one) == FileId::of(other)
}

/// The files of the logs that are written, the one that was opened first in front.
#[derive(Drop)]
pub(crate) struct KeptLogs {
    logs: Vec<KeptLog>,
}

impl KeptLogs {
    /// Returns none, with room for all that stay open at once.
    pub(crate) fn new(alloc: Global) -> Result<KeptLogs, AllocError> {
        Ok(KeptLogs {
            logs: Vec::with_capacity(alloc, MOST_KEPT)?,
        })
    }

    /// Returns the open file of a log, if it has one.
    pub(crate) fn find(&mut self, log: u32) -> Option<&mut KeptLog> {
        self.logs.iter_mut().find(|kept| kept.log == log)
    }

    /// Returns the number of bytes of a log that are to be written.
    pub(crate) fn gathered(&mut self, log: u32) -> u64 {
        self.find(log).map_or(0, |kept| kept.gathered())
    }

    /// Makes room for one more file: if there is none, writes what was gathered of the one that was
    /// opened first, syncs it and closes it. Returns the log if this failed.
    pub(crate) fn make_room(&mut self) -> Option<(u32, Failed)> {
        if self.logs.len() < MOST_KEPT {
            return None;
        }
        let first = self.logs.first_mut()?;
        let log = first.log;
        let ended = first.end();
        let _ = self.logs.remove(0);
        ended.err().map(|failed| (log, failed))
    }

    /// Writes what was gathered of the file that was opened first, and closes it. Returns the log
    /// if this failed.
    pub(crate) fn close_first(&mut self) -> Option<(u32, Failed)> {
        let first = self.logs.first_mut()?;
        let log = first.log;
        let written = first.write_gathered();
        let _ = self.logs.remove(0);
        written.err().map(|failed| (log, failed))
    }

    /// Keeps a file open, for which room was made.
    pub(crate) fn keep(&mut self, kept: KeptLog) -> Result<(), DiskFault> {
        self.logs.push(kept).map_err(|_| DiskFault::Memory)
    }

    /// Closes the file of a log, if it has one.
    pub(crate) fn close(&mut self, log: u32) {
        self.logs.retain(|kept| kept.log != log);
    }
}
