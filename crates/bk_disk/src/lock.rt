//! Locks of the one writer of a directory: on the directory itself, and on the file `writer.lock`
//! in it.
//!
//! The locks end with their holder; the file stays, and its name is no log's. The lock of the
//! directory keeps a second writer out also if the file was deleted and made again. The holder
//! writes the number of its process into the file, for the report of another one. Reading takes no
//! lock.
//!
//! The file is a new file, or a plain file with one name. No link is followed, nothing is truncated
//! on opening, and once it is locked its name must lead to it, by device and inode.

use crate::kept::is_same_file;
use crate::reason::{Finding, Reason};
use crate::refusal::Refusal;
use std::alloc::Global;
use std::fs::{self, File, Metadata, OpenOptions, TryLockError};
use std::io::{self, ErrorKind};
use std::os::unix::fs::{FileExt, MetadataExt};
use std::process;

/// The name of the file that a writer of a directory locks.
pub(crate) const LOCK_NAME: &str = "writer.lock";

/// How often the lock file is opened again if it is replaced meanwhile.
const TRIES: u32 = 8;

/// The most bytes of the number of a process and a line feed. A longer file is not overwritten.
const LONGEST: u64 = 11;

/// The system's numbers for `Is a directory` and `Stale file handle`.
const IS_A_DIRECTORY: i32 = 21;

const STALE: i32 = 116;

/// The locks of a directory that is written. They are released when this is dropped.
#[derive(Drop)]
pub(crate) struct WriterLock {
    directory: File,
    _file: File,
}

impl WriterLock {
    /// Takes the locks of the directory at a path. It does not wait.
    pub(crate) fn take(
        rt: &HostRuntime,
        alloc: Global,
        folder: &str,
    ) -> Result<WriterLock, Refusal> {
        let Ok(path) = format!(in alloc; "{folder}/{LOCK_NAME}") else {
            return Err(Refusal::Memory);
        };
        let directory = match File::open(rt, folder) {
            Ok(directory) => directory,
            Err(error) => return Err(Refusal::at(alloc, folder, error)),
        };
        // If the file system does not lock directories, only the file is locked.
        if matches!(directory.try_lock(), Err(TryLockError::WouldBlock)) {
            let holder = holder_at(rt, &path);
            return Err(Refusal::InUse { lock: path, holder });
        }
        match lock_file(rt, &path) {
            Ok(file) => Ok(WriterLock {
                directory,
                _file: file,
            }),
            Err(Unlocked::Held) => {
                let holder = holder_at(rt, &path);
                Err(Refusal::InUse { lock: path, holder })
            }
            Err(Unlocked::Refused(reason)) => Err(Refusal::Path { path, reason }),
        }
    }

    /// Asks the device to keep the names that the directory has.
    pub(crate) fn sync(&self) -> io::Result<()> {
        self.directory.sync_all()
    }

    /// Checks that the path still leads to the directory that is locked.
    pub(crate) fn check(&self, rt: &HostRuntime, folder: &str) -> io::Result<()> {
        if is_same_file(&self.directory.metadata()?, &fs::metadata(rt, folder)?) {
            return Ok(());
        }
        Err(io::Error::from_raw_os_error(STALE))
    }
}

/// Why a file is not locked.
#[derive(Clone, Copy, Debug)]
enum Unlocked {
    /// Another program has the lock.
    Held,
    /// It cannot be opened or locked.
    Refused(Reason),
}

impl From<io::Error> for Unlocked {
    fn from(error: io::Error) -> Unlocked {
        Unlocked::Refused(Reason::of(&error))
    }
}

impl From<TryLockError> for Unlocked {
    fn from(error: TryLockError) -> Unlocked {
        match error {
            TryLockError::WouldBlock => Unlocked::Held,
            TryLockError::Error(error) => Unlocked::from(error),
        }
    }
}

/// Opens and locks the lock file at a path, and writes the number of this process into it.
fn lock_file(rt: &HostRuntime, path: &str) -> Result<File, Unlocked> {
    for _ in 0..TRIES {
        let Some(file) = open_or_make(rt, path)? else {
            continue;
        };
        file.try_lock()?;
        let locked = file.metadata()?;
        match fs::symlink_metadata(rt, path) {
            Ok(named) if is_same_file(&locked, &named) && is_plain(&locked) => {
                write_number(rt, &file, locked.len());
                return Ok(file);
            }
            Err(error) if error.kind() != ErrorKind::NotFound => return Err(error.into()),
            // The name leads elsewhere by now.
            _ => {}
        }
    }
    Err(Unlocked::Refused(Reason::System(STALE)))
}

/// Returns whether a file is a plain one with one name.
fn is_plain(found: &Metadata) -> bool {
    found.is_file() && found.nlink() == 1
}

/// Makes the file at a path, or opens the plain file that has this name only. `None` if it is
/// removed meanwhile.
fn open_or_make(rt: &HostRuntime, path: &str) -> Result<Option<File>, Unlocked> {
    // This follows no link.
    let made = OpenOptions::new()
        .read(true)
        .write(true)
        .create_new(true)
        .open(rt, path);
    match made {
        Ok(file) => return Ok(Some(file)),
        Err(error) if error.kind() == ErrorKind::AlreadyExists => {}
        Err(error) => return Err(error.into()),
    }
    let opened = match fs::symlink_metadata(rt, path) {
        Ok(found) if is_plain(&found) => {
            OpenOptions::new().read(true).write(true).open(rt, path)
        }
        Ok(found) => return Err(Unlocked::Refused(not_plain(&found))),
        Err(error) => Err(error),
    };
    match opened {
        Ok(file) => Ok(Some(file)),
        Err(error) if error.kind() == ErrorKind::NotFound => Ok(None),
        Err(error) => Err(error.into()),
    }
}

/// Returns why what has the name of the lock file is not opened.
fn not_plain(found: &Metadata) -> Reason {
    if found.is_dir() {
        Reason::System(IS_A_DIRECTORY)
    } else if found.is_symlink() {
        Reason::Found(Finding::LinkedLock)
    } else {
        Reason::Found(Finding::OddLock)
    }
}

/// Writes the number of this process into a locked file of this length. The number is a hint, so a
/// failure does not matter. A file that is too long for a number is left unchanged.
fn write_number(rt: &HostRuntime, file: &File, length: u64) {
    let number = process::id(rt.process());
    let Ok(text) = format!(in rt.alloc(); "{number}\n") else {
        return;
    };
    if length <= LONGEST && file.write_all_at(text.as_bytes(), 0).is_ok() {
        let _ = file.set_len(text.len() as u64);
    }
}

/// Returns the number of the process in the lock file at a path, if it is a plain file that has
/// one.
fn holder_at(rt: &HostRuntime, path: &str) -> Option<u32> {
    if !is_plain(&fs::symlink_metadata(rt, path).ok()?) {
        return None;
    }
    let file = File::open(rt, path).ok()?;
    let mut bytes = [0u8; 10];
    let count = file.read_at(&mut bytes, 0).ok()?;
    let line = bytes.get(..count)?.split(|byte| *byte == b'\n').next()?;
    str::from_utf8(line).ok()?.parse::<u32>().ok()
}
