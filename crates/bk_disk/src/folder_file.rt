//! A file of a directory that is written, beside its logs.

use crate::file_fault::{Failed, FileFault, Operation};
use crate::folder::open_found;
use crate::log_names::not_plain;
use crate::reason::{Finding, Reason};
use crate::refusal::device_fault;
use crate::{DiskFault, FaultWatch};
use std::alloc::{AllocError, Global};
use std::fs::{self, File, OpenOptions};
use std::io::{self, ErrorKind, Write};
use std::os::unix::fs::{FileExt, MetadataExt, OpenOptionsExt};

/// What the name of a file begins with that holds secrets, the keys of ledgers, and that of its copies.
const SECRET: &str = "ledgers.manifest";
/// Rights of such a file: its owner alone may read and write it.
const OWNER_ALONE: u32 = 0o600;

/// A plain file of a directory that is written, beside its logs. It is read whole, written at its
/// end after it was cut there, or replaced as a whole. It may be missing. One that holds keys of
/// ledgers is made for its owner alone (0600), any other with the rights that the process gives.
///
/// No link is followed, and a file with a second name is refused. A call that fails with `Disk` is
/// noted for `last_fault` of the disk. After a failed sync of its bytes each `write_at` and `sync`
/// returns `Disk` until the file is replaced: the system may report success for bytes that it has
/// dropped.
#[derive(Drop)]
pub struct FolderFile {
    rt: HostRuntime,
    folder: String,
    path: String,
    /// The path of the file that is to replace it.
    next: String,
    is_secret: bool,
    watch: FaultWatch,
    /// Open to write, from the first call that writes.
    file: Option<File>,
    /// The sync of its bytes that failed, until the file is replaced.
    lost: Option<Failed>,
    /// Whether the last sync of the directory failed after a rename.
    has_unsynced_name: bool,
}

impl FolderFile {
    /// Returns the file of this name in a directory, which need not exist.
    pub(crate) fn new(
        rt: &HostRuntime,
        folder: &str,
        name: &str,
        watch: FaultWatch,
    ) -> Result<FolderFile, AllocError> {
        let alloc = rt.alloc();
        Ok(FolderFile {
            rt: *rt,
            folder: String::from_str(alloc, folder)?,
            path: format!(in alloc; "{folder}/{name}")?,
            next: format!(in alloc; "{folder}/{name}.new")?,
            is_secret: name.starts_with(SECRET),
            watch,
            file: None,
            lost: None,
            has_unsynced_name: false,
        })
    }

    /// Returns the bytes of the file; none if it is missing.
    ///
    /// # Errors
    ///
    /// - `Disk` if the name is no plain file with one name, or the system refuses a call.
    /// - `Memory`.
    pub fn read(&mut self, alloc: Global) -> Result<Vec<u8>, DiskFault> {
        let Some(file) = self.opened(OpenOptions::new().read(true))? else {
            return Ok(Vec::new(alloc));
        };
        let length = match file.metadata() {
            Ok(found) => found.len(),
            Err(error) => return Err(self.refuse(Operation::Read, error)),
        };
        let mut bytes = vec![in alloc; 0u8; length as usize].map_err(|_| DiskFault::Memory)?;
        match file.read_exact_at(&mut bytes, 0) {
            Ok(()) => Ok(bytes),
            Err(error) => Err(self.refuse(Operation::Read, error)),
        }
    }

    /// Truncates the file at a position and writes a piece there. The file exists.
    ///
    /// # Errors
    ///
    /// - `Disk` leaves the bytes before the position, and any bytes behind it.
    /// - `Memory`.
    pub fn write_at(&mut self, at: u64, piece: &[u8]) -> Result<(), DiskFault> {
        self.check_lost()?;
        self.open_to_write()?;
        let Some(file) = &self.file else {
            return Err(self.refuse(Operation::Open, io::Error::from(ErrorKind::NotFound)));
        };
        if let Err(error) = file.set_len(at) {
            return Err(self.refuse(Operation::Truncate, error));
        }
        match file.write_all_at(piece, at) {
            Ok(()) => Ok(()),
            Err(error) => Err(self.refuse(Operation::Write, error)),
        }
    }

    /// Makes all bytes of the file durable, and its name if a replacing failed. Fails with `Disk`.
    pub fn sync(&mut self) -> Result<(), DiskFault> {
        self.check_lost()?;
        self.open_to_write()?;
        if let Some(file) = &self.file
            && let Err(error) = file.sync_all()
        {
            self.lost = Some(Failed::new(Operation::Sync, error));
            return Err(self.refuse(Operation::Sync, error));
        }
        if self.has_unsynced_name {
            self.sync_folder()?;
        }
        Ok(())
    }

    /// Replaces the file by one of these bytes: writes a new file, syncs it, renames it, and syncs
    /// the directory.
    ///
    /// # Errors
    ///
    /// - `Disk` leaves the old file or the whole new one. A crash may leave the other of the two.
    /// - `Memory`.
    pub fn replace(&mut self, whole: &[u8]) -> Result<(), DiskFault> {
        self.check_plain()?;
        let next = self.write_next(whole)?;
        if let Err(error) = fs::rename(&self.rt, self.next.as_str(), self.path.as_str()) {
            return Err(self.refuse_next(Operation::Rename, error));
        }
        self.file = Some(next);
        self.lost = None;
        self.sync_folder()
    }

    // Writes and syncs the file that is to replace this one. One that a crash left is removed: it
    // was never in place.
    fn write_next(&mut self, whole: &[u8]) -> Result<File, DiskFault> {
        match fs::remove_file(&self.rt, self.next.as_str()) {
            Ok(()) => {}
            Err(error) if error.kind() == ErrorKind::NotFound => {}
            Err(error) => return Err(self.refuse_next(Operation::Remove, error)),
        }
        let mut how = OpenOptions::new();
        how.write(true).create_new(true);
        if self.is_secret {
            how.mode(OWNER_ALONE);
        }
        let mut file = match how.open(&self.rt, self.next.as_str()) {
            Ok(file) => file,
            Err(error) => return Err(self.refuse_next(Operation::Create, error)),
        };
        if let Err(error) = file.write_all(whole) {
            return Err(self.refuse_next(Operation::Write, error));
        }
        match file.sync_all() {
            Ok(()) => Ok(file),
            Err(error) => Err(self.refuse_next(Operation::Sync, error)),
        }
    }

    // Makes the names of the directory durable.
    fn sync_folder(&mut self) -> Result<(), DiskFault> {
        let synced = match File::open(&self.rt, self.folder.as_str()) {
            Ok(folder) => folder.sync_all(),
            Err(error) => Err(error),
        };
        self.has_unsynced_name = synced.is_err();
        match synced {
            Ok(()) => Ok(()),
            Err(error) => Err(self.refuse_at(&self.folder, Failed::new(Operation::Sync, error))),
        }
    }

    // Fails with `Disk` if a sync of the bytes has failed.
    fn check_lost(&self) -> Result<(), DiskFault> {
        match self.lost {
            Some(failed) => Err(self.refuse_at(&self.path, failed)),
            None => Ok(()),
        }
    }

    // Opens the file to write it, unless it is open or missing.
    fn open_to_write(&mut self) -> Result<(), DiskFault> {
        if self.file.is_none() {
            self.file = self.opened(OpenOptions::new().write(true))?;
        }
        Ok(())
    }

    // Opens the file, if it is a plain file with one name. `None` if it is missing.
    fn opened(&self, how: &OpenOptions) -> Result<Option<File>, DiskFault> {
        let found = match fs::symlink_metadata(&self.rt, self.path.as_str()) {
            Ok(found) => found,
            Err(error) if error.kind() == ErrorKind::NotFound => return Ok(None),
            Err(error) => return Err(self.refuse(Operation::Open, error)),
        };
        let finding = match not_plain(&found) {
            None if found.nlink() > 1 => Some(Finding::TwoNames),
            finding => finding,
        };
        if let Some(finding) = finding {
            let failed = Failed::by(Operation::Open, Reason::Found(finding));
            return Err(self.refuse_at(&self.path, failed));
        }
        match open_found(&self.rt, &self.path, how, &found) {
            Ok(file) => Ok(Some(file)),
            Err(error) => Err(self.refuse(Operation::Open, error)),
        }
    }

    // Checks that the name is a plain file with one name, or free.
    fn check_plain(&self) -> Result<(), DiskFault> {
        self.opened(OpenOptions::new().read(true))?;
        Ok(())
    }

    // Notes a call that failed on the file.
    fn refuse(&self, operation: Operation, error: io::Error) -> DiskFault {
        self.refuse_at(&self.path, Failed::new(operation, error))
    }

    // Notes a call that failed on the file that is to replace it.
    fn refuse_next(&self, operation: Operation, error: io::Error) -> DiskFault {
        self.refuse_at(&self.next, Failed::new(operation, error))
    }

    // Notes a call that failed at a path. Returns the fault of the disk.
    fn refuse_at(&self, path: &str, failed: Failed) -> DiskFault {
        let path = String::from_str(self.rt.alloc(), path);
        self.watch
            .note(path.ok().map(|path| FileFault::new(path, failed)));
        device_fault(failed.reason.kind())
    }
}
