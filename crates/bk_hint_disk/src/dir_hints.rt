//! Hints as files of a directory.

ghost use Rattle.std.specs.Prelude.{false};
ghost use Rattle.std.specs.FinMap as map;

use crate::{HintStoreFault, Hints};
use bk_disk::Operation;
use bk_record::{HEADER_LENGTH, MAX_LOG_LENGTH, RECORD_HEAD};
use std::alloc::{AllocError, Global};
use std::fs::{self, File, OpenOptions};
use std::io::{self, ErrorKind, Write};
use std::os::unix::fs::{FileExt, MetadataExt};

/// A store of hints in a directory: that of log 31 is the file `1f.hint`. It is written as
/// `1f.hint.new` and renamed. Nothing is synced: a torn hint does not pass its checksum. If a `put`
/// fails, `refused` has the call of the system, and the new file is removed if it can be.
///
/// `get` reads plain files alone (`NotPlain`), of which none is longer than a hint can be
/// (`TooLong`). The store is not honest: other programs may write the files.
#[derive(Drop)]
pub struct DirHints {
    rt: HostRuntime,
    folder: String,
    refused: Option<RefusedPut>,
}

/// Why a hint was not written: a call of the system that failed.
#[derive(Debug, Drop)]
pub struct RefusedPut {
    /// The file: that of the hint if the new one cannot be renamed to it, else the new one.
    pub path: String,
    /// The call.
    pub operation: Operation,
    /// Its error.
    pub reason: io::Error,
}

impl DirHints {
    /// Returns the hints of the directory at a path.
    pub fn new(rt: &HostRuntime, folder: &str) -> Result<DirHints, AllocError> {
        Ok(DirHints {
            rt: *rt,
            folder: String::from_str(rt.alloc(), folder)?,
            refused: None,
        })
    }

    /// Takes why the last `put` failed; `None` if it did not, or if memory was refused.
    pub fn refused(&mut self) -> Option<RefusedPut> {
        self.refused.take()
    }

    /// Returns the path of the hint of a log.
    fn path(&self, log: u32) -> Result<String, AllocError> {
        format!(in self.rt.alloc(); "{}/{log:x}.hint", self.folder)
    }

    /// Opens the hint at a path, and returns it with its length, `None` if there is none. Follows no
    /// link, and opens no named pipe, which would wait for a writer.
    fn opened(&self, path: &str) -> Result<Option<(File, u64)>, HintStoreFault> {
        let found = match fs::symlink_metadata(&self.rt, path) {
            Ok(found) => found,
            Err(error) if error.kind() == ErrorKind::NotFound => return Ok(None),
            Err(_) => return Err(HintStoreFault::Disk),
        };
        if !found.is_file() {
            return Err(HintStoreFault::NotPlain);
        }
        let Ok(file) = File::open(&self.rt, path) else {
            return Err(HintStoreFault::Disk);
        };
        match file.metadata() {
            Ok(now) if now.dev() == found.dev() && now.ino() == found.ino() => {
                Ok(Some((file, now.len())))
            }
            Ok(_) => Err(HintStoreFault::NotPlain),
            Err(_) => Err(HintStoreFault::Disk),
        }
    }

    /// Writes a new file of these bytes, in place of one that is there, and renames it. A link is
    /// replaced, and not followed.
    fn write(&self, new: &str, path: &str, hint: &[u8]) -> Result<(), (Operation, io::Error)> {
        let _ = fs::remove_file(&self.rt, new);
        let opened = OpenOptions::new()
            .write(true)
            .create_new(true)
            .open(&self.rt, new);
        let mut file = match opened {
            Ok(file) => file,
            Err(reason) => return Err((Operation::Create, reason)),
        };
        let refused = match file.write_all(hint) {
            Ok(()) => match fs::rename(&self.rt, new, path) {
                Ok(()) => return Ok(()),
                Err(reason) => (Operation::Rename, reason),
            },
            Err(reason) => (Operation::Write, reason),
        };
        // It only takes up room. A later call removes it too.
        let _ = fs::remove_file(&self.rt, new);
        Err(refused)
    }
}

/// Greatest length of a hint in bytes: 36, and for each record a head of 24 and a step of 4. A log
/// has less than 2^32 bytes, of which 1024 are its header, and a record has at least 20.
const LONGEST: u64 = 36 + 28 * ((MAX_LOG_LENGTH - HEADER_LENGTH as u64) / RECORD_HEAD as u64);

/// Returns the bytes of a hint of this length that is open.
fn bytes_of(alloc: Global, file: &File, length: u64) -> Result<Vec<u8>, HintStoreFault> {
    if length > LONGEST {
        return Err(HintStoreFault::TooLong(length));
    }
    let Ok(mut bytes) = vec![in alloc; 0u8; length as usize] else {
        return Err(HintStoreFault::Memory);
    };
    match file.read_exact_at(&mut bytes, 0) {
        Ok(()) => Ok(bytes),
        Err(_) => Err(HintStoreFault::Disk),
    }
}

impl Hints for DirHints {
    ghost hints = { λ _. map.empty };

    ghost honest = { λ _. false };

    fn get(&mut self, alloc: Global, log: u32) -> Result<Option<Vec<u8>>, HintStoreFault> {
        let Ok(path) = self.path(log) else {
            return Err(HintStoreFault::Memory);
        };
        match self.opened(path.as_str())? {
            Some((file, length)) => Ok(Some(bytes_of(alloc, &file, length)?)),
            None => Ok(None),
        }
    }

    fn put(&mut self, alloc: Global, log: u32, hint: &[u8]) -> Result<(), HintStoreFault> {
        self.refused = None;
        let Ok(path) = self.path(log) else {
            return Err(HintStoreFault::Memory);
        };
        let Ok(next) = format!(in alloc; "{path}.new") else {
            return Err(HintStoreFault::Memory);
        };
        match self.write(next.as_str(), path.as_str(), hint) {
            Ok(()) => Ok(()),
            Err((operation, reason)) => {
                let path = if operation == Operation::Rename {
                    path
                } else {
                    next
                };
                self.refused = Some(RefusedPut {
                    path,
                    operation,
                    reason,
                });
                Err(HintStoreFault::Disk)
            }
        }
    }

    fn drop_hint(&mut self, _alloc: Global, log: u32) -> Result<(), HintStoreFault> {
        let Ok(path) = self.path(log) else {
            return Err(HintStoreFault::Memory);
        };
        match fs::remove_file(&self.rt, path.as_str()) {
            Ok(()) => Ok(()),
            Err(error) if error.kind() == ErrorKind::NotFound => Ok(()),
            Err(_) => Err(HintStoreFault::Disk),
        }
    }
}
