//! The directory that is served.

use bk_disk::{DirDisk, FolderFault};
use std::fs::{self, File};
use std::io::{self, ErrorKind};
use std::path::Path;

/// Opens the directory at a path as its one writer. Creates it if nothing is there and its parent
/// exists, and makes its name durable.
pub(crate) fn open_folder(rt: &HostRuntime, path: &str) -> Result<DirDisk, FolderFault> {
    match fs::create_dir(rt, path) {
        Ok(()) => {}
        Err(reason) if reason.kind() == ErrorKind::AlreadyExists => {}
        Err(reason) => return Err(refused(rt, path, reason)),
    }
    let disk = DirDisk::open_to_write(rt, path)?;
    match sync_parent(rt, path) {
        Ok(()) => Ok(disk),
        Err(reason) => Err(refused(rt, path, reason)),
    }
}

/// Returns the fault of a directory that the system refuses for this reason.
fn refused(rt: &HostRuntime, path: &str, reason: io::Error) -> FolderFault {
    match String::from_str(rt.alloc(), path) {
        Ok(path) => FolderFault::Refused { path, reason },
        Err(_) => FolderFault::Memory,
    }
}

/// Syncs the parent of a directory. Does nothing if the parent may not be read: who created the
/// directory had to read it.
fn sync_parent(rt: &HostRuntime, path: &str) -> io::Result<()> {
    let parent = match Path::new(path).parent() {
        Some(parent) if !parent.as_str().is_empty() => parent.as_str(),
        _ => ".",
    };
    match File::open(rt, parent) {
        Ok(parent) => parent.sync_all(),
        Err(reason) if reason.kind() == ErrorKind::PermissionDenied => Ok(()),
        Err(reason) => Err(reason),
    }
}
