//! Names in a directory that is written: each log is a file of its own, and so is each file that
//! this crate keeps beside a log (`unsynced.rt`).
//!
//! A compaction removes a log that it has copied. If two names led to one file, it could remove the
//! only copy of an entry.

use crate::file_fault::{Failed, Operation};
use crate::log_of;
use crate::names::{again_log_of, unsynced_log_of};
use crate::reason::{Finding, Reason};
use crate::refusal::Refusal;
use std::alloc::Global;
use std::collections::BTreeMap;
use std::fs::{self, DirEntry, FileType, Metadata};
use std::io::ErrorKind;
use std::os::unix::fs::{FileTypeExt, MetadataExt};

/// Checks that each log's name in the directory at a path, and each name of a file beside a log, is
/// a plain file, and that no file has the names of two logs, by device and inode. Fails with `Path`,
/// which has the name or both names, or `Memory`.
pub(crate) fn check_names(rt: &HostRuntime, alloc: Global, folder: &str) -> Result<(), Refusal> {
    let mut files = BTreeMap::new(alloc);
    let entries = fs::read_dir(rt, folder).map_err(|error| Refusal::at(alloc, folder, error))?;
    for entry in entries {
        let entry = entry.map_err(|error| Refusal::at(alloc, folder, error))?;
        check_entry(rt, alloc, folder, &mut files, &entry)?;
    }
    Ok(())
}

/// Checks an entry of a directory, and adds the file of a log to these.
fn check_entry(
    rt: &HostRuntime,
    alloc: Global,
    folder: &str,
    files: &mut BTreeMap<(u64, u64), u32>,
    entry: &DirEntry,
) -> Result<(), Refusal> {
    let name = entry.file_name();
    let log = log_of(name);
    if log.is_none() && unsynced_log_of(name).is_none() && again_log_of(name).is_none() {
        return Ok(());
    }
    let found = match entry.metadata() {
        Ok(found) => found,
        // It is removed meanwhile.
        Err(error) if error.kind() == ErrorKind::NotFound => return Ok(()),
        Err(error) => return Err(Refusal::at(alloc, entry.path().as_str(), error)),
    };
    match (log, not_plain(&found)) {
        (Some(_), Some(Finding::LinkedName)) => Err(link_fault(rt, alloc, entry)),
        (_, Some(finding)) => {
            let reason = Reason::Found(finding);
            Err(Refusal::by(alloc, entry.path().as_str(), reason))
        }
        (Some(log), None) if found.nlink() > 1 => check_file(alloc, folder, files, log, &found),
        _ => Ok(()),
    }
}

/// Returns what has a name if it is no plain file.
pub(crate) fn not_plain(found: &Metadata) -> Option<Finding> {
    if found.is_file() {
        return None;
    }
    Some(finding_of(found.file_type()))
}

/// Returns what is no plain file.
fn finding_of(kind: FileType) -> Finding {
    if kind.is_symlink() {
        Finding::LinkedName
    } else if kind.is_dir() {
        Finding::Directory
    } else if kind.is_fifo() {
        Finding::Pipe
    } else if kind.is_socket() {
        Finding::Socket
    } else {
        Finding::Device
    }
}

/// Checks that the file of a log is none of these, by device and inode, and adds it.
fn check_file(
    alloc: Global,
    folder: &str,
    files: &mut BTreeMap<(u64, u64), u32>,
    log: u32,
    found: &Metadata,
) -> Result<(), Refusal> {
    match files.insert((found.dev(), found.ino()), log) {
        Ok(None) => Ok(()),
        Ok(Some(other)) => {
            let (low, high) = (log.min(other), log.max(other));
            match format!(in alloc; "{folder}/{low:x}.log and {folder}/{high:x}.log") {
                Ok(path) => Err(Refusal::Path {
                    path,
                    reason: Reason::Found(Finding::TwoLogs),
                }),
                Err(_) => Err(Refusal::Memory),
            }
        }
        Err(_) => Err(Refusal::Memory),
    }
}

/// Returns the refusal of a link: its name and where it leads.
fn link_fault(rt: &HostRuntime, alloc: Global, entry: &DirEntry) -> Refusal {
    let named = entry.path();
    let text = match fs::read_link(rt, named) {
        Ok(target) => format!(in alloc; "{} -> {}", named.as_str(), target.as_str()),
        Err(_) => String::from_str(alloc, named.as_str()),
    };
    match text {
        Ok(path) => Refusal::Path {
            path,
            reason: Reason::Found(Finding::Link),
        },
        Err(_) => Refusal::Memory,
    }
}

/// Returns the failed call on a link in a directory that is written.
pub(crate) fn link_failed() -> Failed {
    Failed::by(Operation::Open, Reason::Found(Finding::Link))
}
