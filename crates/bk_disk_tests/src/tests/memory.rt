//! Memory refused once while a log of a real directory is set aside or written again: nothing is lost, and the call can
//! be made again.
//!
//! In a plain run nothing is refused. `rt try --test --fail-alloc N` refuses the Nth allocation of each test.

use super::stage::begin;
use super::table::{Call, make};
use bk_disk::{DirDisk, DiskFault, FileFault, FolderFault};
use std::fs::{self, File, OpenOptions};
use std::io::{self, Write};
use std::os::unix::fs::FileExt;
use std::process::Abort;

const BYTES: &[u8; 20] = b"0123456789abcdefghij";

// Makes an empty directory, again if memory is refused.
fn begin_again(rt: &HostRuntime, folder: &str) -> bool {
    begin(rt, folder) || begin(rt, folder)
}

// Whether a file has these bytes, and maybe more.
fn has_bytes(rt: &HostRuntime, path: &str) -> bool {
    let mut found = [0; 20];
    match File::open(rt, path) {
        Ok(file) => file.read_exact_at(&mut found, 0).is_ok() && found == *BYTES,
        Err(_) => false,
    }
}

fn is_there(rt: &HostRuntime, path: &str) -> bool {
    fs::symlink_metadata(rt, path).is_ok()
}

// A log that is set aside, and a part of a copy.
fn put_files(rt: &HostRuntime) -> io::Result<()> {
    fs::write(rt, "bk_disk_memory/1.log", BYTES.as_slice())?;
    fs::write(rt, "bk_disk_memory/1.unsynced", b"".as_slice())?;
    fs::write(rt, "bk_disk_memory/1.log.again", b"01".as_slice())
}

// Whether a directory is not opened for want of memory, here or in a call of the system.
fn wants_memory(fault: &FolderFault) -> bool {
    match fault {
        FolderFault::Memory => true,
        FolderFault::Refused { path: _, reason } => reason.kind() == io::ErrorKind::OutOfMemory,
        FolderFault::InUse { .. } => false,
    }
}

// Opens a directory as its writer, again if memory is refused.
fn open_again(rt: &HostRuntime, folder: &str) -> Option<DirDisk> {
    match DirDisk::open_to_write(rt, folder) {
        Ok(disk) => Some(disk),
        Err(fault) => {
            if !wants_memory(&fault) {
                return None;
            }
            DirDisk::open_to_write(rt, folder).ok()
        }
    }
}

// Whether a log that is set aside is written again.
fn is_written_again(rt: &HostRuntime) -> bool {
    if put_files(rt).is_err() {
        return false;
    }
    let disk = open_again(rt, "bk_disk_memory");
    disk.is_some()
        && has_bytes(rt, "bk_disk_memory/1.log")
        && !is_there(rt, "bk_disk_memory/1.unsynced")
        && !is_there(rt, "bk_disk_memory/1.log.again")
}

#[test]
fn a_log_is_written_again_once_there_is_memory(rt: HostRuntime) {
    assert!(rt; begin_again(&rt, "bk_disk_memory"));
    assert!(rt; is_written_again(&rt));
    assert!(rt; begin_again(&rt, "bk_disk_memory"));
    assert!(rt; fs::remove_dir(&rt, "bk_disk_memory").is_ok());
}

// What a call answers, made again if memory is refused.
fn fault_of(rt: &HostRuntime, disk: &mut DirDisk, call: Call<'_>) -> Option<DiskFault> {
    match make(rt.alloc(), disk, call).fault() {
        Some(DiskFault::Memory) => make(rt.alloc(), disk, call).fault(),
        fault => fault,
    }
}

// Writes a log, and somebody else makes it longer. Returns what a sync of it answers.
fn sync_lost(rt: &HostRuntime, disk: &mut DirDisk) -> Option<DiskFault> {
    let created = fault_of(rt, disk, Call::Create(1));
    let appended = fault_of(rt, disk, Call::Append(1, BYTES));
    if created.is_some() || appended.is_some() || grow(rt).is_err() {
        return None;
    }
    fault_of(rt, disk, Call::Sync(1))
}

fn grow(rt: &HostRuntime) -> io::Result<()> {
    OpenOptions::new()
        .append(true)
        .open(rt, "bk_disk_memory_lost/1.log")?
        .write_all(b"xy")
}

// Returns the last call that failed, asked for again if memory is refused.
fn last(rt: &HostRuntime, disk: &DirDisk) -> Option<FileFault> {
    match disk.last_fault(rt.alloc()) {
        Ok(fault) => fault,
        Err(_) => disk.last_fault(rt.alloc()).ok()?,
    }
}

// Whether a fault says that its log is not set aside for want of memory.
fn is_not_aside(rt: &HostRuntime, fault: &FileFault) -> bool {
    match fault.to_string(rt.alloc()) {
        Ok(text) => text
            .as_str()
            .ends_with("; not set aside: create: out of memory"),
        Err(_) => false,
    }
}

// Whether a log that is lost is set aside, or the report says that it is not.
fn is_aside_or_reported(rt: &HostRuntime, disk: &DirDisk) -> bool {
    if is_there(rt, "bk_disk_memory_lost/1.unsynced") {
        return true;
    }
    match last(rt, disk) {
        Some(fault) => is_not_aside(rt, &fault),
        None => false,
    }
}

#[test]
fn a_lost_log_is_set_aside_or_reported(rt: HostRuntime) {
    assert!(rt; begin_again(&rt, "bk_disk_memory_lost"));
    let mut disk = open_again(&rt, "bk_disk_memory_lost").expect(&rt, "a disk");
    assert!(rt; sync_lost(&rt, &mut disk) == Some(DiskFault::Disk));
    assert!(rt; is_aside_or_reported(&rt, &disk));
    drop(disk);
    assert!(rt; begin_again(&rt, "bk_disk_memory_lost"));
    assert!(rt; fs::remove_dir(&rt, "bk_disk_memory_lost").is_ok());
}

// Appends pieces, of which the later ones are gathered if there is memory for the window.
const PIECES: [Call<'static>; 5] = [
    Call::Create(2),
    Call::Append(2, b"0123456789"),
    Call::Append(2, b"abc"),
    Call::Append(2, b"defghij"),
    Call::Sync(2),
];

// Whether each call succeeds, made again if memory is refused.
fn are_written(rt: &HostRuntime, disk: &mut DirDisk) -> bool {
    PIECES
        .iter()
        .all(|call| fault_of(rt, disk, *call).is_none())
}

#[test]
fn what_is_appended_without_memory_for_a_window_is_written(rt: HostRuntime) {
    assert!(rt; begin_again(&rt, "bk_disk_memory_window"));
    let mut disk = open_again(&rt, "bk_disk_memory_window").expect(&rt, "a disk");
    assert!(rt; are_written(&rt, &mut disk));
    assert!(rt; has_bytes(&rt, "bk_disk_memory_window/2.log"));
    drop(disk);
    assert!(rt; begin_again(&rt, "bk_disk_memory_window"));
    assert!(rt; fs::remove_dir(&rt, "bk_disk_memory_window").is_ok());
}
