//! A file beside the logs of a real directory.

use super::change::Change::{Link, Twin, Write};
use super::change::do_change;
use super::sight::Sight::{Gone, Has};
use super::sight::{Sight, is_seen};
use super::stage::begin;
use bk_disk::{DirDisk, DiskFault, FolderFile};
use std::alloc::Global;
use std::fs;
use std::process::Abort;

// Opens a directory, and the file `notes` beside its logs.
fn open(abort: &impl Abort, rt: &HostRuntime, folder: &str) -> (DirDisk, FolderFile) {
    let disk = DirDisk::open_to_write(rt, folder);
    assert!(abort; disk.is_ok(), "{folder}");
    let mut disk = disk.expect(abort, "a directory");
    let file = disk.file(rt.alloc(), "notes").expect(abort, "a file");
    (disk, file)
}

fn sees(abort: &impl Abort, rt: &HostRuntime, folder: &str, sight: Sight) {
    assert!(abort; matches!(is_seen(rt, folder, sight), Ok(true)), "{folder}");
}

// Whether the file has these bytes.
fn has(alloc: Global, file: &mut FolderFile, bytes: &[u8]) -> bool {
    match file.read(alloc) {
        Ok(found) => found.as_slice() == bytes,
        Err(_) => false,
    }
}

#[test]
fn a_file_beside_the_logs_is_replaced_and_written_at_its_end(rt: HostRuntime) {
    let folder = "bk_disk_beside";
    assert!(rt; begin(&rt, folder));
    let (disk, mut file) = open(&rt, &rt, folder);
    assert!(rt; has(rt.alloc(), &mut file, b""));
    assert!(rt; file.write_at(0, b"x") == Err(DiskFault::Disk));
    assert!(rt; do_change(&rt, folder, Write("notes.new", b"left by a crash")).is_ok());
    assert!(rt; file.replace(b"abcdef") == Ok(()));
    sees(&rt, &rt, folder, Has("notes", b"abcdef"));
    sees(&rt, &rt, folder, Gone("notes.new"));
    assert!(rt; file.write_at(2, b"xyz") == Ok(()));
    assert!(rt; file.sync() == Ok(()));
    assert!(rt; has(rt.alloc(), &mut file, b"abxyz"));
    drop(file);
    drop(disk);
    let (disk, mut file) = open(&rt, &rt, folder);
    assert!(rt; has(rt.alloc(), &mut file, b"abxyz"));
    assert!(rt; file.write_at(5, b"!") == Ok(()));
    assert!(rt; file.replace(b"") == Ok(()));
    assert!(rt; file.write_at(0, b"new") == Ok(()));
    assert!(rt; file.sync() == Ok(()));
    sees(&rt, &rt, folder, Has("notes", b"new"));
    drop(file);
    drop(disk);
    assert!(rt; fs::remove_dir_all(&rt, folder).is_ok());
}

// Whether each call on the file fails, and leaves this.
fn is_refused(alloc: Global, file: &mut FolderFile) -> bool {
    let disk = Err(DiskFault::Disk);
    file.read(alloc).err() == Some(DiskFault::Disk)
        && file.write_at(0, b"x") == disk
        && file.sync() == disk
        && file.replace(b"x") == disk
}

#[test]
fn a_link_and_a_file_with_two_names_are_refused(rt: HostRuntime) {
    for change in &[Link("notes", "other"), Twin("notes", "other")] {
        let folder = "bk_disk_beside_names";
        assert!(rt; begin(&rt, folder));
        assert!(rt; do_change(&rt, folder, Write("other", b"other")).is_ok());
        assert!(rt; do_change(&rt, folder, *change).is_ok());
        let (disk, mut file) = open(&rt, &rt, folder);
        assert!(rt; is_refused(rt.alloc(), &mut file));
        assert!(rt; matches!(disk.last_fault(rt.alloc()), Ok(Some(_))));
        sees(&rt, &rt, folder, Has("other", b"other"));
        drop(file);
        drop(disk);
        assert!(rt; fs::remove_dir_all(&rt, folder).is_ok());
    }
}

#[test]
fn a_directory_that_is_refused_is_noted(rt: HostRuntime) {
    let folder = "bk_disk_beside_refused";
    assert!(rt; begin(&rt, folder));
    assert!(rt; do_change(&rt, folder, Link("writer.lock", "other")).is_ok());
    let mut disk = DirDisk::open(&rt, folder).expect(&rt, "a directory");
    assert!(rt; disk.file(rt.alloc(), "notes").is_err());
    let noted = disk.last_fault(rt.alloc()).expect(&rt, "memory");
    let fault = noted.expect(&rt, "a fault");
    assert_eq!(rt; fault.path(), "bk_disk_beside_refused/writer.lock");
    drop(disk);
    assert!(rt; fs::remove_dir_all(&rt, folder).is_ok());
}
