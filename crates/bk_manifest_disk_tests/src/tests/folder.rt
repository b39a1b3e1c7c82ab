//! A directory whose logs are opened by their manifest.

use super::kit::{add, has};
use bk_disk::{DirDisk, LogDisk};
use bk_manifest::ManifestFile;
use bk_manifest_disk::{Cause, KeptDisk, KeptFile, LimitedDisk, Report, open};
use std::fs::{self, OpenOptions};
use std::io::Write;
use std::os::unix::fs::MetadataExt;
use std::process::Abort;
use std::test::Fail;

const FOLDER: &str = "bk_manifest_disk";

/// Opens the directory. Returns the disk and the first report.
fn opened(rt: &HostRuntime) -> Option<(KeptDisk<LimitedDisk<DirDisk>, KeptFile>, Option<Report>)> {
    let alloc = rt.alloc();
    let mut disk = DirDisk::open_to_write(rt, FOLDER).ok()?;
    let file = KeptFile::new(disk.file(alloc, "logs.manifest").ok()?);
    let opened = open(alloc, disk, file).ok()?;
    let report = opened.reports.first().copied();
    Some((opened.disk, report))
}

/// Adds bytes to a file of the directory.
fn grow(rt: &HostRuntime, path: &str, bytes: &[u8]) -> bool {
    match OpenOptions::new().append(true).open(rt, path) {
        Ok(mut file) => file.write_all(bytes).is_ok(),
        Err(_) => false,
    }
}

/// Returns whether a file has these bytes.
fn is_file(rt: &HostRuntime, path: &str, bytes: &[u8]) -> bool {
    matches!(fs::read(rt, path), Ok(found) if found.as_slice() == bytes)
}

/// Makes a directory of two logs: four bytes of the first were synced, none of the second.
fn begin(rt: &HostRuntime) -> bool {
    let _ = fs::remove_dir_all(rt, FOLDER);
    if fs::create_dir(rt, FOLDER).is_err() {
        return false;
    }
    let Some((mut disk, None)) = opened(rt) else {
        return false;
    };
    let alloc = rt.alloc();
    add(alloc, &mut disk, 1, b"abcd")
        && disk.sync(alloc, 1).is_ok()
        && add(alloc, &mut disk, 2, b"efgh")
}

#[test]
fn a_directory_shows_what_was_durable(rt: HostRuntime) -> Result<(), Fail> {
    let alloc = rt.alloc();
    assert!(rt; begin(&rt));
    assert!(rt; grow(&rt, "bk_manifest_disk/1.log", b"EF"));
    let (mut disk, report) = opened(&rt).expect(&rt, "the directory");
    let want = Report {
        log: 1,
        from: 4,
        bytes: 2,
        cause: Cause::NotDurable,
    };
    assert_eq!(rt; report, Some(want));
    assert!(rt; has(alloc, &mut disk, 1, Some(b"abcd")));
    assert!(rt; has(alloc, &mut disk, 2, Some(b"")));
    assert!(rt; is_file(&rt, "bk_manifest_disk/1.log", b"abcdEF"));
    assert!(rt; disk.append(alloc, 1, b"xy").is_ok());
    assert!(rt; has(alloc, &mut disk, 1, Some(b"abcdxy")));
    assert!(rt; is_file(&rt, "bk_manifest_disk/1.log.cut.0", b"EF"));
    assert!(rt; disk.remove(alloc, 2).is_ok());
    assert!(rt; is_file(&rt, "bk_manifest_disk/2.log.cut.0", b"efgh"));
    drop(disk);
    assert!(rt; fs::remove_dir_all(&rt, FOLDER).is_ok());
    Ok(())
}

#[test]
fn a_manifest_that_was_read_is_written_to_a_new_file(rt: HostRuntime) -> Result<(), Fail> {
    const MANIFEST: &str = "bk_manifest_disk_again/logs.manifest";
    let folder = "bk_manifest_disk_again";
    let _ = fs::remove_dir_all(&rt, folder);
    fs::create_dir(&rt, folder)?;
    let alloc = rt.alloc();
    let mut disk = DirDisk::open_to_write(&rt, folder)?;
    let mut file = KeptFile::new(disk.file(alloc, "logs.manifest")?);
    // A file of this process stays.
    assert!(rt; file.replace(alloc, b"first").is_ok());
    let made = fs::metadata(&rt, MANIFEST)?.ino();
    assert!(rt; file.write_at(5, b" second").is_ok());
    assert!(rt; file.sync().is_ok());
    assert_eq!(rt; fs::metadata(&rt, MANIFEST)?.ino(), made);
    // Bytes that were read are those of another one: a sync writes them again, once.
    let mut file = KeptFile::new(disk.file(alloc, "logs.manifest")?);
    assert!(rt;
        file.read(alloc)
            .is_ok_and(|bytes| bytes.as_slice() == b"first second".as_slice())
    );
    assert!(rt; file.sync().is_ok());
    let again = fs::metadata(&rt, MANIFEST)?.ino();
    assert!(rt; again != made);
    assert!(rt; is_file(&rt, MANIFEST, b"first second"));
    assert!(rt; file.sync().is_ok());
    assert_eq!(rt; fs::metadata(&rt, MANIFEST)?.ino(), again);
    // So does a write before the sync.
    let mut file = KeptFile::new(disk.file(alloc, "logs.manifest")?);
    assert!(rt; file.read(alloc).is_ok());
    assert!(rt; file.write_at(5, b" third").is_ok());
    assert!(rt; file.sync().is_ok());
    assert!(rt; fs::metadata(&rt, MANIFEST)?.ino() != again);
    assert!(rt; is_file(&rt, MANIFEST, b"first third"));
    // A file that is missing stays missing.
    let mut file = KeptFile::new(disk.file(alloc, "other.manifest")?);
    assert!(rt; file.read(alloc).is_ok_and(|bytes| bytes.is_empty()));
    assert!(rt; file.sync().is_ok());
    assert!(rt; fs::metadata(&rt, "bk_manifest_disk_again/other.manifest").is_err());
    drop(disk);
    fs::remove_dir_all(&rt, folder)?;
    Ok(())
}
