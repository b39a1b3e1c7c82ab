//! Hints in a directory, and what else has their names.

use super::logs::{MADE, SETTINGS, has_made, hint, make};
use bk_disk::{DirDisk, LogDisk};
use bk_hint::HintFault;
use bk_hint_disk::{DirHints, HintStoreFault, HintedDisk, Hints, Unused, WhyNot};
use bk_store::Store;
use std::fs::{self, OpenOptions};
use std::io;
use std::os::unix::fs as unix_fs;
use std::os::unix::fs::OpenOptionsExt;
use std::process::Abort;
use std::test::Fail;

const FOLDER: &str = "bk_hint_disk";

/// The name of the hint of log 2, and a copy of it.
const HINT: &str = "bk_hint_disk/2.hint";

const COPY: &str = "bk_hint_disk/copy";

/// Returns the disk of the directory, with its hints.
fn opened(rt: &HostRuntime) -> Option<HintedDisk<DirDisk, DirHints>> {
    let disk = DirDisk::open_to_write(rt, FOLDER).ok()?;
    let hints = DirHints::new(rt, FOLDER).ok()?;
    Some(HintedDisk::new(rt.alloc(), disk, hints))
}

/// Makes the directory with logs and hints, and a copy of the hint of log 2.
fn made(rt: &HostRuntime) -> Option<()> {
    let alloc = rt.alloc();
    let _ = fs::remove_dir_all(rt, FOLDER);
    fs::create_dir(rt, FOLDER).ok()?;
    let mut disk = opened(rt)?;
    make(alloc, &mut disk)?;
    if hint(alloc, &mut disk)? != 3 {
        return None;
    }
    fs::rename(rt, HINT, COPY).ok()
}

/// Opens a store on the directory. Returns the hints that were not used; `None` if the store has not
/// each entry.
fn unused(rt: &HostRuntime) -> Option<Vec<Unused>> {
    let alloc = rt.alloc();
    let disk = opened(rt)?;
    let watch = disk.unused_watch(alloc).ok()?;
    let mut store = Store::open(alloc, disk, SETTINGS, &[]).ok()?;
    if !has_made(alloc, &mut store) {
        return None;
    }
    watch.list(alloc).ok()
}

/// What has the name of the hint of log 2.
#[derive(Clone, Copy, Debug, PartialEq, Eq)]
enum Named {
    Hint,
    Nothing,
    LinkToHint,
    LinkToNothing,
    Directory,
    Empty,
    /// A file with holes, longer than a hint of a log can be.
    TooLong,
    /// The hint, with no permission to read it; a privileged process still may.
    Closed,
}

/// Writes a file of the hint that nobody has the permission to read.
fn close(rt: &HostRuntime) -> io::Result<()> {
    let bytes = fs::read(rt, COPY)?;
    let file = OpenOptions::new()
        .write(true)
        .create_new(true)
        .mode(0)
        .open(rt, HINT)?;
    let mut file = file;
    io::Write::write_all(&mut file, &bytes)
}

/// Makes it.
fn name(rt: &HostRuntime, named: Named) -> io::Result<()> {
    match named {
        Named::Hint => fs::copy(rt, COPY, HINT).map(|_| ()),
        Named::Nothing => Ok(()),
        Named::LinkToHint => unix_fs::symlink(rt, "copy", HINT),
        Named::LinkToNothing => unix_fs::symlink(rt, "none", HINT),
        Named::Directory => fs::create_dir(rt, HINT),
        Named::Empty => fs::write(rt, HINT, b"".as_slice()),
        Named::TooLong => fs::File::create(rt, HINT)?.set_len(7_000_000_000),
        Named::Closed => close(rt),
    }
}

/// What has the name, and why it is not used, if it is not.
const ROWS: [(Named, Option<WhyNot>); 7] = [
    (Named::Hint, None),
    (Named::Nothing, None),
    (Named::LinkToHint, Some(WhyNot::NotPlain)),
    (Named::LinkToNothing, Some(WhyNot::NotPlain)),
    (Named::Directory, Some(WhyNot::NotPlain)),
    (Named::Empty, Some(WhyNot::Damaged(HintFault::Short(0)))),
    (
        Named::TooLong,
        Some(WhyNot::Damaged(HintFault::Length(7_000_000_000))),
    ),
];

/// Opens a store while this has the name. Returns why it was not used, if it was not.
fn why(rt: &HostRuntime, named: Named) -> Option<Option<WhyNot>> {
    name(rt, named).ok()?;
    let unused = unused(rt)?;
    let _ = fs::remove_file(rt, HINT);
    let _ = fs::remove_dir(rt, HINT);
    match unused.as_slice() {
        [] => Some(None),
        [one] if one.log == 2 => Some(Some(one.why)),
        _ => None,
    }
}

#[test]
fn only_plain_files_are_hints(rt: HostRuntime) -> Result<(), Fail> {
    let alloc = rt.alloc();
    assert!(rt; made(&rt).is_some());
    for (named, expected) in ROWS {
        assert_eq!(rt; why(&rt, named), Some(expected), "{named:?}");
    }
    let closed = why(&rt, Named::Closed);
    assert!(rt; closed == Some(None) || closed == Some(Some(WhyNot::Disk)));
    // A log that is removed takes its hint with it, and a link is removed in place of its target.
    assert!(rt; name(&rt, Named::LinkToHint).is_ok());
    let mut disk = opened(&rt).expect(&rt, "the directory");
    for log in MADE {
        assert!(rt; disk.remove(alloc, u32::from(log)).is_ok());
    }
    assert!(rt; fs::symlink_metadata(&rt, "bk_hint_disk/1.hint").is_err());
    assert!(rt; fs::symlink_metadata(&rt, HINT).is_err());
    assert!(rt; fs::metadata(&rt, COPY).is_ok());
    drop(disk);
    fs::remove_dir_all(&rt, FOLDER)?;
    Ok(())
}

#[test]
fn faults_of_the_directory(rt: HostRuntime) -> Result<(), Fail> {
    let alloc = rt.alloc();
    let mut hints = DirHints::new(&rt, "bk_hint_disk_none")?;
    assert_eq!(rt; hints.get(alloc, 1), Ok(None));
    assert_eq!(rt; hints.put(alloc, 1, b"hint"), Err(HintStoreFault::Disk));
    assert_eq!(rt; hints.drop_hint(alloc, 1), Ok(()));
    Ok(())
}
