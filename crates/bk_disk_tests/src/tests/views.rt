//! Views of a real directory: how many files they keep open, and what the others check.

use super::change::Change::{Cut, Fill, Grow, Remove, Rename};
use super::stage::{Act, run};
use super::table::Want;
use bk_disk::{DirDisk, DirView, DiskFault, LogDisk, LogView};
use std::alloc::Global;
use std::process::Abort;
use std::{fs, io};

// The disk of a new directory in which so many logs have six bytes each after their headers, all of the log's id.
fn filled(rt: &HostRuntime, folder: &str, logs: u8) -> io::Result<DirDisk> {
    fs::create_dir(rt, folder)?;
    for log in 0..logs {
        write_log(rt, folder, log)?;
    }
    DirDisk::open(rt, folder).map_err(|_| io::Error::from(io::ErrorKind::Other))
}

fn write_log(rt: &HostRuntime, folder: &str, log: u8) -> io::Result<()> {
    let path = format!(in rt.alloc(); "{folder}/{log:x}.log")?;
    fs::write(rt, path.as_str(), [log; 1030].as_slice())
}

// How many files this process has open, with the one by which they are counted.
fn open_files(rt: &HostRuntime) -> io::Result<usize> {
    let mut count = 0usize;
    for entry in fs::read_dir(rt, "/proc/self/fd")? {
        let _ = entry?;
        count = count.saturating_add(1);
    }
    Ok(count)
}

// Whether a view of a log of such a disk shows its six bytes.
fn shows(alloc: Global, view: &DirView, log: u8) -> bool {
    match view.read_at(alloc, 1024, 6) {
        Ok(bytes) => view.end() == 1030 && bytes.as_slice() == [log; 6].as_slice(),
        Err(_) => false,
    }
}

// Views of the logs below a number.
fn views_of(alloc: Global, disk: &mut DirDisk, logs: u8) -> Result<Vec<DirView>, DiskFault> {
    let mut views = Vec::new(alloc);
    for log in 0..logs {
        let view = disk.view(alloc, u32::from(log))?;
        views.push(view).map_err(|_| DiskFault::Memory)?;
    }
    Ok(views)
}

// Whether each of 60 views shows its log.
fn show_logs(alloc: Global, views: &[DirView]) -> bool {
    for (log, view) in views.iter().enumerate() {
        if log >= 60 || !shows(alloc, view, log as u8) {
            return false;
        }
    }
    views.len() == 60
}

// How many files more are open while there are views of 60 logs, each of which shows its log.
fn opened_by_views(rt: &HostRuntime, disk: &mut DirDisk) -> Option<usize> {
    let before = open_files(rt).ok()?;
    let views = views_of(rt.alloc(), disk, 60).ok()?;
    if !show_logs(rt.alloc(), &views) {
        return None;
    }
    open_files(rt).ok()?.checked_sub(before)
}

#[test]
fn views_share_a_bounded_number_of_files(rt: HostRuntime) {
    let _ = fs::remove_dir_all(&rt, "bk_disk_bounded");
    let mut disk = filled(&rt, "bk_disk_bounded", 60).expect(&rt, "a disk");
    disk.keep_open(8);
    let before = open_files(&rt).expect(&rt, "a number");
    // Those that are dropped make room for others.
    for _ in 0..3 {
        assert!(rt; opened_by_views(&rt, &mut disk) == Some(8));
        let after = open_files(&rt).expect(&rt, "a number");
        assert!(rt; after == before);
    }
    drop(disk);
    assert!(rt; fs::remove_dir_all(&rt, "bk_disk_bounded").is_ok());
}

const DISK: Want<'static> = Want::Fault(DiskFault::Disk);

// Log 0 gets longer, log 1 shorter, log 2 is another file, and log 3 is gone.
const AGAIN: [Act; 23] = [
    Act::Open,
    Act::Do(Fill("0.log", 0, 1030)),
    Act::Do(Fill("1.log", 1, 1030)),
    Act::Do(Fill("2.log", 2, 1030)),
    Act::Do(Fill("3.log", 3, 1030)),
    Act::KeepOpen(0),
    Act::View(0),
    Act::View(1),
    Act::View(2),
    Act::View(3),
    Act::Do(Grow("0.log", b"more")),
    Act::Do(Cut("1.log", 1029)),
    Act::Do(Fill("other", 2, 1030)),
    Act::Do(Rename("other", "2.log")),
    Act::Do(Remove("3.log")),
    Act::Reads(0, 1024, 6, Want::Bytes(&[0; 6])),
    Act::Reads(0, 1024, 7, Want::Fault(DiskFault::PastEnd)),
    Act::Reads(1, 1024, 1, DISK),
    Act::Last("bk_disk_again/1.log: read: Stale file handle (os error 116)"),
    Act::Reads(2, 1024, 1, DISK),
    Act::Last("bk_disk_again/2.log: read: Stale file handle (os error 116)"),
    Act::Reads(3, 1024, 1, DISK),
    Act::Last("bk_disk_again/3.log: read: No such file or directory (os error 2)"),
];

#[test]
fn a_view_that_opens_its_file_again_checks_it(rt: HostRuntime) {
    run(&rt, &rt, "bk_disk_again", &AGAIN);
}
