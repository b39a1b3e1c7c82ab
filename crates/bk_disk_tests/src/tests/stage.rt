//! Tests of a real directory as tables: what is done to it and to the disks over it, and what is to be found then.

use super::change::{Change, do_change};
use super::sight::{Sight, inode_of, is_seen};
use super::table::{Answer, Row, Want, check, is_wanted};
use bk_disk::{CutDisk, DirDisk, DirView, FolderFault, LogDisk, LogView};
use std::alloc::Global;
use std::fs;
use std::process::{self, Abort};

/// One act of a test.
#[derive(Clone, Copy)]
pub(super) enum Act {
    /// Somebody else changes the directory.
    Do(Change),
    /// The directory is as it is to be.
    See(Sight),
    /// Remembers which file has a name.
    Remember(&'static str),
    /// Whether the file that was remembered has this name.
    IsRemembered(&'static str, bool),
    /// Opens the directory.
    Open,
    /// Opens the directory as its writer.
    OpenToWrite,
    /// Drops the disk.
    Close,
    /// Exchanges the disk and another one.
    Swap,
    /// Makes calls on the disk.
    Calls(&'static [Row]),
    /// The directory is not to be written because of its names: the text of both calls that tell it.
    Refused(&'static str),
    /// A path is not to be written: the path and the text.
    NotOpened(&'static str, &'static str),
    /// The directory is not to be written, since this process has its lock.
    HeldHere,
    /// The directory is not to be written, since a process with this number has its lock.
    HeldBy(Option<u32>),
    /// The last call that failed has this text; none has failed if it is empty.
    Last(&'static str),
    /// Sets how many views keep their file open.
    KeepOpen(u64),
    /// Keeps a view of a log.
    View(u16),
    /// What a view that is kept reads: its index, a position and a number of bytes.
    Reads(usize, u64, u64, Want<'static>),
    /// Where a view that is kept ends: its index, the position.
    Ends(usize, u64),
    /// Cuts a log to a length.
    Cut(u16, u64),
    /// Whether the bytes of a log are lost: log, answer.
    IsLost(u16, bool),
    /// Whether all bytes of a log are durable: log, answer.
    IsKept(u16, bool),
    /// How often the device has failed.
    Failed(u64),
}

/// A test on a directory: the disk, another one, and the views that are kept.
#[derive(Drop)]
struct Stage {
    rt: HostRuntime,
    folder: &'static str,
    disk: Option<DirDisk>,
    other: Option<DirDisk>,
    views: Vec<DirView>,
    /// The last text that was reported.
    told: String,
    /// The inode of the file that was remembered.
    inode: u64,
}

/// Makes an empty directory, performs each act of a table on it, and removes it.
pub(super) fn run(abort: &impl Abort, rt: &HostRuntime, folder: &'static str, acts: &[Act]) {
    run_after(abort, rt, folder, &[], acts);
}

/// The same for the acts of two tables.
pub(super) fn run_after(
    abort: &impl Abort,
    rt: &HostRuntime,
    folder: &'static str,
    before: &[Act],
    acts: &[Act],
) {
    assert!(abort; begin(rt, folder), "{folder}");
    let mut stage = Stage {
        rt: *rt,
        folder,
        disk: None,
        other: None,
        views: Vec::new(rt.alloc()),
        told: String::new(rt.alloc()),
        inode: 0,
    };
    stage.perform_all(abort, before);
    stage.perform_all(abort, acts);
    drop(stage);
    assert!(abort; fs::remove_dir_all(rt, folder).is_ok(), "{folder}");
}

/// Makes an empty directory. Returns whether it is there.
pub(super) fn begin(rt: &HostRuntime, folder: &str) -> bool {
    let _ = fs::remove_dir_all(rt, folder);
    fs::create_dir(rt, folder).is_ok()
}

impl Stage {
    // Performs each act of a table.
    fn perform_all(&mut self, abort: &impl Abort, acts: &[Act]) {
        for (number, act) in acts.iter().enumerate() {
            let is_done = self.perform(abort, *act);
            assert!(abort; is_done, "{}: act {number}: {}", self.folder, self.told);
        }
    }

    // Performs an act. Returns whether all is as the act has it.
    fn perform(&mut self, abort: &impl Abort, act: Act) -> bool {
        match act {
            Act::Do(change) => do_change(&self.rt, self.folder, change).is_ok(),
            Act::See(sight) => matches!(is_seen(&self.rt, self.folder, sight), Ok(true)),
            Act::Remember(name) => self.remember(name),
            Act::IsRemembered(name, is) => self.is_remembered(name) == Some(is),
            Act::Open => self.open(),
            Act::OpenToWrite => self.open_to_write(),
            Act::Close => self.close(),
            Act::Swap => self.swap(),
            Act::Refused(text) => self.is_refused(text) && self.are_names_refused(text),
            Act::NotOpened(path, text) => self.is_refused_at(path, text),
            Act::HeldHere => self.is_held_here(),
            Act::HeldBy(process) => is_held_by(&self.rt, self.folder, process),
            Act::Reads(index, at, n, want) => self.reads(index, at, n, want),
            Act::Ends(index, at) => self.views.get(index).map(|view| view.end()) == Some(at),
            Act::Last(text) => self.is_last(text),
            _ => self.perform_on_disk(abort, act),
        }
    }

    // Performs an act on the disk.
    fn perform_on_disk(&mut self, abort: &impl Abort, act: Act) -> bool {
        let alloc = self.rt.alloc();
        let Some(disk) = &mut self.disk else {
            return false;
        };
        match act {
            Act::Calls(rows) => {
                check(abort, alloc, disk, rows);
                true
            }
            Act::Failed(count) => disk.count_failures() == count,
            Act::KeepOpen(most) => {
                disk.keep_open(most);
                true
            }
            Act::View(log) => keep_view(alloc, disk, &mut self.views, log),
            Act::Cut(log, length) => disk.cut(alloc, u32::from(log), length).is_ok(),
            Act::IsLost(log, is) => disk.is_lost(u32::from(log)) == is,
            Act::IsKept(log, is) => disk.is_kept(u32::from(log)) == is,
            _ => false,
        }
    }

    fn remember(&mut self, name: &str) -> bool {
        match inode_of(&self.rt, self.folder, name) {
            Ok(inode) => {
                self.inode = inode;
                true
            }
            Err(_) => false,
        }
    }

    fn is_remembered(&self, name: &str) -> Option<bool> {
        let inode = inode_of(&self.rt, self.folder, name).ok()?;
        Some(inode == self.inode)
    }

    fn open(&mut self) -> bool {
        self.disk = DirDisk::open(&self.rt, self.folder).ok();
        self.disk.is_some()
    }

    fn open_to_write(&mut self) -> bool {
        match DirDisk::open_to_write(&self.rt, self.folder) {
            Ok(disk) => {
                self.disk = Some(disk);
                true
            }
            Err(fault) => {
                self.hears(&fault);
                false
            }
        }
    }

    fn close(&mut self) -> bool {
        self.disk = None;
        true
    }

    fn swap(&mut self) -> bool {
        let disk = self.disk.take();
        self.disk = self.other.take();
        self.other = disk;
        true
    }

    // Keeps the text of what was reported.
    fn hears(&mut self, fault: &FolderFault) {
        if let Ok(text) = fault.to_string(self.rt.alloc()) {
            self.told = text;
        }
    }

    // Whether the directory is not to be written, and the report is this.
    fn is_refused(&mut self, want: &str) -> bool {
        self.is_refused_at(self.folder, want)
    }

    // Whether a path is not to be written, and the report is this.
    fn is_refused_at(&mut self, path: &str, want: &str) -> bool {
        match DirDisk::open_to_write(&self.rt, path) {
            Ok(_) => false,
            Err(fault) => {
                self.hears(&fault);
                self.told.as_str() == want
            }
        }
    }

    // Whether the names of the directory are refused, and the report is this.
    fn are_names_refused(&mut self, want: &str) -> bool {
        match names_refusal(&self.rt, self.folder) {
            Some(fault) => {
                self.hears(&fault);
                self.told.as_str() == want
            }
            None => false,
        }
    }

    // Whether the report of a directory that is not to be written names this process.
    fn is_held_here(&mut self) -> bool {
        match DirDisk::open_to_write(&self.rt, self.folder) {
            Ok(_) => false,
            Err(fault) => {
                self.hears(&fault);
                names_this_process(&self.rt, self.folder, &self.told)
            }
        }
    }

    // Whether the last call that failed has this text, or none has if it is empty.
    fn is_last(&mut self, want: &str) -> bool {
        let alloc = self.rt.alloc();
        let Some(disk) = &self.disk else {
            return false;
        };
        match disk.last_fault(alloc) {
            Ok(Some(fault)) => {
                if let Ok(text) = fault.to_string(alloc) {
                    self.told = text;
                }
                self.told.as_str() == want
            }
            Ok(None) => want.is_empty(),
            Err(_) => false,
        }
    }

    // Whether a view that is kept reads these bytes, or fails so.
    fn reads(&self, index: usize, at: u64, n: u64, want: Want<'_>) -> bool {
        match self.views.get(index) {
            Some(view) => {
                let answer = Answer::Bytes(view.read_at(self.rt.alloc(), at, n));
                is_wanted(&answer, want)
            }
            None => false,
        }
    }
}

// Keeps a view of a log.
fn keep_view(alloc: Global, disk: &mut DirDisk, views: &mut Vec<DirView>, log: u16) -> bool {
    match disk.view(alloc, u32::from(log)) {
        Ok(view) => views.push(view).is_ok(),
        Err(_) => false,
    }
}

// Returns what is reported of the names of a directory that is not to be written.
fn names_refusal(rt: &HostRuntime, path: &str) -> Option<FolderFault> {
    let disk = DirDisk::open(rt, path).ok()?;
    disk.check_names(rt.alloc()).err()
}

// Whether a text names this process as the one that has the lock of a directory.
fn names_this_process(rt: &HostRuntime, folder: &str, text: &str) -> bool {
    let process = process::id(rt.process());
    let begin = format!(in rt.alloc();
        "in use: process {process} holds the lock of {folder}/writer.lock; one"
    );
    match begin {
        Ok(begin) => text.starts_with(begin.as_str()),
        Err(_) => false,
    }
}

// Whether the refusal of a directory names a process of this number, or none.
fn is_held_by(rt: &HostRuntime, folder: &str, process: Option<u32>) -> bool {
    match DirDisk::open_to_write(rt, folder) {
        Err(FolderFault::InUse { lock: _, holder }) => holder == process,
        _ => false,
    }
}
