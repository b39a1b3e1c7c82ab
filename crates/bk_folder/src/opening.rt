//! A disk between a store and a directory that shows on a terminal how far the opening of the store
//! is.
//!
//! An opening lists the logs, and then syncs, views and reads one after another. So the disk sees
//! when a log is done, and not how much of it is read.

ghost use Rattle.std.specs.Prelude.{false};
ghost use Rattle.std.specs.FinMap as map;
ghost use Rattle.bk_folder.specs.Failures.{failures_of};

use crate::book::Book;
use crate::folder_disk::FolderDisk;
use crate::notes::Notes;
use crate::opening_view::OpeningView;
use bk_disk::{DiskFault, LogDisk, LogView};
use bk_drive::{Answer, OpenFault, Settings, Step, drive_recorded};
use bk_messages::{FailedCalls, Line};
use bk_script::ScriptDisk;
use std::alloc::{AllocError, Global};
use std::fmt::{Display, Formatter};
use std::{fmt, mem};

/// How long an opening takes before its progress is shown, in milliseconds.
const PATIENCE: u64 = 1000;

/// The progress of an opening. Its text is the line on the terminal.
#[derive(Clone, Copy, Debug)]
pub struct Opened {
    /// The number of logs.
    pub logs: u64,
    /// The number of logs that are done.
    pub done: u64,
    /// The number of those whose hint was read in place of their records.
    pub hinted: u64,
    /// The bytes of the others, which were read to their ends.
    pub bytes: u64,
    /// The seconds so far.
    pub seconds: u64,
}

impl Display for Opened {
    fn fmt<W: fmt::Write>(&self, f: &mut Formatter<W>) -> fmt::Result {
        let megabytes = self.bytes / 1_000_000;
        write!(f, "opening: {} of {} logs", self.done, self.logs)?;
        if self.hinted > 0 {
            write!(f, ", {} by hints", self.hinted)?;
        }
        write!(f, ", {megabytes} MB read")?;
        match megabytes.checked_div(self.seconds) {
            Some(rate) => write!(f, ", {rate} MB/s"),
            None => Ok(()),
        }
    }
}

/// The disk of a directory that shows the progress of an opening, in a line on the error stream of
/// the process, if that is a terminal and the opening takes longer than a second. The line is
/// written between two logs, and cleared before a log is written, created or removed, or when the
/// disk is dropped. A sync leaves it, since an opening syncs each log.
///
/// It keeps the calls of the system that fail (`FailedCalls`).
#[derive(Drop)]
pub struct OpeningDisk {
    disk: FolderDisk,
    failed: FailedCalls,
    opening: Opening,
    /// The logs whose file stays when the log is removed.
    kept: Vec<u32>,
    /// Where a script records deletions and fences.
    book: Book,
    /// The ledgers that are fenced before a script begins.
    fenced: Vec<u64>,
}

impl OpeningDisk {
    /// Returns the disk over the disk of a directory, on which these calls failed.
    pub fn new(rt: &HostRuntime, disk: FolderDisk, failed: FailedCalls) -> OpeningDisk {
        OpeningDisk::keeping(rt, disk, failed, Vec::new(rt.alloc()))
    }

    /// Returns the same disk, except that the files of some logs stay when these are removed. The
    /// store takes such a log as removed; the next opening lists it again.
    pub fn keeping(
        rt: &HostRuntime,
        disk: FolderDisk,
        failed: FailedCalls,
        kept: Vec<u32>,
    ) -> OpeningDisk {
        OpeningDisk {
            disk,
            failed,
            kept,
            book: Book::closed(rt.alloc()),
            fenced: Vec::new(rt.alloc()),
            opening: Opening {
                line: Line::new(rt),
                logs: 0,
                viewed: 0,
                hinted: 0,
                bytes: 0,
                last: None,
            },
        }
    }

    /// Returns the same disk for a script, which records deletions and fences in this book before
    /// they take effect, and begins with these ledgers fenced.
    pub fn recording(self, book: Book, fenced: Vec<u64>) -> OpeningDisk {
        let mut disk = self;
        disk.book = book;
        disk.fenced = fenced;
        disk
    }

    /// Returns the calls of the system that fail, which can be reported after the disk was moved or
    /// dropped. Fails if memory is refused.
    pub fn failed_calls(&self) -> Result<FailedCalls, AllocError> {
        self.failed.share()
    }

    /// Returns what is to be reported after the disk was moved or dropped. Fails if memory is refused.
    pub fn notes(&self, alloc: Global) -> Result<Notes, AllocError> {
        Ok(Notes {
            alloc,
            unused: self.disk.unused_watch(alloc)?,
            failed: self.failed.share()?,
        })
    }
}

/// An opening, and its line.
#[derive(Drop)]
struct Opening {
    line: Line,
    /// The number of logs listed.
    logs: u64,
    /// The number of logs viewed: all but the last one were read.
    viewed: u64,
    /// The number of those whose hint was read in place of their records.
    hinted: u64,
    /// The bytes of those that were read.
    bytes: u64,
    /// The last one.
    last: Option<Viewed>,
}

/// A log that was viewed.
#[derive(Clone, Copy)]
struct Viewed {
    bytes: u64,
    is_hinted: bool,
}

impl Opening {
    /// Begins an opening of this number of logs.
    fn begin(&mut self, logs: usize) {
        self.logs = logs as u64;
        self.viewed = 0;
        self.hinted = 0;
        self.bytes = 0;
        self.last = None;
        self.line.begin();
    }

    /// Goes on to a log: those before it are done.
    fn go_on(&mut self, next: Viewed) {
        match self.last {
            Some(last) if last.is_hinted => self.hinted = self.hinted.saturating_add(1),
            Some(last) => self.bytes = self.bytes.saturating_add(last.bytes),
            None => {}
        }
        self.last = Some(next);
        if let Some(since) = self.line.due(PATIENCE) {
            self.line.write(&Opened {
                logs: self.logs,
                done: self.viewed,
                hinted: self.hinted,
                bytes: self.bytes,
                seconds: since.as_secs(),
            });
        }
        self.viewed = self.viewed.saturating_add(1);
    }

    /// Ends the opening.
    fn end(&mut self) {
        self.line.end();
    }
}

impl LogDisk for OpeningDisk {
    type View = OpeningView;

    ghost files = { λ _. map.empty };

    ghost synced = { λ _. map.empty };

    ghost gone = { λ _. map.empty };

    ghost honest = { λ _. false };

    ghost failures = { λ opening. failures_of opening.disk };

    fn bounds(&self) {}

    fn is_lost(&self, log: u32) -> bool {
        self.disk.is_lost(log)
    }

    fn is_kept(&self, log: u32) -> bool {
        self.disk.is_kept(log)
    }

    fn count_failures(&self) -> u64 {
        self.disk.count_failures()
    }

    fn list(&mut self, alloc: Global) -> Result<Vec<u32>, DiskFault> {
        let answer = self.disk.list(alloc);
        self.failed.see(&answer);
        if let Ok(ids) = &answer {
            self.opening.begin(ids.len());
        }
        answer
    }

    fn length(&mut self, alloc: Global, log: u32) -> Result<u64, DiskFault> {
        let answer = self.disk.length(alloc, log);
        self.failed.see(&answer);
        answer
    }

    fn create(&mut self, alloc: Global, log: u32) -> Result<(), DiskFault> {
        self.opening.end();
        let answer = self.disk.create(alloc, log);
        self.failed.see(&answer);
        answer
    }

    fn append(&mut self, alloc: Global, log: u32, bytes: &[u8]) -> Result<(), DiskFault> {
        self.opening.end();
        let answer = self.disk.append(alloc, log, bytes);
        self.failed.see(&answer);
        answer
    }

    fn patch(&mut self, alloc: Global, log: u32, bytes: &[u8; 12]) -> Result<(), DiskFault> {
        self.opening.end();
        let answer = self.disk.patch(alloc, log, bytes);
        self.failed.see(&answer);
        answer
    }

    fn sync(&mut self, alloc: Global, log: u32) -> Result<(), DiskFault> {
        let answer = self.disk.sync(alloc, log);
        self.failed.see(&answer);
        answer
    }

    fn read_at(&mut self, alloc: Global, log: u32, at: u64, n: u64) -> Result<Vec<u8>, DiskFault> {
        let answer = self.disk.read_at(alloc, log, at, n);
        self.failed.see(&answer);
        answer
    }

    fn view(&mut self, alloc: Global, log: u32) -> Result<OpeningView, DiskFault> {
        let Ok(failed) = self.failed.share() else {
            return Err(DiskFault::Memory);
        };
        let answer = self.disk.view(alloc, log);
        failed.see(&answer);
        match answer {
            Ok(view) => {
                self.opening.go_on(Viewed {
                    bytes: view.end(),
                    is_hinted: view.is_hinted(),
                });
                Ok(OpeningView { view, failed })
            }
            Err(fault) => Err(fault),
        }
    }

    fn remove(&mut self, alloc: Global, log: u32) -> Result<(), DiskFault> {
        self.opening.end();
        if self.kept.contains(&log) {
            return Ok(());
        }
        let answer = self.disk.remove(alloc, log);
        self.failed.see(&answer);
        answer
    }
}

impl ScriptDisk for OpeningDisk {
    fn answers(
        self,
        alloc: Global,
        settings: Settings,
        dead: &[u64],
        steps: &[Step],
    ) -> Result<Vec<Answer>, OpenFault> {
        let mut disk = self;
        let mut book = mem::replace(&mut disk.book, Book::closed(alloc));
        let fenced = mem::replace(&mut disk.fenced, Vec::new(alloc));
        let ran = drive_recorded(alloc, disk, settings, dead, &fenced, steps, &mut book)?;
        Ok(ran.answers)
    }
}
