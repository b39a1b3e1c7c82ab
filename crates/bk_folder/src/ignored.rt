//! What an opening ignores of the logs of a directory and of their manifest.

ghost use Rattle.std.specs.Prelude.{◌≡◌};
ghost use Rattle.bk_folder.specs.Openings.{unread_word};

use crate::book::tell_torn;
use crate::folder_disk::LogsDisk;
use bk_disk::{DiskFault, LogDisk};
use bk_inspect::{Form, tell_ignored};
use bk_manifest_disk::{FolderLogs, LOGS, Report, Torn};
use bk_messages::write_row;
use serde::Serialize;
use std::alloc::Global;
use std::fmt;
use std::fmt::{Display, Formatter};
use std::io::Write;

/// Where a log of an earlier release has its watermark, and the letters there.
const MARK_AT: u64 = 20;

const MARK: &[u8] = b"mark";

/// What an opening ignores of the logs of a directory and of their manifest.
#[derive(Drop)]
pub struct Ignored {
    alloc: Global,
    reports: Vec<Report>,
    /// The manifest's end that is no records.
    torn: Option<Torn>,
    /// A log with a watermark of an earlier release, or why that is not known.
    marked: Result<Option<u32>, DiskFault>,
}

/// The row of a directory with watermarks.
#[derive(Clone, Copy, Serialize)]
struct MarkedRow {
    note: &'static str,
    log: u32,
}

impl Display for MarkedRow {
    fn fmt<W: fmt::Write>(&self, f: &mut Formatter<W>) -> fmt::Result {
        write!(
            f,
            "note {}: log {} has one of an earlier release",
            self.note, self.log
        )
    }
}

/// The row of a directory of whose watermarks nothing is known.
#[derive(Clone, Copy, Serialize)]
struct UnknownRow {
    note: &'static str,
    why: &'static str,
}

impl Display for UnknownRow {
    fn fmt<W: fmt::Write>(&self, f: &mut Formatter<W>) -> fmt::Result {
        write!(f, "note {}: {}", self.note, self.why)
    }
}

impl Ignored {
    /// Returns that nothing is ignored.
    pub fn none(alloc: Global) -> Ignored {
        Ignored {
            alloc,
            reports: Vec::new(alloc),
            torn: None,
            marked: Ok(None),
        }
    }

    /// Returns the disk of an opening, and what that ignores.
    pub fn split(alloc: Global, opened: FolderLogs) -> (LogsDisk, Ignored) {
        let FolderLogs {
            mut disk,
            reports,
            torn,
        } = opened;
        let marked = find_marked(alloc, &mut disk);
        let ignored = Ignored {
            alloc,
            reports,
            torn,
            marked,
        };
        (disk, ignored)
    }

    /// Notes on the error stream what is ignored, in a line each. A failed write is ignored.
    pub fn tell<E: Write>(&self, form: Form, errors: &mut E) {
        if let Some(torn) = &self.torn {
            tell_torn(self.alloc, form, LOGS, torn, errors);
        }
        tell_ignored(self.alloc, form, &self.reports, errors);
        match self.marked {
            Ok(None) => {}
            Ok(Some(log)) => {
                let row = MarkedRow {
                    note: "watermarks are ignored",
                    log,
                };
                let _ = write_row(self.alloc, form, &row, errors);
            }
            Err(fault) => {
                let row = UnknownRow {
                    note: "watermarks not looked for",
                    why: unread_of(fault),
                };
                let _ = write_row(self.alloc, form, &row, errors);
            }
        }
    }
}

/// Returns why it is not known whether a log has a watermark.
fn unread_of(fault: DiskFault) -> &'static str
    ensures { result.now ≡ unread_word fault }
{
    match fault {
        DiskFault::Memory => "memory",
        _ => "a log cannot be read",
    }
}

/// Returns the first log with a watermark, `None` if no log has one.
fn find_marked<D: LogDisk>(alloc: Global, disk: &mut D) -> Result<Option<u32>, DiskFault> {
    for log in &disk.list(alloc)? {
        let length = disk.length(alloc, *log)?;
        if MARK_AT + (MARK.len() as u64) <= length
            && disk
                .read_at(alloc, *log, MARK_AT, MARK.len() as u64)?
                .as_slice()
                == MARK
        {
            return Ok(Some(*log));
        }
    }
    Ok(None)
}
