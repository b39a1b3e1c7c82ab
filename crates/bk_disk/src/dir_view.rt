//! View of a log of a directory: its file, and the length that it had.
//!
//! As many views as the disk allows keep their file open. Other views open it for each read and
//! check by device, inode and length that it is the same file.

ghost use Rattle.std.specs.Prelude.{[], false};

use crate::disk::HEADER;
use crate::kept::FileId;
use crate::open_views::{OpenView, OpenViews};
use crate::{DiskFault, LogView};
use std::alloc::Global;
use std::fs::{File, Metadata};
use std::io;
use std::os::unix::fs::FileExt;
use std::sync::Arc;

/// The system's number for `Stale file handle`.
const STALE: i32 = 116;

/// A view of a log of a `DirDisk`. It reads the file as it is now and states nothing of bytes.
///
/// A view that keeps its file open stays when the log grows or is removed. Any other view fails
/// with `Disk` if the log is removed, replaced or truncated.
#[derive(Drop)]
pub struct DirView {
    log: u32,
    source: Source,
    end: u64,
    views: Arc<OpenViews>,
}

/// Where a view reads.
#[derive(Drop)]
enum Source {
    /// The file, kept open.
    Open {
        file: File,
        _right: OpenView,
    },
    /// The file that had this name, as it was.
    Named {
        rt: HostRuntime,
        path: String,
        id: FileId,
        length: u64,
    },
}

impl DirView {
    /// Returns the view of a log's file that keeps it open.
    pub(crate) fn open(
        log: u32,
        file: File,
        length: u64,
        right: OpenView,
        views: Arc<OpenViews>,
    ) -> DirView {
        DirView {
            log,
            source: Source::Open {
                file,
                _right: right,
            },
            end: length.max(HEADER),
            views,
        }
    }

    /// Returns the view of a log's file that opens it for each read.
    pub(crate) fn named(
        rt: &HostRuntime,
        log: u32,
        path: String,
        found: &Metadata,
        views: Arc<OpenViews>,
    ) -> DirView {
        DirView {
            log,
            source: Source::Named {
                rt: *rt,
                path,
                id: FileId::of(found),
                length: found.len(),
            },
            end: found.len().max(HEADER),
            views,
        }
    }

    // Reads the bytes of the file from a position on.
    fn read_file(&self, at: u64, out: &mut [u8]) -> io::Result<()> {
        match &self.source {
            Source::Open { file, _right: _ } => file.read_exact_at(out, at),
            Source::Named {
                rt,
                path,
                id,
                length,
            } => open_again(rt, path, *id, *length)?.read_exact_at(out, at),
        }
    }
}

// Opens the file of this name if it is the one that was found, and no shorter.
fn open_again(rt: &HostRuntime, path: &str, id: FileId, length: u64) -> io::Result<File> {
    let file = File::open(rt, path)?;
    let found = file.metadata()?;
    if FileId::of(&found) == id && found.len() >= length {
        return Ok(file);
    }
    Err(io::Error::from_raw_os_error(STALE))
}

impl LogView for DirView {
    ghost bytes = { λ _. [] };

    ghost honest = { λ _. false };

    ghost sound = { λ _. false };

    fn bounds(&self) {}

    fn end(&self) -> u64 {
        self.end
    }

    fn read_into(&self, at: u64, out: &mut [u8]) -> Result<(), DiskFault> {
        if at < HEADER || self.end < at || self.end - at < out.len() as u64 {
            return Err(DiskFault::PastEnd);
        }
        match self.read_file(at, out) {
            Ok(()) => Ok(()),
            Err(reason) => {
                self.views.note(self.log, reason);
                Err(DiskFault::Disk)
            }
        }
    }
}
