//! What an operator may do if a command refuses a directory.

ghost use Rattle.std.specs.Prelude.{◌≡◌, Some};
ghost use Rattle.bk_messages.specs.Ways.{way_behind, way_behind_book, way_behind_logs, way_text};

use crate::logs_fault::LogsFault;
use bk_manifest::ManifestError;
use bk_manifest_disk::Fault;
use bk_store::{LogCause, OpenFault};
use std::fmt;
use std::fmt::{Display, Formatter};

/// The way on after a refusal. Its text is a sentence that names the commands.
#[derive(Clone, Copy, Debug, PartialEq, Eq)]
pub enum WayOn {
    /// What follows the whole records of a log is no record, such as zeros after a crash.
    Cut,
    /// The header of a log is invalid, as that of a new log may be after a crash.
    MoveAway,
    /// A file is longer than a log.
    TooLong,
    /// A bookie's index would point into logs that are removed.
    RebuildIndex,
    /// The manifest of a directory is damaged.
    RebuildManifest,
    /// The file that is to keep a damaged manifest is taken.
    MoveCopy,
    /// Durable bytes of a log are missing.
    TakeLogs,
    /// The manifest of the logs is damaged.
    RebuildLogs,
    /// No ledger is said to be live.
    SayNoneLive,
}

impl WayOn {
    /// Returns the way on after a refused opening; `None` if no log is to blame.
    pub fn behind(fault: &OpenFault) -> Option<WayOn>
        ensures { result ≡ way_behind fault.now }
    {
        match fault {
            OpenFault::Log {
                id: _,
                cause: LogCause::BadLength { .. },
            } => Some(WayOn::Cut),
            OpenFault::Log {
                id: _,
                cause: LogCause::Header(_),
            } => Some(WayOn::MoveAway),
            OpenFault::TooLong(_) => Some(WayOn::TooLong),
            OpenFault::Settings
            | OpenFault::Disk
            | OpenFault::Memory
            | OpenFault::LogsFull
            | OpenFault::Odd => None,
        }
    }

    /// Returns the way on if logs cannot be opened by their manifest.
    pub fn behind_logs(fault: LogsFault) -> Option<WayOn>
        ensures { result ≡ way_behind_logs fault.fault }
    {
        match fault.fault {
            Fault::Lack(_) => Some(WayOn::TakeLogs),
            Fault::Manifest(ManifestError::Fault(_)) => Some(WayOn::RebuildLogs),
            Fault::Manifest(_) | Fault::Disk(_) => None,
        }
    }

    /// Returns the way on if a manifest cannot be opened.
    pub fn behind_book(error: ManifestError) -> Option<WayOn>
        ensures { result ≡ way_behind_book error }
    {
        match error {
            ManifestError::Fault(_) => Some(WayOn::RebuildManifest),
            ManifestError::Memory | ManifestError::Disk | ManifestError::TooLong => None,
        }
    }
}

impl Display for WayOn {
    ghost output = { λ way. Some (way_text way) };

    fn fmt<W: fmt::Write>(&self, f: &mut Formatter<W>) -> fmt::Result {
        match self {
            WayOn::Cut => f.write_str(
                "'./bookie check' lists all such logs, './bookie seal --cut-torn' cuts one there and keeps a copy",
            ),
            WayOn::MoveAway => f.write_str(
                "if './bookie scan' shows no entry in the log, a crash may have left it so, and its file can be moved away",
            ),
            WayOn::TooLong => f.write_str(
                "a log has at most 4294967295 bytes: move the file away, or put the log back from a copy",
            ),
            WayOn::RebuildManifest => f.write_str(
                "'./bookie manifest --rebuild' makes a new one of the records before the damage, and keeps the old file",
            ),
            WayOn::TakeLogs => f.write_str(
                "put the log back from a copy, or take all logs as they are by './bookie manifest --rebuild', which keeps the old manifest",
            ),
            WayOn::RebuildLogs => f.write_str(
                "'./bookie manifest --rebuild' makes a new one that takes all logs as they are, and keeps the old file",
            ),
            WayOn::MoveCopy => f.write_str("move that file away, and call the command again"),
            WayOn::SayNoneLive => f.write_str(
                "--live-none says that each ledger of the directory is deleted",
            ),
            WayOn::RebuildIndex => f.write_str(
                "a bookie's index points into logs that a compaction removes: stop the bookie, compact with --index-is-rebuilt, then rebuild its index with 'bookkeeper shell rebuild-db-ledger-locations-index' before it starts",
            ),
        }
    }
}
