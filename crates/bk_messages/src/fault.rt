//! Why a command on a directory ends early.

ghost use Rattle.std.specs.Prelude.{◌≡◌, None, false};
ghost use Rattle.bk_messages.specs.Ways.{way_of};
ghost use Rattle.bk_messages.specs.declared.fault.CommandFault.TheVariants as commands;
ghost use Rattle.bk_messages.specs.Rows.{of_row};
ghost use Rattle.bk_messages.specs.Disks.{is_device_fault, is_failed_sweep};

use crate::book_fault::BookFault;
use crate::dead::DeadFault;
use crate::logs_fault::LogsFault;
use crate::rows::RowFault;
use crate::way_on::WayOn;
use bk_collect::CollectFault;
use bk_disk::{DiskFault, FaultWatch, FileFault, FolderFault};
use bk_ledgers::ReadFault;
use bk_manifest::ManifestError;
use bk_manifest_disk as manifest;
use bk_offline_gc::SweepFault;
use bk_store::{OpenFault, StepFault};
use std::alloc::{AllocError, Global};
use std::io;
use thiserror::Error;

/// Why a command on a directory ends early. Its text is what the program reports.
#[derive(Debug, Error, Drop)]
pub enum CommandFault {
    /// The directory is not opened.
    #[error("{0}")]
    Folder(FolderFault),
    /// The logs of the directory cannot be listed.
    #[error("{0}")]
    Disk(DiskFault),
    /// The logs cannot be opened by their manifest.
    #[error("{0}")]
    Logs(LogsFault),
    /// The manifest of the logs cannot be read.
    #[error("{0}")]
    Unread(ReadFault),
    /// It is not known which ledgers are deleted.
    #[error("{0}")]
    Dead(DeadFault),
    /// The manifest of the ledgers cannot be opened or written.
    #[error("{0}")]
    Book(BookFault),
    /// The system does not tell whether a file is at this path, or what it has.
    #[error("disk: {path}: {reason}")]
    Name { path: String, reason: io::Error },
    /// The directory has a bookie's index, of which this path is one file.
    #[error("bookie index: {0}")]
    Index(String),
    /// The store is not opened, or a step of the compaction was refused.
    #[error("{0}")]
    Sweep(SweepFault),
    /// The logs cannot be read; the reason was reported.
    #[error("disk")]
    Reported,
    /// Out of memory.
    #[error("memory")]
    Memory,
    /// The output cannot be written.
    #[error("output")]
    Output(io::Error),
}

impl From<FolderFault> for CommandFault {
    ghost from_gives = { λ fault e. e ≡ commands.Folder fault };

    fn from(fault: FolderFault) -> CommandFault {
        CommandFault::Folder(fault)
    }
}

impl From<DiskFault> for CommandFault {
    ghost from_gives = { λ fault e. e ≡ commands.Disk fault };

    fn from(fault: DiskFault) -> CommandFault {
        CommandFault::Disk(fault)
    }
}

impl From<DeadFault> for CommandFault {
    ghost from_gives = { λ fault e. e ≡ commands.Dead fault };

    fn from(fault: DeadFault) -> CommandFault {
        CommandFault::Dead(fault)
    }
}

impl From<manifest::Fault> for CommandFault {
    fn from(fault: manifest::Fault) -> CommandFault {
        CommandFault::Logs(LogsFault::from(fault))
    }
}

impl From<ReadFault> for CommandFault {
    ghost from_gives = { λ fault e. e ≡ commands.Unread fault };

    fn from(fault: ReadFault) -> CommandFault {
        CommandFault::Unread(fault)
    }
}

impl From<BookFault> for CommandFault {
    ghost from_gives = { λ fault e. e ≡ commands.Book fault };

    fn from(fault: BookFault) -> CommandFault {
        CommandFault::Book(fault)
    }
}

impl From<SweepFault> for CommandFault {
    ghost from_gives = { λ fault e. e ≡ commands.Sweep fault };

    fn from(fault: SweepFault) -> CommandFault {
        CommandFault::Sweep(fault)
    }
}

impl From<AllocError> for CommandFault {
    ghost from_gives = { λ _ e. e ≡ commands.Memory };

    fn from(_: AllocError) -> CommandFault {
        CommandFault::Memory
    }
}

impl From<io::Error> for CommandFault {
    ghost from_gives = { λ fault e. e ≡ commands.Output fault };

    fn from(error: io::Error) -> CommandFault {
        CommandFault::Output(error)
    }
}

impl From<RowFault> for CommandFault {
    ghost from_gives = { λ fault e. e ≡ of_row fault };

    fn from(fault: RowFault) -> CommandFault {
        match fault {
            RowFault::Memory => CommandFault::Memory,
            RowFault::Output(error) => CommandFault::Output(error),
        }
    }
}

/// Returns the way on after a fault, if there is one.
pub(crate) fn way_on(fault: &CommandFault) -> Option<WayOn>
    ensures { result ≡ way_of fault.now }
{
    match fault {
        CommandFault::Sweep(SweepFault::Open(fault)) => WayOn::behind(fault),
        CommandFault::Index(_) => Some(WayOn::RebuildIndex),
        CommandFault::Book(fault) => WayOn::behind_book(fault.error),
        CommandFault::Logs(fault) => WayOn::behind_logs(*fault),
        CommandFault::Unread(ReadFault::Bad { .. }) => Some(WayOn::RebuildLogs),
        CommandFault::Dead(DeadFault::NoneLive) => Some(WayOn::SayNoneLive),
        CommandFault::Dead(DeadFault::Manifest(ReadFault::Bad { .. })) => {
            Some(WayOn::RebuildManifest)
        }
        CommandFault::Folder(_)
        | CommandFault::Disk(_)
        | CommandFault::Unread(_)
        | CommandFault::Dead(_)
        | CommandFault::Name { .. }
        | CommandFault::Sweep(_)
        | CommandFault::Reported
        | CommandFault::Memory
        | CommandFault::Output(_) => None,
    }
}

/// Returns the call of the system on a directory that is the reason of a fault: the last one that
/// failed, if the fault is one of the disk. `None` if there is none, or memory for its path is
/// refused.
pub fn reason_of(
    alloc: Global,
    fault: &CommandFault,
    watch: &Option<FaultWatch>,
) -> Option<FileFault>
    ensures { is_device_fault fault.now ≡ false → result ≡ None }
{
    if !is_of_disk(fault) {
        return None;
    }
    watch.as_ref()?.last(alloc).ok()?
}

/// Returns whether the device failed, or the disk is odd.
fn is_of_disk(fault: &CommandFault) -> bool
    ensures { result ≡ is_device_fault fault.now }
{
    match fault {
        CommandFault::Disk(fault) => *fault != DiskFault::Memory,
        CommandFault::Book(fault) => fault.error == ManifestError::Disk,
        CommandFault::Logs(fault) => fault.is_of_disk(),
        CommandFault::Sweep(fault) => is_swept_disk(*fault),
        _ => false,
    }
}

/// Returns whether the device failed in a compaction, or the disk is odd.
fn is_swept_disk(fault: SweepFault) -> bool
    ensures { result ≡ is_failed_sweep fault }
{
    match fault {
        SweepFault::Disk | SweepFault::Odd => true,
        SweepFault::Open(fault) => matches!(fault, OpenFault::Disk | OpenFault::Odd),
        SweepFault::Step(fault) => matches!(fault, StepFault::Disk | StepFault::Odd),
        SweepFault::Collect(fault) => matches!(fault, CollectFault::Disk | CollectFault::Odd),
        SweepFault::JobRunning | SweepFault::Memory => false,
    }
}
