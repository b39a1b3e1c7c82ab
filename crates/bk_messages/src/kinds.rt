//! The words that name faults in their objects: what each is, without what it is about.

ghost use Rattle.std.specs.Prelude.{◌≡◌};
ghost use Rattle.bk_messages.specs.Kinds.{command_word, dead_word, disk_word, folder_word, logs_word, manifest_word};
ghost use Rattle.bk_messages.specs.Kinds.{store_word, read_word, reason_word, step_word};

use crate::dead::DeadFault;
use crate::fault::CommandFault;
use crate::logs_fault::LogsFault;
use bk_disk::{DiskFault, FolderFault};
use bk_ledgers::ReadFault;
use bk_manifest::ManifestError;
use bk_manifest_disk::Fault;
use bk_offline_gc::SweepFault;
use bk_store::{OpenFault, StepFault};
use std::io;
use std::io::ErrorKind;

/// Returns the word of a call that the system refuses for this reason: `memory`, or the other word.
pub fn reason_kind(reason: &io::Error, other: &'static str) -> &'static str
    ensures { result.now ≡ reason_word reason.now other.now }
{
    match reason.kind() {
        ErrorKind::OutOfMemory => "memory",
        _ => other,
    }
}

/// Returns the word of a directory that is not opened.
pub fn folder_kind(fault: &FolderFault) -> &'static str
    ensures { result.now ≡ folder_word fault.now }
{
    match fault {
        FolderFault::InUse { .. } => "in use",
        FolderFault::Refused { path: _, reason } => reason_kind(reason, "disk"),
        FolderFault::Memory => "memory",
    }
}

/// Returns the word of a fault of a disk, which is its text.
pub fn disk_kind(fault: DiskFault) -> &'static str
    ensures { result.now ≡ disk_word fault }
{
    match fault {
        DiskFault::Disk => "disk",
        DiskFault::Exists => "log exists",
        DiskFault::NoLog => "no log",
        DiskFault::PastEnd => "past the end",
        DiskFault::TooLong => "log full",
        DiskFault::Memory => "memory",
    }
}

/// Returns the word of a manifest that cannot be read.
pub fn read_kind(fault: &ReadFault) -> &'static str
    ensures { result.now ≡ read_word fault.now }
{
    match fault {
        ReadFault::Unread { path: _, reason } => reason_kind(reason, "disk"),
        ReadFault::NotPlain { .. } => "disk",
        ReadFault::Bad { .. } => "manifest",
        ReadFault::Memory => "memory",
    }
}

/// Returns the word of a manifest that cannot be opened or written.
pub fn manifest_kind(error: ManifestError) -> &'static str
    ensures { result.now ≡ manifest_word error }
{
    match error {
        ManifestError::Memory => "memory",
        ManifestError::Disk => "disk",
        ManifestError::TooLong => "batch too long",
        ManifestError::Fault(_) => "manifest",
    }
}

/// Returns the word of logs that cannot be opened by their manifest.
pub fn logs_kind(fault: LogsFault) -> &'static str
    ensures { result.now ≡ logs_word fault.fault }
{
    match fault.fault {
        Fault::Lack(_) => "manifest",
        Fault::Manifest(error) => manifest_kind(error),
        Fault::Disk(fault) => disk_kind(fault),
    }
}

/// Returns the word of a store that is not opened.
pub fn open_kind(fault: OpenFault) -> &'static str
    ensures { result.now ≡ store_word fault }
{
    match fault {
        OpenFault::Settings => "settings",
        OpenFault::Disk => "disk",
        OpenFault::Memory => "memory",
        OpenFault::LogsFull => "logs full",
        OpenFault::Log { .. } => "bad log",
        OpenFault::TooLong(_) => "log too long",
        OpenFault::Odd => "odd disk",
    }
}

/// Returns the word of a step that fails.
pub fn step_kind(fault: StepFault) -> &'static str
    ensures { result.now ≡ step_word fault }
{
    match fault {
        StepFault::Disk => "disk",
        StepFault::Memory { .. } => "memory",
        StepFault::LogsFull => "logs full",
        StepFault::NoMoreIds => "no more ids",
        StepFault::Odd => "odd disk",
    }
}

/// Returns the word if it is not known which ledgers are deleted.
pub(crate) fn dead_kind(fault: &DeadFault) -> &'static str
    ensures { result.now ≡ dead_word fault.now }
{
    match fault {
        DeadFault::Unread { path: _, reason } => reason_kind(reason, "unread"),
        DeadFault::Line { .. } => "bad line",
        DeadFault::NoneLive => "no live ledger is named",
        DeadFault::Logs => "ledgers of the logs unread",
        DeadFault::Manifest(fault) => read_kind(fault),
        DeadFault::Memory => "memory",
    }
}

/// Returns the word of a fault with this text, which is the word of those that are not named here.
pub(crate) fn kind_of<'f>(fault: &CommandFault, text: &'f str) -> &'f str
    ensures { result.now ≡ command_word fault.now text.now }
{
    match fault {
        CommandFault::Folder(fault) => folder_kind(fault),
        CommandFault::Disk(fault) => disk_kind(*fault),
        CommandFault::Logs(fault) => logs_kind(*fault),
        CommandFault::Unread(fault) => read_kind(fault),
        CommandFault::Dead(fault) => dead_kind(fault),
        CommandFault::Book(fault) => manifest_kind(fault.error),
        CommandFault::Name { path: _, reason } => reason_kind(reason, "disk"),
        CommandFault::Index(_) => "bookie index",
        CommandFault::Sweep(SweepFault::Open(fault)) => open_kind(*fault),
        CommandFault::Sweep(SweepFault::Step(fault)) => step_kind(*fault),
        CommandFault::Sweep(_) => text,
        CommandFault::Reported => "disk",
        CommandFault::Memory => "memory",
        CommandFault::Output(reason) => reason_kind(reason, "output"),
    }
}
