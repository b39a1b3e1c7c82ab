//! Commands that read hints in place of the records of logs.

ghost use Rattle.std.specs.Prelude.{◌≤◌};

use crate::export::run_export_watched;
use crate::folder::FolderCommand;
use crate::folder_disk::Folder;
use crate::ignored::tell_unused;
use crate::run::run_dir_watched;
use crate::stat::run_stat_watched;
use crate::{DirCommand, Form};
use bk_disk::{FaultWatch, LogDisk};
use bk_hint_disk::{DirHints, HintedDisk};
use std::alloc::Global;
use std::io::Write;

/// Whether a command on a directory reads hints of logs.
#[derive(Clone, Copy, Debug, PartialEq, Eq)]
pub enum Hints {
    /// `Find`, `Entries`, `Ledgers`, `Stat` and `Export` read the hint of a log in place of its records.
    /// The others read logs alone.
    Used,
    /// Each command reads logs alone.
    Ignored,
}

impl Hints {
    /// Returns the hints of the directory at a path, if a command reads them. Without memory it reads
    /// the logs.
    fn of(self, rt: &HostRuntime, path: &str, command: &FolderCommand<'_>) -> Option<DirHints> {
        if self == Hints::Used && may_use(command) {
            DirHints::new(rt, path).ok()
        } else {
            None
        }
    }
}

/// Returns whether hints tell what a command reads. A check and a scan read the logs themselves, the
/// others no record.
fn may_use(command: &FolderCommand<'_>) -> bool {
    match command {
        FolderCommand::Dir(command) => matches!(
            command,
            DirCommand::Find(_) | DirCommand::Entries(_) | DirCommand::Ledgers
        ),
        FolderCommand::Stat(_) | FolderCommand::Export(..) => true,
    }
}

/// Runs a command on the disk of a directory at a path, with its hints if it may use them. Notes hints
/// that are not used, then logs that cannot be opened.
pub(crate) fn run_hinted<D: LogDisk, W: Write, E: Write>(
    rt: &HostRuntime,
    form: Form,
    path: &str,
    watch: Option<&FaultWatch>,
    disk: D,
    hints: Hints,
    command: &FolderCommand<'_>,
    writer: &mut W,
    errors: &mut E,
) -> u8
    ensures { result ≤ 1 }
{
    let alloc = rt.alloc();
    let folder = Folder::new(rt, path, disk);
    match hints.of(rt, path, command) {
        Some(hints) => {
            let disk = HintedDisk::new(alloc, folder, hints);
            run_used(alloc, form, watch, disk, command, writer, errors)
        }
        None => run_ignored(alloc, form, watch, folder, command, writer, errors),
    }
}

/// Runs a command on the disk of a directory with its hints, and notes those that are not used.
fn run_used<D: LogDisk, W: Write, E: Write>(
    alloc: Global,
    form: Form,
    watch: Option<&FaultWatch>,
    disk: HintedDisk<Folder<'_, D>, DirHints>,
    command: &FolderCommand<'_>,
    writer: &mut W,
    errors: &mut E,
) -> u8
    ensures { result ≤ 1 }
{
    let mut disk = disk;
    let status = run_command(alloc, form, watch, &mut disk, command, writer, errors);
    tell_unused(alloc, form, disk.unused(), errors);
    if disk.inner().tell(form, errors) {
        1
    } else {
        status
    }
}

/// Runs a command on the disk of a directory.
fn run_ignored<D: LogDisk, W: Write, E: Write>(
    alloc: Global,
    form: Form,
    watch: Option<&FaultWatch>,
    disk: Folder<'_, D>,
    command: &FolderCommand<'_>,
    writer: &mut W,
    errors: &mut E,
) -> u8
    ensures { result ≤ 1 }
{
    let mut disk = disk;
    let status = run_command(alloc, form, watch, &mut disk, command, writer, errors);
    if disk.tell(form, errors) { 1 } else { status }
}

/// Runs a command on a disk.
fn run_command<D: LogDisk, W: Write, E: Write>(
    alloc: Global,
    form: Form,
    watch: Option<&FaultWatch>,
    disk: &mut D,
    command: &FolderCommand<'_>,
    writer: &mut W,
    errors: &mut E,
) -> u8
    ensures { result ≤ 1 }
{
    match command {
        FolderCommand::Dir(command) => {
            run_dir_watched(alloc, form, watch, disk, *command, writer, errors)
        }
        FolderCommand::Stat(dead) => {
            run_stat_watched(alloc, form, watch, disk, dead, writer, errors)
        }
        FolderCommand::Export(range, data) => {
            let asked = (*range, *data);
            run_export_watched(alloc, form, watch, disk, asked, writer, errors)
        }
    }
}
