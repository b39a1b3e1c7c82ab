//! Runs a command on any disk.

ghost use Rattle.std.specs.Prelude.{◌≡◌, ◌≤◌, IsTrue, IfOk};
ghost use Rattle.bk_inspect.specs.Forms.{followed};
ghost use Rattle.bk_inspect.specs.Reading.{OnlyReads};
ghost use Rattle.bk_inspect.specs.Shown.{Prints};

use crate::check::{Detail, show_check};
use crate::digests::show_digests;
use crate::entries::show_range;
use crate::fault::tell_end;
use crate::find::show_last;
use crate::header::show_header;
use crate::ledgers::show_map;
use crate::listing::show_logs;
use crate::part::show_part;
use crate::quick::show_quick;
use crate::scan::show_scan;
use crate::totals::show_totals;
use crate::{DigestChoice, DirCommand, DirFault, Form};
use bk_disk::{FaultWatch, LogDisk};
use std::alloc::Global;
use std::io::Write;

/// Runs a command on a disk and writes its rows. Nothing is written to the disk. Returns the
/// program's status: 0 or 1.
///
/// If all logs are read, one that is removed before its turn is left out. `find`, `check`, `ledgers`
/// and `entries` then list the logs again and read the new ones too, up to 32 times.
///
/// # Errors
///
/// Status 1 comes with `fault TEXT` on the error stream if the command ends early: there is no log
/// of the id, the header, map or record that is asked for is invalid, the device fails, memory is
/// refused, the disk is odd, logs were removed after each listing (`directory changes`), or the
/// output cannot be written. What was written stays. It comes
/// without such a line if nobody reads the output any more, and from `check` if a row says that
/// something is wrong. `find`, `ledgers` and `entries` report each log that they could not read to
/// its end, `fault log ID: TEXT`, go on, and end with 1.
pub fn run_dir<D: LogDisk, W: Write, E: Write>(
    alloc: Global,
    disk: &mut D,
    command: DirCommand,
    writer: &mut W,
    errors: &mut E,
) -> u8
    ensures status { result ≤ 1 }
    ensures reads { OnlyReads (D.honest disk.old) (D.files disk.old) (D.honest disk.new) (D.files disk.new) }
    ensures done { IsTrue (D.honest disk.old) → result ≡ 0 → Prints command (D.files disk.old)
        (W.contents writer.old) (W.contents writer.new) }
{
    run_dir_as(alloc, Form::Text, disk, command, writer, errors)
}

/// Runs a command as `run_dir` does, with rows of a form of the caller's choice on both streams.
pub fn run_dir_as<D: LogDisk, W: Write, E: Write>(
    alloc: Global,
    form: Form,
    disk: &mut D,
    command: DirCommand,
    writer: &mut W,
    errors: &mut E,
) -> u8
    ensures status { result ≤ 1 }
    ensures reads { OnlyReads (D.honest disk.old) (D.files disk.old) (D.honest disk.new) (D.files disk.new) }
    ensures done { IsTrue (D.honest disk.old) → result ≡ 0 → Prints command (D.files disk.old)
        (followed form (W.contents writer.old)) (followed form (W.contents writer.new)) }
{
    run_dir_watched(alloc, form, None, disk, command, writer, errors)
}

/// The same, with a watch that has the reason if a call of the system fails.
pub(crate) fn run_dir_watched<D: LogDisk, W: Write, E: Write>(
    alloc: Global,
    form: Form,
    watch: Option<&FaultWatch>,
    disk: &mut D,
    command: DirCommand,
    writer: &mut W,
    errors: &mut E,
) -> u8
    ensures status { result ≤ 1 }
    ensures reads { OnlyReads (D.honest disk.old) (D.files disk.old) (D.honest disk.new) (D.files disk.new) }
    ensures done { IsTrue (D.honest disk.old) → result ≡ 0 → Prints command (D.files disk.old)
        (followed form (W.contents writer.old)) (followed form (W.contents writer.new)) }
{
    let log = command.log();
    match show_all(alloc, form, disk, command, writer, errors) {
        Ok(status) => status,
        Err(fault) => {
            tell_end(alloc, form, watch, log, fault, errors);
            1
        }
    }
}

/// Writes the rows of a command and flushes, also if the command ends early. Returns the status.
fn show_all<D: LogDisk, W: Write, E: Write>(
    alloc: Global,
    form: Form,
    disk: &mut D,
    command: DirCommand,
    writer: &mut W,
    errors: &mut E,
) -> Result<u8, DirFault>
    ensures status { IfOk result (λ status. status ≤ 1) }
    ensures reads { OnlyReads (D.honest disk.old) (D.files disk.old) (D.honest disk.new) (D.files disk.new) }
    ensures done { IsTrue (D.honest disk.old) → IfOk result (λ status. status ≡ 0 → Prints command (D.files disk.old)
        (followed form (W.contents writer.old)) (followed form (W.contents writer.new))) }
{
    let shown = show(alloc, form, disk, command, writer, errors);
    let flushed = writer.flush();
    let status = shown?;
    flushed?;
    Ok(status)
}

/// Writes the rows of a command. Returns the status.
fn show<D: LogDisk, W: Write, E: Write>(
    alloc: Global,
    form: Form,
    disk: &mut D,
    command: DirCommand,
    writer: &mut W,
    errors: &mut E,
) -> Result<u8, DirFault>
    ensures status { IfOk result (λ status. status ≤ 1) }
    ensures reads { OnlyReads (D.honest disk.old) (D.files disk.old) (D.honest disk.new) (D.files disk.new) }
    ensures done { IsTrue (D.honest disk.old) → IfOk result (λ status. status ≡ 0 → Prints command (D.files disk.old)
        (followed form (W.contents writer.old)) (followed form (W.contents writer.new))) }
{
    match command {
        DirCommand::Logs => show_logs(alloc, disk, form, writer)?,
        DirCommand::Header(log) => show_header(alloc, disk, log, form, writer)?,
        DirCommand::Map(log) => show_map(alloc, disk, log, form, writer)?,
        DirCommand::Scan(log) => show_scan(alloc, disk, log, form, writer)?,
        DirCommand::ScanPart(log, choice) => show_part(alloc, disk, log, choice, form, writer)?,
        DirCommand::Find(key) => return show_last(alloc, disk, key, form, writer, errors),
        DirCommand::Check => return show_check(alloc, disk, Detail::Word, form, writer),
        DirCommand::CheckQuick => return show_quick(alloc, disk, form, writer),
        DirCommand::CheckDigests(choice) => {
            return show_digests(alloc, disk, choice, Detail::Word, form, writer);
        }
        DirCommand::CheckLong(choice) => return show_long(alloc, disk, choice, form, writer),
        DirCommand::Ledgers => return show_totals(alloc, disk, form, writer, errors),
        DirCommand::Entries(range) => return show_range(alloc, disk, range, form, writer, errors),
    }
    Ok(0)
}

/// Writes the rows of a check in detail, with digests if they are asked for. Returns the status.
fn show_long<D: LogDisk, W: Write>(
    alloc: Global,
    disk: &mut D,
    choice: Option<DigestChoice>,
    form: Form,
    writer: &mut W,
) -> Result<u8, DirFault>
    ensures status { IfOk result (λ status. status ≤ 1) }
    ensures reads { OnlyReads (D.honest disk.old) (D.files disk.old) (D.honest disk.new) (D.files disk.new) }
{
    match choice {
        Some(choice) => show_digests(alloc, disk, choice, Detail::Long, form, writer),
        None => show_check(alloc, disk, Detail::Long, form, writer),
    }
}
