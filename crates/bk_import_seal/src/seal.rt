//! The command `seal`: with the manifest of the logs of a directory, or without it.

ghost use Rattle.std.specs.Prelude.{◌≡◌, ◌≤◌, if◌then◌else◌};

use bk_cli::FolderCall;
use bk_cli::words::{CUT_TORN, NO_MANIFEST};
use bk_disk::{DirDisk, FaultWatch};
use bk_folder::{Ignored, LogsDisk};
use bk_inspect::{
    AsideFolder, CutKept, check_one_name, find_unsealed, run_cut_and_seal_folder, run_cut_watched,
    run_seal_folder, run_seal_watched, unlisted, unsealed_in,
};
use bk_manifest_disk::open_logs;
use bk_messages::{CommandFault, end_early, reason_of};
use std::io::Write;

/// The disk of a directory in which logs are sealed.
type SealDisk<'a> = CutKept<'a, LogsDisk>;

/// A directory in which logs are sealed, with the manifest of its logs.
#[derive(Drop)]
struct Sealing<'a, 'b> {
    rt: HostRuntime,
    call: &'a FolderCall<'b>,
    disk: SealDisk<'b>,
    /// The calls of the system that fail.
    watch: FaultWatch,
}

/// Seals the logs of a call. Returns the program's status: 0, or 1 with `fault TEXT` on the error
/// stream.
pub fn run_seal<W: Write, E: Write>(
    rt: &HostRuntime,
    call: &FolderCall<'_>,
    writer: &mut W,
    errors: &mut E,
) -> u8
    ensures { result ≤ 1 }
{
    if call.has(&NO_MANIFEST) {
        return match call.log() {
            Some(log) => seal_plain(rt, call, log, writer, errors),
            None => seal_all_plain(rt, call, writer, errors),
        };
    }
    let mut watch = None;
    match open(rt, call, &mut watch, errors) {
        Ok(mut sealing) => match call.log() {
            Some(log) => sealing.seal(log, writer, errors),
            None => sealing.seal_all(writer, errors),
        },
        Err(fault) => {
            let reason = reason_of(rt.alloc(), &fault, &watch);
            end_early(rt.alloc(), call.form, &fault, &reason, errors);
            1
        }
    }
}

/// Opens the directory of a call as its one writer, with the manifest of its logs, and notes what that
/// ignores. Sets `watch` to the watch of its disk.
fn open<'a, 'b, E: Write>(
    rt: &HostRuntime,
    call: &'a FolderCall<'b>,
    watch: &mut Option<FaultWatch>,
    errors: &mut E,
) -> Result<Sealing<'a, 'b>, CommandFault> {
    let alloc = rt.alloc();
    let disk = DirDisk::open_to_write(rt, call.path)?;
    let (own, cutting) = (disk.fault_watch(alloc)?, disk.fault_watch(alloc)?);
    *watch = Some(disk.fault_watch(alloc)?);
    if call.log().is_none()
        && let Some(fault) = unlisted(rt, call.path)
    {
        return Err(CommandFault::Folder(fault));
    }
    let (disk, ignored) = Ignored::split(alloc, open_logs(alloc, disk)?);
    ignored.tell(call.form, errors);
    Ok(Sealing {
        rt: *rt,
        call,
        disk: CutKept::new(call.path, disk, cutting),
        watch: own,
    })
}

impl<'a, 'b> Sealing<'a, 'b> {
    /// Seals a log, cut before if the call says so. Returns the status.
    fn seal<W: Write, E: Write>(&mut self, log: u32, writer: &mut W, errors: &mut E) -> u8
        ensures { result ≤ 1 }
    {
        let alloc = self.rt.alloc();
        let (form, watch) = (self.call.form, Some(&self.watch));
        if let Err(fault) = check_one_name(&self.rt, self.call.path, log) {
            end_early(alloc, form, &CommandFault::Folder(fault), &None, errors);
            return 1;
        }
        let disk = &mut self.disk;
        if !self.call.has(&CUT_TORN) {
            return run_seal_watched(alloc, form, watch, disk, log, writer, errors);
        }
        let mut aside = AsideFolder::new(&self.rt, self.call.path);
        run_cut_watched(alloc, form, watch, disk, &mut aside, log, writer, errors)
    }

    /// Seals each unsealed log, also after one that is left. Returns the status.
    fn seal_all<W: Write, E: Write>(&mut self, writer: &mut W, errors: &mut E) -> u8
        ensures { result ≤ 1 }
    {
        let (alloc, form) = (self.rt.alloc(), self.call.form);
        let Some(logs) = find_unsealed(alloc, form, &mut self.disk, errors) else {
            return 1;
        };
        let mut are_sealed = true;
        for log in &logs {
            if self.seal(*log, writer, errors) != 0 {
                are_sealed = false;
            }
        }
        status_of(are_sealed)
    }
}

/// Returns the status of a call that sealed all its logs, or left some.
fn status_of(are_sealed: bool) -> u8
    ensures most { result ≤ 1 }
    ensures status { result ≡ (if are_sealed then 0 else 1) }
{
    if are_sealed { 0 } else { 1 }
}

/// Seals a log of a directory whose manifest is left alone.
fn seal_plain<W: Write, E: Write>(
    rt: &HostRuntime,
    call: &FolderCall<'_>,
    log: u32,
    writer: &mut W,
    errors: &mut E,
) -> u8
    ensures { result ≤ 1 }
{
    if call.has(&CUT_TORN) {
        return run_cut_and_seal_folder(rt, call.form, call.path, log, writer, errors);
    }
    run_seal_folder(rt, call.form, call.path, log, writer, errors)
}

/// Seals each unsealed log of such a directory, also after one that is left.
fn seal_all_plain<W: Write, E: Write>(
    rt: &HostRuntime,
    call: &FolderCall<'_>,
    writer: &mut W,
    errors: &mut E,
) -> u8
    ensures { result ≤ 1 }
{
    let Some((logs, is_whole)) = unsealed_in(rt, call.form, call.path, errors) else {
        return 1;
    };
    let mut are_sealed = is_whole;
    for log in &logs {
        if seal_plain(rt, call, *log, writer, errors) != 0 {
            are_sealed = false;
        }
    }
    status_of(are_sealed)
}
