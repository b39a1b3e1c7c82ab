//! The command `script`: in memory, and on a directory, which is created if it does not exist.

ghost use Rattle.std.specs.Prelude.{◌≡◌, ◌≤◌};
ghost use Rattle.bk_script.specs.Run.{RunsScript};
ghost use Rattle.bk_commands.specs.Folder.{RunsOverFolder};

use bk_cli::ScriptCall;
use bk_disk::MemDisk;
use bk_folder::{Opening, OpeningDisk, OpeningFault, open_or_make};
use bk_inspect::{Form, Hints};
use bk_ledgers::Listed;
use bk_messages::WayOn;
use bk_script::{RunFault, ScriptFault, run_on};
use std::alloc::Global;
use std::io::{ErrorKind, Read, Write};

/// Runs the script of a reader on a new disk in memory. Returns the status: 0, or 1 with the reason
/// on the error stream (`RunFault`); without it if nobody reads the answers any more.
pub(crate) fn run_in_memory<R: Read, W: Write, E: Write>(
    alloc: Global,
    call: &ScriptCall<'_>,
    reader: &mut R,
    writer: &mut W,
    errors: &mut E,
) -> u8
    ensures status { result ≤ 1 }
    ensures done { result ≡ 0 → RunsScript call.now.settings call.now.dead.items (R.remaining reader.old) (R.remaining reader.new)
        (W.contents writer.old) (W.contents writer.new) }
{
    let disk = MemDisk::new(alloc);
    match run_on(alloc, disk, call.settings, &call.dead, reader, writer) {
        Ok(()) => 0,
        Err(fault) => {
            tell(&fault, errors);
            1
        }
    }
}

/// Runs the script of a reader on the directory at a path, as its one writer. Returns the status,
/// as `run_in_memory` does; also 1 if the directory cannot be written, with `fault TEXT` on the
/// error stream, which names the file, or the process that writes there. If no store is opened and
/// there is a way on, another line names it (`WayOn`). Each hint that is not used and each call of the
/// system that failed has a line on the error stream (`Notes`), also if the status is 0.
pub(crate) fn run_over_folder<R: Read, W: Write, E: Write>(
    rt: &HostRuntime,
    path: &str,
    call: &ScriptCall<'_>,
    reader: &mut R,
    writer: &mut W,
    errors: &mut E,
) -> u8
    ensures status { result ≤ 1 }
    ensures done { result ≡ 0 → RunsOverFolder call.now.settings call.now.dead.items (R.remaining reader.old) (R.remaining reader.new)
        (W.contents writer.old) (W.contents writer.new) }
{
    let hints = if call.no_hints {
        Hints::Ignored
    } else {
        Hints::Used
    };
    let opened = match open_or_make(rt, path, call.no_manifest, hints) {
        Ok(opened) => opened,
        Err(fault) => {
            tell_unopened(&fault, errors);
            return 1;
        }
    };
    opened.tell(Form::Text, errors);
    match recorded_disk(opened, &call.dead) {
        Ok((disk, dead)) => run_on_folder(rt.alloc(), disk, &dead, call, reader, writer, errors),
        Err(fault) => {
            tell_unopened(&fault, errors);
            1
        }
    }
}

/// Runs the script on a directory that is open. These ledgers are deleted.
#[tactic(auto, using(crate::proofs::Folder::over_folder))]
fn run_on_folder<R: Read, W: Write, E: Write>(
    alloc: Global,
    disk: OpeningDisk,
    dead: &[u64],
    call: &ScriptCall<'_>,
    reader: &mut R,
    writer: &mut W,
    errors: &mut E,
) -> u8
    ensures status { result ≤ 1 }
    ensures done { result ≡ 0 → RunsOverFolder call.now.settings call.now.dead.items (R.remaining reader.old) (R.remaining reader.new)
        (W.contents writer.old) (W.contents writer.new) }
{
    let Ok(notes) = disk.notes(alloc) else {
        tell(&RunFault::Script(ScriptFault::Memory), errors);
        return 1;
    };
    match run_on(alloc, disk, call.settings, dead, reader, writer) {
        Ok(()) => {
            notes.tell(Form::Text, errors);
            0
        }
        Err(fault) => {
            tell(&fault, errors);
            notes.tell(Form::Text, errors);
            1
        }
    }
}

/// Returns the disk of a script on a directory, and all deleted ledgers: these, whose deletion is
/// durable now, and those recorded earlier.
fn recorded_disk(opened: Opening, dead: &[u64]) -> Result<(OpeningDisk, Vec<u64>), OpeningFault> {
    let Opening { disk, mut book, .. } = opened;
    match book.delete_all(dead) {
        Ok(Listed { deleted, fenced }) => Ok((disk.recording(book, fenced), deleted)),
        Err(fault) => Err(OpeningFault::Book(fault)),
    }
}

/// Reports why a directory is not written, and the way on if there is one. A failed write is ignored.
fn tell_unopened<E: Write>(fault: &OpeningFault, errors: &mut E) {
    let _ = writeln!(errors, "fault {fault}");
    if let Some(way_on) = fault.way_on() {
        let _ = writeln!(errors, "help: {way_on}");
    }
}

/// Reports why a script was not run, or its answers not written, and the way on if there is one;
/// nothing if nobody reads the answers any more. A failed write is ignored.
fn tell<E: Write>(fault: &RunFault, errors: &mut E) {
    match fault {
        RunFault::Output(error) if error.kind() == ErrorKind::BrokenPipe => {}
        RunFault::Output(_) | RunFault::Script(_) => {
            let _ = writeln!(errors, "{fault}");
        }
    }
    if let RunFault::Script(ScriptFault::Open(fault)) = fault {
        if let Some(way_on) = WayOn::behind(fault) {
            let _ = writeln!(errors, "help: {way_on}");
        }
    }
}
