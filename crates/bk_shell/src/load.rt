//! The command `load`: loads a bookie and writes the report.

ghost use Rattle.std.specs.Prelude.{◌≤◌};

mod call;
mod row;
#[cfg(test)]
mod tests;

use bk_commands::{Book, FailedCalls, Hints, Opening, open_or_make, tell};
use bk_disk::{LogDisk, MemDisk};
use bk_drive::{Recorder, RecordsNothing};
use bk_load::{Load, Recorded, Report, run_load};
use bk_store::Settings;
use call::{LoadCall, load_call};
use row::{LoadFault, tell_fault, write_report};
use std::convert::AsStr;
use std::io;
use std::io::{IsTerminal, Write};
use std::rt::Clock;
use std::sync::Wait;
use std::thread::Threads;

/// The settings of the store: logs of 2 MiB, a cache of 16 MiB. A log is compacted as soon as one
/// of its entries is not live.
const SETTINGS: Settings = Settings {
    log_limit: 2_097_152,
    cache_limit: 16_777_216,
    recent: 1000,
    slots: 65_536,
    leases: 1000,
    minor: 500,
    major: 1000,
};

/// Runs the load of a command line and writes the report, or writes help, or reports an invalid
/// command line. Returns the exit status: 0 if the load was good or help was written, 2 if the
/// command line is invalid, else 1.
pub(super) fn load_as_asked<T: Threads + Wait + Clock + Sync, S: AsStr, W: Write, E: Write>(
    rt: &HostRuntime,
    threads: &T,
    words: &[S],
    writer: &mut W,
    errors: &mut E,
) -> u8 {
    match load_call(rt.alloc(), words) {
        Ok(call) => run_call(rt, threads, &call, writer, errors),
        Err(error) => tell(rt.alloc(), &error, writer, errors),
    }
}

/// Runs a load. Returns the status: 0 if it was good, 1 if it was bad or stopped early. If it
/// stopped early, writes `fault TEXT` to the error stream, unless the reader of the output has
/// closed it. Writes each call of the system that failed there too, the first first
/// (`FailedCalls`).
fn run_call<T: Threads + Wait + Clock + Sync, W: Write, E: Write>(
    rt: &HostRuntime,
    threads: &T,
    call: &LoadCall<'_>,
    writer: &mut W,
    errors: &mut E,
) -> u8
    ensures { result ≤ 1 }
{
    let mut failed = None;
    let loaded = load_and_show(rt, threads, call, &mut failed, writer, errors);
    if let Err(fault) = &loaded {
        tell_end(rt, call, fault, errors);
    }
    if let Some(failed) = failed {
        failed.tell(call.form, errors);
    }
    match loaded {
        Ok(true) => 0,
        Ok(false) | Err(_) => 1,
    }
}

/// Reports why a load ends early; nothing if nobody reads the output any more.
fn tell_end<E: Write>(rt: &HostRuntime, call: &LoadCall<'_>, fault: &LoadFault, errors: &mut E) {
    match fault {
        LoadFault::Output(error) if error.kind() == io::ErrorKind::BrokenPipe => {}
        _ => tell_fault(rt.alloc(), call.form, fault, errors),
    }
}

/// Runs a load, writes the report and flushes. Returns whether the load was good. Sets `failed` to
/// the calls of the system that fail on the directory, if there is one.
fn load_and_show<T: Threads + Wait + Clock + Sync, W: Write, E: Write>(
    rt: &HostRuntime,
    threads: &T,
    call: &LoadCall<'_>,
    failed: &mut Option<FailedCalls>,
    writer: &mut W,
    errors: &mut E,
) -> Result<bool, LoadFault> {
    let report = match call.folder {
        None => {
            let recorded = Recorded {
                ledgers: Vec::new(rt.alloc()),
                recorder: RecordsNothing,
            };
            load_on(rt, threads, MemDisk::new(rt.alloc()), call.load, recorded)?
        }
        Some(path) => {
            let opened = open_or_make(rt, path, call.no_manifest, Hints::Ignored)?;
            opened.tell(call.form, errors);
            let Opening { disk, book, .. } = opened;
            *failed = Some(disk.failed_calls()?);
            load_on(rt, threads, disk, call.load, recorded_in(book)?)?
        }
    };
    write_report(rt.alloc(), call.form, &report, writer)?;
    Ok(report.is_good())
}

/// Returns what the manifest of a directory records, and where the load records deletions.
fn recorded_in(book: Book) -> Result<Recorded<Book>, LoadFault> {
    let listed = book.ledgers()?;
    let mut ledgers = listed.deleted;
    ledgers.extend_from_slice(&listed.fenced)?;
    Ok(Recorded {
        ledgers,
        recorder: book,
    })
}

/// Loads a bookie on a disk. If the error stream is a terminal, a line there shows the progress.
fn load_on<T: Threads + Wait + Clock + Sync, D: LogDisk, K: Recorder + Send + Drop>(
    rt: &HostRuntime,
    threads: &T,
    disk: D,
    load: Load,
    recorded: Recorded<K>,
) -> Result<Report, LoadFault> {
    let stream = rt.stderr();
    let progress = if stream.is_terminal() {
        Some(stream)
    } else {
        None
    };
    run_load(
        threads,
        rt.alloc(),
        disk,
        SETTINGS,
        load,
        recorded,
        progress,
    )
    .map_err(LoadFault::Load)
}
