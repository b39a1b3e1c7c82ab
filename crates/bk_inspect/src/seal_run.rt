//! The command `seal`: on any disk, and on a directory of the system.

ghost use Rattle.std.specs.Prelude.{◌≡◌, ◌≤◌, IsTrue};
ghost use Rattle.bk_log.specs.Sealing.{KeepsEntries};
ghost use Rattle.bk_inspect.specs.Sealing.{SealLeaves, SealsOne};

use crate::fault::{FaultMembers, tell_end, tell_fault};
use crate::folder::{open_to_seal, tell_folder, watch_of};
use crate::form::write_row;
use crate::help::help_of;
use crate::seal::{Refusal, SealFault, SealedLog, seal_log};
use crate::{DirFault, Form};
use bk_disk::{FaultWatch, LogDisk};
use serde::Serialize;
use std::alloc::Global;
use std::fmt;
use std::fmt::{Display, Formatter};
use std::io::Write;

/// Seals a log whose header names no map: appends the ledgers map of its entries, then makes the
/// header name it. Writes `sealed LOG map OFFSET count LEDGERS`. Returns the program's status: 0,
/// or 1 with `fault TEXT` on the error stream; without it if nobody reads the output any more.
///
/// # Errors
///
/// - `log LOG: REASON`. The log is unchanged. The reasons are `no log`; `short`, below 1024 bytes;
///   `bad magic`, `version V`, an invalid header; `no map in version 0`; `sealed already`; `bad
///   length AT N`; `torn N at AT`, N bytes at its end are no whole record; `too long N`, more than
///   2^32 - 1 bytes; `no room for a map`, which would end past byte 2^32 - 1. If there is a way on,
///   the next line has it, `help: TEXT`.
/// - `disk`, `memory`, `odd disk`: a part of the map, or all of it, may follow the log. If the
///   device failed, bytes 8 to 20 may be any.
/// - `output`: the log may be sealed.
pub fn run_seal<D: LogDisk, W: Write, E: Write>(
    alloc: Global,
    form: Form,
    disk: &mut D,
    log: u32,
    writer: &mut W,
    errors: &mut E,
) -> u8
    ensures status { result ≤ 1 }
    ensures honest { D.honest disk.new ≡ D.honest disk.old }
    ensures done { IsTrue (D.honest disk.old) → result ≡ 0 → SealsOne (D.files disk.old) log (D.files disk.new) }
    ensures leaves { IsTrue (D.honest disk.old) → SealLeaves (D.files disk.old) log (D.files disk.new) }
    ensures entries { IsTrue (D.honest disk.old) → KeepsEntries (D.files disk.old) (D.files disk.new) }
{
    run_seal_watched(alloc, form, None, disk, log, writer, errors)
}

/// The same, with a watch that has the reason if a call of the system fails.
pub fn run_seal_watched<D: LogDisk, W: Write, E: Write>(
    alloc: Global,
    form: Form,
    watch: Option<&FaultWatch>,
    disk: &mut D,
    log: u32,
    writer: &mut W,
    errors: &mut E,
) -> u8
    ensures status { result ≤ 1 }
    ensures honest { D.honest disk.new ≡ D.honest disk.old }
    ensures done { IsTrue (D.honest disk.old) → result ≡ 0 → SealsOne (D.files disk.old) log (D.files disk.new) }
    ensures leaves { IsTrue (D.honest disk.old) → SealLeaves (D.files disk.old) log (D.files disk.new) }
{
    match seal_log(alloc, disk, log) {
        Ok(done) => show_sealed(alloc, form, log, done, writer, errors),
        Err(fault) => {
            tell_unsealed(alloc, form, watch, log, fault, errors);
            1
        }
    }
}

/// Seals a log of the directory at a path, as `run_seal` does on a disk. It takes the writer lock:
/// if another program writes there, `fault in use: ..`. A bookie takes no lock, so it must be
/// stopped. A directory that cannot be opened or locked, or a log whose file has another name, is
/// `fault disk: PATH: REASON`, a failed call of the system `fault disk: FILE: OPERATION: REASON`.
pub fn run_seal_folder<W: Write, E: Write>(
    rt: &HostRuntime,
    form: Form,
    path: &str,
    log: u32,
    writer: &mut W,
    errors: &mut E,
) -> u8
    ensures { result ≤ 1 }
{
    match open_to_seal(rt, path, log) {
        Ok(mut disk) => {
            let alloc = rt.alloc();
            let watch = watch_of(alloc, &disk);
            run_seal_watched(alloc, form, watch.as_ref(), &mut disk, log, writer, errors)
        }
        Err(fault) => {
            let _ = tell_folder(rt.alloc(), form, &fault, errors);
            1
        }
    }
}

/// The row of a log that was sealed.
#[derive(Clone, Copy, Serialize)]
struct SealedRow {
    log: u32,
    state: &'static str,
    map: u64,
    count: u32,
}

impl Display for SealedRow {
    fn fmt<W: fmt::Write>(&self, f: &mut Formatter<W>) -> fmt::Result {
        write!(
            f,
            "sealed {} map {} count {}",
            self.log, self.map, self.count
        )
    }
}

/// Writes the row of a sealed log. Returns the status.
fn show_sealed<W: Write, E: Write>(
    alloc: Global,
    form: Form,
    log: u32,
    done: SealedLog,
    writer: &mut W,
    errors: &mut E,
) -> u8
    ensures { result ≤ 1 }
{
    let row = SealedRow {
        log,
        state: "sealed",
        map: done.offset,
        count: done.ledgers,
    };
    match write_flushed(alloc, form, &row, writer) {
        Ok(()) => 0,
        Err(fault) => {
            tell_fault(alloc, form, Some(log), fault, errors);
            1
        }
    }
}

/// Writes a row and flushes.
fn write_flushed<W: Write>(
    alloc: Global,
    form: Form,
    row: &SealedRow,
    writer: &mut W,
) -> Result<(), DirFault> {
    write_row(alloc, form, row, writer)?;
    writer.flush()?;
    Ok(())
}

/// The row of a log that is not sealed.
#[derive(Clone, Copy, Serialize)]
struct RefusalRow {
    #[serde(flatten)]
    fault: FaultMembers,
    /// How many bytes are no whole record.
    #[serde(skip_serializing_if = "Option::is_none")]
    torn: Option<u64>,
    /// How many bytes a log has that is too long.
    #[serde(skip_serializing_if = "Option::is_none")]
    bytes: Option<u64>,
    log: u32,
    #[serde(skip_serializing_if = "Option::is_none")]
    help: Option<&'static str>,
    #[serde(skip)]
    text: Refusal,
}

impl Display for RefusalRow {
    fn fmt<W: fmt::Write>(&self, f: &mut Formatter<W>) -> fmt::Result {
        write!(f, "fault log {}: ", self.log)?;
        match self.text {
            Refusal::Bytes(fault) => write!(f, "{fault}")?,
            Refusal::Torn { at, bytes } => write!(f, "torn {bytes} at {at}")?,
            Refusal::TooLong(bytes) => write!(f, "too long {bytes}")?,
            Refusal::Old => write!(f, "no map in version 0")?,
            other => write!(f, "{}", other.words())?,
        }
        match self.help {
            Some(help) => write!(f, "\nhelp: {help}"),
            None => Ok(()),
        }
    }
}

impl Refusal {
    /// Its name, without numbers.
    fn words(self) -> &'static str {
        match self {
            Refusal::NoLog => "no log",
            Refusal::Short => "short",
            Refusal::Bytes(_) => "bytes",
            Refusal::Old => "no map in version",
            Refusal::Sealed => "sealed already",
            Refusal::Torn { .. } => "torn",
            Refusal::TooLong(_) => "too long",
            Refusal::NoRoom => "no room for a map",
        }
    }

    /// The members of its object.
    fn members(self) -> FaultMembers {
        match self {
            Refusal::Bytes(fault) => fault.members(),
            Refusal::Old => FaultMembers::of_version(self.words(), 0),
            Refusal::Torn { at, .. } => FaultMembers::at(self.words(), at),
            other => FaultMembers::named(other.words()),
        }
    }
}

/// Returns the row of a log that is refused.
fn refusal_row(log: u32, refusal: Refusal) -> RefusalRow {
    RefusalRow {
        fault: refusal.members(),
        torn: match refusal {
            Refusal::Torn { bytes, .. } => Some(bytes),
            _ => None,
        },
        bytes: match refusal {
            Refusal::TooLong(bytes) => Some(bytes),
            _ => None,
        },
        log,
        help: help_of(refusal),
        text: refusal,
    }
}

/// Reports why a log is not sealed, and the way on if there is one. A failed write is ignored.
pub(crate) fn tell_unsealed<E: Write>(
    alloc: Global,
    form: Form,
    watch: Option<&FaultWatch>,
    log: u32,
    fault: SealFault,
    errors: &mut E,
) {
    match fault {
        SealFault::Broken(fault) => tell_end(alloc, form, watch, Some(log), fault, errors),
        SealFault::Refused(refusal) => {
            let _ = write_row(alloc, form, &refusal_row(log, refusal), errors);
        }
    }
}
