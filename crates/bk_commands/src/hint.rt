//! The command `hint`: makes the hints of a directory, or compares them with its logs.

ghost use Rattle.std.specs.Prelude.{◌≤◌};

use bk_cli::FolderCall;
use bk_cli::words::CHECK_HINTS;
use bk_hint_folder::{
    HintState, HintingFault, LogFault, Outcome, SeesOutcomes, SeesStates, Written, check_hints,
    write_hints_watched,
};
use bk_inspect::Form;
use bk_messages::{CommandFault, RowFault, end_early, write_row};
use serde::Serialize;
use std::alloc::{AllocError, Global};
use std::fmt;
use std::fmt::{Display, Formatter};
use std::io::Write;

/// Makes the hints of a directory, or compares them with its logs. Returns the program's status: 0, or
/// 1 with `fault TEXT` on the error stream if the directory or a log cannot be read or a hint not be
/// written; without it if nobody reads the output any more, or if a hint is not right.
pub(crate) fn run_hint<W: Write, E: Write>(
    rt: &HostRuntime,
    call: &FolderCall<'_>,
    writer: &mut W,
    errors: &mut E,
) -> u8
    ensures { result ≤ 1 }
{
    let mut shown = Shown::new(rt, call.form, writer, errors);
    let ended = if call.has(&CHECK_HINTS) {
        check_hints(rt, call.path, &mut shown)
    } else {
        match write_hints_watched(rt, call.path, &mut shown) {
            Ok(written) => {
                shown.sum(&written);
                Ok(())
            }
            Err(fault) => Err(fault),
        }
    };
    shown.end(ended)
}

/// The row of a hint that was made.
#[derive(Clone, Copy, Serialize)]
struct MadeRow {
    log: u32,
    bytes: u64,
}

impl Display for MadeRow {
    fn fmt<W: fmt::Write>(&self, f: &mut Formatter<W>) -> fmt::Result {
        write!(f, "{} bytes {}", self.log, self.bytes)
    }
}

/// The row of what was done.
#[derive(Clone, Copy, Serialize)]
struct SumRow {
    made: u64,
    kept: u64,
    unsealed: u64,
    unfit: u64,
    removed: u64,
}

impl Display for SumRow {
    fn fmt<W: fmt::Write>(&self, f: &mut Formatter<W>) -> fmt::Result {
        write!(
            f,
            "made {} kept {} unsealed {} unfit {} removed {}",
            self.made, self.kept, self.unsealed, self.unfit, self.removed
        )
    }
}

/// The row of a hint that was compared.
#[derive(Drop, Serialize)]
struct StateRow {
    log: u32,
    state: &'static str,
    #[serde(skip_serializing_if = "Option::is_none")]
    why: Option<String>,
}

impl Display for StateRow {
    fn fmt<W: fmt::Write>(&self, f: &mut Formatter<W>) -> fmt::Result {
        write!(f, "{} {}", self.log, self.state)?;
        match &self.why {
            Some(why) => write!(f, " {why}"),
            None => Ok(()),
        }
    }
}

impl StateRow {
    /// Returns the row of a log whose hint has this state.
    fn of(alloc: Global, log: u32, state: HintState) -> Result<StateRow, AllocError> {
        let (state, why) = match state {
            HintState::Right => ("right", None),
            HintState::Missing => ("none", None),
            HintState::Unsealed => ("unsealed", None),
            HintState::NoLog => ("no log", None),
            HintState::Wrong(wrong) => ("wrong", Some(wrong.to_string(alloc)?)),
        };
        Ok(StateRow { log, state, why })
    }
}

/// The row of a log that cannot be read, or whose hint cannot be written.
#[derive(Drop, Serialize)]
struct FaultRow {
    fault: &'static str,
    log: u32,
    reason: String,
}

impl Display for FaultRow {
    fn fmt<W: fmt::Write>(&self, f: &mut Formatter<W>) -> fmt::Result {
        write!(f, "fault log {}: {}", self.log, self.reason)
    }
}

/// Shows what is done, and keeps what the status depends on.
#[derive(Drop)]
struct Shown<'a, W: Write, E: Write> {
    alloc: Global,
    form: Form,
    writer: &'a mut W,
    errors: &'a mut E,
    /// Whether no log is at fault, and no hint is wrong.
    is_good: bool,
    /// Why a row was not written.
    unwritten: Option<RowFault>,
}

impl<'a, W: Write, E: Write> Shown<'a, W, E> {
    fn new(rt: &HostRuntime, form: Form, writer: &'a mut W, errors: &'a mut E) -> Self {
        Shown {
            alloc: rt.alloc(),
            form,
            writer,
            errors,
            is_good: true,
            unwritten: None,
        }
    }

    /// Writes a row, and flushes: the next one may take long. Returns whether that was possible.
    fn write<R: Display + Serialize>(&mut self, row: &R) -> bool {
        match write_flushed(self.alloc, self.form, row, self.writer) {
            Ok(()) => true,
            Err(fault) => {
                self.unwritten = Some(fault);
                false
            }
        }
    }

    /// Writes the sums.
    fn sum(&mut self, written: &Written) {
        let _ = self.write(&SumRow {
            made: written.made,
            kept: written.kept,
            unsealed: written.unsealed,
            unfit: written.unfit,
            removed: written.orphans,
        });
    }

    /// Reports a log that is at fault.
    fn tell(&mut self, fault: &LogFault) {
        self.is_good = false;
        if let Ok(reason) = fault.why.to_string(self.alloc) {
            let row = FaultRow {
                fault: "log",
                log: fault.log,
                reason,
            };
            let _ = write_row(self.alloc, self.form, &row, self.errors);
        }
    }

    /// Reports why the command ended early, if it did. Returns the status.
    fn end(self, ended: Result<(), HintingFault>) -> u8
        ensures { result ≤ 1 }
    {
        let fault = match (ended, self.unwritten) {
            (Err(HintingFault::Folder(fault)), _) => CommandFault::Folder(fault),
            (Ok(()), Some(fault)) => CommandFault::from(fault),
            (Ok(()), None) if self.is_good => return 0,
            (Ok(()), None) => return 1,
        };
        end_early(self.alloc, self.form, &fault, &None, self.errors);
        1
    }
}

impl<W: Write, E: Write> SeesOutcomes for Shown<'_, W, E> {
    fn see(&mut self, log: u32, outcome: Outcome) -> bool {
        match outcome {
            Outcome::Made { bytes } => self.write(&MadeRow { log, bytes }),
            _ => true,
        }
    }

    fn fail(&mut self, fault: &LogFault) {
        self.tell(fault)
    }
}

impl<W: Write, E: Write> SeesStates for Shown<'_, W, E> {
    fn see(&mut self, log: u32, state: HintState) -> bool {
        if matches!(state, HintState::Wrong(_)) {
            self.is_good = false;
        }
        match StateRow::of(self.alloc, log, state) {
            Ok(row) => self.write(&row),
            Err(_) => {
                self.unwritten = Some(RowFault::Memory);
                false
            }
        }
    }

    fn fail(&mut self, fault: &LogFault) {
        self.tell(fault)
    }
}

/// Writes a row and flushes.
fn write_flushed<R: Display + Serialize, W: Write>(
    alloc: Global,
    form: Form,
    row: &R,
    writer: &mut W,
) -> Result<(), RowFault> {
    write_row(alloc, form, row, writer)?;
    writer.flush()?;
    Ok(())
}
