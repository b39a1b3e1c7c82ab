//! Makes the hints of the sealed logs of a directory.

use crate::names::Names;
use crate::{HintingFault, LogFault, LogReason, Outcome, hint_log};
use bk_disk::{DirDisk, DiskFault, FaultWatch, LogDisk, Operation};
use bk_hint_disk::{DirHints, Hints};
use std::alloc::{AllocError, Global};
use std::fs::{self, Metadata};
use std::io::{self, ErrorKind};
use std::os::unix::fs::MetadataExt;

/// What was done about the hints of a directory.
#[derive(Debug, Drop)]
pub struct Written {
    /// The number of logs whose hint was made.
    pub made: u64,
    /// The number of logs whose hint was kept.
    pub kept: u64,
    /// The number of logs that are not sealed.
    pub unsealed: u64,
    /// The number of sealed logs of which no hint can be made.
    pub unfit: u64,
    /// The number of hints without a log that were removed.
    pub orphans: u64,
    /// The logs that could not be read, or whose hint could not be written, rising.
    pub faults: Vec<LogFault>,
}

/// Sees what is done about the hints of a directory, log by log.
pub trait SeesOutcomes {
    /// Returns whether the hint of a log is to be made if it is missing. Other logs are not opened.
    fn wants(&self, _log: u32) -> bool {
        true
    }

    /// Is called with what was done about the hint of a log. Returns whether to go on.
    fn see(&mut self, log: u32, outcome: Outcome) -> bool;

    /// Is called with the fault of a log.
    fn fail(&mut self, _fault: &LogFault) {}
}

/// Sees nothing.
#[derive(Clone, Copy)]
struct Blind;

impl SeesOutcomes for Blind {
    fn see(&mut self, _log: u32, _outcome: Outcome) -> bool {
        true
    }
}

/// Makes the hint of each sealed log of the directory at a path that has none that may be used, as the
/// file `1f.hint` of log 31. Removes hints of logs that do not exist. A log that cannot be read, or
/// that a failed sync set aside, is among the faults, and the next one is taken.
///
/// Takes no lock, so a bookie may work in the directory. A sealed log does not change, and one that is
/// not sealed gets no hint. If a log is removed or replaced meanwhile, the hint is removed again; a hint
/// that is left is dropped before the id is used again, and what a hint lists is used only if it fits
/// the log. The log is synced before its hint is written. A sync that fails sets the log aside, as
/// `DirDisk` does.
///
/// # Errors
///
/// - `Folder` if the directory cannot be opened or listed, or memory for the reports is refused.
pub fn write_hints(rt: &HostRuntime, path: &str) -> Result<Written, HintingFault> {
    write_hints_watched(rt, path, &mut Blind)
}

/// Does what `write_hints` does for the logs that are wanted, and shows each. Ends early if this is
/// asked for.
///
/// # Errors
///
/// Those of `write_hints`.
pub fn write_hints_watched<S: SeesOutcomes>(
    rt: &HostRuntime,
    path: &str,
    sees: &mut S,
) -> Result<Written, HintingFault> {
    let mut writing = Writing::open(rt, path)?;
    let names = Names::of(rt, path)?;
    for log in &names.logs {
        if sees.wants(*log) && !writing.take(*log, names.is_aside(*log), sees)? {
            return Ok(writing.written);
        }
    }
    writing.drop_orphans(&names)?;
    Ok(writing.written)
}

/// A directory whose hints are made.
#[derive(Drop)]
struct Writing {
    rt: HostRuntime,
    path: String,
    disk: DirDisk,
    hints: DirHints,
    watch: FaultWatch,
    written: Written,
}

impl Writing {
    /// Opens the directory at a path.
    fn open(rt: &HostRuntime, path: &str) -> Result<Writing, HintingFault> {
        let alloc = rt.alloc();
        let disk = DirDisk::open_to_read(rt, path)?;
        let watch = disk.fault_watch(alloc)?;
        Ok(Writing {
            rt: *rt,
            path: String::from_str(alloc, path)?,
            disk,
            hints: DirHints::new(rt, path)?,
            watch,
            written: Written {
                made: 0,
                kept: 0,
                unsealed: 0,
                unfit: 0,
                orphans: 0,
                faults: Vec::new(alloc),
            },
        })
    }

    /// Makes the hint of a log, unless it is set aside. Returns whether to go on.
    fn take<S: SeesOutcomes>(
        &mut self,
        log: u32,
        is_aside: bool,
        sees: &mut S,
    ) -> Result<bool, AllocError> {
        let alloc = self.rt.alloc();
        let answer = if is_aside {
            Err(LogReason::Aside)
        } else {
            self.hint(alloc, log)?
        };
        match answer {
            Ok(outcome) => {
                self.written.count(outcome);
                Ok(sees.see(log, outcome))
            }
            Err(why) => {
                let fault = LogFault { log, why };
                sees.fail(&fault);
                self.written.faults.push(fault)?;
                Ok(true)
            }
        }
    }

    /// Makes the hint of a log. Removes it again if the log was removed or replaced meanwhile, or if
    /// this is not known.
    fn hint(&mut self, alloc: Global, log: u32) -> Result<Result<Outcome, LogReason>, AllocError> {
        let file = format!(in alloc; "{}/{log:x}.log", self.path)?;
        let before = fs::metadata(&self.rt, file.as_str());
        match hint_log(alloc, &mut self.disk, &mut self.hints, log) {
            Ok(made @ Outcome::Made { .. }) => {
                let after = fs::metadata(&self.rt, file.as_str());
                Ok(self.keep(log, file, made, is_same(before, after)))
            }
            Ok(outcome) => Ok(Ok(outcome)),
            Err(fault) => {
                let refused = self.hints.refused();
                let why = LogReason::of(alloc, fault, &self.watch, refused)?;
                Ok(Err(why))
            }
        }
    }

    /// Keeps the hint that was made of a log if its file is the same as before, else removes it.
    fn keep(
        &mut self,
        log: u32,
        path: String,
        made: Outcome,
        is_same: io::Result<bool>,
    ) -> Result<Outcome, LogReason> {
        if let Ok(true) = is_same {
            return Ok(made);
        }
        let _ = self.hints.drop_hint(self.rt.alloc(), log);
        match is_same {
            Ok(_) => Ok(Outcome::NoLog),
            Err(reason) => Err(LogReason::Refused {
                path,
                operation: Operation::Open,
                reason,
            }),
        }
    }

    /// Removes the hints of logs that do not exist.
    fn drop_orphans(&mut self, names: &Names) -> Result<(), AllocError> {
        let alloc = self.rt.alloc();
        for log in &names.hints {
            if self.is_missing(alloc, *log) && self.hints.drop_hint(alloc, *log).is_ok() {
                self.written.orphans = self.written.orphans.saturating_add(1);
            }
        }
        for log in &names.torn {
            if self.is_missing(alloc, *log) {
                let file = format!(in alloc; "{}/{log:x}.hint.new", self.path)?;
                if fs::remove_file(&self.rt, file.as_str()).is_ok() {
                    self.written.orphans = self.written.orphans.saturating_add(1);
                }
            }
        }
        Ok(())
    }

    /// Returns whether there is no such log.
    fn is_missing(&mut self, alloc: Global, log: u32) -> bool {
        matches!(self.disk.length(alloc, log), Err(DiskFault::NoLog))
    }
}

impl Written {
    /// Counts what was done about a log.
    fn count(&mut self, outcome: Outcome) {
        let counter = match outcome {
            Outcome::Made { .. } => &mut self.made,
            Outcome::Kept => &mut self.kept,
            Outcome::Unsealed => &mut self.unsealed,
            Outcome::Unfit => &mut self.unfit,
            Outcome::NoLog => return,
        };
        *counter = counter.saturating_add(1);
    }
}

/// Returns whether a name led to the same file of the same length twice.
fn is_same(before: io::Result<Metadata>, after: io::Result<Metadata>) -> io::Result<bool> {
    match (found(before)?, found(after)?) {
        (Some(before), Some(after)) => Ok(
            before.dev() == after.dev()
                && before.ino() == after.ino()
                && before.len() == after.len(),
        ),
        _ => Ok(false),
    }
}

/// Returns what a name leads to, `None` if it leads to nothing.
fn found(looked_up: io::Result<Metadata>) -> io::Result<Option<Metadata>> {
    match looked_up {
        Ok(found) => Ok(Some(found)),
        Err(error) if error.kind() == ErrorKind::NotFound => Ok(None),
        Err(error) => Err(error),
    }
}
