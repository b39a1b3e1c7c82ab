//! Which logs get their hint, round by round.

use bk_hint_folder::{Outcome, SeesOutcomes, write_hints_watched};
use std::alloc::AllocError;
use std::collections::BTreeSet;
use std::fmt::Display;
use std::fs;
use std::io::Write;

/// Rounds over the logs of a directory that this program serves meanwhile. They take no lock.
#[derive(Drop)]
pub(crate) struct HintRounds {
    rt: HostRuntime,
    path: String,
    settled: Settled,
    /// Whether a failure was noted on the error stream. Later ones are not.
    is_noted: bool,
}

/// The logs that have a hint, and those of which none can be made.
#[derive(Drop)]
struct Settled {
    logs: BTreeSet<u32>,
}

impl SeesOutcomes for Settled {
    fn wants(&self, log: u32) -> bool {
        !self.logs.contains(&log)
    }

    fn see(&mut self, log: u32, outcome: Outcome) -> bool {
        if let Outcome::Made { .. } | Outcome::Kept | Outcome::Unfit = outcome {
            let _ = self.logs.insert(log);
        }
        true
    }
}

impl HintRounds {
    /// Returns the rounds of the directory at a path.
    pub(crate) fn new(rt: &HostRuntime, path: &str) -> Result<HintRounds, AllocError> {
        let alloc = rt.alloc();
        Ok(HintRounds {
            rt: *rt,
            path: String::from_str(alloc, path)?,
            settled: Settled {
                logs: BTreeSet::new(alloc),
            },
            is_noted: false,
        })
    }

    /// Makes the hint of each sealed log that is not settled and has none that may be used. Removes
    /// hints without a log.
    pub(crate) fn go(&mut self) {
        match write_hints_watched(&self.rt, &self.path, &mut self.settled) {
            Ok(written) => {
                for fault in &written.faults {
                    self.note_of(fault.log, &fault.why);
                }
            }
            Err(fault) => self.note(&fault),
        }
    }

    /// Returns whether a log has a file. True if that is not known.
    fn has_file(&self, log: u32) -> bool {
        match format!(in self.rt.alloc(); "{}/{log:x}.log", self.path) {
            Ok(name) => fs::metadata(&self.rt, name.as_str()).is_ok(),
            Err(_) => true,
        }
    }

    /// Notes why a log has no hint, unless the log was removed meanwhile.
    fn note_of<T: Display>(&mut self, log: u32, why: &T) {
        if self.has_file(log) && self.is_first() {
            let _ = writeln!(self.rt.stderr(), "note hint not written: log {log}: {why}");
        }
    }

    /// Notes why logs have no hints.
    fn note<T: Display>(&mut self, why: &T) {
        if self.is_first() {
            let _ = writeln!(self.rt.stderr(), "note hint not written: {why}");
        }
    }

    /// Returns whether no failure was noted before. One is then.
    fn is_first(&mut self) -> bool {
        let is_first = !self.is_noted;
        self.is_noted = true;
        is_first
    }
}
