//! The result of a life call by call: what failed, what was refused, and what was wrong.

use super::life::{Call, Log, Row, Want};
use super::{DISK, OTHER, Told};
use bk_drive::Work;

/// Result of a run: the call that failed with `Disk`, the number of other refusals, the first call
/// with a wrong answer, and the logs of the compaction.
#[derive(Clone, Copy)]
pub(super) struct Tally {
    pub(super) failed: &'static str,
    pub(super) refused: u32,
    pub(super) wrong: &'static str,
    pub(super) source: u32,
    pub(super) copy: u32,
    /// Whether the last flush is published.
    pub(super) is_published: bool,
}

pub(super) const START: Tally = Tally {
    failed: "none",
    refused: 0,
    wrong: "none",
    source: 0,
    copy: 0,
    is_published: false,
};

/// Returns the log with the number that an answer tells.
fn log_of(number: u64) -> u32 {
    u32::try_from(number).unwrap_or(u32::MAX)
}

impl Tally {
    /// Records a call with a wrong answer.
    pub(super) fn check(&mut self, name: &'static str, is_told: bool) {
        if !is_told && self.wrong == "none" {
            self.wrong = name;
        }
    }

    /// Records a call that failed with `Disk`. Only one may fail.
    fn note_failure(&mut self, name: &'static str) {
        let is_first = self.failed == "none";
        self.check(name, is_first);
        self.failed = name;
    }

    /// Records whether a call was refused, and returns it.
    fn is_refused(&mut self, name: &'static str, told: Told) -> bool {
        if told == DISK {
            self.note_failure(name);
            return true;
        }
        if told == OTHER {
            self.refused = self.refused.saturating_add(1);
            return true;
        }
        false
    }

    /// Records what an answer tells of the flush and of the logs of the compaction.
    fn learn(&mut self, told: Told) {
        match told {
            ("swapped", _) => self.is_published = false,
            ("published", _) => self.is_published = true,
            ("chosen", log) => self.source = log_of(log),
            ("copies to", log) => self.copy = log_of(log),
            _ => {}
        }
    }

    fn is_wanted(&self, want: Want, told: Told) -> bool {
        match want {
            Want::Is(word, number) => told == (word, number),
            Want::Word(word) => told.0 == word,
            Want::Either(word, other) => told.0 == word || told.0 == other,
            Want::Digits(word, digits) => told.0 == word && told.1 % 100 == digits,
            Want::Source(word) => told == (word, u64::from(self.source)),
        }
    }

    /// Records the answer of a call. Returns whether the call was refused.
    pub(super) fn note(&mut self, row: &Row, told: Told) -> bool {
        let Row(name, _, want, _) = *row;
        if self.is_refused(name, told) {
            return true;
        }
        self.learn(told);
        let is_told = self.is_wanted(want, told);
        self.check(name, is_told);
        false
    }

    fn log(&self, log: Log) -> u32 {
        match log {
            Log::Source => self.source,
            Log::Copy => self.copy,
        }
    }

    /// Returns the step of a call that is one.
    pub(super) fn step_of(&self, call: Call) -> Option<Work> {
        match call {
            Call::Do(work) => Some(work),
            Call::Retire(log) => Some(Work::Retire(self.log(log))),
            Call::Close(log) => Some(Work::Close(self.log(log))),
            Call::Remove(log) => Some(Work::Remove(self.log(log))),
            _ => None,
        }
    }
}
