//! The job of a running compaction: which log is copied where, how far, and which relocations are
//! pending.
//!
//! The store keeps the job between the calls of a compaction. A call takes it out, and then gives
//! it back or ends the compaction.

ghost use Rattle.std.specs.Prelude.{◌≡◌, List, [], ◌∷◌, ◌++◌, length, OnOk, OnErr, IfNone, IfSome};
ghost use Rattle.bk_store.specs.Jobs.{Job as JobState, new_job, waits_from, with_move, with_rebuild};
ghost use Rattle.bk_store.specs.declared.job.Move.{Move as JobMove};
ghost use Rattle.bk_store.specs.declared.job.Phase.TheVariants.{Switch};

use bk_record::{HEADER_LENGTH, Key, Location};
use std::alloc::{AllocError, Global};
use std::marker::Model;

/// Phase of a compaction.
#[derive(Clone, Copy, Debug, PartialEq, Eq)]
pub enum Phase {
    /// Entries of the source log are examined and copied.
    Copy,
    /// The target log is sealed and published; index entries are switched to it.
    Switch,
}

/// Relocation of one entry: its key, where the index pointed to, and the location of its copy.
#[derive(Clone, Copy, Debug, PartialEq, Eq)]
pub struct Move {
    pub key: Key,
    pub from: Location,
    pub to: Location,
}

/// A compaction of the log `source` into the log `copy`. `moves` has the relocations, of which the
/// first `taken` are done.
#[derive(Drop)]
pub struct Job {
    source: u32,
    copy: u32,
    at: u64,
    phase: Phase,
    moves: Vec<Move>,
    taken: usize,
    rebuilt: bool,
}

/// The job of a compaction while a call works on it. It has no `Drop`, so code that loses one does
/// not compile. Give it back with `set_job`, or end the compaction.
pub struct TakenJob {
    pub job: Job,
}

impl TakenJob {
    /// Ends the compaction and drops its job.
    pub fn end(self) {
        let TakenJob { job } = self;
        drop(job);
    }
}

impl Model for Job {
    ghost use Rattle.std.specs.Prelude.{◌≤◌, drop, length};
    ghost use Rattle.bk_store.specs.Jobs.{Job as JobState, job_code};

    ghost Value = { JobState };

    ghost coded = { job_code };

    ghost view = { λ job. record {
      source = job.source;
      copy = job.copy;
      at = job.at;
      phase = job.phase;
      moves = drop job.taken job.moves.items;
      rebuilt = job.rebuilt;
    } };

    ghost invariant = { λ job. job.taken ≤ length job.moves.items };
}

impl Job {
    /// Returns a job that has examined nothing.
    pub fn new(alloc: Global, source: u32, copy: u32) -> Job
        ensures { result ≡ new_job source copy }
    {
        Job {
            source,
            copy,
            at: HEADER_LENGTH as u64,
            phase: Phase::Copy,
            moves: Vec::new(alloc),
            taken: 0,
            rebuilt: false,
        }
    }

    /// Returns the source log.
    pub fn source(&self) -> u32
        ensures { result ≡ self.now.source }
    {
        self.source
    }

    /// Returns the target log.
    pub fn copy(&self) -> u32
        ensures { result ≡ self.now.copy }
    {
        self.copy
    }

    /// Returns the position in the source log after the last examined record.
    pub fn at(&self) -> u64
        ensures { result ≡ self.now.at }
    {
        self.at
    }

    /// Returns the phase.
    pub fn phase(&self) -> Phase
        ensures { result ≡ self.now.phase }
    {
        self.phase
    }

    /// Returns the number of pending relocations.
    pub fn left(&self) -> u64
        ensures { result ≡ length self.now.moves }
    {
        (self.moves.len() - self.taken) as u64
    }

    /// Notes that all records before this position of the source log were examined.
    pub fn go_to(&mut self, at: u64)
        ensures { self.new ≡ record self.old { at = at } }
    {
        self.at = at;
    }

    /// Notes a relocation. Fails only if out of memory, which leaves the job unchanged.
    pub fn note(&mut self, copied: Move) -> Result<(), AllocError>
        ensures ok { OnOk result (self.new ≡ with_move self.old copied) }
        ensures err { OnErr result (self.new ≡ self.old) }
    {
        self.moves.push(copied)?;
        Ok(())
    }

    /// Removes the relocation that was noted last.
    pub fn take_back(&mut self)
        ensures { (earlier : JobState) (copied : JobMove) → self.old ≡ with_move earlier copied → self.new ≡ earlier }
    {
        if self.taken < self.moves.len() {
            self.moves.pop();
        }
    }

    /// Begins the switch phase: all entries were copied.
    pub fn begin_switch(&mut self)
        ensures { self.new ≡ record self.old { phase = Switch } }
    {
        self.phase = Phase::Switch;
    }

    /// Takes the oldest pending relocation.
    pub fn next_move(&mut self) -> Option<Move>
        ensures none { IfNone result ((self.old.moves ≡ []) × (self.new ≡ self.old)) }
        ensures some { IfSome result (λ first. waits_from self.old first self.new) }
    {
        let first = *self.moves.get(self.taken)?;
        self.taken += 1;
        Some(first)
    }

    /// Notes that the index was rebuilt.
    pub(crate) fn note_rebuild(&mut self)
        ensures { self.new ≡ with_rebuild self.old }
    {
        self.rebuilt = true;
    }
}
