//! The keeper of a load: it requests flushes, compacts logs and removes those that are unused.

ghost use Rattle.std.specs.Prelude.{◌≡◌, ◌+◌, ◌^◌, ◌-◌, min, if◌then◌else◌};
ghost use Rattle.bk_bookie.specs.Works.{is_failed};

use crate::caller::Shared;
use bk_bookie::{AddLedger, Bookie, is_fault};
use bk_disk::LogDisk;
use bk_drive::{
    Answer, BeginAnswer, CopyAnswer, FinishAnswer, Kind, RemoveAnswer, RollAnswer, SwitchAnswer,
    Work, WriteAnswer,
};
use crossbeam_channel::Sender;
use std::io::Write;
use std::rt::Clock;
use std::sync::Wait;
use std::sync::atomic::Ordering;
use std::thread;
use std::time::Duration;

/// Number of entries that one step of a compaction examines.
const STRIDE: u64 = 64;

/// Largest number of writes requested for one flush.
const MOST_WRITES: u64 = 100_000;

/// Number of adds between two checks of the logs.
const PAUSE: u64 = 2000;

/// Number of flushes completed before a log is sealed.
const PATIENCE: u32 = 8;

/// One in this many idle rounds requests a flush.
const IDLE: u64 = 64;

/// Number of milliseconds to wait after a write that failed.
const REST: u64 = 100;

/// What a keeper has done, and the range of log ids that may exist.
#[derive(Drop)]
pub(crate) struct Keeper {
    pub compacted: u64,
    pub removed: u64,
    /// Number of its steps that failed.
    pub faults: u64,
    lowest: u32,
    highest: u32,
}

impl Keeper {
    /// Returns a keeper that has done nothing.
    pub fn new() -> Keeper {
        Keeper {
            compacted: 0,
            removed: 0,
            faults: 0,
            lowest: 0,
            highest: 0,
        }
    }

    /// Keeps the logs until all callers have ended. Requests a flush if entries were added; from
    /// time to time compacts a log and removes unused ones.
    pub fn run<R: Wait + Clock, L: AddLedger, D: LogDisk, W: Write>(
        &mut self,
        rt: &R,
        bookie: &Bookie<L, D>,
        works: &Sender<Work>,
        shared: &Shared,
        progress: &mut Option<W>,
    ) {
        let mut written = 0;
        let mut looked = 0;
        let mut told = 0;
        for round in 0..u64::MAX {
            let is_over = shared.is_over.load(Ordering::SeqCst);
            let adds = shared.adds.load(Ordering::SeqCst);
            if is_over || adds != written || round % IDLE == 0 {
                if self.flush(rt, bookie, works, adds.saturating_sub(written)) {
                    written = adds;
                }
            }
            if adds.saturating_sub(looked) >= PAUSE {
                looked = adds;
                self.compact(rt, bookie, kind_of(adds / PAUSE));
                self.remove_all(rt, bookie);
            }
            told = tell(rt, shared, adds, told, progress);
            if is_over {
                break;
            }
            thread::yield_now();
        }
        end_telling(told, progress);
    }

    /// Compacts and removes what remains after the callers have ended.
    pub fn settle<R: Wait, L: AddLedger, D: LogDisk>(&mut self, rt: &R, bookie: &Bookie<L, D>) {
        for _ in 0..u32::MAX {
            let before = self.compacted;
            self.compact(rt, bookie, Kind::Major);
            if self.compacted == before {
                break;
            }
        }
        self.remove_all(rt, bookie);
    }

    /// Seals the current log and compacts one log, if one qualifies.
    fn compact<R: Wait, L: AddLedger, D: LogDisk>(
        &mut self,
        rt: &R,
        bookie: &Bookie<L, D>,
        kind: Kind,
    ) {
        if let Some(log) = self.roll(rt, bookie) {
            self.highest = self.highest.max(log);
        }
        let begun = self.step(rt, bookie, Work::Begin(kind));
        let Answer::Begin(Ok(BeginAnswer::Chosen(log))) = begun else {
            return;
        };
        self.highest = self.highest.max(log);
        self.copy_all(rt, bookie);
        self.switch_all(rt, bookie);
        if self.is_finished(rt, bookie) {
            self.compacted = self.compacted.saturating_add(1);
        }
    }

    /// Removes each log that no index entry references and no reader leases.
    fn remove_all<R: Wait, L: AddLedger, D: LogDisk>(&mut self, rt: &R, bookie: &Bookie<L, D>) {
        for log in self.lowest..=self.highest {
            let _ = self.step(rt, bookie, Work::Retire(log));
            let _ = self.step(rt, bookie, Work::Close(log));
            let is_gone = match self.step(rt, bookie, Work::Remove(log)) {
                Answer::Remove(Ok(RemoveAnswer::Removed)) => {
                    self.removed = self.removed.saturating_add(1);
                    true
                }
                Answer::Remove(Ok(RemoveAnswer::NoLog)) => true,
                _ => false,
            };
            if is_gone && log == self.lowest {
                self.lowest = log.saturating_add(1);
            }
        }
    }

    /// Performs a step, and counts it if it fails.
    fn step<R: Wait, L: AddLedger, D: LogDisk>(
        &mut self,
        rt: &R,
        bookie: &Bookie<L, D>,
        work: Work,
    ) -> Answer
        ensures { self.new.faults ≡ min (self.old.faults + (if is_failed result then 1 else 0)) (2 ^ 64 - 1) }
    {
        let answer = bookie.step(rt, work);
        self.count(&answer);
        answer
    }

    /// Counts a step if it failed. The count saturates at 2^64 - 1.
    fn count(&mut self, answer: &Answer)
        ensures { self.new.faults ≡ min (self.old.faults + (if is_failed answer.now then 1 else 0)) (2 ^ 64 - 1) }
    {
        self.faults = self.faults.saturating_add(u64::from(is_fault(answer)));
    }

    /// Completes a running flush, then flushes what is in memory.
    pub fn flush_all<R: Wait, L: AddLedger, D: LogDisk>(&mut self, rt: &R, bookie: &Bookie<L, D>) {
        self.end_flush(rt, bookie);
        let _ = self.step(rt, bookie, Work::Swap);
        self.end_flush(rt, bookie);
    }

    /// Completes a running flush.
    fn end_flush<R: Wait, L: AddLedger, D: LogDisk>(&mut self, rt: &R, bookie: &Bookie<L, D>) {
        for _ in 0..u64::MAX {
            match self.step(rt, bookie, Work::WriteOne) {
                Answer::Write(Ok(WriteAnswer::Wrote(_))) => {}
                _ => break,
            }
        }
        let _ = self.step(rt, bookie, Work::Publish);
    }

    /// Copies the referenced entries of the source log and ends the copy.
    fn copy_all<R: Wait, L: AddLedger, D: LogDisk>(&mut self, rt: &R, bookie: &Bookie<L, D>) {
        for _ in 0..u32::MAX {
            match self.step(rt, bookie, Work::Copy(STRIDE)) {
                Answer::Copy(Ok(CopyAnswer::Copied(_))) => {}
                _ => break,
            }
        }
        let _ = self.step(rt, bookie, Work::EndCopy);
    }

    /// Switches the index to the copies.
    fn switch_all<R: Wait, L: AddLedger, D: LogDisk>(&mut self, rt: &R, bookie: &Bookie<L, D>) {
        for _ in 0..u32::MAX {
            match self.step(rt, bookie, Work::Switch(STRIDE)) {
                Answer::Switch(SwitchAnswer::Moved(_, left)) if left > 0 => {}
                _ => break,
            }
        }
    }

    /// Finishes a compaction or gives it up. Returns whether the source log is unreferenced.
    fn is_finished<R: Wait, L: AddLedger, D: LogDisk>(
        &mut self,
        rt: &R,
        bookie: &Bookie<L, D>,
    ) -> bool {
        match self.step(rt, bookie, Work::Finish) {
            Answer::Finish(FinishAnswer::Retired(_)) => true,
            _ => {
                let _ = self.step(rt, bookie, Work::GiveUp);
                false
            }
        }
    }

    /// Seals the current log. Returns `None` if there is none or flushes keep running.
    fn roll<R: Wait, L: AddLedger, D: LogDisk>(
        &mut self,
        rt: &R,
        bookie: &Bookie<L, D>,
    ) -> Option<u32> {
        for _ in 0..PATIENCE {
            match self.step(rt, bookie, Work::Roll) {
                Answer::Roll(Ok(RollAnswer::Sealed(log))) => return Some(log),
                Answer::Roll(Ok(RollAnswer::FlushRunning)) => self.end_flush(rt, bookie),
                _ => return None,
            }
        }
        None
    }

    /// Begins a flush, writes its first entry, and requests the writes of this many entries and
    /// some more. If the first write fails, waits, so that a full disk is not tried over and over.
    /// Returns whether the writes are requested.
    fn flush<R: Wait + Clock, L: AddLedger, D: LogDisk>(
        &mut self,
        rt: &R,
        bookie: &Bookie<L, D>,
        works: &Sender<Work>,
        entries: u64,
    ) -> bool {
        let _ = self.step(rt, bookie, Work::Swap);
        if let Answer::Write(Err(_)) = self.step(rt, bookie, Work::WriteOne) {
            thread::sleep(rt, Duration::from_millis(REST));
            return false;
        }
        for _ in 0..entries.min(MOST_WRITES) + 16 {
            ask(rt, works, Work::WriteOne);
        }
        ask(rt, works, Work::Publish);
        true
    }
}

/// Returns minor and major compactions alternately.
fn kind_of(turn: u64) -> Kind {
    if turn % 2 == 0 {
        Kind::Minor
    } else {
        Kind::Major
    }
}

/// Sends a step to the workers. Does nothing if the channel is closed.
fn ask<R: Wait>(rt: &R, works: &Sender<Work>, work: Work) {
    let _ = works.send(rt, work);
}

/// Clears the progress line.
fn end_telling<W: Write>(told: u64, progress: &mut Option<W>) {
    if let Some(writer) = progress
        && told > 0
    {
        let _ = write!(writer, "\r\x1b[K");
        let _ = writer.flush();
    }
}

/// Prints the progress once a second. Returns the second printed last.
fn tell<R: Clock, W: Write>(
    rt: &R,
    shared: &Shared,
    adds: u64,
    told: u64,
    progress: &mut Option<W>,
) -> u64 {
    let (Some(writer), Ok(elapsed)) = (progress, shared.start.elapsed(rt)) else {
        return told;
    };
    if elapsed.as_secs() > told {
        let _ = write!(writer, "\r\x1b[K{} s, {adds} adds", elapsed.as_secs());
        let _ = writer.flush();
    }
    elapsed.as_secs()
}
