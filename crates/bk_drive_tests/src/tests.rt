//! Tests that a scenario cannot express: steps that depend on an answer, calls of the store between
//! steps, and leases that a caller holds. Other runs are files of `bk_scenarios`.
//!
//! Bytes and numbers are written by hand. Logs are short: at most two records of 500 bytes.

use bk_disk::{FaultDisk, LogDisk, MemDisk};
use bk_drive::{
    Answer, BeginAnswer, CloseAnswer, CollectFault, CopyAnswer, DeleteFault, EndAnswer,
    FinishAnswer, Lease, OpenFault, PublishAnswer, RemoveAnswer, RetireAnswer, RollAnswer,
    Settings, StepFault, Store, SwapAnswer, SwitchAnswer, TakeFault, Work, WriteAnswer, apply,
};
use bk_record::{Key, Location};
use bk_store::Taken;
use std::alloc::Global;
use std::process::Abort;

mod calls;
mod compaction_series;
mod disks;
mod leasing;
mod life;
mod logs;
mod lost;
mod tally;
mod using;

/// Settings of these tests.
const SETTINGS: Settings = Settings {
    log_limit: 2048,
    cache_limit: 16_777_216,
    recent: 0,
    slots: 2,
    leases: 4,
    minor: 200,
    major: 800,
};

/// An answer as a word and a number, 0 if it has none.
type Told = (&'static str, u64);

/// The error of a device call that failed.
const DISK: Told = ("disk", 0);

/// Any other error.
const OTHER: Told = ("another fault", 0);

fn told(answer: &Answer) -> Told {
    match answer {
        Answer::Swap(swapped) => told_of_swap(swapped),
        Answer::Write(written) => told_of_write(written),
        Answer::Publish(published) => told_of_publish(published),
        Answer::Roll(rolled) => told_of_roll(rolled),
        Answer::Retire(retired) => told_of_retire(retired),
        Answer::Rebuild(rebuilt) => told_of_rebuild(rebuilt),
        Answer::Close(closed) => told_of_close(closed),
        Answer::Remove(removed) => told_of_remove(removed),
        Answer::Begin(begun) => told_of_begin(begun),
        Answer::Copy(copied) => told_of_copy(copied),
        Answer::EndCopy(ended) => told_of_end(ended),
        Answer::Switch(switched) => told_of_switch(switched),
        Answer::Finish(finished) => told_of_finish(finished),
        _ => OTHER,
    }
}

fn told_of_fault(fault: &StepFault) -> Told {
    match fault {
        StepFault::Disk => DISK,
        StepFault::LogsFull => ("logs full", 0),
        _ => OTHER,
    }
}

fn told_of_swap(swapped: &SwapAnswer) -> Told {
    match swapped {
        SwapAnswer::Running => ("running", 0),
        SwapAnswer::Nothing => ("nothing", 0),
        SwapAnswer::Swapped(entries) => ("swapped", *entries),
    }
}

fn told_of_write(written: &Result<WriteAnswer, StepFault>) -> Told {
    match written {
        Ok(WriteAnswer::NoFlush) => ("no flush", 0),
        Ok(WriteAnswer::AllWritten) => ("all written", 0),
        Ok(WriteAnswer::Wrote(location)) => ("wrote", location.value()),
        Err(fault) => told_of_fault(fault),
    }
}

fn told_of_publish(published: &Result<PublishAnswer, StepFault>) -> Told {
    match published {
        Ok(PublishAnswer::NoFlush) => ("no flush", 0),
        Ok(PublishAnswer::NotAllWritten) => ("not all written", 0),
        Ok(PublishAnswer::Published(entries)) => ("published", *entries),
        Err(fault) => told_of_fault(fault),
    }
}

fn told_of_roll(rolled: &Result<RollAnswer, StepFault>) -> Told {
    match rolled {
        Ok(RollAnswer::FlushRunning) => ("flush running", 0),
        Ok(RollAnswer::NothingOpen) => ("nothing open", 0),
        Ok(RollAnswer::Sealed(log)) => ("sealed", u64::from(*log)),
        Err(fault) => told_of_fault(fault),
    }
}

fn told_of_retire(retired: &RetireAnswer) -> Told {
    match retired {
        RetireAnswer::NoLog => ("no log", 0),
        RetireAnswer::InUse => ("in use", 0),
        RetireAnswer::Retired(log) => ("retired", u64::from(*log)),
        RetireAnswer::StillNamed(keys) => ("still named", *keys),
    }
}

fn told_of_rebuild(rebuilt: &Result<u64, CollectFault>) -> Told {
    match rebuilt {
        Ok(keys) => ("rebuilt", *keys),
        Err(CollectFault::Disk) => DISK,
        Err(_) => OTHER,
    }
}

fn told_of_remove(removed: &Result<RemoveAnswer, CollectFault>) -> Told {
    match removed {
        Ok(RemoveAnswer::NoLog) => ("no log", 0),
        Ok(RemoveAnswer::NotClosed) => ("not closed", 0),
        Ok(RemoveAnswer::Removed) => ("removed", 0),
        Err(CollectFault::Disk) => DISK,
        Err(_) => OTHER,
    }
}

fn told_of_begin(begun: &Result<BeginAnswer, StepFault>) -> Told {
    match begun {
        Ok(BeginAnswer::JobRunning) => ("job running", 0),
        Ok(BeginAnswer::NothingToDo) => ("nothing to do", 0),
        Ok(BeginAnswer::Chosen(log)) => ("chosen", u64::from(*log)),
        Err(fault) => told_of_fault(fault),
    }
}

fn told_of_copy(copied: &Result<CopyAnswer, StepFault>) -> Told {
    match copied {
        Ok(CopyAnswer::NoJob) => ("no job", 0),
        Ok(CopyAnswer::NotNow) => ("not now", 0),
        Ok(CopyAnswer::AtEnd) => ("at end", 0),
        Ok(CopyAnswer::Copied(entries)) => ("copied", *entries),
        Err(fault) => told_of_fault(fault),
    }
}

fn told_of_end(ended: &Result<EndAnswer, StepFault>) -> Told {
    match ended {
        Ok(EndAnswer::NoJob) => ("no job", 0),
        Ok(EndAnswer::NotNow) => ("not now", 0),
        Ok(EndAnswer::NotAtEnd) => ("not at end", 0),
        Ok(EndAnswer::Ended(moves)) => ("ended", *moves),
        Err(fault) => told_of_fault(fault),
    }
}

/// The number of a switch is the number of keys switched, plus 100 for each move that remains.
fn told_of_switch(switched: &SwitchAnswer) -> Told {
    match switched {
        SwitchAnswer::NoJob => ("no job", 0),
        SwitchAnswer::NotNow => ("not now", 0),
        SwitchAnswer::Moved(moved, left) => (
            "moved",
            left.saturating_mul(100).saturating_add(*moved),
        ),
    }
}

fn told_of_finish(finished: &FinishAnswer) -> Told {
    match finished {
        FinishAnswer::NoJob => ("no job", 0),
        FinishAnswer::NotNow => ("not now", 0),
        FinishAnswer::Left(moves) => ("left", *moves),
        FinishAnswer::StillNamed(keys) => ("still named", *keys),
        FinishAnswer::Retired(log) => ("retired", u64::from(*log)),
    }
}

fn told_of_close(closed: &CloseAnswer) -> Told {
    match closed {
        CloseAnswer::NoLog => ("no log", 0),
        CloseAnswer::NotRetired => ("not retired", 0),
        CloseAnswer::Closed => ("closed", 0),
        CloseAnswer::Leased(leases) => ("leases", *leases),
    }
}

/// A disk of which one call may fail.
type Disk = FaultDisk<MemDisk>;

/// A lease of one of its logs, and the location of the entry.
type Leased = (Lease<<Disk as LogDisk>::View>, Location);

fn opened(
    alloc: Global,
    disk: Disk,
    settings: Settings,
    dead: &[u64],
) -> Result<Store<Disk>, OpenFault> {
    Store::open(alloc, disk, settings, dead)
}

/// Performs a step and returns its answer.
fn worked(store: &mut Store<Disk>, work: Work) -> Told {
    told(&applied(store, work))
}

fn applied(store: &mut Store<Disk>, work: Work) -> Answer {
    apply(store, work)
}

fn deleted(store: &mut Store<Disk>, ledger: u64) -> Told {
    match store.delete(ledger) {
        Ok(keys) => ("dropped", keys),
        Err(DeleteFault::AlreadyDeleted) => ("already deleted", 0),
        Err(DeleteFault::Memory) => OTHER,
    }
}

/// Takes a lease on an entry, or tells why there is none.
fn lend(store: &mut Store<Disk>, key: Key) -> Result<Leased, Told> {
    match store.take(key) {
        Ok(Taken::Leased(lease, location)) => Ok((lease, location)),
        Ok(_) => Err(("not leased", 0)),
        Err(TakeFault::TooMany) => Err(("too many leases", 0)),
        Err(TakeFault::Memory | TakeFault::NoSeat) => Err(OTHER),
    }
}

/// Fails the test if a run went wrong: at this call, counted from 1, or at 0 before the first.
fn pass(rt: &impl Abort, run: &str, wrong: Option<usize>) {
    if let Some(call) = wrong {
        panic!(rt; "{run}: call {call}");
    }
}
