//! The life of a store with a compaction, call by call, with each device call failing in turn and
//! with each allocation refused in turn.
//!
//! A refused call is made again. A compaction that a fault ended starts again. A refused roll is
//! not repeated, since no log is open then. If opening fails, the run ends.
//!
//! `life.rt` has the calls. The gate refuses each allocation in turn (`.ci/refusals.txt`).

use super::life::{Call, Part, Row, Rule, rows_of};
use super::logs::found;
use super::tally::{START, Tally};
use super::{Disk, Leased, OTHER, SETTINGS, Told, deleted, lend, opened, worked};
use bk_disk::FaultDisk;
use bk_drive::{Added, OpenFault, Settings, Store};
use bk_log::fetch;
use bk_record::{Key, key_of};
use std::alloc::Global;

/// Slots for all logs, with those that a fault leaves. A log with a live share below 400
/// thousandths is compacted.
const ROOM: Settings = Settings {
    slots: 9,
    minor: 400,
    ..SETTINGS
};

/// The ledgers that are deleted at the end.
const DEAD: [u64; 4] = [4, 6, 7, 2];

/// A store, the lease that is held, and the result of the run so far.
#[derive(Drop)]
struct Trial {
    alloc: Global,
    store: Store<Disk>,
    held: Option<Leased>,
    tally: Tally,
}

fn added(store: &mut Store<Disk>, payload: &[u8]) -> Told {
    match store.add(payload) {
        Ok(Added::Accepted(_)) => ("accepted", 0),
        Ok(_) => ("not accepted", 0),
        Err(_) => OTHER,
    }
}

/// Returns the target log of the running compaction.
fn target(store: &Store<Disk>) -> Told {
    match store.job() {
        Some(job) => ("copies to", u64::from(job.copy())),
        None => ("no job", 0),
    }
}

/// Reads by a lease the entry with this payload.
fn fetched(alloc: Global, leased: &Leased, key: Key, payload: &[u8]) -> Told {
    match fetch(leased.0.view(), alloc, leased.1, key) {
        Ok(read) if read.as_slice() == payload => ("read", 0),
        Ok(_) => ("other bytes", 0),
        Err(_) => OTHER,
    }
}

/// Takes a lease on the entry with this payload, and reads it.
fn read(alloc: Global, store: &mut Store<Disk>, payload: &[u8]) -> Told {
    let Ok(key) = key_of(payload) else {
        return ("no key", 0);
    };
    match lend(store, key) {
        Ok(leased) => fetched(alloc, &leased, key, payload),
        Err(told) => told,
    }
}

impl Trial {
    /// Takes a lease on the entry with this payload, and holds it.
    fn hold(&mut self, payload: &[u8]) -> Told {
        let Ok(key) = key_of(payload) else {
            return ("no key", 0);
        };
        match lend(&mut self.store, key) {
            Ok(leased) => {
                self.held = Some(leased);
                ("leased", 0)
            }
            Err(told) => told,
        }
    }

    /// Reads by the lease that is held.
    fn fetch(&self, payload: &[u8]) -> Told {
        match (&self.held, key_of(payload)) {
            (Some(leased), Ok(key)) => fetched(self.alloc, leased, key, payload),
            _ => ("no lease", 0),
        }
    }

    fn give_back(&mut self) -> Told {
        match self.held.take() {
            Some(leased) => {
                leased.0.release().end();
                ("given back", 0)
            }
            None => ("no lease", 0),
        }
    }

    /// Makes a call once.
    fn told_by(&mut self, call: Call) -> Told {
        if let Some(work) = self.tally.step_of(call) {
            return worked(&mut self.store, work);
        }
        match call {
            Call::Add(payload) => added(&mut self.store, payload),
            Call::Delete(ledger) => deleted(&mut self.store, ledger),
            Call::Target => target(&self.store),
            Call::Read(payload) => read(self.alloc, &mut self.store, payload),
            Call::Hold(payload) => self.hold(payload),
            Call::Fetch(payload) => self.fetch(payload),
            _ => self.give_back(),
        }
    }

    /// Makes a call once. Returns whether it was refused.
    fn is_refused(&mut self, row: &Row) -> bool {
        let told = self.told_by(row.1);
        self.tally.note(row, told)
    }

    /// Makes a call by its rule. Returns whether the compaction goes on.
    fn make(&mut self, row: &Row) -> bool {
        let Row(name, _, _, rule) = *row;
        let is_over = rule == Rule::Unpublished && self.tally.is_published;
        if is_over || !self.is_refused(row) || rule == Rule::Once {
            return true;
        }
        if rule == Rule::Compaction && target(&self.store).0 == "no job" {
            return false;
        }
        if self.is_refused(row) {
            self.tally.check(name, false);
        }
        true
    }

    /// Makes the calls of a part, until a fault ends the compaction. Returns whether none did.
    fn run(&mut self, part: Part) -> bool {
        for row in rows_of(part) {
            if !self.make(row) {
                return false;
            }
        }
        true
    }

    /// Compacts up to the end of the copying, and starts again if a fault ended the compaction. The
    /// other calls are made once.
    fn compact(&mut self) {
        let mut others = Part::Others;
        for _ in 0..2 {
            if self.run(Part::Copy) {
                self.run(others);
                others = Part::Nothing;
                if self.run(Part::End) {
                    return;
                }
            }
        }
        self.tally.check("end", false);
    }

    /// The whole life except its end.
    fn live(&mut self) {
        self.run(Part::Fill);
        self.compact();
        self.run(Part::Rest);
        self.run(Part::Living);
    }
}

fn trial_on(alloc: Global, disk: Disk, dead: &[u64], tally: Tally) -> Result<Trial, OpenFault> {
    Ok(Trial {
        alloc,
        store: opened(alloc, disk, ROOM, dead)?,
        held: None,
        tally,
    })
}

fn disk_of(store: Store<Disk>) -> Option<Disk> {
    store.into_disk().ok()
}

/// Runs the life on a disk. Returns the result, and the disk if the store returns it.
fn lived(alloc: Global, disk: Disk) -> Result<(Tally, Option<Disk>), OpenFault> {
    let mut trial = trial_on(alloc, disk, &[4], START)?;
    trial.live();
    Ok((trial.tally, disk_of(trial.store)))
}

/// Opens a store on the disk and reads every live entry.
fn read_again(alloc: Global, disk: Disk, tally: Tally) -> Result<Tally, OpenFault> {
    let mut again = trial_on(alloc, disk, &DEAD, tally)?;
    again.run(Part::Living);
    Ok(again.tally)
}

/// Runs a whole life on a disk that fails at this call. An append leaves `kept` bytes.
fn outcome(alloc: Global, call: u64, kept: usize) -> Result<Tally, OpenFault> {
    let Ok(disk) = found(alloc) else {
        return Err(OpenFault::Memory);
    };
    match lived(alloc, FaultDisk::new(disk, call, kept))? {
        (tally, Some(disk)) => read_again(alloc, disk, tally),
        (tally, None) => Ok(Tally {
            wrong: "disk",
            ..tally
        }),
    }
}

/// Up to the device call with this number: the step that fails with `Disk` if the call fails, and
/// the target log then.
///
/// Opening lists the logs, and reads the length, the header and the view of each. A new log is
/// created and gets its header. An entry is one call. A publish syncs and views its log. A roll
/// appends the map and patches the header, and the end of a copying does all four.
const CALLS: [(u64, &str, u32); 11] = [
    (10, "open", 0),
    (16, "write", 5),
    (18, "publish", 4),
    (20, "roll", 4),
    (22, "begin", 5),
    (25, "copy", 5),
    (28, "write", 4),
    (30, "publish", 4),
    (34, "end", 6),
    (35, "remove", 4),
    (51, "open", 0),
];

/// Returns the step that fails with `Disk` if this device call fails, and the target log then.
fn expected(call: u64) -> (&'static str, u32) {
    for (last, failed, copy) in &CALLS {
        if call <= *last {
            return (failed, *copy);
        }
    }
    ("none", 4)
}

/// Returns whether the result of a run with this failing call is as expected.
fn is_expected(ran: &Result<Tally, OpenFault>, call: u64) -> bool {
    let (failed, copy) = expected(call);
    match ran {
        Ok(tally) => {
            tally.failed == failed
                && tally.refused == 0
                && tally.wrong == "none"
                && tally.copy == copy
        }
        Err(fault) => failed == "open" && matches!(fault, OpenFault::Disk),
    }
}

/// Returns the first failing call with an unexpected result, or 0.
fn first_unexpected(alloc: Global, kept: usize) -> u64 {
    for call in 1..=52 {
        if !is_expected(&outcome(alloc, call, kept), call) {
            return call;
        }
    }
    0
}

#[test]
fn each_call_of_the_device_fails_in_turn(rt: HostRuntime) {
    for kept in &[0, 7, 2_000_000] {
        let call = first_unexpected(rt.alloc(), *kept);
        assert!(rt; call == 0, "call {call}, {kept} bytes kept");
    }
}

/// Runs a life without a failing call, again if memory was short before the first step.
fn outcome_again(alloc: Global) -> Result<Tally, OpenFault> {
    match outcome(alloc, 0, 0) {
        Err(OpenFault::Memory) => outcome(alloc, 0, 0),
        ran => ran,
    }
}

/// Returns what was wrong with such a run, or `none`.
fn wrong_with(ran: Result<Tally, OpenFault>) -> &'static str {
    match ran {
        Ok(tally) if tally.failed != "none" => tally.failed,
        Ok(tally) if tally.refused > 1 => "refused more than once",
        Ok(tally) => tally.wrong,
        Err(_) => "opening",
    }
}

#[test]
fn each_allocation_is_refused_in_turn(rt: HostRuntime) {
    let wrong = wrong_with(outcome_again(rt.alloc()));
    assert!(rt; wrong == "none", "{wrong}");
}
