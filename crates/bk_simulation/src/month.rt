//! A run: records come in one after another, and between them what is due is done.

use crate::alarm::{Alarm, SECOND};
use crate::calls::{
    SimStore, add_entry, counts_of, delete_ledger, live_bytes, logs_of, open_store, sizes_of,
};
use crate::chance::Chance;
use crate::cost::linear;
use crate::deaths::Deaths;
use crate::holds::{Call, Holds};
use crate::outcome::{Outcome, Sample};
use crate::writers::{Next, Writers};
use crate::{Cost, Plan, SimFault, Tally};
use bk_compact::Kind;
use bk_disk::LogDisk;
use bk_sim_disk::payload_of;
use std::alloc::Global;

/// Number of samples of a run.
const SAMPLES: u64 = 120;

/// The store and what is counted of it.
#[derive(Drop)]
pub(crate) struct Bookie<D: LogDisk> {
    pub alloc: Global,
    pub plan: Plan,
    pub cost: Cost,
    pub store: SimStore<D>,
    pub holds: Holds,
    pub tally: Tally,
    pub peak_disk: u64,
    pub peak_logs: u64,
    pub peak_keys: u64,
    /// Whether a log was wanted and every slot was taken.
    pub is_full: bool,
}

impl<D: LogDisk> Bookie<D> {
    /// Opens the store on a disk without logs.
    fn open(alloc: Global, disk: D, plan: Plan, cost: Cost) -> Result<Bookie<D>, SimFault> {
        let store = open_store(alloc, disk, plan.settings)?;
        Ok(Bookie {
            alloc,
            plan,
            cost,
            store,
            holds: Holds::new(alloc)?,
            tally: Tally::default(),
            peak_disk: 0,
            peak_logs: 0,
            peak_keys: 0,
            is_full: false,
        })
    }

    /// Counts a hold that every entry of a record has.
    pub(crate) fn note_each(
        &mut self,
        call: Call,
        cost: u64,
        records: u64,
    ) -> Result<(), SimFault> {
        let times = self.plan.entries(records);
        self.holds.note(call, 1, cost, times)?;
        Ok(())
    }

    /// Counts one hold with a part for each of `count`.
    pub(crate) fn note_one(
        &mut self,
        call: Call,
        fixed: u64,
        each: u64,
        count: u64,
    ) -> Result<(), SimFault> {
        self.holds.note(call, count, linear(fixed, each, count), 1)?;
        Ok(())
    }

    /// Returns the real bytes of all logs.
    fn disk_bytes(&self) -> u64 {
        let held = counts_of(&self.store).held;
        self.plan.real(held.records).saturating_add(held.others)
    }

    /// Notes the peaks.
    pub(crate) fn note_peaks(&mut self) {
        let (logs, keys) = sizes_of(&self.store);
        let keys = self.plan.entries(keys);
        self.peak_disk = self.peak_disk.max(self.disk_bytes());
        self.peak_logs = self.peak_logs.max(logs);
        self.peak_keys = self.peak_keys.max(keys);
    }

    /// Adds a record. Where the cache is full, it is flushed first.
    fn add(&mut self, next: &Next) -> Result<(), SimFault> {
        let size = self.plan.scale.record.saturating_sub(4);
        let payload = payload_of(self.alloc, next.ledger, next.entry, size)?;
        if !add_entry(&mut self.store, &payload)? {
            self.flush()?;
            if self.is_full {
                return Ok(());
            }
            if !add_entry(&mut self.store, &payload)? {
                return Err(SimFault::Answer("add"));
            }
        }
        self.tally.added = self.tally.added.saturating_add(1);
        self.note_each(Call::Add, self.cost.add, 1)
    }

    /// Deletes a ledger.
    fn delete(&mut self, ledger: u64) -> Result<(), SimFault> {
        let logs = logs_of(&self.store, ledger);
        let keys = delete_ledger(&mut self.store, ledger)?;
        self.tally.deleted = self.tally.deleted.saturating_add(1);
        let keys = self.plan.entries(keys);
        let fixed = linear(self.cost.delete, self.cost.delete_log, logs);
        self.note_one(Call::Delete, fixed, self.cost.delete_key, keys)
    }

    /// Returns the state at a time.
    fn sample(&self, time: u64) -> Sample {
        let (logs, keys) = sizes_of(&self.store);
        Sample {
            time,
            live: self.plan.real(live_bytes(&self.store)),
            disk: self.disk_bytes(),
            logs,
            keys: self.plan.entries(keys),
        }
    }
}

/// What is due.
#[derive(Drop)]
struct Clock {
    collect: Alarm,
    minor: Alarm,
    major: Alarm,
    sample: Alarm,
    deaths: Deaths,
}

impl Clock {
    fn new(alloc: Global, plan: &Plan) -> Clock {
        Clock {
            collect: Alarm::new(plan.upkeep.collect_every),
            minor: Alarm::new(plan.upkeep.minor_every),
            major: Alarm::new(plan.upkeep.major_every),
            sample: Alarm::new((plan.load.seconds / SAMPLES).max(1)),
            deaths: Deaths::new(alloc),
        }
    }

    /// Deletes the ledgers that are due.
    fn delete_due<D: LogDisk>(&mut self, now: u64, bookie: &mut Bookie<D>) -> Result<(), SimFault> {
        for _ in 0..u64::MAX {
            let Some(ledger) = self.deaths.next(now) else {
                break;
            };
            bookie.delete(ledger)?;
        }
        Ok(())
    }

    /// Does the upkeep that is due.
    fn keep<D: LogDisk>(&mut self, now: u64, bookie: &mut Bookie<D>) -> Result<(), SimFault> {
        if self.collect.rings(now) {
            bookie.remove_unused()?;
        }
        if self.minor.rings(now) {
            bookie.compact_all(Kind::Minor)?;
        }
        if self.major.rings(now) {
            bookie.compact_all(Kind::Major)?;
        }
        Ok(())
    }
}

/// Runs a plan on a disk without logs.
///
/// If a log is wanted while every slot is taken, the run ends there, and the outcome has the time.
///
/// # Errors
///
/// - `Memory`: an allocation failed.
/// - `Open`: the store did not open.
/// - `NotEmpty`: the disk has logs.
/// - `Add`, `Answer`: a call of the store failed otherwise.
pub fn simulate<D: LogDisk>(
    alloc: Global,
    disk: D,
    plan: Plan,
    cost: Cost,
) -> Result<Outcome, SimFault> {
    let mut bookie = Bookie::open(alloc, disk, plan, cost)?;
    let mut samples = Vec::new(alloc);
    let full_at = run(&mut bookie, &mut samples)?;
    outcome_of(bookie, samples, full_at)
}

/// Runs all records. Returns the second at which the slots were full.
fn run<D: LogDisk>(
    bookie: &mut Bookie<D>,
    samples: &mut Vec<Sample>,
) -> Result<Option<u64>, SimFault> {
    let plan = bookie.plan;
    let mut chance = Chance::new(plan.load.seed);
    let mut writers = Writers::new(bookie.alloc, &plan, &mut chance)?;
    let mut clock = Clock::new(bookie.alloc, &plan);
    for number in 0..plan.records {
        let now = number.saturating_mul(plan.interval);
        clock.delete_due(now, bookie)?;
        clock.keep(now, bookie)?;
        if bookie.is_full {
            return Ok(Some(now / SECOND));
        }
        if clock.sample.rings(now) {
            samples.push(bookie.sample(now / SECOND))?;
        }
        step(bookie, &mut writers, &mut chance, &mut clock, now)?;
    }
    Ok(None)
}

/// Adds the next record. The ledger that it closes is deleted after its retention.
fn step<D: LogDisk>(
    bookie: &mut Bookie<D>,
    writers: &mut Writers,
    chance: &mut Chance,
    clock: &mut Clock,
    now: u64,
) -> Result<(), SimFault> {
    let Some(next) = writers.next(chance) else {
        return Err(SimFault::Answer("writer"));
    };
    bookie.add(&next)?;
    if next.is_last {
        let kept = bookie.plan.load.retention.sample(chance);
        let time = now.saturating_add(kept.saturating_mul(SECOND));
        clock.deaths.note(time, next.ledger)?;
    }
    Ok(())
}

/// Returns the outcome of a run.
fn outcome_of<D: LogDisk>(
    bookie: Bookie<D>,
    samples: Vec<Sample>,
    full_at: Option<u64>,
) -> Result<Outcome, SimFault> {
    Ok(Outcome {
        plan: bookie.plan,
        samples,
        tally: bookie.tally,
        metered: counts_of(&bookie.store),
        holds: bookie.holds,
        peak_disk: bookie.peak_disk,
        peak_logs: bookie.peak_logs,
        peak_keys: bookie.peak_keys,
        full_at,
    })
}
