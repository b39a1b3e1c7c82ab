//! Runs on the simulated disk do what runs on a disk in memory do, and scale.

use bk_disk::{LogDisk, MemDisk};
use bk_sim_disk::SimDisk;
use bk_simulation::{
    Cost, Load, Outcome, Plan, Retention, RetentionKind, Scale, SimFault, Upkeep, simulate,
};
use bk_store::Settings;
use std::alloc::Global;

/// Seconds of a day.
const DAY: u64 = 86_400;

/// Six days of 8,000 entries of 100 bytes each in ledgers of 50, which are kept a day.
pub(crate) const LOAD: Load = Load {
    seconds: 6 * DAY,
    rate: 800_000,
    entry: 100,
    ledger: 5000,
    writers: 5,
    retention: Retention {
        kind: RetentionKind::Exponential,
        mean: DAY,
    },
    seed: 7,
};

pub(crate) const UPKEEP: Upkeep = Upkeep {
    settings: Settings {
        log_limit: 51_024,
        cache_limit: 4800,
        slots: 1000,
        ..Settings::DEFAULT
    },
    collect_every: 900,
    minor_every: 3600,
    major_every: DAY,
};

/// Three days of the same load.
const SHORT: Load = Load {
    seconds: 3 * DAY,
    ..LOAD
};

/// Runs the load where a record of this many bytes stands for an entry.
fn run<D: LogDisk>(alloc: Global, disk: D, load: Load, record: u32) -> Result<Outcome, SimFault> {
    let scale = Scale { batch: 1, record };
    match Plan::new(load, UPKEEP, scale) {
        Ok(plan) => simulate(alloc, disk, plan, Cost::MEASURED),
        Err(_) => Err(SimFault::Answer("plan")),
    }
}

/// Returns whether two runs had the same logs and compactions, and moved the same bytes.
fn are_same(one: &Outcome, other: &Outcome) -> bool {
    one.tally == other.tally
        && one.metered == other.metered
        && one.samples == other.samples
        && one.peak_disk == other.peak_disk
}

/// Returns whether the runs on both disks are the same, and had compactions.
fn compare(alloc: Global) -> Result<bool, SimFault> {
    let thin = run(alloc, SimDisk::new(alloc), SHORT, 100)?;
    let plain = run(alloc, MemDisk::new(alloc), SHORT, 100)?;
    Ok(are_same(&thin, &plain) && thin.tally.minor > 0 && thin.tally.major > 0)
}

#[test]
fn a_run_on_the_simulated_disk_is_that_on_a_disk_in_memory(rt: HostRuntime) {
    assert_eq!(rt; compare(rt.alloc()), Ok(true));
}

/// Returns whether a run whose records have 40 bytes does the same as one with 100.
fn scales(alloc: Global) -> Result<bool, SimFault> {
    let small = run(alloc, SimDisk::new(alloc), SHORT, 40)?;
    let whole = run(alloc, SimDisk::new(alloc), SHORT, 100)?;
    Ok(
        small.tally == whole.tally
            && whole.tally.minor + whole.tally.major > 0
            && small.samples == whole.samples
            && small.write_amplification() == whole.write_amplification(),
    )
}

#[test]
fn a_run_does_the_same_at_each_size_of_a_record(rt: HostRuntime) {
    assert_eq!(rt; scales(rt.alloc()), Ok(true));
}
