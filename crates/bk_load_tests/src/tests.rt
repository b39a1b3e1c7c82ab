//! Small loads on disks in memory, and the text of a report.

use bk_bookie::WorkReport;
use bk_disk::{FaultDisk, MemDisk};
use bk_drive::{Recorder, RecordsNothing, Step};
use bk_load::{Checked, Latencies, Load, LoadFault, Logs, Recorded, Report, Until, run_load};
use bk_store::Settings;
use std::alloc::Global;
use std::process::Abort;
use std::rt::Clock;
use std::sync::Wait;
use std::thread::Threads;

/// Settings of the small load, with short logs.
const SETTINGS: Settings = Settings {
    log_limit: 65_536,
    cache_limit: 65_536,
    recent: 16,
    slots: 1000,
    leases: 100,
    minor: 500,
    major: 1000,
};

/// Number of adds of the small load: the first caller makes one more than the others, and has made
/// 2,001, enough for two deletions.
const ADDS: u64 = 8_001;

/// The small load.
const SMALL: Load = Load {
    callers: 4,
    until: Until::Adds(ADDS),
};

/// Returns whether a report is good, with compactions, two deletions, and each add of the small
/// load.
fn is_whole(report: &Report) -> bool {
    report.is_good()
        && report.logs.compacted > 0
        && report.deletes == 2
        && report.adds.saturating_add(report.refused) == ADDS
}

/// Nothing is recorded of ledgers.
fn unrecorded(alloc: Global) -> Recorded<RecordsNothing> {
    Recorded {
        ledgers: Vec::new(alloc),
        recorder: RecordsNothing,
    }
}

/// Runs the small load.
fn report<R: Threads + Wait + Clock + Abort + Sync>(rt: &R, alloc: Global) -> Report {
    let progress: Option<Vec<u8>> = None;
    let disk = MemDisk::new(alloc);
    match run_load(
        rt,
        alloc,
        disk,
        SETTINGS,
        SMALL,
        unrecorded(alloc),
        progress,
    ) {
        Ok(report) => report,
        Err(_) => panic!(rt; "no report"),
    }
}

#[test]
fn a_small_load_is_found_whole(rt: HostRuntime) {
    let report = report(&rt, rt.alloc());
    assert!(rt; is_whole(&report), "{report}");
}

/// A load of few adds.
const FEW: Load = Load {
    callers: 2,
    until: Until::Adds(200),
};

/// Runs the load of few adds on a disk of which one call fails.
fn failing<R: Threads + Wait + Clock + Abort + Sync>(rt: &R, alloc: Global, call: u64) -> Report {
    let progress: Option<Vec<u8>> = None;
    let disk = FaultDisk::new(MemDisk::new(alloc), call, 7);
    match run_load(rt, alloc, disk, SETTINGS, FEW, unrecorded(alloc), progress) {
        Ok(report) => report,
        Err(_) => panic!(rt; "no report"),
    }
}

/// Returns whether a report has a failed step, which is the only reason that it is not good.
fn is_failed_alone(report: &Report) -> bool {
    let mut whole = *report;
    whole.works.faults = 0;
    report.works.faults > 0 && !report.is_good() && whole.is_good()
}

/// Calls of the disk that fail, by number: the first log is created, its header is written, and its
/// first record. The three calls before them list the logs.
const FAILED: [u64; 3] = [4, 5, 6];

#[test]
fn a_failed_step_is_reported(rt: HostRuntime) {
    for call in FAILED {
        let report = failing(&rt, rt.alloc(), call);
        assert!(rt; is_failed_alone(&report), "{call}: {report}");
    }
}

/// A recorder that allows some steps and refuses the next one. It takes deletions only.
#[derive(Drop)]
struct Refusing {
    allowed: u32,
}

impl Recorder for Refusing {
    fn record(&mut self, step: &Step) -> bool {
        if self.allowed == 0 || !matches!(step, Step::Delete(_)) {
            return false;
        }
        self.allowed -= 1;
        true
    }
}

/// Runs the small load with these ledgers recorded, and a recorder that refuses after some steps.
fn recorded<R: Threads + Wait + Clock + Abort + Sync>(
    rt: &R,
    alloc: Global,
    ledgers: &[u64],
    allowed: u32,
) -> Result<Report, LoadFault> {
    let progress: Option<Vec<u8>> = None;
    let Ok(ledgers) = Vec::from_slice(alloc, ledgers) else {
        panic!(rt; "memory")
    };
    let recorded = Recorded {
        ledgers,
        recorder: Refusing { allowed },
    };
    let disk = MemDisk::new(alloc);
    run_load(rt, alloc, disk, SETTINGS, SMALL, recorded, progress)
}

#[test]
fn a_deletion_that_is_not_recorded_ends_the_load(rt: HostRuntime) {
    let ended = recorded(&rt, rt.alloc(), &[], 1);
    assert!(rt; matches!(ended, Err(LoadFault::Unrecorded)));
    // The load makes two deletions.
    match recorded(&rt, rt.alloc(), &[5, 3], 2) {
        Ok(report) => assert!(rt; is_whole(&report), "{report}"),
        Err(_) => panic!(rt; "no report"),
    }
}

#[test]
fn a_load_has_ledgers_past_those_recorded(rt: HostRuntime) {
    let ended = recorded(&rt, rt.alloc(), &[1 << 62], 2);
    assert!(rt; matches!(ended, Err(LoadFault::NoLedger)));
}

/// A report of three adds, one of them to a ledger deleted later, with four earlier entries.
const GOOD: Report = Report {
    adds: 3,
    receipts: 3,
    bytes: 100,
    held: 0,
    refused: 1,
    takes: 2,
    wrong: 0,
    deletes: 1,
    works: WorkReport {
        answered: 9,
        faults: 0,
    },
    logs: Logs {
        made: 4,
        compacted: 2,
        removed: 3,
    },
    milliseconds: 12,
    latencies: Latencies {
        at_500: 700,
        at_990: 800,
        at_999: 800,
    },
    earlier: 4,
    checked: Checked {
        found: 2,
        deleted: 1,
        lost: 0,
        unknown: 0,
        kept: 4,
    },
};

/// The text of that report.
const TOLD: &str = "adds 3 bytes 100 held 0 refused 1 milliseconds 12\n\
    takes 2 wrong 0 ledgers deleted 1\n\
    logs made 4 compacted 2 removed 3\n\
    works 9 faults 0\n\
    latency 50% 700 99% 800 99.9% 800 nanoseconds\n\
    receipts 3\n\
    files found 2 deleted 1 lost 0 unknown 0 earlier 4 of 4";

#[test]
fn a_report_is_told(rt: HostRuntime) {
    let text = format!(in rt.alloc(); "{GOOD}").expect(&rt, "memory");
    assert!(rt; text.as_str() == TOLD, "{text}");
}
