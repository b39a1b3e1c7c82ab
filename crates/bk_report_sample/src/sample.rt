//! A made-up directory. Its numbers are plausible, and the same at each call.

ghost use Rattle.std.specs.Prelude.{◌<◌, ◌≤◌};

use bk_report::{
    Histogram, LedgerRow, LogRow, ManifestRow, ManifestTable, Promise, Report, Thresholds,
};
use std::alloc::{AllocError, Global};

/// The bytes of a header.
const HEADER: u64 = 1024;

/// The greatest number of ledgers that are shown.
const LEDGERS: u64 = 20;

/// Returns a report on a made-up directory of so many logs.
pub(crate) fn sample_of(alloc: Global, count: u32) -> Result<Report, AllocError> {
    let mut logs = Vec::new(alloc);
    for log in 0..count {
        logs.push(log_of(alloc, log, count)?)?;
    }
    let manifest = if count > 1 {
        Some(manifest_of(alloc, &logs)?)
    } else {
        None
    };
    Ok(Report {
        folder: String::from_str(alloc, "/data/<bookie> & \"ledgers\"/current")?,
        time: String::from_str(alloc, "2026-03-14 15:09 UTC")?,
        faults: faults_of(alloc, &logs)?,
        logs,
        ledger_count: u64::from(count) * 37 + 4,
        dead_count: u64::from(count) * 5 + 1,
        ledgers: ledgers_of(alloc, count)?,
        sizes: sizes_of(count),
        thresholds: Thresholds {
            minor: 200,
            major: 800,
        },
        manifest,
    })
}

/// Returns a number that looks like chance, at most 999.
fn chance(seed: u64) -> u64
    ensures { result < 1000 }
{
    let mixed = seed.wrapping_add(17).wrapping_mul(0x9e37_79b9_7f4a_7c15);
    let again = (mixed ^ (mixed >> 29)).wrapping_mul(0xbf58_476d_1ce4_e5b9);
    (again >> 32) % 1000
}

/// Returns a made-up log. The last one is not sealed, and of many one is damaged.
fn log_of(alloc: Global, log: u32, count: u32) -> Result<LogRow, AllocError> {
    let seed = u64::from(log);
    let is_last = log.saturating_add(1) == count;
    let is_damaged = count > 20 && log == 11;
    let entries_bytes = (250 + chance(seed)) * 1_048_576 + chance(seed + 1_000_000);
    let share = live_share(seed);
    let live = if share == 1000 {
        entries_bytes
    } else {
        entries_bytes / 1000 * share
    };
    let map = 20 + 16 * (40 + chance(seed + 2_000_000));
    let foreign = if is_last { 0 } else { map };
    let torn = if is_last { 61_234 } else { 0 };
    let doubtful = if is_damaged { 83_886_080 } else { 0 };
    let copy = if live == 0 { 0 } else { HEADER + live + map };
    Ok(LogRow {
        log,
        bytes: HEADER + entries_bytes + foreign + torn + doubtful,
        live,
        dead: entries_bytes.saturating_sub(live),
        foreign,
        torn,
        doubtful,
        entries: entries_bytes / 1311,
        copy,
        is_kept: false,
        is_sealed: !is_last && !is_damaged,
        fault: if is_damaged {
            Some(String::from_str(alloc, "bad length 734004224 7")?)
        } else {
            None
        },
    })
}

/// Returns a live share: of some logs nothing is live, of some all, of most a part.
fn live_share(seed: u64) -> u64
    ensures { result ≤ 1000 }
{
    let drawn = chance(seed.saturating_add(3_000_000));
    if drawn < 60 {
        0
    } else if drawn > 900 {
        1000
    } else {
        drawn
    }
}

/// Returns a fault for each damaged log.
fn faults_of(alloc: Global, logs: &[LogRow]) -> Result<Vec<String>, AllocError> {
    let mut faults = Vec::new(alloc);
    for row in logs {
        if row.fault.is_some() {
            faults.push(format!(in alloc;
                "{:x}.log: read: bad length at 734004224: 7 is less than two ids take; repair with seal --cut-torn, or move the file away",
                row.log
            )?)?;
        }
    }
    Ok(faults)
}

/// Returns made-up ledgers, the largest first.
fn ledgers_of(alloc: Global, count: u32) -> Result<Vec<LedgerRow>, AllocError> {
    let mut ledgers = Vec::new(alloc);
    let scale = u64::from(count) * 1_048_576;
    for rank in 0..LEDGERS {
        let bytes = scale * 90 / (rank + 2) + chance(rank);
        ledgers.push(LedgerRow {
            ledger: 40 + 7 * rank + chance(rank),
            entries: bytes / (400 + chance(rank + 50)),
            bytes,
            logs: u64::from(count).min(1 + chance(rank + 100) / 40),
            is_dead: chance(rank + 200) < 250,
        })?;
    }
    Ok(ledgers)
}

/// Returns made-up sizes: most of some hundred bytes, a few of a megabyte.
fn sizes_of(count: u32) -> Histogram {
    let mut sizes = Histogram::EMPTY;
    let counts = [
        3, 40, 250, 900, 1500, 700, 210, 90, 60, 20, 0, 0, 7, 11, 5, 1,
    ];
    for (class, number) in counts.iter().enumerate() {
        if let Some(slot) = sizes.counts.get_mut(class.saturating_add(5)) {
            *slot = u64::from(count).saturating_mul(310).saturating_mul(*number);
        }
    }
    sizes
}

/// Returns a made-up manifest of these logs.
fn manifest_of(alloc: Global, logs: &[LogRow]) -> Result<ManifestTable, AllocError> {
    let mut rows = Vec::new(alloc);
    for row in logs {
        let promise = if row.torn > 0 {
            Promise::Made
        } else if row.doubtful > 0 {
            Promise::Durable {
                length: row.bytes.saturating_add(4096),
            }
        } else {
            Promise::Durable { length: row.bytes }
        };
        rows.push(ManifestRow {
            log: row.log,
            promise,
        })?;
    }
    Ok(ManifestTable {
        logs: rows,
        deleted: vec![in alloc; 12, 19, 40, 41, 77]?,
        fenced: vec![in alloc; 102]?,
    })
}
