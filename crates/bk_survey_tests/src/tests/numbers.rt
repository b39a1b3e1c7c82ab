//! The numbers of a report are those of `stat` and of `ledgers`.

use super::{FAULTS, mixed, survey};
use bk_disk::MemDisk;
use bk_inspect::{DirCommand, run_dir, run_stat};
use bk_report::{LedgerRow, LogRow};
use std::alloc::Global;
use std::test::Fail;

/// The numbers of a row that begins with this many of them.
fn numbers(alloc: Global, line: &str, count: usize) -> Result<Vec<u64>, Fail> {
    let mut found = Vec::new(alloc);
    for word in line.split(' ') {
        if found.len() < count {
            found.push(word.parse::<u64>()?)?;
        }
    }
    Ok(found)
}

/// The lines of an output, with so many numbers each.
fn table(alloc: Global, output: &[u8], count: usize) -> Result<Vec<Vec<u64>>, Fail> {
    let mut rows = Vec::new(alloc);
    for line in str::from_utf8(output)?.lines() {
        if !line.starts_with("logs") {
            rows.push(numbers(alloc, line, count)?)?;
        }
    }
    Ok(rows)
}

/// Id, length, entries, bytes and live bytes of each log, as `stat` shows them.
fn stat_of(alloc: Global, disk: &mut MemDisk) -> Result<Vec<Vec<u64>>, Fail> {
    let mut output = Vec::new(alloc);
    let mut errors = Vec::new(alloc);
    let _ = run_stat(alloc, disk, &[2], &mut output, &mut errors);
    table(alloc, &output, 5)
}

/// The same of a row of a report.
fn stat_row(alloc: Global, row: &LogRow) -> Result<Vec<u64>, Fail> {
    let bytes = row.live.saturating_add(row.dead);
    Ok(vec![in alloc; u64::from(row.log), row.bytes, row.entries, bytes, row.live]?)
}

#[test]
fn the_logs_are_those_of_stat(rt: HostRuntime) -> Result<(), Fail> {
    let alloc = rt.alloc();
    let mut disk = mixed(alloc)?;
    let (surveyed, errors) = survey(alloc, &mut disk, "d");
    let Some(surveyed) = surveyed else {
        return Err(Fail::new("no survey"));
    };
    assert_eq!(rt; surveyed.status, 1);
    assert_eq!(rt; errors.as_slice(), FAULTS.as_bytes());
    let shown = stat_of(alloc, &mut disk)?;
    assert_eq!(rt; surveyed.report.logs.len(), 6);
    assert_eq!(rt; shown.len(), 6);
    for (row, expected) in surveyed.report.logs.iter().zip(shown.iter()) {
        let found = stat_row(alloc, row)?;
        assert_eq!(rt; found.as_slice(), expected.as_slice());
    }
    Ok(())
}

/// Ledger, entries, bytes and logs of each row, by ledger.
fn ledger_rows(alloc: Global, rows: &[LedgerRow]) -> Result<Vec<(u64, u64, u64, u64)>, Fail> {
    let mut found = Vec::new(alloc);
    for row in rows {
        found.push((row.ledger, row.entries, row.bytes, row.logs))?;
    }
    found.sort()?;
    Ok(found)
}

#[test]
fn the_ledgers_are_those_of_ledgers(rt: HostRuntime) -> Result<(), Fail> {
    let alloc = rt.alloc();
    let mut disk = mixed(alloc)?;
    let (surveyed, _) = survey(alloc, &mut disk, "d");
    let Some(surveyed) = surveyed else {
        return Err(Fail::new("no survey"));
    };
    let found = ledger_rows(alloc, &surveyed.report.ledgers)?;
    let mut output = Vec::new(alloc);
    let mut errors = Vec::new(alloc);
    let _ = run_dir(
        alloc,
        &mut disk,
        DirCommand::Ledgers,
        &mut output,
        &mut errors,
    );
    let shown = table(alloc, &output, 6)?;
    assert_eq!(rt; shown.len(), 2);
    assert_eq!(rt; found.len(), 2);
    assert_eq!(rt; surveyed.report.ledger_count, 2);
    for (row, expected) in found.iter().zip(shown.iter()) {
        let (ledger, entries, bytes, logs) = *row;
        assert_eq!(rt; expected.get(0), Some(&ledger));
        assert_eq!(rt; expected.get(1), Some(&entries));
        assert_eq!(rt; expected.get(2), Some(&bytes));
        assert_eq!(rt; expected.get(5), Some(&logs));
    }
    Ok(())
}

/// Id, live, dead, foreign, torn and doubtful bytes of each log.
const PARTS: [(u32, u64, u64, u64, u64, u64); 6] = [
    (0, 100, 0, 40, 0, 0),
    (3, 51, 50, 0, 3, 0),
    (4, 0, 40, 0, 0, 20),
    (7, 0, 0, 0, 0, 0),
    (9, 0, 40, 0, 0, 20),
    (31, 0, 100, 40, 0, 0),
];

#[test]
fn the_parts_of_each_log(rt: HostRuntime) -> Result<(), Fail> {
    let (surveyed, _) = survey(rt.alloc(), &mut mixed(rt.alloc())?, "d");
    let Some(surveyed) = surveyed else {
        return Err(Fail::new("no survey"));
    };
    for (row, expected) in surveyed.report.logs.iter().zip(PARTS.iter()) {
        let found = (
            row.log,
            row.live,
            row.dead,
            row.foreign,
            row.torn,
            row.doubtful,
        );
        assert_eq!(rt; found, *expected);
    }
    Ok(())
}
