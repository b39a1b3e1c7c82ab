//! Surveys: entries that are counted by hand.

use super::{THRESHOLDS, page_of};
use bk_report::{LogEnd, Report, Survey};
use std::alloc::{AllocError, Global};
use std::collections::BTreeSet;
use std::process::Abort;
use std::test::Fail;

/// Returns a report on three logs: one with all kinds of bytes, a damaged one and a short one.
/// Ledger 5 is deleted.
fn surveyed(alloc: Global) -> Result<Report, AllocError> {
    let mut deleted = BTreeSet::new(alloc);
    let _ = deleted.insert(5)?;
    let mut survey = Survey::new(alloc, deleted);
    survey.begin(3, 1024 + 300 + 40 + 36 + 7, true);
    survey.add(1, 100)?;
    survey.add(5, 120)?;
    survey.add(1, 80)?;
    survey.add(2, 40)?;
    survey.end(LogEnd::Read { torn: 7 }, None)?;
    survey.begin(4, 1024 + 60 + 400, false);
    survey.add(5, 60)?;
    survey.end(
        LogEnd::Doubtful { from: 1084 },
        Some(String::from_str(alloc, "bad length 1084 7")?),
    )?;
    survey.begin(9, 12, false);
    survey.end(LogEnd::Read { torn: 0 }, None)?;
    let folder = String::from_str(alloc, "current")?;
    let time = String::from_str(alloc, "today")?;
    survey.report(alloc, folder, time, Vec::new(alloc), THRESHOLDS)
}

#[test]
fn survey_counts_each_byte_of_a_log_once(rt: HostRuntime) -> Result<(), Fail> {
    let report = surveyed(rt.alloc())?;
    let found = [
        (3, 220, 120, 36, 7, 0),
        (4, 0, 60, 0, 0, 400),
        (9, 0, 0, 0, 0, 0),
    ];
    assert_eq!(rt; report.logs.len(), 3);
    for (row, expected) in report.logs.iter().zip(found.iter()) {
        assert_eq!(rt;
            (
                row.log,
                row.live,
                row.dead,
                row.foreign,
                row.torn,
                row.doubtful
            ),
            *expected
        );
    }
    let others = [
        (1407, 4, 1300, false, true),
        (1484, 1, 0, false, false),
        (12, 0, 0, true, false),
    ];
    for (row, expected) in report.logs.iter().zip(others.iter()) {
        assert_eq!(rt;
            (row.bytes, row.entries, row.copy, row.is_kept, row.is_sealed),
            *expected
        );
    }
    Ok(())
}

#[test]
fn survey_sums_ledgers_and_sizes(rt: HostRuntime) -> Result<(), Fail> {
    let report = surveyed(rt.alloc())?;
    assert_eq!(rt; (report.ledger_count, report.dead_count), (3, 1));
    let found = [
        (1, 2, 180, 1, false),
        (5, 2, 180, 2, true),
        (2, 1, 40, 1, false),
    ];
    for (row, expected) in report.ledgers.iter().zip(found.iter()) {
        assert_eq!(rt;
            (row.ledger, row.entries, row.bytes, row.logs, row.is_dead),
            *expected
        );
    }
    assert_eq!(rt; (report.sizes.counts[5], report.sizes.counts[6]), (2, 3));
    let page = page_of(rt.alloc(), &report)?;
    assert!(rt; page.contains("The largest 3 of 3 ledgers"));
    assert!(rt; page.contains("title=\"bad length 1084 7\""));
    Ok(())
}

#[test]
fn report_has_the_twenty_largest_ledgers(rt: HostRuntime) -> Result<(), Fail> {
    let mut survey = Survey::new(rt.alloc(), BTreeSet::new(rt.alloc()));
    survey.begin(0, 100_000, false);
    for ledger in 0..50 {
        survey.add(ledger, 20 + (ledger * 7) % 50)?;
    }
    survey.end(LogEnd::Read { torn: 0 }, None)?;
    let folder = String::from_str(rt.alloc(), "current")?;
    let time = String::from_str(rt.alloc(), "today")?;
    let report = survey.report(rt.alloc(), folder, time, Vec::new(rt.alloc()), THRESHOLDS)?;
    assert_eq!(rt; (report.ledgers.len(), report.ledger_count), (20, 50));
    for (rank, row) in report.ledgers.iter().enumerate() {
        assert_eq!(rt; row.bytes, 69 - rank as u64);
    }
    Ok(())
}
