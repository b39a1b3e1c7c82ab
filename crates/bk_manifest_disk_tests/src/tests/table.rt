//! Each row of the table: the last record about a log, its file, and what an opening shows.

use super::kit::Said::{self, Durable, Made, Removed};
use super::kit::{add, file_of, has, manifest_of};
use bk_disk::MemDisk;
use bk_manifest::{LogState, Plan};
use bk_manifest_disk::{Cause, Fault, Lack, Report, open};
use std::alloc::Global;
use std::test::Fail;

/// A log, and what an opening shows.
struct Row {
    records: &'static [(u16, Said)],
    file: Option<&'static [u8]>,
    shown: Option<&'static [u8]>,
    /// Position from which on it is hidden, number of hidden bytes, and why.
    report: Option<(u64, u64, Cause)>,
    /// The last record afterwards.
    last: Option<LogState>,
}

static ROWS: [Row; 9] = [
    Row {
        records: &[(5, Made), (5, Durable(4))],
        file: Some(b"abcd"),
        shown: Some(b"abcd"),
        report: None,
        last: Some(LogState::Durable { length: 4 }),
    },
    Row {
        records: &[(5, Durable(4))],
        file: Some(b"abcdEF"),
        shown: Some(b"abcd"),
        report: Some((4, 2, Cause::NotDurable)),
        last: Some(LogState::Durable { length: 4 }),
    },
    Row {
        records: &[(5, Made)],
        file: Some(b"ABC"),
        shown: Some(b""),
        report: Some((0, 3, Cause::NeverDurable)),
        last: Some(LogState::Made),
    },
    Row {
        records: &[(5, Durable(4)), (5, Removed(4))],
        file: Some(b"abcdE"),
        shown: Some(b"abcd"),
        report: Some((4, 1, Cause::Back)),
        last: Some(LogState::Durable { length: 4 }),
    },
    Row {
        records: &[(5, Removed(4))],
        file: Some(b"ab"),
        shown: Some(b"ab"),
        report: Some((2, 0, Cause::Back)),
        last: Some(LogState::Durable { length: 2 }),
    },
    Row {
        records: &[],
        file: Some(b"abc"),
        shown: Some(b"abc"),
        report: None,
        last: Some(LogState::Durable { length: 3 }),
    },
    Row {
        records: &[(5, Made)],
        file: None,
        shown: None,
        report: None,
        last: Some(LogState::Made),
    },
    Row {
        records: &[(5, Durable(4)), (5, Removed(4))],
        file: None,
        shown: None,
        report: None,
        last: Some(LogState::Removed { length: 4 }),
    },
    Row {
        records: &[],
        file: None,
        shown: None,
        report: None,
        last: None,
    },
];

/// Returns whether an opening shows what the row has.
fn is_shown(alloc: Global, row: &Row) -> Option<bool> {
    let mut disk = MemDisk::new(alloc);
    if let Some(bytes) = row.file
        && !add(alloc, &mut disk, 5, bytes)
    {
        return None;
    }
    let bytes = manifest_of(alloc, row.records)?;
    let opened = open(alloc, disk, file_of(alloc, &bytes, Plan::Never)?).ok()?;
    let mut disk = opened.disk;
    let report = opened.reports.first().copied();
    let want = row.report.map(|(from, bytes, cause)| Report {
        log: 5,
        from,
        bytes,
        cause,
    });
    let last = disk.manifest().state().log(5);
    Some(report == want && last == row.last && has(alloc, &mut disk, 5, row.shown))
}

#[test]
fn each_row_is_shown(rt: HostRuntime) {
    for (number, row) in ROWS.iter().enumerate() {
        assert!(rt; is_shown(rt.alloc(), row) == Some(true), "row {number}");
    }
}

/// Returns the fault of an opening by the record of four durable bytes.
fn fault_of(alloc: Global, bytes: Option<&[u8]>) -> Option<Fault> {
    let mut disk = MemDisk::new(alloc);
    if let Some(bytes) = bytes
        && !add(alloc, &mut disk, 5, bytes)
    {
        return None;
    }
    let manifest = manifest_of(alloc, &[(5, Durable(4))])?;
    open(alloc, disk, file_of(alloc, &manifest, Plan::Never)?).err()
}

#[test]
fn missing_bytes_are_a_fault(rt: HostRuntime) -> Result<(), Fail> {
    let shorter = Fault::Lack(Lack::Shorter {
        log: 5,
        durable: 4,
        length: 3,
    });
    assert_eq!(rt; fault_of(rt.alloc(), Some(b"abc")), Some(shorter));
    assert_eq!(rt;
        shorter.to_string(rt.alloc())?.as_str(),
        "log 5 has 3 of 4 durable bytes"
    );
    let missing = Fault::Lack(Lack::Missing { log: 5, durable: 4 });
    assert_eq!(rt; fault_of(rt.alloc(), None), Some(missing));
    assert_eq!(rt;
        missing.to_string(rt.alloc())?.as_str(),
        "log 5 with 4 durable bytes is missing"
    );
    Ok(())
}

#[test]
fn the_text_of_a_report(rt: HostRuntime) -> Result<(), Fail> {
    let report = Report {
        log: 5,
        from: 4,
        bytes: 2,
        cause: Cause::NotDurable,
    };
    let want = "log 5: 2 bytes ignored from position 4: not durable";
    assert_eq!(rt; report.to_string(rt.alloc())?.as_str(), want);
    Ok(())
}
