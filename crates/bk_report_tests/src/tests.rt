//! Numbers by hand, pages whose text comes from outside, and surveys.

mod numbers;
mod pages;
mod surveys;

use bk_report::{
    Histogram, LedgerRow, LogRow, ManifestRow, ManifestTable, Promise, Report, Thresholds,
    write_page,
};
use std::alloc::{AllocError, Global};
use std::test::Fail;

/// A text with each character that HTML gives a meaning.
const HOSTILE: &str = "</code><script>alert('\"&\")</script>";

/// The same as it is to be written.
const ESCAPED: &str = "&lt;/code&gt;&lt;script&gt;alert(&#39;&quot;&amp;&quot;)&lt;/script&gt;";

/// The thresholds of a bookie.
const THRESHOLDS: Thresholds = Thresholds {
    minor: 200,
    major: 800,
};

/// Returns a log with 1,000 live bytes, 500 dead ones, 100 foreign, 60 torn, 300 doubtful and 40 of
/// a header.
fn mixed(log: u32) -> LogRow {
    LogRow {
        log,
        bytes: 2000,
        live: 1000,
        dead: 500,
        foreign: 100,
        torn: 60,
        doubtful: 300,
        entries: 7,
        copy: 1200,
        is_kept: false,
        is_sealed: false,
        fault: None,
    }
}

/// Returns the same log with a fault.
fn faulty(alloc: Global, log: u32) -> Result<LogRow, AllocError> {
    Ok(LogRow {
        fault: Some(String::from_str(alloc, HOSTILE)?),
        ..mixed(log)
    })
}

/// Returns a sealed log of which so many bytes are live, and whose copy has 100 bytes more.
fn log(log: u32, live: u64, dead: u64) -> LogRow {
    LogRow {
        bytes: live.saturating_add(dead).saturating_add(130),
        live,
        dead,
        foreign: 30,
        torn: 0,
        doubtful: 0,
        copy: if live == 0 {
            0
        } else {
            live.saturating_add(100)
        },
        is_sealed: true,
        ..mixed(log)
    }
}

/// Returns a report on these logs, with a hostile text wherever one is.
fn report(alloc: Global, logs: Vec<LogRow>) -> Result<Report, AllocError> {
    let mut faults = Vec::new(alloc);
    faults.push(String::from_str(alloc, HOSTILE)?)?;
    let mut sizes = Histogram::EMPTY;
    sizes.count(40);
    sizes.count(33);
    sizes.count(300);
    let ledger = LedgerRow {
        ledger: 12,
        entries: 3,
        bytes: 373,
        logs: 1,
        is_dead: true,
    };
    Ok(Report {
        folder: String::from_str(alloc, HOSTILE)?,
        time: String::from_str(alloc, HOSTILE)?,
        logs,
        ledger_count: 2,
        dead_count: 1,
        ledgers: vec![in alloc; ledger]?,
        sizes,
        faults,
        thresholds: THRESHOLDS,
        manifest: Some(manifest(alloc)?),
    })
}

/// Returns a manifest of a log, with two deleted ledgers.
fn manifest(alloc: Global) -> Result<ManifestTable, AllocError> {
    let row = ManifestRow {
        log: 0,
        promise: Promise::Durable { length: 1_234_567 },
    };
    Ok(ManifestTable {
        logs: vec![in alloc; row]?,
        deleted: vec![in alloc; 12, 13]?,
        fenced: Vec::new(alloc),
    })
}

/// Returns the page of a report.
fn page_of(alloc: Global, report: &Report) -> Result<String, Fail> {
    let mut out = Vec::new(alloc);
    write_page(report, &mut out)?;
    Ok(String::from_utf8(out)?)
}
