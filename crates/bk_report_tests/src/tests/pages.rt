//! Pages: each part is shown, no text is markup, and a write that fails is reported.

use super::{ESCAPED, faulty, log, page_of, report};
use bk_report::{LogRow, Report, write_page};
use std::alloc::Global;
use std::io;
use std::io::{ErrorKind, Write};
use std::process::Abort;
use std::test::Fail;

/// What a page shows of `mixed` with a fault.
static PARTS: [&str; 15] = [
    "<rect class=\"live\" x=\"0\" width=\"500\" height=\"10\"/>\
    <rect class=\"dead\" x=\"500\" width=\"250\" height=\"10\"/>\
    <rect class=\"foreign\" x=\"750\" width=\"50\" height=\"10\"/>\
    <rect class=\"torn\" x=\"800\" width=\"30\" height=\"10\"/>\
    <rect class=\"doubtful\" x=\"830\" width=\"150\" height=\"10\"/>\
    <rect class=\"rest\" x=\"980\" width=\"20\" height=\"10\"/>",
    "<title>log 31 (1f.log): 2,000 bytes, live 1,000, dead 500, foreign 100, torn 60, \
    doubtful 300, rest 40; live share 66.6 %</title>",
    "<td class=\"id\">31 <small class=\"quiet\">1f.log</small></td>",
    "<span title=\"2,000 bytes\">1.9 KiB</span></td><td>66.6 %</td>",
    "<td><span title=\"1,000 bytes\">1,000 B</span></td><td><span title=\"500 bytes\">500 B</span></td>",
    "Logs with a fault, which are left out here: 1.",
    "threshold of 20.0 %, would free <strong><span title=\"0 bytes\">0 B</span></strong>, 0.0 % of",
    "A log of which fewer bytes could be read has lost some.</p>\n",
    "<span title=\"1,234,567 bytes\">1.1 MiB</span></td><td class=\"bad\">no file</td>",
    "Deleted ledgers: 2 (12, 13).",
    "Fenced ledgers: 0.",
    "<span title=\"373 bytes\">373 B</span></td><td>3</td><td>1</td><td class=\"text\">dead</td>",
    "that were deleted when this page was made: by the manifest",
    "<span title=\"32 bytes\">32 B</span></td><td class=\"text\"><span title=\"64 bytes\">64 B</span>",
    "<td>2</td><td>66.6 %</td>",
];

#[test]
fn page_shows_each_part_and_no_text_as_markup(rt: HostRuntime) -> Result<(), Fail> {
    let mut logs = Vec::new(rt.alloc());
    logs.push(faulty(rt.alloc(), 31)?)?;
    let report = report(rt.alloc(), logs)?;
    let page = page_of(rt.alloc(), &report)?;
    assert_eq!(rt; page.matches(ESCAPED).count(), 5);
    assert!(rt; !page.contains("<script"));
    for part in &PARTS {
        assert!(rt; page.contains(*part), "{part}");
    }
    Ok(())
}

#[test]
fn page_without_deleted_ledgers_says_so(rt: HostRuntime) -> Result<(), Fail> {
    let report = Report {
        dead_count: 0,
        manifest: None,
        ..report(rt.alloc(), Vec::new(rt.alloc()))?
    };
    let page = page_of(rt.alloc(), &report)?;
    assert!(rt; page.contains("No deleted ledger was named or read from the manifest"));
    assert!(rt; page.contains("The directory has no log."));
    assert!(rt; !page.contains("Manifest"));
    assert!(rt; !page.contains("What a compaction would free"));
    Ok(())
}

/// Checks that a page on so many logs has so many strips, a row for each log, and this title; with
/// strips, also a row for each of the 20 logs with the most dead bytes.
fn check_rows(
    rt: &impl Abort,
    alloc: Global,
    count: u32,
    strips: usize,
    title: &str,
) -> Result<(), Fail> {
    let mut logs = Vec::new(alloc);
    for id in 0..count {
        logs.push(log(id, 500, 500))?;
    }
    let report = report(alloc, logs)?;
    let page = page_of(alloc, &report)?;
    let found = page.matches("<div class=\"strip\">").count();
    let titles = page.matches("<title>log ").count();
    let rows = page.matches(".log</small></td>").count();
    let listed = if strips == 0 { 0 } else { 20 };
    let all = count as usize + listed;
    assert_eq!(rt; (found, titles, rows), (strips, all, all));
    assert_eq!(rt; page.matches(title).count(), 1);
    Ok(())
}

#[test]
fn each_log_has_a_row_or_a_column(rt: HostRuntime) -> Result<(), Fail> {
    check_rows(
        &rt,
        rt.alloc(),
        100,
        0,
        "<title>log 99 (63.log): 1,130 bytes",
    )?;
    check_rows(
        &rt,
        rt.alloc(),
        301,
        2,
        "<title>log 300 (12c.log): 1,130 bytes",
    )
}

/// The place of the first row of a log in a page, from its end; none if it has no row.
fn row_of(page: &str, log: &str) -> Option<usize> {
    page.find(log).map(|place| page.len().saturating_sub(place))
}

#[test]
fn of_many_logs_those_with_the_most_dead_bytes_come_first(rt: HostRuntime) -> Result<(), Fail> {
    let mut logs = Vec::new(rt.alloc());
    for id in 0..101 {
        let (live, dead) = match id {
            70 => (100, 900),
            0..60 => (500, 500),
            _ => (1000, 0),
        };
        logs.push(log(id, live, dead))?;
    }
    let report = report(rt.alloc(), logs)?;
    let page = page_of(rt.alloc(), &report)?;
    let most = row_of(&page, "<td class=\"id\">70 <small");
    let first = row_of(&page, "<td class=\"id\">0 <small");
    let last = row_of(&page, "<td class=\"id\">18 <small");
    let folded = row_of(&page, "<details>");
    assert!(rt; most > first && first > last && last > folded);
    assert!(rt; row_of(&page, "<td class=\"id\">19 <small") < folded);
    Ok(())
}

#[test]
fn few_torn_bytes_of_a_large_log_are_visible(rt: HostRuntime) -> Result<(), Fail> {
    let mut logs = Vec::new(rt.alloc());
    let large = log(0, 1_000_000, 0);
    let torn = 10;
    logs.push(LogRow {
        bytes: large.bytes.saturating_add(torn),
        torn,
        ..large
    })?;
    let report = report(rt.alloc(), logs)?;
    let page = page_of(rt.alloc(), &report)?;
    assert!(rt; page.contains("<rect class=\"torn\" x=\"987\" width=\"12\" height=\"10\"/>"));
    Ok(())
}

/// A writer with room for so many bytes.
#[derive(Drop)]
struct Full {
    room: usize,
}

impl Write for Full {
    fn write(&mut self, buf: &[u8]) -> io::Result<usize> {
        if buf.len() > self.room {
            return Err(io::Error::from(ErrorKind::StorageFull));
        }
        self.room -= buf.len();
        Ok(buf.len())
    }

    fn flush(&mut self) -> io::Result<()> {
        Ok(())
    }
}

#[test]
fn write_that_fails_is_reported(rt: HostRuntime) -> Result<(), Fail> {
    let mut logs = Vec::new(rt.alloc());
    logs.push(log(0, 700, 300))?;
    let report = report(rt.alloc(), logs)?;
    let length = page_of(rt.alloc(), &report)?.len();
    assert!(rt; length > 15_000);
    for room in [
        0, 15, 1000, 4000, 5000, 5500, 6000, 7000, 9000, 11_000, 13_000, 15_000,
    ] {
        assert!(rt;
            write_page(&report, &mut Full { room }).is_err(),
            "with room for {room}"
        );
    }
    assert!(rt; write_page(&report, &mut Full { room: length }).is_ok());
    Ok(())
}
