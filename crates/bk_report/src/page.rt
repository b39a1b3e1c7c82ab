//! The page: its frame, and its sections in order.

mod bars;
mod columns;
mod curve;
mod faults;
mod ledgers;
mod logs;
mod manifest;
mod markup;
mod sizes;
mod style;
mod summary;
mod thresholds;

use crate::{Report, totals_of, write_text};
use std::io;
use std::io::Write;

/// Writes a report as an HTML page. The page loads nothing and runs no script.
///
/// Each text of the report is written by `write_text`. Writes many short pieces, so the writer
/// should have a buffer.
///
/// # Errors
///
/// That of the writer.
pub fn write_page<W: Write>(report: &Report, out: &mut W) -> io::Result<()> {
    let totals = totals_of(&report.logs);
    write_head(report, out)?;
    summary::write_section(report, &totals, out)?;
    faults::write_section(&report.faults, out)?;
    logs::write_section(&report.logs, totals.largest, out)?;
    curve::write_section(report, totals.bytes, out)?;
    ledgers::write_section(report, out)?;
    sizes::write_section(&report.sizes, out)?;
    manifest::write_section(report, out)?;
    write_foot(out)
}

/// Writes what is before the first section.
fn write_head<W: Write>(report: &Report, out: &mut W) -> io::Result<()> {
    out.write_all(markup::HEAD.as_bytes())?;
    out.write_all(b"<title>Entry logs in ")?;
    write_text(out, report.folder.as_str())?;
    out.write_all(b"</title>\n<style>\n")?;
    for piece in style::PIECES.iter() {
        out.write_all(piece.as_bytes())?;
    }
    out.write_all(b"</style>\n</head>\n<body>\n<header>\n<h1>Entry logs in <code>")?;
    write_text(out, report.folder.as_str())?;
    out.write_all(b"</code></h1>\n<p class=\"quiet\">Read at ")?;
    write_text(out, report.time.as_str())?;
    out.write_all(b".</p>\n</header>\n<main>\n")
}

/// Writes what is after the last section.
fn write_foot<W: Write>(out: &mut W) -> io::Result<()> {
    out.write_all(markup::FOOT.as_bytes())
}
