//! The tiles at the top of the page, and what it is about.

use super::markup;
use crate::number::write_number;
use crate::scale::write_share;
use crate::size::write_titled_size;
use crate::{Report, Totals};
use std::io;
use std::io::Write;

/// Writes the tiles: logs, size, entries, live share, ledgers, faults. Then what the page is about.
pub(super) fn write_section<W: Write>(
    report: &Report,
    totals: &Totals,
    out: &mut W,
) -> io::Result<()> {
    out.write_all(b"<ul class=\"tiles\">\n")?;
    write_logs(report.logs.len() as u64, totals, out)?;
    write_entries(totals, out)?;
    write_ledgers(report, out)?;
    write_faults(report.faults.len() as u64, out)?;
    out.write_all(b"</ul>\n")?;
    write_intro(report.dead_count, out)
}

/// Writes what the page is about, and what it counts as dead if so many ledgers are deleted.
fn write_intro<W: Write>(dead_count: u64, out: &mut W) -> io::Result<()> {
    out.write_all(markup::INTRO.as_bytes())?;
    let deleted = if dead_count == 0 {
        markup::NONE_DELETED
    } else {
        markup::SOME_DELETED
    };
    out.write_all(deleted.as_bytes())
}

/// Writes the tiles of the logs and of their size.
fn write_logs<W: Write>(count: u64, totals: &Totals, out: &mut W) -> io::Result<()> {
    out.write_all(b"<li>Logs<b>")?;
    write_number(out, count)?;
    out.write_all(b"</b>")?;
    write_number(out, totals.sealed)?;
    out.write_all(b" sealed</li>\n<li>Files<b>")?;
    write_titled_size(out, totals.bytes)?;
    out.write_all(b"</b>largest ")?;
    write_titled_size(out, totals.largest)?;
    out.write_all(b"</li>\n")
}

/// Writes the tiles of the entries and of their live share.
fn write_entries<W: Write>(totals: &Totals, out: &mut W) -> io::Result<()> {
    out.write_all(b"<li>Entries<b>")?;
    write_number(out, totals.entries)?;
    out.write_all(b"</b>in all logs</li>\n<li>Live<b>")?;
    write_share(out, totals.live, totals.live.saturating_add(totals.dead))?;
    out.write_all(b"</b>of the bytes of entries</li>\n")
}

/// Writes the tile of the ledgers.
fn write_ledgers<W: Write>(report: &Report, out: &mut W) -> io::Result<()> {
    out.write_all(b"<li>Ledgers<b>")?;
    write_number(out, report.ledger_count)?;
    out.write_all(b"</b>")?;
    write_number(out, report.dead_count)?;
    out.write_all(b" known as deleted</li>\n")
}

/// Writes the tile of the faults.
fn write_faults<W: Write>(count: u64, out: &mut W) -> io::Result<()> {
    if count == 0 {
        return out.write_all(b"<li>Faults<b class=\"good\">0</b>none was found</li>\n");
    }
    out.write_all(b"<li>Faults<b class=\"bad\">")?;
    write_number(out, count)?;
    out.write_all(b"</b><a href=\"#faults\">listed below</a></li>\n")
}
