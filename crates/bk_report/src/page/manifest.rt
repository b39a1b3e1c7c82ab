//! What the manifest says.

use crate::number::write_number;
use crate::size::write_titled_size;
use crate::{LogRow, ManifestRow, ManifestTable, Promise, Report};
use std::io;
use std::io::Write;

/// The greatest number of logs of a table that is not folded.
const MOST_OPEN: usize = 40;

/// The greatest number of ledgers that are listed.
const MOST_LISTED: usize = 200;

/// Writes the section of the manifest; nothing if none was read.
pub(super) fn write_section<W: Write>(report: &Report, out: &mut W) -> io::Result<()> {
    let Some(manifest) = &report.manifest else {
        return Ok(());
    };
    out.write_all(b"<section>\n<h2>Manifest</h2>\n")?;
    write_manifest(manifest, report.logs.as_slice(), out)?;
    out.write_all(b"</section>\n")
}

/// Writes what a manifest says.
fn write_manifest<W: Write>(
    manifest: &ManifestTable,
    logs: &[LogRow],
    out: &mut W,
) -> io::Result<()> {
    out.write_all(
        b"<p>What the manifest calls durable was synced. A log of which fewer bytes could be read has lost some.</p>\n",
    )?;
    write_ledgers("Deleted ledgers", &manifest.deleted, out)?;
    write_ledgers("Fenced ledgers", &manifest.fenced, out)?;
    if manifest.logs.len() <= MOST_OPEN {
        return write_table(&manifest.logs, logs, out);
    }
    out.write_all(
        b"<details>\n<summary>All logs of the manifest (a folded table is not printed)</summary>\n",
    )?;
    write_table(&manifest.logs, logs, out)?;
    out.write_all(b"</details>\n")
}

/// Writes a list of ledgers, with their number.
fn write_ledgers<W: Write>(name: &'static str, ledgers: &[u64], out: &mut W) -> io::Result<()> {
    write!(out, "<p>{name}: ")?;
    write_number(out, ledgers.len() as u64)?;
    if !ledgers.is_empty() {
        out.write_all(b" (")?;
        write_ids(ledgers, out)?;
        out.write_all(b")")?;
    }
    out.write_all(b".</p>\n")
}

/// Writes the ids of ledgers, separated by commas; dots for those past the greatest number.
fn write_ids<W: Write>(ledgers: &[u64], out: &mut W) -> io::Result<()> {
    for (place, ledger) in ledgers.iter().enumerate() {
        if place == MOST_LISTED {
            return out.write_all(b", ..");
        }
        if place > 0 {
            out.write_all(b", ")?;
        }
        write!(out, "{ledger}")?;
    }
    Ok(())
}

/// Writes the table of the logs of a manifest.
fn write_table<W: Write>(rows: &[ManifestRow], logs: &[LogRow], out: &mut W) -> io::Result<()> {
    out.write_all(
        b"<div class=\"scroll\"><table class=\"narrow\">\n<thead><tr><th class=\"id\">Log</th><th class=\"text\">The manifest says</th><th>Durable</th><th>Read</th></tr></thead>\n<tbody>\n",
    )?;
    for row in rows {
        write_row(row, read_of(row.log, logs), out)?;
    }
    out.write_all(b"</tbody>\n</table></div>\n")
}

/// Returns how many bytes of a log could be read, if it was found.
fn read_of(log: u32, logs: &[LogRow]) -> Option<u64> {
    for row in logs {
        if row.log == log {
            return Some(row.bytes);
        }
    }
    None
}

/// Writes the row of a log, of which so many bytes could be read if it was found.
fn write_row<W: Write>(row: &ManifestRow, read: Option<u64>, out: &mut W) -> io::Result<()> {
    write!(out, "<tr><td class=\"id\">{}</td>", row.log)?;
    match row.promise {
        Promise::Made => out.write_all(b"<td class=\"text\">made</td><td></td>")?,
        Promise::Removed => out.write_all(b"<td class=\"text\">removed</td><td></td>")?,
        Promise::Durable { length } => {
            out.write_all(b"<td class=\"text\">durable</td><td>")?;
            write_titled_size(out, length)?;
            out.write_all(b"</td>")?;
        }
    }
    write_read(row.promise, read, out)?;
    out.write_all(b"</tr>\n")
}

/// Writes the cell of the bytes that could be read, marked if durable ones are missing.
fn write_read<W: Write>(promise: Promise, read: Option<u64>, out: &mut W) -> io::Result<()> {
    let durable = match promise {
        Promise::Durable { length } => length,
        Promise::Made | Promise::Removed => 0,
    };
    if read.unwrap_or(0) < durable {
        out.write_all(b"<td class=\"bad\">")?;
    } else {
        out.write_all(b"<td>")?;
    }
    match read {
        Some(bytes) => write_titled_size(out, bytes)?,
        None => out.write_all(b"no file")?,
    }
    out.write_all(b"</td>")
}
