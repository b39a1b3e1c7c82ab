//! The largest ledgers.

use super::bars::write_amount_bar;
use crate::number::write_number;
use crate::size::write_titled_size;
use crate::{LedgerRow, Report};
use std::io;
use std::io::Write;

/// Writes the section of the largest ledgers; nothing if there are none.
pub(super) fn write_section<W: Write>(report: &Report, out: &mut W) -> io::Result<()> {
    let ledgers = report.ledgers.as_slice();
    if ledgers.is_empty() {
        return Ok(());
    }
    let most = largest(ledgers);
    out.write_all(b"<section>\n<h2>Largest ledgers</h2>\n<p>The largest ")?;
    write_number(out, ledgers.len() as u64)?;
    out.write_all(b" of ")?;
    write_number(out, report.ledger_count)?;
    out.write_all(
        b" ledgers, by the bytes of their entries in all logs.</p>\n<div class=\"scroll\"><table>\n<thead><tr><th class=\"id\">Ledger</th><th class=\"text\" colspan=\"2\">Bytes</th><th>Entries</th><th>Logs</th><th class=\"text\">State</th></tr></thead>\n<tbody>\n",
    )?;
    for row in ledgers {
        write_row(row, most, out)?;
    }
    out.write_all(b"</tbody>\n</table></div>\n</section>\n")
}

/// Returns the bytes of the largest of these ledgers.
fn largest(ledgers: &[LedgerRow]) -> u64 {
    let mut most = 0u64;
    for row in ledgers {
        most = most.max(row.bytes);
    }
    most
}

/// Writes the row of a ledger.
fn write_row<W: Write>(row: &LedgerRow, most: u64, out: &mut W) -> io::Result<()> {
    let state = if row.is_dead { "dead" } else { "live" };
    out.write_all(b"<tr><td class=\"id\">")?;
    write!(out, "{}</td><td class=\"chart\">", row.ledger)?;
    write_amount_bar(state, row.bytes, most, out)?;
    out.write_all(b"</td><td>")?;
    write_titled_size(out, row.bytes)?;
    out.write_all(b"</td><td>")?;
    write_number(out, row.entries)?;
    out.write_all(b"</td><td>")?;
    write_number(out, row.logs)?;
    write!(out, "</td><td class=\"text\">{state}</td></tr>\n")
}
