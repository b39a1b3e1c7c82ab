//! The logs: a bar for each, and a table of their numbers. Of many logs that table is folded, and
//! those with the most dead bytes have one of their own.

use super::bars::write_log_bar;
use super::columns::write_columns;
use super::markup::LEGEND;
use crate::number::write_number;
use crate::scale::write_share;
use crate::size::write_titled_size;
use crate::{LogRow, Part, write_text};
use std::io;
use std::io::Write;

/// The greatest number of logs of which each has a bar in the table.
const MOST_BARS: usize = 100;

/// The number of logs that are listed by their dead bytes if there are more.
const MOST_LISTED: usize = 20;

/// Writes the section of the logs. The file of the largest has `most` bytes.
pub(super) fn write_section<W: Write>(logs: &[LogRow], most: u64, out: &mut W) -> io::Result<()> {
    out.write_all(b"<section>\n<h2>Logs</h2>\n")?;
    if logs.is_empty() {
        return out.write_all(b"<p>The directory has no log.</p>\n</section>\n");
    }
    out.write_all(LEGEND.as_bytes())?;
    if logs.len() <= MOST_BARS {
        write_table(logs, Some(most), out)?;
    } else {
        write_columns(logs, most, out)?;
        write_most_dead(logs, most, out)?;
        out.write_all(
            b"<details>\n<summary>All logs with their numbers (a folded table is not printed)</summary>\n",
        )?;
        write_table(logs, None, out)?;
        out.write_all(b"</details>\n")?;
    }
    out.write_all(b"</section>\n")
}

/// Writes a table of the logs with the most dead bytes, with bars.
fn write_most_dead<W: Write>(logs: &[LogRow], most: u64, out: &mut W) -> io::Result<()> {
    out.write_all(b"<p>The logs with the most dead bytes:</p>\n")?;
    write_table_head(true, out)?;
    let mut last = None;
    for _ in 0..MOST_LISTED {
        let Some(row) = next_by_dead(logs, last) else {
            break;
        };
        write_row(row, Some(most), out)?;
        last = Some(row);
    }
    write_table_foot(out)
}

/// Returns the log that follows another one, of those with dead bytes; the first of them without
/// another one.
fn next_by_dead<'a>(logs: &'a [LogRow], last: Option<&LogRow>) -> Option<&'a LogRow> {
    let mut next: Option<&LogRow> = None;
    for row in logs {
        let is_left = match last {
            Some(last) => has_more_dead(last, row),
            None => row.dead > 0,
        };
        let is_next = match next {
            Some(next) => has_more_dead(row, next),
            None => true,
        };
        if row.dead > 0 && is_left && is_next {
            next = Some(row);
        }
    }
    next
}

/// Returns whether a log has more dead bytes than another one, or as many and the lower id.
fn has_more_dead(row: &LogRow, other: &LogRow) -> bool {
    row.dead > other.dead || row.dead == other.dead && row.log < other.log
}

/// Writes the table of the logs, with bars if `most` is the size of the largest.
fn write_table<W: Write>(logs: &[LogRow], most: Option<u64>, out: &mut W) -> io::Result<()> {
    write_table_head(most.is_some(), out)?;
    for row in logs {
        write_row(row, most, out)?;
    }
    write_table_foot(out)
}

/// Begins a table of logs, with a column for bars or without.
fn write_table_head<W: Write>(has_bars: bool, out: &mut W) -> io::Result<()> {
    out.write_all(b"<div class=\"scroll\"><table>\n<thead><tr><th class=\"id\">Log</th>")?;
    if has_bars {
        out.write_all(b"<th class=\"text\">Bytes by kind</th>")?;
    }
    out.write_all(
        b"<th>File</th><th>Live share</th><th>Live</th><th>Dead</th><th>Foreign</th><th>Torn</th><th>Doubtful</th><th>Entries</th><th class=\"text\">State</th></tr></thead>\n<tbody>\n",
    )
}

/// Ends a table of logs.
fn write_table_foot<W: Write>(out: &mut W) -> io::Result<()> {
    out.write_all(b"</tbody>\n</table></div>\n")
}

/// Writes the row of a log.
fn write_row<W: Write>(row: &LogRow, most: Option<u64>, out: &mut W) -> io::Result<()> {
    write!(
        out,
        "<tr><td class=\"id\">{} <small class=\"quiet\">{:x}.log</small></td>",
        row.log, row.log
    )?;
    if let Some(most) = most {
        out.write_all(b"<td class=\"chart\">")?;
        write_log_bar(row, most, out)?;
        out.write_all(b"</td>")?;
    }
    write_cell(row.bytes, out)?;
    out.write_all(b"<td>")?;
    write_share(out, row.live, row.live.saturating_add(row.dead))?;
    out.write_all(b"</td>")?;
    write_parts(row, out)?;
    out.write_all(b"<td>")?;
    write_number(out, row.entries)?;
    out.write_all(b"</td>")?;
    write_state(row, out)
}

/// Writes the cells of the parts of a log.
fn write_parts<W: Write>(row: &LogRow, out: &mut W) -> io::Result<()> {
    for part in [
        Part::Live,
        Part::Dead,
        Part::Foreign,
        Part::Torn,
        Part::Doubtful,
    ] {
        write_cell(part.bytes(row), out)?;
    }
    Ok(())
}

/// Writes a cell of a size.
fn write_cell<W: Write>(bytes: u64, out: &mut W) -> io::Result<()> {
    if bytes == 0 {
        return out.write_all(b"<td class=\"quiet\">0</td>");
    }
    out.write_all(b"<td>")?;
    write_titled_size(out, bytes)?;
    out.write_all(b"</td>")
}

/// Writes the cell of the state of a log, and ends the row.
fn write_state<W: Write>(row: &LogRow, out: &mut W) -> io::Result<()> {
    match &row.fault {
        Some(fault) => {
            out.write_all(b"<td class=\"text bad\"><a href=\"#faults\" title=\"")?;
            write_text(out, fault.as_str())?;
            out.write_all(b"\">fault</a>")?;
        }
        None if row.is_sealed => out.write_all(b"<td class=\"text\">sealed")?,
        None => out.write_all(b"<td class=\"text\">not sealed")?,
    }
    out.write_all(b"</td></tr>\n")
}
