//! What a compaction would free, in a table.

use crate::number::write_number;
use crate::scale::write_share;
use crate::size::write_titled_size;
use crate::{LogRow, Thresholds, effect_of};
use std::io;
use std::io::Write;

/// Writes the table: a row for each tenth. The files have `all` bytes.
pub(super) fn write_table<W: Write>(
    logs: &[LogRow],
    thresholds: Thresholds,
    all: u64,
    out: &mut W,
) -> io::Result<()> {
    out.write_all(
        b"<div class=\"scroll\"><table class=\"narrow\">\n<thead><tr><th class=\"text\">Threshold</th><th>Logs taken</th><th>Copied</th><th>Freed</th><th>Freed of all bytes</th></tr></thead>\n<tbody>\n",
    )?;
    for tenth in 0..=10 {
        write_row(logs, tenth.min(10) * 100, thresholds, all, out)?;
    }
    out.write_all(b"</tbody>\n</table></div>\n")
}

/// Writes the row of a threshold.
fn write_row<W: Write>(
    logs: &[LogRow],
    threshold: u32,
    thresholds: Thresholds,
    all: u64,
    out: &mut W,
) -> io::Result<()> {
    let effect = effect_of(logs, threshold);
    write_name(threshold, thresholds, out)?;
    out.write_all(b"<td>")?;
    write_number(out, effect.logs)?;
    out.write_all(b"</td><td>")?;
    write_titled_size(out, effect.copied)?;
    out.write_all(b"</td><td>")?;
    write_titled_size(out, effect.freed)?;
    out.write_all(b"</td><td>")?;
    write_share(out, effect.freed, all)?;
    out.write_all(b"</td></tr>\n")
}

/// Begins the row of a threshold, with the kind of compaction that has it.
fn write_name<W: Write>(threshold: u32, thresholds: Thresholds, out: &mut W) -> io::Result<()> {
    if threshold == 0 {
        return out.write_all(b"<tr><td class=\"text\">nothing live</td>");
    }
    let kind = if threshold == thresholds.minor {
        ", minor"
    } else if threshold == thresholds.major {
        ", major"
    } else {
        ""
    };
    let class = if kind.is_empty() {
        ""
    } else {
        " class=\"mark\""
    };
    write!(
        out,
        "<tr{class}><td class=\"text\">below {} %{kind}</td>",
        threshold / 10
    )
}
