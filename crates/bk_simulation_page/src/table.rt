//! The table of the runs.

use crate::picture::DAY;
use bk_report::write_number;
use bk_simulation::Outcome;
use std::io;
use std::io::Write;

/// Bytes of a KiB.
const KIB: u64 = 1024;

/// Bytes of a MiB.
const MIB: u64 = 1_048_576;

static HEAD: &str =
    "<div class=\"scroll\" tabindex=\"0\" role=\"region\" aria-label=\"runs\"><table>
<tr>
<th class=\"name\" rowspan=\"2\">retention, days</th>
<th colspan=\"2\">thresholds, \u{2030}</th>
<th rowspan=\"2\">log limit, KiB</th>
<th colspan=\"3\">amplification</th>
<th colspan=\"2\">logs</th>
<th rowspan=\"2\">index, MiB</th>
<th colspan=\"2\">compactions</th>
<th colspan=\"3\">holds, instructions</th>
<th rowspan=\"2\">entries a record</th>
</tr>
<tr>
<th>minor</th><th>major</th>
<th>write</th><th>space</th><th>peak</th>
<th>mean</th><th>peak</th>
<th>number</th><th>moved, MiB</th>
<th>99.9\u{a0}%</th><th>longest</th><th class=\"text\">call</th>
</tr>
";

/// Writes the table.
pub(crate) fn write_table<W: Write>(out: &mut W, outcomes: &[Outcome]) -> io::Result<()> {
    out.write_all(HEAD.as_bytes())?;
    for outcome in outcomes {
        write_row(out, outcome)?;
    }
    out.write_all(b"</table></div>\n")
}

/// Writes the name of a run: its retention, in days with one place, rounded down.
pub(crate) fn write_name<W: Write>(out: &mut W, outcome: &Outcome) -> io::Result<()> {
    let retention = outcome.plan.load.retention;
    let tenths = retention.mean.saturating_mul(10) / DAY;
    let days = tenths / 10;
    let part = tenths % 10;
    out.write_all(retention.kind.name().as_bytes())?;
    write!(out, " {days}.{part}")
}

/// Writes a row.
fn write_row<W: Write>(out: &mut W, outcome: &Outcome) -> io::Result<()> {
    let settings = outcome.plan.upkeep.settings;
    out.write_all(b"<tr><td class=\"name\">")?;
    write_name(out, outcome)?;
    out.write_all(b"</td>")?;
    write_cell(out, u64::from(settings.minor))?;
    write_cell(out, u64::from(settings.major))?;
    write_cell(out, u64::from(settings.log_limit) / KIB)?;
    write_ratio(out, outcome.write_amplification())?;
    write_ratio(out, outcome.space_amplification())?;
    write_ratio(out, outcome.peak_space_amplification())?;
    write_counts(out, outcome)?;
    write_holds(out, outcome)?;
    write_cell(out, outcome.plan.scale.batch)?;
    out.write_all(b"</tr>\n")
}

/// Writes the logs, the memory of the index and the compactions.
fn write_counts<W: Write>(out: &mut W, outcome: &Outcome) -> io::Result<()> {
    write_cell(out, outcome.mean_logs())?;
    write_cell(out, outcome.peak_logs)?;
    write_cell(out, outcome.index_memory() / MIB)?;
    write_cell(out, outcome.compactions())?;
    write_cell(out, outcome.moved() / MIB)
}

/// Writes the holds.
fn write_holds<W: Write>(out: &mut W, outcome: &Outcome) -> io::Result<()> {
    write_cell(out, outcome.holds.exceeded_by(1))?;
    let (cost, name) = match outcome.holds.longest() {
        Some(longest) => (longest.cost, longest.call.name()),
        None => (0, ""),
    };
    write_cell(out, cost)?;
    out.write_all(b"<td class=\"text\">")?;
    out.write_all(name.as_bytes())?;
    out.write_all(b"</td>")
}

/// Writes a number in a cell.
fn write_cell<W: Write>(out: &mut W, number: u64) -> io::Result<()> {
    out.write_all(b"<td>")?;
    write_number(out, number)?;
    out.write_all(b"</td>")
}

/// Writes thousandths as a decimal number of two places, rounded down, in a cell.
fn write_ratio<W: Write>(out: &mut W, thousandths: u64) -> io::Result<()> {
    let whole = thousandths / 1000;
    let tenths = thousandths / 100 % 10;
    let hundredths = thousandths / 10 % 10;
    write!(out, "<td>{whole}.{tenths}{hundredths}</td>")
}
