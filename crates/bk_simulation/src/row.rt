//! A run as one row of a table.

use crate::Retention;
use crate::outcome::Outcome;
use std::io;
use std::io::Write;

/// The columns.
pub static HEAD: &str =
    "retention       minor major log-MiB write-amp space-amp  peak logs logs-peak index-MiB minor-n major-n moved-MiB   p99.9   longest
";

/// Bytes of a MiB.
const MIB: u64 = 1_048_576;

/// Seconds of a day.
const DAY: u64 = 86_400;

/// Writes a number right-aligned, behind at least one space.
fn write_cell<W: Write>(out: &mut W, number: u64, width: u32) -> io::Result<()> {
    write_space(out, width.saturating_sub(digits(number)))?;
    write!(out, "{number}")
}

/// Writes thousandths as a decimal number of two places, rounded down.
fn write_ratio<W: Write>(out: &mut W, thousandths: u64, width: u32) -> io::Result<()> {
    let whole = thousandths / 1000;
    write_space(out, width.saturating_sub(digits(whole)).saturating_sub(3))?;
    let tenths = thousandths / 100 % 10;
    let hundredths = thousandths / 10 % 10;
    write!(out, "{whole}.{tenths}{hundredths}")
}

/// Writes spaces, at least one.
fn write_space<W: Write>(out: &mut W, count: u32) -> io::Result<()> {
    for _ in 0..count.max(1) {
        out.write_all(b" ")?;
    }
    Ok(())
}

/// Returns the number of digits of a number.
fn digits(number: u64) -> u32 {
    let mut left = number;
    for count in 1..20 {
        left /= 10;
        if left == 0 {
            return count;
        }
    }
    20
}

/// Writes a distribution and its mean in days, in 15 columns.
fn write_retention<W: Write>(out: &mut W, retention: Retention) -> io::Result<()> {
    let name = retention.kind.name();
    let tenths = retention.mean.saturating_mul(10) / DAY;
    let days = tenths / 10;
    let part = tenths % 10;
    write!(out, "{name}:{days}.{part}")?;
    let used = (name.len().min(99) as u32)
        .saturating_add(3)
        .saturating_add(digits(days));
    write_space(out, 15u32.saturating_sub(used))
}

/// Writes a run as a row: thresholds in thousandths, memory and bytes in MiB, holds in
/// instructions.
///
/// # Errors
///
/// That of the writer.
pub fn write_row<W: Write>(out: &mut W, outcome: &Outcome) -> io::Result<()> {
    let settings = outcome.plan.upkeep.settings;
    write_retention(out, outcome.plan.load.retention)?;
    write_cell(out, u64::from(settings.minor), 6)?;
    write_cell(out, u64::from(settings.major), 6)?;
    write_cell(out, u64::from(settings.log_limit) / MIB, 8)?;
    write_ratio(out, outcome.write_amplification(), 10)?;
    write_ratio(out, outcome.space_amplification(), 10)?;
    write_ratio(out, outcome.peak_space_amplification(), 6)?;
    write_logs(out, outcome)?;
    write_moves(out, outcome)?;
    write_locks(out, outcome)
}

/// Writes the logs and the memory of the index.
fn write_logs<W: Write>(out: &mut W, outcome: &Outcome) -> io::Result<()> {
    write_cell(out, outcome.mean_logs(), 5)?;
    write_cell(out, outcome.peak_logs, 10)?;
    write_cell(out, outcome.index_memory() / MIB, 10)
}

/// Writes the compactions.
fn write_moves<W: Write>(out: &mut W, outcome: &Outcome) -> io::Result<()> {
    write_cell(out, outcome.tally.minor, 8)?;
    write_cell(out, outcome.tally.major, 8)?;
    write_cell(out, outcome.moved() / MIB, 10)
}

/// Writes the holds, and the time at which the slots were full.
fn write_locks<W: Write>(out: &mut W, outcome: &Outcome) -> io::Result<()> {
    write_cell(out, outcome.holds.exceeded_by(1), 8)?;
    if let Some(longest) = outcome.holds.longest() {
        write_cell(out, longest.cost, 10)?;
        write!(out, " {}", longest.call.name())?;
    }
    if let Some(second) = outcome.full_at {
        let tenths = second.saturating_mul(10) / DAY;
        write!(out, " full on day {}.{}", tenths / 10, tenths % 10)?;
    }
    out.write_all(b"\n")
}

/// Writes the holds of each call: their number, and the size and the instructions of the longest.
///
/// # Errors
///
/// That of the writer.
pub fn write_holds<W: Write>(out: &mut W, outcome: &Outcome) -> io::Result<()> {
    for longest in outcome.holds.calls() {
        let name = longest.call.name();
        write!(out, "  {name}")?;
        write_space(out, 10u32.saturating_sub(name.len().min(99) as u32))?;
        write_cell(out, longest.count, 14)?;
        write_cell(out, longest.size, 10)?;
        write_cell(out, longest.cost, 12)?;
        out.write_all(b"\n")?;
    }
    Ok(())
}

/// Writes what happened: the logs, and real bytes that were appended and are held, of records and of
/// headers and maps.
///
/// # Errors
///
/// That of the writer.
pub fn write_counts<W: Write>(out: &mut W, outcome: &Outcome) -> io::Result<()> {
    let tally = outcome.tally;
    let metered = outcome.metered;
    let added = tally.added;
    let flushes = tally.flushes;
    let deleted = tally.deleted;
    write!(
        out,
        "  records {added} flushes {flushes} ledgers deleted {deleted}\n"
    )?;
    let created = metered.created;
    let removed = metered.removed;
    let syncs = metered.syncs;
    write!(
        out,
        "  logs created {created} removed {removed} syncs {syncs}\n"
    )?;
    let appended = outcome.real(metered.appended);
    let held = outcome.real(metered.held);
    let moved = outcome.moved();
    write!(
        out,
        "  bytes appended {appended} moved {moved} held {held}\n"
    )
}
