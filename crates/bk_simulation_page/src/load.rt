//! What came in, and how the bookie was kept.

use crate::picture::DAY;
use bk_report::write_number;
use bk_simulation::{Load, Outcome, Upkeep};
use std::io;
use std::io::Write;

/// Bytes of a megabyte.
const MEGABYTE: u64 = 1_000_000;

/// Seconds of a minute.
const MINUTE: u64 = 60;

/// A number of units that is whole, and the text after it.
#[derive(Clone, Copy)]
struct Amount {
    number: u64,
    unit: &'static str,
}

/// Returns bytes in megabytes, or as they are if these are not whole.
fn size_of(bytes: u64) -> Amount {
    if bytes % MEGABYTE == 0 {
        Amount {
            number: bytes / MEGABYTE,
            unit: " MB",
        }
    } else {
        Amount {
            number: bytes,
            unit: " bytes",
        }
    }
}

/// Returns seconds in days, or minutes, or as they are: in the longest that are whole.
fn time_of(seconds: u64) -> Amount {
    let (length, unit) = if seconds % DAY == 0 {
        (DAY, " d")
    } else if seconds % MINUTE == 0 {
        (MINUTE, " min")
    } else {
        (1, " s")
    };
    Amount {
        number: seconds / length,
        unit,
    }
}

/// Writes the load and the upkeep of a run. All runs of a page share what the table does not have.
pub(crate) fn write_settings<W: Write>(out: &mut W, outcome: &Outcome) -> io::Result<()> {
    out.write_all(b"<p>Load: ")?;
    write_load(out, &outcome.plan.load)?;
    out.write_all(b"<br>\nUpkeep: ")?;
    write_upkeep(out, &outcome.plan.upkeep)?;
    out.write_all(b"</p>\n")
}

/// Writes what came in.
fn write_load<W: Write>(out: &mut W, load: &Load) -> io::Result<()> {
    write_amount(out, time_of(load.seconds), " of ")?;
    write_amount(out, size_of(load.rate), " a day, entries of ")?;
    write_count(out, load.entry, " bytes, ledgers of ")?;
    write_amount(out, size_of(load.ledger), " on average, ")?;
    let writers = u64::from(load.writers);
    write_count(out, writers, " of them written at the same time; seed ")?;
    write_count(out, load.seed, ".")
}

/// Writes how the bookie was kept.
fn write_upkeep<W: Write>(out: &mut W, upkeep: &Upkeep) -> io::Result<()> {
    let cache = u64::from(upkeep.settings.cache_limit);
    write_count(out, cache, " bytes of cache, ")?;
    let slots = u64::from(upkeep.settings.slots);
    write_count(
        out,
        slots,
        " slots for logs. Logs without live entries are removed ",
    )?;
    write_period(out, upkeep.collect_every, ". Minor compactions: ")?;
    write_period(out, upkeep.minor_every, "; major ones: ")?;
    write_period(out, upkeep.major_every, ".")
}

/// Writes a number and the text after it.
fn write_count<W: Write>(out: &mut W, number: u64, after: &'static str) -> io::Result<()> {
    write_number(out, number)?;
    out.write_all(after.as_bytes())
}

/// Writes an amount with its unit, and the text after it.
fn write_amount<W: Write>(out: &mut W, amount: Amount, after: &'static str) -> io::Result<()> {
    write_count(out, amount.number, amount.unit)?;
    out.write_all(after.as_bytes())
}

/// Writes after which time something is done again, and the text after it; 0 seconds: never.
fn write_period<W: Write>(out: &mut W, seconds: u64, after: &'static str) -> io::Result<()> {
    if seconds == 0 {
        out.write_all(b"never")?;
        return out.write_all(after.as_bytes());
    }
    out.write_all(b"every ")?;
    write_amount(out, time_of(seconds), after)
}
