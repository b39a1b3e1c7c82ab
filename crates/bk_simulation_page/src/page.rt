//! The page: the table, and the curves of each run.

ghost use Rattle.std.specs.Prelude.{◌≡◌, ◌↔◌, ◌≤◌, ◌<◌, ◌*◌, ◌/◌, ◌^◌};
ghost use Rattle.bk_simulation_page.specs.Units.{unit_bytes};

use crate::load::write_settings;
use crate::markup;
use crate::picture::{Curve, DAY, Point, write_picture};
use crate::table::{write_name, write_table};
use bk_report::write_number;
use bk_simulation::Outcome;
use std::alloc::{AllocError, Global};
use std::io;
use std::io::Write;

/// Bytes of a KiB.
const KIB: u64 = 1024;

/// Bytes of a MiB.
const MIB: u64 = 1_048_576;

/// Bytes of a GiB.
const GIB: u64 = 1_073_741_824;

/// How many units a curve has at least, if there is a smaller unit.
const FINE: u64 = 64;

/// The unit of a curve of bytes.
#[derive(Clone, Copy)]
enum Unit {
    Kib,
    Mib,
    Gib,
}

impl Unit {
    /// Returns the unit of a curve with this peak.
    fn of(peak: u64) -> Unit
        ensures kib { result ≡ Unit.Kib ↔ peak < 64 * 2 ^ 20 }
        ensures gib { result ≡ Unit.Gib ↔ 64 * 2 ^ 30 ≤ peak }
    {
        if peak < FINE * MIB {
            Unit::Kib
        } else if peak < FINE * GIB {
            Unit::Mib
        } else {
            Unit::Gib
        }
    }

    /// Returns bytes in this unit.
    fn amount(self, bytes: u64) -> u64
        ensures { result ≡ bytes / unit_bytes self }
    {
        match self {
            Unit::Kib => bytes / KIB,
            Unit::Mib => bytes / MIB,
            Unit::Gib => bytes / GIB,
        }
    }

    /// Returns its name.
    fn name(self) -> &'static str {
        match self {
            Unit::Kib => "KiB",
            Unit::Mib => "MiB",
            Unit::Gib => "GiB",
        }
    }
}

/// Writes the runs as an HTML page: the load and the upkeep, of the first run, a table with a row of
/// each run, and of each run the bytes of the logs and their number over its days. The page loads
/// nothing and runs no script.
///
/// # Errors
///
/// That of the writer; `OutOfMemory` if memory is refused.
pub fn write_page<W: Write>(alloc: Global, out: &mut W, outcomes: &[Outcome]) -> io::Result<()> {
    out.write_all(markup::HEAD.as_bytes())?;
    out.write_all(markup::STYLE.as_bytes())?;
    out.write_all(markup::BEGIN.as_bytes())?;
    if let Some(outcome) = outcomes.first() {
        write_settings(out, outcome)?;
    }
    write_table(out, outcomes)?;
    for outcome in outcomes {
        write_run(alloc, out, outcome)?;
    }
    out.write_all(markup::FOOT.as_bytes())
}

/// Writes the section of a run.
fn write_run<W: Write>(alloc: Global, out: &mut W, outcome: &Outcome) -> io::Result<()> {
    out.write_all(b"<section>\n")?;
    write_head(out, outcome)?;
    let unit = Unit::of(outcome.peak_disk);
    let Ok(curves) = curves_of(alloc, outcome, unit) else {
        return Err(io::ErrorKind::OutOfMemory.into());
    };
    let seconds = outcome.plan.load.seconds;
    write!(out, "<p>Bytes in {}: ", unit.name())?;
    out.write_all(markup::KEY_BYTES.as_bytes())?;
    write_picture(
        out,
        "bytes of logs by day",
        curves.bytes.as_slice(),
        seconds,
    )?;
    out.write_all(markup::KEY_LOGS.as_bytes())?;
    write_picture(out, "logs by day", curves.logs.as_slice(), seconds)?;
    out.write_all(b"</section>\n")
}

/// Writes the head of a section: the settings, and when the slots were full, if they were.
fn write_head<W: Write>(out: &mut W, outcome: &Outcome) -> io::Result<()> {
    let settings = outcome.plan.upkeep.settings;
    out.write_all(b"<h2>Retention ")?;
    write_name(out, outcome)?;
    let minor = settings.minor;
    let major = settings.major;
    write!(
        out,
        " days; thresholds {minor}\u{2030} and {major}\u{2030}; log limit "
    )?;
    write_number(out, u64::from(settings.log_limit))?;
    out.write_all(b" bytes</h2>\n")?;
    if let Some(second) = outcome.full_at {
        let tenths = second.saturating_mul(10) / DAY;
        let day = tenths / 10;
        let part = tenths % 10;
        write!(
            out,
            "<p>The run ended on day {day}.{part}: no slot for a further log was free.</p>\n"
        )?;
    }
    Ok(())
}

/// The curves of a run.
#[derive(Drop)]
struct Curves {
    bytes: Vec<Curve>,
    logs: Vec<Curve>,
}

/// Returns a curve without points.
fn curve(alloc: Global, class: &'static str) -> Curve {
    Curve {
        class,
        points: Vec::new(alloc),
    }
}

/// Returns the curves of a run, its bytes in a unit.
fn curves_of(alloc: Global, outcome: &Outcome, unit: Unit) -> Result<Curves, AllocError> {
    let mut disk = curve(alloc, "disk");
    let mut live = curve(alloc, "live");
    let mut logs = curve(alloc, "logs");
    for sample in &outcome.samples {
        let time = sample.time;
        disk.points.push(Point {
            time,
            amount: unit.amount(sample.disk),
        })?;
        live.points.push(Point {
            time,
            amount: unit.amount(sample.live),
        })?;
        logs.points.push(Point {
            time,
            amount: sample.logs,
        })?;
    }
    Ok(Curves {
        bytes: vec![in alloc; disk, live]?,
        logs: vec![in alloc; logs]?,
    })
}
