//! What a compaction would free, as a curve over the threshold.

ghost use Rattle.std.specs.Prelude.{◌≤◌};

use super::thresholds::write_table;
use crate::scale::{scaled, write_share};
use crate::size::{write_size, write_titled_size};
use crate::{Effect, LogRow, Report, effect_of, write_number};
use std::io;
use std::io::Write;

/// The number of steps of the curve, each of `STEP` thousandths.
const STEPS: u32 = 40;

const STEP: u32 = 25;

/// The place of the curve in its picture.
const LEFT: u64 = 80;

const WIDTH: u64 = 660;

const BOTTOM: u64 = 240;

const HEIGHT: u64 = 210;

/// The lines across the picture: how many, and the bytes from one to the next.
#[derive(Clone, Copy)]
struct Axis {
    lines: u64,
    step: u64,
}

impl Axis {
    /// Returns at most four lines for so many bytes, whose step is a power of two.
    fn of(most: u64) -> Axis {
        let step = most.div_ceil(4).max(1).next_power_of_two();
        Axis {
            lines: most.div_ceil(step).max(1),
            step,
        }
    }

    /// Returns the bytes of the highest line.
    fn top(self) -> u64 {
        self.step.saturating_mul(self.lines)
    }
}

/// A line of the picture.
#[derive(Clone, Copy)]
enum Line {
    Freed,
    Copied,
}

impl Line {
    /// Returns the bytes that the line has for this effect.
    fn bytes(self, effect: Effect) -> u64 {
        match self {
            Line::Freed => effect.freed,
            Line::Copied => effect.copied,
        }
    }
}

static TEXT: &str = "<p>A compaction copies the live entries of each log whose live share is below
the threshold to a new log, and removes the old one. It removes a log without a live entry at any
threshold. The curve is computed at each 2.5 %.</p>
";

static KEY: &str = "<ul class=\"legend\">
<li><svg class=\"key\" viewBox=\"0 0 30 10\"><path class=\"freed\" d=\"M0 5h30\"/></svg><span><strong>freed</strong> the bytes by which the files get shorter</span></li>
<li><svg class=\"key\" viewBox=\"0 0 30 10\"><path class=\"copied\" d=\"M0 5h30\"/></svg><span><strong>copied</strong> the bytes of live entries that are written again</span></li>
</ul>
";

/// Writes the section of the compaction; nothing if there is no log. The files have `all` bytes.
pub(super) fn write_section<W: Write>(report: &Report, all: u64, out: &mut W) -> io::Result<()> {
    let logs = report.logs.as_slice();
    if logs.is_empty() {
        return Ok(());
    }
    out.write_all(b"<section>\n<h2>What a compaction would free</h2>\n")?;
    out.write_all(TEXT.as_bytes())?;
    write_kind(b"minor", report.thresholds.minor, logs, all, out)?;
    write_kind(b"major", report.thresholds.major, logs, all, out)?;
    write_left_out(logs, out)?;
    out.write_all(KEY.as_bytes())?;
    write_picture(report, logs, out)?;
    write_table(logs, report.thresholds, all, out)?;
    out.write_all(b"</section>\n")
}

/// Writes what a kind of compaction would free, with its threshold. The files have `all` bytes.
fn write_kind<W: Write>(
    name: &'static [u8],
    threshold: u32,
    logs: &[LogRow],
    all: u64,
    out: &mut W,
) -> io::Result<()> {
    let effect = effect_of(logs, threshold);
    out.write_all(b"<p>A <strong>")?;
    out.write_all(name)?;
    write!(
        out,
        "</strong> compaction, with a threshold of {}.{} %, would free <strong>",
        threshold / 10,
        threshold % 10
    )?;
    write_titled_size(out, effect.freed)?;
    out.write_all(b"</strong>, ")?;
    write_share(out, effect.freed, all)?;
    out.write_all(b" of all bytes.</p>\n")
}

/// Writes how many logs are not in the curve.
fn write_left_out<W: Write>(logs: &[LogRow], out: &mut W) -> io::Result<()> {
    let mut faulty = 0u64;
    let mut kept = 0u64;
    for row in logs {
        faulty = faulty.saturating_add(u64::from(row.fault.is_some()));
        kept = kept.saturating_add(u64::from(row.is_kept));
    }
    if faulty > 0 {
        out.write_all(b"<p class=\"bad\">Logs with a fault, which are left out here: ")?;
        write_number(out, faulty)?;
        out.write_all(b". No compaction runs before they are repaired or moved away.</p>\n")?;
    }
    if kept > 0 {
        out.write_all(b"<p>Files shorter than a header, which a compaction leaves as they are: ")?;
        write_number(out, kept)?;
        out.write_all(b".</p>\n")?;
    }
    Ok(())
}

/// Writes the picture: the lines across it, the marks of the thresholds, and the two curves.
fn write_picture<W: Write>(report: &Report, logs: &[LogRow], out: &mut W) -> io::Result<()> {
    let axis = Axis::of(most_of(logs));
    let most = axis.top();
    out.write_all(
        b"<svg class=\"curve\" role=\"img\" viewBox=\"0 0 780 290\"><title>Bytes freed and copied by threshold</title>\n",
    )?;
    for line in 0..=axis.lines {
        write_level(axis.step.saturating_mul(line), most, out)?;
    }
    for tenth in 0..=10 {
        write_tick(tenth, out)?;
    }
    write_mark(b"minor", report.thresholds.minor, out)?;
    write_mark(b"major", report.thresholds.major, out)?;
    write_line(b"copied", Line::Copied, logs, most, out)?;
    write_line(b"freed", Line::Freed, logs, most, out)?;
    write_dots(logs, most, out)?;
    out.write_all(
        b"<text x=\"410\" y=\"284\" text-anchor=\"middle\">threshold: logs with a smaller live share are compacted</text>\n</svg>\n",
    )
}

/// Returns the most bytes that the curve has.
fn most_of(logs: &[LogRow]) -> u64 {
    let mut most = 0u64;
    for step in 0..=STEPS {
        let effect = effect_of(logs, step * STEP);
        most = most.max(effect.freed).max(effect.copied);
    }
    most
}

/// Returns the place of a threshold from the left.
fn place(threshold: u32) -> u64 {
    LEFT + scaled(u64::from(threshold), 1000, WIDTH)
}

/// Returns the place of an amount from the top.
fn level(bytes: u64, most: u64) -> u64
    ensures { result ≤ BOTTOM }
{
    BOTTOM - scaled(bytes, most, HEIGHT)
}

/// Writes a line across the picture, with its amount.
fn write_level<W: Write>(bytes: u64, most: u64, out: &mut W) -> io::Result<()> {
    let at = level(bytes, most);
    let right = LEFT + WIDTH;
    write!(
        out,
        "<path class=\"grid\" d=\"M{LEFT} {at}H{right}\"/><text x=\"72\" y=\"{}\" text-anchor=\"end\">",
        at + 4
    )?;
    write_size(out, bytes)?;
    out.write_all(b"</text>\n")
}

/// Writes a threshold below the picture, in tenths.
fn write_tick<W: Write>(tenth: u32, out: &mut W) -> io::Result<()> {
    let at = place(tenth.min(10) * 100);
    let hundredths = tenth.min(10) * 10;
    write!(
        out,
        "<text x=\"{at}\" y=\"260\" text-anchor=\"middle\">{hundredths} %</text>\n"
    )
}

/// Writes the mark of a threshold.
fn write_mark<W: Write>(name: &'static [u8], threshold: u32, out: &mut W) -> io::Result<()> {
    let at = place(threshold);
    write!(
        out,
        "<path class=\"mark\" d=\"M{at} 20V{BOTTOM}\"/><text x=\"{at}\" y=\"14\" text-anchor=\"middle\">"
    )?;
    out.write_all(name)?;
    out.write_all(b"</text>\n")
}

/// Writes a curve.
fn write_line<W: Write>(
    name: &'static [u8],
    line: Line,
    logs: &[LogRow],
    most: u64,
    out: &mut W,
) -> io::Result<()> {
    out.write_all(b"<polyline class=\"")?;
    out.write_all(name)?;
    out.write_all(b"\" points=\"")?;
    for step in 0..=STEPS {
        let threshold = step * STEP;
        let at = level(line.bytes(effect_of(logs, threshold)), most);
        write!(out, "{},{at} ", place(threshold))?;
    }
    out.write_all(b"\"/>\n")
}

/// Writes a dot for each step, with the effect in its title.
fn write_dots<W: Write>(logs: &[LogRow], most: u64, out: &mut W) -> io::Result<()> {
    for step in 0..=STEPS {
        let threshold = step * STEP;
        let effect = effect_of(logs, threshold);
        let at = level(effect.freed, most);
        write!(
            out,
            "<circle class=\"dot\" cx=\"{}\" cy=\"{at}\" r=\"7\"><title>below {}.{} %: ",
            place(threshold),
            threshold / 10,
            threshold % 10
        )?;
        write_effect(effect, out)?;
        out.write_all(b"</title></circle>\n")?;
    }
    Ok(())
}

/// Writes an effect in words.
fn write_effect<W: Write>(effect: Effect, out: &mut W) -> io::Result<()> {
    write_number(out, effect.logs)?;
    out.write_all(b" logs, ")?;
    write_number(out, effect.copied)?;
    out.write_all(b" bytes copied, ")?;
    write_number(out, effect.freed)?;
    out.write_all(b" bytes freed")
}
