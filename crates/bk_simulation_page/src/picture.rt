//! Pictures of curves over the days of a run.

ghost use Rattle.std.specs.Prelude.{◌≡◌, ◌≤◌, ◌<◌, ◌*◌, ◌/◌};

use bk_report::write_number;
use std::io;
use std::io::Write;

/// Seconds of a day.
pub(crate) const DAY: u64 = 86_400;

/// The place of the curves in their picture.
const LEFT: u64 = 90;

const WIDTH: u64 = 660;

const BOTTOM: u64 = 220;

const HEIGHT: u64 = 200;

/// The most lines across the picture, beside the lowest.
const LEVELS: u64 = 4;

/// The most days that are named below the picture, beside the first.
const DAYS: u64 = 5;

/// A point of a curve: seconds since the begin of the run, and what there was then.
#[derive(Clone, Copy)]
pub(crate) struct Point {
    pub time: u64,
    pub amount: u64,
}

/// A curve: the class of its line, and its points.
#[derive(Drop)]
pub(crate) struct Curve {
    pub class: &'static str,
    pub points: Vec<Point>,
}

/// Returns a part of a length, as an amount is of the most; at most the length.
fn scaled(amount: u64, most: u64, length: u64) -> u64
    ensures within { result ≤ length }
    ensures exact { amount ≤ most → 0 < most → result ≡ amount * length / most }
    ensures full { most < amount → 0 < most → result ≡ length }
    ensures empty { most ≡ 0 → result ≡ 0 }
{
    if most == 0 {
        return 0;
    }
    if amount > most {
        return length;
    }
    (u128::from(amount) * u128::from(length) / u128::from(most)) as u64
}

/// Returns the place of a time from the left, in a run of these seconds.
fn place(time: u64, seconds: u64) -> u64
    ensures { (90 ≤ result) × (result ≤ 750) }
{
    LEFT.saturating_add(scaled(time, seconds, WIDTH))
}

/// Returns the place of an amount from the top.
fn level(amount: u64, most: u64) -> u64
    ensures { (20 ≤ result) × (result ≤ 220) }
{
    BOTTOM.saturating_sub(scaled(amount, most, HEIGHT))
}

/// Returns the greatest amount of the curves.
fn most_of(curves: &[Curve]) -> u64 {
    let mut most = 0u64;
    for curve in curves {
        for point in &curve.points {
            most = most.max(point.amount);
        }
    }
    most
}

/// Returns a round number, 1, 2 or 5 times a power of ten, which is not less than this one.
fn round_step(least: u64) -> u64
    ensures { least ≤ result }
{
    let mut step = 1u64;
    for turn in 0..58u32 {
        if step >= least {
            return step;
        }
        step = if turn % 3 == 1 {
            (step / 2).saturating_mul(5)
        } else {
            step.saturating_mul(2)
        };
    }
    least
}

/// Writes a picture of curves over a run of these seconds.
///
/// # Errors
///
/// That of the writer.
pub(crate) fn write_picture<W: Write>(
    out: &mut W,
    title: &'static str,
    curves: &[Curve],
    seconds: u64,
) -> io::Result<()> {
    let most = most_of(curves);
    let step = round_step(most.div_ceil(LEVELS)).max(1);
    let levels = most.div_ceil(step).max(1);
    let top = step.saturating_mul(levels);
    out.write_all(b"<svg role=\"img\" viewBox=\"0 0 800 266\"><title>")?;
    out.write_all(title.as_bytes())?;
    out.write_all(b"</title>\n")?;
    for number in 0..=levels {
        write_level(out, step.saturating_mul(number), top)?;
    }
    write_days(out, seconds)?;
    for curve in curves {
        write_curve(out, curve, top, seconds)?;
    }
    out.write_all(b"</svg>\n")
}

/// Writes a line across the picture, with its amount.
fn write_level<W: Write>(out: &mut W, amount: u64, most: u64) -> io::Result<()> {
    let at = level(amount, most);
    let right = LEFT + WIDTH;
    let text = at.saturating_add(4);
    write!(
        out,
        "<path class=\"grid\" d=\"M{LEFT} {at}H{right}\"/><text x=\"82\" y=\"{text}\" text-anchor=\"end\">"
    )?;
    write_number(out, amount)?;
    out.write_all(b"</text>\n")
}

/// Writes days below the picture.
fn write_days<W: Write>(out: &mut W, seconds: u64) -> io::Result<()> {
    let days = seconds / DAY;
    let step = days.div_ceil(DAYS).max(1);
    for number in 0..=DAYS {
        let day = step.saturating_mul(number);
        if day <= days {
            write_day(out, day, seconds)?;
        }
    }
    Ok(())
}

/// Writes a day below the picture.
fn write_day<W: Write>(out: &mut W, day: u64, seconds: u64) -> io::Result<()> {
    let at = place(day.saturating_mul(DAY), seconds);
    write!(
        out,
        "<text x=\"{at}\" y=\"252\" text-anchor=\"middle\">day {day}</text>\n"
    )
}

/// Writes a curve.
fn write_curve<W: Write>(out: &mut W, curve: &Curve, most: u64, seconds: u64) -> io::Result<()> {
    out.write_all(b"<polyline class=\"")?;
    out.write_all(curve.class.as_bytes())?;
    out.write_all(b"\" points=\"")?;
    for point in &curve.points {
        let from_left = place(point.time, seconds);
        let from_top = level(point.amount, most);
        write!(out, "{from_left},{from_top} ")?;
    }
    out.write_all(b"\"/>\n")
}
