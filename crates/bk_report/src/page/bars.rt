//! A bar: the parts of a log side by side, or one amount.

use crate::number::write_number;
use crate::scale::{scaled, write_share};
use crate::{LogRow, Part};
use std::io;
use std::io::Write;

/// The length of the longest bar.
pub(super) const FULL: u64 = 1000;

/// The least length of a piece of torn or doubtful bytes in a bar, so that it can be seen.
const LEAST: u64 = 12;

/// Returns the least length of the piece of a part, which is `least` for torn and doubtful bytes.
pub(super) fn least_of(part: Part, bytes: u64, least: u64) -> u64 {
    match part {
        Part::Torn | Part::Doubtful if bytes > 0 => least,
        _ => 0,
    }
}

/// Returns the name of a part, which is its class in the style too.
pub(super) fn name_of(part: Part) -> &'static str {
    match part {
        Part::Live => "live",
        Part::Dead => "dead",
        Part::Foreign => "foreign",
        Part::Torn => "torn",
        Part::Doubtful => "doubtful",
        Part::Rest => "rest",
    }
}

/// Writes the bar of a log. The bar of the largest log, of `most` bytes, has the full length.
pub(super) fn write_log_bar<W: Write>(row: &LogRow, most: u64, out: &mut W) -> io::Result<()> {
    out.write_all(
        b"<svg class=\"bar\" role=\"img\" viewBox=\"0 0 1000 10\" preserveAspectRatio=\"none\">",
    )?;
    write_title(row, out)?;
    let mut before = 0u64;
    for part in Part::ALL {
        let bytes = part.bytes(row);
        let after = before.saturating_add(bytes);
        let to = scaled(after, most, FULL);
        let least = to.saturating_sub(least_of(part, bytes, LEAST));
        let from = scaled(before, most, FULL).min(least);
        if from < to {
            write_span(name_of(part), from, to - from, out)?;
        }
        before = after;
    }
    out.write_all(b"</svg>")
}

/// Writes a piece of a bar.
fn write_span<W: Write>(name: &'static str, from: u64, width: u64, out: &mut W) -> io::Result<()> {
    write!(
        out,
        "<rect class=\"{name}\" x=\"{from}\" width=\"{width}\" height=\"10\"/>"
    )
}

/// Writes the title of a log: its parts with their bytes.
pub(super) fn write_title<W: Write>(row: &LogRow, out: &mut W) -> io::Result<()> {
    write!(out, "<title>log {} ({:x}.log): ", row.log, row.log)?;
    write_number(out, row.bytes)?;
    out.write_all(b" bytes")?;
    for part in Part::ALL {
        let bytes = part.bytes(row);
        if bytes > 0 {
            write!(out, ", {} ", name_of(part))?;
            write_number(out, bytes)?;
        }
    }
    out.write_all(b"; live share ")?;
    write_share(out, row.live, row.live.saturating_add(row.dead))?;
    out.write_all(b"</title>")
}

/// Writes the bar of one amount of a class of the style. The bar of `most` has the full length.
pub(super) fn write_amount_bar<W: Write>(
    name: &'static str,
    amount: u64,
    most: u64,
    out: &mut W,
) -> io::Result<()> {
    out.write_all(
        b"<svg class=\"bar\" role=\"img\" viewBox=\"0 0 1000 10\" preserveAspectRatio=\"none\"><title>",
    )?;
    write_number(out, amount)?;
    out.write_all(b"</title>")?;
    write_span(name, 0, scaled(amount, most, FULL), out)?;
    out.write_all(b"</svg>")
}
