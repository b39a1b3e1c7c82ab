//! Compact bars of many logs: a column for each, in strips.

use super::bars::{least_of, name_of, write_title};
use crate::number::write_number;
use crate::scale::scaled;
use crate::{LogRow, Part};
use std::io;
use std::io::Write;

/// The greatest number of columns in a strip.
const COLUMNS: usize = 300;

/// The width of a strip of so many columns.
const WIDTH: u64 = 1200;

/// The height of the column of the largest log.
const HEIGHT: u64 = 60;

/// The least height of a piece of torn or doubtful bytes.
const LEAST: u64 = 3;

/// The height of the mark of a fault, which is above all columns.
const MARK: u64 = 5;

/// Writes the strips of these logs. The column of the largest log, of `most` bytes, has the full
/// height.
pub(super) fn write_columns<W: Write>(logs: &[LogRow], most: u64, out: &mut W) -> io::Result<()> {
    out.write_all(b"<p>Each column is a log; its height is the size of the file, the largest ")?;
    write_number(out, most)?;
    out.write_all(
        b" bytes. Rest the pointer on a column for its numbers. A red mark above a column is a fault.</p>\n",
    )?;
    for strip in logs.chunks(COLUMNS) {
        write_strip(strip, most, out)?;
    }
    Ok(())
}

/// Writes a strip of columns, with the first and the last id above it.
fn write_strip<W: Write>(strip: &[LogRow], most: u64, out: &mut W) -> io::Result<()> {
    let first = strip.first().map_or(0, |row| row.log);
    let last = strip.last().map_or(0, |row| row.log);
    write!(
        out,
        "<div class=\"strip\"><p class=\"quiet\">logs {first} to {last}</p>\n<svg role=\"img\" viewBox=\"0 -8 {WIDTH} 68\">\n"
    )?;
    let mut left = 0u64;
    for row in strip {
        write_column(row, most, left, out)?;
        left = left.saturating_add(WIDTH / COLUMNS as u64);
    }
    out.write_all(b"</svg></div>\n")
}

/// Writes the column of a log.
fn write_column<W: Write>(row: &LogRow, most: u64, left: u64, out: &mut W) -> io::Result<()> {
    out.write_all(b"<g>")?;
    write_title(row, out)?;
    if row.fault.is_some() {
        write!(
            out,
            "<rect class=\"doubtful\" x=\"{left}\" y=\"-8\" width=\"3\" height=\"{MARK}\"/>"
        )?;
    }
    let mut before = 0u64;
    for part in Part::ALL {
        let bytes = part.bytes(row);
        let after = before.saturating_add(bytes);
        let to = scaled(after, most, HEIGHT);
        let least = to.saturating_sub(least_of(part, bytes, LEAST));
        let from = scaled(before, most, HEIGHT).min(least);
        if from < to {
            write_piece(name_of(part), left, HEIGHT - to, to - from, out)?;
        }
        before = after;
    }
    out.write_all(b"</g>\n")
}

/// Writes a piece of a column.
fn write_piece<W: Write>(
    name: &'static str,
    left: u64,
    top: u64,
    height: u64,
    out: &mut W,
) -> io::Result<()> {
    write!(
        out,
        "<rect class=\"{name}\" x=\"{left}\" y=\"{top}\" width=\"3\" height=\"{height}\"/>"
    )
}
