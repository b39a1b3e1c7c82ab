//! The sizes of entries.

use super::bars::write_amount_bar;
use crate::number::write_number;
use crate::scale::write_share;
use crate::size::write_titled_size;
use crate::{CLASSES, Histogram};
use std::io;
use std::io::Write;

/// Writes the section of the sizes: a row for each class from the first to the last that has an
/// entry; nothing if none has.
pub(super) fn write_section<W: Write>(sizes: &Histogram, out: &mut W) -> io::Result<()> {
    let end = end_of(sizes);
    if end == 0 {
        return Ok(());
    }
    out.write_all(
        b"<section>\n<h2>Sizes of entries</h2>\n<p>The size of an entry is that of its record, with the length field and the two ids.</p>\n<div class=\"scroll\"><table class=\"narrow\">\n<thead><tr><th class=\"text\">From</th><th class=\"text\">Below</th><th class=\"text\" colspan=\"2\">Entries</th><th>Share</th></tr></thead>\n<tbody>\n",
    )?;
    write_rows(sizes, end, out)?;
    out.write_all(b"</tbody>\n</table></div>\n</section>\n")
}

/// Writes a row for each class from the first that has an entry to `end`.
fn write_rows<W: Write>(sizes: &Histogram, end: usize, out: &mut W) -> io::Result<()> {
    let mut most = 0u64;
    let mut all = 0u64;
    for count in &sizes.counts {
        most = most.max(*count);
        all = all.saturating_add(*count);
    }
    let mut is_begun = false;
    for (class, count) in sizes.counts.iter().enumerate() {
        is_begun = is_begun || *count > 0;
        if is_begun && class < end {
            write_row(class, *count, most, all, out)?;
        }
    }
    Ok(())
}

/// Returns the number of classes up to the last that has an entry.
fn end_of(sizes: &Histogram) -> usize {
    let mut end = 0;
    for (class, count) in sizes.counts.iter().enumerate() {
        if *count > 0 {
            end = class + 1;
        }
    }
    end
}

/// Writes the row of a class.
fn write_row<W: Write>(
    class: usize,
    count: u64,
    most: u64,
    all: u64,
    out: &mut W,
) -> io::Result<()> {
    out.write_all(b"<tr><td class=\"text\">")?;
    write_titled_size(out, bound_of(class))?;
    out.write_all(b"</td><td class=\"text\">")?;
    write_titled_size(out, bound_of(class.saturating_add(1)))?;
    out.write_all(b"</td><td class=\"chart\">")?;
    write_amount_bar("live", count, most, out)?;
    out.write_all(b"</td><td>")?;
    write_number(out, count)?;
    out.write_all(b"</td><td>")?;
    write_share(out, count, all)?;
    out.write_all(b"</td></tr>\n")
}

/// Returns the least size of a class; the greatest number for what is after the last.
fn bound_of(class: usize) -> u64 {
    if class < CLASSES {
        1 << class
    } else {
        u64::MAX
    }
}
