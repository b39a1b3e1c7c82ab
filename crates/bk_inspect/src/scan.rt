//! `scan`: the entries of a log.

ghost use Rattle.std.specs.Prelude.{IsTrue, OnOk, Some};
ghost use Rattle.std.specs.Io.KnownBytes.{Appends};
ghost use Rattle.bk_inspect.specs.Forms.{followed};
ghost use Rattle.bk_inspect.specs.Reading.{OnlyReads};
ghost use Rattle.bk_inspect.specs.Shown.{IsScanText, Prints, WritesText};
ghost use Rattle.bk_inspect.specs.Texts.{counts_line, counts_text, found_line, found_text};
ghost use Rattle.bk_inspect.specs.declared.command.DirCommand.TheVariants as commands;

use crate::calls::view_of;
use crate::form::write_row;
use crate::header::HEADER;
use crate::{DirFault, Form};
use bk_disk::{LogDisk, LogView};
use bk_log::{Found, Scanner};
use serde::Serialize;
use std::alloc::Global;
use std::fmt;
use std::fmt::{Display, Formatter};
use std::io::Write;

/// Writes the entries of a log in file order, `AT LEDGER ENTRY SIZE`, then the number of entries,
/// of foreign records and of torn bytes. The header is not read.
pub(crate) fn show_scan<D: LogDisk, W: Write>(
    alloc: Global,
    disk: &mut D,
    log: u32,
    form: Form,
    writer: &mut W,
) -> Result<(), DirFault>
    ensures reads { OnlyReads (D.honest disk.old) (D.files disk.old) (D.honest disk.new) (D.files disk.new) }
    ensures ok { IsTrue (D.honest disk.old) → OnOk result (Prints (commands.Scan log) (D.files disk.old)
        (followed form (W.contents writer.old)) (followed form (W.contents writer.new))) }
{
    let view = view_of(alloc, disk, log)?;
    show_entries(alloc, &view, form, writer)
}

/// Writes the entries of a view.
fn show_entries<V: LogView, W: Write>(
    alloc: Global,
    view: &V,
    form: Form,
    writer: &mut W,
) -> Result<(), DirFault>
    ensures { IsTrue (V.honest view.now) → OnOk result (WritesText (IsScanText (V.bytes view.now))
        (followed form (W.contents writer.old)) (followed form (W.contents writer.new))) }
{
    let end = view.end().max(HEADER);
    let mut scanner = Scanner::new(view, alloc, HEADER, end);
    let mut entries: u64 = 0;
    while let Some(found) = scanner.next()? {
        write_entry(alloc, found, form, writer)?;
        entries += 1;
    }
    write_counts(
        alloc,
        entries,
        scanner.foreign(),
        scanner.torn(),
        form,
        writer,
    )?;
    Ok(())
}

/// The row of an entry.
#[derive(Clone, Copy, Serialize)]
struct EntryRow {
    at: u64,
    ledger: u64,
    entry: u64,
    size: u32,
}

impl Display for EntryRow {
    ghost output = { λ row. Some (found_text row.at row.ledger row.entry row.size) };

    fn fmt<W: fmt::Write>(&self, f: &mut Formatter<W>) -> fmt::Result {
        write!(
            f,
            "{} {} {} {}",
            self.at, self.ledger, self.entry, self.size
        )
    }
}

/// Writes the row of an entry.
pub(crate) fn write_entry<W: Write>(
    alloc: Global,
    found: Found,
    form: Form,
    writer: &mut W,
) -> Result<(), DirFault>
    ensures { OnOk result (Appends (followed form (W.contents writer.old)) (followed form (W.contents writer.new))
        (found_line found.at found.key.ledger found.key.entry found.size)) }
{
    let row = EntryRow {
        at: found.at,
        ledger: found.key.ledger(),
        entry: found.key.entry(),
        size: found.size,
    };
    write_row(alloc, form, &row, writer)
}

/// The last row of a scan.
#[derive(Clone, Copy, Serialize)]
struct CountsRow {
    entries: u64,
    foreign: u64,
    torn: u64,
}

impl Display for CountsRow {
    ghost output = { λ row. Some (counts_text row.entries row.foreign row.torn) };

    fn fmt<W: fmt::Write>(&self, f: &mut Formatter<W>) -> fmt::Result {
        write!(
            f,
            "entries {} foreign {} torn {}",
            self.entries, self.foreign, self.torn
        )
    }
}

/// Writes the number of entries, of foreign records and of torn bytes.
pub(crate) fn write_counts<W: Write>(
    alloc: Global,
    entries: u64,
    foreign: u64,
    torn: u64,
    form: Form,
    writer: &mut W,
) -> Result<(), DirFault>
    ensures { OnOk result (Appends (followed form (W.contents writer.old)) (followed form (W.contents writer.new))
        (counts_line entries foreign torn)) }
{
    let row = CountsRow {
        entries,
        foreign,
        torn,
    };
    write_row(alloc, form, &row, writer)
}
