//! `scan` of chosen entries of a log.

ghost use Rattle.std.specs.Prelude.{◌≡◌, IsTrue, OnOk};
ghost use Rattle.bk_inspect.specs.Forms.{followed};
ghost use Rattle.bk_inspect.specs.Parts.{is_taken, IsPartText};
ghost use Rattle.bk_inspect.specs.Reading.{OnlyReads};
ghost use Rattle.bk_inspect.specs.Shown.{Prints, WritesText};
ghost use Rattle.bk_inspect.specs.declared.command.DirCommand.TheVariants as commands;

use crate::calls::view_of;
use crate::data::{data_text, show_data};
use crate::form::write_object;
use crate::header::HEADER;
use crate::scan::{write_counts, write_entry};
use crate::{DirFault, Form, ScanChoice};
use bk_disk::{LogDisk, LogView};
use bk_log::{Found, Scanner};
use serde::Serialize;
use std::alloc::Global;
use std::io::Write;

/// Writes the chosen entries of a log in file order, `AT LEDGER ENTRY SIZE`, with the data if it is
/// asked for; then the number written, of foreign records and of torn bytes. The header is not
/// read.
pub(crate) fn show_part<D: LogDisk, W: Write>(
    alloc: Global,
    disk: &mut D,
    log: u32,
    choice: ScanChoice,
    form: Form,
    writer: &mut W,
) -> Result<(), DirFault>
    ensures reads { OnlyReads (D.honest disk.old) (D.files disk.old) (D.honest disk.new) (D.files disk.new) }
    ensures ok { IsTrue (D.honest disk.old) → OnOk result (Prints (commands.ScanPart log choice) (D.files disk.old)
        (followed form (W.contents writer.old)) (followed form (W.contents writer.new))) }
{
    let view = view_of(alloc, disk, log)?;
    if choice.data {
        show_with_data(alloc, &view, choice, form, writer)
    } else {
        show_chosen(alloc, &view, choice, form, writer)
    }
}

/// Returns whether an entry is chosen.
fn is_chosen(choice: &ScanChoice, found: &Found) -> bool
    ensures { result ≡ is_taken choice.now found.now.at found.now.key.ledger }
{
    match choice.ledger {
        Some(ledger) => choice.from <= found.at && ledger == found.key.ledger(),
        None => choice.from <= found.at,
    }
}

/// Writes the chosen entries of a view.
fn show_chosen<V: LogView, W: Write>(
    alloc: Global,
    view: &V,
    choice: ScanChoice,
    form: Form,
    writer: &mut W,
) -> Result<(), DirFault>
    ensures { IsTrue (V.honest view.now) → OnOk result (WritesText (IsPartText choice (V.bytes view.now))
        (followed form (W.contents writer.old)) (followed form (W.contents writer.new))) }
{
    let end = view.end().max(HEADER);
    let mut scanner = Scanner::new(view, alloc, HEADER, end);
    let mut entries: u64 = 0;
    while let Some(found) = scanner.next()? {
        if is_chosen(&choice, &found) {
            write_entry(alloc, found, form, writer)?;
            entries += 1;
        }
    }
    write_counts(
        alloc,
        entries,
        scanner.foreign(),
        scanner.torn(),
        form,
        writer,
    )?;
    Ok(())
}

/// The same, with the data of each.
fn show_with_data<V: LogView, W: Write>(
    alloc: Global,
    view: &V,
    choice: ScanChoice,
    form: Form,
    writer: &mut W,
) -> Result<(), DirFault> {
    let end = view.end().max(HEADER);
    let mut scanner = Scanner::new(view, alloc, HEADER, end);
    let mut entries: u64 = 0;
    while let Some(found) = scanner.next()? {
        if is_chosen(&choice, &found) {
            write_with_data(alloc, view, found, form, writer)?;
            entries = entries.saturating_add(1);
        }
    }
    write_counts(
        alloc,
        entries,
        scanner.foreign(),
        scanner.torn(),
        form,
        writer,
    )
}

/// The row of an entry with its data.
#[derive(Drop, Serialize)]
struct DataRow {
    at: u64,
    ledger: u64,
    entry: u64,
    size: u32,
    data: String,
}

/// Writes the row of an entry with its data. As text the data is written in pieces.
fn write_with_data<V: LogView, W: Write>(
    alloc: Global,
    view: &V,
    found: Found,
    form: Form,
    writer: &mut W,
) -> Result<(), DirFault> {
    let (at, size) = (found.at, found.size);
    let (ledger, entry) = (found.key.ledger(), found.key.entry());
    match form {
        Form::Text => {
            write!(writer, "{at} {ledger} {entry} {size} ")?;
            show_data(alloc, view, found, writer)?;
            writeln!(writer, "")?;
            Ok(())
        }
        Form::Json => {
            let row = DataRow {
                at,
                ledger,
                entry,
                size,
                data: data_text(alloc, view, found)?,
            };
            write_object(alloc, &row, writer)
        }
    }
}
