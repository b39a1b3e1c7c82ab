//! The command `import`: adds the entries of a file to a directory.

ghost use Rattle.std.specs.Prelude.{◌≡◌, ◌≤◌, ◌++◌, [], ◌∷◌, Some, OnOk};
ghost use Rattle.std.specs.Io.KnownBytes.{Appends};
ghost use Rattle.bk_inspect.specs.Forms.{followed};
ghost use Rattle.bk_import.specs.declared.importing.Imported.{Imported as Counted};
ghost use Rattle.bk_import_seal.specs.Importing.{added_line, added_text, fault_way, fault_word, import_word};
ghost use Rattle.bk_import_seal.specs.declared.import.Fault.TheVariants as faults;

use bk_cli::DEFAULTS;
use bk_deleted::Deleted;
use bk_disk::LogDisk;
use bk_folder::{Opening, OpeningDisk, OpeningFault, open_or_make};
use bk_import::{ImportFault, Imported, Settings, import};
use bk_inspect::{Form, Hints};
use bk_messages::{
    CommandFault, RowFault, WayOn, end_early, open_kind, reason_kind, step_kind, write_object,
    write_row,
};
use bk_store::AddFault;
use serde::Serialize;
use std::alloc::{AllocError, Global};
use std::fmt::{Display, Formatter};
use std::fs::File;
use std::io::{BufReader, Read, Write};
use std::{fmt, io};
use thiserror::Error;

/// The settings of an import. They are allowed, and have a slot for each log of a large directory.
const SETTINGS: Settings = Settings {
    slots: 65_536,
    ..DEFAULTS
};

/// Why a command ends early. Its text is what the program reports.
#[derive(Debug, Error, Drop)]
enum Fault {
    /// The file cannot be opened.
    #[error("disk: {path}: {reason}")]
    File { path: String, reason: io::Error },
    /// The directory is not opened.
    #[error("{0}")]
    Opening(OpeningFault),
    /// The import ends early.
    #[error("{0}")]
    Import(ImportFault),
    /// Out of memory.
    #[error("memory")]
    Memory,
}

impl From<OpeningFault> for Fault {
    ghost from_gives = { λ fault e. e ≡ faults.Opening fault };

    fn from(fault: OpeningFault) -> Fault {
        Fault::Opening(fault)
    }
}

impl From<AllocError> for Fault {
    ghost from_gives = { λ _ e. e ≡ faults.Memory };

    fn from(_: AllocError) -> Fault {
        Fault::Memory
    }
}

impl Fault {
    /// Returns its word, without what it is about.
    fn kind(&self) -> &'static str
        ensures { result.now ≡ fault_word self.now }
    {
        match self {
            Fault::File { path: _, reason } => reason_kind(reason, "unread"),
            Fault::Opening(fault) => fault.kind(),
            Fault::Import(fault) => import_kind(fault),
            Fault::Memory => "memory",
        }
    }

    /// Returns the way on after it, if there is one.
    fn way_on(&self) -> Option<WayOn>
        ensures { result ≡ fault_way self.now }
    {
        match self {
            Fault::Import(ImportFault::Open(fault)) => WayOn::behind(fault),
            Fault::Opening(fault) => fault.way_on(),
            Fault::Import(_) | Fault::File { .. } | Fault::Memory => None,
        }
    }
}

/// Returns the word of an import that ends early.
fn import_kind(fault: &ImportFault) -> &'static str
    ensures { result.now ≡ import_word fault.now }
{
    match fault {
        ImportFault::Open(fault) => open_kind(*fault),
        ImportFault::Read(reason) => reason_kind(reason, "read"),
        ImportFault::BadRecord(_) => "bad record",
        ImportFault::Add(AddFault::Memory) => "memory",
        ImportFault::Add(_) => "refused",
        ImportFault::Step(fault) => step_kind(*fault),
        ImportFault::Flush => "step",
    }
}

/// Adds the entries of the file at a path to the directory at another, which is created if it does
/// not exist, and writes how many were added. Returns the program's status: 0, or 1 with `fault TEXT`
/// on the error stream; without it if nobody reads the output any more.
pub fn run_import<W: Write, E: Write>(
    rt: &HostRuntime,
    form: Form,
    path: &str,
    file: &str,
    deleted: &Deleted,
    no_manifest: bool,
    hints: Hints,
    writer: &mut W,
    errors: &mut E,
) -> u8
    ensures most { result ≤ 1 }
    ensures told { result ≡ 0 → (imported : Counted) × Appends (followed form (W.contents writer.old)) (followed form (W.contents writer.new)) (added_line imported) }
{
    match import_file(rt, form, path, file, deleted, no_manifest, hints, errors) {
        Ok(imported) => show(rt.alloc(), form, imported, writer, errors),
        Err(fault) => {
            tell(rt.alloc(), form, &fault, errors);
            1
        }
    }
}

/// Adds the entries. Reports each hint that is not used, and each call of the system that failed.
fn import_file<E: Write>(
    rt: &HostRuntime,
    form: Form,
    path: &str,
    file: &str,
    deleted: &Deleted,
    no_manifest: bool,
    hints: Hints,
    errors: &mut E,
) -> Result<Imported, Fault> {
    let mut reader = reader_of(rt, file)?;
    let opened = open_or_make(rt, path, no_manifest, hints)?;
    opened.tell(form, errors);
    import_all(
        rt.alloc(),
        form,
        opened,
        &deleted.named,
        &mut reader,
        errors,
    )
}

/// Opens the file at a path.
fn reader_of(rt: &HostRuntime, file: &str) -> Result<BufReader<File>, Fault> {
    let alloc = rt.alloc();
    let opened = match File::open(rt, file) {
        Ok(opened) => opened,
        Err(reason) => {
            let path = String::from_str(alloc, file)?;
            return Err(Fault::File { path, reason });
        }
    };
    match BufReader::new(alloc, opened) {
        Ok(reader) => Ok(reader),
        Err(_) => Err(Fault::Memory),
    }
}

/// Adds the entries of a reader to a directory that is open, after the deletion of these ledgers.
fn import_all<R: Read, E: Write>(
    alloc: Global,
    form: Form,
    opened: Opening,
    named: &[u64],
    reader: &mut R,
    errors: &mut E,
) -> Result<Imported, Fault> {
    let notes = opened.disk.notes(alloc)?;
    let (disk, dead) = recorded_disk(opened, named)?;
    let done = import_on(alloc, disk, &dead, reader);
    notes.tell(form, errors);
    done
}

/// Adds the entries of a reader to the logs of a disk, of which these ledgers are deleted.
fn import_on<D: LogDisk, R: Read>(
    alloc: Global,
    disk: D,
    dead: &[u64],
    reader: &mut R,
) -> Result<Imported, Fault> {
    match import(alloc, disk, SETTINGS, dead, reader) {
        Ok(done) => Ok(done.imported),
        Err(fault) => Err(Fault::Import(fault)),
    }
}

/// Returns the disk of an import, and all deleted ledgers: these, whose deletion is durable now, and
/// those recorded earlier.
fn recorded_disk(opened: Opening, named: &[u64]) -> Result<(OpeningDisk, Vec<u64>), Fault> {
    let Opening { disk, mut book, .. } = opened;
    match book.delete_all(named) {
        Ok(listed) => Ok((disk, listed.deleted)),
        Err(fault) => Err(Fault::Opening(OpeningFault::Book(fault))),
    }
}

/// The row of what was added.
#[derive(Clone, Copy, Serialize)]
struct ImportedRow {
    added: u64,
    held: u64,
}

impl Display for ImportedRow {
    ghost output = { λ row. Some (added_text row.added row.held) };

    fn fmt<W: fmt::Write>(&self, f: &mut Formatter<W>) -> fmt::Result {
        write!(f, "added {} held {}", self.added, self.held)
    }
}

/// Writes what was added, and flushes. Returns the status.
fn show<W: Write, E: Write>(
    alloc: Global,
    form: Form,
    imported: Imported,
    writer: &mut W,
    errors: &mut E,
) -> u8
    ensures most { result ≤ 1 }
    ensures told { result ≡ 0 → Appends (followed form (W.contents writer.old)) (followed form (W.contents writer.new)) (added_line imported) }
{
    let row = ImportedRow {
        added: imported.added,
        held: imported.held,
    };
    match write_flushed(alloc, form, &row, writer) {
        Ok(()) => 0,
        Err(fault) => {
            end_early(alloc, form, &CommandFault::from(fault), &None, errors);
            1
        }
    }
}

/// Writes a row and flushes.
fn write_flushed<W: Write>(
    alloc: Global,
    form: Form,
    row: &ImportedRow,
    writer: &mut W,
) -> Result<(), RowFault>
    ensures { OnOk result (Appends (followed form (W.contents writer.old)) (followed form (W.contents writer.new))
        (added_text row.now.added row.now.held ++ 10 ∷ [])) }
{
    write_row(alloc, form, row, writer)?;
    writer.flush()?;
    Ok(())
}

/// The object of a fault.
#[derive(Drop, Serialize)]
struct FaultRow {
    fault: &'static str,
    reason: String,
    #[serde(skip_serializing_if = "Option::is_none")]
    help: Option<String>,
}

/// Reports why the command ends early, and the way on if there is one. A failed write is ignored.
fn tell<E: Write>(alloc: Global, form: Form, fault: &Fault, errors: &mut E) {
    let _ = match form {
        Form::Text => tell_text(fault, errors),
        Form::Json => tell_object(alloc, fault, errors),
    };
}

/// Reports it as text.
fn tell_text<E: Write>(fault: &Fault, errors: &mut E) -> Result<(), RowFault> {
    writeln!(errors, "fault {fault}")?;
    if let Some(way_on) = fault.way_on() {
        writeln!(errors, "help: {way_on}")?;
    }
    Ok(())
}

/// Reports it as an object.
fn tell_object<E: Write>(alloc: Global, fault: &Fault, errors: &mut E) -> Result<(), RowFault> {
    let help = match fault.way_on() {
        Some(way_on) => Some(format!(in alloc; "{way_on}")?),
        None => None,
    };
    let row = FaultRow {
        fault: fault.kind(),
        reason: format!(in alloc; "{fault}")?,
        help,
    };
    write_object(alloc, &row, errors)
}
