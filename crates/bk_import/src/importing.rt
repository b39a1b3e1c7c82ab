//! Imports entries: adds them, and flushes the cache whenever it is full and at the end.

ghost use Rattle.std.specs.Prelude.{◌≡◌, ◌∷◌, [], None, OnOk, IfOk, IsTrue};
ghost use Rattle.bk_store.specs.Contents.{PreservesContents, contents_at};
ghost use Rattle.bk_store.specs.Frame.{CachesUnchanged};
ghost use Rattle.bk_import.specs.Importing.{Gains, Imports, IsFlushed, contents_of};

use crate::records::{RecordsFault, next_record};
use bk_disk::LogDisk;
use bk_flush::{PublishAnswer, RollAnswer, WriteAnswer, publish, roll, swap, write_one};
use bk_record::LENGTH_FIELD;
use bk_store::{AddFault, Added, OpenFault, Settings, StepFault, Store, SwapAnswer};
use std::alloc::Global;
use std::io;
use std::io::Read;
use thiserror::Error;

/// What an import did.
#[derive(Clone, Copy, Debug, PartialEq, Eq)]
pub struct Imported {
    /// The number of entries that were added.
    pub added: u64,
    /// The number of entries whose key the store had already.
    pub held: u64,
}

/// Result of an import: the store on the disk, and what was added.
#[derive(Drop)]
pub struct Done<D: LogDisk> {
    pub store: Store<D>,
    pub imported: Imported,
}

/// Why an import ends early. Entries before it may have been added.
#[derive(Debug, Error, Drop)]
pub enum ImportFault {
    /// The store is not opened.
    #[error("{0}")]
    Open(OpenFault),
    /// A read of the input fails.
    #[error("read: {0}")]
    Read(io::Error),
    /// What begins at this byte of the input is no record of an entry, or is longer than an entry
    /// may be.
    #[error("bad record at {0}")]
    BadRecord(u64),
    /// An add is refused.
    #[error("{0}")]
    Add(AddFault),
    /// A step of a flush fails.
    #[error("{0}")]
    Step(StepFault),
    /// A flush or the input did not end, which no store and no file does.
    #[error("flush")]
    Flush,
}

impl From<OpenFault> for ImportFault {
    fn from(fault: OpenFault) -> ImportFault {
        ImportFault::Open(fault)
    }
}

impl From<AddFault> for ImportFault {
    fn from(fault: AddFault) -> ImportFault {
        ImportFault::Add(fault)
    }
}

impl From<StepFault> for ImportFault {
    fn from(fault: StepFault) -> ImportFault {
        ImportFault::Step(fault)
    }
}

impl ImportFault {
    /// Returns the fault for one of the record that begins at a byte of the input.
    fn of_record(at: u64, fault: RecordsFault) -> ImportFault {
        match fault {
            RecordsFault::Read(error) => ImportFault::Read(error),
            RecordsFault::Bad => ImportFault::BadRecord(at),
            RecordsFault::Memory => ImportFault::Add(AddFault::Memory),
        }
    }
}

/// Opens a store on the logs of a disk and adds the entries of a reader: records one after another,
/// as a log has them after its header. `dead` lists the ledgers deleted earlier.
///
/// An entry whose key the store has stays as it is. When the call returns what was added, all of it is
/// published, in logs that are sealed.
///
/// # Errors
///
/// In the order of the input, after those of the opening (`Open`):
///
/// - `Read`: the input cannot be read.
/// - `BadRecord`: what follows is cut off, or its length is below 16 or above 5,000,000.
/// - `Add`: a negative id (`Bad`), a deleted ledger, or out of memory.
/// - `Step`: the device fails, slots or ids of logs are used up, or out of memory.
/// - `Flush`: a flush or the input does not end, which does not occur.
///
/// The store is dropped then. Entries before the fault may be on the disk.
pub fn import<D: LogDisk, R: Read>(
    alloc: Global,
    disk: D,
    settings: Settings,
    dead: &[u64],
    reader: &mut R,
) -> Result<Done<D>, ImportFault>
    ensures imports { IfOk result (λ done. Imports (IsTrue (D.honest disk)) (R.remaining reader.old)
        (contents_of (D.files disk) dead.now) (contents_at done.store)) }
    ensures published { IfOk result (λ done. IsFlushed done.store) }
{
    let mut store = Store::open(alloc, disk, settings, dead)?;
    let imported = import_into(alloc, &mut store, reader)?;
    Ok(Done { store, imported })
}

/// Adds the entries of a reader to a store, publishes them, and seals their logs.
fn import_into<D: LogDisk, R: Read>(
    alloc: Global,
    store: &mut Store<D>,
    reader: &mut R,
) -> Result<Imported, ImportFault>
    ensures imports { OnOk result (Imports (IsTrue store.old.honest) (R.remaining reader.old)
        (contents_at store.old) (contents_at store.new)) }
    ensures published { OnOk result (IsFlushed store.new) }
{
    let imported = add_all(alloc, store, reader)?;
    flush(store)?;
    seal(store)?;
    Ok(imported)
}

/// Seals the log that is written, if there is one.
fn seal<D: LogDisk>(store: &mut Store<D>) -> Result<(), ImportFault>
    ensures frame { PreservesContents store.old store.new }
    ensures caches { CachesUnchanged store.old store.new }
{
    match roll(store)? {
        RollAnswer::Sealed(_) | RollAnswer::NothingOpen => Ok(()),
        RollAnswer::FlushRunning => Err(ImportFault::Flush),
    }
}

/// Adds the entries of a reader to a store.
fn add_all<D: LogDisk, R: Read>(
    alloc: Global,
    store: &mut Store<D>,
    reader: &mut R,
) -> Result<Imported, ImportFault>
    ensures imports { OnOk result (Imports (IsTrue store.old.honest) (R.remaining reader.old)
        (contents_at store.old) (contents_at store.new)) }
    ensures honest { store.new.honest ≡ store.old.honest }
{
    let mut at = 0u64;
    let mut imported = Imported { added: 0, held: 0 };
    'records: for _ in 0..u64::MAX {
        let payload = match next_record(alloc, reader) {
            Ok(Some(payload)) => payload,
            Ok(None) => return Ok(imported),
            Err(fault) => return Err(ImportFault::of_record(at, fault)),
        };
        let size = (payload.len() as u64).saturating_add(LENGTH_FIELD as u64);
        at = at.saturating_add(size);
        match add(store, &payload)? {
            Added::Accepted(_) => imported.added = imported.added.saturating_add(1),
            Added::Held => imported.held = imported.held.saturating_add(1),
        }
    }
    Err(ImportFault::Flush)
}

/// Adds an entry; flushes the cache before if it has no room.
fn add<D: LogDisk>(store: &mut Store<D>, payload: &[u8]) -> Result<Added, ImportFault>
    ensures gains { OnOk result (IsTrue store.old.honest → Gains (contents_at store.old) (contents_at store.new) (payload.now ∷ [])) }
    ensures honest { store.new.honest ≡ store.old.honest }
{
    store.reveal_invariant();
    match store.add(payload) {
        Ok(added) => Ok(added),
        Err(AddFault::Full { .. }) => add_flushed(store, payload),
        Err(fault) => Err(ImportFault::Add(fault)),
    }
}

/// Flushes the cache, and adds an entry.
fn add_flushed<D: LogDisk>(store: &mut Store<D>, payload: &[u8]) -> Result<Added, ImportFault>
    ensures gains { OnOk result (IsTrue store.old.honest → Gains (contents_at store.old) (contents_at store.new) (payload.now ∷ [])) }
    ensures honest { store.new.honest ≡ store.old.honest }
{
    flush(store)?;
    store.reveal_invariant();
    Ok(store.add(payload)?)
}

/// Flushes the cache: its entries are in synced logs afterwards.
fn flush<D: LogDisk>(store: &mut Store<D>) -> Result<(), ImportFault>
    ensures frame { PreservesContents store.old store.new }
    ensures published { OnOk result (IsFlushed store.new) }
{
    match swap(store) {
        SwapAnswer::Swapped(entries) => write_all(store, entries),
        SwapAnswer::Nothing => Ok(()),
        SwapAnswer::Running => Err(ImportFault::Flush),
    }
}

/// Writes the entries of a flush, of which there are so many, and publishes them.
fn write_all<D: LogDisk>(store: &mut Store<D>, entries: u64) -> Result<(), ImportFault>
    ensures frame { PreservesContents store.old store.new }
    ensures active { store.new.caches.active ≡ store.old.caches.active }
    ensures published { OnOk result (store.new.caches.flush ≡ None) }
{
    'entries: for _ in 0..entries {
        write_next(store)?;
    }
    publish_all(store)
}

/// Writes the next entry of a flush.
fn write_next<D: LogDisk>(store: &mut Store<D>) -> Result<(), ImportFault>
    ensures frame { PreservesContents store.old store.new }
    ensures active { store.new.caches.active ≡ store.old.caches.active }
{
    match write_one(store)? {
        WriteAnswer::Wrote(_) => Ok(()),
        WriteAnswer::AllWritten | WriteAnswer::NoFlush => Err(ImportFault::Flush),
    }
}

/// Publishes the entries of a flush, which are all written.
fn publish_all<D: LogDisk>(store: &mut Store<D>) -> Result<(), ImportFault>
    ensures frame { PreservesContents store.old store.new }
    ensures active { store.new.caches.active ≡ store.old.caches.active }
    ensures published { OnOk result (store.new.caches.flush ≡ None) }
{
    match publish(store)? {
        PublishAnswer::Published(_) => Ok(()),
        PublishAnswer::NotAllWritten | PublishAnswer::NoFlush => Err(ImportFault::Flush),
    }
}
