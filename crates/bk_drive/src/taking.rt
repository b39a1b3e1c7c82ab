//! Steps of a reader: it takes a lease from the store, reads with it, and releases it.

ghost use Rattle.std.specs.Prelude.{◌≡◌, IsErrOf};
ghost use Rattle.bk_disk.specs.Disk.{AreSound};
ghost use Rattle.bk_drive.specs.Machine.{ReaderFetchAnswer, ReaderReleaseTransition, ReaderTakeTransition};

use crate::{FetchAnswer, Readers, Reading, ReleaseAnswer, TakeAnswer};
use bk_disk::{LogDisk, LogView};
use bk_log::{FetchFault, fetch};
use bk_record::Key;
use bk_store::{Store, TakeFault, Taken};
use std::alloc::Global;

/// Takes a key for a reader, which then holds the lease if one is granted.
///
/// # Errors
///
/// Those of `Store::take`. The machine is unchanged.
pub(crate) fn take<D: LogDisk>(
    store: &mut Store<D>,
    readers: &mut Readers<D::View>,
    reader: u32,
    key: Key,
) -> Result<TakeAnswer, TakeFault>
    ensures { ReaderTakeTransition (record { store = store.old; readers = readers.old }) reader key result
        (record { store = store.new; readers = readers.new }) }
{
    if !readers.has(reader) {
        return Ok(TakeAnswer::NoReader);
    }
    if readers.is_busy(reader) {
        return Ok(TakeAnswer::ReaderBusy);
    }
    match store.take(key)? {
        Taken::Deleted => Ok(TakeAnswer::Deleted),
        Taken::NotHeld => Ok(TakeAnswer::NotHeld),
        Taken::Cached(payload) => Ok(TakeAnswer::Cached(payload)),
        Taken::Leased(lease, location) => {
            readers.hold(
                reader,
                Reading {
                    lease,
                    location,
                    key,
                },
            );
            Ok(TakeAnswer::Leased(location))
        }
    }
}

/// Reads the entry on which a reader holds a lease, from the view of the lease.
///
/// # Errors
///
/// - `Disk`: the view could not be read. Does not occur if views are sound.
/// - `Memory`: out of memory.
/// - `NotThere`, `Odd`: do not occur on an honest disk.
pub(crate) fn fetch_by<V: LogView>(
    alloc: Global,
    readers: &Readers<V>,
    reader: u32,
) -> Result<FetchAnswer, FetchFault>
    ensures transition { ReaderFetchAnswer readers.now reader result }
    ensures disk { AreSound V.sound → ¬ (IsErrOf result FetchFault.Disk) }
{
    if !readers.has(reader) {
        return Ok(FetchAnswer::NoReader);
    }
    let Some(reading) = readers.reading(reader) else {
        return Ok(FetchAnswer::NoLease);
    };
    let view = reading.lease.view();
    view.bounds();
    match fetch(view, alloc, reading.location, reading.key) {
        Ok(payload) => Ok(FetchAnswer::Bytes(payload)),
        Err(fault) => Err(fault),
    }
}

/// Ends the lease that a reader holds.
pub(crate) fn release<V: LogView>(readers: &mut Readers<V>, reader: u32) -> ReleaseAnswer
    ensures { ReaderReleaseTransition readers.old reader result readers.new }
{
    if !readers.has(reader) {
        return ReleaseAnswer::NoReader;
    }
    if !readers.is_busy(reader) {
        return ReleaseAnswer::NoLease;
    }
    if let Some(reading) = readers.let_go(reader) {
        reading.lease.release().end();
    }
    ReleaseAnswer::Released
}
