//! Compares what a store finds after a crash with what it must keep.

use super::chance::Chance;
use super::owed::{Entry, Owed, judged, push};
use super::powered::{ALL, Left, Powered, again, device_of, opened};
use super::stop::{Stop, not_opened};
use bk_crash::Choices;
use bk_disk::LogDisk;
use bk_drive::{OpenFault, Store};
use bk_log::fetch;
use bk_record::Key;
use bk_store::Taken;
use std::alloc::Global;

/// Opens a store on what a crash left, and maybe a second one during an opening, and compares: each
/// published entry has its bytes, and nothing is found that was not added. What is found must be
/// kept from then on. Returns what was left.
pub(super) fn compare<D: LogDisk, P: Powered<D>>(
    alloc: Global,
    owed: &mut Owed,
    left: Left,
    chance: &mut Chance,
) -> Result<Left, Stop> {
    let left = match chance.up_to(2) {
        0 => again::<D, P>(alloc, P::interrupted(alloc, left, chance)?, chance)?,
        _ => left,
    };
    let device = device_of(alloc, &left, ALL, chance)?;
    let Some(mut store) = opened::<D, P>(alloc, device, &owed.dead)? else {
        return Err(not_opened(OpenFault::Disk));
    };
    find_all(alloc, &mut store, owed)?;
    Ok(left)
}

/// Compares what a store has after opening.
pub(super) fn find_all<D: LogDisk>(
    alloc: Global,
    store: &mut Store<D>,
    owed: &mut Owed,
) -> Result<(), Stop> {
    let found = found_in(alloc, store, &owed.entries)?;
    let more = keys_of(store).saturating_sub(found.len());
    if more > 0 {
        return Err(Stop::new("entries that nobody added", 0, more as u64));
    }
    owed.entries = found;
    Ok(())
}

/// Returns the number of keys of a store with empty caches.
fn keys_of<D: LogDisk>(store: &Store<D>) -> usize {
    store.index().len()
}

/// Returns the entries that a store has, each of which is one of these.
fn found_in<D: LogDisk>(
    alloc: Global,
    store: &mut Store<D>,
    owed: &[Entry],
) -> Result<Vec<Entry>, Stop> {
    let mut found = Vec::new(alloc);
    for entry in owed {
        let payload = read(alloc, store, entry.ledger, entry.entry)?;
        if let Some(entry) = judged(entry, payload)? {
            push(&mut found, entry)?;
        }
    }
    Ok(found)
}

/// Returns the payload of an entry in a store.
fn read<D: LogDisk>(
    alloc: Global,
    store: &mut Store<D>,
    ledger: u64,
    entry: u64,
) -> Result<Option<Vec<u8>>, Stop> {
    let Some(key) = Key::new(ledger, entry) else {
        return Ok(None);
    };
    match store.take(key) {
        Ok(Taken::Leased(lease, location)) => Ok(fetch(lease.view(), alloc, location, key).ok()),
        Ok(_) => Ok(None),
        Err(_) => Err(Stop::new("no lease", ledger, entry)),
    }
}
