//! The logs of these tests, and what a store finds in them.

use super::loose::LooseHints;
use bk_disk::{LogDisk, MemDisk};
use bk_hint_disk::{HintedDisk, Hints, WhyNot, make_hint};
use bk_record::Key;
use bk_store::{Settings, Store, Taken};
use std::alloc::Global;
use std::collections::BTreeMap;

/// Settings of these tests.
pub(super) const SETTINGS: Settings = Settings {
    log_limit: 1_048_576,
    cache_limit: 1_048_576,
    recent: 0,
    slots: 8,
    leases: 4,
    minor: 200,
    major: 800,
};

/// An entry: ledger id, entry id, and the length of its data in bytes. The ids and the data are its
/// payload, and its record has 20 bytes more than the data.
pub(super) type Entry = (u64, u64, u16);

/// The entries of the small log. Sealed, it has 1148 bytes: its ledgers map, of 56, is at 1092.
pub(super) const SMALL: [Entry; 3] = [(1, 0, 4), (1, 1, 4), (2, 9, 0)];

/// The id of the small log.
pub(super) const SMALL_LOG: u8 = 7;

/// The data of entries.
static SEVENS: [u8; 1008] = [7; 1008];

/// Ledger id -1 and entry id -2, of a batch of a ledgers map.
const MAP_IDS: [u8; 16] = [
    255, 255, 255, 255, 255, 255, 255, 255, 255, 255, 255, 255, 255, 255, 255, 254,
];

/// Appends the record of an entry.
fn append<D: LogDisk>(alloc: Global, disk: &mut D, log: u32, entry: Entry) -> Option<()> {
    let (ledger, id, data) = entry;
    let length = 16 + u32::from(data);
    let mut record = Vec::new(alloc);
    record.extend_from_slice(&length.to_be_bytes()).ok()?;
    record.extend_from_slice(&ledger.to_be_bytes()).ok()?;
    record.extend_from_slice(&id.to_be_bytes()).ok()?;
    let data = SEVENS.get(..usize::from(data))?;
    record.extend_from_slice(data).ok()?;
    disk.append(alloc, log, &record).ok()
}

/// Returns the ledgers map of these entries as bytes, and its number of ledgers.
fn map_of(alloc: Global, entries: &[Entry]) -> Option<(Vec<u8>, u32)> {
    let mut sizes = BTreeMap::new(alloc);
    for (ledger, _, data) in entries {
        let before: u64 = sizes.get(ledger).copied().unwrap_or(0);
        let now = before.wrapping_add(20 + u64::from(*data));
        sizes.insert(*ledger, now).ok()?;
    }
    let count = u32::try_from(sizes.len()).ok()?;
    let length = count.checked_mul(16)?.checked_add(20)?;
    let mut map = Vec::new(alloc);
    map.extend_from_slice(&length.to_be_bytes()).ok()?;
    map.extend_from_slice(&MAP_IDS).ok()?;
    map.extend_from_slice(&count.to_be_bytes()).ok()?;
    for (ledger, size) in &sizes {
        map.extend_from_slice(&ledger.to_be_bytes()).ok()?;
        map.extend_from_slice(&size.to_be_bytes()).ok()?;
    }
    Some((map, count))
}

/// Appends the ledgers map of these entries, and has the header name it.
fn seal<D: LogDisk>(alloc: Global, disk: &mut D, log: u32, entries: &[Entry]) -> Option<()> {
    let (map, count) = map_of(alloc, entries)?;
    let at = disk.length(alloc, log).ok()?;
    disk.append(alloc, log, &map).ok()?;
    let mut place = [0u8; 12];
    place[..8].copy_from_slice(&at.to_be_bytes());
    place[8..].copy_from_slice(&count.to_be_bytes());
    disk.patch(alloc, log, &place).ok()
}

/// Writes a log of these entries, and seals it if it is to be.
pub(super) fn write<D: LogDisk>(
    alloc: Global,
    disk: &mut D,
    log: u8,
    entries: &[Entry],
    is_sealed: bool,
) -> Option<()> {
    let log = u32::from(log);
    disk.create(alloc, log).ok()?;
    disk.append(alloc, log, b"BKLO\0\0\0\x01").ok()?;
    disk.append(alloc, log, &[0; 1016]).ok()?;
    for entry in entries {
        append(alloc, disk, log, *entry)?;
    }
    if is_sealed {
        seal(alloc, disk, log, entries)?;
    }
    Some(())
}

/// Returns the hint of a log.
pub(super) fn hint_of<D: LogDisk>(alloc: Global, disk: &mut D, log: u8) -> Option<Vec<u8>> {
    let log = u32::from(log);
    let header = disk.read_at(alloc, log, 0, 1024).ok()?;
    let view = disk.view(alloc, log).ok()?;
    make_hint(alloc, log, &header, &view).ok()?
}

/// Returns the hint of the small log, if it had these entries.
pub(super) fn small_hint(alloc: Global, entries: &[Entry]) -> Option<Vec<u8>> {
    let mut disk = MemDisk::new(alloc);
    write(alloc, &mut disk, SMALL_LOG, entries, true)?;
    hint_of(alloc, &mut disk, SMALL_LOG)
}

/// Returns whether a store has the entry of these ids in a log at a position.
fn is_at<D: LogDisk>(store: &mut Store<D>, ledger: u64, id: u64, log: u8, at: u64) -> bool {
    let Some(key) = Key::new(ledger, id) else {
        return false;
    };
    match store.take(key) {
        Ok(Taken::Leased(lease, place)) => {
            lease.log() == u32::from(log) && u64::from(place.at()) == at
        }
        _ => false,
    }
}

/// Returns whether a store has these entries of a log, each where it is.
pub(super) fn has<D: LogDisk>(store: &mut Store<D>, log: u8, entries: &[Entry]) -> bool {
    let mut at: u64 = 1028;
    for (ledger, id, data) in entries {
        if !is_at(store, *ledger, *id, log, at) {
            return false;
        }
        at = at.wrapping_add(20 + u64::from(*data));
    }
    true
}

/// What an opening over a hint of the small log did.
#[derive(Clone, Copy, Debug, PartialEq, Eq)]
pub(super) enum Opened {
    /// The entries are those of the log, and no hint was left unused.
    ByHint,
    /// The entries are those of the log, whose hint was not used.
    Without(WhyNot),
    /// The store has other entries, or there is none.
    Wrong,
}

/// Opens the small log over a store of hints.
pub(super) fn open_small(alloc: Global, hints: LooseHints, is_sealed: bool) -> Opened {
    let mut disk = MemDisk::new(alloc);
    match write(alloc, &mut disk, SMALL_LOG, &SMALL, is_sealed) {
        Some(()) => {}
        None => return Opened::Wrong,
    }
    outcome(alloc, HintedDisk::new(alloc, disk, hints)).unwrap_or(Opened::Wrong)
}

/// Opens the small log. `None` if that fails.
fn outcome<H: Hints>(alloc: Global, disk: HintedDisk<MemDisk, H>) -> Option<Opened> {
    let watch = disk.unused_watch(alloc).ok()?.share().ok()?;
    let mut store = Store::open(alloc, disk, SETTINGS, &[]).ok()?;
    let listed = watch.list(alloc).ok()?;
    let same = listed.as_slice() == store.disk().unused();
    if !same || store.stats().indexed != 3 || !has(&mut store, SMALL_LOG, &SMALL) {
        return Some(Opened::Wrong);
    }
    match listed.as_slice() {
        [] => Some(Opened::ByHint),
        [unused] if unused.log == u32::from(SMALL_LOG) => Some(Opened::Without(unused.why)),
        _ => Some(Opened::Wrong),
    }
}

/// Opens the small log with these bytes as its hint.
pub(super) fn open_with(alloc: Global, hint: &[u8]) -> Opened {
    let mut hints = LooseHints::new(alloc);
    match hints.put(alloc, u32::from(SMALL_LOG), hint) {
        Ok(()) => open_small(alloc, hints, true),
        Err(_) => Opened::Wrong,
    }
}

/// Entry `place` of 40: half of them a run of one size, the others of two ledgers and sizes.
fn mixed_entry(log: u8, place: u16) -> Entry {
    let id = u64::from(log) * 1000 + u64::from(place);
    if place < 20 {
        return (u64::from(log), id, 1008);
    }
    let data = if place % 3 == 0 { 0 } else { 90 };
    (10 + u64::from(place % 2), id, data)
}

/// Returns the entries of a log of `make`.
pub(super) fn mixed(alloc: Global, log: u8) -> Option<Vec<Entry>> {
    let mut entries = Vec::new(alloc);
    for place in 0..40u16 {
        entries.push(mixed_entry(log, place)).ok()?;
    }
    Some(entries)
}

/// The logs that `make` makes; the last one is not sealed.
pub(super) const MADE: [u8; 4] = [1, 2, 3, 5];

/// Makes three sealed logs of 40 entries, and one that is not sealed.
pub(super) fn make<D: LogDisk>(alloc: Global, disk: &mut D) -> Option<()> {
    for log in MADE {
        let entries = mixed(alloc, log)?;
        write(alloc, disk, log, &entries, log < 5)?;
    }
    Some(())
}

/// Writes a hint for each log of `make` that is sealed. Returns how many were written.
pub(super) fn hint<D: LogDisk, H: Hints>(
    alloc: Global,
    disk: &mut HintedDisk<D, H>,
) -> Option<u32> {
    let mut written: u32 = 0;
    for log in MADE {
        if disk.write_hint(alloc, u32::from(log)).ok()? {
            written = written.wrapping_add(1);
        }
    }
    Some(written)
}

/// Returns whether a store has exactly the entries of `make`, each where it is.
pub(super) fn has_made<D: LogDisk>(alloc: Global, store: &mut Store<D>) -> bool {
    for log in MADE {
        let Some(entries) = mixed(alloc, log) else {
            return false;
        };
        if !has(store, log, &entries) {
            return false;
        }
    }
    store.stats().indexed == 160
}
