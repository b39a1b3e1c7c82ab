//! Calls that no script has: a rebuild over a log that is published again, and the largest ledger
//! id.

use super::logs::{found, make};
use super::{Disk, SETTINGS, Told, deleted, lend, opened, pass, worked};
use bk_disk::{DiskFault, FaultDisk, LogDisk, MemDisk};
use bk_drive::{Settings, Store, Work};
use bk_record::Key;
use bk_store::LogState;
use std::alloc::Global;

/// Settings of a store with eight slots.
const EIGHT_SLOTS: Settings = Settings {
    slots: 8,
    ..SETTINGS
};

/// A call of a store.
#[derive(Clone, Copy)]
enum Call {
    /// A step of the store alone.
    Do(Work),
    /// A take of entry 0 of this ledger. The lease is dropped at once.
    Take(u64),
    Delete(u64),
    /// Publishes a readable log again, if no compaction runs.
    Publish(u32),
}

const REBUILD: Call = Call::Do(Work::Rebuild);

/// Makes a call and returns its answer.
fn told_by(store: &mut Store<Disk>, call: Call) -> Told {
    match call {
        Call::Do(work) => worked(store, work),
        Call::Take(ledger) => taken(store, ledger),
        Call::Delete(ledger) => deleted(store, ledger),
        Call::Publish(log) => published(store, log),
    }
}

fn taken(store: &mut Store<Disk>, ledger: u64) -> Told {
    let Some(key) = Key::new(ledger, 0) else {
        return ("no key", 0);
    };
    match lend(store, key) {
        Ok(leased) => ("leased", leased.1.value()),
        Err(told) => told,
    }
}

fn published(store: &mut Store<Disk>, log: u32) -> Told {
    let None = store.job() else {
        return ("job running", 0);
    };
    match store.log_state(log) {
        Some(LogState::Readable) if store.publish_log(log).is_ok() => ("published", 0),
        _ => ("not published", 0),
    }
}

/// Returns the number of the first call whose answer differs, counted from 1.
fn first_wrong(store: &mut Store<Disk>, calls: &[(Call, Told)]) -> Option<usize> {
    for (number, (call, expected)) in calls.iter().enumerate() {
        if told_by(store, *call) != *expected {
            return Some(number.saturating_add(1));
        }
    }
    None
}

/// The same for a store that is opened on this disk, or 0 if none is.
fn first_wrong_on(
    alloc: Global,
    disk: Result<Disk, DiskFault>,
    dead: &[u64],
    calls: &[(Call, Told)],
) -> Option<usize> {
    let Ok(disk) = disk else {
        return Some(0);
    };
    match opened(alloc, disk, EIGHT_SLOTS, dead) {
        Ok(mut store) => first_wrong(&mut store, calls),
        Err(_) => Some(0),
    }
}

/// Entry 0 of ledger 7.
const SEVENTH: &[u8] = b"\0\0\0\x11\0\0\0\0\0\0\0\x07\0\0\0\0\0\0\0\0d";

/// Returns a disk with entry 0 of ledger 7 in logs 0 and 1, and log 2 empty. Its fourth view cannot
/// be read.
fn repeated(alloc: Global) -> Result<Disk, DiskFault> {
    let mut disk = MemDisk::new(alloc);
    for id in 0..3 {
        make(alloc, &mut disk, id)?;
    }
    for id in 0..2 {
        disk.append(alloc, id, SEVENTH)?;
    }
    Ok(FaultDisk::broken_view(disk, 4))
}

/// Returns the disk with the logs that are found, none of whose calls fails.
fn sound(alloc: Global) -> Result<Disk, DiskFault> {
    Ok(FaultDisk::new(found(alloc)?, 0, 0))
}

/// The view of log 0 cannot be read. A rebuild fails and changes nothing. After the log is retired,
/// a rebuild does not read it.
static UNBUILT: [(Call, Told); 8] = [
    (Call::Publish(0), ("published", 0)),
    (REBUILD, ("disk", 0)),
    (Call::Take(7), ("leased", 4_294_968_324)),
    (Call::Do(Work::Retire(1)), ("still named", 1)),
    (REBUILD, ("disk", 0)),
    (Call::Do(Work::Retire(0)), ("retired", 0)),
    (REBUILD, ("rebuilt", 1)),
    (Call::Take(7), ("leased", 4_294_968_324)),
];

#[test]
fn a_log_that_is_retired_is_not_read(rt: HostRuntime) {
    let alloc = rt.alloc();
    let wrong = first_wrong_on(alloc, repeated(alloc), &[], &UNBUILT);
    pass(&rt, "unbuilt", wrong);
}

/// Any ledger id can be deleted, also one that no entry can have.
static GREATEST: [(Call, Told); 4] = [
    (Call::Delete(1), ("dropped", 1)),
    (Call::Delete(u64::MAX), ("dropped", 0)),
    (Call::Delete(u64::MAX), ("already deleted", 0)),
    (Call::Take(2), ("leased", 1049)),
];

#[test]
fn any_number_is_deleted(rt: HostRuntime) {
    let alloc = rt.alloc();
    let wrong = first_wrong_on(alloc, sound(alloc), &[4], &GREATEST);
    pass(&rt, "greatest", wrong);
}
