//! The example of the library guide: a store used from Rust. The text between two marks is quoted
//! there.

use bk_disk::{DirDisk, LogDisk, MemDisk};
use bk_drive::{
    AddFault, Added, FlushFault, OpenFault, PublishAnswer, Settings, Store, SwapAnswer, TakeFault,
    WriteAnswer,
};
use bk_flush::{publish, swap, write_one};
use bk_log::{FetchFault, fetch};
use bk_record::Key;
use bk_store::Taken;
use std::alloc::{AllocError, Global};
use std::fs;
use std::test::Fail;

// begin: open
/// Opens a store on the logs of a disk: an empty one, or one with logs of a bookie.
fn open<D: LogDisk>(alloc: Global, disk: D) -> Result<Store<D>, OpenFault> {
    let settings = Settings {
        log_limit: 2048,
        cache_limit: 65_536,
        recent: 0,
        slots: 8,
        leases: 4,
        minor: 200,
        major: 800,
    };
    // No ledger was deleted before.
    Store::open(alloc, disk, settings, &[])
}
// end: open

// begin: add
/// A payload: the ids of ledger and entry, eight bytes each, then the data.
fn payload(alloc: Global, ledger: u64, entry: u64, data: &[u8]) -> Result<Vec<u8>, AllocError> {
    let mut payload = Vec::from_slice(alloc, &ledger.to_be_bytes())?;
    payload.extend_from_slice(&entry.to_be_bytes())?;
    payload.extend_from_slice(data)?;
    Ok(payload)
}

/// Adds an entry. Where the cache is full, what it has goes to the logs first.
///
/// `Bad`, `Deleted` and `Fenced` say that this entry can never be added; after `Full` and `Memory` it can be tried again.
fn add<D: LogDisk>(store: &mut Store<D>, payload: &[u8]) -> Result<Added, AddFault> {
    match store.add(payload) {
        Err(AddFault::Full { used, limit }) => match flush(store) {
            Ok(_) => store.add(payload),
            Err(_) => Err(AddFault::Full { used, limit }),
        },
        answer => answer,
    }
}
// end: add

// begin: flush
/// Takes what came in to the logs, and tells how many entries that were.
///
/// No refusal loses an entry: what was added stays in memory until it is published. So the same call is made again: after
/// `Disk` it writes all of them anew, to another log, after `Memory` it goes on where it stood. After `LogsFull` a log has to
/// be removed first. `NoMoreIds` and `Odd` stay: the ids of logs are used up, or the disk answers what it can't.
fn flush<D: LogDisk>(store: &mut Store<D>) -> Result<u64, FlushFault> {
    match swap(store) {
        SwapAnswer::Nothing => return Ok(0),
        // A flush that was refused before runs on.
        SwapAnswer::Running | SwapAnswer::Swapped(_) => {}
    }
    for _ in 0..=store.flush_len() {
        match write_one(store)? {
            WriteAnswer::Wrote(_) => {}
            WriteAnswer::AllWritten | WriteAnswer::NoFlush => break,
        }
    }
    match publish(store)? {
        PublishAnswer::Published(entries) => Ok(entries),
        PublishAnswer::NotAllWritten | PublishAnswer::NoFlush => Ok(0),
    }
}
// end: flush

// begin: read
/// Why an entry was not read.
#[derive(Clone, Copy, Debug)]
enum Unread {
    /// No memory, or no further lease of the log: to be tried again.
    Later,
    /// The log can't be read there.
    Lost,
}

/// The payload of an entry, `None` where the store has none.
fn read<D: LogDisk>(
    alloc: Global,
    store: &mut Store<D>,
    key: Key,
) -> Result<Option<Vec<u8>>, Unread> {
    let (lease, location) = match store.take(key) {
        Ok(Taken::Leased(lease, location)) => (lease, location),
        Ok(Taken::Cached(payload)) => {
            return payload.to_vec(alloc).map(Some).map_err(|_| Unread::Later);
        }
        Ok(Taken::NotHeld | Taken::Deleted) => return Ok(None),
        Err(TakeFault::TooMany | TakeFault::NoSeat | TakeFault::Memory) => {
            return Err(Unread::Later);
        }
    };
    // While the lease is out its log stays. Reading asks the store for nothing more, so another thread may do it.
    let found = fetch(lease.view(), alloc, location, key);
    lease.release().end();
    match found {
        Ok(payload) => Ok(Some(payload)),
        Err(FetchFault::Memory) => Err(Unread::Later),
        Err(FetchFault::Disk | FetchFault::NotThere | FetchFault::Odd) => Err(Unread::Lost),
    }
}
// end: read

// begin: has
/// Whether the store has this data of entry 0 of ledger 1.
fn has<D: LogDisk>(alloc: Global, store: &mut Store<D>, data: &[u8]) -> bool {
    let Some(key) = Key::new(1, 0) else {
        return false;
    };
    match read(alloc, store, key) {
        Ok(Some(payload)) => payload.get(16..) == Some(data),
        Ok(None) | Err(Unread::Later | Unread::Lost) => false,
    }
}
// end: has

// begin: life
/// Whether each call on an empty store answers so.
fn answers<D: LogDisk>(alloc: Global, store: &mut Store<D>, hello: &[u8]) -> bool {
    let is_added = matches!(add(store, hello), Ok(Added::Accepted(_)));
    let is_held = matches!(add(store, hello), Ok(Added::Held));
    let is_flushed = matches!(flush(store), Ok(1));
    // From the log now, by a lease.
    let is_read = has(alloc, store, b"hello");
    // How many entries the ledger had; from here on none can be added to it.
    let is_deleted = matches!(store.delete(1), Ok(1));
    let is_over = matches!(add(store, hello), Err(AddFault::Deleted));
    is_added && is_held && is_flushed && is_read && is_deleted && is_over
}

/// The length of log 0 on the disk of a store. The disk comes back where no lease is out; a refusal has the store as it was,
/// and tells which log is read.
fn length_left<D: LogDisk>(alloc: Global, store: Store<D>) -> Option<u64> {
    match store.into_disk() {
        Ok(mut disk) => disk.length(alloc, 0).ok(),
        Err(_) => None,
    }
}
// end: life

/// What is left of the log of a store in memory after these calls.
fn left_in_memory(alloc: Global, hello: &[u8]) -> Option<u64> {
    let Ok(mut store) = open(alloc, MemDisk::new(alloc)) else {
        return None;
    };
    let is_answered = answers(alloc, &mut store, hello);
    let length = length_left(alloc, store);
    if is_answered { length } else { None }
}

#[test]
fn an_entry_goes_from_an_add_to_the_end_of_its_ledger(rt: HostRuntime) -> Result<(), Fail> {
    let hello = payload(rt.alloc(), 1, 0, b"hello")?;
    // A header, and a record of 25 bytes.
    assert!(rt; left_in_memory(rt.alloc(), &hello) == Some(1049));
    Ok(())
}

// begin: folder
/// Adds an entry to a new store and flushes it. What is not flushed is gone with the store.
fn leaves<D: LogDisk>(alloc: Global, disk: D, hello: &[u8]) -> bool {
    match open(alloc, disk) {
        Ok(mut store) => add(&mut store, hello).is_ok() && flush(&mut store).is_ok(),
        Err(_) => false,
    }
}

/// Whether the next store on the disk has the entry.
fn finds<D: LogDisk>(alloc: Global, disk: D) -> bool {
    match open(alloc, disk) {
        Ok(mut store) => has(alloc, &mut store, b"hello"),
        Err(_) => false,
    }
}
// end: folder

#[test]
fn a_store_is_opened_again_on_its_folder(rt: HostRuntime) -> Result<(), Fail> {
    let _ = fs::remove_dir_all(&rt, "bookie_logs");
    let alloc = rt.alloc();
    let hello = payload(alloc, 1, 0, b"hello")?;
    // begin: twice
    fs::create_dir(&rt, "bookie_logs")?;
    assert!(rt; leaves(alloc, DirDisk::open(&rt, "bookie_logs")?, &hello));
    assert!(rt; finds(alloc, DirDisk::open(&rt, "bookie_logs")?));
    // end: twice
    fs::remove_dir_all(&rt, "bookie_logs")?;
    Ok(())
}
