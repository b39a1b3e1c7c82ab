//! The caches under lists of calls, with many entries, and with memory refused.

mod memory;
mod sizes;
mod worked;

use bk_cache::{CacheAdd, CacheFault, Caches, Swap, share};
use bk_record::{Key, check_add};
use std::alloc::{AllocError, Global};
use std::sync::Arc;
use std::test::Fail;

/// A call, or a query.
#[derive(Clone, Copy)]
enum Call {
    /// Adds a payload of this key, data byte and size.
    Add(u64, u64, u8, usize),
    /// The same with a shared payload.
    Put(u64, u64, u8, usize),
    Swap,
    Done,
    Drop(u64),
    Remember(u64, u64, u8),
    /// The payload that a read finds.
    Find(u64, u64),
    /// The entry of the flush after a key.
    After(u64, u64),
    /// The first entry of the flush.
    First,
    Used,
    FlushLen,
    RecentLen,
}

/// Result of a call.
#[derive(Clone, Copy, PartialEq)]
enum Answer {
    Nothing,
    Taken,
    Held,
    Running,
    Memory,
    /// The active cache is full with this many bytes.
    Full(u64),
    Count(u64),
    Mark(u8),
    At(u64, u64),
}

// Two ids, and 84 data bytes, all `mark`.
fn bytes_of(ledger: u64, entry: u64, mark: u8) -> [u8; 100] {
    let mut bytes = [mark; 100];
    bytes[..8].copy_from_slice(&ledger.to_be_bytes());
    bytes[8..16].copy_from_slice(&entry.to_be_bytes());
    bytes
}

fn add(caches: &mut Caches, ledger: u64, entry: u64, mark: u8, size: usize) -> Answer {
    let bytes = bytes_of(ledger, entry, mark);
    let payload = &bytes[..size.min(100)];
    let Ok(key) = check_add(payload) else {
        return Answer::Nothing;
    };
    told(caches.add(key, payload))
}

fn put(
    alloc: Global,
    caches: &mut Caches,
    ledger: u64,
    entry: u64,
    mark: u8,
    size: usize,
) -> Answer {
    let bytes = bytes_of(ledger, entry, mark);
    let payload = &bytes[..size.min(100)];
    match (check_add(payload), share(alloc, payload)) {
        (Ok(key), Ok(shared)) => told(caches.put(key, shared)),
        (Ok(_), Err(_)) => Answer::Memory,
        (Err(_), _) => Answer::Nothing,
    }
}

fn told(answer: Result<CacheAdd, CacheFault>) -> Answer {
    match answer {
        Ok(CacheAdd::Taken) => Answer::Taken,
        Ok(CacheAdd::Held) => Answer::Held,
        Err(CacheFault::Full { used, .. }) => Answer::Full(used),
        Err(CacheFault::Memory) => Answer::Memory,
    }
}

fn remember(alloc: Global, caches: &mut Caches, key: Key, mark: u8) -> Result<(), AllocError> {
    let bytes = bytes_of(key.ledger(), key.entry(), mark).to_vec(alloc)?;
    caches.remember(key, Arc::new(alloc, bytes)?);
    Ok(())
}

// The data byte of the payload that a read finds.
fn found(caches: &Caches, key: &Key) -> Answer {
    match caches.get(key) {
        Some(payload) => Answer::Mark(payload.last().copied().unwrap_or(0)),
        None => Answer::Nothing,
    }
}

fn after(caches: &Caches, key: Option<Key>) -> Answer {
    match caches.flushing_after(key) {
        Some((next, _)) => Answer::At(next.ledger(), next.entry()),
        None => Answer::Nothing,
    }
}

fn swap(caches: &mut Caches) -> Answer {
    match caches.swap() {
        Swap::Swapped(count) => Answer::Count(count),
        Swap::Running => Answer::Running,
        Swap::Nothing => Answer::Nothing,
    }
}

// Calls that have a key.
fn keyed(alloc: Global, caches: &mut Caches, call: Call, key: Key) -> Answer {
    match call {
        Call::Find(_, _) => found(caches, &key),
        Call::After(_, _) => after(caches, Some(key)),
        Call::Remember(_, _, mark) if remember(alloc, caches, key, mark).is_err() => Answer::Memory,
        _ => Answer::Nothing,
    }
}

fn make(alloc: Global, caches: &mut Caches, call: Call) -> Answer {
    match call {
        Call::Add(ledger, entry, mark, size) => add(caches, ledger, entry, mark, size),
        Call::Put(ledger, entry, mark, size) => put(alloc, caches, ledger, entry, mark, size),
        Call::Swap => swap(caches),
        Call::Done => {
            caches.done();
            Answer::Nothing
        }
        Call::Drop(ledger) => Answer::Count(caches.drop_ledger(ledger)),
        Call::First => after(caches, None),
        Call::Used => Answer::Count(caches.used()),
        Call::FlushLen => Answer::Count(caches.flush_len()),
        Call::RecentLen => Answer::Count(caches.recent_len()),
        Call::Find(ledger, entry) | Call::After(ledger, entry) | Call::Remember(ledger, entry, _) =>
            {
                match Key::new(ledger, entry) {
                    Some(key) => keyed(alloc, caches, call, key),
                    None => Answer::Nothing,
                }
            }
    }
}

/// Returns the number of the first call with another answer, counted from 1.
fn first_wrong(alloc: Global, caches: &mut Caches, calls: &[(Call, Answer)]) -> Option<usize> {
    for (number, (call, expected)) in calls.iter().enumerate() {
        if make(alloc, caches, *call) != *expected {
            return Some(number.saturating_add(1));
        }
    }
    None
}

#[test]
fn a_fault_is_told_by_its_text(rt: HostRuntime) -> Result<(), Fail> {
    let full = CacheFault::Full {
        used: 100,
        limit: 120,
    };
    for (fault, text) in [(full, "full 100 120"), (CacheFault::Memory, "memory")] {
        assert_eq!(rt; fault.to_string(rt.alloc())?.as_str(), text);
    }
    Ok(())
}
