//! What a store must keep: the stage of each entry that was added, and the deleted ledgers.

use super::stop::Stop;
use bk_record::{Key, key_of};
use std::alloc::{AllocError, Global};

/// The stage of an entry.
#[derive(Clone, Copy)]
pub(super) enum Stage {
    Added,
    Flushing,
    Published,
    Deleted,
}

/// An entry that was added.
#[derive(Drop)]
pub(super) struct Entry {
    pub(super) ledger: u64,
    pub(super) entry: u64,
    payload: Vec<u8>,
    stage: Stage,
}

/// What a store must keep: its entries, and the deleted ledgers.
#[derive(Drop)]
pub(super) struct Owed {
    pub(super) entries: Vec<Entry>,
    pub(super) dead: Vec<u64>,
}

impl Owed {
    pub(super) fn new(alloc: Global) -> Owed {
        Owed {
            entries: Vec::new(alloc),
            dead: Vec::new(alloc),
        }
    }

    /// Returns whether an entry with this key was added.
    fn has(&self, key: Key) -> bool {
        for entry in self.entries.iter() {
            if entry.ledger == key.ledger() && entry.entry == key.entry() {
                return true;
            }
        }
        false
    }

    pub(super) fn add(&mut self, alloc: Global, payload: &[u8]) -> Result<(), Stop> {
        let Ok(key) = key_of(payload) else {
            return Ok(());
        };
        if self.has(key) {
            return Err(Stop::new("accepted twice", key.ledger(), key.entry()));
        }
        let entry = Entry {
            ledger: key.ledger(),
            entry: key.entry(),
            payload: Vec::from_slice(alloc, payload)?,
            stage: Stage::Added,
        };
        push(&mut self.entries, entry)?;
        Ok(())
    }

    pub(super) fn delete(&mut self, ledger: u64) -> Result<(), AllocError> {
        for entry in self.entries.iter_mut() {
            if entry.ledger == ledger {
                entry.stage = Stage::Deleted;
            }
        }
        self.dead.push(ledger)?;
        Ok(())
    }

    /// Returns whether each entry is published.
    pub(super) fn is_published(&self) -> bool {
        for entry in self.entries.iter() {
            if !matches!(entry.stage, Stage::Published) {
                return false;
            }
        }
        true
    }

    /// Moves all entries of one stage to another.
    pub(super) fn go_on(&mut self, from: Stage, to: Stage) {
        for entry in self.entries.iter_mut() {
            if entry.stage as u8 == from as u8 {
                entry.stage = to;
            }
        }
    }
}

/// Appends an entry to a list.
pub(super) fn push(entries: &mut Vec<Entry>, entry: Entry) -> Result<(), AllocError> {
    entries.push(entry)?;
    Ok(())
}

/// Checks an entry against what was found: its bytes, and something at all if it was published.
pub(super) fn judged(owed: &Entry, found: Option<Vec<u8>>) -> Result<Option<Entry>, Stop> {
    match found {
        Some(payload) if payload.as_slice() == owed.payload.as_slice() => Ok(Some(Entry {
            ledger: owed.ledger,
            entry: owed.entry,
            payload,
            stage: Stage::Published,
        })),
        Some(_) => Err(Stop::new("other bytes", owed.ledger, owed.entry)),
        None if matches!(owed.stage, Stage::Published) => {
            Err(Stop::new("lost", owed.ledger, owed.entry))
        }
        None => Ok(None),
    }
}
