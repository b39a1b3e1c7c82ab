//! Reads by ledger, as values.

ghost use Rattle.std.specs.Prelude.{◌≡◌};
ghost use Rattle.bk_drive.specs.LedgerReads.{LedgerReadOf};

use bk_disk::LogDisk;
use bk_record::Key;
use bk_store::Store;
use std::alloc::AllocError;

/// A read by ledger. A deleted ledger has no entry.
#[derive(Clone, Copy, Debug, PartialEq, Eq)]
pub enum LedgerRead {
    /// Whether the store has an entry of this key.
    Holds(Key),
    /// Whether this ledger is fenced.
    IsFenced(u64),
    /// The greatest entry id of this ledger.
    LastEntry(u64),
    /// A page of the entry ids of a ledger: ledger, first id, and the most ids.
    Entries(u64, u64, u64),
    /// A page of the ledgers that have an entry: first ledger, and the most ledgers.
    Ledgers(u64, u64),
}

/// Answer of a read by ledger, by the read.
#[derive(Debug, Drop)]
pub enum LedgerReadAnswer {
    Holds(bool),
    IsFenced(bool),
    /// `None` if the ledger has no entry.
    LastEntry(Option<u64>),
    /// The ids rise. A page with fewer than the most is the last one.
    Entries(Result<Vec<u64>, AllocError>),
    /// The same of ledgers.
    Ledgers(Result<Vec<u64>, AllocError>),
}

/// Reads by ledger. The store is unchanged.
pub(crate) fn read_ledgers<D: LogDisk>(store: &Store<D>, read: LedgerRead) -> LedgerReadAnswer
    ensures { LedgerReadOf store.now read result }
{
    match read {
        LedgerRead::Holds(key) => LedgerReadAnswer::Holds(store.holds(&key)),
        LedgerRead::IsFenced(ledger) => LedgerReadAnswer::IsFenced(store.is_fenced(ledger)),
        LedgerRead::LastEntry(ledger) => LedgerReadAnswer::LastEntry(store.last_entry(ledger)),
        LedgerRead::Entries(ledger, from, most) => {
            LedgerReadAnswer::Entries(store.entries(ledger, from, most as usize))
        }
        LedgerRead::Ledgers(from, most) => {
            LedgerReadAnswer::Ledgers(store.ledgers(from, most as usize))
        }
    }
}
