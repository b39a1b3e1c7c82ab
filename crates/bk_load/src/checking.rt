//! The final check. Looks up each accepted entry in a store opened on the files, and each entry of
//! that store among the receipts.

ghost use Rattle.std.specs.Prelude.{◌≡◌, ◌≤◌, ◌+◌, IfOk, length, nat_lt, not, ◌&&◌, count_by};
ghost use Rattle.std.specs.BTreeSet.{IsFromIterResult, contains};
ghost use Rattle.std.specs.FinMap as map;
ghost use Rattle.bk_record.specs.Key.{key_cmp};
ghost use Rattle.bk_load.specs.Known.{keys_of, earlier_count, AreKnown};
ghost use Rattle.bk_load.specs.Missing.{dead_count, missing_count};

use crate::caller::is_right;
use crate::{Checked, LoadFault};
use bk_disk::LogDisk;
use bk_index::Index;
use bk_record::Key;
use bk_store::{Receipt, Store, Taken};
use std::alloc::{AllocError, Global};
use std::collections::BTreeSet;

/// Returns how many entries of the receipts a store has: found, deleted, lost.
fn look_up<D: LogDisk>(
    alloc: Global,
    store: &mut Store<D>,
    first: u64,
    receipts: &[Receipt],
) -> (u64, u64, u64)
    ensures all { result.0 + result.1 + result.2 ≡ length receipts.now }
    ensures deleted { result.1 ≡ dead_count store.old receipts.now }
    ensures lost { missing_count store.old receipts.now ≤ result.2 }
{
    let mut found = 0;
    let mut deleted = 0;
    let mut lost = 0;
    for receipt in receipts {
        match store.take(receipt.key) {
            Ok(Taken::Deleted) => deleted += 1,
            Ok(taken) if is_right(alloc, first, &taken, receipt) => found += 1,
            _ => lost += 1,
        }
    }
    (found, deleted, lost)
}

/// Returns the keys of the receipts.
fn keys(alloc: Global, receipts: &[Receipt]) -> Result<BTreeSet<Key>, AllocError>
    ensures { IfOk result (IsFromIterResult key_cmp (keys_of receipts.now)) }
{
    receipts.iter().map(|receipt| receipt.key).collect(alloc)
}

/// Returns the number of entries of ledgers below this one.
fn earlier_entries(index: &Index, first: u64) -> u64
    ensures { result ≡ earlier_count first index.now }
{
    let _keys = index.len();
    index.walk().filter(|(key, _)| key.ledger() < first).count() as u64
}

/// Returns the number of entries of the other ledgers that do not have one of these keys.
fn unknown_entries(index: &Index, first: u64, keys: &BTreeSet<Key>) -> u64
    ensures { result ≡ count_by (λ e. not (nat_lt e.0.ledger first) && not (contains key_cmp keys.now e.0))
        (map.entries index.now) }
{
    let _keys = index.len();
    index
        .walk()
        .filter(|(key, _)| key.ledger() >= first && !keys.contains(key))
        .count() as u64
}

/// Compares a store with the receipts of a load whose first ledger is `first`.
///
/// # Errors
///
/// `Memory`: out of memory.
pub(crate) fn check<D: LogDisk>(
    alloc: Global,
    store: &mut Store<D>,
    first: u64,
    receipts: &[Receipt],
) -> Result<Checked, LoadFault>
    ensures all { IfOk result (λ c. c.found + c.deleted + c.lost ≡ length receipts.now) }
    ensures deleted { IfOk result (λ c. c.deleted ≡ dead_count store.old receipts.now) }
    ensures lost { IfOk result (λ c. missing_count store.old receipts.now ≤ c.lost) }
    ensures kept { IfOk result (λ c. c.kept ≡ earlier_count first store.old.index) }
    ensures known { IfOk result (λ c. c.unknown ≡ 0 → AreKnown first receipts.now store.old.index) }
{
    let Ok(keys) = keys(alloc, receipts) else {
        return Err(LoadFault::Memory);
    };
    let kept = earlier_entries(store.index(), first);
    let unknown = unknown_entries(store.index(), first, &keys);
    let (found, deleted, lost) = look_up(alloc, store, first, receipts);
    Ok(Checked {
        found,
        deleted,
        lost,
        unknown,
        kept,
    })
}
