//! The durable front of a bookie, and the entries below it once its disk is opened again.

ghost use Rattle.std.specs.Prelude.{◌≡◌, true};

use super::calls::{Held, TakeTold, accepted, add, disk_of, fronts, pass, take_steps, taken_told};
use super::{SETTINGS, open, payload};
use bk_bookie::{AddLedger, Bookie, Pass};
use bk_disk::MemDisk;
use bk_drive::Work;
use bk_store::{Receipt, Store};
use std::alloc::Global;
use std::marker::Brand;
use std::process::Abort;
use std::sync::Wait;
use std::sync::ledger::Blank;

/// Adds an entry of ledger 1.
fn added<L: AddLedger, R: Wait + Abort>(
    rt: &R,
    bookie: &Bookie<L, MemDisk>,
    pass: &mut Pass<L>,
    entry: u16,
) -> Receipt {
    accepted(rt, add(rt, bookie, pass, &payload(1, entry, b'a')))
}

/// Returns whether the bookie has this many marks, of which this many are durable.
fn has_fronts<L: AddLedger, R: Wait>(
    rt: &R,
    bookie: &Bookie<L, MemDisk>,
    pass: &mut Pass<L>,
    front: u64,
    durable: u64,
) -> bool {
    match fronts(rt, bookie, pass) {
        Some(found) => found.0 == front && found.1 == durable,
        None => false,
    }
}

/// Adds four entries. The first two are in a flush, the third in the next one, and the last in none:
/// the durable front is the number of adds that were accepted before the swap of the last flush.
fn add_four<L: AddLedger, R: Wait + Abort>(
    rt: &R,
    bookie: &Bookie<L, MemDisk>,
    pass: &mut Pass<L>,
) -> [Receipt; 4] {
    let first = added(rt, bookie, pass, 0);
    let second = added(rt, bookie, pass, 1);
    take_steps(rt, bookie, &[Work::Swap, Work::WriteOne]);
    let third = added(rt, bookie, pass, 2);
    assert!(rt; has_fronts(rt, bookie, pass, 3, 0));
    take_steps(rt, bookie, &[Work::WriteOne, Work::Publish]);
    assert!(rt; has_fronts(rt, bookie, pass, 3, 2));
    take_steps(rt, bookie, &[Work::Swap, Work::WriteOne, Work::Publish]);
    assert!(rt; has_fronts(rt, bookie, pass, 3, pass.adds()));
    let last = added(rt, bookie, pass, 3);
    assert!(rt; has_fronts(rt, bookie, pass, 4, 3));
    [first, second, third, last]
}

/// Opens a store on the disk of a bookie.
fn open_again<R: Abort>(rt: &R, alloc: Global, disk: MemDisk) -> Store<MemDisk> {
    match Store::open(alloc, disk, SETTINGS, &[]) {
        Ok(store) => store,
        Err(_) => panic!(rt; "not opened"),
    }
}

/// Returns whether the entry of a receipt is read from a log, with its payload.
fn is_found(alloc: Global, store: &mut Store<MemDisk>, receipt: &Receipt, entry: u16) -> bool {
    match store.take(receipt.key) {
        Ok(taken) => matches!(
            taken_told(alloc, &taken, receipt.key, &payload(1, entry, b'a')),
            TakeTold::Logged
        ),
        Err(_) => false,
    }
}

/// Ends the bookie and opens its disk again. Of the receipts, those with a number below the durable
/// front have their entries there, and the last has none: it was only cached.
fn reopen<L: AddLedger, R: Abort>(
    rt: &R,
    alloc: Global,
    held: Held<L>,
    receipts: &[Receipt; 4],
    durable: u64,
) {
    let finished = held.end(rt, receipts);
    assert!(rt; finished.store.durable_front() == durable);
    let disk = disk_of(rt, finished.store);
    let mut store = open_again(rt, alloc, disk);
    assert!(rt; store.durable_front() == 0);
    for entry in 0..4_u16 {
        let receipt = &receipts[usize::from(entry)];
        let found = is_found(alloc, &mut store, receipt, entry);
        assert!(rt; found == (receipt.number < durable), "entry {entry}");
    }
}

/// The life of the bookie.
fn live<L: AddLedger, R: Wait + Abort>(rt: &R, alloc: Global, bookie: Bookie<L, MemDisk>) {
    let mut pass = pass(rt, &bookie);
    let receipts = add_four(rt, &bookie, &mut pass);
    reopen(rt, alloc, Held::new(rt, alloc, bookie, pass), &receipts, 3);
}

/// Opens a bookie with one pass.
fn run<L: AddLedger, R: Wait + Abort>(rt: &R, alloc: Global, blank: Blank)
    requires name { blank.name ≡ L.name }
    requires parts { blank.parts ≡ L.parts }
    requires each { blank.parts ≡ 2 }
    requires honest { L.honest ≡ true }
{
    live(rt, alloc, open::<L, R>(rt, alloc, blank, 1, SETTINGS, &[]));
}

#[test]
fn entries_below_the_durable_front_are_found_again(rt: HostRuntime) {
    run::<Brand, HostRuntime>(&rt, rt.alloc(), Blank::new(2));
}
