//! A ledger that is fenced while a bookie runs.

ghost use Rattle.std.specs.Prelude.{◌≡◌, true};

use super::calls::{AddTold, Held, accepted, add, add_recovery, fence, pass};
use super::{SETTINGS, mark_of, open, payload};
use bk_bookie::{AddLedger, Bookie, Finished, Pass};
use bk_disk::MemDisk;
use bk_store::{Fence, Mark, Receipt};
use std::alloc::Global;
use std::marker::Brand;
use std::process::Abort;
use std::sync::Wait;
use std::sync::ledger::Blank;

/// Fences ledger 1. Then an ordinary add is refused, and a recovery add of an existing entry is
/// held.
fn is_fenced<L: AddLedger, R: Wait>(
    rt: &R,
    bookie: &Bookie<L, MemDisk>,
    pass: &mut Pass<L>,
) -> bool {
    matches!(fence(rt, bookie, pass, 1), Some(Fence::Fenced))
        && matches!(add(rt, bookie, pass, &payload(1, 1, b'b')), AddTold::Fenced)
        && matches!(
            add_recovery(rt, bookie, pass, &payload(1, 0, b'z')),
            AddTold::Held
        )
}

/// Checks that an ordinary add before the fence and a recovery add after it are accepted, and that
/// any number is fenced.
fn add_two<L: AddLedger, R: Wait + Abort>(
    rt: &R,
    bookie: &Bookie<L, MemDisk>,
    pass: &mut Pass<L>,
) -> [Receipt; 2] {
    let first = accepted(rt, add(rt, bookie, pass, &payload(1, 0, b'a')));
    assert!(rt; is_fenced(rt, bookie, pass));
    let second = accepted(rt, add_recovery(rt, bookie, pass, &payload(1, 1, b'b')));
    assert!(rt; matches!(fence(rt, bookie, pass, 1), Some(Fence::AlreadyFenced)));
    assert!(rt; matches!(fence(rt, bookie, pass, u64::MAX), Some(Fence::Fenced)));
    [first, second]
}

/// Returns whether a trail has these marks.
fn are_marks(trail: &[Mark], marks: &[Mark]) -> bool {
    trail == marks
}

/// Returns whether the receipts have numbers 0 and 2 and the trail has their marks, with one
/// fence's between them and the other's last.
fn stand(finished: &Finished<MemDisk>, first: &Receipt, second: &Receipt) -> bool {
    let marks = [
        mark_of(first),
        Mark::Fence { ledger: 1 },
        mark_of(second),
        Mark::Fence { ledger: u64::MAX },
    ];
    first.number == 0
        && second.number == 2
        && finished.adds == 2
        && are_marks(finished.store.trail(), &marks)
}

/// Ends the bookie with the receipts of both adds.
fn end<L: AddLedger, R: Abort>(rt: &R, held: Held<L>, receipts: &[Receipt; 2]) {
    let finished = held.end(rt, receipts);
    assert!(rt; stand(&finished, &receipts[0], &receipts[1]));
}

/// The life of the bookie.
fn live<L: AddLedger, R: Wait + Abort>(rt: &R, alloc: Global, bookie: Bookie<L, MemDisk>) {
    let mut pass = pass(rt, &bookie);
    let receipts = add_two(rt, &bookie, &mut pass);
    end(rt, Held::new(rt, alloc, bookie, pass), &receipts);
}

/// An ordinary add before the fence and a recovery add after it are accepted; an ordinary add
/// between them is refused.
fn run<L: AddLedger, R: Wait + Abort>(rt: &R, alloc: Global, blank: Blank)
    requires name { blank.name ≡ L.name }
    requires parts { blank.parts ≡ L.parts }
    requires each { blank.parts ≡ 2 }
    requires honest { L.honest ≡ true }
{
    live(rt, alloc, open::<L, R>(rt, alloc, blank, 1, SETTINGS, &[9]));
}

#[test]
fn receipts_of_both_kinds_of_adds_stand_in_the_trail(rt: HostRuntime) {
    run::<Brand, HostRuntime>(&rt, rt.alloc(), Blank::new(2));
}
