//! Receipts of other bookies. A receipt names no bookie; it is valid if the trail has its mark.

ghost use Rattle.std.specs.Prelude.{◌≡◌, true};

use super::calls::{Held, accepted, add, pass};
use super::{SETTINGS, open, payload};
use bk_bookie::{AddLedger, FinishFault};
use bk_store::Receipt;
use std::alloc::Global;
use std::marker::Brand;
use std::process::Abort;
use std::sync::Wait;
use std::sync::ledger::Blank;

/// Entries 0 and 1 of ledger 1: number and byte of each.
type Order = [(u16, u8); 2];

/// A bookie accepts entry 0 first.
const RISING: Order = [(0, b'a'), (1, b'b')];

/// Another accepts it last.
const FALLING: Order = [(1, b'b'), (0, b'a')];

/// A third accepts it first, then other bytes.
const OTHER: Order = [(0, b'a'), (1, b'c')];

/// A bookie with one pass, and the receipt of its first entry.
#[derive(Drop)]
struct Opened<L: AddLedger> {
    held: Held<L>,
    first: Receipt,
}

/// Opens a bookie that accepts two entries in this order.
fn open_with<L: AddLedger, R: Wait + Abort>(
    rt: &R,
    alloc: Global,
    blank: Blank,
    order: Order,
) -> Opened<L>
    requires name { blank.name ≡ L.name }
    requires parts { blank.parts ≡ L.parts }
    requires each { blank.parts ≡ 2 }
    requires honest { L.honest ≡ true }
{
    let bookie = open::<L, R>(rt, alloc, blank, 1, SETTINGS, &[9]);
    let mut pass = pass(rt, &bookie);
    let [(early, one), (late, other)] = order;
    let first = accepted(rt, add(rt, &bookie, &mut pass, &payload(1, early, one)));
    let _second = accepted(rt, add(rt, &bookie, &mut pass, &payload(1, late, other)));
    Opened {
        held: Held::new(rt, alloc, bookie, pass),
        first,
    }
}

/// Returns the first receipt of such a bookie.
fn first_receipt<L: AddLedger, R: Wait + Abort>(
    rt: &R,
    alloc: Global,
    blank: Blank,
    order: Order,
) -> Receipt
    requires name { blank.name ≡ L.name }
    requires parts { blank.parts ≡ L.parts }
    requires each { blank.parts ≡ 2 }
    requires honest { L.honest ≡ true }
{
    open_with::<L, R>(rt, alloc, blank, order).first
}

/// Ends a bookie with a receipt of another one, which is refused, then with its own first receipt
/// twice and one of a third bookie, which are valid.
fn end<L: AddLedger, R: Abort>(rt: &R, opened: Opened<L>, strange: Receipt, same: Receipt) {
    let held = opened
        .held
        .is_refused(rt, &[strange], FinishFault::Differs(0));
    let finished = held.end(rt, &[opened.first, opened.first, same]);
    assert!(rt; finished.adds == 2);
}

/// Opens a bookie and ends it with receipts of two others.
fn run<L: AddLedger, R: Wait + Abort>(
    rt: &R,
    alloc: Global,
    blank: Blank,
    strange: Receipt,
    same: Receipt,
)
    requires name { blank.name ≡ L.name }
    requires parts { blank.parts ≡ L.parts }
    requires each { blank.parts ≡ 2 }
    requires honest { L.honest ≡ true }
{
    end(
        rt,
        open_with::<L, R>(rt, alloc, blank, RISING),
        strange,
        same,
    );
}

#[test]
fn receipts_of_other_bookies_say_what_stands_at_a_number(rt: HostRuntime) {
    let alloc = rt.alloc();
    let falling = first_receipt::<Brand, HostRuntime>(&rt, alloc, Blank::new(2), FALLING);
    let other = first_receipt::<Brand, HostRuntime>(&rt, alloc, Blank::new(2), OTHER);
    assert!(rt; falling.number == 0);
    run::<Brand, HostRuntime>(&rt, alloc, Blank::new(2), falling, other);
}
