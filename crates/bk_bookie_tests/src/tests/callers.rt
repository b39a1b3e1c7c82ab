//! Two concurrent callers, and the end of their bookie.

ghost use Rattle.std.specs.Prelude.{◌≡◌, true};

use super::calls::{
    AddTold, Held, TakeTold, add, has_ended_with, has_no_pass, is_deleted, is_missing, is_other,
    pass, read_back, take,
};
use super::{SETTINGS, beyond, mark_of, open, payload, with_other_digest};
use bk_bookie::{AddLedger, Bookie, FinishFault, Pass};
use bk_disk::MemDisk;
use bk_store::Receipt;
use std::alloc::Global;
use std::marker::Brand;
use std::process::Abort;
use std::sync::Wait;
use std::sync::ledger::Blank;
use std::thread;
use std::thread::Threads;

/// A caller: its pass, its byte and that of the other caller, and its receipts.
#[derive(Drop)]
struct Caller<L: AddLedger> {
    pass: Pass<L>,
    own: u8,
    other: u8,
    receipts: Vec<Receipt>,
}

impl<L: AddLedger> Caller<L> {
    /// Adds an entry of ledger 1 with the caller's byte. Returns the byte of the entry, which is
    /// the other caller's if the entry was held.
    fn add<R: Wait + Abort>(&mut self, rt: &R, bookie: &Bookie<L, MemDisk>, entry: u16) -> u8 {
        match add(rt, bookie, &mut self.pass, &payload(1, entry, self.own)) {
            AddTold::Accepted(receipt) => {
                self.receipts.push(receipt).expect(rt, "memory");
                self.own
            }
            AddTold::Held => self.other,
            _ => panic!(rt; "entry {entry} was refused"),
        }
    }

    /// Returns whether a take of this entry of ledger 1 gives this byte from a cache.
    fn finds<R: Wait + Abort>(
        &mut self,
        rt: &R,
        alloc: Global,
        bookie: &Bookie<L, MemDisk>,
        entry: u16,
        data: u8,
    ) -> bool {
        let payload = payload(1, entry, data);
        let told = take(rt, alloc, bookie, &mut self.pass, (1, entry), &payload);
        matches!(told, TakeTold::Cached)
    }

    /// Returns whether a receipt is read back with the caller's byte.
    fn reads_back<R: Wait>(
        pass: &mut Pass<L>,
        rt: &R,
        alloc: Global,
        bookie: &Bookie<L, MemDisk>,
        receipt: &Receipt,
        own: u8,
    ) -> bool {
        let Ok(entry) = u16::try_from(receipt.key.entry()) else {
            return false;
        };
        let told = read_back(rt, alloc, bookie, pass, receipt, &payload(1, entry, own));
        matches!(told, TakeTold::Cached)
    }
}

/// Adds entries 0 to 99 and takes each after its add.
fn call<L: AddLedger, R: Wait + Abort>(
    rt: &R,
    alloc: Global,
    bookie: &Bookie<L, MemDisk>,
    mut caller: Caller<L>,
) -> Caller<L> {
    for entry in 0..100 {
        let data = caller.add(rt, bookie, entry);
        assert!(rt;
            caller.finds(rt, alloc, bookie, entry, data),
            "entry {entry}"
        );
    }
    caller
}

/// Returns the two callers of a bookie with two passes.
fn two_callers<L: AddLedger, R: Wait + Abort>(
    rt: &R,
    alloc: Global,
    bookie: &Bookie<L, MemDisk>,
) -> (Caller<L>, Caller<L>) {
    let first = Caller {
        pass: pass(rt, bookie),
        own: b'a',
        other: b'b',
        receipts: Vec::new(alloc),
    };
    let second = Caller {
        pass: pass(rt, bookie),
        own: b'b',
        other: b'a',
        receipts: Vec::new(alloc),
    };
    assert!(rt; has_no_pass(rt, bookie));
    (first, second)
}

/// Runs both callers at once.
fn let_both_call<L: AddLedger + Send + Sync, R: Threads + Wait + Abort + Sync>(
    rt: &R,
    alloc: Global,
    bookie: &Bookie<L, MemDisk>,
    first: Caller<L>,
    second: Caller<L>,
) -> (Caller<L>, Caller<L>) {
    thread::join(
        rt,
        move || call(rt, alloc, bookie, first),
        move || call(rt, alloc, bookie, second),
    )
}

/// Records a number. Returns whether it is below 100 and new.
fn is_new(found: &mut [bool; 100], number: u64) -> bool {
    if number >= 100 {
        return false;
    }
    let was_found = found[number as usize];
    found[number as usize] = true;
    !was_found
}

/// Reads back each receipt of a caller with any pass. The numbers are below 100 and differ.
fn read_all<L: AddLedger, R: Wait + Abort>(
    rt: &R,
    alloc: Global,
    bookie: &Bookie<L, MemDisk>,
    pass: &mut Pass<L>,
    (receipts, own): (&[Receipt], u8),
    found: &mut [bool; 100],
) {
    for receipt in receipts {
        assert!(rt; Caller::reads_back(pass, rt, alloc, bookie, receipt, own));
        assert!(rt; is_new(found, receipt.number));
    }
}

/// Returns whether these are refused: a key of a deleted ledger, a receipt past the trail, one with
/// another digest.
fn are_told<L: AddLedger, R: Wait + Abort>(
    rt: &R,
    alloc: Global,
    bookie: &Bookie<L, MemDisk>,
    pass: &mut Pass<L>,
    receipt: &Receipt,
) -> bool {
    let past = beyond(receipt);
    let other = with_other_digest(receipt);
    let mark = mark_of(receipt);
    let dead = take(rt, alloc, bookie, pass, (9, 0), b"");
    let missing = read_back(rt, alloc, bookie, pass, &past, b"");
    let differs = read_back(rt, alloc, bookie, pass, &other, b"");
    is_deleted(dead) && is_missing(missing, 100) && is_other(differs, &mark)
}

/// Fails to end the bookie three times, first because a pass is missing.
fn refuse_to_end<L: AddLedger, R: Abort>(
    rt: &R,
    held: Held<L>,
    kept_back: Pass<L>,
    receipts: &[Receipt],
) -> Held<L> {
    let receipt = receipts.first().expect(rt, "a receipt");
    let past = beyond(receipt);
    let other = with_other_digest(receipt);
    let held = held.is_refused(rt, receipts, FinishFault::PassesOut(1));
    let held = held.with(rt, kept_back);
    let held = held.is_refused(rt, &[*receipt, past], FinishFault::Missing(100));
    held.is_refused(rt, &[*receipt, other], FinishFault::Differs(receipt.number))
}

/// Returns all receipts of two callers.
fn together<R: Abort>(
    rt: &R,
    alloc: Global,
    first: &[Receipt],
    second: &[Receipt],
) -> Vec<Receipt> {
    let mut receipts = Vec::from_slice(alloc, first).expect(rt, "memory");
    receipts.extend_from_slice(second).expect(rt, "memory");
    receipts
}

/// Returns whether the passes count the callers' receipts, 100 together.
fn are_counted<L: AddLedger>(first: &Caller<L>, second: &Caller<L>) -> bool {
    first.pass.adds() == first.receipts.len() as u64
        && second.pass.adds() == second.receipts.len() as u64
        && first.pass.adds().saturating_add(second.pass.adds()) == 100
}

/// Reads back the receipts of two callers with one pass.
fn read_both<L: AddLedger, R: Wait + Abort>(
    rt: &R,
    alloc: Global,
    bookie: &Bookie<L, MemDisk>,
    pass: &mut Pass<L>,
    first: (&[Receipt], u8),
    second: (&[Receipt], u8),
) {
    let mut found = [false; 100];
    read_all(rt, alloc, bookie, pass, first, &mut found);
    read_all(rt, alloc, bookie, pass, second, &mut found);
}

/// Ends the bookie after three refusals.
fn end_at_last<L: AddLedger, R: Abort>(
    rt: &R,
    held: Held<L>,
    kept_back: Pass<L>,
    receipts: &[Receipt],
) {
    let held = refuse_to_end(rt, held, kept_back, receipts);
    assert!(rt; has_ended_with(&held.end(rt, receipts), 100, 100));
}

/// Reads back the receipts of two callers and ends their bookie.
fn end<L: AddLedger, R: Wait + Abort>(
    rt: &R,
    alloc: Global,
    bookie: Bookie<L, MemDisk>,
    first: Caller<L>,
    second: Caller<L>,
) {
    let Caller {
        mut pass,
        own,
        other,
        receipts: of_first,
    } = first;
    let Caller {
        pass: kept_back,
        receipts: of_second,
        ..
    } = second;
    read_both(
        rt,
        alloc,
        &bookie,
        &mut pass,
        (&of_first, own),
        (&of_second, other),
    );
    let receipts = together(rt, alloc, &of_first, &of_second);
    let receipt = receipts.first().expect(rt, "a receipt");
    assert!(rt; are_told(rt, alloc, &bookie, &mut pass, receipt));
    end_at_last(rt, Held::new(rt, alloc, bookie, pass), kept_back, &receipts);
}

/// The life of a bookie with two callers.
fn run<L: AddLedger + Send + Sync, R: Threads + Wait + Abort + Sync>(
    rt: &R,
    alloc: Global,
    blank: Blank,
)
    requires name { blank.name ≡ L.name }
    requires parts { blank.parts ≡ L.parts }
    requires each { blank.parts ≡ 3 }
    requires honest { L.honest ≡ true }
{
    let bookie = open::<L, R>(rt, alloc, blank, 2, SETTINGS, &[9]);
    let (first, second) = two_callers(rt, alloc, &bookie);
    let (first, second) = let_both_call(rt, alloc, &bookie, first, second);
    assert!(rt; are_counted(&first, &second));
    end(rt, alloc, bookie, first, second);
}

#[test]
fn two_callers_add_each_entry_once(rt: HostRuntime) {
    run::<Brand, HostRuntime>(&rt, rt.alloc(), Blank::new(3));
}
