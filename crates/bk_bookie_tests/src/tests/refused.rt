//! The life of a bookie on one thread, with each allocation refused in turn. A refused call is made
//! again. All answers are those without a refusal.
//!
//! `rt try --test --fail-alloc N -- each_allocation` refuses the Nth allocation, and the gate refuses
//! each in turn (`.ci/refusals.txt`).

ghost use Rattle.std.specs.Prelude.{◌≡◌, ◌+◌, true, IfErr};

use super::calls::{
    AddTold, Held, TakeTold, accepted, add, has_ended_with, is_deleted, is_missing, is_other, pass,
    read_back, take,
};
use super::{SETTINGS, beyond, mark_of, payload, with_other_digest};
use bk_bookie::{AddLedger, Bookie, FinishFault, OpenRefused, Pass};
use bk_disk::MemDisk;
use bk_store::{OpenFault, Receipt};
use std::alloc::Global;
use std::marker::Brand;
use std::process::Abort;
use std::sync::Wait;
use std::sync::ledger::Blank;

/// A bookie, the pass of its caller, and the number of refused calls.
#[derive(Drop)]
struct Trial<L: AddLedger> {
    bookie: Bookie<L, MemDisk>,
    pass: Pass<L>,
    refused: u32,
}

/// Opens a bookie with one pass over a new disk, with ledger 9 deleted.
fn open<L: AddLedger>(alloc: Global, blank: Blank) -> Result<Bookie<L, MemDisk>, OpenRefused>
    requires name { blank.name ≡ L.name }
    requires parts { blank.parts ≡ L.parts }
    requires each { blank.parts ≡ 2 }
    requires honest { L.honest ≡ true }
    ensures blank { IfErr result (λ refused. refused.blank ≡ blank) }
{
    Bookie::open(alloc, blank, 1, MemDisk::new(alloc), SETTINGS, &[9])
}

/// Opens a bookie, again if it is refused. Returns it and the number of refusals.
fn open_again<L: AddLedger, R: Abort>(
    rt: &R,
    alloc: Global,
    blank: Blank,
) -> (Bookie<L, MemDisk>, u32)
    requires name { blank.name ≡ L.name }
    requires parts { blank.parts ≡ L.parts }
    requires each { blank.parts ≡ 2 }
    requires honest { L.honest ≡ true }
{
    let OpenRefused { fault, blank } = match open::<L>(alloc, blank) {
        Ok(bookie) => return (bookie, 0),
        Err(refused) => refused,
    };
    assert!(rt; matches!(fault, OpenFault::Memory));
    match open::<L>(alloc, blank) {
        Ok(bookie) => (bookie, 1),
        Err(_) => panic!(rt; "not opened"),
    }
}

impl<L: AddLedger> Trial<L> {
    /// Counts a refused call.
    fn note_refusal(&mut self) {
        self.refused = self.refused.saturating_add(1);
    }

    fn add<R: Wait>(&mut self, rt: &R, payload: &[u8]) -> AddTold {
        match add(rt, &self.bookie, &mut self.pass, payload) {
            AddTold::Memory => {}
            told => return told,
        }
        self.note_refusal();
        add(rt, &self.bookie, &mut self.pass, payload)
    }

    fn take<R: Wait + Abort>(
        &mut self,
        rt: &R,
        alloc: Global,
        entry: (u8, u16),
        payload: &[u8],
    ) -> TakeTold {
        match take(rt, alloc, &self.bookie, &mut self.pass, entry, payload) {
            TakeTold::Memory => {}
            told => return told,
        }
        self.note_refusal();
        take(rt, alloc, &self.bookie, &mut self.pass, entry, payload)
    }

    fn read_back<R: Wait>(
        &mut self,
        rt: &R,
        alloc: Global,
        receipt: &Receipt,
        payload: &[u8],
    ) -> TakeTold {
        match read_back(rt, alloc, &self.bookie, &mut self.pass, receipt, payload) {
            TakeTold::Memory => {}
            told => return told,
        }
        self.note_refusal();
        read_back(rt, alloc, &self.bookie, &mut self.pass, receipt, payload)
    }

    /// Returns whether a take of an entry of ledger 1 gives its first payload from a cache.
    fn finds<R: Wait + Abort>(&mut self, rt: &R, alloc: Global, entry: u16) -> bool {
        let told = self.take(rt, alloc, (1, entry), &payload(1, entry, b'a'));
        matches!(told, TakeTold::Cached)
    }

    /// Adds an entry of ledger 1, which is accepted, and another with the same key, which is held.
    /// A take gives the first.
    fn add_twice<R: Wait + Abort>(&mut self, rt: &R, alloc: Global, entry: u16) -> Receipt {
        let receipt = accepted(rt, self.add(rt, &payload(1, entry, b'a')));
        assert!(rt; self.finds(rt, alloc, entry));
        let held = self.add(rt, &payload(1, entry, b'b'));
        assert!(rt; matches!(held, AddTold::Held));
        assert!(rt; self.finds(rt, alloc, entry));
        receipt
    }

    /// Adds entries 0 to 99, whose receipts have the numbers 0 to 99.
    fn add_all<R: Wait + Abort>(&mut self, rt: &R, alloc: Global) -> [Receipt; 100] {
        let mut receipts = [self.add_twice(rt, alloc, 0); 100];
        for entry in 1..100 {
            receipts[entry as usize] = self.add_twice(rt, alloc, entry);
        }
        receipts
    }

    /// Returns whether a receipt has this number and is read back from a cache.
    fn reads_back<R: Wait>(&mut self, rt: &R, alloc: Global, receipt: Receipt, entry: u16) -> bool {
        let told = self.read_back(rt, alloc, &receipt, &payload(1, entry, b'a'));
        receipt.number == u64::from(entry) && matches!(told, TakeTold::Cached)
    }

    /// Reads back all receipts.
    fn read_all<R: Wait + Abort>(&mut self, rt: &R, alloc: Global, receipts: &[Receipt; 100]) {
        for entry in 0..100 {
            let receipt = receipts[entry as usize];
            assert!(rt; self.reads_back(rt, alloc, receipt, entry), "entry {entry}");
        }
    }

    /// Returns whether these are refused: a key of a deleted ledger, receipts past the trail and
    /// with another digest.
    fn are_told<R: Wait + Abort>(&mut self, rt: &R, alloc: Global, receipt: &Receipt) -> bool {
        let past = beyond(receipt);
        let other = with_other_digest(receipt);
        let mark = mark_of(receipt);
        let dead = self.take(rt, alloc, (9, 0), b"");
        let missing = self.read_back(rt, alloc, &past, b"");
        let differs = self.read_back(rt, alloc, &other, b"");
        is_deleted(dead) && is_missing(missing, 100) && is_other(differs, &mark)
    }

    /// Ends the bookie, after a refusal without a pass. Only the list of passes allocates.
    fn end<R: Abort>(self, rt: &R, alloc: Global, receipts: &[Receipt; 100]) -> u32 {
        let Trial {
            bookie,
            pass,
            mut refused,
        } = self;
        let held = Held {
            bookie,
            passes: Vec::new(alloc),
        };
        let mut held = held.is_refused(rt, receipts, FinishFault::PassesOut(1));
        if held.passes.reserve(1).is_err() {
            refused = refused.saturating_add(1);
            held.passes.reserve(1).expect(rt, "memory");
        }
        held.passes.push_reserved(pass);
        let other = with_other_digest(&receipts[0]);
        let held = held.is_refused(rt, &[other], FinishFault::Differs(0));
        assert!(rt; has_ended_with(&held.end(rt, receipts), 100, 100));
        refused
    }
}

/// The life of an open bookie.
fn try_all<L: AddLedger, R: Wait + Abort>(rt: &R, alloc: Global, mut trial: Trial<L>) {
    let receipts = trial.add_all(rt, alloc);
    trial.read_all(rt, alloc, &receipts);
    assert!(rt; trial.are_told(rt, alloc, &receipts[0]));
    let refused = trial.end(rt, alloc, &receipts);
    assert!(rt; refused <= 1, "{refused} calls were refused");
}

/// The whole test.
fn run<L: AddLedger, R: Wait + Abort>(rt: &R, alloc: Global, blank: Blank)
    requires name { blank.name ≡ L.name }
    requires parts { blank.parts ≡ L.parts }
    requires each { blank.parts ≡ 2 }
    requires honest { L.honest ≡ true }
{
    let (bookie, refused) = open_again::<L, R>(rt, alloc, blank);
    let pass = pass(rt, &bookie);
    try_all(
        rt,
        alloc,
        Trial {
            bookie,
            pass,
            refused,
        },
    );
}

#[test]
fn each_allocation_is_refused_in_turn(rt: HostRuntime) {
    run::<Brand, HostRuntime>(&rt, rt.alloc(), Blank::new(2));
}
