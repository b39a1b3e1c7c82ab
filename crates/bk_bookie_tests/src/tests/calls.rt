//! The calls of a bookie, each in a function without a contract, which returns a small enum, a
//! number or a `bool`.

use super::key;
use bk_bookie::{
    AddLedger, Bookie, CallFault, FinishFault, FinishRefused, Finished, NoPass, Pass, ReadBackFault,
};
use bk_disk::{LogDisk, MemDisk};
use bk_drive::Work;
use bk_lease::Lease;
use bk_log::fetch;
use bk_record::{Key, Location};
use bk_store::{AddFault, Added, Fence, Mark, Receipt, Store, TakeFault, Taken};
use std::alloc::Global;
use std::process::Abort;
use std::sync::Wait;

/// A view of a log in memory.
pub(super) type View = <MemDisk as LogDisk>::View;

/// Answer of an add.
#[derive(Clone, Copy)]
pub(super) enum AddTold {
    Accepted(Receipt),
    Held,
    Deleted,
    Fenced,
    Memory,
    Other,
}

/// Answer of a take or a read-back, compared with the expected payload: the ledger is deleted; the
/// payload, from a cache or by a lease; a fault; or anything else.
#[derive(Clone, Copy)]
pub(super) enum TakeTold {
    Deleted,
    Cached,
    Logged,
    Memory,
    Missing(u64),
    Differs(Mark),
    Other,
}

/// Returns whether the ledger is deleted.
pub(super) fn is_deleted(told: TakeTold) -> bool {
    matches!(told, TakeTold::Deleted)
}

/// Returns whether the receipt is missing from a trail with this number of marks.
pub(super) fn is_missing(told: TakeTold, marks: u64) -> bool {
    match told {
        TakeTold::Missing(front) => front == marks,
        _ => false,
    }
}

/// Returns whether the trail has this mark in place of the receipt's.
pub(super) fn is_other(told: TakeTold, mark: &Mark) -> bool {
    match told {
        TakeTold::Differs(found) => found == *mark,
        _ => false,
    }
}

/// Converts the answer of an add.
fn add_told(answer: Result<Added, CallFault<AddFault>>) -> AddTold {
    match answer {
        Ok(Added::Accepted(receipt)) => AddTold::Accepted(receipt),
        Ok(Added::Held) => AddTold::Held,
        Err(CallFault::Of(AddFault::Deleted)) => AddTold::Deleted,
        Err(CallFault::Of(AddFault::Fenced)) => AddTold::Fenced,
        Err(CallFault::Of(AddFault::Memory)) => AddTold::Memory,
        Err(_) => AddTold::Other,
    }
}

/// Adds an entry.
pub(super) fn add<L: AddLedger, R: Wait>(
    rt: &R,
    bookie: &Bookie<L, MemDisk>,
    pass: &mut Pass<L>,
    payload: &[u8],
) -> AddTold {
    add_told(bookie.add(rt, pass, payload))
}

/// Adds an entry as a recovery.
pub(super) fn add_recovery<L: AddLedger, R: Wait>(
    rt: &R,
    bookie: &Bookie<L, MemDisk>,
    pass: &mut Pass<L>,
    payload: &[u8],
) -> AddTold {
    add_told(bookie.add_recovery(rt, pass, payload))
}

/// Returns the receipt of an accepted add.
pub(super) fn accepted<R: Abort>(rt: &R, told: AddTold) -> Receipt {
    match told {
        AddTold::Accepted(receipt) => receipt,
        _ => panic!(rt; "not accepted"),
    }
}

/// Returns whether a lease shows this payload of a key at the location.
pub(super) fn shows(
    alloc: Global,
    lease: &Lease<View>,
    location: Location,
    key: Key,
    payload: &[u8],
) -> bool {
    match fetch(lease.view(), alloc, location, key) {
        Ok(found) => found.as_slice() == payload,
        Err(_) => false,
    }
}

/// Compares the result of a take with the expected payload.
pub(super) fn taken_told(alloc: Global, taken: &Taken<View>, key: Key, payload: &[u8]) -> TakeTold {
    match taken {
        Taken::Deleted => TakeTold::Deleted,
        Taken::Cached(found) => {
            if found.as_slice() == payload {
                TakeTold::Cached
            } else {
                TakeTold::Other
            }
        }
        Taken::Leased(lease, location) => {
            if shows(alloc, lease, *location, key, payload) {
                TakeTold::Logged
            } else {
                TakeTold::Other
            }
        }
        Taken::NotHeld => TakeTold::Other,
    }
}

/// Takes an entry with this expected payload.
pub(super) fn take<L: AddLedger, R: Wait + Abort>(
    rt: &R,
    alloc: Global,
    bookie: &Bookie<L, MemDisk>,
    pass: &mut Pass<L>,
    entry: (u8, u16),
    payload: &[u8],
) -> TakeTold {
    let key = key(rt, entry.0, entry.1);
    match bookie.take(rt, pass, key) {
        Ok(taken) => taken_told(alloc, &taken, key, payload),
        Err(CallFault::Of(TakeFault::Memory)) => TakeTold::Memory,
        Err(_) => TakeTold::Other,
    }
}

/// Reads back a receipt with this expected payload.
pub(super) fn read_back<L: AddLedger, R: Wait>(
    rt: &R,
    alloc: Global,
    bookie: &Bookie<L, MemDisk>,
    pass: &mut Pass<L>,
    receipt: &Receipt,
    payload: &[u8],
) -> TakeTold {
    match bookie.read_back(rt, pass, receipt) {
        Ok(taken) => taken_told(alloc, &taken, receipt.key, payload),
        Err(ReadBackFault::Of(TakeFault::Memory)) => TakeTold::Memory,
        Err(ReadBackFault::Missing(front)) => TakeTold::Missing(front),
        Err(ReadBackFault::Differs(mark)) => TakeTold::Differs(mark),
        Err(_) => TakeTold::Other,
    }
}

/// Returns the number of entries of a deletion, or `None` if it is refused.
pub(super) fn delete<L: AddLedger, R: Wait>(
    rt: &R,
    bookie: &Bookie<L, MemDisk>,
    pass: &mut Pass<L>,
    ledger: u8,
) -> Option<u64> {
    match bookie.delete(rt, pass, u64::from(ledger)) {
        Ok(entries) => Some(entries),
        Err(_) => None,
    }
}

/// Returns the answer of a fence, or `None` if it is refused.
pub(super) fn fence<L: AddLedger, R: Wait>(
    rt: &R,
    bookie: &Bookie<L, MemDisk>,
    pass: &mut Pass<L>,
    ledger: u64,
) -> Option<Fence> {
    match bookie.fence(rt, pass, ledger) {
        Ok(answer) => Some(answer),
        Err(_) => None,
    }
}

/// Returns the number of marks and that of durable marks, or `None` if the call is refused.
pub(super) fn fronts<L: AddLedger, R: Wait>(
    rt: &R,
    bookie: &Bookie<L, MemDisk>,
    pass: &mut Pass<L>,
) -> Option<(u64, u64)> {
    match bookie.stats(rt, pass) {
        Ok(stats) => Some((stats.front, stats.durable)),
        Err(_) => None,
    }
}

/// Performs steps, whatever they answer.
pub(super) fn take_steps<L: AddLedger, R: Wait>(
    rt: &R,
    bookie: &Bookie<L, MemDisk>,
    works: &[Work],
) {
    for work in works {
        let _ = bookie.step(rt, *work);
    }
}

/// Returns a pass.
pub(super) fn pass<L: AddLedger, R: Wait + Abort>(rt: &R, bookie: &Bookie<L, MemDisk>) -> Pass<L> {
    match bookie.pass(rt) {
        Ok(pass) => pass,
        Err(_) => panic!(rt; "no pass"),
    }
}

/// Returns whether all passes have been created.
pub(super) fn has_no_pass<L: AddLedger, R: Wait>(rt: &R, bookie: &Bookie<L, MemDisk>) -> bool {
    matches!(bookie.pass(rt), Err(NoPass))
}

/// A bookie, and the passes to end it with.
#[derive(Drop)]
pub(super) struct Held<L: AddLedger> {
    pub bookie: Bookie<L, MemDisk>,
    pub passes: Vec<Pass<L>>,
}

impl<L: AddLedger> Held<L> {
    /// A bookie with one pass.
    pub fn new<R: Abort>(
        rt: &R,
        alloc: Global,
        bookie: Bookie<L, MemDisk>,
        pass: Pass<L>,
    ) -> Held<L> {
        let mut passes = Vec::new(alloc);
        passes.push(pass).expect(rt, "memory");
        Held { bookie, passes }
    }

    /// Adds a pass.
    pub fn with<R: Abort>(mut self, rt: &R, pass: Pass<L>) -> Held<L> {
        self.passes.push(pass).expect(rt, "memory");
        self
    }

    /// Ends the bookie, which is refused, and returns it.
    fn refusal<R: Abort>(self, rt: &R, receipts: &[Receipt]) -> (FinishFault, Held<L>) {
        match self.bookie.finish(self.passes, receipts) {
            Ok(_) => panic!(rt; "ended"),
            Err(
                FinishRefused {
                    fault,
                    bookie,
                    passes,
                },
            ) => (fault, Held { bookie, passes }),
        }
    }

    /// Ends the bookie, which is refused with this fault, and returns it.
    pub fn is_refused<R: Abort>(self, rt: &R, receipts: &[Receipt], fault: FinishFault) -> Held<L> {
        let (found, held) = self.refusal(rt, receipts);
        assert!(rt; found == fault);
        held
    }

    /// Ends the bookie.
    pub fn end<R: Abort>(self, rt: &R, receipts: &[Receipt]) -> Finished<MemDisk> {
        match self.bookie.finish(self.passes, receipts) {
            Ok(finished) => finished,
            Err(_) => panic!(rt; "not ended"),
        }
    }
}

/// Returns whether a bookie ended with this number of adds and of marks.
pub(super) fn has_ended_with(finished: &Finished<MemDisk>, adds: u64, marks: usize) -> bool {
    finished.adds == adds && finished.store.trail().len() == marks
}

/// Returns the disk of a store without leases.
pub(super) fn disk_of<R: Abort>(rt: &R, store: Store<MemDisk>) -> MemDisk {
    match store.into_disk() {
        Ok(disk) => disk,
        Err(_) => panic!(rt; "a lease is out"),
    }
}
