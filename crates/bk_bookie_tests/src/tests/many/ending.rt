//! The check after many callers: receipts, counts and files.

use super::super::calls::{Held, TakeTold, View, disk_of, read_back, take_steps};
use super::super::payload;
use super::{Caller, DELETED, ENTRIES, LAST, Part, SETTINGS};
use bk_bookie::{AddLedger, Bookie, Finished, Pass};
use bk_disk::{LogDisk, LogView, MemDisk};
use bk_drive::{Answer, BeginAnswer, Kind, PublishAnswer, Work, WriteAnswer};
use bk_log::Scanner;
use bk_record::{HEADER_LENGTH, Key};
use bk_store::{Mark, Receipt, Store, Taken};
use std::alloc::Global;
use std::process::Abort;
use std::sync::Wait;

/// Number of entries of live ledgers.
const LIVING: usize = 3 * ENTRIES as usize;

/// The steps that complete a running compaction.
static JOB: [Work; 5] = [
    Work::Copy(100_000),
    Work::Copy(1),
    Work::EndCopy,
    Work::Switch(100_000),
    Work::Finish,
];

/// Returns whether an entry was written.
fn writes<L: AddLedger, R: Wait>(rt: &R, bookie: &Bookie<L, MemDisk>) -> bool {
    matches!(
        bookie.step(rt, Work::WriteOne),
        Answer::Write(Ok(WriteAnswer::Wrote(_)))
    )
}

/// Writes all entries of a flush.
fn write_all<L: AddLedger, R: Wait>(rt: &R, bookie: &Bookie<L, MemDisk>) {
    for _ in 0..100_000 {
        if !writes(rt, bookie) {
            return;
        }
    }
}

/// Returns whether no flush is running.
fn has_no_flush<L: AddLedger, R: Wait>(rt: &R, bookie: &Bookie<L, MemDisk>) -> bool {
    matches!(
        bookie.step(rt, Work::Publish),
        Answer::Publish(Ok(PublishAnswer::NoFlush))
    )
}

/// Completes a running flush and the next one.
fn flush<L: AddLedger, R: Wait + Abort>(rt: &R, bookie: &Bookie<L, MemDisk>) {
    for _ in 0..2 {
        write_all(rt, bookie);
        take_steps(rt, bookie, &[Work::Publish, Work::Swap]);
    }
    assert!(rt; has_no_flush(rt, bookie));
    take_steps(rt, bookie, &[Work::Roll]);
}

/// Returns whether a compaction began, or `None` on a fault.
fn begins<L: AddLedger, R: Wait>(rt: &R, bookie: &Bookie<L, MemDisk>) -> Option<bool> {
    match bookie.step(rt, Work::Begin(Kind::Major)) {
        Answer::Begin(Ok(BeginAnswer::NothingToDo)) => Some(false),
        Answer::Begin(Ok(BeginAnswer::Chosen(_))) => Some(true),
        _ => None,
    }
}

/// Compacts until nothing is left to do, at most a thousand times.
fn compact<L: AddLedger, R: Wait + Abort>(rt: &R, bookie: &Bookie<L, MemDisk>) {
    for _ in 0..1000 {
        if !begins(rt, bookie).expect(rt, "a compaction, or none") {
            return;
        }
        take_steps(rt, bookie, &JOB);
    }
}

/// Removes all logs that no index entry references.
fn remove_all<L: AddLedger, R: Wait>(rt: &R, bookie: &Bookie<L, MemDisk>) {
    for log in 0..1000 {
        take_steps(
            rt,
            bookie,
            &[Work::Retire(log), Work::Close(log), Work::Remove(log)],
        );
    }
}

/// Returns whether a receipt has its caller's ledger and is read back with the caller's byte, if
/// its ledger is live.
fn is_read<L: AddLedger, R: Wait>(
    rt: &R,
    alloc: Global,
    bookie: &Bookie<L, MemDisk>,
    pass: &mut Pass<L>,
    receipt: &Receipt,
    part: Part,
) -> bool {
    let Ok(entry) = u16::try_from(receipt.key.entry()) else {
        return false;
    };
    if receipt.key.ledger() != u64::from(part.ledger) {
        return false;
    }
    let payload = payload(part.ledger, entry, part.own);
    match read_back(rt, alloc, bookie, pass, receipt, &payload) {
        TakeTold::Deleted => part.ledger == DELETED,
        TakeTold::Cached | TakeTold::Logged => part.ledger != DELETED,
        _ => false,
    }
}

/// Returns whether each receipt of a caller is read back and its pass counts as many.
fn are_read<L: AddLedger, R: Wait>(
    rt: &R,
    alloc: Global,
    bookie: &Bookie<L, MemDisk>,
    caller: &mut Caller<L>,
) -> bool {
    let part = caller.part;
    for receipt in caller.receipts.as_slice() {
        if !is_read(rt, alloc, bookie, &mut caller.pass, receipt, part) {
            return false;
        }
    }
    caller.pass.adds() == caller.receipts.len() as u64
}

/// Reads back the receipts of all callers and returns them.
fn read_all<L: AddLedger, R: Wait + Abort>(
    rt: &R,
    alloc: Global,
    bookie: &Bookie<L, MemDisk>,
    callers: &mut [Caller<L>],
) -> Vec<Receipt> {
    let mut receipts = Vec::new(alloc);
    for caller in callers {
        assert!(rt; are_read(rt, alloc, bookie, caller));
        receipts
            .extend_from_slice(&caller.receipts)
            .expect(rt, "memory");
    }
    assert!(rt; are_all(&receipts));
    receipts
}

/// Returns whether the ledger of a key is live.
fn lives(key: Key) -> bool {
    key.ledger() != u64::from(DELETED)
}

/// Returns the number of receipts of live ledgers.
fn count_living(receipts: &[Receipt]) -> usize {
    let mut living = 0_usize;
    for receipt in receipts {
        if lives(receipt.key) {
            living = living.saturating_add(1);
        }
    }
    living
}

/// Returns whether the receipts are of all live entries and of those added before the deletion.
fn are_all(receipts: &[Receipt]) -> bool {
    count_living(receipts) == LIVING
        && receipts.len() > LIVING + LAST as usize
        && receipts.len() <= LIVING + ENTRIES as usize
}

/// Returns the number of entries in a log, all of live ledgers.
fn scan<R: Abort>(rt: &R, alloc: Global, view: &View) -> usize {
    let mut found = 0_usize;
    let mut scanner = Scanner::new(view, alloc, HEADER_LENGTH as u64, view.end());
    for _ in 0..100_000 {
        let Some(entry) = scanner.next().expect(rt, "an entry") else {
            break;
        };
        assert!(rt; lives(entry.key));
        found = found.saturating_add(1);
    }
    found
}

/// Returns the view of a log.
fn view_of<D: LogDisk, R: Abort>(rt: &R, alloc: Global, disk: &mut D, log: u32) -> D::View {
    match disk.view(alloc, log) {
        Ok(view) => view,
        Err(_) => panic!(rt; "no view"),
    }
}

/// Returns the logs of a disk.
fn logs_of<D: LogDisk, R: Abort>(rt: &R, alloc: Global, disk: &mut D) -> Vec<u32> {
    match disk.list(alloc) {
        Ok(logs) => logs,
        Err(_) => panic!(rt; "no list"),
    }
}

/// Returns the number of entries in all logs, all of live ledgers.
fn scan_all<R: Abort>(rt: &R, alloc: Global, disk: &mut MemDisk) -> usize {
    let mut found = 0_usize;
    for log in logs_of(rt, alloc, disk) {
        let view = view_of(rt, alloc, disk, log);
        found = found.saturating_add(scan(rt, alloc, &view));
    }
    found
}

/// Returns whether a take gives a lease on a live entry, or reports the ledger of another one
/// deleted.
fn is_found(store: &mut Store<MemDisk>, key: Key) -> bool {
    match store.take(key) {
        Ok(Taken::Deleted) => !lives(key),
        Ok(Taken::Leased(_, _)) => lives(key),
        _ => false,
    }
}

/// Returns whether the store has the entry of each receipt of a live ledger, and no other.
fn are_found(store: &mut Store<MemDisk>, receipts: &[Receipt]) -> bool {
    for receipt in receipts {
        if !is_found(store, receipt.key) {
            return false;
        }
    }
    true
}

/// Returns whether the trail has a mark for each receipt, and one of the deletion.
fn has_marks(trail: &[Mark], receipts: usize) -> bool {
    let mut adds = 0_usize;
    let mut deletes = 0_usize;
    for mark in trail {
        match mark {
            Mark::Add { .. } => adds = adds.saturating_add(1),
            Mark::Delete { ledger } => {
                if *ledger != u64::from(DELETED) {
                    return false;
                }
                deletes = deletes.saturating_add(1);
            }
            Mark::Fence { .. } => return false,
        }
    }
    adds == receipts && deletes == 1
}

/// Returns the passes of the callers.
fn passes_of<L: AddLedger, R: Abort>(
    rt: &R,
    alloc: Global,
    callers: Vec<Caller<L>>,
) -> Vec<Pass<L>> {
    let mut passes = Vec::new(alloc);
    for caller in callers {
        passes.push(caller.pass).expect(rt, "memory");
    }
    passes
}

/// Opens a store on the logs of a disk.
fn open_again<R: Abort>(rt: &R, alloc: Global, disk: MemDisk) -> Store<MemDisk> {
    match Store::open(alloc, disk, SETTINGS, &[u64::from(DELETED)]) {
        Ok(store) => store,
        Err(_) => panic!(rt; "not opened again"),
    }
}

/// Returns whether the bookie counted the receipts, and its trail and index have them.
fn is_left(finished: &Finished<MemDisk>, receipts: &[Receipt]) -> bool {
    finished.adds == receipts.len() as u64
        && has_marks(finished.store.trail(), receipts.len())
        && finished.store.index().len() == LIVING
}

/// Checks the files of a store and opens a store on them.
fn look_at_files<R: Abort>(rt: &R, alloc: Global, store: Store<MemDisk>, receipts: &[Receipt]) {
    let mut disk = disk_of(rt, store);
    assert!(rt; scan_all(rt, alloc, &mut disk) == LIVING);
    let mut again = open_again(rt, alloc, disk);
    assert!(rt; again.index().len() == LIVING);
    assert!(rt; are_found(&mut again, receipts));
}

/// Completes flushes and compactions and removes logs.
fn settle<L: AddLedger, R: Wait + Abort>(rt: &R, bookie: &Bookie<L, MemDisk>) {
    take_steps(rt, bookie, &JOB);
    flush(rt, bookie);
    compact(rt, bookie);
    remove_all(rt, bookie);
}

/// Ends the bookie and checks what it left.
fn look_at_end<L: AddLedger, R: Abort>(rt: &R, alloc: Global, held: Held<L>, receipts: &[Receipt]) {
    let finished = held.end(rt, receipts);
    assert!(rt; is_left(&finished, receipts));
    look_at_files(rt, alloc, finished.store, receipts);
}

/// Completes all work, ends the bookie and checks what it left.
pub(super) fn end<L: AddLedger, R: Wait + Abort>(
    rt: &R,
    alloc: Global,
    bookie: Bookie<L, MemDisk>,
    mut callers: Vec<Caller<L>>,
) {
    settle(rt, &bookie);
    let receipts = read_all(rt, alloc, &bookie, callers.as_mut_slice());
    let passes = passes_of(rt, alloc, callers);
    look_at_end(rt, alloc, Held { bookie, passes }, &receipts);
}
