//! Two concurrent workers.

ghost use Rattle.std.specs.Prelude.{◌≡◌, true};

use super::calls::{accepted, add, pass, take_steps};
use super::{SETTINGS, open, payload};
use bk_bookie::{AddLedger, Bookie, Gate};
use bk_disk::MemDisk;
use bk_drive::{Answer, PublishAnswer, SwapAnswer, Work};
use bk_store::Settings;
use crossbeam_channel::{Receiver, bounded};
use std::alloc::Global;
use std::marker::Brand;
use std::process::Abort;
use std::sync::Wait;
use std::sync::atomic::{AtomicBool, AtomicU32, Ordering};
use std::sync::ledger::Blank;
use std::thread;
use std::thread::Threads;

/// A gate at which the first worker waits until another has left.
#[derive(Drop)]
struct Turnstile {
    entered: AtomicU32,
    left: AtomicU32,
    has_waited_in_vain: AtomicBool,
}

impl Gate for Turnstile {
    fn enter(&self, _worker: u32) {
        if self.entered.fetch_add(1, Ordering::SeqCst) > 0 {
            return;
        }
        for _ in 0..100_000_000_u32 {
            if self.left.load(Ordering::SeqCst) > 0 {
                return;
            }
            thread::yield_now();
        }
        self.has_waited_in_vain.store(true, Ordering::SeqCst);
    }

    fn leave(&self, _worker: u32) {
        self.left.fetch_add(1, Ordering::SeqCst);
    }
}

/// Returns a closed channel with N swaps.
fn swaps<R: Wait + Abort>(rt: &R, alloc: Global, count: usize) -> Receiver<Work> {
    let (sender, works) = bounded(alloc, count).expect(rt, "memory");
    for _ in 0..count {
        assert!(rt; sender.send(rt, Work::Swap).is_ok());
    }
    works
}

/// Returns the number of steps that N workers performed, or none if one of them failed.
fn work<L: AddLedger + Send + Sync, R: Threads + Wait + Sync, G: Gate>(
    rt: &R,
    alloc: Global,
    bookie: &Bookie<L, MemDisk>,
    count: u32,
    works: &Receiver<Work>,
    gate: &G,
) -> Option<u64> {
    match bookie.workers(rt, alloc, count, works, gate) {
        Ok(report) if report.faults == 0 => Some(report.answered),
        _ => None,
    }
}

/// Returns a closed channel with these steps.
fn sent<R: Wait + Abort>(rt: &R, alloc: Global, steps: &[Work]) -> Receiver<Work> {
    let (sender, works) = bounded(alloc, steps.len()).expect(rt, "memory");
    for step in steps {
        assert!(rt; sender.send(rt, *step).is_ok());
    }
    works
}

/// Opens a bookie with one entry in its active cache.
fn open_with_entry<L: AddLedger, R: Wait + Abort>(
    rt: &R,
    alloc: Global,
    blank: Blank,
) -> Bookie<L, MemDisk>
    requires name { blank.name ≡ L.name }
    requires parts { blank.parts ≡ L.parts }
    requires each { blank.parts ≡ 2 }
    requires honest { L.honest ≡ true }
{
    let bookie = open::<L, R>(rt, alloc, blank, 1, SETTINGS, &[9]);
    let mut pass = pass(rt, &bookie);
    let _receipt = accepted(rt, add(rt, &bookie, &mut pass, &payload(1, 0, b'a')));
    bookie
}

/// Returns whether a flush is running, by a swap.
fn has_flush<L: AddLedger, R: Wait>(rt: &R, bookie: &Bookie<L, MemDisk>) -> bool {
    matches!(
        bookie.step(rt, Work::Swap),
        Answer::Swap(SwapAnswer::Running)
    )
}

/// Returns whether no flush is running, by a publish.
fn has_no_flush<L: AddLedger, R: Wait>(rt: &R, bookie: &Bookie<L, MemDisk>) -> bool {
    matches!(
        bookie.step(rt, Work::Publish),
        Answer::Publish(Ok(PublishAnswer::NoFlush))
    )
}

/// Returns whether an entry is written.
fn writes<L: AddLedger, R: Wait>(rt: &R, bookie: &Bookie<L, MemDisk>) -> bool {
    matches!(bookie.step(rt, Work::WriteOne), Answer::Write(Ok(_)))
}

/// Two workers perform two swaps on a bookie of one entry and meet at the gate.
fn work_by_two<L: AddLedger + Send + Sync, R: Threads + Wait + Abort + Sync>(
    rt: &R,
    alloc: Global,
    bookie: &Bookie<L, MemDisk>,
) {
    let gate = Turnstile {
        entered: AtomicU32::new(0),
        left: AtomicU32::new(0),
        has_waited_in_vain: AtomicBool::new(false),
    };
    let works = swaps(rt, alloc, 2);
    assert!(rt; matches!(work(rt, alloc, bookie, 2, &works, &gate), Some(2)));
    assert!(rt; !gate.has_waited_in_vain.load(Ordering::SeqCst));
    assert!(rt; gate.left.load(Ordering::SeqCst) == 2);
}

/// Two workers perform two swaps of one entry: one swaps, and the other finds the flush running.
fn run<L: AddLedger + Send + Sync, R: Threads + Wait + Abort + Sync>(
    rt: &R,
    alloc: Global,
    blank: Blank,
)
    requires name { blank.name ≡ L.name }
    requires parts { blank.parts ≡ L.parts }
    requires each { blank.parts ≡ 2 }
    requires honest { L.honest ≡ true }
{
    let bookie = open_with_entry::<L, R>(rt, alloc, blank);
    work_by_two(rt, alloc, &bookie);
    assert!(rt; has_flush(rt, &bookie) && writes(rt, &bookie));
}

/// A gate that is always open.
#[derive(Drop)]
struct Open;

impl Gate for Open {
    fn enter(&self, _worker: u32) {}

    fn leave(&self, _worker: u32) {}
}

/// Settings of a store with one slot.
const ONE_SLOT: Settings = Settings {
    slots: 1,
    ..SETTINGS
};

/// Opens a bookie whose only slot has a sealed log, with one entry in its active cache.
fn open_full<L: AddLedger, R: Wait + Abort>(
    rt: &R,
    alloc: Global,
    blank: Blank,
) -> Bookie<L, MemDisk>
    requires name { blank.name ≡ L.name }
    requires parts { blank.parts ≡ L.parts }
    requires each { blank.parts ≡ 2 }
    requires honest { L.honest ≡ true }
{
    let bookie = open::<L, R>(rt, alloc, blank, 1, ONE_SLOT, &[]);
    let mut pass = pass(rt, &bookie);
    let _first = accepted(rt, add(rt, &bookie, &mut pass, &payload(1, 0, b'a')));
    let steps = [Work::Swap, Work::WriteOne, Work::Publish, Work::Roll];
    take_steps(rt, &bookie, &steps);
    let _second = accepted(rt, add(rt, &bookie, &mut pass, &payload(1, 1, b'b')));
    bookie
}

/// A worker performs a swap and two writes for which there is no slot.
fn run_refused<L: AddLedger + Send + Sync, R: Threads + Wait + Abort + Sync>(
    rt: &R,
    alloc: Global,
    blank: Blank,
)
    requires name { blank.name ≡ L.name }
    requires parts { blank.parts ≡ L.parts }
    requires each { blank.parts ≡ 2 }
    requires honest { L.honest ≡ true }
{
    let bookie = open_full::<L, R>(rt, alloc, blank);
    let works = sent(rt, alloc, &[Work::Swap, Work::WriteOne, Work::WriteOne]);
    match bookie.workers(rt, alloc, 1, &works, &Open) {
        Ok(report) => assert!(rt; report.answered == 3 && report.faults == 2),
        Err(_) => panic!(rt; "no worker"),
    }
}

#[test]
fn refused_steps_are_counted(rt: HostRuntime) {
    run_refused::<Brand, HostRuntime>(&rt, rt.alloc(), Blank::new(2));
}

/// A gate that looks at the bookie around a swap: no flush runs when the worker enters, and one
/// runs when it leaves.
#[derive(Drop)]
struct Witness<'a, L: AddLedger, R: Wait> {
    rt: &'a R,
    bookie: &'a Bookie<L, MemDisk>,
    before: AtomicU32,
    after: AtomicU32,
}

impl<L: AddLedger + Send + Sync, R: Wait + Sync> Gate for Witness<'_, L, R> {
    fn enter(&self, _worker: u32) {
        if has_no_flush(self.rt, self.bookie) {
            self.before.fetch_add(1, Ordering::SeqCst);
        }
    }

    fn leave(&self, _worker: u32) {
        if has_flush(self.rt, self.bookie) {
            self.after.fetch_add(1, Ordering::SeqCst);
        }
    }
}

/// One worker performs a swap between entering and leaving, and holds no lock at either.
fn work_watched<L: AddLedger + Send + Sync, R: Threads + Wait + Abort + Sync>(
    rt: &R,
    alloc: Global,
    bookie: &Bookie<L, MemDisk>,
) {
    let gate = Witness {
        rt,
        bookie,
        before: AtomicU32::new(0),
        after: AtomicU32::new(0),
    };
    let works = swaps(rt, alloc, 1);
    assert!(rt; matches!(work(rt, alloc, bookie, 1, &works, &gate), Some(1)));
    assert!(rt; gate.before.load(Ordering::SeqCst) == 1);
    assert!(rt; gate.after.load(Ordering::SeqCst) == 1);
}

/// Opens a bookie of one entry and watches a swap.
fn run_watched<L: AddLedger + Send + Sync, R: Threads + Wait + Abort + Sync>(
    rt: &R,
    alloc: Global,
    blank: Blank,
)
    requires name { blank.name ≡ L.name }
    requires parts { blank.parts ≡ L.parts }
    requires each { blank.parts ≡ 2 }
    requires honest { L.honest ≡ true }
{
    let bookie = open_with_entry::<L, R>(rt, alloc, blank);
    work_watched(rt, alloc, &bookie);
}

#[test]
fn a_work_is_done_between_the_gates(rt: HostRuntime) {
    run_watched::<Brand, HostRuntime>(&rt, rt.alloc(), Blank::new(2));
}

#[test]
fn two_workers_are_at_the_gate_at_once(rt: HostRuntime) {
    run::<Brand, HostRuntime>(&rt, rt.alloc(), Blank::new(2));
}
