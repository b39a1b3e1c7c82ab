//! A running load: a bookie over one ledger, with its callers, workers and keeper.

ghost use Rattle.std.specs.Prelude.{◌≡◌, ◌+◌, ◌<◌, IfOk, sum_by, vec_len};
ghost use Rattle.bk_bookie.specs.Receipts.{AllStand};

use crate::caller::{Caller, Shared};
use crate::done::Done;
use crate::keeper::Keeper;
use crate::{Load, LoadFault};
use bk_bookie::{AddLedger, Bookie, Finished, Gate, Pass, WorkReport};
use bk_disk::LogDisk;
use bk_drive::{Recorder, Work};
use bk_store::{Receipt, Settings, Store};
use crossbeam_channel::{Sender, bounded};
use std::alloc::{AllocError, Global};
use std::io::Write;
use std::rt::Clock;
use std::sync::Wait;
use std::sync::atomic::Ordering;
use std::sync::ledger::Blank;
use std::thread;
use std::thread::Threads;

/// Number of workers.
const WORKERS: u32 = 2;

/// Capacity of the channel of steps.
const WAITING: usize = 256;

/// A gate that never waits.
#[derive(Drop)]
struct OpenGate;

impl Gate for OpenGate {
    fn enter(&self, _worker: u32) {}

    fn leave(&self, _worker: u32) {}
}

/// A caller that has ended, and its fault if it ended early.
#[derive(Drop)]
struct Ended<L: AddLedger, K: Recorder + Drop> {
    caller: Caller<L, K>,
    ran: Result<(), LoadFault>,
}

/// Runs one caller.
fn run_caller<L: AddLedger, K: Recorder + Drop, D: LogDisk, R: Wait + Clock>(
    rt: &R,
    alloc: Global,
    bookie: &Bookie<L, D>,
    shared: &Shared,
    mut caller: Caller<L, K>,
) -> Ended<L, K> {
    let ran = caller.run(rt, alloc, bookie, shared);
    Ended { caller, ran }
}

/// Returns the callers of a load, each with a pass. The first one, which deletes, has the recorder.
fn callers<L: AddLedger, K: Recorder + Drop, D: LogDisk, R: Wait>(
    rt: &R,
    alloc: Global,
    bookie: &Bookie<L, D>,
    count: u32,
    recorder: K,
) -> Result<Vec<Caller<L, K>>, LoadFault> {
    let mut recorder = Some(recorder);
    let mut callers = Vec::new(alloc);
    for number in 0..count {
        let pass = bookie.pass(rt).map_err(|_| LoadFault::NoPass)?;
        let caller = Caller::new(alloc, pass, u64::from(number), recorder.take());
        callers.push(caller).map_err(|_| LoadFault::Memory)?;
    }
    Ok(callers)
}

/// Results of the callers and the keeper.
#[derive(Drop)]
struct Ran<L: AddLedger, K: Recorder + Drop> {
    ended: Vec<Ended<L, K>>,
    keeper: Keeper,
}

/// Runs all callers at once.
fn run_callers<
    L: AddLedger + Send + Sync,
    K: Recorder + Send + Drop,
    D: LogDisk,
    R: Threads + Wait + Clock + Sync,
>(
    rt: &R,
    alloc: Global,
    bookie: &Bookie<L, D>,
    shared: &Shared,
    waiting: Vec<Caller<L, K>>,
) -> Result<Vec<Ended<L, K>>, LoadFault> {
    let ended = thread::map_vec(
        rt,
        waiting,
        &|caller| run_caller(rt, alloc, bookie, shared, caller),
    );
    shared.is_over.store(true, Ordering::SeqCst);
    ended.map_err(|_| LoadFault::Memory)
}

/// Runs all callers and the keeper, then closes the channel of steps.
fn run_all<
    L: AddLedger + Send + Sync,
    K: Recorder + Send + Drop,
    D: LogDisk,
    R: Threads + Wait + Clock + Sync,
    W: Write + Send + Drop,
>(
    rt: &R,
    alloc: Global,
    bookie: &Bookie<L, D>,
    shared: &Shared,
    waiting: Vec<Caller<L, K>>,
    works: Sender<Work>,
    mut progress: Option<W>,
) -> Result<Ran<L, K>, LoadFault> {
    let mut keeper = Keeper::new();
    let (ended, keeper) = thread::join(
        rt,
        || run_callers(rt, alloc, bookie, shared, waiting),
        move || {
            keeper.run(rt, bookie, &works, shared, &mut progress);
            keeper
        },
    );
    Ok(Ran {
        ended: ended?,
        keeper,
    })
}

/// Runs the workers meanwhile.
fn run_with_workers<
    L: AddLedger + Send + Sync,
    K: Recorder + Send + Drop,
    D: LogDisk,
    R: Threads + Wait + Clock + Sync,
    W: Write + Send + Drop,
>(
    rt: &R,
    alloc: Global,
    bookie: &Bookie<L, D>,
    shared: &Shared,
    recorder: K,
    progress: Option<W>,
) -> Result<(WorkReport, Ran<L, K>), LoadFault> {
    let waiting = callers(rt, alloc, bookie, shared.load.callers, recorder)?;
    let (sender, works) = bounded(alloc, WAITING).map_err(|_| LoadFault::Memory)?;
    let (report, ran) = thread::join(
        rt,
        move || {
            let works = works;
            bookie.workers(rt, alloc, WORKERS, &works, &OpenGate)
        },
        || run_all(rt, alloc, bookie, shared, waiting, sender, progress),
    );
    let report = report.map_err(LoadFault::Workers)?;
    Ok((report, ran?))
}

/// The results of all callers, and their passes. There is a receipt for each add that the passes
/// count.
#[derive(Drop)]
struct Sums<L: AddLedger> {
    passes: Vec<Pass<L>>,
    done: Done,
    ghost counted: { vec_len done.receipts ≡ sum_by (λ p. p.adds) passes.items },
}

impl<L: AddLedger> Sums<L> {
    /// Returns the results of no caller.
    fn new(alloc: Global) -> Sums<L> {
        Sums {
            passes: Vec::new(alloc),
            done: Done::new(alloc),
        }
    }

    /// Adds a caller. Fails only if out of memory.
    fn take_in<K: Recorder + Drop>(&mut self, caller: Caller<L, K>) -> Result<(), AllocError> {
        let Caller {
            pass,
            number: _,
            recorder: _,
            done,
        } = caller;
        self.passes.reserve(1)?;
        self.done.take_in(&done)?;
        self.passes.push_reserved(pass);
        Ok(())
    }

    /// Adds all callers. Returns the fault of the first that ended early.
    fn take_in_all<K: Recorder + Drop>(
        &mut self,
        ended: Vec<Ended<L, K>>,
    ) -> Result<(), LoadFault> {
        for one in ended {
            let Ended { caller, ran } = one;
            ran?;
            self.take_in(caller).map_err(|_| LoadFault::Memory)?;
        }
        Ok(())
    }
}

/// Ends a bookie. Returns its store and the sum of the counts of the passes.
fn end<L: AddLedger, D: LogDisk>(
    bookie: Bookie<L, D>,
    passes: Vec<Pass<L>>,
    receipts: &[Receipt],
) -> Result<Finished<D>, LoadFault>
    ensures sum { IfOk result (λ f. f.adds ≡ sum_by (λ p. p.adds) passes.items) }
    ensures stand { IfOk result (λ f. AllStand f.store.ledgers.trail receipts.now) }
{
    match bookie.finish(passes, receipts) {
        Ok(finished) => Ok(finished),
        Err(refused) => Err(LoadFault::Finish(refused.fault)),
    }
}

/// What a load leaves: the store, the number of accepted adds, and the results.
#[derive(Drop)]
pub(crate) struct Served<D: LogDisk> {
    pub store: Store<D>,
    pub adds: u64,
    pub done: Done,
    pub works: WorkReport,
    pub keeper: Keeper,
    pub milliseconds: u64,
}

/// Opens a bookie over this ledger and runs a load on it, from the ledger `first` on.
pub(crate) fn serve<
    L: AddLedger + Send + Sync,
    K: Recorder + Send + Drop,
    D: LogDisk,
    R: Threads + Wait + Clock + Sync,
    W: Write + Send + Drop,
>(
    rt: &R,
    alloc: Global,
    blank: Blank,
    disk: D,
    settings: Settings,
    load: Load,
    first: u64,
    recorder: K,
    progress: Option<W>,
) -> Result<Served<D>, LoadFault>
    requires name { blank.name ≡ L.name }
    requires parts { blank.parts ≡ L.parts }
    requires each { blank.parts ≡ load.callers + 1 }
    requires honest { D.honest disk ≡ L.honest }
    ensures stand { IfOk result (λ s. AllStand s.store.ledgers.trail s.done.receipts.items) }
    ensures counted { IfOk result (λ s. s.adds ≡ vec_len s.done.receipts) }
{
    let bookie = match Bookie::<L, D>::open(alloc, blank, load.callers, disk, settings, &[]) {
        Ok(bookie) => bookie,
        Err(refused) => return Err(LoadFault::Open(refused.fault)),
    };
    let shared = Shared::new(rt, load, first)?;
    let (works, ran) = run_with_workers(rt, alloc, &bookie, &shared, recorder, progress)?;
    let milliseconds = shared.milliseconds(rt)?;
    let Ran { ended, mut keeper } = ran;
    keeper.flush_all(rt, &bookie);
    keeper.settle(rt, &bookie);
    let mut sums = Sums::new(alloc);
    sums.take_in_all(ended)?;
    let Sums { passes, done } = sums;
    let Finished { store, adds } = end(bookie, passes, &done.receipts)?;
    Ok(Served {
        store,
        adds,
        done,
        works,
        keeper,
        milliseconds,
    })
}
