//! Threads that carry out the reads of a run.

ghost use Rattle.bk_serve_dispatch.specs.Jobs.{AreCarried, CarryEach, IsSent};

use crate::begun::Begun;
use crate::service::Job;
use std::alloc::Global;
use std::rt::Clock;
use std::snapshot::Snapshot;
use std::sync::Arc;
use std::sync::atomic::{AtomicBool, Ordering};
use std::thread::{self, Promise, PromisedHandle, Threads, for_each_chunk_mut};
use std::time::Instant;

/// Least number of reads with a lease for which it is measured whether they take long.
const LEAST: usize = 4;

/// Number of bytes of replies that a thread keeps at most before its last one.
const ROOM: usize = 131_072;

/// Number of nanoseconds that all reads of a run have to take for threads to be started.
const WORTH: u128 = 200_000;

/// The threads that carry out reads.
#[derive(Drop)]
pub struct Readers<H> {
    /// What starts them.
    pub handle: H,
    /// Number of threads that share the reads of a run. With one, or none, nothing is begun ahead,
    /// and no thread is started.
    pub most: usize,
}

/// Whether the reads of the last run took long.
#[derive(Clone, Copy, Drop)]
pub(crate) struct Pace {
    is_slow: bool,
}

impl Pace {
    /// Returns the pace before the first run.
    pub(crate) fn new() -> Pace {
        Pace { is_slow: false }
    }
}

/// The run that a thread carries out.
#[derive(Drop)]
pub(crate) struct RunOf<J: Job>(Snapshot<Vec<Begun<J>>>);

impl<J: Job> Promise<Vec<Begun<J>>> for RunOf<J> {
    ghost use Rattle.bk_serve_dispatch.specs.Jobs.{AreCarried};

    ghost kept_by = { λ p run. AreCarried J.gives p.0.value.items run.items };
}

/// A run that other threads carry out.
pub(crate) struct Away<J: Job> {
    /// The first of the threads, which gives the run back.
    first: PromisedHandle<Vec<Begun<J>>, RunOf<J>>,
    /// Set when they have ended.
    pub(crate) done: Arc<AtomicBool>,
    start: Option<Instant>,
}

impl<J: Job> Away<J> {
    /// Waits for the threads, and returns the run. Notes whether it took long.
    pub(crate) fn back<H: Threads + Clock>(self, handle: &H, pace: &mut Pace) -> Vec<Begun<J>>
        ensures { AreCarried J.gives self.first.promise.0.value.items result.items }
    {
        let Away {
            first,
            done: _,
            start,
        } = self;
        let run = first.join(handle);
        pace.is_slow = match start {
            Some(start) => is_worth(handle, start, 1),
            None => false,
        };
        run
    }
}

/// What became of a run.
pub(crate) enum Sent<J: Job> {
    /// It stays here.
    Here(Vec<Begun<J>>),
    /// Other threads carry it out.
    Away(Away<J>),
}

/// Returns whether so many times the time since the start make threads worth their start.
fn is_worth<H: Clock>(handle: &H, start: Instant, times: u128) -> bool {
    match start.elapsed(handle) {
        Ok(took) => took.as_nanos().saturating_mul(times) >= WORTH,
        Err(_) => false,
    }
}

/// Has a run carried out by other threads if its reads take long: those of the last run did, or
/// four or more may wait and the first two do.
pub(crate) fn send_out<H: Threads + Clock + Copy + Send + Sync + 'static, J: Job>(
    readers: &Readers<H>,
    pace: Pace,
    alloc: Global,
    mut run: Vec<Begun<J>>,
) -> Sent<J>
    ensures { IsSent J.gives run.items result }
{
    let least = if pace.is_slow { 1 } else { LEAST };
    if count_waiting(&run) < least {
        return Sent::Here(run);
    }
    if pace.is_slow || takes_long(&readers.handle, alloc, &mut run) {
        start(readers, alloc, run)
    } else {
        Sent::Here(run)
    }
}

/// Starts the threads that carry out a run. If there is no memory or no thread, carries it out.
fn start<H: Threads + Clock + Copy + Send + Sync + 'static, J: Job>(
    readers: &Readers<H>,
    alloc: Global,
    run: Vec<Begun<J>>,
) -> Sent<J>
    ensures { IsSent J.gives run.items result }
{
    let Readers { handle, most } = *readers;
    let Ok(done) = Arc::new(alloc, AtomicBool::new(false)) else {
        return Sent::Here(run);
    };
    let Ok(theirs) = done.clone() else {
        return Sent::Here(run);
    };
    let start = Instant::now(&handle).ok();
    let promise = RunOf(Snapshot::of(&run));
    let work = move || -> Vec<Begun<J>>
        ensures { AreCarried J.gives run.items result.items }
    {
        let mine = run;
        carry_out(&handle, most, alloc, &theirs, mine)
    };
    match thread::spawn_with(&handle, promise, work) {
        Ok(first) => Sent::Away(Away { first, done, start }),
        Err(refused) => Sent::Here((refused.value)()),
    }
}

/// Carries out reads of a run, each part in a thread of its own, and then sets `done`.
fn carry_out<H: Threads + Sync, J: Job>(
    handle: &H,
    most: usize,
    alloc: Global,
    done: &AtomicBool,
    mut run: Vec<Begun<J>>,
) -> Vec<Begun<J>>
    ensures { AreCarried J.gives run.items result.items }
{
    share(handle, most, alloc, &mut run);
    done.store(true, Ordering::SeqCst);
    run
}

/// Carries out reads of a run, each part in a thread of its own.
fn share<H: Threads + Sync, J: Job>(handle: &H, most: usize, alloc: Global, run: &mut [Begun<J>])
    ensures { CarryEach J.gives run.old run.new }
{
    let size = run.len().div_ceil(most.max(1)).max(1);
    for_each_chunk_mut(
        handle,
        run,
        size,
        &|_, part: &mut [Begun<J>]|
            ensures { CarryEach J.gives part.entry.now part.exit.now }
        { carry_part(alloc, part) },
    );
}

/// Returns the number of reads that may wait for a device.
fn count_waiting<J: Job>(run: &[Begun<J>]) -> usize {
    let mut count = 0usize;
    for one in run {
        if one.may_wait() {
            count = count.saturating_add(1);
        }
    }
    count
}

/// Carries out the first two reads of a run that may wait. Returns whether the time that they took
/// makes threads worth their start.
fn takes_long<H: Clock, J: Job>(handle: &H, alloc: Global, run: &mut [Begun<J>]) -> bool
    ensures { CarryEach J.gives run.old run.new }
{
    let Ok(start) = Instant::now(handle) else {
        return false;
    };
    let halves = count_waiting(run) as u128 / 2;
    carry_some(alloc, 2, run);
    is_worth(handle, start, halves)
}

/// Carries out the first reads of a run that may wait, at most this number.
fn carry_some<J: Job>(alloc: Global, most: usize, run: &mut [Begun<J>])
    ensures { CarryEach J.gives run.old run.new }
{
    let mut count = 0usize;
    for k in 0..run.len() {
        if count >= most {
            return;
        }
        if run[k].carry_out_waiting(alloc) {
            count = count.saturating_add(1);
        }
    }
}

/// Carries out reads, until their replies have as many bytes as a thread keeps.
fn carry_part<J: Job>(alloc: Global, part: &mut [Begun<J>])
    ensures { CarryEach J.gives part.old part.new }
{
    let mut kept = 0usize;
    for k in 0..part.len() {
        if kept >= ROOM {
            return;
        }
        part[k].carry_out(alloc);
        kept = kept.saturating_add(part[k].kept());
    }
}
