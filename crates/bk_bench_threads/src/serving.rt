//! The bookie that all parts call, over a disk in memory.

ghost use Rattle.std.specs.Prelude.{◌≡◌, ◌+◌, true};

use crate::CallersFault;
use crate::calls::call_all;
use crate::counted::count_calls;
use crate::reads::read_all;
use crate::words::{Asked, Part};
use bk_bookie::{AddLedger, Bookie};
use bk_disk::MemDisk;
use bk_drive::{Answer, PublishAnswer, Work, WriteAnswer};
use bk_store::{Settings, SwapAnswer};
use std::alloc::Global;
use std::io::{Eprint, Print};
use std::rt::Clock;
use std::sync::Wait;
use std::sync::ledger::Blank;
use std::thread::Threads;
use std::time::Instant;

/// Number of passes of the bookie: one per caller and work.
pub(crate) const PASSES: u32 = 99;

/// One cache and one log hold all entries.
pub(crate) const SETTINGS: Settings = Settings {
    log_limit: 1_073_741_824,
    cache_limit: 1_073_741_824,
    recent: 0,
    slots: 64,
    leases: 65_535,
    minor: 200,
    major: 1000,
};

/// Opens a bookie and runs the parts of the command line.
pub(crate) fn serve<L: AddLedger + Send + Sync, R: Threads + Wait + Sync + Print + Eprint + Clock>(
    rt: &R,
    alloc: Global,
    blank: Blank,
    asked: Asked,
) -> Result<(), CallersFault>
    requires name { blank.name ≡ L.name }
    requires parts { blank.parts ≡ L.parts }
    requires each { blank.parts ≡ PASSES + 1 }
    requires honest { L.honest ≡ true }
{
    let disk = MemDisk::new(alloc);
    let Ok(bookie) = Bookie::<L, MemDisk>::open(alloc, blank, PASSES, disk, SETTINGS, &[]) else {
        return Err(CallersFault::Answer("open"));
    };
    serve_parts(rt, alloc, &bookie, asked)
}

/// Runs the selected parts.
fn serve_parts<L: AddLedger + Send + Sync, R: Threads + Wait + Sync + Print + Eprint + Clock>(
    rt: &R,
    alloc: Global,
    bookie: &Bookie<L, MemDisk>,
    asked: Asked,
) -> Result<(), CallersFault> {
    match asked.part {
        Part::Counted => count_calls(rt, alloc, bookie, asked.count),
        Part::Calls => call_all(rt, alloc, bookie, asked),
        Part::Reads => read_all(rt, alloc, bookie, asked),
        Part::All => {
            count_calls(rt, alloc, bookie, asked.count)?;
            call_all(rt, alloc, bookie, asked)?;
            read_all(rt, alloc, bookie, asked)
        }
    }
}

/// Flushes the cache by steps of the bookie.
pub(crate) fn flush<L: AddLedger, R: Wait>(
    rt: &R,
    bookie: &Bookie<L, MemDisk>,
) -> Result<(), CallersFault> {
    for _ in 0..swapped(&bookie.step(rt, Work::Swap))? {
        wrote(&bookie.step(rt, Work::WriteOne))?;
    }
    published(&bookie.step(rt, Work::Publish))
}

/// Returns the number of entries of a swap. Fails with `Answer` if there is none.
pub(crate) fn swapped(answer: &Answer) -> Result<u64, CallersFault> {
    match answer {
        Answer::Swap(SwapAnswer::Swapped(entries)) => Ok(*entries),
        _ => Err(CallersFault::Answer("swap")),
    }
}

/// Fails with `Answer` if no entry was written.
pub(crate) fn wrote(answer: &Answer) -> Result<(), CallersFault> {
    match answer {
        Answer::Write(Ok(WriteAnswer::Wrote(_))) => Ok(()),
        _ => Err(CallersFault::Answer("write")),
    }
}

/// Fails with `Answer` if no flush was published.
pub(crate) fn published(answer: &Answer) -> Result<(), CallersFault> {
    match answer {
        Answer::Publish(Ok(PublishAnswer::Published(_))) => Ok(()),
        _ => Err(CallersFault::Answer("publish")),
    }
}

/// Prints the result of a work to standard output, where it is the same in each run, and its time
/// to standard error.
pub(crate) fn tell_time<R: Print + Eprint + Clock>(
    rt: &R,
    name: &str,
    counts: &[u64],
    start: Instant,
) -> Result<(), CallersFault> {
    let took = start.elapsed(rt)?;
    let mut count = 0u64;
    for one in counts {
        count = count.saturating_add(*one);
    }
    println!(rt; "{name} {count}")?;
    eprintln!(rt; "{name} nanoseconds {}", took.as_nanos())?;
    Ok(())
}
