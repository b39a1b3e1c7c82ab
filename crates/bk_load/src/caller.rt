//! A caller of a load. It adds an entry in each round, takes an earlier one in every fourth, and
//! deletes a ledger from time to time.

ghost use Rattle.std.specs.Prelude.{◌≡◌, ◌↔◌, IsTrue, false, vec_len};
ghost use Rattle.bk_store.specs.declared.answer.Taken.TheVariants.{NotHeld};
ghost use Rattle.sha2.specs.Sha256.{sha256};
ghost use Rattle.bk_load.specs.Answers.{AnswersReceipt};

use crate::done::Done;
use crate::entries::{LONGEST, ROUNDS, doomed_ledger, is_doomed, ledger_of, mixed, payload};
use crate::{Load, LoadFault, Until};
use bk_bookie::{AddLedger, Bookie, CallFault, Pass};
use bk_disk::{LogDisk, LogView};
use bk_drive::{Recorder, Step};
use bk_log::fetch;
use bk_store::{AddFault, Added, Receipt, Taken};
use sha2::{Digest, Sha256};
use std::alloc::Global;
use std::rt::Clock;
use std::sync::Wait;
use std::sync::atomic::{AtomicBool, AtomicU64, Ordering};
use std::thread;
use std::time::Instant;

/// State that the callers share.
#[derive(Drop)]
pub(crate) struct Shared {
    pub start: Instant,
    pub load: Load,
    /// The first ledger of the load.
    pub first: u64,
    /// Number of adds accepted so far.
    pub adds: AtomicU64,
    /// Whether all callers have ended.
    pub is_over: AtomicBool,
}

/// A caller and what it has done. It has a receipt for each add that its pass counts.
#[derive(Drop)]
pub(crate) struct Caller<L: AddLedger, K: Recorder + Drop> {
    pub pass: Pass<L>,
    pub number: u64,
    /// Where the caller that deletes records it.
    pub recorder: Option<K>,
    pub done: Done,
    ghost counted: { vec_len done.receipts ≡ pass.adds },
}

/// Result of one add.
enum Answered {
    Accepted,
    Held,
    /// The ledger is deleted.
    Refused,
    Full,
}

/// Number of seconds that a caller waits for room in the cache.
const PATIENCE: u64 = 60;

/// Returns the current time.
fn now<R: Clock>(rt: &R) -> Result<Instant, LoadFault> {
    Instant::now(rt).map_err(|_| LoadFault::Clock)
}

/// Returns the number of seconds since `start`.
fn seconds_since<R: Clock>(rt: &R, start: Instant) -> Result<u64, LoadFault> {
    match start.elapsed(rt) {
        Ok(elapsed) => Ok(elapsed.as_secs()),
        Err(_) => Err(LoadFault::Clock),
    }
}

/// Returns the number of nanoseconds since `start`, at most 2^32 - 1, also if the clock fails.
fn nanoseconds_since<R: Clock>(rt: &R, start: Instant) -> u32 {
    match start.elapsed(rt) {
        Ok(elapsed) => u32::try_from(elapsed.as_nanos()).unwrap_or(u32::MAX),
        Err(_) => u32::MAX,
    }
}

/// Returns whether a payload has the digest of a receipt.
fn is_of(payload: &[u8], receipt: &Receipt) -> bool
    ensures { IsTrue result ↔ (receipt.now.digest ≡ sha256 payload.now) }
{
    Sha256::digest(payload) == receipt.digest
}

/// Returns whether the result of a take has the digest of the receipt, or is of a ledger that the
/// load deletes.
pub(crate) fn is_right<V: LogView>(
    alloc: Global,
    first: u64,
    taken: &Taken<V>,
    receipt: &Receipt,
) -> bool
    ensures right { IsTrue result → AnswersReceipt V.bytes V.honest first receipt.now taken.now }
    ensures held { taken.now ≡ NotHeld → result ≡ false }
{
    match taken {
        Taken::Deleted => is_doomed(first, receipt.key.ledger()),
        Taken::NotHeld => false,
        Taken::Cached(payload) => is_of(payload, receipt),
        Taken::Leased(lease, location) => {
            match fetch(lease.view(), alloc, *location, receipt.key) {
                Ok(payload) => is_of(&payload, receipt),
                Err(_) => false,
            }
        }
    }
}

impl Shared {
    /// Returns the shared state of a load that starts now.
    pub fn new<R: Clock>(rt: &R, load: Load, first: u64) -> Result<Shared, LoadFault> {
        Ok(Shared {
            start: now(rt)?,
            load,
            first,
            adds: AtomicU64::new(0),
            is_over: AtomicBool::new(false),
        })
    }

    /// Returns the number of milliseconds since the start.
    pub fn milliseconds<R: Clock>(&self, rt: &R) -> Result<u64, LoadFault> {
        match self.start.elapsed(rt) {
            Ok(elapsed) => Ok(u64::try_from(elapsed.as_millis()).unwrap_or(u64::MAX)),
            Err(_) => Err(LoadFault::Clock),
        }
    }

    /// Returns whether the caller with this number ends after these rounds.
    fn is_over_for<R: Clock>(&self, rt: &R, number: u64, rounds: u64) -> Result<bool, LoadFault> {
        match self.load.until {
            Until::Adds(adds) => Ok(rounds >= share_of(adds, self.load.callers, number)),
            Until::Seconds(seconds) => Ok(seconds_since(rt, self.start)? >= seconds),
        }
    }
}

/// Returns the number of adds of the caller with this number. The first callers make one more if
/// the adds cannot be shared evenly.
fn share_of(adds: u64, callers: u32, number: u64) -> u64 {
    let callers = u64::from(callers.max(1));
    let more = u64::from(number < adds % callers);
    (adds / callers).saturating_add(more)
}

impl<L: AddLedger, K: Recorder + Drop> Caller<L, K> {
    /// Returns a caller with a pass that counts no add.
    pub fn new(alloc: Global, pass: Pass<L>, number: u64, recorder: Option<K>) -> Caller<L, K>
        requires { pass.adds ≡ 0 }
    {
        Caller {
            pass,
            number,
            recorder,
            done: Done::new(alloc),
        }
    }

    /// Performs all rounds.
    pub fn run<R: Wait + Clock, D: LogDisk>(
        &mut self,
        rt: &R,
        alloc: Global,
        bookie: &Bookie<L, D>,
        shared: &Shared,
    ) -> Result<(), LoadFault> {
        for round in 0..u64::MAX {
            if shared.is_over_for(rt, self.number, round)? {
                break;
            }
            self.add(rt, bookie, shared, round)?;
            if round % 4 == 3 {
                self.take(rt, alloc, bookie, shared.first, round);
            }
            if self.number == 0 && round % ROUNDS == ROUNDS - 1 {
                self.delete(rt, bookie, doomed_ledger(shared.first, round))?;
            }
        }
        Ok(())
    }

    /// Adds the entry of this round. If the cache is full, tries again until a flush has made room,
    /// or fails with `Stuck` after `PATIENCE` seconds.
    fn add<R: Wait + Clock, D: LogDisk>(
        &mut self,
        rt: &R,
        bookie: &Bookie<L, D>,
        shared: &Shared,
        round: u64,
    ) -> Result<(), LoadFault> {
        let entry = round
            .saturating_mul(u64::from(shared.load.callers))
            .saturating_add(self.number);
        let mut frame = [0; LONGEST];
        let ledger = ledger_of(shared.first, round, entry);
        let payload = payload(&mut frame, ledger, entry);
        let begun = now(rt)?;
        for _ in rt.forever() {
            match self.add_once(rt, bookie, payload)? {
                Answered::Accepted => {
                    shared.adds.fetch_add(1, Ordering::SeqCst);
                    break;
                }
                Answered::Held => {
                    self.done.held = self.done.held.saturating_add(1);
                    break;
                }
                Answered::Refused => {
                    self.done.refused = self.done.refused.saturating_add(1);
                    break;
                }
                Answered::Full => thread::yield_now(),
            }
            if seconds_since(rt, begun)? >= PATIENCE {
                return Err(LoadFault::Stuck);
            }
        }
        Ok(())
    }

    /// Adds once. If the entry is accepted, keeps its receipt and its time.
    fn add_once<R: Wait + Clock, D: LogDisk>(
        &mut self,
        rt: &R,
        bookie: &Bookie<L, D>,
        payload: &[u8],
    ) -> Result<Answered, LoadFault> {
        self.done
            .receipts
            .reserve(1)
            .map_err(|_| LoadFault::Memory)?;
        self.done.times.reserve(1).map_err(|_| LoadFault::Memory)?;
        let start = now(rt)?;
        match bookie.add(rt, &mut self.pass, payload) {
            Ok(Added::Accepted(receipt)) => {
                self.done.receipts.push_reserved(receipt);
                self.done.times.push_reserved(nanoseconds_since(rt, start));
                self.done.bytes = self.done.bytes.saturating_add(payload.len() as u64);
                Ok(Answered::Accepted)
            }
            Ok(Added::Held) => Ok(Answered::Held),
            Err(CallFault::Of(AddFault::Deleted)) => Ok(Answered::Refused),
            Err(CallFault::Of(AddFault::Full { .. })) => Ok(Answered::Full),
            Err(fault) => Err(LoadFault::Add(fault)),
        }
    }

    /// Takes an earlier entry.
    fn take<R: Wait, D: LogDisk>(
        &mut self,
        rt: &R,
        alloc: Global,
        bookie: &Bookie<L, D>,
        first: u64,
        round: u64,
    ) {
        let receipts = &self.done.receipts;
        if receipts.is_empty() {
            return;
        }
        let receipt = receipts[(mixed(round) % receipts.len() as u64) as usize];
        let is_right = match bookie.read_back(rt, &mut self.pass, &receipt) {
            Ok(taken) => is_right(alloc, first, &taken, &receipt),
            Err(_) => false,
        };
        self.done.count_take(is_right);
    }

    /// Deletes a ledger, after the deletion is recorded.
    fn delete<R: Wait, D: LogDisk>(
        &mut self,
        rt: &R,
        bookie: &Bookie<L, D>,
        ledger: u64,
    ) -> Result<(), LoadFault> {
        self.done.dead.reserve(1).map_err(|_| LoadFault::Memory)?;
        if let Some(recorder) = &mut self.recorder
            && !recorder.record(&Step::Delete(ledger))
        {
            return Err(LoadFault::Unrecorded);
        }
        if bookie.delete(rt, &mut self.pass, ledger).is_ok() {
            self.done.dead.push_reserved(ledger);
        }
        Ok(())
    }
}
