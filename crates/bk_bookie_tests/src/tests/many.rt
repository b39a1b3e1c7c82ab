//! Eight concurrent callers and two workers. The callers add entries of four ledgers and take them.
//! The workers flush and compact, and one ledger is deleted meanwhile. At the end counts, receipts,
//! read-backs and files agree.

ghost use Rattle.std.specs.Prelude.{◌≡◌, true};

use super::calls::{AddTold, TakeTold, add, delete, pass, take};
use super::{open, payload};
use bk_bookie::{AddLedger, Bookie, Gate, Pass, WorkReport};
use bk_disk::MemDisk;
use bk_drive::{Kind, Work};
use bk_store::{Receipt, Settings};
use crossbeam_channel::{Sender, bounded};
use std::alloc::Global;
use std::marker::Brand;
use std::process::Abort;
use std::sync::Wait;
use std::sync::ledger::Blank;
use std::thread;
use std::thread::Threads;

mod ending;

use ending::end;

/// Settings with short logs. Any log that is not entirely live is compacted.
const SETTINGS: Settings = Settings {
    log_limit: 8192,
    cache_limit: 16_777_216,
    recent: 16,
    slots: 1000,
    leases: 100,
    minor: 900,
    major: 1000,
};

/// Number of entries of each caller. Two callers add the same entries.
const ENTRIES: u16 = 600;

/// The entry after which the last caller deletes its ledger.
const LAST: u16 = 400;

/// The ledger that is deleted.
const DELETED: u8 = 4;

/// A gate that never waits.
#[derive(Drop)]
struct OpenGate;

impl Gate for OpenGate {
    fn enter(&self, _worker: u32) {}

    fn leave(&self, _worker: u32) {}
}

/// The entries of a caller: a ledger and a byte. The other caller of the ledger has another byte.
#[derive(Clone, Copy)]
struct Part {
    ledger: u8,
    own: u8,
    other: u8,
    deletes: bool,
}

/// The parts of the callers.
static PARTS: [Part; 8] = [
    Part {
        ledger: 1,
        own: b'a',
        other: b'b',
        deletes: false,
    },
    Part {
        ledger: 1,
        own: b'b',
        other: b'a',
        deletes: false,
    },
    Part {
        ledger: 2,
        own: b'a',
        other: b'b',
        deletes: false,
    },
    Part {
        ledger: 2,
        own: b'b',
        other: b'a',
        deletes: false,
    },
    Part {
        ledger: 3,
        own: b'a',
        other: b'b',
        deletes: false,
    },
    Part {
        ledger: 3,
        own: b'b',
        other: b'a',
        deletes: false,
    },
    Part {
        ledger: DELETED,
        own: b'a',
        other: b'b',
        deletes: false,
    },
    Part {
        ledger: DELETED,
        own: b'b',
        other: b'a',
        deletes: true,
    },
];

/// A caller before its calls.
#[derive(Drop)]
struct Waiting<L: AddLedger> {
    pass: Pass<L>,
    part: Part,
}

/// A caller after its calls: its pass, its receipts, and the number of steps that it requested.
#[derive(Drop)]
struct Caller<L: AddLedger> {
    pass: Pass<L>,
    part: Part,
    receipts: Vec<Receipt>,
    asked: u64,
}

impl<L: AddLedger> Caller<L> {
    /// Adds an entry. Returns the byte that it has then, or `None` if its ledger is deleted.
    fn add<R: Wait + Abort>(
        &mut self,
        rt: &R,
        bookie: &Bookie<L, MemDisk>,
        entry: u16,
    ) -> Option<u8> {
        let payload = payload(self.part.ledger, entry, self.part.own);
        match add(rt, bookie, &mut self.pass, &payload) {
            AddTold::Accepted(receipt) => {
                self.receipts.push(receipt).expect(rt, "memory");
                Some(self.part.own)
            }
            AddTold::Held => Some(self.part.other),
            AddTold::Deleted => None,
            _ => panic!(rt; "entry {entry} was refused"),
        }
    }

    /// Returns whether a take gives the entry with this byte, or its ledger is the deleted one.
    fn finds<R: Wait + Abort>(
        &mut self,
        rt: &R,
        alloc: Global,
        bookie: &Bookie<L, MemDisk>,
        entry: u16,
        data: u8,
    ) -> bool {
        let ledger = self.part.ledger;
        let payload = payload(ledger, entry, data);
        match take(rt, alloc, bookie, &mut self.pass, (ledger, entry), &payload) {
            TakeTold::Deleted => ledger == DELETED,
            TakeTold::Cached | TakeTold::Logged => true,
            _ => false,
        }
    }

    /// Adds an entry and takes it.
    fn add_and_take<R: Wait + Abort>(
        &mut self,
        rt: &R,
        alloc: Global,
        bookie: &Bookie<L, MemDisk>,
        entry: u16,
    ) {
        if let Some(data) = self.add(rt, bookie, entry) {
            assert!(rt; self.finds(rt, alloc, bookie, entry, data), "entry {entry}");
        }
    }

    /// Returns whether the deletion removes more than the first entries.
    fn deletes<R: Wait>(&mut self, rt: &R, bookie: &Bookie<L, MemDisk>) -> bool {
        match delete(rt, bookie, &mut self.pass, DELETED) {
            Some(entries) => entries > u64::from(LAST),
            None => false,
        }
    }

    /// Requests a step from the workers.
    fn ask<R: Wait + Abort>(&mut self, rt: &R, works: &Sender<Work>, work: Work) {
        assert!(rt; works.send(rt, work).is_ok());
        self.asked = self.asked.saturating_add(1);
    }

    /// Requests the steps that follow this entry.
    fn ask_on<R: Wait + Abort>(&mut self, rt: &R, works: &Sender<Work>, entry: u16) {
        self.ask(rt, works, Work::WriteOne);
        if let Some(work) = rare_work(entry) {
            self.ask(rt, works, work);
        }
        self.ask(rt, works, last_work(entry));
    }
}

/// Returns a step of a flush, a roll or a compaction, which some entries request.
fn rare_work(entry: u16) -> Option<Work> {
    match entry % 32 {
        0 => Some(Work::Swap),
        15 => Some(Work::Publish),
        20 => Some(Work::Roll),
        21 => Some(Work::Begin(Kind::Minor)),
        22 => Some(Work::Copy(1000)),
        23 => Some(Work::EndCopy),
        24 => Some(Work::Switch(1000)),
        25 => Some(Work::Finish),
        _ => None,
    }
}

/// Returns a step of the removal of a log, which each entry requests.
fn last_work(entry: u16) -> Work {
    let log = u32::from(entry % 16);
    match entry % 3 {
        0 => Work::Retire(log),
        1 => Work::Close(log),
        _ => Work::Remove(log),
    }
}

/// All calls of one caller.
fn call<L: AddLedger, R: Wait + Abort>(
    rt: &R,
    alloc: Global,
    bookie: &Bookie<L, MemDisk>,
    waiting: Waiting<L>,
    works: &Sender<Work>,
) -> Caller<L> {
    let mut caller = Caller {
        pass: waiting.pass,
        part: waiting.part,
        receipts: Vec::new(alloc),
        asked: 0,
    };
    for entry in 0..ENTRIES {
        caller.add_and_take(rt, alloc, bookie, entry);
        if caller.part.deletes && entry == LAST {
            assert!(rt; caller.deletes(rt, bookie));
        }
        caller.ask_on(rt, works, entry);
    }
    caller
}

/// Runs all callers at once, then closes the channel.
fn call_all<L: AddLedger + Send + Sync, R: Threads + Wait + Abort + Sync>(
    rt: &R,
    alloc: Global,
    bookie: &Bookie<L, MemDisk>,
    waiting: Vec<Waiting<L>>,
    works: Sender<Work>,
) -> Vec<Caller<L>> {
    let works = &works;
    thread::map_vec(
        rt,
        waiting,
        &|waiting| call(rt, alloc, bookie, waiting, works),
    )
    .expect(rt, "memory")
}

/// Returns the passes of all callers.
fn pass_all<L: AddLedger, R: Wait + Abort>(
    rt: &R,
    alloc: Global,
    bookie: &Bookie<L, MemDisk>,
) -> Vec<Waiting<L>> {
    let mut waiting = Vec::new(alloc);
    for part in &PARTS {
        let waiter = Waiting {
            pass: pass(rt, bookie),
            part: *part,
        };
        waiting.push(waiter).expect(rt, "memory");
    }
    waiting
}

/// Returns the number of steps that all callers requested.
fn asked_of<L: AddLedger>(callers: &[Caller<L>]) -> u64 {
    let mut asked = 0_u64;
    for caller in callers {
        asked = asked.saturating_add(caller.asked);
    }
    asked
}

/// Runs all callers and two workers. Every requested step is performed, without a fault.
fn let_all_call<L: AddLedger + Send + Sync, R: Threads + Wait + Abort + Sync>(
    rt: &R,
    alloc: Global,
    bookie: &Bookie<L, MemDisk>,
) -> Vec<Caller<L>> {
    let waiting = pass_all(rt, alloc, bookie);
    let (sender, works) = bounded(alloc, 64).expect(rt, "memory");
    let (report, callers) = thread::join(
        rt,
        || bookie.workers(rt, alloc, 2, &works, &OpenGate),
        || call_all(rt, alloc, bookie, waiting, sender),
    );
    let Ok(WorkReport { answered, faults }) = report else {
        panic!(rt; "no workers")
    };
    assert!(rt; faults == 0 && answered == asked_of(&callers));
    callers
}

/// The whole test.
fn run<L: AddLedger + Send + Sync, R: Threads + Wait + Abort + Sync>(
    rt: &R,
    alloc: Global,
    blank: Blank,
)
    requires name { blank.name ≡ L.name }
    requires parts { blank.parts ≡ L.parts }
    requires each { blank.parts ≡ 9 }
    requires honest { L.honest ≡ true }
{
    let bookie = open::<L, R>(rt, alloc, blank, 8, SETTINGS, &[]);
    let callers = let_all_call(rt, alloc, &bookie);
    end(rt, alloc, bookie, callers);
}

#[test]
fn eight_callers_and_two_workers_agree(rt: HostRuntime) {
    run::<Brand, HostRuntime>(&rt, rt.alloc(), Blank::new(9));
}
