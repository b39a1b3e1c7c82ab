//! Leases that outlive their bookie: 201 leases on one log.

ghost use Rattle.std.specs.Prelude.{◌≡◌, true};

use super::calls::{Held, View, accepted, add, delete, disk_of, pass, shows, take_steps};
use super::{SETTINGS, key, open};
use bk_bookie::{AddLedger, Bookie, Pass};
use bk_disk::MemDisk;
use bk_drive::{Answer, CloseAnswer, RetireAnswer, RollAnswer, Work};
use bk_lease::Lease;
use bk_record::{Key, Location};
use bk_store::{Store, Taken};
use std::alloc::Global;
use std::marker::Brand;
use std::process::Abort;
use std::sync::Wait;
use std::sync::ledger::Blank;
use std::thread;
use std::thread::Threads;

/// The payload of entry 0 of ledger 1.
const HELLO: &[u8] = b"\0\0\0\0\0\0\0\x01\0\0\0\0\0\0\0\0hello";

/// A lease, and the location and key of its entry.
#[derive(Drop)]
struct Leased {
    lease: Lease<View>,
    location: Location,
    key: Key,
}

impl Leased {
    /// Returns whether the entry is read by the lease.
    fn shows_hello(&self, alloc: Global) -> bool {
        shows(alloc, &self.lease, self.location, self.key, HELLO)
    }
}

/// Takes a lease on entry 0 of ledger 1.
fn lease<L: AddLedger, R: Wait + Abort>(
    rt: &R,
    bookie: &Bookie<L, MemDisk>,
    pass: &mut Pass<L>,
) -> Leased {
    let key = key(rt, 1, 0);
    match bookie.take(rt, pass, key) {
        Ok(Taken::Leased(lease, location)) => Leased {
            lease,
            location,
            key,
        },
        _ => panic!(rt; "no lease"),
    }
}

/// A caller with its pass and its leases.
#[derive(Drop)]
struct Caller<L: AddLedger> {
    pass: Pass<L>,
    leases: Vec<Leased>,
}

/// Takes a hundred leases.
fn lease_many<L: AddLedger, R: Wait + Abort>(
    rt: &R,
    alloc: Global,
    bookie: &Bookie<L, MemDisk>,
    mut pass: Pass<L>,
) -> Caller<L> {
    let mut leases = Vec::new(alloc);
    for _ in 0..100 {
        leases
            .push(lease(rt, bookie, &mut pass))
            .expect(rt, "memory");
    }
    Caller { pass, leases }
}

/// Releases all leases, one by one.
fn release_all(leases: Vec<Leased>) {
    for leased in leases {
        leased.lease.release().end();
    }
}

/// The entry was read.
#[derive(Drop)]
struct Read;

/// Fails if the entry is read by the lease.
fn is_not_read(leased: &Leased, alloc: Global) -> Result<(), Read> {
    if leased.shows_hello(alloc) {
        Err(Read)
    } else {
        Ok(())
    }
}

/// Reads by the first lease and returns by `?`, which drops all leases.
fn leave<R: Abort>(rt: &R, alloc: Global, leases: Vec<Leased>) -> Result<(), Read> {
    is_not_read(leases.first().expect(rt, "a lease"), alloc)?;
    release_all(leases);
    Ok(())
}

/// Returns whether the next step seals log 0.
fn seals<L: AddLedger, R: Wait>(rt: &R, bookie: &Bookie<L, MemDisk>) -> bool {
    matches!(
        bookie.step(rt, Work::Roll),
        Answer::Roll(Ok(RollAnswer::Sealed(0)))
    )
}

/// Returns whether the next step retires log 0.
fn retires<L: AddLedger, R: Wait>(rt: &R, bookie: &Bookie<L, MemDisk>) -> bool {
    matches!(
        bookie.step(rt, Work::Retire(0)),
        Answer::Retire(RetireAnswer::Retired(0))
    )
}

/// Returns the number of leases that keep log 0 from being closed.
fn leases_out<L: AddLedger, R: Wait>(rt: &R, bookie: &Bookie<L, MemDisk>) -> Option<u64> {
    match bookie.step(rt, Work::Close(0)) {
        Answer::Close(CloseAnswer::Leased(count)) => Some(count),
        _ => None,
    }
}

/// Adds the entry, flushes it to log 0 and seals the log.
fn fill<L: AddLedger, R: Wait + Abort>(rt: &R, bookie: &Bookie<L, MemDisk>, pass: &mut Pass<L>) {
    let _ = accepted(rt, add(rt, bookie, pass, HELLO));
    take_steps(rt, bookie, &[Work::Swap, Work::WriteOne, Work::Publish]);
    assert!(rt; seals(rt, bookie));
}

/// Asks for the disk while a lease is held. Returns the store.
fn ask_in_vain<R: Abort>(rt: &R, store: Store<MemDisk>) -> Store<MemDisk> {
    match store.into_disk() {
        Ok(_) => panic!(rt; "the disk, with a lease out"),
        Err(refused) => {
            assert!(rt; refused.log == 0 && refused.count == 1);
            refused.store
        }
    }
}

/// Gets the disk after the last lease is released.
fn ask_for_disk<R: Abort>(rt: &R, alloc: Global, store: Store<MemDisk>, last: Leased) {
    let store = ask_in_vain(rt, store);
    assert!(rt; last.shows_hello(alloc));
    last.lease.release().end();
    let _disk = disk_of(rt, store);
}

/// Two concurrent callers take a hundred leases each.
fn lease_by_both<L: AddLedger + Send + Sync, R: Threads + Wait + Abort + Sync>(
    rt: &R,
    alloc: Global,
    bookie: &Bookie<L, MemDisk>,
) -> (Caller<L>, Caller<L>) {
    let first = pass(rt, bookie);
    let second = pass(rt, bookie);
    thread::join(
        rt,
        move || lease_many(rt, alloc, bookie, first),
        move || lease_many(rt, alloc, bookie, second),
    )
}

/// One caller releases its leases and one drops them, concurrently.
fn let_go<R: Threads + Wait + Abort + Sync>(
    rt: &R,
    alloc: Global,
    given: Vec<Leased>,
    dropped: Vec<Leased>,
) {
    let (_, left) = thread::join(
        rt,
        move || release_all(given),
        move || leave(rt, alloc, dropped).is_err(),
    );
    assert!(rt; left);
}

/// Returns whether the ledger is deleted and its log retired but not closed.
fn goes<L: AddLedger, R: Wait>(rt: &R, bookie: &Bookie<L, MemDisk>, pass: &mut Pass<L>) -> bool {
    matches!(delete(rt, bookie, pass, 1), Some(1))
        && retires(rt, bookie)
        && matches!(leases_out(rt, bookie), Some(201))
}

/// Adds the entry and takes a lease on it after it was flushed.
fn lease_main<L: AddLedger, R: Wait + Abort>(
    rt: &R,
    bookie: &Bookie<L, MemDisk>,
    pass: &mut Pass<L>,
) -> Leased {
    fill(rt, bookie, pass);
    let main = lease(rt, bookie, pass);
    assert!(rt; main.location.value() == 1028);
    main
}

/// Returns the number of leases that the bookie counts, or `None` if the call is refused.
fn counted<L: AddLedger, R: Wait>(
    rt: &R,
    bookie: &Bookie<L, MemDisk>,
    pass: &mut Pass<L>,
) -> Option<u64> {
    match bookie.count_leases(rt, pass) {
        Ok(count) => Some(count),
        Err(_) => None,
    }
}

/// Two callers hold leases while the ledger is deleted, and then end them. Returns their passes.
fn lend_to_both<L: AddLedger + Send + Sync, R: Threads + Wait + Abort + Sync>(
    rt: &R,
    alloc: Global,
    bookie: &Bookie<L, MemDisk>,
    pass: &mut Pass<L>,
) -> (Pass<L>, Pass<L>) {
    let (first, second) = lease_by_both(rt, alloc, bookie);
    assert!(rt; counted(rt, bookie, pass) == Some(201));
    assert!(rt; goes(rt, bookie, pass));
    let Caller {
        pass: one,
        leases: given,
    } = first;
    let Caller {
        pass: other,
        leases: dropped,
    } = second;
    let_go(rt, alloc, given, dropped);
    (one, other)
}

/// Returns whether one lease is left and reads the entry.
fn is_last<L: AddLedger, R: Wait>(
    rt: &R,
    alloc: Global,
    bookie: &Bookie<L, MemDisk>,
    main: &Leased,
) -> bool {
    matches!(leases_out(rt, bookie), Some(1)) && main.shows_hello(alloc)
}

/// Ends the bookie while a lease is held.
fn end<L: AddLedger, R: Abort>(rt: &R, alloc: Global, held: Held<L>, main: Leased) {
    let finished = held.end(rt, &[]);
    assert!(rt; finished.adds == 1);
    ask_for_disk(rt, alloc, finished.store, main);
}

/// One lease is taken by the main thread and a hundred by each of two callers. The ledger is
/// deleted and its log retired. The callers end their leases, and the first lease outlives the
/// bookie.
fn live<L: AddLedger + Send + Sync, R: Threads + Wait + Abort + Sync>(
    rt: &R,
    alloc: Global,
    bookie: Bookie<L, MemDisk>,
) {
    let mut third = pass(rt, &bookie);
    let main = lease_main(rt, &bookie, &mut third);
    let (first, second) = lend_to_both(rt, alloc, &bookie, &mut third);
    assert!(rt; is_last(rt, alloc, &bookie, &main));
    assert!(rt; counted(rt, &bookie, &mut third) == Some(1));
    let held = Held::new(rt, alloc, bookie, third);
    let held = held.with(rt, first).with(rt, second);
    end(rt, alloc, held, main);
}

/// The whole test.
fn run<L: AddLedger + Send + Sync, R: Threads + Wait + Abort + Sync>(
    rt: &R,
    alloc: Global,
    blank: Blank,
)
    requires name { blank.name ≡ L.name }
    requires parts { blank.parts ≡ L.parts }
    requires each { blank.parts ≡ 4 }
    requires honest { L.honest ≡ true }
{
    live(rt, alloc, open::<L, R>(rt, alloc, blank, 3, SETTINGS, &[9]));
}

#[test]
fn leases_outlive_their_bookie(rt: HostRuntime) {
    run::<Brand, HostRuntime>(&rt, rt.alloc(), Blank::new(4));
}
