//! The machine: a store and its readers take steps, one after another.

ghost use Rattle.std.specs.Prelude.{◌≡◌, ◌↔◌, ◌<◌, ◌≤◌, ℕ, Option, IsTrue, IfOk, IfErr, IsErrOf, IfSome, IfNone, length};
ghost use Rattle.bk_disk.specs.Disk.{AreSound};
ghost use Rattle.bk_store.specs.Limits.{IsAllowed};
ghost use Rattle.bk_store.specs.Transitions.{AddTransition};
ghost use Rattle.bk_store.specs.Opening.{NeverFails, OpenFails};
ghost use Rattle.bk_store.specs.Abstract.{AbstractState, StoreRefines};
ghost use Rattle.bk_drive.specs.Abstract.{AbstractMachine, HasAt, abstract_after_work};
ghost use Rattle.bk_lease.specs.Leases.{IsClosed};
ghost use Rattle.bk_drive.specs.Machine.{ReaderLease, WorkTransition, MachineTransition, AbstractTransition, HasNoReader, Closes, ClosesOrRemoves};
ghost use Rattle.bk_drive.specs.Headline.{MachineRefines, Headline};
ghost use Rattle.bk_drive.specs.ReaderLeases.{AreOpenLeases, IsClosedOrRemoved};
ghost use Rattle.bk_drive.specs.Failing.{IsDiskFault, AnswerReportsFailure, NoneIsDiskFault};
ghost use Rattle.bk_drive.specs.Frame.{SlotsFrame, CachesFrame, FailureCountByAnswer};
ghost use Rattle.bk_store.specs.Frame.{CoreUnchanged};

use crate::counts::count;
use crate::ledger_reads::read_ledgers;
use crate::recorder::RecordsNothing;
use crate::taking::{fetch_by, release, take};
use crate::{Answer, Readers, Step, Work, drive_recorded};
use bk_collect::{CloseAnswer, close, rebuild, remove, retire};
use bk_compact::{begin, copy, end_copy, finish, give_up, switch};
use bk_disk::LogDisk;
use bk_flush::{publish, roll, swap, write_one};
use bk_store::{AddFault, AddKind, Added, OpenFault, Settings, Store};
use std::alloc::Global;

/// Result of `drive`: the store, one answer per step, and the readers with the leases that they
/// hold.
#[derive(Drop)]
pub struct Ran<D: LogDisk> {
    pub store: Store<D>,
    pub answers: Vec<Answer>,
    pub readers: Readers<D::View>,
}

/// Performs one step of the store alone and returns its answer.
///
/// The logical contents of the store are unchanged. The device fails at most once in a step, and
/// then the answer is `Disk`. For the state after `Memory`, `Disk` and `Odd`, see the function that
/// the step calls.
pub fn apply<D: LogDisk>(store: &mut Store<D>, work: Work) -> Answer
    ensures honest { store.new.honest ≡ store.old.honest }
    ensures cause { AnswerReportsFailure store.old.failures store.new.failures result }
    ensures sound { AreSound D.View.sound → IsDiskFault result → store.old.failures < store.new.failures }
    ensures settings { store.new.settings ≡ store.old.settings }
    ensures frame { CoreUnchanged store.old store.new }
    ensures slots { SlotsFrame store.old result store.new }
    ensures transition { WorkTransition store.old work result store.new }
    ensures plain { IsTrue store.old.honest → (p : AbstractState) → StoreRefines store.old p → StoreRefines store.new (abstract_after_work result p) }
{
    store.reveal_invariant();
    call(store, work)
}

/// Makes the call of a step and returns its answer.
fn call<D: LogDisk>(store: &mut Store<D>, work: Work) -> Answer
    ensures honest { store.new.honest ≡ store.old.honest }
    ensures cause { FailureCountByAnswer store.old result store.new }
    ensures sound { AreSound D.View.sound → IsDiskFault result → store.old.failures < store.new.failures }
    ensures frame { CoreUnchanged store.old store.new }
    ensures slots { SlotsFrame store.old result store.new }
    ensures caches { CachesFrame store.old result store.new }
    ensures transition { WorkTransition store.old work result store.new }
{
    match work {
        Work::Swap => Answer::Swap(swap(store)),
        Work::WriteOne => Answer::Write(write_one(store)),
        Work::Publish => Answer::Publish(publish(store)),
        Work::Roll => Answer::Roll(roll(store)),
        Work::Retire(log) => Answer::Retire(retire(store, log)),
        Work::Rebuild => Answer::Rebuild(rebuild(store)),
        Work::Close(log) => Answer::Close(close(store, log)),
        Work::Remove(log) => Answer::Remove(remove(store, log)),
        Work::Begin(kind) => Answer::Begin(begin(store, kind)),
        Work::Copy(count) => Answer::Copy(copy(store, count)),
        Work::EndCopy => Answer::EndCopy(end_copy(store)),
        Work::Switch(count) => Answer::Switch(switch(store, count)),
        Work::Finish => Answer::Finish(finish(store)),
        Work::GiveUp => Answer::GiveUp(give_up(store)),
    }
}

/// Opens a store on the logs of a disk and performs the steps, one after another.
///
/// `dead` lists the ledgers deleted earlier. Duplicates and values above 2^63 - 1 are ignored. Room
/// for all answers is allocated before the first step. A step that fails is an answer, and the next
/// step follows.
///
/// # Errors
///
/// Those of `Store::open`, in its order, then `Memory` if the room for the answers cannot be
/// allocated. The disk is dropped with every error. `Disk` does not occur if the device never fails
/// and views are sound.
pub fn drive<D: LogDisk>(
    alloc: Global,
    disk: D,
    settings: Settings,
    dead: &[u64],
    steps: &[Step],
) -> Result<Ran<D>, OpenFault>
    ensures headline { IsTrue (D.honest disk)
        → IfOk result (λ ran. Headline settings (D.files disk) dead.now steps.now ran.answers.items ran.store ran.readers) }
    ensures settings { IsErrOf result OpenFault.Settings ↔ ¬ (IsAllowed settings) }
    ensures fails { IfErr result (λ fault. IsTrue (D.honest disk) → OpenFails (D.files disk) settings fault) }
    ensures unfailing { NeverFails D.failures → AreSound D.View.sound
        → IfOk result (λ ran. NoneIsDiskFault ran.answers.items) }
    ensures unfailing_opening { NeverFails D.failures → AreSound D.View.sound → ¬ (IsErrOf result OpenFault.Disk) }
    ensures one_answer { IfOk result (λ ran. length ran.answers.items ≡ length steps.now) }
{
    drive_recorded(alloc, disk, settings, dead, &[], steps, &mut RecordsNothing)
}

/// Performs one step of the machine and returns its answer. The abstract machine gives the same
/// answer.
pub(crate) fn turn<D: LogDisk>(
    alloc: Global,
    store: &mut Store<D>,
    readers: &mut Readers<D::View>,
    step: &Step,
) -> Answer
    requires { AreOpenLeases store.old.keeper readers.old }
    ensures honest { store.new.honest ≡ store.old.honest }
    ensures settings { store.new.settings ≡ store.old.settings }
    ensures later { store.old.failures ≤ store.new.failures }
    ensures disk { AreSound D.View.sound → IsDiskFault result → store.old.failures < store.new.failures }
    ensures leases { AreOpenLeases store.new.keeper readers.new }
    ensures closes { (log : ℕ) → ClosesOrRemoves step.now result log → IsClosedOrRemoved store.new log }
    ensures closed { (log : ℕ) → IsClosedOrRemoved store.old log → IsClosedOrRemoved store.new log }
    ensures transition { MachineTransition (record { store = store.old; readers = readers.old }) step.now result
        (record { store = store.new; readers = readers.new }) }
    ensures plain { IsTrue store.old.honest → (p : AbstractMachine) → MachineRefines (record { store = store.old; readers = readers.old }) p
        → (q : AbstractMachine) × AbstractTransition store.old.settings.cache_limit p step.now result q
        × MachineRefines (record { store = store.new; readers = readers.new }) q }
{
    store.reveal_invariant();
    match step {
        Step::Work(work) => work_on(store, readers, *work),
        Step::Add(payload) => Answer::Add(add(store, AddKind::Ordinary, payload)),
        Step::AddRecovery(payload) => Answer::Add(add(store, AddKind::Recovery, payload)),
        Step::Take(reader, key) => Answer::Take(take(store, readers, *reader, *key)),
        Step::Fetch(reader) => Answer::Fetch(fetch_by(alloc, readers, *reader)),
        Step::Release(reader) => Answer::Release(release(readers, *reader)),
        Step::Delete(ledger) => Answer::Delete(store.delete(*ledger)),
        Step::Fence(ledger) => Answer::Fence(store.fence(*ledger)),
        Step::Read(read) => Answer::Read(read_ledgers(store, *read)),
        Step::Stats => Answer::Stats(count(store)),
    }
}

/// Adds an entry, as an ordinary add or as one of a recovery.
fn add<D: LogDisk>(store: &mut Store<D>, kind: AddKind, payload: &[u8]) -> Result<Added, AddFault>
    ensures { AddTransition store.old kind payload.now result store.new }
{
    match kind {
        AddKind::Ordinary => store.add(payload),
        AddKind::Recovery => store.add_recovery(payload),
    }
}

/// Performs one step of the store alone. If it closed or removed a log, no reader holds a lease on
/// it.
fn work_on<D: LogDisk>(store: &mut Store<D>, readers: &mut Readers<D::View>, work: Work) -> Answer
    requires { AreOpenLeases store.old.keeper readers.old }
    ensures honest { store.new.honest ≡ store.old.honest }
    ensures cause { AnswerReportsFailure store.old.failures store.new.failures result }
    ensures sound { AreSound D.View.sound → IsDiskFault result → store.old.failures < store.new.failures }
    ensures settings { store.new.settings ≡ store.old.settings }
    ensures transition { WorkTransition store.old work result store.new }
    ensures plain { IsTrue store.old.honest → (p : AbstractState) → StoreRefines store.old p → StoreRefines store.new (abstract_after_work result p) }
    ensures readers { readers.new ≡ readers.old }
    ensures leases { AreOpenLeases store.new.keeper readers.new }
    ensures unread { (log : ℕ) → ClosesOrRemoves (Step.Work work) result log → HasNoReader readers.old log }
    ensures closes { (log : ℕ) → ClosesOrRemoves (Step.Work work) result log → IsClosedOrRemoved store.new log }
    ensures closed { (log : ℕ) → IsClosedOrRemoved store.old log → IsClosedOrRemoved store.new log }
{
    store.reveal_invariant();
    let answer = apply(store, work);
    let Some(log) = closed_by(work, &answer) else {
        return answer;
    };
    meet_reader(store, readers, log);
    answer
}

/// Returns the log that the step closed, or `None` if it closed none.
fn closed_by(work: Work, answer: &Answer) -> Option<u32>
    ensures some { IfSome result (Closes (Step.Work work) answer.now) }
    ensures none { IfNone result ((log : ℕ) → ¬ (Closes (Step.Work work) answer.now log)) }
{
    match (work, answer) {
        (Work::Close(log), Answer::Close(CloseAnswer::Closed)) => Some(log),
        _ => None,
    }
}

/// Lemma: no reader holds a lease on a closed log. `Store::meet` takes such a lease and cannot
/// return.
fn meet_reader<D: LogDisk>(store: &mut Store<D>, readers: &mut Readers<D::View>, log: u32)
    requires table { (reader : ℕ) (hold : ReaderLease) → HasAt readers.old reader hold → hold.ticket.table ≡ store.old.keeper.table }
    requires closed { (reader : ℕ) (hold : ReaderLease) → HasAt readers.old reader hold → hold.ticket.log ≡ log
        → IsClosed store.old.keeper.slots hold.ticket.slot }
    ensures store { store.new ≡ store.old }
    ensures readers { readers.new ≡ readers.old }
    ensures unread { HasNoReader readers.old log }
{
    let Some(reader) = readers.reader_of(log) else {
        return;
    };
    let Some(reading) = readers.let_go(reader) else {
        unreachable!();
    };
    store.meet(reading.lease);
    unreachable!()
}
