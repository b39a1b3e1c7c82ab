//! A loss of power during a step of a store.

ghost use Rattle.std.specs.Prelude.{◌≡◌, IsTrue};
ghost use Rattle.bk_store.specs.State.{State};
ghost use Rattle.bk_crash.specs.Interrupted.{StepTransition, KeepsPublished, SurvivesStep};

use crate::PowerDisk;
use bk_disk::LogDisk;
use bk_drive::{Step, apply};
use bk_store::Store;

/// Performs a step of a store on a disk whose power may fail at any one of its calls, and returns
/// the disk as the crash finds it.
///
/// A store opened on whatever files the crash leaves has each entry that was published before the
/// step, of a ledger that is not deleted at the opening, with its payload. It has no entry but those
/// accepted before the step and the one that the step adds.
///
/// After the power failed no call changes the disk (`dead` of the calls of `PowerDisk`), so its
/// files are those that were on the device when the power failed. Of the steps of a reader a take
/// alone is a call of the store.
pub fn interrupt<'a, D: LogDisk>(
    store: &'a mut Store<PowerDisk<D>>,
    step: &Step,
) -> &'a PowerDisk<D>
    ensures transition { (after : State) × StepTransition store.old step.now after × (D.files result.now.inner ≡ after.files) }
    ensures survives_crash { IsTrue store.old.honest
        → SurvivesStep (D.files result.now.inner) (D.gone result.now.inner) (D.synced result.now.inner) store.old step.now }
{
    store.survives_crash();
    store.reveal_invariant();
    perform(store, step);
    store.survives_crash()
}

/// Performs a step. Each published entry of a live ledger stays published, with its payload.
fn perform<D: LogDisk>(store: &mut Store<D>, step: &Step)
    ensures honest { store.new.honest ≡ store.old.honest }
    ensures transition { StepTransition store.old step.now store.new }
    ensures published { IsTrue store.old.honest → KeepsPublished store.old step.now store.new }
{
    store.survives_crash();
    store.reveal_invariant();
    match step {
        Step::Work(work) => {
            apply(store, *work);
        }
        Step::Add(payload) => {
            let _ = store.add(payload);
        }
        Step::AddRecovery(payload) => {
            let _ = store.add_recovery(payload);
        }
        Step::Take(_, key) => {
            let _ = store.take(*key);
        }
        Step::Delete(ledger) => {
            let _ = store.delete(*ledger);
        }
        Step::Fence(ledger) => {
            let _ = store.fence(*ledger);
        }
        Step::Fetch(_) | Step::Release(_) | Step::Read(_) | Step::Stats => {}
    }
}
