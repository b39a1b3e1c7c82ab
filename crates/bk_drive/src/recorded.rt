//! The machine takes steps, each of which is recorded before it is performed.

ghost use Rattle.std.specs.Prelude.{◌≡◌, ◌+◌, ◌≤◌, ◌++◌, ◌↔◌, IsTrue, IfOk, IfErr, IsErrOf, OnOk, OnErr, List, length, map, replicate, vec_len, vec_capacity};
ghost use Rattle.bk_disk.specs.Disk.{AreSound};
ghost use Rattle.bk_store.specs.Limits.{IsAllowed};
ghost use Rattle.bk_store.specs.Opening.{NeverFails, OpenFails};
ghost use Rattle.bk_drive.specs.declared.step.Answer.{Answer};
ghost use Rattle.bk_drive.specs.Failing.{NoneIsDiskFault};
ghost use Rattle.bk_drive.specs.ReaderLeases.{AreOpenLeases};
ghost use Rattle.bk_drive.specs.Recorded.{AreFenced, IsFenced, Performs, PerformsRecorded, RunsRecorded};

use crate::run::turn;
use crate::{Answer, OpenFault, Ran, Readers, Recorder, Settings, Step, Store};
use bk_disk::LogDisk;
use bk_store::FenceFault;
use std::alloc::Global;

/// Opens a store on the logs of a disk, fences ledgers, and performs the steps, one after another,
/// each after the recorder has recorded it.
///
/// `dead` lists the ledgers deleted earlier and `fenced` those fenced earlier; of these the deleted
/// ones are not fenced. From the first step on that the recorder refuses no step is performed, and
/// each is answered `Unrecorded`. Else as `drive`.
///
/// # Errors
///
/// Those of `drive`; `Memory` also if a ledger cannot be fenced. The recorder is not asked then.
pub fn drive_recorded<D: LogDisk, R: Recorder>(
    alloc: Global,
    disk: D,
    settings: Settings,
    dead: &[u64],
    fenced: &[u64],
    steps: &[Step],
    recorder: &mut R,
) -> Result<Ran<D>, OpenFault>
    ensures headline { IfOk result (λ ran. RunsRecorded R.record_gives (IsTrue (D.honest disk)) settings (D.files disk)
        dead.now fenced.now steps.now ran.answers.items ran.store ran.readers recorder.old recorder.new) }
    ensures settings { IsErrOf result OpenFault.Settings ↔ ¬ (IsAllowed settings) }
    ensures fails { IfErr result (λ fault. IsTrue (D.honest disk) → OpenFails (D.files disk) settings fault) }
    ensures unasked { OnErr result (recorder.new ≡ recorder.old) }
    ensures unfailing { NeverFails D.failures → AreSound D.View.sound
        → IfOk result (λ ran. NoneIsDiskFault ran.answers.items) }
    ensures unfailing_opening { NeverFails D.failures → AreSound D.View.sound → ¬ (IsErrOf result OpenFault.Disk) }
    ensures one_answer { IfOk result (λ ran. length ran.answers.items ≡ length steps.now) }
{
    let mut store = Store::open(alloc, disk, settings, dead)?;
    // Lemma: the settings are in range.
    store.reveal_invariant();
    let mut readers = Readers::new();
    fence_all(alloc, &mut store, &mut readers, fenced)?;
    let answers = perform(alloc, &mut store, &mut readers, steps, recorder)?;
    // Lemma: no two logs share a slot, so no lease is on a closed log.
    store.reveal_invariant();
    // Lemma: the failures that the store counts are those of its disk.
    let _ = store.disk();
    Ok(Ran {
        store,
        answers,
        readers,
    })
}

/// Fences ledgers, except deleted ones. Fails only if out of memory.
fn fence_all<D: LogDisk>(
    alloc: Global,
    store: &mut Store<D>,
    readers: &mut Readers<D::View>,
    fenced: &[u64],
) -> Result<(), OpenFault>
    requires { AreOpenLeases store.old.keeper readers.old }
    ensures ok { OnOk result ((told : List Answer) × AreFenced told
        × Performs (AreSound D.View.sound) store.old readers.old (map Step.Fence fenced.now) told store.new readers.new) }
    ensures only { IfErr result (λ fault. fault ≡ OpenFault.Memory) }
{
    for ledger in fenced {
        let answer = turn(alloc, store, readers, &Step::Fence(*ledger));
        if !is_fenced(&answer) {
            return Err(OpenFault::Memory);
        }
    }
    Ok(())
}

/// Returns whether the answer of a fence says that its ledger is fenced, or deleted.
fn is_fenced(answer: &Answer) -> bool
    ensures { IsTrue result ↔ IsFenced answer.now }
{
    matches!(answer, Answer::Fence(Ok(_) | Err(FenceFault::Deleted)))
}

/// Performs the steps, each after its record, up to the first one that the recorder refuses.
/// Returns an answer for each step.
///
/// Fails only if there is no memory for the answers, before the recorder is asked.
fn perform<D: LogDisk, R: Recorder>(
    alloc: Global,
    store: &mut Store<D>,
    readers: &mut Readers<D::View>,
    steps: &[Step],
    recorder: &mut R,
) -> Result<Vec<Answer>, OpenFault>
    requires { AreOpenLeases store.old.keeper readers.old }
    ensures ok { IfOk result (λ answers. PerformsRecorded R.record_gives (AreSound D.View.sound) store.old readers.old steps.now
        answers.items store.new readers.new recorder.old recorder.new) }
    ensures only { IfErr result (λ fault. (fault ≡ OpenFault.Memory) × (recorder.new ≡ recorder.old)) }
{
    let Ok(mut answers) = Vec::with_capacity(alloc, steps.len()) else {
        return Err(OpenFault::Memory);
    };
    for step in steps {
        if !recorder.record(step) {
            let refused = steps.len() - answers.len();
            push_unrecorded(&mut answers, refused);
            return Ok(answers);
        }
        answers.push(turn(alloc, store, readers, step)).unwrap();
    }
    Ok(answers)
}

/// Appends the answer `Unrecorded` this many times. There is room for them.
fn push_unrecorded(answers: &mut Vec<Answer>, count: usize)
    requires { vec_len answers.old + count ≤ vec_capacity answers.old }
    ensures { answers.new.items ≡ answers.old.items ++ replicate count Answer.Unrecorded }
{
    for _ in 0..count {
        answers.push(Answer::Unrecorded).unwrap();
    }
}
