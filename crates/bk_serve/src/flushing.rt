//! Flushes: steps of the store alone until nothing is only cached.

ghost use Rattle.std.specs.Prelude.{◌≡◌, OnOk};
ghost use Rattle.bk_serve.specs.Works.{Extends, IsEmptied};

use crate::tally::{Tally, step};
use bk_disk::LogDisk;
use bk_drive::{Answer, StepFault, SwapAnswer, Work, WriteAnswer};
use bk_store::Store;

/// Number of passes of a flush: one for a running flush, one for the entries that came in since,
/// and one that finds nothing.
const PASSES: u32 = 3;

/// Writes all entries of the running flush.
#[tactic(auto, using(crate::proofs::Steps::then, crate::proofs::Steps::stays))]
fn write_all<D: LogDisk>(store: &mut Store<D>, tally: &mut Tally) -> Result<(), StepFault>
    ensures { Extends tally.old store.old tally.new store.new }
{
    for _ in 0..=store.flush_len() {
        match step(store, tally, Work::WriteOne) {
            Answer::Write(Ok(WriteAnswer::Wrote(_))) => {}
            Answer::Write(Err(fault)) => return Err(fault),
            _ => return Ok(()),
        }
    }
    Ok(())
}

/// Writes and publishes the running flush.
#[tactic(auto, using(crate::proofs::Steps::then, crate::proofs::Steps::stays))]
fn end_flush<D: LogDisk>(store: &mut Store<D>, tally: &mut Tally) -> Result<(), StepFault>
    ensures { Extends tally.old store.old tally.new store.new }
{
    write_all(store, tally)?;
    match step(store, tally, Work::Publish) {
        Answer::Publish(Err(fault)) => Err(fault),
        _ => Ok(()),
    }
}

/// Flushes until nothing is only cached.
///
/// # Errors
///
/// The fault of a step. `Odd` if something is only cached after all passes, which does not occur.
#[tactic(auto, using(crate::proofs::Steps::then, crate::proofs::Steps::stays))]
pub(crate) fn flush_all<D: LogDisk>(
    store: &mut Store<D>,
    tally: &mut Tally,
) -> Result<(), StepFault>
    ensures works { Extends tally.old store.old tally.new store.new }
    ensures empty { OnOk result (IsEmptied store.new) }
{
    for _ in 0..PASSES {
        if let Answer::Swap(SwapAnswer::Nothing) = step(store, tally, Work::Swap) {
            return Ok(());
        }
        end_flush(store, tally)?;
    }
    Err(StepFault::Odd)
}
