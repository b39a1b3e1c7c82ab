//! Reads the source log of a job from the job's position on.

ghost use Rattle.std.specs.Prelude.{◌≡◌, ◌<◌, ◌≤◌, false, IsTrue, IfOk, IfErr, IfSome, IfNone, IsErrOf};
ghost use Rattle.bk_record.specs.Files.{header_length};
ghost use Rattle.bk_disk.specs.Disk.{view_end, AreSound};
ghost use Rattle.bk_log.specs.Growing.{HasNoBadLength};
ghost use Rattle.bk_store.specs.JobInvariant.{JobInvariant, IsReadTo, entries_from};
ghost use Rattle.bk_compact.specs.Fronts.{TellsEnd};
ghost use Rattle.bk_compact.specs.Compacting.{SourceFails};
ghost use Rattle.bk_compact.specs.JobSteps.{IsAtEnd, ScansFrom, fault_of_unread};

use crate::front::{Front, read_front};
use bk_disk::{LogDisk, LogView};
use bk_log::Scanner;
use bk_store::{Job, StepFault, Store};
use std::alloc::Global;

/// Why the source log could not be read.
#[derive(Clone, Copy)]
pub(crate) enum Unread {
    /// The view is not sound: the device failed.
    Disk,
    /// The disk returned what no honest disk can.
    Odd,
}

/// Returns a scanner of a view from this position on. Returns `None` if the view ends before, as no
/// honest view does.
pub(crate) fn scan_from<V: LogView>(view: &V, alloc: Global, at: u64) -> Option<Scanner<'_, V>>
    requires { header_length ≤ at }
    ensures some { IfSome result (ScansFrom (V.bytes view.now) (V.honest view.now) (V.sound view.now) at) }
    ensures none { IfNone result (IsTrue (V.honest view.now) → view_end (V.bytes view.now) < at) }
{
    let end = view.end();
    if end < at {
        return None;
    }
    Some(Scanner::new(view, alloc, at, end))
}

/// Returns whether no entry is left in a view from a position on. Foreign records there are passed.
/// Needs no memory, so it answers also where a scanner is refused its window.
pub(crate) fn is_end<V: LogView>(view: &V, from: u64) -> Result<bool, Unread>
    requires { header_length ≤ from }
    ensures cause { IsErrOf result Unread.Disk → V.sound view.now ≡ false }
    ensures transition { IsTrue (V.honest view.now) → IsReadTo (V.bytes view.now) from → HasNoBadLength (V.bytes view.now)
        → TellsEnd (entries_from (V.bytes view.now) from) result }
{
    let end = view.end();
    let mut at = from;
    while at <= end {
        match read_front(view, at, end - at) {
            Ok(Front::Entry) => return Ok(false),
            Ok(Front::Foreign(size)) => at += u64::from(size),
            Ok(Front::Rest) => return Ok(true),
            Err(unread) => return Err(unread),
        }
    }
    Err(Unread::Odd)
}

/// Returns whether every entry of the source log was examined.
pub(crate) fn is_at_end<D: LogDisk>(store: &Store<D>, job: &Job) -> Result<bool, Unread>
    requires { JobInvariant store.now job.now }
    ensures ok { IfOk result (IsAtEnd store.now job.now) }
    ensures fails { IfErr result (λ unread. SourceFails store.now job.now (fault_of_unread unread)) }
    ensures sound { AreSound D.View.sound → ¬ (IsErrOf result Unread.Disk) }
{
    store.reveal_invariant();
    let Some(view) = store.log_view(job.source()) else {
        unreachable!();
    };
    is_end(&**view, job.at())
}

impl From<Unread> for StepFault {
    ghost use Rattle.std.specs.Prelude.{◌≡◌};
    ghost use Rattle.bk_compact.specs.JobSteps.{fault_of_unread};

    ghost from_gives = { λ unread e. e ≡ fault_of_unread unread };

    fn from(unread: Unread) -> StepFault {
        match unread {
            Unread::Disk => StepFault::Disk,
            Unread::Odd => StepFault::Odd,
        }
    }
}
