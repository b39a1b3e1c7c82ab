//! Compacts one log, from its choice to its retirement.

ghost use Rattle.std.specs.Prelude.{◌≡◌, None, IfOk, IsTrue, OnOk};
ghost use Rattle.std.specs.Bool.{OnFalse, OnTrue};
ghost use Rattle.bk_disk.specs.Disk.{AreSound};
ghost use Rattle.bk_compact.specs.Compacting.{Chooses, threshold_of};
ghost use Rattle.bk_offline_gc.specs.Faults.{ReportsFaults};
ghost use Rattle.bk_offline_gc.specs.Stages.{CanSwitchAll, Copies, HasCopied, HasNewLog, HasSwitched};
ghost use Rattle.bk_offline_gc.specs.Sweeping.{SweepFrame};

use crate::{SweepFault, Swept, Watch};
use bk_compact::{
    BeginAnswer, CopyAnswer, EndAnswer, FinishAnswer, Kind, begin, copy, end_copy, finish, give_up,
    switch,
};
use bk_disk::LogDisk;
use bk_store::Store;

/// Number of entries copied between two calls of the observer.
const PIECE: u64 = 4096;

/// Compacts the log with the smallest live share of those below the threshold of this kind, which
/// is then Retired. Returns whether there was such a log. After an error the compaction is given
/// up.
pub(crate) fn compact_next<D: LogDisk, W: Watch>(
    store: &mut Store<D>,
    kind: Kind,
    swept: &mut Swept,
    watch: &mut W,
) -> Result<bool, SweepFault>
    requires { store.old.job ≡ None }
    ensures leaves { SweepFrame store.old store.new }
    ensures cause { ReportsFaults (AreSound D.View.sound) store.old result store.new }
    ensures idle { store.new.job ≡ None }
    ensures more { IfOk result (λ more. OnTrue more (HasNewLog store.old store.new)) }
    ensures none { IfOk result (λ more. OnFalse more ((store.new ≡ store.old)
        × (IsTrue store.new.honest → Chooses store.new (threshold_of store.new.settings kind) None))) }
{
    match begin(store, kind)? {
        BeginAnswer::NothingToDo => Ok(false),
        BeginAnswer::JobRunning => unreachable!(),
        BeginAnswer::Chosen(_) => {
            if let Err(fault) = compact(store, swept, watch) {
                let _ = give_up(store);
                return Err(fault);
            }
            swept.compacted = swept.compacted.saturating_add(1);
            Ok(true)
        }
    }
}

/// Completes a compaction that has just begun.
fn compact<D: LogDisk, W: Watch>(
    store: &mut Store<D>,
    swept: &mut Swept,
    watch: &mut W,
) -> Result<(), SweepFault>
    requires { Copies store.old }
    ensures leaves { SweepFrame store.old store.new }
    ensures cause { ReportsFaults (AreSound D.View.sound) store.old result store.new }
    ensures ok { OnOk result ((store.new.job ≡ None) × (store.new.next ≡ store.old.next)) }
{
    copy_all(store, swept, watch)?;
    publish(store)?;
    move_all(store)
}

/// Copies all entries of the source log that the index points to, in batches.
fn copy_all<D: LogDisk, W: Watch>(
    store: &mut Store<D>,
    swept: &mut Swept,
    watch: &mut W,
) -> Result<(), SweepFault>
    requires { Copies store.old }
    ensures leaves { SweepFrame store.old store.new }
    ensures cause { ReportsFaults (AreSound D.View.sound) store.old result store.new }
    ensures ok { OnOk result (HasCopied store.new × (store.new.next ≡ store.old.next)) }
{
    let read = swept.read;
    let mut at = 0;
    loop {
        match copy(store, PIECE)? {
            CopyAnswer::Copied(count) => {
                let Some(job) = store.job() else {
                    unreachable!();
                };
                let next = job.at();
                // On an honest disk the job moves on.
                if next <= at {
                    return Err(SweepFault::Odd);
                }
                at = next;
                swept.moved = swept.moved.saturating_add(count);
                swept.read = read.saturating_add(at);
                watch.see(swept);
            }
            CopyAnswer::AtEnd => return Ok(()),
            CopyAnswer::NoJob | CopyAnswer::NotNow => unreachable!(),
        }
    }
}

/// Seals and publishes the target log.
fn publish<D: LogDisk>(store: &mut Store<D>) -> Result<(), SweepFault>
    requires { HasCopied store.old }
    ensures leaves { SweepFrame store.old store.new }
    ensures cause { ReportsFaults (AreSound D.View.sound) store.old result store.new }
    ensures ok { OnOk result (CanSwitchAll store.new × (store.new.next ≡ store.old.next)) }
{
    match end_copy(store)? {
        EndAnswer::Ended(_) => Ok(()),
        EndAnswer::NotAtEnd => Err(SweepFault::Odd),
        EndAnswer::NoJob | EndAnswer::NotNow => unreachable!(),
    }
}

/// Switches the index to the target log and ends the compaction; the source log is then Retired.
fn move_all<D: LogDisk>(store: &mut Store<D>) -> Result<(), SweepFault>
    requires { CanSwitchAll store.old }
    ensures leaves { SweepFrame store.old store.new }
    ensures cause { ReportsFaults (AreSound D.View.sound) store.old result store.new }
    ensures ok { OnOk result ((store.new.job ≡ None) × (store.new.next ≡ store.old.next)) }
{
    switch_all(store);
    match finish(store) {
        FinishAnswer::Retired(_) => Ok(()),
        FinishAnswer::StillNamed(_) => Err(SweepFault::Odd),
        FinishAnswer::NoJob | FinishAnswer::NotNow | FinishAnswer::Left(_) => unreachable!(),
    }
}

/// Switches all index entries that point to copied entries.
fn switch_all<D: LogDisk>(store: &mut Store<D>)
    requires { CanSwitchAll store.old }
    ensures leaves { SweepFrame store.old store.new }
    ensures failures { store.new.failures ≡ store.old.failures }
    ensures switched { HasSwitched store.old store.new }
{
    let Some(job) = store.job() else {
        unreachable!();
    };
    let count = job.left();
    let _ = switch(store, count);
}
