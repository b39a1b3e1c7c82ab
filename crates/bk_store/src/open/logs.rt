//! Reading all logs at opening.

ghost use Rattle.std.specs.Prelude.{◌≡◌, ◌<◌, ◌≤◌, IsTrue, IsErrOf, IfOk, IfErr, OnOk, length, replicate};
ghost use Rattle.std.specs.FinMap as map;
ghost use Rattle.bk_disk.specs.Disk.{AreSound};
ghost use Rattle.bk_disk.specs.Durable.{DurableGrows};
ghost use Rattle.bk_store.specs.Opening.{FirstFails};
ghost use Rattle.bk_store.specs.Found.{AreTaken, AllDurable};
ghost use Rattle.bk_store.specs.SlotAssignment.{AreSeated, IsSameTable};
ghost use Rattle.bk_lease.specs.declared.slot.Slot.TheVariants.{Free};

use super::found::find;
use super::tally::Tally;
use crate::OpenFault;
use crate::logs::LogTable;
use bk_disk::LogDisk;
use bk_lease::Keeper;
use bk_record::LAST_LOG;
use std::alloc::Global;

/// Reads the logs of these ids, and seats them in slots 0, 1, and so on. Returns the next free id:
/// one more than the largest, or 0.
#[tactic(auto, using(bk_disk::proofs::DurableGrows::kept_rules))]
pub(super) fn find_all<D: LogDisk>(
    disk: &mut D,
    alloc: Global,
    ids: &[u32],
    tally: &mut Tally,
    logs: &mut LogTable<D::View>,
    keeper: &mut Keeper,
) -> Result<u32, OpenFault>
    requires listed { IsTrue (D.honest disk.old) → ids.now ≡ map.keys (D.files disk.old) }
    requires first { tally.old.accounts ≡ map.empty }
    requires none { logs.old ≡ map.empty }
    requires free { keeper.old.slots ≡ replicate (length keeper.old.slots) Free }
    requires room { length ids.now ≤ length keeper.old.slots }
    ensures honest { D.honest disk.new ≡ D.honest disk.old }
    ensures durable { IsTrue (D.honest disk.old) → DurableGrows (D.synced disk.old) (D.gone disk.old) (D.synced disk.new) (D.gone disk.new) }
    ensures synced { IsTrue (D.honest disk.old) → OnOk result (AllDurable (D.files disk.old) (D.synced disk.new) ids.now) }
    ensures failures { OnOk result (D.failures disk.new ≡ D.failures disk.old) }
    ensures sound { AreSound D.View.sound → IsErrOf result OpenFault.Disk → D.failures disk.old < D.failures disk.new }
    ensures never { ¬ (IsErrOf result OpenFault.Settings) }
    ensures files { IsTrue (D.honest disk.old) → D.files disk.new ≡ D.files disk.old }
    ensures ok { IfOk result (λ next. AreTaken (D.honest disk.old) (D.files disk.old) ids.now next tally.old tally.new logs.old logs.new) }
    ensures seated { OnOk result (AreSeated keeper.new logs.new) }
    ensures keeper { IsSameTable keeper.old keeper.new }
    ensures err { IfErr result (λ fault. IsTrue (D.honest disk.old) → FirstFails (D.files disk.old) fault) }
{
    disk.bounds();
    let mut next = 0;
    let mut slot = 0;
    for id in ids {
        if *id < next || *id > LAST_LOG {
            return Err(OpenFault::Odd);
        }
        let log = find(disk, alloc, *id, slot, tally)?;
        logs.insert(*id, log)?;
        keeper.open(slot, *id);
        slot += 1;
        next = *id + 1;
    }
    Ok(next)
}
