//! Single calls of the disk that change a log, with errors of a log.

ghost use Rattle.std.specs.Prelude.{◌≡◌, IsTrue, IsErrOf, length};
ghost use Rattle.bk_disk.specs.Disk.{FailsExactlyIf};
ghost use Rattle.bk_disk.specs.Durable.{DurableGrows};
ghost use Rattle.bk_log.specs.Calls.{HasRoom, Adds, HasPatchableHeader, Overwrites};

use crate::LogFault;
use crate::fault::log_fault;
use bk_disk::LogDisk;
use std::alloc::Global;

/// Appends bytes to a log that has room for them.
#[tactic(auto, using(bk_disk::proofs::DurableGrows::kept_rules))]
pub(crate) fn append<D: LogDisk>(
    disk: &mut D,
    alloc: Global,
    log: u32,
    bytes: &[u8],
) -> Result<(), LogFault>
    requires { IsTrue (D.honest disk.old) → HasRoom (D.files disk.old) log (length bytes.now) }
    ensures honest { D.honest disk.new ≡ D.honest disk.old }
    ensures durable { IsTrue (D.honest disk.old) → DurableGrows (D.synced disk.old) (D.gone disk.old) (D.synced disk.new) (D.gone disk.new) }
    ensures cause { FailsExactlyIf (D.failures disk.old) (D.failures disk.new) (IsErrOf result LogFault.Disk) }
    ensures never { ¬ (IsErrOf result LogFault.Failed) }
    ensures transition { IsTrue (D.honest disk.old) → Adds (D.files disk.old) log bytes.now result (D.files disk.new) }
{
    match disk.append(alloc, log, bytes) {
        Ok(()) => Ok(()),
        Err(fault) => Err(log_fault(fault)),
    }
}

/// Same as `append`, without a call of the disk if there are no bytes.
#[tactic(auto, using(bk_disk::proofs::DurableGrows::kept_rules))]
pub(crate) fn append_any<D: LogDisk>(
    disk: &mut D,
    alloc: Global,
    log: u32,
    bytes: &[u8],
) -> Result<(), LogFault>
    requires { IsTrue (D.honest disk.old) → HasRoom (D.files disk.old) log (length bytes.now) }
    ensures honest { D.honest disk.new ≡ D.honest disk.old }
    ensures durable { IsTrue (D.honest disk.old) → DurableGrows (D.synced disk.old) (D.gone disk.old) (D.synced disk.new) (D.gone disk.new) }
    ensures cause { FailsExactlyIf (D.failures disk.old) (D.failures disk.new) (IsErrOf result LogFault.Disk) }
    ensures never { ¬ (IsErrOf result LogFault.Failed) }
    ensures transition { IsTrue (D.honest disk.old) → Adds (D.files disk.old) log bytes.now result (D.files disk.new) }
{
    if bytes.is_empty() {
        return Ok(());
    }
    append(disk, alloc, log, bytes)
}

/// Overwrites the twelve bytes at position 8 of a log that has its header.
#[tactic(auto, using(bk_disk::proofs::DurableGrows::kept_rules))]
pub(crate) fn patch<D: LogDisk>(
    disk: &mut D,
    alloc: Global,
    log: u32,
    bytes: &[u8; 12],
) -> Result<(), LogFault>
    requires { IsTrue (D.honest disk.old) → HasPatchableHeader (D.files disk.old) log }
    ensures honest { D.honest disk.new ≡ D.honest disk.old }
    ensures durable { IsTrue (D.honest disk.old) → DurableGrows (D.synced disk.old) (D.gone disk.old) (D.synced disk.new) (D.gone disk.new) }
    ensures cause { FailsExactlyIf (D.failures disk.old) (D.failures disk.new) (IsErrOf result LogFault.Disk) }
    ensures never { ¬ (IsErrOf result LogFault.Failed) }
    ensures transition { IsTrue (D.honest disk.old)
        → Overwrites (D.files disk.old) log bytes.now result (D.files disk.new) }
{
    match disk.patch(alloc, log, bytes) {
        Ok(()) => Ok(()),
        Err(fault) => Err(log_fault(fault)),
    }
}
