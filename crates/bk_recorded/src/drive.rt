//! A store is opened with the ledgers that a manifest has, and its steps are recorded there.

ghost use Rattle.std.specs.Prelude.{◌≡◌, ◌⊎◌, IsTrue, IfOk, IfErr, OnErr, OnOk};
ghost use Rattle.bk_manifest.specs.Keeping.{durable};
ghost use Rattle.bk_store.specs.Limits.{IsAllowed};
ghost use Rattle.bk_store.specs.Opening.{OpenFails};
ghost use Rattle.bk_recorded.specs.Ledgers.{AreLedgersRecorded};
ghost use Rattle.bk_recorded.specs.Opening.{RunsKept};

use crate::LedgerRecorder;
use bk_disk::LogDisk;
use bk_drive::{OpenFault, Ran, Settings, Step, drive_recorded};
use bk_manifest::ManifestFile;
use std::alloc::Global;

/// Opens a store on the logs of a disk, with the deletions and the fences of a manifest, and performs
/// the steps. A deletion and a fence are durable in the manifest before they take effect.
///
/// From the first step on that cannot be recorded no step is performed, and each is answered
/// `Unrecorded`.
///
/// # Errors
///
/// Those of `drive_recorded`. The manifest is as it was.
pub fn drive_kept<D: LogDisk, F: ManifestFile>(
    alloc: Global,
    disk: D,
    settings: Settings,
    steps: &[Step],
    ledgers: &mut LedgerRecorder<F>,
) -> Result<Ran<D>, OpenFault>
    ensures run { IsTrue (D.honest disk) → IsTrue ledgers.old.manifest.honest
        → IfOk result (λ ran. RunsKept (D.files disk) settings ledgers.old.manifest ledgers.new.manifest steps.now ran.answers.items ran.store ran.readers) }
    ensures recorded { IsTrue (D.honest disk) → IsTrue ledgers.old.manifest.honest
        → IfOk result (λ ran. AreLedgersRecorded ran.store.ledgers (durable ledgers.new.manifest)) }
    ensures honest { ledgers.new.manifest.honest ≡ ledgers.old.manifest.honest }
    ensures settings { ¬ (IsAllowed settings) → OnOk result ⊥ }
    ensures fails { IfErr result (λ fault. (fault ≡ OpenFault.Memory) ⊎ (IsTrue (D.honest disk) → OpenFails (D.files disk) settings fault)) }
    ensures unasked { OnErr result (ledgers.new.manifest ≡ ledgers.old.manifest) }
{
    let Ok(known) = ledgers.ledgers() else {
        return Err(OpenFault::Memory);
    };
    drive_recorded(
        alloc,
        disk,
        settings,
        &known.deleted,
        &known.fenced,
        steps,
        ledgers,
    )
}
