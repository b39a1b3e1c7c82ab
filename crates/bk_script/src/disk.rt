//! Disks that scripts run on.

ghost use Rattle.std.specs.Prelude.{◌≡◌, IsTrue, MatchResult};
ghost use Rattle.bk_disk.specs.Disk.{AreSound};
ghost use Rattle.bk_store.specs.Opening.{NeverFails};
ghost use Rattle.bk_script.specs.Run.{AnswersSteps};

use bk_disk::{DirDisk, LogDisk, MemDisk};
use bk_drive::{Answer, OpenFault, Settings, Step, drive};
use std::alloc::Global;

/// A disk that scripts run on. Each implementation drives a store of its own type, because the size
/// of the result of a run depends on the type of the disk.
pub trait ScriptDisk: LogDisk {
    /// Opens a store on the logs of this disk, performs the steps and returns their answers. `dead`
    /// lists the ledgers deleted earlier.
    ///
    /// # Errors
    ///
    /// Those of `drive`: not `Disk`, if the device never fails and views are sound.
    fn answers(
        self,
        alloc: Global,
        settings: Settings,
        dead: &[u64],
        steps: &[Step],
    ) -> Result<Vec<Answer>, OpenFault>
        ensures { MatchResult result
            (λ answers. AnswersSteps (IsTrue (Self.honest self)) (NeverFails Self.failures × AreSound Self.View.sound)
            (Self.files self) settings dead.now steps.now answers.items)
            (λ fault. NeverFails Self.failures → AreSound Self.View.sound → ¬ (fault ≡ OpenFault.Disk)) };
}

impl ScriptDisk for MemDisk {
    fn answers(
        self,
        alloc: Global,
        settings: Settings,
        dead: &[u64],
        steps: &[Step],
    ) -> Result<Vec<Answer>, OpenFault> {
        let ran = drive(alloc, self, settings, dead, steps)?;
        Ok(ran.answers)
    }
}

impl ScriptDisk for DirDisk {
    fn answers(
        self,
        alloc: Global,
        settings: Settings,
        dead: &[u64],
        steps: &[Step],
    ) -> Result<Vec<Answer>, OpenFault> {
        let ran = drive(alloc, self, settings, dead, steps)?;
        Ok(ran.answers)
    }
}
